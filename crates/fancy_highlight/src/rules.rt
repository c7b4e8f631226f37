//! Rules as they are applied.

use crate::left_out::{Error, LeftOut};
use crate::names::Name;
use std::alloc::{AllocError, Global};
use std::collections::BTreeMap;

/// What is said of a group of a match.
#[derive(Drop)]
pub(crate) struct Capture {
    pub(crate) group: usize,
    pub(crate) name: Name,
    /// The number of the rule whose rules apply to what it captures.
    pub(crate) rule: Option<usize>,
}

/// By what a region ends, or goes on from line to line.
#[derive(Drop)]
pub(crate) enum End {
    Never,
    /// The pattern with this number.
    Pattern(usize),
    /// A pattern that refers back to what the begin captured.
    Refers(String),
}

/// How the end of a region is tried.
#[derive(Clone, Copy, Debug, PartialEq, Eq)]
pub(crate) enum EndKind {
    First,
    Last,
    While,
}

/// What is said of a region, from a begin to an end.
#[derive(Drop)]
pub(crate) struct Region {
    /// The number of its begin's pattern.
    pub(crate) begin: usize,
    pub(crate) end: End,
    pub(crate) end_kind: EndKind,
    pub(crate) content_name: Name,
    pub(crate) begin_captures: Vec<Capture>,
    pub(crate) end_captures: Vec<Capture>,
}

/// What a rule is.
#[derive(Drop)]
pub(crate) enum Kind {
    /// It stands for the rules in it.
    List,
    /// It stands for a rule of another grammar, or if it has no name, for all of that grammar.
    Foreign {
        scope: String,
        name: String,
    },
    /// It is found by the pattern with this number.
    Match {
        pattern: usize,
        captures: Vec<Capture>,
    },
    Region(Region),
}

/// A rule of a grammar.
#[derive(Drop)]
pub(crate) struct Rule {
    /// Its path in the grammar, as a JSON pointer; behind the grammar's scope, if it is not the first.
    pub(crate) path: String,
    /// Its `name` as it is written; empty if it has none.
    pub(crate) label: String,
    pub(crate) name: Name,
    /// The numbers of the rules in it.
    pub(crate) patterns: Vec<usize>,
    pub(crate) kind: Kind,
}

impl Rule {
    /// The number of the pattern by which it is found, if it stands for no others.
    pub(crate) fn pattern(&self) -> Option<usize> {
        match &self.kind {
            Kind::Match { pattern, .. } => Some(*pattern),
            Kind::Region(region) => Some(region.begin),
            Kind::List | Kind::Foreign { .. } => None,
        }
    }

    /// The key of its pattern, or of that of its end.
    fn key(&self, is_end: bool) -> &'static str {
        match &self.kind {
            Kind::Region(region) if is_end && region.end_kind == EndKind::While => "while",
            Kind::Region(_) if is_end => "end",
            Kind::Region(_) => "begin",
            _ => "match",
        }
    }
}

/// A grammar that is read.
#[derive(Drop)]
pub(crate) struct Grammar {
    /// Its name.
    pub(crate) scope: String,
    /// The number of the rule that has all its rules in it.
    pub(crate) root: usize,
    /// The numbers of its rules with names.
    pub(crate) repository: BTreeMap<String, usize>,
}

/// Rules that apply in the scopes of a selector, beside those of the region.
#[derive(Drop)]
pub(crate) struct Injection {
    pub(crate) selector: String,
    /// At one place they come before the others.
    pub(crate) is_before: bool,
    /// The number of the rule whose rules these are.
    pub(crate) rule: usize,
}

/// The grammars that are read, and their rules.
#[derive(Drop)]
pub(crate) struct Library {
    pub(crate) rules: Vec<Rule>,
    pub(crate) grammars: Vec<Grammar>,
    pub(crate) injections: Vec<Injection>,
    /// The includes that name no rule of their own grammar, behind its scope.
    pub(crate) missing: Vec<String>,
}

impl Library {
    pub(crate) fn new(alloc: Global) -> Library {
        Library {
            rules: Vec::new(alloc),
            grammars: Vec::new(alloc),
            injections: Vec::new(alloc),
            missing: Vec::new(alloc),
        }
    }

    /// The name of the first grammar.
    pub(crate) fn name(&self) -> &str {
        match self.grammars.first() {
            Some(grammar) => grammar.scope.as_str(),
            None => "text",
        }
    }

    /// The grammar of this name.
    pub(crate) fn grammar(&self, scope: &str) -> Option<&Grammar> {
        for grammar in &self.grammars {
            if grammar.scope.as_str() == scope {
                return Some(grammar);
            }
        }
        None
    }

    /// What is said of the regions of the rule with this number, if it has any.
    pub(crate) fn region(&self, rule: usize) -> Option<&Region> {
        match &self.rules.get(rule)?.kind {
            Kind::Region(region) => Some(region),
            _ => None,
        }
    }

    /// The report that this rule is left out from this byte on, because of its pattern or that of its end.
    pub(crate) fn report(
        &self,
        alloc: Global,
        rule: usize,
        is_end: bool,
        at: usize,
        error: Error,
    ) -> Result<LeftOut, AllocError> {
        let (path, key, label) = match self.rules.get(rule) {
            Some(rule) => (rule.path.as_str(), rule.key(is_end), rule.label.as_str()),
            None => ("", "", ""),
        };
        Ok(LeftOut {
            rule,
            path: format!(in alloc; "{path}/{key}")?,
            name: String::from_str(alloc, label)?,
            at,
            error,
        })
    }
}
