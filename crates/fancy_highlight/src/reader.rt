//! The reader of grammars.

use crate::error::GrammarError;
use crate::names::Name;
use crate::patterns::Patterns;
use crate::plist::json_of;
use crate::references::refers;
use crate::rules::{Capture, End, EndKind, Grammar, Injection, Kind, Library, Region, Rule};
use crate::scopes::Scopes;
use crate::selectors::alternatives;
use crate::values::{flag, kind_of, pattern, text};
use serde_json::Value;
use std::alloc::{AllocError, Global};
use std::collections::BTreeMap;

/// How deep rules may nest in one another: deeper than JSON nests that can be read.
const MOST_DEPTH: usize = 250;

/// Reads the rules of one grammar.
#[derive(Drop)]
pub(crate) struct Reader<'r> {
    alloc: Global,
    library: &'r mut Library,
    patterns: &'r mut Patterns,
    scopes: &'r mut Scopes,
    /// The name of the grammar.
    scope: &'r str,
    /// The number of the rule that has all rules of the grammar in it.
    root: usize,
    /// The repositories around a rule, the innermost last: the numbers of their rules.
    repositories: Vec<BTreeMap<String, usize>>,
}

impl Reader<'_> {
    /// Adds a rule in which nothing is, and returns its number.
    fn add(&mut self, path: String) -> Result<usize, AllocError> {
        let number = self.library.rules.len();
        self.library.rules.push(Rule {
            path,
            label: String::new(self.alloc),
            name: Name::Fixed(Vec::new(self.alloc)),
            patterns: Vec::new(self.alloc),
            kind: Kind::List,
        })?;
        Ok(number)
    }

    /// The path of a rule that is in the one with this number.
    fn path(&self, number: usize, member: &str, key: &str) -> Result<String, AllocError> {
        let path = match self.library.rules.get(number) {
            Some(rule) => rule.path.as_str(),
            None => "",
        };
        format!(in self.alloc; "{path}/{member}/{key}")
    }

    /// The name that the member is; none if there is no such member.
    fn name(&mut self, value: &Value, member: &str) -> Result<Name, AllocError> {
        let name = text(value, member).unwrap_or("");
        if name.contains('$') {
            return Ok(Name::Made(String::from_str(self.alloc, name)?));
        }
        let mut numbers = Vec::new(self.alloc);
        for name in name.split_whitespace() {
            let number = self.scopes.name_number(name)?;
            numbers.push(number)?;
        }
        Ok(Name::Fixed(numbers))
    }

    /// By what a region ends, or goes on, whose member this is.
    fn end(&mut self, value: &Value, member: &str) -> Result<End, AllocError> {
        match text(value, member) {
            None => Ok(End::Never),
            Some(end) if refers(end) => Ok(End::Refers(String::from_str(self.alloc, end)?)),
            Some(end) => Ok(End::Pattern(self.patterns.number(end, false)?)),
        }
    }

    /// The number of the rule of this name in the innermost repository that has it.
    fn named(&mut self, name: &str) -> Result<Option<usize>, AllocError> {
        for repository in self.repositories.iter().rev() {
            if let Some(number) = repository.get(name) {
                return Ok(Some(*number));
            }
        }
        let scope = self.scope;
        let include = format!(in self.alloc; "{scope}#{name}")?;
        let is_known = self
            .library
            .missing
            .iter()
            .any(|missing| missing.as_str() == include.as_str());
        if !is_known {
            self.library.missing.push(include)?;
        }
        Ok(None)
    }

    /// The number of the rule that an include stands for, if it is there.
    fn include(&mut self, include: &str, path: String) -> Result<Option<usize>, AllocError> {
        if include == "$self" {
            return Ok(Some(self.root));
        }
        if include == "$base" {
            return Ok(Some(0));
        }
        if let Some(name) = include.strip_prefix('#') {
            return self.named(name);
        }
        let (scope, name) = include.split_once('#').unwrap_or((include, ""));
        let kind = Kind::Foreign {
            scope: String::from_str(self.alloc, scope)?,
            name: String::from_str(self.alloc, name)?,
        };
        let number = self.add(path)?;
        self.set_kind(number, kind);
        Ok(Some(number))
    }

    fn set_kind(&mut self, number: usize, kind: Kind) {
        if let Some(rule) = self.library.rules.get_mut(number) {
            rule.kind = kind;
        }
    }

    /// Sets which rules are in the one with this number.
    fn set_patterns(&mut self, number: usize, patterns: Vec<usize>) {
        if let Some(rule) = self.library.rules.get_mut(number) {
            rule.patterns = patterns;
        }
    }

    /// Sets the name of the rule with this number.
    fn set_name(&mut self, number: usize, value: &Value) -> Result<(), AllocError> {
        let name = self.name(value, "name")?;
        let label = String::from_str(self.alloc, text(value, "name").unwrap_or(""))?;
        if let Some(rule) = self.library.rules.get_mut(number) {
            rule.name = name;
            rule.label = label;
        }
        Ok(())
    }

    /// What is said of a group in the rule with this number.
    #[cycle(reading)]
    fn capture(
        &mut self,
        rule: usize,
        member: &str,
        key: &str,
        value: &Value,
        depth: usize,
    ) -> Result<Option<Capture>, AllocError> {
        let Ok(group) = key.parse::<usize>() else {
            return Ok(None);
        };
        let name = self.name(value, "name")?;
        let mut inner = None;
        if depth > 0 && value.get("patterns").is_some() {
            let path = self.path(rule, member, key)?;
            let number = self.add(path)?;
            let patterns = self.patterns(number, value, depth - 1)?;
            self.set_patterns(number, patterns);
            inner = Some(number);
        }
        Ok(Some(Capture {
            group,
            name,
            rule: inner,
        }))
    }

    /// What is said of groups in the member, or in `captures`, if there is no such member: the first groups first.
    #[cycle(reading)]
    fn captures(
        &mut self,
        rule: usize,
        value: &Value,
        member: &str,
        depth: usize,
    ) -> Result<Vec<Capture>, AllocError> {
        let (member, captures) = match value.get(member) {
            Some(captures) => (member, Some(captures)),
            None => ("captures", value.get("captures")),
        };
        let mut groups = BTreeMap::new(self.alloc);
        if let Some(Value::Object(members)) = captures {
            for (key, value) in members {
                if let Some(capture) = self.capture(rule, member, key.as_str(), value, depth)? {
                    groups.insert(capture.group, capture)?;
                }
            }
        }
        let mut list = Vec::new(self.alloc);
        for (_, capture) in groups {
            list.push(capture)?;
        }
        Ok(list)
    }

    /// What the region with this number is.
    #[cycle(reading)]
    fn region(
        &mut self,
        number: usize,
        value: &Value,
        begin: &str,
        depth: usize,
    ) -> Result<Region, AllocError> {
        let is_while = text(value, "while").is_some();
        let (end, captures) = if is_while {
            ("while", "whileCaptures")
        } else {
            ("end", "endCaptures")
        };
        let begin = self.patterns.number(begin, false)?;
        let end = self.end(value, end)?;
        let end_kind = match (is_while, flag(value, "applyEndPatternLast")) {
            (true, _) => EndKind::While,
            (false, true) => EndKind::Last,
            (false, false) => EndKind::First,
        };
        let content_name = self.name(value, "contentName")?;
        let begin_captures = self.captures(number, value, "beginCaptures", depth)?;
        let end_captures = self.captures(number, value, captures, depth)?;
        Ok(Region {
            begin,
            end,
            end_kind,
            content_name,
            begin_captures,
            end_captures,
        })
    }

    /// Reads the rule with this number.
    #[cycle(reading)]
    fn rule_at(&mut self, number: usize, value: &Value, depth: usize) -> Result<(), AllocError> {
        if depth == 0 || flag(value, "disabled") {
            return Ok(());
        }
        let has_repository = self.repository(number, value, depth - 1)?;
        self.set_name(number, value)?;
        if let Some(found) = pattern(value, "match") {
            let pattern = self.patterns.number(found, false)?;
            let captures = self.captures(number, value, "captures", depth - 1)?;
            self.set_kind(number, Kind::Match { pattern, captures });
        } else {
            let patterns = self.patterns(number, value, depth - 1)?;
            self.set_patterns(number, patterns);
            if let Some(begin) = pattern(value, "begin") {
                let region = self.region(number, value, begin, depth - 1)?;
                self.set_kind(number, Kind::Region(region));
            }
        }
        if has_repository {
            let _ = self.repositories.pop();
        }
        Ok(())
    }

    /// Reads a rule in the one with this number; returns the number of what it stands for.
    #[cycle(reading)]
    fn rule(
        &mut self,
        value: &Value,
        path: String,
        depth: usize,
    ) -> Result<Option<usize>, AllocError> {
        match text(value, "include") {
            _ if flag(value, "disabled") => Ok(None),
            Some(include) => self.include(include, path),
            None => {
                let number = self.add(path)?;
                if depth > 0 {
                    self.rule_at(number, value, depth - 1)?;
                }
                Ok(Some(number))
            }
        }
    }

    /// Reads the rules in the one with this number.
    #[cycle(reading)]
    fn patterns(
        &mut self,
        number: usize,
        value: &Value,
        depth: usize,
    ) -> Result<Vec<usize>, AllocError> {
        let mut numbers = Vec::new(self.alloc);
        if depth == 0 {
            return Ok(numbers);
        }
        if let Some(include) = text(value, "include") {
            let path = self.path(number, "include", "")?;
            if let Some(found) = self.include(include, path)? {
                numbers.push(found)?;
            }
        }
        let Some(Value::Array(list)) = value.get("patterns") else {
            return Ok(numbers);
        };
        for (index, value) in list.iter().enumerate() {
            let key = format!(in self.alloc; "{index}")?;
            let path = self.path(number, "patterns", key.as_str())?;
            if let Some(found) = self.rule(value, path, depth - 1)? {
                numbers.push(found)?;
            }
        }
        Ok(numbers)
    }

    /// Reads the repository of the rule with this number; returns whether it has one.
    #[cycle(reading)]
    fn repository(
        &mut self,
        number: usize,
        value: &Value,
        depth: usize,
    ) -> Result<bool, AllocError> {
        let Some(Value::Object(members)) = value.get("repository") else {
            return Ok(false);
        };
        let mut names = BTreeMap::new(self.alloc);
        let mut numbers = Vec::new(self.alloc);
        for (name, _) in members {
            let path = self.path(number, "repository", name.as_str())?;
            let number = self.add(path)?;
            names.insert(String::from_str(self.alloc, name.as_str())?, number)?;
            numbers.push(number)?;
        }
        self.repositories.push(names)?;
        for ((_, value), number) in members.iter().zip(numbers.iter()) {
            if depth > 0 {
                self.rule_at(*number, value, depth - 1)?;
            }
        }
        Ok(true)
    }

    /// Adds an injection for each alternative of a selector: rules in the one with this number.
    fn inject(&mut self, selector: &str, rule: usize) -> Result<(), AllocError> {
        for alternative in alternatives(self.alloc, selector)? {
            let alternative = alternative.trim();
            let (is_before, selector) = match alternative.strip_prefix("L:") {
                Some(selector) => (true, selector),
                None => (false, alternative.strip_prefix("R:").unwrap_or(alternative)),
            };
            let selector = String::from_str(self.alloc, selector)?;
            self.library.injections.push(Injection {
                selector,
                is_before,
                rule,
            })?;
        }
        Ok(())
    }

    /// Reads the injections of the grammar, if it is the first, and those that it is itself.
    fn injections(&mut self, value: &Value) -> Result<(), AllocError> {
        if let Some(selector) = text(value, "injectionSelector") {
            let root = self.root;
            self.inject(selector, root)?;
        }
        let Some(Value::Object(members)) = value.get("injections") else {
            return Ok(());
        };
        for (selector, value) in members {
            if self.root == 0 {
                let path = self.path(0, "injections", selector.as_str())?;
                let number = self.add(path)?;
                self.rule_at(number, value, MOST_DEPTH)?;
                self.inject(selector.as_str(), number)?;
            }
        }
        Ok(())
    }

    /// Reads the grammar.
    fn grammar(&mut self, value: &Value) -> Result<(), AllocError> {
        let path = if self.root == 0 { "" } else { self.scope };
        let path = String::from_str(self.alloc, path)?;
        let root = self.add(path)?;
        let has_repository = self.repository(root, value, MOST_DEPTH)?;
        let patterns = self.patterns(root, value, MOST_DEPTH)?;
        self.set_patterns(root, patterns);
        self.injections(value)?;
        let repository = match self.repositories.pop() {
            Some(repository) if has_repository => repository,
            _ => BTreeMap::new(self.alloc),
        };
        let scope = String::from_str(self.alloc, self.scope)?;
        let grammar = Grammar {
            scope,
            root,
            repository,
        };
        self.library.grammars.push(grammar)?;
        Ok(())
    }
}

/// The object that a text in JSON is.
fn object_of(alloc: Global, json: &str) -> Result<Value, GrammarError> {
    let value = match Value::from_str(alloc, json) {
        Ok(value) => value,
        Err(error) if error.is_memory() => return Err(GrammarError::Memory),
        Err(error) => {
            return Err(GrammarError::Json {
                line: error.line(),
                column: error.column(),
            });
        }
    };
    if value.as_object().is_none() {
        return Err(GrammarError::NoObject(kind_of(&value)));
    }
    Ok(value)
}

/// Reads a grammar, in JSON or as a property list in XML, into the library, under this name or else its own.
pub(crate) fn read_grammar(
    alloc: Global,
    library: &mut Library,
    patterns: &mut Patterns,
    scopes: &mut Scopes,
    scope: Option<&str>,
    rules: &str,
) -> Result<(), GrammarError> {
    let value = if rules.trim_start().starts_with('<') {
        let json = json_of(alloc, rules)?;
        object_of(alloc, json.as_str())?
    } else {
        object_of(alloc, rules)?
    };
    let own = text(&value, "scopeName").unwrap_or("text");
    let root = library.rules.len();
    let mut reader = Reader {
        alloc,
        library,
        patterns,
        scopes,
        scope: scope.unwrap_or(own),
        root,
        repositories: Vec::new(alloc),
    };
    reader.grammar(&value)?;
    Ok(())
}
