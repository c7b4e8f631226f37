//! The first match and its groups, or that there is none.

ghost use Rattle.fancy_expr.specs.Sound.{IsWellFormedTree};

use crate::excerpt::{head, push_times};
use crate::faults::tree_trouble;
use crate::marks::{Marked, MarkedLeaf};
use crate::outcome::{Answer, Trouble, Written, search_trouble, warned};
use crate::request::Request;
use crate::source::{Span, read};
use fancy_characters::classes::class_ranges;
use fancy_characters::places::is_place;
use fancy_expr::expr::{Expr, ExprTree};
use fancy_matches::found::{Captures, Match};
use fancy_matches::matcher::Matcher;
use fancy_railroad::names::GroupNames;
use std::alloc::{AllocError, Global};
use std::collections::BTreeMap;

/// How many characters of what a match takes are shown.
const SHOWN: usize = 60;

/// The tree, compiled for searches.
fn regex(request: &Request, tree: &ExprTree) -> Result<Matcher, Trouble>
    requires { IsWellFormedTree tree.now }
{
    let options = request.options();
    if !options.fits("") {
        let why = "these options do not fit together";
        return Err(Trouble::Words(String::from_str(request.alloc, why)?));
    }
    match Matcher::new(request.alloc, tree, &options, request.arguments.backtracks) {
        Ok(regex) => {
            let mut regex = regex;
            regex.limit(request.limits);
            Ok(regex)
        }
        Err(error) => Err(tree_trouble(request, tree, error)?),
    }
}

/// The groups of a tree.
#[derive(Drop)]
pub struct Groups {
    pub count: usize,
    pub names: GroupNames,
}

impl Groups {
    pub fn of(alloc: Global, tree: &ExprTree) -> Result<Groups, AllocError> {
        Ok(Groups {
            count: tree.total_groups,
            names: GroupNames::new(alloc, &tree.named_groups)?,
        })
    }
}

/// A tree that is compiled for searches, and what of the tree their answers speak of.
#[derive(Drop)]
pub struct Searcher {
    pub regex: Matcher,
    pub groups: Groups,
    /// The numbers of each name.
    pub numbers: BTreeMap<String, Vec<usize>>,
}

/// The tree that is asked about, compiled for searches.
pub fn searcher_of(request: &Request) -> Result<Searcher, Trouble> {
    let tree = read(request)?;
    let groups = Groups::of(request.alloc, &tree)?;
    let regex = regex(request, &tree)?;
    Ok(Searcher {
        regex,
        groups,
        numbers: tree.into_named_groups(),
    })
}

/// Writes where a part of the text is, and what is there in quotes, or its beginning.
pub fn push_part(out: &mut String, text: &str, (start, end): Span) -> Written {
    let (shown, is_cut) = head(text.get(start..end).unwrap_or(""), SHOWN);
    let dots = if is_cut { ".." } else { "" };
    writeln!(out, "{start}..{end}  {shown:?}{dots}")
}

/// Writes a group of a match on a line, where group 0 is the match: where it is, if it is set, and what it takes.
pub fn push_group(
    out: &mut String,
    text: &str,
    names: &GroupNames,
    group: usize,
    span: Option<Span>,
) -> Written {
    if group == 0 {
        out.push_str("match")?;
    } else {
        names.push_group(out, group)?;
    }
    out.push_str("  ")?;
    match span {
        Some(span) => push_part(out, text, span),
        None => out.push_str("not set\n"),
    }
}

/// Where the match is.
pub fn span_of(found: Match<'_>) -> Span {
    (found.start(), found.end())
}

/// Writes each group of the match on a line of its own, after this many spaces.
pub fn push_groups(
    out: &mut String,
    text: &str,
    captures: &Captures<'_>,
    groups: &Groups,
    indent: usize,
) -> Written {
    for group in 1..=groups.count {
        push_times(out, ' ', indent)?;
        let span = captures.get(group).map(span_of);
        push_group(out, text, &groups.names, group, span)?;
    }
    Ok(())
}

/// The trouble of a place inside a character, or after the text.
pub fn no_place(alloc: Global, pos: usize) -> Result<Trouble, AllocError> {
    Ok(Trouble::Words(format!(in alloc; "no character of the text begins at byte {pos}")?))
}

/// The first match from the place on where the search is to begin, and the groups of the tree.
pub fn captures<'t>(
    request: &Request,
    text: &'t str,
) -> Result<(Option<Captures<'t>>, Groups), Trouble> {
    let pos = request.arguments.pos;
    if !is_place(text.as_bytes(), pos) {
        return Err(no_place(request.alloc, pos)?);
    }
    let (found, passed, groups) = {
        let mut searcher = searcher_of(request)?;
        let found = searcher.regex.captures_from(text, pos);
        (found, searcher.regex.passed(), searcher.groups)
    };
    match found {
        Ok(found) => Ok((found, groups)),
        Err(error) => Err(search_trouble(error, passed)),
    }
}

/// The first match from a place on, with its groups.
pub fn find(request: &Request, text: &str) -> Answer {
    let (found, groups) = captures(request, text)?;
    let Some(captures) = found else {
        return no_match(request);
    };
    let mut out = String::from_str(request.alloc, "match  ")?;
    push_part(&mut out, text, span_of(captures.whole()))?;
    push_groups(&mut out, text, &captures, &groups, 0)?;
    Ok(out)
}

/// What is to be warned of: the first of these leaves that is a class without characters. Of a text that is no class
/// nothing is known.
fn warning_of(
    alloc: Global,
    leaves: &[MarkedLeaf<'_>],
    unicode: bool,
) -> Result<String, AllocError> {
    for leaf in leaves {
        if let Expr::Delegate { inner, casei } = leaf.expr {
            let class = class_ranges(alloc, inner.as_str(), *casei, unicode)?;
            if matches!(&class, Some(class) if class.ranges.is_empty()) {
                return format!(in alloc; "the class {inner} matches no character");
            }
        }
    }
    Ok(String::new(alloc))
}

/// What is to be warned of in the tree that is asked about, if anything is.
fn warning(request: &Request) -> Answer {
    let tree = read(request)?;
    let mut marked = Marked::new(request.alloc);
    marked.push_tree(&tree.expr)?;
    Ok(warning_of(request.alloc, &marked.leaves, !request.arguments.ascii)?)
}

/// That there is no match, with a warning of a class that matches no character.
pub fn no_match(request: &Request) -> Answer {
    let warning = warning(request)?;
    warned(String::from_str(request.alloc, "no match\n")?, warning)
}
