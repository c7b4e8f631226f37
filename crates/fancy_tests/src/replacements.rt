//! Matches that are replaced.

use crate::columns::{names_of, number, split as columns};
use crate::line::Line;
use fancy_matches::matcher::Matcher;
use fancy_regex_engine::error::Error;
use fancy_replace::replace::{replace, replace_all, replacen};
use fancy_replace::template::Template;
use std::alloc::{AllocError, Global};

/// The template, by the groups of each name.
pub fn template(alloc: Global, named: &str, text: &str) -> Result<Template, AllocError> {
    let names = names_of(alloc, named)?;
    Template::new(alloc, text, &names)
}

/// The text with its matches replaced, by the call that the column names.
fn push_replaced(
    line: &mut Line,
    alloc: Global,
    regex: &mut Matcher,
    text: &str,
    limit: &str,
    template: &Template,
) -> Result<(), Error> {
    let made = match limit {
        "all" => replace_all(alloc, regex, text, template),
        "first" => replace(alloc, regex, text, template),
        _ => replacen(alloc, regex, text, number(limit), template),
    }?;
    line.text(made.as_ref());
    Ok(())
}

/// TEXT, how many at most, names, a template: the text with its matches replaced.
pub fn push_replacement(
    line: &mut Line,
    alloc: Global,
    regex: &mut Matcher,
    text: &str,
    rest: &str,
) -> Result<(), Error> {
    let (limit, rest) = columns(rest);
    let (named, written) = columns(rest);
    let template = template(alloc, named, written)?;
    push_replaced(line, alloc, regex, text, limit, &template)
}
