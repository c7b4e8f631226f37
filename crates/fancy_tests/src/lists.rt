//! Lists of matches and of pieces, and texts with their matches replaced.

use crate::columns::{add_words, number, split as columns, with_line_ends, written_out};
use crate::line::Line;
use crate::replacements::push_replacement;
use crate::spans::{close, push_group, push_item, push_none};
use fancy_matches::found::Captures;
use fancy_matches::matcher::Matcher;
use fancy_regex_engine::arguments::read_arguments;
use fancy_regex_engine::error::Error;
use fancy_regex_engine::expr::{ExprTree, is_well_formed, read_tree};
use fancy_replace::split::{split, splitn};
use std::alloc::Global;

/// The most groups that are printed.
const MOST_GROUPS: usize = 10;

/// The regex of a tree by these words.
pub fn regex_of(alloc: Global, tree: &ExprTree, words: &str) -> Result<Matcher, Error> {
    let mut all = Vec::new(alloc);
    add_words(&mut all, alloc, words)?;
    let Some(arguments) = read_arguments(&all) else {
        return Err(Error::TreeFault { at: 0 });
    };
    let options = arguments.options();
    if !options.fits("") || !is_well_formed(tree) {
        return Err(Error::TreeFault { at: 0 });
    }
    Matcher::new(alloc, tree, &options, arguments.backtracks)
}

/// The regex of a tree in the notation by these words.
pub fn regex(alloc: Global, tree: &str, words: &str) -> Result<Matcher, Error> {
    let tree = read_tree(alloc, tree)?;
    regex_of(alloc, &tree, words)
}

/// A match with its groups that are set on the line, and alone among the spans.
fn push_captures(line: &mut Line, spans: &mut Line, captures: &Captures<'_>) {
    let whole = captures.whole();
    push_item(spans, whole.start(), whole.end());
    push_item(line, whole.start(), whole.end());
    for group in 1..MOST_GROUPS {
        if let Some(found) = captures.get(group) {
            push_group(line, group, found.start(), found.end());
        }
    }
}

/// All matches, by the iterator that gives groups.
fn push_all_captures(
    line: &mut Line,
    spans: &mut Line,
    regex: &mut Matcher,
    text: &str,
) -> Result<(), Error> {
    for captures in regex.captures_iter(text) {
        push_captures(line, spans, &captures?);
    }
    Ok(())
}

/// All matches, by the one that gives none.
fn push_all_matches(spans: &mut Line, regex: &mut Matcher, text: &str) -> Result<(), Error> {
    for found in regex.find_iter(text) {
        let found = found?;
        push_item(spans, found.start(), found.end());
    }
    Ok(())
}

/// The matches with their groups, where both iterators agree on where they are.
pub fn push_found(
    line: &mut Line,
    alloc: Global,
    regex: &mut Matcher,
    text: &str,
) -> Result<(), Error> {
    let (mut spans, mut others) = (Line::new(alloc), Line::new(alloc));
    push_all_captures(line, &mut spans, regex, text)?;
    push_all_matches(&mut others, regex, text)?;
    close(line, spans.as_str(), others.as_str());
    Ok(())
}

/// The same in the text of a column.
fn push_matches(
    line: &mut Line,
    alloc: Global,
    regex: &mut Matcher,
    text: &str,
) -> Result<(), Error> {
    let text = with_line_ends(alloc, written_out(alloc, text)?.as_str())?;
    push_found(line, alloc, regex, text.as_str())
}

/// TEXT, how many at most: the pieces.
fn push_pieces(line: &mut Line, regex: &mut Matcher, text: &str, limit: &str) -> Result<(), Error> {
    if limit == "all" {
        for piece in split(regex, text) {
            line.text("[").text(piece?).text("]");
        }
    } else {
        for piece in splitn(regex, text, number(limit)) {
            line.text("[").text(piece?).text("]");
        }
    }
    push_none(line);
    Ok(())
}

/// What the table asks of the regex.
fn push_told(
    line: &mut Line,
    alloc: Global,
    table: &str,
    regex: &mut Matcher,
    text: &str,
    rest: &str,
) -> Result<(), Error> {
    match table {
        "matches" => push_matches(line, alloc, regex, text),
        "splits" => push_pieces(line, regex, text, rest),
        _ => push_replacement(line, alloc, regex, text, rest),
    }
}

/// TREE, TEXT, and more: what the table asks of the regex of the tree.
pub fn push_list(line: &mut Line, alloc: Global, table: &str, key: &str) -> Result<(), Error> {
    let (tree, rest) = columns(key);
    let (text, rest) = columns(rest);
    let words = if table == "matches" { rest } else { "" };
    push_told(
        line,
        alloc,
        table,
        &mut regex(alloc, tree, words)?,
        text,
        rest,
    )
}
