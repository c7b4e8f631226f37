//! Patterns as they are typed: the trees that they spell, their faults, and what is found by them.

use crate::analysis::push_refusal;
use crate::columns::{push_spelled, split, with_codes};
use crate::layouts::context;
use crate::line::Line;
use crate::lists::{push_found, regex_of};
use fancy_pattern::error::PatternError;
use fancy_pattern::escape::escape;
use fancy_pattern::options::ParseOptions;
use fancy_pattern::pattern::parse_tree;
use fancy_regex_engine::error::Error;
use fancy_regex_engine::expr::{ExprTree, is_well_formed, read_tree};
use std::alloc::{AllocError, Global};

/// The options of these letters: flags by their own, `a` without unicode, `O` as Oniguruma, `N` no plain groups beside names.
fn options(letters: &str) -> ParseOptions {
    ParseOptions {
        case_insensitive: letters.contains('i'),
        multi_line: letters.contains('m'),
        dot_matches_new_line: letters.contains('s'),
        ignore_whitespace: letters.contains('x'),
        crlf: letters.contains('R'),
        swap_greed: letters.contains('U'),
        unicode: !letters.contains('a'),
        oniguruma: letters.contains('O'),
        ignore_numbered_groups_when_named_groups_exist: letters.contains('N'),
    }
}

/// The tree, and of what comes with it that which the notation has as well.
fn push_read(said: &mut Line, tree: &ExprTree) {
    said.debug(&tree.expr).space().value(tree.total_groups);
    said.space().debug(&tree.out_of_range_backref);
    said.space().value(tree.contains_subroutines);
    for group in tree.backrefs.iter() {
        said.space().value(*group);
    }
}

/// What the notation does not have: names, whether a number was written, and whether plain groups capture nothing.
fn push_others(line: &mut Line, tree: &ExprTree) {
    line.text("same");
    for (name, groups) in tree.named_groups.iter() {
        line.space().text(name.as_str()).text("=").debug(groups);
    }
    if tree.numeric_capture_group_references {
        line.text(" numbered");
    }
    if tree.numbered_groups_ignored {
        line.text(" ignored");
    }
}

/// The tree of the notation, as `push_read` writes it.
fn read(alloc: Global, notation: &str) -> Result<String, Error> {
    let mut said = Line::new(alloc);
    push_read(&mut said, &read_tree(alloc, notation)?);
    Ok(said.into_string()?)
}

/// Whether the tree is the one of the notation, and what the notation does not have.
fn push_compared(
    line: &mut Line,
    alloc: Global,
    tree: &ExprTree,
    notation: &str,
) -> Result<(), Error> {
    let wanted = read(alloc, notation)?;
    let mut said = Line::new(alloc);
    push_read(&mut said, tree);
    if said.as_str() == wanted.as_str() {
        push_others(line, tree);
    } else {
        line.differ(said.as_str());
    }
    Ok(())
}

/// The pattern text of what this pattern text spells.
fn text_again(alloc: Global, text: &str) -> Result<String, Error> {
    match parse_tree(alloc, text, ParseOptions::default()) {
        Ok(tree) => tree.expr.to_str(alloc, 0),
        Err(_) => Ok(String::from_str(alloc, "no pattern")?),
    }
}

/// The pattern text of the tree, if it spells a tree with the same pattern text.
fn push_returned(line: &mut Line, alloc: Global, tree: &ExprTree) -> Result<(), Error> {
    let text = tree.expr.to_str(alloc, 0)?;
    let again = text_again(alloc, text.as_str())?;
    if again.as_str() == text.as_str() {
        push_spelled(line, text.as_str());
    } else {
        line.differ(again.as_str());
    }
    Ok(())
}

/// The matches of the tree in the text.
fn push_searched(line: &mut Line, alloc: Global, tree: &ExprTree, text: &str) -> Result<(), Error> {
    let text = with_codes(alloc, text)?;
    push_found(line, alloc, &mut regex_of(alloc, tree, "")?, text.as_str())
}

/// What the table asks of the tree, by the column after it.
fn push_told(
    line: &mut Line,
    alloc: Global,
    table: &str,
    tree: &ExprTree,
    column: &str,
) -> Result<(), Error> {
    if !is_well_formed(tree) {
        line.differ("not well formed");
        return Ok(());
    }
    match table {
        "found" => push_searched(line, alloc, tree, column),
        "returned" => push_returned(line, alloc, tree),
        "analysed" => {
            push_refusal(line, alloc, tree, context(""));
            Ok(())
        }
        _ => push_compared(line, alloc, tree, column),
    }
}

/// What comes out for the pattern: its fault, or what the table asks of its tree.
fn push_parsed(
    line: &mut Line,
    alloc: Global,
    table: &str,
    pattern: &str,
    columns: &str,
) -> Result<(), Error> {
    let (letters, column) = split(columns);
    match parse_tree(alloc, pattern, options(letters)) {
        Ok(tree) => return push_told(line, alloc, table, &tree, column),
        Err(PatternError::Parse { at, kind }) => line.debug(&kind).space().value(at),
        Err(PatternError::Memory) => line.text("Memory"),
    };
    Ok(())
}

/// The pattern of a row of this table: the text as it stands, or as it is escaped.
fn pattern_of(alloc: Global, table: &str, column: &str) -> Result<String, AllocError> {
    let text = with_codes(alloc, column)?;
    if table.starts_with("escaped") {
        return escape(alloc, text.as_str());
    }
    Ok(text)
}

/// What comes out for the key of a row: PATTERN, letters, and the columns after them; or TEXT, which is escaped first.
pub fn push_pattern(line: &mut Line, alloc: Global, table: &str, key: &str) -> Result<(), Error> {
    let (column, columns) = split(key);
    let pattern = pattern_of(alloc, table, column)?;
    if table == "escaped" {
        push_spelled(line, pattern.as_str());
        return Ok(());
    }
    push_parsed(line, alloc, table, pattern.as_str(), columns)
}
