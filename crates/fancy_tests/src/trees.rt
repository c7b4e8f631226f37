//! What is said of a tree that is read.

use crate::analysis::{push_analysis, push_refusal};
use crate::changes::change_all;
use crate::columns::{split, written_out};
use crate::layouts::context;
use crate::line::Line;
use fancy_regex_engine::analyze::can_compile_as_anchored;
use fancy_regex_engine::error::Error;
use fancy_regex_engine::expr::{Expr, ExprTree, is_well_formed, read_tree};
use std::alloc::Global;

/// The tree; `<9*a>` is nine letters a.
pub fn read(alloc: Global, column: &str) -> Result<ExprTree, Error> {
    let text = written_out(alloc, column)?;
    read_tree(alloc, text.as_str())
}

/// The tree that is read of the text, or the byte of the fault.
fn push_read(line: &mut Line, alloc: Global, text: &str) {
    match read_tree(alloc, text) {
        Ok(tree) => line.debug(&tree.expr),
        Err(Error::TreeFault { at }) => line.value(at),
        Err(error) => line.debug(&error),
    };
}

/// How many groups the tree has, and the groups that its references name.
fn push_groups(line: &mut Line, tree: &ExprTree) {
    line.value(tree.total_groups);
    for group in tree.backrefs.iter() {
        line.space().value(*group);
    }
}

/// Its groups, the number that no group has, whether it has a number that names a group, and whether it has a call.
fn push_numbers(line: &mut Line, tree: &ExprTree) {
    if !tree.named_groups.is_empty() || tree.numbered_groups_ignored || !is_well_formed(tree) {
        line.text("names, or ill-formed");
        return;
    }
    push_groups(line, tree);
    line.space().debug(&tree.out_of_range_backref);
    line.space().value(tree.numeric_capture_group_references);
    line.space().value(tree.contains_subroutines);
}

/// The pattern text at this precedence, between quotes.
fn push_pattern(
    line: &mut Line,
    alloc: Global,
    expr: &Expr,
    precedence: &str,
) -> Result<(), Error> {
    let text = expr.to_str(alloc, precedence.parse::<u8>().unwrap_or(0))?;
    line.text("\"").text(text.as_str()).text("\"");
    Ok(())
}

/// What the table asks of the tree, by the columns after it.
fn push_told(
    line: &mut Line,
    alloc: Global,
    table: &str,
    tree: &mut ExprTree,
    columns: &str,
) -> Result<(), Error> {
    match table {
        "numbers" => push_numbers(line, tree),
        "patterns" => return push_pattern(line, alloc, &tree.expr, columns),
        "anchors" => {
            line.value(can_compile_as_anchored(&tree.expr));
        }
        "refusals" => push_refusal(line, alloc, tree, context(columns)),
        "changes" => {
            change_all(alloc, tree, columns)?;
            push_refusal(line, alloc, tree, context(""));
        }
        _ => return push_analysis(line, alloc, table, tree, context(columns)),
    }
    Ok(())
}

/// What comes out for the key of a row: TREE, and the columns after it, or a text.
pub fn push_tree(line: &mut Line, alloc: Global, table: &str, key: &str) -> Result<(), Error> {
    if table == "notation" {
        push_read(line, alloc, key);
        return Ok(());
    }
    let (tree, columns) = split(key);
    push_told(line, alloc, table, &mut read(alloc, tree)?, columns)
}
