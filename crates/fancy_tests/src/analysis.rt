//! What the analysis says of a tree.

use crate::line::Line;
use fancy_regex_engine::analyze::{AnalyzeContext, Info, analyze};
use fancy_regex_engine::error::Error;
use fancy_regex_engine::expr::{Expr, ExprTree, is_well_formed};
use std::alloc::Global;

/// Why there is no analysis.
fn push_error(line: &mut Line, error: &Error) {
    match error {
        Error::CompileError(error) => line.text("Some(").debug(error).text(")"),
        _ => line.debug(error),
    };
}

/// How the analysis refuses the tree.
pub fn push_refusal(line: &mut Line, alloc: Global, tree: &ExprTree, context: AnalyzeContext) {
    if !is_well_formed(tree) {
        line.text("not well formed");
        return;
    }
    match analyze(alloc, tree, context) {
        Ok(_info) => {
            line.text("None");
        }
        Err(error) => push_error(line, &error),
    }
}

/// How many characters the tree takes at least and at most, and whether always as many.
fn push_size(line: &mut Line, info: &Info<'_>) {
    line.value(info.min_size()).space().value(info.max_size());
    line.space().value(info.const_size());
}

/// A word where it holds.
fn push_word(line: &mut Line, holds: bool, word: &str) {
    if holds {
        line.text(word);
    }
}

/// What is said of the node: group numbers, sizes, and what holds.
fn push_facts(line: &mut Line, info: &Info<'_>) {
    line.value(info.start_group()).text("..");
    line.value(info.end_group()).space();
    line.value(info.min_size())
        .text("..")
        .value(info.max_size());
    push_word(line, info.const_size(), " const");
    push_word(line, info.hard(), " hard");
    push_word(line, info.is_read(), " read");
    push_word(line, info.in_look_around(), " look");
    line.text(";");
}

/// What is said of the root and of each of its children.
fn push_nodes(line: &mut Line, info: &Info<'_>) {
    push_facts(line, info);
    for child in info.children() {
        line.space();
        push_facts(line, child);
    }
}

/// The options that an analysis keeps, and whether its expression is a concatenation.
fn push_options(line: &mut Line, info: &Info<'_>) {
    line.value(info.explicit_capture_group_0()).space();
    line.value(info.find_not_empty()).space();
    line.value(info.end_text_option());
    line.text(match info.expr() {
        Expr::Concat(_) => " cat",
        _ => " -",
    });
}

/// What the table asks of the tree's analysis.
pub fn push_analysis(
    line: &mut Line,
    alloc: Global,
    table: &str,
    tree: &ExprTree,
    context: AnalyzeContext,
) -> Result<(), Error> {
    if !is_well_formed(tree) {
        return Err(Error::TreeFault { at: 0 });
    }
    let info = analyze(alloc, tree, context)?;
    match table {
        "sizes" => push_size(line, &info),
        "nodes" => push_nodes(line, &info),
        _ => push_options(line, &info),
    }
    Ok(())
}
