//! Trees and their programs.

use crate::columns::{push_spelled, split};
use crate::line::Line;
use fancy_regex_engine::analyze::AnalyzeContext;
use fancy_regex_engine::compile::CompileOptions;
use fancy_regex_engine::error::Error;
use fancy_regex_engine::expr::{ExprTree, is_well_formed, read_tree};
use fancy_regex_engine::search::{Compiled, options_fit};
use fancy_regex_engine::vm::{Insn, Prog};
use std::alloc::Global;

/// The program of a tree.
pub fn compiled(
    alloc: Global,
    tree: &ExprTree,
    context: AnalyzeContext,
    options: CompileOptions,
) -> Result<Prog, Error> {
    if !is_well_formed(tree) || !options_fit(context, options) {
        return Err(Error::TreeFault { at: 0 });
    }
    Ok(Compiled::new(alloc, tree, context, options)?.into_program())
}

/// How the letters say that a tree is analysed.
pub fn context(letters: &str) -> AnalyzeContext {
    AnalyzeContext {
        explicit_capture_group_0: letters.contains('E'),
        find_not_empty: letters.contains('N'),
        disallow_empty_match_at_eof_after_newline: letters.contains('T') || letters.contains('R'),
        leftmost_longest: letters.contains('L'),
    }
}

/// The program of the tree, compiled anchored where there is no `S`.
fn program(alloc: Global, tree: &ExprTree, letters: &str) -> Result<Prog, Error> {
    let options = CompileOptions {
        anchored: !letters.contains('S'),
        disallow_empty_match_at_eof_after_newline: letters.contains('R'),
        ..CompileOptions::default()
    };
    compiled(alloc, tree, context(letters), options)
}

/// The instructions, in which ends of lines are `\n` and `\r`.
fn push_body(line: &mut Line, alloc: Global, insns: &[Insn]) {
    let mut text = Line::new(alloc);
    for insn in insns {
        if !text.is_empty() {
            text.space();
        }
        text.value(insn);
    }
    push_spelled(line, text.as_str());
}

/// The instructions of the program of TREE, with the options of the letters after it.
pub fn push_layout(line: &mut Line, alloc: Global, key: &str) -> Result<(), Error> {
    let (tree, letters) = split(key);
    let prog = program(alloc, &read_tree(alloc, tree)?, letters)?;
    push_body(line, alloc, prog.body());
    Ok(())
}
