//! What stands in the place of a row's last column.

use crate::line::Line;
use crate::{
    characters, fragments, layouts, lists, programs, regexes, scans, searches, states, syntax,
    trees,
};
use fancy_regex_engine::error::Error;
use fancy_regex_engine::vm::Scratch;
use std::alloc::{AllocError, Global};

/// What comes out for the key of a row of programs.
fn push_program(
    line: &mut Line,
    alloc: Global,
    table: &str,
    key: &str,
    scratch: &mut Scratch,
) -> Result<(), Error> {
    match table {
        "by_hand" => programs::push_run(line, alloc, key, scratch),
        "states" => states::push_calls(line, alloc, key),
        _ => layouts::push_layout(line, alloc, key),
    }
}

/// What comes out for the key of a row of lists.
fn push_list(line: &mut Line, alloc: Global, table: &str, key: &str) -> Result<(), Error> {
    if table == "scans" {
        scans::push_scans(line, alloc, key)
    } else {
        lists::push_list(line, alloc, table, key)
    }
}

/// What comes out for the key of a row of this table, whose name begins with its folder's.
pub fn push_outcome(
    line: &mut Line,
    alloc: Global,
    table: &str,
    key: &str,
    scratch: &mut Scratch,
) -> Result<(), Error> {
    let (folder, table) = table.split_once('/').unwrap_or((table, ""));
    match folder {
        "searches" => searches::push_search(line, alloc, table, key, scratch),
        "programs" => push_program(line, alloc, table, key, scratch),
        "characters" => characters::push_character(line, alloc, table, key),
        "trees" => trees::push_tree(line, alloc, table, key),
        "fragments" => fragments::push_fragment(line, alloc, table, key),
        "syntax" => syntax::push_pattern(line, alloc, table, key),
        "lists" => push_list(line, alloc, table, key),
        _ => regexes::push_regex(line, alloc, table, key),
    }
}

/// A refusal or a limit in the place of what was written before it.
pub fn finish(line: &mut Line, outcome: Result<(), Error>) -> Result<(), AllocError> {
    if let Err(error) = outcome {
        line.clear().debug(&error);
    }
    line.end()
}
