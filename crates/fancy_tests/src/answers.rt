//! What each call that searches answers, as a line `CALL ANSWER`.

use crate::line::Line;
use fancy_regex_engine::error::Error;
use fancy_regex_engine::expr::{ExprTree, is_well_formed};
use fancy_regex_engine::scratch::Scratch as SearchScratch;
use fancy_regex_engine::search::{SearchOptions, search};
use fancy_regex_engine::vm::{Prog, RunOptions, Scratch, run, run_default, run_spans};
use std::alloc::Global;

/// The numbers, or that there is no match, or why there is no answer.
fn push_numbers(said: &mut Line, call: &str, found: &Result<Option<Vec<usize>>, Error>) {
    said.text(call).space();
    match found {
        Ok(Some(numbers)) => said.debug(numbers),
        Ok(None) => said.text("none"),
        Err(error) => said.debug(error),
    };
    said.text("\n");
}

/// Start and end, the first two of the numbers.
fn push_pair(said: &mut Line, found: &Result<Option<(usize, usize)>, Error>) {
    said.text("run_spans ");
    match found {
        Ok(Some((from, to))) => said.text("[").value(*from).text(", ").value(*to),
        Ok(None) => said.text("none"),
        Err(error) => said.debug(error),
    };
    said.text("\n");
}

/// The run answers.
pub fn push_run(
    said: &mut Line,
    alloc: Global,
    prog: &Prog,
    text: &str,
    options: &RunOptions,
    scratch: &mut Scratch,
) {
    if options.fits(prog, text) {
        push_numbers(said, "run", &run(alloc, prog, text, options, scratch));
    } else {
        said.text("run does not fit\n");
    }
}

/// The run that answers with the span alone.
pub fn push_spans(
    said: &mut Line,
    alloc: Global,
    prog: &Prog,
    text: &str,
    options: &RunOptions,
    scratch: &mut Scratch,
) {
    if options.fits(prog, text) {
        push_pair(said, &run_spans(alloc, prog, text, options, scratch));
    }
}

/// The run with default options, where these are set.
pub fn push_default(said: &mut Line, alloc: Global, prog: &Prog, text: &str, options: &RunOptions) {
    let default = RunOptions {
        pos: options.pos,
        ..RunOptions::default()
    };
    if is_default(options) && default.fits(prog, text) {
        push_numbers(
            said,
            "run_default",
            &run_default(alloc, prog, text, options.pos),
        );
    }
}

/// Nothing but the place is set for the run.
fn is_default(options: &RunOptions) -> bool {
    let default = RunOptions::default();
    options.continued
        && !(options.anchored || options.not_empty || options.leftmost_longest)
        && options.backtrack_limit == default.backtrack_limit
        && options.step_limit == default.step_limit
}

/// The whole search.
pub fn push_search(
    said: &mut Line,
    alloc: Global,
    tree: &ExprTree,
    text: &str,
    options: &SearchOptions,
) {
    if is_well_formed(tree) && options.fits(text) {
        let mut scratch = SearchScratch::new(alloc);
        let answer = search(alloc, tree, text, options, &mut scratch);
        push_numbers(said, "search", &answer);
    } else {
        said.text("search does not fit\n");
    }
}
