//! Programs that are built by hand.

use crate::agreement::push_agreed;
use crate::answers::{push_default, push_run as push_answer};
use crate::columns::{limits, pair, split, with_codes};
use crate::instructions::instruction;
use crate::line::Line;
use fancy_regex_engine::error::Error;
use fancy_regex_engine::vm::{Insn, Prog, ProgParts, RunOptions, Scratch};
use std::alloc::Global;

/// What a program without explicit group 0 is besides its instructions.
fn parts(numbers: &str, end_text: bool) -> ProgParts {
    let (total_groups, slots) = pair(numbers);
    ProgParts {
        max_size: usize::MAX,
        total_groups,
        slots,
        explicit_group_0: false,
        find_not_empty: false,
        leftmost_longest: false,
        keeps_start: false,
        end_text,
        unicode: true,
    }
}

/// The instructions that the words spell.
fn body(alloc: Global, words: &str) -> Result<Vec<Insn>, Error> {
    let mut body = Vec::new(alloc);
    for word in words.split_whitespace() {
        body.push(instruction(alloc, word)?)?;
    }
    Ok(body)
}

/// The place, the backtrack limit and the step limit; the default ones where there are none.
fn options(words: &str) -> RunOptions {
    let (pos, backtracks, steps) = limits(words);
    let default = RunOptions::default();
    RunOptions {
        pos,
        backtrack_limit: backtracks.unwrap_or(default.backtrack_limit as u64) as usize,
        step_limit: steps.unwrap_or(default.step_limit),
        ..default
    }
}

/// What the program is besides its text, where no text is given.
fn push_parts(line: &mut Line, prog: &Prog) {
    line.value(prog.body().len()).space();
    line.value(prog.total_groups()).space();
    line.value(prog.max_size()).space();
    line.value(prog.explicit_group_0()).space();
    line.value(prog.find_not_empty()).space();
    line.value(matches!(prog.body().last(), Some(Insn::End)));
    line.space().value(std::mem::size_of::<Insn>() <= 64);
}

/// What the run answers, and the one with default options, where these are set.
fn push_answers(
    line: &mut Line,
    alloc: Global,
    prog: &Prog,
    text: &str,
    words: &str,
    scratch: &mut Scratch,
) {
    let options = options(words);
    let mut said = Line::new(alloc);
    push_answer(&mut said, alloc, prog, text, &options, scratch);
    push_default(&mut said, alloc, prog, text, &options);
    push_agreed(line, said.as_str());
}

/// What is asked of the program: what it is besides its text, or its numbers.
fn push_told(
    line: &mut Line,
    alloc: Global,
    prog: &Prog,
    text: &str,
    after: &str,
    scratch: &mut Scratch,
) -> Result<(), Error> {
    if after == "parts" {
        push_parts(line, prog);
    } else {
        let text = with_codes(alloc, text)?;
        push_answers(line, alloc, prog, text.as_str(), after, scratch);
    }
    Ok(())
}

/// The numbers of a run: GROUPS,SLOTS, instructions, TEXT, and the place with its limits.
pub fn push_run(
    line: &mut Line,
    alloc: Global,
    key: &str,
    scratch: &mut Scratch,
) -> Result<(), Error> {
    let (numbers, rest) = split(key);
    let (words, rest) = split(rest);
    let (text, after) = split(rest);
    let body = body(alloc, words)?;
    let parts = parts(numbers, words.contains("Reject"));
    if !parts.fits(&body) {
        line.text("does not fit");
        return Ok(());
    }
    let prog = Prog::new(body, parts);
    push_told(line, alloc, &prog, text, after, scratch)
}
