//! What the command prints, words that ask nothing, and writers that fail.

use crate::closing::Closing;
use crate::line::Line;
use crate::printed::Printed;
use fancy_regex_engine::command::command;
use std::alloc::Global;

/// The line that is printed, with the status that goes with it.
pub fn push_answer(line: &mut Line, alloc: Global, words: &[String]) {
    let mut printed = Printed::new(alloc);
    let status = command(alloc, words, &mut printed.out, &mut printed.err);
    printed.push_answer(line, status);
}

/// What is said where the words ask nothing, with its status.
pub fn push_misuse(line: &mut Line, alloc: Global, words: &[String]) {
    let mut printed = Printed::new(alloc);
    let status = command(alloc, words, &mut printed.out, &mut printed.err);
    printed.push_misuse(line, status);
}

/// No row writes more bytes.
const MOST_BYTES: usize = 100;

/// How many bytes the writers have to take, and the status then; with less room one write fails, and the status is 3.
pub fn push_least_room(line: &mut Line, alloc: Global, words: &[String]) {
    for room in 0..MOST_BYTES {
        let mut out = Closing::new(room);
        let mut err = Closing::new(room);
        let status = command(alloc, words, &mut out, &mut err);
        match out.failures().saturating_add(err.failures()) {
            0 => {
                line.value(room).space().value(status);
                return;
            }
            1 if status == 3 => {}
            _ => return line.differ("a write that fails"),
        }
    }
    line.differ("more bytes");
}
