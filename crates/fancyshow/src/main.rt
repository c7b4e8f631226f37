//! Shows what a tree finds in a text, and what becomes of the tree: see README.md.
#![tactic(auto)]

mod all;
mod arrows;
mod brackets;
mod commands;
mod dot;
mod edited;
mod excerpt;
mod explain;
mod faults;
mod find;
mod furthest;
mod highlight;
mod html;
mod list;
mod located;
mod marks;
mod nodes;
mod outcome;
mod page;
mod pieces;
mod railroad;
mod request;
mod show;
mod source;
mod styles;
mod svg;
mod tokens;
mod trace;
mod tree;
mod wants;
mod why;

use crate::outcome::Outcome;
use crate::show::show;
use std::io::{ErrorKind, IsTerminal, Write};
use std::process::ExitCode;
use std::{env, io};

const OUT_OF_MEMORY: &[u8] = b"fancyshow: out of memory\n";

/// The words after the program's own name.
fn words(rt: &HostRuntime) -> io::Result<Vec<String>> {
    Ok(env::args(rt)?.skip(1).collect(rt.alloc())?)
}

/// Colours are for a terminal that is not dumb, whose user has not set `NO_COLOR`.
fn has_colours(rt: &HostRuntime) -> bool {
    let is_dumb = matches!(env::var(rt, "TERM"), Ok(term) if term.as_str() == "dumb");
    rt.stdout().is_terminal() && env::var(rt, "NO_COLOR").is_err() && !is_dumb
}

/// Writes the result of a command line, and returns the status: 3 if a write fails.
fn write(rt: &HostRuntime, outcome: &Outcome) -> u8 {
    let out = rt.stdout().write_all(outcome.out.as_bytes());
    let err = rt.stderr().write_all(outcome.err.as_bytes());
    if out.is_ok() && err.is_ok() {
        outcome.status
    } else {
        3
    }
}

/// There is no result: writes why, and nothing is left to do if that fails.
fn refuse(rt: &HostRuntime, why: &[u8], status: u8) -> u8 {
    let _unwritten = rt.stderr().write_all(why);
    status
}

/// Does what the words ask, and returns the status.
fn run(rt: &HostRuntime) -> u8 {
    let words = match words(rt) {
        Ok(words) => words,
        Err(error) if error.kind() == ErrorKind::OutOfMemory => return refuse(rt, OUT_OF_MEMORY, 1),
        Err(_) => return refuse(rt, b"error: an argument is not valid UTF-8\n", 2),
    };
    match show(rt, &words, has_colours(rt)) {
        Ok(outcome) => write(rt, &outcome),
        Err(_) => refuse(rt, OUT_OF_MEMORY, 1),
    }
}

fn main(rt: HostRuntime) -> ExitCode {
    ExitCode::from(run(&rt))
}
