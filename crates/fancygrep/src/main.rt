//! Searches files for a pattern: see README.md.
#![tactic(auto)]

mod batch;
mod commands;
mod words;

use crate::words::run;
use std::io::{ErrorKind, Write};
use std::process::ExitCode;
use std::{env, io};

/// The words after the program's own name.
fn arguments(rt: &HostRuntime) -> io::Result<Vec<String>> {
    Ok(env::args(rt)?.skip(1).collect(rt.alloc())?)
}

fn main(rt: HostRuntime) -> ExitCode {
    let status = match arguments(&rt) {
        Ok(words) => run(&rt, &words),
        Err(error) => {
            let _unwritten = eprintln!(rt; "fancygrep: the arguments cannot be read: {error}");
            2
        }
    };
    ExitCode::from(status)
}
