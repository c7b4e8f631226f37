//! Command lines in a file.

use crate::words::search_for;
use std::alloc::{AllocError, Global};
use std::fs;

/// The words of a line: spaces separate them, but not between two `'`.
fn words_of(alloc: Global, line: &str) -> Result<Vec<String>, AllocError> {
    let mut words = Vec::new(alloc);
    let mut word = String::new(alloc);
    let mut is_word = false;
    let mut is_quoted = false;
    for c in line.chars() {
        if c == '\'' {
            is_quoted = !is_quoted;
            is_word = true;
        } else if c != ' ' || is_quoted {
            word.push(c)?;
            is_word = true;
        } else if is_word {
            words.push(word)?;
            word = String::new(alloc);
            is_word = false;
        }
    }
    if is_word {
        words.push(word)?;
    }
    Ok(words)
}

/// Writes the line, and then its result, with the status if that is not 0.
fn run_line(rt: &HostRuntime, line: &str) -> Result<(), AllocError> {
    let words = words_of(rt.alloc(), line)?;
    let _unwritten = println!(rt; "$ fancygrep {line}");
    let status = search_for(rt, &words);
    if status != 0 {
        let _unwritten = println!(rt; "[status {status}]");
    }
    let _unwritten = println!(rt);
    Ok(())
}

/// Runs each line of a file that is not empty and does not begin with `#` as a command line of its own.
pub fn run_lines(rt: &HostRuntime, path: &str) -> u8 {
    match fs::read_to_string(rt, path) {
        Ok(lines) => {
            for line in lines.lines() {
                if line.is_empty() || line.starts_with('#') {
                    continue;
                }
                if run_line(rt, line).is_err() {
                    return 2;
                }
            }
            0
        }
        Err(error) => {
            let _unwritten = eprintln!(rt; "fancygrep: {path}: {error}");
            2
        }
    }
}
