//! Searches for a tree in a text: see `fancy_regex_engine::command`.
#![tactic(auto)]

use fancy_regex_engine::command::command;
use std::io::{ErrorKind, Write};
use std::process::ExitCode;
use std::{env, io};

const VERSION: &str = "fancyrun 0.4.0\n";

const HELP: &str =
    "Searches a text for a syntax tree, and prints start and end of the match and of each group in bytes

Usage: fancyrun <TREE> <TEXT> [POS] [OPTIONS]

Arguments:
  <TREE>  The tree, as (cat \"a\" (grp any))
  <TEXT>  The text
  [POS]   Begin at this byte of the text [default: 0]

Options:
      --compile-anchored  Compile for matches where the search begins only
      --anchored          Match only where the search begins
      --not-continued     No earlier match ended where the search begins
      --not-empty         Find no empty match
      --end-text          Find no empty match at the end of a text after a newline
      --ascii             Use ASCII for case folding, word characters and classes
      --longest           Find the longest of the matches at the earliest start
      --backtracks <N>    At most N backtracks [default: 1000000]
      --steps <N>         At most N steps [default: no limit]
      --max-prog <N>      At most N instructions in the program [default: no limit]
  -h, --help              Print help
  -V, --version           Print version

docs/MEANING.md has the notation of trees. Exit status: 0 if the search has a result, also if there is no match; \
1 if the tree or the search is refused; 2 if the command line is invalid; 3 if a write failed.
";

/// The words after the program's own name.
fn words(rt: &HostRuntime) -> io::Result<Vec<String>> {
    Ok(env::args(rt)?.skip(1).collect(rt.alloc())?)
}

/// Writes the text, and returns the status: 3 if the write fails.
fn say(rt: &HostRuntime, text: &[u8], status: u8) -> u8 {
    match rt.stdout().write_all(text) {
        Ok(()) => status,
        Err(_) => 3,
    }
}

/// The text that a single word requests. No valid search has one word alone.
fn asked_text(words: &[String]) -> Option<&'static str> {
    match words {
        [word] => match word.as_str() {
            "--help" | "-h" => Some(HELP),
            "--version" | "-V" => Some(VERSION),
            _ => None,
        },
        _ => None,
    }
}

/// Writes what the words ask for, and returns the status.
fn run(rt: &HostRuntime, words: &[String]) -> u8 {
    match asked_text(words) {
        Some(text) => say(rt, text.as_bytes(), 0),
        None => command(rt.alloc(), words, &mut rt.stdout(), &mut rt.stderr()),
    }
}

fn main(rt: HostRuntime) -> ExitCode {
    let words = match words(&rt) {
        Ok(words) => words,
        Err(error) if error.kind() == ErrorKind::OutOfMemory => {
            return ExitCode::from(say(&rt, b"Memory\n", 1));
        }
        // words that are not valid UTF-8 are an invalid command line
        Err(_) => Vec::new(rt.alloc()),
    };
    ExitCode::from(run(&rt, &words))
}
