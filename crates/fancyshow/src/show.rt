//! From the words of a command line to its result.

use crate::all::all;
use crate::commands::command;
use crate::dot::dot;
use crate::explain::explain;
use crate::find::find;
use crate::highlight::highlight;
use crate::list::{list, program};
use crate::outcome::{Answer, Outcome, Trouble, Written, too_large};
use crate::page::page;
use crate::pieces::{pieces, replaced};
use crate::railroad::railroad;
use crate::request::{Request, invalid, or_input, read_file, text_request, tree_request};
use crate::svg::{MOST_BOXES, svg};
use crate::trace::trace;
use crate::tree::tree;
use crate::why::why;
use clap::ArgMatches;
use std::alloc::{AllocError, Global};

/// How many bytes a text may have whose matches are replaced, unless said otherwise.
const MOST_OUTPUT: usize = 268_435_456;

/// What the words say, or what the library says that reads them: what is wrong with them, or the help that they ask for.
fn read_words<'a>(rt: &HostRuntime, words: &'a [String]) -> Result<ArgMatches<'a>, Trouble> {
    match command(rt.alloc())?.try_get_matches_from(words) {
        Ok(matches) => Ok(matches),
        Err(error) => {
            let message = format!(in rt.alloc(); "{error}")?;
            Err(if error.use_stderr() {
                Trouble::Usage(message)
            } else {
                Trouble::Help(message)
            })
        }
    }
}

/// The program as a picture.
fn picture(request: &Request, is_dot: bool) -> Answer {
    let prog = &program(request)?.prog;
    if prog.body().len() > MOST_BOXES {
        return Err(too_large(request.alloc, "program", MOST_BOXES, "instructions")?);
    }
    Ok(if is_dot {
        dot(request.alloc, prog)?
    } else {
        svg(request.alloc, prog, request.source.as_str())?
    })
}

/// Reads what is asked of a tree, and answers it.
fn answer_of_tree(rt: &HostRuntime, part: &str, matches: &ArgMatches<'_>) -> Answer {
    let request = tree_request(rt, matches)?;
    match part {
        "list" => list(&request),
        "tree" => tree(&request),
        "explain" => explain(&request),
        _ if matches.get_flag("railroad") => railroad(&request),
        _ => picture(&request, matches.get_flag("dot")),
    }
}

/// Reads what is asked of a tree and a text, and answers it.
fn answer_of_text(rt: &HostRuntime, part: &str, matches: &ArgMatches<'_>, colours: bool) -> Answer {
    let (request, text) = text_request(rt, matches)?;
    let text = or_input(rt, text)?;
    let text = text.as_str();
    match part {
        "find" => find(&request, text),
        "all" => all(&request, text, colours),
        "why" => why(&request, text),
        "trace" => trace(&request, text),
        "replace" => {
            let most = matches
                .get_one::<usize>("max-output")
                .unwrap_or(MOST_OUTPUT);
            replaced(&request, text, matches.get_str("with").unwrap_or(""), most)
        }
        _ => pieces(&request, text),
    }
}

/// Reads what a page is asked for, and writes it.
fn page_answer(rt: &HostRuntime, matches: &ArgMatches<'_>) -> Answer {
    let (request, text) = text_request(rt, matches)?;
    page(&request, text.as_deref())
}

/// The answer of a part other than `batch`, which has none in it.
fn answer(rt: &HostRuntime, part: &str, matches: &ArgMatches<'_>, colours: bool) -> Answer {
    match part {
        "list" | "tree" | "explain" | "picture" => answer_of_tree(rt, part, matches),
        "page" => page_answer(rt, matches),
        "highlight" => highlight(rt, matches, colours),
        "batch" => Err(invalid(rt, "a batch cannot contain this command")?),
        _ => answer_of_text(rt, part, matches, colours),
    }
}

/// The answer of a command line in a batch.
fn line_answer(rt: &HostRuntime, words: &[String]) -> Answer {
    let matches = read_words(rt, words)?;
    match matches.subcommand() {
        Some((part, matches)) => answer(rt, part, matches, false),
        None => Ok(String::new(rt.alloc())),
    }
}

/// Writes a line of a batch, and its result if it is a command line. Returns whether its status is not 0.
fn push_answer(rt: &HostRuntime, out: &mut String, line: &str) -> Result<bool, AllocError> {
    if line.is_empty() || line.starts_with('#') {
        writeln!(out, "{line}")?;
        return Ok(false);
    }
    let words = words_of(rt.alloc(), line)?;
    let outcome = Outcome::of(rt.alloc(), line_answer(rt, &words))?;
    push_outcome(out, line, &outcome)?;
    Ok(outcome.status != 0)
}

/// What each command line of a file gives.
fn batch(rt: &HostRuntime, matches: &ArgMatches<'_>) -> Answer {
    let lines = read_file(rt, matches.get_str("FILE").unwrap_or("-"))?;
    let mut out = String::new(rt.alloc());
    let mut has_failed = false;
    for line in lines.as_str().lines() {
        has_failed |= push_answer(rt, &mut out, line)?;
    }
    if has_failed {
        Err(Trouble::Refused(out))
    } else {
        Ok(out)
    }
}

/// The answer of a command line.
fn words_answer(rt: &HostRuntime, words: &[String], colours: bool) -> Answer {
    let matches = read_words(rt, words)?;
    match matches.subcommand() {
        Some(("batch", matches)) => batch(rt, matches),
        Some((part, matches)) => answer(rt, part, matches, colours),
        None => Ok(String::new(rt.alloc())),
    }
}

/// What the words come to. Where colours are asked for, those of a terminal mark the matches.
pub fn show(rt: &HostRuntime, words: &[String], colours: bool) -> Result<Outcome, AllocError> {
    Outcome::of(rt.alloc(), words_answer(rt, words, colours))
}

/// The words of a line: spaces separate them, but not between two `'`.
pub fn words_of(alloc: Global, line: &str) -> Result<Vec<String>, AllocError> {
    let mut words = Vec::new(alloc);
    let mut word = String::new(alloc);
    let mut is_word = false;
    let mut is_quoted = false;
    for c in line.chars() {
        if c == '\'' {
            is_quoted = !is_quoted;
            is_word = true;
        } else if c != ' ' || is_quoted {
            word.push(c)?;
            is_word = true;
        } else if is_word {
            words.push(word)?;
            word = String::new(alloc);
            is_word = false;
        }
    }
    if is_word {
        words.push(word)?;
    }
    Ok(words)
}

/// Writes the line and what it came to, with the status if it is not 0.
pub fn push_outcome(out: &mut String, line: &str, outcome: &Outcome) -> Written {
    let Outcome {
        out: printed,
        err,
        status,
    } = outcome;
    write!(out, "$ fancyshow {line}\n{printed}{err}")?;
    if *status != 0 {
        writeln!(out, "[status {status}]")?;
    }
    out.push('\n')
}
