//! What a part of the program is asked: a pattern or a tree, a text and options, from words, files and standard input.

use crate::outcome::{Answer, Trouble};
use clap::ArgMatches;
use fancy_command::arguments::Arguments;
use fancy_pattern::options::ParseOptions;
use fancy_search::search::SearchOptions;
use fancy_vm::vm::SearchLimits;
use std::alloc::{AllocError, Global};
use std::{fs, io};

/// How many instructions the program of a pattern or a tree may have, unless said otherwise.
const MOST_INSTRUCTIONS: usize = 1_000_000;

/// How many nodes the analysis of a tree may look at, unless said otherwise.
const MOST_ANALYSED: usize = 5_000_000;

/// How many states of easy parts a search may visit, unless said otherwise.
const MOST_VISITS: u64 = 20_000_000;

/// How many bytes a search may keep for them at one time, unless said otherwise.
const MOST_MEMORY: usize = 268_435_456;

/// A pattern or a tree, and how it is analysed, compiled and searched for.
#[derive(Drop)]
pub struct Request {
    /// Where what is made for the request is allocated.
    pub alloc: Global,
    pub source: String,
    /// The source is a tree, and no pattern.
    pub is_tree: bool,
    pub arguments: Arguments,
    /// How many nodes the analysis of the tree may look at.
    pub analysis_limit: usize,
    /// How much the delegates of a search may take together.
    pub limits: SearchLimits,
}

impl Request {
    /// How a pattern is read.
    pub fn parsing(&self) -> ParseOptions {
        ParseOptions {
            unicode: !self.arguments.ascii,
            ..ParseOptions::default()
        }
    }

    /// The options of searches from the text's start.
    pub fn options(&self) -> SearchOptions {
        Arguments {
            pos: 0,
            ..self.arguments
        }
        .options()
    }
}

/// The whole file, which is a text; for `-` standard input.
pub fn read_file(rt: &HostRuntime, path: &str) -> Answer {
    let (read, what) = match path {
        "-" => (
            io::read_to_string(rt.alloc(), rt.reader()),
            "standard input",
        ),
        _ => (fs::read_to_string(rt, path), path),
    };
    match read {
        Ok(text) => Ok(text),
        Err(error) => Err(Trouble::Words(format!(in rt.alloc();
            "{what} cannot be read: {error}"
        )?)),
    }
}

/// The text of a tree in which line ends, tabs and carriage returns outside quotes are spaces: byte by byte as long.
fn on_one_line(alloc: Global, text: &str) -> Result<String, AllocError> {
    let mut line = String::new(alloc);
    let mut is_quoted = false;
    let mut is_escaped = false;
    for c in text.chars() {
        let is_quote = c == '"' && !is_escaped;
        is_escaped = is_quoted && c == '\\' && !is_escaped;
        if is_quote {
            is_quoted = !is_quoted;
        }
        let is_space = !is_quoted && matches!(c, '\n' | '\t' | '\r');
        line.push(if is_space { ' ' } else { c })?;
    }
    Ok(line)
}

const NO_PATTERN: &str =
    "there is no pattern: expected PATTERN, --pattern-file FILE or --tree-file FILE";

const PATTERN_TWICE: &str = "the pattern is given twice, in a file and as a word";

const TEXT_TWICE: &str = "the text is given twice, in a file and as a word";

/// The words ask nothing, for this reason.
pub fn invalid(rt: &HostRuntime, why: &str) -> Result<Trouble, AllocError> {
    Ok(Trouble::Words(String::from_str(rt.alloc(), why)?))
}

/// The source as it is in a file or a word, and the word that is left for the text.
fn read_source<'a>(
    rt: &HostRuntime,
    matches: &ArgMatches<'a>,
) -> Result<(String, Option<&'a str>), Trouble> {
    let (first, second) = (matches.get_str("PATTERN"), matches.get_str("TEXT"));
    let file = matches
        .get_str("tree-file")
        .or(matches.get_str("pattern-file"));
    match (file, first, second) {
        (Some(_), _, Some(_)) => Err(invalid(rt, PATTERN_TWICE)?),
        (Some(path), word, None) => Ok((read_file(rt, path)?, word)),
        (None, Some(word), _) => Ok((String::from_str(rt.alloc(), word)?, second)),
        (None, None, _) => Err(invalid(rt, NO_PATTERN)?),
    }
}

/// The request, and the word that is left for the text.
fn read_request<'a>(
    rt: &HostRuntime,
    matches: &ArgMatches<'a>,
) -> Result<(Request, Option<&'a str>), Trouble> {
    let is_tree = matches.get_flag("tree") || matches.get_str("tree-file").is_some();
    let (source, word) = read_source(rt, matches)?;
    // a tree is read on one line, a pattern without the line end of its file
    let source = if is_tree {
        on_one_line(rt.alloc(), source.as_str())?
    } else {
        String::from_str(
            rt.alloc(),
            source
                .as_str()
                .strip_suffix('\n')
                .unwrap_or(source.as_str()),
        )?
    };
    let request = Request {
        alloc: rt.alloc(),
        source,
        is_tree,
        arguments: arguments(matches),
        analysis_limit: matches
            .get_one::<usize>("analysis-limit")
            .unwrap_or(MOST_ANALYSED),
        limits: SearchLimits {
            visits: Some(matches.get_one::<u64>("visits").unwrap_or(MOST_VISITS)),
            bytes: Some(matches.get_one::<usize>("memory").unwrap_or(MOST_MEMORY)),
        },
    };
    Ok((request, word))
}

fn arguments(matches: &ArgMatches<'_>) -> Arguments {
    let max_prog = matches
        .get_one::<usize>("max-prog")
        .or(Some(MOST_INSTRUCTIONS));
    Arguments {
        pos: matches.get_one::<usize>("pos").unwrap_or(0),
        compile_anchored: matches.get_flag("compile-anchored"),
        anchored: matches.get_flag("anchored"),
        not_continued: matches.get_flag("not-continued"),
        not_empty: matches.get_flag("not-empty"),
        end_text: matches.get_flag("end-text"),
        ascii: matches.get_flag("ascii"),
        longest: matches.get_flag("longest"),
        backtracks: matches.get_one::<usize>("backtracks"),
        steps: matches.get_one::<u64>("steps"),
        max_prog,
    }
}

/// The text that a word or a file gives, if there is one.
pub fn given_text(
    rt: &HostRuntime,
    matches: &ArgMatches<'_>,
    word: Option<&str>,
) -> Result<Option<String>, Trouble> {
    match (matches.get_str("file"), word) {
        (Some(_), Some(_)) => Err(invalid(rt, TEXT_TWICE)?),
        (Some(path), None) => Ok(Some(read_file(rt, path)?)),
        (None, Some("-")) => Ok(Some(read_file(rt, "-")?)),
        (None, Some(word)) => Ok(Some(String::from_str(rt.alloc(), word)?)),
        (None, None) => Ok(None),
    }
}

/// The text that is given, or else standard input.
pub fn or_input(rt: &HostRuntime, given: Option<String>) -> Answer {
    match given {
        Some(text) => Ok(text),
        None => read_file(rt, "-"),
    }
}

/// What is asked of a pattern or a tree alone.
pub fn tree_request(rt: &HostRuntime, matches: &ArgMatches<'_>) -> Result<Request, Trouble> {
    match read_request(rt, matches)? {
        (request, None) => Ok(request),
        (_, Some(_)) => Err(invalid(rt, PATTERN_TWICE)?),
    }
}

/// What is asked of a pattern or a tree, and a text if one is given.
pub fn text_request(
    rt: &HostRuntime,
    matches: &ArgMatches<'_>,
) -> Result<(Request, Option<String>), Trouble> {
    let (request, word) = read_request(rt, matches)?;
    let text = given_text(rt, matches, word)?;
    Ok((request, text))
}
