//! Patterns by the names of fancy-regex: their regexes, built with the options of a row.

use crate::columns::{number, split, with_codes, written_out};
use crate::line::Line;
use crate::pattern_scans::push_pattern_scan;
use crate::regex_calls::push_call;
use fancy_regex::{Error, Regex, RegexBuilder};
use fancy_regex_engine::error::Error as EngineError;
use std::alloc::{AllocError, Global};

/// The limit that the text spells, or none.
fn limit(text: &str) -> Option<usize> {
    text.parse::<usize>().ok()
}

/// The builder with one option more: the name of its setter, with a number behind `=` where it takes one.
fn with<'p>(builder: RegexBuilder<'p>, word: &str) -> RegexBuilder<'p> {
    let (name, value) = word.split_once('=').unwrap_or((word, ""));
    match name {
        "case_insensitive" => builder.case_insensitive(true),
        "multi_line" => builder.multi_line(true),
        "dot_matches_new_line" => builder.dot_matches_new_line(true),
        "ignore_whitespace" => builder.ignore_whitespace(true),
        "crlf" => builder.crlf(true),
        "swap_greed" => builder.swap_greed(true),
        "unicode_mode" => builder.unicode_mode(value != "false"),
        "oniguruma_mode" => builder.oniguruma_mode(true),
        "ignore_numbered_groups_when_named_groups_exist" => {
            builder.ignore_numbered_groups_when_named_groups_exist(true)
        }
        "find_not_empty" => builder.find_not_empty(true),
        "leftmost_longest" => builder.leftmost_longest(true),
        "backtrack_limit" => builder.backtrack_limit(number(value)),
        "step_limit" => builder.step_limit(number(value) as u64),
        "max_prog_size" => builder.max_prog_size(limit(value)),
        "max_nesting" => builder.max_nesting(limit(value)),
        "analysis_limit" => builder.analysis_limit(limit(value)),
        "visit_limit" => builder.visit_limit(limit(value)),
        "memory_limit" => builder.memory_limit(limit(value)),
        _ => builder,
    }
}

/// The builder of a pattern, with options by these words.
pub fn builder_of<'p>(pattern: &'p str, words: &str) -> RegexBuilder<'p> {
    let mut builder = RegexBuilder::new(pattern);
    for word in words.split_whitespace() {
        builder = with(builder, word);
    }
    builder
}

/// The regex of a pattern, with options by these words.
pub fn regex_of(alloc: Global, pattern: &str, words: &str) -> Result<Regex, Error> {
    if words == "-" {
        return Regex::new(alloc, pattern);
    }
    builder_of(pattern, words).build(alloc)
}

/// What the regex answers, and what its clone does.
fn push_twice(
    line: &mut Line,
    again: &mut Line,
    alloc: Global,
    regex: &mut Regex,
    columns: &str,
) -> Result<(), Error> {
    push_call(again, alloc, &mut regex.try_clone()?, columns)?;
    push_call(line, alloc, regex, columns)
}

/// PATTERN, options, CALL, TEXT, and a template: what the regex answers to the call, and what its clone does.
fn push_both(line: &mut Line, again: &mut Line, alloc: Global, key: &str) -> Result<(), Error> {
    let (pattern, rest) = split(key);
    let (words, columns) = split(rest);
    let mut regex = regex_of(alloc, pattern, words)?;
    push_twice(line, again, alloc, &mut regex, columns)
}

/// The same, if the clone answers the same.
fn push_answered(line: &mut Line, alloc: Global, key: &str) -> Result<(), Error> {
    let mut again = Line::new(alloc);
    push_both(line, &mut again, alloc, key)?;
    if line.as_str() != again.as_str() {
        line.differ("try_clone");
    }
    Ok(())
}

/// The key, in which the table spells characters by their codes, or long texts.
fn written(alloc: Global, table: &str, key: &str) -> Result<String, AllocError> {
    if table == "long_calls" {
        written_out(alloc, key)
    } else {
        with_codes(alloc, key)
    }
}

/// An error in the place of what was written before it, or its message.
fn push_error(line: &mut Line, table: &str, error: &Error) {
    line.clear();
    if table == "messages" {
        line.value(error);
    } else {
        line.debug(error);
    }
}

/// What comes out for the key of a row.
pub fn push_regex(
    line: &mut Line,
    alloc: Global,
    table: &str,
    key: &str,
) -> Result<(), EngineError> {
    let key = written(alloc, table, key)?;
    let outcome = if table == "pattern_scans" {
        push_pattern_scan(line, alloc, key.as_str())
    } else {
        push_answered(line, alloc, key.as_str())
    };
    if let Err(error) = outcome {
        push_error(line, table, &error);
    }
    Ok(())
}
