//! From the words of a command line to a search.

use crate::batch::run_lines;
use crate::commands::command;
use clap::{ArgMatches, Error};
use fancy_grep::context::Context;
use fancy_grep::files::search;
use fancy_grep::lines::Lines;
use fancy_grep::matching::Choice;
use fancy_grep::patterns::{Extent, Limits, PatternOptions};
use fancy_grep::rules::{Rule, Rules};
use fancy_grep::settings::{Report, Settings};
use std::alloc::{AllocError, Global};
use std::io::{IsTerminal, Write};
use std::{env, fs, io};

/// Whether colours are asked for. By themselves they are for a terminal whose user has not set `NO_COLOR`.
fn has_colours(rt: &HostRuntime, when: Option<&str>) -> bool {
    match when {
        None => false,
        Some("always") => true,
        Some("never") => false,
        Some(_) => rt.stdout().is_terminal() && env::var(rt, "NO_COLOR").is_err(),
    }
}

fn extent(matches: &ArgMatches<'_>) -> Extent {
    if matches.get_flag("line-regexp") {
        Extent::Line
    } else if matches.get_flag("word-regexp") {
        Extent::Word
    } else {
        Extent::Part
    }
}

/// The limits that are given.
fn limits(matches: &ArgMatches<'_>) -> Limits {
    Limits {
        backtracks: matches.get_one::<usize>("backtracks"),
        steps: matches.get_one::<u64>("steps"),
        visits: matches.get_one::<usize>("visits"),
        memory: matches.get_one::<usize>("memory"),
        max_prog: matches.get_one::<usize>("max-prog"),
        analysis: matches.get_one::<usize>("analysis-limit"),
    }
}

/// Whether a pattern has a capital that is not after a backslash.
fn has_capital(pattern: &str) -> bool {
    let mut is_escaped = false;
    for c in pattern.chars() {
        if c.is_uppercase() && !is_escaped {
            return true;
        }
        is_escaped = c == '\\' && !is_escaped;
    }
    false
}

fn options_of(matches: &ArgMatches<'_>, patterns: &[String]) -> PatternOptions {
    let is_smart = matches.get_flag("smart-case")
        && !patterns.iter().any(|pattern| has_capital(pattern.as_str()));
    PatternOptions {
        is_text: matches.get_flag("fixed-strings"),
        case_insensitive: matches.get_flag("ignore-case") || is_smart,
        longest: matches.get_flag("longest"),
        extent: extent(matches),
        limits: limits(matches),
    }
}

/// Names stand before counts, and counts before matches, as grep has it.
fn report_of(matches: &ArgMatches<'_>) -> Report {
    if matches.get_flag("quiet") {
        Report::Nothing
    } else if matches.get_flag("files-without-match") {
        Report::NameWithout
    } else if matches.get_flag("files-with-matches") {
        Report::Name
    } else if matches.get_flag("count") {
        Report::Count
    } else if matches.get_flag("only-matching") {
        Report::Matches
    } else {
        Report::Lines
    }
}

fn context(matches: &ArgMatches<'_>) -> Option<Context> {
    let both = matches.get_one::<usize>("context");
    let before = matches.get_one::<usize>("before-context").or(both);
    let after = matches.get_one::<usize>("after-context").or(both);
    if before.is_none() && after.is_none() {
        return None;
    }
    Some(Context {
        before: before.unwrap_or(0),
        after: after.unwrap_or(0),
    })
}

/// Whether patterns are given by options, so that the first word is a file.
fn has_patterns(matches: &ArgMatches<'_>) -> bool {
    matches.contains_id("regexp") || matches.contains_id("file")
}

/// Adds a pattern, or each line of it as a text.
fn add_pattern(patterns: &mut Vec<String>, pattern: &str, is_text: bool) -> Result<(), AllocError> {
    let alloc = *patterns.allocator();
    if !is_text {
        patterns.push(String::from_str(alloc, pattern)?)?;
        return Ok(());
    }
    for line in pattern.split('\n') {
        patterns.push(String::from_str(alloc, line)?)?;
    }
    Ok(())
}

/// Adds each line of a file, or of standard input if its path is `-`.
fn add_lines(rt: &HostRuntime, patterns: &mut Vec<String>, path: &str) -> io::Result<()> {
    let text = if path == "-" {
        io::read_to_string(rt.alloc(), rt.stdin())?
    } else {
        fs::read_to_string(rt, path)?
    };
    for line in Lines::new(text.as_str()) {
        patterns.push(String::from_str(rt.alloc(), line.text)?)?;
    }
    Ok(())
}

/// The patterns. There are none if a file of them cannot be read, which is reported.
fn patterns(rt: &HostRuntime, matches: &ArgMatches<'_>) -> Result<Option<Vec<String>>, AllocError> {
    let is_text = matches.get_flag("fixed-strings");
    let mut patterns = Vec::new(rt.alloc());
    if !has_patterns(matches) {
        let pattern = matches.get_str("PATTERN").unwrap_or("");
        add_pattern(&mut patterns, pattern, is_text)?;
    }
    for pattern in matches.get_strs("regexp").unwrap_or(&[]) {
        add_pattern(&mut patterns, pattern, is_text)?;
    }
    for path in matches.get_strs("file").unwrap_or(&[]) {
        if let Err(error) = add_lines(rt, &mut patterns, path) {
            let _unwritten = eprintln!(rt; "fancygrep: {path}: {error}");
            return Ok(None);
        }
    }
    Ok(Some(patterns))
}

/// The files that are named; if none is, standard input, and none for the working folder.
fn paths<'a>(alloc: Global, matches: &ArgMatches<'a>) -> Result<Vec<&'a str>, AllocError> {
    let mut paths = Vec::new(alloc);
    if has_patterns(matches) {
        if let Some(path) = matches.get_str("PATTERN") {
            paths.push(path)?;
        }
    }
    paths.extend_from_slice(matches.get_strs("FILE").unwrap_or(&[]))?;
    if paths.is_empty() && !matches.get_flag("recursive") {
        paths.push("-")?;
    }
    Ok(paths)
}

/// Whether lines begin with the names of their files, if that does not depend on whether a folder is searched.
fn has_names(matches: &ArgMatches<'_>, paths: &[&str]) -> Option<bool> {
    if matches.get_flag("no-filename") {
        Some(false)
    } else if paths.len() > 1 || matches.get_flag("with-filename") {
        Some(true)
    } else {
        None
    }
}

/// Whether a word is this option, alone or with its value.
fn is_option(word: &str, option: &str) -> bool {
    match word.strip_prefix(option) {
        Some(rest) => rest.is_empty() || rest.starts_with('='),
        None => false,
    }
}

/// The rules of `--include` and `--exclude`, in the order of the words.
fn name_rules(
    alloc: Global,
    matches: &ArgMatches<'_>,
    words: &[String],
) -> Result<Vec<Rule>, AllocError> {
    let mut rules = Vec::new(alloc);
    let mut included = matches.get_strs("include").unwrap_or(&[]).iter();
    let mut excluded = matches.get_strs("exclude").unwrap_or(&[]).iter();
    for word in words {
        if is_option(word.as_str(), "--include") {
            if let Some(glob) = included.next() {
                rules.push(Rule::of_name(alloc, glob, true)?)?;
            }
        }
        if is_option(word.as_str(), "--exclude") {
            if let Some(glob) = excluded.next() {
                rules.push(Rule::of_name(alloc, glob, false)?)?;
            }
        }
    }
    Ok(rules)
}

/// The rules of `--exclude-dir`.
fn folder_rules(alloc: Global, matches: &ArgMatches<'_>) -> Result<Vec<Rule>, AllocError> {
    let mut rules = Vec::new(alloc);
    for glob in matches.get_strs("exclude-dir").unwrap_or(&[]) {
        rules.push(Rule::of_name(alloc, glob.trim_end_matches('/'), false)?)?;
    }
    Ok(rules)
}

/// The rules of `-g`.
fn path_rules(alloc: Global, matches: &ArgMatches<'_>) -> Result<Vec<Rule>, AllocError> {
    let mut rules = Vec::new(alloc);
    for glob in matches.get_strs("glob").unwrap_or(&[]) {
        let glob: Vec<char> = glob.chars().collect(alloc)?;
        rules.push(Rule::of_path(alloc, &glob, true)?)?;
    }
    Ok(rules)
}

/// Searches as the words ask, and returns the status.
fn search_by(
    rt: &HostRuntime,
    matches: &ArgMatches<'_>,
    words: &[String],
) -> Result<u8, AllocError> {
    let Some(patterns) = patterns(rt, matches)? else {
        return Ok(2);
    };
    let paths = paths(rt.alloc(), matches)?;
    let files = name_rules(rt.alloc(), matches, words)?;
    let folders = folder_rules(rt.alloc(), matches)?;
    let by_path = path_rules(rt.alloc(), matches)?;
    let unrestricted = matches.get_count("unrestricted");
    let settings = Settings {
        pattern: options_of(matches, &patterns),
        is_recursive: matches.get_flag("recursive"),
        rules: Rules {
            files: &files,
            folders: &folders,
            paths: &by_path,
            types: &[],
            has_hidden: matches.get_flag("hidden") || unrestricted > 1,
            has_ignored: matches.get_flag("no-ignore") || unrestricted > 0,
        },
        report: report_of(matches),
        choice: Choice {
            inverted: matches.get_flag("invert-match"),
            has_returns: matches.get_flag("crlf"),
        },
        most: matches.get_one::<usize>("max-count"),
        has_numbers: matches.get_flag("line-number"),
        has_columns: matches.get_flag("column"),
        has_offsets: matches.get_flag("byte-offset"),
        has_names: has_names(matches, &paths),
        has_zeros: matches.get_flag("null"),
        has_colours: has_colours(rt, matches.get_str("color")),
        is_text: matches.get_flag("text"),
        is_silent: matches.get_flag("no-messages"),
        is_line_buffered: matches.get_flag("line-buffered"),
        context: context(matches),
        template: matches.get_str("replace"),
    };
    Ok(search(rt, &patterns, &settings, &paths))
}

/// Writes the help that is asked for, or what is wrong with the words, and returns the status: 3 if the help cannot be
/// written.
fn tell(rt: &HostRuntime, error: &Error) -> u8 {
    let printed = error.print(rt);
    if error.use_stderr() {
        2
    } else if printed.is_ok() {
        0
    } else {
        3
    }
}

/// What the words of one search come to: the status.
pub fn search_for(rt: &HostRuntime, words: &[String]) -> u8 {
    let status = match command(rt.alloc()) {
        Ok(command) => match command.try_get_matches_from(words) {
            Ok(matches) => search_by(rt, &matches, words),
            Err(error) => Ok(tell(rt, &error)),
        },
        Err(error) => Err(error),
    };
    match status {
        Ok(status) => status,
        Err(_) => {
            let _unwritten = eprintln!(rt; "fancygrep: out of memory");
            2
        }
    }
}

/// What all words come to: after `--batch`, where it comes first, a file of command lines is named.
pub fn run(rt: &HostRuntime, words: &[String]) -> u8 {
    if let (Some(option), Some(path)) = (words.first(), words.get(1)) {
        if option.as_str() == "--batch" {
            return run_lines(rt, path.as_str());
        }
    }
    search_for(rt, words)
}
