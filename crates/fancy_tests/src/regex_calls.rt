//! What the calls of a regex answer.

use crate::columns::{number, split};
use crate::line::Line;
use crate::replacements::template;
use crate::spans::push_none;
use fancy_characters::places::is_place;
use fancy_regex::{Captures, Error, Match, NoExpand, Part, Parts, Regex, escape};
use std::alloc::Global;
use std::borrow::CowStr;
use std::ops::Range;

/// Before an item of a list.
fn push_space(line: &mut Line) {
    if !line.is_empty() {
        line.space();
    }
}

/// START-END, and what it took in brackets.
fn push_match(line: &mut Line, found: Match<'_>) {
    line.value(found.start()).text("-").value(found.end());
    line.text("[").text(found.as_str()).text("]");
}

/// The match, or that there is none.
fn push_found(line: &mut Line, found: Option<Match<'_>>) {
    match found {
        Some(found) => push_match(line, found),
        None => {
            line.text("none");
        }
    }
}

/// The match by all that can be asked of it.
fn push_facts(line: &mut Line, found: Match<'_>) {
    let (text, range): (&str, Range<usize>) = (found.into(), found.into());
    line.debug(&found).space().value(found.len());
    line.space().value(found.is_empty());
    line.space().debug(&found.range());
    line.space().text(text).space().debug(&range);
}

/// The first match, from the place on that the argument may name.
fn found<'t>(regex: &mut Regex, text: &'t str, argument: &str) -> Result<Option<Match<'t>>, Error> {
    let pos = number(argument);
    if !argument.is_empty() && is_place(text.as_bytes(), pos) {
        return regex.find_from_pos(text, pos);
    }
    regex.find(text)
}

/// Whether the first match from the place on is the first match of the text.
fn is_first(regex: &mut Regex, text: &str, argument: &str) -> Result<bool, Error> {
    Ok(found(regex, text, argument)? == regex.find(text)?)
}

/// Each group after a space, and `-` for one that is not set.
fn push_groups(line: &mut Line, captures: &Captures<'_>) {
    for group in captures.iter() {
        push_space(line);
        match group {
            Some(found) => push_match(line, found),
            None => {
                line.text("-");
            }
        }
    }
}

/// The template, filled in.
fn push_expanded(
    line: &mut Line,
    alloc: Global,
    captures: &Captures<'_>,
    template: &str,
) -> Result<(), Error> {
    let mut text = String::new(alloc);
    captures.expand(template, &mut text)?;
    line.text(text.as_str());
    Ok(())
}

/// What the call asks of the groups.
fn push_captures(
    line: &mut Line,
    alloc: Global,
    captures: &Captures<'_>,
    call: &str,
    argument: &str,
    template: &str,
) -> Result<(), Error> {
    match call {
        "get" => push_found(line, captures.get(number(argument))),
        "name" => push_found(line, captures.name(argument)),
        "get_match" => push_match(line, captures.get_match()),
        "len" => {
            line.value(captures.len());
        }
        "expand" => return push_expanded(line, alloc, captures, template),
        _ => push_groups(line, captures),
    }
    Ok(())
}

/// The groups of the first match, from the place on that the argument of `captures_from_pos` names.
fn captured<'t>(
    regex: &mut Regex,
    text: &'t str,
    call: &str,
    argument: &str,
) -> Result<Option<Captures<'t>>, Error> {
    let pos = number(argument);
    if call == "captures_from_pos" && is_place(text.as_bytes(), pos) {
        return regex.captures_from_pos(text, pos);
    }
    regex.captures(text)
}

/// What the call asks of the groups of the first match.
fn push_captured(
    line: &mut Line,
    alloc: Global,
    regex: &mut Regex,
    text: &str,
    call: &str,
    argument: &str,
    template: &str,
) -> Result<(), Error> {
    match captured(regex, text, call, argument)? {
        Some(captures) => push_captures(line, alloc, &captures, call, argument, template),
        None => {
            line.text("none");
            Ok(())
        }
    }
}

/// All matches.
fn push_matches(line: &mut Line, regex: &mut Regex, text: &str) -> Result<(), Error> {
    for found in regex.find_iter(text) {
        push_space(line);
        push_match(line, found?);
    }
    push_none(line);
    Ok(())
}

/// The groups of all matches, with `;` between these.
fn push_all_captures(line: &mut Line, regex: &mut Regex, text: &str) -> Result<(), Error> {
    for captures in regex.captures_iter(text) {
        if !line.is_empty() {
            line.text(";");
        }
        push_groups(line, &captures?);
    }
    push_none(line);
    Ok(())
}

/// The pieces of the text, at most so many where a number is given.
fn push_pieces(line: &mut Line, regex: &mut Regex, text: &str, limit: &str) -> Result<(), Error> {
    if limit.is_empty() {
        for piece in regex.split(text) {
            line.text("[").text(piece?).text("]");
        }
    } else {
        for piece in regex.splitn(text, number(limit)) {
            line.text("[").text(piece?).text("]");
        }
    }
    push_none(line);
    Ok(())
}

/// The text with all matches replaced, in the way that the argument names.
fn replaced_all<'t>(
    alloc: Global,
    regex: &mut Regex,
    text: &'t str,
    argument: &str,
    by: &str,
) -> Result<CowStr<'t, Global>, Error> {
    match argument {
        "no_expand" => regex.replace_all(text, NoExpand(by)),
        "template" => regex.replace_all(text, template(alloc, "", by)?),
        "parts" => {
            let parts = [Part::Group(1), Part::Text(by), Part::Group(0)];
            regex.replace_all(text, Parts(&parts))
        }
        _ => regex.replace_all(text, by),
    }
}

/// The text with matches replaced, by what the call and its argument name.
fn replaced<'t>(
    alloc: Global,
    regex: &mut Regex,
    text: &'t str,
    call: &str,
    argument: &str,
    by: &str,
) -> Result<CowStr<'t, Global>, Error> {
    match call {
        "replace" => regex.replace(text, by),
        "replacen" => regex.replacen(text, number(argument), by),
        _ => replaced_all(alloc, regex, text, argument, by),
    }
}

/// The text with matches replaced.
fn push_replaced(
    line: &mut Line,
    alloc: Global,
    regex: &mut Regex,
    text: &str,
    call: &str,
    argument: &str,
    by: &str,
) -> Result<(), Error> {
    let text = replaced(alloc, regex, text, call, argument, by)?;
    line.text(text.as_ref());
    Ok(())
}

/// The names of the groups after a space, and `-` for one without a name.
fn push_names(line: &mut Line, regex: &Regex) {
    for name in regex.capture_names() {
        push_space(line);
        line.text(name.unwrap_or("-"));
    }
}

/// What the iterators of the matches say of themselves.
fn push_iterators(line: &mut Line, regex: &mut Regex, text: &str) {
    let matches = regex.find_iter(text);
    line.text(matches.regex().as_str()).text(matches.text());
    let captures = regex.captures_iter(text);
    line.text(captures.regex().as_str()).text(captures.text());
}

/// What the regex says of its pattern.
fn push_about(line: &mut Line, regex: &Regex, call: &str) {
    match call {
        "captures_len" => {
            line.value(regex.captures_len());
        }
        "capture_names" => push_names(line, regex),
        "display" => {
            line.value(regex).space().debug(regex);
        }
        _ => {
            line.text(regex.as_str());
        }
    }
}

/// What a search for the first match answers, or what the call asks of its groups.
fn push_search(
    line: &mut Line,
    alloc: Global,
    regex: &mut Regex,
    text: &str,
    call: &str,
    argument: &str,
    template: &str,
) -> Result<(), Error> {
    match call {
        "is_match" => {
            line.value(regex.is_match(text)?);
        }
        "is_first" => {
            line.value(is_first(regex, text, argument)?);
        }
        "match" => {
            if let Some(found) = regex.find(text)? {
                push_facts(line, found);
            }
        }
        "find" | "find_from_pos" => push_found(line, found(regex, text, argument)?),
        _ => return push_captured(line, alloc, regex, text, call, argument, template),
    }
    Ok(())
}

/// CALL with its argument, TEXT, and a template: what the regex answers to the call.
pub fn push_call(
    line: &mut Line,
    alloc: Global,
    regex: &mut Regex,
    columns: &str,
) -> Result<(), Error> {
    let (call, rest) = split(columns);
    let (call, argument) = call.split_once(' ').unwrap_or((call, ""));
    let (text, by) = split(rest);
    match call {
        "find_iter" => return push_matches(line, regex, text),
        "captures_iter" => return push_all_captures(line, regex, text),
        "split" | "splitn" => return push_pieces(line, regex, text, argument),
        "replace" | "replacen" | "replace_all" => {
            return push_replaced(line, alloc, regex, text, call, argument, by);
        }
        "as_str" | "display" | "captures_len" | "capture_names" => push_about(line, regex, call),
        "iterators" => push_iterators(line, regex, text),
        "escape" => {
            line.text(escape(alloc, text)?.as_str());
        }
        _ => return push_search(line, alloc, regex, text, call, argument, by),
    }
    Ok(())
}
