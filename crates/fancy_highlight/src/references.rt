//! Ends that refer back to what their begin took.

ghost use Rattle.std.specs.Prelude.{◌≡◌, ◌++◌, ◌∷◌, ◌==◌, ◌&&◌, ◌||◌, [], ℕ, List, is_some, not, IfOk, OnOk, chars, encode_utf8_all, string_bytes};
ghost use Rattle.fancy_highlight.specs.Ends as ends;
ghost use Rattle.fancy_highlight.specs.Ends.{end_after, end_for, reference, taken_by};

use fancy_matches::found::Captures;
use fancy_pattern::escape::escape;
use std::alloc::{AllocError, Global};

/// The group that a digit names.
fn group_of(c: char) -> Option<usize>
    ensures { result ≡ ends.group_of c }
{
    match c {
        '0'..='9' => Some((c as u32 - '0' as u32) as usize),
        _ => None,
    }
}

/// A reference was found before, or this digit is one behind a backslash.
fn is_found(found: bool, is_escaped: bool, c: char) -> bool
    ensures { result ≡ (found || (is_escaped && is_some (ends.group_of c))) }
{
    found || (is_escaped && group_of(c).is_some())
}

/// The character is a backslash that stands before the next one.
fn escapes(is_escaped: bool, c: char) -> bool
    ensures { result ≡ (not is_escaped && (c == 92)) }
{
    !is_escaped && c == '\\'
}

/// Whether the end refers back: a backslash that no backslash escapes stands before a digit.
pub(crate) fn refers(end: &str) -> bool
    ensures { result ≡ ends.refers (chars end.now) }
{
    let mut found = false;
    let mut is_escaped = false;
    for c in end.chars() {
        found = is_found(found, is_escaped, c);
        is_escaped = escapes(is_escaped, c);
    }
    found
}

/// What the group captured; nothing if it is not set.
fn text_of<'t>(captures: &Captures<'t>, group: usize) -> &'t str
    ensures { chars result.now ≡ taken_by captures.now group }
{
    match captures.get(group) {
        Some(taken) => taken.as_str(),
        None => "",
    }
}

/// Adds an escaped character of an end, or the text of the group that it names.
fn push_escaped(
    alloc: Global,
    captures: &Captures<'_>,
    pattern: &mut String,
    c: char,
) -> Result<(), AllocError>
    ensures { OnOk result (string_bytes pattern.new ≡ string_bytes pattern.old
        ++ encode_utf8_all (reference (taken_by captures.now) (ends.group_of c) c)) }
{
    match group_of(c) {
        Some(group) => {
            let text = escape(alloc, text_of(captures, group))?;
            pattern.push_str(text.as_str())
        }
        None => {
            pattern.push('\\')?;
            pattern.push(c)
        }
    }
}

/// Adds the next character of an end, which a backslash may precede; returns whether it is a backslash that stands before
/// the next one.
fn push(
    alloc: Global,
    captures: &Captures<'_>,
    pattern: &mut String,
    is_escaped: bool,
    c: char,
) -> Result<bool, AllocError>
    ensures { IfOk result (λ next. (rest : List ℕ)
        → string_bytes pattern.new ++ encode_utf8_all (end_after (taken_by captures.now) next rest)
        ≡ string_bytes pattern.old
        ++ encode_utf8_all (end_after (taken_by captures.now) is_escaped (c ∷ rest))) }
{
    if is_escaped {
        push_escaped(alloc, captures, pattern, c)?;
        return Ok(false);
    }
    if c == '\\' {
        return Ok(true);
    }
    pattern.push(c)?;
    Ok(false)
}

/// Adds a backslash that stands before the end's end.
fn push_last(
    captures: &Captures<'_>,
    pattern: &mut String,
    is_escaped: bool,
) -> Result<(), AllocError>
    ensures { OnOk result (string_bytes pattern.new ≡ string_bytes pattern.old
        ++ encode_utf8_all (end_after (taken_by captures.now) is_escaped [])) }
{
    if is_escaped {
        pattern.push('\\')
    } else {
        Ok(())
    }
}

/// The pattern of an end, in which each reference is the text that the group captured, escaped.
pub(crate) fn end_pattern(
    alloc: Global,
    captures: &Captures<'_>,
    end: &str,
) -> Result<String, AllocError>
    ensures { IfOk result (λ pattern. string_bytes pattern
        ≡ encode_utf8_all (end_for (taken_by captures.now) (chars end.now))) }
{
    let mut pattern = String::new(alloc);
    let mut is_escaped = false;
    for c in end.chars() {
        is_escaped = push(alloc, captures, &mut pattern, is_escaped, c)?;
    }
    push_last(captures, &mut pattern, is_escaped)?;
    Ok(pattern)
}
