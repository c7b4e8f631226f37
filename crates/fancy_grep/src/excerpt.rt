//! A line of a pattern with a mark under it, as fancyshow writes it.

use std::alloc::AllocError;
use unicode_width::UnicodeWidthChar;

/// How many characters are shown before a place in a long line, and again from there on.
const BEFORE: usize = 50;

const AFTER: usize = 30;

/// The line with this byte of the text, and the byte's place in it.
fn line_at(text: &str, at: usize) -> (&str, usize) {
    let before = text.get(..at).unwrap_or(text);
    let start = match before.rfind('\n') {
        Some(end) => end.saturating_add(1),
        None => 0,
    };
    let line = text.get(start..).unwrap_or("");
    let end = line.find('\n').unwrap_or(line.len());
    (
        line.get(..end).unwrap_or(""),
        before.len().saturating_sub(start),
    )
}

/// The last characters of a text, and whether there are more.
fn tail(text: &str) -> (&str, bool) {
    let first = text.chars().count().saturating_sub(BEFORE);
    match text.char_indices().nth(first) {
        Some((cut, _)) => (text.get(cut..).unwrap_or(""), first > 0),
        None => ("", first > 0),
    }
}

/// The first characters of a text, and whether there are more.
fn head(text: &str) -> (&str, bool) {
    match text.char_indices().nth(AFTER) {
        Some((cut, _)) => (text.get(..cut).unwrap_or(""), true),
        None => (text, false),
    }
}

/// Writes a text so that each character takes its columns: a space for a tab, a dot for another control character. Returns
/// how many columns that is.
fn push_shown(out: &mut String, text: &str) -> Result<usize, AllocError> {
    let mut columns = 0usize;
    for c in text.chars() {
        out.push(match c.width() {
            Some(_) => c,
            None if c == '\t' => ' ',
            None => '·',
        })?;
        columns = columns.saturating_add(c.width().unwrap_or(1));
    }
    Ok(columns)
}

/// Writes the line with this byte of the text, and a caret below the byte, each after a line end. Of a long line only
/// what is around the place is written.
pub fn push_excerpt(out: &mut String, text: &str, at: usize) -> Result<(), AllocError> {
    let (line, place) = line_at(text, at);
    let (before, has_more_before) = tail(line.get(..place).unwrap_or(""));
    let (after, has_more_after) = head(line.get(place..).unwrap_or(""));
    let dots = if has_more_before { ".." } else { "" };
    out.push_str("\n  ")?;
    out.push_str(dots)?;
    let columns = push_shown(out, before)?;
    push_shown(out, after)?;
    out.push_str(if has_more_after { ".." } else { "" })?;
    out.push_str("\n  ")?;
    for _ in 0..columns.saturating_add(dots.len()) {
        out.push(' ')?;
    }
    out.push('^')
}
