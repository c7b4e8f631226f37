//! Lines of a text with marks under them, by the columns that characters take on a terminal.

use crate::outcome::Written;
use unicode_width::UnicodeWidthChar;

/// How many columns the character takes as it is shown.
pub fn columns(c: char) -> usize {
    c.width().unwrap_or(1)
}

/// How many columns the text takes as it is shown.
pub fn width(text: &str) -> usize {
    let mut width: usize = 0;
    for c in text.chars() {
        width = width.saturating_add(columns(c));
    }
    width
}

/// Writes the line so that each character takes its columns: a space for a tab, a dot for another control character.
pub fn push_shown(out: &mut String, line: &str) -> Written {
    for c in line.chars() {
        out.push(match c.width() {
            Some(_) => c,
            None if c == '\t' => ' ',
            None => '·',
        })?;
    }
    Ok(())
}

pub fn push_times(out: &mut String, c: char, count: usize) -> Written {
    for _ in 0..count {
        out.push(c)?;
    }
    Ok(())
}

/// Writes spaces up to a column of what was written from this byte on, two at least.
pub fn push_to_column(out: &mut String, start: usize, column: usize) -> Written {
    let written = out.as_str().get(start..).unwrap_or("").chars().count();
    push_times(out, ' ', column.saturating_sub(written).max(2))
}

/// How many characters are shown before a place in a long line, and again from there on.
const BEFORE: usize = 50;

const BEHIND: usize = 30;

/// The last characters of the text, `most` of them, and whether there are more.
pub fn tail(text: &str, most: usize) -> (&str, bool) {
    let count = text.chars().count();
    let first = count.saturating_sub(most);
    let cut = match text.char_indices().nth(first) {
        Some((cut, _)) => cut,
        None => text.len(),
    };
    (text.get(cut..).unwrap_or(""), first > 0)
}

/// The first characters of the text, `most` of them, and whether there are more.
pub fn head(text: &str, most: usize) -> (&str, bool) {
    match text.char_indices().nth(most) {
        Some((cut, _)) => (text.get(..cut).unwrap_or(""), true),
        None => (text, false),
    }
}

fn dots(are_there: bool) -> &'static str {
    if are_there { ".." } else { "" }
}

/// Writes the line with this byte of the text, and a caret below the byte, each after a line end. Of a long line only
/// what is around the place is written.
pub fn push_excerpt(out: &mut String, text: &str, at: usize) -> Written {
    let before = text.get(..at).unwrap_or(text).split('\n').last();
    let behind = text.get(at..).unwrap_or("").split('\n').next();
    let (before, more_before) = tail(before.unwrap_or(""), BEFORE);
    let (behind, more_behind) = head(behind.unwrap_or(""), BEHIND);
    let first = dots(more_before);
    write!(out, "\n  {first}")?;
    push_shown(out, before)?;
    push_shown(out, behind)?;
    let last = dots(more_behind);
    write!(out, "{last}\n  ")?;
    push_times(out, ' ', first.len().saturating_add(width(before)))?;
    out.push('^')
}
