//! What nodes are called in words.

use crate::figures::{MOST_COLUMNS, Shape, Style, columns, text_note};
use crate::names::GroupNames;
use fancy_expr::expr::{Absent, Assertion, BacktrackingControlVerb, Expr, LookAround};
use std::alloc::AllocError;
use unicode_width::UnicodeWidthChar;

fn assertion(assertion: Assertion) -> &'static str {
    match assertion {
        Assertion::StartText => "start of text",
        Assertion::EndText => "end of text",
        Assertion::EndTextIgnoreTrailingNewlines { crlf: false } =>
            "end of text, or LF before its end",
        Assertion::EndTextIgnoreTrailingNewlines { crlf: true } =>
            "end of text, or LF and CR before its end",
        Assertion::StartLine { crlf: false } => "start of line",
        Assertion::StartLine { crlf: true } => "start of line (CR LF)",
        Assertion::StartLineOniguruma { crlf: false } => "start of line, not end of text",
        Assertion::StartLineOniguruma { crlf: true } => "start of line (CR LF), not end of text",
        Assertion::EndLine { crlf: false } => "end of line",
        Assertion::EndLine { crlf: true } => "end of line (CR LF)",
        Assertion::LeftWordBoundary => "start of word",
        Assertion::RightWordBoundary => "end of word",
        Assertion::LeftWordHalfBoundary => "no word character before",
        Assertion::RightWordHalfBoundary => "no word character after",
        Assertion::WordBoundary => "word boundary",
        Assertion::NotWordBoundary => "no word boundary",
    }
}

/// The words of a node that has the same ones wherever it stands.
fn fixed(expr: &Expr) -> &'static str {
    match expr {
        Expr::Any { newline: true, .. } => "any character",
        Expr::Any { crlf: true, .. } => "any character but CR and LF",
        Expr::Any { .. } => "any character but LF",
        Expr::Assertion(asserted) => assertion(*asserted),
        Expr::GeneralNewline { .. } => "line end",
        Expr::KeepOut => "the match begins here",
        Expr::ContinueFromPreviousMatchEnd => "end of the last match",
        Expr::BacktrackingControlVerb(BacktrackingControlVerb::Fail) => "never",
        Expr::BacktrackingControlVerb(BacktrackingControlVerb::Accept) => "accept",
        Expr::BacktrackingControlVerb(BacktrackingControlVerb::Commit) => "commit",
        Expr::BacktrackingControlVerb(BacktrackingControlVerb::Skip) => "skip",
        Expr::BacktrackingControlVerb(BacktrackingControlVerb::Prune) => "prune",
        Expr::SubroutineCall(_) => "call of the whole pattern",
        Expr::Absent(_) => "no limit on the text",
        _ => "not resolved",
    }
}

/// The group of a node that names one, and what stands before it and after it.
fn named(expr: &Expr) -> Option<(&'static str, usize, &'static str)> {
    match expr {
        Expr::Backref { group, casei } => Some(("same text as ", *group, text_note(*casei))),
        Expr::BackrefWithRelativeRecursionLevel { group, .. } => Some((
            "same text as ",
            *group,
            " in another call",
        )),
        Expr::BackrefExistsCondition { group, .. } => Some(("", *group, " is set")),
        Expr::SubroutineCall(group) if *group > 0 => Some(("call of ", *group, "")),
        _ => None,
    }
}

/// Whether each character takes a column, so that it can be seen.
fn is_visible(text: &str) -> bool {
    text.chars().all(|c| matches!(c.width(), Some(1..)))
}

/// How a node without children is drawn: characters that cannot be seen in a box of their own.
pub fn leaf_shape(expr: &Expr) -> Shape {
    match expr {
        Expr::Empty | Expr::Concat(_) => Shape::Line,
        Expr::Literal { val, casei } if is_visible(val.as_str()) => Shape::Text {
            is_folded: *casei,
        },
        Expr::Literal { .. } => Shape::Box(Style::Literal),
        Expr::Delegate { .. } | Expr::Any { .. } => Shape::Box(Style::Class),
        Expr::GeneralNewline { .. } | Expr::LiteralBytes { .. } => Shape::Box(Style::Class),
        Expr::Assertion(_) | Expr::ContinueFromPreviousMatchEnd => Shape::Box(Style::Place),
        Expr::Backref { .. } | Expr::SubroutineCall(_) => Shape::Box(Style::Reference),
        Expr::BackrefExistsCondition { .. } => Shape::Box(Style::Reference),
        _ => Shape::Box(Style::Control),
    }
}

/// Writes the text up to so many columns, and two dots where there is more. Control characters are written as escapes.
fn push_cut(out: &mut String, text: &str) -> Result<(), AllocError> {
    let mut left = MOST_COLUMNS;
    for c in text.chars() {
        left = left.saturating_sub(c.width().unwrap_or(8));
        if left == 0 {
            return out.push_str("..");
        }
        if c.is_control() {
            let escaped = c.escape_default();
            write!(out, "{escaped}")?;
        } else {
            out.push(c)?;
        }
    }
    Ok(())
}

/// Writes a class: in words, if patterns write it often.
fn push_class(out: &mut String, text: &str, is_folded: bool) -> Result<(), AllocError> {
    let note = text_note(is_folded);
    let words = match text {
        "\\d" => "digit",
        "\\D" => "no digit",
        "\\w" => "word character",
        "\\W" => "no word character",
        "\\s" => "white space",
        "\\S" => "no white space",
        _ => {
            push_cut(out, text)?;
            return out.push_str(note);
        }
    };
    write!(out, "{words}{note}")
}

fn push_bytes(out: &mut String, bytes: &[u8]) -> Result<(), AllocError> {
    out.push_str("characters")?;
    for byte in bytes {
        if columns(out.as_str()) > MOST_COLUMNS {
            return out.push_str("..");
        }
        write!(out, " {byte}")?;
    }
    Ok(())
}

/// Writes what a character is called that cannot be seen: by its name or its number.
fn push_character(out: &mut String, c: char) -> Result<(), AllocError> {
    match c {
        '\n' => out.push_str("LF"),
        '\r' => out.push_str("CR"),
        '\t' => out.push_str("tab"),
        '\u{a0}' => out.push_str("no-break space"),
        _ => {
            let number = c as u32;
            write!(out, "U+{number:04X}")
        }
    }
}

/// Writes the characters of a literal: themselves, or what they are called.
fn push_literal(out: &mut String, text: &str) -> Result<(), AllocError> {
    if is_visible(text) {
        return out.push_str(text);
    }
    for c in text.chars() {
        push_character(out, c)?;
    }
    Ok(())
}

/// Writes the words for a node that has no children; for a literal its characters, without quotes.
pub fn push_words(out: &mut String, expr: &Expr, names: &GroupNames) -> Result<(), AllocError> {
    if let Some((before, group, after)) = named(expr) {
        out.push_str(before)?;
        names.push_group(out, group)?;
        return out.push_str(after);
    }
    match expr {
        Expr::Literal { val, .. } => push_literal(out, val.as_str()),
        Expr::Delegate { inner, casei } => push_class(out, inner.as_str(), *casei),
        Expr::LiteralBytes { bytes } => push_bytes(out, bytes),
        Expr::Empty | Expr::Concat(_) => Ok(()),
        _ => out.push_str(fixed(expr)),
    }
}

/// What stands over the frame of a node that has one, but for a group.
pub fn frame_words(expr: &Expr) -> &'static str {
    match expr {
        Expr::LookAround(_, LookAround::LookAhead) => "followed by",
        Expr::LookAround(_, LookAround::LookAheadNeg) => "not followed by",
        Expr::LookAround(_, LookAround::LookBehind) => "preceded by",
        Expr::LookAround(_, LookAround::LookBehindNeg) => "not preceded by",
        Expr::AtomicGroup(_) => "first way alone (atomic)",
        Expr::DefineGroup { .. } => "for calls alone",
        Expr::Absent(Absent::Repeater(_)) => "any text without",
        Expr::Absent(_) => "absent",
        _ => "",
    }
}

pub fn frame_style(expr: &Expr) -> Style {
    match expr {
        Expr::Group(_) => Style::Group,
        Expr::LookAround(_, _) | Expr::Absent(_) => Style::Look,
        _ => Style::Atomic,
    }
}

fn push_times(out: &mut String, lo: usize, hi: usize) -> Result<(), AllocError> {
    match (lo, hi) {
        (0, 0) => out.push_str("never"),
        (0, 1) => out.push_str("at most once"),
        (1, 1) => out.push_str("once"),
        (_, usize::MAX) => write!(out, "{lo} or more times"),
        (0, _) => write!(out, "at most {hi} times"),
        _ if lo == hi => write!(out, "{lo} times"),
        _ => write!(out, "{lo} to {hi} times"),
    }
}

/// Which iterations are tried first, of a loop that has a choice.
fn preference(greedy: bool, is_possessive: bool) -> &'static str {
    match (greedy, is_possessive) {
        (false, _) => ", as few as possible (lazy)",
        (true, true) => ", nothing given back (possessive)",
        (true, false) => "",
    }
}

/// Writes how often a loop goes round, and which way is tried first.
pub fn push_loop(
    out: &mut String,
    (lo, hi): (usize, usize),
    greedy: bool,
    is_possessive: bool,
) -> Result<(), AllocError> {
    push_times(out, lo, hi)?;
    if lo < hi || is_possessive {
        out.push_str(preference(greedy, is_possessive))?;
    }
    Ok(())
}
