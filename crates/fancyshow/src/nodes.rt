//! How a node of a tree is called: by the words of the notation, without what is below it.

use crate::outcome::Written;
use fancy_expr::expr::{Absent, Assertion, BacktrackingControlVerb, Expr, LookAround};

fn assertion(assertion: Assertion) -> &'static str {
    match assertion {
        Assertion::StartText => "start",
        Assertion::EndText => "end",
        Assertion::EndTextIgnoreTrailingNewlines { crlf: false } => "endnl",
        Assertion::EndTextIgnoreTrailingNewlines { crlf: true } => "endcrlf",
        Assertion::StartLine { crlf: false } => "bol",
        Assertion::StartLine { crlf: true } => "bolcrlf",
        Assertion::StartLineOniguruma { crlf: false } => "obol",
        Assertion::StartLineOniguruma { crlf: true } => "obolcrlf",
        Assertion::EndLine { crlf: false } => "eol",
        Assertion::EndLine { crlf: true } => "eolcrlf",
        Assertion::LeftWordBoundary => "wstart",
        Assertion::RightWordBoundary => "wend",
        Assertion::LeftWordHalfBoundary => "whstart",
        Assertion::RightWordHalfBoundary => "whend",
        Assertion::WordBoundary => "wb",
        Assertion::NotWordBoundary => "nwb",
    }
}

fn word(expr: &Expr) -> &'static str {
    match expr {
        Expr::Empty => "empty",
        Expr::Any { newline: true, .. } => "any",
        Expr::Any { crlf: true, .. } => "dotcrlf",
        Expr::Any { .. } => "dot",
        Expr::Assertion(asserted) => assertion(*asserted),
        Expr::GeneralNewline { unicode: true } => "nl",
        Expr::GeneralNewline { unicode: false } => "nlascii",
        Expr::Concat(_) => "cat",
        Expr::Alt(_) => "alt",
        Expr::LookAround(_, LookAround::LookAhead) => "ahead",
        Expr::LookAround(_, LookAround::LookAheadNeg) => "nahead",
        Expr::LookAround(_, LookAround::LookBehind) => "behind",
        Expr::LookAround(_, LookAround::LookBehindNeg) => "nbehind",
        Expr::AtomicGroup(_) => "atom",
        Expr::KeepOut => "keep",
        Expr::ContinueFromPreviousMatchEnd => "cont",
        Expr::BacktrackingControlVerb(BacktrackingControlVerb::Fail) => "verb fail",
        Expr::BacktrackingControlVerb(BacktrackingControlVerb::Accept) => "verb accept",
        Expr::BacktrackingControlVerb(BacktrackingControlVerb::Commit) => "verb commit",
        Expr::BacktrackingControlVerb(BacktrackingControlVerb::Skip) => "verb skip",
        Expr::BacktrackingControlVerb(BacktrackingControlVerb::Prune) => "verb prune",
        Expr::Conditional { .. } => "if",
        Expr::Absent(Absent::Repeater(_)) => "absent",
        Expr::Absent(Absent::Expression { .. }) => "absexp",
        Expr::Absent(Absent::Stopper(_)) => "absstop",
        Expr::Absent(Absent::Clear) => "absclear",
        Expr::DefineGroup { .. } => "define",
        _ => "unresolved",
    }
}

fn push_loop(out: &mut String, lo: usize, hi: usize, greedy: bool) -> Written {
    let word = if greedy { "rep" } else { "lazy" };
    if hi == usize::MAX {
        write!(out, "{word} {lo} *")
    } else {
        write!(out, "{word} {lo} {hi}")
    }
}

fn push_bytes(out: &mut String, bytes: &[u8]) -> Written {
    out.push_str("bytes")?;
    for byte in bytes {
        write!(out, " {byte}")?;
    }
    Ok(())
}

/// The word and the number of a node that has one. `group` is its number if it is a group.
pub fn numbered(expr: &Expr, group: usize) -> Option<(&'static str, usize)> {
    match expr {
        Expr::Group(_) => Some(("grp", group)),
        Expr::Backref { group, casei, .. } => Some((if *casei { "iref" } else { "ref" }, *group)),
        Expr::BackrefWithRelativeRecursionLevel { group, .. } => Some(("reflevel", *group)),
        Expr::BackrefExistsCondition { group, .. } => Some(("has", *group)),
        Expr::SubroutineCall(group) => Some(("call", *group)),
        _ => None,
    }
}

/// Writes what the node is called. `group` is its number if it is a group.
pub fn push_node(out: &mut String, expr: &Expr, group: usize) -> Written {
    if let Some((word, number)) = numbered(expr, group) {
        return write!(out, "{word} {number}");
    }
    match expr {
        Expr::Literal { val, casei: false } => push_quoted(out, "", val.as_str()),
        Expr::Literal { val, .. } => push_quoted(out, "i", val.as_str()),
        Expr::Delegate {
            inner,
            casei: false,
        } => push_quoted(out, "set ", inner.as_str()),
        Expr::Delegate { inner, .. } => push_quoted(out, "iset ", inner.as_str()),
        Expr::LiteralBytes { bytes } => push_bytes(out, bytes),
        Expr::Repeat { lo, hi, greedy, .. } => push_loop(out, *lo, *hi, *greedy),
        _ => out.push_str(word(expr)),
    }
}

/// Writes the text between quotes, as the notation has it, after what is before them.
pub fn push_quoted(out: &mut String, before: &str, text: &str) -> Written {
    write!(out, "{before}\"")?;
    push_unquoted(out, text)?;
    out.push('"')
}

/// Writes the text as it stands between quotes.
pub fn push_unquoted(out: &mut String, text: &str) -> Written {
    for c in text.chars() {
        push_character(out, c)?;
    }
    Ok(())
}

pub fn push_character(out: &mut String, c: char) -> Written {
    let code = c as u32;
    match c {
        '"' => out.push_str("\\\""),
        '\\' => out.push_str("\\\\"),
        '\n' => out.push_str("\\n"),
        '\r' => out.push_str("\\r"),
        _ if c.is_control() => write!(out, "\\u{{{code:x}}}"),
        _ => out.push(c),
    }
}

/// Whether the notation writes the node in brackets.
pub fn has_brackets(expr: &Expr) -> bool {
    match expr {
        Expr::Literal { .. } | Expr::Any { .. } | Expr::Empty => false,
        Expr::Assertion(_) | Expr::GeneralNewline { .. } => false,
        Expr::KeepOut | Expr::ContinueFromPreviousMatchEnd => false,
        _ => true,
    }
}

/// Writes the node as the notation begins it, up to its children, with a bracket where it has one.
pub fn push_head(out: &mut String, expr: &Expr) -> Written {
    if has_brackets(expr) {
        out.push('(')?;
    }
    match expr {
        Expr::Group(_) => out.push_str("grp"),
        _ => push_node(out, expr, 0),
    }
}
