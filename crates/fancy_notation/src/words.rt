//! The tables of words: leaves, head words and verbs, and numbers.

ghost use Rattle.std.specs.Prelude.{◌≡◌, ◌-◌, ◌^◌, if◌then◌else◌, ◌==◌, None, Some};
ghost use Rattle.std.specs.Option.{option_map};
ghost use Rattle.fancy_expr.specs.Views.{tree_of, assertion_of, verb_of as verb_view, bound_of};
ghost use Rattle.fancy_notation.specs.Words.{found, assertions, plain_leaves, leaf_of, enclosings, other_forms, form_of, verb_of, level_of, count_of, bound_at_least, byte_of};

use crate::forms::{Enclosing, Form, Leveled, Naming};
use crate::numbers::number;
use fancy_expr::expr::{Absent, Assertion, BacktrackingControlVerb, Expr, LookAround};

/// The expression that a word alone stands for.
pub(crate) fn leaf(word: &str) -> Option<Expr>
    ensures { option_map tree_of result ≡ leaf_of word.now }
{
    match assertion(word) {
        Some(found) => Some(Expr::Assertion(found)),
        None => plain_leaf(word),
    }
}

fn plain_leaf(word: &str) -> Option<Expr>
    ensures { option_map tree_of result ≡ found plain_leaves word.now }
{
    match word {
        "empty" => Some(Expr::Empty),
        "dot" => Some(Expr::Any {
            newline: false,
            crlf: false,
        }),
        "dotcrlf" => Some(Expr::Any {
            newline: false,
            crlf: true,
        }),
        "any" => Some(Expr::Any {
            newline: true,
            crlf: false,
        }),
        "nl" => Some(Expr::GeneralNewline { unicode: true }),
        "nlascii" => Some(Expr::GeneralNewline { unicode: false }),
        "keep" => Some(Expr::KeepOut),
        "cont" => Some(Expr::ContinueFromPreviousMatchEnd),
        "absclear" => Some(Expr::Absent(Absent::Clear)),
        _ => None,
    }
}

fn assertion(word: &str) -> Option<Assertion>
    ensures { option_map assertion_of result ≡ found assertions word.now }
{
    match word {
        "start" => Some(Assertion::StartText),
        "end" => Some(Assertion::EndText),
        "endnl" => Some(Assertion::EndTextIgnoreTrailingNewlines { crlf: false }),
        "endcrlf" => Some(Assertion::EndTextIgnoreTrailingNewlines { crlf: true }),
        "bol" => Some(Assertion::StartLine { crlf: false }),
        "bolcrlf" => Some(Assertion::StartLine { crlf: true }),
        "obol" => Some(Assertion::StartLineOniguruma { crlf: false }),
        "obolcrlf" => Some(Assertion::StartLineOniguruma { crlf: true }),
        "eol" => Some(Assertion::EndLine { crlf: false }),
        "eolcrlf" => Some(Assertion::EndLine { crlf: true }),
        "wstart" => Some(Assertion::LeftWordBoundary),
        "wend" => Some(Assertion::RightWordBoundary),
        "whstart" => Some(Assertion::LeftWordHalfBoundary),
        "whend" => Some(Assertion::RightWordHalfBoundary),
        "wb" => Some(Assertion::WordBoundary),
        "nwb" => Some(Assertion::NotWordBoundary),
        _ => None,
    }
}

/// The form that a word after an opening parenthesis begins.
pub fn form(word: &str) -> Option<Form>
    ensures { result ≡ form_of word.now }
{
    match enclosing(word) {
        Some(found) => Some(Form::Enclosing(found)),
        None => other_form(word),
    }
}

fn enclosing(word: &str) -> Option<Enclosing>
    ensures { result ≡ found enclosings word.now }
{
    match word {
        "grp" => Some(Enclosing::Group),
        "atom" => Some(Enclosing::Atomic),
        "define" => Some(Enclosing::Define),
        "ahead" => Some(Enclosing::Look(LookAround::LookAhead)),
        "nahead" => Some(Enclosing::Look(LookAround::LookAheadNeg)),
        "behind" => Some(Enclosing::Look(LookAround::LookBehind)),
        "nbehind" => Some(Enclosing::Look(LookAround::LookBehindNeg)),
        "absent" => Some(Enclosing::AbsentRepeater),
        "absstop" => Some(Enclosing::AbsentStopper),
        _ => None,
    }
}

fn other_form(word: &str) -> Option<Form>
    ensures { result ≡ found other_forms word.now }
{
    match word {
        "cat" => Some(Form::Cat),
        "alt" => Some(Form::Alt),
        "rep" => Some(Form::Repeat { greedy: true }),
        "lazy" => Some(Form::Repeat { greedy: false }),
        "set" => Some(Form::Set { casei: false }),
        "iset" => Some(Form::Set { casei: true }),
        "bytes" => Some(Form::Bytes),
        "ref" => Some(Form::Naming(Naming::Backref { casei: false })),
        "iref" => Some(Form::Naming(Naming::Backref { casei: true })),
        "reflevel" => Some(Form::Leveled(Leveled::Backref)),
        "has" => Some(Form::Naming(Naming::Exists)),
        "haslevel" => Some(Form::Leveled(Leveled::Exists)),
        "verb" => Some(Form::Verb),
        "if" => Some(Form::Conditional),
        "call" => Some(Form::Naming(Naming::Call)),
        "absexp" => Some(Form::AbsentExpression),
        _ => None,
    }
}

/// The verb that a word names.
pub(crate) fn verb(word: &str) -> Option<BacktrackingControlVerb>
    ensures { option_map verb_view result ≡ verb_of word.now }
{
    match word {
        "fail" => Some(BacktrackingControlVerb::Fail),
        "accept" => Some(BacktrackingControlVerb::Accept),
        "commit" => Some(BacktrackingControlVerb::Commit),
        "skip" => Some(BacktrackingControlVerb::Skip),
        "prune" => Some(BacktrackingControlVerb::Prune),
        _ => None,
    }
}

/// The level that digits write, with an optional `-` before them.
pub(crate) fn level(word: &str) -> Option<isize>
    ensures { result ≡ level_of word.now }
{
    if word.starts_with('+') {
        return None;
    }
    word.parse::<isize>().ok()
}

/// A number of iterations.
pub(crate) fn count(word: &str) -> Option<usize>
    ensures { result ≡ count_of word.now }
{
    match number(word) {
        Some(n) if n < usize::MAX => Some(n),
        _ => None,
    }
}

/// The greatest number of iterations, at least `lo`, where `*` means that there is none.
pub(crate) fn bound(word: &str, lo: usize) -> Option<usize>
    ensures { option_map bound_of result ≡ bound_at_least lo word.now }
{
    if word == "*" {
        return Some(usize::MAX);
    }
    match count(word) {
        Some(n) if lo <= n => Some(n),
        _ => None,
    }
}

/// The number of a character up to 255.
pub(crate) fn byte(word: &str) -> Option<u8>
    ensures { result ≡ byte_of word.now }
{
    match number(word) {
        Some(n) if n <= 255 => Some(n as u8),
        _ => None,
    }
}
