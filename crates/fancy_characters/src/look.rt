//! Assertions: the table of where each holds, of text, line and word.

ghost use Rattle.std.specs.Prelude.{◌≡◌, ◌==◌, ◌||◌, ◌&&◌};
ghost use Rattle.fancy_meaning.specs.Assertions as meant;
ghost use Rattle.fancy_meaning.specs.Chars.{is_word};
ghost use Rattle.fancy_expr.specs.Views.{assertion_of};

use crate::places::{is_after, is_before};
use fancy_expr::expr::Assertion;
use regex_nfa::{char_at, char_before, is_word_byte};
use ucd_perl::is_word_code;

/// Whether the assertion holds at the place `ix` of the text.
pub fn holds(assertion: Assertion, unicode: bool, text: &str, ix: usize) -> bool
    ensures { result ≡ meant.holds text.now ix unicode (assertion_of assertion) }
{
    holds_in(assertion, unicode, text.as_bytes(), ix)
}

/// Whether the assertion speaks of the text's end.
pub fn is_of_end(assertion: Assertion) -> bool
    ensures { result ≡ meant.is_of_end (assertion_of assertion) }
{
    match assertion {
        Assertion::EndText => true,
        Assertion::EndTextIgnoreTrailingNewlines { .. } => true,
        _ => false,
    }
}

fn holds_in(assertion: Assertion, unicode: bool, text: &[u8], ix: usize) -> bool
    ensures { result ≡ meant.holds text.now ix unicode (assertion_of assertion) }
{
    match assertion {
        Assertion::StartText => ix == 0,
        Assertion::EndText => ix == text.len(),
        Assertion::EndTextIgnoreTrailingNewlines { crlf } => only_newlines_left(text, ix, crlf),
        Assertion::StartLine { crlf } => is_line_start(text, ix, crlf),
        Assertion::StartLineOniguruma { crlf } => {
            is_line_start(text, ix, crlf) & ((ix != text.len()) | (text.len() == 0))
        }
        Assertion::EndLine { crlf } => is_line_end(text, ix, crlf),
        Assertion::LeftWordBoundary => {
            !word_before(text, ix, unicode) & word_after(text, ix, unicode)
        }
        Assertion::RightWordBoundary => {
            word_before(text, ix, unicode) & !word_after(text, ix, unicode)
        }
        Assertion::LeftWordHalfBoundary => !word_before(text, ix, unicode),
        Assertion::RightWordHalfBoundary => !word_after(text, ix, unicode),
        Assertion::WordBoundary => {
            differ(
                word_before(text, ix, unicode),
                word_after(text, ix, unicode),
            )
        }
        Assertion::NotWordBoundary => {
            !differ(
                word_before(text, ix, unicode),
                word_after(text, ix, unicode),
            )
        }
    }
}

/// One of the two alone.
fn differ(a: bool, b: bool) -> bool
    ensures { result ≡ meant.differ a b }
{
    if a { !b } else { b }
}

fn is_line_start(text: &[u8], ix: usize, crlf: bool) -> bool
    ensures { result ≡ meant.is_line_start text.now ix crlf }
{
    (ix == 0)
        | is_after(text, ix, b'\n')
        | (crlf & is_after(text, ix, b'\r') & !is_before(text, ix, b'\n'))
}

fn is_line_end(text: &[u8], ix: usize, crlf: bool) -> bool
    ensures { result ≡ meant.is_line_end text.now ix crlf }
{
    if crlf {
        (ix == text.len())
            | is_before(text, ix, b'\r')
            | (is_before(text, ix, b'\n') & !is_after(text, ix, b'\r'))
    } else {
        (ix == text.len()) | is_before(text, ix, b'\n')
    }
}

/// The rest is LFs, and with `crlf` also CRs.
fn only_newlines_left(text: &[u8], ix: usize, crlf: bool) -> bool
    ensures { result ≡ meant.only_newlines_left text.now ix crlf }
{
    for at in ix..text.len() {
        if !is_line_byte(text[at], crlf) {
            return false;
        }
    }
    true
}

fn is_line_byte(byte: u8, crlf: bool) -> bool
    ensures { result ≡ (byte == 10 || (crlf && byte == 13)) }
{
    (byte == b'\n') | (crlf & (byte == b'\r'))
}

/// The character is one of a word.
fn is_word(c: u32, unicode: bool) -> bool
    ensures { result ≡ is_word unicode c }
{
    if unicode {
        is_word_code(c)
    } else {
        c < 0x80 && is_word_byte(c as u8)
    }
}

fn word_before(text: &[u8], ix: usize, unicode: bool) -> bool
    ensures { result ≡ meant.word_before text.now ix unicode }
{
    match char_before(text, ix) {
        Some(c) => is_word(c, unicode),
        None => false,
    }
}

fn word_after(text: &[u8], ix: usize, unicode: bool) -> bool
    ensures { result ≡ meant.word_after text.now ix unicode }
{
    match char_at(text, ix) {
        Some(c) => is_word(c, unicode),
        None => false,
    }
}
