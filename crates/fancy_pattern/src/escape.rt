//! `escape`: a text as a pattern that spells it.

ghost use Rattle.std.specs.Prelude.{◌≡◌, ◌++◌, IfOk, OnOk, chars, encode_utf8_all, string_bytes};
ghost use Rattle.fancy_pattern.specs.Escape.{SpellsText, escaped, escaped_char, is_special};

use crate::characters::Test;
use std::alloc::{AllocError, Global};

/// Whether a character has a meaning of its own in a pattern, or under `x`.
fn is_special(c: char) -> bool
    ensures { result ≡ is_special c }
{
    match c {
        '\\' | '.' | '+' | '*' | '?' | '(' | ')' | '|' => true,
        '[' | ']' | '{' | '}' | '^' | '$' | '#' => true,
        _ => Test::Blank.passes(c),
    }
}

/// Adds a character, with a backslash before one that has a meaning of its own.
fn push_escaped(out: &mut String, c: char) -> Result<(), AllocError>
    ensures { OnOk result (string_bytes out.new
        ≡ string_bytes out.old ++ encode_utf8_all (escaped_char c)) }
{
    if is_special(c) {
        out.push('\\')?;
    }
    out.push(c)
}

/// Returns a pattern that matches the text itself, under any flags; under `i` in any case.
///
/// It has a backslash before each of `\.+*?()|[]{}^$#`, and before space, tab, LF and CR, which `x` would ignore.
///
/// # Errors
///
/// `AllocError` if an allocation fails; there is no other.
///
/// # Examples
///
/// ```
/// let pattern = escape(alloc, "1+1 = 2")?; // 1\+1\ =\ 2
/// ```
pub fn escape(alloc: Global, text: &str) -> Result<String, AllocError>
    ensures value { IfOk result (λ s. string_bytes s
        ≡ encode_utf8_all (escaped (chars text.now))) }
    ensures spells { IfOk result (λ s. SpellsText (escaped (chars text.now)) (chars text.now)) }
{
    let mut out = String::new(alloc);
    for c in text.chars() {
        push_escaped(&mut out, c)?;
    }
    Ok(out)
}
