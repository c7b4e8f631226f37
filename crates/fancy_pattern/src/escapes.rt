//! What follows a backslash.

ghost use Rattle.std.specs.Prelude.{◌≡◌, ◌≤◌, length, IfOk, IfSome, option_map};
ghost use Rattle.fancy_expr.specs.Views.{assertion_of};
ghost use Rattle.fancy_pattern.specs.Texts.{seen};
ghost use Rattle.fancy_pattern.specs.Escapes.{leaf_escape, char_of, hex_at, braced_hex_at, bare_hex_at, property_length, property_at, boundary_at, numbered_at, escape_at, literal_escape, own_escape, literal_at, set_at, refer_at, is_set, other_escape_at};
ghost use Rattle.fancy_pattern.specs.Lone.{IsQuiet};
ghost use Rattle.fancy_tokens.specs.PatternViews.{leaf_of, unboxed_of};

use crate::characters::{Test, first, run_length, skip_word, split_run};
use crate::error::fault_at;
use crate::names::{delimited_at, number_at};
use crate::numbers::number;
use fancy_expr::expr::Assertion;
use fancy_tokens::error::{ErrorKind, Fault};
use fancy_tokens::flags::Flags;
use fancy_tokens::tokens::{Leaf, Naming, Token, Unboxed};

/// The character with the number that these hexadecimal digits write.
fn char_of(digits: &[char]) -> Option<char>
    ensures { result ≡ char_of digits.now }
{
    let code = number(digits, 16)?;
    if code > 0x10_FFFF {
        return None;
    }
    char::from_u32(code as u32)
}

/// The character whose number follows: so many digits, or one to eight of them in braces.
#[tactic(auto, unfolding(crate::specs::Escapes::hex_at))]
pub(crate) fn hex_at(count: usize, text: &[char]) -> Result<(char, &[char]), Fault>
    ensures value { seen (λ p. (p.0, p.1.now)) result ≡ hex_at count text.now }
    ensures shorter { IfOk result (λ p. length p.1.now ≤ length text.now) }
{
    match first(text) {
        Some(('{', after)) => braced_hex_at(after),
        _ => bare_hex_at(count, text),
    }
}

#[tactic(auto, unfolding(crate::specs::Escapes::braced_hex_at))]
fn braced_hex_at(text: &[char]) -> Result<(char, &[char]), Fault>
    ensures value { seen (λ p. (p.0, p.1.now)) result ≡ braced_hex_at text.now }
    ensures shorter { IfOk result (λ p. length p.1.now ≤ length text.now) }
{
    let (digits, rest) = split_run(text, Test::HexDigit);
    if digits.len() > 8 {
        return Err(fault_at(ErrorKind::InvalidHex, &text[8..]));
    }
    match first(rest) {
        Some(('}', after)) if !digits.is_empty() => match char_of(digits) {
            Some(c) => Ok((c, after)),
            None => Err(fault_at(ErrorKind::InvalidCodepointValue, text)),
        },
        _ => Err(fault_at(ErrorKind::InvalidHex, rest)),
    }
}

#[tactic(auto, unfolding(crate::specs::Escapes::bare_hex_at))]
fn bare_hex_at(count: usize, text: &[char]) -> Result<(char, &[char]), Fault>
    ensures value { seen (λ p. (p.0, p.1.now)) result ≡ bare_hex_at count text.now }
    ensures shorter { IfOk result (λ p. length p.1.now ≤ length text.now) }
{
    let (digits, rest) = split_run(text, Test::HexDigit);
    if digits.len() < count {
        return Err(fault_at(ErrorKind::InvalidHex, rest));
    }
    match char_of(&text[..count]) {
        Some(c) => Ok((c, &text[count..])),
        None => Err(fault_at(ErrorKind::InvalidCodepointValue, text)),
    }
}

/// How many characters the name of a property has: one, or all up to the closing brace.
#[tactic(auto, unfolding(crate::specs::Escapes::property_length))]
fn property_length(text: &[char]) -> Option<usize>
    ensures value { result ≡ property_length text.now }
    ensures bound { IfSome result (λ n. n ≤ length text.now) }
{
    let (c, _) = first(text)?;
    if c != '{' {
        return Some(1);
    }
    let inside = run_length(text, Test::InBraces);
    if inside < text.len() {
        Some(inside + 1)
    } else {
        None
    }
}

/// The name of a property, with its braces where it has them.
#[tactic(auto, unfolding(crate::specs::Escapes::property_at))]
pub(crate) fn property_at(text: &[char]) -> Result<(&[char], &[char]), Fault>
    ensures value { seen (λ p. (p.0.now, p.1.now)) result ≡ property_at text.now }
    ensures shorter { IfOk result (λ p. length p.1.now ≤ length text.now) }
{
    match property_length(text) {
        Some(length) => Ok(text.split_at(length)),
        None => Err(Fault {
            left: 0,
            kind: ErrorKind::UnclosedUnicodeName,
        }),
    }
}

/// What follows `\b`: a name in braces, or nothing.
#[tactic(auto, unfolding(crate::specs::Escapes::boundary_at))]
fn boundary_at(text: &[char]) -> (Assertion, &[char])
    ensures value { (assertion_of result.0, result.1.now) ≡ boundary_at text.now }
    ensures shorter { length result.1.now ≤ length text.now }
{
    if let Some(rest) = skip_word(text, "{start}") {
        return (Assertion::LeftWordBoundary, rest);
    }
    if let Some(rest) = skip_word(text, "{end}") {
        return (Assertion::RightWordBoundary, rest);
    }
    if let Some(rest) = skip_word(text, "{start-half}") {
        return (Assertion::LeftWordHalfBoundary, rest);
    }
    if let Some(rest) = skip_word(text, "{end-half}") {
        return (Assertion::RightWordHalfBoundary, rest);
    }
    (Assertion::WordBoundary, text)
}

/// The escapes of one character that are no sets.
fn leaf_escape(flags: Flags, c: char) -> Option<Leaf>
    ensures { option_map leaf_of result ≡ leaf_escape flags c }
{
    match c {
        'A' => Some(Leaf::Assertion(Assertion::StartText)),
        'z' => Some(Leaf::Assertion(Assertion::EndText)),
        'Z' => Some(Leaf::Assertion(Assertion::EndTextIgnoreTrailingNewlines { crlf: flags.crlf })),
        'B' => Some(Leaf::Assertion(Assertion::NotWordBoundary)),
        '<' => Some(Leaf::Assertion(Assertion::LeftWordBoundary)),
        '>' => Some(Leaf::Assertion(Assertion::RightWordBoundary)),
        'G' => Some(Leaf::ContinueFromPreviousMatchEnd),
        'K' => Some(Leaf::KeepOut),
        'R' => Some(Leaf::GeneralNewline {
            unicode: flags.unicode,
        }),
        'O' => Some(Leaf::Any {
            newline: true,
            crlf: false,
        }),
        'N' => Some(Leaf::Any {
            newline: false,
            crlf: false,
        }),
        'h' => Some(Leaf::HexDigits { negated: false }),
        'H' => Some(Leaf::HexDigits { negated: true }),
        _ => literal_escape(flags, c),
    }
}

/// The escapes of one character that are a literal.
fn literal_escape(flags: Flags, c: char) -> Option<Leaf>
    ensures { option_map leaf_of result ≡ literal_escape flags c }
{
    let casei = flags.casei;
    match c {
        'a' => Some(Leaf::Literal { val: '\x07', casei }),
        'e' => Some(Leaf::Literal { val: '\x1B', casei }),
        'f' => Some(Leaf::Literal { val: '\x0C', casei }),
        'n' => Some(Leaf::Literal { val: '\n', casei }),
        'r' => Some(Leaf::Literal { val: '\r', casei }),
        't' => Some(Leaf::Literal { val: '\t', casei }),
        'v' => Some(Leaf::Literal { val: '\x0B', casei }),
        _ => own_escape(casei, c),
    }
}

/// The character itself, unless it is a letter or a digit of ASCII.
fn own_escape(casei: bool, c: char) -> Option<Leaf>
    ensures { option_map leaf_of result ≡ own_escape casei c }
{
    if c.is_ascii_alphanumeric() {
        None
    } else {
        Some(Leaf::Literal { val: c, casei })
    }
}

/// What a backslash begins, from the character behind it on, where so many groups were opened.
#[inline(always)]
#[tactic(auto, unfolding(crate::specs::Escapes::escape_at))]
pub(crate) fn escape_at(
    flags: Flags,
    opened: usize,
    text: &[char],
) -> Result<(Unboxed<'_>, &[char]), Fault>
    ensures value { seen (λ p. (unboxed_of p.0, p.1.now)) result ≡ escape_at flags opened text.now }
    ensures quiet { IfOk result (λ p. IsQuiet (unboxed_of p.0)) }
    ensures shorter { IfOk result (λ p. length p.1.now ≤ length text.now) }
{
    let Some((c, after)) = first(text) else {
        return Err(fault_at(ErrorKind::TrailingBackslash, text));
    };
    match c {
        'x' => literal_at(flags, 2, after),
        'u' => literal_at(flags, 4, after),
        'U' => literal_at(flags, 8, after),
        'p' => set_at(flags, c, after),
        'P' => set_at(flags, c, after),
        'b' => {
            let (assertion, rest) = boundary_at(after);
            Ok((
                Unboxed::Token(Token::Leaf(Leaf::Assertion(assertion))),
                rest,
            ))
        }
        'k' => refer_at(opened, Naming::Backref { casei: flags.casei }, after),
        'g' => refer_at(opened, Naming::Call, after),
        _ => other_escape_at(flags, c, text, after),
    }
}

#[tactic(auto, unfolding(crate::specs::Escapes::literal_at))]
fn literal_at(flags: Flags, count: usize, text: &[char]) -> Result<(Unboxed<'_>, &[char]), Fault>
    ensures value { seen (λ p. (unboxed_of p.0, p.1.now)) result ≡ literal_at flags count text.now }
    ensures quiet { IfOk result (λ p. IsQuiet (unboxed_of p.0)) }
    ensures shorter { IfOk result (λ p. length p.1.now ≤ length text.now) }
{
    let (val, rest) = hex_at(count, text)?;
    Ok((
        Unboxed::Token(Token::Leaf(Leaf::Literal {
            val,
            casei: flags.casei,
        })),
        rest,
    ))
}

#[tactic(auto, unfolding(crate::specs::Escapes::set_at))]
fn set_at(flags: Flags, letter: char, text: &[char]) -> Result<(Unboxed<'_>, &[char]), Fault>
    ensures value { seen (λ p. (unboxed_of p.0, p.1.now)) result ≡ set_at flags letter text.now }
    ensures quiet { IfOk result (λ p. IsQuiet (unboxed_of p.0)) }
    ensures shorter { IfOk result (λ p. length p.1.now ≤ length text.now) }
{
    let (name, rest) = property_at(text)?;
    Ok((
        Unboxed::Token(Token::Set {
            letter,
            text: name,
            casei: flags.casei,
        }),
        rest,
    ))
}

#[tactic(auto, unfolding(crate::specs::Escapes::refer_at))]
fn refer_at(opened: usize, naming: Naming, text: &[char]) -> Result<(Unboxed<'_>, &[char]), Fault>
    ensures value { seen (λ p. (unboxed_of p.0, p.1.now)) result ≡ refer_at opened naming text.now }
    ensures quiet { IfOk result (λ p. IsQuiet (unboxed_of p.0)) }
    ensures shorter { IfOk result (λ p. length p.1.now ≤ length text.now) }
{
    let (reference, rest) = delimited_at(opened, naming, text)?;
    Ok((Unboxed::Refer(reference), rest))
}

/// A set of one letter.
fn is_set(c: char) -> bool
    ensures { result ≡ is_set c }
{
    matches!(c, 'd' | 'D' | 's' | 'S' | 'w' | 'W')
}

/// The other escapes; `text` begins with the character, and `after` follows it.
#[inline(always)]
#[tactic(auto, unfolding(crate::specs::Escapes::other_escape_at))]
fn other_escape_at<'a>(
    flags: Flags,
    c: char,
    text: &'a [char],
    after: &'a [char],
) -> Result<(Unboxed<'a>, &'a [char]), Fault>
    requires { length after.now ≤ length text.now }
    ensures value { seen (λ p. (unboxed_of p.0, p.1.now)) result
        ≡ other_escape_at flags c text.now after.now }
    ensures quiet { IfOk result (λ p. IsQuiet (unboxed_of p.0)) }
    ensures shorter { IfOk result (λ p. length p.1.now ≤ length text.now) }
{
    if is_set(c) {
        let (none, _) = after.split_at(0);
        return Ok((
            Unboxed::Token(Token::Set {
                letter: c,
                text: none,
                casei: flags.casei,
            }),
            after,
        ));
    }
    if c.is_ascii_digit() {
        return numbered_at(flags, text);
    }
    match leaf_escape(flags, c) {
        Some(leaf) => Ok((Unboxed::Token(Token::Leaf(leaf)), after)),
        None => Err(fault_at(ErrorKind::InvalidEscape, text)),
    }
}

/// A reference by its number.
#[tactic(auto, unfolding(crate::specs::Escapes::numbered_at))]
fn numbered_at(flags: Flags, text: &[char]) -> Result<(Unboxed<'_>, &[char]), Fault>
    ensures value { seen (λ p. (unboxed_of p.0, p.1.now)) result ≡ numbered_at flags text.now }
    ensures quiet { IfOk result (λ p. IsQuiet (unboxed_of p.0)) }
    ensures shorter { IfOk result (λ p. length p.1.now ≤ length text.now) }
{
    let (number, rest) = number_at(text)?;
    Ok((
        Unboxed::Token(Token::Numbered {
            naming: Naming::Backref { casei: flags.casei },
            number,
            left: text.len(),
        }),
        rest,
    ))
}
