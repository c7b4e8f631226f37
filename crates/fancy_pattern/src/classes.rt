//! What stands in a class, as it is handed on.

ghost use Rattle.std.specs.Prelude.{◌≡◌, ◌+◌, ◌^◌, ◌<◌, ◌≤◌, length, Ok, IfOk, IfSome, option_map};
ghost use Rattle.fancy_pattern.specs.Texts.{seen};
ghost use Rattle.fancy_pattern.specs.Classes as plain;
ghost use Rattle.fancy_pattern.specs.Classes.{inner, fixed_escape, own_piece, coded_at, kept_set_at, other_class_escape_at, class_escape_at, bracket, caret, class_item_at};
ghost use Rattle.fancy_pattern.specs.Items.{IsLone};
ghost use Rattle.fancy_tokens.specs.Tokens.{ClassText};
ghost use Rattle.fancy_tokens.specs.PatternViews.{piece_text, token_of};

use crate::characters::first;
use crate::error::fault_at;
use crate::escapes::{hex_at, property_at};
use fancy_tokens::error::{ErrorKind, Fault};
use fancy_tokens::lexing::{ClassPlace, Head};
use fancy_tokens::tokens::{ClassPiece, Token};

/// A token of a class, and the place behind it.
#[derive(Drop)]
pub struct ClassItem<'a> {
    pub token: Token<'a>,
    pub place: ClassPlace,
}

fn inner(place: ClassPlace) -> ClassPlace
    ensures { result ≡ inner place }
{
    ClassPlace {
        depth: place.depth,
        head: Head::Inner,
    }
}

/// An escape of one letter that stays as it is written.
fn is_kept(c: char) -> bool
    ensures { result ≡ plain.is_kept c }
{
    matches!(
        c,
        'd' | 'D' | 's' | 'S' | 'w' | 'W' | 'n' | 'r' | 't' | 'v' | 'f' | 'a'
    )
}

/// An escape of one letter that is written otherwise.
fn fixed_escape<'a>(c: char) -> Option<ClassPiece<'a>>
    ensures { option_map piece_text result ≡ fixed_escape c }
{
    match c {
        'h' => Some(ClassPiece::HexDigits { negated: false }),
        'H' => Some(ClassPiece::HexDigits { negated: true }),
        'b' => Some(ClassPiece::Backspace),
        'e' => Some(ClassPiece::Escape),
        _ => None,
    }
}

/// The character itself, so that it is taken for itself; none for a letter or a digit of ASCII.
fn own_piece<'a>(c: char) -> Option<ClassPiece<'a>>
    ensures { option_map piece_text result ≡ own_piece c }
{
    if c.is_ascii_alphanumeric() {
        return None;
    }
    if c == '<' || c == '>' || !c.is_ascii() {
        return Some(ClassPiece::Char(c));
    }
    Some(ClassPiece::Escaped(c))
}

#[tactic(auto, unfolding(crate::specs::Classes::coded_at))]
fn coded_at(count: usize, text: &[char]) -> Result<(ClassPiece<'_>, &[char]), Fault>
    ensures value { seen (λ p. (piece_text p.0, p.1.now)) result ≡ coded_at count text.now }
    ensures shorter { IfOk result (λ p. length p.1.now ≤ length text.now) }
{
    let (c, rest) = hex_at(count, text)?;
    Ok((ClassPiece::Code(c), rest))
}

#[tactic(auto, unfolding(crate::specs::Classes::kept_set_at))]
fn kept_set_at(letter: char, text: &[char]) -> Result<(ClassPiece<'_>, &[char]), Fault>
    ensures value { seen (λ p. (piece_text p.0, p.1.now)) result ≡ kept_set_at letter text.now }
    ensures shorter { IfOk result (λ p. length p.1.now ≤ length text.now) }
{
    let (name, rest) = property_at(text)?;
    Ok((ClassPiece::Set { letter, text: name }, rest))
}

/// What a backslash begins in a class, from the character behind it on.
#[tactic(auto, unfolding(crate::specs::Classes::class_escape_at))]
fn class_escape_at(text: &[char]) -> Result<(ClassPiece<'_>, &[char]), Fault>
    ensures value { seen (λ p. (piece_text p.0, p.1.now)) result ≡ class_escape_at text.now }
    ensures shorter { IfOk result (λ p. length p.1.now ≤ length text.now) }
{
    let Some((c, after)) = first(text) else {
        return Err(fault_at(ErrorKind::InvalidClass, text));
    };
    match c {
        'x' => coded_at(2, after),
        'u' => coded_at(4, after),
        'U' => coded_at(8, after),
        'p' => kept_set_at(c, after),
        'P' => kept_set_at(c, after),
        _ => other_class_escape_at(c, text, after),
    }
}

/// The other escapes; `text` begins with the character, and `after` follows it.
#[tactic(auto, unfolding(crate::specs::Classes::other_class_escape_at))]
fn other_class_escape_at<'a>(
    c: char,
    text: &'a [char],
    after: &'a [char],
) -> Result<(ClassPiece<'a>, &'a [char]), Fault>
    requires { length after.now ≤ length text.now }
    ensures value { seen (λ p. (piece_text p.0, p.1.now)) result
        ≡ other_class_escape_at c text.now after.now }
    ensures shorter { IfOk result (λ p. length p.1.now ≤ length text.now) }
{
    if is_kept(c) {
        let (none, _) = after.split_at(0);
        return Ok((
            ClassPiece::Set {
                letter: c,
                text: none,
            },
            after,
        ));
    }
    if let Some(piece) = fixed_escape(c) {
        return Ok((piece, after));
    }
    match own_piece(c) {
        Some(piece) => Ok((piece, after)),
        None => Err(fault_at(ErrorKind::InvalidEscape, text)),
    }
}

#[inline(always)]
fn piece_token<'a>(piece: ClassPiece<'a>) -> Token<'a>
    ensures { token_of result ≡ ClassText (piece_text piece.entry) }
{
    match piece {
        ClassPiece::Char(c) => Token::ClassChar(c),
        ClassPiece::Escaped(c) => Token::ClassEscaped(c),
        ClassPiece::Code(c) => Token::ClassCode(c),
        ClassPiece::Set { letter, text } => Token::ClassSet { letter, text },
        ClassPiece::HexDigits { negated } => Token::ClassHexDigits { negated },
        ClassPiece::Backspace => Token::ClassBackspace,
        ClassPiece::Escape => Token::ClassEscape,
    }
}

#[inline(always)]
fn class_piece<'a>(piece: ClassPiece<'a>, place: ClassPlace) -> ClassItem<'a>
    ensures value { plain.class_item_of result ≡ plain.piece_item (piece_text piece.entry) place }
    ensures lone { IsLone (token_of result.token) }
{
    ClassItem {
        token: piece_token(piece),
        place,
    }
}

/// A `]`: the character itself at the head of a class, and otherwise the end of the innermost.
fn bracket<'a>(place: ClassPlace) -> ClassItem<'a>
    ensures value { plain.class_item_of result ≡ bracket place }
    ensures lone { IsLone (token_of result.token) }
{
    match place.head {
        Head::Start => class_piece(ClassPiece::Escaped(']'), inner(place)),
        Head::Caret => class_piece(ClassPiece::Escaped(']'), inner(place)),
        Head::Inner => closing_bracket(place),
    }
}

fn closing_bracket<'a>(place: ClassPlace) -> ClassItem<'a>
    ensures value { plain.class_item_of result ≡ plain.closing_bracket place }
    ensures lone { IsLone (token_of result.token) }
{
    let outer = ClassPlace {
        depth: place.depth.saturating_sub(1),
        head: Head::Inner,
    };
    if place.depth <= 1 {
        ClassItem {
            token: Token::ClassClose,
            place: outer,
        }
    } else {
        class_piece(ClassPiece::Char(']'), outer)
    }
}

/// The place behind a `^`.
fn caret(place: ClassPlace) -> ClassPlace
    ensures { result ≡ caret place }
{
    match place.head {
        Head::Start => ClassPlace {
            depth: place.depth,
            head: Head::Caret,
        },
        _ => inner(place),
    }
}

/// The next token in a class.
#[inline(always)]
#[tactic(auto, unfolding(crate::specs::Classes::class_item_at))]
pub(crate) fn class_item_at(
    place: ClassPlace,
    text: &[char],
) -> Result<(ClassItem<'_>, &[char]), Fault>
    requires { place.depth < 2 ^ 63 }
    ensures value { seen (λ p. (plain.class_item_of p.0, p.1.now)) result
        ≡ class_item_at place text.now }
    ensures lone { IfOk result (λ p. IsLone (token_of p.0.token)) }
    ensures shorter { IfOk result (λ p. length p.1.now + 1 ≤ length text.now) }
    ensures depth { IfOk result (λ p. p.0.place.depth + length p.1.now
        ≤ place.depth + length text.now) }
{
    let Some((c, after)) = first(text) else {
        return Err(fault_at(ErrorKind::InvalidClass, text));
    };
    match c {
        '\\' => {
            let (piece, rest) = class_escape_at(after)?;
            Ok((class_piece(piece, inner(place)), rest))
        }
        '[' => Ok((
            class_piece(
                ClassPiece::Char(c),
                ClassPlace {
                    depth: place.depth + 1,
                    head: Head::Start,
                },
            ),
            after,
        )),
        ']' => Ok((bracket(place), after)),
        '^' => Ok((class_piece(ClassPiece::Char(c), caret(place)), after)),
        _ => Ok((class_piece(ClassPiece::Char(c), inner(place)), after)),
    }
}
