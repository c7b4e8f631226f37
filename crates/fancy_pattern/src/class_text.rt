//! The text of a class as it is handed on.

ghost use Rattle.std.specs.Prelude.{◌≡◌, ◌++◌, [], ◌∷◌, ◌/◌, ◌%◌, ◌≤◌, OnOk, encode_utf8_all, string_bytes};
ghost use Rattle.fancy_tokens.specs.PatternViews.{piece_text, code_text, hex_digit, hex_length, hex_digits, hex_digits_text};

use fancy_tokens::tokens::ClassPiece;
use std::alloc::AllocError;

const HEX_DIGITS: [char; 9] = ['0', '-', '9', 'A', '-', 'F', 'a', '-', 'f'];

const NO_HEX_DIGITS: [char; 12] = ['[', '^', '0', '-', '9', 'A', '-', 'F', 'a', '-', 'f', ']'];

const BACKSPACE: [char; 4] = ['\\', 'x', '0', '8'];

const ESCAPE: [char; 4] = ['\\', 'x', '1', 'B'];

const BEFORE_CODE: [char; 3] = ['\\', 'x', '{'];

/// Adds these characters.
pub(crate) fn push_chars(out: &mut String, chars: &[char]) -> Result<(), AllocError>
    ensures { OnOk result (string_bytes out.new
        ≡ string_bytes out.old ++ encode_utf8_all chars.now) }
{
    for c in chars {
        out.push(*c)?;
    }
    Ok(())
}

/// Adds a backslash, this character and this text.
pub(crate) fn push_escape(out: &mut String, c: char, text: &[char]) -> Result<(), AllocError>
    ensures { OnOk result (string_bytes out.new
        ≡ string_bytes out.old ++ encode_utf8_all (92 ∷ c ∷ text.now)) }
{
    out.push('\\')?;
    out.push(c)?;
    push_chars(out, text)
}

/// Adds a piece of a class.
pub(crate) fn push_piece(out: &mut String, piece: ClassPiece<'_>) -> Result<(), AllocError>
    ensures { OnOk result (string_bytes out.new
        ≡ string_bytes out.old ++ encode_utf8_all (piece_text piece.entry)) }
{
    match piece {
        ClassPiece::Char(c) => push_char(out, c),
        ClassPiece::Escaped(c) => push_escape(out, c, &[]),
        ClassPiece::Code(c) => push_code(out, c),
        ClassPiece::Set { letter, text } => push_escape(out, letter, text),
        ClassPiece::HexDigits { negated } => push_hex_digits(out, negated),
        ClassPiece::Backspace => push_chars(out, &BACKSPACE),
        ClassPiece::Escape => push_chars(out, &ESCAPE),
    }
}

fn push_char(out: &mut String, c: char) -> Result<(), AllocError>
    ensures { OnOk result (string_bytes out.new
        ≡ string_bytes out.old ++ encode_utf8_all (c ∷ [])) }
{
    out.push(c)
}

fn push_hex_digits(out: &mut String, negated: bool) -> Result<(), AllocError>
    ensures { OnOk result (string_bytes out.new
        ≡ string_bytes out.old ++ encode_utf8_all (hex_digits_text negated)) }
{
    if negated {
        push_chars(out, &NO_HEX_DIGITS)
    } else {
        push_chars(out, &HEX_DIGITS)
    }
}

/// Adds the digits of a character's number.
fn push_digits(out: &mut String, code: u32) -> Result<(), AllocError>
    ensures { OnOk result (string_bytes out.new
        ≡ string_bytes out.old ++ encode_utf8_all (hex_digits code)) }
{
    let text: [char; 6] = [
        hex_digit(code / 0x10_0000),
        hex_digit(code / 0x1_0000),
        hex_digit(code / 0x1000),
        hex_digit(code / 0x100),
        hex_digit(code / 0x10),
        hex_digit(code),
    ];
    push_chars(out, &text[6 - hex_length(code)..])
}

/// Adds a character by its number.
fn push_code(out: &mut String, c: char) -> Result<(), AllocError>
    ensures { OnOk result (string_bytes out.new
        ≡ string_bytes out.old ++ encode_utf8_all (code_text c)) }
{
    push_chars(out, &BEFORE_CODE)?;
    push_digits(out, c as u32)?;
    push_char(out, '}')?;
    Ok(())
}

/// How many hexadecimal digits the number of a character has.
fn hex_length(code: u32) -> usize
    ensures value { result ≡ hex_length code }
    ensures few { result ≤ 6 }
{
    if code < 0x10 {
        1
    } else if code < 0x100 {
        2
    } else if code < 0x1000 {
        3
    } else if code < 0x1_0000 {
        4
    } else if code < 0x10_0000 {
        5
    } else {
        6
    }
}

/// The last hexadecimal digit of a number.
fn hex_digit(code: u32) -> char
    ensures { result ≡ hex_digit (code % 16) }
{
    let digit = (code % 16) as u8;
    if digit < 10 {
        (48 + digit) as char
    } else {
        (55 + digit) as char
    }
}
