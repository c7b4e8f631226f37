//! Places of a text: whether a byte is one, what stands there, and the place past bytes or a character.

ghost use Rattle.std.specs.Prelude.{◌≡◌, nat_eq};
ghost use Rattle.std.specs.List.{starts_with};
ghost use Rattle.regex_hir.specs.Text.{has_bytes_at};
ghost use Rattle.fancy_meaning.specs.Assertions as assertions;
ghost use Rattle.fancy_meaning.specs.Chars.{any_takes};
ghost use Rattle.fancy_meaning.specs.Moves as moves;
ghost use Rattle.fancy_meaning.specs.Places as places;

pub use crate::spelling::len_utf8;
use regex_nfa::char_at;

/// Whether a character begins at the place, or the text ends there.
pub fn is_place(text: &[u8], ix: usize) -> bool
    ensures { result ≡ places.is_place text.now ix }
{
    if ix < text.len() {
        !(0x80 <= text[ix] && text[ix] <= 0xBF)
    } else {
        ix == text.len()
    }
}

/// Whether the byte `c` ends at the place.
pub fn is_after(text: &[u8], ix: usize, c: u8) -> bool
    ensures { result ≡ assertions.is_after text.now ix c }
{
    if ix == 0 {
        false
    } else {
        is_before(text, ix - 1, c)
    }
}

/// Whether the byte `c` stands at the place.
pub(crate) fn is_before(text: &[u8], ix: usize, c: u8) -> bool
    ensures { result ≡ assertions.is_before text.now ix c }
{
    if ix < text.len() {
        text[ix] == c
    } else {
        false
    }
}

/// Whether the bytes stand at the place.
pub fn stand_at(text: &[u8], bytes: &[u8], ix: usize) -> bool
    ensures { result ≡ has_bytes_at text.now ix bytes.now }
{
    if ix <= text.len() {
        begins_with(&text[ix..], bytes)
    } else {
        bytes.is_empty()
    }
}

/// Whether the text begins with the bytes. They are compared one by one, since mostly the first ones differ.
fn begins_with(text: &[u8], bytes: &[u8]) -> bool
    ensures { result ≡ starts_with nat_eq text.now bytes.now }
{
    if text.len() < bytes.len() {
        return false;
    }
    'bytes: for i in 0..bytes.len() {
        if text[i] != bytes[i] {
            return false;
        }
    }
    true
}

/// Past these bytes.
pub fn past_bytes(text: &[u8], bytes: &[u8], ix: usize) -> Option<usize>
    ensures { result ≡ moves.past_bytes text.now bytes.now ix }
{
    if stand_at(text, bytes, ix) {
        Some(ix + bytes.len())
    } else {
        None
    }
}

/// Past one character; an LF only with `newline`, and with `crlf` a CR only so too.
pub fn skip_any(text: &[u8], newline: bool, crlf: bool, ix: usize) -> Option<usize>
    ensures { result ≡ moves.past_char text.now (any_takes newline crlf) ix }
{
    let c = char_at(text, ix)?;
    if newline || !(c == 10 || (crlf && c == 13)) {
        Some(ix + len_utf8(c))
    } else {
        None
    }
}
