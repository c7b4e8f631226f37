//! One step in a text: from a place the place after what is taken, if it is there.

ghost use Rattle.std.specs.Prelude.{◌≡◌, ◌<◌, ◌&&◌, nat_le, length, true, false, Some, IfOk, IfSome, IsTrue};
ghost use Rattle.fancy_meaning.specs.Moves as moves;
ghost use Rattle.fancy_meaning.specs.Places as place;
ghost use Rattle.fancy_meaning.specs.Machine.{class_test};
ghost use Rattle.fancy_characters.specs.Classes.{class_of};
ghost use Rattle.fancy_characters.specs.Literals.{literal_tests};

use fancy_characters::classes::{CaseiLiteral, CharClassMatcher};
use fancy_characters::places::is_place;
use std::alloc::{AllocError, Global};

/// A step back by so many characters is a long one.
pub const LONG_STEP: usize = 64;

/// The place this many characters before `ix`. A character has a byte at least, so there is none where the bytes are
/// fewer.
pub fn back_by(text: &[u8], chars: usize, ix: usize) -> Option<usize>
    ensures { result ≡ place.back_by text.now chars ix }
{
    if chars > ix {
        return None;
    }
    let mut left = chars;
    let mut pos = ix;
    'back: loop {
        if is_place(text, pos) {
            if left == 0 {
                return Some(pos);
            }
            left -= 1;
        }
        if pos == 0 {
            return None;
        }
        pos -= 1;
    }
}

/// How many characters stand between two bytes of the text.
pub fn chars_between(text: &[u8], from: usize, to: usize) -> usize
    ensures { result ≡ place.chars_between text.now from to }
{
    let mut count = 0;
    'places: for pos in from..to {
        if is_place(text, pos + 1) {
            count += 1;
        }
    }
    count
}

/// Past the characters of the literal.
pub fn skip_literal(literal: &CaseiLiteral, text: &str, ix: usize) -> Option<usize>
    ensures { result ≡ moves.past_chars text.now (literal_tests literal.now) ix }
{
    Some(ix + literal.match_len(text, ix)?)
}

/// Past one character of the class.
#[inline(always)]
pub fn skip_class(
    alloc: Global,
    class: &CharClassMatcher,
    text: &str,
    ix: usize,
) -> Result<Option<usize>, AllocError>
    ensures { IfOk result
        (λ to. to ≡ moves.past_char text.now (class_test (class_of class.now)) ix) }
{
    match skip_ascii(class, text, ix) {
        Some(to) => Ok(to),
        None => skip_other(alloc, class, text, ix),
    }
}

/// As `skip_class`, where no character beyond ASCII stands there; `None` where one does.
#[inline(always)]
pub fn skip_ascii(class: &CharClassMatcher, text: &str, ix: usize) -> Option<Option<usize>>
    ensures { IfSome result
        (λ to. to ≡ moves.past_char text.now (class_test (class_of class.now)) ix) }
{
    let Some(byte) = text.as_bytes().get(ix) else {
        return Some(None);
    };
    if *byte >= 128 {
        return None;
    }
    if class.takes_ascii(*byte) {
        Some(Some(ix + 1))
    } else {
        Some(None)
    }
}

/// As `skip_class`, for any character.
#[inline(never)]
fn skip_other(
    alloc: Global,
    class: &CharClassMatcher,
    text: &str,
    ix: usize,
) -> Result<Option<usize>, AllocError>
    ensures { IfOk result
        (λ to. to ≡ moves.past_char text.now (class_test (class_of class.now)) ix) }
{
    match class.match_len(alloc, text, ix).ok() {
        None => Err(AllocError),
        Some(None) => Ok(None),
        Some(Some(len)) => Ok(Some(ix + len)),
    }
}

/// The two are places of the text, in order.
pub fn is_span(text: &[u8], from: usize, to: usize) -> bool
    ensures { result ≡ (nat_le from to
        && (place.is_place text.now from && place.is_place text.now to)) }
{
    from <= to && is_place(text, from) && is_place(text, to)
}
