//! Back references: where a piece of the text that stands there once more ends, folded or not.

ghost use Rattle.std.specs.Prelude.{◌≡◌, true, slice_range};
ghost use Rattle.std.specs.List.{list_all};
ghost use Rattle.std.specs.Char.{is_ascii, eq_ignore_ascii_case};
ghost use lib.Pointwise.{pointwise};
ghost use Rattle.fancy_meaning.specs.Moves as moves;

use crate::folding::spell_fold_equal;
use crate::places::{is_place, past_bytes};

/// Past the piece from `from` to `to` once more; folded, past another piece of as many bytes.
pub fn past_piece(
    text: &str,
    unicode: bool,
    casei: bool,
    from: usize,
    to: usize,
    ix: usize,
) -> Option<usize>
    ensures { result ≡ moves.past_piece text.now unicode casei (from, to) ix }
{
    let text = text.as_bytes();
    if casei {
        skip_folded(text, unicode, from, to, ix)
    } else {
        past_bytes(text, piece(text, from, to), ix)
    }
}

fn skip_folded(text: &[u8], unicode: bool, from: usize, to: usize, ix: usize) -> Option<usize>
    ensures { result ≡ moves.past_piece text.now unicode true (from, to) ix }
{
    let len = to.saturating_sub(from);
    if ix > text.len() || len > text.len() - ix {
        return None;
    }
    let end = ix + len;
    if is_place(text, end) && pieces_fold(unicode, piece(text, from, to), &text[ix..end]) {
        Some(end)
    } else {
        None
    }
}

/// The bytes from `from` to `to`, as far as the text has them.
fn piece(text: &[u8], from: usize, to: usize) -> &[u8]
    ensures { result.now ≡ slice_range text.now from to }
{
    if from >= to || from >= text.len() {
        &[]
    } else if to <= text.len() {
        &text[from..to]
    } else {
        &text[from..]
    }
}

/// Whether a folded back reference takes the two for the same.
fn pieces_fold(unicode: bool, a: &[u8], b: &[u8]) -> bool
    ensures { result ≡ moves.pieces_fold unicode a.now b.now }
{
    if a == b {
        true
    } else if unicode {
        spell_fold_equal(a, b)
    } else {
        all_ascii(a) & all_ascii(b) & ascii_fold_equal(a, b)
    }
}

fn all_ascii(bytes: &[u8]) -> bool
    ensures { result ≡ list_all is_ascii bytes.now }
{
    for i in 0..bytes.len() {
        if !bytes[i].is_ascii() {
            return false;
        }
    }
    true
}

fn ascii_fold_equal(a: &[u8], b: &[u8]) -> bool
    ensures { result ≡ pointwise eq_ignore_ascii_case a.now b.now }
{
    if a.len() != b.len() {
        return false;
    }
    for i in 0..a.len() {
        if !a[i].eq_ignore_ascii_case(&b[i]) {
            return false;
        }
    }
    true
}
