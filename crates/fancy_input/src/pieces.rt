//! What the lines of a block read as.

ghost use Rattle.std.specs.Prelude.{◌≡◌, ◌≤◌, ◌++◌, ◌⊎◌, [], IfOk, chars, length, string_bytes};
ghost use Rattle.std.specs.Io.{StopsAt};
ghost use Rattle.std.specs.Str.Lossy.{utf8_lossy};
ghost use Rattle.fancy_input.specs.Blocks.{EndsLine};
ghost use Rattle.fancy_input.specs.Pieces.{AreLines, bytes_of, length_of};

use bstr::ByteSlice;
use memchr::{memchr, memrchr};
use std::alloc::{AllocError, Global};
use std::str;

/// Lines of a block that are read alike, with their line ends.
#[derive(Clone, Copy)]
pub enum Piece<'b> {
    /// Lines of UTF-8.
    Text(&'b str),
    /// One line that is not all UTF-8.
    Broken(&'b [u8]),
}

/// Takes lines off a block: those before the first that is not UTF-8, or this one.
pub fn split_piece(block: &[u8]) -> (Piece<'_>, &[u8])
    ensures whole { block.now ≡ bytes_of result.0 ++ result.1.now }
    ensures lines { AreLines result.0 result.1.now }
{
    match str::from_utf8(block) {
        Ok(text) => (Piece::Text(text), &[]),
        Err(error) => split_before(block, error.valid_up_to().min(block.len())),
    }
}

/// Takes the lines before this byte off a block, which are UTF-8, or its first line.
fn split_before(block: &[u8], valid: usize) -> (Piece<'_>, &[u8])
    requires { valid ≤ length block.now }
    ensures whole { block.now ≡ bytes_of result.0 ++ result.1.now }
    ensures lines { AreLines result.0 result.1.now }
{
    if let Some(at) = memrchr(b'\n', &block[..valid]) {
        let (lines, rest) = block.split_at(at + 1);
        if let Ok(text) = str::from_utf8(lines) {
            return (Piece::Text(text), rest);
        }
    }
    let (line, rest) = split_line(block);
    (Piece::Broken(line), rest)
}

/// The first line of a block, with its line end, and what follows it.
fn split_line(block: &[u8]) -> (&[u8], &[u8])
    ensures whole { block.now ≡ result.0.now ++ result.1.now }
    ensures one { StopsAt result.0.now 10 }
    ensures ends { EndsLine result.0.now ⊎ (result.1.now ≡ []) }
{
    match memchr(b'\n', block) {
        Some(at) => block.split_at(at + 1),
        None => (block, &[]),
    }
}

/// What bytes read as: U+FFFD stands for each maximal sequence of them that is no character.
pub fn read_as(alloc: Global, bytes: &[u8]) -> Result<String, AllocError>
    ensures { IfOk result (λ text. string_bytes text ≡ utf8_lossy bytes.now) }
{
    String::from_utf8_lossy(alloc, bytes)
}

/// How many of the first bytes read as this text, if the bytes read as a text that begins with it.
pub fn bytes_read_as(bytes: &[u8], text: &str) -> usize
    ensures { result ≡ length_of bytes.now (length (chars text.now)) }
{
    let count = text.chars().count();
    let mut left = bytes.char_indices();
    let mut length = 0;
    'characters: for _place in 0..count {
        match left.next() {
            Some((_, end, _)) => length = end,
            None => {}
        }
    }
    length
}
