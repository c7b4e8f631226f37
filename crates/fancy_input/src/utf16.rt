//! Text in UTF-16.

ghost use Rattle.std.specs.Prelude.{◌≡◌, ◌≤◌, IfOk, encode_utf8_all, length, string_bytes};

use std::alloc::{AllocError, Global};

/// Which byte of a unit comes first.
#[derive(Clone, Copy)]
pub enum ByteOrder {
    LowFirst,
    HighFirst,
}

/// The unit of two bytes.
fn unit(order: ByteOrder, first: u8, second: u8) -> u16 {
    match order {
        ByteOrder::LowFirst => u16::from_le_bytes([first, second]),
        ByteOrder::HighFirst => u16::from_be_bytes([first, second]),
    }
}

/// Whether a character takes this unit and one more.
fn is_first_of_two(unit: u16) -> bool {
    0xD800 <= unit && unit < 0xDC00
}

/// How many of the bytes are whole characters: neither half a unit nor the first unit of two is left at their end.
pub fn whole_length(order: ByteOrder, bytes: &[u8]) -> usize
    ensures { result ≤ length bytes.now }
{
    let even = bytes.len() / 2 * 2;
    match &bytes[..even] {
        [.., first, second] if is_first_of_two(unit(order, *first, *second)) => even - 2,
        _ => even,
    }
}

/// The units of some bytes. A last byte alone reads as one that no character has.
fn units(alloc: Global, order: ByteOrder, bytes: &[u8]) -> Result<Vec<u16>, AllocError> {
    let mut units = Vec::new(alloc);
    let mut rest = bytes;
    'units: for _ in 0..bytes.len() {
        match rest {
            [first, second, after @ ..] => {
                units.push(unit(order, *first, *second))?;
                rest = after;
            }
            [_] => {
                units.push(0xD800)?;
                break;
            }
            [] => break,
        }
    }
    Ok(units)
}

/// The text of bytes in UTF-16: U+FFFD stands for a unit that is no character, and for a last byte alone.
pub fn decode(alloc: Global, order: ByteOrder, bytes: &[u8]) -> Result<String, AllocError> {
    let units = units(alloc, order, bytes)?;
    String::from_utf16_lossy(alloc, &units)
}
