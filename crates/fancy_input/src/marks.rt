//! The text of a source: a mark at its beginning is left out, and UTF-16 with a mark is made UTF-8.

ghost use Rattle.std.specs.Prelude.{◌≤◌, IfOk, IfSome, length};

use crate::blocks::remove_front;
use crate::utf16::{ByteOrder, decode, whole_length};
use std::alloc::{AllocError, Global};
use std::io;
use std::io::Read;

/// How a source is written.
#[derive(Clone, Copy)]
enum Form {
    /// Its first bytes are not read yet.
    Unread,
    /// In UTF-8, or in bytes of another kind, which are left as they are.
    Bytes,
    Utf16(ByteOrder),
}

/// A source as UTF-8, as far as its first bytes say how it is written.
#[derive(Drop)]
pub struct TextReader<R> {
    alloc: Global,
    reader: R,
    form: Form,
    /// Bytes of UTF-16 that are read and not decoded.
    raw: Vec<u8>,
    /// Bytes that are to be given next, from `given` on.
    held: Vec<u8>,
    given: usize,
}

/// What the first bytes say.
#[derive(Clone, Copy)]
enum Mark {
    /// More bytes have to be seen.
    Open,
    None,
    Utf8,
    Utf16(ByteOrder),
}

/// The mark with which some bytes begin.
fn mark_of(bytes: &[u8]) -> Mark {
    match bytes {
        [0xEF, 0xBB, 0xBF, ..] => Mark::Utf8,
        [0xFF, 0xFE, ..] => Mark::Utf16(ByteOrder::LowFirst),
        [0xFE, 0xFF, ..] => Mark::Utf16(ByteOrder::HighFirst),
        [] | [0xEF] | [0xEF, 0xBB] | [0xFF] | [0xFE] => Mark::Open,
        _ => Mark::None,
    }
}

impl<R: Read> TextReader<R> {
    pub fn new(alloc: Global, reader: R) -> TextReader<R> {
        TextReader {
            alloc,
            reader,
            form: Form::Unread,
            raw: Vec::new(alloc),
            held: Vec::new(alloc),
            given: 0,
        }
    }

    /// Reads the first bytes, and returns how many are in the buffer; `None` if what is next is held.
    fn begin(&mut self, buf: &mut [u8]) -> io::Result<Option<usize>>
        ensures { IfOk result (λ held. IfSome held (λ count. count ≤ length buf.new)) }
    {
        let count = self.reader.read(buf)?;
        let bytes = &buf[..count];
        if count == 0 || matches!(mark_of(bytes), Mark::None) {
            self.form = Form::Bytes;
            return Ok(Some(count));
        }
        self.held.extend_from_slice(bytes)?;
        self.read_mark()?;
        Ok(None)
    }

    /// Reads on until the mark is known.
    fn read_mark(&mut self) -> io::Result<()> {
        let mut room = [0u8; 1];
        'bytes: for _ in 0..2u8 {
            if !matches!(mark_of(&self.held), Mark::Open) || self.reader.read(&mut room)? == 0 {
                break;
            }
            self.held.push(room[0])?;
        }
        self.pass_mark()?;
        Ok(())
    }

    /// Notes how the source is written, and leaves the mark out.
    fn pass_mark(&mut self) -> Result<(), AllocError> {
        self.form = Form::Bytes;
        match mark_of(&self.held) {
            Mark::Utf8 => self.given = 3,
            Mark::Utf16(order) => {
                self.form = Form::Utf16(order);
                self.raw
                    .extend_from_slice(self.held.get(2..).unwrap_or(&[]))?;
                self.held.clear();
            }
            Mark::Open | Mark::None => {}
        }
        Ok(())
    }

    /// The bytes that are held.
    fn left(&self) -> &[u8] {
        self.held.get(self.given..).unwrap_or(&[])
    }

    /// Gives bytes that are held.
    fn give(&mut self, buf: &mut [u8]) -> usize
        ensures { result ≤ length buf.new }
    {
        let count = copy_front(self.left(), buf);
        self.given = self.given.saturating_add(count);
        count
    }

    /// Reads and decodes, and returns whether there may be more.
    fn decode_more(&mut self, order: ByteOrder) -> io::Result<bool> {
        let mut room = [0u8; 8192];
        let count = self.reader.read(&mut room)?;
        self.raw.extend_from_slice(&room[..count])?;
        let length = if count == 0 {
            self.raw.len()
        } else {
            whole_length(order, &self.raw)
        };
        let text = decode(self.alloc, order, &self.raw[..length])?;
        remove_front(&mut self.raw, length);
        self.held = text.into_bytes();
        self.given = 0;
        Ok(count > 0)
    }
}

/// Copies as many bytes as there is room for, and returns how many.
fn copy_front(bytes: &[u8], room: &mut [u8]) -> usize
    ensures { result ≤ length room.new }
{
    let count = bytes.len().min(room.len());
    room[..count].copy_from_slice(&bytes[..count]);
    count
}

impl<R: Read> Read for TextReader<R> {
    fn read(&mut self, buf: &mut [u8]) -> io::Result<usize> {
        if let Form::Unread = self.form {
            if let Some(count) = self.begin(buf)? {
                return Ok(count);
            }
        }
        if let Form::Utf16(order) = self.form {
            'reads: for _ in 0..u64::MAX {
                if !self.left().is_empty() || !self.decode_more(order)? {
                    break;
                }
            }
        }
        if !self.left().is_empty() || matches!(self.form, Form::Utf16(_)) {
            return Ok(self.give(buf));
        }
        self.reader.read(buf)
    }
}
