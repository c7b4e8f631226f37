//! The bytes of a source in blocks that end at line ends.

ghost use Rattle.std.specs.Prelude.{◌≡◌, ◌≤◌, ◌<◌, ◌++◌, ◌≢◌, ◌⊎◌, ℕ, [], All, IfOk, IsFalse, IsTrue, List, OnErr, OnOk, drop, length, vec_len};
ghost use Rattle.std.specs.Io.{StopsAt};
ghost use Rattle.std.specs.Io.KnownBytes.{Consumes, IsAtEnd, Keeps};

use memchr::{memchr, memrchr};
use std::alloc::{AllocError, Global};
use std::io;
use std::io::{ErrorKind, Read};

/// Why a source has no next block.
#[derive(Drop)]
pub enum BlockError {
    /// It cannot be read.
    Io(io::Error),
    /// The next line does not fit the memory.
    LineTooLong,
}

impl From<AllocError> for BlockError {
    fn from(_error: AllocError) -> BlockError {
        BlockError::LineTooLong
    }
}

/// A source of bytes in blocks that end at line ends; the last one may end at the end of the source.
///
/// A block is as much as one read gives, but for the line that it ends in, which goes to the next block. It grows only if
/// a line is longer.
#[derive(Drop)]
pub struct Blocks<R> {
    alloc: Global,
    reader: R,
    /// The block, and the bytes that were read after it.
    read: Vec<u8>,
    /// How many of them are the block.
    block: usize,
    /// Room for one read.
    room: Vec<u8>,
    /// The last read gave less than there was room for.
    is_short: bool,
    ghost within: { block ≤ vec_len read },
    ghost has_room: { 0 < vec_len room },
}

impl<R: Read> Blocks<R> {
    ghost use Rattle.fancy_input.specs.Blocks.{EndsLine, block_of, following};

    /// The blocks of a reader, of which each read asks for `size` bytes, and for 1 if that is 0.
    pub fn new(alloc: Global, reader: R, size: usize) -> Result<Blocks<R>, AllocError>
    where
        R: Drop,
        ensures block { IfOk result (λ b. block_of b ≡ []) }
        ensures following { IfOk result (λ b. Keeps (R.remaining reader) (following R.remaining b)) }
    {
        let mut room = Vec::new(alloc);
        room.resize(size.max(1), 0)?;
        Ok(Blocks {
            alloc,
            reader,
            read: Vec::new(alloc),
            block: 0,
            room,
            is_short: false,
        })
    }

    /// The block.
    pub fn block(&self) -> &[u8]
        ensures { result.now ≡ block_of self.now }
    {
        &self.read[..self.block]
    }

    /// Whether the last read gave less than there was room for, so that the next one may wait.
    pub fn is_short(&self) -> bool
        ensures { result ≡ self.now.is_short }
    {
        self.is_short
    }

    /// Goes on to the next block, and returns whether there is one. An error loses no byte; there is no block then.
    ///
    /// If the next line does not fit the memory, `skip_line` drops it.
    pub fn advance(&mut self) -> Result<bool, BlockError>
        ensures bytes { Consumes (following R.remaining self.old) (following R.remaining self.new)
            (block_of self.new) }
        ensures some { IfOk result (λ some. IsTrue some → (0 < length (block_of self.new))
            × (EndsLine (block_of self.new) ⊎ IsAtEnd (following R.remaining self.new))) }
        ensures none { IfOk result (λ some. IsFalse some
            → (block_of self.new ≡ []) × IsAtEnd (following R.remaining self.new)) }
        ensures lost { OnErr result (block_of self.new ≡ []) }
    {
        self.drop_block();
        let mut searched = 0;
        'reads: for _ in 0..u64::MAX {
            if self.cut(searched) {
                return Ok(true);
            }
            searched = self.read.len();
            if !self.read_more()? {
                self.block = self.read.len();
                return Ok(self.block > 0);
            }
        }
        Err(too_many_reads())
    }

    /// Drops the next line, a part at a time. There is no block then.
    pub fn skip_line(&mut self) -> Result<(), BlockError>
        ensures block { block_of self.new ≡ [] }
    {
        self.drop_block();
        'reads: for _ in 0..u64::MAX {
            if self.skip_read() {
                return Ok(());
            }
            if !self.read_more()? {
                return Ok(());
            }
        }
        Err(too_many_reads())
    }

    /// Drops what is read up to the first line end, or all of it, and returns whether there was a line end.
    fn skip_read(&mut self) -> bool
        requires { self.old.block ≡ 0 }
        ensures block { self.new.block ≡ 0 }
    {
        match memchr(b'\n', &self.read) {
            Some(at) => {
                self.block = at + 1;
                self.drop_block();
                true
            }
            None => {
                self.read = Vec::new(self.alloc);
                false
            }
        }
    }

    /// Drops the block.
    fn drop_block(&mut self)
        ensures following { following R.remaining self.new ≡ following R.remaining self.old }
        ensures block { self.new.block ≡ 0 }
    {
        remove_front(&mut self.read, self.block);
        self.block = 0;
    }

    /// Makes what is read up to its last line end the block, and returns whether there is one. There is none before the byte
    /// `searched`.
    fn cut(&mut self, searched: usize) -> bool
        requires within { searched ≤ vec_len self.old.read }
        requires block { self.old.block ≡ 0 }
        ensures bytes { Consumes (following R.remaining self.old) (following R.remaining self.new)
            (block_of self.new) }
        ensures ends { IsTrue result → EndsLine (block_of self.new) }
        ensures none { IsFalse result → self.new.block ≡ 0 }
    {
        match memrchr(b'\n', &self.read[searched..]) {
            Some(at) => {
                self.block = searched + at + 1;
                true
            }
            None => false,
        }
    }

    /// Reads once, and returns whether there may be more. A read that a signal interrupts reads nothing.
    fn read_more(&mut self) -> Result<bool, BlockError>
        requires { self.old.block ≡ 0 }
        ensures block { self.new.block ≡ 0 }
        ensures bytes { Keeps (following R.remaining self.old) (following R.remaining self.new) }
        ensures grows { vec_len self.old.read ≤ vec_len self.new.read }
        ensures end { IfOk result (λ more. IsFalse more → IsAtEnd (R.remaining self.new.reader)) }
    {
        if self.read.reserve(self.room.len()).is_err() {
            return Err(BlockError::LineTooLong);
        }
        match self.reader.read(&mut self.room) {
            Ok(count) => {
                self.is_short = count < self.room.len();
                self.read.extend_from_slice(&self.room[..count])?;
                Ok(count > 0)
            }
            Err(error) if error.kind() == ErrorKind::Interrupted => Ok(true),
            Err(error) => Err(BlockError::Io(error)),
        }
    }
}

/// Removes the first bytes.
pub(crate) fn remove_front(bytes: &mut Vec<u8>, count: usize)
    requires { count ≤ vec_len bytes.old }
    ensures { bytes.new.items ≡ drop count bytes.old.items }
{
    let length = bytes.len();
    bytes.copy_within(count..length, 0);
    bytes.truncate(length - count);
}

/// A source that goes on after 2^64 reads.
fn too_many_reads() -> BlockError {
    BlockError::Io(io::Error::from(ErrorKind::TimedOut))
}
