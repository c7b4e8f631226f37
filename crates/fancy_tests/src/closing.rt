//! A writer that fails.

use std::io;
use std::io::{ErrorKind, Write};

/// Takes so many bytes, and then fails.
#[derive(Drop)]
pub struct Closing {
    room: usize,
    failures: usize,
}

impl Closing {
    pub fn new(room: usize) -> Closing {
        Closing { room, failures: 0 }
    }

    /// How many writes failed.
    pub fn failures(&self) -> usize {
        self.failures
    }
}

impl Write for Closing {
    fn write(&mut self, buf: &[u8]) -> io::Result<usize> {
        if self.room == 0 {
            self.failures = self.failures.saturating_add(1);
            return Err(io::Error::from(ErrorKind::BrokenPipe));
        }
        let taken = self.room.min(buf.len());
        self.room -= taken;
        Ok(taken)
    }

    fn flush(&mut self) -> io::Result<()> {
        Ok(())
    }
}
