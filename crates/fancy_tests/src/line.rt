//! A line that is written piece by piece.

use std::alloc::{AllocError, Global};
use std::fmt::{Debug, Display};

/// A line. Once memory was refused nothing more is written, and `end` and `into_string` tell of it.
#[derive(Drop)]
pub struct Line {
    text: String,
    written: Result<(), AllocError>,
}

impl Line {
    /// An empty line.
    pub fn new(alloc: Global) -> Line {
        Line {
            text: String::new(alloc),
            written: Ok(()),
        }
    }

    /// What was written.
    pub fn as_str(&self) -> &str {
        self.text.as_str()
    }

    /// How many bytes were written.
    pub fn len(&self) -> usize {
        self.text.len()
    }

    /// Nothing was written.
    pub fn is_empty(&self) -> bool {
        self.text.is_empty()
    }

    /// Takes back what was written.
    pub fn clear(&mut self) -> &mut Line {
        self.text.clear();
        self
    }

    /// Adds a text.
    pub fn text(&mut self, text: &str) -> &mut Line {
        if self.written.is_ok() {
            self.written = self.text.push_str(text);
        }
        self
    }

    /// Adds a space.
    pub fn space(&mut self) -> &mut Line {
        self.text(" ")
    }

    /// Adds a value as `{}` writes it.
    pub fn value<T: Display + Drop>(&mut self, value: T) -> &mut Line {
        if self.written.is_ok() {
            self.written = write!(self.text, "{value}");
        }
        self
    }

    /// Adds a value as `{:?}` writes it.
    pub fn debug<T: Debug>(&mut self, value: &T) -> &mut Line {
        if self.written.is_ok() {
            self.written = write!(self.text, "{value:?}");
        }
        self
    }

    /// Says where calls do not agree, in the place of what was written before.
    pub fn differ(&mut self, call: &str) {
        self.clear().text("DIFFER: ").text(call);
    }

    /// Whether all was written.
    pub fn end(&self) -> Result<(), AllocError> {
        self.written
    }

    /// What was written, if all was.
    pub fn into_string(self) -> Result<String, AllocError> {
        self.written?;
        Ok(self.text)
    }
}
