//! What a command wrote, and with what status.

use crate::line::Line;
use std::alloc::Global;

/// What a command wrote on standard output and on standard error.
#[derive(Drop)]
pub struct Printed {
    pub out: Vec<u8>,
    pub err: Vec<u8>,
}

/// The one line that the bytes are.
fn line_of(bytes: &[u8]) -> Option<&str> {
    str::from_utf8(bytes).ok()?.strip_suffix('\n')
}

/// A line that begins with a capital letter is a refusal.
fn wanted_status(line: &str) -> u8 {
    match line.as_bytes().first() {
        Some(byte) if byte.is_ascii_uppercase() => 1,
        _ => 0,
    }
}

impl Printed {
    pub fn new(alloc: Global) -> Printed {
        Printed {
            out: Vec::new(alloc),
            err: Vec::new(alloc),
        }
    }

    /// The line on standard output, if its status goes with it.
    pub fn push_answer(&self, line: &mut Line, status: u8) {
        match line_of(&self.out) {
            Some(out) if self.err.is_empty() && status == wanted_status(out) => {
                line.text(out);
            }
            _ => line.differ("command"),
        }
    }

    /// The status, and the line on standard error.
    pub fn push_misuse(&self, line: &mut Line, status: u8) {
        match line_of(&self.err) {
            Some(err) if self.out.is_empty() => {
                line.value(status).space().text(err);
            }
            _ => line.differ("command"),
        }
    }
}
