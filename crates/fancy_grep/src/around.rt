//! What is carried from the lines of a source that were searched to those that follow.

use crate::context::Context;
use crate::lines::Line;
use memchr::{memchr, memrchr};
use std::alloc::{AllocError, Global};

/// The last lines of a source, and which of the next ones are shown.
#[derive(Drop)]
pub struct Around {
    /// How many of the next lines are shown, since they follow a selected one.
    pub owed: usize,
    /// The number of the last line that was shown.
    pub last: Option<usize>,
    /// The last lines, with their line ends.
    tail: Vec<u8>,
    /// How many lines that is.
    count: usize,
}

impl Around {
    pub fn new(alloc: Global) -> Around {
        Around {
            owed: 0,
            last: None,
            tail: Vec::new(alloc),
            count: 0,
        }
    }

    /// The last of these lines that are shown before the next line that is selected, with the number of the first; `passed`
    /// lines were searched, and `first` is how far the selected line is after them.
    pub fn before(&self, context: Context, passed: usize, first: usize) -> (usize, &[u8]) {
        let near = context.before.saturating_sub(first.saturating_sub(1));
        let unseen = match self.last {
            Some(last) => passed.saturating_sub(last),
            None => passed,
        };
        let count = near.min(unseen).min(self.count);
        let skipped = skip_lines(&self.tail, self.count.saturating_sub(count));
        (passed.saturating_sub(count).saturating_add(1), skipped)
    }

    /// Goes past `count` lines, those in `bytes`, of which these are selected.
    pub fn pass(
        &mut self,
        context: Context,
        selected: &[Line<'_>],
        bytes: &[u8],
        count: usize,
    ) -> Result<(), AllocError> {
        let owed = match selected.last() {
            Some(line) => line.number.saturating_add(context.after),
            None => self.owed,
        };
        self.owed = owed.saturating_sub(count);
        self.keep(context.before, bytes, count)
    }

    /// Goes past a line that is not known.
    pub fn skip(&mut self) {
        self.owed = self.owed.saturating_sub(1);
        self.count = 0;
        self.tail.clear();
    }

    /// Keeps at least the last `before` lines, and at most as many again and those that come.
    fn keep(&mut self, before: usize, bytes: &[u8], count: usize) -> Result<(), AllocError> {
        if count >= before {
            self.tail.clear();
            self.count = before;
            return self.tail.extend_from_slice(last_lines(bytes, before));
        }
        if self.count >= before.saturating_mul(2) {
            let kept = Vec::from_slice(*self.tail.allocator(), last_lines(&self.tail, before))?;
            self.tail = kept;
            self.count = before;
        }
        self.count = self.count.saturating_add(count);
        self.tail.extend_from_slice(bytes)
    }
}

/// The bytes after the first `count` lines.
pub fn skip_lines(bytes: &[u8], count: usize) -> &[u8] {
    let mut rest = bytes;
    'lines: for _ in 0..count {
        match memchr(b'\n', rest) {
            Some(at) => rest = rest.get(at.saturating_add(1)..).unwrap_or(&[]),
            None => return &[],
        }
    }
    rest
}

/// The last `count` lines, each with its line end.
fn last_lines(bytes: &[u8], count: usize) -> &[u8] {
    let mut start = bytes.len();
    'lines: for _ in 0..count {
        if start == 0 {
            break;
        }
        let before = bytes.get(..start.saturating_sub(1)).unwrap_or(&[]);
        start = match memrchr(b'\n', before) {
            Some(at) => at.saturating_add(1),
            None => 0,
        };
    }
    bytes.get(start..).unwrap_or(&[])
}
