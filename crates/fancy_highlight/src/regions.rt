//! The regions that are open at a place of a line, and where `\G` matches.

use crate::frames::{Frame, Stack};
use std::alloc::{AllocError, Global};

/// Where a region was opened in this line.
#[derive(Clone, Copy)]
struct Opened {
    /// Where the search for its begin started.
    from: usize,
    /// Where `\G` matched before.
    anchor: Option<usize>,
}

/// The regions that are open at a place of a line.
#[derive(Drop)]
pub(crate) struct Regions {
    pub(crate) stack: Stack,
    /// Those of the regions that were opened in this line.
    opened: Vec<Opened>,
    /// Where `\G` matches.
    pub(crate) anchor: Option<usize>,
}

impl Regions {
    pub(crate) fn new(alloc: Global, stack: Stack) -> Regions {
        Regions {
            stack,
            opened: Vec::new(alloc),
            anchor: None,
        }
    }

    /// Opens a region by a match that was searched for from a byte on.
    pub(crate) fn open(&mut self, frame: Frame, from: usize, end: usize) -> Result<(), AllocError> {
        self.opened.push(Opened {
            from,
            anchor: self.anchor,
        })?;
        self.anchor = Some(end);
        self.stack.push(frame)
    }

    /// Closes the innermost region.
    pub(crate) fn close(&mut self) {
        self.anchor = match self.opened.pop() {
            Some(opened) => opened.anchor,
            None => None,
        };
        let depth = self.stack.frames.len().saturating_sub(1);
        self.stack.truncate(depth);
    }

    /// The innermost region was opened by a search from this byte on.
    pub(crate) fn is_opened_from(&self, from: usize) -> bool {
        match self.opened.last() {
            Some(opened) => opened.from == from,
            None => false,
        }
    }

    /// A region of this rule is open already, and it and all within it were opened by searches from this byte on.
    pub(crate) fn is_open_from(&self, rule: usize, from: usize) -> bool {
        for (opened, frame) in self.opened.iter().rev().zip(self.stack.frames.iter().rev()) {
            if opened.from != from {
                return false;
            }
            if frame.rule == rule {
                return true;
            }
        }
        false
    }
}
