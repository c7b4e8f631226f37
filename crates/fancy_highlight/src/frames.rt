//! Regions that are open, and the order in which patterns are tried in them.

ghost use Rattle.std.specs.Prelude.{◌≡◌, slice_get};
ghost use Rattle.fancy_highlight.specs.Frames.{order_with};

use std::alloc::{AllocError, Global};

/// How a region ends.
#[derive(Clone, Copy, Debug, PartialEq, Eq)]
pub(crate) enum EndPlace {
    Never,
    /// By the pattern with this number, which is tried before the rules.
    First(usize),
    /// By the pattern with this number, which is tried after the rules.
    Last(usize),
    /// Where a line begins in which the pattern with this number has no match.
    While(usize),
}

/// A region that is open, or what is outside all regions.
#[derive(Clone, Copy, Debug, PartialEq, Eq)]
pub(crate) struct Frame {
    /// The number of its rule.
    pub(crate) rule: usize,
    pub(crate) end: EndPlace,
    /// Its begin ended where its line ended.
    pub(crate) is_at_line_end: bool,
    /// The scope of its begin and end.
    pub(crate) outer: usize,
    /// The scope of what is in it.
    pub(crate) inner: usize,
}

/// A pattern that is tried.
#[derive(Clone, Copy, Debug, PartialEq, Eq)]
pub(crate) struct Tried {
    /// The number of the rule that it is of.
    pub(crate) rule: usize,
    /// The number of the pattern.
    pub(crate) pattern: usize,
    /// It is the end of the region that is open.
    pub(crate) is_end: bool,
}

/// The pattern with this index.
fn rule_at(rules: &[Tried], index: usize) -> Option<Tried>
    ensures { result ≡ slice_get rules.now index }
{
    match rules.get(index) {
        Some(tried) => Some(*tried),
        None => None,
    }
}

/// The pattern that is tried at this place of the order: that of the end at `place`, and those of the rules around it.
pub(crate) fn tried_at(
    end: Option<Tried>,
    place: usize,
    rules: &[Tried],
    index: usize,
) -> Option<Tried>
    ensures { result ≡ slice_get (order_with end place rules.now) index }
{
    match end {
        Some(end) if index == place.min(rules.len()) => Some(end),
        Some(_) if index > place.min(rules.len()) => rule_at(rules, index - 1),
        _ => rule_at(rules, index),
    }
}

impl Frame {
    /// The pattern of its end, if it is tried beside the rules.
    pub(crate) fn end(&self) -> Option<Tried> {
        match self.end {
            EndPlace::First(pattern) | EndPlace::Last(pattern) => Some(Tried {
                rule: self.rule,
                pattern,
                is_end: true,
            }),
            EndPlace::Never | EndPlace::While(_) => None,
        }
    }
}

/// The regions that are open, the innermost last.
#[derive(Clone, Debug, PartialEq, Eq, Drop)]
pub(crate) struct Stack {
    /// What is outside all regions.
    pub(crate) root: Frame,
    pub(crate) frames: Vec<Frame>,
    /// The places in `frames` of those that end by a `while`.
    pub(crate) whiles: Vec<usize>,
}

impl Stack {
    /// Nothing is open in what these rules apply to.
    pub(crate) fn new(alloc: Global, rule: usize, scope: usize) -> Stack {
        Stack {
            root: Frame {
                rule,
                end: EndPlace::Never,
                is_at_line_end: false,
                outer: scope,
                inner: scope,
            },
            frames: Vec::new(alloc),
            whiles: Vec::new(alloc),
        }
    }

    /// The innermost region, or what is outside all.
    pub(crate) fn top(&self) -> Frame {
        match self.frames.last() {
            Some(frame) => *frame,
            None => self.root,
        }
    }

    /// Opens a region.
    pub(crate) fn push(&mut self, frame: Frame) -> Result<(), AllocError> {
        if let EndPlace::While(_) = frame.end {
            self.whiles.push(self.frames.len())?;
        }
        self.frames.push(frame)?;
        Ok(())
    }

    /// Closes all regions but the first `depth`.
    pub(crate) fn truncate(&mut self, depth: usize) {
        self.frames.truncate(depth);
        for _ in 0..self.whiles.len() {
            match self.whiles.last() {
                Some(last) if *last >= depth => {
                    let _ = self.whiles.pop();
                }
                _ => return,
            }
        }
    }
}
