//! The lines around those that are selected.

ghost use Rattle.std.specs.Prelude.{◌≡◌, ◌||◌, ℕ, IfOk, List, map, nat_le, suc};
ghost use Rattle.fancy_grep.specs.Context.{AreRising, IsAt, is_ahead, is_among, is_past, numbers_of, past, shown, shown_of};
ghost use Rattle.fancy_grep.specs.Lines.{lines_of};

use crate::lines::{Line, Lines};
use std::alloc::{AllocError, Global};

/// How many lines are shown before and after each that is selected.
#[derive(Clone, Copy)]
pub struct Context {
    pub before: usize,
    pub after: usize,
}

/// A line that is shown: a selected one, or one near it.
#[derive(Clone, Copy)]
pub struct Shown<'t> {
    pub line: Line<'t>,
    pub is_selected: bool,
}

/// Where a walk over lines in order stands among those that are selected.
#[derive(Drop)]
struct Walk<'s, 't> {
    /// The number of the last selected line that was passed.
    last: Option<usize>,
    /// The selected lines that are not passed.
    left: &'s [Line<'t>],
}

impl<'s, 't> Walk<'s, 't> {
    /// Goes to the line with this number, and returns whether it is selected.
    fn come_to(&mut self, number: usize) -> bool
        ensures { (all : List ℕ)
            → IsAt all number self.old
            → IsAt all (suc number) self.new × (result ≡ is_among all number) }
    {
        let left = past(self.left, number);
        let is_selected = left.len() < self.left.len();
        if is_selected {
            self.last = Some(number);
        }
        self.left = left;
        is_selected
    }

    /// Whether the line to which the walk has come is shown; the first `owed` lines are.
    fn is_shown(&self, number: usize, context: Context, owed: usize) -> bool
        ensures { result
            ≡ (nat_le number owed || (is_past context number self.now.last
            || is_ahead context number (numbers_of self.now.left.now))) }
    {
        let is_past = match self.last {
            Some(last) => number.saturating_sub(last) <= context.after,
            None => false,
        };
        let is_ahead = match self.left.first() {
            Some(next) => next.number.saturating_sub(number) <= context.before,
            None => false,
        };
        number <= owed || is_past || is_ahead
    }
}

/// The lines but the first, where that has this number.
fn past<'s, 't>(lines: &'s [Line<'t>], number: usize) -> &'s [Line<'t>]
    ensures { numbers_of result.now ≡ past number (numbers_of lines.now) }
{
    if let Some((first, rest)) = lines.split_first() {
        if first.number == number {
            return rest;
        }
    }
    lines
}

/// The selected lines of a text with the lines around them, and its first `owed` lines, in order; each line once at most.
/// The only error is out of memory.
pub fn with_context<'t>(
    alloc: Global,
    text: &'t str,
    selected: &[Line<'t>],
    context: Context,
    owed: usize,
) -> Result<Vec<Shown<'t>>, AllocError>
    requires { AreRising 1 (numbers_of selected.now) }
    ensures { IfOk result (λ lines. map shown_of lines.items
        ≡ shown context owed (numbers_of selected.now) (lines_of text.now)) }
{
    let mut lines = Vec::new(alloc);
    let mut walk = Walk {
        last: None,
        left: selected,
    };
    for line in Lines::new(text) {
        let is_selected = walk.come_to(line.number);
        if walk.is_shown(line.number, context, owed) {
            lines.push(Shown { line, is_selected })?;
        }
    }
    Ok(lines)
}
