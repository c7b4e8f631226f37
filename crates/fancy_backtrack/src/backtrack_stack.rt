//! The backtrack stack of a search: the choices on its path, of which the last one is taken back first.

use crate::trail::NfaConfig;
use std::alloc::{AllocError, Global};

/// A choice on the path: its configuration, how long the path is, and whether its other way on is still untried.
#[derive(Clone, Copy)]
pub struct StackFrame {
    pub config: NfaConfig,
    pub path: usize,
    pub is_untried: bool,
}

/// A choice, and such a one at each of so many bytes before.
#[derive(Clone, Copy)]
struct Run {
    choice: StackFrame,
    before: usize,
}

/// How many bytes a run holds.
const RUN_BYTES: usize = 56;

/// The choices on a path: the first `len` of the runs. Those behind are left from before.
#[derive(Drop)]
pub(crate) struct BacktrackStack {
    runs: Vec<Run>,
    len: usize,
}

impl StackFrame {
    ghost use Rattle.std.specs.Prelude.{◌≡◌};
    ghost use Rattle.fancy_backtrack.specs.BacktrackStack.{one_before};

    /// This choice one byte before.
    fn one_before(self) -> StackFrame
        ensures { result ≡ one_before self }
    {
        StackFrame {
            config: NfaConfig {
                place: self.config.place.saturating_sub(1),
                ..self.config
            },
            ..self
        }
    }
}

impl BacktrackStack {
    ghost use Rattle.std.specs.Prelude.{◌≡◌, ◌≤◌, ◌++◌, [], length, OnOk};
    ghost use Rattle.std.specs.Prelude.{◌*◌, min};
    ghost use Rattle.fancy_backtrack.specs.BacktrackStack.{Pops, choices_in, choices_of, run_choices};
    ghost use Rattle.fancy_backtrack.specs.Bytes.{stack_bytes, saturated};

    pub(crate) fn new(alloc: Global) -> BacktrackStack
        ensures { choices_of result ≡ [] }
    {
        BacktrackStack {
            runs: Vec::new(alloc),
            len: 0,
        }
    }

    pub(crate) fn clear(&mut self)
        ensures { choices_of self.new ≡ [] }
    {
        self.len = 0;
    }

    /// None, and no runs are left from before. Their room stays.
    pub(crate) fn forget(&mut self)
        ensures { choices_of self.new ≡ [] }
    {
        self.runs.clear();
        self.clear();
    }

    /// As many runs are held as there ever were since `forget`.
    #[inline(always)]
    pub(crate) fn is_at_peak(&self) -> bool {
        self.len >= self.runs.len()
    }

    /// How many bytes the runs hold.
    pub(crate) fn bytes(&self) -> usize
        ensures { result ≡ saturated (stack_bytes self.now) }
    {
        self.runs.len().saturating_mul(RUN_BYTES)
    }

    /// One more, and such a one at each of so many bytes before it.
    #[inline(always)]
    pub(crate) fn push(&mut self, choice: StackFrame, before: usize) -> Result<(), AllocError>
        ensures { OnOk result
            (choices_of self.new ≡ run_choices before choice ++ choices_of self.old) }
    {
        if self.len >= self.runs.len() {
            return self.push_and_grow(Run { choice, before });
        }
        self.runs[self.len] = Run { choice, before };
        self.len += 1;
        Ok(())
    }

    /// As `push`, where no room is left from before.
    #[cold]
    #[inline(never)]
    fn push_and_grow(&mut self, run: Run) -> Result<(), AllocError>
        requires { length self.old.runs.items ≤ self.old.len }
        ensures { OnOk result (choices_of self.new ≡ choices_in run ++ choices_of self.old) }
    {
        self.runs.push(run)?;
        self.len = self.runs.len();
        Ok(())
    }

    /// Takes the last one back.
    #[inline(always)]
    pub(crate) fn pop(&mut self) -> Option<StackFrame>
        ensures { Pops (choices_of self.old) result (choices_of self.new) }
    {
        let last = self.len.min(self.runs.len()).checked_sub(1)?;
        let Run { choice, before } = self.runs[last];
        if before == 0 {
            self.len = last;
        } else {
            self.runs[last] = Run {
                choice: choice.one_before(),
                before: before - 1,
            };
        }
        Some(choice)
    }
}
