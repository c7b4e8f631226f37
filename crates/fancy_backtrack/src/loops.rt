//! Loops whose iterations are counted, and which ways on there are at the head of one.

ghost use Rattle.std.specs.Prelude.{◌≡◌, ◌==◌, ◌<◌, ◌+◌, false, min, if◌then◌else◌};
ghost use Rattle.fancy_nfa_laws.specs.NfaSearch as plain;
ghost use Rattle.fancy_backtrack.specs.Loops.{loop_of, ChoosesBy};
ghost use Rattle.fancy_backtrack.specs.Paths.{counter_of};

use crate::trail::LoopCounter;

/// A loop that counts its iterations, or asks whether one has moved.
#[derive(Clone, Copy)]
pub struct Loop {
    pub lo: usize,
    /// `usize::MAX` is no bound.
    pub hi: usize,
    pub greedy: bool,
    /// An iteration begun at or past `lo` that moves nothing leaves the loop.
    pub asks_moved: bool,
}

/// Which ways on there are at the head of a loop, the first one first.
#[derive(Clone, Copy)]
pub enum LoopChoice {
    Out,
    In,
    InOrOut,
    OutOrIn,
}

impl Loop {
    /// Which ways on there are.
    pub(crate) fn loop_choice(self, counter: LoopCounter, place: usize) -> LoopChoice
        ensures { ChoosesBy result (loop_of self) place (counter_of counter) }
    {
        if self.is_over(counter, place) {
            LoopChoice::Out
        } else if counter.count < self.lo {
            LoopChoice::In
        } else if self.greedy {
            LoopChoice::InOrOut
        } else {
            LoopChoice::OutOrIn
        }
    }

    /// No iteration may be begun.
    fn is_over(self, counter: LoopCounter, place: usize) -> bool
        ensures { result ≡ plain.is_over (loop_of self) place (counter_of counter) }
    {
        counter.since == Some(place) || (self.hi != usize::MAX && counter.count >= self.hi)
    }

    /// The iteration that begins here. Past `lo` a loop without a bound counts no more.
    pub(crate) fn next_counter(self, counter: LoopCounter, place: usize) -> LoopCounter
        requires { plain.is_over (loop_of self) place (counter_of counter) ≡ false }
        ensures { counter_of result ≡ plain.next_counter (loop_of self) place (counter_of counter) }
    {
        let is_free = counter.count >= self.lo;
        LoopCounter {
            count: if is_free && self.hi == usize::MAX {
                self.lo
            } else {
                counter.count + 1
            },
            since: if self.asks_moved && is_free {
                Some(place)
            } else {
                None
            },
        }
    }

    /// How many different counts there are before its iterations.
    pub fn counts(self) -> usize
        ensures { result ≡ min usize.MAX
            ((if self.hi == usize.MAX then self.lo else self.hi) + 1) }
    {
        let most = if self.hi == usize::MAX {
            self.lo
        } else {
            self.hi
        };
        most.saturating_add(1)
    }
}
