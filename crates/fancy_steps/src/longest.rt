//! The longest match that a run has come to, where it is asked for.

ghost use Rattle.std.specs.Prelude.{◌≡◌, ◌<◌, ◌≤◌, ◌∷◌, [], List, ℕ, None, Some, true, false, length, take, slice_index_or, slice_set, is_some, option_map, if◌then◌else◌, IfOk, OnOk};
ghost use Rattle.fancy_meaning.specs.Config as config;
ghost use Rattle.fancy_steps.specs.Outcomes.{first_pair, held_match};

use fancy_state::state::State;
use std::alloc::{AllocError, Global};

/// The numbers of the match that is held, if one is. Their memory stays.
#[derive(Drop)]
pub struct Longest {
    is_held: bool,
    numbers: Vec<usize>,
}

/// How many bytes the span has, none where it has no end.
fn span_length(span: (usize, usize)) -> usize
    ensures { result ≡ config.span_length (span.0 ∷ span.1 ∷ []) }
{
    let (from, to) = span;
    if to == usize::MAX {
        0
    } else {
        to.saturating_sub(from)
    }
}

impl Longest {
    /// No match is held.
    pub fn new(alloc: Global) -> Longest
        ensures { held_match result ≡ None }
    {
        Longest {
            is_held: false,
            numbers: Vec::new(alloc),
        }
    }

    /// Holds no match any more.
    pub fn forget(&mut self)
        ensures { held_match self.new ≡ None }
    {
        self.is_held = false;
    }

    pub(crate) fn is_held(&self) -> bool
        ensures { result ≡ is_some (held_match self.now) }
    {
        self.is_held
    }

    /// The first pair of the numbers.
    pub(crate) fn first_pair(&self) -> Option<(usize, usize)>
        ensures { result ≡ option_map first_pair (held_match self.now) }
    {
        if !self.is_held {
            return None;
        }
        Some((self.number(0), self.number(1)))
    }

    /// One of the numbers.
    fn number(&self, i: usize) -> usize
        ensures { result ≡ slice_index_or self.now.numbers.items i usize.MAX }
    {
        match self.numbers.get(i) {
            None => usize::MAX,
            Some(number) => *number,
        }
    }

    /// Writes all numbers over these, if a match is held.
    pub(crate) fn copy_numbers(&self, numbers: &mut Vec<usize>) -> Result<bool, AllocError>
        ensures { IfOk result (λ found.
            held_match self.now ≡ (if found then Some numbers.new.items else None)) }
    {
        if !self.is_held {
            return Ok(false);
        }
        numbers.clear();
        numbers.extend_from_slice(&self.numbers)?;
        Ok(true)
    }

    /// A match with this first pair is longer, or the first one.
    pub(crate) fn is_passed_by(&self, pair: (usize, usize)) -> bool
        ensures passed { (numbers : List ℕ) → first_pair numbers ≡ pair → result ≡ true
            → config.longer (held_match self.now) numbers ≡ numbers }
        ensures stays { (numbers : List ℕ) → first_pair numbers ≡ pair → result ≡ false
            → held_match self.now ≡ Some (config.longer (held_match self.now) numbers) }
    {
        match self.first_pair() {
            None => true,
            Some(held) => span_length(held) < span_length(pair),
        }
    }

    /// Holds the match of the first slots of the state, with this start.
    pub(crate) fn hold(
        &mut self,
        state: &State,
        count: usize,
        start: usize,
    ) -> Result<(), AllocError>
        requires some { 0 < count }
        requires slots { count ≤ length state.now.held.slots }
        ensures { OnOk result
            (held_match self.new ≡ Some (slice_set (take count state.now.held.slots) 0 start)) }
    {
        state.copy_slots(count, &mut self.numbers)?;
        self.numbers[0] = start;
        self.is_held = true;
        Ok(())
    }
}
