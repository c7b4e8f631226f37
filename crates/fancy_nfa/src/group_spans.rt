//! The groups that a way sets.

ghost use Rattle.std.specs.Prelude.{◌≡◌, ◌∷◌, ◌<◌, [], length, ℕ, List, IfOk, IsTrue, OnOk};
ghost use Rattle.fancy_meaning.specs.MatchState.{Span};
ghost use Rattle.fancy_nfa.specs.GroupSpans.{span_from};
ghost use Rattle.fancy_nfa.specs.Ways.{Ascends, listed};

use std::alloc::{AllocError, Global};

/// The spans of groups, and where those began that are open.
#[derive(Drop)]
pub struct GroupSpans {
    /// The innermost last.
    pub(crate) opened: Vec<usize>,
    /// The number of the first group.
    pub(crate) first: usize,
    /// From the first group on the last span of each, in bytes.
    pub(crate) spans: Vec<Option<(usize, usize)>>,
}

impl GroupSpans {
    ghost use Rattle.fancy_nfa.specs.GroupSpans.{AreGroupsOf, spans_in, span_from};

    /// Of no group. It takes no memory.
    pub fn new(alloc: Global) -> GroupSpans
        ensures { AreGroupsOf result [] [] }
    {
        GroupSpans {
            opened: Vec::new(alloc),
            first: 0,
            spans: Vec::new(alloc),
        }
    }

    /// The number of the first group.
    pub fn first(&self) -> usize
        ensures { result ≡ self.now.first }
    {
        self.first
    }

    /// From the first group on the last span of each.
    pub fn spans(&self) -> &[Option<(usize, usize)>]
        ensures { (g : ℕ) → span_from self.now.first result.now g ≡ spans_in self.now g }
    {
        &self.spans
    }

    /// Holds these spans of groups, for each the number, the start and the end, and no others.
    pub fn hold(&mut self, spans: &[(usize, usize, usize)]) -> Result<(), AllocError>
        requires { Ascends spans.now }
        ensures { OnOk result ((g : ℕ) → spans_in self.new g ≡ listed spans.now g) }
    {
        self.first = 0;
        self.spans.clear();
        'groups: for (group, from, to) in spans {
            grow(&mut self.spans, *group)?;
            self.spans[*group] = Some((*from, *to));
        }
        Ok(())
    }

    /// No group is open or has a span, and this is the first that may have one.
    pub(crate) fn begin(&mut self, first: usize)
        ensures groups { AreGroupsOf self.new [] [] }
        ensures first { self.new.first ≡ first }
    {
        self.opened.clear();
        self.first = first;
        self.spans.clear();
    }

    /// A group begins at this place.
    pub(crate) fn open(&mut self, place: usize) -> Result<(), AllocError>
        ensures { OnOk result ((opened : List ℕ) (spans : List (ℕ × Span))
            → AreGroupsOf self.old opened spans → AreGroupsOf self.new (place ∷ opened) spans) }
    {
        self.opened.push(place)?;
        Ok(())
    }

    /// The innermost group, with this number, ends at this place. Tells whether it may have a span.
    pub(crate) fn close(&mut self, group: usize, place: usize) -> Result<bool, AllocError>
        ensures { IfOk result (λ closes. IsTrue closes → (opened : List ℕ) (spans : List (ℕ × Span))
            → AreGroupsOf self.old opened spans → (from : ℕ) × ((rest : List ℕ)
            × ((opened ≡ from ∷ rest)
            × AreGroupsOf self.new rest ((group, (from, place)) ∷ spans)))) }
    {
        let Some(from) = self.opened.pop() else {
            return Ok(false);
        };
        if group < self.first {
            return Ok(false);
        }
        let index = group - self.first;
        grow(&mut self.spans, index)?;
        self.spans[index] = Some((from, place));
        Ok(true)
    }
}

/// Makes room up to this index.
fn grow(spans: &mut Vec<Option<(usize, usize)>>, index: usize) -> Result<(), AllocError>
    ensures room { OnOk result (index < length spans.new.items) }
    ensures same { (first g : ℕ) → span_from first spans.new.items g
        ≡ span_from first spans.old.items g }
{
    'groups: while spans.len() <= index {
        spans.push(None)?;
    }
    Ok(())
}
