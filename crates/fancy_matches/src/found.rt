//! A match, and the groups of one.

ghost use Rattle.std.specs.Prelude.{◌≡◌, ◌≤◌, ◌-◌, ◌==◌, IfOk, IfSome, length, nat_eq, option_map, slice_index_or};
ghost use Rattle.std.specs.Cmp.Rules.{comparing};
ghost use Rattle.std.specs.Ordering.{eq_of_both, on};
ghost use Rattle.std.specs.Str.{bytes_eq};
ghost use Rattle.std.proofs.Common.{rules};
ghost use Rattle.fancy_meaning.specs.Numbers.{usize_max};
ghost use Rattle.fancy_meaning.specs.Premises.{IsSpan};
ghost use Rattle.fancy_steps.specs.Outcomes.{first_pair};
ghost use Rattle.fancy_matches.specs.Listing.{AreSpans, group_span};

use std::alloc::{AllocError, Global};
use std::fmt;
use std::ops::Range;

/// A match: a part of a text, with its place. Positions are in bytes of the text, from 0.
#[derive(Clone, Copy)]
pub struct Match<'t> {
    pub(crate) text: &'t str,
    pub(crate) start: usize,
    pub(crate) end: usize,
    ghost in_text: { IsSpan text.now (start, end) },
}

impl<'t> Match<'t> {
    ghost use Rattle.fancy_matches.specs.Matchers.{part_of, span_of};

    /// The byte where the match begins.
    pub fn start(&self) -> usize
        ensures { result ≡ (span_of self.now).0 }
    {
        self.start
    }

    /// The byte where the match ends: the first one after it.
    pub fn end(&self) -> usize
        ensures { result ≡ (span_of self.now).1 }
    {
        self.end
    }

    /// How many bytes the match has.
    pub fn len(&self) -> usize
        ensures { result ≡ (span_of self.now).1 - (span_of self.now).0 }
    {
        self.end - self.start
    }

    /// Whether the match is empty.
    pub fn is_empty(&self) -> bool
        ensures { result ≡ ((span_of self.now).0 == (span_of self.now).1) }
    {
        self.start == self.end
    }

    /// The bytes of the match, from `start` to `end`.
    pub fn range(&self) -> Range<usize>
        ensures start { result.start ≡ (span_of self.now).0 }
        ensures end { result.end ≡ (span_of self.now).1 }
    {
        self.start..self.end
    }

    /// The part of the text that matched.
    pub fn as_str(&self) -> &'t str
        ensures { result.now ≡ part_of self.now }
    {
        &self.text[self.start..self.end]
    }
}

/// Two matches are equal if they begin at the same byte and have the same text.
impl<'t> PartialEq for Match<'t> {
    ghost use Rattle.fancy_matches.specs.Matchers.{part_of, span_of};

    ghost eq = { eq_of_both (on (λ m. (span_of m).0) nat_eq) (on part_of bytes_eq) };

    ghost laws = { Prim.search (comparing, rules) };

    fn eq(&self, other: &Match<'t>) -> bool {
        self.start() == other.start() && self.as_str() == other.as_str()
    }
}

impl<'t> Eq for Match<'t> {
    ghost laws = { Prim.search (comparing, rules) };
}

impl<'t> From<Match<'t>> for &'t str {
    ghost use Rattle.fancy_matches.specs.Matchers.{part_of};

    ghost from_gives = { λ m part. part.now ≡ part_of m };

    fn from(found: Match<'t>) -> &'t str {
        found.as_str()
    }
}

impl<'t> From<Match<'t>> for Range<usize> {
    ghost use Rattle.fancy_matches.specs.Matchers.{span_of};

    ghost from_gives = { λ m range. (range.start ≡ (span_of m).0) × (range.end ≡ (span_of m).1) };

    fn from(found: Match<'t>) -> Range<usize> {
        found.range()
    }
}

impl fmt::Debug for Match<'_> {
    fn fmt<W: fmt::Write>(&self, f: &mut fmt::Formatter<W>) -> fmt::Result {
        f.debug_struct("Match")
            .field("start", &self.start())
            .field("end", &self.end())
            .field("string", &self.as_str())
            .finish()
    }
}

/// A match with its groups, by their numbers. Group 0 is the match itself.
pub struct Captures<'t> {
    pub(crate) text: &'t str,
    pub(crate) numbers: Vec<usize>,
    ghost has_whole: { 2 ≤ length numbers.items },
    ghost whole: { IsSpan text.now (first_pair numbers.items) },
    ghost groups: { AreSpans text.now numbers.items },
}

// Not derived: whoever owns one calls this drop, and would prove a derived one again (docs/GATE.md).
impl Drop for Captures<'_> {
    fn drop(self) {
        let Captures {
            text: _,
            numbers: _,
        } = self;
    }
}

impl<'t> Captures<'t> {
    ghost use Rattle.fancy_matches.specs.Matchers.{captures_text, numbers_in, shown_captures, span_of, text_of};

    /// The number at this index; `usize::MAX` if there is none.
    fn number(&self, index: usize) -> usize
        ensures { result ≡ slice_index_or (numbers_in self.now) index usize_max }
    {
        match self.numbers.get(index) {
            None => usize::MAX,
            Some(number) => *number,
        }
    }

    /// The match itself, which is group 0.
    pub fn whole(&self) -> Match<'t>
        ensures span { span_of result ≡ first_pair (numbers_in self.now) }
        ensures within { text_of result ≡ captures_text self.now }
    {
        Match {
            text: self.text,
            start: self.numbers[0],
            end: self.numbers[1],
        }
    }

    /// What the group with this number captured. `None` if the group is not set, or if there is no such group. Group 0 is
    /// the match.
    pub fn get(&self, group: usize) -> Option<Match<'t>>
        ensures found { option_map span_of result ≡ group_span (numbers_in self.now) group }
        ensures within { IfSome result (λ m. text_of m ≡ captures_text self.now) }
    {
        let first = group.checked_mul(2)?;
        let start = self.number(first);
        let end = self.number(first + 1);
        if start == usize::MAX {
            return None;
        }
        Some(Match {
            text: self.text,
            start,
            end,
        })
    }

    /// Makes a copy of the groups.
    ///
    /// # Errors
    ///
    /// `AllocError` if an allocation fails.
    pub fn try_clone(&self, alloc: Global) -> Result<Captures<'t>, AllocError>
        ensures { IfOk result (λ c. shown_captures c ≡ shown_captures self.now) }
    {
        Ok(Captures {
            text: self.text,
            numbers: Vec::from_slice(alloc, &self.numbers)?,
        })
    }
}
