//! Configurations of a search, and the path that it took to the one where it stands.

ghost use Rattle.std.specs.Prelude.{◌≡◌, ◌++◌, ◌∷◌, [], ◌≤◌, ◌<◌, ◌+◌, List, ℕ, take, length, option_map, Some, None, IfOk, IfSome};
ghost use Rattle.fancy_nfa_laws.specs.NfaSearch as plain;
ghost use Rattle.fancy_backtrack.specs.Paths.{HasCounters, HasOpened, EndsCounters, EndsOpened};
ghost use Rattle.fancy_backtrack.specs.Bytes.{trail_bytes, saturated};

use std::alloc::{AllocError, Global};

/// One entry of the path. A link to an entry is its index and one more; 0 is no link.
#[derive(Clone, Copy)]
pub enum Entry {
    /// An iteration of a loop that counts.
    LoopCounter {
        outer: usize,
        counter: LoopCounter,
    },
    /// A group began here.
    Opened {
        outer: usize,
        from: usize,
    },
    /// A group ended.
    Closed {
        group: usize,
        from: usize,
        to: usize,
    },
}

/// How many iterations were begun before this one, and where it began if it is asked whether it moves.
#[derive(Clone, Copy)]
pub struct LoopCounter {
    pub count: usize,
    pub since: Option<usize>,
}

/// A configuration of a search: the state, the place in bytes, and the links to the innermost loop that counts and the
/// innermost group.
#[derive(Clone, Copy)]
pub struct NfaConfig {
    pub at: usize,
    pub place: usize,
    pub counters: usize,
    pub opened: usize,
}

impl NfaConfig {
    pub fn goes_to(self, at: usize) -> NfaConfig
        ensures { result ≡ record self { at = at } }
    {
        NfaConfig { at, ..self }
    }

    /// Behind a loop, inside the loop around it.
    pub(crate) fn goes_out(self, at: usize, counters: usize) -> NfaConfig
        ensures { result ≡ record self { at = at; counters = counters } }
    {
        NfaConfig {
            at,
            counters,
            ..self
        }
    }

    pub fn forward(self) -> NfaConfig
        requires { self.at < usize.MAX }
        ensures { result ≡ record self { at = self.at + 1 } }
    {
        NfaConfig {
            at: self.at + 1,
            ..self
        }
    }
}

/// How many bytes an entry holds.
const ENTRY_BYTES: usize = 40;

/// The path.
#[derive(Drop)]
pub struct Trail {
    entries: Vec<Entry>,
}

impl Trail {
    pub(crate) fn new(alloc: Global) -> Trail
        ensures { result.entries.items ≡ [] }
    {
        Trail {
            entries: Vec::new(alloc),
        }
    }

    pub(crate) fn len(&self) -> usize
        ensures { result ≡ length self.now.entries.items }
    {
        self.entries.len()
    }

    /// How many bytes the entries hold.
    pub(crate) fn bytes(&self) -> usize
        ensures { result ≡ saturated (trail_bytes self.now) }
    {
        self.entries.len().saturating_mul(ENTRY_BYTES)
    }

    #[inline(always)]
    pub(crate) fn truncate(&mut self, len: usize)
        ensures { self.new.entries.items ≡ take len self.old.entries.items }
    {
        self.entries.truncate(len);
    }

    /// One more entry, and the link to it.
    pub(crate) fn push(&mut self, entry: Entry) -> Result<usize, AllocError>
        ensures link { IfOk result (λ link. link ≡ length self.old.entries.items + 1) }
        ensures entries { IfOk result (λ _. self.new.entries.items
            ≡ self.old.entries.items ++ (entry ∷ [])) }
    {
        self.entries.push(entry)?;
        Ok(self.entries.len())
    }

    /// The iteration that is linked to, and the link to the one around.
    #[inline(always)]
    pub(crate) fn counter(&self, link: usize) -> Option<(LoopCounter, usize)>
        ensures counters { (counters : List plain.LoopCounter)
            → HasCounters self.now.entries.items link counters
            → EndsCounters self.now.entries.items link counters result }
        ensures below { IfSome result (λ found. found.1 < link) }
    {
        match self.entries.get(link.checked_sub(1)?)? {
            Entry::LoopCounter { outer, counter } if *outer < link => Some((*counter, *outer)),
            _ => None,
        }
    }

    /// Where the group that is linked to began, and the link to the one around.
    #[inline(always)]
    pub(crate) fn opened(&self, link: usize) -> Option<(usize, usize)>
        ensures { (opened : List ℕ) → HasOpened self.now.entries.items link opened
            → EndsOpened self.now.entries.items link opened result }
    {
        match self.entries.get(link.checked_sub(1)?)? {
            Entry::Opened { outer, from } => Some((*from, *outer)),
            _ => None,
        }
    }

    pub(crate) fn entries(&self) -> &[Entry]
        ensures { result.now ≡ self.now.entries.items }
    {
        &self.entries
    }
}
