//! The first way of the nodes of an NFA from a place.

ghost use Rattle.std.specs.Prelude.{◌≡◌, ◌≤◌, [], ℕ, Bool, false, IfOk, IfErr, IsTrue};
ghost use Rattle.fancy_meaning.specs.Places.{is_place};
ghost use Rattle.fancy_nfa_laws.specs.FirstWays.{spans_of};
ghost use Rattle.fancy_nfa_laws.specs.NfaSearch.{Pair};
ghost use Rattle.fancy_backtrack.specs.Paths.{closed_after};
ghost use Rattle.fancy_backtrack.specs.Memos.{HaveFailed};
ghost use Rattle.fancy_nfa.specs.Searches.{IsMemory};
ghost use Rattle.fancy_nfa.specs.Ways.{listed, Ascends, CountsVisits, HasAscending, IsFirstWay, IsMemoOf, IsOfNodes};

use crate::nfa::Nfa;
use crate::search::Searcher;
use fancy_backtrack::memo::Memo;
use fancy_backtrack::trail::{Entry, NfaConfig};
use fancy_expr::error::Error;
use std::alloc::{AllocError, Global};
use std::collections::BTreeMap;

/// A way of an NFA's nodes.
#[derive(Debug, Drop)]
pub struct Way {
    /// The place where it ends, in bytes.
    pub end: usize,
    /// For each group that it sets the number, the start and the end in bytes, by ascending number.
    pub spans: Vec<(usize, usize, usize)>,
}

/// What a search for the first way answers.
#[derive(Debug, Drop)]
pub struct FirstWay {
    pub way: Option<Way>,
    /// How many states the search took up.
    pub visits: u64,
}

/// The first way of the NFA's nodes from `ix`, a character boundary of the text. `Memory` where a request for memory
/// was refused, and after 2^64 - 1 steps, more than any machine takes.
pub fn first_way(alloc: Global, nfa: &Nfa, text: &str, ix: usize) -> Result<FirstWay, Error>
    requires place { IsTrue (is_place text.now ix) }
    requires nodes { ∥ IsOfNodes nfa.now ∥₁ }
    ensures first { IfOk result (IsFirstWay text.now nfa.now ix) }
    ensures ascends { IfOk result HasAscending }
    ensures visits { IfOk result (CountsVisits text.now nfa.now (λ pair. false) ix) }
    ensures refused { IfErr result IsMemory }
{
    let mut memo = nfa.memo(alloc, ix);
    first_way_with(alloc, nfa, text, ix, &mut memo)
}

/// As `first_way`, with what earlier searches by this NFA in this text have memoized. `Memory` also where the search goes
/// past the memo's budget.
pub fn first_way_with(
    alloc: Global,
    nfa: &Nfa,
    text: &str,
    ix: usize,
    memo: &mut Memo,
) -> Result<FirstWay, Error>
    requires place { IsTrue (is_place text.now ix) }
    requires nodes { ∥ IsOfNodes nfa.now ∥₁ }
    requires memo { IsMemoOf text.now nfa.now memo.old }
    ensures first { IfOk result (IsFirstWay text.now nfa.now ix) }
    ensures ascends { IfOk result HasAscending }
    ensures visits { IfOk result (λ answer. (failed : Pair → Bool) → HaveFailed memo.old failed
        → CountsVisits text.now nfa.now failed ix answer) }
    ensures memo { IsMemoOf text.now nfa.now memo.new }
    ensures within { IfOk result (λ answer. answer.visits ≤ memo.old.budget.visits) }
    ensures budget { memo.new.budget ≡ memo.old.budget }
    ensures refused { IfErr result IsMemory }
{
    let searcher = Searcher {
        states: &nfa.states,
        unicode: nfa.unicode,
        text,
    };
    let start = NfaConfig {
        at: 0,
        place: ix,
        counters: 0,
        opened: 0,
    };
    memo.start();
    let found = searcher.find(memo, start)?;
    let visits = memo.visits();
    let way = match found {
        Some(config) => Some(Way {
            end: config.place,
            spans: spans(alloc, memo.path())?,
        }),
        None => None,
    };
    Ok(FirstWay { way, visits })
}

/// The last span of each group that was closed, by ascending number.
fn spans(alloc: Global, entries: &[Entry]) -> Result<Vec<(usize, usize, usize)>, AllocError>
    ensures listed { IfOk result (λ spans. (g : ℕ) → listed spans.items g
        ≡ spans_of (closed_after [] entries.now) g) }
    ensures ascends { IfOk result (λ spans. Ascends spans.items) }
{
    let mut spans = Vec::new(alloc);
    let mut behind = 0;
    for entry in entries {
        if let Entry::Closed { group, from, to } = entry {
            if *group < behind || *group == usize::MAX {
                return spans_by_map(alloc, entries);
            }
            spans.push((*group, *from, *to))?;
            behind = *group + 1;
        }
    }
    Ok(spans)
}

/// As `spans`, whatever the order in which the groups were closed.
#[inline(never)]
fn spans_by_map(alloc: Global, entries: &[Entry]) -> Result<Vec<(usize, usize, usize)>, AllocError>
    ensures listed { IfOk result (λ spans. (g : ℕ) → listed spans.items g
        ≡ spans_of (closed_after [] entries.now) g) }
    ensures ascends { IfOk result (λ spans. Ascends spans.items) }
{
    let mut last = BTreeMap::new(alloc);
    for entry in entries {
        if let Entry::Closed { group, from, to } = entry {
            last.insert(*group, (*from, *to))?;
        }
    }
    let mut spans = Vec::with_capacity(alloc, last.len())?;
    for (group, span) in &last {
        spans.push((*group, span.0, span.1))?;
    }
    Ok(spans)
}
