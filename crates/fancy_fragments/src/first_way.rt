//! The first way of a fragment from a place.

ghost use Rattle.std.specs.Prelude.{◌≡◌, ◌≤◌, Bool, false, IfOk, IfErr, IsTrue};
ghost use Rattle.fancy_meaning.specs.Places.{is_place};
ghost use Rattle.fancy_nfa_laws.specs.NfaSearch.{Pair};
ghost use Rattle.fancy_backtrack.specs.Memos.{HaveFailed};
ghost use Rattle.fancy_nfa.specs.Searches.{IsMemory};
ghost use Rattle.fancy_nfa.specs.Ways.{CountsVisits, HasAscending};
ghost use Rattle.fancy_fragments.specs.Fragments.{IsFirstWayOf, IsMemoFor};

use crate::fragment::Fragment;
use fancy_backtrack::memo::Memo;
use fancy_expr::error::Error;
use fancy_nfa::first_way::FirstWay;
use std::alloc::Global;

/// The first way of the fragment from `ix`, a character boundary of the text. `Memory` where a request for memory was
/// refused, and after 2^64 - 1 steps, more than any machine takes.
pub fn first_way(
    alloc: Global,
    fragment: &Fragment,
    text: &str,
    ix: usize,
) -> Result<FirstWay, Error>
    requires place { IsTrue (is_place text.now ix) }
    ensures first { IfOk result (IsFirstWayOf text.now fragment.now ix) }
    ensures ascends { IfOk result HasAscending }
    ensures visits { IfOk result
        (CountsVisits text.now fragment.now.nfa (λ pair. false) ix) }
    ensures refused { IfErr result IsMemory }
{
    let mut memo = fragment.memo(alloc, ix);
    first_way_with(alloc, fragment, text, ix, &mut memo)
}

/// As `first_way`, with what earlier searches of this fragment in this text have memoized.
pub fn first_way_with(
    alloc: Global,
    fragment: &Fragment,
    text: &str,
    ix: usize,
    memo: &mut Memo,
) -> Result<FirstWay, Error>
    requires place { IsTrue (is_place text.now ix) }
    requires memo { IsMemoFor text.now fragment.now memo.old }
    ensures first { IfOk result (IsFirstWayOf text.now fragment.now ix) }
    ensures ascends { IfOk result HasAscending }
    ensures visits { IfOk result (λ answer. (failed : Pair → Bool) → HaveFailed memo.old failed
        → CountsVisits text.now fragment.now.nfa failed ix answer) }
    ensures memo { IsMemoFor text.now fragment.now memo.new }
    ensures within { IfOk result (λ answer. answer.visits ≤ memo.old.budget.visits) }
    ensures budget { memo.new.budget ≡ memo.old.budget }
    ensures refused { IfErr result IsMemory }
{
    fancy_nfa::first_way::first_way_with(alloc, &fragment.nfa, text, ix, memo)
}
