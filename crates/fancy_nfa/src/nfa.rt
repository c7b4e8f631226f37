//! The NFA of neighbouring easy nodes.

ghost use Rattle.std.specs.Prelude.{◌≡◌, ℕ, List, Some, false, true, IfErr, IfOk, IsTrue, length, map, slice_get};
ghost use Rattle.fancy_info.specs.Infos.{info_tree};
ghost use Rattle.fancy_expr.specs.Each.{Each};
ghost use Rattle.fancy_meaning.specs.Options.{Analysis};
ghost use Rattle.fancy_meaning.specs.Places.{is_place};
ghost use Rattle.fancy_meaning.specs.Premises.{IsText};
ghost use Rattle.fancy_nfa.specs.FirstSets.{may_begin, AreFirstSets};
ghost use Rattle.fancy_nfa.specs.Neighbours.{AreNeighbours, IsEasy};
ghost use Rattle.fancy_nfa.specs.Views.{state_of};

use crate::first_sets::{OTHERS, first_sets, may_begin};
use crate::layout::{Layout, room_for};
use crate::nfa_state::NfaState;
use crate::search::Searcher;
use fancy_backtrack::memo::Memo;
use fancy_backtrack::pair_numbers::{Loops, PairNumbers};
use fancy_expr::error::Error;
use fancy_info::info::Info;
use std::alloc::Global;

/// Neighbouring easy nodes, laid out as states.
pub struct Nfa {
    pub(crate) states: Vec<NfaState>,
    pub(crate) unicode: bool,
    /// Which number a pair has that was found to have no way.
    pub(crate) pair_numbers: PairNumbers,
    /// How many loops that count are around the state that has most of them.
    loop_depth: usize,
    /// The characters that can stand at a way's first places, level by level.
    pub(crate) first_sets: Vec<[bool; 129]>,
    /// Whether ways seem to need no choice, and set no group.
    pub(crate) is_one_pass: bool,
    /// Where ways seem to need no choice and set groups, the first of these.
    pub(crate) one_pass_group: Option<usize>,
    ghost begin: { AreFirstSets unicode (map state_of states.items) first_sets.items },
}

// Not derived: whoever owns one calls this drop, and would prove a derived one again (docs/GATE.md).
impl Drop for Nfa {
    fn drop(self) {
        let Nfa {
            states: _,
            unicode: _,
            pair_numbers: _,
            loop_depth: _,
            first_sets: _,
            is_one_pass: _,
            one_pass_group: _,
        } = self;
    }
}

impl Nfa {
    ghost use Rattle.fancy_nfa.specs.Nfas.{AreFine, HaveClasses, IsNfaOf, IsRefusedFor};
    ghost use Rattle.fancy_nfa.specs.Ways.{HasNoWayAt, IsMemoOf};
    ghost use Rattle.fancy_backtrack.specs.Memos.{HaveFailed};

    /// The NFA of neighbouring nodes of one analysed tree, none of them hard.
    ///
    /// A class text that `regex` excludes is refused as `InnerError` or `ClassTooBig`, but not in a loop that is never
    /// entered or in a DEFINE, which are not written out. Out of memory is `Error::Memory`.
    pub fn build(alloc: Global, infos: &[Info], unicode: bool) -> Result<Nfa, Error>
        requires { AreNeighbours infos.now }
        ensures nfa { IfOk result (λ f. (a : Analysis)
            → Each (IsEasy a) infos.now → AreFine (map info_tree infos.now)
            → IsNfaOf a (map info_tree infos.now) unicode f) }
        ensures classes { IfOk result (λ f. HaveClasses unicode infos.now) }
        ensures refused { IfErr result (IsRefusedFor unicode infos.now) }
    {
        let states = Vec::with_capacity(alloc, room_for(infos).saturating_add(1))?;
        let mut layout = Layout {
            alloc,
            unicode,
            states,
        };
        layout.lay_each(infos)?;
        let mut states = layout.states;
        states.push(NfaState::Match)?;
        let loops = loops_of(&states);
        let pair_numbers = PairNumbers::of(states.len(), loops);
        let first_sets = first_sets(alloc, &states, unicode)?;
        let searcher = Searcher {
            states: &states,
            unicode,
            text: "",
        };
        let seems_one_pass = searcher.seems_one_pass();
        let group = first_group(&states);
        Ok(Nfa {
            states,
            unicode,
            pair_numbers,
            loop_depth: loops.depth,
            first_sets,
            is_one_pass: seems_one_pass && group.is_none(),
            one_pass_group: if seems_one_pass { group } else { None },
        })
    }

    /// What searches by this NFA in one text, from `pos` on, have memoized: nothing yet.
    pub fn memo(&self, alloc: Global, pos: usize) -> Memo
        ensures memo { (text : List ℕ) → IsMemoOf text self.now result }
        ensures knows { HaveFailed result (λ pair. false) }
        ensures budget { result.budget ≡ record { visits = u64.MAX; bytes = usize.MAX } }
    {
        Memo::new(alloc, self.pair_numbers, pos)
    }

    /// Empties a memo of any NFA and any text for this one, and keeps its room. It takes time that follows what was
    /// memoized.
    pub fn clear(&self, memo: &mut Memo, pos: usize)
        ensures memo { (text : List ℕ) → IsMemoOf text self.now memo.new }
        ensures knows { HaveFailed memo.new (λ pair. false) }
        ensures budget { memo.new.budget ≡ memo.old.budget }
    {
        memo.clear(self.pair_numbers, pos);
    }

    /// Whether a way can begin at `ix`, a character boundary of the text, by the character that stands there. There may
    /// be none though it can, but where it cannot there is none.
    pub fn can_begin(&self, text: &str, ix: usize) -> bool
        requires place { IsTrue (is_place text.now ix) }
        ensures told { result ≡ may_begin self.now.first_sets.items text.now ix }
        ensures none { result ≡ false → HasNoWayAt text.now self.now ix }
    {
        may_begin(&self.first_sets, text.as_bytes(), ix)
    }

    /// How many loops that count are around the state that has most of them. A visit takes longer by each of them, since
    /// their counts are part of a pair.
    pub fn loop_depth(&self) -> usize
        ensures { result ≡ self.now.loop_depth }
    {
        self.loop_depth
    }

    /// How many states it has.
    pub fn state_count(&self) -> usize
        ensures { result ≡ length self.now.states.items }
    {
        self.states.len()
    }

    /// Ways seem to need no choice, and set no group.
    pub fn is_one_pass(&self) -> bool
        ensures { result ≡ self.now.is_one_pass }
    {
        self.is_one_pass
    }

    /// Whether no way can begin where this byte stands.
    pub fn excludes(&self, byte: u8) -> bool
        ensures { IsTrue result → (text : List ℕ) (ix : ℕ) → IsText text → IsTrue (is_place text ix)
            → slice_get text ix ≡ Some byte → HasNoWayAt text self.now ix }
    {
        match self.first_sets.first() {
            None => false,
            Some(set) => !set[(byte as usize).min(OTHERS)],
        }
    }
}

/// The least number of a group that ends at one of these states.
fn first_group(states: &[NfaState]) -> Option<usize> {
    let mut first = None;
    for nfa_state in states {
        if let NfaState::Close(group) = nfa_state {
            first = Some(first.unwrap_or(*group).min(*group));
        }
    }
    first
}

/// What the loops among these states ask for.
fn loops_of(states: &[NfaState]) -> Loops {
    let mut loops = Loops {
        counts: 0,
        stays: 1,
        depth: 0,
        step: 0,
    };
    let mut depth: usize = 0;
    let mut is_on_first_way = false;
    for nfa_state in states {
        match nfa_state {
            NfaState::CounterBegin => {
                depth = depth.saturating_add(1);
                loops.depth = loops.depth.max(depth);
            }
            NfaState::CounterLoop { bounds, .. } => {
                loops.counts = loops.counts.max(bounds.counts());
                if bounds.asks_moved {
                    loops.stays = 2;
                }
                loops.step = 0;
                is_on_first_way = true;
            }
            NfaState::Character(_) if is_on_first_way => {
                loops.step = loops.step.saturating_add(1);
            }
            NfaState::Jump(to) => {
                is_on_first_way = false;
                if let Some(NfaState::CounterLoop { .. }) = states.get(*to) {
                    depth = depth.saturating_sub(1);
                }
            }
            _ => {}
        }
    }
    loops
}
