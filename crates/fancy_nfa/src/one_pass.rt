//! One-pass matches, which need no choice: each test passes where it stands, and each loop takes what it can.

ghost use Rattle.std.specs.Prelude.{◌≡◌, ◌≤◌, ◌+◌, ◌-◌, min, ◌&&◌, [], if◌then◌else◌, ℕ, IfOk, IfSome, IsTrue, None, Some, slice_get, true};
ghost use Rattle.fancy_meaning.specs.Places.{is_place};
ghost use Rattle.fancy_nfa.specs.declared.search.Searcher as searcher_view;
ghost use Rattle.fancy_nfa.specs.declared.group_spans.GroupSpans as group_spans;
ghost use Rattle.fancy_nfa.specs.declared.nfa_state.NfaState.TheVariants as nfa_state;
ghost use Rattle.fancy_nfa.specs.Runs.{FailsFrom};
ghost use Rattle.fancy_nfa.specs.Searches.{IsSearcher};
ghost use Rattle.fancy_nfa_laws.specs.NfaSearch.{NfaConfig};
ghost use Rattle.fancy_nfa.specs.GroupSpans.{AreGroupsOf, spans_in};
ghost use Rattle.fancy_nfa.specs.OnePass.{AreBranches, ComesPast, EndsOnePass, EndsOnePassWith, Finds, IsFirstTest, IsOnePass, IsOnePassWay, RunsOn, RunsPast, Walks, config_at};
ghost use Rattle.fancy_nfa.specs.Views.{IsReadBy};
ghost use Rattle.fancy_nfa.specs.Ways.{IsOfNodes};

use crate::first_sets::add_taken;
use crate::group_spans::GroupSpans;
use crate::nfa::Nfa;
use crate::nfa_state::{CharTest, NfaState};
use crate::search::Searcher;
use fancy_characters::look::holds;
use std::alloc::{AllocError, Global};

/// What one pass tells of the first way.
#[derive(Clone, Copy, Debug)]
pub enum OnePass {
    /// It ends here, in bytes.
    Ends(usize),
    /// There is none.
    Fails,
    /// Nothing.
    Unknown,
}

/// What a state leads to, or a loop over one character, where no choice is taken back.
#[derive(Clone, Copy)]
pub(crate) enum Passed {
    /// On at this state and place. That is sure where no way was kept for later.
    On {
        at: usize,
        place: usize,
        is_sure: bool,
    },
    /// The end.
    Ends,
    /// A group begins, and the search goes on at this state.
    Opens {
        at: usize,
    },
    /// This group ends.
    Closes {
        group: usize,
        at: usize,
    },
    /// It leads nowhere.
    Fails,
    /// It is a loop that counts.
    Unknown,
}

impl Nfa {
    /// The first way of its nodes from `ix`, a character boundary of the text, as far as no choice is needed for it and
    /// it sets no group. The states and bytes that are passed are added to `read`. An error is a request for memory that
    /// was refused.
    pub fn one_pass_end(
        &self,
        alloc: Global,
        text: &str,
        ix: usize,
        read: &mut usize,
    ) -> Result<OnePass, AllocError>
        requires place { IsTrue (is_place text.now ix) }
        requires nodes { ∥ IsOfNodes self.now ∥₁ }
        ensures { IfOk result (IsOnePass text.now self.now ix) }
    {
        if !self.is_one_pass {
            return Ok(OnePass::Unknown);
        }
        let searcher = Searcher {
            states: &self.states,
            unicode: self.unicode,
            text,
        };
        searcher.walk(alloc, ix, read)
    }

    /// As `one_pass_end`, also of nodes with groups: the spans of the groups that the way sets are written over these.
    #[inline(always)]
    pub fn one_pass_way(
        &self,
        alloc: Global,
        text: &str,
        ix: usize,
        groups: &mut GroupSpans,
        read: &mut usize,
    ) -> Result<OnePass, AllocError>
        requires place { IsTrue (is_place text.now ix) }
        requires nodes { ∥ IsOfNodes self.now ∥₁ }
        ensures { IfOk result (IsOnePassWay text.now self.now ix (spans_in groups.new)) }
    {
        if self.is_one_pass {
            groups.begin(0);
            return self.one_pass_end(alloc, text, ix, read);
        }
        let Some(first) = self.one_pass_group else {
            return Ok(OnePass::Unknown);
        };
        groups.begin(first);
        let searcher = Searcher {
            states: &self.states,
            unicode: self.unicode,
            text,
        };
        searcher.walk_groups(alloc, ix, groups, read)
    }
}

impl Searcher<'_> {
    /// Ways seem to need no choice that is taken back: no loop counts, and what may be tried at one place begins with other
    /// characters each.
    pub(crate) fn seems_one_pass(&self) -> bool
        requires { IsSearcher self.now }
    {
        'states: for at in 0..self.states.len() {
            let is_one_pass = match self.states.get(at) {
                Some(NfaState::LoopSplit(first, second) | NfaState::Split(first, second)) => {
                    self.are_apart(*first, *second)
                }
                Some(NfaState::CounterLoop { .. }) => false,
                _ => true,
            };
            if !is_one_pass {
                return false;
            }
        }
        true
    }

    /// No character of ASCII passes the tests at two of these states and of the branches behind the second one.
    fn are_apart(&self, first: usize, second: usize) -> bool
        requires { IsSearcher self.now }
    {
        if matches!(
            self.states.get(self.behind_groups(second)),
            Some(NfaState::Match)
        ) {
            return true;
        }
        let mut taken = [false; 129];
        if !self.are_others(first, &mut taken) {
            return false;
        }
        let mut at = second;
        'branches: for _ in 0..self.states.len() {
            let Some(NfaState::BranchSplit(branch, next)) = self.states.get(at) else {
                return self.are_others(at, &mut taken);
            };
            if !self.are_others(*branch, &mut taken) {
                return false;
            }
            at = *next;
        }
        false
    }

    /// None of these characters passes the test at this state, if there is one; those that pass it are added.
    fn are_others(&self, at: usize, taken: &mut [bool; 129]) -> bool
        requires { IsSearcher self.now }
    {
        let Some(test) = self.test_at(at) else {
            return true;
        };
        let mut own = [false; 129];
        add_taken(test, self.unicode, &mut own);
        let mut are_others = true;
        'ask: for c in 0..128usize {
            are_others = are_others & !(own[c] & taken[c]);
            taken[c] = taken[c] | own[c];
        }
        are_others
    }

    /// Behind where groups begin or end, from this state on.
    #[inline(always)]
    pub(crate) fn behind_groups(&self, at: usize) -> usize
        ensures { (place : ℕ) → FailsFrom self.now result place → FailsFrom self.now at place }
    {
        let mut next = at;
        'groups: while let Some(nfa_state) = self.states.get(next) {
            match nfa_state {
                NfaState::Open => next += 1,
                NfaState::Close(_) => next += 1,
                _ => break 'groups,
            }
        }
        next
    }

    /// The test at this state, perhaps behind a jump and where groups begin or end.
    #[inline(always)]
    pub(crate) fn test_at(&self, at: usize) -> Option<&CharTest>
        requires { IsSearcher self.now }
        ensures read { IfSome result (λ test. IsReadBy self.now.unicode test.now) }
        ensures exit { IfSome result (λ test. IsFirstTest self.now at test.now) }
    {
        match self.states.get(self.behind_groups(self.behind_jump(at))) {
            Some(NfaState::Character(test)) => Some(test),
            _ => None,
        }
    }

    /// From state to state, where there is no group.
    #[inline(always)]
    fn walk(&self, alloc: Global, ix: usize, read: &mut usize) -> Result<OnePass, AllocError>
        requires { IsSearcher self.now }
        ensures { IfOk result (EndsOnePass self.now ix) }
    {
        let mut at = 0;
        let mut place = ix;
        let mut is_sure = true;
        'states: for passed in 0..usize::MAX {
            match self.past(alloc, at, place)? {
                Passed::On {
                    at: after,
                    place: end,
                    is_sure: is_exact,
                } => {
                    at = after;
                    place = end;
                    is_sure = are_both(is_sure, is_exact);
                    continue 'states;
                }
                Passed::Ends => {
                    add_read(read, passed, ix, place);
                    return Ok(OnePass::Ends(place));
                }
                Passed::Fails => {
                    add_read(read, passed, ix, place);
                    return Ok(without_a_way(is_sure));
                }
                _ => return Ok(OnePass::Unknown),
            }
        }
        Ok(OnePass::Unknown)
    }

    /// From state to state, with the spans of groups.
    fn walk_groups(
        &self,
        alloc: Global,
        ix: usize,
        groups: &mut GroupSpans,
        read: &mut usize,
    ) -> Result<OnePass, AllocError>
        requires searcher { IsSearcher self.now }
        requires groups { AreGroupsOf groups.old [] [] }
        ensures { IfOk result (EndsOnePassWith self.now ix groups.new) }
    {
        let mut at = 0;
        let mut here = ix;
        let mut is_sure = true;
        'states: for passed in 0..usize::MAX {
            match self.past(alloc, at, here)? {
                Passed::On {
                    at: after,
                    place: end,
                    is_sure: is_exact,
                } => {
                    at = after;
                    here = end;
                    is_sure = are_both(is_sure, is_exact);
                    continue 'states;
                }
                Passed::Opens { at: after } => {
                    groups.open(here)?;
                    at = after;
                    continue 'states;
                }
                Passed::Closes { group, at: after } => {
                    if !groups.close(group, here)? {
                        return Ok(OnePass::Unknown);
                    }
                    at = after;
                    continue 'states;
                }
                Passed::Ends => {
                    add_read(read, passed, ix, here);
                    return Ok(OnePass::Ends(here));
                }
                Passed::Fails => {
                    add_read(read, passed, ix, here);
                    return Ok(without_a_way(is_sure));
                }
                Passed::Unknown => return Ok(OnePass::Unknown),
            }
        }
        Ok(OnePass::Unknown)
    }

    /// Past this state, perhaps behind a jump, or past a loop over one character.
    #[inline(always)]
    fn past(&self, alloc: Global, at: usize, place: usize) -> Result<Passed, AllocError>
        requires { IsSearcher self.now }
        ensures { IfOk result (ComesPast self.now at place) }
    {
        self.skip_state(alloc, self.behind_jump(at), place)
    }

    /// Past this state, or past a loop over one character. What is tried first is left only where it fails at its first
    /// test.
    #[inline(always)]
    fn skip_state(&self, alloc: Global, at: usize, place: usize) -> Result<Passed, AllocError>
        requires { IsSearcher self.now }
        ensures { IfOk result (ComesPast self.now at place) }
    {
        match self.states.get(at) {
            Some(NfaState::Match) => Ok(Passed::Ends),
            Some(NfaState::Character(test)) => {
                let Some(next) = test.past(alloc, self.unicode, self.text, place)? else {
                    return Ok(Passed::Fails);
                };
                Ok(Passed::On {
                    at: at + 1,
                    place: next,
                    is_sure: true,
                })
            }
            Some(NfaState::Holds(assertion)) => {
                if !holds(*assertion, self.unicode, self.text, place) {
                    return Ok(Passed::Fails);
                }
                Ok(Passed::On {
                    at: at + 1,
                    place,
                    is_sure: true,
                })
            }
            Some(NfaState::LoopSplit(first, second)) => {
                if let Some(test) = self.body_at(*first, at) {
                    let end = self.skip_all(alloc, test, place)?;
                    return Ok(Passed::On {
                        at: *second,
                        place: end,
                        is_sure: false,
                    });
                }
                let next = chosen(self.fails_from(*first, place), *first, *second);
                Ok(Passed::On {
                    at: next,
                    place,
                    is_sure: false,
                })
            }
            Some(NfaState::Join) => Ok(Passed::On {
                at: at + 1,
                place,
                is_sure: true,
            }),
            Some(NfaState::Open) => Ok(Passed::Opens { at: at + 1 }),
            Some(NfaState::Close(group)) => Ok(Passed::Closes {
                group: *group,
                at: at + 1,
            }),
            _ => Ok(self.skip_branch(at, place)),
        }
    }

    /// As `skip_state`, at a choice between branches.
    #[inline(always)]
    fn skip_branch(&self, at: usize, place: usize) -> Passed
        requires { IsSearcher self.now }
        ensures { ComesPast self.now at place result }
    {
        let (first, other) = self.first_branch(at);
        let Some(second) = other else {
            return Passed::Unknown;
        };
        let is_lost = self.fails_from(first, place);
        Passed::On {
            at: chosen(is_lost, first, second),
            place,
            is_sure: is_lost,
        }
    }

    /// From this state on a test comes first, or one for each of several branches, and the character there passes none.
    #[inline(always)]
    pub(crate) fn fails_from(&self, from: usize, place: usize) -> bool
        requires { IsSearcher self.now }
        ensures { IsTrue result → FailsFrom self.now from place }
    {
        let mut at = from;
        'branches: for _ in 0..self.states.len() {
            let (first, other) = self.first_branch(at);
            if !self.fails_behind_jump(first, place) {
                return false;
            }
            match other {
                None => return true,
                Some(second) => at = second,
            }
        }
        false
    }

    /// The first of two branches from this state and the other one, or else this state alone.
    #[inline(always)]
    fn first_branch(&self, at: usize) -> (usize, Option<usize>)
        ensures alone { result.1 ≡ None → result.0 ≡ at }
        ensures branches { IfSome result.1 (λ other. AreBranches self.now at result.0 other) }
    {
        match self.states.get(at) {
            Some(NfaState::Split(first, second)) => (*first, Some(*second)),
            Some(NfaState::BranchSplit(first, second)) => (*first, Some(*second)),
            _ => (at, None),
        }
    }

    /// A test is at this state, perhaps behind a jump and where groups begin or end, and the character at the place does
    /// not pass it.
    #[inline(always)]
    fn fails_behind_jump(&self, at: usize, place: usize) -> bool
        requires { IsSearcher self.now }
        ensures { IsTrue result → FailsFrom self.now at place }
    {
        match self.test_at(at) {
            Some(test) => self.is_excluded(test, place),
            None => false,
        }
    }

    /// Where the jump at this state leads, or else this state.
    #[inline(always)]
    pub(crate) fn behind_jump(&self, at: usize) -> usize
        ensures walks { (s : NfaConfig) (place : ℕ)
            → Walks self.now true (config_at s at place) (config_at s result place) }
        ensures fails { (place : ℕ)
            → FailsFrom self.now result place → FailsFrom self.now at place }
    {
        match self.states.get(at) {
            Some(NfaState::Jump(to)) => *to,
            _ => at,
        }
    }

    /// Past the characters from this place on that pass the test.
    #[inline(always)]
    fn skip_all(&self, alloc: Global, test: &CharTest, from: usize) -> Result<usize, AllocError>
        requires { IsReadBy self.now.unicode test.now }
        ensures { IfOk result (RunsPast self.now test.now from) }
    {
        let mut place = self.skip_ascii(test, from);
        'run: while let Some(next) = test.past(alloc, self.unicode, self.text, place)? {
            place = self.skip_ascii(test, next);
        }
        Ok(place)
    }

    /// Past the characters of ASCII from this place on that pass the test.
    #[inline(always)]
    fn skip_ascii(&self, test: &CharTest, from: usize) -> usize
        requires { IsReadBy self.now.unicode test.now }
        ensures on { RunsOn self.now test.now from result }
        ensures further { from ≤ result }
    {
        test.skip_ascii(self.unicode, self.text.as_bytes(), from)
    }
}

/// Adds so many states, and the bytes from the one place up to the other.
#[inline(always)]
fn add_read(read: &mut usize, states: usize, from: usize, to: usize)
    ensures { read.new ≡ min usize.MAX (min usize.MAX (read.old + states) + (to - from)) }
{
    *read = read
        .saturating_add(states)
        .saturating_add(to.saturating_sub(from));
}

/// What a test that fails says, where no loop was passed before, or else where one was.
fn without_a_way(is_sure: bool) -> OnePass
    ensures bare { (searcher : searcher_view.Searcher) (place : ℕ) → (IsTrue is_sure
        → Finds searcher place None)
        → EndsOnePass searcher place result }
    ensures grouped { (searcher : searcher_view.Searcher) (place : ℕ)
        (groups : group_spans.GroupSpans) → (IsTrue is_sure → Finds searcher place None)
        → EndsOnePassWith searcher place groups result }
{
    if is_sure {
        OnePass::Fails
    } else {
        OnePass::Unknown
    }
}

/// The way on, where the first one is lost or not.
#[inline(always)]
fn chosen(is_lost: bool, first: usize, second: usize) -> usize
    ensures { result ≡ if is_lost then second else first }
{
    if is_lost { second } else { first }
}

#[inline(always)]
fn are_both(one: bool, other: bool) -> bool
    ensures { result ≡ (one && other) }
{
    one && other
}
