//! The plain search: from state to state, with what is tried later on a stack.

ghost use Rattle.std.specs.Prelude.{◌≡◌, ◌≤◌, ◌<◌, OnOk, ◌∷◌, [], ℕ, List, Bool, Some, slice_get};
ghost use Rattle.fancy_nfa_laws.specs.NfaSearch as plain;
ghost use Rattle.fancy_nfa_laws.specs.NfaSearch.{Search, TakesBack, TakesUp};
ghost use Rattle.fancy_nfa_laws.specs.NfaStates as states;
ghost use Rattle.fancy_nfa.specs.Views.{IsStateReadBy, IsReadBy, test_of};
ghost use Rattle.fancy_nfa.specs.declared.nfa_state.NfaState.TheVariants as nfa_state;
ghost use Rattle.fancy_backtrack.specs.Memos.{IsHere, IsSearch, Simulates, fails_before};
ghost use Rattle.fancy_nfa.specs.Searches.{Advances, ComesTo, EndsAs, GoesBack, IsSearcher, continuation_of};

use crate::nfa_state::{CharTest, NfaState};
use fancy_backtrack::memo::{Memo, StepResult};
use fancy_backtrack::trail::{LoopCounter, NfaConfig};
use fancy_characters::look::holds;
use std::alloc::AllocError;

/// The states of an NFA, and the text that they are searched in.
#[derive(Clone, Copy)]
pub(crate) struct Searcher<'a> {
    pub(crate) states: &'a [NfaState],
    pub(crate) unicode: bool,
    pub(crate) text: &'a str,
}

impl Searcher<'_> {
    /// Searches from this configuration on. It gives up, as if an allocation fails, where it takes up more states than
    /// the memo's budget allows, and after 2^64 - 1 steps, more than any machine takes.
    pub(crate) fn find(
        &self,
        m: &mut Memo,
        start: NfaConfig,
    ) -> Result<Option<NfaConfig>, AllocError>
        requires { IsSearcher self.now }
        ensures ends { (s : plain.NfaConfig) (f : Search)
            → IsSearch (continuation_of self.now) m.old f → IsHere m.old start s
            → EndsAs self.now (TakesUp s f) result m.new }
        ensures within { OnOk result (m.new.visits ≤ m.new.budget.visits) }
        ensures budget { m.new.budget ≡ m.old.budget }
    {
        let mut config = start;
        'steps: for _ in 0..u64::MAX {
            let step = self.advance(m, config)?;
            if m.exceeds_visits() {
                return Err(AllocError);
            }
            match step {
                StepResult::Found(there) => return Ok(Some(there)),
                StepResult::Goes(next) => config = next,
                StepResult::Lost => return Ok(None),
            }
        }
        Err(AllocError)
    }

    /// Takes up the state, and where it leads nowhere goes back to what is tried later.
    #[inline(always)]
    fn advance(&self, m: &mut Memo, config: NfaConfig) -> Result<StepResult, AllocError>
        requires { IsSearcher self.now }
        ensures leads { (s : plain.NfaConfig) (f : Search)
            → IsSearch (continuation_of self.now) m.old f → IsHere m.old config s
            → Advances self.now (TakesUp s f) result m.new }
        ensures budget { m.new.budget ≡ m.old.budget }
    {
        match self.take_up(m, config)? {
            StepResult::Lost => self.take_back(m),
            step_result => Ok(step_result),
        }
    }

    /// Takes up the state.
    #[inline(always)]
    fn take_up(&self, m: &mut Memo, config: NfaConfig) -> Result<StepResult, AllocError>
        requires { IsSearcher self.now }
        ensures leads { (s : plain.NfaConfig) (f : Search)
            → IsSearch (continuation_of self.now) m.old f → IsHere m.old config s
            → ComesTo self.now (TakesUp s f) result m.new }
        ensures budget { m.new.budget ≡ m.old.budget }
    {
        match self.states.get(config.at) {
            None => {
                m.count();
                Ok(StepResult::Lost)
            }
            Some(nfa_state) => self.take_up_state(nfa_state, m, config),
        }
    }

    #[inline(always)]
    fn take_up_state(
        &self,
        nfa_state: &NfaState,
        m: &mut Memo,
        config: NfaConfig,
    ) -> Result<StepResult, AllocError>
        requires searcher { IsSearcher self.now }
        requires at { slice_get self.now.states.now config.at ≡ Some nfa_state.now }
        requires read { IsStateReadBy self.now.unicode nfa_state.now }
        ensures leads { (s : plain.NfaConfig) (f : Search)
            → IsSearch (continuation_of self.now) m.old f → IsHere m.old config s
            → ComesTo self.now (TakesUp s f) result m.new }
        ensures budget { m.new.budget ≡ m.old.budget }
    {
        match nfa_state {
            NfaState::Character(test) => self.take(test, m, config),
            NfaState::LoopSplit(first, _) => self.take_up_loop_split(m, config, *first),
            NfaState::Jump(to) => Ok(StepResult::Goes(config.goes_to(*to))),
            NfaState::BranchSplit(first, _) => m.choose(config, *first),
            NfaState::Close(group) => m.close(config, *group),
            NfaState::Join => m.join(config),
            NfaState::CounterLoop { bounds, after } => m.counter_loop(config, *bounds, *after),
            NfaState::Split(first, _) => {
                m.count();
                m.choose(config, *first)
            }
            NfaState::Open => {
                m.count();
                m.open(config)
            }
            NfaState::CounterBegin => {
                m.count();
                let counter = LoopCounter {
                    count: 0,
                    since: None,
                };
                let next = m.begin_iteration(config, config.counters, counter)?;
                Ok(StepResult::Goes(next))
            }
            NfaState::Holds(assertion) => {
                m.count();
                if holds(*assertion, self.unicode, self.text, config.place) {
                    Ok(StepResult::Goes(config.forward()))
                } else {
                    Ok(StepResult::Lost)
                }
            }
            NfaState::Match => {
                m.count();
                Ok(StepResult::Found(config))
            }
        }
    }

    /// At the head of a loop that does not count, past what it goes over in one go if its body is one character.
    #[inline(always)]
    fn take_up_loop_split(
        &self,
        m: &mut Memo,
        config: NfaConfig,
        first: usize,
    ) -> Result<StepResult, AllocError>
        requires searcher { IsSearcher self.now }
        requires at { (second : ℕ)
            × (slice_get self.now.states.now config.at ≡ Some (nfa_state.LoopSplit first second)) }
        ensures leads { (s : plain.NfaConfig) (f : Search)
            → IsSearch (continuation_of self.now) m.old f → IsHere m.old config s
            → ComesTo self.now (TakesUp s f) result m.new }
        ensures budget { m.new.budget ≡ m.old.budget }
    {
        let Some(test) = self.body_at(first, config.at) else {
            return m.loop_split(config, first);
        };
        let on = self.skip_run(m, test, config)?;
        m.loop_split(on, first)
    }

    /// Past one character that passes the test.
    #[inline(always)]
    fn take(
        &self,
        test: &CharTest,
        m: &mut Memo,
        config: NfaConfig,
    ) -> Result<StepResult, AllocError>
        requires at { config.at < usize.MAX }
        requires read { IsReadBy self.now.unicode test.now }
        ensures leads { (s : plain.NfaConfig) (f : Search)
            → IsSearch (continuation_of self.now) m.old f → IsHere m.old config s
            → Simulates (continuation_of self.now) s f.failed
            (plain.next_by (plain.step_by self.now.text.now self.now.unicode
            (states.Character (test_of test.now)) s) (Some (states.Character
            (test_of test.now))) s f)
            result m.new }
        ensures budget { m.new.budget ≡ m.old.budget }
    {
        m.count();
        match test.past(m.alloc(), self.unicode, self.text, config.place)? {
            Some(place) => Ok(StepResult::Goes(NfaConfig {
                at: config.at + 1,
                place,
                ..config
            })),
            None => Ok(StepResult::Lost),
        }
    }

    /// Back to the last choice that has an untried way on. Each that was tried on the way back has none.
    #[inline(always)]
    fn take_back(&self, m: &mut Memo) -> Result<StepResult, AllocError>
        requires { IsSearcher self.now }
        ensures leads { (f : Search) → IsSearch (continuation_of self.now) m.old f
            → GoesBack self.now (TakesBack f) result m.new }
        ensures budget { m.new.budget ≡ m.old.budget }
    {
        'frames: while let Some(choice) = m.pop() {
            if choice.is_untried {
                return self.take_other(m, choice.config);
            }
            m.add_failed(choice.config)?;
        }
        Ok(StepResult::Lost)
    }

    /// On at the other way from this configuration.
    #[inline(always)]
    pub(crate) fn take_other(
        &self,
        m: &mut Memo,
        config: NfaConfig,
    ) -> Result<StepResult, AllocError>
        ensures leads { (s first other : plain.NfaConfig) (is_memoized : Bool) (f : Search)
            (rest : List plain.Frame)
            → IsSearch (continuation_of self.now) m.old (record f { frames = rest })
            → IsHere m.old config s
            → continuation_of self.now s ≡ plain.Tries is_memoized first (other ∷ [])
            → Simulates (continuation_of self.now) s f.failed
            (TakesUp other (record f { frames = fails_before is_memoized s rest })) result m.new }
        ensures budget { m.new.budget ≡ m.old.budget }
    {
        match self.states.get(config.at) {
            None => Ok(StepResult::Lost),
            Some(nfa_state) => self.other_from(nfa_state, m, config),
        }
    }

    /// On at the other way from this state.
    #[inline(always)]
    fn other_from(
        &self,
        nfa_state: &NfaState,
        m: &mut Memo,
        config: NfaConfig,
    ) -> Result<StepResult, AllocError>
        requires { slice_get self.now.states.now config.at ≡ Some nfa_state.now }
        ensures leads { (s first other : plain.NfaConfig) (is_memoized : Bool) (f : Search)
            (rest : List plain.Frame)
            → IsSearch (continuation_of self.now) m.old (record f { frames = rest })
            → IsHere m.old config s
            → continuation_of self.now s ≡ plain.Tries is_memoized first (other ∷ [])
            → Simulates (continuation_of self.now) s f.failed
            (TakesUp other (record f { frames = fails_before is_memoized s rest })) result m.new }
        ensures budget { m.new.budget ≡ m.old.budget }
    {
        match nfa_state {
            NfaState::Split(_, second) => Ok(StepResult::Goes(config.goes_to(*second))),
            NfaState::BranchSplit(_, second) => Ok(StepResult::Goes(config.goes_to(*second))),
            NfaState::LoopSplit(_, second) => {
                m.keep(config, false)?;
                Ok(StepResult::Goes(config.goes_to(*second)))
            }
            NfaState::CounterLoop { bounds, after } => {
                m.keep(config, false)?;
                m.other_counter(config, *bounds, *after)
            }
            _ => Ok(StepResult::Lost),
        }
    }
}
