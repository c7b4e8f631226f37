//! Loops over one character: many iterations at once.

ghost use Rattle.std.specs.Prelude.{◌≡◌, ◌≤◌, ◌<◌, ◌+◌, IsTrue, IfErr, IfOk, IfSome, length};
ghost use Rattle.fancy_nfa_laws.specs.NfaSearch as plain;
ghost use Rattle.fancy_nfa_laws.specs.NfaSearch.{Search, TakesUp};
ghost use Rattle.fancy_nfa.specs.Views.{IsReadBy};
ghost use Rattle.fancy_nfa.specs.Runs.{GoesOn, IsBody, IsRun, Excludes, Passes, RunsOver};
ghost use Rattle.fancy_backtrack.specs.Memos.{HaveFailed, IsHere, IsSearch};
ghost use Rattle.fancy_nfa.specs.Searches.{IsSearcher, continuation_of};

use crate::nfa_state::{CharTest, NfaState, byte_at};
use crate::search::Searcher;
use fancy_backtrack::memo::{Memo, StepResult};
use fancy_backtrack::trail::NfaConfig;
use std::alloc::AllocError;

impl Searcher<'_> {
    /// At the head of a loop over this test, past the characters from here on that pass: those of ASCII, up to a place
    /// where the head may have no way. A choice is kept at each.
    #[inline(always)]
    pub(crate) fn skip_run(
        &self,
        m: &mut Memo,
        test: &CharTest,
        config: NfaConfig,
    ) -> Result<NfaConfig, AllocError>
        requires runs { RunsOver self.now m.old config test.now }
        requires read { IsReadBy self.now.unicode test.now }
        ensures ok { IfOk result (λ on. (s : plain.NfaConfig) (f : Search)
            → IsSearch (continuation_of self.now) m.old f → IsHere m.old config s
            → GoesOn self.now (TakesUp s f) m.new on) }
        ensures at { IfOk result (λ on. on.at ≡ config.at) }
        ensures failed { m.new.failed ≡ m.old.failed }
        ensures budget { m.new.budget ≡ m.old.budget }
    {
        let count = self.run_length(m, test, config);
        if count == 0 {
            return Ok(config);
        }
        m.keep_run(config, count)
    }

    /// The test on a character at the state `first`, where it is the body of the loop with this head.
    #[inline(always)]
    pub(crate) fn body_at(&self, first: usize, head: usize) -> Option<&CharTest>
        ensures { IfSome result (λ test. IsBody self.now.states.now head first test.now) }
    {
        let Some(NfaState::Character(test)) = self.states.get(first) else {
            return None;
        };
        let Some(NfaState::Jump(to)) = self.states.get(first.checked_add(1)?) else {
            return None;
        };
        if *to == head { Some(test) } else { None }
    }

    /// How many characters of ASCII from here on pass the test, up to a place where the head may have no way.
    #[inline(always)]
    fn run_length(&self, m: &Memo, test: &CharTest, config: NfaConfig) -> usize
        requires { IsReadBy self.now.unicode test.now }
        ensures run { IsRun self.now m.now test.now config result }
        ensures fits { config.place + result ≤ usize.MAX }
    {
        let text = self.text.as_bytes();
        if m.is_blank() {
            return test.skip_ascii(self.unicode, text, config.place) - config.place;
        }
        let mut end = config.place;
        'run: while end < text.len()
            && text[end] < 128
            && test.takes_ascii(self.unicode, text[end])
            && !m.may_have_failed(NfaConfig {
                place: end,
                ..config
            })
        {
            end += 1;
        }
        end - config.place
    }

    /// There is no character here, or it is of ASCII and fails the test.
    #[inline(always)]
    pub(crate) fn is_excluded(&self, test: &CharTest, place: usize) -> bool
        requires { IsReadBy self.now.unicode test.now }
        ensures { IsTrue result → Excludes self.now test.now place }
    {
        match byte_at(self.text.as_bytes(), place) {
            None => true,
            Some(byte) => byte < 128 && !test.takes_ascii(self.unicode, byte),
        }
    }
}
