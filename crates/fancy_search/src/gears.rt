//! Searches by an engine.

ghost use Rattle.std.specs.Prelude.{◌≡◌, IfOk, IfSome, IsTrue, None, Some, OnOk, false, is_some, option_map};
ghost use Rattle.fancy_meaning.specs.Answer.{answer, search_of};
ghost use Rattle.fancy_meaning.specs.Fits.{run_fits};
ghost use Rattle.fancy_meaning.specs.Premises.{Input, plan};
ghost use Rattle.fancy_hybrid.specs.Patterns.{told};
ghost use Rattle.fancy_steps.specs.Outcomes.{answer_in, first_pair};
ghost use Rattle.fancy_steps.specs.SearchLimits.{StaysWithin};
ghost use Rattle.fancy_steps.specs.Tasks.{options_of as run_options_of, task_of};
ghost use Rattle.fancy_search.specs.Scratches.{Suits, limits_of, passed_of};
ghost use Rattle.fancy_search.specs.Searches.{Bounds, IsCompiledFrom, Promises, PromisesPair, program};

use crate::candidates::{Candidates, Tried};
use crate::scratch::Scratch;
use crate::search::Compiled;
use fancy_expr::error::Error;
use fancy_hybrid::search::{Stop, search_into};
use fancy_vm::vm::{RunOptions, SearchLimit, SearchLimits, pair_of, run_into};
use std::alloc::Global;
use std::mem;

/// Whether these options ask for the first match at any start.
pub(crate) fn is_plain(options: &RunOptions) -> bool
    ensures any_start { IsTrue result → options.now.anchored ≡ false }
    ensures empty_too { IsTrue result → options.now.not_empty ≡ false }
    ensures first_way { IsTrue result → options.now.leftmost_longest ≡ false }
{
    !options.anchored && !options.not_empty && !options.leftmost_longest
}

/// The end of the match that has these numbers, or of the text if there is no match.
fn end_of(text: &str, is_match: bool, numbers: &Vec<usize>) -> usize {
    match (is_match, numbers.get(1)) {
        (true, Some(end)) => *end,
        _ => text.len(),
    }
}

impl Compiled {
    /// Whether a search needs an engine.
    pub(crate) fn is_due(&self, options: &RunOptions, scratch: &Scratch) -> bool {
        self.common.is_some() && is_plain(options) && scratch.is_due()
    }

    /// Makes the tree's engine, unless the scratch holds it already or there is none.
    fn make_engine(&self, alloc: Global, scratch: &mut Scratch) -> Result<(), Stop>
        requires { Suits self.now scratch.old }
        ensures suits { Suits self.now scratch.new }
        ensures runs { scratch.new.runs ≡ scratch.old.runs }
        ensures common { OnOk result (IsTrue (is_some self.now.common)) }
    {
        let Some(common) = &self.common else {
            return Err(Stop::GaveUp);
        };
        if scratch.engine.is_none() {
            let Ok(made) = common.engine(alloc) else {
                return Err(Stop::Memory);
            };
            scratch.gave_up = made.is_none();
            scratch.engine = made;
        }
        Ok(())
    }

    /// As `search_into`, by the engine, which may give up.
    fn search_by_engine(
        &self,
        alloc: Global,
        text: &str,
        options: &RunOptions,
        scratch: &mut Scratch,
        numbers: &mut Vec<usize>,
    ) -> Result<bool, Stop>
        requires fits { IsTrue (run_fits (task_of (program self.now) text.now options.now)) }
        requires suits { Suits self.now scratch.old }
        ensures answers { (i : Input) → IsCompiledFrom i self.now → IfOk result (λ found.
            answer (search_of (plan i) text.now (run_options_of options.now))
            ≡ told found numbers.new.items) }
        ensures limits { limits_of scratch.new ≡ limits_of scratch.old }
        ensures stays { IfOk result (λ _. passed_of scratch.new ≡ None) }
        ensures suits { Suits self.now scratch.new }
    {
        if !is_plain(options) {
            return Err(Stop::GaveUp);
        }
        scratch.limit(scratch.limits());
        self.make_engine(alloc, scratch)?;
        let Some(engine) = &mut scratch.engine else {
            return Err(Stop::GaveUp);
        };
        search_into(engine, text, options.pos, numbers)
    }

    /// As `find`, by the engine, which may give up.
    pub(crate) fn find_by_engine(
        &self,
        alloc: Global,
        text: &str,
        options: &RunOptions,
        scratch: &mut Scratch,
    ) -> Result<Option<(usize, usize)>, Stop>
        requires fits { IsTrue (run_fits (task_of (program self.now) text.now options.now)) }
        requires suits { Suits self.now scratch.old }
        ensures answers { (i : Input) → IsCompiledFrom i self.now → IfOk result (λ found. found
            ≡ option_map first_pair
            (answer (search_of (plan i) text.now (run_options_of options.now)))) }
        ensures limits { limits_of scratch.new ≡ limits_of scratch.old }
        ensures stays { IfOk result (λ _. passed_of scratch.new ≡ None) }
        ensures suits { Suits self.now scratch.new }
    {
        if !is_plain(options) {
            return Err(Stop::GaveUp);
        }
        scratch.limit(scratch.limits());
        self.make_engine(alloc, scratch)?;
        let Some(engine) = &mut scratch.engine else {
            return Err(Stop::GaveUp);
        };
        match engine.find(text, options.pos) {
            Ok(found) => Ok(found),
            Err(_) => Err(Stop::GaveUp),
        }
    }

    /// The limits of a run after which an engine may still search for the tree.
    fn short_limits(&self, options: &RunOptions, scratch: &Scratch) -> Option<SearchLimits> {
        if self.common.is_none() || !is_plain(options) {
            return None;
        }
        scratch.short_limits()
    }

    /// As `search_into`, by a run. If an engine may search, there is no answer once the run has taken many visits.
    pub(crate) fn search_in_first_gear(
        &self,
        alloc: Global,
        text: &str,
        options: &RunOptions,
        scratch: &mut Scratch,
        numbers: &mut Vec<usize>,
    ) -> Option<Result<bool, Error>>
        requires fits { IsTrue (run_fits (task_of (program self.now) text.now options.now)) }
        requires suits { Suits self.now scratch.old }
        ensures promise { (i : Input)
            → IsCompiledFrom i self.now
            → IfSome result (λ r.
            Promises i text.now (run_options_of options.now) (answer_in r numbers.new)) }
        ensures bounds { (i : Input)
            → IsCompiledFrom i self.now
            → IfSome result (λ r.
            Bounds i text.now (run_options_of options.now) (answer_in r numbers.new)) }
        ensures limits { limits_of scratch.new ≡ limits_of scratch.old }
        ensures stays { IfSome result (λ r. StaysWithin r (passed_of scratch.new)) }
        ensures suits { Suits self.now scratch.new }
    {
        let Some(short) = self.short_limits(options, scratch) else {
            return Some(self.search_by_run(alloc, text, options, scratch, numbers));
        };
        let limits = scratch.limits();
        scratch.limit(short);
        let answer = self.search_by_run(alloc, text, options, scratch, numbers);
        let passed = scratch.passed();
        scratch.limit(limits);
        match passed {
            None => Some(answer),
            Some(SearchLimit::Visits) => None,
            Some(SearchLimit::Bytes) => Some(self.search_by_run(
                alloc, text, options, scratch, numbers,
            )),
        }
    }

    /// As `search_into`, by an engine, or by a run if that gives up.
    pub(crate) fn search_in_second_gear(
        &self,
        alloc: Global,
        text: &str,
        options: &RunOptions,
        scratch: &mut Scratch,
        numbers: &mut Vec<usize>,
    ) -> Result<bool, Error>
        requires fits { IsTrue (run_fits (task_of (program self.now) text.now options.now)) }
        requires suits { Suits self.now scratch.old }
        ensures promise { (i : Input)
            → IsCompiledFrom i self.now
            → Promises i text.now (run_options_of options.now) (answer_in result numbers.new) }
        ensures bounds { (i : Input)
            → IsCompiledFrom i self.now
            → Bounds i text.now (run_options_of options.now) (answer_in result numbers.new) }
        ensures limits { limits_of scratch.new ≡ limits_of scratch.old }
        ensures stays { StaysWithin result (passed_of scratch.new) }
        ensures suits { Suits self.now scratch.new }
    {
        match self.search_by_engine(alloc, text, options, scratch, numbers) {
            Ok(found) => Ok(found),
            Err(Stop::Memory) => Err(Error::Memory),
            Err(Stop::GaveUp) => {
                scratch.give_up_engine();
                self.search_by_run(alloc, text, options, scratch, numbers)
            }
        }
    }

    /// As `search_into`, by the gear that is due.
    pub(crate) fn search_by_gears(
        &self,
        alloc: Global,
        text: &str,
        options: &RunOptions,
        scratch: &mut Scratch,
        numbers: &mut Vec<usize>,
    ) -> Result<bool, Error>
        requires fits { IsTrue (run_fits (task_of (program self.now) text.now options.now)) }
        requires suits { Suits self.now scratch.old }
        ensures promise { (i : Input)
            → IsCompiledFrom i self.now
            → Promises i text.now (run_options_of options.now) (answer_in result numbers.new) }
        ensures bounds { (i : Input)
            → IsCompiledFrom i self.now
            → Bounds i text.now (run_options_of options.now) (answer_in result numbers.new) }
        ensures limits { limits_of scratch.new ≡ limits_of scratch.old }
        ensures stays { StaysWithin result (passed_of scratch.new) }
        ensures suits { Suits self.now scratch.new }
    {
        if self.is_due(options, scratch) {
            return self.search_in_second_gear(alloc, text, options, scratch, numbers);
        }
        match self.search_in_first_gear(alloc, text, options, scratch, numbers) {
            Some(answer) => answer,
            None => self.search_in_second_gear(alloc, text, options, scratch, numbers),
        }
    }

    /// As `find`, by the numbers of all groups.
    pub(crate) fn find_by_numbers(
        &self,
        alloc: Global,
        text: &str,
        options: &RunOptions,
        scratch: &mut Scratch,
    ) -> Result<Option<(usize, usize)>, Error>
        requires fits { IsTrue (run_fits (task_of (program self.now) text.now options.now)) }
        requires suits { Suits self.now scratch.old }
        ensures promise { (i : Input)
            → IsCompiledFrom i self.now
            → PromisesPair i text.now (run_options_of options.now) result }
        ensures limits { limits_of scratch.new ≡ limits_of scratch.old }
        ensures stays { StaysWithin result (passed_of scratch.new) }
        ensures suits { Suits self.now scratch.new }
    {
        let mut numbers = mem::replace(&mut scratch.numbers, Vec::new(alloc));
        let answer = self.search_by_gears(alloc, text, options, scratch, &mut numbers);
        let pair = pair_of(&numbers);
        scratch.numbers = numbers;
        if answer? { Ok(Some(pair)) } else { Ok(None) }
    }

    /// The candidates, if they are known and these options ask for more than one start.
    fn candidates_for(&self, options: &RunOptions) -> Option<&Candidates>
        ensures known { IfSome result (λ it. self.now.candidates ≡ Some it.now) }
        ensures any_start { IfSome result (λ _. options.now.anchored ≡ false) }
    {
        if options.anchored {
            return None;
        }
        self.candidates.as_ref()
    }

    /// As `search_into`, from candidates if they are known, else by one run.
    fn search_by_run(
        &self,
        alloc: Global,
        text: &str,
        options: &RunOptions,
        scratch: &mut Scratch,
        numbers: &mut Vec<usize>,
    ) -> Result<bool, Error>
        requires fits { IsTrue (run_fits (task_of (program self.now) text.now options.now)) }
        requires suits { Suits self.now scratch.old }
        ensures promise { (i : Input)
            → IsCompiledFrom i self.now
            → Promises i text.now (run_options_of options.now) (answer_in result numbers.new) }
        ensures bounds { (i : Input)
            → IsCompiledFrom i self.now
            → Bounds i text.now (run_options_of options.now) (answer_in result numbers.new) }
        ensures limits { limits_of scratch.new ≡ limits_of scratch.old }
        ensures stays { StaysWithin result (passed_of scratch.new) }
        ensures suits { Suits self.now scratch.new }
    {
        let Some(candidates) = self.candidates_for(options) else {
            return self.search_by_one_run(alloc, text, options, scratch, numbers);
        };
        let runs = &mut scratch.runs;
        match self.try_candidates(alloc, candidates, text, options, runs, numbers) {
            Tried::Found(found) => {
                scratch.count(end_of(text, found, numbers).saturating_sub(options.pos));
                Ok(found)
            }
            Tried::Unknown if scratch.passed().is_some() => Err(Error::Memory),
            Tried::Unknown => self.search_by_one_run(alloc, text, options, scratch, numbers),
        }
    }

    /// As `search_into`, by one run.
    pub(crate) fn search_by_one_run(
        &self,
        alloc: Global,
        text: &str,
        options: &RunOptions,
        scratch: &mut Scratch,
        numbers: &mut Vec<usize>,
    ) -> Result<bool, Error>
        requires fits { IsTrue (run_fits (task_of (program self.now) text.now options.now)) }
        requires suits { Suits self.now scratch.old }
        ensures promise { (i : Input)
            → IsCompiledFrom i self.now
            → Promises i text.now (run_options_of options.now) (answer_in result numbers.new) }
        ensures bounds { (i : Input)
            → IsCompiledFrom i self.now
            → Bounds i text.now (run_options_of options.now) (answer_in result numbers.new) }
        ensures limits { limits_of scratch.new ≡ limits_of scratch.old }
        ensures stays { StaysWithin result (passed_of scratch.new) }
        ensures suits { Suits self.now scratch.new }
    {
        let runs = &mut scratch.runs;
        let answer = run_into(alloc, &self.prog, text, options, runs, numbers);
        let found = match &answer {
            Ok(found) => *found,
            Err(_) => false,
        };
        scratch.count(end_of(text, found, numbers).saturating_sub(options.pos));
        answer
    }
}
