//! The options of the searches of a matcher.

ghost use Rattle.std.specs.Prelude.{◌≡◌};
ghost use Rattle.fancy_steps.specs.Tasks.{options_of as run_options_of};
ghost use Rattle.fancy_matches.specs.Listing as list;

use fancy_vm::vm::{RunOptions, SearchLimits};

/// The options of the searches of a matcher.
#[derive(Clone, Copy, Debug)]
pub struct MatcherOptions {
    /// The options of all searches. Each search sets for itself where it begins, whether it is continued, and its limit of
    /// backtracks. A `step_limit` of `u64::MAX` means that none is set: then it is 100,000,000, and eight more for each byte
    /// of the text and for its end.
    pub run: RunOptions,
    /// How often a search may backtrack to a branch. `None` is 20,000,000, and one more for each byte of the text and for
    /// its end, since a start that fails is one backtrack.
    pub backtrack_limit: Option<usize>,
    /// How many states the delegates of a search may visit together, and how many bytes they may keep.
    pub limits: SearchLimits,
}

impl MatcherOptions {
    /// How often a search of this text may backtrack to a branch.
    fn backtracks_for(&self, text: &str) -> usize
        ensures { result ≡ list.backtracks_for self.now.backtrack_limit text.now }
    {
        match self.backtrack_limit {
            Some(limit) => limit,
            None => text.len().saturating_add(20_000_001),
        }
    }

    /// How many instructions a search of this text may execute.
    fn steps_for(&self, text: &str) -> u64
        ensures { result ≡ list.steps_for self.now.run.step_limit text.now }
    {
        if self.run.step_limit == u64::MAX {
            (text.len() as u64)
                .saturating_mul(8)
                .saturating_add(100_000_008)
        } else {
            self.run.step_limit
        }
    }

    /// The options of the searches of this text; where each begins, and whether it is continued, is set later.
    pub fn for_text(&self, text: &str) -> RunOptions
        ensures { run_options_of result
            ≡ list.options_for
            (run_options_of self.now.run) self.now.backtrack_limit text.now }
    {
        RunOptions {
            backtrack_limit: self.backtracks_for(text),
            step_limit: self.steps_for(text),
            ..self.run
        }
    }
}
