//! How a program is run.

ghost use Rattle.std.specs.Prelude.{◌≡◌};
ghost use Rattle.fancy_meaning.specs.Fits.{run_fits};
ghost use Rattle.fancy_steps.specs.Tasks.{default_at, options_of, task_of};

use fancy_characters::places::is_place;
use fancy_program::insn::Prog;

/// How a program is run.
#[derive(Clone, Copy, Debug)]
pub struct RunOptions {
    /// Where the search begins, a byte of the text.
    pub pos: usize,
    /// The first start alone is tried.
    pub anchored: bool,
    /// The previous match ended at `pos`.
    pub continued: bool,
    /// A match has to take something.
    pub not_empty: bool,
    /// Of the matches at the earliest start that has one, the longest in bytes is answered, and of several that are as
    /// long the first; where this is not set, the first of all.
    pub leftmost_longest: bool,
    /// How often a run may backtrack to a branch.
    pub backtrack_limit: usize,
    /// How many instructions a run may execute.
    pub step_limit: u64,
}

impl RunOptions {
    /// The default from this place on.
    pub fn from_pos(pos: usize) -> RunOptions
        ensures { options_of result ≡ default_at pos }
    {
        RunOptions {
            pos,
            anchored: false,
            continued: true,
            not_empty: false,
            leftmost_longest: false,
            backtrack_limit: 1_000_000,
            step_limit: u64::MAX,
        }
    }

    /// A run with these options may be made: `pos` is a character boundary of the text, group 0 is implicit, and
    /// `not_empty` and `leftmost_longest` are set only where the analysis knew of them.
    #[tactic(auto, unfolding(fancy_meaning::specs::Fits::run_fits))]
    pub fn fits(&self, prog: &Prog, text: &str) -> bool
        ensures { result ≡ run_fits (task_of prog.now text.now self.now) }
    {
        is_place(text.as_bytes(), self.pos)
            && !prog.parts.explicit_group_0
            && (!self.leftmost_longest || prog.parts.leftmost_longest)
            && (!self.not_empty || prog.parts.find_not_empty)
    }
}

impl Default for RunOptions {
    /// From the text's start, not anchored, continued, with empty matches, at most 1,000,000 backtracks and as many
    /// instructions as can be counted.
    fn default() -> RunOptions
        ensures { options_of result ≡ default_at 0 }
    {
        RunOptions::from_pos(0)
    }
}
