//! The options of a search as a user gives them, once for all stages.

ghost use Rattle.std.specs.Prelude.{◌≡◌, ℕ, IsTrue, List};
ghost use Rattle.fancy_meaning.specs.Places.{is_place};
ghost use Rattle.fancy_steps.specs.Tasks.{options_of as run_options_of};
ghost use Rattle.fancy_search.specs.Requests as asked;
ghost use Rattle.fancy_search.specs.Searches.{search_fits};

use crate::search::SearchOptions;
use fancy_analysis::analyze::AnalyzeContext;
use fancy_compile::compile::{BytesMode, CompileOptions};
use fancy_vm::vm::RunOptions;

/// The options of a search as a user gives them: where it begins, its flags, and its limits. Group 0 is implicit. Each field
/// says which stage reads it.
#[derive(Clone, Copy, Debug, Drop)]
pub struct Request {
    /// The byte of the text where the search begins.
    pub pos: usize,
    /// Only the first start is tried; for the compiler.
    pub compile_anchored: bool,
    /// Only the first start is tried; for the search.
    pub anchored: bool,
    /// No match ended at `pos`, so `\G` fails there; for the search.
    pub not_continued: bool,
    /// A match is not empty; for the analysis and the search.
    pub not_empty: bool,
    /// No empty match at the end of a text after a newline; for the analysis and the compiler.
    pub end_text: bool,
    /// Folding, word characters and classes are those of ASCII; for the compiler.
    pub ascii: bool,
    /// The longest match, in bytes, at the earliest start, and not the first one; for the analysis and the search.
    pub longest: bool,
    /// How many instructions the program may have; `None` is no limit.
    pub max_prog_size: Option<usize>,
    /// How many nodes may nest in one another, with calls written out; `None` is no limit but the stack.
    pub max_nesting: Option<usize>,
    /// How often a search may backtrack to a branch.
    pub backtrack_limit: usize,
    /// How many instructions a search may execute.
    pub step_limit: u64,
}

impl Request {
    /// How the tree is analysed.
    pub fn analysis(&self) -> AnalyzeContext
        ensures { result ≡ asked.analysis self.now }
    {
        AnalyzeContext {
            explicit_capture_group_0: false,
            find_not_empty: self.not_empty,
            disallow_empty_match_at_eof_after_newline: self.end_text,
            leftmost_longest: self.longest,
        }
    }

    /// How the tree is compiled.
    pub fn compilation(&self) -> CompileOptions
        ensures { result ≡ asked.compilation self.now }
    {
        CompileOptions {
            anchored: self.compile_anchored,
            contains_subroutines: false,
            disallow_empty_match_at_eof_after_newline: self.end_text,
            bytes_mode: BytesMode::Unicode,
            unicode: !self.ascii,
            max_prog_size: self.max_prog_size,
            max_nesting: self.max_nesting,
        }
    }

    /// How the program is run.
    pub fn running(&self) -> RunOptions
        ensures { run_options_of result ≡ asked.running self.now }
    {
        RunOptions {
            pos: self.pos,
            anchored: self.anchored,
            continued: !self.not_continued,
            not_empty: self.not_empty,
            leftmost_longest: self.longest,
            backtrack_limit: self.backtrack_limit,
            step_limit: self.step_limit,
        }
    }

    /// The options of the three stages. They fit each text that has a character boundary at `pos`.
    pub fn options(&self) -> SearchOptions
        ensures analysis { result.analysis ≡ asked.analysis self.now }
        ensures compilation { result.compilation ≡ asked.compilation self.now }
        ensures run { run_options_of result.run ≡ asked.running self.now }
        ensures fits { (text : List ℕ)
            → IsTrue (is_place text self.now.pos) → IsTrue (search_fits result text) }
    {
        SearchOptions {
            analysis: self.analysis(),
            compilation: self.compilation(),
            run: self.running(),
        }
    }
}
