//! The options of a regex.

ghost use Rattle.std.specs.Prelude.{◌≡◌, ℕ, [], IfOk, IsFalse, IsTrue, List};
ghost use Rattle.fancy_expr.specs.Sound.{IsWellFormedTree};
ghost use Rattle.fancy_info.specs.Infos.{analysis_options_of};
ghost use Rattle.fancy_compile.specs.Compiled.{compile_options_of};
ghost use Rattle.fancy_steps.specs.Tasks.{options_of as run_options_of};
ghost use Rattle.fancy_search.specs.Searches.{search_fits};
ghost use Rattle.fancy_matches.specs.Listing.{options_for};
ghost use Rattle.fancy_regex.specs.Options.{ExceedsAnalysisLimit, analysis, compilation, default_options, limits, running};

use fancy_analysis::limit::is_analysis_within;
use fancy_expr::expr::ExprTree;
use fancy_pattern::options::ParseOptions;
use fancy_search::request::Request;
use fancy_search::search::SearchOptions;
use fancy_vm::vm::SearchLimits;
use std::alloc::{AllocError, Global};

/// How a pattern is read and compiled, and how its regex searches. [`RegexBuilder`](crate::RegexBuilder) sets it.
#[derive(Clone, Copy, Debug)]
pub struct RegexOptions {
    pub(crate) parsing: ParseOptions,
    /// A match is not empty.
    pub(crate) not_empty: bool,
    /// A search finds the longest match at the earliest start.
    pub(crate) longest: bool,
    /// How many instructions the program may have.
    pub(crate) max_prog_size: Option<usize>,
    /// How many nodes may nest in one another, with calls written out.
    pub(crate) max_nesting: Option<usize>,
    /// How many nodes the analysis may look at in rounds that change something.
    pub(crate) analysis_limit: Option<usize>,
    pub(crate) backtrack_limit: Option<usize>,
    /// `u64::MAX` if none is set.
    pub(crate) step_limit: u64,
    /// How many states of easy parts a search may visit.
    pub(crate) visit_limit: Option<usize>,
    /// How many bytes a search may keep for easy parts at one time.
    pub(crate) memory_limit: Option<usize>,
}

impl Default for RegexOptions {
    fn default() -> RegexOptions
        ensures { result ≡ default_options }
    {
        RegexOptions {
            parsing: ParseOptions::default(),
            not_empty: false,
            longest: false,
            max_prog_size: Some(100_000),
            max_nesting: Some(500),
            analysis_limit: Some(5_000_000),
            backtrack_limit: None,
            step_limit: u64::MAX,
            visit_limit: Some(20_000_000),
            memory_limit: Some(268_435_456),
        }
    }
}

impl RegexOptions {
    /// The analysis of the tree stays within its limit.
    pub(crate) fn is_within_analysis_limit(
        &self,
        alloc: Global,
        tree: &ExprTree,
    ) -> Result<bool, AllocError>
        requires { IsWellFormedTree tree.now }
        ensures within { IfOk result (λ within. IsTrue within →
            ¬ ExceedsAnalysisLimit self.now.analysis_limit tree.now) }
        ensures exceeded { IfOk result (λ within. IsFalse within →
            ExceedsAnalysisLimit self.now.analysis_limit tree.now) }
    {
        match self.analysis_limit {
            Some(limit) => Ok(is_analysis_within(alloc, tree, limit)?),
            None => Ok(true),
        }
    }

    /// How many states and bytes the searches of easy parts may use together.
    pub(crate) fn search_limits(&self) -> SearchLimits
        ensures { result ≡ limits self.now }
    {
        SearchLimits {
            visits: match self.visit_limit {
                Some(most) => Some(most as u64),
                None => None,
            },
            bytes: self.memory_limit,
        }
    }

    /// The options of the analysis, the compilation and the searches.
    pub(crate) fn search_options(&self) -> SearchOptions
        ensures fits { IsTrue (search_fits result []) }
        ensures analysis { analysis_options_of result.analysis ≡ analysis self.now }
        ensures compilation { compile_options_of result.compilation ≡ compilation self.now }
        ensures nesting { result.compilation.max_nesting ≡ self.now.max_nesting }
        ensures run { (text : List ℕ)
            → options_for (run_options_of result.run) self.now.backtrack_limit text
            ≡ running self.now text }
        ensures steps { result.run.step_limit ≡ self.now.step_limit }
    {
        let request = Request {
            pos: 0,
            compile_anchored: false,
            anchored: false,
            not_continued: false,
            not_empty: self.not_empty,
            end_text: false,
            ascii: !self.parsing.unicode,
            longest: self.longest,
            max_prog_size: self.max_prog_size,
            max_nesting: self.max_nesting,
            // Each search has the limit of backtracks of the regex.
            backtrack_limit: 0,
            step_limit: self.step_limit,
        };
        request.options()
    }
}
