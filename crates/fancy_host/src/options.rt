//! What a host asks.

ghost use Rattle.std.specs.Prelude.{◌≡◌, MatchResult};
ghost use Rattle.fancy_expr.specs.Sound.{IsWellFormedTree};
ghost use Rattle.fancy_steps.specs.Tasks.{options_of as run_options_of};
ghost use Rattle.fancy_host.specs.Hosted as hosted;
ghost use Rattle.fancy_host.specs.Lists as lists;

use crate::outcome::{ANALYSIS_LIMIT_EXCEEDED, FancyOutcome, MEMORY};
use fancy_analysis::limit::is_analysis_within;
use fancy_expr::expr::ExprTree;
use fancy_matches::options::MatcherOptions;
use fancy_pattern::options::ParseOptions;
use fancy_search::request::Request;
use fancy_vm::vm::{RunOptions, SearchLimits};
use std::alloc::Global;

/// How many bytes the options have.
const SIZE: usize = 104;

/// Room for an option to come.
#[repr(C)]
#[derive(Clone, Copy, Drop)]
pub struct Reserved {
    pub first: u64,
}

/// The options of a pattern or a tree, and of a search.
#[repr(C)]
#[derive(Clone, Copy, Drop)]
pub struct FancyOptions {
    /// How many bytes the host's struct has.
    pub size: usize,
    /// The byte of the text where the search begins.
    pub pos: usize,
    /// How many instructions a program may have.
    pub max_prog_size: usize,
    /// How many nodes may nest in one another, with calls written out; for the compiler, which refuses more as
    /// `FANCY_NEST_LIMIT_EXCEEDED`.
    pub max_nesting: usize,
    /// How deep a tree may nest, in parentheses: what the stack of the calling thread allows.
    pub max_depth: usize,
    /// How often a search may backtrack to a branch; `usize::MAX` if the host sets no limit.
    pub backtrack_limit: usize,
    /// How many instructions a search may execute; `u64::MAX` if the host sets no limit.
    pub step_limit: u64,
    /// Only the first start is tried; for the compiler.
    pub compile_anchored: bool,
    /// Only the first start is tried; for the search.
    pub anchored: bool,
    /// No match ended at `pos`.
    pub not_continued: bool,
    /// A match is not empty; for both.
    pub not_empty: bool,
    /// No empty match at the end of a text after a newline; for the compiler.
    pub end_text: bool,
    /// Folding, word characters and classes are those of ASCII; for the compiler.
    pub ascii: bool,
    /// The longest match, in bytes, at the earliest start, and not the first one; for both.
    pub longest: bool,
    /// How a pattern is read, from here on; each as the field of `ParseOptions`.
    pub case_insensitive: bool,
    pub multi_line: bool,
    pub dot_matches_new_line: bool,
    pub ignore_whitespace: bool,
    pub crlf: bool,
    pub swap_greed: bool,
    pub oniguruma: bool,
    /// If the pattern has a named group, a plain `( )` captures nothing.
    pub named_groups_only: bool,
    /// The host answers for each text that is searched: it is UTF-8, and is not checked.
    pub text_is_utf8: bool,
    /// How many states the delegates of a search may visit together; 0 is no limit.
    pub visit_limit: u64,
    /// How many bytes they may keep at one time, and again the branches of the search; 0 is no limit.
    pub memory_limit: usize,
    /// How many nodes the analysis of a tree may look at in rounds that change something. More is refused as
    /// `FANCY_ANALYSIS_LIMIT_EXCEEDED`; 0 is no limit.
    pub analysis_limit: usize,
    pub reserved: Reserved,
}

impl Default for FancyOptions {
    fn default() -> FancyOptions
        ensures { result ≡ hosted.default_options }
    {
        FancyOptions {
            size: SIZE,
            pos: 0,
            max_prog_size: 100_000,
            max_nesting: 500,
            max_depth: 250,
            backtrack_limit: usize::MAX,
            step_limit: u64::MAX,
            compile_anchored: false,
            anchored: false,
            not_continued: false,
            not_empty: false,
            end_text: false,
            ascii: false,
            longest: false,
            case_insensitive: false,
            multi_line: false,
            dot_matches_new_line: false,
            ignore_whitespace: false,
            crlf: false,
            swap_greed: false,
            oniguruma: false,
            named_groups_only: false,
            text_is_utf8: false,
            visit_limit: 20_000_000,
            memory_limit: 268_435_456,
            analysis_limit: 5_000_000,
            reserved: Reserved { first: 0 },
        }
    }
}

impl FancyOptions {
    /// Whether they have the size that the library gives them.
    pub fn has_size(&self) -> bool
        ensures { result ≡ hosted.has_size self.now }
    {
        self.size == SIZE
    }

    /// How a pattern is read.
    pub fn parsing(&self) -> ParseOptions
        ensures { result ≡ hosted.parsing self.now }
    {
        ParseOptions {
            case_insensitive: self.case_insensitive,
            multi_line: self.multi_line,
            dot_matches_new_line: self.dot_matches_new_line,
            ignore_whitespace: self.ignore_whitespace,
            crlf: self.crlf,
            swap_greed: self.swap_greed,
            unicode: !self.ascii,
            oniguruma: self.oniguruma,
            ignore_numbered_groups_when_named_groups_exist: self.named_groups_only,
        }
    }

    /// Asks whether the analysis of the tree stands within its limit, if there is one.
    pub fn check_analysis(&self, alloc: Global, tree: &ExprTree) -> Result<(), FancyOutcome>
        requires { IsWellFormedTree tree.now }
        ensures { MatchResult
            result
            (λ _. ¬ hosted.ExceedsAnalysisLimit tree.now self.now)
            (hosted.IsUnanalysed tree.now self.now) }
    {
        if self.analysis_limit == 0 {
            return Ok(());
        }
        match is_analysis_within(alloc, tree, self.analysis_limit) {
            Ok(true) => Ok(()),
            Ok(false) => Err(FancyOutcome::coded(ANALYSIS_LIMIT_EXCEEDED)),
            Err(_) => Err(FancyOutcome::coded(MEMORY)),
        }
    }

    /// What they ask of a search.
    pub fn request(&self) -> Request
        ensures { result ≡ hosted.request self.now }
    {
        Request {
            pos: self.pos,
            compile_anchored: self.compile_anchored,
            anchored: self.anchored,
            not_continued: self.not_continued,
            not_empty: self.not_empty,
            end_text: self.end_text,
            ascii: self.ascii,
            longest: self.longest,
            max_prog_size: Some(self.max_prog_size),
            max_nesting: Some(self.max_nesting),
            backtrack_limit: self.backtrack_limit,
            step_limit: self.step_limit,
        }
    }

    /// The limit of backtracks, if the host gives one.
    pub fn backtracks(&self) -> Option<usize>
        ensures { result ≡ hosted.given_backtracks self.now }
    {
        if self.backtrack_limit == usize::MAX {
            None
        } else {
            Some(self.backtrack_limit)
        }
    }

    /// How much the delegates of a search may take together.
    pub fn limits(&self) -> SearchLimits
        ensures { result ≡ hosted.limits self.now }
    {
        SearchLimits {
            visits: if self.visit_limit == 0 {
                None
            } else {
                Some(self.visit_limit)
            },
            bytes: if self.memory_limit == 0 {
                None
            } else {
                Some(self.memory_limit)
            },
        }
    }

    /// How the program of the tree is run on this text.
    pub fn running(&self, text: &str) -> RunOptions
        ensures { run_options_of result ≡ hosted.running self.now text.now }
    {
        let run = self.request().running();
        let backtrack_limit = self.backtracks();
        let options = MatcherOptions {
            run,
            backtrack_limit,
            limits: self.limits(),
        };
        options.for_text(text)
    }

    /// How all its matches in this text are searched for: the list says itself where a search begins and whether it is
    /// continued.
    pub fn listing(&self, text: &str) -> RunOptions
        ensures { run_options_of result ≡ lists.listing self.now text.now }
    {
        RunOptions {
            pos: 0,
            ..self.running(text)
        }
    }
}
