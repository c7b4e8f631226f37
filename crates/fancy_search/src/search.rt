//! `search`, `SearchOptions`, and `Compiled`, a tree that is compiled once and searched for many times.

ghost use Rattle.std.specs.Prelude.{◌≡◌, ◌<◌, ◌-◌, ℕ, List, length, None, IfOk, IsTrue, IsUtf8, MatchResult, false, true};
ghost use Rattle.fancy_meaning.specs.Fits.{run_fits};
ghost use Rattle.fancy_meaning.specs.Options as plain;
ghost use Rattle.fancy_meaning.specs.Answer.{answer, search_of};
ghost use Rattle.fancy_meaning.specs.Places.{is_place};
ghost use Rattle.fancy_meaning.specs.Premises.{Input, plan};
ghost use Rattle.fancy_info.specs.Infos.{analysis_options_of};
ghost use Rattle.fancy_compile.specs.Compiled.{compile_options_of};
ghost use Rattle.fancy_expr.specs.Sound.{IsWellFormedTree};
ghost use Rattle.fancy_steps.specs.Outcomes.{answer_in};
ghost use Rattle.fancy_steps.specs.SearchLimits.{StaysWithin};
ghost use Rattle.fancy_steps.specs.Tasks.{default_at, options_of as run_options_of, task_of};
ghost use Rattle.fancy_search.specs.Searches.{Bounds, IsCompiledFrom, IsMadeWithin, IsNestedOver, IsRefusedAs, Promises, PromisesWithin, input_of, program, search_fits, PromisesPair};
ghost use Rattle.fancy_search.specs.Searches as searches;
ghost use Rattle.fancy_search.specs.Scratches.{Suits, limits_of, passed_of};

use crate::candidates::{Candidates, candidates_of};
use crate::common::{Common, common_of};
use crate::needed::{Needed, needed_by};
use crate::scratch::Scratch;
use fancy_analysis::analyze::{AnalyzeContext, analyze};
use fancy_characters::places::is_place;
use fancy_compile::compile::{CompileOptions, compile};
use fancy_expr::error::Error;
use fancy_expr::expr::ExprTree;
use fancy_hybrid::search::Stop;
use fancy_vm::vm::{Prog, RunOptions};
use std::alloc::Global;

/// The options of the three stages of a search.
#[derive(Clone, Copy, Debug)]
pub struct SearchOptions {
    /// How the tree is analysed.
    pub analysis: AnalyzeContext,
    /// How it is compiled.
    pub compilation: CompileOptions,
    /// How its program is run.
    pub run: RunOptions,
}

/// Whether a tree may be analysed and compiled with these options: the end-of-text option of the compiler is set only with
/// that of the analysis.
pub fn options_fit(context: AnalyzeContext, options: CompileOptions) -> bool
    ensures { result ≡ searches.options_fit context options }
{
    !options.disallow_empty_match_at_eof_after_newline
        || context.disallow_empty_match_at_eof_after_newline
}

impl SearchOptions {
    /// Whether these options fit a search of the text: `options_fit`, group 0 is implicit, `run.pos` is a character boundary
    /// of the text, `run.not_empty` is set only with `analysis.find_not_empty`, and `run.leftmost_longest` only with
    /// `analysis.leftmost_longest`.
    pub fn fits(&self, text: &str) -> bool
        ensures { result ≡ search_fits self.now text.now }
    {
        options_fit(self.analysis, self.compilation)
            && !self.analysis.explicit_capture_group_0
            && is_place(text.as_bytes(), self.run.pos)
            && (!self.run.not_empty || self.analysis.find_not_empty)
            && (!self.run.leftmost_longest || self.analysis.leftmost_longest)
    }
}

impl Default for SearchOptions {
    /// The defaults of the three stages, which fit every text.
    fn default() -> SearchOptions
        ensures fits { (text : List ℕ) → IsUtf8 text → IsTrue (search_fits result text) }
        ensures analysis { analysis_options_of result.analysis
            ≡ record {
              explicit_capture_group_0 = false;
              find_not_empty = false;
              end_text = false;
              leftmost_longest = false;
            } }
        ensures compilation { compile_options_of result.compilation
            ≡ record {
              anchored = false;
              end_text = false;
              bytes_mode = plain.Unicode;
              unicode = true;
              max_prog_size = None;
            } }
        ensures nesting { result.compilation.max_nesting ≡ None }
        ensures run { run_options_of result.run ≡ default_at 0 }
    {
        SearchOptions {
            analysis: AnalyzeContext::default(),
            compilation: CompileOptions::default(),
            run: RunOptions::default(),
        }
    }
}

/// A tree that was compiled for searches: its program, and what is known of its matches.
pub struct Compiled {
    pub(crate) prog: Prog,
    /// How many characters each match takes at least.
    min_size: usize,
    /// The tree, if an engine may search for it.
    pub(crate) common: Option<Common>,
    /// What each match takes, if something is known.
    needed: Option<Needed>,
    /// At which places attempts of a search are made, if not by one run.
    pub(crate) candidates: Option<Candidates>,
}

// Not derived: whoever owns one calls this drop, and would prove a derived one again (docs/GATE.md).
impl Drop for Compiled {
    fn drop(self) {
        let Compiled {
            prog: _,
            min_size: _,
            common: _,
            needed: _,
            candidates: _,
        } = self;
    }
}

impl Compiled {
    /// Analyses and compiles the tree, for many searches.
    ///
    /// # Errors
    ///
    /// `CompileError` if a case of `analyze` or `compile` holds, such as a reference to a group that is not there.
    /// `NestLimitExceeded` if more nodes nest in one another, with calls written out, than `options.max_nesting`.
    /// `Memory` if an allocation fails.
    pub fn new(
        alloc: Global,
        tree: &ExprTree,
        context: AnalyzeContext,
        options: CompileOptions,
    ) -> Result<Compiled, Error>
        requires well_formed { IsWellFormedTree tree.now }
        requires fits { IsTrue (searches.options_fit context options) }
        ensures made { MatchResult
            result
            (λ compiled. IsCompiledFrom (input_of tree.now context options) compiled)
            (λ error. IsRefusedAs (input_of tree.now context options) options.max_nesting error) }
        ensures within { IfOk result (λ _.
            ¬ IsNestedOver (input_of tree.now context options) options.max_nesting) }
    {
        let info = analyze(alloc, tree, context)?;
        let min_size = info.min_size();
        let prog = compile(alloc, &info, options)?;
        let common = common_of(prog.body(), &info, options)?;
        let needed = needed_by(alloc, &tree.expr, options.unicode, info.hard())?;
        let candidates = candidates_of(alloc, tree, options, info.hard())?;
        Ok(Compiled {
            prog,
            min_size,
            common,
            needed,
            candidates,
        })
    }

    /// The program of the tree.
    pub fn program(&self) -> &Prog
        ensures { result.now ≡ program self.now }
    {
        &self.prog
    }

    /// Takes this apart into the program alone.
    pub fn into_program(self) -> Prog
        ensures { result ≡ program self }
    {
        let Compiled {
            prog,
            min_size: _,
            common: _,
            needed: _,
            candidates: _,
        } = self;
        prog
    }

    /// Whether fewer bytes are left from byte `pos` of the text on than each match has: a search from there finds no match.
    #[inline(always)]
    pub fn is_too_short(&self, text: &str, pos: usize) -> bool
        ensures { IsTrue result → (i : Input) (o : plain.RunOptions)
            → IsCompiledFrom i self.now → IsTrue (is_place text.now pos) → o.pos ≡ pos
            → answer (search_of (plan i) text.now o) ≡ None }
    {
        self.exceeds_rest(text, pos)
    }

    /// Whether the text lacks what each match takes: a search from byte `pos` of the text on finds no match.
    fn lacks_needed(&self, text: &str, pos: usize) -> bool
        ensures { IsTrue result → (i : Input) (o : plain.RunOptions)
            → IsCompiledFrom i self.now → o.pos ≡ pos
            → answer (search_of (plan i) text.now o) ≡ None }
    {
        match &self.needed {
            None => false,
            Some(needed) => needed.is_missing(text, pos),
        }
    }

    /// Whether it is known without a run that a search from byte `pos` of the text on finds no match.
    #[inline(always)]
    fn has_none(&self, text: &str, pos: usize) -> bool
        ensures { IsTrue result → (i : Input) (o : plain.RunOptions)
            → IsCompiledFrom i self.now → IsTrue (is_place text.now pos) → o.pos ≡ pos
            → answer (search_of (plan i) text.now o) ≡ None }
    {
        self.is_too_short(text, pos) || self.lacks_needed(text, pos)
    }

    /// Whether each match has more characters than there are bytes from byte `pos` of the text on.
    #[inline(always)]
    fn exceeds_rest(&self, text: &str, pos: usize) -> bool
        ensures { IsTrue result → length text.now - pos < self.now.min_size }
    {
        text.len().saturating_sub(pos) < self.min_size
    }

    /// Whether these options fit a search of the text: `pos` is a character boundary of the text, and `not_empty` and
    /// `leftmost_longest` are set only if the analysis had `find_not_empty` and `leftmost_longest`.
    pub fn fits(&self, text: &str, options: &RunOptions) -> bool
        ensures { result ≡ run_fits (task_of (program self.now) text.now options.now) }
    {
        options.fits(&self.prog, text)
    }

    /// Searches the text from byte `options.pos` on. Returns start and end of each group from 0 up, in bytes of the text,
    /// with `usize::MAX` twice for a group that is not set, or `None` if there is no match. Nothing is run if `is_too_short`, or
    /// if the text lacks a literal or a byte that each match takes.
    ///
    /// # Errors
    ///
    /// `RuntimeError` if the search exceeds the limit of backtracks, steps or branches that it names. `Memory` if an
    /// allocation fails or the search exceeds a limit of the scratch, which `Scratch::passed` names. The scratch can be used
    /// again after an error. An easy tree never exceeds limits of one backtrack and eight instructions for each start.
    pub fn search(
        &self,
        alloc: Global,
        text: &str,
        options: &RunOptions,
        scratch: &mut Scratch,
    ) -> Result<Option<Vec<usize>>, Error>
        requires fits { IsTrue (run_fits (task_of (program self.now) text.now options.now)) }
        requires suits { Suits self.now scratch.old }
        ensures promise { (i : Input)
            → IsCompiledFrom i self.now
            → Promises i text.now (run_options_of options.now) result }
        ensures bounds { (i : Input)
            → IsCompiledFrom i self.now
            → Bounds i text.now (run_options_of options.now) result }
        ensures limits { limits_of scratch.new ≡ limits_of scratch.old }
        ensures stays { StaysWithin result (passed_of scratch.new) }
        ensures suits { Suits self.now scratch.new }
    {
        let mut numbers = Vec::new(alloc);
        if !self.search_into(alloc, text, options, scratch, &mut numbers)? {
            return Ok(None);
        }
        Ok(Some(numbers))
    }

    /// As `search`, but it returns whether there is a match, and writes the numbers over `numbers`, in the memory that it
    /// has. Without a match, and after an error, `numbers` may hold anything.
    ///
    /// # Errors
    ///
    /// Those of `search`.
    pub fn search_into(
        &self,
        alloc: Global,
        text: &str,
        options: &RunOptions,
        scratch: &mut Scratch,
        numbers: &mut Vec<usize>,
    ) -> Result<bool, Error>
        requires fits { IsTrue (run_fits (task_of (program self.now) text.now options.now)) }
        requires suits { Suits self.now scratch.old }
        ensures promise { (i : Input)
            → IsCompiledFrom i self.now
            → Promises i text.now (run_options_of options.now) (answer_in result numbers.new) }
        ensures bounds { (i : Input)
            → IsCompiledFrom i self.now
            → Bounds i text.now (run_options_of options.now) (answer_in result numbers.new) }
        ensures limits { limits_of scratch.new ≡ limits_of scratch.old }
        ensures stays { StaysWithin result (passed_of scratch.new) }
        ensures suits { Suits self.now scratch.new }
    {
        if self.has_none(text, options.pos) {
            scratch.limit(scratch.limits());
            return Ok(false);
        }
        self.search_by_gears(alloc, text, options, scratch, numbers)
    }

    /// As `search`, by a run alone: a search that exceeds a limit says so.
    fn run(
        &self,
        alloc: Global,
        text: &str,
        options: &RunOptions,
        scratch: &mut Scratch,
    ) -> Result<Option<Vec<usize>>, Error>
        requires fits { IsTrue (run_fits (task_of (program self.now) text.now options.now)) }
        requires suits { Suits self.now scratch.old }
        ensures promise { (i : Input)
            → IsCompiledFrom i self.now
            → Promises i text.now (run_options_of options.now) result }
        ensures bounds { (i : Input)
            → IsCompiledFrom i self.now
            → Bounds i text.now (run_options_of options.now) result }
        ensures limits { limits_of scratch.new ≡ limits_of scratch.old }
        ensures stays { StaysWithin result (passed_of scratch.new) }
    {
        let mut numbers = Vec::new(alloc);
        if self.is_too_short(text, options.pos) {
            scratch.limit(scratch.limits());
            return Ok(None);
        }
        let found = self.search_by_one_run(alloc, text, options, scratch, &mut numbers)?;
        Ok(if found { Some(numbers) } else { None })
    }

    /// As `search`, with the first pair of its numbers for an answer: start and end of the match in bytes.
    ///
    /// # Errors
    ///
    /// Those of `search`.
    pub fn find(
        &self,
        alloc: Global,
        text: &str,
        options: &RunOptions,
        scratch: &mut Scratch,
    ) -> Result<Option<(usize, usize)>, Error>
        requires fits { IsTrue (run_fits (task_of (program self.now) text.now options.now)) }
        requires suits { Suits self.now scratch.old }
        ensures promise { (i : Input)
            → IsCompiledFrom i self.now
            → PromisesPair i text.now (run_options_of options.now) result }
        ensures limits { limits_of scratch.new ≡ limits_of scratch.old }
        ensures stays { StaysWithin result (passed_of scratch.new) }
        ensures suits { Suits self.now scratch.new }
    {
        if self.has_none(text, options.pos) {
            scratch.limit(scratch.limits());
            return Ok(None);
        }
        if self.is_due(options, scratch) {
            match self.find_by_engine(alloc, text, options, scratch) {
                Ok(found) => return Ok(found),
                Err(Stop::Memory) => return Err(Error::Memory),
                Err(Stop::GaveUp) => scratch.give_up_engine(),
            }
        }
        self.find_by_numbers(alloc, text, options, scratch)
    }
}

/// Searches the text for the tree once, by `analyze`, `compile` and `run`. Returns start and end of each group from 0 up, in
/// bytes of the text, with `usize::MAX` twice for a group that is not set, or `None` if there is no match. The match is the
/// first admitted way at the earliest start that has one. With `run.leftmost_longest` it is the longest one there, and of
/// several as long the first.
///
/// The caller proves that `tree` is well-formed (`is_well_formed`) and that the options fit (`SearchOptions::fits`).
///
/// # Errors
///
/// Those of `Compiled::new`, and then those of `Compiled::search`.
///
/// # Examples
///
/// ```
/// let mut scratch = Scratch::new(alloc);
/// let found = search(alloc, &tree, "xabcd", &SearchOptions::default(), &mut scratch)?;
/// // of the tree of `a(b|bc)d`: Some([1, 5, 2, 4])
/// ```
pub fn search(
    alloc: Global,
    tree: &ExprTree,
    text: &str,
    options: &SearchOptions,
    scratch: &mut Scratch,
) -> Result<Option<Vec<usize>>, Error>
    requires well_formed { IsWellFormedTree tree.now }
    requires fits { IsTrue (search_fits options.now text.now) }
    ensures promise { PromisesWithin
        (input_of tree.now options.now.analysis options.now.compilation)
        options.now.compilation.max_nesting
        text.now
        (run_options_of options.now.run)
        result }
    ensures bounds { Bounds
        (input_of tree.now options.now.analysis options.now.compilation)
        text.now
        (run_options_of options.now.run)
        result }
    ensures within { IsMadeWithin
        (input_of tree.now options.now.analysis options.now.compilation)
        options.now.compilation.max_nesting
        result }
    ensures limits { limits_of scratch.new ≡ limits_of scratch.old }
    ensures stays { StaysWithin result (passed_of scratch.new) }
{
    scratch.limit(scratch.limits());
    let compiled = Compiled::new(alloc, tree, options.analysis, options.compilation)?;
    scratch.forget_engine();
    compiled.run(alloc, text, &options.run, scratch)
}
