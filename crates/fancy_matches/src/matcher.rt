//! `Matcher`: a tree that is compiled, with the memory of its searches.

ghost use Rattle.std.specs.Arc.{arc_value};
ghost use Rattle.std.specs.Prelude.{◌≡◌, ◌-◌, ◌<◌, [], IfErr, IfOk, IfSome, IsTrue, MatchResult, length, suc};
ghost use Rattle.fancy_meaning.specs.Fits.{run_fits};
ghost use Rattle.fancy_meaning.specs.Options as plain;
ghost use Rattle.fancy_meaning.specs.Places as places;
ghost use Rattle.fancy_meaning.specs.Premises.{Input};
ghost use Rattle.fancy_expr.specs.Sound.{IsWellFormedTree};
ghost use Rattle.fancy_steps.specs.Tasks.{options_of as run_options_of, task_of};
ghost use Rattle.fancy_steps.specs.SearchLimits.{no_limits};
ghost use Rattle.fancy_search.specs.Scratches.{Suits};
ghost use Rattle.std.proofs.Props.{props};
ghost use Rattle.fancy_search.specs.Searches.{HasSource, IsNestedOver, IsRefusedAs, input_of, program, search_fits};
ghost use Rattle.fancy_matches.specs.Listing as list;

use crate::cursor::Cursor;
use crate::found::{Captures, Match};
use crate::iterators::{CaptureMatches, Matches};
use crate::options::MatcherOptions;
use crate::searches::{FromSearch, next_found};
use fancy_expr::error::Error;
use fancy_expr::expr::ExprTree;
use fancy_program::threads::crosses_threads;
use fancy_search::scratch::Scratch;
use fancy_search::search::{Compiled, SearchOptions};
use fancy_vm::vm::{RunOptions, SearchLimit, SearchLimits};
use std::alloc::{AllocError, Global};
use std::sync::Arc;

/// A compiled tree, with the memory that its searches use again. Several matchers may share one program, each with memory of
/// its own. Positions are in bytes of the text, from 0.
///
/// # Errors of a search
///
/// A search that exceeds a limit of backtracks, steps or branches returns `RuntimeError`. `Memory` is returned if an
/// allocation fails, or if the search exceeds a limit of visits or of bytes, which `passed` then names. After an error the
/// matcher can be used again.
pub struct Matcher {
    alloc: Global,
    compiled: Arc<Compiled>,
    options: MatcherOptions,
    scratch: Scratch,
    ghost fits: { IsTrue (run_fits (task_of (program (arc_value compiled)) [] options.run)) },
    ghost source: { HasSource (arc_value compiled) },
    ghost suits: { Suits (arc_value compiled) scratch } by { Prim.hlevel props },
}

// Not derived: whoever owns one calls this drop, and would prove a derived one again (docs/GATE.md).
impl Drop for Matcher {
    fn drop(self) {
        let Matcher {
            alloc: _,
            compiled: _,
            options: _,
            scratch: _,
        } = self;
    }
}

impl Matcher {
    ghost use Rattle.fancy_matches.specs.Matchers.{AreAllApart, Begins, FindsCaptures, FindsMatch, FindsWhether, GivesBy, GivesCaptures, GivesMatch, IsMadeBy, IsNoLimitWhereEasy, IsRegexOf, IsSame, Shows, StaysIn, StaysInStep, captures_iteration, compiled_of, matches_iteration, options_in, passed_in, cursor_of, work_in};

    /// Analyses and compiles the tree. The caller proves that it is well-formed (`is_well_formed`), and that the options fit
    /// the empty text; so they begin at 0. Each search sets for itself where it begins, and whether it is continued.
    ///
    /// `backtrack_limit` is how often a search may backtrack to a branch, and the options do not say it. `None` is
    /// 20,000,000, and one more for each start that the text may have, so a search for an easy tree never exceeds it.
    ///
    /// # Errors
    ///
    /// `CompileError` if the tree is refused. `NestLimitExceeded` if more nodes nest in one another, with calls written out,
    /// than `compilation.max_nesting`. `Memory` if an allocation fails.
    ///
    /// # Examples
    ///
    /// ```
    /// let mut matcher = Matcher::new(alloc, &tree, &SearchOptions::default(), None)?; // of `b+`
    /// let found = matcher.find("abb b")?; // bytes 1..3
    /// ```
    pub fn new(
        alloc: Global,
        tree: &ExprTree,
        options: &SearchOptions,
        backtrack_limit: Option<usize>,
    ) -> Result<Matcher, Error>
        requires well_formed { IsWellFormedTree tree.now }
        requires fits { IsTrue (search_fits options.now []) }
        ensures made { MatchResult
            result
            (IsMadeBy
            (input_of tree.now options.now.analysis options.now.compilation)
            (run_options_of options.now.run) backtrack_limit)
            (IsRefusedAs
            (input_of tree.now options.now.analysis options.now.compilation)
            options.now.compilation.max_nesting) }
        ensures within { IfOk result (λ _. ¬ IsNestedOver
            (input_of tree.now options.now.analysis options.now.compilation)
            options.now.compilation.max_nesting) }
        ensures limits { IfOk result (λ made. made.options.limits ≡ no_limits) }
    {
        crosses_threads::<Matcher>();
        let compiled = Compiled::new(alloc, tree, options.analysis, options.compilation)?;
        Ok(Matcher {
            alloc,
            compiled: Arc::new(alloc, compiled)?,
            options: MatcherOptions {
                run: options.run,
                backtrack_limit,
                limits: SearchLimits::none(),
            },
            scratch: Scratch::new(alloc),
        })
    }

    /// Makes a copy of the matcher, for another thread. Both share the program, and each has memory of its own for its
    /// searches.
    ///
    /// # Errors
    ///
    /// `AllocError` if an allocation fails.
    pub fn try_clone(&self) -> Result<Matcher, AllocError>
        ensures { IfOk result (IsSame self.now) }
    {
        Ok(Matcher {
            alloc: self.alloc,
            compiled: Arc::try_clone(&self.compiled)?,
            options: self.options,
            scratch: Scratch::new(self.alloc),
        })
    }

    /// Sets how many states the delegates of each later search may visit together, and how many bytes they may keep. Before
    /// this call there is no such limit. A search that exceeds one returns `Error::Memory`, and `passed` says which.
    pub fn limit(&mut self, limits: SearchLimits)
        ensures compiled { compiled_of self.new ≡ compiled_of self.old }
        ensures options { self.new.options ≡ record self.old.options { limits = limits } }
    {
        self.options.limits = limits;
    }

    /// The limit of `limit` that the last search exceeded, or `None`.
    pub fn passed(&self) -> Option<SearchLimit>
        ensures { result ≡ passed_in self.now }
    {
        self.options.limits.passed_by(self.scratch.cost())
    }

    /// How much the last search did: its visits and backtracks, and one for each eight instructions. It is 0 for a tree for
    /// which an engine may search, since that takes linear time.
    pub fn work(&self) -> u64
        ensures { result ≡ work_in self.now }
    {
        self.scratch.work()
    }

    /// The options of a search of the text from this position on.
    fn begun_at(&self, text: &str, pos: usize) -> RunOptions
        ensures { run_options_of result ≡ list.begun_at (options_in self.now text.now) pos }
    {
        RunOptions {
            pos,
            ..self.options.for_text(text)
        }
    }

    /// What is reported of the first match from byte `pos` of the text on.
    fn found_from<'t, F: FromSearch<'t>>(
        &mut self,
        text: &'t str,
        pos: usize,
    ) -> Result<Option<F>, Error>
        requires { IsTrue (places.is_place text.now pos) }
        ensures promise { (i : Input)
            → (o : plain.RunOptions)
            → IsRegexOf i text.now o self.old
            → Shows i text.now (list.begun_at o pos) F.show (F.seen text.now) result }
        ensures easy { IfErr result (IsNoLimitWhereEasy self.old text.now) }
        ensures same { IsSame self.old self.new }
        ensures stays { StaysIn result self.new }
    {
        let options = self.begun_at(text, pos);
        self.scratch.limit(self.options.limits);
        F::search(
            self.alloc,
            &self.compiled,
            text,
            &options,
            &mut self.scratch,
        )
    }

    /// Finds the first match from `pos` on, as `find_from` does, with its groups.
    ///
    /// # Errors
    ///
    /// Those of a search; see [`Matcher`].
    pub fn captures_from<'t>(
        &mut self,
        text: &'t str,
        pos: usize,
    ) -> Result<Option<Captures<'t>>, Error>
        requires { IsTrue (places.is_place text.now pos) }
        ensures promise { (i : Input)
            → (o : plain.RunOptions)
            → IsRegexOf i text.now o self.old
            → FindsCaptures i text.now (list.begun_at o pos) result }
        ensures easy { IfErr result (IsNoLimitWhereEasy self.old text.now) }
        ensures same { IsSame self.old self.new }
        ensures stays { StaysIn result self.new }
    {
        self.found_from(text, pos)
    }

    /// Finds the first match, as `find` does, with its groups.
    ///
    /// # Errors
    ///
    /// Those of a search; see [`Matcher`].
    pub fn captures<'t>(&mut self, text: &'t str) -> Result<Option<Captures<'t>>, Error>
        ensures promise { (i : Input)
            → (o : plain.RunOptions)
            → IsRegexOf i text.now o self.old
            → FindsCaptures i text.now (list.begun_at o 0) result }
        ensures easy { IfErr result (IsNoLimitWhereEasy self.old text.now) }
        ensures same { IsSame self.old self.new }
        ensures stays { StaysIn result self.new }
    {
        self.captures_from(text, 0)
    }

    /// Finds the first match that starts at `pos` or later. Look-behind and `\b` see the text before `pos`.
    ///
    /// `pos` is in bytes: the start of a character of the text, or the length of the text. The caller proves this.
    ///
    /// # Errors
    ///
    /// Those of a search; see [`Matcher`].
    pub fn find_from<'t>(&mut self, text: &'t str, pos: usize) -> Result<Option<Match<'t>>, Error>
        requires { IsTrue (places.is_place text.now pos) }
        ensures promise { (i : Input)
            → (o : plain.RunOptions)
            → IsRegexOf i text.now o self.old
            → FindsMatch i text.now (list.begun_at o pos) result }
        ensures easy { IfErr result (IsNoLimitWhereEasy self.old text.now) }
        ensures same { IsSame self.old self.new }
        ensures stays { StaysIn result self.new }
    {
        self.found_from(text, pos)
    }

    /// Finds the first match: the one with the earliest start, and of several there the first in the order of preference, or
    /// the longest under `leftmost_longest`. `Ok(None)` means that there is no match.
    ///
    /// # Errors
    ///
    /// Those of a search; see [`Matcher`].
    pub fn find<'t>(&mut self, text: &'t str) -> Result<Option<Match<'t>>, Error>
        ensures promise { (i : Input)
            → (o : plain.RunOptions)
            → IsRegexOf i text.now o self.old
            → FindsMatch i text.now (list.begun_at o 0) result }
        ensures easy { IfErr result (IsNoLimitWhereEasy self.old text.now) }
        ensures same { IsSame self.old self.new }
        ensures stays { StaysIn result self.new }
    {
        self.find_from(text, 0)
    }

    /// Whether the text has a match.
    ///
    /// # Errors
    ///
    /// Those of a search; see [`Matcher`].
    pub fn is_match(&mut self, text: &str) -> Result<bool, Error>
        ensures promise { (i : Input)
            → (o : plain.RunOptions)
            → IsRegexOf i text.now o self.old
            → FindsWhether i text.now (list.begun_at o 0) result }
        ensures easy { IfErr result (IsNoLimitWhereEasy self.old text.now) }
        ensures same { IsSame self.old self.new }
        ensures stays { StaysIn result self.new }
    {
        match self.find(text) {
            Ok(found) => Ok(found.is_some()),
            Err(error) => Err(error),
        }
    }

    /// What is reported of the next match of a list; `cursor` moves after it. After an error the list has ended.
    fn next_found<'t, F: FromSearch<'t>>(
        &mut self,
        text: &'t str,
        cursor: &mut Cursor,
    ) -> Option<Result<F, Error>>
        ensures list { (i : Input)
            → (o : plain.RunOptions)
            → IsRegexOf i text.now o self.old
            → GivesBy i text.now o F.show (F.seen text.now)
            (cursor_of cursor.old) result (cursor_of cursor.new) }
        ensures further { IfSome
            result
            (λ item. suc (length text.now) - cursor.new.pos
            < suc (length text.now) - cursor.old.pos) }
        ensures easy { IfSome result (λ item. IfErr item (IsNoLimitWhereEasy self.old text.now)) }
        ensures same { IsSame self.old self.new }
        ensures stays { StaysInStep result self.new }
    {
        let options = self.options.for_text(text);
        self.scratch.limit(self.options.limits);
        match next_found(
            self.alloc,
            &self.compiled,
            text,
            &options,
            cursor,
            &mut self.scratch,
        ) {
            Ok(None) => None,
            Ok(Some(found)) => Some(Ok(found)),
            Err(error) => {
                cursor.end();
                Some(Err(error))
            }
        }
    }

    /// Finds the next match of a list, with its groups, and moves `cursor` after it. `None` means that the list has ended;
    /// `Cursor::first()` begins one.
    ///
    /// # Errors
    ///
    /// The item is an error of the search; see [`Matcher`]. The list has ended then.
    pub fn next_captures<'t>(
        &mut self,
        text: &'t str,
        cursor: &mut Cursor,
    ) -> Option<Result<Captures<'t>, Error>>
        ensures list { (i : Input)
            → (o : plain.RunOptions)
            → IsRegexOf i text.now o self.old
            → GivesCaptures i text.now o (cursor_of cursor.old) result (cursor_of cursor.new) }
        ensures further { IfSome
            result
            (λ item. suc (length text.now) - cursor.new.pos
            < suc (length text.now) - cursor.old.pos) }
        ensures easy { IfSome result (λ item. IfErr item (IsNoLimitWhereEasy self.old text.now)) }
        ensures same { IsSame self.old self.new }
        ensures stays { StaysInStep result self.new }
    {
        self.next_found(text, cursor)
    }

    /// Finds the next match of a list, without its groups, and moves `cursor` after it. `None` means that the list has
    /// ended; `Cursor::first()` begins one.
    ///
    /// # Errors
    ///
    /// The item is an error of the search; see [`Matcher`]. The list has ended then.
    pub fn next_match<'t>(
        &mut self,
        text: &'t str,
        cursor: &mut Cursor,
    ) -> Option<Result<Match<'t>, Error>>
        ensures list { (i : Input)
            → (o : plain.RunOptions)
            → IsRegexOf i text.now o self.old
            → GivesMatch i text.now o (cursor_of cursor.old) result (cursor_of cursor.new) }
        ensures further { IfSome
            result
            (λ item. suc (length text.now) - cursor.new.pos
            < suc (length text.now) - cursor.old.pos) }
        ensures easy { IfSome result (λ item. IfErr item (IsNoLimitWhereEasy self.old text.now)) }
        ensures same { IsSame self.old self.new }
        ensures stays { StaysInStep result self.new }
    {
        self.next_found(text, cursor)
    }

    /// All matches from left to right, each with its groups, as an iterator. Matches do not overlap. The iterator borrows
    /// the matcher.
    ///
    /// # Errors
    ///
    /// An item can be an error of the search; see [`Matcher`]. No item follows it.
    pub fn captures_iter<'r, 't>(&'r mut self, text: &'t str) -> CaptureMatches<'r, 't>
        ensures begins { Begins self.entry text.now (captures_iteration result) }
        ensures apart { AreAllApart self.old text.now }
    {
        CaptureMatches {
            matcher: self,
            text,
            cursor: Cursor::first(),
        }
    }

    /// All matches from left to right, without their groups, as an iterator. Matches do not overlap, and an empty match
    /// directly after another match is left out. The iterator borrows the matcher.
    ///
    /// # Errors
    ///
    /// An item can be an error of the search; see [`Matcher`]. No item follows it.
    ///
    /// # Examples
    ///
    /// ```
    /// for found in matcher.find_iter("abb b") { .. } // by `b+`: bytes 1..3, then 4..5
    /// ```
    pub fn find_iter<'r, 't>(&'r mut self, text: &'t str) -> Matches<'r, 't>
        ensures begins { Begins self.entry text.now (matches_iteration result) }
        ensures apart { AreAllApart self.old text.now }
    {
        Matches {
            matcher: self,
            text,
            cursor: Cursor::first(),
        }
    }
}
