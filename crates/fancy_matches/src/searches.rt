//! Searches by a compiled tree: the first match from a place on, and the next one of a list.

ghost use Rattle.std.specs.Prelude.{◌≡◌, ◌-◌, ◌<◌, ℕ, [], IfOk, IfSome, IsTrue, List, None, length, suc};
ghost use Rattle.fancy_meaning.specs.Fits.{run_fits};
ghost use Rattle.fancy_meaning.specs.MatchState.{Span};
ghost use Rattle.fancy_meaning.specs.Premises.{Input};
ghost use Rattle.fancy_steps.specs.SearchLimits.{StaysWithin};
ghost use Rattle.fancy_steps.specs.Tasks.{options_of as run_options_of, task_of};
ghost use Rattle.fancy_steps.specs.Outcomes.{first_pair};
ghost use Rattle.fancy_search.specs.Scratches.{Suits, limits_of, passed_of};
ghost use Rattle.fancy_search.specs.Searches.{HasSource, IsCompiledFrom, program};
ghost use Rattle.fancy_matches.specs.Matchers.{EndsOn, Shows, StepsBy, StepsToMatch, numbers_in, shown_captures, shown_match, span_of, cursor_of, with_numbers, with_span};

use crate::cursor::Cursor;
use crate::found::{Captures, Match};
use fancy_characters::places::is_place;
use fancy_expr::error::Error;
use fancy_search::scratch::Scratch;
use fancy_search::search::Compiled;
use fancy_vm::vm::RunOptions;
use std::alloc::Global;

/// What a search reports of a match: where it is, or all its groups.
pub trait FromSearch<'t>: Sized + Drop {
    // what is shown of one
    ghost Shown: { Type 0 };

    ghost show: { Self → Self.Shown };

    // what that has to be, by the text and the numbers of the match
    ghost seen: { List ℕ → List ℕ → Self.Shown };

    // where the match is
    ghost span: { Self → Span };

    /// What is reported of the first match from byte `options.pos` of the text on; `None` if there is no match.
    ///
    /// # Errors
    ///
    /// Those of `next_found`.
    fn search(
        alloc: Global,
        compiled: &Compiled,
        text: &'t str,
        options: &RunOptions,
        scratch: &mut Scratch,
    ) -> Result<Option<Self>, Error>
        requires fits { IsTrue (run_fits (task_of (program compiled.now) text.now options.now)) }
        requires source { HasSource compiled.now }
        requires suits { Suits compiled.now scratch.old }
        ensures promise { (i : Input)
            → IsCompiledFrom i compiled.now
            → Shows i text.now (run_options_of options.now) show (seen text.now) result }
        ensures on { IfOk result (λ found. IfSome found (λ x.
            EndsOn text.now options.now.pos (span x))) }
        // what is shown tells where the match is
        ensures spans { IfOk result (λ found. IfSome found (λ x. (numbers : List ℕ)
            → show x ≡ seen text.now numbers
            → span x ≡ first_pair numbers)) }
        ensures limits { limits_of scratch.new ≡ limits_of scratch.old }
        ensures stays { StaysWithin result (passed_of scratch.new) }
        ensures suits { Suits compiled.now scratch.new };

    /// Where it begins and ends, in bytes of the text.
    fn span(&self) -> (usize, usize)
        ensures { result ≡ span self.now };
}

/// Where it is.
impl<'t> FromSearch<'t> for Match<'t> {
    ghost Shown = { List ℕ × Span };

    ghost show = { shown_match };

    ghost seen = { with_span };

    ghost span = { span_of };

    fn search(
        alloc: Global,
        compiled: &Compiled,
        text: &'t str,
        options: &RunOptions,
        scratch: &mut Scratch,
    ) -> Result<Option<Match<'t>>, Error> {
        match compiled.find(alloc, text, options, scratch) {
            Ok(None) => Ok(None),
            Ok(Some((start, end))) => Ok(Some(Match { text, start, end })),
            Err(error) => Err(error),
        }
    }

    fn span(&self) -> (usize, usize) {
        (self.start, self.end)
    }
}

/// All its groups.
impl<'t> FromSearch<'t> for Captures<'t> {
    ghost Shown = { List ℕ × List ℕ };

    ghost show = { shown_captures };

    ghost seen = { with_numbers };

    ghost span = { λ c. first_pair (numbers_in c) };

    fn search(
        alloc: Global,
        compiled: &Compiled,
        text: &'t str,
        options: &RunOptions,
        scratch: &mut Scratch,
    ) -> Result<Option<Captures<'t>>, Error> {
        match compiled.search(alloc, text, options, scratch) {
            Ok(None) => Ok(None),
            Ok(Some(numbers)) => Ok(Some(Captures { text, numbers })),
            Err(error) => Err(error),
        }
    }

    fn span(&self) -> (usize, usize) {
        (self.numbers[0], self.numbers[1])
    }
}

/// What is reported of the next match of a list: a `Match`, or `Captures` with all groups. `None` if the list has ended.
///
/// `cursor` says at which byte of the text each search begins, and whether it is continued; `options` say the rest, and
/// fit the empty text. `cursor` then moves after that match, or stays before the search that failed. `scratch` is memory
/// that searches use again: it is new, or was used for this tree alone, or has forgotten its engine.
///
/// # Errors
///
/// `RuntimeError` if a search exceeds a limit of backtracks, steps or branches. `Memory` if an allocation fails, or if a
/// search exceeds a limit of `scratch`, which `Scratch::passed` then names.
///
/// # Examples
///
/// ```
/// // `b+` in "abb b"
/// let mut cursor = Cursor::first();
/// let first = next_match(alloc, &compiled, text, &options, &mut cursor, &mut scratch)?; // bytes 1..3
/// let second = next_match(alloc, &compiled, text, &options, &mut cursor, &mut scratch)?; // bytes 4..5
/// let third = next_match(alloc, &compiled, text, &options, &mut cursor, &mut scratch)?; // None
/// ```
pub fn next_found<'t, F: FromSearch<'t>>(
    alloc: Global,
    compiled: &Compiled,
    text: &'t str,
    options: &RunOptions,
    cursor: &mut Cursor,
    scratch: &mut Scratch,
) -> Result<Option<F>, Error>
    requires fits { IsTrue (run_fits (task_of (program compiled.now) [] options.now)) }
    requires source { HasSource compiled.now }
    requires suits { Suits compiled.now scratch.old }
    ensures steps { (i : Input)
        → IsCompiledFrom i compiled.now
        → StepsBy i text.now (run_options_of options.now) F.show (F.seen text.now)
        (cursor_of cursor.old) result (cursor_of cursor.new) }
    ensures further { IfOk result (λ found. IfSome found (λ x.
        suc (length text.now) - cursor.new.pos < suc (length text.now) - cursor.old.pos)) }
    ensures limits { limits_of scratch.new ≡ limits_of scratch.old }
    ensures stays { passed_of scratch.old ≡ None → StaysWithin result (passed_of scratch.new) }
    ensures suits { Suits compiled.now scratch.new }
{
    'searches: while is_place(text.as_bytes(), cursor.pos) {
        let here = cursor.options(options);
        match F::search(alloc, compiled, text, &here, scratch)? {
            None => {
                cursor.end();
                return Ok(None);
            }
            Some(found) => {
                let (start, end) = found.span();
                if cursor.pass(text, start, end) {
                    return Ok(Some(found));
                }
            }
        }
    }
    Ok(None)
}

/// The next match of a list, without its groups, as `next_found` finds it. `None` if the list has ended.
///
/// # Errors
///
/// Those of `next_found`.
pub fn next_match<'t>(
    alloc: Global,
    compiled: &Compiled,
    text: &'t str,
    options: &RunOptions,
    cursor: &mut Cursor,
    scratch: &mut Scratch,
) -> Result<Option<Match<'t>>, Error>
    requires fits { IsTrue (run_fits (task_of (program compiled.now) [] options.now)) }
    requires source { HasSource compiled.now }
    requires suits { Suits compiled.now scratch.old }
    ensures steps { (i : Input)
        → IsCompiledFrom i compiled.now
        → StepsToMatch i text.now (run_options_of options.now)
        (cursor_of cursor.old) result (cursor_of cursor.new) }
    ensures further { IfOk result (λ found. IfSome found (λ m.
        suc (length text.now) - cursor.new.pos < suc (length text.now) - cursor.old.pos)) }
    ensures limits { limits_of scratch.new ≡ limits_of scratch.old }
    ensures stays { passed_of scratch.old ≡ None → StaysWithin result (passed_of scratch.new) }
    ensures suits { Suits compiled.now scratch.new }
{
    next_found(alloc, compiled, text, options, cursor, scratch)
}
