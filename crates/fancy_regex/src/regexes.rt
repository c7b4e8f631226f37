//! `Regex`: a pattern that is compiled, with the memory of its searches.

ghost use Rattle.std.specs.Prelude.{◌≡◌, ◌-◌, ◌<◌, ℕ, IfErr, IfOk, IfSome, IsTrue, List, MatchResult, None, Some, length, option_map, suc};
ghost use Rattle.fancy_meaning.specs.Options as plain;
ghost use Rattle.fancy_meaning.specs.Places as places;
ghost use Rattle.fancy_meaning.specs.Premises.{Input};
ghost use Rattle.fancy_matches.specs.Listing as list;
ghost use Rattle.fancy_matches.specs.Matchers as engine;
ghost use Rattle.fancy_matches.specs.Matchers.{cursor_of};
ghost use Rattle.fancy_replace.specs.Pieces.{as_limit};
ghost use Rattle.fancy_matches.specs.declared.matcher.Matcher as engine_regex;
ghost use Rattle.fancy_regex.specs.Builders.{IsBuilt, IsRefused};
ghost use Rattle.fancy_steps.specs.SearchLimits.{EndsBy};
ghost use Rattle.fancy_regex.specs.Errors.{engine_error, limit_told};
ghost use Rattle.fancy_regex.specs.Found.{captures_names, shown_captures};
ghost use Rattle.fancy_regex.specs.Lists.{Begins, HaveNames, GivesCaptures, GivesMatch, captures_iteration, matches_iteration};
ghost use Rattle.fancy_regex.specs.Names.{group_count, names_in};
ghost use Rattle.fancy_regex.specs.Options.{default_options};
ghost use Rattle.fancy_regex.specs.Regexes.{AreAllApart, FindsCaptures, FindsMatch, FindsWhether, IsNoLimitWhereEasy, IsRegexOf, IsReplacement, IsSame, TellsLimits, TellsLimitsInStep, engine_of, names_of, pattern_of, work_in};
ghost use Rattle.fancy_regex.specs.declared.options.RegexOptions.{RegexOptions};

use crate::builder::RegexBuilder;
use crate::error::Error;
use crate::found::Captures;
use crate::iterators::{CaptureMatches, Matches};
use crate::names::{CaptureNames, GroupNames};
use crate::options::RegexOptions;
use crate::replacement::Replacement;
use fancy_expr::error::Error as EngineError;
use fancy_matches::cursor::Cursor;
use fancy_matches::found::{Captures as Groups, Match};
use fancy_matches::matcher::Matcher;
use fancy_replace::replace::replacen;
use std::alloc::{AllocError, Global};
use std::borrow::CowStr;
use std::fmt;
use std::sync::Arc;

/// A compiled pattern, with the memory that its searches use again.
///
/// Positions and lengths are in bytes of the text, from 0. A search needs `&mut self`, so each thread has a regex of its
/// own, by [`Regex::try_clone`].
///
/// # Errors of a search
///
/// A search that exceeds a limit returns `RuntimeError` (of backtracks, steps or branches), `VisitLimitExceeded` or
/// `MemoryLimitExceeded`. If an allocation fails it returns `Memory`. After an error the regex can be used again.
///
/// # Examples
///
/// ```
/// let mut date = Regex::new(alloc, "(?<year>[0-9]{4})-(?<month>[0-9]{2})")?;
/// let found = date.find("on 2026-11-24")?; // 3..10, "2026-11"
/// ```
pub struct Regex {
    pub(crate) pattern: String,
    pub(crate) options: RegexOptions,
    pub(crate) names: Arc<GroupNames>,
    pub(crate) engine: Matcher,
}

// Not derived: whoever owns one calls this drop, and would prove a derived one again (docs/GATE.md).
impl Drop for Regex {
    fn drop(self) {
        let Regex {
            pattern: _,
            options: _,
            names: _,
            engine: _,
        } = self;
    }
}

impl Regex {
    /// Compiles a pattern with the default options. [`RegexBuilder`] has others.
    ///
    /// # Errors
    ///
    /// `ParseError`, with the byte of the pattern and the kind of fault, if it cannot be read. `AnalysisLimitExceeded`,
    /// `CompileError` or `NestLimitExceeded` if it is refused. `Memory` if an allocation fails.
    ///
    /// # Examples
    ///
    /// ```
    /// let mut word = Regex::new(alloc, "[a-z]+")?;
    /// let fault = Regex::new(alloc, "a(b"); // Err(ParseError(3, UnclosedOpenParen))
    /// ```
    pub fn new(alloc: Global, pattern: &str) -> Result<Regex, Error>
        ensures { MatchResult result
            (IsBuilt pattern.now default_options)
            (IsRefused pattern.now default_options) }
    {
        RegexBuilder::new(pattern).build(alloc)
    }

    /// Makes a copy of the regex, for another thread. Both share the program and the names, and each has memory of its own
    /// for its searches.
    ///
    /// # Errors
    ///
    /// `Memory` if an allocation fails; there is no other.
    pub fn try_clone(&self) -> Result<Regex, Error>
        ensures same { MatchResult result (IsSame self.now) (λ e. e ≡ Error.Memory) }
        ensures built { (pattern : List ℕ) (o : RegexOptions)
            → IsBuilt pattern o self.now → IfOk result (IsBuilt pattern o) }
    {
        Ok(Regex {
            pattern: String::from_str(self.names.alloc, &self.pattern)?,
            options: self.options,
            names: Arc::try_clone(&self.names)?,
            engine: self.engine.try_clone()?,
        })
    }

    /// The pattern that the regex was compiled from.
    pub fn as_str(&self) -> &str
        ensures { result.now ≡ pattern_of self.now }
    {
        self.pattern.as_str()
    }

    /// How many groups the pattern has, set in a match or not; group 0, the match, is one of them.
    pub fn captures_len(&self) -> usize
        ensures { result ≡ group_count (names_of self.now) }
    {
        self.names.count
    }

    /// The names of all groups, from group 0 on, as an iterator. An item is `None` if its group has no name.
    pub fn capture_names(&self) -> CaptureNames<'_>
        ensures names { result.names.now ≡ names_of self.now }
        ensures first { result.next ≡ 0 }
    {
        CaptureNames {
            names: &self.names,
            next: 0,
        }
    }

    /// The groups of a match, with their names.
    fn with_names<'t>(&self, groups: Groups<'t>) -> Result<Captures<'t>, AllocError>
        ensures { IfOk result (λ c.
            (c.groups ≡ groups.entry) × (captures_names c ≡ names_of self.now)) }
    {
        Ok(Captures {
            groups,
            names: Arc::try_clone(&self.names)?,
        })
    }

    /// How much the last search did: its visits and backtracks, and one for each eight instructions. It is 0 for a pattern for
    /// which lazy DFAs may search, since that takes linear time.
    pub fn work(&self) -> u64
        ensures { result ≡ work_in self.now }
    {
        self.engine.work()
    }

    /// The groups of a match if there is one, with their names.
    fn found_with_names<'t>(&self, found: Option<Groups<'t>>) -> Result<Option<Captures<'t>>, Error>
        ensures shown { MatchResult result
            (λ c. option_map shown_captures c ≡ option_map engine.shown_captures found.entry)
            (λ e. e ≡ Error.Memory) }
        ensures names { IfOk result (λ found. IfSome found (λ c.
            captures_names c ≡ names_of self.now)) }
    {
        match found {
            Some(groups) => Ok(Some(self.with_names(groups)?)),
            None => Ok(None),
        }
    }

    /// The error of the last search of the engine.
    pub(crate) fn told(&self, error: EngineError) -> Error
        ensures engine { engine_error result ≡ error }
        ensures limit { EndsBy error (engine.passed_in (engine_of self.now))
            → limit_told result ≡ engine.passed_in (engine_of self.now) }
    {
        Error::of_search(error, self.engine.passed())
    }

    /// What a search of the engine found.
    fn matched<'t>(
        &self,
        found: Result<Option<Match<'t>>, EngineError>,
    ) -> Result<Option<Match<'t>>, Error>
        ensures promise { (i : Input)
            → (text : List ℕ)
            → (o : plain.RunOptions)
            → engine.FindsMatch i text o found.entry
            → FindsMatch i text o result }
        ensures easy { (r : engine_regex.Matcher)
            → (text : List ℕ)
            → IfErr found.entry (engine.IsNoLimitWhereEasy r text)
            → IfErr result (λ e. engine.IsNoLimitWhereEasy r text (engine_error e)) }
        ensures limits { engine.StaysIn found.entry (engine_of self.now)
            → TellsLimits result self.now }
    {
        match found {
            Ok(found) => Ok(found),
            Err(error) => Err(self.told(error)),
        }
    }

    /// What a search of the engine found, with the names of the groups.
    fn captured<'t>(
        &self,
        found: Result<Option<Groups<'t>>, EngineError>,
    ) -> Result<Option<Captures<'t>>, Error>
        ensures promise { (i : Input)
            → (text : List ℕ)
            → (o : plain.RunOptions)
            → engine.FindsCaptures i text o found.entry
            → FindsCaptures i text o result }
        ensures easy { (r : engine_regex.Matcher)
            → (text : List ℕ)
            → IfErr found.entry (engine.IsNoLimitWhereEasy r text)
            → IfErr result (λ e. engine.IsNoLimitWhereEasy r text (engine_error e)) }
        ensures names { IfOk result (λ found. IfSome found (λ c.
            captures_names c ≡ names_of self.now)) }
        ensures limits { engine.StaysIn found.entry (engine_of self.now)
            → TellsLimits result self.now }
    {
        match found {
            Ok(found) => self.found_with_names(found),
            Err(error) => Err(self.told(error)),
        }
    }

    /// Takes the regex apart into the compiled tree, which a `Scanner` of fancy_scanner takes.
    pub fn into_engine(self) -> Matcher
        ensures { result ≡ engine_of self }
    {
        let Regex {
            pattern: _,
            options: _,
            names: _,
            engine,
        } = self;
        engine
    }

    /// Whether the text has a match.
    ///
    /// # Errors
    ///
    /// Those of a search; see [`Regex`].
    ///
    /// # Examples
    ///
    /// ```
    /// let mut digit = Regex::new(alloc, "[0-9]")?;
    /// let has_digit = digit.is_match("room 7")?; // true
    /// ```
    pub fn is_match(&mut self, text: &str) -> Result<bool, Error>
        ensures promise { (i : Input)
            → (o : plain.RunOptions)
            → IsRegexOf i text.now o self.old
            → FindsWhether i text.now (list.begun_at o 0) result }
        ensures easy { IfErr result (IsNoLimitWhereEasy self.old text.now) }
        ensures same { IsSame self.old self.new }
        ensures limits { TellsLimits result self.new }
    {
        match self.engine.is_match(text) {
            Ok(found) => Ok(found),
            Err(error) => Err(self.told(error)),
        }
    }

    /// Finds the first match: the one with the earliest start, and of several there the first in the order of
    /// preference, or the longest under `leftmost_longest`. `Ok(None)` means that there is no match.
    ///
    /// # Errors
    ///
    /// Those of a search; see [`Regex`].
    ///
    /// # Examples
    ///
    /// ```
    /// let mut price = Regex::new(alloc, "(?<=\\$)[0-9]+")?;
    /// let found = price.find("tea 2, cake $42")?; // 13..15, "42"
    /// ```
    pub fn find<'t>(&mut self, text: &'t str) -> Result<Option<Match<'t>>, Error>
        ensures promise { (i : Input)
            → (o : plain.RunOptions)
            → IsRegexOf i text.now o self.old
            → FindsMatch i text.now (list.begun_at o 0) result }
        ensures easy { IfErr result (IsNoLimitWhereEasy self.old text.now) }
        ensures same { IsSame self.old self.new }
        ensures limits { TellsLimits result self.new }
    {
        let found = self.engine.find(text);
        self.matched(found)
    }

    /// Finds the first match that starts at `pos` or later. Look-behind and `\b` see the text before `pos`, and `^` holds
    /// where it does in the whole text: at 0, and with the flag `m` after a line feed.
    ///
    /// `pos` is in bytes: the start of a character of the text, or the length of the text. The caller proves this.
    ///
    /// # Errors
    ///
    /// Those of a search; see [`Regex`].
    ///
    /// # Examples
    ///
    /// ```
    /// let mut word = Regex::new(alloc, "[a-z]+")?;
    /// let found = word.find_from_pos("ab cd", 2)?; // 3..5, "cd"
    /// ```
    pub fn find_from_pos<'t>(
        &mut self,
        text: &'t str,
        pos: usize,
    ) -> Result<Option<Match<'t>>, Error>
        requires { IsTrue (places.is_place text.now pos) }
        ensures promise { (i : Input)
            → (o : plain.RunOptions)
            → IsRegexOf i text.now o self.old
            → FindsMatch i text.now (list.begun_at o pos) result }
        ensures easy { IfErr result (IsNoLimitWhereEasy self.old text.now) }
        ensures same { IsSame self.old self.new }
        ensures limits { TellsLimits result self.new }
    {
        let found = self.engine.find_from(text, pos);
        self.matched(found)
    }

    /// Finds the first match, as `find` does, with its groups.
    ///
    /// # Errors
    ///
    /// Those of a search; see [`Regex`].
    ///
    /// # Examples
    ///
    /// ```
    /// let mut date = Regex::new(alloc, "(?<year>[0-9]{4})-([0-9]{2})")?;
    /// if let Some(groups) = date.captures("on 2026-11-24")? {
    ///     let year = groups.name("year"); // Some, 3..7
    ///     let month = groups.get(2);      // Some, 8..10
    /// }
    /// ```
    pub fn captures<'t>(&mut self, text: &'t str) -> Result<Option<Captures<'t>>, Error>
        ensures promise { (i : Input)
            → (o : plain.RunOptions)
            → IsRegexOf i text.now o self.old
            → FindsCaptures i text.now (list.begun_at o 0) result }
        ensures easy { IfErr result (IsNoLimitWhereEasy self.old text.now) }
        ensures names { IfOk result (λ found. IfSome found (λ c.
            captures_names c ≡ names_of self.old)) }
        ensures same { IsSame self.old self.new }
        ensures limits { TellsLimits result self.new }
    {
        let found = self.engine.captures(text);
        self.captured(found)
    }

    /// Finds the first match from `pos` on, as `find_from_pos` does, with its groups.
    ///
    /// # Errors
    ///
    /// Those of a search; see [`Regex`].
    pub fn captures_from_pos<'t>(
        &mut self,
        text: &'t str,
        pos: usize,
    ) -> Result<Option<Captures<'t>>, Error>
        requires { IsTrue (places.is_place text.now pos) }
        ensures promise { (i : Input)
            → (o : plain.RunOptions)
            → IsRegexOf i text.now o self.old
            → FindsCaptures i text.now (list.begun_at o pos) result }
        ensures easy { IfErr result (IsNoLimitWhereEasy self.old text.now) }
        ensures names { IfOk result (λ found. IfSome found (λ c.
            captures_names c ≡ names_of self.old)) }
        ensures same { IsSame self.old self.new }
        ensures limits { TellsLimits result self.new }
    {
        let found = self.engine.captures_from(text, pos);
        self.captured(found)
    }

    /// Finds the next match of a list, with its groups, and moves `cursor` after it. `None` means that the list has
    /// ended; `Cursor::first()` begins one. [`Regex::captures_iter`] is an iterator over the same list.
    ///
    /// # Errors
    ///
    /// The item is an error of the search; see [`Regex`]. The list has ended then.
    pub fn next_captures<'t>(
        &mut self,
        text: &'t str,
        cursor: &mut Cursor,
    ) -> Option<Result<Captures<'t>, Error>>
        ensures list { (i : Input)
            → (o : plain.RunOptions)
            → IsRegexOf i text.now o self.old
            → GivesCaptures i text.now o (cursor_of cursor.old) result (cursor_of cursor.new) }
        ensures easy { IfSome result (λ item. IfErr item (IsNoLimitWhereEasy self.old text.now)) }
        ensures names { HaveNames (names_of self.old) result }
        ensures further { IfSome
            result
            (λ item. suc (length text.now) - cursor.new.pos
            < suc (length text.now) - cursor.old.pos) }
        ensures same { IsSame self.old self.new }
        ensures limits { TellsLimitsInStep result self.new }
    {
        match self.engine.next_captures(text, cursor) {
            None => None,
            Some(Ok(groups)) => match self.with_names(groups) {
                Ok(captures) => Some(Ok(captures)),
                Err(error) => {
                    cursor.end();
                    Some(Err(Error::from(error)))
                }
            },
            Some(Err(error)) => Some(Err(self.told(error))),
        }
    }

    /// Finds the next match of a list, without its groups, and moves `cursor` after it. `None` means that the list has
    /// ended; `Cursor::first()` begins one. [`Regex::find_iter`] is an iterator over the same list.
    ///
    /// # Errors
    ///
    /// The item is an error of the search; see [`Regex`]. The list has ended then.
    pub fn next_match<'t>(
        &mut self,
        text: &'t str,
        cursor: &mut Cursor,
    ) -> Option<Result<Match<'t>, Error>>
        ensures list { (i : Input)
            → (o : plain.RunOptions)
            → IsRegexOf i text.now o self.old
            → GivesMatch i text.now o (cursor_of cursor.old) result (cursor_of cursor.new) }
        ensures easy { IfSome result (λ item. IfErr item (IsNoLimitWhereEasy self.old text.now)) }
        ensures further { IfSome
            result
            (λ item. suc (length text.now) - cursor.new.pos
            < suc (length text.now) - cursor.old.pos) }
        ensures same { IsSame self.old self.new }
        ensures limits { TellsLimitsInStep result self.new }
    {
        match self.engine.next_match(text, cursor) {
            None => None,
            Some(Ok(found)) => Some(Ok(found)),
            Some(Err(error)) => Some(Err(self.told(error))),
        }
    }

    /// All matches from left to right, each with its groups, as an iterator. Matches do not overlap. The iterator borrows
    /// the regex.
    ///
    /// # Errors
    ///
    /// An item can be an error of the search; see [`Regex`]. No item follows it.
    pub fn captures_iter<'r, 't>(&'r mut self, text: &'t str) -> CaptureMatches<'r, 't>
        ensures begins { Begins self.entry text.now (captures_iteration result) }
        ensures apart { AreAllApart self.old text.now }
    {
        CaptureMatches {
            regex: self,
            text,
            cursor: Cursor::first(),
        }
    }

    /// All matches from left to right, without their groups, as an iterator. Matches do not overlap, and an empty match
    /// directly after another match is left out. The iterator borrows the regex.
    ///
    /// # Errors
    ///
    /// An item can be an error of the search; see [`Regex`]. No item follows it.
    ///
    /// # Examples
    ///
    /// ```
    /// let mut number = Regex::new(alloc, "[0-9]+")?;
    /// for found in number.find_iter("1, 20 and 3") {
    ///     let range = found?.range(); // 0..1, then 3..5, then 10..11
    /// }
    /// ```
    pub fn find_iter<'r, 't>(&'r mut self, text: &'t str) -> Matches<'r, 't>
        ensures begins { Begins self.entry text.now (matches_iteration result) }
        ensures apart { AreAllApart self.old text.now }
    {
        Matches {
            regex: self,
            text,
            cursor: Cursor::first(),
        }
    }

    /// The text with its first match replaced, or the text itself, borrowed, if there is no match. [`Replacement`] says
    /// what `by` can be.
    ///
    /// # Errors
    ///
    /// Those of a search; see [`Regex`].
    pub fn replace<'t, R: Replacement + Drop>(
        &mut self,
        text: &'t str,
        by: R,
    ) -> Result<CowStr<'t, Global>, Error>
        ensures { IsReplacement
            self.old text.now (Some 1)
            (R.replacement_text by (names_in (names_of self.old))) result self.new }
    {
        self.replacen(text, 1, by)
    }

    /// The text with all its matches replaced, or the text itself, borrowed, if there is no match. [`Replacement`] says
    /// what `by` can be: in a text, `$1` and `$name` are groups, and `$$` is a dollar sign.
    ///
    /// # Errors
    ///
    /// Those of a search; see [`Regex`].
    ///
    /// # Examples
    ///
    /// ```
    /// let mut date = Regex::new(alloc, "(?<year>[0-9]{4})-(?<month>[0-9]{2})")?;
    /// let turned = date.replace_all("2026-11 and 2027-01", "$month/$year")?; // "11/2026 and 01/2027"
    /// ```
    pub fn replace_all<'t, R: Replacement + Drop>(
        &mut self,
        text: &'t str,
        by: R,
    ) -> Result<CowStr<'t, Global>, Error>
        ensures { IsReplacement
            self.old text.now None
            (R.replacement_text by (names_in (names_of self.old))) result self.new }
    {
        self.replacen(text, 0, by)
    }

    /// The text with its first `limit` matches replaced, all of them if `limit` is 0, or the text itself, borrowed, if
    /// there is no match.
    ///
    /// # Errors
    ///
    /// Those of a search; see [`Regex`].
    pub fn replacen<'t, R: Replacement + Drop>(
        &mut self,
        text: &'t str,
        limit: usize,
        by: R,
    ) -> Result<CowStr<'t, Global>, Error>
        ensures { IsReplacement
            self.old text.now (as_limit limit)
            (R.replacement_text by (names_in (names_of self.old))) result self.new }
    {
        let alloc = self.names.alloc;
        let replacer = by.replacer(alloc, &self.names.numbers)?;
        match replacen(alloc, &mut self.engine, text, limit, &replacer) {
            Ok(text) => Ok(text),
            Err(error) => Err(self.told(error)),
        }
    }
}

impl fmt::Display for Regex {
    ghost output = { λ r. Some (pattern_of r) };

    /// The pattern.
    fn fmt<W: fmt::Write>(&self, f: &mut fmt::Formatter<W>) -> fmt::Result {
        let pattern = self.as_str();
        write!(f, "{pattern}")
    }
}

impl fmt::Debug for Regex {
    /// The pattern.
    fn fmt<W: fmt::Write>(&self, f: &mut fmt::Formatter<W>) -> fmt::Result {
        write!(f, "{self}")
    }
}
