//! The lines in which a regex has a match.

ghost use Rattle.std.specs.Prelude.{◌≡◌, false, true, ℕ, IfSome, List, option_map, string_bytes};
ghost use Rattle.fancy_meaning.specs.Options as plain;
ghost use Rattle.fancy_meaning.specs.Premises.{Input};
ghost use Rattle.fancy_regex.specs.Regexes.{IsSame};
ghost use Rattle.fancy_grep.specs.Context.{AreRising, numbers_of};
ghost use Rattle.fancy_literals.specs.Required.{IsRequired, required_of};
ghost use Rattle.fancy_grep.specs.Matching.{Grows, Helps, IsRegexFor, Selects, TakesLine, TellsMatch, has_match, is_chosen, searched};
ghost use Rattle.fancy_grep.specs.Lines.{line_of};
ghost use Rattle.fancy_grep.specs.Standing.{IsLineIn};
ghost use Rattle.fancy_grep.specs.Occurrences.{sought_in};

use crate::budget::Budget;
use crate::lines::{Line, Lines};
use crate::occurrences::Occurrences;
use fancy_literals::required::Required;
use fancy_regex::{Error, Regex};
use std::alloc::Global;

/// Why the search of a text ends at a line.
#[derive(Drop)]
pub enum Cause {
    /// The search of the line failed.
    Search(Error),
    /// The searches of the lines before it used the budget up, and it was not searched.
    UsedUp,
}

/// A line at which the search of a text ends.
#[derive(Drop)]
pub struct Failure {
    /// The number of the line.
    pub number: usize,
    pub cause: Cause,
}

impl Failure {
    /// How many lines were searched up to here, with the one that failed.
    pub(crate) fn searched(&self) -> usize {
        match self.cause {
            Cause::Search(_) => self.number,
            Cause::UsedUp => self.number.saturating_sub(1),
        }
    }
}

/// The lines of a text that are selected, in order: all of them, or those before the line at which the search ended.
#[derive(Drop)]
pub struct MatchingLines<'t> {
    pub lines: Vec<Line<'t>>,
    pub failure: Option<Failure>,
}

/// Which lines are selected.
#[derive(Clone, Copy)]
pub struct Choice {
    /// Those without a match.
    pub inverted: bool,
    /// A carriage return at the end of a line is no part of what is searched.
    pub has_returns: bool,
}

impl Choice {
    /// What of a line is searched.
    pub(crate) fn searched<'t>(self, line: Line<'t>) -> Line<'t>
        ensures text { result.text.now ≡ searched self line.entry.text.now }
        ensures stands { (text : List ℕ)
            → IsLineIn text (line_of line.entry)
            → IsLineIn text (line_of result) }
    {
        if !self.has_returns {
            return line;
        }
        match line.text.strip_suffix('\r') {
            Some(text) => Line { text, ..line },
            None => line,
        }
    }
}

/// Whether a line is selected, by whether it has a match.
fn is_chosen(inverted: bool, found: bool) -> bool
    ensures { result ≡ is_chosen inverted found }
{
    if inverted { !found } else { found }
}

/// Whether a line may have a match: what is looked for may be in it, or nothing is.
fn may_match(sought: &mut Option<Occurrences<'_, '_>>, line: Line<'_>) -> bool
    ensures none { (i : Input)
        → (o : List ℕ → plain.RunOptions)
        → Helps i line.entry sought.old
        → result ≡ false
        → has_match i o line.entry.text.now ≡ false }
    ensures sought { sought_in sought.new ≡ sought_in sought.old }
{
    match sought {
        Some(occurrences) => occurrences.may_stand_in(line),
        None => true,
    }
}

/// Whether a line has a match. It is not searched if what is looked for is not in it; else the budget is less by what the
/// search did.
fn has_match(
    regex: &mut Regex,
    sought: &mut Option<Occurrences<'_, '_>>,
    line: Line<'_>,
    choice: Choice,
    budget: &mut Budget,
) -> Result<bool, Error>
    ensures promise { (i : Input)
        → (o : List ℕ → plain.RunOptions)
        → IsRegexFor i o regex.old
        → Helps i line.entry sought.old
        → TellsMatch i o (searched choice line.entry.text.now) result }
    ensures sought { sought_in sought.new ≡ sought_in sought.old }
    ensures same { IsSame regex.old regex.new }
{
    let part = choice.searched(line);
    if may_match(sought, part) {
        let found = regex.is_match(part.text);
        budget.spend(regex.work());
        found
    } else {
        Ok(false)
    }
}

/// Searches a line, and adds it where it is selected.
fn take<'t>(
    lines: &mut Vec<Line<'t>>,
    regex: &mut Regex,
    sought: &mut Option<Occurrences<'_, '_>>,
    line: Line<'t>,
    choice: Choice,
    budget: &mut Budget,
) -> Result<(), Error>
    ensures promise { (i : Input)
        → (o : List ℕ → plain.RunOptions)
        → IsRegexFor i o regex.old
        → Helps i line.entry sought.old
        → TakesLine i o choice line.entry lines.old.items result lines.new.items }
    ensures grows { Grows line.entry lines.old.items lines.new.items }
    ensures sought { sought_in sought.new ≡ sought_in sought.old }
    ensures same { IsSame regex.old regex.new }
{
    let found = has_match(regex, sought, line, choice, budget)?;
    if is_chosen(choice.inverted, found) {
        lines.push(line)?;
    }
    Ok(())
}

/// The lines of a text in which the regex has a match, or if that is chosen those in which it has none, and `most` at most.
///
/// Each line is searched as a text of its own, without its `\n`, and without a `\r` before this if that is chosen. Where it is known what each match takes, this is looked
/// for in the whole text, and the lines without it are not searched. An error of a search, or out of memory, ends
/// the list at that line. So does a budget that the searches of the lines before it used up.
pub fn matching_lines<'t>(
    alloc: Global,
    regex: &mut Regex,
    required: Option<&Required>,
    text: &'t str,
    choice: Choice,
    most: usize,
    budget: &mut Budget,
) -> MatchingLines<'t>
    ensures promise { (i : Input)
        → (o : List ℕ → plain.RunOptions)
        → IsRegexFor i o regex.old
        → IfSome required.entry (λ r. IsRequired (required_of r.now) true i)
        → Selects i o choice text.now most budget.new.left result }
    ensures rising { AreRising 1 (numbers_of result.lines.items) }
    ensures same { IsSame regex.old regex.new }
{
    let mut lines = Vec::new(alloc);
    let mut occurrences = occurrences_of(required, text);
    for line in Lines::new(text) {
        let number = line.number;
        if lines.len() >= most {
            return MatchingLines {
                lines,
                failure: None,
            };
        }
        if budget.is_used_up() {
            let cause = Cause::UsedUp;
            return MatchingLines {
                lines,
                failure: Some(Failure { number, cause }),
            };
        }
        if let Err(error) = take(&mut lines, regex, &mut occurrences, line, choice, budget) {
            let cause = Cause::Search(error);
            let failure = Some(Failure { number, cause });
            return MatchingLines { lines, failure };
        }
    }
    MatchingLines {
        lines,
        failure: None,
    }
}

/// Where what is required is in the text, if something is.
fn occurrences_of<'t, 'r>(
    required: Option<&'r Required>,
    text: &'t str,
) -> Option<Occurrences<'t, 'r>>
    ensures { sought_in result
        ≡ option_map (λ r. (required_of r.now, text.entry.now)) required.entry }
{
    match required {
        Some(required) => Some(Occurrences::new(required, text)),
        None => None,
    }
}
