//! A scan of one text, which keeps what is found of each tree from one position to the next.

ghost use Rattle.std.specs.Prelude.{◌≡◌, ◌≢◌, ◌<◌, ◌^◌, ℕ, IfErr, IfOk, IfSome, IsTrue, List, None, OnErr, OnOk, length, false, option_map, true};
ghost use Rattle.std.specs.Option.{option_copied};
ghost use Rattle.fancy_meaning.specs.Places as places;
ghost use Rattle.fancy_matches.specs.Listing.{begun_at};
ghost use Rattle.fancy_matches.specs.Matchers.{FindsCaptures, shown_match};
ghost use Rattle.fancy_scanner.specs.Kept.{kept_captures, shown_whole};
ghost use Rattle.fancy_scanner.specs.Limits.{TellsPassed, passed_at, passed_from};
ghost use Rattle.fancy_scanner.specs.Scanning.{AreEasy, AreEasyRuns, IsRuleAt, IsStoppedByDelegates, Rule, Scans, trees_of};
ghost use Rattle.fancy_scanner.specs.Scans as scans;
ghost use Rattle.fancy_scanner.specs.Scans.{GoesOn, HasRoom, IsScanOf, KeepsHeld, answers_of, captures_result, scan_result, text_of};
ghost use Rattle.fancy_steps.specs.SearchLimits.{EndsBy};

use crate::answers::Answer;
use crate::scan_cache::ScanCache;
use crate::scan_limit::limit_of;
use crate::scanner::{Stopped, TreeScanner};
use fancy_expr::error::Error;
use fancy_matches::found::{Captures, Match};
use fancy_vm::vm::SearchLimit;
use std::alloc::AllocError;

/// A match of one of the trees, without its groups.
#[derive(Clone, Copy)]
pub struct TreeMatch<'t> {
    /// Which tree it is of: how many were added before it.
    pub index: usize,
    pub whole: Match<'t>,
}

/// What the searches for the trees of a scan found from a position on.
#[derive(Clone, Copy)]
pub struct ScanStep<'t> {
    /// Of the first match of each tree, the one that starts first. If several start there, it is the match of the tree
    /// that was added first. Trees whose search exceeded a limit do not count. `TreeScan::captures` has the groups.
    pub found: Option<TreeMatch<'t>>,
    /// The first tree whose search exceeded a limit, if there is one.
    pub stopped: Option<Stopped>,
}

/// A scan of one text for the trees of a scanner, from position to position, as a highlighter makes it.
///
/// What is found of a tree is kept as long as it holds, if `TreeScanner::add_tree` or `push` added the tree. So a scan from
/// left to right reads the text once for each tree, and not once for each position. A tree with `\G` or of an anchored
/// search is searched for at each position, and one with `\K` until it has no more match.
#[derive(Drop)]
pub struct TreeScan<'r, 't> {
    pub(crate) scanner: &'r mut TreeScanner,
    pub(crate) text: &'t str,
    pub(crate) cache: &'r mut ScanCache<'t>,
}

impl<'r, 't> TreeScan<'r, 't> {
    /// Returns the match that starts first, of the first matches of all trees from `pos` on. If several start there, it
    /// is the match of the tree that was added first. `TreeScanner::find_from` finds the same.
    ///
    /// `pos` is in bytes: the start of a character of the text, or the length of the text. The caller proves this. If
    /// the search for a tree exceeds a limit, the others are searched for all the same, and `stopped` has the first
    /// such tree.
    ///
    /// # Errors
    ///
    /// `Memory` if an allocation fails; there is no other. A limit is no error here: `stopped` reports it.
    pub fn find_from(&mut self, pos: usize) -> Result<ScanStep<'t>, Error>
        requires { IsTrue (places.is_place (text_of self.old) pos) }
        ensures promise { (rules : List Rule)
            → IsScanOf rules self.old
            → Scans (text_of self.old) pos rules (scan_result self.new result) }
        ensures whole { IfOk result (λ step. IfSome step.found
            (scans.IsWholeIn (answers_of self.new))) }
        ensures easy { (rules : List Rule)
            → IsScanOf rules self.old → AreEasy (text_of self.old) rules
            → length (text_of self.old) < 2 ^ 60 → IfOk result (λ step. step.stopped ≡ None) }
        ensures easy_run { (rules : List Rule)
            → IsScanOf rules self.old → AreEasyRuns (text_of self.old) rules
            → length (text_of self.old) < 2 ^ 60
            → IfOk result (λ step. IsStoppedByDelegates step.stopped) }
        ensures stays { IfOk result (λ step. TellsPassed
            (passed_from pos self.new) (option_map (λ m. m.index) step.found) step.stopped) }
        ensures held { KeepsHeld pos self.old self.new }
        ensures goes_on { GoesOn self.old self.new }
    {
        self.make_room()?;
        let mut found = None;
        let mut stopped = None;
        let mut index = self.scanner.tree_count();
        'trees: while index > 0 {
            index -= 1;
            match self.look(index, pos) {
                Ok(None) => {}
                Ok(Some(whole)) => found = Some(earlier(TreeMatch { index, whole }, found)),
                Err(error) => match limit_of(&error, self.passed(index)) {
                    Some(limit) => stopped = Some(Stopped { index, limit }),
                    None => return Err(error),
                },
            }
        }
        Ok(ScanStep { found, stopped })
    }

    /// The last match that was found of the tree with this index, with its groups; after `find_from` found a match,
    /// that match. `None` if the tree was not searched for, or if its last search found none.
    pub fn captures(&self, index: usize) -> Option<&Captures<'t>>
        ensures { option_copied result ≡ kept_captures (answers_of self.now) index }
    {
        self.cache.captures(index)
    }

    /// How many trees there are.
    pub fn tree_count(&self) -> usize
        ensures { result ≡ length (trees_of self.now.scanner.now) }
    {
        self.scanner.tree_count()
    }

    /// The text that is scanned.
    pub fn text(&self) -> &'t str
        ensures { result.now ≡ text_of self.now }
    {
        self.text
    }

    /// The match that is kept of the tree with this number, without its groups.
    fn whole(&self, index: usize) -> Option<Match<'t>>
        ensures { option_map shown_match result
            ≡ option_map shown_whole (kept_captures (answers_of self.now) index) }
    {
        match self.captures(index) {
            None => None,
            Some(captures) => Some(captures.whole()),
        }
    }

    /// The limit of its delegates that the last search for the tree with this index exceeded.
    pub(crate) fn passed(&self, index: usize) -> Option<SearchLimit>
        requires { index < length (trees_of self.now.scanner.now) }
        ensures { result ≡ passed_at self.now.scanner.now index }
    {
        self.scanner.passed(index)
    }

    /// A place for the answer of each tree.
    pub(crate) fn make_room(&mut self) -> Result<(), AllocError>
        ensures room { OnOk result (HasRoom self.new) }
        ensures refused { OnErr result (0 < length (trees_of self.old.scanner.now)) }
        ensures held { (pos : ℕ) → KeepsHeld pos self.old self.new }
        ensures goes_on { GoesOn self.old self.new }
    {
        let count = self.scanner.tree_count();
        'trees: while self.cache.answers.len() < count {
            self.cache.answers.push(None)?;
        }
        Ok(())
    }

    /// What is kept of the tree with this number is what a search for it from this place on answers.
    fn holds(&self, index: usize, pos: usize) -> bool
        requires room { HasRoom self.now }
        requires within { index < length (trees_of self.now.scanner.now) }
        ensures { result ≡ scans.is_held self.now index pos }
    {
        let reuse = self.scanner.reuse(index);
        match &self.cache.answers[index] {
            None => false,
            Some(answer) => answer.holds_at(pos, reuse),
        }
    }

    /// The first match of the tree with this number from this place on; its groups are kept.
    pub(crate) fn look(&mut self, index: usize, pos: usize) -> Result<Option<Match<'t>>, Error>
        requires place { IsTrue (places.is_place (text_of self.old) pos) }
        requires room { HasRoom self.old }
        requires within { index < length (trees_of self.old.scanner.now) }
        ensures promise { (rules : List Rule) (r : Rule)
            → IsScanOf rules self.old → IsRuleAt rules index r
            → FindsCaptures r.input (text_of self.old) (begun_at r.options pos)
            (captures_result self.new index result) }
        ensures whole { IfOk result (λ found. option_map shown_match found
            ≡ option_map shown_whole (kept_captures (answers_of self.new) index)) }
        ensures others { scans.KeepsOthers index self.old self.new }
        ensures held { KeepsHeld pos self.old self.new }
        ensures kept { OnOk result (scans.is_held self.new index pos ≡ true) }
        ensures failed { IfErr result (λ e. (scans.is_held self.new index pos ≡ false)
            × EndsBy e (passed_at self.new.scanner.now index)) }
        ensures limits { (k : ℕ) → k ≢ index
            → passed_at self.new.scanner.now k ≡ passed_at self.old.scanner.now k }
        ensures goes_on { GoesOn self.old self.new }
    {
        if self.holds(index, pos) {
            return Ok(self.whole(index));
        }
        match self.scanner.captures_of(index, self.text, pos) {
            Ok(found) => {
                self.cache.answers[index] = Some(Answer { from: pos, found });
                Ok(self.whole(index))
            }
            Err(error) => Err(error),
        }
    }
}

/// Of two matches the one that begins first, and of equals the first one.
pub(crate) fn earlier<'t>(one: TreeMatch<'t>, later: Option<TreeMatch<'t>>) -> TreeMatch<'t>
    ensures { result ≡ scans.earlier_match one.entry later.entry }
{
    match later {
        Some(other) => {
            if other.whole.start() < one.whole.start() {
                other
            } else {
                one
            }
        }
        None => one,
    }
}
