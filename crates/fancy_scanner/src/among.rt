//! A scan for some of the trees of a scanner, in an order of their own; and one more tree for a scan.

ghost use Rattle.std.specs.Prelude.{◌≡◌, ◌<◌, ◌^◌, ◌++◌, ◌∷◌, [], ℕ, IfOk, IfSome, IsTrue, List, None, OnErr, OnOk, length, option_map};
ghost use Rattle.fancy_meaning.specs.Places as places;
ghost use Rattle.fancy_scanner.specs.Among.{ArePicked, answers_among, among_result};
ghost use Rattle.fancy_scanner.specs.Limits.{AreDistinct, TellsPassed, passed_among};
ghost use Rattle.fancy_scanner.specs.Scanning.{AreEasy, AreEasyRuns, IsStoppedByDelegates, IsTreeOf, Rule, Scans};
ghost use Rattle.fancy_scanner.specs.Scans as scans;
ghost use Rattle.fancy_scanner.specs.Scans.{GoesOn, KeepsLoans, IsScanOf, KeepsHeld, text_of};

use crate::scan_limit::limit_of;
use crate::scan_text::{ScanStep, TreeMatch, TreeScan, earlier};
use crate::scanner::{ScanTree, Stopped};
use fancy_expr::error::Error;
use std::alloc::AllocError;

impl<'t> TreeScan<'_, 't> {
    /// Does what `find_from` does for some of the trees: `order` has their indices. If several matches start first, it
    /// is the match of the tree that is first in `order`. An index that no tree has is left out.
    ///
    /// The indices in the result are positions in `order`, so `captures(order[index])` has the groups. `pos` is in
    /// bytes: the start of a character of the text, or the length of the text. The caller proves this.
    ///
    /// # Errors
    ///
    /// `Memory` if an allocation fails; there is no other. A limit is no error here: `stopped` reports it.
    pub fn find_among(&mut self, order: &[usize], pos: usize) -> Result<ScanStep<'t>, Error>
        requires { IsTrue (places.is_place (text_of self.old) pos) }
        ensures promise { (rules picked : List Rule)
            → IsScanOf rules self.old → ArePicked rules order.now picked
            → Scans (text_of self.old) pos picked (among_result self.new order.now result) }
        ensures whole { IfOk result (λ step. IfSome step.found
            (scans.IsWholeIn (answers_among self.new order.now))) }
        ensures easy { (rules picked : List Rule)
            → IsScanOf rules self.old → ArePicked rules order.now picked
            → AreEasy (text_of self.old) picked → length (text_of self.old) < 2 ^ 60
            → IfOk result (λ step. step.stopped ≡ None) }
        ensures easy_run { (rules picked : List Rule)
            → IsScanOf rules self.old → ArePicked rules order.now picked
            → AreEasyRuns (text_of self.old) picked → length (text_of self.old) < 2 ^ 60
            → IfOk result (λ step. IsStoppedByDelegates step.stopped) }
        // of a number that stands twice, each search may end in another way
        ensures stays { AreDistinct order.now → IfOk result (λ step. TellsPassed
            (passed_among pos order.now self.new)
            (option_map (λ m. m.index) step.found) step.stopped) }
        ensures held { KeepsHeld pos self.old self.new }
        ensures goes_on { GoesOn self.old self.new }
    {
        if order.is_empty() {
            return Ok(ScanStep {
                found: None,
                stopped: None,
            });
        }
        self.make_room()?;
        let count = self.tree_count();
        let mut found = None;
        let mut stopped = None;
        let mut index = order.len();
        'trees: while index > 0 {
            index -= 1;
            let tree = order[index];
            if tree >= count {
                continue;
            }
            match self.look(tree, pos) {
                Ok(None) => {}
                Ok(Some(whole)) => found = Some(earlier(TreeMatch { index, whole }, found)),
                Err(error) => match limit_of(&error, self.passed(tree)) {
                    Some(limit) => stopped = Some(Stopped { index, limit }),
                    None => return Err(error),
                },
            }
        }
        Ok(ScanStep { found, stopped })
    }

    /// Adds a compiled tree after the others, while the scan goes on. What was found of the others is kept.
    ///
    /// # Errors
    ///
    /// `AllocError` if an allocation fails. The scanner then has the trees that it had.
    pub fn push(&mut self, tree: ScanTree) -> Result<(), AllocError>
        ensures ok { OnOk result ((rules : List Rule) (r : Rule)
            → IsScanOf rules self.old → IsTreeOf r (text_of self.old) tree
            → IsScanOf (rules ++ r ∷ []) self.new) }
        ensures err { OnErr result ((rules : List Rule)
            → IsScanOf rules self.old → IsScanOf rules self.new) }
        ensures held { (pos : ℕ) → KeepsHeld pos self.old self.new }
        ensures within { text_of self.new ≡ text_of self.old }
        ensures loans { KeepsLoans self.old self.new }
    {
        self.cache.answers.truncate(self.scanner.tree_count());
        self.scanner.push(tree)
    }
}
