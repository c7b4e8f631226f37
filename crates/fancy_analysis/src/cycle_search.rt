//! Links at once that lead into a cycle: one depth-first search, begun at each target that is reached.

ghost use Rattle.std.specs.Prelude.{◌≡◌, ◌<◌, ◌++◌, ◌∷◌, ℕ, [], All, IfOk, List, MatchOption, slice_set, true};
ghost use Rattle.fancy_analysis.specs.Reached.{IsLast, IsSearching, StepsOn, Tells, is_done, IsLeastIntoCycle, IsReached, LeadsIntoCycle, listed};

use crate::links::Link;
use crate::reached::{is_set, reached, ways};
use crate::reads::no_flags;
use std::alloc::{AllocError, Global};

/// What a search knows.
#[derive(Drop)]
struct CycleSearch {
    /// Under each number, to where links lead from it that are still to be followed.
    ways: Vec<Vec<usize>>,
    /// The numbers at which it came.
    seen: Vec<bool>,
    /// Those from which it followed each link, and found no cycle.
    done: Vec<bool>,
    /// The numbers at which it came and that are not done, each linked to the next one.
    path: Vec<usize>,
}

impl CycleSearch {
    /// A search that has not begun.
    fn of(alloc: Global, links: &[Link], numbers: usize) -> Result<CycleSearch, AllocError>
        requires room { All (λ link. link.from < numbers) links.now }
        requires some { 0 < numbers }
        ensures searching { IfOk result (λ search. IsSearching links.now 0 search) }
        ensures idle { IfOk result (λ search. search.path.items ≡ []) }
    {
        let ways = ways(alloc, links, numbers, true)?;
        let seen = no_flags(alloc, numbers)?;
        let done = no_flags(alloc, numbers)?;
        Ok(CycleSearch {
            ways,
            seen,
            done,
            path: Vec::new(alloc),
        })
    }

    /// Where the last link from a number leads.
    fn way(&self, number: usize) -> Option<usize>
        ensures { MatchOption result (listed self.now.ways.items number ≡ [])
            (IsLast (listed self.now.ways.items number)) }
    {
        match self.ways.get(number) {
            Some(list) => last_of(list),
            None => None,
        }
    }

    fn is_done(&self, number: usize) -> bool
        ensures { result ≡ is_done self.now.done.items number }
    {
        match self.done.get(number) {
            Some(flag) => *flag,
            None => true,
        }
    }

    /// Follows the last link from the number at the end of the path, or goes back where none is left. Tells whether it
    /// leads into a cycle.
    fn step(&mut self, number: usize) -> Result<bool, AllocError>
        ensures { (links : List Link) (start : ℕ)
            → IsSearching links start self.old
            → IsLast self.old.path.items number
            → IfOk result (λ found. StepsOn links start self.old self.new found) }
    {
        let Some(to) = self.way(number) else {
            set(&mut self.done, number);
            drop_last(&mut self.path);
            return Ok(false);
        };
        if self.is_done(to) {
            drop_last(&mut self.ways[number]);
            return Ok(false);
        }
        if is_set(&self.seen, to) {
            return Ok(true);
        }
        set(&mut self.seen, to);
        self.path.push(to)?;
        Ok(false)
    }

    /// Whether links lead into a cycle from a number.
    fn finds_cycle(&mut self, links: &[Link], start: usize) -> Result<bool, AllocError>
        requires searching { IsSearching links.now 0 self.old }
        requires idle { self.old.path.items ≡ [] }
        ensures { IfOk result (λ found. Tells links.now start self.new found) }
    {
        if self.is_done(start) {
            return Ok(false);
        }
        set(&mut self.seen, start);
        self.path.push(start)?;
        while let Some(number) = last_of(&self.path) {
            if self.step(number)? {
                return Ok(true);
            }
        }
        Ok(false)
    }
}

/// Sets the flag of a number, if it has one.
fn set(flags: &mut Vec<bool>, number: usize)
    ensures { flags.new.items ≡ slice_set flags.old.items number true }
{
    if number < flags.len() {
        flags[number] = true;
    }
}

fn drop_last(list: &mut Vec<usize>)
    ensures { (before : List ℕ) (n : ℕ) → list.old.items ≡ before ++ n ∷ [] → list.new.items ≡ before }
{
    list.pop();
}

fn last_of(path: &[usize]) -> Option<usize>
    ensures { MatchOption result (path.now ≡ []) (IsLast path.now) }
{
    match path.last() {
        Some(number) => Some(*number),
        None => None,
    }
}

/// The least target that is reached and from which links at once lead into a cycle.
pub fn least_into_cycle(alloc: Global, links: &[Link]) -> Result<Option<usize>, AllocError>
    ensures { IfOk
        result
        (λ r. MatchOption r ((n : ℕ) → IsReached links.now n → ¬ LeadsIntoCycle links.now n)
        (λ n. IsLeastIntoCycle links.now n)) }
{
    let reached = reached(alloc, links)?;
    let mut search = CycleSearch::of(alloc, links, reached.len())?;
    for number in 0..reached.len() {
        if !is_set(&reached, number) {
            continue;
        }
        if search.finds_cycle(links, number)? {
            return Ok(Some(number));
        }
    }
    Ok(None)
}
