//! How much the searches of a run's delegates may take together, and what they took.

ghost use Rattle.std.specs.Prelude.{◌≡◌, ◌+◌, ◌-◌, ◌*◌, ◌/◌, ◌<◌, min, None, IfOk, IsTrue, OnOk};
ghost use Rattle.fancy_meaning.specs.Places.{is_place};
ghost use Rattle.fancy_fragments.specs.Fragments.{IsFirstWayOf, IsMemoFor};
ghost use Rattle.fancy_nfa.specs.Ways.{HasAscending};
ghost use Rattle.fancy_steps.specs.SearchLimits.{held_by, left_of, no_cost, no_limits, passed_by, visit_cost};

use crate::machine::Task;
use fancy_backtrack::budget::Budget;
use fancy_backtrack::memo::Memo;
use fancy_expr::error::Error;
use fancy_fragments::first_way::first_way_with;
use fancy_fragments::fragment::Fragment;
use fancy_nfa::first_way::FirstWay;

/// How much the searches of the delegates of one run may take together, and how many bytes the run may hold. Without a
/// limit they may take as much as can be counted.
#[derive(Clone, Copy, Debug)]
pub struct SearchLimits {
    /// How many states they may take up. A state inside loops that count costs one more for each of these.
    pub visits: Option<u64>,
    /// How many bytes what they keep may hold at one time, and as many the branches of the run and its log together. Those
    /// are looked at where a branch is added to a multiple of 64.
    pub bytes: Option<usize>,
}

/// A limit that a run passed.
#[derive(Clone, Copy, Debug, PartialEq, Eq)]
pub enum SearchLimit {
    Visits,
    Bytes,
}

/// What one run took.
#[derive(Clone, Copy, Debug)]
pub struct SearchCost {
    /// How many states the searches of its delegates took up.
    pub visits: u64,
    /// How many bytes what these keep holds, or its branches and its log, whichever is more. Where bytes are not limited
    /// they are not counted.
    pub bytes: usize,
}

/// As how many visits one of the fragment's states counts: the counts of the loops around it are part of what is memoized.
fn visit_cost(fragment: &Fragment) -> u64
    ensures cost { result ≡ visit_cost fragment.now }
    ensures some { 0 < result }
{
    (fragment.nfa().loop_depth() as u64).saturating_add(1)
}

impl SearchLimits {
    /// There is none.
    pub fn none() -> SearchLimits
        ensures { result ≡ no_limits }
    {
        SearchLimits {
            visits: None,
            bytes: None,
        }
    }

    /// The limit that is exceeded by such a cost, that on visits where both are.
    #[inline(always)]
    pub fn passed_by(&self, cost: SearchCost) -> Option<SearchLimit>
        ensures { result ≡ passed_by self.now cost }
    {
        if let Some(most) = self.visits {
            if most < cost.visits {
                return Some(SearchLimit::Visits);
            }
        }
        if let Some(most) = self.bytes {
            if most < cost.bytes {
                return Some(SearchLimit::Bytes);
            }
        }
        None
    }

    /// How many bytes the memo holds, where these are limited.
    #[inline(always)]
    fn held(&self, memo: &Memo) -> usize
        ensures { result ≡ held_by self.now memo.now }
    {
        match self.bytes {
            None => 0,
            Some(_) => memo.bytes(),
        }
    }

    /// What a search may take behind others of this cost, if each of its visits counts as so many.
    #[inline(always)]
    fn left(&self, cost: SearchCost, each: u64) -> Budget
        requires { 0 < each }
        ensures visits { result.visits ≡ left_of u64.MAX self.now.visits cost.visits / each }
        ensures bytes { result.bytes ≡ left_of usize.MAX self.now.bytes cost.bytes }
    {
        Budget {
            visits: match self.visits {
                None => u64::MAX / each,
                Some(most) => most.saturating_sub(cost.visits) / each,
            },
            bytes: match self.bytes {
                None => usize::MAX,
                Some(most) => most.saturating_sub(cost.bytes),
            },
        }
    }
}

impl SearchCost {
    /// At the beginning of a run.
    pub fn none() -> SearchCost
        ensures { result ≡ no_cost }
    {
        SearchCost {
            visits: 0,
            bytes: 0,
        }
    }

    /// The first way from `ix` of the fragment, by what this memo has noted and within what the limits leave, which adds to
    /// the cost. It is `Memory` if a limit is exceeded.
    #[inline(always)]
    pub(crate) fn first_way(
        &mut self,
        task: &Task<'_>,
        fragment: &Fragment,
        ix: usize,
        memo: &mut Memo,
    ) -> Result<FirstWay, Error>
        requires place { IsTrue (is_place task.now.text.now ix) }
        requires memo { IsMemoFor task.now.text.now fragment.now memo.old }
        ensures first { IfOk result (IsFirstWayOf task.now.text.now fragment.now ix) }
        ensures ascends { IfOk result HasAscending }
        ensures memo { IsMemoFor task.now.text.now fragment.now memo.new }
        ensures within { OnOk result (passed_by task.now.limits self.new ≡ None) }
        ensures visits { IfOk result
            (λ found. self.new.visits
            ≡ min u64.MAX (self.old.visits + found.visits * visit_cost fragment.now)) }
        ensures bytes { self.new.bytes ≡ min usize.MAX
            (self.old.bytes - held_by task.now.limits memo.old + held_by task.now.limits memo.new) }
    {
        self.bytes = self.bytes.saturating_sub(task.limits.held(memo));
        let each = visit_cost(fragment);
        memo.limit(task.limits.left(*self, each));
        let way = first_way_with(task.alloc, fragment, task.text, ix, memo);
        let visits = match &way {
            Ok(found) => found.visits,
            Err(_) => memo.visits(),
        };
        self.visits = self.visits.saturating_add(visits.saturating_mul(each));
        self.bytes = self.bytes.saturating_add(task.limits.held(memo));
        if task.limits.passed_by(*self).is_some() {
            return Err(Error::Memory);
        }
        way
    }
}
