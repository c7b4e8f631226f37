//! `Scratch`: the memory that searches use again.

ghost use Rattle.std.specs.Prelude.{◌≡◌, None};
ghost use Rattle.fancy_steps.specs.SearchLimits.{no_cost, no_limits};

use fancy_hybrid::engine::Engine;
use fancy_vm::vm as runs;
use fancy_vm::vm::{SearchCost, SearchLimit, SearchLimits};
use std::alloc::Global;

/// An engine is made once runs have cost more than its searches would, by the cost of so many bytes.
const PATIENCE: usize = 120_000;

/// A run may take so many visits before an engine searches in its place.
const FEW_VISITS: u64 = 100_000;

/// In bytes that an engine reads: the cost of an attempt that fails at once, or of a state of a run.
const ATTEMPT: usize = 12;

/// In bytes that an engine reads: how much dearer a search of its is to begin than a run.
const SEARCH: usize = 40;

/// Memory that searches use again, and how much the delegates of a search may take. No answer depends on it: a search that
/// exceeds a limit has none.
///
/// Once runs have cost much, it holds an engine, if the kit has a pattern for the tree. Its lazy DFAs then search in place
/// of runs. By the kit's budgets their tables have up to 8 MiB each, which no limit counts.
pub struct Scratch {
    pub(crate) runs: runs::Scratch,
    /// The numbers of a match of which the span alone is asked.
    pub(crate) numbers: Vec<usize>,
    pub(crate) engine: Option<Box<Engine>>,
    /// What runs cost beyond an engine's searches, in bytes that an engine reads.
    excess: usize,
    /// What failed attempts had cost when this was last counted.
    spent: usize,
    /// No engine is to be made.
    pub(crate) gave_up: bool,
}

// Not derived: whoever owns one calls this drop, and would prove a derived one again (docs/GATE.md).
impl Drop for Scratch {
    fn drop(self) {
        let Scratch {
            runs: _,
            numbers: _,
            engine: _,
            excess: _,
            spent: _,
            gave_up: _,
        } = self;
    }
}

impl Scratch {
    ghost use Rattle.fancy_search.specs.declared.search.Compiled.{Compiled};
    ghost use Rattle.fancy_search.specs.Scratches.{Suits, cost_of, limits_of, passed_of, work_of};

    /// Holds no memory yet, and takes none. There is no limit.
    pub fn new(alloc: Global) -> Scratch
        ensures suits { (compiled : Compiled) → Suits compiled result }
        ensures limits { limits_of result ≡ no_limits }
    {
        Scratch {
            runs: runs::Scratch::new(alloc),
            numbers: Vec::new(alloc),
            engine: None,
            excess: 0,
            spent: 0,
            gave_up: false,
        }
    }

    /// Each later search may take so much, its delegates together.
    pub fn limit(&mut self, limits: SearchLimits)
        ensures limits { limits_of self.new ≡ limits }
        ensures passed { passed_of self.new ≡ None }
        ensures cost { cost_of self.new ≡ no_cost }
        ensures suits { (compiled : Compiled) → Suits compiled self.old → Suits compiled self.new }
    {
        self.runs.limit(limits);
    }

    /// How much a search may take.
    pub fn limits(&self) -> SearchLimits
        ensures { result ≡ limits_of self.now }
    {
        self.runs.limits()
    }

    /// The limit that the last search passed; its answer was `Memory` then. There is none where memory was refused.
    pub fn passed(&self) -> Option<SearchLimit>
        ensures { result ≡ passed_of self.now }
    {
        self.runs.passed()
    }

    /// What the delegates of the last search took.
    pub fn cost(&self) -> SearchCost
        ensures { result ≡ cost_of self.now }
    {
        self.runs.cost()
    }

    /// How much the last search did: its visits and backtracks, and one for each eight instructions. One that exceeded a limit
    /// counts with all instructions that it could have executed. A search that an engine may make counts nothing, since its time
    /// is linear.
    pub fn work(&self) -> u64
        ensures { result ≡ work_of self.now }
    {
        self.runs.work()
    }

    /// Drops the engine, so that searches for another tree may use this.
    pub fn forget_engine(&mut self)
        ensures suits { (compiled : Compiled) → Suits compiled self.new }
        ensures runs { self.new.runs ≡ self.old.runs }
    {
        self.engine = None;
        self.excess = 0;
        self.spent = self.runs.spent();
        self.gave_up = false;
    }

    /// Drops the engine, and if there was one, no other is made.
    pub(crate) fn give_up_engine(&mut self)
        ensures suits { (compiled : Compiled) → Suits compiled self.new }
        ensures runs { self.new.runs ≡ self.old.runs }
    {
        self.gave_up = self.gave_up || self.engine.is_some();
        self.engine = None;
    }

    /// Counts what a run cost that read so many bytes.
    pub(crate) fn count(&mut self, passed: usize)
        ensures runs { self.new.runs ≡ self.old.runs }
        ensures suits { (compiled : Compiled) → Suits compiled self.old → Suits compiled self.new }
    {
        let spent = self.runs.spent();
        let attempts = spent
            .saturating_sub(self.spent)
            .saturating_add(self.runs.cost().visits as usize);
        let taken = self.excess.saturating_add(attempts.saturating_mul(ATTEMPT));
        self.excess = taken.saturating_sub(passed.saturating_add(SEARCH));
        self.spent = spent;
    }

    /// Whether an engine is to be asked.
    pub(crate) fn is_due(&self) -> bool {
        !self.gave_up && (self.engine.is_some() || self.excess >= PATIENCE)
    }

    /// The limits of a run after which an engine may still search, if they are lower than those that were set.
    pub(crate) fn short_limits(&self) -> Option<SearchLimits> {
        let limits = self.limits();
        let is_short = matches!(limits.visits, Some(most) if most <= FEW_VISITS);
        if self.gave_up || is_short {
            return None;
        }
        Some(SearchLimits {
            visits: Some(FEW_VISITS),
            bytes: limits.bytes,
        })
    }
}
