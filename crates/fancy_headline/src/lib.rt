//! A run of the program that delegates what is easy answers what the tree means, and ends; where the whole tree is easy,
//! within a bound. Each theorem is the contract of a function that does nothing.
#![tactic(auto)]

ghost use Rattle.fancy_meaning.specs.Theorems.{DelegationIsHarmless, Headline, RunsEnd, EarlyNone, BranchBound, BacktrackBound, InstructionBound};

/// With every easy node left to a plain search, the code of the root and of each node that is written out enumerates, from
/// each sound state and wherever it stands, a list that refines its ways: up to the key in a hard context, and in an
/// easy one by the easy key from each place at or before the state's.
pub fn delegation_is_harmless()
    ensures { DelegationIsHarmless }
{}

/// Each run of the program of an accepted tree exceeds a limit, or gives the answer of the plain meaning.
pub fn headline()
    ensures { Headline }
{}

/// Each run of the program of an accepted tree ends: from some number of instructions on, no step limit is exceeded.
pub fn runs_end()
    ensures { RunsEnd }
{}

/// Where a `\G` ends a run of an accepted tree's program early with nothing matched, no start that is tried has an
/// admitted way: so it is with delegates and without.
pub fn early_none()
    ensures { EarlyNone }
{}

/// Where the whole tree is left to a plain search, a run holds at most one branch, whatever its limits are, and so the
/// branches never are too many.
pub fn branch_bound()
    ensures { BranchBound }
{}

/// Where the whole tree is left to a plain search, one backtrack for each start that is tried is enough.
pub fn backtrack_bound()
    ensures { BacktrackBound }
{}

/// Where the whole tree is left to a plain search, eight instructions for each start that is tried are enough.
pub fn instruction_bound()
    ensures { InstructionBound }
{}
