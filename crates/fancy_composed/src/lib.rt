//! The composed theorem: the undelegated layout of a tree enumerates what the tree means, and a run of it answers that,
//! and ends.
#![tactic(auto)]

ghost use Rattle.fancy_meaning.specs.Theorems.{ComposedTheorem, UndelegatedHeadline, UndelegatedRunsEnd};

/// With every node taken for hard, the code of the root and of each node that is written out enumerates its ways from each
/// sound state, wherever it stands: the same states in the same order, up to repeats.
pub fn composed_theorem()
    ensures { ComposedTheorem }
{}

/// Each run of the undelegated program of an accepted tree exceeds a limit, or gives the answer of the plain meaning.
pub fn undelegated_headline()
    ensures { UndelegatedHeadline }
{}

/// Each run of the undelegated program of an accepted tree ends: from some number of instructions on, no step limit is
/// passed.
pub fn undelegated_runs_end()
    ensures { UndelegatedRunsEnd }
{}
