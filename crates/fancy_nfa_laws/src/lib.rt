//! A backtracking search of an easy fragment's NFA finds the first way. Each theorem is the contract of a function that
//! does nothing.
#![tactic(auto)]

ghost use Rattle.fancy_nfa_laws.specs.FirstWays.{FindsFirstWays, FailedSetIsSound};

/// A plain search of neighbouring nodes that are easy comes to its end from every place, whatever was memoized
/// before: what it finds is the first way of the nodes from there, as the plain meaning has it, or nothing where
/// there is none, and it has taken up at most as many states as `visit_bound` says.
pub fn plain_search_finds()
    ensures { FindsFirstWays }
{}

/// The failed set is sound: wherever a search comes to a pair that was memoized before it began, a search from there
/// which knows of no pair ends without a way.
pub fn failed_set_is_sound()
    ensures { FailedSetIsSound }
{}
