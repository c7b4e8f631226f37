//! The state of a backtracking search by an NFA: the path to where it stands, what it tries later, and the pairs of a
//! state and a place that have no way.
#![tactic(auto)]

pub mod backtrack_stack;
pub mod budget;
mod failed;
pub mod loops;
pub mod memo;
pub mod pair_numbers;
pub mod trail;
