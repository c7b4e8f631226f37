//! The analysis of trees.
#![tactic(auto)]

pub mod analyze;
mod cycle_search;
mod endings;
mod late_reads;
pub mod limit;
mod links;
mod make;
mod reached;
mod reads;
mod recursion;
mod refusals;
mod rounds;
mod sizes;
mod visit;
