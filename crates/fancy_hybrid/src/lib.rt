//! Searches for common patterns by the kit's lazy DFAs.
#![tactic(auto)]

pub mod engine;
mod looks;
mod numbers;
mod ranges;
pub mod search;
pub mod translate;
