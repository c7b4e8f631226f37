//! The tokens of a pattern, and how its groups stand in one another.
#![tactic(auto)]

pub mod error;
pub mod flags;
pub mod lexing;
pub mod nesting;
pub mod tokens;
