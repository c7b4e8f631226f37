//! Why a pattern that can be read is refused, and where: see README.md.
#![tactic(auto)]

pub mod blame;
pub mod fault;
mod finder;
pub mod leaves;
pub mod words;
