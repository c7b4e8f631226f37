//! The literals of a tree: see README.md.
#![tactic(auto)]

pub mod before;
pub mod byte_set;
mod bytes;
mod characters;
pub mod firsts;
mod literal;
pub mod required;
pub mod starts;
