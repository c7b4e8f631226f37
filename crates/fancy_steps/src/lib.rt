//! The steps of the machine, and its run.
#![tactic(auto)]

mod delegates;
pub mod longest;
pub mod machine;
pub mod memos;
pub mod options;
mod run;
pub mod search_limits;
pub mod steps;
mod trailing_newlines;
pub mod walks;
