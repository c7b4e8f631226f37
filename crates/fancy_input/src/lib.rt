//! The bytes of a file as lines of text: see README.md.
#![tactic(auto)]

pub mod blocks;
pub mod marks;
pub mod pieces;
pub mod utf16;
