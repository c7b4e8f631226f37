//! Splits a text at its matches, or replaces them.
#![tactic(auto)]

mod cuts;
pub mod output;
pub mod parts;
pub mod pieces;
pub mod replace;
pub mod replacer;
pub mod split;
pub mod template;
mod tokens;
