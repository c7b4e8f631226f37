//! Programs: instructions, what a run reads beside them, and what their shape tells.
#![tactic(auto)]

pub mod insn;
mod listing;
pub mod moves;
mod program;
mod shape;
pub mod strategy;
pub mod threads;
