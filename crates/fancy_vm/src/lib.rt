//! Runs of programs.
#![tactic(auto)]

mod runs;
mod stepper;
mod strategy;
pub mod vm;
