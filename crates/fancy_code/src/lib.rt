//! A program in the making: instructions, what stands around a body, and nodes that are written by themselves.
#![tactic(auto)]

pub mod around;
mod batches;
mod classes;
mod delegates;
mod groups;
mod leaves;
pub mod looks;
pub mod loops;
pub mod writer;
