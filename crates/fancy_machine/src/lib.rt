//! A face with no code of its own: instructions, programs, states, runs and fragments, under the names of fancy-regex.
#![tactic(auto)]

pub mod plain;

pub use fancy_vm::vm;
