//! The notation in which trees are written, and its reader.
#![tactic(auto)]

pub mod depth;
pub mod forms;
mod lexer;
pub mod notation;
pub mod numbers;
mod reader;
mod references;
pub mod tokens;
pub mod words;
