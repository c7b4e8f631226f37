//! The program's command: the words of a command line are read, the tree is searched for, and a line is written.
#![tactic(auto)]

pub mod arguments;
pub mod command;
mod printing;
