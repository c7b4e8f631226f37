//! The compiler, from an analysed tree to a program of the machine.
#![tactic(auto)]

mod absents;
mod alternations;
mod analysed_nodes;
mod around;
mod below;
mod calls;
pub mod compile;
mod concatenations;
mod conditionals;
mod cuts;
mod group_table;
mod look_behinds;
mod looks;
mod loops;
mod nesting;
mod nodes;
pub mod options;
mod scope;
