//! The tokens of a text, with their scopes, by the rules of grammars: see README.md.
#![tactic(auto)]

mod classes;
mod contexts;
mod draft;
pub mod error;
mod frames;
pub mod highlighter;
pub mod left_out;
mod lines;
mod names;
mod omitted;
mod patterns;
mod plist;
mod reader;
mod references;
mod regions;
mod rules;
mod run;
pub mod scopes;
mod search;
mod selectors;
pub mod state;
pub mod tokens;
mod translation;
mod values;
mod writer;
