//! Patterns as they are typed, and their parser.
#![tactic(auto)]

pub mod atom_spans;
mod boxed;
mod characters;
mod class_text;
mod classes;
pub mod error;
pub mod escape;
mod escapes;
mod facts;
mod failure;
pub mod flags;
mod group_names;
mod groups;
mod items;
mod lexer;
mod named;
mod names;
mod node_stack;
mod nodes;
mod numbers;
pub mod options;
pub mod pattern;
mod quantifiers;
mod reader;
mod survey;
