//! Trees as railroad diagrams in SVG: see README.md.
#![tactic(auto)]

mod builder;
mod count;
pub mod draw;
mod figures;
pub mod names;
mod painter;
pub mod words;
pub mod xml;
