//! All matches of a text, by the names of fancy-regex and `regex`.
#![tactic(auto)]

pub mod count;
pub mod cursor;
pub mod found;
pub mod iterators;
pub mod matcher;
pub mod options;
pub mod searches;
