//! A face with no code of its own: trees, their notation, the tests on characters and the analysis, under the names of fancy-regex.
#![tactic(auto)]

pub mod expr;

pub use fancy_analysis::analyze;
pub use fancy_characters::{classes, look};
pub use fancy_expr::{error, parts};
pub use fancy_info::info;
