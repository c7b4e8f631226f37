//! The lines of texts in which a regex has a match, and what is written of them: see README.md.
#![tactic(auto)]

pub mod around;
pub mod budget;
pub mod context;
pub mod excerpt;
pub mod files;
pub mod globs;
pub mod ignores;
pub mod lines;
pub mod matching;
pub mod occurrences;
pub mod output;
pub mod patterns;
pub mod printing;
pub mod reports;
pub mod rules;
pub mod settings;
