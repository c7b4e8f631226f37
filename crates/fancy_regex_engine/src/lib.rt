//! A face with no code of its own: the whole engine and its command, under the names of fancy-regex.
#![tactic(auto)]

pub use fancy_command::{arguments, command};
pub use fancy_compile::compile;
pub use fancy_machine::{plain, vm};
pub use fancy_search::{scratch, search};
pub use fancy_tree::{analyze, classes, error, expr, look};
