//! What the analysis says of each node of a tree.
#![tactic(auto)]

pub mod context;
pub mod info;
pub mod size;
