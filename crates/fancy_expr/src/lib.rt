//! Trees that are searched for, the test whether one may be handed in, and the errors of the engine.
#![tactic(auto)]

pub mod error;
pub mod expr;
pub mod nodes;
pub mod parts;
mod references;
mod sound;
pub mod text;
pub mod walk;
pub mod well_formed;
