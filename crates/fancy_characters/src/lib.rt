//! Tests on characters and on places of a text: classes, folding, assertions.
#![tactic(auto)]

pub mod classes;
mod compiled;
mod folding;
pub mod look;
mod members;
mod pieces;
pub mod places;
mod simple_classes;
mod spelling;
