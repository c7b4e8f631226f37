//! Fragments, which are neighbouring easy nodes that are searched for plainly, and what an instruction holds of one.
#![tactic(auto)]

pub mod copies;
pub mod delegate;
pub mod first_way;
pub mod fragment;
mod same;
mod settable;
