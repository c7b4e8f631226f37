//! A search for a tree in a text by one call, and a tree that is compiled once and searched for many times.
#![tactic(auto)]

mod candidates;
mod common;
mod gears;
mod needed;
pub mod request;
pub mod scratch;
pub mod search;
