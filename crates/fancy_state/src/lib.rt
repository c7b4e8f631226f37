//! Slots, an explicit stack and branches that a run can backtrack to.
#![tactic(auto)]

mod old_values;
pub mod state;
