//! Easy fragments as NFAs: neighbouring nodes laid out as states, and the search for their first way.
#![tactic(auto)]

mod first_sets;
pub mod first_way;
pub mod group_spans;
mod layout;
pub mod nfa;
mod nfa_state;
pub mod one_pass;
mod runs;
mod search;
