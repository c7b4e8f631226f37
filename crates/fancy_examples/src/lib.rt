//! Worked rows: answers, runs, layouts, sizes, refusals and bounds, each computed from the definitions.
#![tactic(auto)]
