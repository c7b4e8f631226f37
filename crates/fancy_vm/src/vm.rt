//! Instructions, programs, states and runs under the names of fancy-regex.

pub use crate::runs::{
    Scratch, attempt_into, begin_attempts, pair_of, run, run_default, run_into, run_spans,
};
pub use crate::stepper::{Progress, Stepper};
pub use fancy_fragments::delegate::{CaptureGroupRange, Delegate};
pub use fancy_program::insn::{Insn, Prog, ProgParts};
pub use fancy_state::state::State;
pub use fancy_steps::options::RunOptions;
pub use fancy_steps::search_limits::{SearchCost, SearchLimit, SearchLimits};
