//! Limits are monotone: a run that passes none has the same outcome under all higher ones. Each theorem is the contract
//! of a function that does nothing.
#![tactic(auto)]

ghost use Rattle.fancy_limits.specs.Limits.{StepLimitIsMonotone, BacktrackLimitIsMonotone, LimitsAreMonotone};

/// A run that does not pass the step limit has the same outcome under each higher step limit, whatever that outcome is.
pub fn step_limit_is_monotone()
    ensures { StepLimitIsMonotone }
{}

/// A run that does not pass the backtrack limit has the same outcome under each higher backtrack limit, whatever that
/// outcome is.
pub fn backtrack_limit_is_monotone()
    ensures { BacktrackLimitIsMonotone }
{}

/// A run that exceeds no limit has the same outcome under all higher limits.
pub fn limits_are_monotone()
    ensures { LimitsAreMonotone }
{}
