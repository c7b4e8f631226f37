//! The outcome of a pattern or a tree that was read and is refused.

ghost use Rattle.std.specs.Option.{option_map};
ghost use Rattle.fancy_host.specs.Hosted.{IsFailureFor};

use crate::options::FancyOptions;
use crate::outcome::{FancyOutcome, MEMORY};
use fancy_expr::error::Error;
use fancy_faults::fault::fault_of;
use std::alloc::Global;

/// Why what was read is not compiled, with its place if it is a pattern; that memory is wanted if there is none to find it.
pub fn failure_of(
    alloc: Global,
    pattern: Option<&str>,
    options: &FancyOptions,
    error: &Error,
) -> FancyOutcome
    ensures { IsFailureFor
        options.now
        (option_map (λ text. text.now) pattern.entry)
        error.now
        result }
{
    let outcome = FancyOutcome::of_error(error);
    match (pattern, error) {
        (Some(text), Error::CompileError(refused)) => {
            let context = options.request().analysis();
            match fault_of(alloc, text, options.parsing(), context, refused) {
                Ok(fault) => outcome.at_place(fault.at),
                Err(_) => FancyOutcome::coded(MEMORY),
            }
        }
        _ => outcome,
    }
}
