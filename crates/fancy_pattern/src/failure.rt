//! Why a call of the parser has no result: a fault, or out of memory.

ghost use Rattle.std.specs.Prelude.{◌≡◌};
ghost use Rattle.fancy_pattern.specs.declared.failure.Failure.TheVariants.{Memory};

use fancy_tokens::error::Fault;
use std::alloc::{AllocError, AllocFailed};

/// Why a call of the parser has no result.
#[derive(Drop)]
pub enum Failure {
    Fault(Fault),
    Memory,
}

impl From<AllocError> for Failure {
    ghost from_gives = { λ _ e. e ≡ Memory };

    fn from(_e: AllocError) -> Failure {
        Failure::Memory
    }
}

impl<T: Drop> From<AllocFailed<T>> for Failure {
    ghost from_gives = { λ _ e. e ≡ Memory };

    fn from(_e: AllocFailed<T>) -> Failure {
        Failure::Memory
    }
}
