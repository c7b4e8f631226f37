//! Why a text is no grammar.

ghost use Rattle.std.specs.Prelude.{◌≡◌};
ghost use Rattle.fancy_highlight.specs.declared.error.GrammarError.TheVariants as grammar;

use std::alloc::{AllocError, AllocFailed};
use std::fmt;

/// Why a text is no grammar. Whatever else is wrong with a grammar is passed over, as editors do.
#[derive(Debug, Drop)]
pub enum GrammarError {
    /// The text is no JSON: the line and column of the fault.
    Json { line: usize, column: usize },
    /// The text is JSON, but no object: what it is.
    NoObject(&'static str),
    /// Out of memory: an allocation failed.
    Memory,
}

impl From<AllocError> for GrammarError {
    ghost from_gives = { λ _ e. e ≡ grammar.Memory };

    fn from(_e: AllocError) -> GrammarError {
        GrammarError::Memory
    }
}

impl<T: Drop> From<AllocFailed<T>> for GrammarError {
    ghost from_gives = { λ _ e. e ≡ grammar.Memory };

    fn from(_e: AllocFailed<T>) -> GrammarError {
        GrammarError::Memory
    }
}

impl fmt::Display for GrammarError {
    fn fmt<W: fmt::Write>(&self, f: &mut fmt::Formatter<W>) -> fmt::Result {
        match self {
            GrammarError::Json { line, column } => {
                write!(f, "the rules are no JSON, line {line}, column {column}")
            }
            GrammarError::NoObject(found) => {
                write!(f, "expected an object with `patterns`, found {found}")
            }
            GrammarError::Memory => write!(f, "out of memory"),
        }
    }
}

impl std::error::Error for GrammarError {}
