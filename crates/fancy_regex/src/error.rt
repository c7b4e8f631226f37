//! Why a pattern has no regex, or a search no result.

ghost use Rattle.std.specs.Prelude.{◌≡◌, None};
ghost use Rattle.fancy_expr.specs.declared.error.Error.TheVariants as engine;
ghost use Rattle.fancy_steps.specs.SearchLimits.{EndsBy};
ghost use Rattle.fancy_regex.specs.Errors.{engine_error, limit_told, of_pattern};
ghost use Rattle.fancy_regex.specs.declared.error.Error.TheVariants.{Memory};

use fancy_expr::error::Error as EngineError;
pub use fancy_expr::error::{CompileError, RuntimeError};
pub use fancy_pattern::error::ErrorKind as ParseErrorKind;
use fancy_pattern::error::PatternError;
use fancy_vm::vm::SearchLimit;
use std::alloc::{AllocError, AllocFailed};
use std::fmt;

/// Why a pattern has no regex, or a search no result.
///
/// Written by `{error}` it is a sentence for a reader, such as `a parenthesis is not closed` with its byte.
#[derive(Debug, Drop)]
pub enum Error {
    /// The pattern cannot be read: the byte of the pattern where it fails, from 0 to its length, and the kind of fault.
    ParseError(usize, ParseErrorKind),
    /// The pattern can be read, and is refused, such as for a reference to a group that it does not have, or because its
    /// program would have more instructions than `max_prog_size`.
    CompileError(CompileError),
    /// A search exceeded its limit of backtracks or of steps, or would hold more than 1,000,000 branches.
    RuntimeError(RuntimeError),
    /// More nodes of the pattern nest in one another, with calls written out, than `max_nesting` allows.
    NestLimitExceeded,
    /// The analysis of the pattern looks at more nodes than `analysis_limit` allows.
    AnalysisLimitExceeded,
    /// A search visited more states of easy parts of the pattern than `visit_limit` allows, or read as much beyond some
    /// sixteen passes over the text.
    VisitLimitExceeded,
    /// A search kept more bytes for easy parts of the pattern, or for its branches, than `memory_limit` allows.
    MemoryLimitExceeded,
    /// Out of memory: an allocation failed.
    Memory,
}

impl Error {
    /// What `Memory` of a search that exceeded this limit, or none, is to a caller.
    fn of_memory(passed: Option<SearchLimit>) -> Error
        ensures engine { engine_error result ≡ engine.Memory }
        ensures limit { limit_told result ≡ passed }
    {
        match passed {
            Some(SearchLimit::Visits) => Error::VisitLimitExceeded,
            Some(SearchLimit::Bytes) => Error::MemoryLimitExceeded,
            None => Error::Memory,
        }
    }

    /// The error of a search that exceeded this limit of its delegates, or none.
    pub(crate) fn of_search(error: EngineError, passed: Option<SearchLimit>) -> Error
        ensures engine { engine_error result ≡ error }
        ensures limit { EndsBy error passed → limit_told result ≡ passed }
    {
        match error {
            EngineError::CompileError(error) => Error::CompileError(error),
            EngineError::RuntimeError(error) => Error::RuntimeError(error),
            // The engine reads no pattern here.
            EngineError::TreeFault { at } => Error::ParseError(
                at,
                ParseErrorKind::GeneralParseError,
            ),
            EngineError::NestLimitExceeded => Error::NestLimitExceeded,
            EngineError::Memory => Error::of_memory(passed),
        }
    }
}

impl From<AllocError> for Error {
    ghost from_gives = { λ _ e. e ≡ Memory };

    fn from(_e: AllocError) -> Error {
        Error::Memory
    }
}

impl<T: Drop> From<AllocFailed<T>> for Error {
    ghost from_gives = { λ _ e. e ≡ Memory };

    fn from(_e: AllocFailed<T>) -> Error {
        Error::Memory
    }
}

impl From<EngineError> for Error {
    ghost from_gives = { λ engine e. (engine_error e ≡ engine) × (limit_told e ≡ None) };

    fn from(engine: EngineError) -> Error {
        Error::of_search(engine, None)
    }
}

impl From<PatternError> for Error {
    ghost from_gives = { λ error e. e ≡ of_pattern error };

    fn from(error: PatternError) -> Error {
        match error {
            PatternError::Parse { at, kind } => Error::ParseError(at, kind),
            PatternError::Memory => Error::Memory,
        }
    }
}

impl fmt::Display for Error {
    ghost use Rattle.std.specs.Prelude.{Some};
    ghost use Rattle.fancy_regex.specs.Errors.{error_text};

    ghost output = { λ e. Some (error_text e) };

    fn fmt<W: fmt::Write>(&self, f: &mut fmt::Formatter<W>) -> fmt::Result {
        match self {
            Error::ParseError(at, kind) => {
                let error = PatternError::Parse {
                    at: *at,
                    kind: *kind,
                };
                write!(f, "{error}")
            }
            Error::CompileError(error) => write!(f, "{error}"),
            Error::RuntimeError(error) => write!(f, "{error}"),
            Error::NestLimitExceeded => write!(f, "the pattern nests deeper than the limit"),
            Error::AnalysisLimitExceeded => {
                write!(f, "the analysis of the pattern exceeds its limit")
            }
            Error::VisitLimitExceeded => write!(f, "too many states were visited"),
            Error::MemoryLimitExceeded => write!(f, "too much memory was held"),
            Error::Memory => write!(f, "out of memory"),
        }
    }
}

impl std::error::Error for Error {}
