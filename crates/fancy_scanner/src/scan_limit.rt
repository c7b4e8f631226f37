//! Which limit stopped the search for a tree.

ghost use Rattle.std.specs.Prelude.{◌≡◌, MatchOption, None};
ghost use Rattle.fancy_matches.specs.Matchers.{IsNoLimit};
ghost use Rattle.fancy_scanner.specs.Scanning.{error_of, search_limit};
ghost use Rattle.fancy_steps.specs.SearchLimits.{EndsBy};

use fancy_expr::error::{Error, RuntimeError};
use fancy_vm::vm::SearchLimit;
use thiserror::Error as Described;

/// Which limit stopped the search for a tree.
#[derive(Clone, Copy, Debug, PartialEq, Eq, Drop, Described)]
pub enum ScanLimit {
    /// A limit of backtracks, branches or instructions.
    #[error("{0}")]
    RuntimeError(RuntimeError),
    /// The delegates of the search visited more states than `SearchLimits::visits` allows.
    #[error("too many states were visited")]
    VisitLimitExceeded,
    /// They, or the branches of the search, kept more bytes than `SearchLimits::bytes` allows.
    #[error("too much memory was held")]
    MemoryLimitExceeded,
}

/// The limit that a search exceeded, if it returned this error because of one. `passed` is the limit of its delegates
/// that it exceeded.
pub(crate) fn limit_of(error: &Error, passed: Option<SearchLimit>) -> Option<ScanLimit>
    requires { EndsBy error.now passed }
    ensures { MatchOption
        result
        (IsNoLimit error.now × (passed ≡ None))
        (λ limit. (error.now ≡ error_of limit) × (passed ≡ search_limit limit)) }
{
    match error {
        Error::RuntimeError(limit) => Some(ScanLimit::RuntimeError(*limit)),
        Error::Memory => match passed {
            Some(SearchLimit::Visits) => Some(ScanLimit::VisitLimitExceeded),
            Some(SearchLimit::Bytes) => Some(ScanLimit::MemoryLimitExceeded),
            None => None,
        },
        Error::CompileError(_) => None,
        Error::TreeFault { .. } => None,
        Error::NestLimitExceeded => None,
    }
}
