//! Rules that are left out, because a pattern of theirs exceeds a limit.

ghost use Rattle.std.specs.Prelude.{◌≡◌};
ghost use Rattle.fancy_highlight.specs.LeftOut as left_out;

pub use fancy_regex::Error;
use fancy_regex::ScanLimit;

/// A rule that is left out.
#[derive(Debug, Drop)]
pub struct LeftOut {
    /// Which rule of the grammar it is.
    pub rule: usize,
    /// The path of its pattern, as a JSON pointer: that of the rule, and the pattern's key. In a grammar that another one
    /// includes, it is behind the grammar's name.
    pub path: String,
    /// The `name` of the rule; empty if it has none.
    pub name: String,
    /// The byte of the text or of the line from which on it is left out.
    pub at: usize,
    /// Why the pattern is refused, or the limit that a search for it exceeds. An end that refers back may be refused for what
    /// its begin matched.
    pub error: Error,
}

/// The error of a search that exceeded this limit.
pub(crate) fn error_of(limit: ScanLimit) -> Error
    ensures { result ≡ left_out.error_of limit }
{
    match limit {
        ScanLimit::RuntimeError(error) => Error::RuntimeError(error),
        ScanLimit::VisitLimitExceeded => Error::VisitLimitExceeded,
        ScanLimit::MemoryLimitExceeded => Error::MemoryLimitExceeded,
    }
}
