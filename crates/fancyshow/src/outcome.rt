//! What a command line gives, what keeps it from an answer, and what a refusal of the engine says to people.

ghost use Rattle.std.specs.Prelude.{◌≡◌};
ghost use Rattle.fancy_expr.specs.declared.error.Error.TheVariants as error;
ghost use Rattle.fancyshow.specs.declared.outcome.Trouble.TheVariants.{Engine};

use fancy_expr::error::{Error, RuntimeError};
use fancy_vm::vm::SearchLimit;
use std::alloc::{AllocError, AllocFailed, Global};

/// What is written on standard output and on standard error, and the status: 0 with an answer, 1 with a refusal, 2
/// where the words or files ask nothing.
#[derive(Drop)]
pub struct Outcome {
    pub out: String,
    pub err: String,
    pub status: u8,
}

/// Why there is no answer.
#[derive(Drop)]
pub enum Trouble {
    /// Help is asked for, and nothing else.
    Help(String),
    /// The words are none that the program takes: the message of the library that reads them.
    Usage(String),
    /// The words or files ask nothing: what is wrong with them.
    Words(String),
    /// The pattern, the tree or the search is refused: how, and why.
    Refusal(String),
    /// A limit is exceeded: which one, and what may help.
    Limit(&'static str),
    /// The engine refuses the tree or the search.
    Engine(Error),
    /// What is written is on standard output, and yet something was refused.
    Refused(String),
    /// There is an answer, and something to be warned of.
    Warned { out: String, warning: String },
}

/// What a write to a `String` gives: it fails only if an allocation fails.
pub type Written = Result<(), AllocError>;

/// What a part of the program prints, or why it does not.
pub type Answer = Result<String, Trouble>;

impl From<Error> for Trouble {
    ghost from_gives = { λ e t. t ≡ Engine e };

    fn from(error: Error) -> Trouble {
        Trouble::Engine(error)
    }
}

impl From<AllocError> for Trouble {
    ghost from_gives = { λ _ t. t ≡ Engine error.Memory };

    fn from(_e: AllocError) -> Trouble {
        Trouble::Engine(Error::Memory)
    }
}

impl<T: Drop> From<AllocFailed<T>> for Trouble {
    ghost from_gives = { λ _ t. t ≡ Engine error.Memory };

    fn from(_e: AllocFailed<T>) -> Trouble {
        Trouble::Engine(Error::Memory)
    }
}

/// What is printed, with this warning if there is one.
pub fn warned(out: String, warning: String) -> Answer {
    if warning.is_empty() {
        Ok(out)
    } else {
        Err(Trouble::Warned { out, warning })
    }
}

impl Outcome {
    fn new(out: String, err: String, status: u8) -> Outcome {
        Outcome { out, err, status }
    }

    /// An error with this text.
    fn refused(alloc: Global, why: &str, status: u8) -> Result<Outcome, AllocError> {
        let err = format!(in alloc; "error: {why}\n")?;
        Ok(Outcome::new(String::new(alloc), err, status))
    }

    /// An answer with this warning.
    fn warned(alloc: Global, out: String, warning: &str) -> Result<Outcome, AllocError> {
        let err = format!(in alloc; "warning: {warning}\n")?;
        Ok(Outcome::new(out, err, 0))
    }

    /// What the trouble gives.
    fn of_trouble(alloc: Global, trouble: Trouble) -> Result<Outcome, AllocError> {
        match trouble {
            Trouble::Help(out) => Ok(Outcome::new(out, String::new(alloc), 0)),
            Trouble::Usage(err) => Ok(Outcome::new(String::new(alloc), err, 2)),
            Trouble::Words(why) => Outcome::refused(alloc, why.as_str(), 2),
            Trouble::Refusal(why) => Outcome::refused(alloc, why.as_str(), 1),
            Trouble::Limit(why) => Outcome::refused(alloc, why, 1),
            Trouble::Engine(error) => {
                Outcome::refused(alloc, refusal(alloc, &error)?.as_str(), 1)
            }
            Trouble::Refused(out) => Ok(Outcome::new(out, String::new(alloc), 1)),
            Trouble::Warned { out, warning } => Outcome::warned(alloc, out, warning.as_str()),
        }
    }

    /// What an answer, or the trouble that there was, gives.
    pub fn of(alloc: Global, answer: Answer) -> Result<Outcome, AllocError> {
        match answer {
            Ok(out) => Ok(Outcome::new(out, String::new(alloc), 0)),
            Err(trouble) => Outcome::of_trouble(alloc, trouble),
        }
    }
}

/// Which limit a search exceeds, and what may help.
fn limit_words(limit: RuntimeError) -> (&'static str, &'static str) {
    match limit {
        RuntimeError::BacktrackLimitExceeded => (
            "the search exceeds the backtrack limit",
            "\n  --backtracks N allows more",
        ),
        RuntimeError::StepLimitExceeded => (
            "the search exceeds the step limit",
            "\n  --steps N allows more",
        ),
        RuntimeError::StackOverflow => ("the search saves more than 1000000 branches", ""),
    }
}

/// Why a run has no result.
pub fn error_text(error: &Error) -> &'static str {
    match error {
        Error::RuntimeError(limit) => limit_words(*limit).0,
        _ => "out of memory",
    }
}

/// What a refusal of the engine says.
pub fn refusal(alloc: Global, error: &Error) -> Result<String, AllocError> {
    match error {
        Error::CompileError(refused) => format!(in alloc; "{refused} ({refused:?})"),
        Error::RuntimeError(limit) => {
            let (text, help) = limit_words(*limit);
            format!(in alloc; "{text} ({limit:?}){help}")
        }
        Error::Memory => String::from_str(alloc, error_text(error)),
        _ => format!(in alloc; "{error} ({error:?})"),
    }
}

/// The trouble that an error of a search is, whose easy parts exceed this limit, or none.
pub fn search_trouble(error: Error, exceeded: Option<SearchLimit>) -> Trouble {
    match exceeded {
        Some(SearchLimit::Visits) if matches!(error, Error::Memory) => Trouble::Limit(
            "the search exceeds the visit limit (VisitLimitExceeded)\n  --visits N allows more",
        ),
        Some(SearchLimit::Bytes) if matches!(error, Error::Memory) => Trouble::Limit(
            "the search exceeds the memory limit (MemoryLimitExceeded)\n  --memory BYTES allows more",
        ),
        _ => Trouble::Engine(error),
    }
}

/// The trouble of a tree or a program that is too large for a picture.
pub fn too_large(alloc: Global, what: &str, most: usize, of: &str) -> Result<Trouble, AllocError> {
    Ok(Trouble::Refusal(format!(in alloc;
        "a {what} of more than {most} {of} is not drawn (TooLarge)"
    )?))
}
