//! Why a pattern cannot be read.

ghost use Rattle.std.specs.Prelude.{◌≡◌};
ghost use Rattle.fancy_pattern.specs.Texts.{fault_at};
ghost use Rattle.fancy_pattern.specs.Messages.{kind_text};
ghost use Rattle.fancy_pattern.specs.declared.error.PatternError.TheVariants.{Memory};

pub use fancy_tokens::error::ErrorKind;
use fancy_tokens::error::Fault;
use std::alloc::AllocError;
use std::error::Error;
use std::fmt;

/// A fault at the front of what is left.
pub(crate) fn fault_at(kind: ErrorKind, text: &[char]) -> Fault
    ensures { result ≡ fault_at kind text.now }
{
    Fault {
        left: text.len(),
        kind,
    }
}

/// Why a pattern has no tree. As text it is `at byte 3: a parenthesis is not closed: expected ..`, or `out of memory`.
#[derive(Debug, Drop)]
pub enum PatternError {
    /// The pattern cannot be read. `at` is the byte of the pattern, from 0, and `kind` is what is wrong there.
    Parse { at: usize, kind: ErrorKind },
    /// An allocation failed.
    Memory,
}

impl From<AllocError> for PatternError {
    ghost from_gives = { λ _ e. e ≡ Memory };

    fn from(_e: AllocError) -> PatternError {
        PatternError::Memory
    }
}

/// What stands there, and what was wanted.
fn kind_text(kind: ErrorKind) -> &'static str
    ensures { result.now ≡ kind_text kind }
{
    match kind {
        ErrorKind::UnclosedOpenParen => "a parenthesis is not closed: expected `)`",
        ErrorKind::UnopenedCloseParen => "this `)` closes no parenthesis",
        ErrorKind::InvalidRepeat => { "the counts of a repetition are out of order or too large" }
        ErrorKind::RecursionExceeded => "parentheses nest deeper than 250",
        ErrorKind::TrailingBackslash =>
            "the pattern ends with a backslash: expected a character after it",
        ErrorKind::InvalidEscape => "there is no escape with this letter",
        ErrorKind::UnclosedUnicodeName => "a property has no name, or its `}` is missing",
        ErrorKind::InvalidHex => "expected a hexadecimal digit, or `}` after one to eight of them",
        ErrorKind::InvalidCodepointValue => "there is no character with this number",
        ErrorKind::InvalidClass => "a class is not closed: expected `]`",
        ErrorKind::UnknownFlag => "this is not a flag: expected one of `imsxRUu`",
        ErrorKind::NonUnicodeUnsupported => "the flag `u` cannot be cleared",
        ErrorKind::InvalidGroupName => {
            "this is not a group name: expected a letter, `_` or a number, and then what closes it"
        }
        ErrorKind::InvalidGroupNameBackref => {
            "several groups have this name, so it cannot be called, or more than 100 have it, so it cannot be referred to"
        }
        ErrorKind::InvalidBackref => "the number is too large",
        ErrorKind::TargetNotRepeatable => "there is nothing to repeat before this quantifier",
        ErrorKind::GeneralParseError => {
            "this is not a verb, or there are more than a million groups"
        }
    }
}

impl fmt::Display for PatternError {
    ghost use Rattle.std.specs.Prelude.{Some};
    ghost use Rattle.fancy_pattern.specs.Messages.{error_text};

    ghost output = { λ e. Some (error_text e) };

    fn fmt<W: fmt::Write>(&self, f: &mut fmt::Formatter<W>) -> fmt::Result {
        match self {
            PatternError::Parse { at, kind } => {
                let text = kind_text(*kind);
                write!(f, "at byte {at}: {text}")
            }
            PatternError::Memory => write!(f, "out of memory"),
        }
    }
}

impl Error for PatternError {}
