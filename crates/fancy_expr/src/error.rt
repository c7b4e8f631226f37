//! The errors of the engine: why a tree is not read or refused, which limit a run exceeded, out of memory.

ghost use Rattle.std.specs.Prelude.{◌≡◌};
ghost use Rattle.fancy_expr.specs.declared.error.Error.TheVariants.{Memory};

use std::alloc::{AllocError, AllocFailed};
use std::fmt;

/// Why a tree is refused.
#[derive(Debug, Drop)]
pub enum CompileError {
    /// Groups with names leave those without a name out, and a group is referred to by its number.
    NamedBackrefOnly,
    FeatureNotYetSupported,
    SubroutineCallTargetNotFound,
    UnresolvedAstNode,
    /// A back reference or an existence condition names no group: its number.
    InvalidBackref(usize),
    /// A group calls itself before anything is taken: its description.
    LeftRecursiveSubroutineCall(String),
    NeverEndingRecursion,
    VariableLookBehindRequiresFeature,
    /// A class is no class: its text.
    InnerError(String),
    /// A class is refused for its size: its text.
    ClassTooBig(String),
    PatternTooComplex,
}

impl fmt::Display for CompileError {
    ghost use Rattle.std.specs.Prelude.{Some};
    ghost use Rattle.fancy_expr.specs.Errors.{refusal_text};

    ghost output = { λ e. Some (refusal_text e) };

    fn fmt<W: fmt::Write>(&self, f: &mut fmt::Formatter<W>) -> fmt::Result {
        match self {
            CompileError::NamedBackrefOnly => {
                write!(f, "groups that have names are referred to by their names")
            }
            CompileError::FeatureNotYetSupported => write!(f, "this is not supported yet"),
            CompileError::SubroutineCallTargetNotFound => {
                write!(f, "a call names a group that is not there")
            }
            CompileError::UnresolvedAstNode => write!(f, "a node of the tree was not resolved"),
            CompileError::InvalidBackref(group) => write!(f, "there is no group {group}"),
            CompileError::LeftRecursiveSubroutineCall(group) => {
                write!(f, "{group} calls itself before anything is taken")
            }
            CompileError::NeverEndingRecursion => write!(f, "the calls never end"),
            CompileError::VariableLookBehindRequiresFeature => {
                write!(f, "a lookbehind takes different numbers of characters")
            }
            CompileError::InnerError(class) => write!(f, "the class {class} cannot be read"),
            CompileError::ClassTooBig(class) => write!(f, "the class {class} is too big"),
            CompileError::PatternTooComplex => write!(f, "the program is too big"),
        }
    }
}

impl std::error::Error for CompileError {}

/// Why a run has no answer.
#[derive(Clone, Copy, Debug, PartialEq, Eq, Drop)]
pub enum RuntimeError {
    BacktrackLimitExceeded,
    StackOverflow,
    StepLimitExceeded,
}

impl fmt::Display for RuntimeError {
    ghost use Rattle.std.specs.Prelude.{Some};
    ghost use Rattle.fancy_expr.specs.Errors.{limit_text};

    ghost output = { λ e. Some (limit_text e) };

    fn fmt<W: fmt::Write>(&self, f: &mut fmt::Formatter<W>) -> fmt::Result {
        match self {
            RuntimeError::BacktrackLimitExceeded => write!(f, "too many branches failed"),
            RuntimeError::StackOverflow => write!(f, "too many branches were held"),
            RuntimeError::StepLimitExceeded => write!(f, "too many instructions were executed"),
        }
    }
}

impl std::error::Error for RuntimeError {}

/// Why a call has no result.
#[derive(Debug, Drop)]
pub enum Error {
    CompileError(CompileError),
    RuntimeError(RuntimeError),
    /// The notation of a tree cannot be read from this byte on.
    TreeFault { at: usize },
    /// More nodes nest in one another, with calls written out, than the limit allows.
    NestLimitExceeded,
    /// An allocation failed.
    Memory,
}

impl fmt::Display for Error {
    ghost use Rattle.std.specs.Prelude.{Some};
    ghost use Rattle.fancy_expr.specs.Errors.{error_text};

    ghost output = { λ e. Some (error_text e) };

    fn fmt<W: fmt::Write>(&self, f: &mut fmt::Formatter<W>) -> fmt::Result {
        match self {
            Error::CompileError(error) => write!(f, "{error}"),
            Error::RuntimeError(error) => write!(f, "{error}"),
            Error::TreeFault { at } => write!(f, "the tree cannot be read at byte {at}"),
            Error::NestLimitExceeded => write!(f, "the tree nests deeper than the limit"),
            Error::Memory => write!(f, "memory ran out"),
        }
    }
}

impl std::error::Error for Error {}

impl From<AllocError> for Error {
    ghost from_gives = { λ _ e. e ≡ Memory };

    fn from(_e: AllocError) -> Error {
        Error::Memory
    }
}

impl<T: Drop> From<AllocFailed<T>> for Error {
    ghost from_gives = { λ _ e. e ≡ Memory };

    fn from(_e: AllocFailed<T>) -> Error {
        Error::Memory
    }
}
