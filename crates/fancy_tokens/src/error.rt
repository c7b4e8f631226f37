//! What is wrong with a pattern, and where.

/// What is wrong, by the names of fancy-regex.
#[derive(Clone, Copy, Debug, PartialEq, Eq)]
pub enum ErrorKind {
    UnclosedOpenParen,
    UnopenedCloseParen,
    InvalidRepeat,
    RecursionExceeded,
    TrailingBackslash,
    InvalidEscape,
    UnclosedUnicodeName,
    InvalidHex,
    InvalidCodepointValue,
    InvalidClass,
    UnknownFlag,
    NonUnicodeUnsupported,
    InvalidGroupName,
    InvalidGroupNameBackref,
    InvalidBackref,
    TargetNotRepeatable,
    GeneralParseError,
}

/// A fault, and how many characters of the pattern begin where it is.
#[derive(Clone, Copy)]
pub struct Fault {
    pub left: usize,
    pub kind: ErrorKind,
}
