//! What a call returns to a host: a code with its details, and what goes with it into the host's memory.

ghost use Rattle.std.specs.Prelude.{◌≡◌, length};
ghost use Rattle.fancy_host.specs.Codes as codes;
ghost use Rattle.fancy_host.specs.Hosted as hosted;
ghost use Rattle.fancy_host.specs.Whether.{whether};

use crate::writing::{write_over, write_text};
use fancy_characters::places::skip_any;
use fancy_expr::error::{CompileError, Error, RuntimeError};
use fancy_pattern::error::{ErrorKind, PatternError};
use fancy_scanner::scan_limit::ScanLimit;
use fancy_vm::vm::SearchLimit;

/// What came of a call.
#[repr(C)]
#[derive(Clone, Copy, Drop)]
pub struct FancyOutcome {
    /// `FANCY_OK`, `FANCY_NO_MATCH`, or why there is no answer.
    pub code: u32,
    /// The byte of the pattern, the tree or the text at which it cannot be read, or of the pattern where the piece begins
    /// that is refused.
    pub byte: usize,
    /// The group that is referred to, and is not there.
    pub group: usize,
    /// How many groups there are, with group 0; of a search for all matches, how many were written.
    pub count: usize,
    /// Where a search for the next match begins, a place of the text; past its length there is none.
    pub next: usize,
}

pub const OK: u32 = 0;

pub const NO_MATCH: u32 = 1;

pub const NO_PROGRAM: u32 = 2;

const NOT_UTF8: u32 = 3;

const UNFIT: u32 = 4;

pub const MEMORY: u32 = 5;

pub const TOO_DEEP: u32 = 21;

pub const WRONG_SIZE: u32 = 39;

pub const NO_ROOM: u32 = 40;

pub const ANALYSIS_LIMIT_EXCEEDED: u32 = 43;

/// The code of a refusal.
fn code_of_refusal(error: &CompileError) -> u32
    ensures { result ≡ codes.code_of_refusal error.now }
{
    match error {
        CompileError::NamedBackrefOnly => 10,
        CompileError::FeatureNotYetSupported => 11,
        CompileError::SubroutineCallTargetNotFound => 12,
        CompileError::UnresolvedAstNode => 13,
        CompileError::InvalidBackref(_) => 14,
        CompileError::LeftRecursiveSubroutineCall(_) => 15,
        CompileError::NeverEndingRecursion => 16,
        CompileError::VariableLookBehindRequiresFeature => 17,
        CompileError::InnerError(_) => 18,
        CompileError::ClassTooBig(_) => 19,
        CompileError::PatternTooComplex => 20,
    }
}

/// The code of a limit of backtracks, branches or instructions.
fn code_of_run(limit: RuntimeError) -> u32
    ensures { result ≡ codes.code_of_run limit }
{
    match limit {
        RuntimeError::BacktrackLimitExceeded => 7,
        RuntimeError::StackOverflow => 8,
        RuntimeError::StepLimitExceeded => 9,
    }
}

/// The code of an error.
fn code_of(error: &Error) -> u32
    ensures { result ≡ codes.code_of error.now }
{
    match error {
        Error::Memory => 5,
        Error::TreeFault { .. } => 6,
        Error::RuntimeError(limit) => code_of_run(*limit),
        Error::CompileError(refusal) => code_of_refusal(refusal),
        Error::NestLimitExceeded => 22,
    }
}

/// The code of a limit of the delegates of a search.
fn code_of_limit(limit: SearchLimit) -> u32
    ensures { result ≡ codes.code_of_limit limit }
{
    match limit {
        SearchLimit::Visits => 41,
        SearchLimit::Bytes => 42,
    }
}

/// The code of a limit that stopped the search for a pattern of a scanner.
pub fn code_of_scan_limit(limit: ScanLimit) -> u32
    ensures { result ≡ codes.code_of_scan_limit limit }
{
    match limit {
        ScanLimit::RuntimeError(limit) => code_of_run(limit),
        ScanLimit::VisitLimitExceeded => code_of_limit(SearchLimit::Visits),
        ScanLimit::MemoryLimitExceeded => code_of_limit(SearchLimit::Bytes),
    }
}

/// The code of what is wrong with a pattern.
fn code_of_kind(kind: ErrorKind) -> u32
    ensures { result ≡ codes.code_of_kind kind }
{
    match kind {
        ErrorKind::UnclosedOpenParen => 23,
        ErrorKind::UnopenedCloseParen => 24,
        ErrorKind::InvalidRepeat => 25,
        ErrorKind::RecursionExceeded => 21,
        ErrorKind::TrailingBackslash => 26,
        ErrorKind::InvalidEscape => 27,
        ErrorKind::UnclosedUnicodeName => 28,
        ErrorKind::InvalidHex => 29,
        ErrorKind::InvalidCodepointValue => 30,
        ErrorKind::InvalidClass => 31,
        ErrorKind::UnknownFlag => 32,
        ErrorKind::NonUnicodeUnsupported => 33,
        ErrorKind::InvalidGroupName => 34,
        ErrorKind::InvalidGroupNameBackref => 35,
        ErrorKind::InvalidBackref => 36,
        ErrorKind::TargetNotRepeatable => 37,
        ErrorKind::GeneralParseError => 38,
    }
}

/// The name of a code.
fn name_of(code: u32) -> &'static str
    ensures { result.now ≡ codes.name_of code }
{
    match code {
        0 => "Ok",
        1 => "NoMatch",
        2 => "NoProgram",
        3 => "NotUtf8",
        4 => "Unfit",
        5 => "Memory",
        6 => "TreeFault",
        7 => "BacktrackLimitExceeded",
        8 => "StackOverflow",
        9 => "StepLimitExceeded",
        10 => "NamedBackrefOnly",
        11 => "FeatureNotYetSupported",
        12 => "SubroutineCallTargetNotFound",
        13 => "UnresolvedAstNode",
        14 => "InvalidBackref",
        15 => "LeftRecursiveSubroutineCall",
        16 => "NeverEndingRecursion",
        17 => "VariableLookBehindRequiresFeature",
        18 => "InnerError",
        19 => "ClassTooBig",
        20 => "PatternTooComplex",
        21 => "RecursionExceeded",
        22 => "NestLimitExceeded",
        23 => "UnclosedOpenParen",
        24 => "UnopenedCloseParen",
        25 => "InvalidRepeat",
        26 => "TrailingBackslash",
        27 => "InvalidEscape",
        28 => "UnclosedUnicodeName",
        29 => "InvalidHex",
        30 => "InvalidCodepointValue",
        31 => "InvalidClass",
        32 => "UnknownFlag",
        33 => "NonUnicodeUnsupported",
        34 => "InvalidGroupName",
        35 => "InvalidGroupNameBackref",
        36 => "InvalidBackrefNumber",
        37 => "TargetNotRepeatable",
        38 => "GeneralParseError",
        39 => "WrongSize",
        40 => "NoRoom",
        41 => "VisitLimitExceeded",
        42 => "MemoryLimitExceeded",
        43 => "AnalysisLimitExceeded",
        _ => "",
    }
}

/// Writes the name of a code, and returns how many bytes it has.
pub fn write_name(code: u32, room: &mut [u8]) -> usize
    ensures length { result ≡ length (codes.name_of code) }
    ensures name { room.new ≡ hosted.ended (codes.name_of code) room.old }
{
    write_text(name_of(code).as_bytes(), room)
}

/// Writes the numbers of an answer as far as there is room.
pub fn write_answer(answer: &Result<Option<Vec<usize>>, Error>, room: &mut [usize])
    ensures { room.new ≡ hosted.written answer.now room.old }
{
    match answer {
        Ok(None) => {}
        Ok(Some(numbers)) => write_over(numbers, room),
        Err(_) => {}
    }
}

/// Where a search for the next match begins: at the end of the one that was found, or, if that took nothing, past the
/// character there.
pub fn next_start(text: &[u8], numbers: &[usize]) -> usize
    ensures { result ≡ hosted.next_start text.now numbers.now }
{
    let Some((start, others)) = numbers.split_first() else {
        return usize::MAX;
    };
    let Some((end, _)) = others.split_first() else {
        return usize::MAX;
    };
    if start == end {
        skip_any(text, true, false, *end).unwrap_or(end.saturating_add(1))
    } else {
        *end
    }
}

impl FancyOutcome {
    /// A code without details.
    pub fn coded(code: u32) -> FancyOutcome
        ensures { result ≡ hosted.coded code }
    {
        FancyOutcome {
            code,
            byte: usize::MAX,
            group: usize::MAX,
            count: 0,
            next: usize::MAX,
        }
    }

    /// The outcome with this count.
    pub fn with_count(self, count: usize) -> FancyOutcome
        ensures { result ≡ hosted.with_count count self }
    {
        FancyOutcome { count, ..self }
    }

    /// The outcome with this byte, if there is one.
    pub fn at_place(self, place: Option<usize>) -> FancyOutcome
        ensures { result ≡ hosted.at_place place self }
    {
        match place {
            Some(byte) => FancyOutcome { byte, ..self },
            None => self,
        }
    }

    /// The bytes are no text from this one on.
    pub fn not_utf8(byte: usize) -> FancyOutcome
        ensures { result ≡ hosted.not_utf8 byte }
    {
        FancyOutcome {
            byte,
            ..FancyOutcome::coded(NOT_UTF8)
        }
    }

    /// The options do not fit the program or the text.
    pub fn unfit() -> FancyOutcome
        ensures { result ≡ hosted.coded codes.unfit }
    {
        FancyOutcome::coded(UNFIT)
    }

    /// A tree with this many groups was compiled.
    pub fn compiled(groups: usize) -> FancyOutcome
        ensures { result ≡ hosted.compiled groups }
    {
        FancyOutcome {
            count: groups,
            ..FancyOutcome::coded(OK)
        }
    }

    /// Why there is no answer.
    pub fn of_error(error: &Error) -> FancyOutcome
        ensures { result ≡ hosted.failure error.now }
    {
        let outcome = FancyOutcome::coded(code_of(error));
        match error {
            Error::TreeFault { at } => FancyOutcome {
                byte: *at,
                ..outcome
            },
            Error::CompileError(CompileError::InvalidBackref(group)) => FancyOutcome {
                group: *group,
                ..outcome
            },
            _ => outcome,
        }
    }

    /// Why a search has no answer that ended with this error: the limit of its delegates that it passed, if it did.
    pub fn of_failed(error: &Error, passed: Option<SearchLimit>) -> FancyOutcome
        ensures { result ≡ hosted.failure_by passed error.now }
    {
        match passed {
            Some(limit) => FancyOutcome::coded(code_of_limit(limit)),
            None => FancyOutcome::of_error(error),
        }
    }

    /// Why a pattern cannot be read.
    pub fn of_fault(error: &PatternError) -> FancyOutcome
        ensures { result ≡ hosted.pattern_failure error.now }
    {
        match error {
            PatternError::Parse { at, kind } => FancyOutcome {
                byte: *at,
                ..FancyOutcome::coded(code_of_kind(*kind))
            },
            PatternError::Memory => FancyOutcome::coded(MEMORY),
        }
    }

    /// Whether the result of a search, whose delegates exceeded this limit or none, is a match.
    pub fn of_found(
        answer: &Result<Option<Vec<usize>>, Error>,
        passed: Option<SearchLimit>,
    ) -> FancyOutcome
        ensures { result ≡ whether passed answer.now }
    {
        match answer {
            Ok(None) => FancyOutcome::coded(NO_MATCH),
            Ok(Some(_)) => FancyOutcome::coded(OK),
            Err(error) => FancyOutcome::of_failed(error, passed),
        }
    }

    /// The outcome of a search, whose delegates exceeded this limit or none.
    pub fn of_answer(
        text: &[u8],
        answer: &Result<Option<Vec<usize>>, Error>,
        passed: Option<SearchLimit>,
    ) -> FancyOutcome
        ensures { result ≡ hosted.outcome_of text.now passed answer.now }
    {
        match answer {
            Ok(None) => FancyOutcome::coded(NO_MATCH),
            Ok(Some(numbers)) => FancyOutcome {
                count: numbers.len() / 2,
                next: next_start(text, numbers),
                ..FancyOutcome::coded(OK)
            },
            Err(error) => FancyOutcome::of_failed(error, passed),
        }
    }
}
