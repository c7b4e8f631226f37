//! The tokens of a text or of a line.

use crate::left_out::LeftOut;
use crate::state::State;

/// A part of a text, which begins and ends between characters.
#[derive(Clone, Copy, Debug, PartialEq, Eq)]
pub struct Token {
    /// Its first byte.
    pub start: usize,
    /// The byte past its last.
    pub end: usize,
    /// The number of its scope ([`Scopes`](crate::scopes::Scopes)).
    pub scope: usize,
}

/// The tokens of a text, which cover it.
#[derive(Drop)]
pub struct Highlights {
    pub tokens: Vec<Token>,
    /// The rules that are left out from some place of the text on, in the order of these places, each once.
    pub left_out: Vec<LeftOut>,
}

/// The tokens of a line, which cover it, and the state after it.
#[derive(Drop)]
pub struct LineTokens {
    pub tokens: Vec<Token>,
    /// The rules that are left out from some place of the line on, each once.
    pub left_out: Vec<LeftOut>,
    /// The state in which the next line begins.
    pub state: State,
}
