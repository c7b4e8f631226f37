//! Tokens: parentheses, words, quoted texts and broken ones, each with its byte.

pub use crate::lexer::tokens;

/// A token.
#[derive(Drop)]
pub enum Token {
    Opened,
    Closed,
    /// A text between quotes, without its escapes.
    Quoted { folded: bool, text: String },
    Word(String),
    /// A text between quotes that is malformed or has no end.
    Broken,
}

/// A token and the byte at which it begins.
#[derive(Drop)]
pub struct Placed {
    pub at: usize,
    pub token: Token,
}
