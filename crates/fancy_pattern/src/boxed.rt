//! Tokens with what is large in them behind a pointer.

ghost use Rattle.std.specs.Prelude.{◌≡◌, IfOk};
ghost use Rattle.fancy_tokens.specs.PatternViews.{token_of, unboxed_of};

use crate::characters::byte_count;
use fancy_tokens::tokens::{PlacedOpening, PlacedReference, Token, Unboxed};
use std::alloc::{AllocError, Global};

/// How far the bytes of a pattern were counted: what was left at the byte `at`.
#[derive(Clone, Copy)]
pub struct Counted<'a> {
    pub rest: &'a [char],
    pub at: usize,
}

impl<'a> Counted<'a> {
    /// The byte where `rest` begins, which is what is left now.
    fn byte(&mut self, rest: &'a [char]) -> usize {
        let passed = self.rest.len().saturating_sub(rest.len());
        self.at = self.at.saturating_add(byte_count(&self.rest[..passed]));
        self.rest = rest;
        self.at
    }
}

/// A token that begins `rest`, with what is large in it behind a pointer.
pub(crate) fn boxed<'a>(
    alloc: Global,
    counted: &mut Counted<'a>,
    rest: &'a [char],
    token: Unboxed<'a>,
) -> Result<Token<'a>, AllocError>
    ensures { IfOk result (λ t. token_of t ≡ unboxed_of token.entry) }
{
    match token {
        Unboxed::Token(token) => Ok(token),
        Unboxed::Refer(reference) => {
            let at = counted.byte(rest);
            Ok(Token::Refer(Box::new(alloc, PlacedReference { reference, at })?))
        }
        Unboxed::Open(opening) => {
            let at = counted.byte(rest);
            Ok(Token::Open(Box::new(alloc, PlacedOpening { opening, at })?))
        }
    }
}
