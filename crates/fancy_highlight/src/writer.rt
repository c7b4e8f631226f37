//! Writes the tokens of a text, one after the other.

ghost use Rattle.std.specs.Prelude.{◌≡◌, ◌≤◌, IsTrue, OnOk, length};
ghost use Rattle.fancy_meaning.specs.Places as places;
ghost use Rattle.fancy_highlight.specs.Tokens.{AreTokens, AreTokens-prop, Covers};

use crate::tokens::Token;
use fancy_characters::places::is_place;
use std::alloc::{AllocError, Global};

/// The tokens up to a place of a text.
#[derive(Drop)]
pub(crate) struct Writer<'t> {
    pub(crate) text: &'t str,
    tokens: Vec<Token>,
    /// Where the last token ends.
    pub(crate) at: usize,
    ghost place: { IsTrue (places.is_place text.now at) },
    ghost covered: { AreTokens text.now 0 tokens.items at } by { AreTokens-prop text.now 0 tokens.items at },
}

impl<'t> Writer<'t> {
    ghost use Rattle.fancy_highlight.specs.Writers.{is_ahead};

    pub(crate) fn new(alloc: Global, text: &'t str) -> Writer<'t>
        ensures start { result.at ≡ 0 }
        ensures within { result.text.now ≡ text.now }
    {
        Writer {
            text,
            tokens: Vec::new(alloc),
            at: 0,
        }
    }

    /// This byte is further on, and a place between two characters.
    fn is_ahead(&self, end: usize) -> bool
        ensures { result ≡ is_ahead self.now end }
    {
        self.at < end && is_place(self.text.as_bytes(), end)
    }

    /// Writes a token up to this byte, if it is further on, and a place between two characters.
    fn write_to(&mut self, end: usize, scope: usize) -> Result<(), AllocError>
        ensures reached { OnOk result (IsTrue (places.is_place self.old.text.now end)
            → end ≤ self.new.at) }
        ensures within { self.new.text.now ≡ self.old.text.now }
    {
        if self.is_ahead(end) {
            let start = self.at;
            self.tokens.push(Token { start, end, scope })?;
            self.at = end;
        }
        Ok(())
    }

    /// Writes tokens whose bytes count from this one of the text on.
    pub(crate) fn write_all(&mut self, start: usize, tokens: &[Token]) -> Result<(), AllocError>
        ensures { self.new.text.now ≡ self.old.text.now }
    {
        for token in tokens {
            let end = start.saturating_add(token.end).min(self.text.len());
            self.write_to(end, token.scope)?;
        }
        Ok(())
    }

    /// Writes what is left of the text, in this scope.
    pub(crate) fn write_rest(&mut self, scope: usize) -> Result<(), AllocError>
        ensures reached { OnOk result (length self.old.text.now ≤ self.new.at) }
        ensures within { self.new.text.now ≡ self.old.text.now }
    {
        self.write_to(self.text.len(), scope)
    }

    /// The tokens.
    pub(crate) fn into_tokens(self) -> Vec<Token>
        ensures { self.entry.at ≡ length self.entry.text.now
            → Covers self.entry.text.now result.items }
    {
        self.tokens
    }
}
