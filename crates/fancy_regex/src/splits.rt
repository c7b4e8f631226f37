//! A text is split at its matches.

ghost use Rattle.std.specs.Prelude.{◌<◌, IfSome};
ghost use Rattle.std.specs.Iterator.{at_most};
ghost use Rattle.fancy_replace.specs.Splits.{MostPiecesJoin, PiecesAndMatchesJoin, all_pieces, most_pieces, pieces_remaining};
ghost use Rattle.fancy_regex.specs.Regexes.{engine_of};
ghost use Rattle.fancy_regex.specs.Splits.{BeginsSplit, CanGoOn, GivesPiece, NextPiece};

use crate::error::Error;
use crate::regexes::Regex;
use fancy_replace::pieces::Pieces;

/// The pieces of a text between its matches, from left to right; [`Regex::split`] makes it. There is one more piece than
/// there are matches. After an error there are no more items.
#[derive(Drop)]
pub struct Split<'r, 't> {
    pub(crate) regex: &'r mut Regex,
    pub(crate) pieces: Pieces<'t>,
}

impl<'r, 't> Iterator for Split<'r, 't> {
    type Item = Result<&'t str, Error>;

    ghost can_next = { λ s. CanGoOn s.regex.now s.pieces };

    ghost next_gives = { NextPiece (λ piece. piece.now) };

    ghost remaining = { λ s. at_most (pieces_remaining s.pieces) };

    fn next(&mut self) -> Option<Result<&'t str, Error>> {
        self.regex.next_piece(&mut self.pieces)
    }
}

impl Regex {
    /// The next piece of a text. After an error there are no more.
    pub(crate) fn next_piece<'t>(
        &mut self,
        pieces: &mut Pieces<'t>,
    ) -> Option<Result<&'t str, Error>>
        requires { CanGoOn self.old pieces.old }
        ensures gives { GivesPiece
            (λ piece. piece.now)
            self.old pieces.old result self.new pieces.new }
        ensures can { CanGoOn self.new pieces.new }
        ensures further { IfSome
            result
            (λ item. pieces_remaining pieces.new < pieces_remaining pieces.old) }
    {
        match pieces.next(&mut self.engine) {
            None => None,
            Some(Ok(piece)) => Some(Ok(piece)),
            Some(Err(error)) => Some(Err(self.told(error))),
        }
    }

    /// The pieces of the text between its matches, as an iterator. There is one more piece than there are matches, and a
    /// piece can be empty. The iterator borrows the regex.
    ///
    /// # Errors
    ///
    /// An item can be an error of the search; see [`Regex`]. No item follows it.
    ///
    /// # Examples
    ///
    /// ```
    /// let mut comma = Regex::new(alloc, ",\\s*")?;
    /// for piece in comma.split("one, two,three") {
    ///     let text = piece?; // "one", then "two", then "three"
    /// }
    /// ```
    pub fn split<'r, 't>(&'r mut self, text: &'t str) -> Split<'r, 't>
        ensures pieces { BeginsSplit self.entry text.now (all_pieces text.now) result }
        ensures join { PiecesAndMatchesJoin (engine_of self.old) text.now }
    {
        Split {
            regex: self,
            pieces: Pieces::all(text),
        }
    }

    /// As `split`, but with `limit` pieces at most. The last of them is the rest of the text, with all its matches.
    ///
    /// # Errors
    ///
    /// Those of `split`.
    pub fn splitn<'r, 't>(&'r mut self, text: &'t str, limit: usize) -> Split<'r, 't>
        ensures pieces { BeginsSplit self.entry text.now (most_pieces text.now limit) result }
        ensures join { MostPiecesJoin (engine_of self.old) text.now limit }
    {
        Split {
            regex: self,
            pieces: Pieces::at_most(text, limit),
        }
    }
}
