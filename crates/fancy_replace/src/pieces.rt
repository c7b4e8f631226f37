//! The pieces of a text between its matches.

ghost use Rattle.std.specs.Iterator.{at_most};
ghost use Rattle.std.specs.Prelude.{◌<◌, IfSome};
ghost use Rattle.fancy_matches.specs.declared.matcher.Matcher as compiled_regex;

use crate::cuts::Cuts;
use fancy_expr::error::Error;
use fancy_matches::matcher::Matcher;

/// What is left of a text that is split. The matcher is handed to each call of `next`, and so is not borrowed meanwhile.
#[derive(Drop)]
pub struct Pieces<'t> {
    pub(crate) cuts: Cuts<'t>,
    pub(crate) has_ended: bool,
}

impl<'t> Pieces<'t> {
    ghost use Rattle.fancy_replace.specs.Splits.{CanGoOn, GivesPiece, HasPieces, MostPiecesJoin, PiecesAndMatchesJoin, all_pieces, most_pieces, pieces_remaining};

    /// All pieces of the text: one more than it has matches.
    pub fn all(text: &'t str) -> Pieces<'t>
        ensures pieces { (r : compiled_regex.Matcher)
            → HasPieces r text.now (all_pieces text.now) result }
        ensures join { (r : compiled_regex.Matcher) → PiecesAndMatchesJoin r text.now }
    {
        Pieces {
            cuts: Cuts::new(text, None),
            has_ended: false,
        }
    }

    /// At most `limit` pieces of the text. The last of them is the rest of the text, with the matches in it. There are
    /// none if `limit` is 0.
    pub fn at_most(text: &'t str, limit: usize) -> Pieces<'t>
        ensures pieces { (r : compiled_regex.Matcher)
            → HasPieces r text.now (most_pieces text.now limit) result }
        ensures join { (r : compiled_regex.Matcher) → MostPiecesJoin r text.now limit }
    {
        Pieces {
            cuts: Cuts::new(text, Some(limit.saturating_sub(1))),
            has_ended: limit == 0,
        }
    }

    /// The next piece, or `None` after the last. Each call gets the matcher that the first one got; the caller proves
    /// this.
    ///
    /// # Errors
    ///
    /// Those of a search, as an item; see `Matcher` of fancy_matches. It is the last item.
    pub fn next(&mut self, matcher: &mut Matcher) -> Option<Result<&'t str, Error>>
        requires { CanGoOn matcher.old self.old }
        ensures gives { GivesPiece (λ piece. piece.now) matcher.old self.old result matcher.new self.new }
        ensures can { CanGoOn matcher.new self.new }
        ensures further { IfSome
            result
            (λ item. pieces_remaining self.new < pieces_remaining self.old) }
    {
        if self.has_ended {
            return None;
        }
        match self.cuts.next(matcher) {
            Ok(Some(cut)) => Some(Ok(cut.piece)),
            Ok(None) => {
                self.has_ended = true;
                Some(Ok(self.cuts.rest()))
            }
            Err(error) => {
                self.has_ended = true;
                Some(Err(error))
            }
        }
    }
}

/// The pieces of a text between its matches, from left to right; [`split`](crate::split::split) and `splitn` make it.
/// It borrows the matcher.
///
/// # Errors
///
/// Those of a search, as an item; see `Matcher` of fancy_matches. It is the last item.
#[derive(Drop)]
pub struct Split<'r, 't> {
    pub(crate) matcher: &'r mut Matcher,
    pub(crate) pieces: Pieces<'t>,
}

impl<'r, 't> Iterator for Split<'r, 't> {
    ghost use Rattle.fancy_replace.specs.Splits.{CanGoOn, NextPiece, pieces_remaining};

    type Item = Result<&'t str, Error>;

    ghost can_next = { λ s. CanGoOn s.matcher.now s.pieces };

    ghost next_gives = { NextPiece (λ piece. piece.now) };

    ghost remaining = { λ s. at_most (pieces_remaining s.pieces) };

    fn next(&mut self) -> Option<Result<&'t str, Error>> {
        self.pieces.next(self.matcher)
    }
}
