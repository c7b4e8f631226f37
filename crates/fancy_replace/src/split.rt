//! Splits a text at its matches.

ghost use Rattle.fancy_replace.specs.Splits.{BeginsSplit, MostPiecesJoin, PiecesAndMatchesJoin};
ghost use Rattle.fancy_replace.specs.Splits.{all_pieces, most_pieces};

use crate::pieces::{Pieces, Split};
use fancy_matches::matcher::Matcher;

/// The pieces of the text between its matches, as an iterator: one more than there are matches. Two matches side by
/// side have an empty piece between them.
///
/// # Errors
///
/// Those of a search, as an item; see `Matcher` of fancy_matches. It is the last item.
///
/// # Examples
///
/// ```
/// for piece in split(&mut comma, "a, b,c") { .. } // "a", "b", "c", of the matcher `, *`
/// ```
pub fn split<'r, 't>(matcher: &'r mut Matcher, text: &'t str) -> Split<'r, 't>
    ensures pieces { BeginsSplit matcher.entry text.now (all_pieces text.now) result }
    ensures join { PiecesAndMatchesJoin matcher.old text.now }
{
    Split {
        matcher,
        pieces: Pieces::all(text),
    }
}

/// As [`split`], but at most `limit` pieces. The last of them is the rest of the text, with the matches in it. There
/// are none if `limit` is 0.
pub fn splitn<'r, 't>(matcher: &'r mut Matcher, text: &'t str, limit: usize) -> Split<'r, 't>
    ensures pieces { BeginsSplit matcher.entry text.now (most_pieces text.now limit) result }
    ensures join { MostPiecesJoin matcher.old text.now limit }
{
    Split {
        matcher,
        pieces: Pieces::at_most(text, limit),
    }
}
