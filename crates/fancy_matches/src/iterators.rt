//! All matches of a text, one after the other.

ghost use Rattle.std.specs.Prelude.{◌≡◌, ◌-◌, length, suc};
ghost use Rattle.std.specs.Iterator.{at_most};

use crate::cursor::Cursor;
use crate::found::{Captures, Match};
use crate::matcher::Matcher;
use fancy_expr::error::Error;

/// The matches of a text from left to right, each with its groups; `Matcher::captures_iter` makes it.
///
/// The next search begins where the last match ended, or one character further if that match was empty; then `\G` fails
/// there. An empty match directly after another match is left out. After an error there are no more items.
#[derive(Drop)]
pub struct CaptureMatches<'r, 't> {
    pub(crate) matcher: &'r mut Matcher,
    pub(crate) text: &'t str,
    pub(crate) cursor: Cursor,
}

impl<'r, 't> Iterator for CaptureMatches<'r, 't> {
    ghost use Rattle.fancy_matches.specs.Matchers.{NextCaptures};

    type Item = Result<Captures<'t>, Error>;

    ghost next_gives = { NextCaptures };

    ghost remaining = { λ s. at_most (suc (length s.text.now) - s.cursor.pos) };

    fn next(&mut self) -> Option<Result<Captures<'t>, Error>> {
        self.matcher.next_captures(self.text, &mut self.cursor)
    }
}

/// The matches of a text from left to right, without their groups; `Matcher::find_iter` makes it. They are the matches of
/// `CaptureMatches`. After an error there are no more items.
#[derive(Drop)]
pub struct Matches<'r, 't> {
    pub(crate) matcher: &'r mut Matcher,
    pub(crate) text: &'t str,
    pub(crate) cursor: Cursor,
}

impl<'r, 't> Iterator for Matches<'r, 't> {
    ghost use Rattle.fancy_matches.specs.Matchers.{NextMatch};

    type Item = Result<Match<'t>, Error>;

    ghost next_gives = { NextMatch };

    ghost remaining = { λ s. at_most (suc (length s.text.now) - s.cursor.pos) };

    fn next(&mut self) -> Option<Result<Match<'t>, Error>> {
        self.matcher.next_match(self.text, &mut self.cursor)
    }
}
