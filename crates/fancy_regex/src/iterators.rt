//! All matches of a text, one after the other.

ghost use Rattle.std.specs.Prelude.{◌≡◌, ◌-◌, length, suc};
ghost use Rattle.std.specs.Iterator.{at_most};
ghost use Rattle.fancy_regex.specs.Lists.{NextCaptures, NextMatch};

use crate::error::Error;
use crate::found::Captures;
use crate::regexes::Regex;
use fancy_matches::cursor::Cursor;
use fancy_matches::found::Match;

/// The matches of a text from left to right, each with its groups; [`Regex::captures_iter`] makes it.
///
/// The next search begins where the last match ended, or one character further if that match was empty; then `\G` fails
/// there. An empty match directly after another match is left out. After an error there are no more items.
#[derive(Drop)]
pub struct CaptureMatches<'r, 't> {
    pub(crate) regex: &'r mut Regex,
    pub(crate) text: &'t str,
    pub(crate) cursor: Cursor,
}

impl<'r, 't> CaptureMatches<'r, 't> {
    /// The text that is searched.
    pub fn text(&self) -> &'t str
        ensures { result.now ≡ self.now.text.now }
    {
        self.text
    }

    /// The regex whose matches these are.
    pub fn regex(&self) -> &Regex
        ensures { result.now ≡ self.now.regex.now }
    {
        self.regex
    }
}

impl<'r, 't> Iterator for CaptureMatches<'r, 't> {
    type Item = Result<Captures<'t>, Error>;

    ghost next_gives = { NextCaptures };

    ghost remaining = { λ s. at_most (suc (length s.text.now) - s.cursor.pos) };

    fn next(&mut self) -> Option<Result<Captures<'t>, Error>> {
        self.regex.next_captures(self.text, &mut self.cursor)
    }
}

/// The matches of a text from left to right, without their groups; [`Regex::find_iter`] makes it. They are the matches of
/// [`CaptureMatches`]. After an error there are no more items.
#[derive(Drop)]
pub struct Matches<'r, 't> {
    pub(crate) regex: &'r mut Regex,
    pub(crate) text: &'t str,
    pub(crate) cursor: Cursor,
}

impl<'r, 't> Matches<'r, 't> {
    /// The text that is searched.
    pub fn text(&self) -> &'t str
        ensures { result.now ≡ self.now.text.now }
    {
        self.text
    }

    /// The regex whose matches these are.
    pub fn regex(&self) -> &Regex
        ensures { result.now ≡ self.now.regex.now }
    {
        self.regex
    }
}

impl<'r, 't> Iterator for Matches<'r, 't> {
    type Item = Result<Match<'t>, Error>;

    ghost next_gives = { NextMatch };

    ghost remaining = { λ s. at_most (suc (length s.text.now) - s.cursor.pos) };

    fn next(&mut self) -> Option<Result<Match<'t>, Error>> {
        self.regex.next_match(self.text, &mut self.cursor)
    }
}
