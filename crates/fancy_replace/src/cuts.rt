//! Where a text is cut: at its matches, or the first of them.

ghost use Rattle.std.specs.Prelude.{◌≡◌, ◌-◌, ◌↔◌, IsTrue, Some, option_map};

use fancy_expr::error::Error;
use fancy_matches::cursor::Cursor;
use fancy_matches::found::Captures;
use fancy_matches::matcher::Matcher;

/// A match, and the piece before it, from where the last match ended.
#[derive(Drop)]
pub(crate) struct Cut<'t> {
    pub(crate) piece: &'t str,
    pub(crate) captures: Captures<'t>,
}

/// A text that is gone through match by match.
#[derive(Clone, Copy, Drop)]
pub(crate) struct Cuts<'t> {
    text: &'t str,
    cursor: Cursor,
    /// Where the last match ended, and 0 before the first.
    from: usize,
    /// How many more matches are gone through, if not all.
    limit: Option<usize>,
}

impl<'t> Cuts<'t> {
    ghost use Rattle.fancy_replace.specs.Steps.{HasAllCuts, IsAhead, IsAtPlace, NextCut, rest_of};

    pub(crate) fn new(text: &'t str, limit: Option<usize>) -> Cuts<'t>
        ensures { HasAllCuts text.now limit result }
    {
        Cuts {
            text,
            cursor: Cursor::first(),
            from: 0,
            limit,
        }
    }

    /// The next match, or none where none is left.
    pub(crate) fn next(&mut self, matcher: &mut Matcher) -> Result<Option<Cut<'t>>, Error>
        requires { IsAhead matcher.old self.old }
        ensures next { NextCut matcher.old self.old result matcher.new self.new }
        ensures ahead { IsAhead matcher.new self.new }
    {
        if is_spent(self.limit) {
            return Ok(None);
        }
        match matcher.next_captures(self.text, &mut self.cursor) {
            None => Ok(None),
            Some(Err(error)) => Err(error),
            Some(Ok(captures)) => {
                let whole = captures.whole();
                let piece = &self.text[self.from..whole.start()];
                self.from = whole.end();
                self.limit = one_less(self.limit);
                Ok(Some(Cut { piece, captures }))
            }
        }
    }

    /// What stands after the last match that was gone through.
    pub(crate) fn rest(self) -> &'t str
        requires { IsAtPlace self }
        ensures { result.now ≡ rest_of self.entry }
    {
        &self.text[self.from..]
    }
}

/// No more matches are gone through.
fn is_spent(limit: Option<usize>) -> bool
    ensures { IsTrue result ↔ (limit ≡ Some 0) }
{
    match limit {
        Some(0) => true,
        _ => false,
    }
}

/// The limit after one more match.
fn one_less(limit: Option<usize>) -> Option<usize>
    ensures { result ≡ option_map (λ n. n - 1) limit }
{
    match limit {
        Some(left) => Some(left.saturating_sub(1)),
        None => None,
    }
}
