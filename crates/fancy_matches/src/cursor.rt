//! How far a list of matches has come.

ghost use Rattle.std.specs.Prelude.{◌≡◌, ◌≤◌, length};
ghost use Rattle.fancy_steps.specs.Tasks.{options_of};
ghost use Rattle.fancy_matches.specs.Listing as list;

use fancy_characters::places::skip_any;
use fancy_vm::vm::RunOptions;

/// How far a list of matches has come. Positions are in bytes of the text.
#[derive(Clone, Copy, Debug, Drop)]
pub struct Cursor {
    /// Where the next search begins; after the end of the text once the list has ended.
    pub pos: usize,
    /// Where the last match of the list ended.
    pub last: Option<usize>,
}

impl Cursor {
    ghost use Rattle.fancy_matches.specs.Matchers.{cursor_of};

    /// A list before its first match.
    pub fn first() -> Cursor
        ensures { cursor_of result ≡ list.at_start }
    {
        Cursor { pos: 0, last: None }
    }

    /// The options of the next search. It is continued (`\G` holds) if it begins where the last match ended, or if it is the
    /// first.
    pub fn options(&self, base: &RunOptions) -> RunOptions
        ensures { options_of result ≡ list.options_at (options_of base.now) (cursor_of self.now) }
    {
        let continued = match self.last {
            None => true,
            Some(last) => last == self.pos,
        };
        RunOptions {
            pos: self.pos,
            continued,
            ..*base
        }
    }

    /// Ends the list: no text is as long as this position.
    pub fn end(&mut self)
        ensures { cursor_of self.new ≡ list.ended (cursor_of self.old) }
    {
        self.pos = usize::MAX;
    }

    /// Moves after a match that was found from byte `start` to byte `end` of the text, and returns whether it belongs to the
    /// list: it does not begin before its search, and it is not an empty match directly after the last one.
    pub fn pass(&mut self, text: &str, start: usize, end: usize) -> bool
        requires { end ≤ length text.now }
        ensures listed { result ≡ list.is_listed (cursor_of self.old) (start, end) }
        ensures after { cursor_of self.new
            ≡ list.after text.now (cursor_of self.old) (start, end) }
    {
        let ended_here = match self.last {
            None => false,
            Some(last) => last == end,
        };
        let is_listed = self.pos <= start && !(start == end && ended_here);
        self.pos = if self.pos.max(start) < end {
            end
        } else {
            match skip_any(text.as_bytes(), true, false, end) {
                None => end + 1,
                Some(next) => next,
            }
        };
        if is_listed {
            self.last = Some(end);
        }
        is_listed
    }
}
