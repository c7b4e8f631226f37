//! Where a host's list of matches stands.

ghost use Rattle.std.specs.Prelude.{◌≡◌};
ghost use Rattle.fancy_matches.specs.Matchers as matches;
ghost use Rattle.fancy_host.specs.Lists as lists;

use fancy_matches::cursor::Cursor;

/// Where a list of matches stands. Memory of zeros stands before the first match of a text.
#[repr(C)]
#[derive(Clone, Copy, Drop)]
pub struct FancyCursor {
    /// Where the next search begins; no place of the text once the list has ended.
    pub pos: usize,
    /// Where the last match of the list ended.
    pub last: usize,
    /// Whether there was one.
    pub has_last: bool,
}

impl FancyCursor {
    /// As a list holds it.
    pub fn cursor(&self) -> Cursor
        ensures { matches.cursor_of result ≡ lists.cursor_of self.now }
    {
        Cursor {
            pos: self.pos,
            last: if self.has_last { Some(self.last) } else { None },
        }
    }

    /// As a host holds it.
    pub fn of(cursor: &Cursor) -> FancyCursor
        ensures { lists.cursor_of result ≡ matches.cursor_of cursor.now }
    {
        FancyCursor {
            pos: cursor.pos,
            last: cursor.last.unwrap_or(0),
            has_last: cursor.last.is_some(),
        }
    }
}
