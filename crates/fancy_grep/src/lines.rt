//! The lines of a text.

ghost use Rattle.std.specs.Prelude.{◌≡◌, ◌+◌, ◌-◌, ◌^◌, ◌<◌, length};
ghost use Rattle.std.specs.Iterator.{YieldsFirstBy, at_most};
ghost use Rattle.std.specs.List.{after_first, before_first};

use memchr::memchr;

/// A line of a text.
#[derive(Clone, Copy)]
pub struct Line<'t> {
    /// Its number, from 1.
    pub number: usize,
    /// Where it begins, in bytes of the text.
    pub start: usize,
    /// Its text, without the `\n` that ends it.
    pub text: &'t str,
}

/// The lines that are left of a text, in order.
#[derive(Drop)]
pub struct Lines<'t> {
    /// The number of the next line.
    number: usize,
    /// Where it begins.
    start: usize,
    /// The text from there on.
    rest: &'t str,
    ghost counted: { number + length rest.now < 2 ^ 64 },
    ghost placed: { start + length rest.now < 2 ^ 64 - 1 },
}

impl<'t> Lines<'t> {
    ghost use Rattle.fancy_grep.specs.Lines.{is_newline, lines_left, lines_of};

    /// The lines of a text: it is split at each `\n`, a last line without one counts, and an empty text has none.
    pub fn new(text: &'t str) -> Lines<'t>
        ensures { lines_left result ≡ lines_of text.entry.now }
    {
        Lines {
            number: 1,
            start: 0,
            rest: text,
        }
    }

    /// What is left up to the first `\n`, and what follows this; all of it and nothing where there is none.
    fn first_line(&self) -> (&'t str, &'t str)
        ensures line { result.0.now ≡ before_first is_newline self.now.rest.now }
        ensures rest { result.1.now ≡ after_first is_newline self.now.rest.now }
    {
        match memchr(b'\n', self.rest.as_bytes()) {
            None => (self.rest, ""),
            Some(at) => (&self.rest[..at], &self.rest[at + 1..]),
        }
    }
}

impl<'t> Iterator for Lines<'t> {
    ghost use Rattle.fancy_grep.specs.Lines.{line_of, lines_left};

    type Item = Line<'t>;

    ghost next_gives = { YieldsFirstBy line_of lines_left };

    ghost remaining = { λ s. at_most (length s.rest.now) };

    fn next(&mut self) -> Option<Line<'t>> {
        if self.rest.is_empty() {
            return None;
        }
        let (text, rest) = self.first_line();
        let line = Line {
            number: self.number,
            start: self.start,
            text,
        };
        self.number += 1;
        self.start += self.rest.len() - rest.len();
        self.rest = rest;
        Some(line)
    }
}
