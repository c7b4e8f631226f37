//! Where a text has what each match contains, from line to line.

ghost use Rattle.fancy_literals.specs.Required.{OneOf, Piece};
ghost use Rattle.fancy_grep.specs.Needles.{needle_of};
ghost use Rattle.fancy_grep.specs.Standing.{StandsNowhere};

use crate::lines::Line;
use fancy_literals::required::Required;
use memchr::memmem::Finder;

/// What is looked for in a text.
#[derive(Drop)]
pub enum Needle<'n> {
    Literal(Finder<'n>),
    /// One byte of a set, by whether each byte is in it.
    OneOf(&'n [bool; 256]),
}

/// Where it stands next in a text.
#[derive(Drop)]
pub struct Occurrences<'t, 'n> {
    needle: Needle<'n>,
    text: &'t str,
    /// The byte from which it was looked for last.
    from: usize,
    /// Where it stands first from there on; past the text where it stands nowhere.
    next: usize,
    ghost passed: { StandsNowhere (needle_of needle) text.now from next },
}

impl<'n> Needle<'n> {
    ghost use Rattle.std.specs.Prelude.{◌≡◌};
    ghost use Rattle.fancy_literals.specs.Required.{required_of};

    fn new(required: &'n Required) -> Needle<'n>
        ensures { needle_of result ≡ required_of required.entry.now }
    {
        match required {
            Required::Literal(literal) => Needle::Literal(Finder::new(literal)),
            Required::OneOf(set) => Needle::OneOf(&set.bytes),
        }
    }

    /// Where it stands first in the text from this byte on; past the text where it stands nowhere.
    fn next_from(&self, text: &str, start: usize) -> usize
        ensures { StandsNowhere (needle_of self.now) text.now start result }
    {
        match self {
            Needle::Literal(literal) => literal_from(literal, text, start),
            Needle::OneOf(bytes) => byte_from(bytes, text.as_bytes(), start),
        }
    }
}

impl<'t, 'n> Occurrences<'t, 'n> {
    ghost use Rattle.std.specs.Prelude.{◌≡◌, ◌≤◌, false};
    ghost use Rattle.fancy_literals.specs.Required.{Lacks, required_of};
    ghost use Rattle.fancy_grep.specs.Lines.{line_of};
    ghost use Rattle.fancy_grep.specs.Occurrences.{sought};
    ghost use Rattle.fancy_grep.specs.Standing.{IsLineIn};

    pub fn new(required: &'n Required, text: &'t str) -> Occurrences<'t, 'n>
        ensures { sought result ≡ (required_of required.entry.now, text.entry.now) }
    {
        let needle = Needle::new(required);
        let next = needle.next_from(text, 0);
        Occurrences {
            needle,
            text,
            from: 0,
            next,
        }
    }

    /// Looks for it from this byte on, unless it is known where it stands next.
    fn come_to(&mut self, start: usize)
        ensures from { self.new.from ≤ start }
        ensures same { sought self.new ≡ sought self.old }
    {
        if start < self.from || self.next < start {
            self.next = self.needle.next_from(self.text, start);
            self.from = start;
        }
    }

    /// Whether it may be in a line of the text.
    pub fn may_stand_in(&mut self, line: Line<'_>) -> bool
        ensures same { sought self.new ≡ sought self.old }
        ensures lacks { IsLineIn self.old.text.now (line_of line.entry)
            → result ≡ false
            → Lacks (needle_of self.old.needle) line.entry.text.now }
    {
        self.come_to(line.start);
        self.next.saturating_sub(line.start) <= line.text.len()
    }
}

/// Where the literal begins first in the text from this byte on; past the text where it begins nowhere.
fn literal_from(literal: &Finder<'_>, text: &str, start: usize) -> usize
    ensures { StandsNowhere (Piece literal.now) text.now start result }
{
    if start > text.len() {
        return usize::MAX;
    }
    match literal.find(&text.as_bytes()[start..]) {
        Some(at) => start + at,
        None => usize::MAX,
    }
}

/// Where one of the bytes stands first in the text from this byte on; past the text where none does.
fn byte_from(bytes: &[bool; 256], text: &[u8], start: usize) -> usize
    ensures { StandsNowhere (OneOf bytes.now) text.now start result }
{
    'bytes: for at in start..text.len() {
        if bytes[text[at] as usize] {
            return at;
        }
    }
    usize::MAX
}
