//! The parentheses of a pattern: what each pair begins, and which leaves of the tree are in it.

use crate::outcome::Written;
use crate::source::Span;
use std::alloc::{AllocError, Global};

/// What an opening parenthesis begins.
#[derive(Clone, Copy, PartialEq, Eq)]
pub enum Opening {
    Group,
    Look,
    Atomic,
    Absent,
    Define,
    Conditional,
    /// It adds no node, and may set flags for what is in it.
    Plain,
    /// A flags item, `(?i)`.
    Flags,
}

/// A pair of parentheses: where it is in the pattern, and which leaves are in it, from this one on and up to another.
#[derive(Clone, Copy)]
pub struct Pair {
    pub opening: Opening,
    pub span: Span,
    pub leaves: Span,
}

/// What may follow a parenthesis, each line before those with which it begins.
static OPENINGS: [(&str, Opening); 12] = [
    ("(?=", Opening::Look),
    ("(?!", Opening::Look),
    ("(?<=", Opening::Look),
    ("(?<!", Opening::Look),
    ("(?>", Opening::Atomic),
    ("(?~", Opening::Absent),
    ("(?(DEFINE)", Opening::Define),
    ("(?(", Opening::Conditional),
    ("(?<", Opening::Group),
    ("(?P<", Opening::Group),
    ("(?'", Opening::Group),
    ("(?", Opening::Plain),
];

/// How the text begins that has a parenthesis at its front, and what that begins.
fn opening_of(text: &str) -> (&'static str, Opening) {
    for (front, opening) in &OPENINGS {
        if text.starts_with(front) {
            return (front, *opening);
        }
    }
    ("(", Opening::Group)
}

/// What is between the parentheses of this piece, without what follows the opening one.
pub fn inside(piece: &str) -> &str {
    let (front, _) = opening_of(piece);
    let inner = piece.strip_prefix(front).unwrap_or(piece);
    inner.strip_suffix(')').unwrap_or(inner)
}

/// The letters of the flags that a text begins with, behind `(?`, and what ends them.
pub fn flags_of(text: &str) -> Option<(&str, char)> {
    let letters = text.strip_prefix("(?")?;
    for (i, c) in letters.char_indices() {
        if matches!(c, ')' | ':') {
            return Some((letters.get(..i)?, c));
        }
        if !c.is_ascii_alphabetic() && c != '-' {
            return None;
        }
    }
    None
}

/// The parentheses up to a place of the pattern.
#[derive(Drop)]
struct Scanner<'p> {
    pattern: &'p str,
    /// Where the leaves are.
    spans: &'p [Span],
    found: Vec<Pair>,
    /// Which of them are open.
    open: Vec<usize>,
    /// How many leaves are passed.
    passed: usize,
    /// What is before this byte is read.
    next: usize,
}

impl<'p> Scanner<'p> {
    fn rest(&self, at: usize) -> &'p str {
        self.pattern.get(at..).unwrap_or("")
    }

    fn open(&mut self, at: usize, opening: Opening) -> Written {
        self.open.push(self.found.len())?;
        self.found.push(Pair {
            opening,
            span: (at, at),
            leaves: (self.passed, self.passed),
        })?;
        Ok(())
    }

    fn close(&mut self, at: usize) {
        let index = self.open.pop().unwrap_or(0);
        if let Some(brackets) = self.found.get_mut(index) {
            brackets.span.1 = at.saturating_add(1);
            brackets.leaves.1 = self.passed;
        }
    }

    /// Passes the leaves at this byte, up to another; a conditional may begin with them.
    fn pass(&mut self, at: usize, end: usize) -> Written {
        if self.rest(at).starts_with("(?(") {
            self.open(at, Opening::Conditional)?;
        }
        for (start, _) in self.spans.get(self.passed..).unwrap_or(&[]) {
            if *start != at {
                break;
            }
            self.passed = self.passed.saturating_add(1);
        }
        self.next = end;
        Ok(())
    }

    /// Passes a comment that ends with this character.
    fn skip(&mut self, at: usize, close: char) {
        let length = self.rest(at).find(close).unwrap_or(self.pattern.len());
        self.next = at.saturating_add(length).saturating_add(1);
    }

    /// Reads the parenthesis at this byte.
    fn read_opening(&mut self, at: usize) -> Written {
        if self.rest(at).starts_with("(?#") {
            self.skip(at, ')');
            return Ok(());
        }
        let (_, opening) = opening_of(self.rest(at));
        match (opening, flags_of(self.rest(at))) {
            (Opening::Plain, Some((_, ')'))) => self.open(at, Opening::Flags),
            // that of a condition, which is a pattern
            (Opening::Group, _) if self.pattern.get(..at).unwrap_or("").ends_with("(?") => {
                self.open(at, Opening::Plain)
            }
            _ => self.open(at, opening),
        }
    }

    /// Reads the character at this byte. What is no leaf and no parenthesis is passed, and so is a comment.
    fn read(&mut self, at: usize, c: char) -> Written {
        match (self.spans.get(self.passed).copied(), c) {
            (Some((start, end)), _) if start == at => self.pass(at, end)?,
            (_, '(') => self.read_opening(at)?,
            (_, ')') => self.close(at),
            (_, '#') => self.skip(at, '\n'),
            _ => {}
        }
        Ok(())
    }
}

/// The pairs of parentheses of a pattern with these leaves, in the order in which they open.
pub fn brackets(alloc: Global, pattern: &str, spans: &[Span]) -> Result<Vec<Pair>, AllocError> {
    let mut scanner = Scanner {
        pattern,
        spans,
        found: Vec::new(alloc),
        open: Vec::new(alloc),
        passed: 0,
        next: 0,
    };
    for (at, c) in pattern.char_indices() {
        if at >= scanner.next {
            scanner.read(at, c)?;
        }
    }
    Ok(scanner.found)
}
