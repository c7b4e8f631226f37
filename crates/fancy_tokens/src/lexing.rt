//! What holds at a place of a pattern.

use crate::flags::Flags;

/// How far a class has come.
#[derive(Clone, Copy)]
pub enum Head {
    /// Directly behind a `[`.
    Start,
    /// Directly behind `[^`.
    Caret,
    Inner,
}

/// How many classes are open, one in the other, and how far the innermost has come.
#[derive(Clone, Copy)]
pub struct ClassPlace {
    pub depth: usize,
    pub head: Head,
}

/// What holds at a place of a pattern.
#[derive(Clone, Copy)]
pub struct Lexing {
    pub flags: Flags,
    /// How many groups were opened.
    pub opened: usize,
    /// The class that is open; with depth 0 none is.
    pub class: ClassPlace,
}
