//! Patterns in Oniguruma's syntax, written in ours piece by piece.

use crate::classes::{Item, posix};
use std::alloc::{AllocError, Global};

/// The anchors that may match somewhere.
#[derive(Clone, Copy, Debug, PartialEq, Eq)]
pub(crate) struct Anchors {
    /// `\A`.
    pub(crate) start: bool,
    /// `\G`.
    pub(crate) search: bool,
}

/// A pattern in our syntax.
#[derive(Drop)]
pub(crate) struct Translated {
    pub(crate) text: String,
    /// Where each piece of it begins, and where the piece in Oniguruma's syntax does.
    pieces: Vec<(usize, usize)>,
}

impl Translated {
    /// The first byte, in Oniguruma's syntax, of the piece that has this byte.
    pub(crate) fn byte_before(&self, at: usize) -> usize {
        for (ours, theirs) in self.pieces.iter().rev() {
            if *ours <= at {
                return *theirs;
            }
        }
        0
    }
}

/// Writes a pattern in our syntax.
#[derive(Drop)]
pub(crate) struct Translator<'p> {
    anchors: Anchors,
    /// What is not read yet.
    pub(crate) left: &'p str,
    pub(crate) out: String,
    /// White space and comments do not count.
    is_extended: bool,
    /// Whether they did not count around each open group.
    groups: Vec<bool>,
    /// What was last in each open class.
    pub(crate) classes: Vec<Item>,
}

/// The flags of a group, and what follows them.
#[derive(Clone, Copy)]
struct Flags<'p> {
    text: &'p str,
    /// They are of the group that they open, and not of what follows.
    opens: bool,
    rest: &'p str,
}

/// The flags at the beginning of what follows `(?`.
fn flags_at(left: &str) -> Option<Flags<'_>> {
    let rest = left.trim_start_matches(|c: char| c == '-' || c.is_ascii_alphabetic());
    let text = left.strip_suffix(rest)?;
    if text.is_empty() {
        return None;
    }
    let (opens, rest) = match rest.strip_prefix(':') {
        Some(rest) => (true, rest),
        None => (false, rest.strip_prefix(')')?),
    };
    Some(Flags { text, opens, rest })
}

/// The number that the first digits of a text are, octal or hexadecimal and at most so many, and what follows them.
fn digits(text: &str, is_octal: bool, most: usize) -> (u32, &str) {
    let radix = if is_octal { 8 } else { 16 };
    let mut number = 0u32;
    let mut rest = text;
    for _ in 0..most {
        let mut chars = rest.chars();
        let Some(c) = chars.next() else {
            break;
        };
        let Some(digit) = c.to_digit(radix) else {
            break;
        };
        number = number.saturating_mul(radix).saturating_add(digit);
        rest = chars.as_str();
    }
    (number, rest)
}

/// The number of a character, or of one close to it if no character has this number.
fn nearest(number: u32) -> u32 {
    match number {
        0xD800..=0xDFFF => 0xD7FF,
        _ => number.min(0x10_FFFF),
    }
}

impl<'p> Translator<'p> {
    /// Reads the next character.
    pub(crate) fn next(&mut self) -> Option<char> {
        let mut chars = self.left.chars();
        let c = chars.next()?;
        self.left = chars.as_str();
        Some(c)
    }

    /// Writes a character with a backslash before it.
    pub(crate) fn push_escaped(&mut self, c: char) -> Result<(), AllocError> {
        self.out.push('\\')?;
        self.out.push(c)
    }

    /// Writes the character with this number.
    fn push_number(&mut self, number: u32) -> Result<(), AllocError> {
        let number = nearest(number);
        write!(self.out, "\\x{{{number:x}}}")
    }

    /// What follows `\x`.
    fn hexadecimal(&mut self) -> Result<(), AllocError> {
        let (number, rest) = match self.left.strip_prefix('{') {
            Some(inner) => {
                let (number, rest) = digits(inner, false, 8);
                (number, rest.strip_prefix('}').unwrap_or(rest))
            }
            None => digits(self.left, false, 2),
        };
        self.left = rest;
        self.push_number(number)
    }

    /// A number in octal digits, of which the first is read.
    pub(crate) fn octal(&mut self, first: char) -> Result<(), AllocError> {
        let (number, rest) = digits(self.left, true, 2);
        let length = self.left.len().saturating_sub(rest.len());
        let first = first.to_digit(8).unwrap_or(0);
        self.left = rest;
        let above = match length {
            0 => 1u32,
            1 => 8,
            _ => 64,
        };
        self.push_number(first.saturating_mul(above).saturating_add(number))
    }

    /// What follows `\c`, or `\C-`.
    fn control(&mut self) -> Result<(), AllocError> {
        if let Some(rest) = self.left.strip_prefix('-') {
            self.left = rest;
        }
        match self.next() {
            Some(c) => self.push_number(c as u32 & 0x1F),
            None => Ok(()),
        }
    }

    /// What follows `\p` or `\P`.
    fn property(&mut self, letter: char) -> Result<(), AllocError> {
        let Some(inner) = self.left.strip_prefix('{') else {
            return self.push_escaped(letter);
        };
        let (name, rest) = match inner.split_once('}') {
            Some(parts) => parts,
            None => (inner, ""),
        };
        self.left = rest;
        let bare = name.trim_start_matches('^');
        let is_not = (letter == 'P') != (bare.len() < name.len());
        match posix(bare) {
            Some(members) => self.push_class(is_not, members),
            None if is_not => write!(self.out, "\\P{{{bare}}}"),
            None => write!(self.out, "\\p{{{bare}}}"),
        }
    }

    /// Writes a class.
    pub(crate) fn push_class(&mut self, is_not: bool, members: &str) -> Result<(), AllocError> {
        self.out.push_str(if is_not { "[^" } else { "[" })?;
        self.out.push_str(members)?;
        self.out.push(']')
    }

    /// Writes what means the same in and outside classes, behind a backslash.
    pub(crate) fn common_escape(&mut self, c: char) -> Result<(), AllocError> {
        match c {
            'x' => self.hexadecimal(),
            'p' | 'P' => self.property(c),
            '0' => self.octal(c),
            'c' | 'C' => self.control(),
            'd'
            | 'D'
            | 's'
            | 'S'
            | 'w'
            | 'W'
            | 'h'
            | 'H'
            | 'a'
            | 'b'
            | 'e'
            | 'f'
            | 'n'
            | 'r'
            | 't'
            | 'v'
            | 'u' => self.push_escaped(c),
            '<' | '>' => self.out.push(c),
            _ if c.is_ascii_alphabetic() => self.out.push(c),
            _ => self.push_escaped(c),
        }
    }

    /// What follows a backslash outside classes.
    fn escape(&mut self) -> Result<(), AllocError> {
        let Some(c) = self.next() else {
            return self.out.push('\\');
        };
        match c {
            'A' if !self.anchors.start => self.out.push_str("(?!)"),
            'G' if !self.anchors.search => self.out.push_str("(?!)"),
            'X' => self.out.push_str("(?>\\P{M}\\p{M}*)"),
            'A' | 'B' | 'G' | 'K' | 'N' | 'O' | 'R' | 'Z' | 'g' | 'k' | 'z' => self.push_escaped(c),
            _ => self.common_escape(c),
        }
    }

    /// Writes flags: `m` is our `s`, and `x` also says what counts from here on.
    fn push_flags(&mut self, flags: &str) -> Result<(), AllocError> {
        let mut is_set = true;
        for c in flags.chars() {
            match c {
                '-' => {
                    is_set = false;
                    self.out.push('-')?;
                }
                'm' => self.out.push('s')?,
                'i' => self.out.push('i')?,
                'x' => {
                    self.is_extended = is_set;
                    self.out.push('x')?;
                }
                _ => {}
            }
        }
        Ok(())
    }

    /// What follows an opening parenthesis.
    fn group(&mut self) -> Result<(), AllocError> {
        if let Some(comment) = self.left.strip_prefix("?#") {
            self.left = match comment.split_once(')') {
                Some((_, rest)) => rest,
                None => "",
            };
            return Ok(());
        }
        self.out.push('(')?;
        let around = self.is_extended;
        if let Some(Some(flags)) = self.left.strip_prefix('?').map(flags_at) {
            self.left = flags.rest;
            self.out.push('?')?;
            self.push_flags(flags.text)?;
            if !flags.opens {
                return self.out.push(')');
            }
            self.out.push(':')?;
        }
        self.groups.push(around)?;
        Ok(())
    }

    /// Writes a piece outside classes, of which the first character is read.
    fn piece(&mut self, c: char) -> Result<(), AllocError> {
        match c {
            '\\' => self.escape(),
            '[' => self.open_class(),
            '(' => self.group(),
            ')' => {
                self.is_extended = self.groups.pop().unwrap_or(false);
                self.out.push(')')
            }
            '#' if self.is_extended => {
                self.left = match self.left.split_once('\n') {
                    Some((_, rest)) => rest,
                    None => "",
                };
                Ok(())
            }
            _ => self.out.push(c),
        }
    }
}

/// Writes a pattern of Oniguruma's in our syntax; `\A` and `\G` match nowhere, if they may not.
pub(crate) fn translate(
    alloc: Global,
    pattern: &str,
    anchors: Anchors,
) -> Result<Translated, AllocError> {
    let mut pieces = Vec::new(alloc);
    let mut translator = Translator {
        anchors,
        left: pattern,
        out: String::new(alloc),
        is_extended: false,
        groups: Vec::new(alloc),
        classes: Vec::new(alloc),
    };
    for _ in 0..=pattern.len() {
        let at = pattern.len().saturating_sub(translator.left.len());
        pieces.push((translator.out.len(), at))?;
        let Some(c) = translator.next() else {
            break;
        };
        if translator.classes.is_empty() {
            translator.piece(c)?;
        } else {
            translator.class_piece(c)?;
        }
    }
    Ok(Translated {
        text: translator.out,
        pieces,
    })
}
