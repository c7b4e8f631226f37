//! Classes of patterns in Oniguruma's syntax.

use crate::translation::Translator;
use std::alloc::AllocError;

/// What was last in a class.
#[derive(Clone, Copy, Debug, PartialEq, Eq)]
pub(crate) enum Item {
    /// Nothing.
    Start,
    /// A character, with which a range may begin.
    Character,
    /// The dash of a range.
    Dash,
    /// A range or a set.
    Whole,
}

/// What is in the class of this name, of POSIX and in Unicode.
pub(crate) fn posix(name: &str) -> Option<&'static str> {
    Some(match name {
        "alnum" | "Alnum" => "\\p{L}\\p{M}\\p{Nd}",
        "alpha" | "Alpha" => "\\p{L}\\p{M}",
        "ascii" | "ASCII" => "\\x00-\\x7F",
        "blank" | "Blank" => "\\p{Zs}\\t",
        "cntrl" | "Cntrl" => "\\p{Cc}",
        "digit" | "Digit" => "\\p{Nd}",
        "graph" | "Graph" => "[^\\s\\p{C}]",
        "lower" | "Lower" => "\\p{Ll}",
        "print" | "Print" => "[^\\p{C}\\p{Zl}\\p{Zp}]",
        "punct" | "Punct" => "\\p{P}$+<=>\\^`|\\~",
        "space" | "Space" => "\\s",
        "upper" | "Upper" => "\\p{Lu}",
        "word" | "Word" => "\\w",
        "xdigit" | "XDigit" => "0-9A-Fa-f",
        _ => return None,
    })
}

/// A set of characters follows a backslash here.
fn is_set(c: char) -> bool {
    matches!(c, 'd' | 'D' | 's' | 'S' | 'w' | 'W' | 'h' | 'H' | 'p' | 'P')
}

/// The name of a class of POSIX at the beginning of what follows a `[`, whether it is negated, and what follows it.
fn posix_name(text: &str) -> Option<(&str, bool, &str)> {
    let (name, rest) = text.strip_prefix(':')?.split_once(":]")?;
    Some(match name.strip_prefix('^') {
        Some(name) => (name, true, rest),
        None => (name, false, rest),
    })
}

/// A range may end with what stands at the beginning of this text.
fn begins_with_character(text: &str) -> bool {
    let mut chars = text.chars();
    match chars.next() {
        None | Some(']') | Some('[') => false,
        Some('\\') => chars.next().is_some_and(|c| !is_set(c)),
        Some('&') => chars.next() != Some('&'),
        Some(_) => true,
    }
}

impl Translator<'_> {
    /// What follows the opening bracket of a class.
    pub(crate) fn open_class(&mut self) -> Result<(), AllocError> {
        self.set_last(Item::Whole);
        self.out.push('[')?;
        if let Some(rest) = self.left.strip_prefix('^') {
            self.left = rest;
            self.out.push('^')?;
        }
        let mut first = Item::Start;
        if let Some(rest) = self.left.strip_prefix(']') {
            self.left = rest;
            self.out.push_str("\\]")?;
            first = Item::Character;
        }
        self.classes.push(first)?;
        Ok(())
    }

    /// What was last in the innermost class.
    fn last(&self) -> Item {
        self.classes.last().copied().unwrap_or(Item::Start)
    }

    fn set_last(&mut self, item: Item) {
        if let Some(last) = self.classes.last_mut() {
            *last = item;
        }
    }

    /// Notes a character.
    fn note_character(&mut self) {
        self.set_last(match self.last() {
            Item::Dash => Item::Whole,
            _ => Item::Character,
        });
    }

    /// What follows a backslash in a class.
    fn class_escape(&mut self) -> Result<(), AllocError> {
        let Some(c) = self.next() else {
            return self.out.push('\\');
        };
        if is_set(c) {
            self.set_last(Item::Whole);
        } else {
            self.note_character();
        }
        match c {
            '0'..='7' => self.octal(c),
            _ => self.common_escape(c),
        }
    }

    /// A dash: of a range, if a character is before it and after it.
    fn dash(&mut self) -> Result<(), AllocError> {
        let next = match self.last() {
            Item::Character if begins_with_character(self.left) => {
                self.set_last(Item::Dash);
                return self.out.push('-');
            }
            Item::Start => Item::Character,
            _ => Item::Whole,
        };
        self.set_last(next);
        self.push_escaped('-')
    }

    /// A bracket in a class: a class of POSIX, or another class.
    fn inner_class(&mut self) -> Result<(), AllocError> {
        if let Some((name, is_not, rest)) = posix_name(self.left) {
            if let Some(members) = posix(name) {
                self.left = rest;
                self.set_last(Item::Whole);
                return self.push_class(is_not, members);
            }
        }
        self.open_class()
    }

    /// Writes a piece in a class, of which the first character is read.
    pub(crate) fn class_piece(&mut self, c: char) -> Result<(), AllocError> {
        match c {
            '\\' => self.class_escape(),
            '[' => self.inner_class(),
            ']' => {
                let _ = self.classes.pop();
                self.out.push(']')
            }
            '-' => self.dash(),
            '~' => {
                self.note_character();
                self.push_escaped('~')
            }
            '&' if self.left.starts_with('&') => {
                self.left = self.left.strip_prefix('&').unwrap_or(self.left);
                self.set_last(Item::Start);
                self.out.push_str("&&")
            }
            _ => {
                self.note_character();
                self.out.push(c)
            }
        }
    }
}
