//! The flags of a pattern, and the letters that set them.

ghost use Rattle.std.specs.Prelude.{◌≡◌, ◌≤◌, length, IfOk};
ghost use Rattle.fancy_pattern.specs.Texts.{seen};
ghost use Rattle.fancy_pattern.specs.Flags.{with_letter, letter_step, end_step, minus_step, flag_step, letters_at, at_first};

use crate::characters::first;
use crate::error::fault_at;
use fancy_tokens::error::{ErrorKind, Fault};
use fancy_tokens::flags::Flags;

/// The flags with the one of this letter set or cleared.
pub(crate) fn with_letter(flags: Flags, letter: char, on: bool) -> Option<Flags>
    ensures { result ≡ with_letter flags letter on }
{
    match letter {
        'i' => Some(Flags { casei: on, ..flags }),
        'm' => Some(Flags {
            multi_line: on,
            ..flags
        }),
        's' => Some(Flags {
            dot_all: on,
            ..flags
        }),
        'x' => Some(Flags {
            ignore_whitespace: on,
            ..flags
        }),
        'R' => Some(Flags { crlf: on, ..flags }),
        'U' => Some(Flags {
            swap_greed: on,
            ..flags
        }),
        'u' => Some(Flags {
            unicode: on,
            ..flags
        }),
        _ => None,
    }
}

/// What the letters of a flags item come to.
#[derive(Clone, Copy)]
pub struct FlagsItem {
    pub flags: Flags,
    /// A colon ended them, so a group follows.
    pub is_group: bool,
}

/// What the characters of a flags item read so far come to.
#[derive(Clone, Copy)]
pub struct Letters {
    pub flags: Flags,
    /// No `-` was passed.
    pub on: bool,
    /// A letter is wanted, so the item cannot end.
    pub wanted: bool,
}

/// What one character of a flags item does.
#[derive(Clone, Copy)]
pub enum LetterStep {
    Goes(Letters),
    Ends(FlagsItem),
    Fails(ErrorKind),
}

fn letter_step(letters: Letters, c: char) -> LetterStep
    ensures { result ≡ letter_step letters c }
{
    match c {
        ')' => end_step(letters, false),
        ':' => end_step(letters, true),
        '-' => minus_step(letters),
        _ => flag_step(letters, c),
    }
}

fn end_step(letters: Letters, is_group: bool) -> LetterStep
    ensures { result ≡ end_step letters is_group }
{
    if letters.wanted {
        LetterStep::Fails(ErrorKind::UnknownFlag)
    } else {
        LetterStep::Ends(FlagsItem {
            flags: letters.flags,
            is_group,
        })
    }
}

fn minus_step(letters: Letters) -> LetterStep
    ensures { result ≡ minus_step letters }
{
    if letters.on {
        LetterStep::Goes(Letters {
            flags: letters.flags,
            on: false,
            wanted: true,
        })
    } else {
        LetterStep::Fails(ErrorKind::UnknownFlag)
    }
}

fn flag_step(letters: Letters, c: char) -> LetterStep
    ensures { result ≡ flag_step letters c }
{
    if c == 'u' && !letters.on {
        return LetterStep::Fails(ErrorKind::NonUnicodeUnsupported);
    }
    match with_letter(letters.flags, c, letters.on) {
        Some(flags) => LetterStep::Goes(Letters {
            flags,
            on: letters.on,
            wanted: false,
        }),
        None => LetterStep::Fails(ErrorKind::UnknownFlag),
    }
}

/// The letters of a flags item, from behind `(?` on, up to the parenthesis or the colon that ends them.
pub(crate) fn flags_at(flags: Flags, text: &[char]) -> Result<(FlagsItem, &[char]), Fault>
    ensures value { seen (λ p. (p.0, p.1.now)) result
        ≡ letters_at (at_first flags) text.now }
    ensures shorter { IfOk result (λ p. length p.1.now ≤ length text.now) }
{
    let mut letters = Letters {
        flags,
        on: true,
        wanted: true,
    };
    let mut rest = text;
    while let Some((c, after)) = first(rest) {
        match letter_step(letters, c) {
            LetterStep::Goes(next) => letters = next,
            LetterStep::Ends(item) => return Ok((item, after)),
            LetterStep::Fails(kind) => return Err(fault_at(kind, rest)),
        }
        rest = after;
    }
    Err(fault_at(ErrorKind::UnclosedOpenParen, rest))
}
