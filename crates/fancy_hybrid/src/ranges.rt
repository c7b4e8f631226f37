//! The characters that nodes take, as sets of the kit.

ghost use Rattle.std.specs.Prelude.{IfOk};
ghost use Rattle.std.specs.Char.{eq_ignore_ascii_case};
ghost use Rattle.fancy_meaning.specs.Chars.{any_takes, fold_equal, literal_takes};
ghost use Rattle.fancy_agreement.specs.First.{IsSameTest};

use regex_class::{Class, MAX};
use std::alloc::{AllocError, Global};

const LF: u32 = 0x0A;

const CR: u32 = 0x0D;

/// All characters, without LF unless `newline`, and then also without CR with `crlf`.
pub(crate) fn of_any(alloc: Global, newline: bool, crlf: bool) -> Result<Class, AllocError>
    ensures { IfOk result (λ class. IsSameTest class.ranges.items (any_takes newline crlf)) }
{
    if newline {
        return Class::from_ranges(alloc, &[(0, MAX)]);
    }
    if crlf {
        return Class::from_ranges(alloc, &[(0, LF - 1), (LF + 1, CR - 1), (CR + 1, MAX)]);
    }
    Class::from_ranges(alloc, &[(0, LF - 1), (LF + 1, MAX)])
}

/// The character, and with `casei` each other that folds to the same.
pub(crate) fn of_literal(
    alloc: Global,
    c: char,
    casei: bool,
    unicode: bool,
) -> Result<Class, AllocError>
    ensures { IfOk result (λ class. IsSameTest class.ranges.items (literal_takes unicode c casei)) }
{
    if !casei {
        return Class::from_ranges(alloc, &[(c as u32, c as u32)]);
    }
    if unicode {
        folded(alloc, c)
    } else {
        both_cases(alloc, c)
    }
}

/// The characters with the same simple folding.
fn folded(alloc: Global, c: char) -> Result<Class, AllocError>
    ensures { IfOk result (λ class. IsSameTest class.ranges.items (fold_equal c)) }
{
    let one = Class::from_ranges(alloc, &[(c as u32, c as u32)])?;
    let mut ranges = Vec::from_slice(alloc, &[(c as u32, c as u32)])?;
    one.append_image(ucd_case::fold_pairs(), &mut ranges)?;
    Class::new(ranges)
}

/// The character with its small letter and its capital, if it is an ASCII letter.
fn both_cases(alloc: Global, c: char) -> Result<Class, AllocError>
    ensures { IfOk result (λ class. IsSameTest class.ranges.items (eq_ignore_ascii_case c)) }
{
    let small = c.to_ascii_lowercase() as u32;
    let capital = c.to_ascii_uppercase() as u32;
    Class::from_ranges(
        alloc,
        &[(c as u32, c as u32), (small, small), (capital, capital)],
    )
}
