//! The names of groups, and what names a group.

ghost use Rattle.std.specs.Prelude.{◌≡◌, ◌^◌, ◌<◌, ◌≤◌, ◌+◌, length, IfOk};
ghost use Rattle.fancy_pattern.specs.Texts.{seen, is_name_start};
ghost use Rattle.fancy_pattern.specs.Names.{name_at, number_at, back, onward, target_at, level_at, signed_level_at, level_for, closed_at, reference_at, closing_of, closing_brace, delimited_at, named_at};
ghost use Rattle.fancy_tokens.specs.PatternViews.{target_of, reference_of};

use crate::characters::{Test, first, split_run};
use crate::error::fault_at;
use crate::numbers::{level, number};
use fancy_tokens::error::{ErrorKind, Fault};
use fancy_tokens::tokens::{Naming, Reference, Target};
use unicode::properties::is_alphabetic;

fn is_name_start(c: char) -> bool
    ensures { result ≡ is_name_start c }
{
    c == '_' || is_alphabetic(c)
}

/// The name at the front.
#[tactic(auto, unfolding(crate::specs::Names::name_at))]
pub(crate) fn name_at(text: &[char]) -> Result<(&[char], &[char]), Fault>
    ensures value { seen (λ p. (p.0.now, p.1.now)) result ≡ name_at text.now }
    ensures shorter { IfOk result (λ p. length p.1.now ≤ length text.now) }
{
    match first(text) {
        Some((c, _)) if is_name_start(c) => Ok(split_run(text, Test::NameChar)),
        _ => Err(fault_at(ErrorKind::InvalidGroupName, text)),
    }
}

/// The number at the front.
#[tactic(auto, unfolding(crate::specs::Names::number_at))]
pub(crate) fn number_at(text: &[char]) -> Result<(usize, &[char]), Fault>
    ensures value { seen (λ p. (p.0, p.1.now)) result ≡ number_at text.now }
    ensures shorter { IfOk result (λ p. length p.1.now ≤ length text.now) }
{
    let (digits, rest) = split_run(text, Test::Digit);
    if digits.is_empty() {
        return Err(fault_at(ErrorKind::InvalidGroupName, text));
    }
    match number(digits, 10) {
        Some(number) => Ok((number, rest)),
        None => Err(fault_at(ErrorKind::InvalidBackref, text)),
    }
}

/// The group so far back from here.
fn back<'a>(opened: usize, number: usize) -> Target<'a>
    ensures { target_of result ≡ back opened number }
{
    if number > 0 && number <= opened {
        Target::Number(opened - number + 1)
    } else {
        Target::Nowhere
    }
}

/// The group so far on from here.
fn onward<'a>(opened: usize, number: usize) -> Target<'a>
    ensures { target_of result ≡ onward opened number }
{
    if number == 0 {
        return Target::Nowhere;
    }
    match opened.checked_add(number) {
        Some(group) => Target::Number(group),
        None => Target::Nowhere,
    }
}

/// What names a group: a name, a number, or a number with a sign, counted from here, where so many groups were opened.
#[tactic(auto, unfolding(crate::specs::Names::target_at))]
pub(crate) fn target_at(opened: usize, text: &[char]) -> Result<(Target<'_>, &[char]), Fault>
    ensures value { seen (λ p. (target_of p.0, p.1.now)) result ≡ target_at opened text.now }
    ensures shorter { IfOk result (λ p. length p.1.now ≤ length text.now) }
{
    match first(text) {
        Some(('-', after)) => {
            let (number, rest) = number_at(after)?;
            Ok((back(opened, number), rest))
        }
        Some(('+', after)) => {
            let (number, rest) = number_at(after)?;
            Ok((onward(opened, number), rest))
        }
        Some((c, _)) if c.is_ascii_digit() => {
            let (number, rest) = number_at(text)?;
            Ok((Target::Number(number), rest))
        }
        _ => {
            let (name, rest) = name_at(text)?;
            Ok((Target::Name(name), rest))
        }
    }
}

/// The level at the front, a number with a sign; none where no sign stands there.
#[tactic(auto, unfolding(crate::specs::Names::level_at))]
pub(crate) fn level_at(text: &[char]) -> Result<(Option<isize>, &[char]), Fault>
    ensures value { seen (λ p. (p.0, p.1.now)) result ≡ level_at text.now }
    ensures shorter { IfOk result (λ p. length p.1.now ≤ length text.now) }
{
    match first(text) {
        Some(('-', after)) => signed_level_at(after, true),
        Some(('+', after)) => signed_level_at(after, false),
        _ => Ok((None, text)),
    }
}

#[tactic(auto, unfolding(crate::specs::Names::signed_level_at))]
fn signed_level_at(text: &[char], negative: bool) -> Result<(Option<isize>, &[char]), Fault>
    ensures value { seen (λ p. (p.0, p.1.now)) result ≡ signed_level_at negative text.now }
    ensures shorter { IfOk result (λ p. length p.1.now ≤ length text.now) }
{
    let (digits, rest) = split_run(text, Test::Digit);
    if digits.is_empty() {
        return Err(fault_at(ErrorKind::InvalidGroupName, text));
    }
    match level(digits, negative) {
        Some(level) => Ok((Some(level), rest)),
        None => Err(fault_at(ErrorKind::InvalidBackref, text)),
    }
}

/// What follows this character, which has to stand behind what names a group.
#[tactic(auto, unfolding(crate::specs::Names::closed_at))]
pub(crate) fn closed_at(close: char, text: &[char]) -> Result<&[char], Fault>
    ensures value { seen (λ t. t.now) result ≡ closed_at close text.now }
    ensures shorter { IfOk result (λ t. length t.now ≤ length text.now) }
{
    match first(text) {
        Some((c, rest)) if c == close => Ok(rest),
        _ => Err(fault_at(ErrorKind::InvalidGroupName, text)),
    }
}

/// What names a group, with its level where it may have one, up to the character that closes it.
#[tactic(auto, unfolding(crate::specs::Names::reference_at))]
pub(crate) fn reference_at(
    opened: usize,
    naming: Naming,
    close: char,
    text: &[char],
) -> Result<(Reference<'_>, &[char]), Fault>
    ensures value { seen (λ p. (reference_of p.0, p.1.now)) result
        ≡ reference_at opened naming close text.now }
    ensures shorter { IfOk result (λ p. length p.1.now ≤ length text.now) }
{
    let (target, rest) = target_at(opened, text)?;
    let (level, rest) = level_for(naming, rest)?;
    let rest = closed_at(close, rest)?;
    Ok((
        Reference {
            naming,
            target,
            level,
            left: text.len(),
        },
        rest,
    ))
}

/// A call has no level.
fn level_for(naming: Naming, text: &[char]) -> Result<(Option<isize>, &[char]), Fault>
    ensures value { seen (λ p. (p.0, p.1.now)) result ≡ level_for naming text.now }
    ensures shorter { IfOk result (λ p. length p.1.now ≤ length text.now) }
{
    match naming {
        Naming::Call => Ok((None, text)),
        Naming::Backref { .. } => level_at(text),
        Naming::Exists => level_at(text),
    }
}

/// What names a group, between `<` and `>`, quotes, or where they may stand braces.
#[tactic(auto, unfolding(crate::specs::Names::delimited_at))]
pub(crate) fn delimited_at(
    opened: usize,
    naming: Naming,
    text: &[char],
) -> Result<(Reference<'_>, &[char]), Fault>
    ensures value { seen (λ p. (reference_of p.0, p.1.now)) result
        ≡ delimited_at opened naming text.now }
    ensures shorter { IfOk result (λ p. length p.1.now ≤ length text.now) }
{
    match first(text) {
        Some((c, after)) => match closing_of(naming, c) {
            Some(close) => reference_at(opened, naming, close, after),
            None => Err(fault_at(ErrorKind::InvalidGroupName, text)),
        },
        None => Err(fault_at(ErrorKind::InvalidGroupName, text)),
    }
}

/// The character that closes what this one opens. Braces stand around a back reference alone.
fn closing_of(naming: Naming, opener: char) -> Option<char>
    ensures { result ≡ closing_of naming opener }
{
    match opener {
        '<' => Some('>'),
        '\'' => Some('\''),
        '{' => closing_brace(naming),
        _ => None,
    }
}

fn closing_brace(naming: Naming) -> Option<char>
    ensures { result ≡ closing_brace naming }
{
    match naming {
        Naming::Backref { .. } => Some('}'),
        _ => None,
    }
}

/// A reference by a name alone, up to the character that closes it.
#[tactic(auto, unfolding(crate::specs::Names::named_at))]
pub(crate) fn named_at(
    naming: Naming,
    close: char,
    text: &[char],
) -> Result<(Reference<'_>, &[char]), Fault>
    ensures value { seen (λ p. (reference_of p.0, p.1.now)) result
        ≡ named_at naming close text.now }
    ensures shorter { IfOk result (λ p. length p.1.now ≤ length text.now) }
{
    let (name, rest) = name_at(text)?;
    let rest = closed_at(close, rest)?;
    Ok((
        Reference {
            naming,
            target: Target::Name(name),
            level: None,
            left: text.len(),
        },
        rest,
    ))
}
