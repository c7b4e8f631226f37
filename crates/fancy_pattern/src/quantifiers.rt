//! Quantifiers.

ghost use Rattle.std.specs.Prelude.{◌≡◌, ◌^◌, ◌-◌, ◌≤◌, length, IfSome, IfOk, MatchOption, option_map};
ghost use Rattle.fancy_pattern.specs.Texts.{seen, skip_run, is_blank};
ghost use Rattle.fancy_pattern.specs.Quantifiers as plain;
ghost use Rattle.fancy_pattern.specs.Quantifiers.{skip_blanks, count_of, lo_of, hi_of, counts_of, digits_at, upper_at, written_at, counts_at};

use crate::characters::{Test, first, skip_run, skip_word, split_run};
use crate::numbers::number;
use fancy_tokens::error::ErrorKind;
use fancy_tokens::tokens::Quantifier;

/// The digits of counts as they are written.
#[derive(Clone, Copy)]
pub struct Written<'a> {
    pub lo: &'a [char],
    /// Behind a comma.
    pub hi: Option<&'a [char]>,
}

fn skip_blanks(text: &[char], ignore_whitespace: bool) -> &[char]
    ensures value { result.now ≡ skip_blanks ignore_whitespace text.now }
    ensures shorter { length result.now ≤ length text.now }
{
    if ignore_whitespace {
        skip_run(text, Test::Blank)
    } else {
        text
    }
}

/// Digits, none or more, with blanks around them.
#[tactic(auto, unfolding(crate::specs::Quantifiers::digits_at))]
fn digits_at(text: &[char], ignore_whitespace: bool) -> (&[char], &[char])
    ensures value { (result.0.now, result.1.now) ≡ digits_at ignore_whitespace text.now }
    ensures shorter { length result.1.now ≤ length text.now }
{
    let (digits, rest) = split_run(skip_blanks(text, ignore_whitespace), Test::Digit);
    (digits, skip_blanks(rest, ignore_whitespace))
}

/// The counts behind a `{`, up to the closing brace; none where no counts are written.
#[tactic(auto, unfolding(crate::specs::Quantifiers::written_at))]
fn written_at(text: &[char], ignore_whitespace: bool) -> Option<(Written<'_>, &[char])>
    ensures value { option_map (λ p. (plain.written_of p.0, p.1.now)) result
        ≡ written_at ignore_whitespace text.now }
    ensures shorter { IfSome result (λ p. length p.1.now ≤ length text.now) }
{
    let (lo, rest) = digits_at(text, ignore_whitespace);
    match first(rest)? {
        ('}', after) if !lo.is_empty() => Some((Written { lo, hi: None }, after)),
        (',', after) => upper_at(lo, after, ignore_whitespace),
        _ => None,
    }
}

/// The second number, which may be left out where the first is not.
#[tactic(auto, unfolding(crate::specs::Quantifiers::upper_at))]
fn upper_at<'a>(
    lo: &'a [char],
    text: &'a [char],
    ignore_whitespace: bool,
) -> Option<(Written<'a>, &'a [char])>
    ensures value { option_map (λ p. (plain.written_of p.0, p.1.now)) result
        ≡ upper_at lo.now ignore_whitespace text.now }
    ensures shorter { IfSome result (λ p. length p.1.now ≤ length text.now) }
{
    let (hi, rest) = digits_at(text, ignore_whitespace);
    let after = skip_word(rest, "}")?;
    if lo.is_empty() && hi.is_empty() {
        return None;
    }
    Some((Written { lo, hi: Some(hi) }, after))
}

/// A number of iterations, below the largest number.
fn count(digits: &[char]) -> Option<usize>
    ensures { result ≡ count_of digits.now }
{
    let count = number(digits, 10)?;
    if count < usize::MAX {
        Some(count)
    } else {
        None
    }
}

/// The least number of iterations, 0 where it is left out.
fn lo_of(digits: &[char]) -> Option<usize>
    ensures { result ≡ lo_of digits.now }
{
    if digits.is_empty() {
        Some(0)
    } else {
        count(digits)
    }
}

/// The greatest number of iterations: the least where no comma stands, and without bound where it is left out.
fn hi_of(digits: Option<&[char]>, lo: usize) -> Option<usize>
    ensures { result ≡ hi_of lo (option_map (λ t. t.now) digits.entry) }
{
    let Some(digits) = digits else {
        return Some(lo);
    };
    if digits.is_empty() {
        return Some(usize::MAX);
    }
    let hi = count(digits)?;
    if lo <= hi { Some(hi) } else { None }
}

/// The quantifier that these counts are, unless a number is too large or they are not in order.
#[tactic(auto, unfolding(crate::specs::Quantifiers::counts_of))]
fn counts_of(written: Written<'_>) -> Option<Quantifier>
    ensures { result ≡ counts_of (plain.written_of written.entry) }
{
    let lo = lo_of(written.lo)?;
    let hi = hi_of(written.hi, lo)?;
    Some(Quantifier::Counts { lo, hi })
}

/// The counts behind a `{`; none where no counts are written, and an error where no quantifier comes of them.
#[tactic(auto, unfolding(crate::specs::Quantifiers::counts_at))]
pub(crate) fn counts_at(
    text: &[char],
    ignore_whitespace: bool,
) -> Option<(Result<Quantifier, ErrorKind>, &[char])>
    ensures value { option_map (λ p. (p.0, p.1.now)) result
        ≡ counts_at ignore_whitespace text.now }
    ensures shorter { IfSome result (λ p. length p.1.now ≤ length text.now) }
{
    let (written, rest) = written_at(text, ignore_whitespace)?;
    match counts_of(written) {
        Some(quantifier) => Some((Ok(quantifier), rest)),
        None => Some((Err(ErrorKind::InvalidRepeat), rest)),
    }
}
