//! The token at the front of a text.

ghost use Rattle.std.specs.Prelude.{◌≡◌, ◌≢◌, ◌+◌, ◌^◌, ◌<◌, ◌≤◌, length, Ok, IfOk, IfSome, option_map, None, false};
ghost use Rattle.fancy_meaning.specs.WellFormed.{most_groups};
ghost use Rattle.fancy_pattern.specs.Texts.{Text, seen, gap_at};
ghost use Rattle.fancy_pattern.specs.Escapes.{escape_at};
ghost use Rattle.fancy_pattern.specs.Items as plain;
ghost use Rattle.fancy_pattern.specs.Items.{any_of, start_of, end_of, quantified, brace_at, sign_token, item_at, class_of, outside_at, within_at, IsLone, lone_found, found_at};
ghost use Rattle.fancy_pattern.specs.Lone.{no_class, lone_in, next_group, IsQuiet};
ghost use Rattle.fancy_tokens.specs.Tokens.{Close, item};
ghost use Rattle.fancy_tokens.specs.PatternViews.{leaf_of, token_of, unboxed_of, item_of};

use crate::characters::first;
use crate::classes::class_item_at;
use crate::error::fault_at;
use crate::escapes::escape_at;
use crate::groups::opening_at;
use crate::quantifiers::counts_at;
use fancy_expr::expr::Assertion;
use fancy_expr::well_formed::MOST_GROUPS;
use fancy_tokens::error::{ErrorKind, Fault};
use fancy_tokens::flags::Flags;
use fancy_tokens::lexing::{ClassPlace, Head, Lexing};
use fancy_tokens::nesting::opened_by;
use fancy_tokens::tokens::{Item, Leaf, Quantifier, Token, Unboxed};

/// A token, and what holds behind it.
#[derive(Drop)]
pub struct Found<'a> {
    pub token: Unboxed<'a>,
    pub behind: Lexing,
}

fn any_of(flags: Flags) -> Leaf
    ensures { leaf_of result ≡ any_of flags }
{
    if flags.dot_all {
        Leaf::Any {
            newline: true,
            crlf: false,
        }
    } else {
        Leaf::Any {
            newline: false,
            crlf: flags.crlf,
        }
    }
}

fn start_of(flags: Flags) -> Leaf
    ensures { leaf_of result ≡ start_of flags }
{
    if !flags.multi_line {
        Leaf::Assertion(Assertion::StartText)
    } else if flags.oniguruma {
        Leaf::Assertion(Assertion::StartLineOniguruma { crlf: flags.crlf })
    } else {
        Leaf::Assertion(Assertion::StartLine { crlf: flags.crlf })
    }
}

fn end_of(flags: Flags) -> Leaf
    ensures { leaf_of result ≡ end_of flags }
{
    if flags.multi_line {
        Leaf::Assertion(Assertion::EndLine { crlf: flags.crlf })
    } else {
        Leaf::Assertion(Assertion::EndText)
    }
}

#[inline(always)]
fn quantified<'a>(flags: Flags, quantifier: Quantifier) -> Token<'a>
    ensures { token_of result ≡ quantified flags quantifier }
{
    let greedy = !flags.swap_greed;
    match quantifier {
        Quantifier::Star => Token::Star { greedy },
        Quantifier::Plus => Token::Plus { greedy },
        Quantifier::Question => Token::Question { greedy },
        Quantifier::Counts { lo, hi } => Token::Counts { greedy, lo, hi },
    }
}

#[inline(always)]
fn literal<'a>(flags: Flags, c: char) -> Token<'a>
    ensures { token_of result ≡ plain.literal flags c }
{
    Token::Leaf(Leaf::Literal {
        val: c,
        casei: flags.casei,
    })
}

/// A `{`: counts, or a literal; `text` begins with it, and `after` follows it.
#[tactic(auto, unfolding(crate::specs::Items::brace_at))]
fn brace_at<'a>(
    flags: Flags,
    text: &'a [char],
    after: &'a [char],
) -> Result<(Token<'a>, &'a [char]), Fault>
    ensures value { seen (λ p. (token_of p.0, p.1.now)) result
        ≡ brace_at flags text.now after.now }
    ensures quiet { IfOk result (λ p. IsQuiet (token_of p.0)) }
    ensures shorter { IfOk result (λ p. length p.1.now ≤ length after.now) }
{
    match counts_at(after, flags.ignore_whitespace) {
        Some((counts, rest)) => match counts {
            Ok(quantifier) => Ok((quantified(flags, quantifier), rest)),
            Err(kind) => Err(fault_at(kind, text)),
        },
        None => Ok((literal(flags, '{'), after)),
    }
}

/// The tokens of one character that are no literals.
#[inline(always)]
fn sign_token<'a>(flags: Flags, c: char) -> Option<Token<'a>>
    ensures value { option_map token_of result ≡ sign_token flags c }
    ensures quiet { c ≢ 41 → c ≢ 91 → IfSome result (λ t. IsQuiet (token_of t)) }
{
    match c {
        '.' => Some(Token::Leaf(any_of(flags))),
        '^' => Some(Token::Leaf(start_of(flags))),
        '$' => Some(Token::Leaf(end_of(flags))),
        '|' => Some(Token::Bar),
        ')' => Some(Token::Close),
        '*' => Some(quantified(flags, Quantifier::Star)),
        '+' => Some(quantified(flags, Quantifier::Plus)),
        '?' => Some(quantified(flags, Quantifier::Question)),
        '[' => Some(Token::ClassOpen { casei: flags.casei }),
        _ => None,
    }
}

/// The token at the front, outside of classes.
#[tactic(auto, unfolding(crate::specs::Items::item_at))]
fn item_at(flags: Flags, opened: usize, text: &[char]) -> Result<(Item<'_>, &[char]), Fault>
    requires { opened < 2 ^ 63 }
    ensures value { seen (λ p. (item_of p.0, p.1.now)) result ≡ item_at flags opened text.now }
    ensures shorter { IfOk result (λ p. length p.1.now + 1 ≤ length text.now) }
{
    let Some((c, after)) = first(text) else {
        return Err(fault_at(ErrorKind::GeneralParseError, text));
    };
    if let Some(token) = sign_token(flags, c) {
        return Ok((Item::new(flags, Unboxed::Token(token)), after));
    }
    match c {
        '(' => opening_at(flags, opened, after),
        '\\' => {
            let (token, rest) = escape_at(flags, opened, after)?;
            Ok((Item::new(flags, token), rest))
        }
        '{' => {
            let (token, rest) = brace_at(flags, text, after)?;
            Ok((Item::new(flags, Unboxed::Token(token)), rest))
        }
        _ => Ok((Item::new(flags, Unboxed::Token(literal(flags, c))), after)),
    }
}

/// The class that is open behind a token.
fn class_of(token: &Unboxed<'_>) -> ClassPlace
    ensures value { result ≡ class_of (unboxed_of token.now) }
    ensures one { result.depth ≤ 1 }
{
    match token {
        Unboxed::Token(Token::ClassOpen { .. }) => ClassPlace {
            depth: 1,
            head: Head::Start,
        },
        _ => no_class(),
    }
}

pub(crate) fn no_class() -> ClassPlace
    ensures { result ≡ no_class }
{
    ClassPlace {
        depth: 0,
        head: Head::Inner,
    }
}

/// The token at the front, outside of classes, and what holds behind it.
#[tactic(auto, unfolding(crate::specs::Items::outside_at))]
fn outside_at(now: Lexing, text: &[char]) -> Result<(Found<'_>, &[char]), Fault>
    requires { now.opened ≤ most_groups }
    ensures value { seen (λ p. (plain.found_of p.0, p.1.now)) result ≡ outside_at now text.now }
    ensures shorter { IfOk result (λ p. length p.1.now + 1 ≤ length text.now) }
    ensures opened { IfOk result (λ p. p.0.behind.opened ≤ most_groups) }
    ensures depth { IfOk result (λ p. p.0.behind.class.depth ≤ 1) }
{
    let (item, rest) = item_at(now.flags, now.opened, text)?;
    let opened = now.opened + opened_by(&item.token);
    if opened > MOST_GROUPS {
        return Err(fault_at(ErrorKind::GeneralParseError, text));
    }
    let behind = Lexing {
        flags: item.flags,
        opened,
        class: class_of(&item.token),
    };
    Ok((
        Found {
            token: item.token,
            behind,
        },
        rest,
    ))
}

/// The token at the front in a class, and what holds behind it.
#[tactic(auto, unfolding(crate::specs::Items::within_at))]
fn within_at(now: Lexing, text: &[char]) -> Result<(Found<'_>, &[char]), Fault>
    requires room { now.class.depth < 2 ^ 63 }
    requires opened { now.opened ≤ most_groups }
    ensures value { seen (λ p. (plain.found_of p.0, p.1.now)) result ≡ within_at now text.now }
    ensures shorter { IfOk result (λ p. length p.1.now + 1 ≤ length text.now) }
    ensures opened { IfOk result (λ p. p.0.behind.opened ≤ most_groups) }
    ensures depth { IfOk result (λ p. p.0.behind.class.depth + length p.1.now
        ≤ now.class.depth + length text.now) }
{
    let (item, rest) = class_item_at(now.class, text)?;
    Ok((
        Found {
            token: Unboxed::Token(item.token),
            behind: Lexing {
                flags: now.flags,
                opened: now.opened,
                class: item.place,
            },
        },
        rest,
    ))
}

/// Outside of classes and of free spacing, the token at the front and what follows it, where that is found at once: a
/// character, counts, or an escape of one character, and nothing that begins or ends a group or a class.
#[inline(always)]
#[tactic(auto, unfolding(crate::specs::Items::item_at))]
fn lone_item_at<'a>(now: &Lexing, text: &'a [char]) -> Option<(Token<'a>, &'a [char])>
    ensures value { IfSome result (λ p. item_at now.now.flags now.now.opened text.now
        ≡ Ok (item now.now.flags (token_of p.0), p.1.now)) }
    ensures quiet { IfSome result (λ p. IsQuiet (token_of p.0)) }
    ensures no_gap { IfSome result (λ p. gap_at false text.now ≡ None) }
    ensures shorter { IfSome result (λ p. length p.1.now + 1 ≤ length text.now) }
{
    let (c, after) = first(text)?;
    match c {
        '(' | ')' | '[' => None,
        '{' => brace_at(now.flags, text, after).ok(),
        '\\' => {
            let (found, rest) = escape_at(now.flags, now.opened, after).ok()?;
            match found {
                Unboxed::Token(token) => Some((token, rest)),
                _ => None,
            }
        }
        _ => match sign_token(now.flags, c) {
            Some(token) => Some((token, after)),
            None => Some((literal(now.flags, c), after)),
        },
    }
}

/// The same, and what holds behind that token.
#[inline(always)]
#[tactic(auto, using(crate::proofs::QuietTokens::outside_of_item))]
fn lone_outside_at<'a>(now: &Lexing, text: &'a [char]) -> Option<(Token<'a>, &'a [char])>
    requires { now.now.opened ≤ most_groups }
    ensures value { IfSome result (λ p. outside_at now.now text.now
        ≡ Ok (lone_found now.now (token_of p.0), p.1.now)) }
    ensures lone { IfSome result (λ p. IsLone (token_of p.0)) }
    ensures no_gap { IfSome result (λ p. gap_at now.now.flags.ignore_whitespace text.now ≡ None) }
    ensures shorter { IfSome result (λ p. length p.1.now + 1 ≤ length text.now) }
{
    if now.flags.ignore_whitespace {
        return None;
    }
    let (token, after) = lone_item_at(now, text)?;
    Some((token, after))
}

/// The token at the front, the class behind it and what follows it, where that is found at once.
#[inline(always)]
#[tactic(auto, unfolding(crate::specs::Items::found_at, crate::specs::Items::within_at))]
pub(crate) fn lone_at<'a>(
    now: &Lexing,
    text: &'a [char],
) -> Option<(Token<'a>, ClassPlace, &'a [char])>
    requires room { now.now.class.depth < 2 ^ 63 }
    requires opened { now.now.opened ≤ most_groups }
    ensures value { IfSome result (λ p. found_at now.now text.now
        ≡ Ok (lone_in now.now (token_of p.0) p.1, p.2.now)) }
    ensures lone { IfSome result (λ p. IsLone (token_of p.0)) }
    ensures no_gap { IfSome result (λ p. now.now.class.depth ≡ 0
        → gap_at now.now.flags.ignore_whitespace text.now ≡ None) }
    ensures shorter { IfSome result (λ p. length p.2.now + 1 ≤ length text.now) }
    ensures depth { IfSome result (λ p. p.1.depth + length p.2.now
        ≤ now.now.class.depth + length text.now) }
{
    if now.class.depth > 0 {
        let (item, after) = class_item_at(now.class, text).ok()?;
        return Some((item.token, item.place, after));
    }
    let (token, after) = lone_outside_at(now, text)?;
    Some((token, no_class(), after))
}

/// Outside of classes and of free spacing, the same where a character stands for itself.
#[inline(always)]
#[tactic(auto, unfolding(crate::specs::Items::found_at, crate::specs::Items::outside_at, crate::specs::Items::item_at))]
pub(crate) fn literal_at<'a>(
    now: &Lexing,
    text: &'a [char],
) -> Option<(Token<'a>, ClassPlace, &'a [char])>
    requires { now.now.opened ≤ most_groups }
    ensures value { IfSome result (λ p. found_at now.now text.now
        ≡ Ok (lone_in now.now (token_of p.0) p.1, p.2.now)) }
    ensures lone { IfSome result (λ p. IsLone (token_of p.0)) }
    ensures no_gap { IfSome result (λ p. gap_at now.now.flags.ignore_whitespace text.now ≡ None) }
    ensures shorter { IfSome result (λ p. length p.2.now + 1 ≤ length text.now) }
    ensures depth { IfSome result (λ p. p.1.depth ≡ 0) }
{
    if now.class.depth > 0 || now.flags.ignore_whitespace {
        return None;
    }
    let (c, after) = first(text)?;
    match c {
        '(' | ')' | '[' | '{' | '\\' | '.' | '^' | '$' | '|' | '*' | '+' | '?' => None,
        _ => Some((literal(now.flags, c), no_class(), after)),
    }
}

/// Outside of classes, what follows the parenthesis at the front that ends a group.
#[inline(always)]
#[tactic(auto, unfolding(crate::specs::Items::found_at, crate::specs::Items::outside_at, crate::specs::Items::item_at))]
pub(crate) fn closing_at<'a>(now: &Lexing, text: &'a [char]) -> Option<&'a [char]>
    requires { now.now.opened ≤ most_groups }
    ensures value { IfSome result (λ t. found_at now.now text.now
        ≡ Ok (lone_found now.now Close, t.now)) }
    ensures no_gap { IfSome result (λ t. gap_at now.now.flags.ignore_whitespace text.now ≡ None) }
    ensures shorter { IfSome result (λ t. length t.now + 1 ≤ length text.now) }
{
    if now.class.depth > 0 {
        return None;
    }
    match first(text)? {
        (')', after) => Some(after),
        _ => None,
    }
}

/// Outside of classes, what follows the parenthesis at the front that begins a plain group, where that captures and is
/// not one too many.
#[inline(always)]
#[tactic(auto, unfolding(crate::specs::Items::found_at, crate::specs::Items::outside_at, crate::specs::Items::item_at, crate::specs::Groups::opening_at))]
pub(crate) fn group_at<'a>(now: &Lexing, text: &'a [char]) -> Option<&'a [char]>
    requires { now.now.opened ≤ most_groups }
    ensures value { IfSome result (λ t. found_at now.now text.now ≡ Ok (next_group now.now, t.now)) }
    ensures few { IfSome result (λ t. now.now.opened + 1 ≤ most_groups) }
    ensures no_gap { IfSome result (λ t. gap_at now.now.flags.ignore_whitespace text.now ≡ None) }
    ensures shorter { IfSome result (λ t. length t.now + 1 ≤ length text.now) }
{
    if now.class.depth > 0 || now.flags.named_only || now.opened >= MOST_GROUPS {
        return None;
    }
    let (c, after) = first(text)?;
    if c != '(' {
        return None;
    }
    match first(after) {
        Some(('?', _)) => None,
        Some(('*', _)) => None,
        _ => Some(after),
    }
}

/// The token at the front, and what holds behind it.
#[tactic(auto, unfolding(crate::specs::Items::found_at))]
pub(crate) fn found_at(now: Lexing, text: &[char]) -> Result<(Found<'_>, &[char]), Fault>
    requires room { now.class.depth < 2 ^ 63 }
    requires opened { now.opened ≤ most_groups }
    ensures value { seen (λ p. (plain.found_of p.0, p.1.now)) result ≡ found_at now text.now }
    ensures shorter { IfOk result (λ p. length p.1.now + 1 ≤ length text.now) }
    ensures opened { IfOk result (λ p. p.0.behind.opened ≤ most_groups) }
    ensures depth { IfOk result (λ p. p.0.behind.class.depth + length p.1.now
        ≤ now.class.depth + length text.now) }
{
    if now.class.depth == 0 {
        outside_at(now, text)
    } else {
        within_at(now, text)
    }
}
