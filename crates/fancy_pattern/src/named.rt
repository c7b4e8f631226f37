//! The groups with names among tokens, and the text of a name.

ghost use Rattle.std.specs.Prelude.{◌≡◌, ◌++◌, ℕ, List, map, IfOk, OnOk, encode_utf8_all, string_bytes};
ghost use Rattle.std.specs.Option.{option_map};
ghost use Rattle.std.specs.List.{list_any};
ghost use Rattle.fancy_pattern.specs.Spelling.{opens_named};
ghost use Rattle.fancy_pattern.specs.Naming.{if_any, numbers_of, numbers_in, pairs_in, named_in, named_of, named_by, named_opening};
ghost use Rattle.fancy_tokens.specs.PatternViews.{token_of, placed_of, opening_of};

use fancy_tokens::tokens::{Opening, Placed, Token};
use std::alloc::{AllocError, Global};
use std::collections::BTreeMap;

/// The characters as a text.
pub(crate) fn text_of(alloc: Global, chars: &[char]) -> Result<String, AllocError>
    ensures { IfOk result (λ s. string_bytes s ≡ encode_utf8_all chars.now) }
{
    let mut text = String::with_capacity(alloc, chars.len())?;
    for c in chars {
        text.push(*c)?;
    }
    Ok(text)
}

/// The name and the number of a group that a token opens.
fn named_by<'a>(token: &Token<'a>) -> Option<(&'a [char], usize)>
    ensures { option_map (λ p. (p.0.now, p.1)) result ≡ named_by (token_of token.now) }
{
    match token {
        Token::Open(placed) => named_opening(placed.opening),
        _ => None,
    }
}

fn named_opening<'a>(opening: Opening<'a>) -> Option<(&'a [char], usize)>
    ensures { option_map (λ p. (p.0.now, p.1)) result
        ≡ named_opening (opening_of opening.entry) }
{
    match opening {
        Opening::Group { number, name } => match name {
            Some(name) => Some((name, number)),
            None => None,
        },
        _ => None,
    }
}

/// Adds the group with a name that a token opens.
fn push_named(
    alloc: Global,
    pairs: &mut Vec<(String, usize)>,
    placed: &Placed<'_>,
) -> Result<(), AllocError>
    ensures { OnOk result (pairs_in pairs.new
        ≡ pairs_in pairs.old ++ named_of (placed_of placed.now).token) }
{
    match named_by(&placed.token) {
        Some((name, number)) => {
            pairs.push((text_of(alloc, name)?, number))?;
            Ok(())
        }
        None => Ok(()),
    }
}

/// The groups with names, in the order in which they open. The tokens are not looked at where none opens such a group.
pub(crate) fn pairs_of(
    alloc: Global,
    tokens: &[Placed<'_>],
    has_names: bool,
) -> Result<Vec<(String, usize)>, AllocError>
    requires { has_names ≡ list_any (λ p. opens_named p.token) (map placed_of tokens.now) }
    ensures { IfOk result (λ pairs. pairs_in pairs ≡ named_in (map placed_of tokens.now)) }
{
    let mut pairs = Vec::new(alloc);
    if !has_names {
        return Ok(pairs);
    }
    for placed in tokens {
        push_named(alloc, &mut pairs, placed)?;
    }
    Ok(pairs)
}

/// The numbers of each name.
pub(crate) fn numbers_of(
    alloc: Global,
    pairs: &[(String, usize)],
) -> Result<BTreeMap<String, Vec<usize>>, AllocError>
    ensures { IfOk result (λ m. (name : List ℕ) → numbers_in m name
        ≡ if_any (numbers_of (map (λ p. (string_bytes p.0, p.1)) pairs.now) name)) }
{
    let mut numbers: BTreeMap<String, Vec<usize>> = BTreeMap::new(alloc);
    for (name, number) in pairs {
        numbers.entry(name.clone()?)?.or_default().push(*number)?;
    }
    Ok(numbers)
}
