//! The positions of the atoms of a pattern, so that leaves of its tree can be shown in it.

ghost use Rattle.std.specs.Prelude.{◌≡◌, List, length, map, chars, IfOk};
ghost use Rattle.fancy_pattern.specs.AtomSpans.{AreAtomSpans, class_end, is_class_close, leaf_count, left_of, leaves_of, one_at_least, span_end, spans_from};
ghost use Rattle.fancy_pattern.specs.Naming.{pairs_in};
ghost use Rattle.fancy_tokens.specs.PatternViews.{token_of, opening_of, placed_of, target_of};
ghost use Rattle.fancy_tokens.specs.Tokens.{Open};

use crate::facts::Facts;
use crate::group_names::GroupNames;
use crate::options::ParseOptions;
use crate::pattern::{chars_of, tokens};
use fancy_tokens::tokens::{Opening, Placed, Target, Token};
use std::alloc::{AllocError, Global};

/// An atom of a pattern, and how many leaves of the tree it becomes. A leaf is a node without nodes below it.
#[derive(Clone, Copy, Debug, PartialEq, Eq)]
pub struct AtomSpan {
    /// Where it begins, in characters of the pattern, from 0.
    pub start: usize,
    /// Where it ends: the number of characters before that.
    pub end: usize,
    /// One, or one for each group that has the name, if the atom names groups.
    pub leaves: usize,
}

/// The atoms of a pattern, from left to right: characters, escapes, classes, references, and conditions on a group. A
/// flags item is no atom. The leaves of the tree of the pattern, but for empty ones, are in the same order. A pattern with
/// a fault has its atoms too, as far as it can be read.
///
/// # Errors
///
/// `AllocError` if an allocation fails; there is no other.
pub fn atom_spans(
    alloc: Global,
    pattern: &str,
    options: ParseOptions,
) -> Result<Vec<AtomSpan>, AllocError>
    ensures { IfOk result (λ spans. AreAtomSpans options (chars pattern.now) spans.items) }
{
    let chars = chars_of(alloc, pattern)?;
    let (tokens, _) = tokens(alloc, &chars, options)?;
    let facts = Facts::of(&tokens);
    let names = GroupNames::of(alloc, &tokens, facts.has_names)?;
    spans_of(alloc, &names, &tokens, chars.len())
}

/// The atoms among these tokens of a pattern with so many characters.
fn spans_of(
    alloc: Global,
    names: &GroupNames,
    tokens: &[Placed<'_>],
    length: usize,
) -> Result<Vec<AtomSpan>, AllocError>
    ensures { IfOk result (λ spans. spans.items
        ≡ spans_from (pairs_in names.now.pairs) length (map placed_of tokens.now)) }
{
    let mut spans = Vec::new(alloc);
    for at in 0..tokens.len() {
        let placed = &tokens[at];
        let leaves = leaf_count(alloc, names, &placed.token)?;
        if leaves > 0 {
            spans.push(AtomSpan {
                start: length.saturating_sub(placed.left),
                end: length.saturating_sub(span_end(&placed.token, &tokens[at + 1..])),
                leaves,
            })?;
        }
    }
    Ok(spans)
}

/// How many leaves stand for the groups with this name, or for the one group that is named otherwise.
fn leaves_of(alloc: Global, names: &GroupNames, target: Target<'_>) -> Result<usize, AllocError>
    ensures { IfOk result (λ count. count
        ≡ leaves_of (pairs_in names.now.pairs) (target_of target.entry)) }
{
    match target {
        Target::Name(name) => Ok(one_at_least(names.find(alloc, name)?.len())),
        _ => Ok(1),
    }
}

fn one_at_least(count: usize) -> usize
    ensures { result ≡ one_at_least count }
{
    if count == 0 { 1 } else { count }
}

/// How many leaves stand for an atom that begins with this token; none where no atom does.
fn leaf_count(alloc: Global, names: &GroupNames, token: &Token<'_>) -> Result<usize, AllocError>
    ensures { IfOk result (λ count. count
        ≡ leaf_count (pairs_in names.now.pairs) (token_of token.now)) }
{
    match token {
        Token::Leaf(_) => Ok(1),
        Token::Set { .. } => Ok(1),
        Token::Numbered { .. } => Ok(1),
        Token::ClassOpen { .. } => Ok(1),
        Token::Refer(placed) => leaves_of(alloc, names, placed.reference.target),
        Token::Open(placed) => opening_leaf_count(alloc, names, placed.opening),
        _ => Ok(0),
    }
}

fn opening_leaf_count(
    alloc: Global,
    names: &GroupNames,
    opening: Opening<'_>,
) -> Result<usize, AllocError>
    ensures { IfOk result (λ count. count
        ≡ leaf_count (pairs_in names.now.pairs) (Open (opening_of opening.entry))) }
{
    match opening {
        Opening::If(reference) => leaves_of(alloc, names, reference.target),
        _ => Ok(0),
    }
}

/// How many characters are left where an atom ends that begins with this token, before which these follow.
fn span_end(token: &Token<'_>, rest: &[Placed<'_>]) -> usize
    ensures { result ≡ span_end (token_of token.now) (map placed_of rest.now) }
{
    match token {
        Token::ClassOpen { .. } => class_end(rest),
        _ => left_of(rest),
    }
}

/// How many characters are left where the first of these tokens begins.
fn left_of(tokens: &[Placed<'_>]) -> usize
    ensures { result ≡ left_of (map placed_of tokens.now) }
{
    match tokens.first() {
        Some(placed) => placed.left,
        None => 0,
    }
}

/// How many characters are left behind the class that these tokens close.
fn class_end(tokens: &[Placed<'_>]) -> usize
    ensures { result ≡ class_end (map placed_of tokens.now) }
{
    for at in 0..tokens.len() {
        if is_class_close(&tokens[at].token) {
            return left_of(&tokens[at + 1..]);
        }
    }
    0
}

fn is_class_close(token: &Token<'_>) -> bool
    ensures { result ≡ is_class_close (token_of token.now) }
{
    match token {
        Token::ClassClose => true,
        _ => false,
    }
}
