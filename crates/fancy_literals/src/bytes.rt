//! A set of bytes of which each match of a tree takes one.

ghost use Rattle.std.specs.Prelude.{◌≡◌, ◌⊎◌, Bool, IfOk, IfSome, Some, map};
ghost use Rattle.fancy_meaning.specs.Tree.{trees};
ghost use Rattle.fancy_expr.specs.Views.{tree_of};
ghost use Rattle.fancy_literals.specs.TakesByte.{EachTakesByte, Includes, OneTakesByte, TakesByte};

use crate::characters::characters_of;
use fancy_expr::expr::{Expr, LookAround};
use std::alloc::{AllocError, Global};

/// Bytes of which each way of the node takes one, if such are known that are rare: by whether each byte is one of them.
/// What look-behinds take counts only if `behind` says so.
#[cycle(bytes)]
pub(crate) fn bytes_of(
    alloc: Global,
    expr: &Expr,
    unicode: bool,
    behind: bool,
) -> Result<Option<[bool; 256]>, AllocError>
    ensures { IfOk result (λ found. IfSome found (λ bytes.
        TakesByte unicode behind bytes (tree_of expr.now))) }
{
    match expr {
        Expr::Concat(parts) => rarest_of(alloc, parts, unicode, behind),
        Expr::Alt(branches) => union_of(alloc, branches, unicode, behind),
        Expr::Group(body) => bytes_of(alloc, body, unicode, behind),
        Expr::AtomicGroup(body) => bytes_of(alloc, body, unicode, behind),
        Expr::Repeat { child, lo, .. } => {
            if *lo > 0 {
                bytes_of(alloc, child, unicode, behind)
            } else {
                Ok(None)
            }
        }
        Expr::LookAround(body, look) => match look {
            LookAround::LookAhead => bytes_of(alloc, body, unicode, behind),
            LookAround::LookBehind if behind => bytes_of(alloc, body, unicode, behind),
            _ => Ok(None),
        },
        _ => bytes_of_character(alloc, expr, unicode),
    }
}

/// The rarest such bytes among those of nodes that follow each other.
#[cycle(bytes)]
fn rarest_of(
    alloc: Global,
    parts: &[Expr],
    unicode: bool,
    behind: bool,
) -> Result<Option<[bool; 256]>, AllocError>
    ensures { IfOk result (λ found. IfSome found (λ bytes.
        OneTakesByte unicode behind bytes (trees (map tree_of parts.now)))) }
{
    let mut rarest = None;
    for part in parts {
        rarest = rarer(rarest, bytes_of(alloc, part, unicode, behind)?);
    }
    Ok(rarest)
}

/// The bytes of all branches together, where each has such bytes.
#[cycle(bytes)]
fn union_of(
    alloc: Global,
    branches: &[Expr],
    unicode: bool,
    behind: bool,
) -> Result<Option<[bool; 256]>, AllocError>
    ensures { IfOk result (λ found. IfSome found (λ bytes.
        EachTakesByte unicode behind bytes (trees (map tree_of branches.now)))) }
{
    let mut union = [false; 256];
    for branch in branches {
        match bytes_of(alloc, branch, unicode, behind)? {
            None => return Ok(None),
            Some(bytes) => union = both(&union, &bytes),
        }
    }
    Ok(Some(union))
}

/// Those with the fewest ASCII characters; the first among equals.
fn rarer(first: Option<[bool; 256]>, second: Option<[bool; 256]>) -> Option<[bool; 256]>
    ensures { IfSome result (λ bytes. (first ≡ Some bytes) ⊎ (second ≡ Some bytes)) }
{
    match (first, second) {
        (None, second) => second,
        (Some(first), None) => Some(first),
        (Some(first), Some(second)) => {
            if ascii_count(&first) <= ascii_count(&second) {
                Some(first)
            } else {
                Some(second)
            }
        }
    }
}

/// The bytes of both sets.
pub(crate) fn both(first: &[bool; 256], second: &[bool; 256]) -> [bool; 256]
    ensures first { Includes first.now result }
    ensures second { Includes second.now result }
{
    let mut bytes = [true; 256];
    'bytes: for byte in 0..256usize {
        bytes[byte] = first[byte] || second[byte];
    }
    bytes
}

/// How many ASCII characters are among them.
fn ascii_count(bytes: &[bool; 256]) -> usize {
    let mut count = 0usize;
    for byte in 0..128usize {
        if bytes[byte] {
            count = count.saturating_add(1);
        }
    }
    count
}

/// It is a space, or a small letter that many words have.
fn is_frequent(byte: u8) -> bool {
    matches!(byte, b' ' | b'a'..=b'i' | b'k'..=b'p' | b'r'..=b'w' | b'y')
}

/// None of them is frequent.
pub(crate) fn are_rare(bytes: &[bool; 256]) -> bool {
    for byte in 0..128u8 {
        if bytes[byte as usize] && is_frequent(byte) {
            return false;
        }
    }
    true
}

/// The literal takes a frequent character, by its text.
fn is_frequent_literal(character: char, casei: bool) -> bool {
    if !character.is_ascii() {
        return false;
    }
    let byte = character as u8;
    is_frequent(if casei {
        byte.to_ascii_lowercase()
    } else {
        byte
    })
}

/// The class holds frequent characters, as far as its text tells: it is negated, or an escape but `\d`.
fn is_frequent_class(text: &str) -> bool {
    match text.as_bytes() {
        [b'\\', letter] => *letter != b'd',
        [b'[', b'^', ..] => true,
        _ => false,
    }
}

/// The node may match a frequent character, by its text, or is no literal and no class.
fn is_frequent_node(expr: &Expr) -> bool {
    match expr {
        Expr::Literal { val, casei } => match val.chars().next() {
            Some(character) => is_frequent_literal(character, *casei),
            None => true,
        },
        Expr::Delegate { inner, casei: _ } => is_frequent_class(inner),
        _ => true,
    }
}

/// The bytes with which the characters begin that the node takes, where it takes one and they are rare.
fn bytes_of_character(
    alloc: Global,
    expr: &Expr,
    unicode: bool,
) -> Result<Option<[bool; 256]>, AllocError>
    ensures { (behind : Bool)
        → IfOk result (λ found. IfSome found (λ bytes.
        TakesByte unicode behind bytes (tree_of expr.now))) }
{
    if is_frequent_node(expr) {
        return Ok(None);
    }
    match characters_of(alloc, expr, unicode)? {
        Some(bytes) if are_rare(&bytes) => Ok(Some(bytes)),
        _ => Ok(None),
    }
}
