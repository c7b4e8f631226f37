//! Which bytes may be before the places where the ways of a node begin or end.

ghost use Rattle.std.specs.Prelude.{◌≡◌, ◌<◌, ℕ, Bool, List, IfOk, IfSome, IsTrue, false, map, true};
ghost use Rattle.fancy_meaning.specs.Tree.{trees};
ghost use Rattle.fancy_meaning.specs.Tree as plain;
ghost use Rattle.fancy_expr.specs.Views.{assertion_of, tree_of};
ghost use Rattle.fancy_literals.specs.ByteSets.{is_in};
ghost use Rattle.fancy_literals.specs.Befores.{Admits, IsBefore, IsBeforeEach, IsBeforeInOrder, StaysHere, follows, may_be};

use crate::bytes::both;
use crate::characters::characters_of;
use fancy_expr::expr::{Assertion, Expr, LookAround};
use std::alloc::{AllocError, Global};

/// What may be before a place of a text.
#[derive(Clone, Copy)]
pub struct Before {
    /// Whether each byte may be the one before it.
    pub bytes: [bool; 256],
    /// Whether it may be the beginning of the text.
    pub at_start: bool,
}

impl Before {
    /// Whatever there is.
    pub fn anything() -> Before
        ensures { (text : List ℕ) (at : ℕ) → follows result text at ≡ true }
    {
        Before {
            bytes: [true; 256],
            at_start: true,
        }
    }

    /// Whatever does not end with one of these ASCII characters.
    fn none_of(characters: &[bool; 256]) -> Before
        ensures bytes { (byte : ℕ) → (byte < 128 → is_in characters.now byte ≡ false)
            → may_be result.bytes byte ≡ true }
        ensures at_start { result.at_start ≡ true }
    {
        let mut bytes = [true; 256];
        'ascii: for byte in 0..128usize {
            bytes[byte] = !characters[byte];
        }
        Before {
            bytes,
            at_start: true,
        }
    }

    /// What may be before a line: CR too, if `crlf` holds.
    fn line(crlf: bool) -> Before
        ensures feed { may_be result.bytes 10 ≡ true }
        ensures carriage { crlf ≡ true → may_be result.bytes 13 ≡ true }
        ensures at_start { result.at_start ≡ true }
    {
        let mut bytes = [false; 256];
        bytes[b'\n' as usize] = true;
        bytes[b'\r' as usize] = crlf;
        Before {
            bytes,
            at_start: true,
        }
    }

    /// What may be before one place or another.
    fn or(&self, other: &Before) -> Before
        ensures first { Admits self.now result }
        ensures second { Admits other.now result }
    {
        Before {
            bytes: both(&self.bytes, &other.bytes),
            at_start: self.at_start | other.at_start,
        }
    }
}

/// What may be before the places where the ways of the node begin, or with `at_end` end; `None` if nothing is known. The
/// only error is out of memory.
#[cycle(before)]
pub fn before_of(
    alloc: Global,
    expr: &Expr,
    unicode: bool,
    at_end: bool,
) -> Result<Option<Before>, AllocError>
    ensures { IfOk result (λ found. IfSome found (λ before.
        IsBefore unicode at_end before (tree_of expr.now))) }
{
    match expr {
        Expr::Concat(parts) => if at_end {
            before_end(alloc, parts, unicode)
        } else {
            before_parts(alloc, parts, unicode)
        },
        Expr::Alt(branches) => before_branches(alloc, branches, unicode, at_end),
        Expr::Group(body) => before_of(alloc, body, unicode, at_end),
        Expr::AtomicGroup(body) => before_of(alloc, body, unicode, at_end),
        Expr::LookAround(body, look) => match look {
            LookAround::LookBehind => before_of(alloc, body, unicode, true),
            LookAround::LookBehindNeg => before_not(alloc, body, unicode),
            _ => Ok(None),
        },
        Expr::Assertion(assertion) => Ok(before_assertion(*assertion)),
        _ => if at_end {
            after_character(alloc, expr, unicode)
        } else {
            Ok(None)
        },
    }
}

/// The same of the ends of nodes one after the other.
#[cycle(before)]
fn before_end(alloc: Global, parts: &[Expr], unicode: bool) -> Result<Option<Before>, AllocError>
    ensures { IfOk result (λ found. IfSome found (λ before.
        IsBeforeInOrder unicode true before (trees (map tree_of parts.now)))) }
{
    match parts {
        [.., last] => before_of(alloc, last, unicode, true),
        _ => Ok(None),
    }
}

/// The same of the places where nodes one after the other begin.
#[cycle(before)]
fn before_parts(alloc: Global, parts: &[Expr], unicode: bool) -> Result<Option<Before>, AllocError>
    ensures { IfOk result (λ found. IfSome found (λ before.
        IsBeforeInOrder unicode false before (trees (map tree_of parts.now)))) }
{
    for part in parts {
        match before_of(alloc, part, unicode, false)? {
            Some(before) => return Ok(Some(before)),
            None => if !stays_here(part) {
                return Ok(None);
            },
        }
    }
    Ok(None)
}

/// The same of alternatives.
#[cycle(before)]
fn before_branches(
    alloc: Global,
    branches: &[Expr],
    unicode: bool,
    at_end: bool,
) -> Result<Option<Before>, AllocError>
    ensures { IfOk result (λ found. IfSome found (λ before.
        IsBeforeEach unicode at_end before (trees (map tree_of branches.now)))) }
{
    let mut all = Before {
        bytes: [false; 256],
        at_start: false,
    };
    for branch in branches {
        match before_of(alloc, branch, unicode, at_end)? {
            Some(before) => all = all.or(&before),
            None => return Ok(None),
        }
    }
    Ok(Some(all))
}

/// The same of a negative look-behind with this body.
fn before_not(alloc: Global, body: &Expr, unicode: bool) -> Result<Option<Before>, AllocError>
    ensures { (at_end : Bool) → IfOk result (λ found. IfSome found (λ before.
        IsBefore unicode at_end before (plain.LookAround plain.LookBehindNeg (tree_of body.now)))) }
{
    match characters_of(alloc, body, unicode)? {
        Some(characters) => Ok(Some(Before::none_of(&characters))),
        None => Ok(None),
    }
}

/// The same of the end of a literal or a class.
fn after_character(alloc: Global, expr: &Expr, unicode: bool) -> Result<Option<Before>, AllocError>
    ensures { IfOk result (λ found. IfSome found (λ before.
        IsBefore unicode true before (tree_of expr.now))) }
{
    match characters_of(alloc, expr, unicode)? {
        Some(characters) => Ok(Some(Before {
            bytes: characters,
            at_start: false,
        })),
        None => Ok(None),
    }
}

/// The same of an assertion.
fn before_assertion(assertion: Assertion) -> Option<Before>
    ensures { (unicode at_end : Bool) (old : plain.Within) → IfSome result (λ before.
        IsBefore unicode at_end before (plain.Assert old (assertion_of assertion))) }
{
    match assertion {
        Assertion::StartText => Some(Before {
            bytes: [false; 256],
            at_start: true,
        }),
        Assertion::StartLine { crlf } => Some(Before::line(crlf)),
        Assertion::StartLineOniguruma { crlf } => Some(Before::line(crlf)),
        _ => None,
    }
}

/// Whether the node is of a kind whose ways all match the empty string.
pub(crate) fn stays_here(expr: &Expr) -> bool
    ensures { IsTrue result → StaysHere (tree_of expr.now) }
{
    match expr {
        Expr::Empty => true,
        Expr::KeepOut => true,
        Expr::Assertion(_) => true,
        Expr::LookAround(_, _) => true,
        _ => false,
    }
}
