//! With which bytes the ways of a node begin.

ghost use Rattle.std.specs.Prelude.{◌≡◌, ◌<◌, ℕ, zero, Bool, List, Option, IfOk, encode_utf8, false, map, slice_index_or, true};
ghost use Rattle.fancy_meaning.specs.Tree.{Tree, trees};
ghost use Rattle.fancy_meaning.specs.Tree as plain;
ghost use Rattle.fancy_expr.specs.Views.{tree_of};
ghost use Rattle.fancy_literals.specs.Required.{begins_among};
ghost use Rattle.fancy_literals.specs.Opens.{Grows, OpensBy, OpensEachBy, OpensInOrderBy};

use crate::bytes::both;
use crate::characters::characters_of;
use crate::required::character_of;
use fancy_expr::expr::{Expr, LookAround};
use std::alloc::{AllocError, Global};

/// Whether each way of a node begins with one of the bytes.
#[derive(Clone, Copy)]
pub enum Opening {
    /// That is not known.
    Unknown,
    /// Each way begins so, or matches the empty string.
    Stays,
    /// Each way begins so.
    Begins,
}

/// Adds the bytes with which the ways of the node begin, and returns whether all do.
#[cycle(firsts)]
pub fn add_first(
    alloc: Global,
    expr: &Expr,
    unicode: bool,
    bytes: &mut [bool; 256],
) -> Result<Opening, AllocError>
    ensures grows { Grows bytes.old bytes.new }
    ensures opens { IfOk result (λ opening.
        OpensBy unicode opening bytes.new (tree_of expr.now)) }
{
    match expr {
        Expr::Concat(parts) => add_first_of_parts(alloc, parts, unicode, bytes),
        Expr::Alt(branches) => add_first_of_branches(alloc, branches, unicode, bytes),
        Expr::Group(body) => add_first(alloc, body, unicode, bytes),
        Expr::AtomicGroup(body) => add_first(alloc, body, unicode, bytes),
        Expr::Repeat { child, lo, .. } => {
            let opening = add_first(alloc, child, unicode, bytes)?;
            if *lo == 0 {
                Ok(or_empty(opening))
            } else {
                Ok(opening)
            }
        }
        Expr::LookAround(body, look) => match look {
            LookAround::LookAhead => add_first_ahead(alloc, body, unicode, bytes),
            _ => Ok(Opening::Stays),
        },
        Expr::Empty => Ok(Opening::Stays),
        Expr::Assertion(_) => Ok(Opening::Stays),
        Expr::KeepOut => Ok(Opening::Stays),
        Expr::DefineGroup { .. } => Ok(Opening::Stays),
        _ => add_characters(alloc, expr, unicode, bytes),
    }
}

/// The same of what a look-ahead asks for.
#[cycle(firsts)]
fn add_first_ahead(
    alloc: Global,
    body: &Expr,
    unicode: bool,
    bytes: &mut [bool; 256],
) -> Result<Opening, AllocError>
    ensures grows { Grows bytes.old bytes.new }
    ensures opens { IfOk result (λ opening.
        OpensBy unicode opening bytes.new (plain.LookAround plain.LookAhead (tree_of body.now))) }
{
    match add_first(alloc, body, unicode, bytes)? {
        Opening::Begins => Ok(Opening::Begins),
        _ => Ok(Opening::Stays),
    }
}

/// The same of nodes one after the other.
#[cycle(firsts)]
fn add_first_of_parts(
    alloc: Global,
    parts: &[Expr],
    unicode: bool,
    bytes: &mut [bool; 256],
) -> Result<Opening, AllocError>
    ensures grows { Grows bytes.old bytes.new }
    ensures opens { IfOk result (λ opening.
        OpensInOrderBy unicode opening bytes.new (trees (map tree_of parts.now))) }
{
    for part in parts {
        match add_first(alloc, part, unicode, bytes)? {
            Opening::Stays => {}
            opening => return Ok(opening),
        }
    }
    Ok(Opening::Stays)
}

/// The same of alternatives.
#[cycle(firsts)]
fn add_first_of_branches(
    alloc: Global,
    branches: &[Expr],
    unicode: bool,
    bytes: &mut [bool; 256],
) -> Result<Opening, AllocError>
    ensures grows { Grows bytes.old bytes.new }
    ensures opens { IfOk result (λ opening.
        OpensEachBy unicode opening bytes.new (trees (map tree_of branches.now))) }
{
    let mut all = Opening::Begins;
    for branch in branches {
        match add_first(alloc, branch, unicode, bytes)? {
            Opening::Begins => {}
            Opening::Stays => all = Opening::Stays,
            Opening::Unknown => return Ok(Opening::Unknown),
        }
    }
    Ok(all)
}

/// The same where a way may match the empty string besides.
fn or_empty(opening: Opening) -> Opening
    ensures { (bytes : List Bool) (e : Tree) (unicode greedy : Bool) (hi : Option ℕ)
        → OpensBy unicode opening bytes e
        → OpensBy unicode result bytes (plain.Repeat zero hi greedy e) }
{
    match opening {
        Opening::Begins => Opening::Stays,
        opening => opening,
    }
}

/// Adds the bytes with which the characters begin that the node matches, if it is a literal or a class.
fn add_characters(
    alloc: Global,
    expr: &Expr,
    unicode: bool,
    bytes: &mut [bool; 256],
) -> Result<Opening, AllocError>
    ensures grows { Grows bytes.old bytes.new }
    ensures opens { IfOk result (λ opening.
        OpensBy unicode opening bytes.new (tree_of expr.now)) }
{
    if let Some(character) = character_of(expr) {
        bytes[lead_byte(character) as usize] = true;
        return Ok(Opening::Begins);
    }
    match characters_of(alloc, expr, unicode)? {
        None => Ok(Opening::Unknown),
        Some(characters) => {
            *bytes = both(bytes, &characters);
            Ok(Opening::Begins)
        }
    }
}

/// The first byte of the character in UTF-8.
fn lead_byte(character: char) -> u32
    ensures below { result < 256 }
    ensures first { (bytes : List Bool) → slice_index_or bytes result false ≡ true
        → begins_among bytes (encode_utf8 character) ≡ true }
{
    let code = character as u32;
    if code < 0x80 {
        code
    } else if code < 0x800 {
        0xC0 + code / 0x40
    } else if code < 0x1_0000 {
        0xE0 + code / 0x1000
    } else {
        0xF0 + code / 0x4_0000
    }
}
