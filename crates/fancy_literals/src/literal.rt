//! The literal with which the ways of a node begin.

ghost use Rattle.std.specs.Prelude.{IfOk, map, string_bytes};
ghost use Rattle.fancy_meaning.specs.Tree.{trees};
ghost use Rattle.fancy_expr.specs.Views.{tree_of};
ghost use Rattle.fancy_literals.specs.Leads.{AddsInOrder, AddsOf};

use crate::before::stays_here;
use crate::required::character_of;
use fancy_expr::expr::Expr;
use std::alloc::AllocError;

/// Adds the literal with which each way of the node begins, and returns whether each matches this and no more.
#[cycle(literal)]
pub(crate) fn add_literal(expr: &Expr, literal: &mut String) -> Result<bool, AllocError>
    ensures { IfOk result (λ whole.
        AddsOf (string_bytes literal.old) (string_bytes literal.new) whole (tree_of expr.now)) }
{
    match expr {
        Expr::Concat(parts) => add_literal_of_parts(parts, literal),
        Expr::Group(body) => add_literal(body, literal),
        Expr::AtomicGroup(body) => add_literal(body, literal),
        _ => add_character(expr, literal),
    }
}

/// The same of nodes one after the other.
#[cycle(literal)]
fn add_literal_of_parts(parts: &[Expr], literal: &mut String) -> Result<bool, AllocError>
    ensures { IfOk result (λ whole. AddsInOrder (string_bytes literal.old)
        (string_bytes literal.new) whole (trees (map tree_of parts.now))) }
{
    for part in parts {
        if !add_literal(part, literal)? {
            return Ok(false);
        }
    }
    Ok(true)
}

/// The same of any other node: the literal is the node's character, if it is one that is not folded.
fn add_character(expr: &Expr, literal: &mut String) -> Result<bool, AllocError>
    ensures { IfOk result (λ whole.
        AddsOf (string_bytes literal.old) (string_bytes literal.new) whole (tree_of expr.now)) }
{
    match character_of(expr) {
        Some(character) => {
            literal.push(character)?;
            Ok(true)
        }
        None => Ok(stays_here(expr)),
    }
}
