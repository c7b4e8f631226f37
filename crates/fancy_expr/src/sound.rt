//! The test on one node: its numbers are within their types, and a literal is one character.

ghost use Rattle.std.specs.Prelude.{◌≡◌, ◌<◌, ◌^◌, ◌↔◌, All, IfSome, FitsSigned, IsTrue, true, length, chars};
ghost use Rattle.std.specs.Int.{w64};
ghost use Rattle.fancy_meaning.specs.WellFormed.{IsUsize};
ghost use Rattle.fancy_expr.specs.Sound.{IsSoundNode, AllSound};

use crate::expr::Expr;
use crate::parts::{part, part_count};

fn char_count(text: &str) -> usize
    ensures { result ≡ length (chars text.now) }
{
    text.chars().count()
}

/// Whether a tree that may be handed in can have this node.
fn is_sound(expr: &Expr) -> bool
    ensures { IsTrue result ↔ IsSoundNode expr.now }
{
    match expr {
        Expr::Literal { val, .. } => char_count(val) == 1,
        Expr::LiteralBytes { bytes } => has_bytes(bytes),
        Expr::Alt(_) => part_count(expr) != 0,
        Expr::Delegate { inner, .. } => inner.len() != 0,
        Expr::Repeat { lo, hi, .. } => *lo < usize::MAX && *lo <= *hi,
        Expr::Backref { group, .. } => is_number(*group),
        Expr::BackrefWithRelativeRecursionLevel {
            group,
            relative_level,
            ..
        } => is_number(*group) && is_level(*relative_level),
        Expr::BackrefExistsCondition {
            group,
            relative_recursion_level,
        } => is_number(*group) && is_level_if_any(*relative_recursion_level),
        Expr::SubroutineCall(group) => is_number(*group),
        Expr::Absent(_) => true,
        _ => true,
    }
}

/// Whether every node is so, of a node and those below it.
pub fn all_sound(expr: &Expr) -> bool
    ensures { IsTrue result ↔ AllSound expr.now }
{
    if !is_sound(expr) {
        return false;
    }
    for i in 0..part_count(expr) {
        if !all_sound(part(expr, i)) {
            return false;
        }
    }
    true
}

// A value of a type is one of that type: these are always true, and their contracts say what that means.

fn is_number(n: usize) -> bool
    ensures { (result ≡ true) × IsUsize n }
{
    let _ = n;
    true
}

fn is_level(level: isize) -> bool
    ensures { (result ≡ true) × FitsSigned w64 level }
{
    let _ = level;
    true
}

fn is_level_if_any(level: Option<isize>) -> bool
    ensures { (result ≡ true) × IfSome level (λ l. FitsSigned w64 l) }
{
    match level {
        Some(l) => is_level(l),
        None => true,
    }
}

fn has_bytes(bytes: &[u8]) -> bool
    ensures { (result ≡ true) × All (λ c. c < 2 ^ 8) bytes.now }
{
    let _ = bytes.len();
    true
}
