//! What a walk down a tree carries along: the innermost look-around, and the number of the next group.

ghost use Rattle.std.specs.Prelude.{◌≡◌, ◌+◌, ◌<◌, ◌^◌};
ghost use Rattle.fancy_meaning.specs.Nodes.{group_count};
ghost use Rattle.fancy_meaning.specs.Numbering.{within};
ghost use Rattle.fancy_expr.specs.Views.{look_of, tree_of};
ghost use Rattle.fancy_expr.specs.Walk.{start_inside, within_inside, within_of};

use crate::expr::{Expr, LookAround};

/// The innermost look-around around a node.
#[derive(Clone, Copy, Debug, PartialEq, Eq)]
pub enum Within {
    NoLook,
    InLookAhead,
    InLookBehind,
}

fn within_look(look: LookAround) -> Within
    ensures { within_of result ≡ within (look_of look) }
{
    match look {
        LookAround::LookAhead => Within::InLookAhead,
        LookAround::LookAheadNeg => Within::InLookAhead,
        LookAround::LookBehind => Within::InLookBehind,
        LookAround::LookBehindNeg => Within::InLookBehind,
    }
}

/// The innermost look-around around a node's children, where the node stands in `within`.
pub fn within_inside(expr: &Expr, within: Within) -> Within
    ensures { within_of result ≡ within_inside expr.now (within_of within) }
{
    match expr {
        Expr::LookAround(_, look) => within_look(*look),
        _ => within,
    }
}

/// The number of the first group below a node, where `start_group` is the next number before the node.
pub fn start_inside(expr: &Expr, start_group: usize) -> usize
    requires { start_group + group_count (tree_of expr.now) < 2 ^ 64 }
    ensures { result ≡ start_inside expr.now start_group }
{
    match expr {
        Expr::Group(_) => start_group + 1,
        _ => start_group,
    }
}
