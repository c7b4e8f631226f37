//! Which numbers of a set a tree refers to, found in one walk.

ghost use Rattle.std.specs.Prelude.{◌≡◌, ℕ, ◌&&◌, ◌==◌, not, false};
ghost use Rattle.std.specs.BTreeSet.{contains};
ghost use Rattle.std.specs.List.{list_any, list_all};
ghost use Rattle.std.specs.Option.{option_map_or};
ghost use Rattle.std.specs.Ordering.{nat_cmp};
ghost use Rattle.fancy_meaning.specs.Nodes.{nodes};
ghost use Rattle.fancy_meaning.specs.WellFormed.{refers};
ghost use Rattle.fancy_expr.specs.Views.{tree_of};

use crate::expr::Expr;
use crate::parts::{part, part_count};
use std::collections::BTreeSet;

/// The group that a node refers back to, or asks for.
fn referred_by(expr: &Expr) -> Option<usize>
    ensures { (g : ℕ) → refers g (tree_of expr.now) ≡ option_map_or (λ h. h == g) result false }
{
    match expr {
        Expr::Backref { group, .. } => Some(*group),
        Expr::BackrefWithRelativeRecursionLevel { group, .. } => Some(*group),
        Expr::BackrefExistsCondition { group, .. } => Some(*group),
        Expr::Absent(_) => None,
        _ => None,
    }
}

fn remove_own(pending: &mut BTreeSet<usize>, expr: &Expr)
    ensures { (g : ℕ) → contains nat_cmp pending.new g
        ≡ (contains nat_cmp pending.old g && not (refers g (tree_of expr.now))) }
{
    if let Some(group) = referred_by(expr) {
        pending.remove(&group);
    }
}

/// Takes out what a node and those below it refer to.
fn remove_referred(pending: &mut BTreeSet<usize>, expr: &Expr)
    ensures { (g : ℕ) → contains nat_cmp pending.new g
        ≡ (contains nat_cmp pending.old g
        && not (list_any (refers g) (nodes (tree_of expr.now)))) }
{
    remove_own(pending, expr);
    for i in 0..part_count(expr) {
        remove_referred(pending, part(expr, i));
    }
}

/// Whether a node or one below it refers to each of these numbers.
pub fn all_referred(expr: &Expr, mut numbers: BTreeSet<usize>) -> bool
    ensures { result ≡ list_all
        (λ g. list_any (refers g) (nodes (tree_of expr.now))) numbers.keys }
{
    remove_referred(&mut numbers, expr);
    numbers.is_empty()
}
