//! The test whether a tree may be handed in: each node, and the fields that come with the tree.

ghost use Rattle.std.specs.Prelude.{◌≡◌, ◌<◌, ◌≤◌, ◌↔◌, ℕ, Bool, All, Contains, IfSome, IsFalse, IsTrue, true, false};
ghost use Rattle.std.specs.List.{list_any, list_all};
ghost use Rattle.fancy_meaning.specs.Tree as plain;
ghost use Rattle.fancy_meaning.specs.Nodes.{nodes, group_count};
ghost use Rattle.fancy_meaning.specs.Sizes.{saturated};
ghost use Rattle.fancy_meaning.specs.WellFormed.{Has, is_any_call, is_call, most_groups, refers};
ghost use Rattle.fancy_expr.specs.Views.{tree_of};
ghost use Rattle.fancy_expr.specs.Sound.{IsWellFormedTree};

use crate::expr::{Expr, ExprTree};
use crate::nodes::{Question, has_node};
use crate::parts::{part, part_count};
use crate::references::all_referred;
use crate::sound::all_sound;

/// So many groups a tree may have.
pub const MOST_GROUPS: usize = 1_000_000;

/// How many groups a node has, itself and those below it, or the largest number where it cannot be said.
pub fn count_groups(expr: &Expr) -> usize
    ensures { result ≡ saturated (group_count (tree_of expr.now)) }
{
    let mut count: usize = match expr {
        Expr::Group(_) => 1,
        _ => 0,
    };
    for i in 0..part_count(expr) {
        count = count.saturating_add(count_groups(part(expr, i)));
    }
    count
}

fn groups_fit(tree: &ExprTree) -> bool
    ensures { IsTrue result
        ↔ ((tree.now.total_groups ≡ group_count (tree_of tree.now.expr))
        × (tree.now.total_groups ≤ most_groups)) }
{
    tree.total_groups <= MOST_GROUPS && count_groups(&tree.expr) == tree.total_groups
}

fn calls_fit(tree: &ExprTree) -> bool
    ensures { IsTrue result
        ↔ ((Has (tree_of tree.now.expr) is_call → tree.now.contains_subroutines ≡ true)
        × (IsFalse (list_any is_any_call (nodes (tree_of tree.now.expr))) →
        tree.now.contains_subroutines ≡ false)) }
{
    if tree.contains_subroutines {
        has_node(&tree.expr, Question::IsAnyCall)
    } else {
        !has_node(&tree.expr, Question::IsCall)
    }
}

fn are_listed(tree: &ExprTree) -> bool
    ensures { IsTrue result
        ↔ ((g : ℕ) (casei : Bool)
        → Contains (nodes (tree_of tree.now.expr)) (plain.Backref g casei)
        → g ≤ tree.now.total_groups
        → Contains tree.now.backrefs.keys g) }
{
    !has_node(
        &tree.expr,
        Question::IsUnlisted {
            listed: &tree.backrefs,
            groups: tree.total_groups,
        },
    )
}

fn is_referred_to(tree: &ExprTree, group: usize) -> bool
    ensures { result ≡ list_any (refers group) (nodes (tree_of tree.now.expr)) }
{
    has_node(&tree.expr, Question::Refers(group))
}

/// The test of each listed number by a walk of its own, which takes no memory.
fn each_is_referred_to(tree: &ExprTree) -> bool
    ensures { result ≡ list_all
        (λ g. list_any (refers g) (nodes (tree_of tree.now.expr))) tree.now.backrefs.keys }
{
    tree.backrefs.iter().all(|g| is_referred_to(tree, *g))
}

/// Whether each listed number is referred to: by one walk, where there is memory for a copy of the list.
fn listed_refer(tree: &ExprTree) -> bool
    ensures { result ≡ list_all
        (λ g. list_any (refers g) (nodes (tree_of tree.now.expr))) tree.now.backrefs.keys }
{
    match tree.backrefs.clone() {
        Ok(listed) => all_referred(&tree.expr, listed),
        Err(_) => each_is_referred_to(tree),
    }
}

fn out_of_range_refers(tree: &ExprTree) -> bool
    ensures { IsTrue result
        ↔ IfSome tree.now.out_of_range_backref
        (λ g. Has (tree_of tree.now.expr) (refers g) × (tree.now.total_groups < g)) }
{
    match tree.out_of_range_backref {
        Some(g) => tree.total_groups < g && is_referred_to(tree, g),
        None => true,
    }
}

/// Whether a tree may be handed in: no alternation is without branches, each literal is one character, no class is
/// without a text, the bounds of each loop are in order, and what comes with the tree says of it what is so
/// ("docs/MEANING.md"). Memory is taken for a copy of `backrefs`; where it is refused, the answer is the same, in the
/// time of a walk for each number of them.
pub fn is_well_formed(tree: &ExprTree) -> bool
    ensures { IsTrue result ↔ IsWellFormedTree tree.now }
{
    if !all_sound(&tree.expr) {
        return false;
    }
    if !groups_fit(tree) {
        return false;
    }
    if !calls_fit(tree) {
        return false;
    }
    if !are_listed(tree) {
        return false;
    }
    if !listed_refer(tree) {
        return false;
    }
    out_of_range_refers(tree)
}
