//! The sizes of the groups that a tree names.

ghost use Rattle.std.specs.Prelude.{◌≡◌, ◌≤◌, IfOk, MatchOption, None, false, is_some, map};
ghost use Rattle.std.specs.List.{list_any};
ghost use Rattle.fancy_meaning.specs.Nodes.{group_count};
ghost use Rattle.fancy_meaning.specs.Numbering.{numbered_within};
ghost use Rattle.fancy_meaning.specs.Sizes.{known_of};
ghost use Rattle.fancy_meaning.specs.Tree as plain;
ghost use Rattle.fancy_meaning.specs.WellFormed.{most_groups};
ghost use Rattle.fancy_expr.specs.Exprs.{exprs};
ghost use Rattle.fancy_expr.specs.Views.{tree_of};
ghost use Rattle.fancy_info.specs.Sized.{size_of};
ghost use Rattle.fancy_analysis.specs.Rounds.{Agree, names_one};

use crate::rounds::sizes_by_rounds;
use fancy_expr::expr::{Expr, ExprTree};
use fancy_expr::parts::{part, part_count};
use fancy_info::context::AnalyzeContext;
use fancy_info::size::Size;
use std::alloc::{AllocError, Global};

/// Whether a node takes the size of a number.
fn names_one(expr: &Expr) -> bool
    ensures { result ≡ names_one expr.now }
{
    match expr {
        Expr::Backref { .. } => true,
        Expr::BackrefWithRelativeRecursionLevel { .. } => true,
        Expr::SubroutineCall(_) => true,
        Expr::Absent(_) => false,
        _ => false,
    }
}

/// Whether a node or one below it takes the size of a number: a back reference or a call.
pub fn has_names(expr: &Expr) -> bool
    ensures { result ≡ list_any names_one (exprs expr.now) }
{
    if names_one(expr) {
        return true;
    }
    for i in 0..part_count(expr) {
        if has_names(part(expr, i)) {
            return true;
        }
    }
    false
}

/// The sizes by number that the last round goes by, right for each number that is named. Where nothing is named, none is
/// computed.
pub fn known_sizes(
    alloc: Global,
    tree: &ExprTree,
    context: AnalyzeContext,
    reads: &[bool],
    first: usize,
) -> Result<Vec<Size>, AllocError>
    requires groups { tree.now.total_groups ≡ group_count (tree_of tree.now.expr) }
    requires few { tree.now.total_groups ≤ most_groups }
    requires first { first ≤ 1 }
    ensures { IfOk result (λ v. Agree (map size_of v.items)
        (known_of (numbered_within plain.NoLook first (tree_of tree.now.expr)))
        (exprs tree.now.expr)) }
{
    if !has_names(&tree.expr) {
        return Ok(Vec::new(alloc));
    }
    match sizes_by_rounds(alloc, tree, context, reads, first, tree.total_groups)? {
        Some(rounds) => Ok(rounds.known),
        None => unreachable!(),
    }
}
