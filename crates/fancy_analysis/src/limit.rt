//! Whether the analysis of a tree is within a limit: how many nodes are looked at in rounds that change something.

ghost use Rattle.std.specs.Prelude.{◌≡◌, ◌↔◌, ◌+◌, ◌^◌, ◌<◌, ◌≤◌, ◌/◌, IfOk, IsFalse, IsTrue, MatchOption, length, map, suc, true};
ghost use Rattle.std.specs.List.{list_any};
ghost use Rattle.fancy_meaning.specs.Nodes.{group_count};
ghost use Rattle.fancy_meaning.specs.Sizes.{known_of};
ghost use Rattle.fancy_meaning.specs.WellFormed.{most_groups};
ghost use Rattle.fancy_expr.specs.Exprs.{exprs};
ghost use Rattle.fancy_expr.specs.Sound.{IsWellFormedTree};
ghost use Rattle.fancy_expr.specs.Views.{tree_of};
ghost use Rattle.fancy_info.specs.Sized.{size_of};
ghost use Rattle.fancy_analysis.specs.AnalysisLimit.{analysis_nodes, analysis_rounds, whole_of};
ghost use Rattle.fancy_analysis.specs.Endings.{ending_rounds};
ghost use Rattle.fancy_analysis.specs.Rounds.{names_one};

use crate::endings::ends_within;
use crate::make::VisitTables;
use crate::rounds::sizes_by_rounds;
use crate::sizes::has_names;
use crate::visit::visit;
use fancy_expr::expr::{Expr, ExprTree};
use fancy_expr::nodes::{Question, has_node};
use fancy_expr::parts::{part, part_count};
use fancy_expr::walk::Within;
use fancy_info::context::AnalyzeContext;
use fancy_info::size::Size;
use std::alloc::{AllocError, Global};

/// How many are left when one is taken off for each node, if there are enough.
fn left_after(expr: &Expr, left: usize) -> Option<usize>
    ensures { MatchOption result
        (left < length (exprs expr.now))
        (λ rest. rest + length (exprs expr.now) ≡ left) }
{
    let mut rest = left.checked_sub(1)?;
    for i in 0..part_count(expr) {
        rest = left_after(part(expr, i), rest)?;
    }
    Some(rest)
}

/// How many rounds over an expression look at no more nodes than the limit.
fn rounds_within(expr: &Expr, limit: usize) -> usize
    ensures { result ≡ limit / length (exprs expr.now) }
{
    match left_after(expr, limit) {
        Some(rest) => limit / (limit - rest),
        None => 0,
    }
}

/// Whether at most `most` rounds find a target that can end, where these are the sizes by number.
fn are_few_endings(
    alloc: Global,
    expr: &Expr,
    known: &[Size],
    most: usize,
) -> Result<bool, AllocError>
    requires fits { 1 + group_count (tree_of expr.now) < 2 ^ 64 }
    requires known { map size_of known.now ≡ known_of (whole_of expr.now) }
    ensures { IfOk result (λ few. IsTrue few ↔
        (ending_rounds (whole_of expr.now) (suc (group_count (whole_of expr.now))) ≤ most)) }
{
    let tables = VisitTables {
        context: AnalyzeContext::default(),
        known,
        reads: &[],
    };
    let root = visit(alloc, &tables, expr, 1, Within::NoLook)?;
    Ok(ends_within(alloc, &root, most)?.is_some())
}

/// Whether at most `most` rounds change something.
fn are_few_rounds(alloc: Global, tree: &ExprTree, most: usize) -> Result<bool, AllocError>
    requires groups { tree.now.total_groups ≡ group_count (tree_of tree.now.expr) }
    requires bound { tree.now.total_groups ≤ most_groups }
    requires named { list_any names_one (exprs tree.now.expr) ≡ true }
    ensures { IfOk result (λ few. IsTrue few ↔ (analysis_rounds tree.now.expr ≤ most)) }
{
    match sizes_by_rounds(alloc, tree, AnalyzeContext::default(), &[], 1, most)? {
        Some(rounds) => {
            if !has_node(&tree.expr, Question::IsCall) {
                return Ok(true);
            }
            are_few_endings(alloc, &tree.expr, &rounds.known, most - rounds.count)
        }
        None => Ok(false),
    }
}

/// The analysis of the tree looks at `most` nodes at most in rounds that change something.
///
/// The nodes of the tree count once for each round in which the size of a group changes, if a back reference or a call
/// names a group, and once for each round in which a further group is found to be able to end, if there is a call. Groups
/// are numbered from 1. The rounds are made here only where their number could exceed the limit, and no further than to
/// where they do.
pub fn is_analysis_within(alloc: Global, tree: &ExprTree, limit: usize) -> Result<bool, AllocError>
    requires { IsWellFormedTree tree.now }
    ensures within { IfOk result (λ within. IsTrue within → analysis_nodes tree.now ≤ limit) }
    ensures over { IfOk result (λ within. IsFalse within → limit < analysis_nodes tree.now) }
{
    if !has_names(&tree.expr) {
        return Ok(true);
    }
    let most = rounds_within(&tree.expr, limit);
    // There are no more rounds than groups for sizes, and one more than groups for ends.
    if tree.total_groups < most / 2 {
        return Ok(true);
    }
    are_few_rounds(alloc, tree, most)
}
