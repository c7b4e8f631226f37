//! The visit of a tree that makes an `Info` of each node, children first.

ghost use Rattle.std.specs.Prelude.{◌≡◌, ◌+◌, ◌<◌, ◌^◌, IfOk};
ghost use Rattle.fancy_meaning.specs.Nodes.{group_count};
ghost use Rattle.fancy_expr.specs.Walk.{within_of};
ghost use Rattle.fancy_expr.specs.Views.{tree_of};
ghost use Rattle.fancy_analysis.specs.Made.{IsVisited};

use crate::make::{VisitTables, make_info};
use fancy_expr::expr::Expr;
use fancy_expr::parts::{part, part_count};
use fancy_expr::walk::{Within, start_inside, within_inside};
use fancy_info::info::Info;
use std::alloc::{AllocError, Global};

/// A node and all below it.
pub fn visit<'a>(
    alloc: Global,
    tables: &VisitTables,
    expr: &'a Expr,
    start_group: usize,
    within: Within,
) -> Result<Info<'a>, AllocError>
    requires { start_group + group_count (tree_of expr.now) < 2 ^ 64 }
    ensures { IfOk result
        (λ info. IsVisited tables.now expr.now start_group (within_of within) info) }
{
    let inside = within_inside(expr, within);
    let mut next_group = start_inside(expr, start_group);
    let mut children = Vec::with_capacity(alloc, part_count(expr))?;
    for i in 0..part_count(expr) {
        let child = visit(alloc, tables, part(expr, i), next_group, inside)?;
        next_group = child.end_group;
        children.push(child)?;
    }
    Ok(make_info(tables, expr, children, start_group, next_group, within))
}
