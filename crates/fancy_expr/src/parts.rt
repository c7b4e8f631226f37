//! The children of a node: how many, and each by its index.

ghost use Rattle.std.specs.Prelude.{◌≡◌, ◌<◌, length, slice_index_or};
ghost use Rattle.fancy_expr.specs.Exprs.{below, below_absent};

use crate::expr::{Absent, Expr};

/// How many children a node has.
pub fn part_count(expr: &Expr) -> usize
    ensures { result ≡ length (below expr.now) }
{
    match expr {
        Expr::Concat(parts) => parts.len(),
        Expr::Alt(branches) => branches.len(),
        Expr::Group(_) => 1,
        Expr::LookAround(_, _) => 1,
        Expr::Repeat { .. } => 1,
        Expr::AtomicGroup(_) => 1,
        Expr::Conditional { .. } => 3,
        Expr::Absent(absent) => absent_part_count(absent),
        Expr::DefineGroup { .. } => 1,
        _ => 0,
    }
}

fn absent_part_count(absent: &Absent) -> usize
    ensures { result ≡ length (below_absent absent.now) }
{
    match absent {
        Absent::Repeater(_) => 1,
        Absent::Expression { .. } => 2,
        Absent::Stopper(_) => 1,
        Absent::Clear => 0,
    }
}

/// A node's child with this index.
pub fn part(expr: &Expr, i: usize) -> &Expr
    requires { i < length (below expr.now) }
    ensures { result.now ≡ slice_index_or (below expr.now) i result.now }
{
    match expr {
        Expr::Concat(parts) => &parts[i],
        Expr::Alt(branches) => &branches[i],
        Expr::Group(body) => body,
        Expr::LookAround(body, _) => body,
        Expr::Repeat { child, .. } => child,
        Expr::AtomicGroup(body) => body,
        Expr::Conditional {
            condition,
            true_branch,
            false_branch,
        } => {
            if i == 0 {
                condition
            } else if i == 1 {
                true_branch
            } else {
                false_branch
            }
        }
        Expr::Absent(absent) => absent_part(expr, absent, i),
        Expr::DefineGroup { definitions } => definitions,
        _ => expr,
    }
}

fn absent_part<'a>(whole: &'a Expr, absent: &'a Absent, i: usize) -> &'a Expr
    requires { i < length (below_absent absent.now) }
    ensures { result.now ≡ slice_index_or (below_absent absent.now) i result.now }
{
    match absent {
        Absent::Repeater(body) => body,
        Absent::Expression {
            absent: left_out,
            exp,
        } => { if i == 0 { left_out } else { exp } }
        Absent::Stopper(body) => body,
        Absent::Clear => whole,
    }
}
