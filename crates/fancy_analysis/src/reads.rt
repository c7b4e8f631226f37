//! The groups that back references and existence conditions read, as flags.

ghost use Rattle.std.specs.Prelude.{◌≡◌, ◌+◌, ◌&&◌, ◌||◌, ℕ, IfOk, false, length, nat_lt, replicate, slice_index_or};
ghost use Rattle.fancy_meaning.specs.Nodes.{is_read, read_by};
ghost use Rattle.fancy_analysis.specs.LateReads.{is_named};
ghost use Rattle.fancy_expr.specs.Views.{tree_of};

use fancy_expr::expr::Expr;
use fancy_expr::parts::{part, part_count};
use std::alloc::{AllocError, Global};

/// The group that a node reads, or asks for.
fn read_by(expr: &Expr) -> Option<usize>
    ensures { result ≡ read_by (tree_of expr.now) }
{
    match expr {
        Expr::Backref { group, .. } => Some(*group),
        Expr::BackrefExistsCondition { group, .. } => Some(*group),
        Expr::Absent(_) => None,
        _ => None,
    }
}

fn mark(expr: &Expr, reads: &mut [bool])
    ensures { (g : ℕ)
        → slice_index_or reads.new g false
        ≡ (slice_index_or reads.old g false ||
        (nat_lt g (length reads.old) && is_named (read_by (tree_of expr.now)) g)) }
{
    if let Some(group) = read_by(expr) {
        if group < reads.len() {
            reads[group] = true;
        }
    }
}

/// Marks the groups that are read by a node or below it.
fn mark_all(expr: &Expr, reads: &mut [bool])
    ensures { (g : ℕ)
        → slice_index_or reads.new g false
        ≡ (slice_index_or reads.old g false ||
        (nat_lt g (length reads.old) && is_read (tree_of expr.now) g)) }
{
    mark(expr, reads);
    for i in 0..part_count(expr) {
        mark_all(part(expr, i), reads);
    }
}

/// So many flags, none of which is set.
pub fn no_flags(alloc: Global, count: usize) -> Result<Vec<bool>, AllocError>
    ensures { IfOk result (λ v. v.items ≡ replicate count false) }
{
    Ok(vec![in alloc; false; count]?)
}

/// A flag for each of so many numbers, whether the group is read.
pub fn read_flags(alloc: Global, expr: &Expr, count: usize) -> Result<Vec<bool>, AllocError>
    ensures { IfOk result (λ v. (g : ℕ) →
        slice_index_or v.items g false ≡ (nat_lt g count && is_read (tree_of expr.now) g)) }
{
    let mut reads = no_flags(alloc, count)?;
    mark_all(expr, &mut reads);
    Ok(reads)
}
