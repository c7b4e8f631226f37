//! The node of a tree for which it is refused.

ghost use Rattle.std.specs.Prelude.{◌≡◌, ◌++◌, ◌≤◌, ◌<◌, ◌^◌, IfOk, map, option_and_then, option_map, slice_get};
ghost use Rattle.std.specs.List.{position};
ghost use Rattle.fancy_expr.specs.Exprs.{exprs};
ghost use Rattle.fancy_expr.specs.Walk.{start_inside};
ghost use Rattle.fancy_info.specs.Infos.{info_tree};
ghost use Rattle.fancy_meaning.specs.Nodes.{nodes};
ghost use Rattle.fancy_meaning.specs.Options.{Analysis};
ghost use Rattle.fancy_faults.specs.Blame as blame;
ghost use Rattle.fancy_faults.specs.Known.{IsKnown, exprs_of};
ghost use Rattle.fancy_faults.specs.Leaves as leaves;

use crate::blame::{Whole, is_at_fault, is_call, is_described, is_variable_look_behind};
use crate::leaves::is_plain;
use fancy_expr::error::CompileError;
use fancy_expr::expr::Expr;
use fancy_expr::parts::{part, part_count};
use fancy_info::info::Info;
use std::alloc::{AllocError, Global};

/// Adds the node and those below it, each before those below it.
pub fn push_nodes<'a>(expr: &'a Expr, nodes: &mut Vec<&'a Expr>) -> Result<(), AllocError>
    ensures { IfOk result (λ u. exprs_of nodes.new.items
        ≡ exprs_of nodes.old.items ++ exprs expr.now) }
{
    nodes.push(expr)?;
    for i in 0..part_count(expr) {
        push_nodes(part(expr, i), nodes)?;
    }
    Ok(())
}

/// Adds of the node, and of those below it, whether it is a look-behind with no fixed length.
fn push_look_behinds(info: &Info<'_>, marks: &mut Vec<bool>) -> Result<(), AllocError>
    ensures { IfOk result (λ u. (a : Analysis)
        → IsKnown a info.now
        → marks.new.items ≡ marks.old.items
        ++ map (blame.is_variable_look_behind a.tree) (nodes (info_tree info.now))) }
{
    marks.push(is_variable_look_behind(info))?;
    let children = info.children();
    for part in children {
        push_look_behinds(part, marks)?;
    }
    Ok(())
}

/// The first look-behind with no fixed length, by its index among the nodes.
pub fn look_behind_at(alloc: Global, info: &Info<'_>) -> Result<Option<usize>, AllocError>
    ensures { IfOk result (λ at. (a : Analysis)
        → IsKnown a info.now
        → at ≡ position (blame.is_variable_look_behind a.tree) (nodes (info_tree info.now))) }
{
    let mut marks = Vec::new(alloc);
    push_look_behinds(info, &mut marks)?;
    Ok(marks.iter().position(|mark| *mark))
}

/// The first node that may be at fault by itself.
pub fn first_at_fault(nodes: &[&Expr], refused: &CompileError, whole: Whole) -> Option<usize>
    ensures { result ≡ position (blame.is_at_fault whole refused.now) (exprs_of nodes.now) }
{
    nodes
        .iter()
        .position(|node| is_at_fault(refused, node, whole))
}

/// The only call, if there is one call only.
pub fn only_call(nodes: &[&Expr]) -> Option<usize>
    ensures { result ≡ blame.only_call (exprs_of nodes.now) }
{
    if nodes.iter().filter(|node| is_call(node)).count() == 1 {
        nodes.iter().position(|node| is_call(node))
    } else {
        None
    }
}

/// The number of the next group behind the start of this node.
fn next_after(expr: &Expr, next: usize) -> usize
    requires { next < 2 ^ 63 }
    ensures { result ≡ start_inside expr.now next }
{
    match expr {
        Expr::Group(_) => next + 1,
        _ => next,
    }
}

/// The first group that is described so. The first group has the number `first`.
pub fn described_at(
    alloc: Global,
    nodes: &[&Expr],
    text: &str,
    first: usize,
) -> Result<Option<usize>, AllocError>
    requires { first ≤ 1 }
    ensures { IfOk result (λ at. at ≡ blame.described_from text.now first (exprs_of nodes.now)) }
{
    let mut next = first;
    for at in 0..nodes.len() {
        let node = nodes[at];
        if is_described(alloc, text, node, next)? {
            return Ok(Some(at));
        }
        next = next_after(node, next);
    }
    Ok(None)
}

/// How many leaves that are not empty are before the node with this index.
fn leaves_before(nodes: &[&Expr], at: usize) -> usize
    ensures { result ≡ leaves.leaves_before (exprs_of nodes.now) at }
{
    nodes.iter().take(at).filter(|node| is_plain(node)).count()
}

/// The same of the node with this index, if there is one.
pub fn leaf_of(nodes: &[&Expr], at: Option<usize>) -> Option<usize>
    ensures { result ≡ option_map (leaves.leaves_before (exprs_of nodes.now)) at }
{
    match at {
        Some(at) => Some(leaves_before(nodes, at)),
        None => None,
    }
}

/// The node with this index.
pub fn node_at<'a>(nodes: &[&'a Expr], at: Option<usize>) -> Option<&'a Expr>
    ensures { option_map (λ e. e.now) result
        ≡ option_and_then (slice_get (exprs_of nodes.now)) at }
{
    match at {
        Some(at) => nodes.get(at).copied(),
        None => None,
    }
}
