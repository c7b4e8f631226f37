//! The table of a tree's groups, and with which of them a match may begin.

ghost use Rattle.fancy_compile.specs.AnalysedNodes.{IsKnown};
ghost use Rattle.fancy_compile.specs.GroupTables.{has_target};
ghost use Rattle.fancy_compile.specs.GroupTables.{Gathers, GathersOwn, IsTable, Marks, MarksAll, is_concat, is_group};
ghost use Rattle.fancy_meaning.specs.Options.{Analysis};
ghost use Rattle.std.specs.Prelude.{IfOk, [], false, length, replicate, slice_index_or, ◌<◌, ◌∷◌, ◌≡◌};

use crate::analysed_nodes::child;
use fancy_expr::expr::Expr;
use fancy_info::info::Info;
use std::alloc::{AllocError, Global};

/// The groups of a tree, in order of their numbers.
#[derive(Drop)]
pub struct GroupTable<'i, 'a> {
    /// The number of the first group.
    pub first: usize,
    pub nodes: Vec<&'i Info<'a>>,
    /// Whether a match may begin with the group.
    pub starts: Vec<bool>,
}

fn is_group(expr: &Expr) -> bool
    ensures { result ≡ is_group expr.now }
{
    match expr {
        Expr::Group(_) => true,
        _ => false,
    }
}

fn is_concat(expr: &Expr) -> bool
    ensures { result ≡ is_concat expr.now }
{
    match expr {
        Expr::Concat(_) => true,
        _ => false,
    }
}

/// The node, where it is a group.
fn gather_own<'i, 'a>(info: &'i Info<'a>, nodes: &mut Vec<&'i Info<'a>>) -> Result<(), AllocError>
    ensures { IfOk result (λ u. GathersOwn info.now nodes.old.items nodes.new.items) }
{
    if !is_group(info.expr()) {
        return Ok(());
    }
    nodes.push(info)?;
    Ok(())
}

/// The groups of a node, in the order in which they open.
fn gather<'i, 'a>(info: &'i Info<'a>, nodes: &mut Vec<&'i Info<'a>>) -> Result<(), AllocError>
    requires { (a : Analysis) × IsKnown a info.now }
    ensures { IfOk result (λ u. Gathers info.now nodes.old.items nodes.new.items) }
{
    if info.start_group() == info.end_group() {
        return Ok(());
    }
    gather_own(info, nodes)?;
    let children = info.children();
    for part in children {
        gather(part, nodes)?;
    }
    Ok(())
}

/// Whether the number is marked.
pub fn is_marked(marks: &[bool], i: usize) -> bool
    ensures { result ≡ slice_index_or marks.now i false }
{
    i < marks.len() && marks[i]
}

fn no_marks(alloc: Global, count: usize) -> Result<Vec<bool>, AllocError>
    ensures { IfOk result (λ v. v.items ≡ replicate count false) }
{
    let mut marks = Vec::new(alloc);
    for i in 0..count {
        marks.push(false)?;
    }
    Ok(marks)
}

/// Marks a group.
fn mark_group(marks: &mut [bool], first: usize, group: usize)
    ensures { MarksAll first (group ∷ []) marks.old marks.new }
{
    if group < first {
        return;
    }
    let i = group - first;
    if i < marks.len() {
        marks[i] = true;
    }
}

/// Marks the groups with which a match may begin, where it may begin with the node.
fn mark(info: &Info, first: usize, marks: &mut [bool])
    requires { (a : Analysis) × IsKnown a info.now }
    ensures { Marks info.now first marks.old marks.new }
{
    let expr = info.expr();
    if is_group(expr) {
        mark_group(marks, first, info.start_group());
        mark(child(info, 0), first, marks);
        return;
    }
    if !is_concat(expr) {
        return;
    }
    let children = info.children();
    for part in children {
        mark(part, first, marks);
        if part.max_size() != 0 {
            return;
        }
    }
}

impl<'i, 'a> GroupTable<'i, 'a> {
    /// The groups of a tree, the first of which has this number.
    pub fn of(
        alloc: Global,
        root: &'i Info<'a>,
        first: usize,
    ) -> Result<GroupTable<'i, 'a>, AllocError>
        requires { (a : Analysis) × IsKnown a root.now }
        ensures { IfOk result (λ g. IsTable root.now first g) }
    {
        let mut nodes = Vec::new(alloc);
        gather(root, &mut nodes)?;
        let mut starts = no_marks(alloc, nodes.len())?;
        mark(root, first, &mut starts);
        Ok(GroupTable {
            first,
            nodes,
            starts,
        })
    }

    /// There is a group with this number, or it is 0, which stands for the whole tree.
    pub fn has_target(&self, group: usize) -> bool
        ensures { result ≡ has_target self.now group }
    {
        if group == 0 {
            return true;
        }
        group >= self.first && group - self.first < self.nodes.len()
    }

    /// The group with this index.
    pub fn node(&self, i: usize) -> &'i Info<'a>
        requires { i < length self.now.nodes.items }
        ensures { result ≡ slice_index_or self.now.nodes.items i result }
    {
        self.nodes[i]
    }
}
