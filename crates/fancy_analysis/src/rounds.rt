//! The sizes of groups, by rounds over the whole tree until one changes nothing.

ghost use Rattle.std.specs.Prelude.{◌≡◌, ◌<◌, ◌≤◌, IfOk, MatchOption, map, replicate};
ghost use Rattle.fancy_meaning.specs.Nodes.{group_count};
ghost use Rattle.fancy_meaning.specs.Numbering.{numbered_within};
ghost use Rattle.fancy_meaning.specs.Sizes.{Known, next_round, unknown};
ghost use Rattle.fancy_meaning.specs.Tree as plain;
ghost use Rattle.fancy_meaning.specs.WellFormed.{most_groups};
ghost use Rattle.fancy_info.specs.Infos.{info_facts, info_size, info_tree};
ghost use Rattle.fancy_analysis.specs.Made.{IsSized, set_size, tables_known, with_sizes};
ghost use Rattle.fancy_analysis.specs.Rounds.{AreRounds, size_rounds};
ghost use Rattle.fancy_expr.specs.Views.{tree_of};
ghost use Rattle.fancy_info.specs.Sized.{size_of};

use crate::make::VisitTables;
use crate::visit::visit;
use fancy_expr::expr::{Expr, ExprTree};
use fancy_expr::walk::Within;
use fancy_info::context::AnalyzeContext;
use fancy_info::info::Info;
use fancy_info::size::Size;
use std::alloc::{AllocError, Global};

/// Sets the size of a node under its number, if it is a group whose number the table has.
fn set_size(info: &Info, table: &mut [Size])
    ensures { map size_of table.new
        ≡ set_size (info_facts info.now).expr (info_facts info.now).start_group
        (info_size info.now) (map size_of table.old) }
{
    match info.expr {
        Expr::Group(_) => {
            if info.start_group < table.len() {
                table[info.start_group] = info.size;
            }
        }
        _ => {}
    }
}

/// Sets the sizes of a node's groups under their numbers.
fn set_sizes(info: &Info, table: &mut [Size])
    ensures { (known : Known) → IsSized known info.now → map size_of table.new
        ≡ with_sizes known (map size_of table.old) (info_tree info.now) }
{
    set_size(info, table);
    for child in &info.children {
        set_sizes(child, table);
    }
}

fn unknown_sizes(alloc: Global, count: usize) -> Result<Vec<Size>, AllocError>
    ensures { IfOk result (λ v. map size_of v.items ≡ replicate count unknown) }
{
    let mut sizes = Vec::new(alloc);
    for i in 0..count {
        sizes.push(Size::unknown())?;
    }
    Ok(sizes)
}

fn next_sizes(
    alloc: Global,
    tables: &VisitTables,
    tree: &ExprTree,
    first: usize,
) -> Result<Vec<Size>, AllocError>
    requires groups { tree.now.total_groups ≡ group_count (tree_of tree.now.expr) }
    requires few { tree.now.total_groups ≤ most_groups }
    requires first { first ≤ 1 }
    ensures { IfOk
        result
        (λ v. map size_of v.items
        ≡ next_round (numbered_within plain.NoLook first (tree_of tree.now.expr))
        (tables_known tables.now)) }
{
    let info = visit(alloc, tables, &tree.expr, first, Within::NoLook)?;
    let mut sizes = unknown_sizes(alloc, tree.total_groups + 1)?;
    set_sizes(&info, &mut sizes);
    // The whole tree has the number 0, also where the first group has it.
    sizes[0] = info.size;
    Ok(sizes)
}

/// What the rounds come to.
#[derive(Drop)]
pub struct SizeRounds {
    /// The sizes by number that the last round goes by, that of the whole tree at 0.
    pub known: Vec<Size>,
    /// How many rounds changed a size.
    pub count: usize,
}

/// The sizes of groups by rounds over the whole tree, until one changes nothing. `None` if more than `most` rounds change
/// a size: then no round is made behind the one that exceeds it.
pub fn sizes_by_rounds(
    alloc: Global,
    tree: &ExprTree,
    context: AnalyzeContext,
    reads: &[bool],
    first: usize,
    most: usize,
) -> Result<Option<SizeRounds>, AllocError>
    requires groups { tree.now.total_groups ≡ group_count (tree_of tree.now.expr) }
    requires few { tree.now.total_groups ≤ most_groups }
    requires first { first ≤ 1 }
    ensures { IfOk result (λ found. MatchOption
        found
        (most < size_rounds (numbered_within plain.NoLook first (tree_of tree.now.expr)))
        (AreRounds (numbered_within plain.NoLook first (tree_of tree.now.expr)) most)) }
{
    let mut known = unknown_sizes(alloc, tree.total_groups + 1)?;
    for round in 0..tree.total_groups {
        let tables = VisitTables {
            context,
            known: &known,
            reads,
        };
        let next = next_sizes(alloc, &tables, tree, first)?;
        if next == known {
            return Ok(Some(SizeRounds {
                known,
                count: round,
            }));
        }
        if round >= most {
            return Ok(None);
        }
        known = next;
    }
    Ok(Some(SizeRounds {
        known,
        count: tree.total_groups,
    }))
}
