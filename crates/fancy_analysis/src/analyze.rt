//! `analyze`: refusals, sizes in rounds, the visit, refusals for calls; and `can_compile_as_anchored`.

ghost use Rattle.std.specs.Prelude.{◌≡◌, ◌&&◌, ◌||◌, ◌==◌, MatchResult};
ghost use Rattle.fancy_meaning.specs.Laws.{can_be_anchored, is_anchor};
ghost use Rattle.fancy_meaning.specs.Options.{Analysis};
ghost use Rattle.fancy_meaning.specs.Tree as plain;
ghost use Rattle.fancy_analysis.specs.Analyses.{IsAnalysisOf, IsRefusedAs};
ghost use Rattle.fancy_info.specs.Infos.{IsAnalysed, IsRoot, first_number, info_expr, info_facts, info_hard, info_size, info_tree, info_within, analysis_options_of};
ghost use Rattle.fancy_expr.specs.Sound.{IsWellFormedTree};
ghost use Rattle.fancy_expr.specs.Views.{parsed_of, tree_of};

use crate::make::VisitTables;
use crate::reads::read_flags;
use crate::refusals::{call_refusal, first_group, refusal};
use crate::sizes::known_sizes;
use crate::visit::visit;
use fancy_expr::error::Error;
use fancy_expr::expr::{Assertion, Expr, ExprTree};
use fancy_expr::walk::Within;
pub use fancy_info::context::AnalyzeContext;
pub use fancy_info::info::Info;
use std::alloc::Global;

/// Whether the root is hard: under the end-of-text option also where it may take nothing.
fn is_root_hard(info: &Info, context: AnalyzeContext) -> bool
    ensures { result ≡ (info_hard info.now ||
        (context.disallow_empty_match_at_eof_after_newline && (info_size info.now).least == 0)) }
{
    info.hard || (context.disallow_empty_match_at_eof_after_newline && info.size.least == 0)
}

fn as_root<'a>(info: Info<'a>, context: AnalyzeContext) -> Info<'a>
    ensures { (a : Analysis)
        → analysis_options_of context ≡ a.options
        → info_within info.entry ≡ plain.NoLook
        → (info_facts info.entry).start_group ≡ first_number a.options
        → info_tree info.entry ≡ a.tree
        → IsAnalysed a info.entry
        → IsRoot a result × (info_expr result ≡ info_expr info.entry) }
{
    let hard = is_root_hard(&info, context);
    let mut root = info;
    root.hard = hard;
    root
}

/// The analysis of a tree, by the rules of "docs/MEANING.md": its groups with their numbers, how many characters each
/// node takes, which nodes are hard, which groups are read, and what stands in a look-around.
///
/// `tree` has passed `is_well_formed`. The answer is the root; `Info::children` leads to every other node. A tree is
/// refused as `Error::CompileError` where a case of a refusal holds, as `NeverEndingRecursion` only where no other
/// does. Out of memory is `Error::Memory`.
pub fn analyze<'a>(
    alloc: Global,
    tree: &'a ExprTree,
    context: AnalyzeContext,
) -> Result<Info<'a>, Error>
    requires { IsWellFormedTree tree.now }
    ensures { MatchResult
        result
        (λ info. IsAnalysisOf tree.now (analysis_options_of context) info)
        (λ error. IsRefusedAs (parsed_of tree.now) (analysis_options_of context) error) }
{
    if let Some(error) = refusal(tree, context) {
        return Err(Error::CompileError(error));
    }
    let first = first_group(context);
    let reads = read_flags(alloc, &tree.expr, tree.total_groups + 1)?;
    let known = known_sizes(alloc, tree, context, &reads, first)?;
    let tables = VisitTables {
        context,
        known: &known,
        reads: &reads,
    };
    let info = visit(alloc, &tables, &tree.expr, first, Within::NoLook)?;
    if let Some(refused) = call_refusal(alloc, tree, &info)? {
        return Err(Error::CompileError(refused));
    }
    Ok(as_root(info, context))
}

fn is_anchor(expr: &Expr) -> bool
    ensures { result ≡ is_anchor (tree_of expr.now) }
{
    match expr {
        Expr::Assertion(Assertion::StartText) => true,
        Expr::ContinueFromPreviousMatchEnd => true,
        Expr::Absent(_) => false,
        _ => false,
    }
}

/// Whether the tree begins with `StartText`, or as a sequence with `StartText` or `ContinueFromPreviousMatchEnd`.
/// Then a way exists only at the text's start or where the match before ended.
pub fn can_compile_as_anchored(expr: &Expr) -> bool
    ensures { result ≡ can_be_anchored (tree_of expr.now) }
{
    match expr {
        Expr::Concat(parts) => match parts.first() {
            Some(first) => is_anchor(first),
            None => false,
        },
        Expr::Assertion(Assertion::StartText) => true,
        Expr::Absent(_) => false,
        _ => false,
    }
}
