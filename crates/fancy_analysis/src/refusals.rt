//! Refusals: those that one node causes, those of the tree's fields, and those about calls.

ghost use Rattle.std.specs.Prelude.{◌≡◌, ◌≤◌, ◌+◌, ◌-◌, ℕ, MatchOption, MatchResult, false, ◌&&◌, if◌then◌else◌};
ghost use Rattle.fancy_meaning.specs.AnalysisRefusals.{AnalysisRefuses, is_lazy};
ghost use Rattle.fancy_meaning.specs.Nodes.{nodes};
ghost use Rattle.std.specs.List.{list_any};
ghost use Rattle.fancy_meaning.specs.Options.{AnalysisOptions, analysis_of};
ghost use Rattle.fancy_meaning.specs.WellFormed.{most_groups};
ghost use Rattle.fancy_info.specs.Infos.{analysis_options_of};
ghost use Rattle.fancy_expr.specs.Questions.{is_refused};
ghost use Rattle.fancy_analysis.specs.Refusals.{HasNoRefusedNode, IsAnalysable, first_of, has_named_and_numbered, last_of, refusal_of};
ghost use Rattle.fancy_expr.specs.Errors.{error_of};
ghost use Rattle.fancy_expr.specs.Sound.{IsWellFormedTree};
ghost use Rattle.fancy_analysis.specs.Endings.{IsWhole};
ghost use Rattle.fancy_expr.specs.declared.error.Error.TheVariants.{Memory};
ghost use Rattle.fancy_expr.specs.Views.{parsed_of, tree_of, unresolved_of};
ghost use Rattle.fancy_meaning.specs.Tree as plain;

use crate::endings::can_end;
use crate::late_reads::reads_after_call;
use crate::recursion::left_recursion;
use fancy_expr::error::{CompileError, Error};
use fancy_expr::expr::{AstNode, Expr, ExprTree};
use fancy_expr::nodes::{Question, find_node, has_node};
use fancy_info::context::AnalyzeContext;
use fancy_info::info::Info;
use std::alloc::Global;

fn unresolved_refusal(node: &AstNode) -> CompileError
    ensures { error_of result ≡ refusal_of (plain.AstNode (unresolved_of node.now)) }
{
    match node {
        AstNode::SubroutineCall(_) => CompileError::SubroutineCallTargetNotFound,
        _ => CompileError::UnresolvedAstNode,
    }
}

/// The error of a node that is refused.
fn node_refusal(expr: &Expr) -> CompileError
    ensures { error_of result ≡ refusal_of (tree_of expr.now) }
{
    match expr {
        Expr::Backref { group, .. } => CompileError::InvalidBackref(*group),
        Expr::BackrefExistsCondition { group, .. } => CompileError::InvalidBackref(*group),
        Expr::AstNode(node, _) => unresolved_refusal(node),
        Expr::Absent(_) => CompileError::FeatureNotYetSupported,
        _ => CompileError::FeatureNotYetSupported,
    }
}

/// The number of the first group.
pub fn first_group(context: AnalyzeContext) -> usize
    ensures { result ≡ first_of context }
{
    if context.explicit_capture_group_0 {
        0
    } else {
        1
    }
}

fn last_group(tree: &ExprTree, context: AnalyzeContext) -> usize
    requires { tree.now.total_groups ≤ most_groups }
    ensures { result ≡ last_of tree.now context }
{
    (first_group(context) + tree.total_groups).saturating_sub(1)
}

fn has_named_and_numbered(tree: &ExprTree) -> bool
    ensures { result ≡ has_named_and_numbered tree.now }
{
    tree.numbered_groups_ignored
        && tree.numeric_capture_group_references
        && !tree.named_groups.is_empty()
}

/// A loop is lazy where the longest match may be asked for.
fn has_lazy(tree: &ExprTree, context: AnalyzeContext) -> bool
    ensures { result ≡ (context.leftmost_longest && list_any is_lazy (nodes (tree_of tree.now.expr))) }
{
    context.leftmost_longest && has_node(&tree.expr, Question::IsLazy)
}

/// Why a tree is refused for a node of it, or for the names of its groups, if it is.
pub fn refusal(tree: &ExprTree, context: AnalyzeContext) -> Option<CompileError>
    requires { IsWellFormedTree tree.now }
    ensures { MatchOption
        result
        (HasNoRefusedNode (parsed_of tree.now) (analysis_options_of context))
        (λ error. AnalysisRefuses (parsed_of tree.now) (analysis_options_of context)
        (error_of error)) }
{
    if has_named_and_numbered(tree) {
        return Some(CompileError::NamedBackrefOnly);
    }
    if has_lazy(tree, context) {
        return Some(CompileError::FeatureNotYetSupported);
    }
    let first = first_group(context);
    let last = last_group(tree, context);
    match find_node(&tree.expr, Question::IsRefused { first, last }) {
        Some(expr) => Some(node_refusal(expr)),
        None => None,
    }
}

/// Why a tree with no refused node is refused for its calls, if it is. That they never end is said where nothing else
/// is wrong.
pub fn call_refusal(
    alloc: Global,
    tree: &ExprTree,
    root: &Info,
) -> Result<Option<CompileError>, Error>
    requires { IsWellFormedTree tree.now }
    ensures { (options : AnalysisOptions)
        → HasNoRefusedNode (parsed_of tree.now) options
        → IsWhole (analysis_of (tree_of tree.now.expr) options) root.now
        → MatchResult
        result
        (λ found. MatchOption
        found
        (IsAnalysable (parsed_of tree.now) options)
        (λ error. AnalysisRefuses (parsed_of tree.now) options (error_of error)))
        (λ error. error ≡ Memory) }
{
    if reads_after_call(root) {
        return Ok(Some(CompileError::FeatureNotYetSupported));
    }
    if !has_node(&tree.expr, Question::IsCall) {
        return Ok(None);
    }
    if let Some(text) = left_recursion(alloc, root, &tree.named_groups)? {
        return Ok(Some(CompileError::LeftRecursiveSubroutineCall(text)));
    }
    if can_end(alloc, root)? {
        Ok(None)
    } else {
        Ok(Some(CompileError::NeverEndingRecursion))
    }
}
