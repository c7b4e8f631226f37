//! Which nodes of a tree a refusal may be for, each by itself.

ghost use Rattle.std.specs.Prelude.{◌≡◌, IfOk, nat_eq};
ghost use Rattle.std.specs.List.{ends_with, list_all};
ghost use Rattle.fancy_info.specs.Infos.{info_size, info_tree};
ghost use Rattle.fancy_meaning.specs.Options.{Analysis};
ghost use Rattle.fancy_faults.specs.Blame as blame;
ghost use Rattle.fancy_faults.specs.Known.{IsKnown, has_fixed_length, is_alt, is_look_behind};

use fancy_analysis::analyze::AnalyzeContext;
use fancy_expr::error::CompileError;
use fancy_expr::expr::{Absent, AstNode, BacktrackingControlVerb, Expr, ExprTree, LookAround};
use fancy_info::info::Info;
use std::alloc::{AllocError, Global};

/// The number of the first group of a tree, how many groups it has, and whether its longest match is asked for.
#[derive(Clone, Copy)]
pub struct Whole {
    pub first: usize,
    pub groups: usize,
    pub longest: bool,
}

impl Whole {
    pub fn of(tree: &ExprTree, context: AnalyzeContext) -> Whole
        ensures { result ≡ blame.whole_of tree.now context }
    {
        Whole {
            first: if context.explicit_capture_group_0 {
                0
            } else {
                1
            },
            groups: tree.total_groups,
            longest: context.leftmost_longest,
        }
    }
}

fn is_unsupported(expr: &Expr, longest: bool) -> bool
    ensures { result ≡ blame.is_unsupported longest expr.now }
{
    match expr {
        Expr::BackrefWithRelativeRecursionLevel { .. } => true,
        Expr::BackrefExistsCondition {
            relative_recursion_level,
            ..
        } => relative_recursion_level.is_some(),
        Expr::BacktrackingControlVerb(BacktrackingControlVerb::Fail) => false,
        Expr::BacktrackingControlVerb(_) => true,
        Expr::Absent(Absent::Repeater(_)) => false,
        Expr::Absent(_) => true,
        Expr::Repeat { greedy, .. } => longest && !*greedy,
        _ => false,
    }
}

fn refers(expr: &Expr, number: usize) -> bool
    ensures { result ≡ blame.refers number expr.now }
{
    match expr {
        Expr::Backref { group, .. } => *group == number,
        Expr::BackrefWithRelativeRecursionLevel { group, .. } => *group == number,
        Expr::BackrefExistsCondition { group, .. } => *group == number,
        _ => false,
    }
}

fn is_class(expr: &Expr, text: &str) -> bool
    ensures { result ≡ blame.is_class text.now expr.now }
{
    matches!(expr, Expr::Delegate { inner, .. } if inner.as_str() == text)
}

fn calls_missing(expr: &Expr, whole: Whole) -> bool
    ensures { result ≡ blame.calls_missing whole expr.now }
{
    match expr {
        Expr::SubroutineCall(group) => {
            *group != 0 && whole.groups <= group.saturating_sub(whole.first)
        }
        Expr::AstNode(AstNode::SubroutineCall(_), _) => true,
        _ => false,
    }
}

fn is_unresolved(expr: &Expr) -> bool
    ensures { result ≡ blame.is_unresolved expr.now }
{
    match expr {
        Expr::AstNode(AstNode::SubroutineCall(_), _) => false,
        Expr::AstNode(_, _) => true,
        _ => false,
    }
}

/// Whether the node is a call.
pub fn is_call(expr: &Expr) -> bool
    ensures { result ≡ blame.is_call expr.now }
{
    matches!(expr, Expr::SubroutineCall(_))
}

/// Whether a refusal of the whole tree may be for this node, by the node alone.
pub fn is_at_fault(refused: &CompileError, expr: &Expr, whole: Whole) -> bool
    ensures { result ≡ blame.is_at_fault whole refused.now expr.now }
{
    match refused {
        CompileError::InvalidBackref(number) => refers(expr, *number),
        CompileError::SubroutineCallTargetNotFound => calls_missing(expr, whole),
        CompileError::InnerError(text) => is_class(expr, text.as_str()),
        CompileError::ClassTooBig(text) => is_class(expr, text.as_str()),
        CompileError::FeatureNotYetSupported => is_unsupported(expr, whole.longest),
        CompileError::UnresolvedAstNode => is_unresolved(expr),
        _ => false,
    }
}

fn ends_with(text: &str, end: &str) -> bool
    ensures { result ≡ ends_with nat_eq text.now end.now }
{
    text.ends_with(end)
}

/// Whether a description of a group ends with this number, as `group 1` or `group 'n' (1)`.
fn is_number_of(alloc: Global, text: &str, group: usize) -> Result<bool, AllocError>
    ensures { IfOk result (λ is. is ≡ blame.is_number_of text.now group) }
{
    let bare = format!(in alloc; " {group}")?;
    if ends_with(text, bare.as_str()) {
        return Ok(true);
    }
    let enclosed = format!(in alloc; " ({group})")?;
    Ok(ends_with(text, enclosed.as_str()))
}

/// Whether the node is the group that is described, where the next group has the number `next`. A call of the whole
/// pattern is group 0.
pub fn is_described(alloc: Global, text: &str, expr: &Expr, next: usize) -> Result<bool, AllocError>
    ensures { IfOk result (λ is. is ≡ blame.is_described text.now next expr.now) }
{
    match expr {
        Expr::Group(_) => is_number_of(alloc, text, next),
        Expr::SubroutineCall(0) => is_number_of(alloc, text, 0),
        _ => Ok(false),
    }
}

/// Whether each of these nodes has a fixed length.
fn are_fixed(infos: &[Info<'_>]) -> bool
    ensures { result ≡ list_all (λ i. (info_size i).is_const) infos.now }
{
    infos.iter().all(|info| info.const_size())
}

fn is_alt(expr: &Expr) -> bool
    ensures { result ≡ is_alt expr.now }
{
    matches!(expr, Expr::Alt(_))
}

/// Whether a look-behind may have this body: it has a fixed length, or each of its alternatives has one.
fn is_body_of_look_behind(body: &Info<'_>) -> bool
    ensures { result ≡ has_fixed_length body.now }
{
    body.const_size() || (is_alt(body.expr()) && are_fixed(body.children()))
}

fn is_look_behind(expr: &Expr) -> bool
    ensures { result ≡ is_look_behind expr.now }
{
    match expr {
        Expr::LookAround(_, LookAround::LookBehind | LookAround::LookBehindNeg) => true,
        _ => false,
    }
}

/// Whether the node is a look-behind whose body has no fixed length.
pub fn is_variable_look_behind(info: &Info<'_>) -> bool
    ensures { (a : Analysis)
        → IsKnown a info.now
        → result ≡ blame.is_variable_look_behind a.tree (info_tree info.now) }
{
    match info.children().first() {
        Some(body) => is_look_behind(info.expr()) && !is_body_of_look_behind(body),
        None => false,
    }
}
