//! Questions about the nodes of a tree: whether some node is such, and which is the first, in one walk.

ghost use Rattle.std.specs.Prelude.{◌≡◌, MatchOption, Some, false, true, Contains};
ghost use Rattle.std.specs.List.{list_any};
ghost use Rattle.fancy_meaning.specs.Tree as plain;
ghost use Rattle.fancy_meaning.specs.WellFormed.{refers, is_call, is_any_call};
ghost use Rattle.fancy_meaning.specs.AnalysisRefusals.{is_lazy};
ghost use Rattle.fancy_meaning.specs.Marks.{is_continue};
ghost use Rattle.fancy_meaning.specs.Nodes.{is_keep_out};
ghost use Rattle.fancy_expr.specs.Views.{tree_of, unresolved_of};
ghost use Rattle.fancy_expr.specs.Exprs.{exprs, first_with};
ghost use Rattle.fancy_expr.specs.Questions.{asks, is_unlisted, is_refused};

use crate::expr::{AstNode, Expr};
use crate::parts::{part, part_count};
use std::collections::BTreeSet;

/// What is asked of a node.
#[derive(Clone, Copy)]
pub enum Question<'a> {
    IsCall,
    /// A loop that stops first.
    IsLazy,
    /// A `\G`.
    IsContinue,
    /// A `\K`.
    IsKeepOut,
    /// A call, or a node that stands for one.
    IsAnyCall,
    /// It refers back to this group, or asks for it.
    Refers(usize),
    /// It refers back to a group that is there and not listed.
    IsUnlisted {
        listed: &'a BTreeSet<usize>,
        groups: usize,
    },
    /// The analysis refuses it by itself, where the groups are numbered so.
    IsRefused {
        first: usize,
        last: usize,
    },
}

fn asks(question: Question, expr: &Expr) -> bool
    ensures { result ≡ asks question.entry expr.now }
{
    match question {
        Question::IsCall => is_call(expr),
        Question::IsLazy => is_lazy(expr),
        Question::IsContinue => is_continue(expr),
        Question::IsKeepOut => is_keep_out(expr),
        Question::IsAnyCall => is_any_call(expr),
        Question::Refers(group) => refers(expr, group),
        Question::IsUnlisted { listed, groups } => is_unlisted(expr, listed, groups),
        Question::IsRefused { first, last } => is_refused(expr, first, last),
    }
}

fn is_call(expr: &Expr) -> bool
    ensures { result ≡ is_call (tree_of expr.now) }
{
    match expr {
        Expr::SubroutineCall(_) => true,
        Expr::Absent(_) => false,
        _ => false,
    }
}

fn is_lazy(expr: &Expr) -> bool
    ensures { result ≡ is_lazy (tree_of expr.now) }
{
    match expr {
        Expr::Repeat { greedy, .. } => !*greedy,
        Expr::Absent(_) => false,
        _ => false,
    }
}

fn is_continue(expr: &Expr) -> bool
    ensures { result ≡ is_continue (tree_of expr.now) }
{
    match expr {
        Expr::ContinueFromPreviousMatchEnd => true,
        Expr::Absent(_) => false,
        _ => false,
    }
}

fn is_keep_out(expr: &Expr) -> bool
    ensures { result ≡ is_keep_out (tree_of expr.now) }
{
    match expr {
        Expr::KeepOut => true,
        Expr::Absent(_) => false,
        _ => false,
    }
}

fn is_any_call(expr: &Expr) -> bool
    ensures { result ≡ is_any_call (tree_of expr.now) }
{
    match expr {
        Expr::SubroutineCall(_) => true,
        Expr::AstNode(node, _) => is_call_node(node),
        Expr::Absent(_) => false,
        _ => false,
    }
}

fn is_call_node(node: &AstNode) -> bool
    ensures { result ≡ is_any_call (plain.AstNode (unresolved_of node.now)) }
{
    match node {
        AstNode::SubroutineCall(_) => true,
        _ => false,
    }
}

fn refers(expr: &Expr, group: usize) -> bool
    ensures { result ≡ refers group (tree_of expr.now) }
{
    match expr {
        Expr::Backref { group: named, .. } => *named == group,
        Expr::BackrefWithRelativeRecursionLevel { group: named, .. } => *named == group,
        Expr::BackrefExistsCondition { group: named, .. } => *named == group,
        Expr::Absent(_) => false,
        _ => false,
    }
}

fn is_unlisted(expr: &Expr, listed: &BTreeSet<usize>, groups: usize) -> bool
    ensures { result ≡ is_unlisted listed.now.keys groups (tree_of expr.now) }
{
    match expr {
        Expr::Backref { group, .. } => *group <= groups && !listed.contains(group),
        Expr::Absent(_) => false,
        _ => false,
    }
}

fn is_refused(expr: &Expr, first: usize, last: usize) -> bool
    ensures { result ≡ is_refused first last (tree_of expr.now) }
{
    match expr {
        Expr::Backref { group, .. } => *group == 0 || *group < first || last < *group,
        Expr::BackrefExistsCondition { group, .. } => *group < first || last < *group,
        Expr::BackrefWithRelativeRecursionLevel { .. } => true,
        Expr::AstNode(_, _) => true,
        Expr::Absent(_) => false,
        _ => false,
    }
}

/// The first node that is so, of a node and those below it, each before what stands below it.
pub fn find_node<'a>(expr: &'a Expr, question: Question) -> Option<&'a Expr>
    ensures { MatchOption
        result
        (list_any (asks question.entry) (exprs expr.now) ≡ false)
        (λ found. (asks question.entry found.now ≡ true)
        × Contains (exprs expr.now) found.now
        × (first_with (asks question.entry) (exprs expr.now) ≡ Some found.now)) }
{
    if asks(question, expr) {
        return Some(expr);
    }
    for i in 0..part_count(expr) {
        if let Some(found) = find_node(part(expr, i), question) {
            return Some(found);
        }
    }
    None
}

/// Whether a node is so, of a node and those below it.
pub fn has_node(expr: &Expr, question: Question) -> bool
    ensures { result ≡ list_any (asks question.entry) (exprs expr.now) }
{
    find_node(expr, question).is_some()
}
