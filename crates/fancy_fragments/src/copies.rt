//! Copies of expressions, with all below them.

ghost use Rattle.std.specs.Prelude.{◌≡◌, IfOk, IsTrue, map};
ghost use Rattle.fancy_expr.specs.Views.{absent_of, tree_of, unresolved_of};
ghost use Rattle.fancy_fragments.specs.Leaves.{holds_none, is_bare};

use fancy_expr::expr::{Absent, AstNode, CaptureGroupTarget, Expr};
use std::alloc::{AllocError, Global};

/// The node with all below it, once more.
#[cycle(copying)]
pub fn copy_of(alloc: Global, expr: &Expr) -> Result<Expr, AllocError>
    ensures { IfOk result (λ copy. tree_of copy ≡ tree_of expr.now) }
{
    match expr {
        Expr::Concat(parts) => Ok(Expr::Concat(copies_of(alloc, parts)?)),
        Expr::Alt(branches) => Ok(Expr::Alt(copies_of(alloc, branches)?)),
        Expr::Group(body) => Ok(Expr::Group(boxed_copy(alloc, body)?)),
        Expr::LookAround(body, look) => Ok(Expr::LookAround(boxed_copy(alloc, body)?, *look)),
        Expr::Repeat {
            child,
            lo,
            hi,
            greedy,
        } => Ok(Expr::Repeat {
            child: boxed_copy(alloc, child)?,
            lo: *lo,
            hi: *hi,
            greedy: *greedy,
        }),
        Expr::AtomicGroup(body) => Ok(Expr::AtomicGroup(boxed_copy(alloc, body)?)),
        Expr::Conditional {
            condition,
            true_branch,
            false_branch,
        } => Ok(Expr::Conditional {
            condition: boxed_copy(alloc, condition)?,
            true_branch: boxed_copy(alloc, true_branch)?,
            false_branch: boxed_copy(alloc, false_branch)?,
        }),
        Expr::Absent(absent) => Ok(Expr::Absent(copy_of_absent(alloc, absent)?)),
        Expr::DefineGroup { definitions } => Ok(Expr::DefineGroup {
            definitions: boxed_copy(alloc, definitions)?,
        }),
        _ => copy_of_leaf(alloc, expr),
    }
}

#[cycle(copying)]
fn boxed_copy(alloc: Global, expr: &Expr) -> Result<Box<Expr>, AllocError>
    ensures { IfOk result (λ copy. tree_of copy.value ≡ tree_of expr.now) }
{
    Ok(Box::new(alloc, copy_of(alloc, expr)?)?)
}

/// The nodes once more.
#[cycle(copying)]
pub(crate) fn copies_of(alloc: Global, exprs: &[Expr]) -> Result<Vec<Expr>, AllocError>
    ensures { IfOk result (λ copies. map tree_of copies.items ≡ map tree_of exprs.now) }
{
    let mut copies = Vec::with_capacity(alloc, exprs.len())?;
    for expr in exprs {
        copies.push(copy_of(alloc, expr)?)?;
    }
    Ok(copies)
}

#[cycle(copying)]
fn copy_of_absent(alloc: Global, absent: &Absent) -> Result<Absent, AllocError>
    ensures { IfOk result (λ copy. absent_of copy ≡ absent_of absent.now) }
{
    match absent {
        Absent::Repeater(body) => Ok(Absent::Repeater(boxed_copy(alloc, body)?)),
        Absent::Expression {
            absent: left_out,
            exp,
        } => Ok(Absent::Expression {
            absent: boxed_copy(alloc, left_out)?,
            exp: boxed_copy(alloc, exp)?,
        }),
        Absent::Stopper(body) => Ok(Absent::Stopper(boxed_copy(alloc, body)?)),
        Absent::Clear => Ok(Absent::Clear),
    }
}

fn copy_of_leaf(alloc: Global, expr: &Expr) -> Result<Expr, AllocError>
    requires { IsTrue (holds_none expr.now) }
    ensures { IfOk result (λ copy. tree_of copy ≡ tree_of expr.now) }
{
    match expr {
        Expr::Literal { val, casei } => Ok(Expr::Literal {
            val: val.clone()?,
            casei: *casei,
        }),
        Expr::LiteralBytes { bytes } => Ok(Expr::LiteralBytes {
            bytes: bytes.clone()?,
        }),
        Expr::Delegate { inner, casei } => Ok(Expr::Delegate {
            inner: inner.clone()?,
            casei: *casei,
        }),
        Expr::AstNode(node, at) => Ok(Expr::AstNode(copy_of_node(node)?, *at)),
        _ => Ok(copy_of_bare(expr)),
    }
}

/// A node of numbers and names of kinds alone.
fn copy_of_bare(expr: &Expr) -> Expr
    requires { IsTrue (is_bare expr.now) }
    ensures { tree_of result ≡ tree_of expr.now }
{
    match *expr {
        Expr::Any { newline, crlf } => Expr::Any { newline, crlf },
        Expr::Assertion(assertion) => Expr::Assertion(assertion),
        Expr::GeneralNewline { unicode } => Expr::GeneralNewline { unicode },
        Expr::Backref { group, casei } => Expr::Backref { group, casei },
        Expr::BackrefWithRelativeRecursionLevel {
            group,
            relative_level,
            casei,
        } => Expr::BackrefWithRelativeRecursionLevel {
            group,
            relative_level,
            casei,
        },
        Expr::KeepOut => Expr::KeepOut,
        Expr::ContinueFromPreviousMatchEnd => Expr::ContinueFromPreviousMatchEnd,
        Expr::BackrefExistsCondition {
            group,
            relative_recursion_level,
        } => Expr::BackrefExistsCondition {
            group,
            relative_recursion_level,
        },
        Expr::BacktrackingControlVerb(verb) => Expr::BacktrackingControlVerb(verb),
        Expr::SubroutineCall(group) => Expr::SubroutineCall(group),
        _ => Expr::Empty,
    }
}

fn copy_of_node(node: &AstNode) -> Result<AstNode, AllocError>
    ensures { IfOk result (λ copy. unresolved_of copy ≡ unresolved_of node.now) }
{
    match node {
        AstNode::AstGroup => Ok(AstNode::AstGroup),
        AstNode::Backref(target) => Ok(AstNode::Backref(copy_of_target(target)?)),
        AstNode::BackrefExistsCondition(target) => {
            Ok(AstNode::BackrefExistsCondition(copy_of_target(target)?))
        }
        AstNode::SubroutineCall(target) => Ok(AstNode::SubroutineCall(copy_of_target(target)?)),
    }
}

fn copy_of_target(target: &CaptureGroupTarget) -> Result<CaptureGroupTarget, AllocError> {
    match target {
        CaptureGroupTarget::ByName(name) => Ok(CaptureGroupTarget::ByName(name.clone()?)),
        CaptureGroupTarget::ByNumber(number) => Ok(CaptureGroupTarget::ByNumber(*number)),
        CaptureGroupTarget::Relative(offset) => Ok(CaptureGroupTarget::Relative(*offset)),
    }
}
