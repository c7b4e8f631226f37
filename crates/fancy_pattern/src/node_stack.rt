//! The stack of the nodes that were read and stand in no other yet, so that no frame of the reader holds one.

ghost use Rattle.std.specs.Prelude.{◌≡◌, [], List, map, IfOk};
ghost use Rattle.fancy_meaning.specs.Tree as tree;
ghost use Rattle.fancy_meaning.specs.Tree.{Tree};
ghost use Rattle.fancy_expr.specs.declared.expr.Expr as code;
ghost use Rattle.fancy_expr.specs.Each.{Each};
ghost use Rattle.fancy_expr.specs.Views.{tree_of, look_of};
ghost use Rattle.fancy_pattern.specs.Grammar as grammar;
ghost use Rattle.fancy_pattern.specs.Reading.{OneCharEach, Adds, AddsSome, TakesOff};

use crate::nodes::{
    alternated, conditional, enclosed, is_empty, is_plain, is_repeatable, joined, literal, suffixed,
};
use fancy_expr::expr::{Absent, Expr, LookAround};
use fancy_tokens::tokens::{Enclosing, Quantifier, Suffix};
use std::alloc::{AllocError, Global};

/// The node on top; where there is none, nothing.
pub(crate) fn popped(nodes: &mut Vec<Expr>) -> Expr
    ensures { (below : List code.Expr) → (e : Tree) → Adds e below nodes.old.items
        → TakesOff e below nodes.new.items result }
{
    match nodes.pop() {
        Some(node) => node,
        None => Expr::Empty,
    }
}

/// The node on top, in a box.
#[inline(never)]
pub(crate) fn pop_boxed(alloc: Global, nodes: &mut Vec<Expr>) -> Result<Box<Expr>, AllocError>
    ensures { (below : List code.Expr) → (e : Tree) → Adds e below nodes.old.items
        → IfOk result (λ b. TakesOff e below nodes.new.items b.value) }
{
    Ok(Box::new(alloc, popped(nodes))?)
}

/// The node on top, as the first of a row.
#[inline(never)]
pub(crate) fn pop_first(alloc: Global, nodes: &mut Vec<Expr>) -> Result<Vec<Expr>, AllocError>
    ensures { (below : List code.Expr) → (e : Tree) → Adds e below nodes.old.items
        → IfOk result (λ row. Adds e [] row.items × (nodes.new.items ≡ below)) }
{
    let mut row = Vec::new(alloc);
    row.push(popped(nodes))?;
    Ok(row)
}

/// Takes off the node on top if it is nothing.
pub(crate) fn drop_empty(nodes: &mut Vec<Expr>)
    ensures { (below : List code.Expr) → (e : Tree) → Adds e below nodes.old.items
        → AddsSome e below nodes.new.items }
{
    if !is_last_empty(nodes) {
        return;
    }
    drop(popped(nodes));
}

fn is_last_empty(nodes: &[Expr]) -> bool
    ensures { (below : List code.Expr) → (e : Tree) → Adds e below nodes.now
        → result ≡ grammar.is_empty e }
{
    match nodes.last() {
        Some(node) => is_empty(node),
        None => false,
    }
}

/// Whether a quantifier may stand behind the node on top.
pub(crate) fn is_last_repeatable(nodes: &[Expr]) -> bool
    ensures { (below : List code.Expr) → (e : Tree) → Adds e below nodes.now
        → result ≡ grammar.is_repeatable e }
{
    match nodes.last() {
        Some(node) => is_repeatable(node),
        None => false,
    }
}

#[inline(never)]
pub(crate) fn push_empty(nodes: &mut Vec<Expr>) -> Result<(), AllocError>
    ensures { IfOk result (λ u. Adds tree.Empty nodes.old.items nodes.new.items) }
{
    nodes.push(Expr::Empty)?;
    Ok(())
}

#[inline(always)]
pub(crate) fn add_literal(
    alloc: Global,
    nodes: &mut Vec<Expr>,
    c: char,
    casei: bool,
) -> Result<(), AllocError>
    ensures { IfOk result (λ u. Adds (tree.Literal c casei) nodes.old.items nodes.new.items) }
{
    nodes.push(literal(alloc, c, casei)?)?;
    Ok(())
}

/// The same in a call of its own, so that it adds nothing to the frame of the caller.
#[inline(never)]
pub(crate) fn push_literal(
    alloc: Global,
    nodes: &mut Vec<Expr>,
    c: char,
    casei: bool,
) -> Result<(), AllocError>
    ensures { IfOk result (λ u. Adds (tree.Literal c casei) nodes.old.items nodes.new.items) }
{
    add_literal(alloc, nodes, c, casei)
}

/// A loop around a literal.
#[inline(always)]
pub(crate) fn push_repeated(
    alloc: Global,
    nodes: &mut Vec<Expr>,
    c: char,
    casei: bool,
    quantifier: Quantifier,
    greedy: bool,
    suffix: Option<Suffix>,
) -> Result<(), AllocError>
    ensures { IfOk result (λ u. Adds (grammar.suffixed quantifier greedy suffix
        (tree.Literal c casei)) nodes.old.items nodes.new.items) }
{
    let body = Box::new(alloc, literal(alloc, c, casei)?)?;
    nodes.push(suffixed(alloc, body, quantifier, greedy, suffix)?)?;
    Ok(())
}

/// A node out of its box.
#[inline(never)]
pub(crate) fn push_boxed(nodes: &mut Vec<Expr>, node: Box<Expr>) -> Result<(), AllocError>
    ensures { OneCharEach node.value
        → IfOk result (λ u. Adds (tree_of node.value) nodes.old.items nodes.new.items) }
{
    nodes.push(Box::into_inner(node))?;
    Ok(())
}

/// Puts a group around the node on top.
#[inline(never)]
pub(crate) fn group_last(alloc: Global, nodes: &mut Vec<Expr>) -> Result<(), AllocError>
    ensures { (below : List code.Expr) → (e : Tree) → Adds e below nodes.old.items
        → IfOk result (λ u. Adds (tree.Group 0 e) below nodes.new.items) }
{
    let body = Box::new(alloc, popped(nodes))?;
    nodes.push(Expr::Group(body))?;
    Ok(())
}

/// Puts around the node on top what its opening says.
#[inline(never)]
pub(crate) fn enclose_last(
    alloc: Global,
    nodes: &mut Vec<Expr>,
    enclosing: Enclosing,
) -> Result<(), AllocError>
    ensures { (below : List code.Expr) → (e : Tree) → Adds e below nodes.old.items
        → IfOk result (λ u. Adds (grammar.enclosed enclosing e) below nodes.new.items) }
{
    // a plain group adds no node, so its body needs no box
    if is_plain(enclosing) {
        return Ok(());
    }
    let body = Box::new(alloc, popped(nodes))?;
    nodes.push(enclosed(enclosing, body))?;
    Ok(())
}

/// Puts a loop around the node on top.
#[inline(never)]
pub(crate) fn repeat_last(
    alloc: Global,
    nodes: &mut Vec<Expr>,
    quantifier: Quantifier,
    greedy: bool,
    suffix: Option<Suffix>,
) -> Result<(), AllocError>
    ensures { (below : List code.Expr) → (e : Tree) → Adds e below nodes.old.items
        → IfOk result (λ u. Adds (grammar.suffixed quantifier greedy suffix e)
        below nodes.new.items) }
{
    let body = Box::new(alloc, popped(nodes))?;
    nodes.push(suffixed(alloc, body, quantifier, greedy, suffix)?)?;
    Ok(())
}

#[inline(never)]
pub(crate) fn push_stopper(nodes: &mut Vec<Expr>, absent: Box<Expr>) -> Result<(), AllocError>
    ensures { OneCharEach absent.value → IfOk result (λ u. Adds
        (tree.AbsentStopper (tree_of absent.value)) nodes.old.items nodes.new.items) }
{
    nodes.push(Expr::Absent(Absent::Stopper(absent)))?;
    Ok(())
}

#[inline(never)]
pub(crate) fn push_expression(
    nodes: &mut Vec<Expr>,
    absent: Box<Expr>,
    exp: Box<Expr>,
) -> Result<(), AllocError>
    ensures { OneCharEach absent.value → OneCharEach exp.value → IfOk result (λ u. Adds
        (tree.AbsentExpression (tree_of absent.value) (tree_of exp.value))
        nodes.old.items nodes.new.items) }
{
    nodes.push(Expr::Absent(Absent::Expression { absent, exp }))?;
    Ok(())
}

#[inline(never)]
pub(crate) fn push_conditional(
    nodes: &mut Vec<Expr>,
    condition: Box<Expr>,
    true_branch: Box<Expr>,
    false_branch: Box<Expr>,
) -> Result<(), AllocError>
    ensures { OneCharEach condition.value → OneCharEach true_branch.value
        → OneCharEach false_branch.value → IfOk result (λ u. Adds
        (tree.Conditional (tree_of condition.value) (tree_of true_branch.value)
        (tree_of false_branch.value)) nodes.old.items nodes.new.items) }
{
    nodes.push(conditional(condition, true_branch, false_branch))?;
    Ok(())
}

/// The node for these pieces.
#[inline(never)]
pub(crate) fn push_joined(nodes: &mut Vec<Expr>, pieces: Vec<Expr>) -> Result<(), AllocError>
    ensures { Each OneCharEach pieces.items → IfOk result (λ u. Adds
        (grammar.joined (map tree_of pieces.items)) nodes.old.items nodes.new.items) }
{
    nodes.push(joined(pieces))?;
    Ok(())
}

/// The node for these branches.
#[inline(never)]
pub(crate) fn push_alternated(nodes: &mut Vec<Expr>, branches: Vec<Expr>) -> Result<(), AllocError>
    ensures { Each OneCharEach branches.items → IfOk result (λ u. Adds
        (grammar.alternated (map tree_of branches.items)) nodes.old.items nodes.new.items) }
{
    nodes.push(alternated(branches))?;
    Ok(())
}

/// A look-around in a box.
#[inline(never)]
pub(crate) fn look_boxed(
    alloc: Global,
    body: Box<Expr>,
    look: LookAround,
) -> Result<Box<Expr>, AllocError>
    ensures made { IfOk result (λ b. tree_of b.value
        ≡ tree.LookAround (look_of look) (tree_of body.value)) }
    ensures one_char { OneCharEach body.value → IfOk result (λ b. OneCharEach b.value) }
{
    Ok(Box::new(alloc, Expr::LookAround(body, look))?)
}

#[inline(never)]
pub(crate) fn empty_boxed(alloc: Global) -> Result<Box<Expr>, AllocError>
    ensures made { IfOk result (λ b. tree_of b.value ≡ tree.Empty) }
    ensures one_char { IfOk result (λ b. OneCharEach b.value) }
{
    Ok(Box::new(alloc, Expr::Empty)?)
}
