//! Trees that no notation spells: a tree that is read and then changed.

use crate::columns::{number, pair};
use fancy_regex_engine::error::Error;
use fancy_regex_engine::expr::{AstNode, CaptureGroupTarget, Expr, ExprTree};
use std::alloc::Global;
use std::collections::BTreeSet;

/// A node that only a parser makes.
fn node(alloc: Global, word: &str) -> Result<AstNode, Error> {
    Ok(match word {
        "named" => AstNode::Backref(CaptureGroupTarget::ByName(String::from_str(alloc, "x")?)),
        "relative" => AstNode::BackrefExistsCondition(CaptureGroupTarget::Relative(-1)),
        "called" => AstNode::SubroutineCall(CaptureGroupTarget::ByNumber(1)),
        _ => AstNode::AstGroup,
    })
}

/// The tree's one node that the word spells.
fn root(alloc: Global, name: &str, after: &str) -> Result<Expr, Error> {
    let (lo, hi) = pair(after);
    Ok(match name {
        "alt" => Expr::Alt(Vec::new(alloc)),
        "literal" => Expr::Literal {
            val: String::from_str(alloc, after)?,
            casei: false,
        },
        "set" => Expr::Delegate {
            inner: String::from_str(alloc, after)?,
            casei: false,
        },
        "repeat" => Expr::Repeat {
            child: Box::new(alloc, Expr::Empty)?,
            lo,
            hi,
            greedy: true,
        },
        "node" => Expr::AstNode(node(alloc, after)?, 0),
        _ => return Err(Error::TreeFault { at: 0 }),
    })
}

/// The name stands for the group.
fn give_name(alloc: Global, tree: &mut ExprTree, named: &str) -> Result<(), Error> {
    let (name, group) = named.split_once(',').unwrap_or((named, ""));
    let numbers = vec![in alloc; number(group)]?;
    tree.named_groups
        .insert(String::from_str(alloc, name)?, numbers)?;
    Ok(())
}

/// One change of the tree.
fn change(alloc: Global, tree: &mut ExprTree, word: &str) -> Result<(), Error> {
    let (name, after) = word.split_once(':').unwrap_or((word, ""));
    match name {
        "groups" => tree.total_groups = number(after),
        "past" => tree.out_of_range_backref = Some(number(after)),
        "calls" => tree.contains_subroutines = after == "true",
        "unnumbered" => tree.numbered_groups_ignored = true,
        "unlisted" => tree.backrefs = BTreeSet::new(alloc),
        "listed" => {
            tree.backrefs.insert(number(after))?;
        }
        "name" => give_name(alloc, tree, after)?,
        _ => tree.expr = root(alloc, name, after)?,
    }
    Ok(())
}

/// Each change of the tree.
pub fn change_all(alloc: Global, tree: &mut ExprTree, changes: &str) -> Result<(), Error> {
    for word in changes.split_whitespace() {
        change(alloc, tree, word)?;
    }
    Ok(())
}
