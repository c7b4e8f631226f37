//! A tree with marks before its leaves, by which a run of its program says where it is.
//!
//! A mark is `(nahead (cat (verb fail) "c"))`: it holds everywhere and matches the empty string, and its character is a number that
//! is in the program. A node with a mark is compiled by itself.

use crate::nodes::{has_brackets, push_head, push_unquoted};
use crate::outcome::Written;
use fancy_expr::expr::{Absent, Expr};
use fancy_expr::parts::{part, part_count};
use fancy_vm::vm::{Insn, Prog};
use std::alloc::{AllocError, Global};

/// The character of mark 0, the first of those for private use in plane 15.
const FIRST: usize = 0xf0000;

/// How many leaves have marks.
const MOST_LEAVES: usize = 50_000;

/// A node that has a mark, and its index among the nodes of the tree. Its depth is how many nodes with marks are on the way
/// to it from the tree's start: of the alternatives that are passed, the longest counts.
#[derive(Clone, Copy)]
pub struct MarkedLeaf<'e> {
    pub expr: &'e Expr,
    pub index: usize,
    pub depth: usize,
}

/// The text of a tree, and what has marks in it, from mark 1 on. Mark 0 is of no node.
#[derive(Drop)]
pub struct Marked<'e> {
    pub text: String,
    pub leaves: Vec<MarkedLeaf<'e>>,
    /// How many nodes are written.
    passed: usize,
    /// The depth of the next node with a mark.
    depth: usize,
}

/// Whether a run can fail at the node, and nothing below it is marked.
fn is_leaf(expr: &Expr) -> bool {
    match expr {
        Expr::Empty | Expr::Concat(_) => false,
        Expr::LookAround(_, _) | Expr::Absent(Absent::Repeater(_)) => true,
        _ => part_count(expr) == 0,
    }
}

/// Whether what is in this place of a node has marks.
fn has_marks_below(expr: &Expr, i: usize) -> bool {
    match expr {
        Expr::Conditional { .. } => i > 0,
        _ => !is_leaf(expr),
    }
}

/// The characters of a child that follows a literal of a sequence, and is one that is folded alike.
pub fn joined_text(expr: &Expr, i: usize) -> Option<&str> {
    let Expr::Concat(parts) = expr else {
        return None;
    };
    match (parts.get(i.checked_sub(1)?)?, parts.get(i)?) {
        (Expr::Literal { casei: before, .. }, Expr::Literal { val, casei }) if before == casei => {
            Some(val.as_str())
        }
        _ => None,
    }
}

impl<'e> Marked<'e> {
    pub fn new(alloc: Global) -> Marked<'e> {
        Marked {
            text: String::new(alloc),
            leaves: Vec::new(alloc),
            passed: 0,
            depth: 0,
        }
    }

    fn push_mark(&mut self, number: usize) -> Written {
        let code = FIRST.saturating_add(number);
        let text = &mut self.text;
        write!(text, "(nahead (cat (verb fail) \"\\u{{{code:x}}}\")) ")
    }

    /// Begins a sequence with the mark that the node has, if it has one. Returns whether it did.
    fn open(&mut self, expr: &'e Expr) -> Result<bool, AllocError> {
        let is_leaf = is_leaf(expr) && self.leaves.len() < MOST_LEAVES;
        if !is_leaf && !matches!(expr, Expr::Conditional { .. }) {
            return Ok(false);
        }
        let mut number = 0;
        if is_leaf {
            self.leaves.push(MarkedLeaf {
                expr,
                index: self.passed,
                depth: self.depth,
            })?;
            self.depth = self.depth.saturating_add(1);
            number = self.leaves.len();
        }
        self.text.push_str("(cat ")?;
        self.push_mark(number)?;
        Ok(true)
    }

    /// Writes the node and those below it, with marks where they are needed.
    fn push_node(&mut self, expr: &'e Expr, has_marks: bool) -> Written {
        let is_open = has_marks && self.open(expr)?;
        self.passed = self.passed.saturating_add(1);
        push_head(&mut self.text, expr)?;
        let start = self.depth;
        let mut deepest = start;
        for i in 0..part_count(expr) {
            if !has_marks && self.join(expr, i)? {
                continue;
            }
            self.text.push(' ')?;
            let below = has_marks && has_marks_below(expr, i);
            self.push_node(part(expr, i), below)?;
            deepest = deepest.max(self.depth);
            // alternatives all begin at the same depth
            self.depth = match expr {
                Expr::Alt(_) | Expr::Conditional { .. } => start,
                _ => deepest,
            };
        }
        self.depth = deepest;
        self.close(expr, is_open)
    }

    /// Writes the child between the quotes of the one before it, where both are literals that are folded alike.
    fn join(&mut self, expr: &Expr, i: usize) -> Result<bool, AllocError> {
        let Some(text) = joined_text(expr, i) else {
            return Ok(false);
        };
        self.passed = self.passed.saturating_add(1);
        self.text.pop();
        push_unquoted(&mut self.text, text)?;
        self.text.push('"')?;
        Ok(true)
    }

    /// Ends the node, and the sequence that began with its mark.
    fn close(&mut self, expr: &Expr, is_open: bool) -> Written {
        if has_brackets(expr) {
            self.text.push(')')?;
        }
        if is_open {
            self.text.push(')')?;
        }
        Ok(())
    }

    /// Writes the whole tree with marks, and mark 0 after it.
    pub fn push_tree(&mut self, expr: &'e Expr) -> Written {
        self.text.push_str("(cat ")?;
        self.push_node(expr, true)?;
        self.text.push(' ')?;
        self.push_mark(0)?;
        self.text.push(')')
    }
}

/// The node and those below it in the notation.
pub fn notation(alloc: Global, expr: &Expr) -> Result<String, AllocError> {
    let mut written = Marked::new(alloc);
    written.push_node(expr, false)?;
    Ok(written.text)
}

/// The number of the mark that begins at this place of a program, if one does.
pub fn mark_at(prog: &Prog, place: usize) -> Option<usize> {
    match prog.body().get(place..)? {
        [Insn::Split(_, _), Insn::Fail, Insn::Lit(text), ..] => {
            (text.as_str().chars().next()? as usize).checked_sub(FIRST)
        }
        _ => None,
    }
}
