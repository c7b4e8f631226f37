//! Where the nodes of a pattern's tree are in the pattern.

use crate::brackets::{Opening, Pair, brackets};
use crate::outcome::Written;
use crate::request::Request;
use crate::source::{Span, leaf_spans};
use fancy_expr::expr::Expr;
use fancy_expr::parts::{part, part_count};
use fancy_faults::leaves::is_plain;
use std::alloc::AllocError;

/// A node of a tree. Its span is where it is in the pattern, with its parentheses and its quantifier. An empty string
/// without parentheses has none, nor has a tree that was not read from a pattern.
#[derive(Clone, Copy)]
pub struct Located<'e> {
    pub expr: &'e Expr,
    /// The node that it is a part of, the index of that one, and which part it is.
    pub around: Option<&'e Expr>,
    pub parent: usize,
    pub place: usize,
    /// How many nodes it is in, and how many groups begin before it.
    pub depth: usize,
    pub groups: usize,
    /// Which leaves of the tree it is or has below it: from this one on and up to another.
    pub leaves: Span,
    pub span: Option<Span>,
}

/// The text between these two bytes.
pub fn piece(pattern: &str, span: Option<Span>) -> &str {
    match span {
        Some((start, end)) => pattern.get(start..end).unwrap_or(""),
        None => "",
    }
}

/// Up to where the leaf is in its span, which has a comment or white space in it that follows the leaf.
fn leaf_length(text: &str) -> usize {
    let trimmed = text.trim_end();
    match trimmed.chars().next() {
        // an escape or a class; the escaped character may be a space
        Some('\\') if trimmed.len() == 1 => text.len().min(2),
        Some('\\' | '[' | '(') => trimmed.len(),
        Some(c) => c.len_utf8(),
        None => text.len(),
    }
}

/// What the quantifier at the front takes of a text, which white space may be before.
fn quantifier_length(text: &str) -> usize {
    let quantifier = text.trim_start();
    let before = text.len().saturating_sub(quantifier.len());
    let count = match quantifier.chars().next() {
        Some('*' | '+' | '?') => 1,
        Some('{') => quantifier.find('}').unwrap_or(0).saturating_add(1),
        _ => return 0,
    };
    let suffix = quantifier.get(count..).unwrap_or("").chars().next();
    let turned = usize::from(matches!(suffix, Some('?' | '+')));
    before.saturating_add(count).saturating_add(turned)
}

/// What is around both, as far as they are known.
pub fn joined(one: Option<Span>, other: Option<Span>) -> Option<Span> {
    match (one, other) {
        (Some((start, end)), Some((first, last))) => Some((start.min(first), end.max(last))),
        (None, _) => other,
        (_, None) => one,
    }
}

/// With which parenthesis a node begins, if it has some of its own.
fn opening(expr: &Expr) -> Opening {
    match expr {
        Expr::Group(_) => Opening::Group,
        Expr::LookAround(_, _) => Opening::Look,
        Expr::AtomicGroup(_) => Opening::Atomic,
        Expr::Absent(_) => Opening::Absent,
        Expr::DefineGroup { .. } => Opening::Define,
        Expr::Conditional { .. } => Opening::Conditional,
        _ => Opening::Plain,
    }
}

/// The nodes of a tree, each before those below it.
#[derive(Drop)]
struct Walk<'e> {
    nodes: Vec<Located<'e>>,
    /// How many leaves and how many groups are passed.
    passed: usize,
    groups: usize,
}

impl<'e> Walk<'e> {
    /// Adds the node, which is in so many others, and those below it.
    fn add(
        &mut self,
        expr: &'e Expr,
        around: Option<&'e Expr>,
        (parent, place): (usize, usize),
        depth: usize,
    ) -> Written {
        let index = self.nodes.len();
        self.nodes.push(Located {
            expr,
            around,
            parent,
            place,
            depth,
            groups: self.groups,
            leaves: (self.passed, self.passed),
            span: None,
        })?;
        if is_plain(expr) {
            self.passed = self.passed.saturating_add(1);
        }
        if matches!(expr, Expr::Group(_)) {
            self.groups = self.groups.saturating_add(1);
        }
        let below = depth.saturating_add(1);
        for i in 0..part_count(expr) {
            self.add(part(expr, i), Some(expr), (index, i), below)?;
        }
        if let Some(node) = self.nodes.get_mut(index) {
            node.leaves.1 = self.passed;
        }
        Ok(())
    }
}

/// The parentheses that are left for the nodes that follow.
#[derive(Clone, Copy)]
struct Left<'b> {
    brackets: &'b [Pair],
    next: usize,
}

impl Left<'_> {
    /// The next ones that begin so and have these leaves.
    fn take(&mut self, opening: Opening, leaves: Span) -> Option<Span> {
        let from = self.next;
        for (i, it) in self.brackets.get(from..).unwrap_or(&[]).iter().enumerate() {
            let behind = from.saturating_add(i).saturating_add(1);
            if it.leaves.0 < leaves.0 || it.opening == Opening::Flags {
                self.next = behind;
            } else if it.opening == opening && it.leaves == leaves {
                self.next = behind;
                return Some(it.span);
            } else if it.opening != Opening::Plain || it.leaves.0 > leaves.0 {
                break;
            }
        }
        None
    }
}

/// The span of a leaf, without what follows it there.
fn leaf_span(pattern: &str, span: Span) -> Span {
    let length = leaf_length(piece(pattern, Some(span)));
    (span.0, span.0.saturating_add(length))
}

/// Gives each node its parentheses, and each leaf its span.
fn set_brackets(nodes: &mut Vec<Located<'_>>, brackets: &[Pair], pattern: &str, spans: &[Span]) {
    let mut left = Left { brackets, next: 0 };
    for node in nodes.iter_mut() {
        node.span = left.take(opening(node.expr), node.leaves);
        if node.span.is_none() && is_plain(node.expr) {
            node.span = match spans.get(node.leaves.0) {
                Some(span) => Some(leaf_span(pattern, *span)),
                None => None,
            };
        }
    }
}

/// Adds its quantifier to the span of a node, and that span to the one of the node around it.
fn settle(nodes: &mut Vec<Located<'_>>, index: usize, pattern: &str) {
    let Some(node) = nodes.get_mut(index) else {
        return;
    };
    if let (Expr::Repeat { .. }, Some((start, end))) = (node.expr, node.span) {
        let length = quantifier_length(pattern.get(end..).unwrap_or(""));
        node.span = Some((start, end.saturating_add(length)));
    }
    let Located {
        around: Some(_),
        span,
        parent,
        ..
    } = *node
    else {
        return;
    };
    if let Some(around) = nodes.get_mut(parent) {
        around.span = joined(around.span, span);
    }
}

/// The nodes of a tree, each before those below it, and the parentheses of its pattern.
#[derive(Drop)]
pub struct Outline<'e> {
    pub nodes: Vec<Located<'e>>,
    pub brackets: Vec<Pair>,
}

impl<'e> Outline<'e> {
    /// Of the tree that the request asks about.
    pub fn of(request: &Request, expr: &'e Expr) -> Result<Outline<'e>, AllocError> {
        let mut walk = Walk {
            nodes: Vec::new(request.alloc),
            passed: 0,
            groups: 0,
        };
        walk.add(expr, None, (0, 0), 0)?;
        let spans = leaf_spans(request)?;
        let is_known = !request.is_tree && spans.len() == walk.passed;
        let pattern = if is_known {
            request.source.as_str()
        } else {
            ""
        };
        let brackets = brackets(request.alloc, pattern, &spans)?;
        let mut nodes = walk.nodes;
        if is_known {
            set_brackets(&mut nodes, &brackets, pattern, &spans);
            for index in (0..nodes.len()).rev() {
                settle(&mut nodes, index, pattern);
            }
        }
        Ok(Outline { nodes, brackets })
    }
}
