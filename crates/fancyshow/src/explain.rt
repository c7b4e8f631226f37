//! A pattern in words, piece by piece.

use crate::brackets::{Pair, flags_of};
use crate::excerpt::{head, push_shown, push_times, push_to_column};
use crate::html::group_class;
use crate::located::{Located, Outline, joined, piece};
use crate::marks::joined_text;
use crate::outcome::{Answer, Trouble, Written};
use crate::request::Request;
use crate::source::{Span, read};
use fancy_expr::expr::Expr;
use fancy_expr::parts::part_count;
use fancy_railroad::names::GroupNames;
use fancy_railroad::words::{frame_words, push_loop, push_words};
use std::alloc::{AllocError, Global};

/// What is said of a piece of a pattern. Its class in the style sheet is that of the group that it is, if it is one.
#[derive(Drop)]
pub struct Explained {
    pub indent: usize,
    pub span: Option<Span>,
    pub class: &'static str,
    pub words: String,
}

/// Writes what a node without children matches.
pub fn push_leaf(out: &mut String, expr: &Expr, names: &GroupNames) -> Written {
    match expr {
        Expr::Literal { val, casei } => push_literal(out, val.as_str(), *casei),
        Expr::Empty => out.push_str("the empty string"),
        // a class in brackets or a property
        Expr::Delegate { inner, .. }
            if matches!(inner.as_bytes(), [b'[', ..] | [b'\\', b'p' | b'P', ..]) => {
            out.push_str("a character of ")?;
            push_words(out, expr, names)
        }
        _ => push_words(out, expr, names),
    }
}

/// Writes a literal in quotes.
fn push_literal(out: &mut String, text: &str, casei: bool) -> Written {
    let note = if casei { " in any case" } else { "" };
    write!(out, "{text:?}{note}")
}

/// Whether the sequence has nothing but literals that are folded alike.
fn is_literal(expr: &Expr) -> bool {
    for i in 1..part_count(expr) {
        if joined_text(expr, i).is_none() {
            return false;
        }
    }
    true
}

/// Whether the node is said on a line of its own, as a part of this one.
fn is_said(node: &Located<'_>) -> bool {
    match (node.expr, node.around) {
        (Expr::Concat(_), Some(Expr::Alt(_) | Expr::Conditional { .. })) => !is_literal(node.expr),
        (Expr::Concat(_), _) => false,
        (Expr::Empty, Some(Expr::Alt(_) | Expr::Conditional { .. }) | None) => true,
        (Expr::Empty, _) => false,
        (Expr::Literal { .. }, Some(concat @ Expr::Concat(_))) => {
            joined_text(concat, node.place).is_none()
        }
        (Expr::AtomicGroup(body), _) => !matches!(&**body, Expr::Repeat { greedy: true, .. }),
        (expr, Some(Expr::Repeat { .. })) => part_count(expr) > 0,
        _ => true,
    }
}

/// What a part of a conditional is for.
fn role(node: &Located<'_>) -> &'static str {
    match (node.around, node.place) {
        (Some(Expr::Conditional { .. }), 0) => "if: ",
        (Some(Expr::Conditional { .. }), 1) => "then: ",
        (Some(Expr::Conditional { .. }), _) => "otherwise: ",
        _ => "",
    }
}

/// What is said of a node that has others below it.
fn fixed_words(expr: &Expr) -> &'static str {
    match expr {
        Expr::Alt(_) => "one of these, tried in this order",
        Expr::Concat(_) => "one after the other",
        Expr::Conditional { .. } => "a choice by a condition",
        _ => frame_words(expr),
    }
}

/// What a flag means.
fn flag_words(letter: char) -> &'static str {
    match letter {
        'i' => "letters match in any case",
        'm' => "^ and $ hold at the ends of lines",
        's' => ". matches a line feed",
        'x' => "white space and # comments are left out",
        'R' => "CR LF ends a line",
        'U' => "quantifiers are lazy, and greedy with a ?",
        _ => "classes have all characters of Unicode",
    }
}

/// What the letters of a flags item say, which end with this character.
fn words_of_flags(alloc: Global, letters: &str, end: char) -> Result<String, AllocError> {
    let scope = match end {
        ':' => "in these parentheses",
        _ => "from here on",
    };
    let mut is_set = true;
    let mut out = String::new(alloc);
    for letter in letters.chars() {
        if letter == '-' {
            is_set = false;
        } else {
            let before = if out.is_empty() { "" } else { "; " };
            let set = if is_set { "set" } else { "cleared" };
            let words = flag_words(letter);
            write!(out, "{before}{letter} is {set} {scope}: {words}")?;
        }
    }
    Ok(out)
}

/// What is said of a tree so far.
#[derive(Drop)]
struct Explainer<'x, 'e> {
    alloc: Global,
    pattern: &'x str,
    names: &'x GroupNames,
    nodes: &'x [Located<'e>],
    /// The parentheses whose flags are not said.
    brackets: &'x [Pair],
    said: Vec<Explained>,
    /// How far what is below each node is indented.
    indents: Vec<usize>,
}

impl Explainer<'_, '_> {
    /// The literals that are said with the node at this index, and the span of all of them.
    fn run(&self, index: usize) -> Result<(String, Option<Span>), AllocError> {
        let mut text = String::new(self.alloc);
        let mut span = None;
        for (i, node) in self.nodes.get(index..).unwrap_or(&[]).iter().enumerate() {
            let joined_text = match node.around {
                Some(around) => joined_text(around, node.place),
                None => None,
            };
            match (joined_text, node.expr) {
                (Some(next), _) => text.push_str(next)?,
                (None, Expr::Literal { val, .. }) if i == 0 => text.push_str(val.as_str())?,
                _ if i == 0 => {}
                _ => break,
            }
            span = joined(span, node.span);
        }
        Ok((text, span))
    }

    /// Writes how often a node is repeated, after what that is if it is a leaf.
    fn push_repeat(&self, out: &mut String, node: &Located<'_>) -> Written {
        let Expr::Repeat {
            child,
            lo,
            hi,
            greedy,
        } = node.expr
        else {
            return Ok(());
        };
        if part_count(child) == 0 {
            push_leaf(out, child, self.names)?;
            out.push_str(", ")?;
        }
        let is_possessive = *greedy && matches!(node.around, Some(Expr::AtomicGroup(_)));
        push_loop(out, (*lo, *hi), *greedy, is_possessive)
    }

    /// What is said of a node, whose literals have this text.
    fn words(&self, node: &Located<'_>, text: &str) -> Result<String, AllocError> {
        let mut out = String::from_str(self.alloc, role(node))?;
        match node.expr {
            Expr::Group(_) => self
                .names
                .push_group(&mut out, node.groups.saturating_add(1))?,
            Expr::Repeat { .. } => self.push_repeat(&mut out, node)?,
            Expr::Literal { casei, .. } => push_literal(&mut out, text, *casei)?,
            expr if part_count(expr) > 0 => out.push_str(fixed_words(expr))?,
            expr => push_leaf(&mut out, expr, self.names)?,
        }
        Ok(out)
    }

    /// Says which flags are set up to this byte.
    fn push_flags(&mut self, indent: usize, before: usize) -> Written {
        for Pair { span, .. } in self.brackets {
            if span.0 > before {
                break;
            }
            self.brackets = self.brackets.get(1..).unwrap_or(&[]);
            match flags_of(piece(self.pattern, Some(*span))) {
                Some((letters, end)) if !letters.is_empty() => {
                    let behind = span.0.saturating_add(letters.len()).saturating_add(3);
                    let words = words_of_flags(self.alloc, letters, end)?;
                    self.said.push(Explained {
                        indent,
                        span: Some((span.0, behind)),
                        class: "",
                        words,
                    })?;
                }
                _ => {}
            }
        }
        Ok(())
    }

    /// Says what the node at this index is.
    fn push_node(&mut self, index: usize, node: &Located<'_>, indent: usize) -> Written {
        let (text, span) = self.run(index)?;
        if let Some((start, _)) = span {
            self.push_flags(indent, start)?;
        }
        let class = match node.expr {
            Expr::Group(_) => group_class(node.groups.saturating_add(1)),
            _ => "",
        };
        let words = self.words(node, text.as_str())?;
        self.said.push(Explained {
            indent,
            span,
            class,
            words,
        })?;
        Ok(())
    }

    /// Says what each node is that has a line of its own.
    fn explain_all(&mut self) -> Written {
        let nodes = self.nodes;
        for (index, node) in nodes.iter().enumerate() {
            // before the first node nothing is there
            let indent = self.indents.get(node.parent).copied().unwrap_or(0);
            let is_said = is_said(node);
            self.indents
                .push(indent.saturating_add(usize::from(is_said)))?;
            if is_said {
                self.push_node(index, node, indent)?;
            }
        }
        self.push_flags(0, usize::MAX)
    }
}

/// What is said of each piece of the pattern that is asked about, or of each node of the tree.
pub fn explanation(request: &Request) -> Result<Vec<Explained>, Trouble> {
    let tree = read(request)?;
    let alloc = request.alloc;
    let names = GroupNames::new(alloc, &tree.named_groups)?;
    let outline = Outline::of(request, &tree.expr)?;
    let mut explainer = Explainer {
        alloc,
        pattern: request.source.as_str(),
        names: &names,
        nodes: &outline.nodes,
        brackets: &outline.brackets,
        said: Vec::new(alloc),
        indents: Vec::new(alloc),
    };
    explainer.explain_all()?;
    Ok(explainer.said)
}

/// Where the words begin behind a piece, and how many characters of a piece are shown.
const COLUMN: usize = 32;

const SHOWN: usize = 40;

/// Writes the piece and what is said of it, on a line.
fn push_line(out: &mut String, request: &Request, said: &Explained) -> Written {
    let start = out.len();
    push_times(out, ' ', said.indent.saturating_mul(2))?;
    if !request.is_tree {
        let (shown, is_cut) = head(piece(request.source.as_str(), said.span), SHOWN);
        push_shown(out, shown)?;
        out.push_str(if is_cut { ".." } else { "" })?;
        push_to_column(out, start, COLUMN)?;
    }
    let words = said.words.as_str();
    writeln!(out, "{words}")
}

/// The pattern in words: each piece, and what it matches, below what it is a part of.
pub fn explain(request: &Request) -> Answer {
    let said = explanation(request)?;
    let mut out = String::new(request.alloc);
    for it in &said {
        push_line(&mut out, request, it)?;
    }
    Ok(out)
}
