//! The pattern text of a node. It names a fragment and is never matched.

ghost use Rattle.std.specs.Prelude.{◌≡◌, MatchResult, OnOk, chars, length, slice_index, string_bytes};
ghost use Rattle.fancy_meaning.specs.PatternText as plain;
ghost use Rattle.fancy_expr.specs.declared.error.Error.TheVariants.{Memory};
ghost use Rattle.fancy_expr.specs.Texts as texts;
ghost use Rattle.fancy_expr.specs.Texts.{Adds};
ghost use Rattle.fancy_expr.specs.Views.{assertion_of, bound_of, tree_of};

use crate::error::Error;
use crate::expr::{Assertion, Expr};
use crate::parts::part;
use std::alloc::{AllocError, Global};

impl Expr {
    /// The pattern text of the node, as `fancy_meaning/specs/PatternText.antt` says it, in UTF-8. Where the node binds
    /// less than `precedence`, it stands in brackets: an alternation from 1 on, a sequence from 2 on, a repetition from
    /// 3 on.
    ///
    /// Out of memory is `Error::Memory`; nothing else is refused.
    pub fn to_str(&self, alloc: Global, precedence: u8) -> Result<String, Error>
        ensures { MatchResult
            result
            (λ text. string_bytes text ≡ plain.text_of (tree_of self.now) precedence)
            (λ error. error ≡ Memory) }
    {
        let mut text = String::new(alloc);
        push_node(&mut text, self, precedence)?;
        Ok(text)
    }
}

/// The first character of a text; of the empty one the character with number 0.
pub fn first_char(text: &str) -> char
    ensures { result ≡ slice_index (chars text.now) 0 }
{
    match text.chars().next() {
        Some(c) => c,
        None => '\0',
    }
}

fn push_node(text: &mut String, expr: &Expr, precedence: u8) -> Result<(), AllocError>
    ensures { OnOk result (Adds text.old text.new (plain.text_of (tree_of expr.now) precedence)) }
{
    push_opening(text, expr, precedence)?;
    push_own(text, expr)?;
    for i in 0..spelled_count(expr) {
        push_separator(text, expr, i)?;
        push_node(text, part(expr, i), inner_precedence(expr))?;
    }
    push_count(text, expr)?;
    push_closing(text, expr, precedence)
}

/// Whether a node stands in brackets.
fn is_enclosed(expr: &Expr, precedence: u8) -> bool
    ensures { result ≡ texts.is_enclosed (tree_of expr.now) precedence }
{
    match expr {
        Expr::Literal { casei, .. } => *casei,
        Expr::Delegate { casei, .. } => *casei,
        Expr::Concat(_) => precedence > 1,
        Expr::Alt(_) => precedence > 0,
        Expr::Group(_) => true,
        Expr::Repeat { .. } => precedence > 2,
        Expr::Absent(_) => false,
        _ => false,
    }
}

/// The bracket that opens around a node, where one does.
fn bracket(expr: &Expr) -> &'static str
    ensures { result.now ≡ texts.bracket (tree_of expr.now) }
{
    match expr {
        Expr::Literal { .. } => "(?i:",
        Expr::Delegate { .. } => "(?i:",
        Expr::Group(_) => "(",
        Expr::Absent(_) => "(?:",
        _ => "(?:",
    }
}

fn push_opening(text: &mut String, expr: &Expr, precedence: u8) -> Result<(), AllocError>
    ensures { OnOk result (Adds text.old text.new (texts.opening (tree_of expr.now) precedence)) }
{
    if is_enclosed(expr, precedence) {
        text.push_str(bracket(expr))?;
    }
    Ok(())
}

fn push_closing(text: &mut String, expr: &Expr, precedence: u8) -> Result<(), AllocError>
    ensures { OnOk result (Adds text.old text.new (texts.closing (tree_of expr.now) precedence)) }
{
    if is_enclosed(expr, precedence) {
        text.push_str(")")?;
    }
    Ok(())
}

/// How many children the text of a node has the texts of.
fn spelled_count(expr: &Expr) -> usize
    ensures { result ≡ length (texts.spelled expr.now) }
{
    match expr {
        Expr::Concat(parts) => parts.len(),
        Expr::Alt(branches) => branches.len(),
        Expr::Group(_) => 1,
        Expr::Repeat { .. } => 1,
        _ => 0,
    }
}

/// What stands before a child.
fn push_separator(text: &mut String, expr: &Expr, index: usize) -> Result<(), AllocError>
    ensures { OnOk result (Adds text.old text.new (texts.before (tree_of expr.now) index)) }
{
    match expr {
        Expr::Alt(_) => push_bar(text, index),
        Expr::Absent(_) => Ok(()),
        _ => Ok(()),
    }
}

fn push_bar(text: &mut String, index: usize) -> Result<(), AllocError>
    ensures { OnOk result (Adds text.old text.new (texts.bar_before index)) }
{
    if index > 0 {
        text.push_str("|")?;
    }
    Ok(())
}

/// What a child is spelled at.
fn inner_precedence(expr: &Expr) -> u8
    ensures { result ≡ texts.inner_precedence (tree_of expr.now) }
{
    match expr {
        Expr::Concat(_) => 2,
        Expr::Alt(_) => 1,
        Expr::Repeat { .. } => 3,
        Expr::Absent(_) => 0,
        _ => 0,
    }
}

/// What a node without children stands for.
fn push_own(text: &mut String, expr: &Expr) -> Result<(), AllocError>
    ensures { OnOk result (Adds text.old text.new (texts.own_text (tree_of expr.now))) }
{
    match expr {
        Expr::Any { newline, crlf } => text.push_str(any_text(*newline, *crlf)),
        Expr::Literal { val, .. } => push_escaped(text, first_char(val)),
        Expr::Delegate { inner, .. } => text.push_str(inner),
        Expr::Assertion(assertion) => text.push_str(assertion_text(*assertion)),
        Expr::Absent(_) => Ok(()),
        _ => Ok(()),
    }
}

fn any_text(newline: bool, crlf: bool) -> &'static str
    ensures { result.now ≡ plain.any_text newline crlf }
{
    if newline {
        "(?s:.)"
    } else if crlf {
        "(?R:.)"
    } else {
        "."
    }
}

/// A character, with a backslash before one that has a meaning of its own.
fn push_escaped(text: &mut String, c: char) -> Result<(), AllocError>
    ensures { OnOk result (Adds text.old text.new (plain.escaped c)) }
{
    if has_meaning(c) {
        text.push('\\')?;
    }
    text.push(c)
}

fn has_meaning(c: char) -> bool
    ensures { result ≡ texts.has_meaning c }
{
    match c {
        '\\' | '.' | '+' | '*' | '?' | '(' | ')' | '|' | '[' | ']' | '{' | '}' | '^' | '$' | '#' =>
            true,
        _ => false,
    }
}

fn assertion_text(assertion: Assertion) -> &'static str
    ensures { result.now ≡ plain.assertion_text (assertion_of assertion) }
{
    match assertion {
        Assertion::StartText => "^",
        Assertion::EndText => "$",
        Assertion::EndTextIgnoreTrailingNewlines { .. } => "\\Z",
        Assertion::StartLine { crlf } => line_start(crlf),
        Assertion::StartLineOniguruma { crlf } => line_start(crlf),
        Assertion::EndLine { crlf } => line_end(crlf),
        Assertion::LeftWordBoundary => "\\b{start}",
        Assertion::RightWordBoundary => "\\b{end}",
        Assertion::LeftWordHalfBoundary => "\\b{start-half}",
        Assertion::RightWordHalfBoundary => "\\b{end-half}",
        Assertion::WordBoundary => "\\b",
        Assertion::NotWordBoundary => "\\B",
    }
}

fn line_start(crlf: bool) -> &'static str
    ensures { result.now ≡ plain.line_edge crlf "^" }
{
    if crlf { "(?Rm:^)" } else { "(?m:^)" }
}

fn line_end(crlf: bool) -> &'static str
    ensures { result.now ≡ plain.line_edge crlf "$" }
{
    if crlf { "(?Rm:$)" } else { "(?m:$)" }
}

/// How often a node is repeated, and that it is lazy.
fn push_count(text: &mut String, expr: &Expr) -> Result<(), AllocError>
    ensures { OnOk result (Adds text.old text.new (texts.count_text (tree_of expr.now))) }
{
    match expr {
        Expr::Repeat { lo, hi, greedy, .. } => {
            push_bounds(text, *lo, *hi)?;
            if *greedy { Ok(()) } else { text.push_str("?") }
        }
        Expr::Absent(_) => Ok(()),
        _ => Ok(()),
    }
}

fn push_bounds(text: &mut String, lo: usize, hi: usize) -> Result<(), AllocError>
    ensures { OnOk result (Adds text.old text.new (plain.bounds_text lo (bound_of hi))) }
{
    if hi == usize::MAX {
        match lo {
            0 => text.push_str("*"),
            1 => text.push_str("+"),
            _ => write!(text, "{{{lo},}}"),
        }
    } else if lo == hi {
        write!(text, "{{{lo}}}")
    } else if lo == 0 && hi == 1 {
        text.push_str("?")
    } else {
        write!(text, "{{{lo},{hi}}}")
    }
}
