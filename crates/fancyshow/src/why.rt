//! Why a text has no match: how far the attempt comes that comes furthest, and what does not follow there.

use crate::all::marked_lines;
use crate::brackets::inside;
use crate::excerpt::push_excerpt;
use crate::explain::push_leaf;
use crate::find::{captures, push_part, span_of};
use crate::furthest::{Furthest, watch_run};
use crate::list::compile;
use crate::located::{Located, Outline, piece};
use crate::marks::{Marked, notation};
use crate::outcome::{Answer, Written};
use crate::request::Request;
use crate::source::{Span, read};
use fancy_command::arguments::Arguments;
use fancy_expr::error::Error;
use fancy_expr::expr::{Absent, Expr, ExprTree};
use fancy_notation::notation::read_tree;
use fancy_railroad::names::GroupNames;
use fancy_railroad::words::frame_words;
use fancy_vm::vm::RunOptions;
use std::alloc::{AllocError, Global};

/// How many instructions of a run are watched.
const MOST_STEPS: u64 = 200_000;

/// How far the attempts get, for a marked tree. It is compiled and run as the tree itself, but for what limits and shortens
/// the program.
fn watch(request: &Request, marked: &Marked<'_>, text: &str) -> Result<Option<Furthest>, Error> {
    let arguments = Arguments {
        max_prog: None,
        longest: false,
        ..request.arguments
    };
    let tree = read_tree(request.alloc, marked.text.as_str())?;
    let prog = compile(request.alloc, &arguments, &tree)?;
    let options = RunOptions {
        step_limit: MOST_STEPS,
        ..arguments.running()
    };
    watch_run(
        request.alloc,
        &prog,
        &marked.leaves,
        text,
        &options,
        MOST_STEPS,
    )
}

/// What does not follow at the furthest place: in words, each once, and where that is in the pattern.
#[derive(Drop)]
struct Unmet {
    words: Vec<String>,
    spans: Vec<Span>,
}

/// What is wanted where this leaf fails, which is this piece of the pattern: of a tree it is said in the notation.
fn wanted(
    alloc: Global,
    expr: &Expr,
    names: &GroupNames,
    piece: &str,
) -> Result<String, AllocError> {
    match expr {
        _ if piece.is_empty() => notation(alloc, expr),
        Expr::LookAround(_, _) | Expr::Absent(Absent::Repeater(_)) => {
            let (words, piece) = (frame_words(expr), inside(piece));
            format!(in alloc; "{words} {piece}")
        }
        _ => {
            let mut out = String::new(alloc);
            push_leaf(&mut out, expr, names)?;
            Ok(out)
        }
    }
}

/// What the run wants at the furthest place.
fn missing(
    request: &Request,
    names: &GroupNames,
    nodes: &[Located<'_>],
    marked: &Marked<'_>,
    furthest: &Furthest,
) -> Result<Unmet, AllocError> {
    let mut missing = Unmet {
        words: Vec::new(request.alloc),
        spans: Vec::new(request.alloc),
    };
    for (i, leaf) in marked.leaves.iter().enumerate() {
        if furthest.wanted().contains(&i.saturating_add(1)) {
            let span = match nodes.get(leaf.index) {
                Some(node) => node.span,
                None => None,
            };
            let piece = piece(request.source.as_str(), span);
            let words = wanted(request.alloc, leaf.expr, names, piece)?;
            if !missing.words.contains(&words) {
                missing.words.push(words)?;
            }
            missing.spans.extend(span)?;
        }
    }
    Ok(missing)
}

/// Writes what the attempt takes, or that none takes anything.
fn push_attempt(out: &mut String, text: &str, furthest: &Furthest) -> Written {
    let (start, at) = (furthest.start, furthest.at);
    if start == at {
        return write!(out, "no attempt matches a character\nat byte {at} ");
    }
    out.push_str("the furthest attempt matches ")?;
    push_part(out, text, (start, at))?;
    out.push_str("and ")
}

/// Writes how far the attempt comes, and what does not follow there.
fn push_furthest(out: &mut String, text: &str, furthest: &Furthest, all: &[String]) -> Written {
    push_attempt(out, text, furthest)?;
    out.push_str(if all.len() > 1 {
        "none of these follows:"
    } else {
        "this does not follow:"
    })?;
    for said in all {
        write!(out, "\n  {said}")?;
    }
    push_excerpt(out, text, furthest.at)?;
    if furthest.is_cut {
        write!(
            out,
            "\nonly the first {MOST_STEPS} steps of the search were watched"
        )?;
    }
    out.push('\n')
}

/// Writes how far the attempts come, what does not follow there, and where that is in the pattern.
fn push_explained(
    out: &mut String,
    request: &Request,
    tree: &ExprTree,
    marked: &Marked<'_>,
    text: &str,
    furthest: &Furthest,
) -> Written {
    let names = GroupNames::new(request.alloc, &tree.named_groups)?;
    let outline = Outline::of(request, &tree.expr)?;
    let missing = missing(request, &names, &outline.nodes, marked, furthest)?;
    push_furthest(out, text, furthest, &missing.words)?;
    let pattern = request.source.as_str();
    let lines = marked_lines(request.alloc, pattern, &missing.spans, false)?;
    let title = if lines.is_empty() {
        ""
    } else {
        "in the pattern:\n"
    };
    write!(out, "{title}{lines}")
}

/// Explains why the tree has no match, by a run of it with marks.
fn explain(request: &Request, text: &str) -> Answer {
    let tree = read(request)?;
    let mut marked = Marked::new(request.alloc);
    marked.push_tree(&tree.expr)?;
    let mut out = String::from_str(request.alloc, "no match\n")?;
    if let Some(furthest) = watch(request, &marked, text)? {
        push_explained(&mut out, request, &tree, &marked, text, &furthest)?;
    }
    Ok(out)
}

/// Why a text has no match: how far the attempt comes that comes furthest, and what does not follow there.
pub fn why(request: &Request, text: &str) -> Answer {
    let (found, _groups) = captures(request, text)?;
    match found {
        None => explain(request, text),
        Some(captures) => {
            let mut out = String::from_str(request.alloc, "there is a match  ")?;
            push_part(&mut out, text, span_of(captures.whole()))?;
            Ok(out)
        }
    }
}
