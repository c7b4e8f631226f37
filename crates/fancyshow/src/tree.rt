//! A tree, node by node, with what the analysis says of each, or with the nodes marked for which it is refused.

ghost use Rattle.fancy_expr.specs.Sound.{IsWellFormedTree};

use crate::excerpt::{push_shown, push_times, push_to_column};
use crate::list::compile;
use crate::located::{Located, Outline, piece};
use crate::nodes::{numbered, push_node};
use crate::outcome::{Answer, Trouble, Written};
use crate::request::Request;
use crate::source::{Span, leaf_spans, read};
use fancy_analysis::analyze::analyze;
use fancy_expr::error::{CompileError, Error};
use fancy_expr::expr::{Expr, ExprTree};
use fancy_faults::blame::{Whole, is_at_fault, is_call, is_described, is_variable_look_behind};
use fancy_faults::leaves::is_plain;
use fancy_faults::words::words as refusal_words;
use fancy_info::info::Info;
use fancy_railroad::names::GroupNames;
use std::alloc::{AllocError, Global};

/// Where what is said of a node begins.
const COLUMN: usize = 36;

/// What is written about a tree.
#[derive(Drop)]
struct Page<'r, 'p> {
    alloc: Global,
    out: String,
    names: GroupNames,
    pattern: &'p str,
    /// Where the leaves are in the pattern, without those that are empty.
    spans: Vec<Span>,
    /// Why the tree is refused.
    refused: Option<&'r CompileError>,
    tree: Whole,
    /// How many nodes were marked.
    blamed: usize,
}

/// Whether the refusal of the whole tree may be for this node, if the next group has this number.
fn is_blamed(
    page: &Page<'_, '_>,
    refused: &CompileError,
    expr: &Expr,
    group: usize,
    info: Option<&Info<'_>>,
) -> Result<bool, AllocError> {
    match refused {
        CompileError::LeftRecursiveSubroutineCall(text) => {
            is_described(page.alloc, text.as_str(), expr, group)
        }
        CompileError::NeverEndingRecursion => Ok(is_call(expr)),
        CompileError::VariableLookBehindRequiresFeature => {
            Ok(matches!(info, Some(info) if is_variable_look_behind(info)))
        }
        _ => Ok(is_at_fault(refused, expr, page.tree)),
    }
}

/// Writes how many characters a node takes.
fn push_sizes(out: &mut String, least: usize, most: usize) -> Written {
    if most == usize::MAX {
        write!(out, "{least}..")
    } else if least == most {
        write!(out, "{least}")
    } else {
        write!(out, "{least}..{most}")
    }
}

/// Writes how many characters a node takes, and what else holds of it.
fn push_facts(out: &mut String, info: &Info<'_>) -> Written {
    push_sizes(out, info.min_size(), info.max_size())?;
    let hard = if info.hard() { "hard" } else { "easy" };
    let read = if info.is_read() { ", read" } else { "" };
    let around = if info.in_look_around() {
        ", in a look-around"
    } else {
        ""
    };
    write!(out, ", {hard}{read}{around}")
}

impl Page<'_, '_> {
    /// Writes the name of the group that the node is or names, if it has one.
    fn push_name(&mut self, expr: &Expr, group: usize) -> Written {
        let Some((_, number)) = numbered(expr, group) else {
            return Ok(());
        };
        match self.names.get(number) {
            Some(name) => write!(self.out, " ({name})"),
            None => Ok(()),
        }
    }

    /// Writes where the leaf with this index is in the pattern, and what is there.
    fn push_piece(&mut self, leaf: usize) -> Written {
        let span = self.spans.get(leaf).copied();
        let Some((start, end)) = span else {
            return Ok(());
        };
        write!(self.out, ", {start}..{end} ")?;
        push_shown(&mut self.out, piece(self.pattern, span))
    }

    /// Marks the node if the refusal speaks of it.
    fn push_blame(&mut self, expr: &Expr, group: usize, info: Option<&Info<'_>>) -> Written {
        let Some(refused) = self.refused else {
            return Ok(());
        };
        if is_blamed(self, refused, expr, group, info)? {
            self.blamed = self.blamed.saturating_add(1);
            let words = refusal_words(self.alloc, refused, Some(expr))?;
            write!(self.out, "  <- {words}")?;
        }
        Ok(())
    }

    /// Writes why the tree is refused, where no node was marked.
    fn push_refusal(&mut self) -> Written {
        match self.refused {
            Some(refused) if self.blamed == 0 => {
                let words = refusal_words(self.alloc, refused, None)?;
                writeln!(self.out, "refused: {words}")
            }
            _ => Ok(()),
        }
    }

    /// Writes what the node is called, what the analysis says of it, and whether it is refused.
    fn push_line(&mut self, node: &Located<'_>, info: Option<&Info<'_>>) -> Written {
        let group = self.tree.first.saturating_add(node.groups);
        let start = self.out.len();
        push_times(&mut self.out, ' ', node.depth.saturating_mul(2))?;
        push_node(&mut self.out, node.expr, group)?;
        self.push_name(node.expr, group)?;
        if let Some(info) = info {
            push_to_column(&mut self.out, start, COLUMN)?;
            push_facts(&mut self.out, info)?;
            if is_plain(node.expr) {
                self.push_piece(node.leaves.0)?;
            }
        }
        self.push_blame(node.expr, group, info)?;
        self.out.push('\n')
    }

    /// Writes the nodes of a tree, of which the analysis says this, if it says anything.
    fn push_all<'a>(&mut self, nodes: &[Located<'a>], root: Option<&Info<'a>>) -> Written {
        let mut infos: Vec<Option<&Info<'a>>> = Vec::new(self.alloc);
        for node in nodes {
            let info = match (node.around, infos.get(node.parent)) {
                (None, _) => root,
                (Some(_), Some(Some(above))) => (*above).children().get(node.place),
                _ => None,
            };
            infos.push(info)?;
            self.push_line(node, info)?;
        }
        Ok(())
    }
}

/// The tree with what the analysis says, where it says anything, and with the nodes marked for which it is refused.
fn write_page<'a>(
    request: &Request,
    tree: &'a ExprTree,
    info: Option<&Info<'a>>,
    refused: Option<&CompileError>,
) -> Result<String, AllocError> {
    let outline = Outline::of(request, &tree.expr)?;
    let mut page = Page {
        alloc: request.alloc,
        out: String::new(request.alloc),
        names: GroupNames::new(request.alloc, &tree.named_groups)?,
        pattern: request.source.as_str(),
        spans: leaf_spans(request)?,
        refused,
        tree: Whole::of(tree, request.arguments.analysis()),
        blamed: 0,
    };
    page.push_all(&outline.nodes, info)?;
    page.push_refusal()?;
    Ok(page.out)
}

/// The refused tree, or the trouble of another error.
fn refused_page<'a>(
    request: &Request,
    tree: &'a ExprTree,
    info: Option<&Info<'a>>,
    error: Error,
) -> Answer {
    match error {
        Error::CompileError(refused) => {
            Err(Trouble::Refused(write_page(request, tree, info, Some(&refused))?))
        }
        error => Err(Trouble::Engine(error)),
    }
}

/// The tree with what the analysis says.
fn analysed_page<'a>(request: &Request, tree: &'a ExprTree, info: &Info<'a>) -> Answer
    requires { IsWellFormedTree tree.now }
{
    match compile(request.alloc, &request.arguments, tree) {
        Ok(_) => Ok(write_page(request, tree, Some(info), None)?),
        Err(error) => refused_page(request, tree, Some(info), error),
    }
}

/// The tree, a node a line.
pub fn tree(request: &Request) -> Answer {
    let tree = read(request)?;
    match analyze(request.alloc, &tree, request.arguments.analysis()) {
        Ok(info) => analysed_page(request, &tree, &info),
        Err(error) => refused_page(request, &tree, None, error),
    }
}
