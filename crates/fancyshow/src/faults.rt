//! The trouble that an error of the analysis or the compiler is: in words, with its place in the pattern.

ghost use Rattle.fancy_expr.specs.Sound.{IsWellFormedTree};

use crate::excerpt::push_excerpt;
use crate::outcome::Trouble;
use crate::request::Request;
use crate::source::{Span, leaf_spans};
use fancy_expr::error::{CompileError, Error};
use fancy_expr::expr::ExprTree;
use fancy_faults::fault::{TreeFault, fault_in_tree};
use std::alloc::AllocError;

/// The text of a refusal for this reason, at this byte of the pattern if one is known, and else with what may help.
fn refusal_text(
    request: &Request,
    refused: &CompileError,
    why: &str,
    span: Option<Span>,
) -> Result<String, AllocError> {
    let Some((at, _)) = span else {
        let help = match refused {
            CompileError::PatternTooComplex => "--max-prog N allows more",
            _ => "fancyshow tree shows where",
        };
        return format!(in request.alloc; "{why} ({refused:?})\n  {help}");
    };
    let mut text = format!(in request.alloc;
        "the pattern cannot be compiled, at byte {at}: {why} ({refused:?})"
    )?;
    push_excerpt(&mut text, request.source.as_str(), at)?;
    Ok(text)
}

/// The text of a refusal of the tree.
fn fault_text(
    request: &Request,
    tree: &ExprTree,
    refused: &CompileError,
) -> Result<String, AllocError>
    requires { IsWellFormedTree tree.now }
{
    let context = request.arguments.analysis();
    let TreeFault { leaf, message } = fault_in_tree(request.alloc, tree, context, refused)?;
    let spans = leaf_spans(request)?;
    let span = match leaf {
        Some(leaf) => spans.get(leaf).copied(),
        None => None,
    };
    refusal_text(request, refused, message.as_str(), span)
}

/// The trouble that an error of the analysis or the compiler is, for this tree.
pub fn tree_trouble(request: &Request, tree: &ExprTree, error: Error) -> Result<Trouble, AllocError>
    requires { IsWellFormedTree tree.now }
{
    match error {
        Error::CompileError(refused) => {
            Ok(Trouble::Refusal(fault_text(request, tree, &refused)?))
        }
        error => Ok(Trouble::Engine(error)),
    }
}
