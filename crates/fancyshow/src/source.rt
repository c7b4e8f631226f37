//! The tree that is asked about: what a pattern spells, or what the notation of trees does; and where its leaves are.

ghost use Rattle.std.specs.Prelude.{IfOk};
ghost use Rattle.fancy_expr.specs.Sound.{IsWellFormedTree};

use crate::excerpt::push_excerpt;
use crate::outcome::Trouble;
use crate::request::Request;
use crate::wants::wanted_at;
use fancy_analysis::limit::is_analysis_within;
use fancy_command::command::MOST_DEPTH;
use fancy_expr::error::Error;
use fancy_expr::expr::ExprTree;
pub use fancy_faults::leaves::Span;
use fancy_faults::leaves::leaf_spans as spans_in;
use fancy_notation::depth::depth;
use fancy_notation::notation::read_tree;
use fancy_pattern::error::PatternError;
use fancy_pattern::pattern::parse_tree;
use std::alloc::{AllocError, Global};

/// The tree that is asked about.
pub fn read(request: &Request) -> Result<ExprTree, Trouble>
    ensures { IfOk result IsWellFormedTree }
{
    let tree = if request.is_tree {
        tree_of_notation(request.alloc, request.source.as_str())?
    } else {
        tree_of_pattern(request)?
    };
    if is_analysis_within(request.alloc, &tree, request.analysis_limit)? {
        Ok(tree)
    } else {
        Err(Trouble::Limit(
            "the analysis of the pattern exceeds its limit (AnalysisLimitExceeded)\n  --analysis-limit N allows more",
        ))
    }
}

fn tree_of_notation(alloc: Global, text: &str) -> Result<ExprTree, Trouble>
    ensures { IfOk result IsWellFormedTree }
{
    if depth(text) > MOST_DEPTH {
        return Err(Trouble::Refusal(format!(in alloc;
            "parentheses nest deeper than {MOST_DEPTH} (RecursionExceeded)"
        )?));
    }
    match read_tree(alloc, text) {
        Ok(tree) => Ok(tree),
        Err(Error::TreeFault { at }) => Err(Trouble::Refusal(tree_fault(alloc, text, at)?)),
        Err(error) => Err(Trouble::Engine(error)),
    }
}

/// Where the tree cannot be read on, and what was expected there.
fn tree_fault(alloc: Global, tree: &str, at: usize) -> Result<String, Error> {
    let (at, words) = wanted_at(alloc, tree, at)?;
    let mut text = format!(in alloc;
        "the tree cannot be read, at byte {at}: expected {words} (TreeFault)"
    )?;
    push_excerpt(&mut text, tree, at)?;
    Ok(text)
}

fn tree_of_pattern(request: &Request) -> Result<ExprTree, Trouble>
    ensures { IfOk result IsWellFormedTree }
{
    let pattern = request.source.as_str();
    match parse_tree(request.alloc, pattern, request.parsing()) {
        Ok(tree) => Ok(tree),
        Err(error) => Err(pattern_trouble(request.alloc, pattern, &error)?),
    }
}

/// Where the pattern cannot be read on, and why.
fn pattern_trouble(
    alloc: Global,
    pattern: &str,
    error: &PatternError,
) -> Result<Trouble, AllocError> {
    match error {
        PatternError::Parse { at, kind } => {
            let mut text = format!(in alloc; "the pattern cannot be read, {error} ({kind:?})")?;
            push_excerpt(&mut text, pattern, *at)?;
            Ok(Trouble::Refusal(text))
        }
        PatternError::Memory => Err(AllocError),
    }
}

/// Where the leaves of a pattern's tree are in it, in bytes: one span for each leaf that is not empty, in order. A tree
/// that was not read from a pattern has none.
pub fn leaf_spans(request: &Request) -> Result<Vec<Span>, AllocError> {
    if request.is_tree {
        return Ok(Vec::new(request.alloc));
    }
    spans_in(request.alloc, request.source.as_str(), request.parsing())
}
