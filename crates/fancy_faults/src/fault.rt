//! The fault of a pattern that can be read and is refused: where it is, and a sentence for a reader.

ghost use Rattle.std.specs.Prelude.{◌≡◌, IfOk, MatchOption};
ghost use Rattle.fancy_analysis.specs.Analyses.{IsAnalysisOf};
ghost use Rattle.fancy_analysis.specs.Refusals.{IsAnalysable};
ghost use Rattle.fancy_expr.specs.Exprs.{exprs};
ghost use Rattle.fancy_expr.specs.Sound.{IsWellFormedTree};
ghost use Rattle.fancy_expr.specs.Views.{parsed_of};
ghost use Rattle.fancy_info.specs.Infos.{analysis_options_of};
ghost use Rattle.fancy_faults.specs.Blame.{IsBlamed};
ghost use Rattle.fancy_faults.specs.Faults.{IsFaultOf, IsPlace, IsTreeFault};
ghost use Rattle.fancy_faults.specs.Known.{exprs_of};

use crate::blame::Whole;
use crate::finder::{
    described_at, first_at_fault, leaf_of, look_behind_at, node_at, only_call, push_nodes,
};
use crate::leaves::{Span, first_by_number, leaf_spans, start_of};
use crate::words::words;
use fancy_analysis::analyze::{AnalyzeContext, analyze};
use fancy_expr::error::{CompileError, Error};
use fancy_expr::expr::{Expr, ExprTree};
use fancy_info::info::Info;
use fancy_pattern::error::PatternError;
use fancy_pattern::options::ParseOptions;
use fancy_pattern::pattern::parse_tree;
use std::alloc::{AllocError, Global};

/// Why a pattern is refused, and where.
#[derive(Debug, Drop)]
pub struct Fault {
    /// The byte of the pattern, from 0, where the piece begins that is refused. `None` if no one piece is.
    pub at: Option<usize>,
    /// A sentence for a reader, without the place: `there is no group named 'x'`.
    pub message: String,
}

/// Why a tree is refused, and for which of its nodes.
#[derive(Debug, Drop)]
pub struct TreeFault {
    /// How many leaves are before the node, without those that are empty. `None` if no one node is refused.
    pub leaf: Option<usize>,
    /// A sentence for a reader.
    pub message: String,
}

/// The node that the refusal is for, by its index. `nodes` are those of the tree, and `info` is what the analysis says of
/// it, if it says anything.
fn blamed(
    alloc: Global,
    tree: &ExprTree,
    nodes: &[&Expr],
    info: Option<&Info<'_>>,
    context: AnalyzeContext,
    refused: &CompileError,
) -> Result<Option<usize>, AllocError>
    requires nodes { exprs_of nodes.now ≡ exprs tree.now.expr }
    requires info { MatchOption info
        (¬ IsAnalysable (parsed_of tree.now) (analysis_options_of context))
        (λ info. IsAnalysisOf tree.now (analysis_options_of context) info.now) }
    ensures { IfOk result (IsBlamed tree.now context refused.now) }
{
    let whole = Whole::of(tree, context);
    match refused {
        CompileError::LeftRecursiveSubroutineCall(text) => {
            described_at(alloc, nodes, text.as_str(), whole.first)
        }
        CompileError::NeverEndingRecursion => Ok(only_call(nodes)),
        CompileError::VariableLookBehindRequiresFeature => match info {
            Some(info) => look_behind_at(alloc, info),
            None => Ok(None),
        },
        _ => Ok(first_at_fault(nodes, refused, whole)),
    }
}

/// The fault of a tree that the analysis or the compiler refuses with this error. `info` is what the analysis says of it,
/// if it says anything.
fn fault_by(
    alloc: Global,
    tree: &ExprTree,
    info: Option<&Info<'_>>,
    context: AnalyzeContext,
    refused: &CompileError,
) -> Result<TreeFault, AllocError>
    requires { MatchOption info
        (¬ IsAnalysable (parsed_of tree.now) (analysis_options_of context))
        (λ info. IsAnalysisOf tree.now (analysis_options_of context) info.now) }
    ensures { IfOk result (IsTreeFault tree.now context refused.now) }
{
    let mut nodes = Vec::new(alloc);
    push_nodes(&tree.expr, &mut nodes)?;
    let at = blamed(alloc, tree, &nodes, info, context, refused)?;
    let message = words(alloc, refused, node_at(&nodes, at))?;
    Ok(TreeFault {
        leaf: leaf_of(&nodes, at),
        message,
    })
}

/// The fault of a tree that the analysis or the compiler refuses with this error, under these options of the analysis.
///
/// # Errors
///
/// `AllocError` if an allocation fails; there is no other.
pub fn fault_in_tree(
    alloc: Global,
    tree: &ExprTree,
    context: AnalyzeContext,
    refused: &CompileError,
) -> Result<TreeFault, AllocError>
    requires { IsWellFormedTree tree.now }
    ensures { IfOk result (IsTreeFault tree.now context refused.now) }
{
    match analyze(alloc, tree, context) {
        Ok(info) => fault_by(alloc, tree, Some(&info), context, refused),
        Err(Error::Memory) => Err(AllocError),
        Err(_) => fault_by(alloc, tree, None, context, refused),
    }
}

/// Where the piece begins that is refused: this leaf, or the first of these that names a group by its number if groups have
/// names.
fn place_of(
    pattern: &str,
    spans: &[Span],
    leaf: Option<usize>,
    refused: &CompileError,
) -> Option<usize>
    ensures { IsPlace refused.now spans.now leaf result }
{
    match refused {
        CompileError::NamedBackrefOnly => start_of(spans, first_by_number(pattern, spans)),
        _ => start_of(spans, leaf),
    }
}

/// The fault of a pattern that is read by these options, and that the analysis or the compiler refuses with this error.
///
/// # Errors
///
/// `AllocError` if an allocation fails; there is no other.
///
/// # Examples
///
/// ```
/// // `(a)\k<x>` is refused as `CompileError::UnresolvedAstNode`
/// let fault = fault_of(alloc, r"(a)\k<x>", parsing, context, &refused)?;
/// // fault.at is Some(3), and fault.message "there is no group named 'x'"
/// ```
pub fn fault_of(
    alloc: Global,
    pattern: &str,
    parsing: ParseOptions,
    context: AnalyzeContext,
    refused: &CompileError,
) -> Result<Fault, AllocError>
    ensures { IfOk result (IsFaultOf parsing context pattern.now refused.now) }
{
    let tree = match parse_tree(alloc, pattern, parsing) {
        Ok(tree) => tree,
        Err(PatternError::Memory) => return Err(AllocError),
        Err(PatternError::Parse { .. }) => {
            let message = words(alloc, refused, None)?;
            return Ok(Fault { at: None, message });
        }
    };
    let TreeFault { leaf, message } = fault_in_tree(alloc, &tree, context, refused)?;
    let spans = leaf_spans(alloc, pattern, parsing)?;
    Ok(Fault {
        at: place_of(pattern, &spans, leaf, refused),
        message,
    })
}
