//! Why a tree is refused, as a sentence for a reader.

ghost use Rattle.std.specs.Prelude.{◌≡◌, IfOk, string_bytes};
ghost use Rattle.std.specs.Option.{option_map};
ghost use Rattle.fancy_faults.specs.Words.{IsInvalid, Says, of_node, of_target, of_unresolved};
ghost use Rattle.fancy_faults.specs.Words as words;

use fancy_expr::error::CompileError;
use fancy_expr::expr::{AstNode, CaptureGroupTarget, Expr};
use regex_syntax::{Config, ErrorKind, parse};
use std::alloc::{AllocError, Global};

/// The group that a reference names, which is not there.
fn missing(alloc: Global, target: &CaptureGroupTarget) -> Result<String, AllocError>
    ensures { IfOk result (λ text. string_bytes text ≡ of_target target.now) }
{
    match target {
        CaptureGroupTarget::ByName(name) => {
            format!(in alloc; "there is no group named '{name}'")
        }
        CaptureGroupTarget::ByNumber(number) => format!(in alloc; "there is no group {number}"),
        CaptureGroupTarget::Relative(_) => {
            String::from_str(alloc, "there is no group with this relative number")
        }
    }
}

fn unresolved(alloc: Global, node: &AstNode) -> Result<String, AllocError>
    ensures { IfOk result (λ text. string_bytes text ≡ of_unresolved node.now) }
{
    match node {
        AstNode::Backref(target) => missing(alloc, target),
        AstNode::BackrefExistsCondition(target) => missing(alloc, target),
        AstNode::SubroutineCall(target) => missing(alloc, target),
        AstNode::AstGroup => String::from_str(alloc, "a group of the tree has no number"),
    }
}

/// What `regex` says of this class, which it cannot read.
fn class_fault(alloc: Global, class: &str) -> Result<&'static str, AllocError> {
    match parse(alloc, class, &Config::default()) {
        Ok(_) => Ok("invalid without Unicode"),
        Err(error) => match error.kind {
            ErrorKind::OutOfMemory => Err(AllocError),
            kind => Ok(kind.message()),
        },
    }
}

/// That this class is invalid, and why.
fn invalid_class(alloc: Global, class: &str) -> Result<String, AllocError>
    ensures { IfOk result (λ text. IsInvalid class.now (string_bytes text)) }
{
    let why = class_fault(alloc, class)?;
    format!(in alloc; "the class {class} is invalid: {why}")
}

/// What is not supported of this node.
fn unsupported(expr: &Expr) -> &'static str
    ensures { result.now ≡ words.unsupported expr.now }
{
    match expr {
        Expr::BackrefWithRelativeRecursionLevel { .. } => {
            "a reference with a recursion level is not supported"
        }
        Expr::BackrefExistsCondition { .. } => {
            "a condition with a recursion level is not supported"
        }
        Expr::BacktrackingControlVerb(_) => "this verb is not supported",
        Expr::Absent(_) => "this kind of absent operator is not supported",
        Expr::Repeat { .. } =>
            "a lazy repetition is not supported if the longest match is asked for",
        _ => "this is not supported",
    }
}

/// What is said of a refusal that is for no node, or says the same of each.
fn fixed(refused: &CompileError) -> &'static str
    ensures { result.now ≡ words.fixed refused.now }
{
    match refused {
        CompileError::NamedBackrefOnly => "if groups have names, references use the names",
        CompileError::NeverEndingRecursion => "the recursion never ends",
        CompileError::VariableLookBehindRequiresFeature => {
            "the body of a look-behind has no fixed length"
        }
        CompileError::PatternTooComplex => "the program exceeds its limit of instructions",
        CompileError::SubroutineCallTargetNotFound => "a call names a group that does not exist",
        CompileError::UnresolvedAstNode => "a reference names a group that does not exist",
        _ => "this is not supported",
    }
}

/// Why this node is refused, or what is refused of it.
fn words_for_node(alloc: Global, refused: &CompileError, expr: &Expr) -> Result<String, AllocError>
    ensures { IfOk result (λ text. string_bytes text ≡ of_node refused.now expr.now) }
{
    match expr {
        Expr::AstNode(node, _) => unresolved(alloc, node),
        Expr::SubroutineCall(group)
            if matches!(refused, CompileError::SubroutineCallTargetNotFound) => {
            format!(in alloc; "there is no group {group}")
        }
        _ if matches!(refused, CompileError::FeatureNotYetSupported) => {
            String::from_str(alloc, unsupported(expr))
        }
        _ => String::from_str(alloc, fixed(refused)),
    }
}

/// Why a tree is refused, if the refusal itself says it; else why this node is, if it is for one. The sentence has the name
/// or number of the group, or the text of the class, and no place.
///
/// # Errors
///
/// `AllocError` if an allocation fails; there is no other.
pub fn words(
    alloc: Global,
    refused: &CompileError,
    node: Option<&Expr>,
) -> Result<String, AllocError>
    ensures { IfOk result (λ text. Says
        refused.now (option_map (λ expr. expr.now) node.entry) (string_bytes text)) }
{
    match (refused, node) {
        (CompileError::InvalidBackref(group), _) => {
            format!(in alloc; "there is no group {group}")
        }
        (CompileError::LeftRecursiveSubroutineCall(group), _) => {
            format!(in alloc; "{group} calls itself before it matches a character")
        }
        (CompileError::InnerError(class), _) => invalid_class(alloc, class.as_str()),
        (CompileError::ClassTooBig(class), _) => {
            format!(in alloc; "the class {class} is too big")
        }
        (_, Some(expr)) => words_for_node(alloc, refused, expr),
        (_, None) => String::from_str(alloc, fixed(refused)),
    }
}
