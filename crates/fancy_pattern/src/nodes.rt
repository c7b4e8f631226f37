//! The nodes of the tree that is made.

ghost use Rattle.std.specs.Prelude.{◌≡◌, ◌++◌, ◌∷◌, [], map, reverse, not, filter, true, false, IfOk, IfErr, IfSome, OnOk, encode_utf8_all, string_bytes, Some, None, if◌then◌else◌};
ghost use Rattle.fancy_meaning.specs.Tree as tree;
ghost use Rattle.fancy_meaning.specs.Tree.{trees};
ghost use Rattle.fancy_expr.specs.Views.{tree_of};
ghost use Rattle.std.specs.Option.{option_map};
ghost use Rattle.fancy_pattern.specs.Grammar as grammar;
ghost use Rattle.fancy_pattern.specs.Naming.{pairs_in};
ghost use Rattle.fancy_pattern.specs.Grammar.{is_repeatable, lo_of, hi_of, named, unresolved};
ghost use Rattle.fancy_tokens.specs.declared.tokens.Enclosing.TheVariants.{Plain};
ghost use Rattle.fancy_tokens.specs.declared.tokens.Naming.TheVariants as naming;
ghost use Rattle.fancy_expr.specs.Each.{Each};
ghost use Rattle.fancy_pattern.specs.Reading.{OneCharEach};
ghost use Rattle.fancy_pattern.specs.Stuck.{NoNode, NoAtom};
ghost use Rattle.fancy_tokens.specs.PatternViews.{leaf_of, hex_class, token_of, reference_of};

use crate::class_text::push_escape;
use crate::failure::Failure;
use crate::group_names::GroupNames;
use crate::named::text_of;
use fancy_expr::expr::{Absent, AstNode, CaptureGroupTarget, Expr};
use fancy_tokens::error::{ErrorKind, Fault};
use fancy_tokens::tokens::{Enclosing, Leaf, Naming, Quantifier, Reference, Suffix, Target, Token};
use std::alloc::{AllocError, Global};

/// So many groups may have a name that is referred to.
const MOST_NAMESAKES: usize = 100;

/// The node of an atom without text.
pub(crate) fn leaf(alloc: Global, leaf: Leaf) -> Result<Expr, AllocError>
    ensures made { IfOk result (λ e. tree_of e ≡ leaf_of leaf) }
    ensures one_char { IfOk result OneCharEach }
{
    match leaf {
        Leaf::Any { newline, crlf } => Ok(Expr::Any { newline, crlf }),
        Leaf::Assertion(assertion) => Ok(Expr::Assertion(assertion)),
        Leaf::GeneralNewline { unicode } => Ok(Expr::GeneralNewline { unicode }),
        Leaf::Literal { val, casei } => literal(alloc, val, casei),
        Leaf::HexDigits { negated } => hex_class(alloc, negated),
        Leaf::KeepOut => Ok(Expr::KeepOut),
        Leaf::ContinueFromPreviousMatchEnd => Ok(Expr::ContinueFromPreviousMatchEnd),
        Leaf::AbsentClear => Ok(Expr::Absent(Absent::Clear)),
        Leaf::Verb(verb) => Ok(Expr::BacktrackingControlVerb(verb)),
    }
}

pub(crate) fn literal(alloc: Global, c: char, casei: bool) -> Result<Expr, AllocError>
    ensures made { IfOk result (λ e. tree_of e ≡ tree.Literal c casei) }
    ensures one_char { IfOk result OneCharEach }
{
    // as many bytes as a character may have
    let mut val = String::with_capacity(alloc, 4)?;
    val.push(c)?;
    Ok(Expr::Literal { val, casei })
}

fn hex_class(alloc: Global, negated: bool) -> Result<Expr, AllocError>
    ensures { IfOk result (λ e. tree_of e
        ≡ tree.Delegate (hex_class negated) false) }
{
    let text = if negated {
        "[^0-9A-Fa-f]"
    } else {
        "[0-9A-Fa-f]"
    };
    Ok(Expr::Delegate {
        inner: String::from_str(alloc, text)?,
        casei: false,
    })
}

/// A class that is a backslash, this letter and this text.
pub(crate) fn set_node(
    alloc: Global,
    letter: char,
    text: &[char],
    casei: bool,
) -> Result<Expr, AllocError>
    ensures { IfOk result (λ e. tree_of e
        ≡ tree.Delegate (encode_utf8_all (92 ∷ letter ∷ text.now)) casei) }
{
    let mut inner = String::new(alloc);
    push_escape(&mut inner, letter, text)?;
    Ok(Expr::Delegate { inner, casei })
}

/// The node of this kind for a group.
fn named(naming: Naming, level: Option<isize>, group: usize) -> Expr
    ensures { tree_of result ≡ named naming level group }
{
    match naming {
        Naming::Backref { casei } => backref(casei, level, group),
        Naming::Exists => Expr::BackrefExistsCondition {
            group,
            relative_recursion_level: level,
        },
        Naming::Call => Expr::SubroutineCall(group),
    }
}

fn backref(casei: bool, level: Option<isize>, group: usize) -> Expr
    ensures { tree_of result ≡ named (naming.Backref casei) level group }
{
    match level {
        None => Expr::Backref { group, casei },
        Some(relative_level) => Expr::BackrefWithRelativeRecursionLevel {
            group,
            relative_level,
            casei,
        },
    }
}

/// The node of this kind for what no group is there for.
fn unresolved(naming: Naming, target: CaptureGroupTarget, place: usize) -> Expr
    ensures { tree_of result ≡ unresolved naming }
{
    match naming {
        Naming::Backref { .. } => Expr::AstNode(AstNode::Backref(target), place),
        Naming::Exists => Expr::AstNode(AstNode::BackrefExistsCondition(target), place),
        Naming::Call => Expr::AstNode(AstNode::SubroutineCall(target), place),
    }
}

/// The nodes for each of these groups.
fn nodes_for(
    alloc: Global,
    naming: Naming,
    level: Option<isize>,
    groups: &[usize],
) -> Result<Vec<Expr>, AllocError>
    ensures { IfOk result (λ nodes. map tree_of nodes.items
        ≡ map (named naming level) groups.now) }
{
    let mut nodes = Vec::new(alloc);
    for group in groups {
        nodes.push(named(naming, level, *group))?;
    }
    Ok(nodes)
}

fn reversed(alloc: Global, groups: &[usize]) -> Result<Vec<usize>, AllocError>
    ensures { IfOk result (λ v. v.items ≡ reverse groups.now) }
{
    groups.iter().rev().copied().collect(alloc)
}

/// The nodes for each of these groups, the last first, as alternatives.
fn each_group(
    alloc: Global,
    naming: Naming,
    level: Option<isize>,
    groups: &[usize],
) -> Result<Expr, AllocError>
    ensures { IfOk result (λ e. tree_of e
        ≡ tree.Alt (trees (map (named naming level) (reverse groups.now)))) }
{
    let backward = reversed(alloc, groups)?;
    let nodes = nodes_for(alloc, naming, level, &backward)?;
    Ok(Expr::Alt(nodes))
}

/// The node for these groups, which have the name, unless they are several and are called, or too many.
fn by_groups(
    alloc: Global,
    reference: Reference<'_>,
    groups: &[usize],
    name: &[char],
    place: usize,
) -> Result<Expr, Failure>
    ensures made { IfOk result (λ e. Some (tree_of e)
        ≡ grammar.by_groups reference.entry.naming reference.entry.level groups.now) }
    ensures fails { IfErr result (NoNode
        (grammar.by_groups reference.entry.naming reference.entry.level groups.now)
        reference.entry.left) }
{
    match groups {
        [] => Ok(unresolved(
            reference.naming,
            CaptureGroupTarget::ByName(text_of(alloc, name)?),
            place,
        )),
        [group] => Ok(named(reference.naming, reference.level, *group)),
        _ => several(alloc, reference, groups),
    }
}

/// The fault of a name that begins here and that too many groups have.
fn ambiguous_name(left: usize) -> Failure
    ensures { NoNode None left result }
{
    Failure::Fault(Fault {
        left,
        kind: ErrorKind::InvalidGroupNameBackref,
    })
}

/// The nodes for several groups, the last first, unless they are called, or too many.
fn several(alloc: Global, reference: Reference<'_>, groups: &[usize]) -> Result<Expr, Failure>
    ensures made { IfOk result (λ e. Some (tree_of e)
        ≡ grammar.several reference.entry.naming reference.entry.level groups.now) }
    ensures fails { IfErr result (NoNode
        (grammar.several reference.entry.naming reference.entry.level groups.now)
        reference.entry.left) }
{
    if groups.len() > MOST_NAMESAKES {
        return Err(ambiguous_name(reference.left));
    }
    match reference.naming {
        Naming::Call => Err(ambiguous_name(reference.left)),
        Naming::Backref { .. } => Ok(each_group(alloc, reference.naming, reference.level, groups)?),
        Naming::Exists => Ok(each_group(alloc, reference.naming, reference.level, groups)?),
    }
}

/// The node for what names a group; `place` is the byte where it stands.
fn reference(
    alloc: Global,
    names: &GroupNames,
    reference: Reference<'_>,
    place: usize,
) -> Result<Expr, Failure>
    ensures made { IfOk result (λ e. Some (tree_of e)
        ≡ grammar.reference (pairs_in names.now.pairs) (reference_of reference.entry)) }
    ensures fails { IfErr result (NoNode
        (grammar.reference (pairs_in names.now.pairs) (reference_of reference.entry))
        reference.entry.left) }
{
    match reference.target {
        Target::Name(name) => {
            let groups = names.find(alloc, name)?;
            by_groups(alloc, reference, groups, name, place)
        }
        Target::Number(group) => Ok(named(reference.naming, reference.level, group)),
        Target::Nowhere => Ok(unresolved(reference.naming, CaptureGroupTarget::Relative(0), place)),
    }
}

/// The same in a box.
#[inline(never)]
pub(crate) fn boxed_reference(
    alloc: Global,
    names: &GroupNames,
    found: Reference<'_>,
    place: usize,
) -> Result<Box<Expr>, Failure>
    ensures made { IfOk result (λ b. Some (tree_of b.value)
        ≡ grammar.reference (pairs_in names.now.pairs) (reference_of found.entry)) }
    ensures fails { IfErr result (NoNode
        (grammar.reference (pairs_in names.now.pairs) (reference_of found.entry))
        found.entry.left) }
{
    Ok(Box::new(alloc, reference(alloc, names, found, place)?)?)
}

/// Whether a node is nothing.
pub(crate) fn is_empty(e: &Expr) -> bool
    ensures { result ≡ grammar.is_empty (tree_of e.now) }
{
    match e {
        Expr::Empty => true,
        Expr::Absent(_) => false,
        _ => false,
    }
}

/// Whether a quantifier may stand behind a node.
pub(crate) fn is_repeatable(e: &Expr) -> bool
    ensures { result ≡ is_repeatable (tree_of e.now) }
{
    match e {
        Expr::Empty => false,
        Expr::Assertion(_) => false,
        Expr::LookAround(_, _) => false,
        Expr::KeepOut => false,
        Expr::ContinueFromPreviousMatchEnd => false,
        Expr::Absent(_) => true,
        _ => true,
    }
}

/// The least and the greatest number of iterations.
fn bounds(quantifier: Quantifier) -> (usize, usize)
    ensures lo { result.0 ≡ lo_of quantifier }
    ensures hi { result.1 ≡ hi_of quantifier }
{
    match quantifier {
        Quantifier::Star => (0, usize::MAX),
        Quantifier::Plus => (1, usize::MAX),
        Quantifier::Question => (0, 1),
        Quantifier::Counts { lo, hi } => (lo, hi),
    }
}

/// A loop around a node.
pub(crate) fn repeated(e: Box<Expr>, quantifier: Quantifier, greedy: bool) -> Expr
    ensures made { tree_of result ≡ grammar.repeated quantifier greedy (tree_of e.value) }
    ensures one_char { OneCharEach e.value → OneCharEach result }
{
    let (lo, hi) = bounds(quantifier);
    Expr::Repeat {
        child: e,
        lo,
        hi,
        greedy,
    }
}

pub(crate) fn atomic(alloc: Global, e: Expr) -> Result<Expr, AllocError>
    ensures made { IfOk result (λ r. tree_of r ≡ tree.AtomicGroup (tree_of e)) }
    ensures one_char { OneCharEach e → IfOk result OneCharEach }
{
    Ok(Expr::AtomicGroup(Box::new(alloc, e)?))
}

/// Whether this adds no node.
pub(crate) fn is_plain(enclosing: Enclosing) -> bool
    ensures { result ≡ true → enclosing ≡ Plain }
{
    match enclosing {
        Enclosing::Plain => true,
        _ => false,
    }
}

/// What stands around a node, as its opening says.
pub(crate) fn enclosed(enclosing: Enclosing, e: Box<Expr>) -> Expr
    ensures made { tree_of result ≡ grammar.enclosed enclosing (tree_of e.value) }
    ensures one_char { OneCharEach e.value → OneCharEach result }
{
    match enclosing {
        Enclosing::Plain => Box::into_inner(e),
        Enclosing::Atomic => Expr::AtomicGroup(e),
        Enclosing::Define => Expr::DefineGroup { definitions: e },
        Enclosing::Look(look) => Expr::LookAround(e, look),
        Enclosing::AbsentRepeater => Expr::Absent(Absent::Repeater(e)),
    }
}

pub(crate) fn conditional(
    condition: Box<Expr>,
    true_branch: Box<Expr>,
    false_branch: Box<Expr>,
) -> Expr
    ensures made { tree_of result ≡ tree.Conditional (tree_of condition.value)
        (tree_of true_branch.value) (tree_of false_branch.value) }
    ensures one_char { OneCharEach condition.value
        → OneCharEach true_branch.value
        → OneCharEach false_branch.value
        → OneCharEach result }
{
    Expr::Conditional {
        condition,
        true_branch,
        false_branch,
    }
}

/// No piece is nothing, one is itself, more are a sequence.
pub(crate) fn joined(pieces: Vec<Expr>) -> Expr
    ensures made { tree_of result ≡ grammar.joined (map tree_of pieces.items) }
    ensures one_char { Each OneCharEach pieces.items → OneCharEach result }
{
    let mut pieces = pieces;
    if pieces.len() > 1 {
        return Expr::Concat(pieces);
    }
    match pieces.pop() {
        Some(piece) => piece,
        None => Expr::Empty,
    }
}

/// One branch is itself, more are alternatives.
pub(crate) fn alternated(branches: Vec<Expr>) -> Expr
    ensures made { tree_of result ≡ grammar.alternated (map tree_of branches.items) }
    ensures one_char { Each OneCharEach branches.items → OneCharEach result }
{
    let mut branches = branches;
    if branches.len() > 1 {
        return Expr::Alt(branches);
    }
    match branches.pop() {
        Some(branch) => branch,
        None => Expr::Empty,
    }
}

/// A loop around a node, with what follows its quantifier.
pub(crate) fn suffixed(
    alloc: Global,
    e: Box<Expr>,
    quantifier: Quantifier,
    greedy: bool,
    suffix: Option<Suffix>,
) -> Result<Expr, AllocError>
    ensures made { IfOk result (λ r. tree_of r
        ≡ grammar.suffixed quantifier greedy suffix (tree_of e.value)) }
    ensures one_char { OneCharEach e.value → IfOk result OneCharEach }
{
    match suffix {
        None => Ok(repeated(e, quantifier, greedy)),
        Some(Suffix::Turned) => Ok(repeated(e, quantifier, !greedy)),
        Some(Suffix::Possessive) => atomic(alloc, repeated(e, quantifier, greedy)),
    }
}

/// The node of an atom that is one token; none for any other token.
pub(crate) fn node(
    alloc: Global,
    names: &GroupNames,
    token: &Token<'_>,
) -> Result<Option<Expr>, Failure>
    ensures made { IfOk result (λ found. option_map tree_of found
        ≡ grammar.node_of (pairs_in names.now.pairs) (token_of token.now)) }
    ensures one_char { IfOk result (λ found. IfSome found OneCharEach) }
    ensures fails { IfErr result (NoAtom
        (pairs_in names.now.pairs) (token_of token.now)) }
{
    match token {
        Token::Leaf(found) => Ok(Some(leaf(alloc, *found)?)),
        Token::Set {
            letter,
            text,
            casei,
        } => Ok(Some(set_node(alloc, *letter, text, *casei)?)),
        Token::Numbered { naming, number, .. } => Ok(Some(named(*naming, None, *number))),
        Token::Refer(placed) => Ok(Some(reference(alloc, names, placed.reference, placed.at)?)),
        Token::Flags => Ok(Some(Expr::Empty)),
        _ => Ok(None),
    }
}
