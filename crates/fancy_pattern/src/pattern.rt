//! `parse_tree`: lexer, reader and survey, one after the other.

ghost use Rattle.std.specs.Prelude.{◌≡◌, ◌<◌, ◌^◌, [], List, false, length, map, chars, encode_utf8_all, IfOk, IfErr, MatchResult};
ghost use Rattle.fancy_meaning.specs.Tree.{Tree};
ghost use Rattle.fancy_expr.specs.Sound.{IsWellFormedTree};
ghost use Rattle.fancy_expr.specs.Views.{tree_of};
ghost use Rattle.fancy_pattern.specs.Described.{first_past, up_to, IsDescribed};
ghost use Rattle.fancy_pattern.specs.Surveyed.{AreFacts, IsUnreferring, IsSurveyOf};
ghost use Rattle.fancy_pattern.specs.Naming.{pairs_in, named_in};
ghost use Rattle.fancy_tokens.specs.PatternViews.{placed_of};
ghost use Rattle.fancy_pattern.specs.Texts.{Text};
ghost use Rattle.fancy_tokens.specs.Tokens as plain;
ghost use Rattle.fancy_pattern.specs.Spelling.{ignores, byte_at, HasTokens, Spells, IsSpelled, IsTreeOf, PatternFails, IsError};
ghost use Rattle.fancy_pattern.specs.declared.error.PatternError.TheVariants.{Parse, Memory};
ghost use Rattle.fancy_pattern.specs.declared.options.ParseOptions.{ParseOptions};

use crate::characters::byte_count;
use crate::error::PatternError;
use crate::facts::Facts;
use crate::failure::Failure;
use crate::group_names::GroupNames;
use crate::lexer::Lexer;
use crate::options::ParseOptions;
use crate::reader::Reader;
use crate::survey::Survey;
use fancy_expr::expr::{Expr, ExprTree};
use fancy_tokens::error::Fault;
use fancy_tokens::tokens::Placed;
use std::alloc::{AllocError, Global};
use std::collections::BTreeSet;

/// Parses a pattern: its tree, with the names and numbers of its groups. The tree passes `is_well_formed`.
///
/// The syntax is that of fancy-regex 0.20, with that of the crate `regex` in it (docs/PATTERNS.md has a line for each item).
/// Groups are numbered from 1 by their opening parentheses. A group may be referred to before it, and whether a group
/// with that name or number exists is not checked here: the analysis of the tree does it.
///
/// # Errors
///
/// `Parse` has the kind of the first fault and its byte, from 0. That is the byte of the token that is not allowed there,
/// or of the text that is no token. It is the pattern's length if the pattern ends too early. A name is at fault at its
/// first byte if it is called and several groups have it. So is one that is referred to or asked for by a condition, if
/// more than 100 groups have it. `Memory` is returned if an allocation fails.
///
/// # Examples
///
/// ```
/// let tree = parse_tree(alloc, "(?<a>x)|y", ParseOptions::default())?; // total_groups: 1
/// let fault = parse_tree(alloc, "a(b", ParseOptions::default()); // Err(Parse { at: 3, kind: UnclosedOpenParen })
/// ```
pub fn parse_tree(
    alloc: Global,
    pattern: &str,
    options: ParseOptions,
) -> Result<ExprTree, PatternError>
    ensures answer { MatchResult result
        (λ tree. IsTreeOf options (chars pattern.now) tree × IsWellFormedTree tree)
        (IsError options (chars pattern.now)) }
    ensures reads { (e : Tree)
        → Spells options (chars pattern.now) e
        → MatchResult result (λ tree. tree_of tree.expr ≡ e) (λ error. error ≡ Memory) }
{
    let chars = chars_of(alloc, pattern)?;
    match tree_of_chars(alloc, &chars, options) {
        Ok(tree) => Ok(tree),
        Err(failure) => Err(told(&chars, failure)),
    }
}

pub(crate) fn chars_of(alloc: Global, pattern: &str) -> Result<Vec<char>, AllocError>
    ensures { IfOk result (λ v. v.items ≡ chars pattern.now) }
{
    pattern.chars().collect(alloc)
}

/// The failure of a pattern as its user is told it.
fn told(chars: &[char], failure: Failure) -> PatternError
    requires { length (encode_utf8_all chars.now) < 2 ^ 64 }
    ensures { (options : ParseOptions)
        → PatternFails options chars.now failure
        → IsError options chars.now result }
{
    match failure {
        Failure::Fault(fault) => placed_fault(chars, fault),
        Failure::Memory => PatternError::Memory,
    }
}

/// The fault with the byte where it is.
fn placed_fault(chars: &[char], fault: Fault) -> PatternError
    requires { length (encode_utf8_all chars.now) < 2 ^ 64 }
    ensures { result ≡ Parse (byte_at chars.now fault.left) fault.kind }
{
    let passed = &chars[..chars.len().saturating_sub(fault.left)];
    PatternError::Parse {
        at: byte_count(passed),
        kind: fault.kind,
    }
}

/// Whether plain groups capture nothing.
fn ignores(options: ParseOptions, tokens: &[Placed<'_>]) -> bool
    ensures { result ≡ ignores options (map placed_of tokens.now) }
{
    options.ignore_numbered_groups_when_named_groups_exist && Facts::of(tokens).has_names
}

/// The tokens of a pattern, and whether plain groups capture nothing.
pub(crate) fn tokens<'a>(
    alloc: Global,
    chars: &'a [char],
    options: ParseOptions,
) -> Result<(Vec<Placed<'a>>, bool), AllocError>
    ensures { IfOk result (λ p. HasTokens options chars.now p.1 (map placed_of p.0.items)) }
{
    let tokens = Lexer::tokens(alloc, options.flags(false), chars)?;
    if ignores(options, &tokens) {
        Ok((Lexer::tokens(alloc, options.flags(true), chars)?, true))
    } else {
        Ok((tokens, false))
    }
}

fn tree_of_chars(alloc: Global, chars: &[char], options: ParseOptions) -> Result<ExprTree, Failure>
    ensures made { IfOk result (λ tree. IsTreeOf options chars.now tree
        × IsWellFormedTree tree) }
    ensures fails { IfErr result (PatternFails options chars.now) }
{
    let (placed, ignored) = tokens(alloc, chars, options)?;
    tree_of_tokens(alloc, &placed, ignored)
}

/// The tree that the tokens of a pattern spell.
fn tree_of_tokens(alloc: Global, tokens: &[Placed<'_>], ignored: bool) -> Result<ExprTree, Failure>
    ensures made { (options : ParseOptions) → (text : Text)
        → HasTokens options text ignored (map placed_of tokens.now)
        → IfOk result (λ tree. IsTreeOf options text tree × IsWellFormedTree tree) }
    ensures fails { (options : ParseOptions) → (text : Text)
        → HasTokens options text ignored (map placed_of tokens.now)
        → IfErr result (PatternFails options text) }
{
    let facts = Facts::of(tokens);
    let names = GroupNames::of(alloc, tokens, facts.has_names)?;
    let mut reader = Reader {
        alloc,
        rest: tokens,
    };
    let expr = reader.read_tree(&names)?;
    reader.read_end()?;
    Ok(described(alloc, expr, names, facts, ignored)?)
}

/// What the nodes of a tree name; it is not walked where no token names a group.
fn surveyed(alloc: Global, expr: &Expr, names_group: bool) -> Result<Survey, AllocError>
    requires { names_group ≡ false → IsUnreferring (tree_of expr.now) }
    ensures { IfOk result (IsSurveyOf (tree_of expr.now)) }
{
    let mut survey = Survey {
        references: Vec::new(alloc),
        calls: false,
    };
    if !names_group {
        return Ok(survey);
    }
    survey.note_all(expr)?;
    Ok(survey)
}

/// The tree with what its nodes name.
fn described(
    alloc: Global,
    expr: Expr,
    names: GroupNames,
    facts: Facts,
    ignored: bool,
) -> Result<ExprTree, AllocError>
    requires { facts.names_group ≡ false → IsUnreferring (tree_of expr) }
    ensures same { IfOk result (λ tree. tree.expr ≡ expr) }
    ensures describes { (tokens : List plain.Placed) → AreFacts tokens facts
        → pairs_in names.pairs ≡ named_in tokens
        → IfOk result (IsDescribed ignored tokens) }
{
    let survey = surveyed(alloc, &expr, facts.names_group)?;
    let backrefs = within(alloc, &survey.references, facts.groups)?;
    Ok(ExprTree {
        expr,
        backrefs,
        out_of_range_backref: first_past(&survey.references, facts.groups),
        named_groups: names.numbers,
        numeric_capture_group_references: facts.by_number,
        numbered_groups_ignored: ignored,
        contains_subroutines: survey.calls,
        total_groups: facts.groups,
    })
}

/// The references up to the number of groups.
fn within(alloc: Global, references: &[usize], groups: usize) -> Result<BTreeSet<usize>, AllocError>
    ensures { IfOk result (λ set. set.keys ≡ up_to groups [] references.now) }
{
    let mut backrefs = BTreeSet::new(alloc);
    for group in references {
        if *group <= groups {
            backrefs.insert(*group)?;
        }
    }
    Ok(backrefs)
}

/// The first reference past the number of groups.
fn first_past(references: &[usize], groups: usize) -> Option<usize>
    ensures { result ≡ first_past groups references.now }
{
    for group in references {
        if *group > groups {
            return Some(*group);
        }
    }
    None
}
