//! `read_tree`: lexer, reader and found, one after the other.

ghost use Rattle.std.specs.Prelude.{◌≡◌, [], length, MatchResult};
ghost use Rattle.fancy_meaning.specs.Tree.{Tree};
ghost use Rattle.fancy_expr.specs.Sound.{IsWellFormedTree};
ghost use Rattle.fancy_expr.specs.Views.{tree_of};
ghost use Rattle.fancy_expr.specs.declared.error.Error.TheVariants.{Memory};
ghost use Rattle.fancy_notation.specs.Described.{IsDescribed, first_past, up_to};
ghost use Rattle.fancy_notation.specs.Grammar.{IsSpelled};
ghost use Rattle.fancy_notation.specs.Lexing.{tokens_of};
ghost use Rattle.fancy_notation.specs.Reading.{IsFault};

use crate::lexer::tokens;
use crate::reader::Reader;
use crate::references::References;
use fancy_expr::error::Error;
use fancy_expr::expr::{Expr, ExprTree};
use std::alloc::Global;
use std::collections::{BTreeMap, BTreeSet};

/// The tree that a text in the notation spells, and what comes with it ("docs/MEANING.md" has the notation).
///
/// The tree passes `is_well_formed`. Where the text spells no tree, `Error::TreeFault` has the byte at which the first
/// token begins that is not allowed where it is, or the text's length if more is needed. Out of memory is
/// `Error::Memory`.
pub fn read_tree(alloc: Global, text: &str) -> Result<ExprTree, Error>
    ensures answer { MatchResult
        result
        (λ tree. IsSpelled (tokens_of text.now) (tree_of tree.expr) × IsDescribed tree
        × IsWellFormedTree tree)
        (λ error. IsFault (length text.now) (tokens_of text.now) error) }
    ensures reads { (e : Tree)
        → IsSpelled (tokens_of text.now) e
        → MatchResult result (λ tree. tree_of tree.expr ≡ e) (λ error. error ≡ Memory) }
{
    let placed = tokens(alloc, text)?;
    let mut reader = Reader {
        alloc,
        rest: &placed,
        end: text.len(),
        groups: 0,
    };
    let expr = reader.read_node()?;
    reader.read_end()?;
    described(alloc, expr, reader.groups)
}

/// The tree with what its nodes name.
fn described(alloc: Global, expr: Expr, total_groups: usize) -> Result<ExprTree, Error>
    ensures { MatchResult result
        (λ tree. (tree.expr ≡ expr) × (tree.total_groups ≡ total_groups) × IsDescribed tree)
        (λ e. e ≡ Memory) }
{
    let mut found = References {
        references: Vec::new(alloc),
        numeric: false,
        calls: false,
    };
    found.add_all(&expr)?;
    let backrefs = within(alloc, &found.references, total_groups)?;
    Ok(ExprTree {
        expr,
        backrefs,
        out_of_range_backref: first_past(&found.references, total_groups),
        named_groups: BTreeMap::new(alloc),
        numeric_capture_group_references: found.numeric,
        numbered_groups_ignored: false,
        contains_subroutines: found.calls,
        total_groups,
    })
}

/// The references up to the number of groups.
fn within(alloc: Global, references: &[usize], groups: usize) -> Result<BTreeSet<usize>, Error>
    ensures { MatchResult result (λ set. set.keys ≡ up_to groups [] references.now)
        (λ e. e ≡ Memory) }
{
    let mut backrefs = BTreeSet::new(alloc);
    for group in references {
        if *group <= groups {
            backrefs.insert(*group)?;
        }
    }
    Ok(backrefs)
}

/// The first reference past the number of groups.
fn first_past(references: &[usize], groups: usize) -> Option<usize>
    ensures { result ≡ first_past groups references.now }
{
    for group in references {
        if *group > groups {
            return Some(*group);
        }
    }
    None
}
