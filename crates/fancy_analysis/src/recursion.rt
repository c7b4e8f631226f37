//! Left recursion: groups that call themselves before anything is taken, and the least one's description.

ghost use Rattle.std.specs.Prelude.{◌≡◌, ◌++◌, ◌↔◌, ℕ, List, Contains, IfOk, IsTrue, MatchOption, MatchResult, codes, decimal, string_bytes};
ghost use Rattle.fancy_meaning.specs.AnalysisRefusals.{Describes, IsLeastName, IsNamed};
ghost use Rattle.fancy_meaning.specs.Recursion.{IsLeastLeftRecursive, IsLeftRecursive};
ghost use Rattle.fancy_meaning.specs.Sizes.{known_of};
ghost use Rattle.fancy_meaning.specs.Tree as plain;
ghost use Rattle.fancy_info.specs.Infos.{info_tree};
ghost use Rattle.fancy_analysis.specs.Made.{IsSized};
ghost use Rattle.fancy_analysis.specs.Names.{IsDescriptionOfLeast, names_of};
ghost use Rattle.fancy_expr.specs.declared.error.Error.TheVariants.{Memory};

use crate::cycle_search::least_into_cycle;
use crate::links::links_of;
use fancy_expr::error::Error;
use fancy_info::info::Info;
use std::alloc::{AllocError, Global};
use std::collections::BTreeMap;

fn has_number(numbers: &Vec<usize>, group: usize) -> bool
    ensures { IsTrue result ↔ Contains numbers.now.items group }
{
    numbers.contains(&group)
}

/// The least name of a group.
fn least_name(names: &BTreeMap<String, Vec<usize>>, group: usize) -> Option<&String>
    ensures { MatchOption
        result
        ((name : List ℕ) → ¬ IsNamed (names_of names.now.entries) group name)
        (λ name. IsLeastName (names_of names.now.entries) group (string_bytes name.now)) }
{
    for (name, numbers) in names {
        if has_number(numbers, group) {
            return Some(name);
        }
    }
    None
}

fn description_by_number(alloc: Global, group: usize) -> Result<String, AllocError>
    ensures { IfOk result (λ text. string_bytes text
        ≡ codes "group " ++ decimal group) }
{
    format!(in alloc; "group {group}")
}

fn description_by_name(alloc: Global, name: &str, group: usize) -> Result<String, AllocError>
    ensures { IfOk result (λ text. string_bytes text ≡ codes "group '" ++ (name.now ++ (codes "' (" ++ (decimal group ++ codes ")")))) }
{
    format!(in alloc; "group '{name}' ({group})")
}

/// How a target is described: by its number, and where it has a name by the least one.
fn describe(
    alloc: Global,
    names: &BTreeMap<String, Vec<usize>>,
    group: usize,
) -> Result<String, AllocError>
    ensures { IfOk result
        (λ text. Describes (names_of names.now.entries) group (string_bytes text)) }
{
    match least_name(names, group) {
        Some(name) => description_by_name(alloc, name, group),
        None => description_by_number(alloc, group),
    }
}

/// The description of the least target that is reached and from which calls before which nothing is taken lead into a
/// cycle.
///
/// `root` is the root of an analysed tree. Out of memory is `Error::Memory`.
pub(crate) fn left_recursion(
    alloc: Global,
    root: &Info,
    names: &BTreeMap<String, Vec<usize>>,
) -> Result<Option<String>, Error>
    ensures { (whole : plain.Tree)
        → info_tree root.now ≡ whole
        → IsSized (known_of whole) root.now
        → MatchResult
        result
        (λ found. MatchOption
        found
        ((g : ℕ) → ¬ IsLeftRecursive whole g)
        (λ text. IsDescriptionOfLeast whole (names_of names.now.entries) (string_bytes text)))
        (λ error. error ≡ Memory) }
{
    let links = links_of(alloc, root)?;
    match least_into_cycle(alloc, &links)? {
        Some(group) => Ok(Some(describe(alloc, names, group)?)),
        None => Ok(None),
    }
}
