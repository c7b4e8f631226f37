//! The targets that links reach, as a set of flags.

ghost use Rattle.std.specs.Prelude.{◌≡◌, ◌<◌, ◌∷◌, ◌++◌, ℕ, [], All, IfOk, false, filter_map, length};
ghost use Rattle.fancy_analysis.specs.Reached.{AreReached, AreWays, HasRoom, flag, listed, way_from};

use crate::links::Link;
use crate::reads::no_flags;
use std::alloc::{AllocError, Global};

pub fn is_set(flags: &[bool], number: usize) -> bool
    ensures { result ≡ flag flags.now number }
{
    match flags.get(number) {
        Some(flag) => *flag,
        None => false,
    }
}

/// A clear flag for 0 and for each number from which a link leads, and for all below.
fn flags_for(alloc: Global, links: &[Link]) -> Result<Vec<bool>, AllocError>
    ensures room { IfOk result (λ v. HasRoom links.now v.items) }
    ensures clear { IfOk result (λ v. (n : ℕ) → flag v.items n ≡ false) }
{
    let mut last = 0;
    for link in links {
        last = last.max(link.from);
    }
    let mut flags = no_flags(alloc, last)?;
    flags.push(false)?;
    Ok(flags)
}

pub fn no_lists(alloc: Global, count: usize) -> Result<Vec<Vec<usize>>, AllocError>
    ensures length { IfOk result (λ v. length v.items ≡ count) }
    ensures none { IfOk result (λ v. All (λ list. list.items ≡ []) v.items) }
{
    let mut lists = Vec::new(alloc);
    for i in 0..count {
        lists.push(Vec::new(alloc))?;
    }
    Ok(lists)
}

/// Adds where a link leads to the list of its number, if it is one of those.
fn list_link(lists: &mut Vec<Vec<usize>>, link: Link, at_once: bool) -> Result<(), AllocError>
    requires { link.from < length lists.now.items }
    ensures length { IfOk result (λ _. length lists.new.items ≡ length lists.old.items) }
    ensures listed { IfOk result (λ _. (n : ℕ) → listed lists.new.items n
        ≡ listed lists.old.items n ++ filter_map (way_from at_once n) (link ∷ [])) }
{
    if !link.is_one(at_once) {
        return Ok(());
    }
    lists[link.from].push(link.to)?;
    Ok(())
}

/// Under each of so many numbers, to where links lead from it, or links at once.
pub fn ways(
    alloc: Global,
    links: &[Link],
    numbers: usize,
    at_once: bool,
) -> Result<Vec<Vec<usize>>, AllocError>
    requires { All (λ link. link.from < numbers) links.now }
    ensures length { IfOk result (λ v. length v.items ≡ numbers) }
    ensures ways { IfOk result (λ v. AreWays at_once links.now v.items) }
{
    let mut ways = no_lists(alloc, numbers)?;
    for link in links {
        list_link(&mut ways, *link, at_once)?;
    }
    Ok(ways)
}

/// Which targets are reached from the whole tree.
pub fn reached(alloc: Global, links: &[Link]) -> Result<Vec<bool>, AllocError>
    ensures { IfOk result (λ v. AreReached links.now v.items) }
{
    let mut flags = flags_for(alloc, links)?;
    let mut ways = ways(alloc, links, flags.len(), false)?;
    let mut next = Vec::new(alloc);
    next.push(0)?;
    while let Some(number) = next.pop() {
        if number >= flags.len() {
            continue;
        }
        flags[number] = true;
        next.extend_from_slice(&ways[number])?;
        ways[number].clear();
    }
    Ok(flags)
}
