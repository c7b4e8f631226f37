//! Which targets can end: a set that grows by rounds until one adds none.

ghost use Rattle.std.specs.Prelude.{◌≡◌, ◌&&◌, ◌||◌, ◌↔◌, ◌<◌, ◌≤◌, ℕ, IfOk, IfSome, IsTrue, MatchOption, false, length, nat_lt, slice_index_or, true};
ghost use Rattle.fancy_meaning.specs.Recursion.{CanEnd};
ghost use Rattle.fancy_meaning.specs.Sizes.{Known};
ghost use Rattle.fancy_meaning.specs.Tree as plain;
ghost use Rattle.fancy_analysis.specs.Endings.{IsRootOf, before_parts, ending_rounds, ends_by, flag_count, group_ends, is_own_end, node_ends, target_ends, with_part};
ghost use Rattle.fancy_analysis.specs.Made.{IsSized};
ghost use Rattle.fancy_info.specs.Infos.{info_tree};
ghost use Rattle.fancy_info.specs.declared.info.Info.TheViews.{out-Info};

use crate::reads::no_flags;
use fancy_expr::expr::Expr;
use fancy_info::info::Info;
use std::alloc::{AllocError, Global};

/// How the parts of a node end, before the first one.
fn before_parts(expr: &Expr) -> bool
    ensures { result ≡ before_parts expr.now }
{
    match expr {
        Expr::Alt(_) => false,
        _ => true,
    }
}

/// The same with one part more. The third part of a conditional ends instead of the others.
fn with_part(expr: &Expr, part: usize, so_far: bool, ends: bool) -> bool
    ensures { result ≡ with_part expr.now part so_far ends }
{
    match expr {
        Expr::Alt(_) => so_far || ends,
        Expr::Conditional { .. } if part == 2 => so_far || ends,
        _ => so_far && ends,
    }
}

/// Whether a call of the target ends. A number without a flag is no target.
fn call_ends(flags: &[bool], group: usize) -> bool
    ensures { result ≡ slice_index_or flags.now group true }
{
    match flags.get(group) {
        Some(flag) => *flag,
        None => true,
    }
}

/// Whether a node ends, by how its parts do.
fn node_ends(flags: &[bool], expr: &Expr, parts: bool) -> bool
    ensures { result ≡ node_ends flags.now expr.now parts }
{
    match expr {
        Expr::Repeat { lo, .. } => *lo == 0 || parts,
        Expr::SubroutineCall(group) => call_ends(flags, *group),
        _ => parts,
    }
}

/// Sets the flag of a node that is a group and ends.
fn set_flag(expr: &Expr, group: usize, ends: bool, flags: &mut [bool])
    ensures length { length flags.new ≡ length flags.old }
    ensures flags { (g : ℕ)
        → slice_index_or flags.new g false
        ≡ (slice_index_or flags.old g false ||
        (nat_lt g (length flags.old) && is_own_end expr.now group ends g)) }
{
    match expr {
        Expr::Group(_) => {
            if ends && group < flags.len() {
                flags[group] = true;
            }
        }
        _ => {}
    }
}

/// Whether a node ends by the flags, and the flags of its groups that do.
fn find_ends(flags: &[bool], info: &Info, next: &mut [bool]) -> bool
    ensures length { length next.new ≡ length next.old }
    ensures ends { (known : Known) → IsSized known info.now →
        result ≡ ends_by flags.now (info_tree info.now) }
    ensures next { (known : Known)
        → IsSized known info.now
        → (g : ℕ)
        → slice_index_or next.new g false
        ≡ (slice_index_or next.old g false ||
        (nat_lt g (length next.old) && group_ends flags.now (info_tree info.now) g)) }
{
    let mut parts = before_parts(info.expr);
    for (i, child) in info.children.iter().enumerate() {
        let ends = find_ends(flags, child, next);
        parts = with_part(info.expr, i, parts, ends);
    }
    let ends = node_ends(flags, info.expr, parts);
    set_flag(info.expr, info.start_group, ends, next);
    ends
}

/// Sets the flags of the targets that end by the flags. Those that are set before stay so.
fn set_ends(root: &Info, flags: &[bool], next: &mut [bool])
    requires same { next.now ≡ flags.now }
    requires some { 0 < length flags.now }
    ensures length { length next.new ≡ length flags.now }
    ensures flags { (known : Known)
        → IsSized known root.now
        → (g : ℕ)
        → slice_index_or next.new g false
        ≡ (slice_index_or flags.now g false ||
        (nat_lt g (length flags.now) && target_ends flags.now (info_tree root.now) g)) }
{
    let ends = find_ends(flags, root, next);
    let whole = flags[0] || ends;
    next[0] = whole;
}

fn next_flags(alloc: Global, root: &Info, flags: &[bool]) -> Result<Vec<bool>, AllocError>
    requires { 0 < length flags.now }
    ensures length { IfOk result (λ v. length v.items ≡ length flags.now) }
    ensures flags { (known : Known)
        → IsSized known root.now
        → IfOk
        result
        (λ v. (g : ℕ)
        → slice_index_or v.items g false
        ≡ (slice_index_or flags.now g false ||
        (nat_lt g (length flags.now) && target_ends flags.now (info_tree root.now) g))) }
{
    let mut next = Vec::new(alloc);
    next.extend_from_slice(flags)?;
    set_ends(root, flags, &mut next);
    Ok(next)
}

/// Whether the whole tree can end, given its root. `None` if more than `most` rounds find a target that can end: then no
/// round is made behind the one that exceeds it.
pub fn ends_within(alloc: Global, root: &Info, most: usize) -> Result<Option<bool>, AllocError>
    ensures ends { (whole : plain.Tree) → IsRootOf whole root.now →
        IfOk result (λ found. IfSome found (λ ends. IsTrue ends ↔ CanEnd whole whole)) }
    ensures rounds { (whole : plain.Tree) → IsRootOf whole root.now →
        IfOk result (λ found. MatchOption
        found
        (most < ending_rounds whole (flag_count root.now))
        (λ _. ending_rounds whole (flag_count root.now) ≤ most)) }
{
    let count = root.end_group.max(1);
    let mut flags = no_flags(alloc, count)?;
    for round in 0..count {
        let next = next_flags(alloc, root, &flags)?;
        if next == flags {
            return Ok(Some(flags[0]));
        }
        if round >= most {
            return Ok(None);
        }
        flags = next;
    }
    Ok(Some(flags[0]))
}

/// Whether the whole tree can end, given its root.
pub fn can_end(alloc: Global, root: &Info) -> Result<bool, AllocError>
    ensures { (whole : plain.Tree) → IsRootOf whole root.now →
        IfOk result (λ ends. IsTrue ends ↔ CanEnd whole whole) }
{
    match ends_within(alloc, root, root.end_group.max(1))? {
        Some(ends) => Ok(ends),
        // There are no more rounds than flags.
        None => Ok(false),
    }
}
