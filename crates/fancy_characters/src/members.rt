//! The members of a class as ranges, read once from its pattern.

ghost use Rattle.std.specs.Prelude.{map, IfOk, IfErr, IfSome};
ghost use Rattle.regex.specs.Failures.{IsPattern};
ghost use Rattle.regex_hir.specs.Meaning.{meaning, alt_all};
ghost use Rattle.regex_hir.specs.Re as matched;
ghost use Rattle.regex_syntax.specs.Verdict.{default_config, Refuses};
ghost use Rattle.fancy_meaning.specs.Chars.{pattern_in};
ghost use Rattle.fancy_characters.specs.Members.{AreMembersOf, AreMembersIn, whole};

use crate::spelling::len_utf8;
use regex_class::Class;
use regex_hir::{Hir, Look};
use regex_nfa::char_at;
use regex_syntax::{Config, ErrorKind, parse};
use std::alloc::{AllocError, Global};

/// The characters that the pattern matches, if it is one set between the ends of the text.
pub(crate) fn members(alloc: Global, pattern: &str) -> Result<Option<Class>, ErrorKind>
    ensures members { IfOk result
        (λ found. IfSome found
        (λ class. AreMembersIn (pattern_in pattern.now) class.ranges.items)) }
    ensures is_pattern { IfOk result (λ _. IsPattern default_config pattern.now) }
    ensures refused { IfErr result (Refuses default_config pattern.now) }
{
    match parse(alloc, pattern, &Config::default()) {
        Ok(parsed) => match between_ends(alloc, parsed.hir) {
            Ok(found) => Ok(found),
            Err(_) => Err(ErrorKind::OutOfMemory),
        },
        Err(error) => Err(error.kind),
    }
}

/// The members of the set that stands between the start and the end of the text.
fn between_ends(alloc: Global, hir: Hir) -> Result<Option<Class>, AllocError>
    ensures { IfOk result
        (λ found. IfSome found (λ class. AreMembersOf (meaning hir) class.ranges.items)) }
{
    let Hir::Concat(parts) = hir else {
        return Ok(None);
    };
    let mut parts = parts.into_iter();
    match (parts.next(), parts.next(), parts.next(), parts.next()) {
        (Some(Hir::Look(Look::Start)), Some(set), Some(Hir::Look(Look::End)), None) => {
            set_members(alloc, set)
        }
        _ => Ok(None),
    }
}

/// The members of a set, of the set that a group stands around, or of any of several sets.
#[cycle(set_members)]
fn set_members(alloc: Global, set: Hir) -> Result<Option<Class>, AllocError>
    ensures { IfOk result
        (λ found. IfSome found
        (λ class. AreMembersOf (whole (meaning set)) class.ranges.items)) }
{
    match set {
        Hir::Chars(class) => Ok(Some(class)),
        Hir::Bytes(class) => Ok(byte_members(class)),
        Hir::Literal(bytes) => Ok(Some(spelled_member(alloc, &bytes)?)),
        Hir::Capture { sub, .. } => set_members(alloc, Box::into_inner(sub)),
        Hir::Alternation(sets) => members_of_any(alloc, sets),
        _ => Ok(None),
    }
}

/// The members of all the sets together, if each is one.
#[cycle(set_members)]
fn members_of_any(alloc: Global, sets: Vec<Hir>) -> Result<Option<Class>, AllocError>
    ensures { IfOk result
        (λ found. IfSome found
        (λ class. AreMembersOf (whole (alt_all (map meaning sets.items))) class.ranges.items)) }
{
    let mut ranges = Vec::new(alloc);
    'sets: for set in sets {
        match set_members(alloc, set)? {
            Some(members) => ranges.extend_from_slice(&members.ranges)?,
            None => return Ok(None),
        }
    }
    Ok(Some(Class::new(ranges)?))
}

/// The characters of one byte of the class, if it has no byte that is none.
fn byte_members(class: Class) -> Option<Class>
    ensures { IfSome result (λ members. AreMembersOf
        (whole (matched.byte_in class.ranges.items)) members.ranges.items) }
{
    if class.is_within(0x7F) {
        Some(class)
    } else {
        None
    }
}

/// The character that the bytes spell, if they spell one and no more.
fn spelled_member(alloc: Global, bytes: &[u8]) -> Result<Class, AllocError>
    ensures { IfOk result
        (λ class. AreMembersOf (whole (matched.literal bytes.now)) class.ranges.items) }
{
    match char_at(bytes, 0) {
        Some(c) if len_utf8(c) == bytes.len() => Class::from_ranges(alloc, &[(c, c)]),
        _ => Ok(Class::empty(alloc)),
    }
}
