//! What each match of a tree takes: a literal, or a byte of a set.

ghost use Rattle.std.specs.Prelude.{◌≡◌, ◌⊎◌, [], Bool, None, Some, IfOk, IfSome, IsTrue, false, map, string_bytes};
ghost use Rattle.memchr.specs.Find.{FindsNeedle};
ghost use Rattle.fancy_meaning.specs.Tree.{Literal};
ghost use Rattle.fancy_expr.specs.Views.{tree_of};
ghost use Rattle.fancy_literals.specs.Required.{IsRequiredOf, required_of};
ghost use Rattle.fancy_literals.specs.Takes.{IsTaken, Takes};

use crate::byte_set::ByteSet;
use crate::bytes::bytes_of;
use fancy_expr::expr::{Expr, LookAround};
use memchr::arch::all::packedpair::Pair;
use memchr::{memchr, memmem};
use std::alloc::{AllocError, Global};
use std::mem;

/// What a text has to have, so that it may have a match.
#[derive(Drop)]
pub enum Required {
    /// This literal, in UTF-8.
    Literal(Vec<u8>),
    /// One byte of a set.
    OneOf(ByteSet),
}

impl Required {
    ghost use Rattle.fancy_literals.specs.Required.{LacksFrom, required_of};

    /// Whether it stands nowhere in the text from this byte on. It takes time in the length of what is left of the
    /// text; `from` may be past its end.
    pub fn is_missing(&self, text: &str, from: usize) -> bool
        ensures { IsTrue result → LacksFrom (required_of self.now) text.now from }
    {
        let bytes = text.as_bytes();
        let rest = &bytes[from.min(bytes.len())..];
        match self {
            Required::Literal(literal) => lacks_literal(rest, literal),
            Required::OneOf(set) => set.is_missing(rest),
        }
    }
}

/// Whether the text lacks the literal. Its rarest byte is looked for first, since a search for one byte takes the least.
fn lacks_literal(text: &[u8], literal: &[u8]) -> bool
    ensures { IsTrue result → FindsNeedle text.now literal.now 0 None }
{
    if let Some(pair) = Pair::new(literal) {
        if memchr(literal[pair.index1() as usize], text).is_none() {
            return true;
        }
    }
    memmem::find(text, literal).is_none()
}

/// What each match of the tree, compiled with this option `unicode`, takes: the longest literal that is known, or else
/// the fewest bytes; none where nothing is known.
///
/// A text without it from the byte on where a search begins has no match there. What look-aheads ask for counts too. If
/// `behind` holds, what look-behinds ask for does as well, which may stand before that byte: then the whole text has to
/// be without it. The only error is out of memory.
pub fn required_by(
    alloc: Global,
    expr: &Expr,
    unicode: bool,
    behind: bool,
) -> Result<Option<Required>, AllocError>
    ensures { IfOk result (λ found. IfSome found (λ r.
        IsRequiredOf (required_of r) behind unicode (tree_of expr.now))) }
{
    if let Some(literal) = taken_by(alloc, expr, behind)? {
        return Ok(Some(Required::Literal(literal.into_bytes())));
    }
    match bytes_of(alloc, expr, unicode, behind)? {
        Some(bytes) => Ok(Some(Required::OneOf(ByteSet::new(bytes)))),
        None => Ok(None),
    }
}

/// A literal that each way of the node takes. What look-behinds take counts only if `behind` says so.
#[cycle(taken)]
fn taken_by(alloc: Global, expr: &Expr, behind: bool) -> Result<Option<String>, AllocError>
    ensures { IfOk result (λ found. IfSome found (λ literal.
        Takes behind (string_bytes literal) (tree_of expr.now))) }
{
    match expr {
        Expr::Concat(parts) => taken_by_parts(alloc, parts, behind),
        Expr::Group(body) => taken_by(alloc, body, behind),
        Expr::AtomicGroup(body) => taken_by(alloc, body, behind),
        Expr::Repeat { child, lo, .. } => {
            if *lo > 0 {
                taken_by(alloc, child, behind)
            } else {
                Ok(None)
            }
        }
        Expr::LookAround(body, look) => match look {
            LookAround::LookAhead => taken_by(alloc, body, behind),
            LookAround::LookBehind if behind => taken_by(alloc, body, behind),
            _ => Ok(None),
        },
        _ => taken_by_itself(alloc, expr),
    }
}

/// A literal that each way of the nodes takes, one after the other: the longest of literals in a row, and of what each
/// node takes.
#[cycle(taken)]
fn taken_by_parts(alloc: Global, parts: &[Expr], behind: bool) -> Result<Option<String>, AllocError>
    ensures { IfOk result (λ found. IfSome found (λ literal.
        IsTaken behind (string_bytes literal) (map tree_of parts.now))) }
{
    let mut literals = Literals::new(alloc);
    for part in parts {
        match character_of(part) {
            Some(character) => literals.push(character)?,
            None => literals.end_row(alloc, taken_by(alloc, part, behind)?),
        }
    }
    Ok(literals.longest())
}

/// What neighbours take, as far as they were read.
#[derive(Drop)]
struct Literals {
    /// The longest literal that they take, if one is known.
    longest: Option<String>,
    /// The literals in a row at the end.
    row: String,
}

impl Literals {
    ghost use Rattle.std.specs.Prelude.{◌++◌, ◌∷◌, [], Bool, List};
    ghost use Rattle.fancy_meaning.specs.Tree.{Tree};
    ghost use Rattle.fancy_literals.specs.Takes.{AreRead, Takes, literal};

    fn new(alloc: Global) -> Literals
        ensures { (behind : Bool) → AreRead behind result [] }
    {
        Literals {
            longest: None,
            row: String::new(alloc),
        }
    }

    /// Reads a literal.
    fn push(&mut self, character: char) -> Result<(), AllocError>
        ensures { (behind : Bool) (es : List Tree)
            → AreRead behind self.old es
            → IfOk result (λ u. AreRead behind self.new (es ++ literal character ∷ [])) }
    {
        self.row.push(character)
    }

    /// Reads a node that takes this literal, if one is known.
    fn end_row(&mut self, alloc: Global, taken: Option<String>)
        ensures { (behind : Bool) (es : List Tree) (e : Tree)
            → AreRead behind self.old es
            → IfSome taken (λ s. Takes behind (string_bytes s) e)
            → AreRead behind self.new (es ++ e ∷ []) }
    {
        let row = mem::replace(&mut self.row, String::new(alloc));
        let longest = longer(self.longest.take(), row);
        self.longest = longer_of_both(longest, taken);
    }

    /// The longest literal that the nodes take, if one is known.
    fn longest(self) -> Option<String>
        ensures { (behind : Bool) (es : List Tree)
            → AreRead behind self es
            → IfSome result (λ literal. IsTaken behind (string_bytes literal) es) }
    {
        longer(self.longest, self.row)
    }
}

/// The node's character, where it is a literal that is not folded.
pub(crate) fn character_of(expr: &Expr) -> Option<char>
    ensures { IfSome result (λ c. tree_of expr.now ≡ Literal c false) }
{
    match expr {
        Expr::Literal { val, casei } => { if *casei { None } else { val.chars().next() } }
        _ => None,
    }
}

/// The node's character as a literal, where it is one.
fn taken_by_itself(alloc: Global, expr: &Expr) -> Result<Option<String>, AllocError>
    ensures { (behind : Bool)
        → IfOk result (λ found. IfSome found (λ literal.
        Takes behind (string_bytes literal) (tree_of expr.now))) }
{
    let Some(character) = character_of(expr) else {
        return Ok(None);
    };
    let mut literal = String::new(alloc);
    literal.push(character)?;
    Ok(Some(literal))
}

/// The longer one; the last among equals, since a search fails late that lacks it, and none if both are empty.
fn longer(longest: Option<String>, literal: String) -> Option<String>
    ensures { IfSome result (λ s. (longest ≡ Some s)
        ⊎ ((s ≡ literal) × (string_bytes literal ≡ [] → ⊥))) }
{
    match longest {
        Some(longest) if longest.len() > literal.len() => Some(longest),
        longest => if literal.is_empty() {
            longest
        } else {
            Some(literal)
        },
    }
}

/// The longer one of those that there are.
fn longer_of_both(longest: Option<String>, literal: Option<String>) -> Option<String>
    ensures { IfSome result (λ s. (longest ≡ Some s) ⊎ (literal ≡ Some s)) }
{
    match literal {
        Some(literal) => longer(longest, literal),
        None => longest,
    }
}
