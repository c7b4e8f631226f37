//! Where a match of a tree may begin: before and after which bytes, and where an assertion holds.

ghost use Rattle.std.specs.Prelude.{◌≡◌, ◌<◌, ◌≤◌, Bool, IfOk, IfSome, None, false, length, replicate, true};
ghost use Rattle.fancy_meaning.specs.Tree as plain;
ghost use Rattle.fancy_expr.specs.Views.{assertion_of, tree_of};
ghost use Rattle.fancy_literals.specs.Befores.{IsBefore};
ghost use Rattle.fancy_literals.specs.Opens.{Opens};
ghost use Rattle.fancy_literals.specs.Starts.{AreStartsOf, IsGuarded, IsNextStart, allows, is_preceded, may_begin};

use crate::before::{Before, before_of};
use crate::byte_set::ByteSet;
use crate::bytes::are_rare;
use crate::firsts::{Opening, add_first};
use crate::literal::add_literal;
use fancy_characters::look::holds;
use fancy_expr::expr::{Assertion, Expr};
use memchr::memmem;
use std::alloc::{AllocError, Global};

/// What is known of the places where the matches of a tree begin.
pub struct Starts {
    /// The bytes with which they begin.
    first: ByteSet,
    /// The literal with which they begin, as far as it is known.
    literal: String,
    /// The bytes that may be before them.
    before: ByteSet,
    /// Whether one may be at the beginning of the text.
    at_start: bool,
    /// Whether one may be at its end too. Nothing is known of the bytes with which they begin then.
    at_end: bool,
    /// What texts are searched for.
    search: Search,
    /// The assertion that holds at each of these places, if one is known that bytes do not say.
    guard: Option<Assertion>,
    /// Whether it goes by Unicode.
    unicode: bool,
}

/// What a text is searched for by vectors: the literal, or bytes that are few, and none of them frequent. If no byte may be
/// before a match, nothing has to be searched.
#[derive(Clone, Copy)]
enum Search {
    Literal,
    First,
    Before,
    Nothing,
}

impl Search {
    fn of(literal: &str, first: &ByteSet, before: &ByteSet) -> Search {
        if before.is_empty() {
            Search::Before
        } else if literal.len() > 1 {
            Search::Literal
        } else if first.is_few() && are_rare(&first.bytes) {
            Search::First
        } else if before.is_few() && are_rare(&before.bytes) {
            Search::Before
        } else {
            Search::Nothing
        }
    }
}

// Not derived: whoever owns one calls this drop, and would prove a derived one again (docs/GATE.md).
impl Drop for Starts {
    fn drop(self) {
        let Starts {
            first: _,
            literal: _,
            before: _,
            at_start: _,
            at_end: _,
            search: _,
            guard: _,
            unicode: _,
        } = self;
    }
}

impl Starts {
    /// Whether a match may begin at the end of a text too.
    pub fn are_at_end(&self) -> bool
        ensures { result ≡ self.now.at_end }
    {
        self.at_end
    }

    /// The first byte of the text, from byte `from` on, at which a match may begin; `None` if there is no such byte. It takes
    /// time in the number of bytes that it passes.
    pub fn next(&self, text: &str, from: usize) -> Option<usize>
        ensures { IsNextStart self.now text.now from result }
    {
        match self.search {
            Search::Literal => self.next_literal(text, from),
            Search::First => self.next_sought(text, from),
            Search::Before => self.next_preceded(text, from),
            Search::Nothing => self.next_by_byte(text, from),
        }
    }

    /// As `next`, by searches for the literal.
    fn next_literal(&self, text: &str, from: usize) -> Option<usize>
        ensures { IsNextStart self.now text.now from result }
    {
        let bytes = text.as_bytes();
        let mut at = from;
        'seek: while at < bytes.len() {
            let found = at + memmem::find(&bytes[at..], self.literal.as_bytes())?;
            if found == bytes.len() {
                return None;
            }
            if self.passes(text, found) {
                return Some(found);
            }
            at = found + 1;
        }
        None
    }

    /// As `next`, by searches for the bytes with which matches begin.
    fn next_sought(&self, text: &str, from: usize) -> Option<usize>
        ensures { IsNextStart self.now text.now from result }
    {
        let bytes = text.as_bytes();
        let mut at = from;
        'seek: while at < bytes.len() {
            let found = at + self.first.find(&bytes[at..])?;
            if self.passes(text, found) {
                return Some(found);
            }
            at = found + 1;
        }
        None
    }

    /// As `next`, by searches for the bytes before.
    fn next_preceded(&self, text: &str, from: usize) -> Option<usize>
        ensures { IsNextStart self.now text.now from result }
    {
        let bytes = text.as_bytes();
        let mut at = from;
        'seek: while at < bytes.len() {
            if self.passes(text, at) {
                return Some(at);
            }
            at += self.before.find(&bytes[at..])? + 1;
        }
        None
    }

    /// As `next`, byte by byte.
    fn next_by_byte(&self, text: &str, from: usize) -> Option<usize>
        ensures { IsNextStart self.now text.now from result }
    {
        let bytes = text.as_bytes();
        if from > bytes.len() {
            return None;
        }
        let mut is_preceded = self.is_preceded(bytes, from);
        'bytes: for at in from..bytes.len() {
            let byte = bytes[at] as usize;
            if is_preceded & self.first.bytes[byte] && self.allows(text, at) {
                return Some(at);
            }
            is_preceded = self.before.bytes[byte];
        }
        None
    }

    /// A match may begin at this byte, as far as single bytes and the assertion tell.
    #[inline(always)]
    fn passes(&self, text: &str, at: usize) -> bool
        requires { at < length text.now }
        ensures { may_begin self.now text.now at ≡ true → result ≡ true }
    {
        let bytes = text.as_bytes();
        self.first.bytes[bytes[at] as usize] && self.is_preceded(bytes, at) && self.allows(text, at)
    }

    /// The byte before this one may be there, or the text may begin here.
    #[inline(always)]
    fn is_preceded(&self, text: &[u8], at: usize) -> bool
        requires { at ≤ length text.now }
        ensures { result ≡ is_preceded self.now text.now at }
    {
        if at == 0 {
            self.at_start
        } else {
            self.before.bytes[text[at - 1] as usize]
        }
    }

    /// The assertion holds at this byte.
    #[inline(always)]
    fn allows(&self, text: &str, at: usize) -> bool
        ensures { result ≡ allows self.now.unicode self.now.guard text.now at }
    {
        match self.guard {
            None => true,
            Some(assertion) => holds(assertion, self.unicode, text, at),
        }
    }
}

/// Where matches of the tree, compiled with this option `unicode`, may begin; `None` if that is not known.
pub fn starts_by(alloc: Global, expr: &Expr, unicode: bool) -> Result<Option<Starts>, AllocError>
    ensures { IfOk result (λ found. IfSome found (λ starts.
        AreStartsOf starts unicode (tree_of expr.now))) }
{
    let mut bytes = [false; 256];
    let opening = add_first(alloc, expr, unicode, &mut bytes)?;
    let before = before_of(alloc, expr, unicode, false)?;
    match (opening, before) {
        (Opening::Begins, Some(before)) => {
            let starts = starts_of(alloc, expr, unicode, bytes, before, false)?;
            Ok(Some(starts))
        }
        (Opening::Begins, None) => {
            let starts = starts_of(alloc, expr, unicode, bytes, Before::anything(), false)?;
            Ok(Some(starts))
        }
        (_, Some(before)) => {
            let starts = starts_of(alloc, expr, unicode, [true; 256], before, true)?;
            Ok(Some(starts))
        }
        (_, None) => Ok(None),
    }
}

/// Where matches of the tree begin: with one of these bytes and behind one of these. If they may be at the end of a text,
/// all bytes are among the first.
fn starts_of(
    alloc: Global,
    expr: &Expr,
    unicode: bool,
    bytes: [bool; 256],
    before: Before,
    at_end: bool,
) -> Result<Starts, AllocError>
    requires opens { at_end ≡ false → Opens unicode false bytes (tree_of expr.now) }
    requires all { at_end ≡ true → bytes ≡ replicate 256 true }
    requires preceded { IsBefore unicode false before (tree_of expr.now) }
    ensures { IfOk result (λ starts. AreStartsOf starts unicode (tree_of expr.now)) }
{
    let mut literal = String::new(alloc);
    add_literal(expr, &mut literal)?;
    let first = ByteSet::new(bytes);
    let before_set = ByteSet::new(before.bytes);
    Ok(Starts {
        search: Search::of(&literal, &first, &before_set),
        first,
        literal,
        before: before_set,
        at_start: before.at_start,
        at_end,
        guard: guard_of(expr),
        unicode,
    })
}

/// The assertion with which each way of the node begins, if it begins with one.
fn guard_of(expr: &Expr) -> Option<Assertion>
    ensures { (unicode : Bool) → IsGuarded unicode result (tree_of expr.now) }
{
    match expr {
        Expr::Concat(parts) => match parts.as_slice() {
            [first, ..] => guard_of(first),
            _ => None,
        },
        Expr::Group(body) => guard_of(body),
        Expr::AtomicGroup(body) => guard_of(body),
        Expr::Assertion(assertion) => guard_by(*assertion),
        _ => None,
    }
}

/// The assertion, unless the byte before its place says almost as much.
fn guard_by(assertion: Assertion) -> Option<Assertion>
    ensures { (unicode : Bool) → IsGuarded unicode result
        (plain.Assert plain.NoLook (assertion_of assertion)) }
{
    match assertion {
        Assertion::StartText => None,
        Assertion::StartLine { .. } => None,
        Assertion::StartLineOniguruma { .. } => None,
        assertion => Some(assertion),
    }
}
