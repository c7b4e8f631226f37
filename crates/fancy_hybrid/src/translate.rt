//! Common trees as patterns of the kit.

ghost use Rattle.std.specs.Prelude.{◌≡◌, ◌+◌, ℕ, None, IfOk, IfSome, IsTrue, map};
ghost use Rattle.regex_hir.specs.Meaning.{meaning};
ghost use Rattle.regex_hir.specs.Reads.{always_reads};
ghost use Rattle.regex_hir.specs.declared.hir.Hir.TheVariants as hirs;
ghost use Rattle.fancy_meaning.specs.Tree.{Any, Assert, Delegate, Group, Literal, NoLook, Repeat, Tree};
ghost use Rattle.fancy_expr.specs.Exprs.{below};
ghost use Rattle.fancy_expr.specs.Views.{assertion_of, bound_of, tree_of};

use crate::looks::look_of;
use crate::ranges::{of_any, of_literal};
use fancy_characters::classes::class_ranges;
use fancy_expr::expr::{Assertion, Expr};
use fancy_expr::parts::{part, part_count};
use fancy_expr::text::first_char;
use regex_class::Class;
use regex_hir::Hir;
use std::alloc::{AllocError, Global};

/// How trees are translated.
#[derive(Clone, Copy)]
pub struct Translator {
    pub alloc: Global,
    /// The option with which classes, folding and words are read.
    pub unicode: bool,
}

/// A pattern with the number of the first group after it.
#[derive(Drop)]
pub struct Translated {
    pub hir: Hir,
    pub next: u32,
}

/// Patterns of nodes that stand next to each other, with the number of the first group after them.
#[derive(Drop)]
struct Parts {
    hirs: Vec<Hir>,
    next: u32,
}

impl Translator {
    ghost use Rattle.fancy_hybrid.specs.Translations.{AreTranslated, IsTranslated};

    /// The pattern that takes the first ways of the node with all its groups, whose first has this number. There is none if
    /// the node is hard, or not known to be common.
    #[cycle(translate)]
    pub fn node(self, first: u32, expr: &Expr) -> Result<Option<Translated>, AllocError>
        ensures { IfOk result (λ found. IfSome found
            (IsTranslated self.unicode first (tree_of expr.now))) }
    {
        match expr {
            Expr::Empty => Ok(Some(Translated {
                hir: Hir::Empty,
                next: first,
            })),
            Expr::Assertion(assertion) => Ok(self.assertion(first, *assertion)),
            Expr::Any { newline, crlf } => Ok(Some(self.any(first, *newline, *crlf)?)),
            Expr::Literal { val, casei } => {
                Ok(Some(self.literal(first, first_char(val.as_str()), *casei)?))
            }
            Expr::Delegate { inner, casei } => self.class(first, inner.as_str(), *casei),
            Expr::Concat(_) => match self.each_below(first, expr)? {
                Some(parts) => Ok(Some(Translated {
                    hir: Hir::Concat(parts.hirs),
                    next: parts.next,
                })),
                None => Ok(None),
            },
            Expr::Alt(_) => match self.each_below(first, expr)? {
                Some(parts) => Ok(Some(Translated {
                    hir: Hir::Alternation(parts.hirs),
                    next: parts.next,
                })),
                None => Ok(None),
            },
            Expr::Group(body) => match first.checked_add(1) {
                Some(inside) => match self.node(inside, body)? {
                    Some(sub) => Ok(Some(self.group(first, sub)?)),
                    None => Ok(None),
                },
                None => Ok(None),
            },
            Expr::Repeat {
                child,
                lo,
                hi,
                greedy,
            } => match self.node(first, child)? {
                Some(sub) => self.repetition(sub, *lo, *hi, *greedy),
                None => Ok(None),
            },
            _ => Ok(None),
        }
    }

    /// A pattern for each child of the node.
    #[cycle(translate)]
    fn each_below(self, first: u32, expr: &Expr) -> Result<Option<Parts>, AllocError>
        ensures { IfOk result (λ found. IfSome found
            (AreTranslated self.unicode first (map tree_of (below expr.now)))) }
    {
        let mut parts = Parts {
            hirs: Vec::new(self.alloc),
            next: first,
        };
        for i in 0..part_count(expr) {
            let Some(one) = self.node(parts.next, part(expr, i))? else {
                return Ok(None);
            };
            let Translated { hir, next } = one;
            parts.hirs.push(hir)?;
            parts.next = next;
        }
        Ok(Some(parts))
    }

    fn assertion(self, first: u32, assertion: Assertion) -> Option<Translated>
        ensures { IfSome result
            (IsTranslated self.unicode first (Assert NoLook (assertion_of assertion))) }
    {
        let look = look_of(assertion, self.unicode)?;
        Some(Translated {
            hir: Hir::Look(look),
            next: first,
        })
    }

    fn any(self, first: u32, newline: bool, crlf: bool) -> Result<Translated, AllocError>
        ensures { IfOk result (IsTranslated self.unicode first (Any newline crlf)) }
    {
        Ok(chars(first, of_any(self.alloc, newline, crlf)?))
    }

    fn literal(self, first: u32, c: char, casei: bool) -> Result<Translated, AllocError>
        ensures { IfOk result (IsTranslated self.unicode first (Literal c casei)) }
    {
        Ok(chars(first, of_literal(self.alloc, c, casei, self.unicode)?))
    }

    fn class(self, first: u32, name: &str, casei: bool) -> Result<Option<Translated>, AllocError>
        ensures { IfOk result (λ found. IfSome found
            (IsTranslated self.unicode first (Delegate name.now casei))) }
    {
        match class_ranges(self.alloc, name, casei, self.unicode)? {
            Some(class) => Ok(Some(chars(first, class))),
            None => Ok(None),
        }
    }

    /// The group with this number around a pattern.
    fn group(self, number: u32, sub: Translated) -> Result<Translated, AllocError>
        ensures { IfOk result (λ it. (e : Tree) → IsTranslated self.unicode (number + 1) e sub
            → IsTranslated self.unicode number (Group 0 e) it) }
    {
        let Translated { hir, next } = sub;
        Ok(Translated {
            hir: Hir::Capture {
                index: number,
                sub: Box::new(self.alloc, hir)?,
            },
            next,
        })
    }

    /// The loop over a pattern. There is none if it has no bound and an iteration may match the empty string.
    fn repetition(
        self,
        sub: Translated,
        lo: usize,
        hi: usize,
        greedy: bool,
    ) -> Result<Option<Translated>, AllocError>
        ensures { IfOk result (λ found. IfSome found (λ it. (first : ℕ) (e : Tree)
            → IsTranslated self.unicode first e sub
            → IsTranslated self.unicode first (Repeat lo (bound_of hi) greedy e) it)) }
    {
        let Translated { hir, next } = sub;
        let Some((min, max)) = counts_of(lo, hi) else {
            return Ok(None);
        };
        if !ends(max, &hir) {
            return Ok(None);
        }
        Ok(Some(Translated {
            hir: Hir::Repetition {
                min,
                max,
                greedy,
                sub: Box::new(self.alloc, hir)?,
            },
            next,
        }))
    }
}

/// The counts of a loop as the kit has them, if they fit.
fn counts_of(lo: usize, hi: usize) -> Option<(u32, Option<u32>)>
    ensures { IfSome result (λ counts. (counts.0 ≡ lo) × (counts.1 ≡ bound_of hi)) }
{
    if lo > u32::MAX as usize {
        return None;
    }
    if hi == usize::MAX {
        return Some((lo as u32, None));
    }
    if hi > u32::MAX as usize {
        return None;
    }
    Some((lo as u32, Some(hi as u32)))
}

/// The loop has a bound, or each iteration over its body reads something.
fn ends(max: Option<u32>, body: &Hir) -> bool
    ensures { IsTrue result → max ≡ None → IsTrue (always_reads (meaning body.now)) }
{
    max.is_some() || body.min_len() > 0
}

/// The characters of a set.
fn chars(first: u32, class: Class) -> Translated
    ensures hir { result.hir ≡ hirs.Chars class }
    ensures next { result.next ≡ first }
{
    Translated {
        hir: Hir::Chars(class),
        next: first,
    }
}
