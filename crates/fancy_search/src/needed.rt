//! What each match of a tree takes, so that a text without it is not searched.

ghost use Rattle.std.specs.Prelude.{◌≡◌, IfOk, IfSome, IsTrue};
ghost use Rattle.fancy_expr.specs.Views.{tree_of};
ghost use Rattle.fancy_literals.specs.Required.{LacksFrom, required_of};
ghost use Rattle.fancy_search.specs.Needs.{IsNeededBy};

use fancy_expr::expr::Expr;
use fancy_literals::required::{Required, required_by};
use std::alloc::{AllocError, Global};

/// What each match of a tree takes.
pub struct Needed {
    pub(crate) required: Required,
    /// It may stand before the byte at which a search begins.
    pub(crate) is_behind: bool,
}

// Not derived: whoever owns one calls this drop, and would prove a derived one again (docs/GATE.md).
impl Drop for Needed {
    fn drop(self) {
        let Needed {
            required: _,
            is_behind: _,
        } = self;
    }
}

impl Needed {
    ghost use Rattle.fancy_literals.specs.Required.{taken_from};
    ghost use Rattle.fancy_meaning.specs.Options.{RunOptions};

    /// Whether a search of the text from this byte on finds no match, since the text lacks it. What may stand before is looked
    /// for if that is the first byte.
    pub(crate) fn is_missing(&self, text: &str, pos: usize) -> bool
        ensures { IsTrue result → (o : RunOptions) → o.pos ≡ pos
            → LacksFrom (required_of self.now.required) text.now (taken_from self.now.is_behind o) }
    {
        if self.is_behind && pos > 0 {
            return false;
        }
        self.required.is_missing(text, pos)
    }
}

/// Whether texts are searched for it by vectors.
fn is_soon_found(required: &Required) -> bool {
    match required {
        Required::Literal(_) => true,
        Required::OneOf(set) => set.is_few(),
    }
}

/// What each match of the tree, compiled with this option `unicode`, takes, if it is known and soon found: with `behind` also
/// what may stand before a search begins.
fn needed_by_side(
    alloc: Global,
    expr: &Expr,
    unicode: bool,
    behind: bool,
) -> Result<Option<Needed>, AllocError>
    ensures { IfOk result (λ found. IfSome found (IsNeededBy unicode (tree_of expr.now))) }
{
    let Some(required) = required_by(alloc, expr, unicode, behind)? else {
        return Ok(None);
    };
    if !is_soon_found(&required) {
        return Ok(None);
    }
    Ok(Some(Needed {
        required,
        is_behind: behind,
    }))
}

/// What each match of the tree takes, if it is known: at best what does not stand before a search begins. In a tree that is
/// not hard no match takes something by a look-behind.
pub(crate) fn needed_by(
    alloc: Global,
    expr: &Expr,
    unicode: bool,
    is_hard: bool,
) -> Result<Option<Needed>, AllocError>
    ensures { IfOk result (λ found. IfSome found (IsNeededBy unicode (tree_of expr.now))) }
{
    match needed_by_side(alloc, expr, unicode, false)? {
        None if is_hard => needed_by_side(alloc, expr, unicode, true),
        needed => Ok(needed),
    }
}
