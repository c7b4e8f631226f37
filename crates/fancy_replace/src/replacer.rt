//! What replaces a match.

ghost use Rattle.std.specs.Prelude.{ℕ, List, OnOk};
ghost use Rattle.fancy_replace.specs.Outputs.{Grows};

use crate::output::Output;
use fancy_matches::found::Captures;
use std::alloc::AllocError;

/// What replaces a match: a text ([`NoExpand`]), `Parts`, or a `Template`.
pub trait Replacer {
    ghost use Rattle.fancy_matches.specs.Matchers.{captures_text, numbers_in};

    // What it writes, by the text and the start and end of each group of the match.
    ghost replacement_text: { Self → List ℕ → List ℕ → List ℕ };

    /// Appends to `out` what replaces a match with these groups.
    ///
    /// # Errors
    ///
    /// `AllocError` if an allocation fails. A part of the replacement may then be there.
    fn replace_append<O: Output>(
        &self,
        captures: &Captures<'_>,
        out: &mut O,
    ) -> Result<(), AllocError>
        ensures { OnOk result (Grows
            O.holds out.old
            (replacement_text self.now (captures_text captures.now) (numbers_in captures.now))
            out.new) };
}

/// A text that is written as it is: a `$` in it has no meaning.
#[derive(Clone, Copy, Debug)]
pub struct NoExpand<'a>(pub &'a str);

impl<'a> Replacer for NoExpand<'a> {
    ghost replacement_text = { λ r text numbers. r.0.now };

    fn replace_append<O: Output>(
        &self,
        _captures: &Captures<'_>,
        out: &mut O,
    ) -> Result<(), AllocError> {
        out.append(self.0)
    }
}
