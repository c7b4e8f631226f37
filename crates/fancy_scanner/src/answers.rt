//! What is kept of a search for a tree.

ghost use Rattle.std.specs.Prelude.{◌≡◌};
ghost use Rattle.fancy_scanner.specs.Kept.{answer_start};
ghost use Rattle.fancy_scanner.specs.Reuse.{holds_at};

use crate::reuse::Reuse;
use fancy_matches::found::Captures;

/// The answer of a search for a tree, with the place from which the tree was searched for.
#[derive(Drop)]
pub(crate) struct Answer<'t> {
    pub(crate) from: usize,
    pub(crate) found: Option<Captures<'t>>,
}

impl Answer<'_> {
    /// Where the match begins, in bytes of the text.
    fn start(&self) -> Option<usize>
        ensures { result ≡ answer_start self.now }
    {
        match &self.found {
            None => None,
            Some(captures) => Some(captures.whole().start()),
        }
    }

    /// A search from this place on has the same answer.
    pub(crate) fn holds_at(&self, pos: usize, reuse: Reuse) -> bool
        ensures { result ≡ holds_at reuse self.now.from (answer_start self.now) pos }
    {
        self.from == pos || (self.from < pos && reuse.lasts_to(self.start(), pos))
    }
}
