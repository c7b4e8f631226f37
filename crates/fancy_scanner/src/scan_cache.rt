//! What a scan keeps of the searches for its trees.

ghost use Rattle.std.specs.Prelude.{◌≡◌, []};
ghost use Rattle.std.specs.Option.{option_copied};
ghost use Rattle.fancy_scanner.specs.Kept.{kept_captures};
ghost use Rattle.fancy_scanner.specs.Scans.{answers_in};

use crate::answers::Answer;
use fancy_matches::found::Captures;
use std::alloc::Global;

/// What a scan of one text keeps of each tree: the result of its last search, and the position where that began. It
/// serves that text and that scanner alone.
pub struct ScanCache<'t> {
    pub(crate) answers: Vec<Option<Answer<'t>>>,
}

// Not derived: whoever owns one calls this drop, and would prove a derived one again (docs/GATE.md).
impl Drop for ScanCache<'_> {
    fn drop(self) {
        let ScanCache { answers: _ } = self;
    }
}

impl<'t> ScanCache<'t> {
    /// An empty cache. It allocates nothing.
    pub fn new(alloc: Global) -> ScanCache<'t>
        ensures { answers_in result ≡ [] }
    {
        ScanCache {
            answers: Vec::new(alloc),
        }
    }

    /// The last match that was found of the tree with this index, with its groups. `None` if the tree was not searched
    /// for, or if its last search found none.
    pub fn captures(&self, index: usize) -> Option<&Captures<'t>>
        ensures { option_copied result ≡ kept_captures (answers_in self.now) index }
    {
        match self.answers.get(index) {
            Some(Some(answer)) => answer.found.as_ref(),
            _ => None,
        }
    }
}
