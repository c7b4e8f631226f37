//! Searches for common trees by their engines.

ghost use Rattle.std.specs.Prelude.{◌≡◌, ◌≤◌, Bool, IfOk, length};
ghost use Rattle.fancy_meaning.specs.Answer.{Search, answer};
ghost use Rattle.fancy_meaning.specs.Tree.{Tree};
ghost use Rattle.fancy_hybrid.specs.Patterns.{IsEngineOf, IsSearchFor, told};

use crate::engine::Engine;
use crate::numbers::write_numbers;
use std::alloc::AllocError;

/// Why a search found nothing out.
#[derive(Clone, Copy, Debug, PartialEq, Eq)]
pub enum Stop {
    /// The tables of the DFA became too large to be of use.
    GaveUp,
    /// Out of memory.
    Memory,
}

impl From<AllocError> for Stop {
    fn from(_: AllocError) -> Stop {
        Stop::Memory
    }
}

/// Searches the text from `pos` on for the engine's tree. Returns whether there is a match, and writes its numbers over
/// these: start and end of each group from 0 up, in bytes, with `usize::MAX` for a group that is not set.
pub fn search_into(
    engine: &mut Engine,
    text: &str,
    pos: usize,
    numbers: &mut Vec<usize>,
) -> Result<bool, Stop>
    requires { pos ≤ length text.now }
    ensures answers { (q : Search) (e : Tree) → IsSearchFor e text.now pos q
        → IsEngineOf q.unicode e engine.old
        → IfOk result (λ found. answer q ≡ told found numbers.new.items) }
    ensures engine { (u : Bool) (e : Tree)
        → IsEngineOf u e engine.old → IsEngineOf u e engine.new }
{
    let Ok(found) = engine.find(text, pos) else {
        return Err(Stop::GaveUp);
    };
    let Some((from, end)) = found else {
        return Ok(false);
    };
    let Ok(()) = engine.find_groups(text, from, end) else {
        return Err(Stop::GaveUp);
    };
    write_numbers(from, end, engine.cells(), numbers)?;
    Ok(true)
}
