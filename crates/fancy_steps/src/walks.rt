//! What walks and comparisons cost, in visits.

ghost use Rattle.std.specs.Prelude.{◌≡◌, ◌/◌};

/// What walks and comparisons of a run cost counts once it is more than so many visits for each byte of the text.
pub(crate) const FREE_PASSES: usize = 16;

/// So many states and bytes that a walk passes cost about as much as a visit.
const PASSED_AT_ONCE: usize = 8;

/// How many visits it costs to pass so many states and bytes.
#[inline(always)]
pub fn passed(read: usize) -> usize
    ensures { result ≡ read / PASSED_AT_ONCE }
{
    read / PASSED_AT_ONCE
}
