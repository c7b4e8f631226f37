//! What the searches of the lines of a file may do together.

ghost use Rattle.std.specs.Prelude.{◌≡◌, ◌+◌, ◌-◌, ◌*◌, ◌==◌, min};

/// What is allowed for a file of no byte.
const LEAST: u64 = 20_000_000;

/// What is allowed for each byte of a file.
const EACH_BYTE: u64 = 50;

/// What the searches of the lines of a file may still do together, in what `Regex::work` counts: visits, backtracks, and one
/// for each eight instructions.
#[derive(Clone, Copy)]
pub struct Budget {
    pub left: u64,
}

impl Budget {
    /// That of a file of which nothing was read.
    pub fn new() -> Budget
        ensures { result.left ≡ 20000000 }
    {
        Budget { left: LEAST }
    }

    /// More for so many bytes that were read.
    pub fn allow(&mut self, bytes: usize)
        ensures { self.new.left ≡ min u64.MAX (self.old.left + min u64.MAX (bytes * 50)) }
    {
        let more = (bytes as u64).saturating_mul(EACH_BYTE);
        self.left = self.left.saturating_add(more);
    }

    /// Less by what a search did.
    pub fn spend(&mut self, work: u64)
        ensures { self.new.left ≡ self.old.left - work }
    {
        self.left = self.left.saturating_sub(work);
    }

    /// Whether nothing is left of it.
    pub fn is_used_up(self) -> bool
        ensures { result ≡ (self.left == 0) }
    {
        self.left == 0
    }
}
