//! How much a search may take.

ghost use Rattle.std.specs.Prelude.{◌≡◌};

/// How many states a search may take up, and how many bytes what it keeps may hold.
#[derive(Clone, Copy, Debug)]
pub struct Budget {
    pub visits: u64,
    pub bytes: usize,
}

impl Budget {
    /// As many as can be counted.
    pub fn unlimited() -> Budget
        ensures { result ≡ record { visits = u64.MAX; bytes = usize.MAX } }
    {
        Budget {
            visits: u64::MAX,
            bytes: usize::MAX,
        }
    }
}
