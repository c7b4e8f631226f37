//! The flags of a pattern.

/// The flags that hold at a place of a pattern.
#[derive(Clone, Copy)]
pub struct Flags {
    /// `i`
    pub casei: bool,
    /// `m`
    pub multi_line: bool,
    /// `s`
    pub dot_all: bool,
    /// `x`
    pub ignore_whitespace: bool,
    /// `R`
    pub crlf: bool,
    /// `U`
    pub swap_greed: bool,
    /// `u`
    pub unicode: bool,
    /// At a line's start is what Oniguruma takes for it. No letter sets this.
    pub oniguruma: bool,
    /// A plain `( )` captures nothing. No letter sets this.
    pub named_only: bool,
}
