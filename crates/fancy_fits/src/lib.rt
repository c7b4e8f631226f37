//! The programs of a tree that its analysis doesn't refuse fit the machine. The theorem is the contract of a function that
//! does nothing.
#![tactic(auto)]

ghost use Rattle.fancy_meaning.specs.Theorems.{LayoutsFit};

/// Both programs of a tree that its analysis doesn't refuse, with delegates and without, fit the machine under all options:
/// the last instruction ends the run, each target is within the body, and each slot that is read or written is there.
pub fn layouts_fit()
    ensures { LayoutsFit }
{}
