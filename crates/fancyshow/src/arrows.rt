//! Where the instructions of a program lead.

use crate::outcome::Written;
use fancy_vm::vm::{Insn, Prog};
use std::alloc::{AllocError, Global};

/// From one place of a program to another; as a branch, it is taken once what was tried first has failed.
#[derive(Clone, Copy)]
pub struct Arrow {
    pub from: usize,
    pub to: usize,
    pub is_branch: bool,
}

impl Arrow {
    /// It leads to the next instruction.
    pub fn is_short(&self) -> bool {
        self.from.checked_add(1) == Some(self.to)
    }

    /// It leads back, or where it begins.
    pub fn is_back(&self) -> bool {
        self.to <= self.from
    }

    /// How many boxes on the arrow leads, or back.
    pub fn distance(&self) -> usize {
        self.from.abs_diff(self.to)
    }
}

/// What is gone to first from an instruction, and what is tried after a failure.
fn targets(place: usize, insn: &Insn) -> (Option<usize>, Option<usize>) {
    let next = place.checked_add(1);
    match insn {
        Insn::End | Insn::Fail | Insn::FailNegativeLookAround => (None, None),
        Insn::Split(first, second) => (Some(*first), Some(*second)),
        Insn::SplitUnanchored(first, second) => (Some(*first), Some(*second)),
        Insn::Jmp(to) => (Some(*to), None),
        Insn::RepeatGr { next: after, .. } => (next, Some(*after)),
        Insn::RepeatEpsilonGr { next: after, .. } => (next, Some(*after)),
        Insn::RepeatNg { next: after, .. } => (Some(*after), next),
        Insn::RepeatEpsilonNg { next: after, .. } => (Some(*after), next),
        Insn::AbsentRepeater(_) => (Some(place), next),
        _ => (next, None),
    }
}

/// Adds the arrow to this place, if there is one.
fn push_arrow(arrows: &mut Vec<Arrow>, from: usize, to: Option<usize>, is_branch: bool) -> Written {
    if let Some(to) = to {
        arrows.push(Arrow {
            from,
            to,
            is_branch,
        })?;
    }
    Ok(())
}

/// The arrows of a program, from its first instruction on.
pub fn arrows(alloc: Global, prog: &Prog) -> Result<Vec<Arrow>, AllocError> {
    let mut arrows = Vec::new(alloc);
    for (place, insn) in prog.body().iter().enumerate() {
        let (first, second) = targets(place, insn);
        push_arrow(&mut arrows, place, first, false)?;
        push_arrow(&mut arrows, place, second, true)?;
    }
    Ok(arrows)
}
