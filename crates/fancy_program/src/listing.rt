//! The readable listing of a program.

use crate::insn::{Insn, Prog};
use fancy_characters::classes::CharClassMatcher;
use fancy_fragments::delegate::Delegate;
use std::fmt;

impl Insn {
    /// What the listing calls it.
    fn name(&self) -> &'static str {
        match self {
            Insn::End => "End",
            Insn::Any => "Any",
            Insn::AnyNoNL => "AnyNoNL",
            Insn::AnyNoCRLF => "AnyNoCRLF",
            Insn::Lit(_) => "Lit",
            Insn::LitCasei(_) => "LitCasei",
            Insn::CharClass(_) => "CharClass",
            Insn::Assertion(_) => "Assertion",
            Insn::Split(_, _) => "Split",
            Insn::SplitUnanchored(_, _) => "SplitUnanchored",
            Insn::Jmp(_) => "Jmp",
            Insn::Save(_) => "Save",
            Insn::Save0(_) => "Save0",
            Insn::SaveCaptureGroupStart { .. } => "SCGS",
            Insn::SaveCaptureGroup { .. } => "SCG",
            Insn::Restore(_) => "Restore",
            Insn::RepeatGr { .. } => "RepeatGr",
            Insn::RepeatNg { .. } => "RepeatNg",
            Insn::RepeatEpsilonGr { .. } => "RepeatEpsilonGr",
            Insn::RepeatEpsilonNg { .. } => "RepeatEpsilonNg",
            Insn::FailNegativeLookAround => "FailNegativeLookAround",
            Insn::GoBack(_) => "GoBack",
            Insn::Backref { .. } => "Backref",
            Insn::BackrefExistsCondition(_) => "Exists",
            Insn::Delegate(_) => "Delegate",
            Insn::AbsentRepeater(_) => "AbsentRepeater",
            Insn::BeginAtomic => "BeginAtomic",
            Insn::EndAtomic => "EndAtomic",
            Insn::Fail => "Fail",
            Insn::ContinueFromPreviousMatchEnd { .. } => "Cont",
            Insn::RejectEmptyMatchAtEOFFollowingNewline => "Reject",
        }
    }

    /// Writes what stands after the name: what is taken, then targets and slots.
    fn write_operands<W: fmt::Write>(&self, f: &mut fmt::Formatter<W>) -> fmt::Result {
        match self {
            Insn::Lit(text) => write!(f, "({text})"),
            Insn::CharClass(class) => write_class(class, f),
            Insn::Assertion(assertion) => write!(f, "({assertion:?})"),
            Insn::Split(first, second) => write!(f, "({first},{second})"),
            Insn::SplitUnanchored(first, second) => write!(f, "({first},{second})"),
            Insn::Jmp(to) => write!(f, "({to})"),
            Insn::Save(slot) => write!(f, "({slot})"),
            Insn::Save0(slot) => write!(f, "({slot})"),
            Insn::SaveCaptureGroupStart { group, slot } => write!(f, "{{{group},{slot}}}"),
            Insn::SaveCaptureGroup { group, slot } => write!(f, "{{{group},{slot}}}"),
            Insn::Restore(slot) => write!(f, "({slot})"),
            Insn::GoBack(chars) => write!(f, "({chars})"),
            Insn::Backref { slot, .. } => write!(f, "({slot})"),
            Insn::BackrefExistsCondition(group) => write!(f, "({group})"),
            Insn::Delegate(delegate) => write_delegate(delegate, f),
            Insn::AbsentRepeater(delegate) => write_delegate(delegate, f),
            Insn::ContinueFromPreviousMatchEnd { at_start } => write!(f, "{{{at_start}}}"),
            _ => self.write_loop(f),
        }
    }

    /// Writes the bounds, the target and the slots of a loop's head, and nothing of another instruction.
    fn write_loop<W: fmt::Write>(&self, f: &mut fmt::Formatter<W>) -> fmt::Result {
        match self {
            Insn::RepeatGr {
                lo,
                hi,
                next,
                repeat,
            } => write!(f, "{{{lo},{hi},{next},{repeat}}}"),
            Insn::RepeatNg {
                lo,
                hi,
                next,
                repeat,
            } => write!(f, "{{{lo},{hi},{next},{repeat}}}"),
            Insn::RepeatEpsilonGr {
                lo,
                next,
                repeat,
                check,
            } => write!(f, "{{{lo},{next},{repeat},{check}}}"),
            Insn::RepeatEpsilonNg {
                lo,
                next,
                repeat,
                check,
            } => write!(f, "{{{lo},{next},{repeat},{check}}}"),
            _ => Ok(()),
        }
    }
}

/// Writes the class's text.
fn write_class<W: fmt::Write>(class: &CharClassMatcher, f: &mut fmt::Formatter<W>) -> fmt::Result {
    match class {
        CharClassMatcher::Codepoint(class) => {
            let name = class.name();
            write!(f, "({name})")
        }
        CharClassMatcher::Newline { .. } => write!(f, "(Newline)"),
    }
}

/// Writes the fragment's name and the numbers of its groups.
fn write_delegate<W: fmt::Write>(delegate: &Delegate, f: &mut fmt::Formatter<W>) -> fmt::Result {
    let pattern = delegate.pattern();
    match delegate.capture_groups() {
        None => write!(f, "(\"{pattern}\", no groups)"),
        Some(range) => {
            let start = range.start();
            let end = range.end();
            write!(f, "(\"{pattern}\", groups ({start},{end}))")
        }
    }
}

impl fmt::Display for Insn {
    /// The name, then in brackets what is taken, or targets and slots.
    fn fmt<W: fmt::Write>(&self, f: &mut fmt::Formatter<W>) -> fmt::Result {
        let name = self.name();
        write!(f, "{name}")?;
        self.write_operands(f)
    }
}

impl fmt::Debug for Insn {
    fn fmt<W: fmt::Write>(&self, f: &mut fmt::Formatter<W>) -> fmt::Result {
        write!(f, "{self}")
    }
}

impl fmt::Display for Prog {
    /// An instruction a line, after its place.
    fn fmt<W: fmt::Write>(&self, f: &mut fmt::Formatter<W>) -> fmt::Result {
        for (place, insn) in self.body().iter().enumerate() {
            writeln!(f, "{place} {insn}")?;
        }
        Ok(())
    }
}

impl fmt::Debug for Prog {
    fn fmt<W: fmt::Write>(&self, f: &mut fmt::Formatter<W>) -> fmt::Result {
        let parts = self.parts;
        write!(f, "{self}{parts:?}")
    }
}
