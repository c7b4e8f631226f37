//! Constructs with one body: group, atomic, look-around, loop.

ghost use Rattle.std.specs.Prelude.{[], ◌-◌, ◌<◌, ◌^◌};

use crate::looks::LookKind;
use crate::loops::LoopKind;
use crate::writer::CodeWriter;
use fancy_program::insn::Insn;

/// What stands around a node.
#[derive(Clone, Copy)]
pub enum Construct {
    Group(usize),
    Atomic,
    Look(LookKind),
    Loop { kind: LoopKind, greedy: bool },
}

/// Where a construct begins, and the first slot that was not taken there.
#[derive(Clone, Copy)]
pub struct Start {
    pub base: usize,
    pub fresh: usize,
    ghost low: { base < 2 ^ 64 - 2 },
    ghost small: { fresh < 2 ^ 64 - 2 },
}

impl CodeWriter {
    ghost use Rattle.fancy_code.specs.Arounds.{Ends, IsStart, opening};
    ghost use Rattle.fancy_code.specs.Drafts.{Writes, draft_of};
    ghost use Rattle.fancy_code.specs.Sites.{Site};

    /// The place of what comes next.
    pub fn start(&self) -> Start
        ensures { IsStart result (draft_of self.now) }
    {
        Start {
            base: self.code.len(),
            fresh: self.fresh,
        }
    }

    /// What stands before a node.
    pub fn begin(&mut self, around: Construct)
        ensures { (p : Site)
            → Writes p (opening around) [] (draft_of self.old) (draft_of self.new) }
    {
        match around {
            Construct::Group(group) => self.begin_group(group),
            Construct::Atomic => self.push(Insn::BeginAtomic),
            Construct::Look(kind) => self.begin_look(kind),
            Construct::Loop { kind, .. } => self.begin_loop(kind),
        }
    }

    /// What stands behind a node, before which `begin` wrote at `start`.
    pub fn end(&mut self, around: Construct, start: Start)
        ensures { Ends around start (draft_of self.old) (draft_of self.new) }
    {
        match around {
            Construct::Group(group) => self.end_group(group, start),
            Construct::Atomic => self.push(Insn::EndAtomic),
            Construct::Look(kind) => self.end_look(kind, start),
            Construct::Loop { kind, greedy } => self.end_loop(kind, greedy, start),
        }
    }
}
