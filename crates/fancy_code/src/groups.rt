//! Groups that are captured: where one begins, and where it ends.

ghost use Rattle.fancy_code.specs.declared.around.Construct.TheVariants as around;
ghost use Rattle.std.specs.Prelude.{[]};
ghost use Rattle.fancy_meaning.specs.Instr.{Instr};
ghost use Rattle.fancy_code.specs.Sites.{Site};
ghost use Rattle.fancy_code.specs.Arounds.{Ends, over_slot};
ghost use Rattle.fancy_code.specs.Drafts.{Writes, draft_of};

use crate::around::Start;
use crate::writer::CodeWriter;
use fancy_program::insn::Insn;

impl CodeWriter {
    pub fn begin_group(&mut self, group: usize)
        ensures { (p : Site)
            → Writes p (over_slot (Instr.SaveCaptureGroupStart group)) []
            (draft_of self.old) (draft_of self.new) }
    {
        let slot = self.fresh;
        self.push_over_slot(Insn::SaveCaptureGroupStart { group, slot });
    }

    pub fn end_group(&mut self, group: usize, start: Start)
        ensures { Ends (around.Group group) start (draft_of self.old) (draft_of self.new) }
    {
        self.push(Insn::SaveCaptureGroup {
            group,
            slot: start.fresh,
        });
    }
}
