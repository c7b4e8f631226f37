//! Conditionals: the second after the first, or else the third.

ghost use Rattle.fancy_code.specs.Drafts.{draft_of};
ghost use Rattle.fancy_compile.specs.Nodes.{IsWhole, WritesConditional};

use crate::scope::Scope;
use fancy_code::writer::CodeWriter;
use fancy_info::info::Info;
use fancy_program::insn::Insn;

impl<'t, 'i, 'a, 'o> Scope<'t, 'i, 'a, 'o> {
    /// The second after the first, or else the third.
    #[cycle(emit)]
    pub fn emit_conditional(
        &self,
        writer: &mut CodeWriter,
        first: &Info,
        second: &Info,
        third: &Info,
        in_hard: bool,
    )
        requires first { IsWhole self.now first.now }
        requires second { IsWhole self.now second.now }
        requires third { IsWhole self.now third.now }
        ensures { WritesConditional self.now first.now second.now third.now in_hard
            (draft_of writer.old) (draft_of writer.new) }
    {
        writer.push(Insn::BeginAtomic);
        let split = writer.code.len();
        writer.push(Insn::Split(split + 1, 0));
        self.emit(writer, first, false, in_hard);
        writer.push(Insn::EndAtomic);
        self.emit(writer, second, false, in_hard);
        let jump = writer.code.len();
        writer.patch(split, Insn::Split(split + 1, jump + 1));
        writer.push(Insn::Jmp(0));
        writer.push(Insn::EndAtomic);
        self.emit(writer, third, false, in_hard);
        let end = writer.code.len();
        writer.patch(jump, Insn::Jmp(end));
    }
}
