//! Alternations, also of what is looked for behind the place.

ghost use Rattle.fancy_info.specs.Infos.{info_size};
ghost use Rattle.fancy_code.specs.Drafts.{with_jumps, draft_of};
ghost use Rattle.fancy_compile.specs.Nodes.{AreWhole, IsWhole, WritesBranches, WritesOver, branch_over};
ghost use Rattle.std.specs.Prelude.{false, length, ◌≡◌};

use crate::scope::Scope;
use fancy_code::around::Construct;
use fancy_code::looks::LookKind;
use fancy_code::writer::CodeWriter;
use fancy_expr::error::Error;
use fancy_info::info::Info;
use fancy_program::insn::Insn;

/// Writes the end of the code into jumps.
fn patch_jumps(writer: &mut CodeWriter, jumps: Vec<usize>)
    ensures { draft_of writer.new ≡ with_jumps jumps.items (length writer.old.code.items)
        (draft_of writer.old) }
{
    let mut left = jumps;
    let end = writer.code.len();
    while let Some(jump) = left.pop() {
        writer.patch(jump, Insn::Jmp(end));
    }
}

impl<'t, 'i, 'a, 'o> Scope<'t, 'i, 'a, 'o> {
    /// Nodes, one or the other: each but the last goes on behind the last. With `behind`, each is looked for behind the place.
    #[cycle(emit)]
    pub fn emit_branches(
        &self,
        writer: &mut CodeWriter,
        infos: &[Info],
        behind: bool,
        in_hard: bool,
    )
        requires { AreWhole self.now infos.now }
        ensures { WritesBranches behind in_hard self.now infos.now
            (draft_of writer.old) (draft_of writer.new) }
    {
        let count = infos.len();
        if count == 0 {
            return;
        }
        let mut jumps = match Vec::with_capacity(self.alloc, count) {
            Ok(jumps) => jumps,
            Err(_) => {
                writer.fail(Error::Memory);
                return;
            }
        };
        for i in 0..count - 1 {
            let split = writer.code.len();
            writer.push(Insn::Split(split + 1, 0));
            self.emit_branch(writer, &infos[i], behind, in_hard);
            let jump = writer.code.len();
            writer.patch(split, Insn::Split(split + 1, jump + 1));
            jumps.push(jump).unwrap();
            writer.push(Insn::Jmp(0));
        }
        self.emit_branch(writer, &infos[count - 1], behind, in_hard);
        patch_jumps(writer, jumps);
    }

    #[cycle(emit)]
    fn emit_branch(&self, writer: &mut CodeWriter, info: &Info, behind: bool, in_hard: bool)
        requires { IsWhole self.now info.now }
        ensures { WritesOver (branch_over behind (info_size info.now).least)
            self.now info.now false in_hard (draft_of writer.old) (draft_of writer.new) }
    {
        if behind {
            self.emit_around(
                writer,
                Construct::Look(LookKind::Behind(info.min_size())),
                info,
                false,
                in_hard,
            );
        } else {
            self.emit(writer, info, false, in_hard);
        }
    }
}
