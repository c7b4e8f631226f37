//! Absent expressions: the repeater is written, the others are refused.

ghost use Rattle.fancy_code.specs.Drafts.{draft_of};
ghost use Rattle.fancy_compile.specs.Nodes.{IsWhole, WritesAbsent, WritesOver, is_repeater, step_past};
ghost use Rattle.fancy_info.specs.Infos.{info_hard};
ghost use Rattle.std.specs.Prelude.{false, ◌≡◌};

use crate::below::is_refused_body;
use crate::scope::Scope;
use fancy_code::around::Construct;
use fancy_code::looks::LookKind;
use fancy_code::loops::LoopKind;
use fancy_code::writer::CodeWriter;
use fancy_expr::error::{CompileError, Error};
use fancy_expr::expr::Absent;
use fancy_info::info::Info;
use fancy_program::insn::Insn;
use std::slice;

pub fn is_repeater(absent: &Absent) -> bool
    ensures { result ≡ is_repeater absent.now }
{
    match absent {
        Absent::Repeater(_) => true,
        _ => false,
    }
}

impl<'t, 'i, 'a, 'o> Scope<'t, 'i, 'a, 'o> {
    /// One character at a time, as long as the node has no way here: by one instruction where the node is easy.
    #[cycle(emit)]
    pub fn emit_absent(&self, writer: &mut CodeWriter, body: &Info)
        requires { IsWhole self.now body.now }
        ensures { WritesAbsent self.now body.now (draft_of writer.old) (draft_of writer.new) }
    {
        if !body.hard() {
            self.emit_easy_absent(writer, body);
            return;
        }
        if is_refused_body(body) {
            writer.refuse(CompileError::FeatureNotYetSupported);
            return;
        }
        let rounds = Construct::Loop {
            kind: LoopKind::Epsilon { lo: 0 },
            greedy: true,
        };
        let start = writer.start();
        writer.begin(rounds);
        self.emit_step_past(writer, body);
        writer.end(rounds, start);
    }

    /// The same of an easy node, where there is room for it.
    fn emit_easy_absent(&self, writer: &mut CodeWriter, body: &Info)
        requires whole { IsWhole self.now body.now }
        requires easy { info_hard body.now ≡ false }
        ensures { WritesAbsent self.now body.now (draft_of writer.old) (draft_of writer.new) }
    {
        if self.nest_too_deep(slice::from_ref(body)) {
            writer.fail(Error::NestLimitExceeded);
            return;
        }
        writer.emit_repeater(self.alloc, body, self.unicode);
    }

    /// One character where the node has no way here, and nothing where it has one.
    #[cycle(emit)]
    fn emit_step_past(&self, writer: &mut CodeWriter, body: &Info)
        requires { IsWhole self.now body.now }
        ensures { WritesOver step_past self.now body.now false false
            (draft_of writer.old) (draft_of writer.new) }
    {
        writer.push(Insn::BeginAtomic);
        let split = writer.code.len();
        writer.push(Insn::Split(split + 1, 0));
        self.emit_around(
            writer,
            Construct::Look(LookKind::NotAhead),
            body,
            false,
            false,
        );
        writer.push(Insn::EndAtomic);
        writer.push(Insn::Any);
        let jump = writer.code.len();
        writer.patch(split, Insn::Split(split + 1, jump + 1));
        writer.push(Insn::Jmp(0));
        writer.push(Insn::EndAtomic);
        let end = writer.code.len();
        writer.patch(jump, Insn::Jmp(end));
    }
}
