//! Concatenations: a batch, the nodes between, a batch.

ghost use Rattle.fancy_code.specs.Drafts.{draft_of};
ghost use Rattle.fancy_compile.specs.Nodes.{AreWhole, WritesConcat, WritesInTurn};
ghost use Rattle.fancy_info.specs.Infos.{info_size};
ghost use Rattle.std.specs.Prelude.{◌&&◌, ◌==◌, ◌≡◌};

use crate::cuts::{in_three, is_first_behind};
use crate::scope::Scope;
use fancy_code::writer::CodeWriter;
use fancy_info::info::Info;

/// A match may still begin behind the node.
fn is_still_first(is_first: bool, info: &Info) -> bool
    ensures { result ≡ (is_first && (info_size info.now).most == 0) }
{
    is_first && info.max_size() == 0
}

impl<'t, 'i, 'a, 'o> Scope<'t, 'i, 'a, 'o> {
    /// A concatenation.
    #[cycle(emit)]
    pub fn emit_concat(
        &self,
        writer: &mut CodeWriter,
        infos: &[Info],
        at_start: bool,
        in_hard: bool,
    )
        requires { AreWhole self.now infos.now }
        ensures { WritesConcat self.now infos.now at_start in_hard
            (draft_of writer.old) (draft_of writer.new) }
    {
        let (front, middle, back) = in_three(infos, in_hard);
        self.emit_batch(writer, front);
        self.emit_in_turn(writer, middle, is_first_behind(at_start, front));
        self.emit_batch(writer, back);
    }

    /// Nodes, one after the other, each in a hard context.
    #[cycle(emit)]
    fn emit_in_turn(&self, writer: &mut CodeWriter, infos: &[Info], at_start: bool)
        requires { AreWhole self.now infos.now }
        ensures { WritesInTurn self.now infos.now at_start
            (draft_of writer.old) (draft_of writer.new) }
    {
        let mut is_first = at_start;
        for info in infos {
            self.emit(writer, info, is_first, true);
            is_first = is_still_first(is_first, info);
        }
    }
}
