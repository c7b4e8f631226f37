//! A body with what stands around it.

ghost use Rattle.fancy_code.specs.Arounds.{around_code};
ghost use Rattle.fancy_code.specs.Drafts.{draft_of};
ghost use Rattle.fancy_compile.specs.Nodes.{IsWhole, WritesOver};

use crate::scope::Scope;
use fancy_code::around::Construct;
use fancy_code::writer::CodeWriter;
use fancy_info::info::Info;

impl<'t, 'i, 'a, 'o> Scope<'t, 'i, 'a, 'o> {
    /// A node with what stands around it.
    #[cycle(emit)]
    pub fn emit_around(
        &self,
        writer: &mut CodeWriter,
        around: Construct,
        body: &Info,
        at_start: bool,
        in_hard: bool,
    )
        requires { IsWhole self.now body.now }
        ensures { WritesOver (around_code around) self.now body.now at_start in_hard
            (draft_of writer.old) (draft_of writer.new) }
    {
        let start = writer.start();
        writer.begin(around);
        self.emit(writer, body, at_start, in_hard);
        writer.end(around, start);
    }
}
