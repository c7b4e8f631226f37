//! Look-arounds, and which look-behinds are written.

ghost use Rattle.fancy_code.specs.Arounds.{behind_kind};
ghost use Rattle.fancy_code.specs.Drafts.{draft_of};
ghost use Rattle.fancy_compile.specs.Nodes.{AreWhole, IsWhole, WritesLook, WritesNoneBehind, look_behind};
ghost use Rattle.fancy_expr.specs.Views.{look_of};
ghost use Rattle.std.specs.Prelude.{◌≡◌};

use crate::look_behinds::has_const_branches;
use crate::scope::Scope;
use fancy_code::around::Construct;
use fancy_code::looks::LookKind;
use fancy_code::writer::CodeWriter;
use fancy_expr::error::{CompileError, Error};
use fancy_expr::expr::LookAround;
use fancy_info::info::Info;

/// So many characters back, there is the body, or with `negative` there is not.
fn behind_kind(negative: bool, count: usize) -> LookKind
    ensures { result ≡ behind_kind negative count }
{
    if negative {
        LookKind::NotBehind(count)
    } else {
        LookKind::Behind(count)
    }
}

impl<'t, 'i, 'a, 'o> Scope<'t, 'i, 'a, 'o> {
    /// A look-around of a node.
    #[cycle(emit)]
    pub fn emit_look(&self, writer: &mut CodeWriter, look: LookAround, body: &Info)
        requires { IsWhole self.now body.now }
        ensures { WritesLook (look_of look) self.now body.now
            (draft_of writer.old) (draft_of writer.new) }
    {
        match look {
            LookAround::LookAhead => self.emit_around(
                writer,
                Construct::Look(LookKind::Ahead),
                body,
                false,
                false,
            ),
            LookAround::LookAheadNeg => self.emit_around(
                writer,
                Construct::Look(LookKind::NotAhead),
                body,
                false,
                false,
            ),
            LookAround::LookBehind => self.emit_behind(writer, false, body),
            LookAround::LookBehindNeg => self.emit_behind(writer, true, body),
        }
    }

    /// A lookbehind, negative or not.
    #[cycle(emit)]
    fn emit_behind(&self, writer: &mut CodeWriter, negative: bool, body: &Info)
        requires { IsWhole self.now body.now }
        ensures { WritesLook (look_behind negative) self.now body.now
            (draft_of writer.old) (draft_of writer.new) }
    {
        if body.const_size() {
            let kind = behind_kind(negative, body.min_size());
            self.emit_around(writer, Construct::Look(kind), body, false, false);
            return;
        }
        if !has_const_branches(body) {
            writer.refuse(CompileError::VariableLookBehindRequiresFeature);
            return;
        }
        if !self.has_room() {
            writer.fail(Error::NestLimitExceeded);
            return;
        }
        let inner = self.within_node();
        if negative {
            inner.emit_none_behind(writer, body.children());
        } else {
            inner.emit_branches(writer, body.children(), true, false);
        }
    }

    /// Negative lookbehinds of nodes, one after the other.
    #[cycle(emit)]
    fn emit_none_behind(&self, writer: &mut CodeWriter, infos: &[Info])
        requires { AreWhole self.now infos.now }
        ensures { WritesNoneBehind self.now infos.now (draft_of writer.old) (draft_of writer.new) }
    {
        for info in infos {
            self.emit_around(
                writer,
                Construct::Look(LookKind::NotBehind(info.min_size())),
                info,
                false,
                false,
            );
        }
    }
}
