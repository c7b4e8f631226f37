//! Loops: which kind each is, and in which context its body stands.

ghost use Rattle.fancy_code.specs.Arounds.{form_of, kind_form};
ghost use Rattle.fancy_code.specs.Drafts.{draft_of};
ghost use Rattle.fancy_compile.specs.Nodes.{IsWhole, WritesRepeat};
ghost use Rattle.fancy_expr.specs.Views.{bound_of};
ghost use Rattle.fancy_meaning.specs.Constructs.{loop_form};
ghost use Rattle.fancy_meaning.specs.Layout.{is_at_most_once};
ghost use Rattle.std.specs.Prelude.{not, ◌||◌, ◌≡◌};

use crate::scope::Scope;
use fancy_code::around::Construct;
use fancy_code::loops::LoopKind;
use fancy_code::writer::CodeWriter;
use fancy_info::info::Info;

/// The loop's kind; none where the body is never entered.
pub fn loop_kind(lo: usize, hi: usize, may_be_empty: bool) -> Option<LoopKind>
    ensures { form_of result ≡ loop_form lo (bound_of hi) may_be_empty }
{
    if hi == 0 {
        return None;
    }
    if lo == 0 && hi == 1 {
        return Some(LoopKind::AtMostOnce);
    }
    if hi < usize::MAX {
        return Some(LoopKind::Counted { lo, hi });
    }
    if may_be_empty {
        return Some(LoopKind::Epsilon { lo });
    }
    match lo {
        0 => Some(LoopKind::Star),
        1 => Some(LoopKind::Plus),
        _ => Some(LoopKind::Counted { lo, hi }),
    }
}

fn is_at_most_once(kind: LoopKind) -> bool
    ensures { result ≡ is_at_most_once (kind_form kind) }
{
    match kind {
        LoopKind::AtMostOnce => true,
        _ => false,
    }
}

/// The body is in a hard context where the loop is in one, or may enter the body again.
fn is_body_hard(kind: LoopKind, in_hard: bool) -> bool
    ensures { result ≡ (in_hard || not (is_at_most_once (kind_form kind))) }
{
    in_hard || !is_at_most_once(kind)
}

impl<'t, 'i, 'a, 'o> Scope<'t, 'i, 'a, 'o> {
    /// A loop.
    #[cycle(emit)]
    pub fn emit_repeat(
        &self,
        writer: &mut CodeWriter,
        lo: usize,
        hi: usize,
        greedy: bool,
        body: &Info,
        in_hard: bool,
    )
        requires { IsWhole self.now body.now }
        ensures { WritesRepeat lo (bound_of hi) greedy self.now body.now in_hard
            (draft_of writer.old) (draft_of writer.new) }
    {
        match loop_kind(lo, hi, body.min_size() == 0) {
            Some(kind) => self.emit_around(
                writer,
                Construct::Loop { kind, greedy },
                body,
                false,
                is_body_hard(kind, in_hard),
            ),
            None => {}
        }
    }
}
