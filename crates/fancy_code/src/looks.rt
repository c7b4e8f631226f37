//! Look-arounds: how each begins and ends.

ghost use Rattle.fancy_code.specs.declared.around.Construct.TheVariants as around;
ghost use Rattle.fancy_code.specs.Arounds.{Ends, look_opening, not_ahead, not_behind};
ghost use Rattle.fancy_code.specs.Drafts.{Writes, draft_of};
ghost use Rattle.fancy_code.specs.Sites.{Site};
ghost use Rattle.std.specs.Prelude.{ℕ, []};

use crate::around::Start;
use crate::writer::CodeWriter;
use fancy_program::insn::Insn;

/// How a look-around looks; behind means so many characters back.
#[derive(Clone, Copy)]
pub enum LookKind {
    Ahead,
    NotAhead,
    Behind(usize),
    NotBehind(usize),
}

impl CodeWriter {
    /// What stands before the body.
    pub fn begin_look(&mut self, kind: LookKind)
        ensures { (p : Site)
            → Writes p (look_opening kind) [] (draft_of self.old) (draft_of self.new) }
    {
        let slot = self.fresh;
        match kind {
            LookKind::Ahead => self.push_over_slot(Insn::Save(slot)),
            LookKind::NotAhead => self.push(Insn::Split(0, 0)),
            LookKind::Behind(chars) => {
                self.push_over_slot(Insn::Save(slot));
                self.push(Insn::GoBack(chars));
            }
            LookKind::NotBehind(chars) => {
                self.push(Insn::Split(0, 0));
                self.push(Insn::GoBack(chars));
            }
        }
    }

    /// What stands behind the body.
    pub fn end_look(&mut self, kind: LookKind, start: Start)
        ensures { Ends (around.Look kind) start (draft_of self.old) (draft_of self.new) }
    {
        match kind {
            LookKind::Ahead => self.push(Insn::Restore(start.fresh)),
            LookKind::NotAhead => self.end_negative(start),
            LookKind::Behind(_) => self.push(Insn::Restore(start.fresh)),
            LookKind::NotBehind(_) => self.end_negative(start),
        }
    }

    fn end_negative(&mut self, start: Start)
        ensures ahead { Ends not_ahead start (draft_of self.old) (draft_of self.new) }
        ensures behind { (n : ℕ)
            → Ends (not_behind n) start (draft_of self.old) (draft_of self.new) }
    {
        self.push(Insn::FailNegativeLookAround);
        let after = self.code.len();
        self.patch(start.base, Insn::Split(start.base + 1, after));
    }
}
