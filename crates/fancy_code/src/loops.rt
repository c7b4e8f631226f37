//! Loops: how each begins and ends.

ghost use Rattle.fancy_code.specs.declared.around.Construct.TheVariants as around;
ghost use Rattle.fancy_code.specs.declared.loops.LoopKind.TheVariants as kind;
ghost use Rattle.fancy_code.specs.Arounds.{Ends, loop_opening};
ghost use Rattle.fancy_code.specs.Drafts.{Writes, draft_of};
ghost use Rattle.fancy_code.specs.Sites.{Site};
ghost use Rattle.fancy_expr.specs.Views.{bound_of};
ghost use Rattle.fancy_meaning.specs.Constructs.{split};
ghost use Rattle.fancy_meaning.specs.Instr.{Instr};
ghost use Rattle.fancy_program.specs.Insns.{insn_of};
ghost use Rattle.std.specs.Prelude.{[], ◌≡◌};

use crate::around::Start;
use crate::writer::CodeWriter;
use fancy_program::insn::Insn;

/// How a loop is written. Without `Counted` there is no bound but that of the name.
#[derive(Clone, Copy)]
pub enum LoopKind {
    AtMostOnce,
    /// The body may take nothing.
    Epsilon { lo: usize },
    Star,
    Plus,
    /// `usize::MAX` is no bound.
    Counted { lo: usize, hi: usize },
}

/// The split that goes on first, or last.
fn split_insn(greedy: bool, on: usize, off: usize) -> Insn
    ensures { insn_of result ≡ split greedy on off }
{
    if greedy {
        Insn::Split(on, off)
    } else {
        Insn::Split(off, on)
    }
}

/// The head of a loop that may be left where a round took nothing.
fn epsilon_insn(greedy: bool, lo: usize, next: usize, repeat: usize, check: usize) -> Insn
    ensures { insn_of result ≡ Instr.RepeatEpsilon greedy lo next repeat check }
{
    if greedy {
        Insn::RepeatEpsilonGr {
            lo,
            next,
            repeat,
            check,
        }
    } else {
        Insn::RepeatEpsilonNg {
            lo,
            next,
            repeat,
            check,
        }
    }
}

/// The head of a loop that counts.
fn counted_insn(greedy: bool, lo: usize, hi: usize, next: usize, repeat: usize) -> Insn
    ensures { insn_of result ≡ Instr.Repeat greedy lo (bound_of hi) next repeat }
{
    if greedy {
        Insn::RepeatGr {
            lo,
            hi,
            next,
            repeat,
        }
    } else {
        Insn::RepeatNg {
            lo,
            hi,
            next,
            repeat,
        }
    }
}

impl CodeWriter {
    pub fn begin_loop(&mut self, kind: LoopKind)
        ensures { (p : Site)
            → Writes p (loop_opening kind) [] (draft_of self.old) (draft_of self.new) }
    {
        let slot = self.fresh;
        match kind {
            LoopKind::AtMostOnce => self.push(Insn::Split(0, 0)),
            LoopKind::Epsilon { .. } => {
                self.push_over_slot(Insn::Save0(slot));
                self.push_over_slot(Insn::Split(0, 0));
            }
            LoopKind::Star => self.push(Insn::Split(0, 0)),
            LoopKind::Plus => {}
            LoopKind::Counted { .. } => {
                self.push_over_slot(Insn::Save0(slot));
                self.push(Insn::Split(0, 0));
            }
        }
    }

    pub fn end_loop(&mut self, kind: LoopKind, greedy: bool, start: Start)
        ensures { Ends (around.Loop kind greedy) start (draft_of self.old) (draft_of self.new) }
    {
        match kind {
            LoopKind::AtMostOnce => self.end_at_most_once(greedy, start),
            LoopKind::Epsilon { lo } => self.end_epsilon(greedy, lo, start),
            LoopKind::Star => self.end_star(greedy, start),
            LoopKind::Plus => self.end_plus(greedy, start),
            LoopKind::Counted { lo, hi } => self.end_counted(greedy, lo, hi, start),
        }
    }

    /// The body is entered, or not.
    fn end_at_most_once(&mut self, greedy: bool, start: Start)
        ensures { Ends (around.Loop kind.AtMostOnce greedy) start
            (draft_of self.old) (draft_of self.new) }
    {
        let after = self.code.len();
        self.patch(start.base, split_insn(greedy, start.base + 1, after));
    }

    /// Back to the split before the body.
    fn end_star(&mut self, greedy: bool, start: Start)
        ensures { Ends (around.Loop kind.Star greedy) start
            (draft_of self.old) (draft_of self.new) }
    {
        self.push(Insn::Jmp(start.base));
        let after = self.code.len();
        self.patch(start.base, split_insn(greedy, start.base + 1, after));
    }

    /// Back to the body.
    fn end_plus(&mut self, greedy: bool, start: Start)
        ensures { Ends (around.Loop kind.Plus greedy) start
            (draft_of self.old) (draft_of self.new) }
    {
        let here = self.code.len();
        self.push(split_insn(greedy, start.base, here + 1));
    }

    /// Back to the head, which counts and leaves where the last round took nothing.
    fn end_epsilon(&mut self, greedy: bool, lo: usize, start: Start)
        ensures { Ends (around.Loop (kind.Epsilon lo) greedy) start
            (draft_of self.old) (draft_of self.new) }
    {
        let head = start.base + 1;
        self.push(Insn::Jmp(head));
        let next = self.code.len();
        let repeat = start.fresh;
        let check = start.fresh + 1;
        let insn = epsilon_insn(greedy, lo, next, repeat, check);
        self.patch(head, insn);
    }

    /// Back to the head, which counts.
    fn end_counted(&mut self, greedy: bool, lo: usize, hi: usize, start: Start)
        ensures { Ends (around.Loop (kind.Counted lo hi) greedy) start
            (draft_of self.old) (draft_of self.new) }
    {
        let head = start.base + 1;
        self.push(Insn::Jmp(head));
        let next = self.code.len();
        let insn = counted_insn(greedy, lo, hi, next, start.fresh);
        self.patch(head, insn);
    }
}
