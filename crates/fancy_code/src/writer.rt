//! A program in the making.

ghost use Rattle.std.specs.Prelude.{◌≡◌, ◌+◌, ◌≤◌, ◌^◌, List, None, length, [], true, false};
ghost use Rattle.std.specs.Option.{ForSome};

use crate::classes::SharedClasses;
use crate::delegates::SharedDelegates;
use fancy_expr::error::{CompileError, Error};
use fancy_program::insn::Insn;
use std::alloc::Global;

/// A program in the making. After a fault nothing more is written.
#[derive(Drop)]
pub struct CodeWriter {
    pub code: Vec<Insn>,
    /// The first slot that is not taken.
    pub fresh: usize,
    /// The most instructions.
    pub limit: Option<usize>,
    pub fault: Option<Error>,
    pub classes: SharedClasses,
    pub delegates: SharedDelegates,
    ghost within: { ForSome limit (λ most. length code.items ≤ most) },
    ghost slots_fit: { fresh ≤ 2 ^ 62 + length code.items },
}

impl CodeWriter {
    ghost use Rattle.fancy_program.specs.Insns.{insn_of};
    ghost use Rattle.fancy_meaning.specs.Code.{Laid, one};
    ghost use Rattle.fancy_meaning.specs.Tree.{Tree};
    ghost use Rattle.fancy_code.specs.Sites.{Site};
    ghost use Rattle.fancy_expr.specs.Errors.{error_of};
    ghost use Rattle.fancy_code.specs.Faults.{HasRejected, refused_as};
    ghost use Rattle.fancy_code.specs.Drafts.{Adds, Breaks, IsOver, Writes, draft_of, one_over_slot, with_patch};

    /// Nothing yet: slots are taken from `fresh` on, and at most `limit` instructions are written.
    pub fn new(alloc: Global, fresh: usize, limit: Option<usize>) -> CodeWriter
        requires { fresh ≤ 2 ^ 62 }
        ensures { draft_of result ≡ record { instrs = []; fresh = fresh; limit = limit; fault = None } }
    {
        CodeWriter {
            code: Vec::new(alloc),
            fresh,
            limit,
            fault: None,
            classes: SharedClasses::new(alloc),
            delegates: SharedDelegates::new(alloc),
        }
    }

    /// One more instruction would be too many.
    fn is_full(&self) -> bool
        ensures full { result ≡ true → IsOver self.now.limit (length self.now.code.items + 1) }
        ensures room { result ≡ false
            → ForSome self.now.limit (λ most. length self.now.code.items + 1 ≤ most) }
    {
        match self.limit {
            Some(most) => self.code.len() >= most,
            None => false,
        }
    }

    /// One more instruction.
    pub fn push(&mut self, insn: Insn)
        ensures writes { (p : Site)
            → Writes p (one (insn_of insn)) [] (draft_of self.old) (draft_of self.new) }
        ensures grows { length self.old.code.items ≤ length self.new.code.items }
        ensures fresh { self.new.fresh ≡ self.old.fresh }
    {
        if self.fault.is_some() {
            return;
        }
        if self.is_full() {
            self.fault = Some(Error::CompileError(CompileError::PatternTooComplex));
            return;
        }
        if self.code.push(insn).is_err() {
            self.fault = Some(Error::Memory);
        }
    }

    /// One more instruction, which takes the next slot.
    pub fn push_over_slot(&mut self, insn: Insn)
        ensures { (p : Site)
            → Writes p (one_over_slot (insn_of insn)) [] (draft_of self.old) (draft_of self.new) }
    {
        let before = self.code.len();
        self.push(insn);
        self.fresh += self.code.len() - before;
    }

    /// Nothing more is written, for this error.
    pub fn fail(&mut self, error: Error)
        ensures { (p : Site) (a : Laid) (es : List Tree)
            → Breaks p a es (draft_of self.old) error
            → Adds p a es (draft_of self.old) (draft_of self.new) }
    {
        if self.fault.is_none() {
            self.fault = Some(error);
        }
    }

    /// Nothing more is written, since a node is refused.
    pub fn refuse(&mut self, error: CompileError)
        ensures { (p : Site) (a : Laid) (es : List Tree)
            → HasRejected p es (refused_as (error_of error))
            → Adds p a es (draft_of self.old) (draft_of self.new) }
    {
        self.fail(Error::CompileError(error));
    }

    /// Writes over an instruction.
    pub fn patch(&mut self, at: usize, insn: Insn)
        ensures { draft_of self.new ≡ with_patch (draft_of self.old) at (insn_of insn) }
    {
        if at < self.code.len() {
            self.code[at] = insn;
        }
    }
}
