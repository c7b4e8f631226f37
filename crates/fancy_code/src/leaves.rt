//! Nodes that are written by themselves.

ghost use Rattle.std.specs.Prelude.{◌≡◌, ◌^◌, List, [], ◌∷◌, IfOk, encode_utf8_all, nat_le, slice_index, string_bytes, chars, true};
ghost use Rattle.fancy_program.specs.Insns.{insn_of};
ghost use Rattle.fancy_meaning.specs.Batches.{any_instr, literal_instr};
ghost use Rattle.fancy_meaning.specs.Code.{one};
ghost use Rattle.fancy_meaning.specs.Instr.{Instr, Newline};
ghost use Rattle.fancy_code.specs.Sites.{Site};
ghost use Rattle.fancy_meaning.specs.Tree as plain_tree;
ghost use Rattle.fancy_meaning.specs.Tree.{Tree};
ghost use Rattle.fancy_code.specs.Drafts.{Writes, draft_of};
ghost use Rattle.fancy_code.specs.Leaves.{WritesLeaf, WritesTree, WritesTreeBy, assertion_inside};
ghost use Rattle.fancy_code.specs.Kinds.{is_leaf};
ghost use Rattle.fancy_expr.specs.Views.{assertion_of, verb_of};

use crate::writer::CodeWriter;
use fancy_characters::classes::{CaseiLiteral, CharClassMatcher};
use fancy_expr::error::{CompileError, Error};
use fancy_expr::expr::{Assertion, BacktrackingControlVerb, Expr};
use fancy_expr::text::first_char;
use fancy_program::insn::Insn;
use std::alloc::{AllocError, Global};
use std::sync::Arc;

/// The instruction for any character.
pub fn any_insn(newline: bool, crlf: bool) -> Insn
    ensures { insn_of result ≡ any_instr newline crlf }
{
    if newline {
        Insn::Any
    } else if crlf {
        Insn::AnyNoCRLF
    } else {
        Insn::AnyNoNL
    }
}

/// The instruction for a literal, which may be folded.
fn literal_insn(alloc: Global, c: char, casei: bool, unicode: bool) -> Result<Insn, AllocError>
    ensures { IfOk result (λ i. insn_of i ≡ literal_instr unicode ((c, casei) ∷ [])) }
{
    if casei {
        let mut chars = Vec::new(alloc);
        chars.push((c, true))?;
        return Ok(Insn::LitCasei(CaseiLiteral::new(chars, unicode)));
    }
    let mut text = String::new(alloc);
    text.push(c)?;
    Ok(Insn::Lit(text))
}

/// The instruction for one character that ends a line.
fn newline_insn(alloc: Global, unicode: bool) -> Result<Insn, AllocError>
    ensures { IfOk result (λ i. insn_of i ≡ Instr.Class (Newline unicode)) }
{
    match Arc::new(alloc, CharClassMatcher::Newline { unicode }) {
        Ok(shared) => Ok(Insn::CharClass(shared)),
        Err(_) => Err(AllocError),
    }
}

/// In a look-around the start of a line is the plain one.
fn assertion_inside(assertion: Assertion, in_look: bool) -> Assertion
    ensures { assertion_of result ≡ assertion_inside in_look (assertion_of assertion) }
{
    if !in_look {
        return assertion;
    }
    match assertion {
        Assertion::StartLineOniguruma { crlf } => Assertion::StartLine { crlf },
        _ => assertion,
    }
}

/// The text of the characters with these numbers.
fn bytes_text(alloc: Global, bytes: &[u8]) -> Result<String, AllocError>
    ensures { IfOk result (λ s. string_bytes s ≡ encode_utf8_all bytes.now) }
{
    let mut text = String::new(alloc);
    for byte in bytes {
        text.push(char::from(*byte))?;
    }
    Ok(text)
}

/// The slot of the group has no number; no accepted tree has such a reference.
fn is_out_of_range(group: usize) -> bool
    ensures { result ≡ nat_le (2 ^ 63) group }
{
    group >= usize::MAX / 2 + 1
}

impl CodeWriter {
    fn emit_literal(&mut self, alloc: Global, val: &str, casei: bool, unicode: bool)
        ensures { WritesTreeBy unicode (plain_tree.Literal (slice_index (chars val.now) 0) casei)
            (draft_of self.old) (draft_of self.new) }
    {
        match literal_insn(alloc, first_char(val), casei, unicode) {
            Ok(insn) => self.push(insn),
            Err(_) => self.fail(Error::Memory),
        }
    }

    /// CR LF, or else one newline.
    fn emit_newline(&mut self, alloc: Global, unicode: bool)
        ensures { WritesTree (plain_tree.GeneralNewline unicode)
            (draft_of self.old) (draft_of self.new) }
    {
        let both = match bytes_text(alloc, &[13, 10]) {
            Ok(text) => text,
            Err(_) => {
                self.fail(Error::Memory);
                return;
            }
        };
        let one = match newline_insn(alloc, unicode) {
            Ok(insn) => insn,
            Err(_) => {
                self.fail(Error::Memory);
                return;
            }
        };
        self.push(Insn::BeginAtomic);
        let split = self.code.len();
        self.push(Insn::Split(split + 1, 0));
        self.push(Insn::Lit(both));
        let jump = self.code.len();
        self.patch(split, Insn::Split(split + 1, jump + 1));
        self.push(Insn::Jmp(0));
        self.push(one);
        let end = self.code.len();
        self.patch(jump, Insn::Jmp(end));
        self.push(Insn::EndAtomic);
    }

    /// An assertion, which may stand in a look-around.
    pub fn emit_assertion(&mut self, assertion: Assertion, in_look: bool)
        ensures { (p : Site)
            → Writes p (one (Instr.Assert (assertion_inside in_look (assertion_of assertion)))) []
            (draft_of self.old) (draft_of self.new) }
    {
        self.push(Insn::Assertion(assertion_inside(assertion, in_look)));
    }

    fn emit_bytes(&mut self, alloc: Global, bytes: &[u8])
        ensures { WritesTree (plain_tree.LiteralBytes bytes.now)
            (draft_of self.old) (draft_of self.new) }
    {
        match bytes_text(alloc, bytes) {
            Ok(text) => self.push(Insn::Lit(text)),
            Err(_) => self.fail(Error::Memory),
        }
    }

    fn emit_backref(&mut self, group: usize, casei: bool, unicode: bool)
        ensures { WritesTreeBy unicode (plain_tree.Backref group casei)
            (draft_of self.old) (draft_of self.new) }
    {
        if is_out_of_range(group) {
            self.refuse(CompileError::FeatureNotYetSupported);
            return;
        }
        self.push(Insn::Backref {
            slot: 2 * group,
            casei,
            unicode,
        });
    }

    fn emit_existence(&mut self, group: usize, level: Option<isize>)
        ensures { WritesTree (plain_tree.BackrefExists group level)
            (draft_of self.old) (draft_of self.new) }
    {
        match level {
            Some(_) => self.refuse(CompileError::FeatureNotYetSupported),
            None => self.push(Insn::BackrefExistsCondition(group)),
        }
    }

    fn emit_verb(&mut self, verb: BacktrackingControlVerb)
        ensures { WritesTree (plain_tree.Control (verb_of verb))
            (draft_of self.old) (draft_of self.new) }
    {
        match verb {
            BacktrackingControlVerb::Fail => self.push(Insn::Fail),
            BacktrackingControlVerb::Accept => self.refuse(CompileError::FeatureNotYetSupported),
            BacktrackingControlVerb::Commit => self.refuse(CompileError::FeatureNotYetSupported),
            BacktrackingControlVerb::Skip => self.refuse(CompileError::FeatureNotYetSupported),
            BacktrackingControlVerb::Prune => self.refuse(CompileError::FeatureNotYetSupported),
        }
    }

    /// A node that is written by itself.
    pub fn emit_leaf(&mut self, alloc: Global, expr: &Expr, at_start: bool, unicode: bool)
        requires { is_leaf expr.now ≡ true }
        ensures { WritesLeaf unicode expr.now at_start (draft_of self.old) (draft_of self.new) }
    {
        match expr {
            Expr::Empty => {}
            Expr::Any { newline, crlf } => self.push(any_insn(*newline, *crlf)),
            Expr::GeneralNewline { unicode } => self.emit_newline(alloc, *unicode),
            Expr::Literal { val, casei } => self.emit_literal(alloc, val, *casei, unicode),
            Expr::LiteralBytes { bytes } => self.emit_bytes(alloc, bytes),
            Expr::Delegate { inner, casei } => self.emit_class(alloc, inner, *casei, unicode),
            Expr::Backref { group, casei } => self.emit_backref(*group, *casei, unicode),
            Expr::BackrefWithRelativeRecursionLevel { .. } => {}
            Expr::KeepOut => self.push(Insn::Save(0)),
            Expr::ContinueFromPreviousMatchEnd => {
                self.push(Insn::ContinueFromPreviousMatchEnd { at_start })
            }
            Expr::BackrefExistsCondition {
                group,
                relative_recursion_level,
            } => self.emit_existence(*group, *relative_recursion_level),
            Expr::BacktrackingControlVerb(verb) => self.emit_verb(*verb),
            Expr::DefineGroup { .. } => {}
            Expr::AstNode(_, _) => {}
            _ => {}
        }
    }
}
