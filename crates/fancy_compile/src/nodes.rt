//! A node with all below it, by what it is.

ghost use Rattle.fancy_code.specs.Drafts.{draft_of};
ghost use Rattle.fancy_compile.specs.Nodes.{IsWhole, WritesNode, WritesOut};

use crate::absents::is_repeater;
use crate::analysed_nodes::{child, is_batch, is_body_hard};
use crate::scope::Scope;
use fancy_code::around::Construct;
use fancy_code::writer::CodeWriter;
use fancy_expr::error::{CompileError, Error};
use fancy_expr::expr::Expr;
use fancy_info::info::Info;
use std::slice;

impl<'t, 'i, 'a, 'o> Scope<'t, 'i, 'a, 'o> {
    /// A node and all below it: in an easy context an easy node is a batch of itself.
    #[cycle(emit)]
    pub fn emit(&self, writer: &mut CodeWriter, info: &Info, at_start: bool, in_hard: bool)
        requires { IsWhole self.now info.now }
        ensures { WritesNode self.now info.now at_start in_hard
            (draft_of writer.old) (draft_of writer.new) }
    {
        if is_batch(info, in_hard) {
            self.emit_batch(writer, slice::from_ref(info));
            return;
        }
        if !self.has_room() {
            writer.fail(Error::NestLimitExceeded);
            return;
        }
        let inner = self.within_node();
        inner.emit_node(writer, info, at_start, in_hard);
    }

    /// A node that is written out, by the scope of what stands in it.
    #[cycle(emit)]
    pub fn emit_node(&self, writer: &mut CodeWriter, info: &Info, at_start: bool, in_hard: bool)
        requires { IsWhole self.now info.now }
        ensures { WritesOut self.now info.now at_start in_hard
            (draft_of writer.old) (draft_of writer.new) }
    {
        if writer.fault.is_some() {
            return;
        }
        let expr = info.expr();
        match expr {
            Expr::Concat(_) => self.emit_concat(writer, info.children(), at_start, in_hard),
            Expr::Alt(_) => self.emit_branches(writer, info.children(), false, in_hard),
            Expr::Group(_) => {
                let around = Construct::Group(info.start_group());
                let is_hard = is_body_hard(info, in_hard);
                self.emit_around(writer, around, child(info, 0), at_start, is_hard)
            }
            Expr::AtomicGroup(_) => {
                self.emit_around(writer, Construct::Atomic, child(info, 0), false, false)
            }
            Expr::Repeat { lo, hi, greedy, .. } => {
                self.emit_repeat(writer, *lo, *hi, *greedy, child(info, 0), in_hard)
            }
            Expr::LookAround(_, look) => self.emit_look(writer, *look, child(info, 0)),
            Expr::Conditional { .. } => {
                let first = child(info, 0);
                let second = child(info, 1);
                let third = child(info, 2);
                self.emit_conditional(writer, first, second, third, in_hard)
            }
            Expr::Absent(absent) => {
                if is_repeater(absent) {
                    self.emit_absent(writer, child(info, 0));
                } else {
                    writer.refuse(CompileError::FeatureNotYetSupported);
                }
            }
            Expr::SubroutineCall(group) => self.emit_call(writer, *group, in_hard),
            Expr::Assertion(assertion) => writer.emit_assertion(*assertion, info.in_look_around()),
            _ => writer.emit_leaf(self.alloc, expr, at_start, self.unicode),
        }
    }
}
