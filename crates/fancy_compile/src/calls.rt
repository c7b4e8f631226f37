//! Calls: what a call names is written anew.

ghost use Rattle.fancy_code.specs.Drafts.{draft_of};
ghost use Rattle.fancy_compile.specs.Nodes.{IsScope, WritesCall};
ghost use Rattle.fancy_compile.specs.OpenDepths.{depths_in, depths_of};
ghost use Rattle.std.specs.Prelude.{◌≡◌};

use crate::group_table::is_marked;
use crate::scope::Scope;
use fancy_code::writer::CodeWriter;
use fancy_expr::error::CompileError;
use fancy_program::insn::Insn;

/// So deep are calls of one group written out.
const CALL_DEPTH: usize = 19;

/// A call that is being written out, within others.
#[derive(Clone, Copy)]
pub struct OpenCall<'o> {
    pub group: usize,
    /// How many calls of this group are open, this one among them.
    pub depth: usize,
    pub outer: Option<&'o OpenCall<'o>>,
}

impl<'o> OpenCall<'o> {
    /// How many calls of the group are open.
    fn depth_of(&self, group: usize) -> usize
        ensures { result ≡ depths_in self.now group }
    {
        if self.group == group {
            return self.depth;
        }
        match self.outer {
            Some(outer) => outer.depth_of(group),
            None => 0,
        }
    }
}

impl<'t, 'i, 'a, 'o> Scope<'t, 'i, 'a, 'o> {
    /// How many calls of the group are open.
    fn open_calls(&self, group: usize) -> usize
        ensures { result ≡ depths_of self.now.calls group }
    {
        match self.calls {
            Some(call) => call.depth_of(group),
            None => 0,
        }
    }

    /// A call: what it names is written anew.
    #[cycle(emit)]
    pub fn emit_call(&self, writer: &mut CodeWriter, group: usize, in_hard: bool)
        requires { IsScope self.now }
        ensures { WritesCall self.now group in_hard (draft_of writer.old) (draft_of writer.new) }
    {
        if !self.groups.has_target(group) {
            writer.refuse(CompileError::SubroutineCallTargetNotFound);
            return;
        }
        let depth = self.open_calls(group);
        if depth >= CALL_DEPTH {
            writer.push(Insn::Fail);
            return;
        }
        let call = OpenCall {
            group,
            depth: depth + 1,
            outer: self.calls,
        };
        let inner = Scope {
            alloc: self.alloc,
            unicode: self.unicode,
            root: self.root,
            groups: self.groups,
            calls: Some(&call),
            room: self.room,
        };
        if group == 0 {
            inner.emit(writer, self.root, true, in_hard);
            return;
        }
        let i = group - self.groups.first;
        let at_start = is_marked(&self.groups.starts, i);
        inner.emit_node(writer, self.groups.node(i), at_start, in_hard);
    }
}
