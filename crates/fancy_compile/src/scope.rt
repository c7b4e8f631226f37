//! Where a node is written: in which tree, within which calls, and within how many nodes.

ghost use Rattle.fancy_code.specs.Drafts.{draft_of};
ghost use Rattle.fancy_code.specs.Faults.{StayWithin, HasRejected, too_deep};
ghost use Rattle.fancy_code.specs.Sites.{Site};
ghost use Rattle.fancy_compile.specs.Nodes.{WritesBatchIn, below_node};
ghost use Rattle.fancy_fragments.specs.Nodes.{AreEasyNeighbours};
ghost use Rattle.fancy_info.specs.Infos.{info_tree};
ghost use Rattle.std.specs.Option.{ForSome};
ghost use Rattle.std.specs.Prelude.{Some, false, map, true, ◌<◌, ◌≡◌};

use crate::calls::OpenCall;
use crate::group_table::GroupTable;
use crate::nesting::one_nests_deeper;
use fancy_code::writer::CodeWriter;
use fancy_expr::error::Error;
use fancy_info::info::Info;
use std::alloc::Global;

#[derive(Clone, Copy)]
pub struct Scope<'t, 'i, 'a, 'o> {
    pub alloc: Global,
    pub unicode: bool,
    pub root: &'i Info<'a>,
    pub groups: &'t GroupTable<'i, 'a>,
    pub calls: Option<&'o OpenCall<'o>>,
    /// How many nodes may stand in one another here; without it there is no bound.
    pub room: Option<usize>,
}

impl<'t, 'i, 'a, 'o> Scope<'t, 'i, 'a, 'o> {
    /// One more node may stand here.
    pub fn has_room(&self) -> bool
        ensures yes { result ≡ true → ForSome self.now.room (λ n. 0 < n) }
        ensures no { result ≡ false → self.now.room ≡ Some 0 }
    {
        match self.room {
            Some(room) => room != 0,
            None => true,
        }
    }

    /// Within one more node.
    pub fn within_node(&self) -> Scope<'t, 'i, 'a, 'o>
        ensures { result ≡ below_node self.now }
    {
        let room = match self.room {
            Some(room) => Some(room.saturating_sub(1)),
            None => None,
        };
        Scope {
            alloc: self.alloc,
            unicode: self.unicode,
            root: self.root,
            groups: self.groups,
            calls: self.calls,
            room,
        }
    }

    /// More of these easy nodes stand in one another than there is room for.
    pub fn nest_too_deep(&self, infos: &[Info]) -> bool
        requires { AreEasyNeighbours infos.now }
        ensures deep { result ≡ true
            → (p : Site)
            → p.room ≡ self.now.room
            → HasRejected p (map info_tree infos.now) too_deep }
        ensures within { result ≡ false
            → (p : Site)
            → p.room ≡ self.now.room
            → StayWithin p (map info_tree infos.now) }
    {
        match self.room {
            Some(room) => one_nests_deeper(infos, room),
            None => false,
        }
    }

    /// Neighbouring easy nodes as one batch, where there is room for them.
    pub fn emit_batch(&self, writer: &mut CodeWriter, infos: &[Info])
        requires { AreEasyNeighbours infos.now }
        ensures { WritesBatchIn self.now infos.now (draft_of writer.old) (draft_of writer.new) }
    {
        if self.nest_too_deep(infos) {
            writer.fail(Error::NestLimitExceeded);
            return;
        }
        writer.emit_batch(self.alloc, infos, self.unicode);
    }
}
