//! The greatest group that a way of some nodes can set.

ghost use Rattle.std.specs.Prelude.{◌≡◌, [], ◌∷◌, map};
ghost use Rattle.fancy_meaning.specs.Fits.{is_positive};
ghost use Rattle.fancy_expr.specs.Views.{look_of, tree_of};
ghost use Rattle.fancy_info.specs.Infos.{info_tree};
ghost use Rattle.fancy_fragments.specs.Nodes.{AreAnalysedNodes, IsAnalysedNode};
ghost use Rattle.fancy_fragments.specs.Settable.{is_way_in, own_above, settable_above};

use fancy_expr::expr::{Expr, LookAround};
use fancy_info::info::Info;

/// One more than the greatest number of a group that a way of the nodes can set, and 0 where there is none.
#[cycle(settable)]
pub(crate) fn settable_above(infos: &[Info]) -> usize
    requires { AreAnalysedNodes infos.now }
    ensures { result ≡ settable_above (map info_tree infos.now) }
{
    let mut above = 0;
    for info in infos {
        above = above.max(settable_above_one(info));
    }
    above
}

#[cycle(settable)]
fn settable_above_one(info: &Info) -> usize
    requires { IsAnalysedNode info.now }
    ensures { result ≡ settable_above (info_tree info.now ∷ []) }
{
    if is_way_in(info.expr()) {
        settable_above(info.children()).max(own_above(info))
    } else {
        0
    }
}

/// One more than the number of the node itself, if it is a group.
fn own_above(info: &Info) -> usize
    requires { IsAnalysedNode info.now }
    ensures { result ≡ own_above (info_tree info.now) }
{
    match info.expr() {
        Expr::Group(_) => {
            prove!(info.start_group() < info.end_group());
            info.start_group() + 1
        }
        _ => 0,
    }
}

/// Whether a way of the node can set what ways of its children can.
fn is_way_in(expr: &Expr) -> bool
    ensures { result ≡ is_way_in (tree_of expr.now) }
{
    match expr {
        Expr::Concat(_) => true,
        Expr::Alt(_) => true,
        Expr::Group(_) => true,
        Expr::LookAround(_, look) => is_positive(*look),
        Expr::Repeat { lo, hi, .. } => *lo > 0 || *hi > 0,
        Expr::AtomicGroup(_) => true,
        Expr::Conditional { .. } => true,
        Expr::Absent(_) => false,
        _ => false,
    }
}

fn is_positive(look: LookAround) -> bool
    ensures { result ≡ is_positive (look_of look) }
{
    match look {
        LookAround::LookAhead => true,
        LookAround::LookAheadNeg => false,
        LookAround::LookBehind => true,
        LookAround::LookBehindNeg => false,
    }
}
