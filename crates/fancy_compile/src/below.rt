//! Whether a node of some kind stands in a tree.

ghost use Rattle.fancy_info.specs.Infos.{info_hard, info_tree};
ghost use Rattle.fancy_compile.specs.AnalysedNodes.{IsKnown};
ghost use Rattle.fancy_compile.specs.NodeKinds.{is_of_kind, is_of_kind_expr};
ghost use Rattle.fancy_meaning.specs.Nodes.{is_absent, nodes};
ghost use Rattle.fancy_meaning.specs.Options.{Analysis};
ghost use Rattle.std.specs.List.{list_any};
ghost use Rattle.std.specs.Prelude.{◌&&◌, ◌≡◌};

use fancy_expr::expr::Expr;
use fancy_info::info::Info;

/// A kind of node that is looked for.
#[derive(Clone, Copy)]
pub enum NodeKind {
    /// An absent operator.
    AbsentNode,
    /// A `\K`.
    KeepOutNode,
}

/// The expression is of this kind.
fn is_of_kind(kind: NodeKind, expr: &Expr) -> bool
    ensures { result ≡ is_of_kind_expr kind expr.now }
{
    match kind {
        NodeKind::AbsentNode => matches!(expr, Expr::Absent(_)),
        NodeKind::KeepOutNode => matches!(expr, Expr::KeepOut),
    }
}

/// The node, or one below it, is of this kind.
pub fn has_kind(kind: NodeKind, info: &Info) -> bool
    requires { (a : Analysis) × IsKnown a info.now }
    ensures { result ≡ list_any (is_of_kind kind) (nodes (info_tree info.now)) }
{
    if is_of_kind(kind, info.expr()) {
        return true;
    }
    let children = info.children();
    for child in children {
        if has_kind(kind, child) {
            return true;
        }
    }
    false
}

/// An absent repeater of the node is refused: the node is hard, and it or one below it is absent.
pub fn is_refused_body(body: &Info) -> bool
    requires { (a : Analysis) × IsKnown a body.now }
    ensures { result ≡ (info_hard body.now && list_any is_absent (nodes (info_tree body.now))) }
{
    body.hard() && has_kind(NodeKind::AbsentNode, body)
}
