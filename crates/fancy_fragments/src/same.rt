//! Whether a fragment is that of some nodes.

ghost use Rattle.std.specs.Prelude.{◌≡◌, [], ◌∷◌, map, true, false};
ghost use Rattle.fancy_meaning.specs.Batches.{fragment};
ghost use Rattle.fancy_meaning.specs.Tree.{NoLook, Trees};
ghost use Rattle.fancy_expr.specs.Exprs.{below};
ghost use Rattle.fancy_expr.specs.Views.{tree_of};
ghost use Rattle.fancy_expr.specs.Walk.{within_of};
ghost use Rattle.fancy_info.specs.Infos.{info_expr, info_tree, node_over};
ghost use Rattle.fancy_fragments.specs.Nodes.{AreEasyNeighbours, BeginAt};

use crate::fragment::Fragment;
use fancy_expr::expr::Expr;
use fancy_expr::parts::{part, part_count};
use fancy_expr::walk::Within;
use fancy_info::info::Info;

impl Fragment {
    ghost use Rattle.fancy_fragments.specs.Fragments.{fragment_of};

    /// Whether it is the fragment of these nodes. It may say no where it is, but not of the nodes that it was built of.
    pub fn is_of(&self, infos: &[Info], unicode: bool) -> bool
        requires { AreEasyNeighbours infos.now }
        ensures { result ≡ true
            → fragment_of self.now ≡ fragment unicode (map info_tree infos.now) }
    {
        if self.unicode == unicode {
            if begin_at(infos, self.first_group, self.within) {
                return !exprs_differ(&self.exprs, infos);
            }
        }
        false
    }

    /// Whether it has one node, with this expression.
    pub fn is_of_expr(&self, expr: &Expr) -> bool
        ensures { result ≡ true → map tree_of self.now.exprs.items ≡ tree_of expr.now ∷ [] }
    {
        match self.exprs.as_slice() {
            [only] => !differs(only, expr),
            _ => false,
        }
    }
}

/// The first of the nodes begins at this group number, within this.
fn begin_at(infos: &[Info], first: usize, within: Within) -> bool
    ensures { result ≡ true → BeginAt (within_of within) first infos.now }
{
    match infos.first() {
        Some(info) => info.start_group() == first && info.within == within,
        None => true,
    }
}

/// These are not the nodes' expressions.
fn exprs_differ(exprs: &[Expr], infos: &[Info]) -> bool
    ensures { result ≡ false
        → map tree_of exprs.now ≡ map (λ i. tree_of (info_expr i)) infos.now }
{
    let count = exprs.len();
    if infos.len() != count {
        return true;
    }
    for i in 0..count {
        if differs(&exprs[i], infos[i].expr()) {
            return true;
        }
    }
    false
}

/// The trees are not the same.
#[cycle(comparing)]
fn differs(expr: &Expr, other: &Expr) -> bool
    ensures { result ≡ false → tree_of expr.now ≡ tree_of other.now }
{
    if is_alike(expr, other) {
        return parts_differ(expr, other);
    }
    true
}

#[cycle(comparing)]
fn parts_differ(expr: &Expr, other: &Expr) -> bool
    ensures { result ≡ false → map tree_of (below expr.now) ≡ map tree_of (below other.now) }
{
    let count = part_count(expr);
    if part_count(other) != count {
        return true;
    }
    for i in 0..count {
        if differs(part(expr, i), part(other, i)) {
            return true;
        }
    }
    false
}

/// Over the same children they are the same node, of a kind that is searched for plainly.
fn is_alike(expr: &Expr, other: &Expr) -> bool
    ensures { result ≡ true
        → (es : Trees) → node_over expr.now 0 NoLook es ≡ node_over other.now 0 NoLook es }
{
    match (expr, other) {
        (Expr::Concat(_), Expr::Concat(_)) => true,
        (Expr::Alt(_), Expr::Alt(_)) => true,
        (Expr::Group(_), Expr::Group(_)) => true,
        (
            Expr::Repeat { lo, hi, greedy, .. },
            Expr::Repeat {
                lo: l,
                hi: h,
                greedy: g,
                ..
            },
        ) => *lo == *l && *hi == *h && *greedy == *g,
        (Expr::DefineGroup { .. }, Expr::DefineGroup { .. }) => true,
        _ => is_same_leaf(expr, other),
    }
}

/// They are the same node, of such a kind, without children.
fn is_same_leaf(expr: &Expr, other: &Expr) -> bool
    ensures { result ≡ true
        → (es : Trees) → node_over expr.now 0 NoLook es ≡ node_over other.now 0 NoLook es }
{
    match (expr, other) {
        (Expr::Empty, Expr::Empty) => true,
        (
            Expr::Any { newline, crlf },
            Expr::Any {
                newline: n,
                crlf: c,
            },
        ) => { *newline == *n && *crlf == *c }
        (Expr::Assertion(assertion), Expr::Assertion(a)) => *assertion == *a,
        (Expr::Literal { val, casei }, Expr::Literal { val: v, casei: c }) => {
            *casei == *c && val.as_str() == v.as_str()
        }
        (Expr::Delegate { inner, casei }, Expr::Delegate { inner: i, casei: c }) => {
            *casei == *c && inner.as_str() == i.as_str()
        }
        _ => false,
    }
}
