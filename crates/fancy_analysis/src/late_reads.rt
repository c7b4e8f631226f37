//! References that stand, inside a group, behind a call of that group: one walk in the order of the tree.

ghost use Rattle.std.specs.Prelude.{◌≡◌, ◌==◌, ℕ, IsFalse, IsTrue};
ghost use Rattle.std.specs.List.{list_any};
ghost use Rattle.fancy_meaning.specs.AnalysisRefusals.{ReadsAfterCall};
ghost use Rattle.fancy_meaning.specs.Nodes.{nodes};
ghost use Rattle.fancy_meaning.specs.Sizes.{known_of};
ghost use Rattle.fancy_meaning.specs.Spots.{Around, spots};
ghost use Rattle.fancy_meaning.specs.Tree as plain;
ghost use Rattle.fancy_info.specs.Infos.{info_facts, info_tree, node_over};
ghost use Rattle.fancy_analysis.specs.LateReads.{is_read_late, meet, met_over, own_inside};
ghost use Rattle.fancy_analysis.specs.Made.{IsSized};

use fancy_expr::expr::Expr;
use fancy_info::info::Info;

/// What was met of a group on a walk over its body.
#[derive(Clone, Copy)]
struct Met {
    /// A call of the group that is its own.
    call: bool,
    /// A back reference to the group, after such a call.
    read_after: bool,
}

/// Past a node. It is the group's own if no other group stands between.
fn meet(expr: &Expr, group: usize, own: bool, met: Met) -> Met
    ensures { (n : ℕ) (w : plain.Within) (es : plain.Trees) →
        result ≡ meet group own (node_over expr.now n w es) met }
{
    match expr {
        Expr::SubroutineCall(target) => Met {
            call: met.call || (own && *target == group),
            read_after: met.read_after,
        },
        Expr::Backref { group: read, .. } => Met {
            call: met.call,
            read_after: met.read_after || (met.call && *read == group),
        },
        Expr::Absent(_) => met,
        _ => met,
    }
}

/// Whether the children of a node are the group's own.
fn own_inside(info: &Info, group: usize, own: bool) -> bool
    ensures { result ≡ own_inside (info_facts info.now).expr
        (info_facts info.now).start_group group own }
{
    match info.expr {
        Expr::Group(_) => info.start_group == group,
        _ => own,
    }
}

/// Past a node and all below it.
fn meet_all(info: &Info, group: usize, own: bool, met: Met) -> Met
    ensures { (whole : plain.Tree) (a : Around)
        → IsSized (known_of whole) info.now
        → (a.owner == group) ≡ own
        → result ≡ met_over group met (spots whole a (info_tree info.now)) }
{
    let inside = own_inside(info, group, own);
    let mut met = meet(info.expr, group, own, met);
    for child in &info.children {
        met = meet_all(child, group, inside, met);
    }
    met
}

fn is_read_late(info: &Info) -> bool
    ensures { (whole : plain.Tree) → IsSized (known_of whole) info.now →
        result ≡ is_read_late whole (info_tree info.now) }
{
    match info.expr {
        Expr::Group(_) => {
            let met = Met {
                call: false,
                read_after: false,
            };
            meet_all(info, info.start_group, true, met).read_after
        }
        _ => false,
    }
}

fn has_late_read(info: &Info) -> bool
    ensures { (whole : plain.Tree) → IsSized (known_of whole) info.now →
        result ≡ list_any (is_read_late whole) (nodes (info_tree info.now)) }
{
    if is_read_late(info) {
        return true;
    }
    for child in &info.children {
        if has_late_read(child) {
            return true;
        }
    }
    false
}

/// Whether some group, given the root of the tree, has a back reference to it behind a call of it that is its own.
pub fn reads_after_call(root: &Info) -> bool
    ensures { (whole : plain.Tree)
        → info_tree root.now ≡ whole
        → IsSized (known_of whole) root.now
        → (IsTrue result → (g : ℕ) × ReadsAfterCall whole g)
        × (IsFalse result → (g : ℕ) → ¬ ReadsAfterCall whole g) }
{
    has_late_read(root)
}
