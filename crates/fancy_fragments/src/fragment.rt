//! Fragments: neighbouring easy nodes that are searched for plainly.

ghost use Rattle.std.specs.Prelude.{◌≡◌, ◌*◌, ℕ, List, Option, false, true, IfOk, IfErr, IfSome, map, nat_le};
ghost use Rattle.std.proofs.Props.{props};
ghost use Rattle.fancy_meaning.specs.Fits.{fragment_fits};
ghost use Rattle.fancy_expr.specs.Views.{tree_of};
ghost use Rattle.fancy_expr.specs.Walk.{within_of};
ghost use Rattle.fancy_info.specs.Infos.{info_tree};
ghost use Rattle.fancy_meaning.specs.MatchState.{Span};
ghost use Rattle.fancy_nfa.specs.OnePass.{IsOnePass, IsOnePassWay};
ghost use Rattle.fancy_nfa.specs.Neighbours.{AreNeighbours};
ghost use Rattle.fancy_nfa.specs.Nfas.{HaveClasses, IsRefusedFor};
ghost use Rattle.fancy_backtrack.specs.Memos.{HaveFailed};
ghost use Rattle.fancy_nfa.specs.Ways.{HasNoWayAt, IsOfNodes};
ghost use Rattle.fancy_fragments.specs.Nodes.{AreEasyNeighbours, BeginAt, IsLaidOut, fits_over, nodes_over, plain_tree};

use crate::copies::copy_of;
use crate::settable::settable_above;
use fancy_backtrack::memo::Memo;
use fancy_expr::error::Error;
use fancy_expr::expr::Expr;
use fancy_expr::walk::Within;
use fancy_info::info::Info;
use fancy_nfa::nfa::Nfa;
use fancy_nfa::one_pass::OnePass;
use std::alloc::{AllocError, Global};
use std::fmt;

/// Neighbouring easy nodes that are searched for plainly.
pub struct Fragment {
    pub(crate) exprs: Vec<Expr>,
    /// The number of the first group that opens in them or behind them.
    pub(crate) first_group: usize,
    /// The look-around that they stand in.
    pub(crate) within: Within,
    pub(crate) unicode: bool,
    pub(crate) nfa: Nfa,
    /// Each group that a way can set has a number below this.
    pub(crate) settable: usize,
    ghost laid_out: { ∥ IsLaidOut (nodes_over exprs.items first_group (within_of within)) unicode nfa ∥₁ },
    ghost fits: { (slots : ℕ) → fits_over slots (nodes_over exprs.items first_group (within_of within))
        ≡ nat_le (2 * settable) slots },
}

// Not derived: whoever owns one calls this drop, and would prove a derived one again (docs/GATE.md).
impl Drop for Fragment {
    fn drop(self) {
        let Fragment {
            exprs: _,
            first_group: _,
            within: _,
            unicode: _,
            nfa: _,
            settable: _,
        } = self;
    }
}

impl Fragment {
    ghost use Rattle.fancy_fragments.specs.Fragments.{HasNoWayFrom, IsMemoFor, IsOnePassOf, IsOnePassWayOf, fragment_of};

    /// The fragment of neighbouring nodes of one analysed tree, none of them hard.
    ///
    /// A class text that `regex` excludes is refused as `InnerError` or `ClassTooBig`, but not in a loop that is never
    /// entered or in a DEFINE, which are not written out. Out of memory is `Error::Memory`.
    pub fn build(alloc: Global, infos: &[Info], unicode: bool) -> Result<Fragment, Error>
        requires { AreEasyNeighbours infos.now }
        ensures fragment { IfOk result (λ f. fragment_of f
            ≡ record { nodes = map info_tree infos.now; unicode = unicode }) }
        ensures classes { IfOk result (λ f. HaveClasses unicode infos.now) }
        ensures refused { IfErr result (IsRefusedFor unicode infos.now) }
    {
        let nfa = Nfa::build(alloc, infos, unicode)?;
        let exprs = copies_of_nodes(alloc, infos)?;
        let (first_group, within) = beginning(infos);
        Ok(Fragment {
            exprs,
            first_group,
            within,
            unicode,
            nfa,
            settable: settable_above(infos),
        })
    }

    /// The expressions of its nodes.
    pub fn exprs(&self) -> &[Expr]
        ensures { result.now ≡ self.now.exprs.items }
    {
        &self.exprs
    }

    /// The pairs of all groups that a way can set are among the first so many slots.
    pub fn fits(&self, slots: usize) -> bool
        ensures { result ≡ fragment_fits slots (fragment_of self.now) }
    {
        self.settable <= slots / 2
    }

    /// The NFA of its nodes. Where it answers that there is no way, the fragment has none, and what one pass by it
    /// finds is the fragment's first way.
    pub fn nfa(&self) -> &Nfa
        ensures nfa { result.now ≡ self.now.nfa }
        ensures nodes { ∥ IsOfNodes result.now ∥₁ }
        ensures none { (text : List ℕ) (ix : ℕ)
            → HasNoWayAt text result.now ix → HasNoWayFrom text self.now ix }
        ensures one_pass { (text : List ℕ) (ix : ℕ) (end : OnePass)
            → IsOnePass text result.now ix end → IsOnePassOf text self.now ix end }
        ensures one_pass_way { (text : List ℕ) (ix : ℕ) (spans : ℕ → Option Span) (end : OnePass)
            → IsOnePassWay text result.now ix spans end → IsOnePassWayOf text self.now ix spans end }
    {
        &self.nfa
    }

    /// What searches of the fragment in one text, from `pos` on, have memoized: nothing yet.
    pub fn memo(&self, alloc: Global, pos: usize) -> Memo
        ensures memo { (text : List ℕ) → IsMemoFor text self.now result }
        ensures knows { HaveFailed result (λ pair. false) }
        ensures budget { result.budget ≡ record { visits = u64.MAX; bytes = usize.MAX } }
    {
        self.nfa.memo(alloc, pos)
    }

    /// Empties a memo of any fragment and any text for this one, and keeps its room.
    pub fn clear(&self, memo: &mut Memo, pos: usize)
        ensures memo { (text : List ℕ) → IsMemoFor text self.now memo.new }
        ensures knows { HaveFailed memo.new (λ pair. false) }
        ensures budget { memo.new.budget ≡ memo.old.budget }
    {
        self.nfa.clear(memo, pos);
    }
}

impl fmt::Debug for Fragment {
    /// All but the NFA, which is laid out for the rest.
    fn fmt<W: fmt::Write>(&self, f: &mut fmt::Formatter<W>) -> fmt::Result {
        f.debug_struct("Fragment")
            .field("exprs", &self.exprs)
            .field("first_group", &self.first_group)
            .field("within", &self.within)
            .field("unicode", &self.unicode)
            .field("settable", &self.settable)
            .finish_non_exhaustive()
    }
}

/// The expressions of the nodes.
fn copies_of_nodes(alloc: Global, infos: &[Info]) -> Result<Vec<Expr>, AllocError>
    ensures { IfOk result (λ copies. map tree_of copies.items ≡ map plain_tree infos.now) }
{
    let mut copies = Vec::with_capacity(alloc, infos.len())?;
    for info in infos {
        copies.push(copy_of(alloc, info.expr())?)?;
    }
    Ok(copies)
}

/// Where the nodes begin: the number of the next group, and the look-around that they stand in. Without a node it is
/// the beginning of a tree.
fn beginning(infos: &[Info]) -> (usize, Within)
    ensures { BeginAt (within_of result.1) result.0 infos.now }
{
    match infos.first() {
        Some(info) => (info.start_group(), info.within),
        None => (0, Within::NoLook),
    }
}
