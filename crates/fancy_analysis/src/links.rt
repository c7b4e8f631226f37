//! Links from target to target: the tracked calls of a tree, and its outer groups.

ghost use Rattle.std.specs.Prelude.{◌≡◌, ◌++◌, ◌||◌, [], IfOk, not};
ghost use Rattle.std.specs.List.{cons_option};
ghost use Rattle.fancy_meaning.specs.Sizes.{known_of, size};
ghost use Rattle.fancy_meaning.specs.Spots as plain_spots;
ghost use Rattle.fancy_meaning.specs.Tree as plain;
ghost use Rattle.fancy_info.specs.Infos.{info_facts, info_size, info_tree, node_over};
ghost use Rattle.fancy_analysis.specs.Links.{IsAt, around_inside, follows, link_from, links_at, links_of};
ghost use Rattle.fancy_analysis.specs.Made.{IsSized};

use fancy_expr::expr::Expr;
use fancy_info::info::Info;
use std::alloc::{AllocError, Global};

/// A step from one target to another, by number. The whole tree has the number 0.
#[derive(Clone, Copy)]
pub struct Link {
    pub from: usize,
    pub to: usize,
    /// It is a call before which nothing is taken.
    pub at_once: bool,
}

impl Link {
    /// It is one of all links, or of those at once.
    pub fn is_one(self, at_once: bool) -> bool
        ensures { result ≡ (not at_once || self.at_once) }
    {
        !at_once || self.at_once
    }
}

/// Where a node stands.
#[derive(Clone, Copy)]
struct Around {
    /// The innermost group around it, or 0.
    owner: usize,
    /// Nothing needs to be taken before it in its owner.
    at_start: bool,
    /// A loop around it is never entered.
    is_skipped: bool,
}

impl Around {
    /// Past a node.
    fn past(self, info: &Info) -> Around
        ensures { (whole : plain.Tree) (a : plain_spots.Around)
            → IsAt self a
            → info_size info.now ≡ size whole (info_tree info.now)
            → IsAt result (plain_spots.past whole (info_tree info.now) a) }
    {
        Around {
            at_start: self.at_start && info.size.least == 0,
            ..self
        }
    }

    /// Around the first child of a node, which is a group with this number if it is one.
    fn inside(self, expr: &Expr, number: usize) -> Around
        ensures { (a : plain_spots.Around) → IsAt self a →
            IsAt result (around_inside expr.now number a) }
    {
        match expr {
            Expr::Group(_) => Around {
                owner: number,
                at_start: true,
                ..self
            },
            Expr::DefineGroup { .. } => Around {
                at_start: true,
                ..self
            },
            Expr::Repeat { hi, .. } => Around {
                is_skipped: self.is_skipped || *hi == 0,
                ..self
            },
            _ => self,
        }
    }

    /// The link of a call.
    fn call(self, target: usize) -> Option<Link>
        ensures { (a : plain_spots.Around) → IsAt self a →
            result ≡ link_from (plain.SubroutineCall target) a }
    {
        if self.owner != 0 || !self.is_skipped {
            Some(Link {
                from: self.owner,
                to: target,
                at_once: self.at_start,
            })
        } else {
            None
        }
    }

    /// The link of a group.
    fn group(self, number: usize) -> Option<Link>
        ensures { (a : plain_spots.Around) (body : plain.Tree) → IsAt self a →
            result ≡ link_from (plain.Group number body) a }
    {
        if self.owner == 0 && !self.is_skipped {
            Some(Link {
                from: 0,
                to: number,
                at_once: false,
            })
        } else {
            None
        }
    }
}

/// Whether the child after this one stands behind it.
fn follows(expr: &Expr, child: usize) -> bool
    ensures { result ≡ follows expr.now child }
{
    match expr {
        Expr::Concat(_) => true,
        Expr::Conditional { .. } => child == 0,
        _ => false,
    }
}

/// The link of a node, which is a group with this number if it is one.
fn own_link(expr: &Expr, number: usize, around: Around) -> Option<Link>
    ensures { (a : plain_spots.Around) (w : plain.Within) (es : plain.Trees)
        → IsAt around a
        → result ≡ link_from (node_over expr.now number w es) a }
{
    match expr {
        Expr::SubroutineCall(target) => around.call(*target),
        Expr::Group(_) => around.group(number),
        Expr::Absent(_) => None,
        _ => None,
    }
}

fn add_link(link: Option<Link>, links: &mut Vec<Link>) -> Result<(), AllocError>
    ensures { IfOk result (λ _. links.new.items ≡ links.old.items ++ cons_option link []) }
{
    if let Some(link) = link {
        links.push(link)?;
    }
    Ok(())
}

/// Adds the links of a node and of all below it.
fn add_links(info: &Info, around: Around, links: &mut Vec<Link>) -> Result<(), AllocError>
    ensures { (whole : plain.Tree) (a : plain_spots.Around)
        → IsAt around a
        → IsSized (known_of whole) info.now
        → IfOk result (λ _. links.new.items
        ≡ links.old.items ++ links_at whole a (info_tree info.now)) }
{
    add_link(own_link(info.expr, info.start_group, around), links)?;
    let first = around.inside(info.expr, info.start_group);
    let mut next = first;
    for (i, child) in info.children.iter().enumerate() {
        add_links(child, next, links)?;
        next = if follows(info.expr, i) {
            next.past(child)
        } else {
            first
        };
    }
    Ok(())
}

/// The links of a tree.
pub fn links_of(alloc: Global, root: &Info) -> Result<Vec<Link>, AllocError>
    ensures { (whole : plain.Tree)
        → info_tree root.now ≡ whole
        → IsSized (known_of whole) root.now
        → IfOk result (λ links. links.items ≡ links_of whole) }
{
    let mut links = Vec::new(alloc);
    let around = Around {
        owner: 0,
        at_start: true,
        is_skipped: false,
    };
    add_links(root, around, &mut links)?;
    Ok(links)
}
