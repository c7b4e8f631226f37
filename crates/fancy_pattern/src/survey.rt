//! What comes with a tree that was read: the groups that its back references name, and whether there is a call.

ghost use Rattle.std.specs.Prelude.{[], ◌∷◌, false, OnOk};
ghost use Rattle.fancy_meaning.specs.Nodes.{nodes};
ghost use Rattle.fancy_meaning.specs.Tree as tree;
ghost use Rattle.fancy_expr.specs.Views.{tree_of, unresolved_of};
ghost use Rattle.fancy_pattern.specs.Described.{Notes};

use fancy_expr::expr::{AstNode, Expr};
use fancy_expr::parts::{part, part_count};
use std::alloc::AllocError;

/// What the nodes that were seen name.
#[derive(Drop)]
pub struct Survey {
    /// The numbers of the back references, in their order.
    pub references: Vec<usize>,
    /// A group is called.
    pub calls: bool,
}

impl Survey {
    fn note(&mut self, expr: &Expr) -> Result<(), AllocError>
        ensures { OnOk result (Notes (tree_of expr.now ∷ []) self.old self.new) }
    {
        match expr {
            Expr::Backref { group, .. } => self.note_reference(*group),
            Expr::BackrefWithRelativeRecursionLevel { group, .. } => self.note_reference(*group),
            Expr::SubroutineCall(_) => self.note_call(),
            Expr::AstNode(node, _) => self.note_unresolved(node),
            Expr::Absent(_) => Ok(()),
            _ => Ok(()),
        }
    }

    fn note_unresolved(&mut self, node: &AstNode) -> Result<(), AllocError>
        ensures { OnOk result (Notes
            (tree.AstNode (unresolved_of node.now) ∷ []) self.old self.new) }
    {
        match node {
            AstNode::SubroutineCall(_) => self.note_call(),
            _ => Ok(()),
        }
    }

    fn note_reference(&mut self, group: usize) -> Result<(), AllocError>
        ensures { OnOk result (Notes (tree.Backref group false ∷ []) self.old self.new) }
    {
        self.references.push(group)?;
        Ok(())
    }

    fn note_call(&mut self) -> Result<(), AllocError>
        ensures { OnOk result (Notes
            (tree.AstNode tree.UnresolvedCall ∷ []) self.old self.new) }
    {
        self.calls = true;
        Ok(())
    }

    /// Sees a node and those below it.
    pub fn note_all(&mut self, expr: &Expr) -> Result<(), AllocError>
        ensures { OnOk result (Notes (nodes (tree_of expr.now)) self.old self.new) }
    {
        self.note(expr)?;
        for i in 0..part_count(expr) {
            self.note_all(part(expr, i))?;
        }
        Ok(())
    }
}
