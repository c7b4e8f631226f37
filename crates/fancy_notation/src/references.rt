//! What comes with a tree that was read: the groups that it names, and whether there is a call.

ghost use Rattle.std.specs.Prelude.{◌≡◌, MatchResult};
ghost use Rattle.fancy_expr.specs.declared.error.Error.TheVariants.{Memory};
ghost use Rattle.fancy_notation.specs.References.{with_node, with_nodes, with_reference, with_number};
ghost use Rattle.fancy_notation.specs.NotationViews.{referenced_of};
ghost use Rattle.fancy_expr.specs.Views.{tree_of};
ghost use Rattle.fancy_meaning.specs.Nodes.{nodes};

use fancy_expr::error::Error;
use fancy_expr::expr::Expr;
use fancy_expr::parts::{part, part_count};

/// What the nodes that were seen name.
#[derive(Drop)]
pub struct References {
    /// The numbers of the back references, in their order.
    pub references: Vec<usize>,
    /// A group is named by its number.
    pub numeric: bool,
    /// A group is called.
    pub calls: bool,
}

impl References {
    fn add(&mut self, expr: &Expr) -> Result<(), Error>
        ensures { MatchResult result
            (λ u. referenced_of self.new ≡ with_node (referenced_of self.old) (tree_of expr.now))
            (λ e. e ≡ Memory) }
    {
        match expr {
            Expr::Backref { group, .. } => self.add_group(*group),
            Expr::BackrefWithRelativeRecursionLevel { group, .. } => self.add_group(*group),
            Expr::BackrefExistsCondition { .. } => self.add_number(false),
            Expr::SubroutineCall(_) => self.add_number(true),
            Expr::Absent(_) => Ok(()),
            _ => Ok(()),
        }
    }

    fn add_group(&mut self, group: usize) -> Result<(), Error>
        ensures { MatchResult result
            (λ u. referenced_of self.new ≡ with_reference (referenced_of self.old) group)
            (λ e. e ≡ Memory) }
    {
        self.references.push(group)?;
        self.add_number(false)
    }

    fn add_number(&mut self, called: bool) -> Result<(), Error>
        ensures { MatchResult result
            (λ u. referenced_of self.new ≡ with_number (referenced_of self.old) called)
            (λ e. e ≡ Memory) }
    {
        self.numeric = true;
        self.calls = self.calls || called;
        Ok(())
    }

    /// Sees a node and those below it.
    pub fn add_all(&mut self, expr: &Expr) -> Result<(), Error>
        ensures { MatchResult result
            (λ u. referenced_of self.new
            ≡ with_nodes (referenced_of self.old) (nodes (tree_of expr.now))) (λ e. e ≡ Memory) }
    {
        self.add(expr)?;
        for i in 0..part_count(expr) {
            self.add_all(part(expr, i))?;
        }
        Ok(())
    }
}
