//! From a tree to the figures of its picture, child by child, each with its size.

use crate::figures::{Extent, Figure, MOST_COLUMNS, Shape, Style, columns, measure, size_of};
use crate::names::GroupNames;
use crate::words::{frame_style, frame_words, leaf_shape, push_loop, push_words};
use fancy_expr::expr::Expr;
use fancy_expr::parts::{part, part_count};
use std::alloc::{AllocError, Global};

/// What a node stands in.
#[derive(Clone, Copy, PartialEq, Eq)]
pub enum Parent {
    Nothing,
    /// Behind another node of the same sequence.
    Sequence,
    Atomic,
}

/// The figures so far, and the number of the next group.
#[derive(Drop)]
pub struct Builder<'n> {
    pub alloc: Global,
    pub figures: Vec<Figure>,
    pub group: usize,
    pub names: &'n GroupNames,
}

/// What a child of the node stands in.
fn parent_of_part(expr: &Expr, i: usize) -> Parent {
    match expr {
        Expr::Concat(_) if i > 0 => Parent::Sequence,
        Expr::AtomicGroup(_) => Parent::Atomic,
        _ => Parent::Nothing,
    }
}

/// Whether the frame of an atomic group is left out, as a loop says it in its place.
fn is_possessive_loop(expr: &Expr) -> bool {
    match expr {
        Expr::AtomicGroup(body) => matches!(&**body, Expr::Repeat { greedy: true, .. }),
        _ => false,
    }
}

impl Builder<'_> {
    /// One figure more, which holds those from `begin` on.
    fn push(&mut self, shape: Shape, label: String, begin: usize) -> Result<(), AllocError> {
        let extent = measure(&self.figures, begin);
        let size = size_of(shape, label.as_str(), extent);
        let count = self.figures.len().saturating_sub(begin).saturating_add(1);
        self.figures.push(Figure {
            shape,
            label,
            size,
            count,
        })?;
        Ok(())
    }

    /// The same with these words as its label.
    fn push_labelled(&mut self, shape: Shape, words: &str, begin: usize) -> Result<(), AllocError> {
        let label = String::from_str(self.alloc, words)?;
        self.push(shape, label, begin)
    }

    /// Adds the characters to the box that was drawn last, if they fit there.
    fn join(&mut self, shape: Shape, text: &str) -> Result<bool, AllocError> {
        let Some(last) = self.figures.last_mut() else {
            return Ok(false);
        };
        let is_full = columns(last.label.as_str()) >= MOST_COLUMNS;
        if last.shape != shape || is_full {
            return Ok(false);
        }
        last.label.push_str(text)?;
        last.size = size_of(shape, last.label.as_str(), Extent::default());
        Ok(true)
    }

    /// The figure of a node without children.
    fn push_leaf(&mut self, expr: &Expr, parent: Parent) -> Result<(), AllocError> {
        let mut label = String::new(self.alloc);
        push_words(&mut label, expr, self.names)?;
        let shape = leaf_shape(expr);
        let may_join = parent == Parent::Sequence && matches!(shape, Shape::Text { .. });
        if may_join && self.join(shape, label.as_str())? {
            return Ok(());
        }
        let begin = self.figures.len();
        self.push(shape, label, begin)
    }

    /// The figure of a loop around those from `begin` on.
    fn push_loop(
        &mut self,
        (lo, hi): (usize, usize),
        greedy: bool,
        parent: Parent,
        begin: usize,
    ) -> Result<(), AllocError> {
        let is_possessive = parent == Parent::Atomic && greedy;
        let mut label = String::new(self.alloc);
        push_loop(&mut label, (lo, hi), greedy, is_possessive)?;
        let shape = Shape::Loop {
            is_optional: lo == 0,
            repeats: hi > 1,
        };
        self.push(shape, label, begin)
    }

    fn push_group(&mut self, number: usize, begin: usize) -> Result<(), AllocError> {
        let mut label = String::new(self.alloc);
        self.names.push_group(&mut label, number)?;
        self.push(Shape::Frame(Style::Group), label, begin)
    }

    /// The frame of a node, around the figures from `begin` on.
    fn push_frame(&mut self, expr: &Expr, begin: usize) -> Result<(), AllocError> {
        if part_count(expr) > 1 {
            self.push_labelled(Shape::Sequence, "", begin)?;
        }
        let shape = Shape::Frame(frame_style(expr));
        self.push_labelled(shape, frame_words(expr), begin)
    }

    /// The figure of a node whose children have been added from `begin` on.
    fn close(
        &mut self,
        expr: &Expr,
        number: usize,
        parent: Parent,
        begin: usize,
    ) -> Result<(), AllocError> {
        match expr {
            Expr::Concat(_) => self.push_labelled(Shape::Sequence, "", begin),
            Expr::Alt(_) | Expr::Conditional { .. } => self.push_labelled(Shape::Choice, "", begin),
            Expr::Group(_) => self.push_group(number, begin),
            Expr::Repeat { lo, hi, greedy, .. } => {
                self.push_loop((*lo, *hi), *greedy, parent, begin)
            }
            _ if is_possessive_loop(expr) => Ok(()),
            _ => self.push_frame(expr, begin),
        }
    }

    /// What a conditional writes before its branch for the other case.
    fn open_part(&mut self, expr: &Expr, i: usize) -> Result<(), AllocError> {
        if i == 2 && matches!(expr, Expr::Conditional { .. }) {
            let begin = self.figures.len();
            self.push_labelled(Shape::Box(Style::Look), "otherwise", begin)?;
        }
        Ok(())
    }

    /// What a conditional makes of its condition, from `own` on, and of its branches. The node began at `begin`.
    fn close_part(
        &mut self,
        expr: &Expr,
        i: usize,
        begin: usize,
        own: usize,
    ) -> Result<(), AllocError> {
        match (expr, i) {
            (Expr::Conditional { .. }, 0) => {
                self.push_labelled(Shape::Frame(Style::Look), "if", own)
            }
            (Expr::Conditional { .. }, 1) => self.push_labelled(Shape::Sequence, "", begin),
            (Expr::Conditional { .. }, _) => self.push_labelled(Shape::Sequence, "", own),
            _ => Ok(()),
        }
    }

    /// Adds the figures of the node and of those below it.
    pub fn add(&mut self, expr: &Expr, parent: Parent) -> Result<(), AllocError> {
        let count = part_count(expr);
        if count == 0 {
            return self.push_leaf(expr, parent);
        }
        let number = self.group;
        if matches!(expr, Expr::Group(_)) {
            self.group = number.saturating_add(1);
        }
        let begin = self.figures.len();
        for i in 0..count {
            let own = self.figures.len();
            self.open_part(expr, i)?;
            self.add(part(expr, i), parent_of_part(expr, i))?;
            self.close_part(expr, i, begin, own)?;
        }
        self.close(expr, number, parent, begin)
    }
}
