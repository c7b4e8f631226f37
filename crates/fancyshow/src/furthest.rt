//! How far the attempts of a run come.

use crate::marks::{MarkedLeaf, mark_at};
use fancy_expr::error::Error;
use fancy_vm::vm::{Insn, Prog, Progress, RunOptions, Stepper};
use std::alloc::Global;

/// How many leaves are reported of those that fail in one place.
const MOST_WANTED: usize = 8;

/// The attempt that gets furthest in the tree, and of several the one that matches most: where it begins, how far it gets,
/// and the leaves that fail there, by their marks.
#[derive(Clone, Copy)]
pub struct Furthest {
    pub start: usize,
    pub at: usize,
    /// The depth of the deepest of these leaves.
    depth: usize,
    /// The marks that are counted.
    marks: [usize; MOST_WANTED],
    count: usize,
    /// The last of them in the tree.
    last: usize,
    /// The run was not watched to its end.
    pub is_cut: bool,
}

impl Furthest {
    /// No attempt has come further than its start.
    fn at_start(start: usize) -> Furthest {
        Furthest {
            start,
            at: start,
            depth: 0,
            marks: [0; MOST_WANTED],
            count: 0,
            last: 0,
            is_cut: false,
        }
    }

    /// The leaves that fail there, by their marks.
    pub fn wanted(&self) -> &[usize] {
        self.marks.get(..self.count).unwrap_or(&[])
    }

    /// A leaf fails at this place, in an attempt that began at `start`. It is further than those before if it is further in
    /// the tree, or as far and its attempt matches more, or as much and it is a later leaf.
    fn add(&mut self, start: usize, leaf: Leaf) {
        let is_there = start == self.start && leaf.at == self.at;
        let len = leaf.at.saturating_sub(start);
        let most = self.at.saturating_sub(self.start);
        let is_further = (leaf.depth, len, leaf.mark) > (self.depth, most, self.last);
        if is_further && !is_there {
            *self = Furthest {
                at: leaf.at,
                ..Furthest::at_start(start)
            };
        }
        if (is_further || is_there) && !self.wanted().contains(&leaf.mark) {
            self.add_leaf(leaf);
        }
    }

    /// Adds the mark of a leaf, if there is room for it.
    fn add_leaf(&mut self, leaf: Leaf) {
        if let Some(free) = self.marks.get_mut(self.count) {
            *free = leaf.mark;
            self.count = self.count.saturating_add(1);
            self.last = self.last.max(leaf.mark);
            self.depth = self.depth.max(leaf.depth);
        }
    }
}

/// The leaf that is being tried: its mark and depth, the place, and how many branches there were.
#[derive(Clone, Copy)]
struct Leaf {
    mark: usize,
    depth: usize,
    at: usize,
    branches: usize,
}

/// Watches a run: where its attempt began, and the leaf that is being tried.
#[derive(Clone, Copy)]
struct Watch<'p> {
    prog: &'p Prog,
    leaves: &'p [MarkedLeaf<'p>],
    start: usize,
    leaf: Option<Leaf>,
    furthest: Furthest,
}

impl Watch<'_> {
    /// Before an instruction is executed.
    fn look(&mut self, stepper: &Stepper<'_>) {
        let place = stepper.pc();
        if let Some(mark) = mark_at(self.prog, place) {
            self.leaf = Some(Leaf {
                mark,
                depth: match self.leaves.get(mark.saturating_sub(1)) {
                    Some(leaf) => leaf.depth,
                    None => 0,
                },
                at: stepper.ix(),
                branches: stepper.branches(),
            });
            return;
        }
        match self.prog.body().get(place) {
            // an attempt begins with it; `\K` is such an instruction too
            Some(Insn::Save(0)) if place <= 3 => self.start = stepper.ix(),
            Some(Insn::EndAtomic) => self.leaf = None,
            _ => {}
        }
    }

    /// After an instruction was executed, with this many branches left: the leaf failed if one from before it was taken.
    fn note(&mut self, branches: Option<usize>) {
        let Some(leaf) = self.leaf else {
            return;
        };
        if matches!(branches, Some(left) if left >= leaf.branches) {
            return;
        }
        self.leaf = None;
        if leaf.mark != 0 {
            self.furthest.add(self.start, leaf);
        }
    }

    /// Watches up to this many instructions.
    fn run(&mut self, stepper: Stepper<'_>, most: u64) -> Result<(), Error> {
        let mut stepper = stepper;
        for _ in 0..most {
            self.look(&stepper);
            match stepper.step()? {
                Progress::GoesOn(further) => {
                    self.note(Some(further.branches()));
                    stepper = further;
                }
                Progress::Ends(_) => {
                    self.note(None);
                    return Ok(());
                }
            }
        }
        self.furthest.is_cut = true;
        Ok(())
    }
}

/// The attempt of the run that gets furthest, of those in this many steps; none if the run cannot begin.
pub fn watch_run(
    alloc: Global,
    prog: &Prog,
    leaves: &[MarkedLeaf<'_>],
    text: &str,
    options: &RunOptions,
    most: u64,
) -> Result<Option<Furthest>, Error> {
    if !options.fits(prog, text) {
        return Ok(None);
    }
    let stepper = Stepper::new(alloc, prog, text, options)?;
    let mut watch = Watch {
        prog,
        leaves,
        start: options.pos,
        leaf: None,
        furthest: Furthest::at_start(options.pos),
    };
    watch.run(stepper, most)?;
    Ok(Some(watch.furthest))
}
