//! The searches for patterns in one line.

use crate::left_out::{Error, error_of};
use crate::patterns::Patterns;
use crate::translation::Anchors;
use fancy_characters::places::is_place;
use fancy_matches::found::{Captures, Match};
use fancy_scanner::scan_text::TreeScan;
use std::alloc::{AllocError, Global};

/// The tree of a pattern.
#[derive(Clone, Copy)]
pub(crate) struct Tree {
    /// It is of an end that refers back.
    is_made: bool,
    number: usize,
}

/// What a search for a pattern gives.
#[derive(Drop)]
pub(crate) enum Outcome<'t> {
    Nothing,
    Found { tree: Tree, whole: Match<'t> },
    /// The pattern is refused, or the search exceeds a limit.
    Refused(Error),
}

/// The searches in one line, which keep what they find as long as it holds.
#[derive(Drop)]
pub(crate) struct Search<'r, 't> {
    pub(crate) alloc: Global,
    pub(crate) patterns: &'r mut Patterns,
    /// The trees of patterns of rules.
    pub(crate) rules: TreeScan<'r, 't>,
    /// The trees of ends that refer back.
    pub(crate) made: TreeScan<'r, 't>,
}

/// Compiles a pattern of these, and adds it to a scan; returns the number of its tree there.
fn add_tree(
    scan: &mut TreeScan<'_, '_>,
    patterns: &mut Patterns,
    pattern: usize,
    anchors: Anchors,
) -> Result<usize, Error> {
    let compiled = patterns.compile(pattern, anchors)?;
    let number = scan.tree_count();
    scan.push(compiled)?;
    patterns.set_tree(pattern, anchors, number);
    Ok(number)
}

/// Searches from a byte on for a tree of a scan.
fn look<'t>(scan: &mut TreeScan<'_, 't>, tree: Tree, at: usize) -> Result<Outcome<'t>, AllocError> {
    if !is_place(scan.text().as_bytes(), at) {
        return Ok(Outcome::Nothing);
    }
    let Ok(step) = scan.find_among(&[tree.number], at) else {
        return Err(AllocError);
    };
    Ok(match (step.stopped, step.found) {
        (Some(stopped), _) => Outcome::Refused(error_of(stopped.limit)),
        (None, Some(found)) => Outcome::Found {
            tree,
            whole: found.whole,
        },
        (None, None) => Outcome::Nothing,
    })
}

impl<'r, 't> Search<'r, 't> {
    /// The line.
    pub(crate) fn text(&self) -> &'t str {
        self.rules.text()
    }

    /// The tree of a pattern in which these anchors may match.
    fn tree(&mut self, pattern: usize, anchors: Anchors) -> Result<Tree, Error> {
        let is_made = self.patterns.is_made(pattern);
        let number = match self.patterns.tree(pattern, anchors) {
            Some(number) => number,
            None if is_made => add_tree(&mut self.made, self.patterns, pattern, anchors)?,
            None => add_tree(&mut self.rules, self.patterns, pattern, anchors)?,
        };
        Ok(Tree { is_made, number })
    }

    /// The first match of a pattern from a byte on.
    pub(crate) fn find(
        &mut self,
        pattern: usize,
        anchors: Anchors,
        at: usize,
    ) -> Result<Outcome<'t>, AllocError> {
        match self.tree(pattern, anchors) {
            Ok(tree) if tree.is_made => look(&mut self.made, tree, at),
            Ok(tree) => look(&mut self.rules, tree, at),
            Err(Error::Memory) => Err(AllocError),
            Err(error) => Ok(Outcome::Refused(error)),
        }
    }

    /// The groups of the last match of a tree.
    pub(crate) fn captures(&self, tree: Tree) -> Option<&Captures<'t>> {
        if tree.is_made {
            self.made.captures(tree.number)
        } else {
            self.rules.captures(tree.number)
        }
    }

    /// Whether a pattern can be compiled: if it is refused, why.
    pub(crate) fn check(&mut self, pattern: usize) -> Result<Option<Error>, AllocError> {
        let anchors = Anchors {
            start: false,
            search: false,
        };
        match self.tree(pattern, anchors) {
            Ok(_) => Ok(None),
            Err(Error::Memory) => Err(AllocError),
            Err(error) => Ok(Some(error)),
        }
    }
}
