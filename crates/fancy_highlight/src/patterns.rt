//! The patterns of rules: their texts, and what they are compiled to when they are asked for.

ghost use Rattle.std.specs.Prelude.{◌<◌};

use crate::left_out::Error;
use crate::translation::{Anchors, translate};
use fancy_regex::RegexBuilder;
use fancy_scanner::scanner::ScanTree;
use std::alloc::{AllocError, Global};
use std::collections::BTreeMap;

/// A pattern. It is compiled anew for each of the anchors in it that may match, or may not.
#[derive(Drop)]
pub(crate) struct Pattern {
    text: String,
    /// The anchors that it has.
    anchors: Anchors,
    /// It is an end that refers back, for what a begin captured.
    pub(crate) is_made: bool,
    /// The numbers of its trees, by whether `\A` and `\G` may match; `None` for those that are not compiled yet.
    trees: [Option<usize>; 4],
}

/// The number of a pattern's tree in which these anchors may match.
fn variant(anchors: Anchors) -> usize
    ensures { result < 4 }
{
    match (anchors.start, anchors.search) {
        (false, false) => 0,
        (true, false) => 1,
        (false, true) => 2,
        (true, true) => 3,
    }
}

impl Pattern {
    /// The anchors that matter to it, of those that may match.
    fn anchors(&self, anchors: Anchors) -> Anchors {
        Anchors {
            start: self.anchors.start && anchors.start,
            search: self.anchors.search && anchors.search,
        }
    }
}

/// All patterns. Equal texts have equal numbers.
#[derive(Drop)]
pub(crate) struct Patterns {
    alloc: Global,
    patterns: Vec<Pattern>,
    numbers: BTreeMap<String, usize>,
}

impl Patterns {
    pub(crate) fn new(alloc: Global) -> Patterns {
        Patterns {
            alloc,
            patterns: Vec::new(alloc),
            numbers: BTreeMap::new(alloc),
        }
    }

    /// The number of the pattern with this text.
    pub(crate) fn number(&mut self, text: &str, is_made: bool) -> Result<usize, AllocError> {
        if let Some(number) = self.numbers.get(text) {
            return Ok(*number);
        }
        let number = self.patterns.len();
        self.patterns.push(Pattern {
            text: String::from_str(self.alloc, text)?,
            anchors: Anchors {
                start: text.contains("\\A"),
                search: text.contains("\\G"),
            },
            is_made,
            trees: [None; 4],
        })?;
        self.numbers
            .insert(String::from_str(self.alloc, text)?, number)?;
        Ok(number)
    }

    /// Whether the pattern with this number was made of an end that refers back.
    pub(crate) fn is_made(&self, number: usize) -> bool {
        match self.patterns.get(number) {
            Some(pattern) => pattern.is_made,
            None => false,
        }
    }

    /// The number of the tree of a pattern in which these anchors may match, if it is compiled.
    pub(crate) fn tree(&self, number: usize, anchors: Anchors) -> Option<usize> {
        let pattern = self.patterns.get(number)?;
        pattern.trees[variant(pattern.anchors(anchors))]
    }

    /// Notes the number of a tree.
    pub(crate) fn set_tree(&mut self, number: usize, anchors: Anchors, tree: usize) {
        if let Some(pattern) = self.patterns.get_mut(number) {
            let variant = variant(pattern.anchors(anchors));
            pattern.trees[variant] = Some(tree);
        }
    }

    /// Forgets the trees of patterns that were made.
    pub(crate) fn forget_made(&mut self) {
        for pattern in &mut self.patterns {
            if pattern.is_made {
                pattern.trees = [None; 4];
            }
        }
    }

    /// Compiles a pattern in which these anchors may match, with the limits of `Regex`.
    pub(crate) fn compile(&self, number: usize, anchors: Anchors) -> Result<ScanTree, Error> {
        let text = match self.patterns.get(number) {
            Some(pattern) => pattern.text.as_str(),
            None => "",
        };
        let translated = translate(self.alloc, text, anchors)?;
        let compiled = RegexBuilder::new(translated.text.as_str())
            .multi_line(true)
            .oniguruma_mode(true)
            .build_scan_tree(self.alloc);
        match compiled {
            Err(Error::ParseError(at, kind)) => {
                Err(Error::ParseError(translated.byte_before(at), kind))
            }
            compiled => compiled,
        }
    }
}
