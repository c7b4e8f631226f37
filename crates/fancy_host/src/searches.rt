//! What a host holds: a tree that was compiled, and the memory of its searches.

ghost use Rattle.std.specs.Prelude.{◌≡◌, IfOk, MatchResult};
ghost use Rattle.std.specs.Arc.{arc_value};
ghost use Rattle.std.proofs.Props.{props};
ghost use Rattle.fancy_expr.specs.Sound.{IsWellFormedTree};
ghost use Rattle.fancy_search.specs.Scratches.{Suits};

use crate::cursor::FancyCursor;
use crate::options::FancyOptions;
use crate::outcome::FancyOutcome;
use crate::refused::failure_of;
use crate::tree::CompiledTree;
use fancy_expr::error::Error;
use fancy_expr::expr::ExprTree;
use fancy_notation::notation::read_tree;
use fancy_pattern::pattern::parse_tree;
use fancy_search::scratch::Scratch;
use fancy_search::search::Compiled;
use std::alloc::{AllocError, Global};
use std::sync::Arc;

/// A tree that was compiled, and the memory that its searches use again. Several may share one tree, each with memory of
/// its own.
#[derive(Drop)]
pub struct Searcher {
    tree: Arc<CompiledTree>,
    scratch: Scratch,
    ghost suits: { Suits (arc_value tree).compiled scratch } by { Prim.hlevel props },
}

impl Searcher {
    ghost use Rattle.std.specs.Prelude.{Some};
    ghost use Rattle.std.specs.Option.{option_map};
    ghost use Rattle.fancy_search.specs.Searches.{IsRefusedAs};
    ghost use Rattle.fancy_host.specs.Hosted.{Answers, ExceedsAnalysisLimit, FailsToCompile, IsMadeFrom, IsMadeOf, IsRead, Source, asked_of, pattern_in, tree_in};
    ghost use Rattle.fancy_host.specs.Hosted as hosted;
    ghost use Rattle.fancy_host.specs.Lists.{Lists, all_groups, span_alone};
    ghost use Rattle.fancy_host.specs.Rewritten.{Replaces, writing};
    ghost use Rattle.fancy_host.specs.Whether.{Tells};

    /// Compiles a tree whose analysis stands within its limit.
    fn of_tree_within_limit(
        alloc: Global,
        tree: ExprTree,
        options: &FancyOptions,
    ) -> Result<Box<Searcher>, Error>
        requires well_formed { IsWellFormedTree tree }
        requires analysed_within { ¬ ExceedsAnalysisLimit tree options.now }
        ensures { MatchResult
            result
            (λ searcher. IsMadeOf tree options.now (tree_in searcher.value))
            (λ error. IsRefusedAs (asked_of tree options.now) (Some options.now.max_nesting) error) }
    {
        let request = options.request();
        let compiled = Compiled::new(alloc, &tree, request.analysis(), request.compilation())?;
        let compiled_tree = CompiledTree {
            compiled,
            names: tree.into_named_groups(),
        };
        let searcher = Searcher {
            tree: Arc::new(alloc, compiled_tree)?,
            scratch: Scratch::new(alloc),
        };
        Ok(Box::new(alloc, searcher)?)
    }

    /// Compiles a tree that was read, of this pattern if it is one.
    fn of_tree(
        alloc: Global,
        pattern: Option<&str>,
        tree: ExprTree,
        options: &FancyOptions,
    ) -> Result<Box<Searcher>, FancyOutcome>
        requires { IsWellFormedTree tree }
        ensures { MatchResult
            result
            (λ searcher. IsMadeOf tree options.now (tree_in searcher.value))
            (λ outcome. (source : Source)
            → IsRead source options.now tree
            → pattern_in source ≡ option_map (λ text. text.now) pattern.entry
            → FailsToCompile options.now source outcome) }
    {
        options.check_analysis(alloc, &tree)?;
        match Searcher::of_tree_within_limit(alloc, tree, options) {
            Ok(searcher) => Ok(searcher),
            Err(error) => Err(failure_of(alloc, pattern, options, &error)),
        }
    }

    /// Reads and compiles the tree that a text in the notation spells.
    pub fn of_notation(
        alloc: Global,
        text: &str,
        options: &FancyOptions,
    ) -> Result<Box<Searcher>, FancyOutcome>
        ensures { MatchResult
            result
            (λ searcher. IsMadeFrom
            (hosted.notation text.now) options.now (tree_in searcher.value))
            (λ outcome. FailsToCompile options.now (hosted.notation text.now) outcome) }
    {
        match read_tree(alloc, text) {
            Ok(tree) => Searcher::of_tree(alloc, None, tree, options),
            Err(error) => Err(FancyOutcome::of_error(&error)),
        }
    }

    /// Reads and compiles the tree that a pattern spells.
    pub fn of_pattern(
        alloc: Global,
        pattern: &str,
        options: &FancyOptions,
    ) -> Result<Box<Searcher>, FancyOutcome>
        ensures { MatchResult
            result
            (λ searcher. IsMadeFrom
            (hosted.pattern pattern.now) options.now (tree_in searcher.value))
            (λ outcome. FailsToCompile options.now (hosted.pattern pattern.now) outcome) }
    {
        match parse_tree(alloc, pattern, options.parsing()) {
            Ok(tree) => Searcher::of_tree(alloc, Some(pattern), tree, options),
            Err(error) => Err(FancyOutcome::of_fault(&error)),
        }
    }

    /// The same once more. Both share the tree, and each has memory of its own for its searches, so that two threads may
    /// take one each.
    pub fn try_clone(&self, alloc: Global) -> Result<Box<Searcher>, AllocError>
        ensures { IfOk result (λ copy. tree_in copy.value ≡ tree_in self.now) }
    {
        let searcher = Searcher {
            tree: Arc::try_clone(&self.tree)?,
            scratch: Scratch::new(alloc),
        };
        Ok(Box::new(alloc, searcher)?)
    }

    /// The tree.
    pub fn tree(&self) -> &CompiledTree
        ensures { result.now ≡ tree_in self.now }
    {
        &self.tree
    }

    /// Whether there is a match.
    pub fn is_match(&mut self, alloc: Global, text: &str, options: &FancyOptions) -> FancyOutcome
        ensures tells { Tells
            (tree_in self.old)
            text.now
            options.now
            (hosted.passed_in options.now self.new.scratch)
            result }
        ensures keeps { tree_in self.new ≡ tree_in self.old }
    {
        self.tree.is_match(alloc, text, options, &mut self.scratch)
    }

    /// Searches the text, and writes the numbers of the answer as far as there is room.
    pub fn find(
        &mut self,
        alloc: Global,
        text: &str,
        options: &FancyOptions,
        spans: &mut [usize],
    ) -> FancyOutcome
        ensures finds { Answers
            (tree_in self.old)
            text.now
            options.now
            (hosted.passed_in options.now self.new.scratch)
            spans.old
            spans.new
            result }
        ensures keeps { tree_in self.new ≡ tree_in self.old }
    {
        self.tree
            .find(alloc, text, options, spans, &mut self.scratch)
    }

    /// Writes the spans of the next matches of a list, while there is room; `cursor` then is after
    /// them.
    pub fn find_all(
        &mut self,
        alloc: Global,
        text: &str,
        options: &FancyOptions,
        cursor: &mut FancyCursor,
        spans: &mut [usize],
    ) -> FancyOutcome
        ensures lists { Lists
            span_alone
            (tree_in self.old)
            text.now
            options.now
            (hosted.passed_in options.now self.new.scratch)
            cursor.old
            spans.old
            cursor.new
            spans.new
            result }
        ensures keeps { tree_in self.new ≡ tree_in self.old }
    {
        let scratch = &mut self.scratch;
        self.tree
            .find_all(alloc, text, options, cursor, spans, scratch)
    }

    /// Writes the spans of all groups of these matches; the list then stands after them.
    pub fn captures_all(
        &mut self,
        alloc: Global,
        text: &str,
        options: &FancyOptions,
        cursor: &mut FancyCursor,
        spans: &mut [usize],
    ) -> FancyOutcome
        ensures lists { Lists
            all_groups
            (tree_in self.old)
            text.now
            options.now
            (hosted.passed_in options.now self.new.scratch)
            cursor.old
            spans.old
            cursor.new
            spans.new
            result }
        ensures keeps { tree_in self.new ≡ tree_in self.old }
    {
        let scratch = &mut self.scratch;
        self.tree
            .captures_all(alloc, text, options, cursor, spans, scratch)
    }

    /// Writes the text with its first `limit` matches replaced, as much of it as there is room for with a zero at its end.
    pub fn replace(
        &mut self,
        alloc: Global,
        text: &str,
        options: &FancyOptions,
        limit: usize,
        is_literal: bool,
        replacement: &str,
        room: &mut [u8],
    ) -> FancyOutcome
        ensures replaces { Replaces
            (tree_in self.old)
            text.now
            options.now
            (hosted.passed_in options.now self.new.scratch)
            limit
            (writing (tree_in self.old) is_literal replacement.now)
            room.old
            room.new
            result }
        ensures keeps { tree_in self.new ≡ tree_in self.old }
    {
        let scratch = &mut self.scratch;
        self.tree.replace(
            alloc,
            text,
            options,
            limit,
            is_literal,
            replacement,
            room,
            scratch,
        )
    }
}
