//! `RegexBuilder`: a pattern with its options, and the regex of both.

ghost use Rattle.std.specs.Prelude.{◌≡◌, ◌≤◌, MatchResult, Some};
ghost use Rattle.fancy_meaning.specs.WellFormed.{most_groups};
ghost use Rattle.fancy_regex.specs.Builders.{AreNamesOf, IsBuilt, IsMadeOf, IsRefused, IsTreeOf, IsTreeWithin, default_builder, options, parsing, with_options, with_parsing};
ghost use Rattle.fancy_regex.specs.Scanners.{IsScanPattern, IsScanTree};

use crate::error::Error;
use crate::names::GroupNames;
use crate::options::RegexOptions;
use crate::regexes::Regex;
use crate::scanner::ScanPattern;
use fancy_expr::expr::ExprTree;
use fancy_matches::matcher::Matcher;
use fancy_pattern::pattern::parse_tree;
use fancy_scanner::scanner::ScanTree;
use std::alloc::Global;
use std::sync::Arc;

/// A pattern with the options of its regex. Each setter changes one option, and returns the builder with it.
///
/// The setters say their defaults. docs/LIMITS.md says what the limits count and when to lower them.
///
/// # Examples
///
/// ```
/// let mut word = RegexBuilder::new("[a-z]+").case_insensitive(true).step_limit(1_000_000).build(alloc)?;
/// let found = word.find("7 Apples")?; // 2..8, "Apples"
/// ```
#[derive(Clone, Copy, Debug)]
pub struct RegexBuilder<'p> {
    pub(crate) pattern: &'p str,
    pub(crate) options: RegexOptions,
}

impl<'p> RegexBuilder<'p> {
    /// The pattern with the default options. The pattern is not read before `build`.
    pub fn new(pattern: &'p str) -> RegexBuilder<'p>
        ensures { result ≡ default_builder pattern.entry }
    {
        RegexBuilder {
            pattern,
            options: RegexOptions::default(),
        }
    }

    /// If set, literals, classes and references match without regard to case, as with the flag `i`. Off by default.
    #[must_use]
    pub fn case_insensitive(mut self, yes: bool) -> RegexBuilder<'p>
        ensures { result ≡ with_parsing self.entry
            (record (parsing self.entry) { case_insensitive = yes }) }
    {
        self.options.parsing.case_insensitive = yes;
        self
    }

    /// If set, `^` and `$` also match where a line begins and ends, as with the flag `m`. Off by default.
    #[must_use]
    pub fn multi_line(mut self, yes: bool) -> RegexBuilder<'p>
        ensures { result ≡ with_parsing self.entry
            (record (parsing self.entry) { multi_line = yes }) }
    {
        self.options.parsing.multi_line = yes;
        self
    }

    /// If set, `.` matches a newline too, as with the flag `s`. Off by default.
    #[must_use]
    pub fn dot_matches_new_line(mut self, yes: bool) -> RegexBuilder<'p>
        ensures { result ≡ with_parsing self.entry
            (record (parsing self.entry) { dot_matches_new_line = yes }) }
    {
        self.options.parsing.dot_matches_new_line = yes;
        self
    }

    /// If set, white space and comments in the pattern are ignored, as with the flag `x`. Off by default.
    #[must_use]
    pub fn ignore_whitespace(mut self, yes: bool) -> RegexBuilder<'p>
        ensures { result ≡ with_parsing self.entry
            (record (parsing self.entry) { ignore_whitespace = yes }) }
    {
        self.options.parsing.ignore_whitespace = yes;
        self
    }

    /// If set, a CR before an LF belongs to the end of its line, as with the flag `R`. Off by default.
    #[must_use]
    pub fn crlf(mut self, yes: bool) -> RegexBuilder<'p>
        ensures { result ≡ with_parsing self.entry
            (record (parsing self.entry) { crlf = yes }) }
    {
        self.options.parsing.crlf = yes;
        self
    }

    /// If set, quantifiers are lazy, and greedy with a `?`, as with the flag `U`. Off by default.
    #[must_use]
    pub fn swap_greed(mut self, yes: bool) -> RegexBuilder<'p>
        ensures { result ≡ with_parsing self.entry
            (record (parsing self.entry) { swap_greed = yes }) }
    {
        self.options.parsing.swap_greed = yes;
        self
    }

    /// If set, folding, classes and word characters are those of Unicode, and otherwise those of ASCII. On by default.
    #[must_use]
    pub fn unicode_mode(mut self, yes: bool) -> RegexBuilder<'p>
        ensures { result ≡ with_parsing self.entry
            (record (parsing self.entry) { unicode = yes }) }
    {
        self.options.parsing.unicode = yes;
        self
    }

    /// If set, a line under `multi_line` begins where it does for Oniguruma. Off by default.
    #[must_use]
    pub fn oniguruma_mode(mut self, yes: bool) -> RegexBuilder<'p>
        ensures { result ≡ with_parsing self.entry
            (record (parsing self.entry) { oniguruma = yes }) }
    {
        self.options.parsing.oniguruma = yes;
        self
    }

    /// If set, and if the pattern has a named group, a plain `( )` captures nothing. Off by default.
    #[must_use]
    pub fn ignore_numbered_groups_when_named_groups_exist(mut self, yes: bool) -> RegexBuilder<'p>
        ensures { result ≡ with_parsing self.entry (record (parsing self.entry)
            { ignore_numbered_groups_when_named_groups_exist = yes }) }
    {
        self.options
            .parsing
            .ignore_numbered_groups_when_named_groups_exist = yes;
        self
    }

    /// If set, a match is not empty. Off by default.
    #[must_use]
    pub fn find_not_empty(mut self, yes: bool) -> RegexBuilder<'p>
        ensures { result ≡ with_options self.entry
            (record (options self.entry) { not_empty = yes }) }
    {
        self.options.not_empty = yes;
        self
    }

    /// If set, a search finds the longest match, in bytes, at the earliest start, and not the first one. Off by default.
    #[must_use]
    pub fn leftmost_longest(mut self, yes: bool) -> RegexBuilder<'p>
        ensures { result ≡ with_options self.entry
            (record (options self.entry) { longest = yes }) }
    {
        self.options.longest = yes;
        self
    }

    /// How often a search may backtrack to a branch. The default is 20,000,000, and one more for each byte of the text and
    /// for its end; a limit that is set does not grow with the text. A search that exceeds it returns
    /// `RuntimeError::BacktrackLimitExceeded`.
    #[must_use]
    pub fn backtrack_limit(self, limit: usize) -> RegexBuilder<'p>
        ensures { result ≡ with_options self.entry
            (record (options self.entry) { backtrack_limit = Some limit }) }
    {
        RegexBuilder {
            pattern: self.pattern,
            options: RegexOptions {
                backtrack_limit: Some(limit),
                ..self.options
            },
        }
    }

    /// How many instructions a search may execute. The default, and `u64::MAX`, is 100,000,000, and eight more for each byte
    /// of the text and for its end; a limit that is set does not grow with the text. A search that exceeds it returns
    /// `RuntimeError::StepLimitExceeded`.
    #[must_use]
    pub fn step_limit(mut self, limit: u64) -> RegexBuilder<'p>
        ensures { result ≡ with_options self.entry
            (record (options self.entry) { step_limit = limit }) }
    {
        self.options.step_limit = limit;
        self
    }

    /// How many instructions the program of the pattern may have; `None` is no limit. The default is 100,000. A pattern that
    /// needs more is refused as `CompileError::PatternTooComplex`.
    #[must_use]
    pub fn max_prog_size(self, limit: Option<usize>) -> RegexBuilder<'p>
        ensures { result ≡ with_options self.entry
            (record (options self.entry) { max_prog_size = limit }) }
    {
        RegexBuilder {
            pattern: self.pattern,
            options: RegexOptions {
                max_prog_size: limit,
                ..self.options
            },
        }
    }

    /// How many nodes of the pattern may nest in one another, with calls written out; `None` is no limit. The default is 500,
    /// for a stack of 1 MB. A pattern that nests deeper is refused as `Error::NestLimitExceeded`.
    #[must_use]
    pub fn max_nesting(self, limit: Option<usize>) -> RegexBuilder<'p>
        ensures { result ≡ with_options self.entry
            (record (options self.entry) { max_nesting = limit }) }
    {
        RegexBuilder {
            pattern: self.pattern,
            options: RegexOptions {
                max_nesting: limit,
                ..self.options
            },
        }
    }

    /// How many nodes of the pattern the analysis may look at in rounds that change something; `None` is no limit. The
    /// default is 5,000,000. All nodes count once for each round in which the size of a group changes. If the pattern has
    /// calls, they count once more for each round that finds a further group that can end. A pattern that exceeds the limit
    /// is refused as `Error::AnalysisLimitExceeded`, before it is analysed.
    #[must_use]
    pub fn analysis_limit(self, limit: Option<usize>) -> RegexBuilder<'p>
        ensures { result ≡ with_options self.entry
            (record (options self.entry) { analysis_limit = limit }) }
    {
        RegexBuilder {
            pattern: self.pattern,
            options: RegexOptions {
                analysis_limit: limit,
                ..self.options
            },
        }
    }

    /// How many states a search may visit in easy parts of the pattern, which are searched without backtracking; `None` is no
    /// limit. The default is 20,000,000. Bytes that walks over the text read and that back references compare are visits
    /// too, beyond some sixteen passes over the text. A search that visits more returns `Error::VisitLimitExceeded`.
    #[must_use]
    pub fn visit_limit(self, limit: Option<usize>) -> RegexBuilder<'p>
        ensures { result ≡ with_options self.entry
            (record (options self.entry) { visit_limit = limit }) }
    {
        RegexBuilder {
            pattern: self.pattern,
            options: RegexOptions {
                visit_limit: limit,
                ..self.options
            },
        }
    }

    /// How many bytes a search may keep at one time for easy parts of the pattern, and again for its branches elsewhere;
    /// `None` is no limit. The default is 256 MiB. A search that keeps more returns `Error::MemoryLimitExceeded`.
    #[must_use]
    pub fn memory_limit(self, limit: Option<usize>) -> RegexBuilder<'p>
        ensures { result ≡ with_options self.entry
            (record (options self.entry) { memory_limit = limit }) }
    {
        RegexBuilder {
            pattern: self.pattern,
            options: RegexOptions {
                memory_limit: limit,
                ..self.options
            },
        }
    }

    /// The tree of the pattern.
    fn tree(&self, alloc: Global) -> Result<ExprTree, Error>
        ensures { MatchResult
            result
            (IsTreeOf self.now.pattern.now (options self.now))
            (IsRefused self.now.pattern.now (options self.now)) }
    {
        match parse_tree(alloc, self.pattern, self.options.parsing) {
            Ok(tree) => Ok(tree),
            Err(error) => Err(Error::from(error)),
        }
    }

    /// The tree of the pattern, if its analysis stays within the limit.
    fn tree_within_limit(&self, alloc: Global) -> Result<ExprTree, Error>
        ensures { MatchResult
            result
            (IsTreeWithin self.now.pattern.now (options self.now))
            (IsRefused self.now.pattern.now (options self.now)) }
    {
        let tree = self.tree(alloc)?;
        if self.options.is_within_analysis_limit(alloc, &tree)? {
            Ok(tree)
        } else {
            Err(Error::AnalysisLimitExceeded)
        }
    }

    /// Compiles the pattern with these options.
    ///
    /// # Errors
    ///
    /// `ParseError`, with its byte, if the pattern cannot be read. `AnalysisLimitExceeded` if its analysis exceeds the limit.
    /// `CompileError` or `NestLimitExceeded` if it is refused otherwise. `Memory` if an allocation fails.
    pub fn build(&self, alloc: Global) -> Result<Regex, Error>
        ensures { MatchResult
            result
            (IsBuilt self.now.pattern.now (options self.now))
            (IsRefused self.now.pattern.now (options self.now)) }
    {
        let tree = self.tree_within_limit(alloc)?;
        let search = self.options.search_options();
        match Matcher::new(alloc, &tree, &search, self.options.backtrack_limit) {
            Ok(engine) => {
                let mut engine = engine;
                engine.limit(self.options.search_limits());
                self.regex_of(alloc, tree, engine)
            }
            Err(error) => Err(Error::from(error)),
        }
    }

    /// The names of the groups of the tree.
    fn names_of(alloc: Global, tree: ExprTree) -> GroupNames
        requires { tree.total_groups ≤ most_groups }
        ensures { AreNamesOf tree result }
    {
        GroupNames {
            alloc,
            count: tree.total_groups + 1,
            numbers: tree.into_named_groups(),
        }
    }

    /// The pattern compiled for a scanner, with the names of its groups.
    ///
    /// It is refused as `build` refuses it.
    pub(crate) fn scan_pattern(&self, alloc: Global) -> Result<ScanPattern, Error>
        ensures { MatchResult
            result
            (IsScanPattern self.now.pattern.now (options self.now))
            (IsRefused self.now.pattern.now (options self.now)) }
    {
        let tree = self.tree_within_limit(alloc)?;
        let search = self.options.search_options();
        match ScanTree::new(alloc, &tree, &search, self.options.backtrack_limit) {
            Ok(compiled) => {
                let mut compiled = compiled;
                compiled.limit(self.options.search_limits());
                let names = Arc::new(alloc, RegexBuilder::names_of(alloc, tree))?;
                Ok(ScanPattern { compiled, names })
            }
            Err(error) => Err(Error::from(error)),
        }
    }

    /// Compiles the pattern for a scanner of `fancy_scanner`, which searches by trees, with the limits of these options.
    ///
    /// # Errors
    ///
    /// Those of `build`.
    pub fn build_scan_tree(&self, alloc: Global) -> Result<ScanTree, Error>
        ensures { MatchResult
            result
            (IsScanTree self.now.pattern.now (options self.now))
            (IsRefused self.now.pattern.now (options self.now)) }
    {
        let ScanPattern { compiled, names: _ } = self.scan_pattern(alloc)?;
        Ok(compiled)
    }

    /// The regex of the pattern, by its tree and what this was compiled to.
    fn regex_of(&self, alloc: Global, tree: ExprTree, engine: Matcher) -> Result<Regex, Error>
        requires { tree.total_groups ≤ most_groups }
        ensures { MatchResult
            result
            (IsMadeOf self.now.pattern.now (options self.now) tree engine)
            (λ e. e ≡ Error.Memory) }
    {
        let names = RegexBuilder::names_of(alloc, tree);
        Ok(Regex {
            pattern: String::from_str(alloc, self.pattern)?,
            options: self.options,
            names: Arc::new(alloc, names)?,
            engine,
        })
    }
}
