//! Trees that are searched for together. Positions are in bytes of the text, from 0.

ghost use Rattle.std.specs.Prelude.{◌≡◌, ◌≢◌, ◌⊎◌, ◌++◌, ◌∷◌, ◌<◌, ◌≤◌, ◌^◌, [], ℕ, IfErr, IfOk, IfSome, IsTrue, List, MatchResult, None, OnErr, OnOk, Option, Some, length, option_map};
ghost use Rattle.fancy_meaning.specs.Options as plain;
ghost use Rattle.fancy_meaning.specs.Places as places;
ghost use Rattle.fancy_meaning.specs.Premises.{Input};
ghost use Rattle.fancy_expr.specs.Sound.{IsWellFormedTree};
ghost use Rattle.fancy_matches.specs.Listing.{begun_at};
ghost use Rattle.fancy_matches.specs.Matchers.{FindsCaptures, IsRegexOf, captures_text};
ghost use Rattle.fancy_search.specs.Searches.{IsRefusedAs, input_of, search_fits};
ghost use Rattle.fancy_scanner.specs.Scanning as scanning;
ghost use Rattle.fancy_scanner.specs.Scanning.{AreEasy, AreEasyRuns, IsRuleAt, IsStoppedByDelegates, IsScannerOf, IsTreeOf, KeepsTrees, RuleMatch, Rule, Scans, in_text, reuse_at, limits_in, match_view, rule_match, rule_of, start_of, trees_of};
ghost use Rattle.fancy_scanner.specs.Limits.{TellsPassed, passed_at, passed_with};
ghost use Rattle.fancy_scanner.specs.Scans.{BeginsScan, IsScanBy, IsWholeIn, KeepsAnswers, answers_in, told_with};
ghost use Rattle.fancy_steps.specs.SearchLimits.{StaysWithin};

use crate::reuse::Reuse;
use crate::scan_cache::ScanCache;
use crate::scan_limit::{ScanLimit, limit_of};
use crate::scan_text::{ScanStep, TreeScan};
use fancy_expr::error::Error;
use fancy_expr::expr::ExprTree;
use fancy_matches::found::Captures;
use fancy_matches::matcher::Matcher;
use fancy_search::search::SearchOptions;
use fancy_vm::vm::{SearchLimit, SearchLimits};
use std::alloc::{AllocError, Global};

/// A match of one of the trees, with its groups.
#[derive(Drop)]
pub struct ScanMatch<'t> {
    /// Which tree it is of: how many were added before it.
    pub index: usize,
    pub captures: Captures<'t>,
}

/// A tree whose search exceeded a limit: whether it has a match is not known.
#[derive(Clone, Copy, Debug, Drop)]
pub struct Stopped {
    /// Which tree it is: how many were added before it.
    pub index: usize,
    pub limit: ScanLimit,
}

/// What the searches for all trees found.
#[derive(Drop)]
pub struct Scan<'t> {
    /// Of the first match of each tree, the one that starts first. If several start there, it is the match of the tree
    /// that was added first. Trees whose search exceeded a limit do not count.
    pub found: Option<ScanMatch<'t>>,
    /// The first tree whose search exceeded a limit, if there is one.
    pub stopped: Option<Stopped>,
}

impl ScanMatch<'_> {
    /// Where the match begins, in bytes of the text.
    fn start(&self) -> usize
        ensures { result ≡ start_of (rule_match self.now) }
    {
        self.captures.whole().start()
    }
}

/// A tree that is compiled for a scanner.
pub struct ScanTree {
    matcher: Matcher,
    reuse: Reuse,
}

// Not derived: whoever owns one calls this drop, and would prove a derived one again (docs/GATE.md).
impl Drop for ScanTree {
    fn drop(self) {
        let ScanTree {
            matcher: _,
            reuse: _,
        } = self;
    }
}

impl ScanTree {
    /// Analyses and compiles the tree, as `Matcher::new` of fancy_matches does. The parameters are the same.
    ///
    /// # Errors
    ///
    /// Those of `Matcher::new`: `CompileError` or `NestLimitExceeded` if the tree is refused, `Memory` if an allocation
    /// fails.
    pub fn new(
        alloc: Global,
        tree: &ExprTree,
        options: &SearchOptions,
        backtrack_limit: Option<usize>,
    ) -> Result<ScanTree, Error>
        requires well_formed { IsWellFormedTree tree.now }
        requires fits { IsTrue (search_fits options.now []) }
        ensures { MatchResult result
            (λ x. (text : List ℕ)
            → IsTreeOf (rule_of tree.now options.now backtrack_limit text) text x)
            (IsRefusedAs
            (input_of tree.now options.now.analysis options.now.compilation)
            options.now.compilation.max_nesting) }
    {
        let matcher = Matcher::new(alloc, tree, options, backtrack_limit)?;
        let reuse = Reuse::of(tree, options);
        Ok(ScanTree { matcher, reuse })
    }

    /// Sets how many states the delegates of each later search may visit together, and how many bytes they may keep.
    /// Before this call there is no such limit. A search that exceeds one is reported as [`Stopped`].
    pub fn limit(&mut self, limits: SearchLimits)
        ensures { (r : Rule) (text : List ℕ)
            → IsTreeOf r text self.old
            → IsTreeOf (record r { limits = limits }) text self.new }
    {
        self.matcher.limit(limits);
    }
}

/// Trees that are searched for together, as the rules of a highlighter are, each with the memory of its searches.
pub struct TreeScanner {
    alloc: Global,
    trees: Vec<ScanTree>,
}

// Not derived: whoever owns one calls this drop, and would prove a derived one again (docs/GATE.md).
impl Drop for TreeScanner {
    fn drop(self) {
        let TreeScanner { alloc: _, trees: _ } = self;
    }
}

impl TreeScanner {
    /// A scanner without trees. It allocates nothing.
    pub fn new(alloc: Global) -> TreeScanner
        ensures { (text : List ℕ) → IsScannerOf [] text result }
    {
        TreeScanner {
            alloc,
            trees: Vec::new(alloc),
        }
    }

    /// Adds a compiled tree after the others. Its index is the number of trees before it.
    ///
    /// # Errors
    ///
    /// `AllocError` if an allocation fails. The scanner then has the trees that it had.
    pub fn push(&mut self, tree: ScanTree) -> Result<(), AllocError>
        ensures ok { OnOk result ((text : List ℕ) (rules : List Rule) (r : Rule)
            → IsScannerOf rules text self.old → IsTreeOf r text tree
            → IsScannerOf (rules ++ r ∷ []) text self.new) }
        ensures err { IfErr result (λ _. (text : List ℕ) (rules : List Rule)
            → IsScannerOf rules text self.old → IsScannerOf rules text self.new) }
    {
        self.trees.push(tree)?;
        Ok(())
    }

    /// Adds a matcher after the other trees, with its limits. A [`TreeScan`] searches for it at each position again,
    /// since the tree is no longer there to show how long a result holds; `add_tree` is the faster way.
    ///
    /// # Errors
    ///
    /// `AllocError` if an allocation fails. The scanner then has the trees that it had.
    pub fn add(&mut self, matcher: Matcher) -> Result<(), AllocError>
        ensures ok { OnOk result ((text : List ℕ) (rules : List Rule) (i : Input)
            (o : plain.RunOptions)
            → IsScannerOf rules text self.old → IsRegexOf i text o matcher
            → IsScannerOf
            (rules ++ record { input = i; options = o; limits = limits_in matcher } ∷ [])
            text self.new) }
        ensures err { IfErr result (λ _. (text : List ℕ) (rules : List Rule)
            → IsScannerOf rules text self.old → IsScannerOf rules text self.new) }
    {
        self.push(ScanTree {
            matcher,
            reuse: Reuse::Nothing,
        })?;
        Ok(())
    }

    /// Compiles a tree, as `ScanTree::new` does, and adds it after the others.
    ///
    /// # Errors
    ///
    /// Those of `ScanTree::new`. After an error the scanner has the trees that it had.
    pub fn add_tree(
        &mut self,
        tree: &ExprTree,
        options: &SearchOptions,
        backtrack_limit: Option<usize>,
    ) -> Result<(), Error>
        requires well_formed { IsWellFormedTree tree.now }
        requires fits { IsTrue (search_fits options.now []) }
        ensures ok { OnOk result ((text : List ℕ) (rules : List Rule)
            → IsScannerOf rules text self.old
            → IsScannerOf
            (rules ++ rule_of tree.now options.now backtrack_limit text ∷ [])
            text self.new) }
        ensures refused { IfErr result
            (IsRefusedAs
            (input_of tree.now options.now.analysis options.now.compilation)
            options.now.compilation.max_nesting) }
        ensures err { OnErr result ((text : List ℕ) (rules : List Rule)
            → IsScannerOf rules text self.old → IsScannerOf rules text self.new) }
    {
        let compiled = ScanTree::new(self.alloc, tree, options, backtrack_limit)?;
        self.push(compiled)?;
        Ok(())
    }

    /// How many trees there are.
    pub(crate) fn tree_count(&self) -> usize
        ensures { result ≡ length (trees_of self.now) }
    {
        self.trees.len()
    }

    /// Which results of the tree with this number last.
    pub(crate) fn reuse(&self, index: usize) -> Reuse
        requires { index < length (trees_of self.now) }
        ensures { Some result ≡ reuse_at self.now index }
    {
        self.trees[index].reuse
    }

    /// What a search for the tree with this number answers from this place on, a byte of the text.
    pub(crate) fn captures_of<'t>(
        &mut self,
        index: usize,
        text: &'t str,
        pos: usize,
    ) -> Result<Option<Captures<'t>>, Error>
        requires place { IsTrue (places.is_place text.now pos) }
        requires within { index < length (trees_of self.old) }
        ensures promise { (rules : List Rule) (r : Rule)
            → IsScannerOf rules text.now self.old → IsRuleAt rules index r
            → FindsCaptures r.input text.now (begun_at r.options pos) result }
        ensures same { KeepsTrees self.old self.new }
        ensures stays { StaysWithin result (passed_at self.new index) }
        ensures others { (k : ℕ) → k ≢ index → passed_at self.new k ≡ passed_at self.old k }
    {
        self.trees[index].matcher.captures_from(text, pos)
    }

    /// The limit of its delegates that the last search for the tree with this index exceeded.
    pub(crate) fn passed(&self, index: usize) -> Option<SearchLimit>
        requires { index < length (trees_of self.now) }
        ensures { result ≡ passed_at self.now index }
    {
        self.trees[index].matcher.passed()
    }

    /// Searches for each tree from `pos` on, and returns the match that starts first. If several start there, it is the
    /// match of the tree that was added first.
    ///
    /// `pos` is in bytes: the start of a character of the text, or the length of the text. The caller proves this. If
    /// the search for a tree exceeds a limit, the others are searched for all the same, and `stopped` has the first
    /// such tree. Each call searches for all trees; `scan` keeps what is found from one call to the next.
    ///
    /// # Errors
    ///
    /// `Memory` if an allocation fails; there is no other. A limit is no error here: `stopped` reports it.
    pub fn find_from<'t>(&mut self, text: &'t str, pos: usize) -> Result<Scan<'t>, Error>
        requires { IsTrue (places.is_place text.now pos) }
        ensures promise { (rules : List Rule)
            → IsScannerOf rules text.now self.old → Scans text.now pos rules result }
        ensures easy { (rules : List Rule)
            → IsScannerOf rules text.now self.old → AreEasy text.now rules
            → length text.now < 2 ^ 60 → IfOk result (λ scan. scan.stopped ≡ None) }
        ensures easy_run { (rules : List Rule)
            → IsScannerOf rules text.now self.old → AreEasyRuns text.now rules
            → length text.now < 2 ^ 60 → IfOk result (λ scan. IsStoppedByDelegates scan.stopped) }
        ensures stays { IfOk result (λ scan.
            TellsPassed (passed_at self.new) (option_map (λ m. m.index) scan.found) scan.stopped) }
        ensures same { (t : List ℕ) (rules : List Rule)
            → IsScannerOf rules t self.old → IsScannerOf rules t self.new }
    {
        let mut found = None;
        let mut stopped = None;
        let mut index = self.trees.len();
        'trees: while index > 0 {
            index -= 1;
            match self.captures_of(index, text, pos) {
                Ok(None) => {}
                Ok(Some(captures)) => found = Some(earlier(ScanMatch { index, captures }, found)),
                Err(error) => match limit_of(&error, self.passed(index)) {
                    Some(limit) => stopped = Some(Stopped { index, limit }),
                    None => return Err(error),
                },
            }
        }
        Ok(Scan { found, stopped })
    }

    /// An empty cache for a scan of one text by this scanner. It allocates nothing.
    pub fn create_cache<'t>(&self) -> ScanCache<'t>
        ensures { answers_in result ≡ [] }
    {
        ScanCache::new(self.alloc)
    }

    /// Begins a scan of one text, which keeps in the cache what is found from one position to the next. The cache is
    /// empty, or it was filled by an earlier scan of the same text by this scanner. The scan borrows both.
    ///
    /// # Examples
    ///
    /// ```
    /// scanner.add_tree(&string, &options, None)?;
    /// scanner.add_tree(&number, &options, None)?;
    /// let mut cache = scanner.create_cache();
    /// let mut scan = scanner.scan("a 12 \"b\"", &mut cache);
    /// let step = scan.find_from(0)?; // found: index 1, whole 2..4
    /// let next = scan.find_from(4)?; // found: index 0, whole 5..8
    /// ```
    pub fn scan<'r, 't>(
        &'r mut self,
        text: &'t str,
        cache: &'r mut ScanCache<'t>,
    ) -> TreeScan<'r, 't>
        ensures { BeginsScan self.entry text.now cache.entry result }
    {
        TreeScan {
            scanner: self,
            text,
            cache,
        }
    }

    /// Does what `TreeScan::find_from` does, with a cache that the caller keeps from one call to the next. The cache is
    /// empty, or it was filled for the same text by this scanner.
    ///
    /// # Errors
    ///
    /// `Memory` if an allocation fails; there is no other. A limit is no error here: `stopped` reports it.
    pub fn find_with<'t>(
        &mut self,
        text: &'t str,
        cache: &mut ScanCache<'t>,
        pos: usize,
    ) -> Result<ScanStep<'t>, Error>
        requires { IsTrue (places.is_place text.now pos) }
        ensures promise { (rules : List Rule)
            → IsScanBy rules text.now self.old (answers_in cache.old)
            → Scans text.now pos rules (told_with (answers_in cache.new) result) }
        ensures whole { IfOk result (λ step. IfSome step.found (IsWholeIn (answers_in cache.new))) }
        ensures easy { (rules : List Rule)
            → IsScanBy rules text.now self.old (answers_in cache.old) → AreEasy text.now rules
            → length text.now < 2 ^ 60 → IfOk result (λ step. step.stopped ≡ None) }
        ensures easy_run { (rules : List Rule)
            → IsScanBy rules text.now self.old (answers_in cache.old)
            → AreEasyRuns text.now rules → length text.now < 2 ^ 60
            → IfOk result (λ step. IsStoppedByDelegates step.stopped) }
        ensures stays { IfOk result (λ step. TellsPassed
            (passed_with pos self.new (answers_in cache.new))
            (option_map (λ m. m.index) step.found) step.stopped) }
        ensures held { KeepsAnswers pos self.old (answers_in cache.old) (answers_in cache.new) }
        ensures same { KeepsTrees self.old self.new }
        ensures still { (rules : List Rule)
            → IsScanBy rules text.now self.old (answers_in cache.old)
            → IsScanBy rules text.now self.new (answers_in cache.new) }
        ensures count { length (answers_in cache.old) ≤ length (answers_in cache.new) }
    {
        let mut scan = TreeScan {
            scanner: self,
            text,
            cache,
        };
        scan.find_from(pos)
    }
}

/// Of two matches the one that begins first, and of equals the first one.
fn earlier<'t>(scan: ScanMatch<'t>, later: Option<ScanMatch<'t>>) -> ScanMatch<'t>
    ensures first { (text : List ℕ) (found : Option RuleMatch)
        → captures_text scan.entry.captures ≡ text
        → option_map match_view later.entry ≡ option_map (in_text text) found
        → match_view result ≡ in_text text (scanning.earlier (rule_match scan.entry) found) }
    ensures one { (Some result.index ≡ option_map (λ m. m.index) later.entry)
        ⊎ (Some result.index ≡ Some scan.entry.index) }
{
    match later {
        Some(other) => {
            if other.start() < scan.start() {
                other
            } else {
                scan
            }
        }
        None => scan,
    }
}
