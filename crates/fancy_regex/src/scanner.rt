//! Many patterns and one text: which of them matches first.

ghost use Rattle.std.specs.Arc.{arc_value};
ghost use Rattle.std.specs.Prelude.{◌≡◌, ◌<◌, ◌^◌, [], ℕ, IfErr, IfOk, IfSome, IsTrue, List, MatchResult, None, OnErr, OnOk, length, option_map};
ghost use Rattle.fancy_meaning.specs.Places as places;
ghost use Rattle.fancy_matches.specs.Matchers as engine;
ghost use Rattle.fancy_scanner.specs.Limits.{TellsPassed};
ghost use Rattle.fancy_scanner.specs.Scanning.{AreEasy, AreEasyRuns, IsStoppedByDelegates, Rule, Scans};
ghost use Rattle.fancy_regex.specs.Builders.{IsRefused, options};
ghost use Rattle.fancy_regex.specs.Found.{captures_names, shown_captures};
ghost use Rattle.fancy_regex.specs.Options.{default_options};
ghost use Rattle.fancy_regex.specs.Scanners.{Adds, BeginsScan, FindsFirst, GoesOn, IsScanOf, IsScannerOf, IsWholeIn, Keeps, KeepsHeld, kept_groups, named_groups, names_listed, passed_from, scan_result, scanner_of, text_of};

use crate::builder::RegexBuilder;
use crate::error::Error;
use crate::found::Captures;
use crate::names::GroupNames;
use fancy_matches::found::Captures as Groups;
use fancy_scanner::scan_cache::ScanCache;
use fancy_scanner::scan_text::ScanStep;
use fancy_scanner::scanner::{ScanTree, Stopped, TreeScanner};
use std::alloc::{AllocError, Global};
use std::sync::Arc;

/// A pattern compiled for a scanner, with the names of its groups.
#[derive(Drop)]
pub(crate) struct ScanPattern {
    pub(crate) compiled: ScanTree,
    pub(crate) names: Arc<GroupNames>,
}

/// Patterns that are searched for together, as the rules of a highlighter are, each with the memory of its searches.
///
/// # Examples
///
/// ```
/// let mut rules = Scanner::new(alloc);
/// rules.add("\"[^\"]*\"")?;
/// rules.add("[a-z]+")?;
/// let step = rules.find("1 \"ab\" cd")?;
/// // step.found: index 0, whole 2..6
/// ```
pub struct Scanner {
    pub(crate) alloc: Global,
    pub(crate) trees: TreeScanner,
    pub(crate) names: Vec<Arc<GroupNames>>,
}

// Not derived: whoever owns one calls this drop, and would prove a derived one again (docs/GATE.md).
impl Drop for Scanner {
    fn drop(self) {
        let Scanner {
            alloc: _,
            trees: _,
            names: _,
        } = self;
    }
}

impl Scanner {
    /// A scanner without patterns. It allocates nothing.
    pub fn new(alloc: Global) -> Scanner
        ensures rules { (text : List ℕ) → IsScannerOf [] text result }
        ensures names { names_listed result ≡ [] }
    {
        Scanner {
            alloc,
            trees: TreeScanner::new(alloc),
            names: Vec::new(alloc),
        }
    }

    /// Adds a pattern after the others, with the default options.
    ///
    /// # Errors
    ///
    /// Those of `Regex::new`. After an error the scanner has the patterns that it had.
    pub fn add(&mut self, pattern: &str) -> Result<(), Error>
        ensures ok { OnOk result (Adds pattern.now default_options self.old self.new) }
        ensures refused { IfErr result (IsRefused pattern.now default_options) }
        ensures err { OnErr result (Keeps self.old self.new) }
    {
        self.add_built(&RegexBuilder::new(pattern))
    }

    /// Adds a pattern after the others, with the options of the builder.
    ///
    /// # Errors
    ///
    /// Those of `RegexBuilder::build`. After an error the scanner has the patterns that it had.
    pub fn add_built(&mut self, builder: &RegexBuilder<'_>) -> Result<(), Error>
        ensures ok { OnOk result (Adds
            builder.now.pattern.now (options builder.now) self.old self.new) }
        ensures refused { IfErr result (IsRefused builder.now.pattern.now (options builder.now)) }
        ensures err { OnErr result (Keeps self.old self.new) }
    {
        let ScanPattern { compiled, names } = builder.scan_pattern(self.alloc)?;
        self.names.push(names)?;
        match self.trees.push(compiled) {
            Ok(()) => Ok(()),
            Err(error) => {
                self.names.pop();
                Err(Error::from(error))
            }
        }
    }

    /// Begins a scan of one text, which keeps what it finds of each pattern from one position to the next. The scan borrows
    /// the scanner. `ScanText::into_scanner` ends it, with the promise that the patterns are the same.
    pub fn scan<'r, 't>(&'r mut self, text: &'t str) -> ScanText<'r, 't>
        ensures { BeginsScan self.entry text.now result }
    {
        let cache = self.trees.create_cache();
        ScanText {
            scanner: self,
            text,
            cache,
        }
    }

    /// Finds the match that begins first in the text, as `ScanText::find_from` does from byte 0 on.
    ///
    /// # Errors
    ///
    /// `Memory` if an allocation fails; there is no other. A limit that a pattern exceeds is reported in the step.
    pub fn find<'t>(&mut self, text: &'t str) -> Result<ScanStep<'t>, Error>
        ensures first { (rules : List Rule)
            → IsScannerOf rules text.now self.old → FindsFirst text.now rules result }
        ensures easy { (rules : List Rule)
            → IsScannerOf rules text.now self.old → AreEasy text.now rules
            → length text.now < 2 ^ 60 → IfOk result (λ step. step.stopped ≡ None) }
        ensures easy_run { (rules : List Rule)
            → IsScannerOf rules text.now self.old → AreEasyRuns text.now rules
            → length text.now < 2 ^ 60
            → IfOk result (λ step. IsStoppedByDelegates step.stopped) }
        ensures same { Keeps self.old self.new }
    {
        let mut scan = self.scan(text);
        let step = scan.find_from(0);
        let _scanner = scan.into_scanner();
        step
    }
}

/// A scan of one text for the patterns of a scanner, from position to position, as a highlighter makes it.
///
/// It keeps each match that it finds, and searches for a pattern again only from a position after its match. So a scan
/// from left to right reads the text once for each pattern, and not once for each position. Exceptions: a pattern with a
/// `\G` is searched for at each position, and one with a `\K` until it has no match.
#[derive(Drop)]
pub struct ScanText<'r, 't> {
    pub(crate) scanner: &'r mut Scanner,
    pub(crate) text: &'t str,
    pub(crate) cache: ScanCache<'t>,
}

impl<'r, 't> ScanText<'r, 't> {
    /// Finds the match that begins first, of the first matches of all patterns from `pos` on. Of several that begin there
    /// it is that of the pattern that was added first.
    ///
    /// `pos` is in bytes: the start of a character of the text, or the length of the text. The caller proves this. A
    /// pattern whose search exceeds a limit does not hide the matches of the others: `ScanStep::stopped` reports it.
    ///
    /// # Errors
    ///
    /// `Memory` if an allocation fails; there is no other.
    pub fn find_from(&mut self, pos: usize) -> Result<ScanStep<'t>, Error>
        requires { IsTrue (places.is_place (text_of self.old) pos) }
        ensures promise { (rules : List Rule)
            → IsScanOf rules self.old
            → Scans (text_of self.old) pos rules (scan_result self.new result) }
        ensures whole { IfOk result (λ step. IfSome step.found (IsWholeIn self.new)) }
        ensures easy { (rules : List Rule)
            → IsScanOf rules self.old → AreEasy (text_of self.old) rules
            → length (text_of self.old) < 2 ^ 60 → IfOk result (λ step. step.stopped ≡ None) }
        ensures easy_run { (rules : List Rule)
            → IsScanOf rules self.old → AreEasyRuns (text_of self.old) rules
            → length (text_of self.old) < 2 ^ 60
            → IfOk result (λ step. IsStoppedByDelegates step.stopped) }
        ensures limits { IfOk result (λ step. TellsPassed
            (passed_from pos self.new) (option_map (λ m. m.index) step.found) step.stopped) }
        ensures held { KeepsHeld pos self.old self.new }
        ensures goes_on { GoesOn self.old self.new }
    {
        let found = self
            .scanner
            .trees
            .find_with(self.text, &mut self.cache, pos);
        match found {
            Ok(step) => Ok(step),
            Err(error) => Err(Error::from(error)),
        }
    }

    /// The groups of the match that the scan keeps for the pattern `index`. After `find_from` has found a match of this
    /// pattern it is that match. `None` if nothing is kept for the pattern, or if it has no match.
    ///
    /// # Errors
    ///
    /// `Memory` if an allocation fails; there is no other.
    pub fn captures(&self, index: usize) -> Result<Option<Captures<'t>>, Error>
        ensures { MatchResult result
            (λ found. option_map named_groups found ≡ kept_groups self.now index)
            (λ e. e ≡ Error.Memory) }
    {
        let Some(names) = self.scanner.names.get(index) else {
            return Ok(None);
        };
        let Some(groups) = self.cache.captures(index) else {
            return Ok(None);
        };
        Ok(Some(named(groups, names)?))
    }

    /// The text that is scanned.
    pub fn text(&self) -> &'t str
        ensures { result.now ≡ text_of self.now }
    {
        self.text
    }

    /// Ends the scan and returns the scanner, with the same patterns.
    pub fn into_scanner(self) -> &'r mut Scanner
        ensures name { result.ghost_name ≡ (scanner_of self.entry).ghost_name }
        ensures same { result.now ≡ (scanner_of self.entry).now }
    {
        self.scanner
    }
}

/// A copy of these groups, with these names.
fn named<'t>(groups: &Groups<'t>, names: &Arc<GroupNames>) -> Result<Captures<'t>, AllocError>
    ensures { IfOk result (λ c.
        (shown_captures c ≡ engine.shown_captures groups.now)
        × (captures_names c ≡ arc_value names.now)) }
{
    Ok(Captures {
        groups: groups.try_clone(names.alloc)?,
        names: Arc::try_clone(names)?,
    })
}
