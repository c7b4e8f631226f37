//! From a pattern with its options to a regex.

ghost use Rattle.std.specs.Prelude.{◌≡◌, ◌++◌, IfOk, MatchResult, map, string_bytes, unwrap_or};
ghost use Rattle.std.specs.Option.{option_or};
ghost use Rattle.fancy_expr.specs.declared.expr.ExprTree.{ExprTree};
ghost use Rattle.fancy_regex.specs.Builders.{IsBuilt, IsRefused, IsTreeOf, options as options_in, with_options};
ghost use Rattle.fancy_grep.specs.Matchers.{IsMatcherOf, IsRequiredIn};
ghost use Rattle.fancy_grep.specs.Patterns.{alternation, asked, read_as, wrapped};
ghost use Rattle.fancy_grep.specs.RegexOptions.{limited, options_for};

use fancy_literals::required::{Required, required_by};
use fancy_pattern::error::PatternError;
use fancy_pattern::options::ParseOptions;
use fancy_pattern::pattern::parse_tree;
use fancy_regex::{Error, Regex, RegexBuilder, escape};
use std::alloc::{AllocError, Global};

/// How many instructions its program may have, unless said otherwise.
const MOST_INSTRUCTIONS: usize = 1_000_000;

/// How many nodes of the pattern may nest in one another, with calls written out.
const MOST_NESTING: usize = 4_000;

/// What a pattern and a search of a line may take, if it is not what `fancy_regex` allows.
#[derive(Clone, Copy)]
pub struct Limits {
    pub backtracks: Option<usize>,
    pub steps: Option<u64>,
    pub visits: Option<usize>,
    /// In bytes.
    pub memory: Option<usize>,
    /// In instructions.
    pub max_prog: Option<usize>,
    pub analysis: Option<usize>,
}

/// What of a line a match may be.
#[derive(Clone, Copy)]
pub enum Extent {
    /// Any part.
    Part,
    /// A part with no word character before it or after it.
    Word,
    /// The whole line.
    Line,
}

/// How a pattern is read.
#[derive(Clone, Copy)]
pub struct PatternOptions {
    /// It is a text, and no pattern.
    pub is_text: bool,
    pub case_insensitive: bool,
    /// The longest match at the earliest start is found, and not the first.
    pub longest: bool,
    pub extent: Extent,
    pub limits: Limits,
}

impl PatternOptions {
    ghost use Rattle.fancy_grep.specs.RegexOptions.{options_for};

    /// How the pattern is read to a tree.
    pub(crate) fn parsing(self) -> ParseOptions
        ensures { result ≡ (options_for self).parsing }
    {
        ParseOptions {
            case_insensitive: self.case_insensitive,
            ..ParseOptions::default()
        }
    }
}

/// The pattern for matches that are such parts of a line.
fn wrapped(alloc: Global, extent: Extent, pattern: &str) -> Result<String, AllocError>
    ensures { IfOk result (λ s. string_bytes s ≡ wrapped extent pattern.now) }
{
    let (before, after) = extent.around();
    enclosed(alloc, before, pattern, after)
}

/// A pattern with what is before it and after it.
fn enclosed(alloc: Global, before: &str, pattern: &str, after: &str) -> Result<String, AllocError>
    ensures { IfOk result (λ s. string_bytes s ≡ before.now ++ (pattern.now ++ after.now)) }
{
    let mut whole = String::from_str(alloc, before)?;
    whole.push_str(pattern)?;
    whole.push_str(after)?;
    Ok(whole)
}

impl Extent {
    ghost use Rattle.fancy_grep.specs.Patterns.{after_pattern, before_pattern};

    /// What stands before a pattern and after it, so that its matches are such parts of a line.
    pub fn around(self) -> (&'static str, &'static str)
        ensures before { result.0.now ≡ before_pattern self }
        ensures after { result.1.now ≡ after_pattern self }
    {
        match self {
            Extent::Part => ("", ""),
            Extent::Word => (r"(?<!\w)(?:", r")(?!\w)"),
            Extent::Line => ("^(?:", ")$"),
        }
    }
}

/// A pattern as it is read: a text is escaped.
fn read_as(alloc: Global, pattern: &str, is_text: bool) -> Result<String, AllocError>
    ensures { IfOk result (λ s. string_bytes s ≡ read_as is_text pattern.now) }
{
    if is_text {
        escape(alloc, pattern)
    } else {
        String::from_str(alloc, pattern)
    }
}

/// The patterns, each as it is read.
fn all_read(alloc: Global, patterns: &[String], is_text: bool) -> Result<Vec<String>, AllocError>
    ensures { IfOk result (λ read. map string_bytes read.items
        ≡ map (read_as is_text) (map string_bytes patterns.now)) }
{
    let mut read = Vec::new(alloc);
    for pattern in patterns {
        read.push(read_as(alloc, pattern.as_str(), is_text)?)?;
    }
    Ok(read)
}

/// The pattern whose matches are those of any of the patterns.
pub(crate) fn alternation(
    alloc: Global,
    patterns: &[String],
    is_text: bool,
) -> Result<String, AllocError>
    ensures { IfOk result (λ s. string_bytes s
        ≡ alternation (map (read_as is_text) (map string_bytes patterns.now))) }
{
    let read = all_read(alloc, patterns, is_text)?;
    match read.as_slice() {
        [] => String::from_str(alloc, "(?!)"),
        [pattern] => String::from_str(alloc, pattern.as_str()),
        several => {
            let parts = several.join(alloc, ")|(?:")?;
            enclosed(alloc, "(?:", parts.as_str(), ")")
        }
    }
}

/// The pattern that is searched for.
fn asked(alloc: Global, patterns: &[String], options: PatternOptions) -> Result<String, AllocError>
    ensures { IfOk result (λ s. string_bytes s
        ≡ asked options (map string_bytes patterns.now)) }
{
    let whole = alternation(alloc, patterns, options.is_text)?;
    wrapped(alloc, options.extent, whole.as_str())
}

/// What is searched for in each line.
#[derive(Drop)]
pub struct Matcher {
    pub regex: Regex,
    /// What each match takes, if that is known.
    pub required: Option<Required>,
}

/// The regex of the patterns with their options, and what each match takes.
///
/// It is refused as `RegexBuilder::build` refuses the pattern that is asked for. Out of memory is `Error::Memory`.
pub fn matcher_of(
    alloc: Global,
    patterns: &[String],
    options: PatternOptions,
) -> Result<Matcher, Error>
    ensures { MatchResult result
        (IsMatcherOf (asked options (map string_bytes patterns.now)) (options_for options))
        (IsRefused (asked options (map string_bytes patterns.now)) (options_for options)) }
{
    let whole = asked(alloc, patterns, options)?;
    let regex = regex_of(alloc, whole.as_str(), options)?;
    let required = required_in(alloc, whole.as_str(), options)?;
    Ok(Matcher { regex, required })
}

/// The regex of the pattern that is asked for.
fn regex_of(alloc: Global, pattern: &str, options: PatternOptions) -> Result<Regex, Error>
    ensures { MatchResult result
        (IsBuilt pattern.now (options_for options))
        (IsRefused pattern.now (options_for options)) }
{
    let builder = RegexBuilder::new(pattern)
        .case_insensitive(options.case_insensitive)
        .leftmost_longest(options.longest)
        .max_prog_size(Some(options.limits.max_prog.unwrap_or(MOST_INSTRUCTIONS)))
        .max_nesting(Some(MOST_NESTING));
    options.limits.set(builder).build(alloc)
}

impl Limits {
    /// Sets the limits of a regex that are given.
    fn set<'p>(self, builder: RegexBuilder<'p>) -> RegexBuilder<'p>
        ensures { result ≡ with_options builder.entry (limited self (options_in builder.entry)) }
    {
        let builder = with_backtracks(builder, self.backtracks);
        let builder = with_steps(builder, self.steps);
        let builder = with_visits(builder, self.visits);
        let builder = with_memory(builder, self.memory);
        with_analysis(builder, self.analysis)
    }
}

fn with_backtracks<'p>(builder: RegexBuilder<'p>, limit: Option<usize>) -> RegexBuilder<'p>
    ensures { result ≡ with_options builder.entry (record (options_in builder.entry) {
      backtrack_limit = option_or limit (options_in builder.entry).backtrack_limit;
    }) }
{
    match limit {
        Some(limit) => builder.backtrack_limit(limit),
        None => builder,
    }
}

fn with_steps<'p>(builder: RegexBuilder<'p>, limit: Option<u64>) -> RegexBuilder<'p>
    ensures { result ≡ with_options builder.entry (record (options_in builder.entry) {
      step_limit = unwrap_or limit (options_in builder.entry).step_limit;
    }) }
{
    match limit {
        Some(limit) => builder.step_limit(limit),
        None => builder,
    }
}

fn with_visits<'p>(builder: RegexBuilder<'p>, limit: Option<usize>) -> RegexBuilder<'p>
    ensures { result ≡ with_options builder.entry (record (options_in builder.entry) {
      visit_limit = option_or limit (options_in builder.entry).visit_limit;
    }) }
{
    match limit {
        Some(_) => builder.visit_limit(limit),
        None => builder,
    }
}

fn with_memory<'p>(builder: RegexBuilder<'p>, limit: Option<usize>) -> RegexBuilder<'p>
    ensures { result ≡ with_options builder.entry (record (options_in builder.entry) {
      memory_limit = option_or limit (options_in builder.entry).memory_limit;
    }) }
{
    match limit {
        Some(_) => builder.memory_limit(limit),
        None => builder,
    }
}

fn with_analysis<'p>(builder: RegexBuilder<'p>, limit: Option<usize>) -> RegexBuilder<'p>
    ensures { result ≡ with_options builder.entry (record (options_in builder.entry) {
      analysis_limit = option_or limit (options_in builder.entry).analysis_limit;
    }) }
{
    match limit {
        Some(_) => builder.analysis_limit(limit),
        None => builder,
    }
}

/// What each match of the pattern takes, if that is known.
fn required_in(
    alloc: Global,
    pattern: &str,
    options: PatternOptions,
) -> Result<Option<Required>, AllocError>
    ensures { IfOk result (λ required. (tree : ExprTree)
        → IsTreeOf pattern.now (options_for options) tree
        → IsRequiredIn tree required) }
{
    match parse_tree(alloc, pattern, options.parsing()) {
        Ok(tree) => required_by(alloc, &tree.expr, true, true),
        Err(PatternError::Memory) => Err(AllocError),
        Err(PatternError::Parse { .. }) => Ok(None),
    }
}
