//! Many patterns and one text: what a host learns of a scan from match to match.

ghost use Rattle.std.specs.Prelude.{◌≡◌, ◌≤◌, ◌+◌, ◌*◌, ◌++◌, ◌∷◌, [], ℕ, IsTrue, List, MatchResult, length, min};
ghost use Rattle.fancy_meaning.specs.Answer.{span_numbers};
ghost use Rattle.fancy_meaning.specs.Numbers.{usize_max};
ghost use Rattle.fancy_matches.specs.Listing.{begun_at, group_span};
ghost use Rattle.fancy_matches.specs.Matchers.{numbers_in};
ghost use Rattle.fancy_search.specs.Requests as requests;
ghost use Rattle.fancy_search.specs.Searches.{search_fits};
ghost use Rattle.fancy_steps.specs.Tasks.{options_of as run_options_of};
ghost use Rattle.fancy_scanner.specs.Scanning.{IsScannerOf, KeepsTrees, Rule};
ghost use Rattle.fancy_scanner.specs.Scans.{GoesOn, IsScanOf};
ghost use Rattle.fancy_scanner.specs.Scans as kept;
ghost use Rattle.fancy_host.specs.Hosted.{over};
ghost use Rattle.fancy_host.specs.Hosted as hosted;
ghost use Rattle.fancy_host.specs.Scanned.{FailsToRead, IsRuleFrom, Writes, group_numbers, row_of};
ghost use Rattle.fancy_host.specs.Scanned as scanned;

use crate::options::FancyOptions;
use crate::outcome::{FancyOutcome, NO_MATCH, OK, code_of_scan_limit, next_start};
use crate::reading::text_of;
use crate::refused::failure_of;
use crate::writing::write_from;
use fancy_characters::places::is_place;
use fancy_matches::found::Captures;
use fancy_pattern::pattern::parse_tree;
use fancy_scanner::scan_text::TreeScan;
use fancy_scanner::scanner::{ScanTree, Stopped, TreeScanner};
use fancy_search::search::SearchOptions;
use fancy_vm::vm::RunOptions;
use std::alloc::Global;

/// A pattern that was compiled for a scanner, and how many groups it has, with group 0.
#[derive(Drop)]
pub struct ScanPattern {
    pub compiled: ScanTree,
    pub groups: usize,
}

/// The options of all stages, for searches of each text from its start on.
fn search_options(options: &FancyOptions) -> SearchOptions
    ensures fits { IsTrue (search_fits result []) }
    ensures analysis { result.analysis ≡ hosted.analysis options.now }
    ensures compilation { result.compilation ≡ hosted.compilation options.now }
    ensures run { run_options_of result.run
        ≡ begun_at (requests.running (hosted.request options.now)) 0 }
{
    let request = options.request();
    SearchOptions {
        analysis: request.analysis(),
        compilation: request.compilation(),
        run: RunOptions {
            pos: 0,
            ..request.running()
        },
    }
}

/// Compiles the tree that these bytes spell as a pattern, for a scanner.
pub fn compile_rule(
    alloc: Global,
    pattern: &[u8],
    options: &FancyOptions,
) -> Result<ScanPattern, FancyOutcome>
    ensures { MatchResult
        result
        (λ x. IsRuleFrom pattern.now options.now x.compiled x.groups)
        (FailsToRead pattern.now options.now) }
{
    let text = text_of(pattern, options)?;
    let tree = match parse_tree(alloc, text, options.parsing()) {
        Ok(tree) => tree,
        Err(error) => return Err(FancyOutcome::of_fault(&error)),
    };
    options.check_analysis(alloc, &tree)?;
    let groups = tree.total_groups.saturating_add(1);
    let search = search_options(options);
    match ScanTree::new(alloc, &tree, &search, options.backtracks()) {
        Ok(mut compiled) => {
            compiled.limit(options.limits());
            Ok(ScanPattern { compiled, groups })
        }
        Err(error) => Err(failure_of(alloc, Some(text), options, &error)),
    }
}

/// How many numbers a row has: which pattern, which one exceeded a limit, the code of that, and this many groups.
fn width_of(groups: usize) -> usize
    ensures { result ≡ min usize_max (2 * groups + 3) }
{
    groups.saturating_mul(2).saturating_add(3)
}

/// Where the search after a match begins.
fn next_place(text: &[u8], pos: usize, start: usize, end: usize) -> usize
    ensures { result ≡ scanned.next_place text.now pos (start, end) }
{
    let next = next_start(text, &[start, end]);
    if pos < next {
        next
    } else {
        next_start(text, &[pos, pos])
    }
}

/// What is reported of a pattern that exceeded a limit: its number and the code, or that there is none.
fn stopped_numbers(stopped: Option<Stopped>) -> (usize, usize)
    ensures { result ≡ scanned.stopped_numbers stopped }
{
    match stopped {
        None => (usize::MAX, OK as usize),
        Some(stopped) => (stopped.index, code_of_scan_limit(stopped.limit) as usize),
    }
}

/// The outcome where no pattern that answered has a match.
fn of_none(stopped: Option<Stopped>) -> FancyOutcome
    ensures { result ≡ scanned.of_none stopped }
{
    match stopped {
        None => FancyOutcome::coded(NO_MATCH),
        Some(stopped) => FancyOutcome {
            group: stopped.index,
            ..FancyOutcome::coded(code_of_scan_limit(stopped.limit))
        },
    }
}

/// Start and end of a group of a match.
fn span_at(captures: &Captures<'_>, group: usize) -> (usize, usize)
    ensures { result.0 ∷ result.1 ∷ []
        ≡ span_numbers (group_span (numbers_in captures.now) group) }
{
    match captures.get(group) {
        None => (usize::MAX, usize::MAX),
        Some(found) => (found.start(), found.end()),
    }
}

/// Writes start and end of the first groups of a match, this many, after what was written.
fn write_groups(captures: &Captures<'_>, groups: usize, at: usize, room: &mut [usize])
    requires { at + 2 * groups ≤ length room.old }
    ensures written { (done old : List ℕ) → room.old ≡ over done old → length done ≡ at
        → room.new ≡ over (done ++ group_numbers (numbers_in captures.now) groups) old }
    ensures length { length room.new ≡ length room.old }
{
    let mut group = 0;
    let mut to = at;
    'groups: while group < groups {
        let (start, end) = span_at(captures, group);
        write_from(&[start, end], to, room);
        group += 1;
        to += 2;
    }
}

/// Writes the row of a match, behind what was written.
fn write_row(
    captures: &Captures<'_>,
    index: usize,
    stopped: Option<Stopped>,
    groups: usize,
    at: usize,
    room: &mut [usize],
)
    requires { at + (2 * groups + 3) ≤ length room.old }
    ensures written { (done old : List ℕ) → room.old ≡ over done old → length done ≡ at
        → room.new ≡ over (done ++ row_of groups index (numbers_in captures.now) stopped) old }
    ensures length { length room.new ≡ length room.old }
{
    let (pattern, code) = stopped_numbers(stopped);
    write_from(&[index, pattern, code], at, room);
    write_groups(captures, groups, at + 3, room);
}

/// Writes the rows of the matches from this place on, while there is room, and says how many. The scan then
/// stands after them.
fn write_rows(
    scan: &mut TreeScan<'_, '_>,
    pos: &mut usize,
    groups: usize,
    room: &mut [usize],
) -> FancyOutcome
    ensures writes { (rules : List Rule) → IsScanOf rules scan.old
        → Writes rules (kept.text_of scan.old) groups pos.old room.old pos.new room.new result }
    ensures goes_on { GoesOn scan.old scan.new }
{
    let text = scan.text();
    let width = width_of(groups);
    let mut at = 0;
    let mut count = 0;
    'rows: while room.len() - at >= width {
        if !is_place(text.as_bytes(), *pos) {
            return FancyOutcome::coded(NO_MATCH).with_count(count);
        }
        let step = match scan.find_from(*pos) {
            Ok(step) => step,
            Err(error) => return FancyOutcome::of_error(&error).with_count(count),
        };
        let Some(found) = step.found else {
            return of_none(step.stopped).with_count(count);
        };
        let Some(captures) = scan.captures(found.index) else {
            return of_none(step.stopped).with_count(count);
        };
        write_row(captures, found.index, step.stopped, groups, at, room);
        let whole = captures.whole();
        *pos = next_place(text.as_bytes(), *pos, whole.start(), whole.end());
        at += width;
        count += 1;
    }
    FancyOutcome::coded(OK).with_count(count)
}

/// Writes the rows of the matches of these patterns in a text, from a place on, while there is room.
pub fn scan(
    scanner: &mut TreeScanner,
    text: &str,
    pos: &mut usize,
    groups: usize,
    room: &mut [usize],
) -> FancyOutcome
    ensures writes { (rules : List Rule) → IsScannerOf rules text.now scanner.old
        → Writes rules text.now groups pos.old room.old pos.new room.new result }
    ensures same { KeepsTrees scanner.old scanner.new }
{
    let mut cache = scanner.create_cache();
    let mut scan = scanner.scan(text, &mut cache);
    write_rows(&mut scan, pos, groups, room)
}
