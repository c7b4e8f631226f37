//! What a program in C, or in any language that calls C, needs of the engine: a pattern is compiled once and searched for
//! many times, each search within limits. The header is `fancy.h`.
//!
//! Positions and lengths are in bytes. An outcome is `FANCY_WRONG_SIZE` if the options have the size of another version,
//! `FANCY_NOT_UTF8` with the byte from which on a pattern, a tree or a text is no UTF-8, and `FANCY_MEMORY` if an allocation
//! fails. The errors of the calls below come to these.
#![tactic(auto)]

mod cursor;
mod messages;
mod names;
mod options;
mod outcome;
mod program;
mod raw_box;
mod reading;
mod refused;
mod rewriting;
mod rows;
mod scanner;
mod scans;
mod searches;
mod tree;
mod writing;

ghost use Rattle.std.specs.Prelude.{◌≡◌, None, codes, length};
ghost use Rattle.fancy_host.specs.Codes.{name_of};
ghost use Rattle.fancy_host.specs.Easy.{IsNoLimitWhereAllEasy, IsNoLimitWhereEasy};
ghost use Rattle.fancy_host.specs.Hosted.{AnswersFor, Clones, Compiles, FindsFirst, default_options, ended, group_count, tree_of};
ghost use Rattle.fancy_host.specs.Hosted as hosted;
ghost use Rattle.fancy_host.specs.Lists.{FindsAll, all_groups, span_alone};
ghost use Rattle.fancy_host.specs.Messages.{Explains, IsMessage, WritesText};
ghost use Rattle.fancy_host.specs.Names.{FindsGroups, group_name};
ghost use Rattle.fancy_host.specs.Rewritten.{ReplacesIn};
ghost use Rattle.fancy_host.specs.Scanned.{Adds, HoldsSame, ScansIn};
ghost use Rattle.fancy_host.specs.Whether.{FindsAny};

use cursor::FancyCursor;
use fancy_scanner::scanner::TreeScanner;
use messages::{write_explanation, write_message};
use options::FancyOptions;
use outcome::{FancyOutcome, MEMORY, NO_PROGRAM, write_name};
use program::FancyProgram;
use reading::{compile_notation, compile_pattern, searched, searched_text};
use scanner::FancyScanner;
use scans::{compile_rule, scan};
use std::alloc::Global;
use std::str::from_utf8;
use writing::{write_over, write_text};

/// The default options: a search from the start of the text, without a flag. Limits: 100,000 instructions of a program, 250
/// levels of a tree, 5,000,000 nodes of the analysis, and 500 nodes that nest in one another with calls written out, for
/// a stack of 1 MB.
///
/// The limits of backtracks and instructions are not set. Then a search may backtrack 20,000,000 times and execute
/// 100,000,000 instructions, and one more, or eight more, for each byte of the text and for its end. A search for an easy
/// tree never exceeds these.
#[unsafe(no_mangle)]
pub extern "C" fn fancy_default_options() -> FancyOptions
    ensures { result ≡ default_options }
{
    FancyOptions::default()
}

/// Writes the version of the library, and returns how many bytes it has.
#[unsafe(no_mangle)]
pub extern "C" fn fancy_version(version: &mut [u8]) -> usize
    ensures length { result ≡ length (codes "0.4.0") }
    ensures version { version.new ≡ ended (codes "0.4.0") version.old }
{
    write_text("0.4.0".as_bytes(), version)
}

/// Compiles a pattern, in UTF-8. What the program held before is freed. It holds the pattern if the code is `FANCY_OK`, and
/// nothing otherwise; hosts/fancy.h lists the codes.
///
/// # Errors
///
/// A code of the pattern that cannot be read, or of a refusal, with its byte or its group; `FANCY_ANALYSIS_LIMIT_EXCEEDED`,
/// `FANCY_NEST_LIMIT_EXCEEDED` or `FANCY_PATTERN_TOO_COMPLEX` if a limit is exceeded.
///
/// # Examples
///
/// ```
/// let outcome = fancy_compile_pattern(alloc, b"(b+)c", &options, &mut program); // code: FANCY_OK, count: 2 groups
/// ```
#[unsafe(no_mangle)]
pub extern "C" fn fancy_compile_pattern(
    alloc: Global,
    pattern: &[u8],
    options: &FancyOptions,
    program: &mut FancyProgram,
) -> FancyOutcome
    ensures { Compiles
        (hosted.pattern pattern.now) options.now (tree_of program.new.handle.searcher) result }
{
    program.take(alloc).free();
    match compile_pattern(alloc, pattern, options) {
        Ok(searcher) => program.hold(searcher),
        Err(outcome) => outcome,
    }
}

/// Compiles the tree that a text in the notation spells. What the program held before is freed. It holds the tree if the
/// code is `FANCY_OK`, and nothing otherwise. A tree that nests deeper than `max_depth` is refused before it is read, and
/// one whose analysis exceeds `analysis_limit` before it is analysed. One with more nodes in one another than `max_nesting`,
/// with calls written out, is refused while it is compiled.
///
/// # Errors
///
/// `FANCY_TREE_FAULT` with the byte, `FANCY_RECURSION_EXCEEDED` for `max_depth`, and those of `fancy_compile_pattern` for a
/// tree that was read.
#[unsafe(no_mangle)]
pub extern "C" fn fancy_compile(
    alloc: Global,
    tree: &[u8],
    options: &FancyOptions,
    program: &mut FancyProgram,
) -> FancyOutcome
    ensures { Compiles
        (hosted.notation tree.now) options.now (tree_of program.new.handle.searcher) result }
{
    program.take(alloc).free();
    match compile_notation(alloc, tree, options) {
        Ok(searcher) => program.hold(searcher),
        Err(outcome) => outcome,
    }
}

/// Makes a copy of a program, for another thread. Both share what was compiled, and each has memory of its own for its
/// searches. What the copy held before is freed. It holds the same if the code is `FANCY_OK`, and nothing otherwise.
///
/// # Errors
///
/// `FANCY_NO_PROGRAM` if the program holds nothing.
#[unsafe(no_mangle)]
pub extern "C" fn fancy_clone(
    alloc: Global,
    program: &mut FancyProgram,
    copy: &mut FancyProgram,
) -> FancyOutcome
    ensures clones { Clones
        (tree_of program.old.handle.searcher) (tree_of copy.new.handle.searcher) result }
    ensures keeps { program.new.handle.searcher ≡ program.old.handle.searcher }
{
    copy.take(alloc).free();
    if !program.is_set {
        return FancyOutcome::coded(NO_PROGRAM);
    }
    let searcher = program.take(alloc).into_searcher();
    let copied = searcher.try_clone(alloc);
    *program = FancyProgram::of(searcher);
    match copied {
        Ok(copied) => copy.hold(copied),
        Err(_) => FancyOutcome::coded(MEMORY),
    }
}

/// Whether a text, in UTF-8, has a match of what the program holds: the code is `FANCY_OK` or `FANCY_NO_MATCH`.
///
/// # Errors
///
/// `FANCY_NO_PROGRAM` if the program holds nothing; `FANCY_UNFIT` if the options do not fit it or the text; a code of the limit
/// that the search exceeds.
#[unsafe(no_mangle)]
pub extern "C" fn fancy_is_match(
    alloc: Global,
    program: &mut FancyProgram,
    text: &[u8],
    options: &FancyOptions,
) -> FancyOutcome
    requires answers_for { AnswersFor options.now text.now }
    ensures finds { FindsAny
        text.now
        options.now
        (hosted.passed_of options.now program.new.handle.searcher)
        (tree_of program.old.handle.searcher)
        result }
    ensures easy { IsNoLimitWhereEasy
        (tree_of program.old.handle.searcher) text.now options.now result }
    ensures keeps { tree_of program.new.handle.searcher ≡ tree_of program.old.handle.searcher }
{
    let text = match searched(text, options, program) {
        Ok(text) => text,
        Err(outcome) => return outcome,
    };
    let mut searcher = program.take(alloc).into_searcher();
    let outcome = searcher.is_match(alloc, text, options);
    *program = FancyProgram::of(searcher);
    outcome
}

/// Finds the first match in a text, in UTF-8. Writes start and end of each group from 0 up, in bytes of the text, as far as
/// there is room in `spans`, and `FANCY_UNSET` twice for a group that is not set.
///
/// # Errors
///
/// Those of `fancy_is_match`.
///
/// # Examples
///
/// ```
/// let outcome = fancy_find(alloc, &mut program, b"abbc", &options, &mut spans); // spans: 1, 4 and 1, 3
/// ```
#[unsafe(no_mangle)]
pub extern "C" fn fancy_find(
    alloc: Global,
    program: &mut FancyProgram,
    text: &[u8],
    options: &FancyOptions,
    spans: &mut [usize],
) -> FancyOutcome
    requires answers_for { AnswersFor options.now text.now }
    ensures finds { FindsFirst
        text.now
        options.now
        (hosted.passed_of options.now program.new.handle.searcher)
        spans.old
        (tree_of program.old.handle.searcher)
        spans.new
        result }
    ensures easy { IsNoLimitWhereEasy
        (tree_of program.old.handle.searcher) text.now options.now result }
    ensures keeps { tree_of program.new.handle.searcher ≡ tree_of program.old.handle.searcher }
{
    let text = match searched(text, options, program) {
        Ok(text) => text,
        Err(outcome) => return outcome,
    };
    let mut searcher = program.take(alloc).into_searcher();
    let outcome = searcher.find(alloc, text, options, spans);
    *program = FancyProgram::of(searcher);
    outcome
}

/// Finds the next matches of a list in a text, in UTF-8. Writes start and end of each, in bytes of the text, while there is
/// room in `spans`, and says how many. `cursor` moves after them, so the same call again goes on. The code is `FANCY_OK`
/// if there was no room for one more, and `FANCY_NO_MATCH` if the list has ended. After an error `cursor` is before the
/// search that failed. `pos` and `not_continued` of the options have no effect.
///
/// # Errors
///
/// Those of `fancy_is_match`, for each search.
#[unsafe(no_mangle)]
pub extern "C" fn fancy_find_all(
    alloc: Global,
    program: &mut FancyProgram,
    text: &[u8],
    options: &FancyOptions,
    cursor: &mut FancyCursor,
    spans: &mut [usize],
) -> FancyOutcome
    requires answers_for { AnswersFor options.now text.now }
    ensures finds { FindsAll
        span_alone
        text.now
        options.now
        (hosted.passed_of options.now program.new.handle.searcher)
        cursor.old
        spans.old
        (tree_of program.old.handle.searcher)
        cursor.new
        spans.new
        result }
    ensures easy { IsNoLimitWhereEasy
        (tree_of program.old.handle.searcher) text.now options.now result }
    ensures keeps { tree_of program.new.handle.searcher ≡ tree_of program.old.handle.searcher }
{
    let text = match searched(text, options, program) {
        Ok(text) => text,
        Err(outcome) => return outcome,
    };
    let mut searcher = program.take(alloc).into_searcher();
    let outcome = searcher.find_all(alloc, text, options, cursor, spans);
    *program = FancyProgram::of(searcher);
    outcome
}

/// As `fancy_find_all`, but writes start and end of each group from 0 up for each match, and `FANCY_UNSET` twice for a group
/// that is not set. A match has two numbers for each group.
///
/// # Errors
///
/// Those of `fancy_is_match`, for each search.
#[unsafe(no_mangle)]
pub extern "C" fn fancy_captures_all(
    alloc: Global,
    program: &mut FancyProgram,
    text: &[u8],
    options: &FancyOptions,
    cursor: &mut FancyCursor,
    spans: &mut [usize],
) -> FancyOutcome
    requires answers_for { AnswersFor options.now text.now }
    ensures finds { FindsAll
        all_groups
        text.now
        options.now
        (hosted.passed_of options.now program.new.handle.searcher)
        cursor.old
        spans.old
        (tree_of program.old.handle.searcher)
        cursor.new
        spans.new
        result }
    ensures easy { IsNoLimitWhereEasy
        (tree_of program.old.handle.searcher) text.now options.now result }
    ensures keeps { tree_of program.new.handle.searcher ≡ tree_of program.old.handle.searcher }
{
    let text = match searched(text, options, program) {
        Ok(text) => text,
        Err(outcome) => return outcome,
    };
    let mut searcher = program.take(alloc).into_searcher();
    let outcome = searcher.captures_all(alloc, text, options, cursor, spans);
    *program = FancyProgram::of(searcher);
    outcome
}

/// Writes a text, in UTF-8, with its first `limit` matches replaced, all of them if `limit` is 0. The replacement is written
/// as it is, or as a template, which `Template` reads. The new text is written as far as there is room, with a zero at its
/// end, and its length in bytes is said. The code is `FANCY_OK` if all of it was written, and `FANCY_NO_ROOM` if not. After
/// another code nothing is written. `pos` and `not_continued` of the options have no effect.
///
/// # Errors
///
/// Those of `fancy_is_match`, for each search, and `FANCY_NO_ROOM`.
#[unsafe(no_mangle)]
pub extern "C" fn fancy_replace(
    alloc: Global,
    program: &mut FancyProgram,
    text: &[u8],
    options: &FancyOptions,
    replacement: &[u8],
    is_literal: bool,
    limit: usize,
    room: &mut [u8],
) -> FancyOutcome
    requires answers_for { AnswersFor options.now text.now }
    ensures replaces { ReplacesIn
        text.now
        options.now
        (hosted.passed_of options.now program.new.handle.searcher)
        limit
        is_literal
        replacement.now
        room.old
        (tree_of program.old.handle.searcher)
        room.new
        result }
    ensures easy { IsNoLimitWhereEasy
        (tree_of program.old.handle.searcher) text.now options.now result }
    ensures keeps { tree_of program.new.handle.searcher ≡ tree_of program.old.handle.searcher }
{
    let text = match searched(text, options, program) {
        Ok(text) => text,
        Err(outcome) => return outcome,
    };
    let replacement = match from_utf8(replacement) {
        Ok(replacement) => replacement,
        Err(fault) => return FancyOutcome::not_utf8(fault.valid_up_to()),
    };
    let mut searcher = program.take(alloc).into_searcher();
    let outcome = searcher.replace(alloc, text, options, limit, is_literal, replacement, room);
    *program = FancyProgram::of(searcher);
    outcome
}

/// How many groups a program has, with group 0; 0 if it holds nothing.
#[unsafe(no_mangle)]
pub extern "C" fn fancy_group_count(program: &FancyProgram) -> usize
    ensures { result ≡ group_count (tree_of program.now.handle.searcher) }
{
    program.groups
}

/// Writes the name of a group, and returns how many bytes it has: 0 if the group has no name or is not there.
#[unsafe(no_mangle)]
pub extern "C" fn fancy_group_name(
    alloc: Global,
    program: &mut FancyProgram,
    group: usize,
    name: &mut [u8],
) -> usize
    ensures length { result ≡ length (group_name (tree_of program.old.handle.searcher) group) }
    ensures name { name.new
        ≡ ended (group_name (tree_of program.old.handle.searcher) group) name.old }
    ensures keeps { program.new.handle.searcher ≡ program.old.handle.searcher }
{
    if !program.is_set {
        return write_text("".as_bytes(), name);
    }
    let searcher = program.take(alloc).into_searcher();
    let length = write_text(searcher.tree().group_name(group).as_bytes(), name);
    *program = FancyProgram::of(searcher);
    length
}

/// Writes the numbers of the groups with this name, in the order in which they open, as far as there is room, and returns
/// how many there are.
#[unsafe(no_mangle)]
pub extern "C" fn fancy_groups_named(
    alloc: Global,
    program: &mut FancyProgram,
    name: &[u8],
    groups: &mut [usize],
) -> usize
    ensures finds { FindsGroups
        (tree_of program.old.handle.searcher) name.now groups.old result groups.new }
    ensures keeps { program.new.handle.searcher ≡ program.old.handle.searcher }
{
    let Ok(name) = from_utf8(name) else {
        return 0;
    };
    if !program.is_set {
        return 0;
    }
    let searcher = program.take(alloc).into_searcher();
    let numbers = searcher.tree().groups_named(name);
    write_over(numbers, groups);
    let count = numbers.len();
    *program = FancyProgram::of(searcher);
    count
}

/// Writes the name of a code, and returns how many bytes it has: 0 if no code is this number.
#[unsafe(no_mangle)]
pub extern "C" fn fancy_error_name(code: u32, name: &mut [u8]) -> usize
    ensures length { result ≡ length (name_of code) }
    ensures name { name.new ≡ ended (name_of code) name.old }
{
    write_name(code, name)
}

/// Writes an outcome as a sentence for a reader, and returns how many bytes it has.
#[unsafe(no_mangle)]
pub extern "C" fn fancy_error_message(
    alloc: Global,
    outcome: &FancyOutcome,
    message: &mut [u8],
) -> usize
    ensures { WritesText (IsMessage outcome.now) message.old result message.new }
{
    write_message(alloc, outcome, message)
}

/// Compiles a pattern, and writes why it has no program, as a sentence for a reader, with what is refused. If it has a
/// program, the text is empty.
#[unsafe(no_mangle)]
pub extern "C" fn fancy_explain_pattern(
    alloc: Global,
    pattern: &[u8],
    options: &FancyOptions,
    message: &mut [u8],
) -> usize
    ensures { WritesText (Explains pattern.now options.now) message.old result message.new }
{
    write_explanation(alloc, pattern, options, message)
}

/// Frees what a program holds.
#[unsafe(no_mangle)]
pub extern "C" fn fancy_free(alloc: Global, program: &mut FancyProgram)
    ensures { program.new.handle.searcher ≡ None }
{
    program.take(alloc).free();
}

/// Adds a pattern to a scanner, after the others. After an error the scanner has the patterns that it had.
///
/// # Errors
///
/// Those of `fancy_compile_pattern`.
#[unsafe(no_mangle)]
pub extern "C" fn fancy_scanner_add(
    alloc: Global,
    scanner: &mut FancyScanner,
    pattern: &[u8],
    options: &FancyOptions,
) -> FancyOutcome
    ensures { Adds
        pattern.now options.now scanner.old.handle.scanner scanner.new.handle.scanner result }
{
    let rule = match compile_rule(alloc, pattern, options) {
        Ok(rule) => rule,
        Err(outcome) => return outcome,
    };
    let mut held = match scanner.take_or_new(alloc) {
        Ok(held) => held,
        Err(_) => return FancyOutcome::coded(MEMORY),
    };
    let added = held.push(rule.compiled);
    *scanner = FancyScanner::of(held);
    match added {
        Ok(()) => FancyOutcome::compiled(rule.groups),
        Err(_) => FancyOutcome::coded(MEMORY),
    }
}

/// Searches a text, in UTF-8, for the patterns of a scanner, from match to match: of several patterns the match that
/// begins first, and of several that begin there that of the pattern that was added first. Of the options `size` and
/// `text_is_utf8` count here.
///
/// # Errors
///
/// A code of the limit that the search for the pattern `group` exceeds, if no other pattern has a match. Otherwise the row of
/// the match names the first such pattern and its limit.
#[unsafe(no_mangle)]
pub extern "C" fn fancy_scan(
    alloc: Global,
    scanner: &mut FancyScanner,
    text: &[u8],
    options: &FancyOptions,
    pos: &mut usize,
    groups: usize,
    rows: &mut [usize],
) -> FancyOutcome
    requires answers_for { AnswersFor options.now text.now }
    ensures scans { ScansIn
        text.now
        options.now
        groups
        pos.old
        rows.old
        scanner.old.handle.scanner
        pos.new
        rows.new
        result }
    ensures easy { IsNoLimitWhereAllEasy
        scanner.old.handle.scanner text.now groups rows.new result }
    ensures keeps { HoldsSame scanner.old.handle.scanner scanner.new.handle.scanner }
{
    let text = match searched_text(text, options) {
        Ok(text) => text,
        Err(outcome) => return outcome,
    };
    if !scanner.is_set {
        return scan(&mut TreeScanner::new(alloc), text, pos, groups, rows);
    }
    let mut held = scanner.take(alloc).into_scanner();
    let outcome = scan(&mut held, text, pos, groups, rows);
    *scanner = FancyScanner::of(held);
    outcome
}

/// Frees what a scanner holds.
#[unsafe(no_mangle)]
pub extern "C" fn fancy_scanner_free(alloc: Global, scanner: &mut FancyScanner)
    ensures { scanner.new.handle.scanner ≡ None }
{
    scanner.take(alloc).free();
}
