//! A text from place to place of many patterns.

use crate::columns::{number, split, with_codes};
use crate::line::Line;
use crate::regexes::{builder_of, regex_of};
use crate::scans::{push_agreed, push_found, push_missing, push_stopped};
use crate::spans::push_numbered;
use fancy_characters::places::is_place;
use fancy_regex::{Error, ScanText, Scanner};
use fancy_scanner::scanner::TreeScanner;
use std::alloc::Global;

/// What a scan says, what the engine says from each place alone, and what the groups `n` took.
#[derive(Drop)]
struct Said {
    kept: Line,
    found: Line,
    named: Line,
}

/// Adds a pattern, with options by these words, and to the other scanner the engine of its regex.
fn add(
    scanner: &mut Scanner,
    compiled: &mut TreeScanner,
    alloc: Global,
    pattern: &str,
    words: &str,
) -> Result<(), Error> {
    if words == "-" {
        scanner.add(pattern)?;
    } else {
        scanner.add_built(&builder_of(pattern, words))?;
    }
    compiled.add(regex_of(alloc, pattern, words)?.into_engine())?;
    Ok(())
}

/// Adds the patterns with ` ; ` between them.
fn add_all(
    scanner: &mut Scanner,
    compiled: &mut TreeScanner,
    alloc: Global,
    patterns: &str,
    words: &str,
) -> Result<(), Error> {
    for pattern in patterns.split(" ; ") {
        add(scanner, compiled, alloc, pattern, words)?;
    }
    Ok(())
}

/// What the group `n` of the match that is kept of this pattern took, after a space.
fn push_named(named: &mut Line, scan: &ScanText<'_, '_>, index: usize) -> Result<(), Error> {
    let Some(captures) = scan.captures(index)? else {
        return Ok(());
    };
    if let Some(found) = captures.name("n") {
        named.space().text(found.as_str());
    }
    Ok(())
}

/// The match from this place on, with the number of its pattern, behind a limit that a pattern passed.
fn push_step(said: &mut Said, scan: &mut ScanText<'_, '_>, pos: usize) -> Result<(), Error> {
    if !is_place(scan.text().as_bytes(), pos) {
        return Ok(());
    }
    let step = scan.find_from(pos)?;
    push_stopped(&mut said.kept, &step.stopped);
    let Some(first) = step.found else {
        return Ok(());
    };
    let (from, to) = (first.whole.start(), first.whole.end());
    push_numbered(&mut said.kept, first.index, from, to);
    push_named(&mut said.named, scan, first.index)
}

/// The first match from each of these places on, or `none`: by the scan, and by the engine from each place alone.
fn push_steps(
    said: &mut Said,
    scan: &mut ScanText<'_, '_>,
    compiled: &mut TreeScanner,
    places: &str,
) -> Result<(), Error> {
    for place in places.split(' ') {
        let pos = number(place);
        let (before, after) = (said.kept.len(), said.found.len());
        push_found(&mut said.found, compiled, scan.text(), pos)?;
        push_step(said, scan, pos)?;
        push_missing(&mut said.kept, before);
        push_missing(&mut said.found, after);
    }
    Ok(())
}

/// The same by the patterns of a row.
fn push_scanned(said: &mut Said, alloc: Global, key: &str) -> Result<(), Error> {
    let (patterns, rest) = split(key);
    let (words, rest) = split(rest);
    let (text, places) = split(rest);
    let (mut scanner, mut compiled) = (Scanner::new(alloc), TreeScanner::new(alloc));
    add_all(&mut scanner, &mut compiled, alloc, patterns, words)?;
    push_steps(said, &mut scanner.scan(text), &mut compiled, places)
}

/// PATTERNS, options, TEXT, PLACES: from each of the places on the first match, and then what the groups `n` took.
pub fn push_pattern_scan(line: &mut Line, alloc: Global, key: &str) -> Result<(), Error> {
    let mut said = Said {
        kept: Line::new(alloc),
        found: Line::new(alloc),
        named: Line::new(alloc),
    };
    push_scanned(&mut said, alloc, key)?;
    push_agreed(line, said.kept.as_str(), said.found.as_str());
    line.text(said.named.as_str());
    Ok(())
}
