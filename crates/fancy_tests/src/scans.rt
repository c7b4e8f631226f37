//! A text from match to match of many trees, and from place to place.

use crate::columns::{number, split as columns, with_line_ends};
use crate::line::Line;
use crate::lists::regex;
use crate::spans::{past, push_comma, push_none, push_numbered};
use fancy_characters::places::is_place;
use fancy_regex_engine::error::Error;
use fancy_regex_engine::expr::{is_well_formed, read_tree};
use fancy_regex_engine::search::SearchOptions;
use fancy_scanner::scan_limit::ScanLimit;
use fancy_scanner::scan_text::TreeScan;
use fancy_scanner::scanner::{ScanMatch, Stopped, TreeScanner};
use std::alloc::Global;

/// Adds a tree in the notation, with the default options.
fn add_tree(scanner: &mut TreeScanner, alloc: Global, tree: &str) -> Result<(), Error> {
    let tree = read_tree(alloc, tree)?;
    let options = SearchOptions::default();
    if !options.fits("") || !is_well_formed(&tree) {
        return Err(Error::TreeFault { at: 0 });
    }
    scanner.add_tree(&tree, &options, None)
}

/// Adds the trees with ` ; ` between them: to one scanner by its tree, to the other compiled before.
fn add_trees(
    by_trees: &mut TreeScanner,
    compiled: &mut TreeScanner,
    alloc: Global,
    trees: &str,
) -> Result<(), Error> {
    for tree in trees.split(" ; ") {
        add_tree(by_trees, alloc, tree)?;
        compiled.add(regex(alloc, tree, "")?)?;
    }
    Ok(())
}

/// A limit that a tree passed, with the number of the tree.
pub fn push_stopped(line: &mut Line, stopped: &Option<Stopped>) {
    let Some(stopped) = stopped else {
        return;
    };
    push_comma(line);
    line.value(stopped.index).text(":");
    match stopped.limit {
        ScanLimit::RuntimeError(limit) => line.debug(&limit),
        limit => line.debug(&limit),
    };
}

/// The match from this place on, with the number of its tree, behind a limit that a tree passed, by a scan of the text;
/// answers where the scan goes on, which is past every text where there is none.
fn push_kept(line: &mut Line, scan: &mut TreeScan<'_, '_>, pos: usize) -> Result<usize, Error> {
    if !is_place(scan.text().as_bytes(), pos) {
        return Ok(pos.saturating_add(1));
    }
    let step = scan.find_from(pos)?;
    push_stopped(line, &step.stopped);
    let Some(first) = step.found else {
        return Ok(usize::MAX);
    };
    let Some(captures) = scan.captures(first.index) else {
        return Ok(usize::MAX);
    };
    let found = captures.whole();
    push_numbered(line, first.index, found.start(), found.end());
    Ok(past(first.whole.start(), first.whole.end()))
}

/// A match with the number of its tree; answers where the scan goes on.
fn push_match(line: &mut Line, first: &ScanMatch<'_>) -> usize {
    let found = first.captures.whole();
    push_numbered(line, first.index, found.start(), found.end());
    past(found.start(), found.end())
}

/// The same, searched for from this place alone.
pub fn push_found(
    line: &mut Line,
    scanner: &mut TreeScanner,
    text: &str,
    pos: usize,
) -> Result<usize, Error> {
    if !is_place(text.as_bytes(), pos) {
        return Ok(pos.saturating_add(1));
    }
    let scan = scanner.find_from(text, pos)?;
    push_stopped(line, &scan.stopped);
    Ok(match &scan.found {
        Some(first) => push_match(line, first),
        None => usize::MAX,
    })
}

/// `none`, if nothing was written since the line was so long.
pub fn push_missing(line: &mut Line, before: usize) {
    if line.len() <= before {
        push_comma(line);
        line.text("none");
    }
}

/// What a scan of the text says, or that a search from each place alone says something else.
pub fn push_agreed(line: &mut Line, kept: &str, found: &str) {
    if kept != found {
        return line.differ("find_from");
    }
    line.text(kept);
    push_none(line);
}

/// Each match from the text's start on; after an empty one the scan goes on one character further.
fn push_matches(
    kept: &mut Line,
    found: &mut Line,
    scan: &mut TreeScan<'_, '_>,
    compiled: &mut TreeScanner,
    text: &str,
) -> Result<(), Error> {
    let mut pos = 0;
    for _ in 0..=text.len() {
        push_found(found, compiled, text, pos)?;
        pos = push_kept(kept, scan, pos)?;
    }
    Ok(())
}

/// The first match from each of these places on, or `none`.
fn push_places(
    kept: &mut Line,
    found: &mut Line,
    scan: &mut TreeScan<'_, '_>,
    compiled: &mut TreeScanner,
    text: &str,
    places: &str,
) -> Result<(), Error> {
    for place in places.split(' ') {
        let pos = number(place);
        if !is_place(text.as_bytes(), pos) {
            return Err(Error::TreeFault { at: pos });
        }
        let (before, after) = (kept.len(), found.len());
        push_found(found, compiled, text, pos)?;
        push_kept(kept, scan, pos)?;
        push_missing(kept, before);
        push_missing(found, after);
    }
    Ok(())
}

/// The matches from the text's start on, or from the places where these are given.
fn push_scan(
    kept: &mut Line,
    found: &mut Line,
    scan: &mut TreeScan<'_, '_>,
    compiled: &mut TreeScanner,
    text: &str,
    places: &str,
) -> Result<(), Error> {
    if places.is_empty() {
        push_matches(kept, found, scan, compiled, text)
    } else {
        push_places(kept, found, scan, compiled, text, places)
    }
}

/// The same by two scanners of the trees.
fn push_by_both(
    kept: &mut Line,
    found: &mut Line,
    alloc: Global,
    trees: &str,
    text: &str,
    places: &str,
) -> Result<(), Error> {
    let (mut by_trees, mut compiled) = (TreeScanner::new(alloc), TreeScanner::new(alloc));
    add_trees(&mut by_trees, &mut compiled, alloc, trees)?;
    let mut cache = by_trees.create_cache();
    let mut scan = by_trees.scan(text, &mut cache);
    push_scan(kept, found, &mut scan, &mut compiled, text, places)
}

/// TREES, TEXT: from the text's start on each match, with the number of its tree. TREES, TEXT, PLACES: from each of the
/// places on the first match. A scan of the text says so, and a search from each place alone.
pub fn push_scans(line: &mut Line, alloc: Global, key: &str) -> Result<(), Error> {
    let (trees, rest) = columns(key);
    let (text, places) = columns(rest);
    let text = with_line_ends(alloc, text)?;
    let (mut kept, mut found) = (Line::new(alloc), Line::new(alloc));
    push_by_both(&mut kept, &mut found, alloc, trees, text.as_str(), places)?;
    push_agreed(line, kept.as_str(), found.as_str());
    Ok(())
}
