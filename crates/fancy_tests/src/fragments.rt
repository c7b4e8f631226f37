//! What comes out of the fragment of a tree's children.

ghost use Rattle.std.specs.Prelude.{IsTrue};
ghost use Rattle.fancy_meaning.specs.Places.{is_place};
ghost use Rattle.fancy_fragments.specs.Fragments.{IsMemoFor};
ghost use Rattle.fancy_fragments.specs.Nodes.{AreEasyNeighbours};

use crate::columns::{number, split, written_out};
use crate::easy::easy_children;
use crate::layouts::context;
use crate::line::Line;
use crate::trees::read;
use fancy_characters::places::is_place;
use fancy_regex_engine::analyze::{Info, analyze};
use fancy_regex_engine::error::Error;
use fancy_regex_engine::expr::{ExprTree, is_well_formed};
use fancy_regex_engine::plain::{FirstWay, Fragment, Memo, Way, first_way, first_way_with};
use std::alloc::Global;

/// Where the way ends, and number, start and end of each group that it sets.
fn push_way(line: &mut Line, way: &Way) {
    line.text("to ").value(way.end);
    for (group, from, to) in &way.spans {
        line.text(" (").value(*group).text(",");
        line.value(*from).text(",").value(*to).text(")");
    }
}

/// How many points were taken up, or only whether no more were than the bound allows.
fn push_visits(line: &mut Line, table: &str, visits: u64, bound: usize) {
    if table != "compared_ways" {
        line.text(", ").value(visits).text(" of ");
    } else if visits <= bound as u64 {
        line.text(", within ");
    } else {
        line.text(", MORE than ");
    }
    line.value(bound);
}

/// The way, or none, and what was taken up.
fn push_found(line: &mut Line, table: &str, found: &FirstWay, bound: usize) {
    match &found.way {
        Some(way) => push_way(line, way),
        None => {
            line.text("none");
        }
    }
    push_visits(line, table, found.visits, bound);
}

/// The first way from a place of the text; the columns are the text, the place, and the bound.
fn push_first_way(
    line: &mut Line,
    alloc: Global,
    table: &str,
    fragment: &Fragment,
    columns: &str,
) -> Result<(), Error> {
    let (text, rest) = split(columns);
    let (place, bound) = split(rest);
    let text = written_out(alloc, text)?;
    let ix = number(place);
    if is_place(text.as_bytes(), ix) {
        let found = first_way(alloc, fragment, text.as_str(), ix)?;
        push_found(line, table, &found, number(bound));
    } else {
        line.text("no place");
    }
    Ok(())
}

/// How many points searches from all places of the text take up, each by itself.
fn visits_alone(alloc: Global, fragment: &Fragment, text: &str) -> Result<u64, Error> {
    let mut visits: u64 = 0;
    for ix in 0..text.len() {
        if is_place(text.as_bytes(), ix) {
            visits = visits.saturating_add(first_way(alloc, fragment, text, ix)?.visits);
        }
    }
    Ok(visits)
}

/// How many they take up together, each with what those before it noted.
fn visits_together(
    alloc: Global,
    fragment: &Fragment,
    text: &str,
    memo: &mut Memo,
) -> Result<u64, Error>
    requires { IsMemoFor text.now fragment.now memo.old }
{
    let mut visits: u64 = 0;
    'starts: for ix in 0..text.len() {
        if is_place(text.as_bytes(), ix) {
            let found = first_way_with(alloc, fragment, text, ix, memo)?;
            visits = visits.saturating_add(found.visits);
        }
    }
    Ok(visits)
}

/// The same, from where nothing is noted.
fn visits_in_all(alloc: Global, fragment: &Fragment, text: &str) -> Result<u64, Error> {
    let mut memo = fragment.memo(alloc, 0);
    visits_together(alloc, fragment, text, &mut memo)
}

/// The searches from all places of the text but its end.
fn push_starts(
    line: &mut Line,
    alloc: Global,
    fragment: &Fragment,
    text: &str,
) -> Result<(), Error> {
    line.value(visits_in_all(alloc, fragment, text)?);
    line.text(" together, ");
    line.value(visits_alone(alloc, fragment, text)?);
    line.text(" alone");
    Ok(())
}

/// What the table asks of the fragment.
fn push_told(
    line: &mut Line,
    alloc: Global,
    table: &str,
    fragment: &Fragment,
    columns: &str,
) -> Result<(), Error> {
    match table {
        "builds" => {
            line.text("built");
            Ok(())
        }
        "starts" => {
            let text = written_out(alloc, columns)?;
            push_starts(line, alloc, fragment, text.as_str())
        }
        _ => push_first_way(line, alloc, table, fragment, columns),
    }
}

/// The same of the fragment of these nodes, where a class is read by Unicode.
fn push_of_nodes(
    line: &mut Line,
    alloc: Global,
    table: &str,
    infos: &[Info<'_>],
    columns: &str,
) -> Result<(), Error>
    requires { AreEasyNeighbours infos.now }
{
    let (letter, rest) = split(columns);
    let fragment = Fragment::build(alloc, infos, letter != "a")?;
    push_told(line, alloc, table, &fragment, rest)
}

/// The same of the children of the tree.
fn push_of_tree(
    line: &mut Line,
    alloc: Global,
    table: &str,
    tree: &ExprTree,
    columns: &str,
) -> Result<(), Error> {
    if !is_well_formed(tree) {
        line.text("not well formed");
        return Ok(());
    }
    let info = analyze(alloc, tree, context(""))?;
    match easy_children(tree, &info) {
        Some(infos) => push_of_nodes(line, alloc, table, infos, columns),
        None => {
            line.text("hard");
            Ok(())
        }
    }
}

/// What comes out for the key of a row: TREE, and the columns after it.
pub fn push_fragment(line: &mut Line, alloc: Global, table: &str, key: &str) -> Result<(), Error> {
    let (tree, columns) = split(key);
    push_of_tree(line, alloc, table, &read(alloc, tree)?, columns)
}
