//! Tables of rows over the whole engine.
#![tactic(auto)]

mod agreement;
mod analysis;
mod answers;
mod changes;
mod characters;
mod closing;
mod columns;
mod commands;
mod easy;
mod example;
mod fragments;
mod instructions;
mod layouts;
mod line;
mod lists;
mod pattern_scans;
mod printed;
mod programs;
mod regex_calls;
mod regexes;
mod replacements;
mod rows;
mod scans;
mod searches;
mod spans;
mod states;
mod syntax;
mod tables;
mod trees;

use crate::tables::print_table;
use fancy_regex_engine::vm::Scratch;
use std::io;

static TABLES: [&str; 50] = [
    "searches/example",
    "searches/answers",
    "searches/everyday",
    "searches/guide",
    "searches/easy_answers",
    "searches/longest_by_chance",
    "searches/long_texts",
    "searches/easy_long_texts",
    "searches/misuses",
    "searches/writers",
    "programs/layouts",
    "programs/compared_layouts",
    "programs/by_hand",
    "programs/states",
    "trees/notation",
    "trees/numbers",
    "trees/patterns",
    "trees/refusals",
    "trees/sizes",
    "trees/nodes",
    "trees/anchors",
    "trees/options",
    "trees/changes",
    "characters/classes",
    "characters/newlines",
    "characters/folds",
    "characters/literals",
    "characters/pieces",
    "characters/places",
    "fragments/builds",
    "fragments/first_ways",
    "fragments/compared_ways",
    "fragments/starts",
    "lists/matches",
    "lists/splits",
    "lists/replacements",
    "lists/scans",
    "syntax/spelled",
    "syntax/refused",
    "syntax/own_spelled",
    "syntax/own_refused",
    "syntax/analysed",
    "syntax/found",
    "syntax/returned",
    "syntax/escaped",
    "syntax/escaped_trees",
    "regexes/calls",
    "regexes/long_calls",
    "regexes/messages",
    "regexes/pattern_scans",
];

fn main(rt: HostRuntime) -> io::Result<()> {
    // One scratch serves all rows.
    let mut scratch = Scratch::new(rt.alloc());
    for table in &TABLES {
        print_table(&rt, table, &mut scratch)?;
    }
    Ok(())
}
