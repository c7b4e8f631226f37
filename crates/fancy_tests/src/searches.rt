//! Searches by each call that makes one, and what the command prints.

use crate::agreement::differing;
use crate::answers::{push_default, push_run, push_search as push_whole, push_spans};
use crate::columns::{add_bracket_words, add_search_words, written_out};
use crate::commands::{push_answer, push_least_room, push_misuse};
use crate::example::push_example;
use crate::layouts::compiled;
use crate::line::Line;
use fancy_regex_engine::arguments::{Arguments, read_arguments};
use fancy_regex_engine::error::Error;
use fancy_regex_engine::expr::{ExprTree, read_tree};
use fancy_regex_engine::vm::{Prog, RunOptions, Scratch};
use std::alloc::{AllocError, Global};

/// Each call that searches as the words ask.
fn push_calls(
    said: &mut Line,
    alloc: Global,
    tree: &ExprTree,
    prog: &Prog,
    text: &str,
    arguments: &Arguments,
    scratch: &mut Scratch,
) {
    let options = arguments.running();
    push_run(said, alloc, prog, text, &options, scratch);
    push_spans(said, alloc, prog, text, &options, scratch);
    push_run(said, alloc, prog, text, &options, scratch);
    push_default(said, alloc, prog, text, &options);
    push_whole(said, alloc, tree, text, &arguments.options());
}

/// The same with the program of the tree; nothing where the tree is refused.
fn push_compiled(
    said: &mut Line,
    alloc: Global,
    tree: &ExprTree,
    text: &str,
    arguments: &Arguments,
    scratch: &mut Scratch,
) {
    if let Ok(prog) = compiled(alloc, tree, arguments.analysis(), arguments.compilation()) {
        push_calls(said, alloc, tree, &prog, text, arguments, scratch);
    }
}

/// The same with the tree of the words; nothing where it is not read.
fn push_asked(said: &mut Line, alloc: Global, words: &[String], scratch: &mut Scratch) {
    let [tree, text, after @ ..] = words else {
        return;
    };
    let Some(arguments) = read_arguments(after) else {
        said.text("run no search\nread_arguments\n");
        return;
    };
    if let Ok(tree) = read_tree(alloc, tree.as_str()) {
        push_compiled(said, alloc, &tree, text.as_str(), &arguments, scratch);
    }
}

/// The line that is printed, or that the calls agree, where those that search as the words ask agree.
fn push_compared(line: &mut Line, alloc: Global, words: &[String], scratch: &mut Scratch) {
    let mut said = Line::new(alloc);
    push_asked(&mut said, alloc, words, scratch);
    match differing(said.as_str()) {
        Some(call) => line.differ(call),
        None => push_answer(line, alloc, words),
    }
}

/// The words that a row of this table spells.
fn add_words_of_row(
    words: &mut Vec<String>,
    alloc: Global,
    table: &str,
    key: &str,
) -> Result<(), AllocError> {
    match table {
        "misuses" | "writers" => add_bracket_words(words, alloc, key),
        "long_texts" | "easy_long_texts" => {
            let key = written_out(alloc, key)?;
            add_search_words(words, alloc, key.as_str())
        }
        _ => add_search_words(words, alloc, key),
    }
}

/// What comes out for the key of a row: TREE, TEXT and the words after them, or the words in brackets.
pub fn push_search(
    line: &mut Line,
    alloc: Global,
    table: &str,
    key: &str,
    scratch: &mut Scratch,
) -> Result<(), Error> {
    let mut words = Vec::new(alloc);
    add_words_of_row(&mut words, alloc, table, key)?;
    match table {
        "misuses" => push_misuse(line, alloc, &words),
        "writers" => push_least_room(line, alloc, &words),
        "example" => push_example(line, alloc, key),
        "long_texts" | "easy_long_texts" => push_answer(line, alloc, &words),
        _ => push_compared(line, alloc, &words, scratch),
    }
    Ok(())
}
