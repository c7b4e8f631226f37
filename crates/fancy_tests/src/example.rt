//! What a host writes to search a text for a tree.

use crate::columns::split;
use crate::line::Line;
use fancy_regex_engine::error::Error;
use fancy_regex_engine::expr::read_tree;
use fancy_regex_engine::scratch::Scratch;
use fancy_regex_engine::search::{SearchOptions, search};
use std::alloc::Global;

/// Start and end of each group of the first match, in bytes of the text.
fn find(alloc: Global, tree: &str, text: &str) -> Result<Option<Vec<usize>>, Error> {
    let tree = read_tree(alloc, tree)?;
    let options = SearchOptions::default();
    search(alloc, &tree, text, &options, &mut Scratch::new(alloc))
}

/// The numbers, or that there is no match, or why there is no answer, as a user reads it.
pub fn push_example(line: &mut Line, alloc: Global, key: &str) {
    let (tree, text) = split(key);
    match find(alloc, tree, text) {
        Ok(Some(numbers)) => line.debug(&numbers),
        Ok(None) => line.text("no match"),
        Err(error) => line.value(error),
    };
}
