//! How few lines of a text an editor asks for anew after an edit.

use crate::outcome::Written;
use fancy_highlight::highlighter::Highlighter;
use fancy_highlight::state::State;
use std::alloc::{AllocError, Global};

/// The lines of a text, with their line feeds.
fn lines(alloc: Global, text: &str) -> Result<Vec<&str>, AllocError> {
    text.split_inclusive('\n').collect(alloc)
}

/// The states before the lines, and that after the last one.
fn states(
    alloc: Global,
    highlighter: &mut Highlighter,
    lines: &[&str],
) -> Result<Vec<State>, AllocError> {
    let mut states = Vec::new(alloc);
    let mut state = highlighter.state();
    for line in lines {
        let next = highlighter.tokens(line, &state)?.state;
        states.push(state)?;
        state = next;
    }
    states.push(state)?;
    Ok(states)
}

/// How many lines at the beginning did not change.
fn same_first(old: &[&str], new: &[&str]) -> usize {
    let mut count = 0usize;
    for (old, new) in old.iter().zip(new.iter()) {
        if *old != *new {
            break;
        }
        count = count.saturating_add(1);
    }
    count
}

/// How many lines at the end did not change.
fn same_last(old: &[&str], new: &[&str]) -> usize {
    let mut count = 0usize;
    for (old, new) in old.iter().rev().zip(new.iter().rev()) {
        if *old != *new {
            break;
        }
        count = count.saturating_add(1);
    }
    count
}

/// How many of the new lines an editor asks for that has the states of the old lines: from the first line that changed on,
/// up to one whose state is what it was and after which nothing changed.
fn asked_for(
    highlighter: &mut Highlighter,
    states: &[State],
    old: &[&str],
    new: &[&str],
) -> Result<usize, AllocError> {
    let first = same_first(old, new);
    let last = same_last(old, new);
    let Some(before) = states.get(first) else {
        return Ok(0);
    };
    let mut state = before.clone()?;
    let mut count = 0usize;
    for index in first..new.len() {
        let left = new.len().saturating_sub(index);
        let was = states.get(old.len().saturating_sub(left));
        if left <= last && was == Some(&state) {
            break;
        }
        state = highlighter.tokens(new[index], &state)?.state;
        count = count.saturating_add(1);
    }
    Ok(count)
}

/// Writes how many lines an editor asks for anew once the old text is the new one.
pub fn push_asked_for(
    out: &mut String,
    highlighter: &mut Highlighter,
    old: &str,
    new: &str,
) -> Written {
    let alloc = *out.allocator();
    let old = lines(alloc, old)?;
    let new = lines(alloc, new)?;
    let states = states(alloc, highlighter, &old)?;
    let count = asked_for(highlighter, &states, &old, &new)?;
    writeln!(out, "{count} of {} lines", new.len())
}
