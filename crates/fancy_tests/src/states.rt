//! States, by calls in turn.

use crate::columns::{number, pair, split};
use crate::line::Line;
use fancy_regex_engine::error::Error;
use fancy_regex_engine::vm::State;
use std::alloc::Global;

/// A state holds no more branches.
const MOST_BRANCHES: usize = 1_000_000;

/// What is in the slot; 0 where there is no such slot.
fn slot(state: &State, slot: usize) -> usize {
    if slot < state.slot_count() {
        state.get(slot)
    } else {
        0
    }
}

/// Writes the slot, where there is one.
fn save(state: &mut State, slot: usize, value: usize) -> Result<(), Error> {
    if slot < state.slot_count() {
        state.save(slot, value)?;
    }
    Ok(())
}

/// Goes back to the last branch: its two numbers, or that there is none.
fn push_popped(line: &mut Line, state: &mut State) {
    if state.backtrack_count() == 0 {
        line.text(" -");
        return;
    }
    let (pc, ix) = state.pop();
    line.space().value(pc).text(",").value(ix);
}

/// Takes what was put last, or says that there is nothing.
fn push_taken(line: &mut Line, state: &mut State) -> Result<(), Error> {
    if state.has_entry() {
        line.space().value(state.stack_pop()?);
    } else {
        line.text(" -");
    }
    Ok(())
}

/// Makes the call that the word spells, as `save:0,1`, and writes what it answers: the number of branches where it spells
/// none. One that may not be made does nothing.
fn push_call(line: &mut Line, state: &mut State, word: &str) -> Result<(), Error> {
    let (name, after) = word.split_once(':').unwrap_or((word, ""));
    let (one, other) = pair(after);
    match name {
        "save" => return save(state, one, other),
        "push" => return state.push(one, other),
        "pop" => push_popped(line, state),
        "put" => return state.stack_push(one),
        "take" => return push_taken(line, state),
        "cut" => {
            if one <= state.backtrack_count() {
                state.backtrack_cut(one);
            }
        }
        "get" => {
            line.space().value(slot(state, one));
        }
        _ => {
            line.space().value(state.backtrack_count());
        }
    }
    Ok(())
}

/// So many branches, with a slot written after each.
fn fill(state: &mut State, count: usize) -> Result<(), Error> {
    for place in 0..count {
        let slot = place.checked_rem(state.slot_count()).unwrap_or(0);
        state.push(place, place)?;
        save(state, slot, place)?;
    }
    Ok(())
}

/// Writes what each call answers.
fn push_answers(line: &mut Line, state: &mut State, words: &str) -> Result<(), Error> {
    line.text("answers");
    for word in words.split_whitespace() {
        if let Some(count) = word.strip_prefix("fill:") {
            fill(state, number(count))?;
        } else if let Err(error) = push_call(line, state, word) {
            line.space().debug(&error);
        }
    }
    Ok(())
}

/// What each call answers.
pub fn push_calls(line: &mut Line, alloc: Global, key: &str) -> Result<(), Error> {
    let (slots, words) = split(key);
    let mut state = State::new(alloc, number(slots), MOST_BRANCHES)?;
    push_answers(line, &mut state, words)
}
