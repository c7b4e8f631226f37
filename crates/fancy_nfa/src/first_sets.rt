//! With which characters a way can begin: found by the states that a search comes to before each of its first ones.
//!
//! A set has an entry for each ASCII character, and one for all others together.

ghost use Rattle.std.specs.Prelude.{◌≡◌, ◌&&◌, ℕ, List, ◌+◌, ◌<◌, ◌≤◌, [], true, false, map, slice_get, slice_index_or, Some, IfOk, IfSome};
ghost use Rattle.std.specs.Char.{IsScalar};
ghost use Rattle.fancy_meaning.specs.Chars.{any_takes, literal_takes};
ghost use Rattle.fancy_meaning.specs.Machine.{class_test};
ghost use Rattle.fancy_characters.specs.Classes.{class_of};
ghost use Rattle.fancy_nfa_laws.specs.NfaSearch.{passes};
ghost use Rattle.fancy_nfa.specs.FirstSets.{has_character, may_begin, covers, is_over, is_short, steps_within, AreLevels, IsLevel, AreFirstSets};
ghost use Rattle.fancy_backtrack.specs.Loops.{loop_of};
ghost use Rattle.fancy_nfa.specs.Views.{state_of, test_of, IsStateReadBy, IsReadBy};

use crate::nfa_state::{CharTest, NfaState};
use fancy_backtrack::loops::Loop;
use fancy_characters::classes::{CharClassMatcher, ascii_folds, folds_to_others};
use std::alloc::{AllocError, Global};

/// The entry of the characters beyond ASCII.
pub(crate) const OTHERS: usize = 128;

/// At how many of a way's first places it is told which characters can stand there.
const LEVELS: usize = 5;

/// How often the states are gone through to find what they lead to.
const PASSES: usize = 4;

/// It is not known how many iterations were begun.
pub(crate) const ANY_COUNTER: u8 = 255;

/// The characters that can stand at a way's first places, level by level. There are no more levels where a way may have
/// ended, and so none if one may take nothing.
pub(crate) fn first_sets(
    alloc: Global,
    states: &[NfaState],
    unicode: bool,
) -> Result<Vec<[bool; 129]>, AllocError>
    requires { (i : ℕ) (p : NfaState) → slice_get states.now i ≡ Some p → IsStateReadBy unicode p }
    ensures { IfOk result (λ levels. AreFirstSets unicode (map state_of states.now) levels.items) }
{
    let reached = first_states(alloc, states)?;
    if !covers(&reached, 0, ANY_COUNTER) {
        return Ok(Vec::new(alloc));
    }
    let levels = levels_from(alloc, states, unicode, reached, LEVELS)?;
    Ok(levels)
}

/// The characters that a search can take from these states on, at so many levels at most, and no more where a way may
/// have ended.
pub(crate) fn levels_from(
    alloc: Global,
    states: &[NfaState],
    unicode: bool,
    first: Vec<u8>,
    most: usize,
) -> Result<Vec<[bool; 129]>, AllocError>
    requires { (i : ℕ) (p : NfaState) → slice_get states.now i ≡ Some p → IsStateReadBy unicode p }
    ensures { IfOk result (λ levels. (last : List ℕ)
        × AreLevels unicode (map state_of states.now) first.items levels.items last) }
{
    let mut levels = Vec::new(alloc);
    let mut reached = first;
    'levels: for _ in 0..most {
        let after = next_states(alloc, states, &reached)?;
        let Some(set) = level_between(states, unicode, &reached, &after) else {
            return Ok(levels);
        };
        levels.push(set)?;
        reached = after;
    }
    Ok(levels)
}

/// Whether such characters stand at the place and behind it, up to the first one beyond ASCII.
pub(crate) fn may_begin(levels: &[[bool; 129]], text: &[u8], ix: usize) -> bool
    ensures { result ≡ may_begin levels.now text.now ix }
{
    let mut place = ix;
    'levels: for level in levels {
        if place >= text.len() {
            return false;
        }
        let byte = text[place];
        if !level[(byte as usize).min(OTHERS)] {
            return false;
        }
        if byte >= 128 {
            return true;
        }
        place += 1;
    }
    true
}

// ---- What a search may come to before it takes a character, or the next one: for each state its counter, which is one
// more than how many iterations were begun of the loop around that counts. It is 0 at a state that the search does not
// come to.

/// No further iteration of the loop may be begun with this counter.
fn is_over(bounds: Loop, counter: u8) -> bool
    ensures { result ≡ is_over (loop_of bounds) counter }
{
    counter < ANY_COUNTER && counter as usize > bounds.hi
}

/// A further one has to be begun with this counter, unless none may.
fn is_short(bounds: Loop, counter: u8) -> bool
    ensures { result ≡ is_short (loop_of bounds) counter }
{
    counter < ANY_COUNTER && counter as usize <= bounds.lo
}

pub(crate) fn counter_at(reached: &[u8], at: usize) -> u8
    ensures { result ≡ slice_index_or reached.now at 0 }
{
    match reached.get(at) {
        Some(counter) => *counter,
        None => 0,
    }
}

/// Whether the search may come to the state with this counter.
pub(crate) fn covers(reached: &[u8], at: usize, counter: u8) -> bool
    ensures { result ≡ covers reached.now at counter }
{
    let there = counter_at(reached, at);
    there == counter || there == ANY_COUNTER
}

/// The states that a search comes to before it takes a character.
pub(crate) fn first_states(alloc: Global, states: &[NfaState]) -> Result<Vec<u8>, AllocError> {
    let mut reached = Vec::new(alloc);
    reached.resize(states.len(), 0)?;
    add(&mut reached, 0, ANY_COUNTER);
    follow(states, &mut reached);
    Ok(reached)
}

/// The states that it comes to after that, before it takes one more.
pub(crate) fn next_states(
    alloc: Global,
    states: &[NfaState],
    reached: &[u8],
) -> Result<Vec<u8>, AllocError> {
    let mut after = Vec::new(alloc);
    after.resize(states.len(), 0)?;
    for at in 0..states.len() {
        if let NfaState::Character(_) = &states[at] {
            add(&mut after, at + 1, counter_at(reached, at));
        }
    }
    follow(states, &mut after);
    Ok(after)
}

/// Adds what the states lead to, again as long as that may lead further.
pub(crate) fn follow(states: &[NfaState], reached: &mut [u8]) {
    for _ in 0..PASSES {
        let mut has_led_back = false;
        for at in 0..states.len() {
            let counter = counter_at(reached, at);
            if counter > 0 && add_next(&states[at], at, counter, reached) {
                has_led_back = true;
            }
        }
        if !has_led_back {
            return;
        }
    }
}

/// Adds what the state at `at` leads to, and returns whether that was news of a state that was gone through.
fn add_next(nfa_state: &NfaState, at: usize, counter: u8, reached: &mut [u8]) -> bool
    requires { at < usize.MAX }
{
    match nfa_state {
        NfaState::Match | NfaState::Character(_) => false,
        NfaState::Jump(to) => add_step(reached, at, *to, counter),
        NfaState::Split(first, second) => add_both(reached, at, (*first, *second), counter),
        NfaState::BranchSplit(first, second) => add_both(reached, at, (*first, *second), counter),
        NfaState::LoopSplit(first, second) => add_both(reached, at, (*first, *second), counter),
        NfaState::CounterBegin => add_step(reached, at, at + 1, 1),
        NfaState::CounterLoop { bounds, after } => {
            if is_over(*bounds, counter) {
                add_step(reached, at, *after, ANY_COUNTER)
            } else if is_short(*bounds, counter) {
                add_step(reached, at, at + 1, counter.saturating_add(1))
            } else {
                add_both(reached, at, (at + 1, *after), ANY_COUNTER)
            }
        }
        _ => add_step(reached, at, at + 1, counter),
    }
}

fn add_step(reached: &mut [u8], at: usize, to: usize, counter: u8) -> bool {
    add(reached, to, counter) && to <= at
}

fn add_both(reached: &mut [u8], at: usize, to: (usize, usize), counter: u8) -> bool {
    let first = add_step(reached, at, to.0, counter);
    let second = add_step(reached, at, to.1, counter);
    first || second
}

/// Adds the state with this counter, and returns whether that was news. A state with two counters may have any.
pub(crate) fn add(reached: &mut [u8], at: usize, counter: u8) -> bool {
    if at >= reached.len() || counter == 0 || covers(reached, at, counter) {
        return false;
    }
    reached[at] = if reached[at] == 0 {
        counter
    } else {
        ANY_COUNTER
    };
    true
}

/// Whether the state at `at` leads to states that were reached alone, or by a character to those after that.
pub(crate) fn steps_on(nfa_state: &NfaState, at: usize, reached: &[u8], after: &[u8]) -> bool
    requires { at < usize.MAX }
    ensures { result
        ≡ steps_within reached.now after.now at (slice_index_or reached.now at 0)
        (state_of nfa_state.now) }
{
    let counter = counter_at(reached, at);
    match nfa_state {
        NfaState::Match => false,
        NfaState::Character(_) => covers(after, at + 1, counter),
        NfaState::Jump(to) => covers(reached, *to, counter),
        NfaState::Split(first, second) => covers_both(reached, *first, *second, counter),
        NfaState::BranchSplit(first, second) => covers_both(reached, *first, *second, counter),
        NfaState::LoopSplit(first, second) => covers_both(reached, *first, *second, counter),
        NfaState::CounterBegin => covers(reached, at + 1, 1),
        NfaState::CounterLoop { bounds, after } => {
            if is_over(*bounds, counter) {
                covers(reached, *after, ANY_COUNTER)
            } else if is_short(*bounds, counter) {
                covers(reached, at + 1, counter + 1)
            } else {
                covers_both(reached, at + 1, *after, ANY_COUNTER)
            }
        }
        _ => covers(reached, at + 1, counter),
    }
}

fn covers_both(reached: &[u8], first: usize, second: usize, counter: u8) -> bool
    ensures { result ≡ (covers reached.now first counter && covers reached.now second counter) }
{
    covers(reached, first, counter) && covers(reached, second, counter)
}

/// The characters that the states reached take, if they lead to each other alone, or by a character to those
/// after that.
pub(crate) fn level_between(
    states: &[NfaState],
    unicode: bool,
    reached: &[u8],
    after: &[u8],
) -> Option<[bool; 129]>
    requires { (i : ℕ) (p : NfaState) → slice_get states.now i ≡ Some p → IsStateReadBy unicode p }
    ensures { IfSome result
        (λ set. IsLevel unicode (map state_of states.now) reached.now set after.now) }
{
    let mut set = [false; 129];
    'states: for at in 0..states.len() {
        if counter_at(reached, at) > 0 {
            let nfa_state = &states[at];
            if !steps_on(nfa_state, at, reached, after) {
                return None;
            }
            if let NfaState::Character(test) = nfa_state {
                add_taken(test, unicode, &mut set);
            }
        }
    }
    Some(set)
}

/// Adds the characters that pass the test.
#[inline(always)]
pub(crate) fn add_taken(test: &CharTest, unicode: bool, set: &mut [bool; 129])
    requires { IsReadBy unicode test.now }
    ensures taken { (c : ℕ) → IsScalar c → passes [] unicode (test_of test.now) c ≡ true
        → has_character set.new c ≡ true }
    ensures kept { (c : ℕ) → slice_index_or set.old c false ≡ true
        → slice_index_or set.new c false ≡ true }
{
    match test {
        CharTest::One { c, casei: false } => add_one(*c as usize, set),
        CharTest::One { c, casei: true } => add_folded(*c as u32, unicode, set),
        CharTest::Any { newline, crlf } => add_any(*newline, *crlf, set),
        CharTest::Class(class) => add_class(class, set),
    }
}

/// Adds a character.
fn add_one(c: usize, set: &mut [bool; 129])
    ensures taken { has_character set.new c ≡ true }
    ensures kept { (d : ℕ) → slice_index_or set.old d false ≡ true
        → slice_index_or set.new d false ≡ true }
{
    set[c.min(OTHERS)] = true;
}

/// Adds the characters that fold to the same as this character.
fn add_folded(c: u32, unicode: bool, set: &mut [bool; 129])
    ensures taken { (d : ℕ) → IsScalar d → literal_takes unicode c true d ≡ true
        → has_character set.new d ≡ true }
    ensures kept { (d : ℕ) → slice_index_or set.old d false ≡ true
        → slice_index_or set.new d false ≡ true }
{
    let (lower, upper) = ascii_folds(unicode, c);
    add_one(lower as usize, set);
    add_one(upper as usize, set);
    add_others(folds_to_others(unicode, c), set);
}

/// Adds the characters beyond ASCII, if they are taken.
fn add_others(are_taken: bool, set: &mut [bool; 129])
    ensures taken { (d : ℕ) → 128 ≤ d → are_taken ≡ true → has_character set.new d ≡ true }
    ensures kept { (d : ℕ) → slice_index_or set.old d false ≡ true
        → slice_index_or set.new d false ≡ true }
{
    if are_taken {
        set[OTHERS] = true;
    }
}

/// Adds what any character may be.
#[inline(always)]
fn add_any(newline: bool, crlf: bool, set: &mut [bool; 129])
    ensures taken { (c : ℕ) → any_takes newline crlf c ≡ true → has_character set.new c ≡ true }
    ensures kept { (c : ℕ) → slice_index_or set.old c false ≡ true
        → slice_index_or set.new c false ≡ true }
{
    'ask: for c in 0..128u8 {
        let is_taken = newline | !((c == 10) | (crlf & (c == 13)));
        set[c as usize] = set[c as usize] | is_taken;
    }
    add_others(true, set);
}

/// Adds the characters of the class.
#[inline(always)]
fn add_class(class: &CharClassMatcher, set: &mut [bool; 129])
    ensures taken { (c : ℕ) → IsScalar c → class_test (class_of class.now) c ≡ true
        → has_character set.new c ≡ true }
    ensures kept { (c : ℕ) → slice_index_or set.old c false ≡ true
        → slice_index_or set.new c false ≡ true }
{
    'ask: for c in 0..128u8 {
        set[c as usize] = set[c as usize] | class.takes_ascii(c);
    }
    add_others(class.takes_others(), set);
}
