//! What calls answered, a line `CALL ANSWER` for each, as text, so that it can be compared.

use crate::line::Line;

/// The call and its answer.
fn parts(line: &str) -> (&str, &str) {
    line.split_once(' ').unwrap_or((line, ""))
}

/// What is left of the first answer is the end of its list: `[0, 1` is all that a call says that answers with the span alone.
fn is_end_of_list(rest: &str) -> bool {
    rest.is_empty() || rest.starts_with(',') || rest.starts_with(']')
}

/// The call of this line answers as the first one does.
fn agrees(first: &str, line: &str) -> bool {
    let (_call, answer) = parts(line);
    match first.strip_prefix(answer) {
        Some(rest) => is_end_of_list(rest),
        None => false,
    }
}

/// The first call that answers otherwise than the first one.
pub fn differing(said: &str) -> Option<&str> {
    let mut first = None;
    for line in said.lines() {
        let (call, answer) = parts(line);
        if !agrees(first.unwrap_or(answer), line) {
            return Some(call);
        }
        first = Some(first.unwrap_or(answer));
    }
    None
}

/// The answer of the first call, or which call does not agree with it.
pub fn push_agreed(line: &mut Line, said: &str) {
    if let Some(call) = differing(said) {
        return line.differ(call);
    }
    let (_call, answer) = parts(said.lines().next().unwrap_or(""));
    line.text(answer);
}
