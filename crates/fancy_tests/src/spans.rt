//! Lists of spans of a text.

use crate::line::Line;

/// Before an item of a list.
pub fn push_comma(line: &mut Line) {
    if !line.is_empty() {
        line.text(", ");
    }
}

/// A list without an item.
pub fn push_none(line: &mut Line) {
    if line.is_empty() {
        line.text("none");
    }
}

/// A span.
fn push_span(line: &mut Line, from: usize, to: usize) {
    line.value(from).text("-").value(to);
}

/// A span as an item of a list.
pub fn push_item(line: &mut Line, from: usize, to: usize) {
    push_comma(line);
    push_span(line, from, to);
}

/// The span of a group, behind that of its match.
pub fn push_group(line: &mut Line, group: usize, from: usize, to: usize) {
    line.space().value(group).text(":");
    push_span(line, from, to);
}

/// A span as an item of a list, with a number before it.
pub fn push_numbered(line: &mut Line, number: usize, from: usize, to: usize) {
    push_comma(line);
    line.value(number).text(":");
    push_span(line, from, to);
}

/// The list of matches with their groups, or what is said of another list, where their spans alone are not that list.
pub fn close(line: &mut Line, spans: &str, others: &str) {
    if spans == others {
        push_none(line);
    } else {
        line.clear().text("DIFFER: find_iter ").text(others);
    }
}

/// Where a search goes on behind a match: one byte further where it took nothing.
pub fn past(from: usize, to: usize) -> usize {
    if from == to { to.saturating_add(1) } else { to }
}
