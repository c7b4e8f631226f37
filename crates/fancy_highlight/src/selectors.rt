//! Selectors of scopes, as injections have them.

use std::alloc::{AllocError, Global};

/// What is read of a selector, or of one in parentheses in it.
#[derive(Clone, Copy)]
struct Level {
    /// One of the alternatives before holds.
    any: bool,
    /// What is read of this alternative holds.
    all: bool,
    /// What comes next is negated.
    is_negated: bool,
    /// The names of a path are read, and those that follow are looked for from this name on; `None` if one was not found.
    path: Option<Option<usize>>,
}

impl Level {
    const EMPTY: Level = Level {
        any: false,
        all: true,
        is_negated: false,
        path: None,
    };

    /// Notes whether an operand holds.
    fn operand(&mut self, holds: bool) {
        self.all = self.all && holds != self.is_negated;
        self.is_negated = false;
    }

    /// Ends the path that is read.
    fn end_path(&mut self) {
        if let Some(found) = self.path {
            self.operand(found.is_some());
        }
        self.path = None;
    }

    /// Ends an alternative.
    fn end_alternative(&mut self) {
        self.end_path();
        self.any = self.any || self.all;
        self.all = true;
        self.is_negated = false;
    }

    /// Goes on with a name of a path, which has to be among these names.
    fn name(&mut self, name: &str, names: &[&str]) {
        let from = match self.path {
            None => 0,
            Some(Some(from)) => from,
            Some(None) => return,
        };
        let found = names.iter().skip(from).position(|it| is_within(it, name));
        self.path = Some(found.map(|index| from.saturating_add(index).saturating_add(1)));
    }
}

/// The name is that of the selector, or that and more behind a dot.
fn is_within(name: &str, selected: &str) -> bool {
    match name.strip_prefix(selected) {
        Some(rest) => rest.is_empty() || rest.starts_with('.'),
        None => false,
    }
}

/// A character of a name.
fn is_of_name(c: char) -> bool {
    c.is_alphanumeric() || matches!(c, '.' | ':' | '_' | '-' | '*' | '+' | '/')
}

/// The alternatives of a selector outside its parentheses.
pub(crate) fn alternatives(alloc: Global, selector: &str) -> Result<Vec<&str>, AllocError> {
    let mut alternatives = Vec::new(alloc);
    let mut depth = 0usize;
    let mut start = 0;
    for (at, c) in selector.char_indices() {
        match c {
            '(' => depth = depth.saturating_add(1),
            ')' => depth = depth.saturating_sub(1),
            ',' if depth == 0 => {
                alternatives.push(selector.get(start..at).unwrap_or(""))?;
                start = at.saturating_add(1);
            }
            _ => {}
        }
    }
    alternatives.push(selector.get(start..).unwrap_or(""))?;
    Ok(alternatives)
}

/// Whether a selector holds for a scope of these names, the outermost first.
pub(crate) fn selects(alloc: Global, selector: &str, names: &[&str]) -> Result<bool, AllocError> {
    let mut level = Level::EMPTY;
    let mut around: Vec<Level> = Vec::new(alloc);
    let mut left = selector;
    for _ in 0..selector.len() {
        let mut chars = left.chars();
        let Some(c) = chars.next() else {
            break;
        };
        let before = left;
        left = chars.as_str();
        match c {
            '-' => {
                level.end_path();
                level.is_negated = !level.is_negated;
            }
            '(' => {
                level.end_path();
                around.push(level)?;
                level = Level::EMPTY;
            }
            ')' => {
                level.end_alternative();
                let holds = level.any;
                level = around.pop().unwrap_or(Level::EMPTY);
                level.operand(holds);
            }
            ',' | '|' => level.end_alternative(),
            _ if is_of_name(c) => {
                left = left.trim_start_matches(is_of_name);
                level.name(before.strip_suffix(left).unwrap_or(""), names);
            }
            _ => {}
        }
    }
    level.end_alternative();
    Ok(level.any)
}
