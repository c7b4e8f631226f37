//! Names of rules, which may refer to groups of a match.

use fancy_matches::found::Captures;
use std::alloc::{AllocError, Global};

/// The name of a rule, which may be several with white space between them, the outermost first.
#[derive(Drop)]
pub(crate) enum Name {
    /// The numbers of the names.
    Fixed(Vec<usize>),
    /// A text that refers to groups.
    Made(String),
}

/// How the text of a group is written into a name.
#[derive(Clone, Copy)]
enum Letters {
    Same,
    Lower,
    Upper,
}

/// A reference in a name, and what follows it.
#[derive(Clone, Copy)]
struct Reference<'n> {
    group: usize,
    letters: Letters,
    rest: &'n str,
}

/// The digits at the beginning of a text, as a number, and what follows them.
fn number(text: &str) -> Option<(usize, &str)> {
    let rest = text.trim_start_matches(|c: char| c.is_ascii_digit());
    let digits = text.strip_suffix(rest)?;
    let number = digits.parse::<usize>().ok()?;
    Some((number, rest))
}

/// The reference at the beginning of a text that follows a `$`: `1`, `{1:/downcase}` or `{1:/upcase}`.
fn reference_at(text: &str) -> Option<Reference<'_>> {
    let (group, after) = number(text.strip_prefix('{').unwrap_or(text))?;
    let (letters, rest) = if !text.starts_with('{') {
        (Letters::Same, after)
    } else if let Some(rest) = after.strip_prefix(":/downcase}") {
        (Letters::Lower, rest)
    } else {
        (Letters::Upper, after.strip_prefix(":/upcase}")?)
    };
    Some(Reference {
        group,
        letters,
        rest,
    })
}

/// Adds what a group captured to a name, without the dots at its beginning.
fn push_group(
    alloc: Global,
    name: &mut String,
    captures: &Captures<'_>,
    reference: Reference<'_>,
) -> Result<(), AllocError> {
    let Some(group) = captures.get(reference.group) else {
        return Ok(());
    };
    let text = group.as_str().trim_start_matches('.');
    match reference.letters {
        Letters::Same => name.push_str(text),
        Letters::Lower => name.push_str(text.to_lowercase(alloc)?.as_str()),
        Letters::Upper => name.push_str(text.to_uppercase(alloc)?.as_str()),
    }
}

/// The name in which each reference is what its group captured: nothing, if it is not set.
pub(crate) fn expanded(
    alloc: Global,
    text: &str,
    captures: &Captures<'_>,
) -> Result<String, AllocError> {
    let mut name = String::new(alloc);
    let mut left = text;
    for _ in 0..text.len() {
        let Some((before, after)) = left.split_once('$') else {
            break;
        };
        name.push_str(before)?;
        left = match reference_at(after) {
            Some(reference) => {
                push_group(alloc, &mut name, captures, reference)?;
                reference.rest
            }
            None => {
                name.push('$')?;
                after
            }
        };
    }
    name.push_str(left)?;
    Ok(name)
}
