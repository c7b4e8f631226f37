//! Where the leaves of a pattern's tree are in the pattern.

ghost use Rattle.std.specs.Prelude.{◌≡◌, ◌++◌, IfOk, chars, length, map, replicate};
ghost use Rattle.fancy_meaning.specs.Places.{range_from};
ghost use Rattle.fancy_faults.specs.Faults as faults;
ghost use Rattle.fancy_faults.specs.Leaves.{AreLeafSpans, byte_of};
ghost use Rattle.fancy_faults.specs.Leaves as leaves;

use fancy_expr::expr::Expr;
use fancy_expr::parts::part_count;
use fancy_pattern::atom_spans::{AtomSpan, atom_spans};
use fancy_pattern::options::ParseOptions;
use std::alloc::{AllocError, Global};

/// Start and end of a part of a text, in bytes.
pub type Span = (usize, usize);

/// Whether the node is a leaf that has a span: it has no node below it, and is not empty.
pub fn is_plain(expr: &Expr) -> bool
    ensures { result ≡ leaves.is_plain expr.now }
{
    match expr {
        Expr::Empty => false,
        _ => part_count(expr) == 0,
    }
}

/// Where the leaves of a pattern's tree are in it, in bytes: a span for each leaf that is not empty, in order.
///
/// # Errors
///
/// `AllocError` if an allocation fails; there is no other.
pub fn leaf_spans(
    alloc: Global,
    pattern: &str,
    parsing: ParseOptions,
) -> Result<Vec<Span>, AllocError>
    ensures { IfOk result (λ spans. AreLeafSpans parsing pattern.now spans.items) }
{
    let bytes = character_bytes(alloc, pattern)?;
    let atoms = atom_spans(alloc, pattern, parsing)?;
    spans_of(alloc, pattern, &atoms, &bytes)
}

fn chars_of(alloc: Global, text: &str) -> Result<Vec<char>, AllocError>
    ensures { IfOk result (λ v. v.items ≡ chars text.now) }
{
    text.chars().collect(alloc)
}

/// The byte where each character begins.
fn character_bytes(alloc: Global, text: &str) -> Result<Vec<usize>, AllocError>
    ensures { IfOk result (λ bytes. bytes.items
        ≡ map (byte_of text.now) (range_from 0 (length (chars text.now)))) }
{
    let chars = chars_of(alloc, text)?;
    let mut bytes = Vec::new(alloc);
    let mut at: usize = 0;
    for c in &chars {
        bytes.push(at)?;
        at = at.saturating_add(c.len_utf8());
    }
    Ok(bytes)
}

/// The byte where the character with this index begins, or the end of the text.
fn byte_of(text: &str, bytes: &[usize], i: usize) -> usize
    requires { bytes.now ≡ map (byte_of text.now) (range_from 0 (length (chars text.now))) }
    ensures { result ≡ byte_of text.now i }
{
    bytes.get(i).copied().unwrap_or(text.len())
}

/// Adds the span so many times.
fn push_span(spans: &mut Vec<Span>, span: Span, count: usize) -> Result<(), AllocError>
    ensures { IfOk result (λ u. spans.new.items ≡ spans.old.items ++ replicate count span) }
{
    for i in 0..count {
        spans.push(span)?;
    }
    Ok(())
}

/// The span of each leaf of these atoms of the text. A character begins at its byte of these.
fn spans_of(
    alloc: Global,
    text: &str,
    atoms: &[AtomSpan],
    bytes: &[usize],
) -> Result<Vec<Span>, AllocError>
    requires { bytes.now ≡ map (byte_of text.now) (range_from 0 (length (chars text.now))) }
    ensures { IfOk result (λ spans. spans.items ≡ leaves.spans_of text.now atoms.now) }
{
    let mut spans = Vec::new(alloc);
    for atom in atoms {
        let start = byte_of(text, bytes, atom.start);
        let end = byte_of(text, bytes, atom.end);
        push_span(&mut spans, (start, end), atom.leaves)?;
    }
    Ok(spans)
}

/// Where the leaf with this index begins.
pub(crate) fn start_of(spans: &[Span], leaf: Option<usize>) -> Option<usize>
    ensures { result ≡ faults.start_of spans.now leaf }
{
    match spans.get(leaf?) {
        Some((start, _)) => Some(*start),
        None => None,
    }
}

/// Whether the text begins with a number, which may have a sign.
fn begins_with_number(text: &str) -> bool {
    let digits = text
        .strip_prefix('-')
        .or(text.strip_prefix('+'))
        .unwrap_or(text);
    matches!(digits.chars().next(), Some(c) if c.is_ascii_digit())
}

/// Whether the piece of a pattern names a group by its number.
fn names_number(piece: &str) -> bool {
    for opening in [
        r"\", r"\k<", r"\k'", r"\k{", r"\g<", r"\g'", "(?", "(?(", "(?(<", "(?('",
    ] {
        if matches!(piece.strip_prefix(opening), Some(rest) if begins_with_number(rest)) {
            return true;
        }
    }
    false
}

/// Which of these leaves is the first that names a group by its number.
pub(crate) fn first_by_number(pattern: &str, spans: &[Span]) -> Option<usize> {
    for (leaf, (start, end)) in spans.iter().enumerate() {
        if names_number(pattern.get(*start..*end).unwrap_or("")) {
            return Some(leaf);
        }
    }
    None
}
