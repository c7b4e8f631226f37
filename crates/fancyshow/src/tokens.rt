//! The tokens of a text, one on a line.

use crate::outcome::{Trouble, Written};
use fancy_highlight::scopes::Scopes;
use fancy_highlight::tokens::{Highlights, Token};
use std::alloc::{AllocError, Global};

/// The names of a scope, the innermost first.
fn names<'s>(alloc: Global, scopes: &'s Scopes, scope: usize) -> Result<Vec<&'s str>, AllocError> {
    let mut names = Vec::new(alloc);
    let mut numbers = scopes.names(scope);
    for _ in 0..usize::MAX {
        let Some(number) = numbers.next_out() else {
            break;
        };
        if let Some(name) = scopes.name(number) {
            names.push(name)?;
        }
    }
    Ok(names)
}

/// How many bytes the lines of all tokens may have.
const MOST_BYTES: usize = 268_435_456;

/// Writes a token on a line: its first byte, the byte past its last, its text, and the names of its scopes, the
/// outermost first.
fn push_token(out: &mut String, token: Token, part: &str, names: &[&str]) -> Written {
    let (start, end) = (token.start, token.end);
    write!(out, "{start}..{end} {part:?}")?;
    for name in names.iter().rev() {
        write!(out, " {name}")?;
    }
    out.push('\n')
}

/// Writes each token of the text on a line, or the refusal of more lines than may be written.
pub fn push_tokens(
    out: &mut String,
    scopes: &Scopes,
    highlights: &Highlights,
    text: &str,
) -> Result<(), Trouble> {
    for token in &highlights.tokens {
        let part = text.get(token.start..token.end).unwrap_or("");
        let names = names(*out.allocator(), scopes, token.scope)?;
        push_token(out, *token, part, &names)?;
        if out.len() > MOST_BYTES {
            let start = token.start;
            return Err(Trouble::Refusal(format!(in *out.allocator();
                "the lines of the tokens up to byte {start} of the text have more than {MOST_BYTES} bytes"
            )?));
        }
    }
    Ok(())
}
