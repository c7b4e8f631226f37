//! A text between its matches, and with its matches replaced.

use crate::find::{Searcher, searcher_of};
use crate::outcome::{Answer, Trouble, search_trouble, warned};
use crate::request::Request;
use fancy_expr::error::Error;
use fancy_replace::output::BoundedText;
use fancy_replace::replace::replace_into;
use fancy_replace::split::split;
use fancy_replace::template::Template;
use std::alloc::{AllocError, Global};

/// The text with what the template writes in the place of each match; none if it has too many bytes.
fn replaced_by(
    alloc: Global,
    searcher: &mut Searcher,
    text: &str,
    template: &str,
    most: usize,
) -> Result<Option<String>, Error> {
    let template = Template::new(alloc, template, &searcher.numbers)?;
    let mut out = BoundedText::new(alloc, most);
    if replace_into(&mut searcher.regex, text, 0, &template, &mut out)? {
        Ok(out.into_text())
    } else {
        Ok(Some(String::from_str(alloc, text)?))
    }
}

/// The digits that a text begins with, and the letters, digits and `_` after them.
fn split_name(text: &str) -> (&str, &str) {
    let mut digits: usize = 0;
    let mut end: usize = 0;
    for (i, c) in text.char_indices() {
        if !c.is_ascii_alphanumeric() && c != '_' {
            break;
        }
        end = i.saturating_add(1);
        if c.is_ascii_digit() && digits == i {
            digits = end;
        }
    }
    (
        text.get(..digits).unwrap_or(""),
        text.get(digits..end).unwrap_or(""),
    )
}

/// The first name of the template that begins with digits, behind a bare dollar: the digits and the rest of it.
fn run_on(template: &str) -> Option<(&str, &str)> {
    let mut is_escaped = false;
    for piece in template.split('$').skip(1) {
        // `$$` has nothing between its two dollars, and what follows is no name
        let (digits, rest) = split_name(piece);
        if !is_escaped && !digits.is_empty() && !rest.is_empty() {
            return Some((digits, rest));
        }
        is_escaped = piece.is_empty() && !is_escaped;
    }
    None
}

/// What is warned of in a template, if anything is: that digits with letters after them are a name.
fn warning(alloc: Global, template: &str) -> Result<String, AllocError> {
    let Some((digits, rest)) = run_on(template) else {
        return Ok(String::new(alloc));
    };
    format!(in alloc;
        "${digits}{rest} is the group with this name; ${{{digits}}}{rest} is group {digits}, and then {rest}"
    )
}

/// The text with its matches replaced.
fn replaced_text(request: &Request, text: &str, template: &str, most: usize) -> Answer {
    let mut searcher = searcher_of(request)?;
    match replaced_by(request.alloc, &mut searcher, text, template, most) {
        Ok(Some(out)) => Ok(out),
        Ok(None) => Err(Trouble::Limit(
            "the result exceeds the output limit (OutputLimitExceeded)\n  --max-output BYTES allows more",
        )),
        Err(error) => Err(search_trouble(error, searcher.regex.passed())),
    }
}

/// The same, and a line end where it has none.
pub fn replaced(request: &Request, text: &str, template: &str, most: usize) -> Answer {
    let mut out = replaced_text(request, text, template, most)?;
    if !out.as_str().ends_with('\n') {
        out.push('\n')?;
    }
    warned(out, warning(request.alloc, template)?)
}

/// Writes each piece in quotes, on a line.
fn push_pieces(out: &mut String, searcher: &mut Searcher, text: &str) -> Result<(), Error> {
    for piece in split(&mut searcher.regex, text) {
        let piece = piece?;
        writeln!(out, "{piece:?}")?;
    }
    Ok(())
}

/// The pieces between the matches, each in quotes on a line of its own.
pub fn pieces(request: &Request, text: &str) -> Answer {
    let mut searcher = searcher_of(request)?;
    let mut out = String::new(request.alloc);
    match push_pieces(&mut out, &mut searcher, text) {
        Ok(()) => Ok(out),
        Err(error) => Err(search_trouble(error, searcher.regex.passed())),
    }
}
