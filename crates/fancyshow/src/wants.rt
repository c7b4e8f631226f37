//! What is allowed at the place of a tree's text where it cannot be read on.

use crate::outcome::Written;
use fancy_expr::error::Error;
use fancy_notation::forms::Form;
use fancy_notation::tokens::{Placed, Token, tokens};
use fancy_notation::words::form;
use std::alloc::Global;

/// What an open part of the text began with.
#[derive(Clone, Copy)]
enum Head {
    /// The text itself.
    Text,
    /// A parenthesis, and no word yet.
    Parenthesis,
    Form(Form),
}

/// An open part, and how many things are in it so far.
#[derive(Clone, Copy)]
struct Part {
    head: Head,
    count: usize,
}

const TREE: &str = "a tree, which is a word, a quoted text or a form in parentheses";

const QUOTE: &str = "a quote that ends the text";

const ESCAPE: &str =
    "one of the escapes \\\" \\\\ \\n \\r and \\u{..} with the number of a character";

/// What may follow in an open part.
fn of_part(Part { head, count }: Part) -> &'static str {
    match (head, count) {
        (Head::Text, 0) => TREE,
        (Head::Text, _) => "the end of the tree",
        (Head::Parenthesis, _) => "a word that begins a form, as cat, alt, grp, rep or set",
        (Head::Form(form), _) => of_form(form, count),
    }
}

fn of_form(form: Form, count: usize) -> &'static str {
    match (form, count) {
        (Form::Alt, 0) => TREE,
        (Form::Cat | Form::Alt, _) => "a tree, or a closing parenthesis",
        (Form::Enclosing(_), 0) => TREE,
        (Form::Repeat { .. }, 0) => "a number, the least count",
        (Form::Repeat { .. }, 1) => "a number that is not less, or *, the greatest count",
        (Form::Repeat { .. }, 2) => TREE,
        (Form::Set { .. }, 0) => "a quoted text that is not empty and not folded",
        (Form::Bytes, _) => "a number up to 255, or a closing parenthesis",
        (Form::Naming(_) | Form::Leveled(_), 0) => "a number",
        (Form::Leveled(_), 1) => "a level, which is a number and may be negative",
        (Form::Verb, 0) => "fail, accept, commit, skip or prune",
        (Form::Conditional, 0..=2) | (Form::AbsentExpression, 0..=1) => TREE,
        _ => "a closing parenthesis",
    }
}

/// Adds one thing to the innermost of the open parts.
fn count_one(parts: &mut Vec<Part>) {
    if let Some(part) = parts.last_mut() {
        part.count = part.count.saturating_add(1);
    }
}

/// Reads one token more. Of a part that is opened, the one around it counts it when it is opened.
fn take(parts: &mut Vec<Part>, token: &Token) -> Written {
    match token {
        Token::Opened => {
            count_one(parts);
            parts.push(Part {
                head: Head::Parenthesis,
                count: 0,
            })?;
        }
        Token::Closed => {
            parts.pop();
        }
        Token::Word(word) => {
            if let Some(part) = parts.last_mut() {
                match (part.head, form(word.as_str())) {
                    (Head::Parenthesis, Some(form)) => part.head = Head::Form(form),
                    _ => part.count = part.count.saturating_add(1),
                }
            }
        }
        Token::Quoted { .. } => count_one(parts),
        Token::Broken => {}
    }
    Ok(())
}

/// The length of a character's number in braces, behind the first one.
fn code_length(text: &str) -> Option<usize> {
    let end = text.find('}')?;
    let mut code: u32 = 0;
    for c in text.get(..end)?.chars() {
        code = code.saturating_mul(16).saturating_add(c.to_digit(16)?);
    }
    char::from_u32(code)?;
    if matches!(end, 1..=6) {
        end.checked_add(1)
    } else {
        None
    }
}

/// The length of an escape behind its backslash.
fn escape_length(text: &str) -> Option<usize> {
    match text.chars().next()? {
        '"' | '\\' | 'n' | 'r' => Some(1),
        'u' => code_length(text.strip_prefix("u{")?)?.checked_add(2),
        _ => None,
    }
}

/// The first backslash from a byte on that begins no escape.
fn wrong_escape(text: &str, from: usize) -> Option<usize> {
    let mut at = from;
    for _ in 0..text.len() {
        let escape = at.saturating_add(text.get(at..)?.find('\\')?);
        let behind = escape.saturating_add(1);
        match escape_length(text.get(behind..)?) {
            Some(length) => at = behind.saturating_add(length),
            None => return Some(escape),
        }
    }
    None
}

/// Where a quoted text is malformed, and what is wanted there: an escape where a wrong one is, or a quote at its end.
fn of_broken(text: &str, begin: usize) -> (usize, &'static str) {
    match wrong_escape(text, begin) {
        Some(at) => (at, ESCAPE),
        None => (text.len(), QUOTE),
    }
}

/// Where a text cannot be read on, as no tree goes on at this byte, and what is wanted there.
pub fn wanted_at(alloc: Global, text: &str, at: usize) -> Result<(usize, &'static str), Error> {
    // the open parts, the text itself first
    let mut parts = vec![in alloc;
        Part {
            head: Head::Text,
            count: 0
        },
    ]?;
    let placed = tokens(alloc, text)?;
    for Placed { at: begins, token } in placed.iter() {
        match token {
            Token::Broken if *begins >= at => return Ok(of_broken(text, *begins)),
            _ if *begins >= at => break,
            _ => take(&mut parts, token)?,
        }
    }
    Ok(match parts.last() {
        Some(part) => (at, of_part(*part)),
        None => (at, TREE),
    })
}
