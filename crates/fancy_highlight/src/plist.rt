//! Property lists in XML, as JSON.

use std::alloc::{AllocError, Global};

/// Adds a character of a text.
fn push_character(json: &mut String, c: char) -> Result<(), AllocError> {
    match c {
        '"' | '\\' => {
            json.push('\\')?;
            json.push(c)
        }
        '\0'..='\x1F' => {
            let number = c as u32;
            write!(json, "\\u{number:04x}")
        }
        _ => json.push(c),
    }
}

/// The character that an entity stands for.
fn entity(name: &str) -> Option<char> {
    match name {
        "lt" => Some('<'),
        "gt" => Some('>'),
        "amp" => Some('&'),
        "quot" => Some('"'),
        "apos" => Some('\''),
        _ => {
            let number = name.strip_prefix('#')?;
            let number = match number.strip_prefix('x') {
                Some(number) => u32::from_str_radix(number, 16),
                None => number.parse::<u32>(),
            };
            char::from_u32(number.ok()?)
        }
    }
}

/// Adds a text in quotes.
fn push_text(json: &mut String, text: &str) -> Result<(), AllocError> {
    json.push('"')?;
    let mut left = text;
    for _ in 0..text.len() {
        let mut chars = left.chars();
        let Some(c) = chars.next() else {
            break;
        };
        left = chars.as_str();
        let found = if c == '&' { left.split_once(';') } else { None };
        let (name, rest) = found.unwrap_or(("", left));
        match entity(name) {
            Some(stands_for) => {
                left = rest;
                push_character(json, stands_for)?;
            }
            None => push_character(json, c)?,
        }
    }
    json.push('"')
}

/// Adds what a tag stands for, which this text follows; returns whether a comma has to come before what is next.
fn push_tag(json: &mut String, tag: &str, text: &str, is_next: bool) -> Result<bool, AllocError> {
    let opens = matches!(tag, "dict" | "array" | "key");
    let is_value = matches!(
        tag,
        "string" | "integer" | "real" | "true/" | "false/" | "string/"
    );
    if is_next && (opens || is_value) {
        json.push(',')?;
    }
    match tag {
        "dict" => json.push('{')?,
        "array" => json.push('[')?,
        "/dict" => json.push('}')?,
        "/array" => json.push(']')?,
        "key" => {
            push_text(json, text)?;
            json.push(':')?;
        }
        "string" | "integer" | "real" => push_text(json, text)?,
        "true/" => json.push_str("true")?,
        "false/" => json.push_str("false")?,
        "string/" => json.push_str("\"\"")?,
        _ => return Ok(is_next),
    }
    Ok(!opens)
}

/// The JSON that says what a property list does.
pub(crate) fn json_of(alloc: Global, list: &str) -> Result<String, AllocError> {
    let mut json = String::new(alloc);
    let mut left = list;
    let mut is_next = false;
    for _ in 0..list.len() {
        let Some((_, after)) = left.split_once('<') else {
            break;
        };
        let end = if after.starts_with("!--") { "-->" } else { ">" };
        let Some((tag, rest)) = after.split_once(end) else {
            break;
        };
        left = rest;
        let (text, _) = rest.split_once('<').unwrap_or((rest, ""));
        is_next = push_tag(&mut json, tag, text, is_next)?;
    }
    Ok(json)
}
