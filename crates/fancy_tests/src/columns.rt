//! The columns of a row, with ` | ` between them.

use crate::line::Line;
use std::alloc::{AllocError, Global};
use std::collections::BTreeMap;

/// All but the last column, which is what is expected.
pub fn key_of(row: &str) -> &str {
    let (key, _expected) = row.rsplit_once(" | ").unwrap_or((row, ""));
    key
}

/// The first column, and the columns after it.
pub fn split(columns: &str) -> (&str, &str) {
    columns.split_once(" | ").unwrap_or((columns, ""))
}

/// The number that the text spells; 0 where it spells none.
pub fn number(text: &str) -> usize {
    text.parse::<usize>().unwrap_or(0)
}

/// The two numbers with a comma between them.
pub fn pair(text: &str) -> (usize, usize) {
    let (one, other) = text.split_once(',').unwrap_or((text, ""));
    (number(one), number(other))
}

/// The four numbers with commas between them.
pub fn four(text: &str) -> (usize, usize, usize, usize) {
    let mut numbers = text.split(',').map(number);
    let one = numbers.next().unwrap_or(0);
    let two = numbers.next().unwrap_or(0);
    let three = numbers.next().unwrap_or(0);
    (one, two, three, numbers.next().unwrap_or(0))
}

/// The number that the word spells, if there is a word and it spells one.
fn limit(word: Option<&str>) -> Option<u64> {
    word?.parse::<u64>().ok()
}

/// The place, and two limits where they are given, with spaces between them; 0 where there is no place.
pub fn limits(words: &str) -> (usize, Option<u64>, Option<u64>) {
    let mut words = words.split_whitespace();
    let place = number(words.next().unwrap_or(""));
    let first = limit(words.next());
    (place, first, limit(words.next()))
}

/// `9*a` is nine letters a.
fn push_run(text: &mut Line, run: &str) {
    let (count, letters) = run.split_once('*').unwrap_or(("0", ""));
    for _ in 0..number(count) {
        text.text(letters);
    }
}

/// The column, in which `<9*a>` is nine letters a.
pub fn written_out(alloc: Global, column: &str) -> Result<String, AllocError> {
    let mut text = Line::new(alloc);
    for piece in column.split('>') {
        let (plain, run) = piece.split_once('<').unwrap_or((piece, ""));
        text.text(plain);
        push_run(&mut text, run);
    }
    text.into_string()
}

/// The column, in which `\n` and `\r` are the ends of lines.
pub fn with_line_ends(alloc: Global, column: &str) -> Result<String, AllocError> {
    column
        .replace(alloc, "\\n", "\n")?
        .replace(alloc, "\\r", "\r")
}

/// The character of this code in decimal digits.
fn push_code(text: &mut Line, code: &str) {
    match code.parse::<u32>().map(char::from_u32) {
        Ok(Some(character)) => text.value(character),
        _ => text.text("no character"),
    };
}

/// The column, in which `&8232;` is the character of this code.
pub fn with_codes(alloc: Global, column: &str) -> Result<String, AllocError> {
    let mut text = Line::new(alloc);
    let mut pieces = column.split('&');
    text.text(pieces.next().unwrap_or(""));
    for piece in pieces {
        let (code, plain) = piece.split_once(';').unwrap_or((piece, ""));
        push_code(&mut text, code);
        text.text(plain);
    }
    text.into_string()
}

/// One more word.
fn add_word(words: &mut Vec<String>, alloc: Global, word: &str) -> Result<(), AllocError> {
    words.push(String::from_str(alloc, word)?)?;
    Ok(())
}

/// The words that stand in brackets.
pub fn add_bracket_words(
    words: &mut Vec<String>,
    alloc: Global,
    key: &str,
) -> Result<(), AllocError> {
    for piece in key.split('[').skip(1) {
        let word = piece.trim_end().strip_suffix(']').unwrap_or(piece);
        add_word(words, alloc, word)?;
    }
    Ok(())
}

/// The words of a column.
pub fn add_words(words: &mut Vec<String>, alloc: Global, column: &str) -> Result<(), AllocError> {
    for word in column.split_whitespace() {
        add_word(words, alloc, word)?;
    }
    Ok(())
}

/// TREE, TEXT, and the words after them.
pub fn add_search_words(
    words: &mut Vec<String>,
    alloc: Global,
    key: &str,
) -> Result<(), AllocError> {
    let (tree, rest) = split(key);
    let (text, after) = split(rest);
    add_word(words, alloc, tree)?;
    words.push(with_line_ends(alloc, text)?)?;
    add_words(words, alloc, after)
}

/// The characters, each followed by `+` where it is folded and by `-` where it is not.
pub fn folded_chars(alloc: Global, text: &str) -> Result<Vec<(char, bool)>, AllocError> {
    let mut chars = Vec::new(alloc);
    let mut rest = text.chars();
    while let Some(character) = rest.next() {
        chars.push((character, rest.next() == Some('+')))?;
    }
    Ok(chars)
}

/// One more group of the name, as `NAME=GROUP`.
fn add_group(
    names: &mut BTreeMap<String, Vec<usize>>,
    alloc: Global,
    word: &str,
) -> Result<(), AllocError> {
    let (name, group) = word.split_once('=').unwrap_or((word, ""));
    let mut groups = names.remove(name).unwrap_or(Vec::new(alloc));
    groups.push(number(group))?;
    names.insert(String::from_str(alloc, name)?, groups)?;
    Ok(())
}

/// The groups of each name, as `NAME=GROUP` for each.
pub fn names_of(alloc: Global, column: &str) -> Result<BTreeMap<String, Vec<usize>>, AllocError> {
    let mut names = BTreeMap::new(alloc);
    for word in column.split_whitespace() {
        add_group(&mut names, alloc, word)?;
    }
    Ok(names)
}

/// Spells the ends of lines as `\\n` and `\\r`.
pub fn push_spelled(line: &mut Line, text: &str) {
    for character in text.chars() {
        match character {
            '\n' => line.text("\\n"),
            '\r' => line.text("\\r"),
            _ => line.value(character),
        };
    }
}
