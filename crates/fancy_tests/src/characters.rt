//! One character and one place: classes, folding, pieces, assertions.

use crate::columns::{folded_chars, number, pair, split, with_codes, with_line_ends};
use crate::line::Line;
use crate::trees::read;
use fancy_regex_engine::classes::{
    CaseiLiteral, CharClassMatcher, fold_equal, matches_literal_casei_unicode, past_piece,
};
use fancy_regex_engine::error::Error;
use fancy_regex_engine::expr::{Assertion, Expr};
use fancy_regex_engine::look::holds;
use std::alloc::{AllocError, Global};

fn name_of(class: &CharClassMatcher) -> &str {
    match class {
        CharClassMatcher::Codepoint(class) => class.name(),
        CharClassMatcher::Newline { .. } => "",
    }
}

/// The class's name, and how many bytes of the text it takes; `i` where it is folded, `a` where by ASCII.
fn push_class(line: &mut Line, alloc: Global, key: &str) -> Result<(), Error> {
    let (name, rest) = split(key);
    let (letters, text) = split(rest);
    let text = with_codes(alloc, text)?;
    let casei = letters.contains('i');
    let unicode = !letters.contains('a');
    let class = CharClassMatcher::codepoint(alloc, name, casei, unicode)?;
    let taken = class.match_len(alloc, text.as_str(), 0)?;
    line.text(name_of(&class)).space().debug(&taken);
    Ok(())
}

/// How many bytes of the text end a line.
fn newline_len(alloc: Global, text: &str, unicode: bool) -> Result<Option<usize>, Error> {
    CharClassMatcher::Newline { unicode }.match_len(alloc, text, 0)
}

/// How many bytes of the text end a line by ASCII and by Unicode.
fn push_newline(line: &mut Line, alloc: Global, text: &str) -> Result<(), Error> {
    let text = with_codes(alloc, text)?;
    line.debug(&newline_len(alloc, text.as_str(), false)?);
    line.space();
    line.debug(&newline_len(alloc, text.as_str(), true)?);
    Ok(())
}

/// Whether the texts are equal when they are folded, and their first characters.
fn push_folds(line: &mut Line, key: &str) {
    let (one, other) = split(key);
    let first = match (one.chars().next(), other.chars().next()) {
        (Some(one), Some(other)) => fold_equal(one, other),
        _ => false,
    };
    line.value(matches_literal_casei_unicode(one, other));
    line.space().value(first);
}

/// How many bytes a literal takes at a place.
fn push_literal(line: &mut Line, alloc: Global, key: &str) -> Result<(), AllocError> {
    let (chars, rest) = split(key);
    let (letters, rest) = split(rest);
    let (text, ix) = split(rest);
    let literal = CaseiLiteral::new(folded_chars(alloc, chars)?, !letters.contains('a'));
    line.debug(&literal.match_len(text, number(ix)));
    Ok(())
}

/// Where a piece of the text ends that stands at a place again.
fn push_piece(line: &mut Line, alloc: Global, key: &str) -> Result<(), AllocError> {
    let (text, rest) = split(key);
    let (letters, rest) = split(rest);
    let (ends, ix) = split(rest);
    let text = with_codes(alloc, text)?;
    let casei = letters.contains('i');
    let unicode = !letters.contains('a');
    let (from, to) = pair(ends);
    line.debug(&past_piece(text.as_str(), unicode, casei, from, to, number(ix)));
    Ok(())
}

/// The assertion that the tree is.
fn assertion(alloc: Global, tree: &str) -> Result<Assertion, Error> {
    match read(alloc, tree)?.expr {
        Expr::Assertion(assertion) => Ok(assertion),
        _ => Err(Error::TreeFault { at: 0 }),
    }
}

/// The places of the text where the assertion holds.
fn push_held(line: &mut Line, assertion: Assertion, unicode: bool, text: &str) {
    line.text("at");
    for ix in 0..text.len() + 1 {
        if text.is_char_boundary(ix) && holds(assertion, unicode, text, ix) {
            line.space().value(ix);
        }
    }
}

/// The places of the text where the assertion that the tree is holds.
fn push_places(line: &mut Line, alloc: Global, key: &str) -> Result<(), Error> {
    let (tree, rest) = split(key);
    let (letters, text) = split(rest);
    let assertion = assertion(alloc, tree)?;
    let text = with_line_ends(alloc, text)?;
    push_held(line, assertion, !letters.contains('a'), text.as_str());
    Ok(())
}

/// What comes out for the key of a row.
pub fn push_character(line: &mut Line, alloc: Global, table: &str, key: &str) -> Result<(), Error> {
    match table {
        "classes" => push_class(line, alloc, key)?,
        "newlines" => push_newline(line, alloc, key)?,
        "folds" => push_folds(line, key),
        "literals" => push_literal(line, alloc, key)?,
        "places" => push_places(line, alloc, key)?,
        _ => push_piece(line, alloc, key)?,
    }
    Ok(())
}
