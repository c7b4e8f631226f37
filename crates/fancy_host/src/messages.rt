//! What an outcome says, as a sentence for a reader.

ghost use Rattle.std.specs.Prelude.{◌≡◌, IfOk, string_bytes};
ghost use Rattle.fancy_host.specs.Messages.{Explains, IsExplanation, IsMessage, IsRefusal, WritesText};
ghost use Rattle.fancy_host.specs.Messages as messages;

use crate::options::FancyOptions;
use crate::outcome::{FancyOutcome, MEMORY};
use crate::reading::text_of;
use crate::writing::write_text;
use fancy_expr::error::{CompileError, Error};
use fancy_faults::fault::fault_of;
use fancy_pattern::pattern::parse_tree;
use fancy_search::search::Compiled;
use std::alloc::{AllocError, Global};

/// The sentence of a code.
fn sentence_of(code: u32) -> &'static str
    ensures { result.now ≡ messages.sentence_of code }
{
    match code {
        0 => "there is no error",
        1 => "nothing matches",
        2 => "nothing was compiled",
        3 => "the bytes are no UTF-8",
        4 => "the options do not fit the text, or what was compiled",
        5 => "out of memory",
        6 => "the tree cannot be read",
        7 => "too many branches failed",
        8 => "too many branches were held",
        9 => "too many instructions were executed",
        10 => "if groups have names, references use the names",
        11 => "this is not supported",
        12 => "a call names a group that does not exist",
        13 => "a reference names a group that does not exist",
        14 => "there is no group",
        15 => "a group calls itself before it matches a character",
        16 => "the recursion never ends",
        17 => "the body of a look-behind has no fixed length",
        18 => "a class is invalid",
        19 => "a class is too big",
        20 => "the program exceeds its limit of instructions",
        21 => "parentheses nest deeper than the limit",
        22 => "the tree nests deeper than the limit",
        23 => "a parenthesis is not closed: expected `)`",
        24 => "this `)` closes no parenthesis",
        25 => "the counts of a repetition are out of order or too large",
        26 => "the pattern ends with a backslash: expected a character after it",
        27 => "there is no escape with this letter",
        28 => "a property has no name, or its `}` is missing",
        29 => "expected a hexadecimal digit, or `}` after one to eight of them",
        30 => "there is no character with this number",
        31 => "a class is not closed: expected `]`",
        32 => "this is not a flag: expected one of `imsxRUu`",
        33 => "the flag `u` cannot be cleared",
        34 =>
            "this is not a group name: expected a letter, `_` or a number, and then what closes it",
        35 =>
            "several groups have this name, so it cannot be called, or more than 100 have it, so it cannot be referred to",
        36 => "the number is too large",
        37 => "there is nothing to repeat before this quantifier",
        38 => "this is not a verb, or there are more than a million groups",
        39 => "the options have the size of another version",
        40 => "there is no room for the text",
        41 => "too many states were visited",
        42 => "too much memory was held",
        43 => "the analysis of the pattern exceeds its limit",
        _ => "no error has this code",
    }
}

/// Where it is, if it is at a byte.
fn place_of(alloc: Global, byte: usize) -> Result<String, AllocError>
    ensures { IfOk result (λ text. string_bytes text ≡ messages.at_byte byte) }
{
    if byte == usize::MAX {
        Ok(String::new(alloc))
    } else {
        format!(in alloc; "at byte {byte}: ")
    }
}

/// Which group it is, if it is of one.
fn group_of(alloc: Global, group: usize) -> Result<String, AllocError>
    ensures { IfOk result (λ text. string_bytes text ≡ messages.of_group group) }
{
    if group == usize::MAX {
        Ok(String::new(alloc))
    } else {
        format!(in alloc; " {group}")
    }
}

/// What an outcome says.
fn message_of(alloc: Global, outcome: &FancyOutcome) -> Result<String, AllocError>
    ensures { IfOk result (λ text. string_bytes text ≡ messages.message outcome.now) }
{
    let mut text = place_of(alloc, outcome.byte)?;
    text.push_str(sentence_of(outcome.code))?;
    text.push_str(group_of(alloc, outcome.group)?.as_str())?;
    Ok(text)
}

/// What is said of a refusal of the pattern, with its place.
fn refusal_text(
    alloc: Global,
    pattern: &str,
    options: &FancyOptions,
    refused: &CompileError,
) -> Result<String, AllocError>
    ensures { IfOk result (λ text. IsRefusal options.now pattern.now refused.now (string_bytes text)) }
{
    let context = options.request().analysis();
    let fault = fault_of(alloc, pattern, options.parsing(), context, refused)?;
    let mut text = place_of(alloc, fault.at.unwrap_or(usize::MAX))?;
    text.push_str(fault.message.as_str())?;
    Ok(text)
}

/// Why a pattern that was read is not compiled.
fn explained(
    alloc: Global,
    pattern: &str,
    options: &FancyOptions,
    error: &Error,
) -> Result<String, AllocError>
    ensures { IfOk result (λ text. IsExplanation options.now pattern.now error.now (string_bytes text)) }
{
    match error {
        Error::CompileError(refused) => refusal_text(alloc, pattern, options, refused),
        _ => message_of(alloc, &FancyOutcome::of_error(error)),
    }
}

/// Why a pattern has no program; an empty text where it has one.
fn explanation_of(
    alloc: Global,
    pattern: &[u8],
    options: &FancyOptions,
) -> Result<String, AllocError>
    ensures { IfOk result (λ text. Explains pattern.now options.now (string_bytes text)) }
{
    let text = match text_of(pattern, options) {
        Ok(text) => text,
        Err(outcome) => return message_of(alloc, &outcome),
    };
    let tree = match parse_tree(alloc, text, options.parsing()) {
        Ok(tree) => tree,
        Err(error) => return message_of(alloc, &FancyOutcome::of_fault(&error)),
    };
    if let Err(outcome) = options.check_analysis(alloc, &tree) {
        return message_of(alloc, &outcome);
    }
    let request = options.request();
    match Compiled::new(alloc, &tree, request.analysis(), request.compilation()) {
        Ok(_) => Ok(String::new(alloc)),
        Err(error) => explained(alloc, text, options, &error),
    }
}

/// Writes what an outcome says.
pub fn write_message(alloc: Global, outcome: &FancyOutcome, room: &mut [u8]) -> usize
    ensures { WritesText (IsMessage outcome.now) room.old result room.new }
{
    match message_of(alloc, outcome) {
        Ok(text) => write_text(text.as_bytes(), room),
        Err(_) => write_text(sentence_of(MEMORY).as_bytes(), room),
    }
}

/// Writes why a pattern has no program; an empty text where it has one.
pub fn write_explanation(
    alloc: Global,
    pattern: &[u8],
    options: &FancyOptions,
    room: &mut [u8],
) -> usize
    ensures { WritesText (Explains pattern.now options.now) room.old result room.new }
{
    match explanation_of(alloc, pattern, options) {
        Ok(text) => write_text(text.as_bytes(), room),
        Err(_) => write_text(sentence_of(MEMORY).as_bytes(), room),
    }
}
