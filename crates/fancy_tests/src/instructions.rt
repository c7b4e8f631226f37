//! The instructions of a program that is built by hand.

use crate::columns::{folded_chars, four, number};
use fancy_regex_engine::classes::{CaseiLiteral, CharClassMatcher};
use fancy_regex_engine::error::Error;
use fancy_regex_engine::expr::Assertion;
use fancy_regex_engine::vm::Insn;
use std::alloc::Global;
use std::sync::Arc;

/// The class, which another instruction shared.
fn class(alloc: Global, class: CharClassMatcher) -> Result<Insn, Error> {
    let class = Arc::new(alloc, class)?;
    let _shared = Insn::CharClass(class.clone()?);
    Ok(Insn::CharClass(class))
}

fn reference(text: &str) -> Insn {
    let (slot, letters) = text.split_once(',').unwrap_or((text, ""));
    Insn::Backref {
        slot: number(slot),
        casei: letters.contains('i'),
        unicode: !letters.contains('a'),
    }
}

/// An instruction with a text.
fn with_text(alloc: Global, name: &str, text: &str) -> Result<Insn, Error> {
    match name {
        "Lit" => Ok(Insn::Lit(String::from_str(alloc, text)?)),
        "LitCasei" | "LitCaseiAscii" => Ok(Insn::LitCasei(CaseiLiteral::new(
            folded_chars(alloc, text)?,
            name == "LitCasei",
        ))),
        "CharClass" => class(
            alloc,
            CharClassMatcher::codepoint(alloc, text, false, true)?,
        ),
        "NewlineAscii" => class(alloc, CharClassMatcher::Newline { unicode: false }),
        "Backref" => Ok(reference(text)),
        _ => Err(Error::TreeFault { at: 0 }),
    }
}

/// The instruction that the word spells, as `Split:3,1`.
pub fn instruction(alloc: Global, word: &str) -> Result<Insn, Error> {
    let (name, after) = word.split_once(':').unwrap_or((word, ""));
    let (x, y, next, last) = four(after);
    Ok(match name {
        "End" => Insn::End,
        "Any" => Insn::Any,
        "BeginAtomic" => Insn::BeginAtomic,
        "EndAtomic" => Insn::EndAtomic,
        "Reject" => Insn::RejectEmptyMatchAtEOFFollowingNewline,
        "EndText" => Insn::Assertion(Assertion::EndText),
        "EndLine" => Insn::Assertion(Assertion::EndLine { crlf: false }),
        "Jmp" => Insn::Jmp(x),
        "Save" => Insn::Save(x),
        "Save0" => Insn::Save0(x),
        "Split" => Insn::Split(x, y),
        "SplitUnanchored" => Insn::SplitUnanchored(x, y),
        "SCGS" => Insn::SaveCaptureGroupStart { group: x, slot: y },
        "SCG" => Insn::SaveCaptureGroup { group: x, slot: y },
        "RepeatNg" => Insn::RepeatNg {
            lo: x,
            hi: y,
            next,
            repeat: last,
        },
        "RepeatEpsilonGr" => Insn::RepeatEpsilonGr {
            lo: x,
            next: y,
            repeat: next,
            check: last,
        },
        _ => return with_text(alloc, name, after),
    })
}
