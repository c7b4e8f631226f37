//! The program of a tree, instruction by instruction: as its own listing writes them, with characters in quotes, none that
//! cannot be seen, and what their slots hold.

ghost use Rattle.fancy_expr.specs.Sound.{IsWellFormedTree};

use crate::excerpt::push_to_column;
use crate::faults::tree_trouble;
use crate::find::Groups;
use crate::nodes::{push_character, push_quoted};
use crate::outcome::{Answer, Trouble, Written};
use crate::request::Request;
use crate::source::read;
use fancy_characters::classes::CharClassMatcher;
use fancy_command::arguments::Arguments;
use fancy_compile::compile::CompileOptions;
use fancy_expr::error::Error;
use fancy_expr::expr::ExprTree;
use fancy_search::search::Compiled;
use fancy_vm::vm::{Insn, Prog};
use std::alloc::{AllocError, Global};

/// The program of the tree.
pub fn compile(alloc: Global, arguments: &Arguments, tree: &ExprTree) -> Result<Prog, Error>
    requires { IsWellFormedTree tree.now }
{
    // they fit: both have the same option of the text's end
    let context = arguments.analysis();
    let options = CompileOptions {
        disallow_empty_match_at_eof_after_newline: context.disallow_empty_match_at_eof_after_newline,
        ..arguments.compilation()
    };
    Ok(Compiled::new(alloc, tree, context, options)?.into_program())
}

/// A program, and the groups of its tree.
#[derive(Drop)]
pub struct Shown {
    pub prog: Prog,
    pub groups: Groups,
}

/// The program that is asked about.
pub fn program(request: &Request) -> Result<Shown, Trouble> {
    let tree = read(request)?;
    match compile(request.alloc, &request.arguments, &tree) {
        Ok(prog) => Ok(Shown {
            prog,
            groups: Groups::of(request.alloc, &tree)?,
        }),
        Err(error) => Err(tree_trouble(request, &tree, error)?),
    }
}

/// Writes what the first slots hold.
fn push_slots(out: &mut String, groups: &Groups) -> Written {
    out.push_str("slots 0 and 1: start and end of the match\n")?;
    for group in 1..=groups.count {
        let start = group.saturating_mul(2);
        let end = start.saturating_add(1);
        write!(out, "slots {start} and {end}: start and end of ")?;
        groups.names.push_group(out, group)?;
        out.push('\n')?;
    }
    Ok(())
}

fn push_list(out: &mut String, shown: &Shown) -> Written {
    let (count, groups) = (shown.prog.body().len(), shown.groups.count);
    writeln!(out, "instructions: {count}, groups: {groups}")?;
    push_slots(out, &shown.groups)?;
    for (place, insn) in shown.prog.body().iter().enumerate() {
        write!(out, "{place:>5}  ")?;
        push_noted(out, insn, &shown.groups)?;
        out.push('\n')?;
    }
    Ok(())
}

/// How many instructions the program has, what its first slots hold, and each instruction after its place.
pub fn list(request: &Request) -> Answer {
    let shown = program(request)?;
    let mut out = String::new(request.alloc);
    push_list(&mut out, &shown)?;
    Ok(out)
}

/// Where a note begins behind an instruction.
const COLUMN: usize = 28;

/// Writes the text with escapes in the place of control characters.
fn push_visible(out: &mut String, text: &str) -> Written {
    for c in text.chars() {
        if c.is_control() {
            push_character(out, c)?;
        } else {
            out.push(c)?;
        }
    }
    Ok(())
}

/// Writes the instruction as the listing does.
fn push_listed(out: &mut String, insn: &Insn) -> Written {
    let listed = format!(in *out.allocator(); "{insn}")?;
    push_visible(out, listed.as_str())
}

/// Writes a literal of which some characters are folded: a run of these has an `i` before it.
fn push_folded(out: &mut String, chars: &[(char, bool)]) -> Written {
    out.push_str("LitCasei(")?;
    let mut was_folded = None;
    for (c, is_folded) in chars {
        if was_folded != Some(*is_folded) {
            out.push_str(match (was_folded, *is_folded) {
                (None, false) => "\"",
                (None, true) => "i\"",
                (Some(_), false) => "\" \"",
                (Some(_), true) => "\" i\"",
            })?;
        }
        was_folded = Some(*is_folded);
        push_character(out, *c)?;
    }
    out.push_str(if was_folded.is_some() { "\")" } else { ")" })
}

fn is_ascii_newline(class: &CharClassMatcher) -> bool {
    matches!(class, CharClassMatcher::Newline { unicode: false })
}

/// Writes the instruction alone.
pub fn push_insn(out: &mut String, insn: &Insn) -> Written {
    match insn {
        Insn::Lit(text) => {
            push_quoted(out, "Lit(", text.as_str())?;
            out.push(')')
        }
        Insn::LitCasei(literal) => push_folded(out, literal.chars()),
        Insn::CharClass(class) if is_ascii_newline(class) => {
            out.push_str("CharClass(ASCII newline)")
        }
        _ => push_listed(out, insn),
    }
}

/// The group of an instruction, if it has one, and what is said of it. Of group 0 nothing is said.
fn note(insn: &Insn) -> (Option<usize>, &'static str) {
    match insn {
        Insn::Save(0) => (None, "start of the match"),
        Insn::Save(1) => (None, "end of the match"),
        Insn::SaveCaptureGroupStart { group, .. } => (Some(*group), " opens"),
        Insn::SaveCaptureGroup { group, .. } => (Some(*group), " closes"),
        Insn::Backref {
            slot,
            casei: true,
            ..
        } => (Some(slot / 2), ", folded"),
        Insn::Backref { slot, .. } => (Some(slot / 2), ""),
        Insn::BackrefExistsCondition(group) => (Some(*group), ""),
        _ => (Some(0), ""),
    }
}

/// Writes the instruction, and in a column after it what is said of it.
pub fn push_noted(out: &mut String, insn: &Insn, groups: &Groups) -> Written {
    let start = out.len();
    push_insn(out, insn)?;
    let (group, words) = note(insn);
    if group == Some(0) {
        return Ok(());
    }
    push_to_column(out, start, COLUMN)?;
    if let Some(group) = group {
        groups.names.push_group(out, group)?;
    }
    out.push_str(words)
}

/// What is in the box of an instruction in a picture: its place, and itself.
pub fn label(alloc: Global, place: usize, insn: &Insn) -> Result<String, AllocError> {
    let mut label = format!(in alloc; "{place} ")?;
    push_insn(&mut label, insn)?;
    Ok(label)
}
