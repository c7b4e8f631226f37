//! A run, instruction by instruction.

use crate::excerpt::{head, push_shown, push_times, tail, width};
use crate::find::{no_place, push_group};
use crate::list::{Shown, program, push_noted};
use crate::outcome::{Answer, Written, error_text};
use crate::request::Request;
use fancy_command::arguments::Arguments;
use fancy_vm::vm::{Progress, RunOptions, Stepper};

/// How many instructions a run may execute where nothing else is said.
const MOST_STEPS: u64 = 1_000;

/// How many backtracks it may make, and one more for each start.
const MOST_BACKTRACKS: usize = 20_000_000;

const HEAD: &str = "    step    byte  text at the byte        branches  backtracks  instruction\n";

/// How many characters of the text are shown before the byte, and again from there on.
const AROUND: usize = 10;

/// Writes the text around the byte, with a bar before the character there.
fn push_around(out: &mut String, text: &str, at: usize) -> Written {
    let (before, _) = tail(text.get(..at).unwrap_or(""), AROUND);
    let (behind, _) = head(text.get(at..).unwrap_or(""), AROUND);
    push_times(out, ' ', AROUND.saturating_sub(width(before)))?;
    push_shown(out, before)?;
    out.push('|')?;
    push_shown(out, behind)?;
    push_times(out, ' ', AROUND.saturating_sub(width(behind)))
}

/// Writes where a stepper is, on a line: what was done before, and the instruction that is next.
fn push_step(out: &mut String, shown: &Shown, text: &str, stepper: &Stepper<'_>) -> Written {
    let (steps, at) = (stepper.steps(), stepper.ix());
    write!(out, "{steps:>8}  {at:>6}  ")?;
    push_around(out, text, at)?;
    let (branches, backtracks, place) = (stepper.branches(), stepper.backtracks(), stepper.pc());
    write!(out, "  {branches:>8}  {backtracks:>10}  {place} ")?;
    if let Some(insn) = shown.prog.body().get(place) {
        push_noted(out, insn, &shown.groups)?;
    }
    out.push('\n')
}

/// Writes the answer: the match and each group, or that there is none.
fn push_answer(out: &mut String, shown: &Shown, text: &str, found: &Option<Vec<usize>>) -> Written {
    let Some(numbers) = found else {
        return out.push_str("no match\n");
    };
    for (group, pair) in numbers.chunks(2).enumerate() {
        if let [start, end] = pair {
            let span = if *end == usize::MAX {
                None
            } else {
                Some((*start, *end))
            };
            push_group(out, text, &shown.groups.names, group, span)?;
        }
    }
    Ok(())
}

/// Writes each instruction that the stepper executes, `most` of them and one more, and last its result.
fn push_steps(
    out: &mut String,
    shown: &Shown,
    text: &str,
    stepper: Stepper<'_>,
    most: u64,
) -> Written {
    out.push_str(HEAD)?;
    let mut stepper = stepper;
    for _ in 0..=most {
        push_step(out, shown, text, &stepper)?;
        match stepper.step() {
            Ok(Progress::GoesOn(further)) => stepper = further,
            Ok(Progress::Ends(found)) => {
                return push_answer(out, shown, text, &found);
            }
            Err(error) => {
                let text = error_text(&error);
                return writeln!(out, "{text}");
            }
        }
    }
    Ok(())
}

/// What is written of a run of the program.
fn written(request: &Request, shown: &Shown, text: &str, options: &RunOptions) -> Answer {
    if !options.fits(&shown.prog, text) {
        return Err(no_place(request.alloc, options.pos)?);
    }
    let stepper = Stepper::new(request.alloc, &shown.prog, text, options)?;
    let mut out = String::new(request.alloc);
    push_steps(&mut out, shown, text, stepper, options.step_limit)?;
    Ok(out)
}

/// Each instruction that the run executes, and last what it answers.
pub fn trace(request: &Request, text: &str) -> Answer {
    let shown = program(request)?;
    let starts = text.len().saturating_add(1);
    let Arguments {
        backtracks,
        steps,
        ..
    } = request.arguments;
    // with an end, for what is printed
    let options = RunOptions {
        backtrack_limit: backtracks.unwrap_or(MOST_BACKTRACKS.saturating_add(starts)),
        step_limit: steps.unwrap_or(MOST_STEPS),
        ..request.arguments.running()
    };
    written(request, &shown, text, &options)
}
