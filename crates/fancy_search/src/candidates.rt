//! Searches from candidates: the starts at which a match may begin.

ghost use Rattle.std.specs.Prelude.{◌≡◌, ◌≤◌, length, IfOk, IfSome, IsTrue, None, Some, false, true};
ghost use Rattle.fancy_meaning.specs.Fits.{run_fits};
ghost use Rattle.fancy_meaning.specs.Options as plain;
ghost use Rattle.fancy_meaning.specs.Premises.{Input};
ghost use Rattle.fancy_info.specs.declared.context.AnalyzeContext.{AnalyzeContext};
ghost use Rattle.fancy_steps.specs.Tasks.{options_of as run_options_of, task_of};
ghost use Rattle.fancy_vm.specs.Scratches as held;
ghost use Rattle.fancy_search.specs.Candidates.{IsTold, TellsNoLimit};
ghost use Rattle.fancy_search.specs.Searches.{BeginsAt, IsCompiledFrom, input_of, program};

use crate::search::Compiled;
use fancy_characters::places::is_place;
use fancy_compile::compile::CompileOptions;
use fancy_expr::expr::ExprTree;
use fancy_expr::nodes::{Question, has_node};
use fancy_literals::starts::{Starts, starts_by};
use fancy_vm::vm::{RunOptions, Scratch, attempt_into, begin_attempts};
use std::alloc::{AllocError, Global};

/// At which places attempts of a search are made.
pub(crate) enum Candidates {
    /// At each.
    Everywhere,
    /// At those where a match of the tree may begin.
    At(Starts),
}

// Not derived: whoever owns one calls this drop, and would prove a derived one again (docs/GATE.md).
impl Drop for Candidates {
    fn drop(self) {
        match self {
            Candidates::Everywhere => {}
            Candidates::At(_) => {}
        }
    }
}

impl Candidates {
    ghost use Rattle.fancy_search.specs.Candidates.{IsNextCandidate};

    /// The first candidate from byte `from` on, or a byte inside a character.
    #[inline(always)]
    fn next(&self, text: &str, from: usize) -> Option<usize>
        ensures next { IsNextCandidate self.now text.now from result }
        ensures low { IfSome result (λ at. from ≤ at) }
        ensures high { IfSome result (λ at. at ≤ length text.now) }
    {
        match self {
            Candidates::Everywhere if from <= text.len() => Some(from),
            Candidates::Everywhere => None,
            Candidates::At(starts) => match starts.next(text, from) {
                None if starts.are_at_end() && from <= text.len() => Some(text.len()),
                found => found,
            },
        }
    }
}

/// At which places attempts are made of a search for the tree. It is not known of a hard tree with which bytes its matches
/// begin, and of one whose matches depend on where a search begins: one run then searches by itself.
pub(crate) fn candidates_of(
    alloc: Global,
    tree: &ExprTree,
    options: CompileOptions,
    is_hard: bool,
) -> Result<Option<Candidates>, AllocError>
    ensures { (context : AnalyzeContext) → IfOk result (λ found. IfSome found
        (BeginsAt (input_of tree.now context options))) }
{
    if options.anchored || has_node(&tree.expr, Question::IsContinue) {
        return Ok(None);
    }
    let known = starts_by(alloc, &tree.expr, options.unicode)?;
    if let Some(starts) = known {
        return Ok(Some(Candidates::At(starts)));
    }
    if is_hard {
        return Ok(None);
    }
    Ok(Some(Candidates::Everywhere))
}

/// What attempts from candidates tell of a search.
#[derive(Clone, Copy)]
pub(crate) enum Tried {
    /// Whether there is a match. Its numbers were written.
    Found(bool),
    /// That is not known: an attempt exceeded a limit, or an allocation failed.
    Unknown,
}

/// What attempts may still take.
#[derive(Clone, Copy)]
struct Left {
    backtracks: usize,
    steps: u64,
}

impl Left {
    /// After an attempt that did so much.
    fn after(self, work: u64) -> Left {
        Left {
            backtracks: self.backtracks.saturating_sub(work as usize),
            steps: self
                .steps
                .saturating_sub(work.saturating_mul(8).saturating_add(8)),
        }
    }
}

/// The options of an attempt from this byte alone.
fn attempt_at(options: &RunOptions, at: usize, left: Left) -> RunOptions
    ensures { run_options_of result ≡ record (run_options_of options.now) {
      pos = at;
      anchored = true;
      backtrack_limit = left.backtracks;
      step_limit = left.steps;
    } }
{
    RunOptions {
        pos: at,
        anchored: true,
        continued: options.continued,
        not_empty: options.not_empty,
        leftmost_longest: options.leftmost_longest,
        backtrack_limit: left.backtracks,
        step_limit: left.steps,
    }
}

impl Compiled {
    /// Tries the candidates one after the other, with the limits of one search for all.
    pub(crate) fn try_candidates(
        &self,
        alloc: Global,
        candidates: &Candidates,
        text: &str,
        options: &RunOptions,
        runs: &mut Scratch,
        numbers: &mut Vec<usize>,
    ) -> Tried
        requires fits { IsTrue (run_fits (task_of (program self.now) text.now options.now)) }
        requires candidates { self.now.candidates ≡ Some candidates.now }
        requires any_start { options.now.anchored ≡ false }
        ensures told { (i : Input) → IsCompiledFrom i self.now
            → IsTold i text.now (run_options_of options.now) numbers.new.items result }
        ensures limits { held.limits_of runs.new ≡ held.limits_of runs.old }
        ensures limited { TellsNoLimit result (held.passed_of runs.new) }
    {
        begin_attempts(runs);
        let mut from = options.pos;
        let mut left = Left {
            backtracks: options.backtrack_limit,
            steps: options.step_limit,
        };
        'candidates: loop {
            let Some(at) = candidates.next(text, from) else {
                return Tried::Found(false);
            };
            if is_place(text.as_bytes(), at) {
                let here = attempt_at(options, at, left);
                let before = runs.machine_work();
                match attempt_into(alloc, &self.prog, text, &here, runs, numbers) {
                    Ok(true) => return Tried::Found(true),
                    Ok(false) => {}
                    Err(_) => return Tried::Unknown,
                }
                left = left.after(runs.machine_work().saturating_sub(before));
            }
            from = at + 1;
        }
    }
}
