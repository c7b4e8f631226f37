//! A run that is made step by step.

ghost use Rattle.std.specs.Prelude.{◌≡◌, length, IsTrue, IfOk, IfErr};
ghost use Rattle.fancy_meaning.specs.Fits.{run_fits};
ghost use Rattle.fancy_meaning.specs.Places.{is_place};
ghost use Rattle.fancy_state.specs.Refused.{IsMemory};
ghost use Rattle.fancy_steps.specs.Outcomes.{RunAnswers, ending};
ghost use Rattle.fancy_steps.specs.Tasks.{task_of};
ghost use Rattle.fancy_vm.specs.Steppers.{Begins, IsOnRun, config_in, task_in};

use fancy_expr::error::{Error, RuntimeError};
use fancy_program::insn::Prog;
use fancy_state::state::State;
use fancy_steps::longest::Longest;
use fancy_steps::machine::{MAX_BRANCHES, Machine, Next, Task};
use fancy_steps::memos::Memos;
use fancy_steps::options::RunOptions;
use fancy_steps::search_limits::SearchLimits;
use std::alloc::Global;
use std::marker::Model;

/// A run of a program that is made step by step. It ends with what `run` answers.
// A clause sees its view: what it runs, its configuration, and how many instructions it executed.
#[derive(Drop)]
pub struct Stepper<'a> {
    machine: Machine<'a>,
    memos: Memos,
    /// How many instructions it executed.
    steps: u64,
}

impl<'a> Model for Stepper<'a> {
    ghost use Rattle.std.specs.Coded.{codes};
    ghost use Rattle.fancy_vm.specs.Steppers.{IsStepper, StepperView, view_of};
    ghost use Rattle.fancy_program.specs.contracts.insn.Prog as prog;

    ghost Value = { StepperView };

    ghost coded = { Prim.hlevel (codes, prog.the_row.coded) };

    ghost view = { λ a. view_of a.machine a.steps };

    ghost invariant = { λ a. IsStepper a.machine a.memos a.steps };
}

/// What a step led to.
#[derive(Drop)]
pub enum Progress<'a> {
    /// The run goes on with this stepper.
    GoesOn(Stepper<'a>),
    /// The run ended, and this is what `run` answers.
    Ends(Option<Vec<usize>>),
}

impl<'a> Stepper<'a> {
    ghost use Rattle.fancy_vm.specs.StepperSteps.{StepsTo};

    /// At the start of the run that `run` makes of these. `Memory` where an allocation failed.
    pub fn new(
        alloc: Global,
        prog: &'a Prog,
        text: &'a str,
        options: &'a RunOptions,
    ) -> Result<Stepper<'a>, Error>
        requires { IsTrue (run_fits (task_of prog.now text.now options.now)) }
        ensures begins { IfOk result (Begins (task_of prog.now text.now options.now)) }
        ensures err { IfErr result IsMemory }
    {
        let task = Task {
            prog,
            text,
            options,
            alloc,
            limits: SearchLimits::none(),
        };
        let state = State::new(alloc, prog.parts.slots, MAX_BRANCHES)?;
        Ok(Stepper {
            machine: Machine::begin(&task, state, Longest::new(alloc)),
            memos: Memos::new(alloc),
            steps: 0,
        })
    }

    /// The next instruction, by its number in the program.
    pub fn pc(&self) -> usize
        ensures { result ≡ (config_in self.now).pc }
    {
        self.machine.pc
    }

    /// The position in the text, in bytes.
    pub fn ix(&self) -> usize
        ensures ix { result ≡ (config_in self.now).ix }
        ensures place { IsTrue (is_place (task_in self.now).text result) }
    {
        self.machine.ix
    }

    /// How many branches it can backtrack to.
    pub fn branches(&self) -> usize
        ensures { result ≡ length (config_in self.now).branches }
    {
        self.machine.state.backtrack_count()
    }

    /// How often it fell back to a branch.
    pub fn backtracks(&self) -> usize
        ensures { result ≡ (config_in self.now).backtracks }
    {
        self.machine.backtracks
    }

    /// How many instructions it executed, at most as many as `step_limit` allows.
    pub fn steps(&self) -> u64
        ensures steps { result ≡ self.now.steps }
        ensures on_run { IsOnRun (task_in self.now) result (config_in self.now) }
    {
        self.steps
    }

    /// Executes the next instruction. The stepper comes back where the run goes on.
    ///
    /// A `RuntimeError` tells which limit the run exceeded, and `Memory` that an allocation failed. Either
    /// ends the stepper.
    pub fn step(self) -> Result<Progress<'a>, Error>
        ensures { StepsTo self.entry result }
    {
        let Stepper {
            mut machine,
            mut memos,
            steps,
        } = self;
        let options = machine.task.options;
        let left = options.step_limit - steps;
        if left == 0 {
            return Err(Error::RuntimeError(RuntimeError::StepLimitExceeded));
        }
        let prog = machine.task.prog;
        match machine.step(&prog.body, &mut memos)? {
            Next::On => Ok(Progress::GoesOn(Stepper {
                machine,
                memos,
                steps: steps + 1,
            })),
            Next::Fails => unreachable!(),
            Next::Matches => Ok(Progress::Ends(ending_of(&machine, true)?)),
            Next::Ends => Ok(Progress::Ends(ending_of(&machine, false)?)),
        }
    }
}

/// As `write_ending`, with a vector of its own.
fn ending_of(machine: &Machine<'_>, by_slots: bool) -> Result<Option<Vec<usize>>, Error>
    ensures { RunAnswers (ending by_slots machine.now) result }
{
    let mut numbers = Vec::new(machine.task.alloc);
    if !machine.write_ending(by_slots, &mut numbers)? {
        return Ok(None);
    }
    Ok(Some(numbers))
}
