//! The machine at work on a text.

ghost use Rattle.std.specs.Prelude.{◌≡◌, ◌+◌, ◌<◌, length, min, OnOk, IfErr, None, false};
ghost use Rattle.fancy_meaning.specs.Config as config;
ghost use Rattle.fancy_meaning.specs.Machine as machine;
ghost use Rattle.fancy_state.specs.Held.{state_bytes, first_state};
ghost use Rattle.fancy_steps.specs.SearchLimits.{is_past, exceeds_bytes};
ghost use Rattle.fancy_steps.specs.Sound.{IsSound};
ghost use Rattle.fancy_steps.specs.TrailingNewlines.{AreTrailingNewlines};

use crate::longest::Longest;
use crate::options::RunOptions;
use crate::search_limits::SearchLimits;
use crate::trailing_newlines::TrailingNewlines;
use fancy_expr::error::{Error, RuntimeError};
use fancy_program::insn::Prog;
use fancy_state::state::State;
use std::alloc::{AllocError, Global};

/// How many branches a run may hold.
pub const MAX_BRANCHES: usize = 1_000_000;

/// The machine looks at how many bytes it holds where it has a multiple of so many branches.
const BRANCHES_BETWEEN_LOOKS: usize = 64;

/// What is run, on what, and how.
#[derive(Clone, Copy)]
pub struct Task<'a> {
    pub prog: &'a Prog,
    pub text: &'a str,
    pub options: &'a RunOptions,
    pub alloc: Global,
    /// How much its delegates may take.
    pub limits: SearchLimits,
}

/// Where a run of a task stands.
#[derive(Drop)]
pub struct Machine<'a> {
    pub task: Task<'a>,
    pub pc: usize,
    pub ix: usize,
    /// Where the attempt began.
    pub start: usize,
    pub backtracks: usize,
    /// How many of the instructions that the run may execute were left when it ended; 0 before, and after an error.
    pub left: u64,
    pub state: State,
    /// The longest match so far, where the longest is asked for.
    pub longest: Longest,
    /// From where on only newlines are left in the text.
    pub(crate) trailing_newlines: TrailingNewlines,
    ghost sound: { IsSound task state.held },
    ghost are_trailing_newlines: { AreTrailingNewlines task.text.now trailing_newlines },
}

/// What an instruction led to.
#[derive(Clone, Copy)]
pub enum Next {
    On,
    /// The machine is to backtrack to the last branch. No step answers so, but a part of one.
    Fails,
    /// The match of the machine's slots is answered.
    Matches,
    /// The match that is held is answered, or none.
    Ends,
}

/// Why a run stops without an answer: it exceeded a limit, or an allocation failed.
#[derive(Clone, Copy)]
pub enum Stop {
    Limit(RuntimeError),
    Memory,
}

/// A step's answer in one byte, which a function out of line hands over in a register: `Result<Next, Stop>` would go by
/// memory, and with it the answer of each other step.
#[derive(Clone, Copy)]
pub(crate) enum PackedStep {
    On,
    Fails,
    Matches,
    Ends,
    BacktrackLimitExceeded,
    StackOverflow,
    StepLimitExceeded,
    Memory,
}

impl PackedStep {
    ghost use Rattle.fancy_steps.specs.Outcomes.{unpacked};

    #[inline(always)]
    pub(crate) fn of(step: Result<Next, Stop>) -> PackedStep
        ensures { unpacked result ≡ step }
    {
        match step {
            Ok(Next::On) => PackedStep::On,
            Ok(Next::Fails) => PackedStep::Fails,
            Ok(Next::Matches) => PackedStep::Matches,
            Ok(Next::Ends) => PackedStep::Ends,
            Err(Stop::Limit(RuntimeError::BacktrackLimitExceeded)) => {
                PackedStep::BacktrackLimitExceeded
            }
            Err(Stop::Limit(RuntimeError::StackOverflow)) => PackedStep::StackOverflow,
            Err(Stop::Limit(RuntimeError::StepLimitExceeded)) => PackedStep::StepLimitExceeded,
            Err(Stop::Memory) => PackedStep::Memory,
        }
    }

    #[inline(always)]
    pub(crate) fn unpack(self) -> Result<Next, Stop>
        ensures { result ≡ unpacked self }
    {
        match self {
            PackedStep::On => Ok(Next::On),
            PackedStep::Fails => Ok(Next::Fails),
            PackedStep::Matches => Ok(Next::Matches),
            PackedStep::Ends => Ok(Next::Ends),
            PackedStep::BacktrackLimitExceeded => {
                Err(Stop::Limit(RuntimeError::BacktrackLimitExceeded))
            }
            PackedStep::StackOverflow => Err(Stop::Limit(RuntimeError::StackOverflow)),
            PackedStep::StepLimitExceeded => Err(Stop::Limit(RuntimeError::StepLimitExceeded)),
            PackedStep::Memory => Err(Stop::Memory),
        }
    }
}

impl From<AllocError> for Stop {
    ghost use Rattle.fancy_steps.specs.declared.machine.Stop.TheVariants as stop;

    ghost from_gives = { λ _ s. s ≡ stop.Memory };

    fn from(_e: AllocError) -> Stop {
        Stop::Memory
    }
}

impl From<Stop> for Error {
    ghost use Rattle.fancy_steps.specs.Stops.{error_of};

    ghost from_gives = { λ s e. e ≡ error_of s };

    fn from(s: Stop) -> Error {
        match s {
            Stop::Limit(limit) => Error::RuntimeError(limit),
            Stop::Memory => Error::Memory,
        }
    }
}

impl<'a> Machine<'a> {
    ghost use Rattle.fancy_steps.specs.Outcomes.{IsNoFailure, StepAnswers, config_of, held_match, plain_task, with_branch};
    ghost use Rattle.fancy_steps.specs.Stops.{IsPushStop};

    pub fn begin(task: &Task<'a>, state: State, longest: Longest) -> Machine<'a>
        requires state { state ≡ first_state task.now.prog.now.parts.slots config.most_branches }
        requires longest { held_match longest ≡ None }
        requires implicit { task.now.prog.now.parts.explicit_group_0 ≡ false }
        ensures task { result.task ≡ task.now }
        ensures begins { config_of result ≡ machine.begin (plain_task task.now) }
    {
        let pos = task.options.pos;
        let _slots = task.prog.parts.slots;
        Machine {
            task: *task,
            pc: 0,
            ix: pos,
            start: pos,
            backtracks: 0,
            left: 0,
            state,
            longest,
            trailing_newlines: TrailingNewlines::new(),
        }
    }

    /// What the slot holds.
    pub(crate) fn slot(&self, slot: usize) -> usize
        requires { slot < length self.now.state.held.slots }
        ensures { result ≡ (config_of self.now).slots slot }
    {
        self.state.get(slot)
    }

    /// The step is to backtrack, which all steps do at one place (`fall_back`).
    #[inline(always)]
    pub(crate) fn fail(&mut self) -> Result<Next, Stop>
        ensures task { self.new.task ≡ self.old.task }
        ensures leads { StepAnswers
            (machine.fail (plain_task self.old.task) (config_of self.old)) result self.new }
    {
        Ok(Next::Fails)
    }

    /// Backtracks to the last branch.
    #[inline(always)]
    pub(crate) fn fall_back(&mut self) -> Result<Next, Stop>
        ensures task { self.new.task ≡ self.old.task }
        ensures leads { StepAnswers
            (machine.fail (plain_task self.old.task) (config_of self.old)) result self.new }
        ensures fell { IsNoFailure result }
    {
        if self.state.backtrack_count() == 0 {
            return Ok(Next::Ends);
        }
        if self.backtracks >= self.task.options.backtrack_limit {
            return Err(Stop::Limit(RuntimeError::BacktrackLimitExceeded));
        }
        self.fall();
        Ok(Next::On)
    }

    /// Takes the last branch, where there is one and the limit allows it.
    #[inline(always)]
    pub(crate) fn fall(&mut self)
        requires some { 0 < length self.old.state.held.branches }
        requires within { self.old.backtracks < self.old.task.options.now.backtrack_limit }
        ensures task { self.new.task ≡ self.old.task }
        ensures fewer { length self.new.state.held.branches < length self.old.state.held.branches }
        ensures falls { machine.fail (plain_task self.old.task) (config_of self.old)
            ≡ config.Goes (config_of self.new) }
    {
        let _limit = self.task.options.backtrack_limit;
        self.backtracks += 1;
        (self.pc, self.ix) = self.state.pop();
    }

    /// Goes on at the next instruction where the test holds, and else fails.
    #[inline(always)]
    pub(crate) fn goes_if(&mut self, test: bool) -> Result<Next, Stop>
        requires pc { self.old.pc < usize.MAX }
        ensures task { self.new.task ≡ self.old.task }
        ensures leads { StepAnswers
            (machine.goes_if (plain_task self.old.task) test (config_of self.old)) result self.new }
    {
        if !test {
            return self.fail();
        }
        self.pc += 1;
        Ok(Next::On)
    }

    /// Goes on at the next instruction from this place, and fails where there is none.
    #[inline(always)]
    pub(crate) fn goes_from(&mut self, to: Option<usize>) -> Result<Next, Stop>
        requires pc { self.old.pc < usize.MAX }
        ensures task { self.new.task ≡ self.old.task }
        ensures leads { StepAnswers
            (machine.goes_from (plain_task self.old.task) (config_of self.old) to) result self.new }
    {
        match to {
            None => self.fail(),
            Some(ix) => {
                self.ix = ix;
                self.pc += 1;
                Ok(Next::On)
            }
        }
    }

    /// Sets a slot.
    #[inline(always)]
    pub(crate) fn put(&mut self, slot: usize, value: usize) -> Result<(), AllocError>
        requires { slot < length self.old.state.held.slots }
        ensures task { self.new.task ≡ self.old.task }
        ensures slots { length self.new.state.held.slots ≡ length self.old.state.held.slots }
        ensures ok { OnOk result
            (config_of self.new ≡ config.with_slot slot value (config_of self.old)) }
    {
        self.state.set_slot(slot, value)?;
        Ok(())
    }

    /// Adds a branch of this machine at another place of the program. `Memory` too where the limit on bytes is passed.
    #[inline(always)]
    pub(crate) fn push(&mut self, pc: usize) -> Result<(), Stop>
        ensures task { self.new.task ≡ self.old.task }
        ensures room { OnOk result (length (config_of self.old).branches < config.most_branches) }
        ensures ok { OnOk result (config_of self.new ≡ with_branch pc (config_of self.old)) }
        ensures within { OnOk result
            (exceeds_bytes self.old.task.limits self.old.state ≡ false) }
        ensures stopped { IfErr result (IsPushStop (length (config_of self.old).branches)) }
    {
        if self.state.is_full() {
            return Err(Stop::Limit(RuntimeError::StackOverflow));
        }
        if self.exceeds_bytes() {
            return Err(Stop::Memory);
        }
        self.state.add_branch(pc, self.ix)?;
        Ok(())
    }

    /// The machine looks at how many bytes it holds, and these are more than the limit allows.
    #[inline(always)]
    pub fn exceeds_bytes(&self) -> bool
        ensures { result ≡ exceeds_bytes self.now.task.limits self.now.state }
    {
        self.state.backtrack_count() % BRANCHES_BETWEEN_LOOKS == 0 && self.holds_too_much()
    }

    /// The branches and the log hold more bytes than the limit allows.
    #[cold]
    #[inline(never)]
    fn holds_too_much(&self) -> bool
        ensures { result
            ≡ is_past self.now.task.limits.bytes (min usize.MAX (state_bytes self.now.state)) }
    {
        match self.task.limits.bytes {
            None => false,
            Some(most) => self.state.bytes() > most,
        }
    }
}
