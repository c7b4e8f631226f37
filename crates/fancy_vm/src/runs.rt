//! Runs of a program.

ghost use Rattle.std.specs.Prelude.{◌≡◌, ℕ, List, IsTrue, IfOk, IfErr, OnOk, None, false, is_some, max};
ghost use Rattle.fancy_meaning.specs.Config as config;
ghost use Rattle.fancy_meaning.specs.Machine as machine;
ghost use Rattle.fancy_meaning.specs.Fits.{run_fits};
ghost use Rattle.fancy_meaning.specs.Premises.{IsText};
ghost use Rattle.fancy_vm.specs.Attempts.{MayAttempt};
ghost use Rattle.fancy_vm.specs.Bounds.{IfLimit, RunMayPass};
ghost use Rattle.fancy_vm.specs.Means.{IsMeaning, IsMeaningPair, numbers_of};
ghost use Rattle.fancy_steps.specs.Outcomes.{RunAnswers, RunAnswersPair, answer_in, first_pair, plain_task};
ghost use Rattle.fancy_vm.specs.Ready.{AreFresh, AreMemosIn, IsReady, KeepsMemos};
ghost use Rattle.fancy_steps.specs.SearchLimits.{StaysWithin, is_past, exceeds_bytes, no_cost, no_limits};
ghost use Rattle.fancy_state.specs.Held.{first_state};
ghost use Rattle.fancy_state.specs.Refused.{IsMemory};
ghost use Rattle.fancy_program.specs.Programs.{prog_of};
ghost use Rattle.fancy_program.specs.declared.insn.Prog as progs;
ghost use Rattle.fancy_vm.specs.Scratches.{IsUnused, allocator_of, cost_of, limits_of, passed_of};
ghost use Rattle.fancy_steps.specs.Tasks.{default_at, default_task, options_of, task_of};

use crate::strategy::{Found, attempt_by_strategy, write_groups, write_pair};
use fancy_expr::error::Error;
use fancy_program::insn::Prog;
use fancy_program::threads::crosses_threads;
use fancy_state::state::State;
use fancy_steps::longest::Longest;
use fancy_steps::machine::{MAX_BRANCHES, Machine, Task};
use fancy_steps::memos::Memos;
use fancy_steps::options::RunOptions;
use fancy_steps::search_limits::{SearchCost, SearchLimit, SearchLimits};
use std::alloc::Global;

/// Memory that runs use again, of this allocator, and how much the delegates of a run may take. No answer depends on
/// it: a run that exceeds a limit has none.
pub struct Scratch {
    limits: SearchLimits,
    room: Room,
}

// Not derived: whoever owns one calls this drop, and would prove a derived one again (docs/GATE.md).
impl Drop for Scratch {
    fn drop(self) {
        let Scratch { limits: _, room: _ } = self;
    }
}

/// A failed attempt that takes up so many states counts as one more.
const VISITS: u64 = 8;

/// So many instructions of the machine take about as long as a visit or a backtrack.
const STEPS: u64 = 8;

/// The memory of a scratch.
pub(crate) struct Room {
    alloc: Global,
    state: Option<State>,
    pub(crate) memos: Option<Memos>,
    /// How many states the run had taken up when the last attempt failed.
    visits: u64,
    /// How many attempts of single-delegate runs failed in all; one that took up many states counts as several.
    spent: usize,
    /// What the machine did in the attempts of the last search: its backtracks, and one for each eight instructions.
    work: u64,
}

// Not derived: whoever owns one calls this drop, and would prove a derived one again (docs/GATE.md).
impl Drop for Room {
    fn drop(self) {
        let Room {
            alloc: _,
            state: _,
            memos: _,
            visits: _,
            spent: _,
            work: _,
        } = self;
    }
}

impl Scratch {
    ghost use Rattle.fancy_vm.specs.Scratches.{machine_work_of, spent_of, work_of};

    /// Holds no memory yet, and takes none. There is no limit.
    pub fn new(alloc: Global) -> Scratch
        ensures alloc { allocator_of result ≡ alloc }
        ensures unused { IsUnused result }
        ensures limits { limits_of result ≡ no_limits }
    {
        crosses_threads::<Scratch>();
        Scratch {
            limits: SearchLimits::none(),
            room: Room {
                alloc,
                state: None,
                memos: None,
                visits: 0,
                spent: 0,
                work: 0,
            },
        }
    }

    /// Each later run may take so much, its delegates together.
    pub fn limit(&mut self, limits: SearchLimits)
        ensures limits { limits_of self.new ≡ limits }
        ensures passed { passed_of self.new ≡ None }
        ensures cost { cost_of self.new ≡ no_cost }
    {
        self.limits = limits;
        self.room.forget_cost();
    }

    /// How much a run may take.
    pub fn limits(&self) -> SearchLimits
        ensures { result ≡ limits_of self.now }
    {
        self.limits
    }

    /// The limit that the last run passed; its answer was `Memory` then. There is none where memory was refused.
    pub fn passed(&self) -> Option<SearchLimit>
        ensures { result ≡ passed_of self.now }
    {
        self.limits.passed_by(self.room.cost())
    }

    /// What the delegates of the last run took.
    pub fn cost(&self) -> SearchCost
        ensures { result ≡ cost_of self.now }
    {
        self.room.cost()
    }

    /// How much the attempts of the last search did: visits and backtracks, and one for each eight instructions. An attempt
    /// that exceeded a limit counts with all instructions that it could have executed.
    pub fn work(&self) -> u64
        ensures { result ≡ work_of self.now }
    {
        self.room.cost().visits.saturating_add(self.room.work)
    }

    /// How much the machine did in the attempts of the last search: its backtracks, and one for each eight instructions.
    pub fn machine_work(&self) -> u64
        ensures { result ≡ machine_work_of self.now }
    {
        self.room.work
    }

    /// What failed attempts of all runs took that searched for one fragment, in attempts that read little.
    pub fn spent(&self) -> usize
        ensures { result ≡ spent_of self.now }
    {
        self.room.spent
    }
}

/// Runs the program on the text from `options.pos` on, a byte of it. The answer is start and end of each group from 0
/// up, in bytes of the text, with `usize::MAX` for a group that is not set; or none. If the program is that of a tree,
/// these are the numbers of the first admitted way that the tree has in the text, or of the longest one where
/// `leftmost_longest` asks for it.
///
/// A `RuntimeError` tells which limit was exceeded. `Memory` tells that an allocation failed, or that a limit
/// of the scratch was passed, which the scratch then names. The scratch may be used again after either. Where the whole
/// tree is easy, limits of one backtrack and eight instructions for each start are never passed.
pub fn run(
    alloc: Global,
    prog: &Prog,
    text: &str,
    options: &RunOptions,
    scratch: &mut Scratch,
) -> Result<Option<Vec<usize>>, Error>
    requires { IsTrue (run_fits (task_of prog.now text.now options.now)) }
    ensures machine { RunAnswers (machine.run (task_of prog.now text.now options.now)) result }
    ensures headline { IfOk result (λ found.
        IsMeaning (prog_of prog.now) text.now (options_of options.now) (numbers_of found)) }
    ensures bounds { IfLimit result
        (RunMayPass (prog_of prog.now) text.now (options_of options.now)) }
    ensures limits { limits_of scratch.new ≡ limits_of scratch.old }
    ensures stays { StaysWithin result (passed_of scratch.new) }
{
    let mut numbers = Vec::new(alloc);
    if !run_into(alloc, prog, text, options, scratch, &mut numbers)? {
        return Ok(None);
    }
    Ok(Some(numbers))
}

/// As `run`, but it returns whether there is a match, and writes its numbers over these, in the memory that they have.
/// Without a match, and with an error, nothing is said of the numbers.
pub fn run_into(
    alloc: Global,
    prog: &Prog,
    text: &str,
    options: &RunOptions,
    scratch: &mut Scratch,
    numbers: &mut Vec<usize>,
) -> Result<bool, Error>
    requires { IsTrue (run_fits (task_of prog.now text.now options.now)) }
    ensures machine { RunAnswers
        (machine.run (task_of prog.now text.now options.now))
        (answer_in result numbers.new) }
    ensures headline { IfOk (answer_in result numbers.new) (λ found.
        IsMeaning (prog_of prog.now) text.now (options_of options.now) (numbers_of found)) }
    ensures bounds { IfLimit (answer_in result numbers.new)
        (RunMayPass (prog_of prog.now) text.now (options_of options.now)) }
    ensures limits { limits_of scratch.new ≡ limits_of scratch.old }
    ensures stays { StaysWithin result (passed_of scratch.new) }
{
    begin_attempts(scratch);
    attempt_into(alloc, prog, text, options, scratch, numbers)
}

/// Attempts of one search may follow, of one program on one text: none of them took or noted anything yet.
pub fn begin_attempts(scratch: &mut Scratch)
    ensures may { (prog : progs.Prog) (text : List ℕ) → MayAttempt prog text scratch.new }
    ensures cost { cost_of scratch.new ≡ no_cost }
    ensures limits { limits_of scratch.new ≡ limits_of scratch.old }
{
    scratch.room.renew_memos();
    scratch.room.forget_cost();
}

/// As `run_into`, for one attempt of a search (`begin_attempts`): what earlier ones noted of the text stays, and what they
/// took counts to the limits of the scratch. After an error, too, others may follow.
pub fn attempt_into(
    alloc: Global,
    prog: &Prog,
    text: &str,
    options: &RunOptions,
    scratch: &mut Scratch,
    numbers: &mut Vec<usize>,
) -> Result<bool, Error>
    requires fits { IsTrue (run_fits (task_of prog.now text.now options.now)) }
    requires may { MayAttempt prog.now text.now scratch.old }
    ensures machine { RunAnswers
        (machine.run (task_of prog.now text.now options.now))
        (answer_in result numbers.new) }
    ensures headline { IfOk (answer_in result numbers.new) (λ found.
        IsMeaning (prog_of prog.now) text.now (options_of options.now) (numbers_of found)) }
    ensures bounds { IfLimit (answer_in result numbers.new)
        (RunMayPass (prog_of prog.now) text.now (options_of options.now)) }
    ensures limits { limits_of scratch.new ≡ limits_of scratch.old }
    ensures stays { StaysWithin result (passed_of scratch.new) }
    ensures may { MayAttempt prog.now text.now scratch.new }
{
    let task = Task {
        prog,
        text,
        options,
        alloc,
        limits: scratch.limits,
    };
    let answer = scratch.room.attempt(&task, numbers);
    match scratch.passed() {
        None => answer,
        Some(_) => Err(Error::Memory),
    }
}

/// As `run`, with the first pair of its numbers for an answer: start and end of the match in bytes.
pub fn run_spans(
    alloc: Global,
    prog: &Prog,
    text: &str,
    options: &RunOptions,
    scratch: &mut Scratch,
) -> Result<Option<(usize, usize)>, Error>
    requires { IsTrue (run_fits (task_of prog.now text.now options.now)) }
    ensures machine { RunAnswersPair (machine.run (task_of prog.now text.now options.now)) result }
    ensures headline { IfOk result
        (IsMeaningPair (prog_of prog.now) text.now (options_of options.now)) }
    ensures bounds { IfLimit result
        (RunMayPass (prog_of prog.now) text.now (options_of options.now)) }
    ensures limits { limits_of scratch.new ≡ limits_of scratch.old }
    ensures stays { StaysWithin result (passed_of scratch.new) }
{
    let mut numbers = Vec::new(alloc);
    if !run_into(alloc, prog, text, options, scratch, &mut numbers)? {
        return Ok(None);
    }
    Ok(Some(pair_of(&numbers)))
}

/// Start and end of the match that has these numbers.
pub fn pair_of(numbers: &[usize]) -> (usize, usize)
    ensures { result ≡ first_pair numbers.now }
{
    (
        numbers.get(0).copied().unwrap_or(usize::MAX),
        numbers.get(1).copied().unwrap_or(usize::MAX),
    )
}

/// As `run` with default options from `pos` on, a byte of the text, and with memory of its own.
pub fn run_default(
    alloc: Global,
    prog: &Prog,
    text: &str,
    pos: usize,
) -> Result<Option<Vec<usize>>, Error>
    requires { IsTrue (run_fits (default_task prog.now text.now pos)) }
    ensures machine { RunAnswers (machine.run (default_task prog.now text.now pos)) result }
    ensures headline { IfOk result
        (λ found. IsMeaning (prog_of prog.now) text.now (default_at pos) (numbers_of found)) }
    ensures bounds { IfLimit result (RunMayPass (prog_of prog.now) text.now (default_at pos)) }
{
    let mut scratch = Scratch::new(alloc);
    run(alloc, prog, text, &RunOptions::from_pos(pos), &mut scratch)
}

/// The run ended because it was out of memory.
#[inline(always)]
fn wants_memory<T>(answer: &Result<T, Error>) -> bool {
    matches!(answer, Err(Error::Memory))
}

impl Room {
    ghost use Rattle.fancy_vm.specs.Scratches.{cost_in};

    /// What the delegates of the last run took.
    #[inline(always)]
    pub(crate) fn cost(&self) -> SearchCost
        ensures { result ≡ cost_in self.now.memos }
    {
        match &self.memos {
            None => SearchCost::none(),
            Some(memos) => memos.cost(),
        }
    }

    /// Counts an attempt that failed.
    #[inline(always)]
    fn count_attempt(&mut self)
        ensures { self.new.memos ≡ self.old.memos }
    {
        let visits = match &self.memos {
            None => 0,
            Some(memos) => memos.work(),
        };
        let taken = visits.saturating_sub(self.visits) / VISITS;
        self.visits = visits;
        self.spent = self.spent.saturating_add(taken.saturating_add(1) as usize);
    }

    /// The delegates of this run took nothing yet.
    fn forget_cost(&mut self)
        ensures cost { cost_in self.new.memos ≡ no_cost }
        ensures memos { KeepsMemos self.old.memos self.new.memos }
    {
        self.work = 0;
        if let Some(memos) = &mut self.memos {
            memos.forget_cost();
        }
    }

    /// The answer to an attempt, whose numbers are written over these.
    #[inline(always)]
    fn attempt(&mut self, task: &Task<'_>, numbers: &mut Vec<usize>) -> Result<bool, Error>
        requires fits { IsTrue (run_fits (plain_task task.now)) }
        requires memos { AreMemosIn task.now self.old.memos }
        ensures answers { RunAnswers
            (machine.run (plain_task task.now))
            (answer_in result numbers.new) }
        ensures memos { AreMemosIn task.now self.new.memos }
    {
        let Some(memos) = &mut self.memos else {
            unreachable!()
        };
        match attempt_by_strategy(task, memos)? {
            Found::Match(start, end) => {
                write_pair(task, numbers, start, end)?;
                Ok(true)
            }
            Found::WithGroups(start, end) => {
                write_groups(task, memos, numbers, start, end)?;
                Ok(true)
            }
            Found::NoMatch => {
                self.count_attempt();
                Ok(false)
            }
            Found::Unknown => self.answer(task, numbers),
        }
    }

    /// The machine's answer, whose numbers are written over these.
    #[inline(never)]
    fn answer(&mut self, task: &Task<'_>, numbers: &mut Vec<usize>) -> Result<bool, Error>
        requires fits { IsTrue (run_fits (plain_task task.now)) }
        requires memos { AreMemosIn task.now self.old.memos }
        ensures answers { RunAnswers
            (machine.run (plain_task task.now))
            (answer_in result numbers.new) }
        ensures memos { AreMemosIn task.now self.new.memos }
    {
        let slots = task.prog.parts.slots;
        self.renew_state(slots)?;
        let mut m = Machine::begin(task, self.take_state(slots), Longest::new(self.alloc));
        let Some(memos) = &mut self.memos else {
            unreachable!()
        };
        let answer = m.answer(memos, numbers);
        self.note(&m, wants_memory(&answer));
        let Machine { state, .. } = m;
        self.state = Some(state);
        answer
    }

    /// Nothing is noted of the run.
    #[inline(always)]
    pub(crate) fn renew_memos(&mut self)
        ensures { AreFresh self.new.memos }
    {
        let alloc = self.alloc;
        if let Some(memos) = &mut self.memos {
            memos.restart(alloc);
            return;
        }
        self.memos = Some(Memos::new(alloc));
    }

    /// So many slots are not set.
    #[inline(always)]
    fn renew_state(&mut self, slots: usize) -> Result<(), Error>
        ensures state { OnOk result (IsReady slots self.new.state) }
        ensures memos { self.new.memos ≡ self.old.memos }
        ensures err { IfErr result IsMemory }
    {
        if let Some(state) = &mut self.state {
            if state.slot_count() == slots {
                state.restart(MAX_BRANCHES);
                return Ok(());
            }
        }
        self.make_state(slots)
    }

    /// The same for another number of slots than before.
    #[cold]
    #[inline(never)]
    fn make_state(&mut self, slots: usize) -> Result<(), Error>
        ensures state { OnOk result (IsReady slots self.new.state) }
        ensures memos { self.new.memos ≡ self.old.memos }
        ensures err { IfErr result IsMemory }
    {
        let state = match self.state.take() {
            None => State::new(self.alloc, slots, MAX_BRANCHES)?,
            Some(state) => state.renew(slots, MAX_BRANCHES)?,
        };
        self.state = Some(state);
        Ok(())
    }

    /// Takes out the state that a run begins with.
    #[inline(always)]
    fn take_state(&mut self, slots: usize) -> State
        requires { IsReady slots self.old.state }
        ensures state { result ≡ first_state slots config.most_branches }
        ensures memos { self.new.memos ≡ self.old.memos }
    {
        let Some(state) = self.state.take() else {
            unreachable!()
        };
        state
    }

    /// Notes how much a run did. Where it ended because it was out of memory, and could have added no branch for the limit on
    /// bytes, its bytes count, so that this limit is told.
    #[inline(always)]
    fn note(&mut self, m: &Machine<'_>, wants_memory: bool)
        requires { IsTrue (is_some self.old.memos) }
        ensures told { IsTrue wants_memory
            → IsTrue (exceeds_bytes m.now.task.limits m.now.state)
            → IsTrue (is_past m.now.task.limits.bytes (cost_in self.new.memos).bytes) }
        ensures else_same { exceeds_bytes m.now.task.limits m.now.state ≡ false
            → cost_in self.new.memos ≡ cost_in self.old.memos }
        ensures memos { KeepsMemos self.old.memos self.new.memos }
    {
        if wants_memory && m.exceeds_bytes() {
            self.count_bytes(m.state.bytes());
        }
        let executed = m.task.options.step_limit.saturating_sub(m.left);
        let done = (executed / STEPS).saturating_add(m.backtracks as u64);
        self.work = self.work.saturating_add(done);
    }

    /// The machine of the run held so many bytes.
    #[cold]
    #[inline(never)]
    fn count_bytes(&mut self, bytes: usize)
        requires { IsTrue (is_some self.old.memos) }
        ensures bytes { (cost_in self.new.memos).bytes ≡ max (cost_in self.old.memos).bytes bytes }
        ensures memos { KeepsMemos self.old.memos self.new.memos }
    {
        if let Some(memos) = &mut self.memos {
            memos.count_bytes(bytes);
        }
    }
}
