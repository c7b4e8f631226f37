//! Slots, an explicit stack, and the branches that a run can backtrack to.

ghost use Rattle.std.specs.Prelude.{◌≡◌, ◌+◌, ◌-◌, ◌<◌, ◌≤◌, [], ◌∷◌, None, Some, min, nat_le, nat_lt, length, drop, take, reverse, slice_index, slice_set, IfOk, OnOk, OnErr, IfErr, MatchOption};
ghost use Rattle.fancy_state.specs.Held.{below, state_bytes, first_state, held_branch};
ghost use Rattle.fancy_state.specs.Refused.{IsRefused, IsMemory};
ghost use Rattle.fancy_state.specs.OldValues.{IsNewest};

use crate::old_values::Cells;
use fancy_expr::error::{Error, RuntimeError};
use std::alloc::{AllocError, Global};
use std::marker::Model;

/// How many bytes a branch holds.
const BRANCH: usize = 24;

/// How many bytes a change holds that is logged.
const CHANGE: usize = 16;

/// What a failure backtracks to.
#[derive(Drop)]
pub(crate) struct Branch {
    pc: usize,
    ix: usize,
    /// How many old values were logged.
    mark: usize,
}

/// Slots, an explicit stack and branches. The slots and the stack are cells; what a cell held before a change is logged
/// once for each branch, and `pop` takes it back.
pub struct State {
    alloc: Global,
    slot_count: usize,
    /// The slots, then how many entries the explicit stack has, then these, and room that is never given back.
    cells: Cells,
    branches: Vec<Branch>,
    max_stack: usize,
}

// Not derived: whoever owns one calls this drop, and would prove a derived one again (docs/GATE.md).
impl Drop for State {
    fn drop(self) {
        let State {
            alloc: _,
            slot_count: _,
            cells: _,
            branches: _,
            max_stack: _,
        } = self;
    }
}

impl Model for State {
    ghost use Rattle.fancy_state.specs.Held.{StateView};

    ghost Value = { StateView };

    ghost use Rattle.fancy_state.specs.View.{state_view, IsLogged};

    ghost view = { state_view };

    ghost invariant = { IsLogged };
}

/// The mark of the newest branch.
fn newest_mark(branches: &[Branch]) -> Option<usize>
    ensures { MatchOption result (reverse branches.now ≡ [])
        (λ m. IsNewest m (reverse branches.now)) }
{
    match branches.last() {
        None => None,
        Some(branch) => Some(branch.mark),
    }
}

impl State {
    /// A state of `n_saves` slots that are not set, which may hold `max_stack` branches. `Memory` where a request for
    /// memory was refused, as one for 2^32 slots is.
    pub fn new(alloc: Global, n_saves: usize, max_stack: usize) -> Result<State, Error>
        ensures ok { IfOk result (λ s. s ≡ first_state n_saves max_stack) }
        ensures err { IfErr result IsMemory }
    {
        Ok(State {
            alloc,
            slot_count: n_saves,
            cells: Cells::new(alloc, n_saves)?,
            branches: Vec::new(alloc),
            max_stack,
        })
    }

    /// Makes it as `new` does, in the memory that it has.
    #[inline(always)]
    pub fn renew(self, n_saves: usize, max_stack: usize) -> Result<State, Error>
        ensures ok { IfOk result (λ s. s ≡ first_state n_saves max_stack) }
        ensures err { IfErr result IsMemory }
    {
        let State {
            alloc,
            slot_count,
            mut cells,
            mut branches,
            max_stack: _,
        } = self;
        branches.clear();
        if n_saves == slot_count {
            cells.restart(n_saves);
            return Ok(State {
                alloc,
                slot_count,
                cells,
                branches,
                max_stack,
            });
        }
        Ok(State {
            alloc,
            slot_count: n_saves,
            cells: cells.renew(n_saves)?,
            branches,
            max_stack,
        })
    }

    /// How many slots there are.
    pub fn slot_count(&self) -> usize
        ensures { result ≡ length self.now.held.slots }
    {
        self.slot_count
    }

    /// Makes it as `new` does, with as many slots as it has. It takes no memory.
    #[inline(always)]
    pub fn restart(&mut self, max_stack: usize)
        ensures { self.new ≡ first_state (length self.old.held.slots) max_stack }
    {
        self.branches.clear();
        self.max_stack = max_stack;
        self.cells.restart(self.slot_count);
    }

    /// Adds a branch at a place of the program and a byte of the text; it keeps the slots and the explicit stack.
    /// `StackOverflow` exactly where `max_stack` branches are held, and `Memory` where an allocation failed;
    /// the state is then as before.
    pub fn push(&mut self, pc: usize, ix: usize) -> Result<(), Error>
        ensures room { OnOk result (length self.old.held.branches < self.old.held.max_stack) }
        ensures ok { OnOk result (self.new.held ≡ record self.old.held {
          branches = held_branch pc ix self.old.held ∷ self.old.held.branches;
        }) }
        ensures logged { self.new.logged ≡ self.old.logged }
        ensures refused { IfErr result (IsRefused (length self.old.held.branches) self.old.held.max_stack) }
        ensures err { OnErr result (self.new ≡ self.old) }
    {
        if self.is_full() {
            return Err(Error::RuntimeError(RuntimeError::StackOverflow));
        }
        Ok(self.add_branch(pc, ix)?)
    }

    /// As many branches are held as may be.
    pub fn is_full(&self) -> bool
        ensures { result ≡ nat_le self.now.held.max_stack (length self.now.held.branches) }
    {
        self.backtrack_count() >= self.max_stack
    }

    /// Adds a branch as `push` does, where there is room for it.
    pub fn add_branch(&mut self, pc: usize, ix: usize) -> Result<(), AllocError>
        requires { length self.old.held.branches < self.old.held.max_stack }
        ensures ok { OnOk result (self.new.held ≡ record self.old.held {
          branches = held_branch pc ix self.old.held ∷ self.old.held.branches;
        }) }
        ensures logged { self.new.logged ≡ self.old.logged }
        ensures err { OnErr result (self.new ≡ self.old) }
    {
        let mark = self.cells.mark();
        self.branches.push(Branch { pc, ix, mark })?;
        Ok(())
    }

    /// Takes the last branch off, with its slots and its explicit stack, and answers its places in the program and in
    /// the text. There has to be one. It takes no memory.
    #[inline(always)]
    pub fn pop(&mut self) -> (usize, usize)
        requires { 0 < length self.old.held.branches }
        ensures branch { self.old.held.branches
            ≡ held_branch result.0 result.1 self.new.held ∷ self.new.held.branches }
        ensures slots { length self.new.held.slots ≡ length self.old.held.slots }
        ensures max_stack { self.new.held.max_stack ≡ self.old.held.max_stack }
        ensures logged { self.new.logged ≤ self.old.logged }
    {
        let Some(Branch { pc, ix, mark }) = self.branches.pop() else {
            unreachable!()
        };
        self.cells.unwind(mark);
        (pc, ix)
    }

    /// Sets a slot, one of the first `n_saves`. `Memory` where an allocation failed; the state is then as
    /// before.
    pub fn save(&mut self, slot: usize, value: usize) -> Result<(), Error>
        requires { slot < length self.old.held.slots }
        ensures ok { OnOk result (self.new.held ≡ record self.old.held {
          slots = slice_set self.old.held.slots slot value;
        }) }
        ensures logged { self.new.logged ≤ self.old.logged + 1 }
        ensures refused { IfErr result IsMemory }
        ensures err { OnErr result (self.new ≡ self.old) }
    {
        Ok(self.set_slot(slot, value)?)
    }

    /// Sets a slot as `save` does.
    #[inline(always)]
    pub fn set_slot(&mut self, slot: usize, value: usize) -> Result<(), AllocError>
        requires { slot < length self.old.held.slots }
        ensures ok { OnOk result (self.new.held ≡ record self.old.held {
          slots = slice_set self.old.held.slots slot value;
        }) }
        ensures logged { self.new.logged ≤ self.old.logged + 1 }
        ensures err { OnErr result (self.new ≡ self.old) }
    {
        let mark = newest_mark(&self.branches);
        self.cells.set(mark, slot, value)?;
        Ok(())
    }

    /// What a slot holds, one of the first `n_saves`; `usize::MAX` where it was not set.
    pub fn get(&self, slot: usize) -> usize
        requires { slot < length self.now.held.slots }
        ensures { result ≡ slice_index self.now.held.slots slot }
    {
        self.cells.get(slot)
    }

    /// Writes the first slots as numbers over these, in the memory that they have.
    pub fn copy_slots(&self, count: usize, numbers: &mut Vec<usize>) -> Result<(), AllocError>
        requires { count ≤ length self.now.held.slots }
        ensures { OnOk result (numbers.new.items ≡ take count self.now.held.slots) }
    {
        self.cells.copy_first(count, numbers)?;
        Ok(())
    }

    /// Adds an entry to the explicit stack. `Memory` where an allocation failed; the state is then as before.
    pub fn stack_push(&mut self, value: usize) -> Result<(), Error>
        ensures ok { OnOk result
            (self.new.held ≡ record self.old.held { stack = value ∷ self.old.held.stack }) }
        ensures logged { self.new.logged ≤ self.old.logged + 2 }
        ensures refused { IfErr result IsMemory }
        ensures err { OnErr result (self.new.held ≡ self.old.held) }
    {
        Ok(self.add_entry(value)?)
    }

    /// Adds an entry to the explicit stack as `stack_push` does.
    pub fn add_entry(&mut self, value: usize) -> Result<(), AllocError>
        ensures ok { OnOk result
            (self.new.held ≡ record self.old.held { stack = value ∷ self.old.held.stack }) }
        ensures logged { self.new.logged ≤ self.old.logged + 2 }
        ensures err { OnErr result (self.new.held ≡ self.old.held) }
    {
        let count = self.cells.get(self.slot_count);
        let entry = self.slot_count + 1 + count;
        self.cells.make_room(entry)?;
        let mark = newest_mark(&self.branches);
        self.cells.set(mark, entry, value)?;
        self.cells.set(mark, self.slot_count, count + 1)?;
        Ok(())
    }

    /// Takes the last entry off the explicit stack. There has to be one. `Memory` where an allocation failed;
    /// the state is then as before.
    pub fn stack_pop(&mut self) -> Result<usize, Error>
        requires { 0 < length self.old.held.stack }
        ensures ok { IfOk result (λ value.
            self.old.held ≡ record self.new.held { stack = value ∷ self.new.held.stack }) }
        ensures logged { self.new.logged ≤ self.old.logged + 1 }
        ensures refused { IfErr result IsMemory }
        ensures err { OnErr result (self.new ≡ self.old) }
    {
        Ok(self.take_entry()?)
    }

    /// Takes the last entry off the explicit stack as `stack_pop` does.
    pub fn take_entry(&mut self) -> Result<usize, AllocError>
        requires { 0 < length self.old.held.stack }
        ensures ok { IfOk result (λ value.
            self.old.held ≡ record self.new.held { stack = value ∷ self.new.held.stack }) }
        ensures logged { self.new.logged ≤ self.old.logged + 1 }
        ensures err { OnErr result (self.new ≡ self.old) }
    {
        let count = self.cells.get(self.slot_count);
        let value = self.cells.get(self.slot_count + count);
        let mark = newest_mark(&self.branches);
        self.cells.set(mark, self.slot_count, count - 1)?;
        Ok(value)
    }

    /// The explicit stack has an entry.
    pub fn has_entry(&self) -> bool
        ensures { result ≡ nat_lt 0 (length self.now.held.stack) }
    {
        self.cells.get(self.slot_count) > 0
    }

    /// How many branches stand before the last one that has this place of the program.
    pub fn count_before(&self, pc: usize) -> Option<usize>
        ensures { MatchOption result (below pc self.now.held.branches ≡ None)
            (λ n. (n ≤ length self.now.held.branches) × (below pc self.now.held.branches
            ≡ Some (drop (length self.now.held.branches - n) self.now.held.branches))) }
    {
        let mut count = self.branches.len();
        while count > 0 {
            count -= 1;
            if self.branches[count].pc == pc {
                return Some(count);
            }
        }
        None
    }

    /// How many branches are held.
    pub fn backtrack_count(&self) -> usize
        ensures { result ≡ length self.now.held.branches }
    {
        self.branches.len()
    }

    /// How many bytes the branches and the log hold, each entry by its size, which is 24 for a branch. With what vectors
    /// keep spare it may be twice as much.
    pub fn bytes(&self) -> usize
        ensures { result ≡ min usize.MAX (state_bytes self.now) }
    {
        let branches = self.backtrack_count().saturating_mul(BRANCH);
        branches.saturating_add(self.cells.mark().saturating_mul(CHANGE))
    }

    /// Keeps the first `count` branches, of which there are so many, the slots and the explicit stack: each kept branch
    /// still has its own. It takes no memory.
    pub fn backtrack_cut(&mut self, count: usize)
        requires { count ≤ length self.old.held.branches }
        ensures held { self.new.held ≡ record self.old.held {
          branches = drop (length self.old.held.branches - count) self.old.held.branches;
        } }
        ensures logged { self.new.logged ≤ self.old.logged }
    {
        if count >= self.branches.len() {
            return;
        }
        let first = self.branches[count].mark;
        self.branches.truncate(count);
        match newest_mark(&self.branches) {
            None => self.cells.forget(),
            Some(mark) => self.cells.join(mark, first),
        }
    }
}
