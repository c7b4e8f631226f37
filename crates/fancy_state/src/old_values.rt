//! Cells, and what they held before they were changed.

ghost use Rattle.std.specs.Prelude.{◌≡◌, [], ◌∷◌, ◌+◌, ◌++◌, ◌<◌, ◌≤◌, IsTrue, is_ok, if◌then◌else◌, length, drop, take, slice_set, OnOk, OnErr, IfOk, MatchOption};
ghost use Rattle.fancy_state.specs.OldValues.{Agrees, IsSettled, values_of, first_cells};

use std::alloc::{AllocError, Global};
use std::marker::Model;

/// What a cell held before a change.
#[derive(Clone, Copy)]
pub(crate) struct Old {
    value: usize,
    cell: u32,
    /// Where the cell was logged before, if it was, by its lower 32 bits: a hint.
    before: u32,
}

/// There are never more cells: what would need more counts as out of memory, since these take 64 GiB.
const MOST_CELLS: usize = 1 << 32;

/// Cells, and a log of what they held before they were changed.
#[derive(Drop)]
pub(crate) struct Cells {
    values: Vec<usize>,
    /// Where each cell was last logged.
    places: Vec<usize>,
    log: Vec<Old>,
}

impl Model for Cells {
    ghost use Rattle.fancy_state.specs.OldValues.{Cells};

    ghost Value = { Cells };

    ghost use Rattle.fancy_state.specs.CellsView.{cells_in, AreLogged};

    ghost view = { cells_in };

    ghost invariant = { AreLogged };
}

/// The cell's last change is logged at this place, since the mark.
fn is_logged(log: &[Old], mark: usize, place: usize, cell: u32) -> bool
    ensures { IsTrue result → IsSettled (drop mark log.now) cell }
{
    mark <= place && place < log.len() && log[place].cell == cell
}

/// Adds an old value to the log. Where the log has to grow it does so apart from here, which is seldom.
#[inline(always)]
fn push(log: &mut Vec<Old>, old: Old) -> Result<(), AllocError>
    ensures items { log.new.items
        ≡ (if is_ok result then log.old.items ++ old ∷ [] else log.old.items) }
{
    if log.len() == log.capacity() {
        return push_and_grow(log, old);
    }
    Ok(log.push(old)?)
}

#[cold]
#[inline(never)]
fn push_and_grow(log: &mut Vec<Old>, old: Old) -> Result<(), AllocError>
    ensures items { log.new.items
        ≡ (if is_ok result then log.old.items ++ old ∷ [] else log.old.items) }
{
    Ok(log.push(old)?)
}

impl Cells {
    /// So many cells that hold `usize::MAX`, and one that holds 0.
    pub(crate) fn new(alloc: Global, count: usize) -> Result<Cells, AllocError>
        ensures ok { IfOk result (λ cells. cells ≡ first_cells count) }
    {
        if count >= MOST_CELLS {
            return Err(AllocError);
        }
        let mut values = vec![in alloc; usize::MAX; count]?;
        values.push(0)?;
        let places = vec![in alloc; 0; values.len()]?;
        Ok(Cells {
            values,
            places,
            log: Vec::new(alloc),
        })
    }

    /// Makes them as `new` does, in the memory that they have.
    #[inline(never)]
    pub(crate) fn renew(self, count: usize) -> Result<Cells, AllocError>
        ensures ok { IfOk result (λ cells. cells ≡ first_cells count) }
    {
        if count >= MOST_CELLS {
            return Err(AllocError);
        }
        let Cells {
            mut values,
            mut places,
            mut log,
        } = self;
        values.clear();
        values.resize(count, usize::MAX)?;
        values.push(0)?;
        places.clear();
        places.resize(values.len(), 0)?;
        log.clear();
        Ok(Cells {
            values,
            places,
            log,
        })
    }

    /// Makes them as `new` does, where so many and one more are there. It takes no memory.
    pub(crate) fn restart(&mut self, count: usize)
        requires { count < length self.old.values }
        ensures { self.new ≡ first_cells count }
    {
        self.log.clear();
        self.values.truncate(count + 1);
        self.values.fill(usize::MAX);
        self.values[count] = 0;
    }

    /// What a cell holds.
    pub(crate) fn get(&self, cell: usize) -> usize
        requires { cell < length self.now.values }
        ensures value { result ≡ values_of self.now.values cell }
        ensures fits { length self.now.values ≤ usize.MAX }
    {
        self.values[cell]
    }

    /// Writes what the first cells hold over these numbers.
    pub(crate) fn copy_first(
        &self,
        count: usize,
        numbers: &mut Vec<usize>,
    ) -> Result<(), AllocError>
        requires { count ≤ length self.now.values }
        ensures { OnOk result (numbers.new.items ≡ take count self.now.values) }
    {
        numbers.clear();
        numbers.extend_from_slice(&self.values[..count])?;
        Ok(())
    }

    /// How many old values are logged.
    pub(crate) fn mark(&self) -> usize
        ensures { result ≡ length self.now.log }
    {
        self.log.len()
    }

    /// Changes a cell. Where there is a mark, what it held is logged, once since then.
    #[inline(always)]
    pub(crate) fn set(
        &mut self,
        mark: Option<usize>,
        cell: usize,
        value: usize,
    ) -> Result<(), AllocError>
        requires cell { cell < length self.old.values }
        requires mark { MatchOption mark (Unit {0}) (λ m. m ≤ length self.old.log) }
        ensures value { OnOk result (self.new.values ≡ slice_set self.old.values cell value) }
        ensures agrees { OnOk result (MatchOption mark (Unit {0}) (λ m. Agrees m
            self.old.log (values_of self.old.values) self.new.log (values_of self.new.values))) }
        ensures longer { length self.old.log ≤ length self.new.log }
        ensures by_one { length self.new.log ≤ length self.old.log + 1 }
        ensures err { OnErr result (self.new ≡ self.old) }
    {
        match mark {
            None => {}
            Some(mark) => {
                let before = self.places[cell];
                if !is_logged(&self.log, mark, before, cell as u32) {
                    let place = self.log.len();
                    let value = self.values[cell];
                    let old = Old {
                        value,
                        cell: cell as u32,
                        before: (before % (1 << 32)) as u32,
                    };
                    push(&mut self.log, old)?;
                    self.places[cell] = place;
                }
            }
        }
        self.values[cell] = value;
        Ok(())
    }

    /// Sees to it that the cell is there.
    pub(crate) fn make_room(&mut self, cell: usize) -> Result<(), AllocError>
        requires { cell ≤ length self.old.values }
        ensures cell { OnOk result (cell < length self.new.values) }
        ensures same { values_of self.new.values ≡ values_of self.old.values }
        ensures log { self.new.log ≡ self.old.log }
        ensures longer { length self.old.values ≤ length self.new.values }
    {
        if cell < self.values.len() {
            return Ok(());
        }
        if cell >= MOST_CELLS {
            return Err(AllocError);
        }
        self.places.push(0)?;
        self.values.push(0)?;
        Ok(())
    }

    /// Gives the cells their old values back, until so many are logged.
    pub(crate) fn unwind(&mut self, mark: usize)
        requires { mark ≤ length self.old.log }
        ensures agrees { Agrees mark
            self.old.log (values_of self.old.values) self.new.log (values_of self.new.values) }
        ensures log { length self.new.log ≡ mark }
        ensures values { length self.new.values ≡ length self.old.values }
    {
        'undo: while self.log.len() > mark {
            let Some(old) = self.log.pop() else {
                unreachable!()
            };
            self.values[old.cell as usize] = old.value;
            self.places[old.cell as usize] = old.before as usize;
        }
    }

    /// Joins what was logged from `first` on with what was logged since the mark, and keeps the first old value of a
    /// cell.
    pub(crate) fn join(&mut self, mark: usize, first: usize)
        requires mark { mark ≤ first }
        requires first { first ≤ length self.old.log }
        ensures values { self.new.values ≡ self.old.values }
        ensures agrees { Agrees mark
            self.old.log (values_of self.old.values) self.new.log (values_of self.old.values) }
        ensures longer { mark ≤ length self.new.log }
        ensures shorter { length self.new.log ≤ length self.old.log }
    {
        let mut kept = first;
        'join: for next in first..self.log.len() {
            let old = self.log[next];
            let cell = old.cell as usize;
            let before = old.before as usize;
            let place = if before < first {
                before
            } else {
                self.places[cell]
            };
            if is_logged(&self.log[..kept], mark, place, old.cell) {
                self.places[cell] = place;
            } else {
                self.log[kept] = old;
                self.places[cell] = kept;
                kept += 1;
            }
        }
        self.log.truncate(kept);
    }

    /// Forgets the old values.
    pub(crate) fn forget(&mut self)
        ensures values { self.new.values ≡ self.old.values }
        ensures log { self.new.log ≡ [] }
    {
        self.log.clear();
    }
}
