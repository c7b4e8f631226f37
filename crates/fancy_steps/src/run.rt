//! The run of a machine, and what it answers.

ghost use Rattle.std.specs.Prelude.{◌≡◌, IsTrue, IsUtf8, false};
ghost use Rattle.fancy_meaning.specs.Machine as machine;
ghost use Rattle.fancy_meaning.specs.Places.{is_place};
ghost use Rattle.fancy_steps.specs.Memos.{AreMemosOf};
ghost use Rattle.fancy_steps.specs.Outcomes.{RunEnds, RunAnswers, answer_in, config_of, ending, plain_task};

use crate::machine::{Machine, Next, Stop};
use crate::memos::Memos;
use fancy_expr::error::{Error, RuntimeError};
use fancy_program::insn::Insn;

impl Machine<'_> {
    /// Steps until the match of the slots is to be answered, or the run ends: then the match that is held is to be
    /// answered, or none.
    #[inline(never)]
    fn run(&mut self, memos: &mut Memos) -> Result<bool, Stop>
        requires begins { config_of self.old ≡ machine.begin (plain_task self.old.task) }
        requires text { IsUtf8 self.old.task.text.now }
        requires place { IsTrue (is_place self.old.task.text.now self.old.task.options.now.pos) }
        requires memos { AreMemosOf self.old.task memos.old }
        ensures task { self.new.task ≡ self.old.task }
        ensures finds { RunEnds (machine.run (plain_task self.old.task)) result self.new }
        ensures memos { AreMemosOf self.old.task memos.new }
    {
        let mut left = self.task.options.step_limit;
        let prog = self.task.prog;
        let body: &[Insn] = &prog.body;
        'steps: while left > 0 {
            left -= 1;
            match self.step(body, memos)? {
                Next::On => {}
                Next::Fails => unreachable!(),
                Next::Matches => {
                    self.left = left;
                    return Ok(true);
                }
                Next::Ends => {
                    self.left = left;
                    return Ok(false);
                }
            }
        }
        Err(Stop::Limit(RuntimeError::StepLimitExceeded))
    }

    /// Writes the numbers that the run answers over these.
    pub fn answer(&mut self, memos: &mut Memos, numbers: &mut Vec<usize>) -> Result<bool, Error>
        requires begins { config_of self.old ≡ machine.begin (plain_task self.old.task) }
        requires text { IsUtf8 self.old.task.text.now }
        requires place { IsTrue (is_place self.old.task.text.now self.old.task.options.now.pos) }
        requires memos { AreMemosOf self.old.task memos.old }
        ensures answers { RunAnswers
            (machine.run (plain_task self.old.task))
            (answer_in result numbers.new) }
        ensures memos { AreMemosOf self.old.task memos.new }
    {
        let by_slots = self.run(memos)?;
        self.write_ending(by_slots, numbers)
    }

    /// Writes the numbers of a run that ends here over these: of the slots, or else of the match that is held, if one
    /// is. Tells whether there is a match.
    pub fn write_ending(&self, by_slots: bool, numbers: &mut Vec<usize>) -> Result<bool, Error>
        ensures { RunAnswers (ending by_slots self.now) (answer_in result numbers.new) }
    {
        if !by_slots {
            return Ok(self.longest.copy_numbers(numbers)?);
        }
        self.copy_numbers(numbers)?;
        Ok(true)
    }
}
