//! What programs are made of and answer.

ghost use Rattle.std.specs.Prelude.{◌≡◌, IsTrue, map};
ghost use Rattle.fancy_meaning.specs.Machine as machine;
ghost use Rattle.fancy_meaning.specs.Fits.{program_fits};
ghost use Rattle.fancy_program.specs.Insns.{insn_of, prog_with};
ghost use Rattle.fancy_program.specs.Programs.{prog_of};

use crate::insn::{Insn, Prog, ProgParts};
use crate::strategy::Strategy;
use crate::threads::{crosses_threads, is_shared_by_threads};

impl Prog {
    /// A program of these instructions and parts, which have to fit (`ProgParts::fits`). It keeps exactly what it is
    /// handed, and takes no memory.
    pub fn new(body: Vec<Insn>, parts: ProgParts) -> Prog
        requires { IsTrue (program_fits (prog_with body.items parts)) }
        ensures body { result.body ≡ body }
        ensures parts { result.parts ≡ parts }
        ensures prog { prog_of result ≡ prog_with body.items parts }
    {
        crosses_threads::<Prog>();
        is_shared_by_threads::<Prog>();
        let insns: &[Insn] = &body;
        let strategy = Strategy::of(insns);
        Prog {
            body,
            parts,
            strategy,
        }
    }

    /// The instructions.
    pub fn body(&self) -> &[Insn]
        ensures body { map insn_of result.now ≡ (prog_of self.now).body }
        ensures items { result.now ≡ self.now.body.items }
    {
        &self.body
    }

    /// The most characters, not bytes, that a match takes; `usize::MAX` is no bound.
    pub fn max_size(&self) -> usize
        ensures { result ≡ (prog_of self.now).max_size }
    {
        self.parts.max_size
    }

    /// How many groups the pattern has, group 0 left out where it is implicit.
    pub fn total_groups(&self) -> usize
        ensures { result ≡ (prog_of self.now).total_groups }
    {
        self.parts.total_groups
    }

    /// The first group of the pattern has number 0, and there is no implicit one.
    pub fn explicit_group_0(&self) -> bool
        ensures { result ≡ (prog_of self.now).explicit_group_0 }
    {
        self.parts.explicit_group_0
    }

    /// The analysis knew that a run may refuse matches that take nothing.
    pub fn find_not_empty(&self) -> bool
        ensures { result ≡ (prog_of self.now).find_not_empty }
    {
        self.parts.find_not_empty
    }

    /// The analysis knew that a run may ask for the longest match.
    pub fn leftmost_longest(&self) -> bool
        ensures { result ≡ (prog_of self.now).leftmost_longest }
    {
        self.parts.leftmost_longest
    }

    /// The pattern has a `\K`, so that a match may be said to start later than where it was tried.
    pub fn keeps_start(&self) -> bool
        ensures { result ≡ (prog_of self.now).keeps_start }
    {
        self.parts.keeps_start
    }

    /// The slot of the text-end flag, and how many slots stand before it.
    pub fn flag_slot(&self) -> usize
        ensures { result ≡ machine.flag_slot (prog_of self.now) }
    {
        let parts = &self.parts;
        let _slots = parts.slots;
        2 * if parts.explicit_group_0 {
            parts.total_groups
        } else {
            parts.total_groups + 1
        }
    }
}
