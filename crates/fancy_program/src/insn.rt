//! Instructions and programs.

ghost use Rattle.std.specs.Prelude.{◌≡◌, List, ◌+◌, ◌-◌, ◌*◌, if◌then◌else◌, min, slice_get, IsTrue, map, length, nat_lt, ◌<◌};
ghost use Rattle.std.specs.List.{list_all};
ghost use Rattle.fancy_meaning.specs.Fits.{answer_fits, flag_fits, instr_fits, is_end_instr, program_fits, slots_fit, targets_fit};
ghost use Rattle.fancy_program.specs.declared.insn.Insn.{Insn};
ghost use Rattle.fancy_program.specs.Insns.{insn_of, prog_with};
ghost use Rattle.fancy_program.specs.Strategies.{IsStrategyOf};

use crate::strategy::Strategy;
use fancy_characters::classes::{CaseiLiteral, CharClassMatcher};
use fancy_characters::look::is_of_end;
use fancy_expr::expr::Assertion;
use fancy_fragments::delegate::Delegate;
use std::sync::Arc;

/// One instruction. Places in the program, and slots, are indices; places in a text are bytes.
#[derive(Drop)]
pub enum Insn {
    /// The match is found.
    End,
    /// Takes any character.
    Any,
    /// Takes any character but LF.
    AnyNoNL,
    /// Takes any character but LF and CR.
    AnyNoCRLF,
    /// Takes this text.
    Lit(String),
    /// Takes these characters, each folded or not.
    LitCasei(CaseiLiteral),
    /// Takes one character of the class, which instructions of one class share.
    CharClass(Arc<CharClassMatcher>),
    /// Fails where the assertion does not hold. One of the text's end that holds sets the text-end flag, if it is there.
    Assertion(Assertion),
    /// Goes on at the first, with a branch at the second.
    Split(usize, usize),
    /// The same; an attempt begins here, and an anchored run has no branch.
    SplitUnanchored(usize, usize),
    /// Goes on there.
    Jmp(usize),
    /// The slot becomes the place in the text.
    Save(usize),
    /// The slot becomes 0.
    Save0(usize),
    /// The slot becomes the place in the text, where the group opens.
    SaveCaptureGroupStart {
        group: usize,
        slot: usize,
    },
    /// The group's pair becomes what the slot holds and the place in the text.
    SaveCaptureGroup {
        group: usize,
        slot: usize,
    },
    /// Goes on at the place in the text that the slot holds.
    Restore(usize),
    /// The head of a greedy loop: `repeat` is the slot that counts, `next` stands after the loop, and `usize::MAX`
    /// is no bound.
    RepeatGr {
        lo: usize,
        hi: usize,
        next: usize,
        repeat: usize,
    },
    /// The same for a lazy loop.
    RepeatNg {
        lo: usize,
        hi: usize,
        next: usize,
        repeat: usize,
    },
    /// The head of a greedy loop without a bound, which an iteration that matches the empty string leaves: `check` is the slot of
    /// the place where the iteration began.
    RepeatEpsilonGr {
        lo: usize,
        next: usize,
        repeat: usize,
        check: usize,
    },
    /// The same for a lazy loop.
    RepeatEpsilonNg {
        lo: usize,
        next: usize,
        repeat: usize,
        check: usize,
    },
    /// Drops the branches to the last one at the next instruction, that one too, and fails with its slots.
    FailNegativeLookAround,
    /// Goes back by characters.
    GoBack(usize),
    /// Takes the text between the two places that the slot and the next slot hold; folded, another of as many bytes.
    Backref {
        slot: usize,
        casei: bool,
        unicode: bool,
    },
    /// Fails where the group was not closed.
    BackrefExistsCondition(usize),
    /// Goes on where the fragment's first way ends, with the pairs of the groups that it sets.
    Delegate(Arc<Delegate>),
    /// At the text's end, and where the fragment has a way, goes on. Else it takes a character and comes here again,
    /// with a branch that goes on from where it was.
    AbsentRepeater(Arc<Delegate>),
    /// Marks how many branches there are.
    BeginAtomic,
    /// Drops the branches since the last mark.
    EndAtomic,
    /// Fails.
    Fail,
    /// Fails where the previous match did not end here.
    ContinueFromPreviousMatchEnd {
        at_start: bool,
    },
    /// Fails where nothing was taken, at the text's end after an LF, and no assertion spoke of the end.
    RejectEmptyMatchAtEOFFollowingNewline,
}

/// What a program is besides its instructions.
#[derive(Clone, Copy, Debug)]
pub struct ProgParts {
    /// The most characters, not bytes, that a match takes; `usize::MAX` is no bound.
    pub max_size: usize,
    /// How many groups the pattern has, group 0 left out where it is implicit.
    pub total_groups: usize,
    /// How many slots a run has.
    pub slots: usize,
    /// The first group has number 0.
    pub explicit_group_0: bool,
    /// The analysis knew that a run may refuse matches that take nothing.
    pub find_not_empty: bool,
    /// The analysis knew that a run may ask for the longest match.
    pub leftmost_longest: bool,
    /// The pattern has a `\K`.
    pub keeps_start: bool,
    /// There is a slot for the text-end flag.
    pub end_text: bool,
    /// The option of that name.
    pub unicode: bool,
}

/// A program: its instructions and parts fit.
pub struct Prog {
    /// Its instructions.
    pub body: Vec<Insn>,
    pub parts: ProgParts,
    /// Which way its attempts take.
    pub strategy: Strategy,
    ghost fits: { IsTrue (program_fits (prog_with body.items parts)) },
    ghost decides: { IsStrategyOf (map insn_of body.items) strategy },
}

// Not derived: whoever owns one calls this drop, and would prove a derived one again (docs/GATE.md).
impl Drop for Prog {
    fn drop(self) {
        let Prog {
            body: _,
            parts: _,
            strategy: _,
        } = self;
    }
}

impl ProgParts {
    /// The last instruction is `End`, every target is below the body's length, there are two slots at least, and every
    /// slot that the body or the answer reads or writes is there.
    pub fn fits(&self, body: &[Insn]) -> bool
        ensures { result ≡ program_fits (prog_with body.now self.now) }
    {
        if !self.answer_fits() {
            return false;
        }
        if !ends(body) {
            return false;
        }
        all_fit(body, self.slots, self.flag_fits())
    }

    /// The slots of the answer are there.
    fn answer_fits(&self) -> bool
        ensures { (body : List Insn) → result ≡ answer_fits (prog_with body self.now) }
    {
        self.slots >= 2 && self.groups() <= self.slots / 2
    }

    /// The slot of the text-end flag is there, if the program has one.
    fn flag_fits(&self) -> bool
        ensures { (body : List Insn) → result ≡ flag_fits (prog_with body self.now) }
    {
        !self.end_text || self.groups() < self.slots - self.slots / 2
    }

    /// How many groups there are with group 0, at most `usize::MAX`.
    fn groups(&self) -> usize
        ensures { result ≡ min usize.MAX (if self.now.explicit_group_0
            then self.now.total_groups else self.now.total_groups + 1) }
    {
        let groups = self.total_groups;
        if self.explicit_group_0 {
            groups
        } else {
            groups.saturating_add(1)
        }
    }
}

/// The last instruction is `End`.
fn ends(body: &[Insn]) -> bool
    ensures { result ≡ is_end_instr
        (slice_get (map insn_of body.now) (length (map insn_of body.now) - 1)) }
{
    matches!(body.last(), Some(Insn::End))
}

/// Every instruction's targets are below the body's length, and its slots are there, the text-end flag's with `flag`.
fn all_fit(body: &[Insn], slots: usize, flag: bool) -> bool
    ensures { result ≡ list_all (λ insn. instr_fits (length body.now) slots flag (insn_of insn))
        body.now }
{
    let len = body.len();
    body.iter().all(|insn| insn.fits(len, slots, flag))
}

/// The slots of a group's pair are among the first so many.
fn is_pair(group: usize, slots: usize) -> bool
    ensures { result ≡ nat_lt (2 * group + 1) slots }
{
    group < slots / 2
}

impl Insn {
    /// The places of the program where it may go on are there, and the slots that it reads or writes.
    fn fits(&self, len: usize, slots: usize, flag: bool) -> bool
        ensures { result ≡ instr_fits len slots flag (insn_of self.now) }
    {
        self.targets_fit(len) && self.slots_fit(slots, flag)
    }

    /// The slots that it reads or writes are there: the first so many are, and with `flag` that of the text-end flag.
    fn slots_fit(&self, slots: usize, flag: bool) -> bool
        ensures { result ≡ slots_fit slots flag (insn_of self.now) }
    {
        match self {
            Insn::Assertion(assertion) => flag || !is_of_end(*assertion),
            Insn::RejectEmptyMatchAtEOFFollowingNewline => flag,
            Insn::Save(slot) => *slot < slots,
            Insn::Save0(slot) => *slot < slots,
            Insn::Restore(slot) => *slot < slots,
            Insn::SaveCaptureGroupStart { slot, .. } => *slot < slots,
            Insn::SaveCaptureGroup { group, slot } => *slot < slots && is_pair(*group, slots),
            Insn::RepeatGr { repeat, .. } => *repeat < slots,
            Insn::RepeatNg { repeat, .. } => *repeat < slots,
            Insn::RepeatEpsilonGr { repeat, check, .. } => *repeat < slots && *check < slots,
            Insn::RepeatEpsilonNg { repeat, check, .. } => *repeat < slots && *check < slots,
            Insn::Backref { slot, .. } => *slot < slots.saturating_sub(1),
            Insn::BackrefExistsCondition(group) => is_pair(*group, slots),
            Insn::Delegate(delegate) => delegate.fragment().fits(slots),
            _ => true,
        }
    }

    /// The places of the program where it may go on are below the body's length.
    fn targets_fit(&self, len: usize) -> bool
        ensures { result ≡ targets_fit len (insn_of self.now) }
    {
        match self {
            Insn::Split(first, second) => *first < len && *second < len,
            Insn::SplitUnanchored(first, second) => *first < len && *second < len,
            Insn::Jmp(to) => *to < len,
            Insn::RepeatGr { next, .. } => *next < len,
            Insn::RepeatNg { next, .. } => *next < len,
            Insn::RepeatEpsilonGr { next, .. } => *next < len,
            Insn::RepeatEpsilonNg { next, .. } => *next < len,
            _ => true,
        }
    }
}
