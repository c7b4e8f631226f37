//! What searches and one-pass matches of delegates have noted, for later ones of the same run.

ghost use Rattle.std.specs.Prelude.{◌≡◌, ◌<◌, ◌+◌, ◌*◌, ◌/◌, if◌then◌else◌, min, nat_lt, Some, None, length, max, slice_get, slice_set, IfOk, IsTrue, OnOk};
ghost use Rattle.fancy_meaning.specs.Places.{is_place};
ghost use Rattle.fancy_fragments.specs.Fragments.{IsFirstWayOf, IsOnePassOf, IsOnePassWayOf};
ghost use Rattle.fancy_nfa.specs.GroupSpans.{spans_in};
ghost use Rattle.fancy_nfa.specs.Ways.{HasAscending};
ghost use Rattle.fancy_steps.specs.MemoRuns.{AddsNoMemo, AreOfRuns};
ghost use Rattle.fancy_steps.specs.SearchLimits.{visit_cost};

use crate::machine::Task;
use crate::search_limits::SearchCost;
use crate::walks::{FREE_PASSES, passed};
use fancy_backtrack::memo::Memo;
use fancy_expr::error::Error;
use fancy_fragments::fragment::Fragment;
use fancy_nfa::first_way::FirstWay;
use fancy_nfa::group_spans::GroupSpans;
use fancy_nfa::one_pass::OnePass;
use std::alloc::{AllocError, Global};

/// So often one pass over fragments with groups may tell nothing in a run.
const MOST_UNKNOWN: usize = 16;

/// What is noted of a delegate, and the run that noted it.
#[derive(Drop)]
pub(crate) struct RunMemo {
    /// In a box since it goes to a search and back.
    memo: Box<Memo>,
    run: u64,
}

/// By the place of a delegate in a program, what is noted of it. Of a note of an earlier run only the room of its memo is
/// used again.
pub struct Memos {
    by_place: Vec<Option<RunMemo>>,
    /// The number of this run.
    run: u64,
    /// What its searches took, and what its walks did beyond what is free.
    cost: SearchCost,
    /// What its walks and comparisons cost, in visits.
    read: usize,
    /// The groups of the last way that took one pass, or was found by `held_way`.
    groups: GroupSpans,
    /// How often one pass over a fragment with groups told nothing in this run.
    unknown: usize,
    ghost of_runs: { AreOfRuns run by_place.items },
}

// Not derived: whoever owns one calls this drop, and would prove a derived one again (docs/GATE.md).
impl Drop for Memos {
    fn drop(self) {
        let Memos {
            by_place: _,
            run: _,
            cost: _,
            read: _,
            groups: _,
            unknown: _,
        } = self;
    }
}

/// Makes room up to this place.
fn grow(by_place: &mut Vec<Option<RunMemo>>, pc: usize) -> Result<(), AllocError>
    ensures room { OnOk result (pc < length by_place.new.items) }
    ensures same { AddsNoMemo by_place.old.items by_place.new.items }
{
    'places: while by_place.len() <= pc {
        by_place.push(None)?;
    }
    Ok(())
}

/// Takes the note at this place out.
fn take_out(by_place: &mut Vec<Option<RunMemo>>, pc: usize) -> Option<RunMemo>
    requires { pc < length by_place.old.items }
    ensures found { slice_get by_place.old.items pc ≡ Some result }
    ensures rest { by_place.new.items ≡ slice_set by_place.old.items pc None }
{
    by_place[pc].take()
}

impl Memos {
    ghost use Rattle.fancy_steps.specs.declared.machine.Task as tasks;
    ghost use Rattle.fancy_steps.specs.Memos.{AreMemosOf, IsNoteOf, fragment_at};
    ghost use Rattle.fancy_steps.specs.SearchLimits.{is_past, no_cost};

    /// Nothing is noted.
    pub fn new(alloc: Global) -> Memos
        ensures { (task : tasks.Task) → AreMemosOf task result }
    {
        Memos {
            by_place: Vec::new(alloc),
            run: 0,
            cost: SearchCost::none(),
            read: 0,
            groups: GroupSpans::new(alloc),
            unknown: 0,
        }
    }

    /// What the searches of this run took.
    pub fn cost(&self) -> SearchCost
        ensures { result ≡ self.now.cost }
    {
        self.cost
    }

    /// The searches of this run took nothing yet.
    pub fn forget_cost(&mut self)
        ensures cost { self.new.cost ≡ no_cost }
        ensures memos { (task : tasks.Task) → AreMemosOf task self.old → AreMemosOf task self.new }
    {
        self.cost = SearchCost::none();
        self.read = 0;
    }

    /// What the searches, walks and comparisons of this run cost so far, in visits.
    pub fn work(&self) -> u64 {
        self.cost.visits.saturating_add(self.read as u64)
    }

    /// Counts what a walk or a comparison of this run cost, in visits.
    #[inline(always)]
    pub(crate) fn count_read(&mut self, read: usize)
        ensures memos { (task : tasks.Task) → AreMemosOf task self.old → AreMemosOf task self.new }
        ensures read { self.new.read ≡ min usize.MAX (self.old.read + read) }
        ensures groups { self.new.groups ≡ self.old.groups }
    {
        self.read = self.read.saturating_add(read);
    }

    /// What was counted so, once it is more than is free; then it is counted as visits, and else nothing yet.
    #[inline(always)]
    fn due(&self, task: &Task<'_>) -> usize
        ensures { result ≡ (if nat_lt (length task.now.text.now) (self.now.read / FREE_PASSES)
            then self.now.read else 0) }
    {
        if self.read / FREE_PASSES > task.text.len() {
            self.read
        } else {
            0
        }
    }

    /// The run has more visits than its limit allows.
    #[inline(always)]
    pub(crate) fn are_too_many(&mut self, task: &Task<'_>) -> bool
        ensures past { result ≡ is_past task.now.limits.visits self.new.cost.visits }
        ensures memos { (t : tasks.Task) → AreMemosOf t self.old → AreMemosOf t self.new }
        ensures groups { self.new.groups ≡ self.old.groups }
    {
        let due = self.due(task);
        self.read = self.read.saturating_sub(due);
        self.cost.visits = self.cost.visits.saturating_add(due as u64);
        match task.limits.visits {
            None => false,
            Some(most) => most < self.cost.visits,
        }
    }

    /// The machine of this run holds so many bytes besides. What is more counts.
    pub fn count_bytes(&mut self, bytes: usize)
        ensures visits { self.new.cost.visits ≡ self.old.cost.visits }
        ensures bytes { self.new.cost.bytes ≡ max self.old.cost.bytes bytes }
        ensures memos { (task : tasks.Task) → AreMemosOf task self.old → AreMemosOf task self.new }
    {
        self.cost.bytes = self.cost.bytes.max(bytes);
    }

    /// For another run, of which nothing is noted yet. What was taken up counts on.
    #[inline(always)]
    pub fn restart(&mut self, alloc: Global)
        ensures { (task : tasks.Task) → AreMemosOf task self.new }
    {
        self.cost.bytes = 0;
        self.unknown = 0;
        match self.run.checked_add(1) {
            None => *self = Memos::new(alloc),
            Some(run) => self.run = run,
        }
    }

    /// A search noted something of the delegate there in this run.
    #[inline(always)]
    fn has_noted(&self, pc: usize) -> bool {
        match self.by_place.get(pc) {
            Some(Some(note)) => note.run == self.run,
            _ => false,
        }
    }

    /// The groups of the last way that took one pass.
    #[inline(always)]
    pub(crate) fn groups(&self) -> &GroupSpans
        ensures { result.now ≡ self.now.groups }
    {
        &self.groups
    }

    /// The span of this group in the last way whose groups are held.
    pub fn group(&self, group: usize) -> Option<(usize, usize)>
        ensures { result ≡ spans_in self.now.groups group }
    {
        let first = self.groups.first();
        if group < first {
            return None;
        }
        match self.groups.spans().get(group - first) {
            None => None,
            Some(span) => *span,
        }
    }

    /// The first way from `ix` of the fragment at `pc` of the program, where it takes one pass and sets no group, until a
    /// search has noted something in this run: so no part of the text is passed in vain from one start after the other. An
    /// error also where the run has too many visits.
    #[inline(always)]
    pub fn one_pass_end(
        &mut self,
        task: &Task<'_>,
        fragment: &Fragment,
        pc: usize,
        ix: usize,
    ) -> Result<OnePass, AllocError>
        requires place { IsTrue (is_place task.now.text.now ix) }
        requires memos { AreMemosOf task.now self.old }
        ensures way { IfOk result (IsOnePassOf task.now.text.now fragment.now ix) }
        ensures memos { AreMemosOf task.now self.new }
    {
        if self.are_too_many(task) {
            return Err(AllocError);
        }
        if self.has_noted(pc) {
            return Ok(OnePass::Unknown);
        }
        let mut read = 0;
        let nfa = fragment.nfa();
        let way = nfa.one_pass_end(task.alloc, task.text, ix, &mut read)?;
        self.count_read(passed(read));
        Ok(way)
    }

    /// The first way from `ix` of the fragment at `pc` of the program: by one pass, or else by a search with what earlier
    /// ones have noted in this run. Its groups are held. It is not known if an allocation fails or visits are too many.
    pub fn held_way(
        &mut self,
        task: &Task<'_>,
        fragment: &Fragment,
        pc: usize,
        ix: usize,
    ) -> OnePass
        requires place { IsTrue (is_place task.now.text.now ix) }
        requires here { fragment_at task.now pc ≡ Some fragment.now }
        requires memos { AreMemosOf task.now self.old }
        ensures way { IsOnePassWayOf
            task.now.text.now fragment.now ix (spans_in self.new.groups) result }
        ensures memos { AreMemosOf task.now self.new }
    {
        if !fragment.nfa().can_begin(task.text, ix) {
            return OnePass::Fails;
        }
        if self.are_too_many(task) {
            return OnePass::Unknown;
        }
        match self.one_pass_way(task, fragment, pc, ix) {
            Ok(OnePass::Unknown) => self.searched_way(task, fragment, pc, ix),
            Ok(way) => way,
            Err(_) => OnePass::Unknown,
        }
    }

    /// The same by the search.
    #[inline(never)]
    fn searched_way(
        &mut self,
        task: &Task<'_>,
        fragment: &Fragment,
        pc: usize,
        ix: usize,
    ) -> OnePass
        requires place { IsTrue (is_place task.now.text.now ix) }
        requires here { fragment_at task.now pc ≡ Some fragment.now }
        requires memos { AreMemosOf task.now self.old }
        ensures way { IsOnePassWayOf
            task.now.text.now fragment.now ix (spans_in self.new.groups) result }
        ensures memos { AreMemosOf task.now self.new }
    {
        match self.first_way(task, fragment, pc, ix) {
            Err(_) => OnePass::Unknown,
            Ok(FirstWay { way: None, .. }) => OnePass::Fails,
            Ok(FirstWay { way: Some(way), .. }) => match self.groups.hold(&way.spans) {
                Err(_) => OnePass::Unknown,
                Ok(()) => OnePass::Ends(way.end),
            },
        }
    }

    /// The first way from `ix` of the fragment with groups at `pc` of the program, where it takes one pass: its groups are
    /// held. Where that told nothing often in this run it is not asked for, so that no part of the text is passed in vain
    /// again and again.
    #[inline(always)]
    pub(crate) fn one_pass_way(
        &mut self,
        task: &Task<'_>,
        fragment: &Fragment,
        pc: usize,
        ix: usize,
    ) -> Result<OnePass, AllocError>
        requires place { IsTrue (is_place task.now.text.now ix) }
        requires here { fragment_at task.now pc ≡ Some fragment.now }
        requires memos { AreMemosOf task.now self.old }
        ensures way { IfOk result
            (IsOnePassWayOf task.now.text.now fragment.now ix (spans_in self.new.groups)) }
        ensures memos { AreMemosOf task.now self.new }
    {
        if fragment.nfa().is_one_pass() || self.unknown >= MOST_UNKNOWN {
            return Ok(OnePass::Unknown);
        }
        let nfa = fragment.nfa();
        let mut read = 0;
        let way = nfa.one_pass_way(task.alloc, task.text, ix, &mut self.groups, &mut read)?;
        self.read = self.read.saturating_add(passed(read));
        if matches!(way, OnePass::Unknown) {
            self.unknown = self.unknown.saturating_add(1);
        }
        Ok(way)
    }

    /// The first way from `ix` of the fragment at `pc` of the program, by a search with what this
    /// run noted of it.
    pub(crate) fn first_way(
        &mut self,
        task: &Task<'_>,
        fragment: &Fragment,
        pc: usize,
        ix: usize,
    ) -> Result<FirstWay, Error>
        requires place { IsTrue (is_place task.now.text.now ix) }
        requires here { fragment_at task.now pc ≡ Some fragment.now }
        requires memos { AreMemosOf task.now self.old }
        ensures first { IfOk result (IsFirstWayOf task.now.text.now fragment.now ix) }
        ensures ascends { IfOk result HasAscending }
        ensures counted { IfOk result (λ found. 0 < found.visits → self.new.cost.visits
            ≡ min u64.MAX (self.old.cost.visits + found.visits * visit_cost fragment.now)) }
        ensures memos { AreMemosOf task.now self.new }
    {
        if !fragment.nfa().can_begin(task.text, ix) {
            return Ok(FirstWay {
                way: None,
                visits: 0,
            });
        }
        let RunMemo { mut memo, run } = self.note_for(task, fragment, pc)?;
        let way = self.cost.first_way(task, fragment, ix, &mut *memo);
        self.by_place[pc] = Some(RunMemo { memo, run });
        way
    }

    /// Takes out what was noted in this run of the fragment at `pc` of the program.
    fn note_for(
        &mut self,
        task: &Task<'_>,
        fragment: &Fragment,
        pc: usize,
    ) -> Result<RunMemo, AllocError>
        requires here { fragment_at task.now pc ≡ Some fragment.now }
        requires memos { AreMemosOf task.now self.old }
        ensures note { IfOk result (IsNoteOf task.now.text.now fragment.now) }
        ensures run { IfOk result (λ note. note.run ≡ self.new.run) }
        ensures room { OnOk result (pc < length self.new.by_place.items) }
        ensures memos { AreMemosOf task.now self.new }
        ensures groups { self.new.groups ≡ self.old.groups }
        ensures cost { self.new.cost ≡ self.old.cost }
    {
        grow(&mut self.by_place, pc)?;
        let pos = task.options.pos;
        match take_out(&mut self.by_place, pc) {
            None => Ok(RunMemo {
                memo: Box::new(task.alloc, fragment.memo(task.alloc, pos))?,
                run: self.run,
            }),
            Some(RunMemo { mut memo, run }) => {
                if run != self.run {
                    fragment.clear(&mut *memo, pos);
                }
                Ok(RunMemo {
                    memo,
                    run: self.run,
                })
            }
        }
    }
}
