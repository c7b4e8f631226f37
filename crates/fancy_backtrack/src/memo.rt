//! What a search keeps: where it stands on its path, what it tries later, and the pairs that have no way.

ghost use Rattle.std.specs.Prelude.{nat_lt, ◌≡◌, ◌≤◌, ◌<◌, ◌+◌, ◌∷◌, ◌++◌, [], ℕ, List, Bool, min, true, false, length, map, take, IfOk, IfErr, IfSome, IsTrue};
ghost use Rattle.fancy_nfa_laws.specs.NfaSearch as plain;
ghost use Rattle.fancy_nfa_laws.specs.NfaSearch.{Search, TakesUp, pair_of};
ghost use Rattle.fancy_nfa_laws.specs.NfaStates as states;
ghost use Rattle.fancy_backtrack.specs.PairKeys.{key_of, counter_numbers};
ghost use Rattle.fancy_backtrack.specs.Paths.{HasCounters, counter_of};
ghost use Rattle.fancy_backtrack.specs.Loops.{loop_of};
ghost use Rattle.fancy_backtrack.specs.BacktrackStack.{choices_of, Pops};
ghost use Rattle.fancy_backtrack.specs.Bytes.{bytes_of};
ghost use Rattle.fancy_backtrack.specs.Memos.{HaveFailed, IsHere, IsLoopSplitOf, IsSearch, Keeps, Continuation, Simulates, onward, run_search};

use crate::backtrack_stack::{BacktrackStack, StackFrame};
use crate::budget::Budget;
use crate::failed::Failed;
use crate::loops::{Loop, LoopChoice};
use crate::pair_numbers::PairNumbers;
use crate::trail::{Entry, LoopCounter, NfaConfig, Trail};
use std::alloc::{AllocError, Global};

/// What a search keeps from one start to the next: the pairs that have no way, and room.
#[derive(Drop)]
pub struct Memo {
    alloc: Global,
    failed: Failed,
    frames: BacktrackStack,
    trail: Trail,
    /// Room for the numbers of a pair.
    numbers: Vec<usize>,
    /// How many states this search has taken up.
    visits: u64,
    /// How much it may take.
    budget: Budget,
}

/// How many entries the path gets between two looks at how many bytes are held.
const LOOK_EVERY: usize = 256;

/// What a state leads to.
#[derive(Clone, Copy)]
pub enum StepResult {
    Found(NfaConfig),
    Lost,
    Goes(NfaConfig),
}

/// Writes the numbers of this configuration's pair.
fn write_numbers(
    trail: &Trail,
    config: NfaConfig,
    numbers: &mut Vec<usize>,
) -> Result<(), AllocError>
    ensures ok { IfOk result (λ _. (s : plain.NfaConfig) → config.at ≡ s.at → config.place ≡ s.place
        → HasCounters trail.now.entries.items config.counters s.counters
        → numbers.new.items ≡ key_of (pair_of s)) }
{
    numbers.clear();
    numbers.push(config.at)?;
    numbers.push(config.place)?;
    push_counters(trail, config, numbers)
}

/// The numbers of this configuration's pair, inside this iteration and no other.
fn numbers_inside(config: NfaConfig, counter: LoopCounter) -> [usize; 4]
    ensures { (s : plain.NfaConfig) → config.at ≡ s.at → config.place ≡ s.place
        → counter_of counter ∷ [] ≡ s.counters → result ≡ key_of (pair_of s) }
{
    let has_stayed = counter.since == Some(config.place);
    [config.at, config.place, counter.count, has_stayed as usize]
}

/// Adds the numbers of the iterations around this configuration.
fn push_counters(
    trail: &Trail,
    config: NfaConfig,
    numbers: &mut Vec<usize>,
) -> Result<(), AllocError>
    ensures ok { IfOk result (λ _. (counters : List plain.LoopCounter)
        → HasCounters trail.now.entries.items config.counters counters
        → numbers.new.items ≡ numbers.old.items
        ++ counter_numbers (map (plain.counter_key config.place) counters)) }
{
    let mut link = config.counters;
    'counters: while let Some((counter, outer)) = trail.counter(link) {
        numbers.push(counter.count)?;
        let has_stayed = counter.since == Some(config.place);
        numbers.push(has_stayed as usize)?;
        link = outer;
    }
    Ok(())
}

impl Memo {
    /// For searches by one NFA in one text, from `pos` on, where its pairs have these numbers: no pair is known. They may
    /// take as much as can be counted.
    pub fn new(alloc: Global, pair_numbers: PairNumbers, pos: usize) -> Memo
        ensures failed { HaveFailed result (λ pair. false) }
        ensures budget { result.budget ≡ record { visits = u64.MAX; bytes = usize.MAX } }
    {
        Memo {
            alloc,
            failed: Failed::new(alloc, pair_numbers, pos),
            frames: BacktrackStack::new(alloc),
            trail: Trail::new(alloc),
            numbers: Vec::new(alloc),
            visits: 0,
            budget: Budget::unlimited(),
        }
    }

    /// As `new` for another NFA or text, with the room and the budget of this one, in time that follows what was
    /// memoized.
    pub fn clear(&mut self, pair_numbers: PairNumbers, pos: usize)
        ensures failed { HaveFailed self.new (λ pair. false) }
        ensures budget { self.new.budget ≡ self.old.budget }
    {
        self.frames.forget();
        self.trail.truncate(0);
        self.failed.clear(pair_numbers, pos);
    }

    /// The next searches may each take up so many states, and hold so many bytes with what earlier ones memoized. A
    /// search that goes past that ends as if an allocation fails; `visits` and `bytes` then say which it was.
    pub fn limit(&mut self, budget: Budget)
        ensures budget { self.new.budget ≡ budget }
        ensures failed { (failed : plain.Pair → Bool) → HaveFailed self.old failed
            → HaveFailed self.new failed }
    {
        self.failed.limit(budget.bytes);
        self.budget = budget;
    }

    /// How many bytes it holds; with a request that the budget refused, as many as it would.
    pub fn bytes(&self) -> usize
        ensures { result ≡ bytes_of self.now }
    {
        let path = self.frames.bytes().saturating_add(self.trail.bytes());
        path.saturating_add(self.failed.bytes())
    }

    /// The search has taken up more states than it may.
    #[inline(always)]
    pub fn exceeds_visits(&self) -> bool
        ensures { result ≡ nat_lt self.now.budget.visits self.now.visits }
    {
        self.visits > self.budget.visits
    }

    /// Refuses more room where more bytes are held than may be.
    #[cold]
    #[inline(never)]
    fn look_at_bytes(&self) -> Result<(), AllocError> {
        if self.bytes() > self.budget.bytes {
            Err(AllocError)
        } else {
            Ok(())
        }
    }

    /// Before one more entry of the path.
    #[inline(always)]
    fn look_at_path(&self) -> Result<(), AllocError> {
        if self.trail.len() % LOOK_EVERY == LOOK_EVERY - 1 {
            return self.look_at_bytes();
        }
        Ok(())
    }

    /// Before one more choice.
    #[inline(always)]
    fn look_at_stack(&self) -> Result<(), AllocError> {
        if self.frames.is_at_peak() {
            return self.look_at_bytes();
        }
        Ok(())
    }

    /// By which it takes memory.
    #[inline(always)]
    pub fn alloc(&self) -> Global
        ensures { result ≡ self.now.alloc }
    {
        self.alloc
    }

    /// Before another search.
    pub fn start(&mut self)
        ensures frames { choices_of self.new.frames ≡ [] }
        ensures path { self.new.trail.entries.items ≡ [] }
        ensures visits { self.new.visits ≡ 0 }
        ensures failed { self.new.failed ≡ self.old.failed }
        ensures budget { self.new.budget ≡ self.old.budget }
    {
        self.frames.clear();
        self.trail.truncate(0);
        self.visits = 0;
    }

    /// How many states the search has taken up.
    pub fn visits(&self) -> u64
        ensures { result ≡ self.now.visits }
    {
        self.visits
    }

    /// The path of the search.
    pub fn path(&self) -> &[Entry]
        ensures { result.now ≡ self.now.trail.entries.items }
    {
        self.trail.entries()
    }

    /// One more state is taken up.
    pub fn count(&mut self)
        ensures { self.new ≡ record self.old { visits = min u64.MAX (self.old.visits + 1) } }
    {
        self.visits = self.visits.saturating_add(1);
    }

    /// So many more states are taken up.
    pub fn count_more(&mut self, states: u64)
        ensures { self.new ≡ record self.old { visits = min u64.MAX (self.old.visits + states) } }
    {
        self.visits = self.visits.saturating_add(states);
    }

    /// Whether this configuration's pair is known to have no way.
    #[inline(always)]
    fn has_failed(&mut self, config: NfaConfig) -> Result<bool, AllocError>
        ensures ok { IfOk result (λ yes. (s : plain.NfaConfig) (failed : plain.Pair → Bool)
            → IsHere self.old config s → HaveFailed self.old failed → yes ≡ failed (pair_of s)) }
        ensures rest { self.new ≡ record self.old { numbers = self.new.numbers } }
    {
        if self.failed.is_empty() {
            return Ok(false);
        }
        if config.counters == 0 {
            return Ok(self.failed.has(&[config.at, config.place]));
        }
        self.has_failed_inside(NfaConfig { ..config })
    }

    /// As `has_failed`, inside a loop that counts.
    #[inline(never)]
    fn has_failed_inside(&mut self, config: NfaConfig) -> Result<bool, AllocError>
        ensures ok { IfOk result (λ yes. (s : plain.NfaConfig) (failed : plain.Pair → Bool)
            → IsHere self.old config s → HaveFailed self.old failed → yes ≡ failed (pair_of s)) }
        ensures rest { self.new ≡ record self.old { numbers = self.new.numbers } }
    {
        if let Some((counter, 0)) = self.trail.counter(config.counters) {
            return Ok(self.failed.has(&numbers_inside(config, counter)));
        }
        write_numbers(&self.trail, config, &mut self.numbers)?;
        Ok(self.failed.has(&self.numbers))
    }

    /// No pair is known to have no way.
    #[inline(always)]
    pub fn is_blank(&self) -> bool
        ensures { IsTrue result → (failed : plain.Pair → Bool) → HaveFailed self.now failed
            → (p : plain.Pair) → failed p ≡ false }
    {
        self.failed.is_empty()
    }

    /// Whether this configuration's pair may be known to have no way. Inside two loops that count it may, once any
    /// pair is.
    #[inline(always)]
    pub fn may_have_failed(&self, config: NfaConfig) -> bool
        ensures { result ≡ false → (s : plain.NfaConfig) (failed : plain.Pair → Bool)
            → IsHere self.now config s → HaveFailed self.now failed → failed (pair_of s) ≡ false }
    {
        if self.failed.is_empty() {
            return false;
        }
        if config.counters == 0 {
            return self.failed.has(&[config.at, config.place]);
        }
        match self.trail.counter(config.counters) {
            Some((counter, 0)) => self.failed.has(&numbers_inside(config, counter)),
            _ => true,
        }
    }

    /// This configuration's pair has no way.
    #[inline(always)]
    pub fn add_failed(&mut self, config: NfaConfig) -> Result<(), AllocError>
        ensures ok { IfOk result (λ _. (s : plain.NfaConfig) (f : Search)
            → IsHere self.old config s → HaveFailed self.old f.failed
            → HaveFailed self.new (plain.with_failed (pair_of s) f).failed) }
        ensures err { IfErr result (λ _. (failed : plain.Pair → Bool)
            → HaveFailed self.old failed → HaveFailed self.new failed) }
        ensures rest { self.new
            ≡ record self.old { numbers = self.new.numbers; failed = self.new.failed } }
    {
        if config.counters == 0 {
            return self.failed.add(self.alloc, &[config.at, config.place]);
        }
        self.add_failed_inside(NfaConfig { ..config })
    }

    /// As `add_failed`, inside a loop that counts.
    #[inline(never)]
    fn add_failed_inside(&mut self, config: NfaConfig) -> Result<(), AllocError>
        ensures ok { IfOk result (λ _. (s : plain.NfaConfig) (f : Search)
            → IsHere self.old config s → HaveFailed self.old f.failed
            → HaveFailed self.new (plain.with_failed (pair_of s) f).failed) }
        ensures err { IfErr result (λ _. (failed : plain.Pair → Bool)
            → HaveFailed self.old failed → HaveFailed self.new failed) }
        ensures rest { self.new
            ≡ record self.old { numbers = self.new.numbers; failed = self.new.failed } }
    {
        if let Some((counter, 0)) = self.trail.counter(config.counters) {
            return self
                .failed
                .add(self.alloc, &numbers_inside(config, counter));
        }
        write_numbers(&self.trail, config, &mut self.numbers)?;
        self.failed.add(self.alloc, &self.numbers)
    }

    /// Keeps a choice for later.
    #[inline(always)]
    pub fn keep(&mut self, config: NfaConfig, is_untried: bool) -> Result<(), AllocError>
        ensures ok { IfOk result (λ _. (continuation : Continuation) (f : Search)
            (s : plain.NfaConfig)
            (frames : List plain.Frame) → IsSearch continuation self.old f
            → IsHere self.old config s
            → Keeps is_untried (continuation s) s f.frames frames
            → IsSearch continuation self.new (record f { frames = frames })) }
        ensures rest { self.new ≡ record self.old { frames = self.new.frames } }
    {
        self.look_at_stack()?;
        let path = self.trail.len();
        let choice = StackFrame {
            config,
            path,
            is_untried,
        };
        self.frames.push(choice, 0)?;
        Ok(())
    }

    /// Takes the last choice back, if there is one, and cuts the path to where it stands.
    #[inline(always)]
    pub fn pop(&mut self) -> Option<StackFrame>
        ensures choices { Pops (choices_of self.old.frames) result (choices_of self.new.frames) }
        ensures path { IfSome result (λ choice. self.new.trail.entries.items
            ≡ take choice.path self.old.trail.entries.items) }
        ensures rest { self.new
            ≡ record self.old { frames = self.new.frames; trail = self.new.trail } }
    {
        let choice = self.frames.pop()?;
        self.trail.truncate(choice.path);
        Some(choice)
    }

    /// Takes up a loop's head and the character there, in this configuration and at each of the next bytes, so many
    /// in all. A choice is kept at each. Goes on behind them.
    pub fn keep_run(&mut self, config: NfaConfig, count: usize) -> Result<NfaConfig, AllocError>
        requires some { 0 < count }
        requires fits { config.place + count ≤ usize.MAX }
        ensures ok { IfOk result (λ on. (continuation : Continuation) (f : Search)
            (s : plain.NfaConfig)
            (first : ℕ) (out : plain.NfaConfig → plain.NfaConfig) → IsSearch continuation self.old f
            → IsHere self.old config s → IsLoopSplitOf continuation first out s
            → IsSearch continuation self.new (run_search out count s f)
            × IsHere self.new on (onward count s)) }
        ensures on { IfOk result
            (λ on. on ≡ record config { place = config.place + count }) }
        ensures rest { self.new
            ≡ record self.old { frames = self.new.frames; visits = self.new.visits } }
    {
        self.look_at_stack()?;
        let end = config.place + count;
        let last = StackFrame {
            config: NfaConfig {
                place: end - 1,
                ..config
            },
            path: self.trail.len(),
            is_untried: true,
        };
        self.frames.push(last, count - 1)?;
        self.visits = self.visits.saturating_add((count as u64).saturating_mul(2));
        Ok(NfaConfig {
            place: end,
            ..config
        })
    }

    /// Begins an iteration of the loop whose head this configuration is at.
    pub fn begin_iteration(
        &mut self,
        config: NfaConfig,
        outer: usize,
        counter: LoopCounter,
    ) -> Result<NfaConfig, AllocError>
        requires { config.at < usize.MAX }
        ensures here { IfOk result (λ on. (s : plain.NfaConfig) (counters : List plain.LoopCounter)
            → IsHere self.old config s → outer ≤ length self.old.trail.entries.items
            → HasCounters self.old.trail.entries.items outer counters
            → IsHere self.new on (record
            (plain.forward s) { counters = counter_of counter ∷ counters })) }
        ensures search { IfOk result (λ _. (continuation : Continuation) (f : Search)
            → IsSearch continuation self.old f → IsSearch continuation self.new f) }
        ensures rest { self.new ≡ record self.old { trail = self.new.trail } }
    {
        self.look_at_path()?;
        let counters = self.trail.push(Entry::LoopCounter { outer, counter })?;
        Ok(NfaConfig {
            at: config.at + 1,
            counters,
            ..config
        })
    }

    /// A group begins.
    pub fn open(&mut self, config: NfaConfig) -> Result<StepResult, AllocError>
        requires { config.at < usize.MAX }
        ensures leads { (continuation : Continuation) (s : plain.NfaConfig) (f : Search)
            → IsSearch continuation self.old f → IsHere self.old config s
            → Simulates continuation s f.failed
            (TakesUp (record (plain.forward s) { opened = s.place ∷ s.opened }) f) result self.new }
        ensures budget { self.new.budget ≡ self.old.budget }
    {
        self.look_at_path()?;
        let opened = self.trail.push(Entry::Opened {
            outer: config.opened,
            from: config.place,
        })?;
        Ok(StepResult::Goes(NfaConfig {
            at: config.at + 1,
            opened,
            ..config
        }))
    }

    /// A group ends.
    pub fn close(&mut self, config: NfaConfig, group: usize) -> Result<StepResult, AllocError>
        requires { config.at < usize.MAX }
        ensures leads { (continuation : Continuation) (s : plain.NfaConfig) (f : Search)
            → IsSearch continuation self.old f → IsHere self.old config s
            → Simulates continuation s f.failed (plain.next_by (plain.close_step group s s.opened)
            (Some (states.Close group)) s f) result self.new }
        ensures budget { self.new.budget ≡ self.old.budget }
    {
        let Some((from, outer)) = self.trail.opened(config.opened) else {
            return Ok(StepResult::Goes(config.forward()));
        };
        self.look_at_path()?;
        self.trail.push(Entry::Closed {
            group,
            from,
            to: config.place,
        })?;
        Ok(StepResult::Goes(NfaConfig {
            at: config.at + 1,
            opened: outer,
            ..config
        }))
    }

    /// On at the first, and later at the second.
    pub fn choose(&mut self, config: NfaConfig, first: usize) -> Result<StepResult, AllocError>
        ensures leads { (continuation : Continuation) (s : plain.NfaConfig) (f : Search)
            (frames : List plain.Frame)
            → IsSearch continuation self.old f → IsHere self.old config s
            → Keeps true (continuation s) s f.frames frames
            → Simulates continuation s f.failed
            (TakesUp (plain.goes_to first s) (record f { frames = frames })) result self.new }
        ensures budget { self.new.budget ≡ self.old.budget }
    {
        self.keep(config, true)?;
        Ok(StepResult::Goes(config.goes_to(first)))
    }

    /// At the head of a loop that does not count: on at the first, and later at the second, unless there is no way
    /// from here.
    pub fn loop_split(&mut self, config: NfaConfig, first: usize) -> Result<StepResult, AllocError>
        ensures leads { (continuation : Continuation) (s : plain.NfaConfig) (second : ℕ) (f : Search)
            → IsSearch continuation self.old f → IsHere self.old config s
            → continuation s ≡ plain.Tries true (plain.goes_to first s)
            (plain.goes_to second s ∷ [])
            → Simulates continuation s f.failed
            (plain.next_by (continuation s) (Some
            (states.LoopSplit first second)) s f) result self.new }
        ensures budget { self.new.budget ≡ self.old.budget }
    {
        if self.has_failed(config)? {
            return Ok(StepResult::Lost);
        }
        self.count();
        self.choose(config, first)
    }

    /// On, unless there is no way from here.
    pub fn join(&mut self, config: NfaConfig) -> Result<StepResult, AllocError>
        requires { config.at < usize.MAX }
        ensures leads { (continuation : Continuation) (s : plain.NfaConfig) (f : Search)
            → IsSearch continuation self.old f → IsHere self.old config s
            → continuation s ≡ plain.Tries true (plain.forward s) []
            → Simulates continuation s f.failed
            (plain.next_by (continuation s) (Some states.Join) s f) result self.new }
        ensures budget { self.new.budget ≡ self.old.budget }
    {
        if self.has_failed(config)? {
            return Ok(StepResult::Lost);
        }
        self.keep(config, false)?;
        Ok(StepResult::Goes(config.forward()))
    }

    /// At the head of a loop that counts: on by the ways that are open, unless there is no way from here.
    pub fn counter_loop(
        &mut self,
        config: NfaConfig,
        bounds: Loop,
        after: usize,
    ) -> Result<StepResult, AllocError>
        requires { config.at < usize.MAX }
        ensures leads { (continuation : Continuation) (s : plain.NfaConfig) (f : Search)
            → IsSearch continuation self.old f → IsHere self.old config s
            → continuation s ≡ plain.counter_loop_step (loop_of bounds) after s s.counters
            → Simulates continuation s f.failed
            (plain.next_by (continuation s) (Some (states.CounterLoop (loop_of bounds) after)) s f)
            result self.new }
        ensures budget { self.new.budget ≡ self.old.budget }
    {
        let Some((counter, outer)) = self.trail.counter(config.counters) else {
            self.count();
            return Ok(StepResult::Lost);
        };
        if self.has_failed(config)? {
            return Ok(StepResult::Lost);
        }
        self.count();
        match bounds.loop_choice(counter, config.place) {
            LoopChoice::Out => {
                self.keep(config, false)?;
                Ok(StepResult::Goes(config.goes_out(after, outer)))
            }
            LoopChoice::In => {
                self.keep(config, false)?;
                self.counter_in(config, bounds, counter, outer)
            }
            LoopChoice::InOrOut => {
                self.keep(config, true)?;
                self.counter_in(config, bounds, counter, outer)
            }
            LoopChoice::OutOrIn => {
                self.keep(config, true)?;
                Ok(StepResult::Goes(config.goes_out(after, outer)))
            }
        }
    }

    /// The other way on from a loop's head.
    pub fn other_counter(
        &mut self,
        config: NfaConfig,
        bounds: Loop,
        after: usize,
    ) -> Result<StepResult, AllocError>
        requires { config.at < usize.MAX }
        ensures leads { (continuation : Continuation) (s first other : plain.NfaConfig) (f : Search)
            → IsSearch continuation self.old f → IsHere self.old config s
            → plain.counter_loop_step
            (loop_of bounds) after s s.counters ≡ plain.Tries true first (other ∷ [])
            → Simulates continuation s f.failed (TakesUp other f) result self.new }
        ensures budget { self.new.budget ≡ self.old.budget }
    {
        let Some((counter, outer)) = self.trail.counter(config.counters) else {
            return Ok(StepResult::Lost);
        };
        match bounds.loop_choice(counter, config.place) {
            LoopChoice::InOrOut => Ok(StepResult::Goes(config.goes_out(after, outer))),
            LoopChoice::OutOrIn => self.counter_in(config, bounds, counter, outer),
            _ => Ok(StepResult::Lost),
        }
    }

    /// Into the next iteration.
    fn counter_in(
        &mut self,
        config: NfaConfig,
        bounds: Loop,
        counter: LoopCounter,
        outer: usize,
    ) -> Result<StepResult, AllocError>
        requires at { config.at < usize.MAX }
        requires goes_on { plain.is_over (loop_of bounds) config.place
            (counter_of counter) ≡ false }
        ensures leads { (continuation : Continuation) (s : plain.NfaConfig) (f : Search)
            (around : List plain.LoopCounter)
            → IsSearch continuation self.old f → IsHere self.old config s
            → outer ≤ length self.old.trail.entries.items
            → HasCounters self.old.trail.entries.items outer around
            → Simulates continuation s f.failed (TakesUp (record (plain.forward s) {
              counters = plain.next_counter (loop_of bounds) s.place
                  (counter_of counter) ∷ around;
            }) f)
            result self.new }
        ensures budget { self.new.budget ≡ self.old.budget }
    {
        let next = bounds.next_counter(counter, config.place);
        let on = self.begin_iteration(config, outer, next)?;
        Ok(StepResult::Goes(on))
    }
}
