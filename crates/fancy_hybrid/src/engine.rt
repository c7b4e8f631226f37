//! The kit's lazy DFAs of one pattern, with the tables that their searches fill.

ghost use Rattle.std.specs.Prelude.{◌≡◌, ◌≤◌, ◌-◌, ◌*◌, ℕ, None, Some, MatchOption, IfOk, IfSome, OnOk, length, option_map};
ghost use Rattle.std.specs.Option.{ForSome};
ghost use Rattle.regex_compile.specs.Implements.{Implements};
ghost use Rattle.regex_dfa.specs.Search.{IsForwardFor, IsReverseFor};
ghost use Rattle.regex_hir.specs.Find.{find, find_str};
ghost use Rattle.regex_hir.specs.Meaning.{meaning};
ghost use Rattle.regex_hir.specs.Re.{Re};
ghost use Rattle.regex_hir.specs.Text.{is_boundary};
ghost use Rattle.regex_levels.specs.Beginnings.{BeginsIn};
ghost use Rattle.regex_tagged.specs.Valid.{IsFor};
ghost use Rattle.regex_vm.specs.Found.{group_cells, span};

use regex_compile::Error;
use regex_dfa::{Dfa, End, Forward, Reverse, Start};
use regex_hir::Hir;
use regex_literal::ByteSet;
use regex_nfa::{BuildError, Nfa};
use regex_tagged::Tagged;
use std::alloc::{AllocError, Global};

/// The tables of a pattern's NFA may have this many bytes.
const MAX_NFA_BYTES: usize = 1 << 22;

/// The tables of a DFA became too large to be of use, and the search was given up.
#[derive(Clone, Copy, Debug, PartialEq, Eq)]
pub struct GaveUp;

/// The DFAs of one pattern. A search finds the leftmost match: forward its end, backward its start, and within its span
/// the groups.
pub struct Engine {
    dfa: Dfa,
    /// The bytes with which a match can begin, if no match is empty.
    first: Option<ByteSet>,
    forward: Forward,
    reverse: Reverse,
    tagged: Tagged,
    /// The groups of the last match from 1 on, each a start and an end: a position plus one, or 0 if it is not set.
    cells: Vec<usize>,
    ghost begins: { ∥ ForSome first (BeginsIn dfa.nfa) ∥₁ },
    ghost forward_runs: { IsForwardFor forward dfa },
    ghost reverse_runs: { IsReverseFor reverse dfa },
    ghost tagged_runs: { IsFor tagged dfa },
}

// Not derived: whoever owns one calls this drop, and would prove a derived one again (docs/GATE.md).
impl Drop for Engine {
    fn drop(self) {
        let Engine {
            dfa: _,
            first: _,
            forward: _,
            reverse: _,
            tagged: _,
            cells: _,
        } = self;
    }
}

/// The NFA of the pattern, which has so many groups with group 0, if it is not too large.
fn nfa_of(alloc: Global, hir: &Hir, groups: u32) -> Result<Option<Nfa>, AllocError>
    ensures { IfOk result (λ made. IfSome made (λ nfa. Implements nfa (meaning hir.now))) }
{
    match regex_compile::compile(alloc, hir, groups, MAX_NFA_BYTES) {
        Ok(nfa) => Ok(Some(nfa)),
        Err(Error::OutOfMemory) => Err(AllocError),
        Err(_) => Ok(None),
    }
}

/// The DFA of the NFA, if there is one.
fn dfa_of(alloc: Global, nfa: Nfa) -> Result<Option<Dfa>, AllocError>
    ensures { IfOk result (λ made. IfSome made (λ dfa. dfa.nfa ≡ nfa)) }
{
    match Dfa::new(alloc, nfa) {
        Ok(dfa) => Ok(Some(dfa)),
        Err(BuildError::OutOfMemory) => Err(AllocError),
        Err(_) => Ok(None),
    }
}

/// The bytes with which a match of the NFA can begin, if no match is empty.
fn first_bytes(alloc: Global, nfa: &Nfa) -> Result<Option<ByteSet>, AllocError>
    ensures { IfOk result (λ first. IfSome first (BeginsIn nfa.now)) }
{
    match regex_levels::first_level(alloc, nfa)? {
        Some(level) => Ok(Some(ByteSet::new(&level))),
        None => Ok(None),
    }
}

impl Engine {
    ghost use Rattle.fancy_hybrid.specs.Engines.{AreCellsOf, Searches};

    /// The DFAs of the pattern, which has so many groups with group 0. There are none if its NFA is too large.
    pub fn new(alloc: Global, hir: &Hir, groups: u32) -> Result<Option<Engine>, AllocError>
        ensures { IfOk result (λ made. IfSome made (λ engine. Searches (meaning hir.now) engine
            × (length engine.cells.items ≡ 2 * (groups - 1)))) }
    {
        let Some(nfa) = nfa_of(alloc, hir, groups)? else {
            return Ok(None);
        };
        let Some(dfa) = dfa_of(alloc, nfa)? else {
            return Ok(None);
        };
        Ok(Some(Engine::of_dfa(alloc, dfa, groups)?))
    }

    /// The DFA with empty tables.
    fn of_dfa(alloc: Global, dfa: Dfa, groups: u32) -> Result<Engine, AllocError>
        ensures { IfOk result (λ engine. (engine.dfa ≡ dfa)
            × (length engine.cells.items ≡ 2 * (groups - 1))) }
    {
        let first = first_bytes(alloc, &dfa.nfa)?;
        let forward = Forward::new(alloc, &dfa, false)?;
        let reverse = Reverse::new(alloc, &dfa)?;
        let tagged = Tagged::new(alloc, &dfa)?;
        let cells = vec![in alloc; 0usize; (groups as usize).saturating_sub(1).saturating_mul(2)]?;
        Ok(Engine {
            dfa,
            first,
            forward,
            reverse,
            tagged,
            cells,
        })
    }

    /// The groups of the last match from 1 on, each a start and an end: a position plus one, or 0 if it is not set.
    pub fn cells(&self) -> &[usize]
        ensures { result.now ≡ self.now.cells.items }
    {
        &self.cells
    }

    /// A place from `start` on before which no match starts, if any match does.
    fn first_place(&self, text: &[u8], start: usize) -> Option<usize>
        requires { start ≤ length text.now }
        ensures within { IfSome result (λ at. (start ≤ at) × (at ≤ length text.now)) }
        ensures skipped { (re : Re) → Searches re self.now → MatchOption
            result
            (find re text.now start ≡ None)
            (λ at. find re text.now start ≡ find re text.now at) }
    {
        match &self.first {
            Some(set) => set.find_near(text, start, text.len()),
            None => Some(start),
        }
    }

    /// The span of the leftmost match of the bytes that starts at or after `start`.
    fn span_from(&mut self, text: &[u8], start: usize) -> Result<Option<(usize, usize)>, GaveUp>
        requires { start ≤ length text.now }
        ensures found { (re : Re) → Searches re self.old → IfOk result
            (λ found. found ≡ option_map span (find re text.now start)) }
        ensures within { IfOk result (λ found. IfSome found
            (λ s. (start ≤ s.0) × (s.0 ≤ s.1) × (s.1 ≤ length text.now))) }
        ensures dfa { self.new.dfa ≡ self.old.dfa }
        ensures cells { self.new.cells ≡ self.old.cells }
    {
        let Some(at) = self.first_place(text, start) else {
            return Ok(None);
        };
        let end = match self
            .forward
            .find_end(&self.dfa, text, at, text.len(), false, false)
        {
            End::At(end) => end,
            End::NoMatch => return Ok(None),
            End::Idle(_) | End::GaveUp => return Err(GaveUp),
        };
        match self.reverse.find_start(&self.dfa, text, at, end) {
            Start::At(from) => Ok(Some((from, end))),
            Start::NoMatch | Start::GaveUp => Err(GaveUp),
        }
    }

    /// The span of the leftmost match of the text that starts at a character at or after `start`.
    pub fn find(&mut self, text: &str, start: usize) -> Result<Option<(usize, usize)>, GaveUp>
        requires { start ≤ length text.now }
        ensures found { (re : Re) → Searches re self.old → IfOk result
            (λ found. found ≡ option_map span (find_str re text.now start)) }
        ensures within { IfOk result (λ found. IfSome found
            (λ s. (start ≤ s.0) × (s.0 ≤ s.1) × (s.1 ≤ length text.now))) }
        ensures dfa { self.new.dfa ≡ self.old.dfa }
        ensures cells { self.new.cells ≡ self.old.cells }
    {
        let bytes = text.as_bytes();
        let mut at = start;
        'starts: loop {
            let Some((from, end)) = self.span_from(bytes, at)? else {
                return Ok(None);
            };
            if is_whole_at(bytes, from) {
                return Ok(Some((from, end)));
            }
            at = from + 1;
        }
    }

    /// Finds the groups of the match that was found with this span, if the pattern has any.
    pub fn find_groups(&mut self, text: &str, from: usize, end: usize) -> Result<(), GaveUp>
        requires ordered { from ≤ end }
        requires within { end ≤ length text.now }
        ensures groups { (re : Re) → Searches re self.old → (start : ℕ)
            → option_map span (find_str re text.now start) ≡ Some (from, end)
            → OnOk result (AreCellsOf (length self.old.cells.items) self.new.cells.items
            (find_str re text.now start)) }
        ensures dfa { self.new.dfa ≡ self.old.dfa }
        ensures count { length self.new.cells.items ≡ length self.old.cells.items }
    {
        if self.cells.is_empty() {
            return Ok(());
        }
        let cells = self.cells.as_mut_slice();
        match self
            .tagged
            .find_at(&self.dfa, text.as_bytes(), from, end, cells)
        {
            Ok(_) => Ok(()),
            Err(_) => Err(GaveUp),
        }
    }
}

/// No character of the text is cut here.
fn is_whole_at(text: &[u8], at: usize) -> bool
    ensures { result ≡ is_boundary text.now at }
{
    if at >= text.len() {
        return true;
    }
    (text[at] < 0x80) | (text[at] > 0xBF)
}
