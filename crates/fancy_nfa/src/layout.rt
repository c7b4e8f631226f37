//! How easy nodes are laid out as states.

ghost use Rattle.fancy_info.specs.Infos.{info_children, is_look};
ghost use Rattle.fancy_expr.specs.Views.{assertion_of, bound_of};
ghost use Rattle.fancy_meaning.specs.Assertions.{assertion_within};
ghost use Rattle.fancy_meaning.specs.Constructs as plain_form;
ghost use Rattle.fancy_meaning.specs.Tree.{Delegate, Within};
ghost use Rattle.fancy_nfa_laws.specs.NfaCode.{branches, counted, in_sequence, one, one_of, optional, plus, preferring, repeated, star};
ghost use Rattle.fancy_nfa_laws.specs.NfaStates as plain;
ghost use Rattle.fancy_nfa.specs.Shapes.{branch_choice, form_of};
ghost use Rattle.fancy_nfa.specs.Views.{IsStateReadBy, state_of};
ghost use Rattle.fancy_backtrack.specs.Loops.{loop_of};
ghost use Rattle.std.specs.Prelude.{Bool, IfOk, Some, length, chars, slice_index, slice_index_or, slice_set, ℕ, ◌+◌, ◌<◌, ◌≡◌};

use crate::nfa_state::{CharTest, NfaState};
use fancy_backtrack::loops::Loop;
use fancy_characters::classes::CharClassMatcher;
use fancy_expr::error::Error;
use fancy_expr::expr::{Assertion, Expr};
use fancy_expr::text::first_char;
use fancy_info::info::Info;
use std::alloc::Global;

/// States in the making.
#[derive(Drop)]
pub(crate) struct Layout {
    pub(crate) alloc: Global,
    pub(crate) unicode: bool,
    pub(crate) states: Vec<NfaState>,
}

/// How a loop is laid out.
#[derive(Clone, Copy)]
enum LoopForm {
    AtMostOnce,
    /// The body may take nothing.
    Epsilon { lo: usize },
    Star,
    Plus,
    /// `usize::MAX` is no bound.
    Counted { lo: usize, hi: usize },
}

/// The loop's form; none where its body is never entered.
fn loop_form(lo: usize, hi: usize, may_be_empty: bool) -> Option<LoopForm>
    ensures { form_of result ≡ plain_form.loop_form lo (bound_of hi) may_be_empty }
{
    if hi == 0 {
        return None;
    }
    if lo == 0 && hi == 1 {
        return Some(LoopForm::AtMostOnce);
    }
    if hi < usize::MAX {
        return Some(LoopForm::Counted { lo, hi });
    }
    if may_be_empty {
        return Some(LoopForm::Epsilon { lo });
    }
    match lo {
        0 => Some(LoopForm::Star),
        1 => Some(LoopForm::Plus),
        _ => Some(LoopForm::Counted { lo, hi }),
    }
}

/// What is taken first: greedy goes on first, lazy goes off first.
fn preferred(greedy: bool, on: usize, off: usize) -> (usize, usize)
    ensures { (choice : ℕ → ℕ → plain.NfaState)
        → choice result.0 result.1 ≡ preferring choice greedy on off }
{
    if greedy { (on, off) } else { (off, on) }
}

/// The state before a branch.
fn branch_choice(is_first: bool, on: usize, off: usize) -> NfaState
    ensures value { state_of result ≡ branch_choice is_first on off }
    ensures read { (unicode : Bool) → IsStateReadBy unicode result }
{
    if is_first {
        NfaState::Split(on, off)
    } else {
        NfaState::BranchSplit(on, off)
    }
}

/// In a look-around a `StartLineOniguruma` is a plain line start.
fn assertion_inside(assertion: Assertion, in_look: bool) -> Assertion
    ensures { (w : Within)
        → in_look ≡ is_look w
        → assertion_of result ≡ assertion_within w (assertion_of assertion) }
{
    if !in_look {
        return assertion;
    }
    match assertion {
        Assertion::StartLineOniguruma { crlf } => Assertion::StartLine { crlf },
        _ => assertion,
    }
}

/// A node's only child.
fn only_child<'i, 'a>(info: &'i Info<'a>) -> &'i Info<'a>
    requires { 0 < length (info_children info.now) }
    ensures { result.now ≡ slice_index_or (info_children info.now) 0 result.now }
{
    &info.children()[0]
}

/// How many states to make room for: as many as the nodes are laid out as, or a few more.
#[cycle(count)]
pub(crate) fn room_for(infos: &[Info]) -> usize {
    let mut count: usize = 0;
    for info in infos {
        count = count.saturating_add(room_for_node(info));
    }
    count
}

#[cycle(count)]
fn room_for_node(info: &Info) -> usize {
    let children = info.children();
    let own = match info.expr() {
        Expr::Any { .. } => return 1,
        Expr::Literal { .. } => return 1,
        Expr::Delegate { .. } => return 1,
        Expr::Assertion(_) => return 1,
        Expr::Concat(_) => 0,
        Expr::Alt(_) => children.len().saturating_mul(2),
        Expr::Group(_) => 2,
        Expr::Repeat { .. } => 4,
        _ => return 0,
    };
    room_for(children).saturating_add(own)
}

impl Layout {
    ghost use Rattle.fancy_nfa.specs.ClassTexts.{no_text, texts_of};
    ghost use Rattle.fancy_nfa.specs.Layouts.{Lays, LaysEach, LaysNode, LaysOver, LaysRepeat, Replaces, states_in};
    ghost use Rattle.fancy_nfa.specs.Neighbours.{AreNeighbours, IsEasyNode};
    ghost use Rattle.fancy_nfa.specs.Shapes.{ended_by_jump, group_code, with_jumps};

    /// One more state.
    fn push(&mut self, nfa_state: NfaState) -> Result<(), Error>
        requires { IsStateReadBy self.now.unicode nfa_state }
        ensures { Lays (one (state_of nfa_state)) no_text self.old self.new result }
    {
        self.states.push(nfa_state)?;
        Ok(())
    }

    /// Writes over a state.
    fn patch(&mut self, at: usize, nfa_state: NfaState)
        requires { IsStateReadBy self.now.unicode nfa_state }
        ensures { Replaces
            (slice_set (states_in self.old) at (state_of nfa_state)) self.old self.new }
    {
        if at < self.states.len() {
            self.states[at] = nfa_state;
        }
    }

    /// Lays out a node behind the states so far.
    #[cycle(lay)]
    pub(crate) fn lay(&mut self, info: &Info) -> Result<(), Error>
        requires { IsEasyNode info.now }
        ensures { LaysNode info.now self.old self.new result }
    {
        match info.expr() {
            Expr::Any { newline, crlf } => self.push(NfaState::Character(CharTest::Any {
                newline: *newline,
                crlf: *crlf,
            })),
            Expr::Literal { val, casei } => self.lay_literal(val.as_str(), *casei),
            Expr::Delegate { inner, casei } => self.lay_class(inner.as_str(), *casei),
            Expr::Assertion(assertion) => self.lay_assertion(*assertion, info.in_look_around()),
            Expr::Concat(_) => self.lay_each(info.children()),
            Expr::Alt(_) => self.lay_alternation(info.children()),
            Expr::Group(_) => self.lay_group(info.start_group(), only_child(info)),
            Expr::Repeat { lo, hi, greedy, .. } => {
                self.lay_repeat(*lo, *hi, *greedy, only_child(info))
            }
            _ => Ok(()),
        }
    }

    /// Lays out nodes one after the other.
    #[cycle(lay)]
    pub(crate) fn lay_each(&mut self, infos: &[Info]) -> Result<(), Error>
        requires { AreNeighbours infos.now }
        ensures { LaysEach in_sequence infos.now self.old self.new result }
    {
        for info in infos {
            self.lay(info)?;
        }
        Ok(())
    }

    fn lay_literal(&mut self, val: &str, casei: bool) -> Result<(), Error>
        ensures { Lays (one (plain.Character (plain.OneChar (slice_index (chars val.now) 0) casei)))
            no_text self.old self.new result }
    {
        self.push(NfaState::Character(CharTest::One {
            c: first_char(val),
            casei,
        }))
    }

    // Out of line, as what `lay` calls below: what is inlined there takes stack on each level of a tree.
    #[inline(never)]
    fn lay_class(&mut self, inner: &str, casei: bool) -> Result<(), Error>
        ensures { Lays (one (plain.Character (plain.InClass inner.now casei)))
            (texts_of (Delegate inner.now casei)) self.old self.new result }
    {
        let class = CharClassMatcher::codepoint(self.alloc, inner, casei, self.unicode)?;
        let class = Box::new(self.alloc, class)?;
        self.push(NfaState::Character(CharTest::Class(class)))
    }

    fn lay_assertion(&mut self, assertion: Assertion, in_look: bool) -> Result<(), Error>
        ensures { (w : Within)
            → in_look ≡ is_look w
            → Lays (one (plain.Holds (assertion_within w (assertion_of assertion)))) no_text
            self.old self.new result }
    {
        self.push(NfaState::Holds(assertion_inside(assertion, in_look)))
    }

    #[cycle(lay)]
    #[inline(never)]
    fn lay_group(&mut self, group: usize, body: &Info) -> Result<(), Error>
        requires { IsEasyNode body.now }
        ensures { LaysOver (group_code group) body.now
            self.old self.new result }
    {
        self.push(NfaState::Open)?;
        self.lay(body)?;
        self.push(NfaState::Close(group))
    }

    #[cycle(lay)]
    #[inline(never)]
    fn lay_alternation(&mut self, infos: &[Info]) -> Result<(), Error>
        requires { AreNeighbours infos.now }
        ensures { LaysEach one_of infos.now self.old self.new result }
    {
        self.lay_branches(infos)?;
        self.push(NfaState::Join)
    }

    /// Lays out branches: each but the last goes on behind the last.
    #[cycle(lay)]
    fn lay_branches(&mut self, infos: &[Info]) -> Result<(), Error>
        requires { AreNeighbours infos.now }
        ensures { LaysEach (branches plain.Split) infos.now self.old self.new result }
    {
        let count = infos.len();
        if count == 0 {
            return Ok(());
        }
        let mut jumps = Vec::with_capacity(self.alloc, count)?;
        for i in 0..count - 1 {
            let jump = self.lay_branch(i == 0, &infos[i])?;
            jumps.push(jump)?;
        }
        self.lay(&infos[count - 1])?;
        self.patch_jumps(jumps);
        Ok(())
    }

    /// Lays out a branch before others, and returns where its jump to the end stands, which has no target yet.
    #[cycle(lay)]
    fn lay_branch(&mut self, is_first: bool, info: &Info) -> Result<usize, Error>
        requires { IsEasyNode info.now }
        ensures lays { LaysOver (ended_by_jump is_first) info.now self.old self.new result }
        ensures jump { IfOk result (λ jump. jump + 1 ≡ length (states_in self.new)) }
    {
        let here = self.states.len();
        self.push(NfaState::Jump(0))?;
        self.lay(info)?;
        let jump = self.states.len();
        self.push(NfaState::Jump(0))?;
        self.patch(here, branch_choice(is_first, here + 1, jump + 1));
        Ok(jump)
    }

    /// Writes the end of the states into jumps.
    fn patch_jumps(&mut self, jumps: Vec<usize>)
        ensures { Replaces
            (with_jumps jumps.items (length (states_in self.old)) (states_in self.old))
            self.old self.new }
    {
        let mut left = jumps;
        let end = self.states.len();
        while let Some(jump) = left.pop() {
            self.patch(jump, NfaState::Jump(end));
        }
    }

    #[cycle(lay)]
    fn lay_repeat(&mut self, lo: usize, hi: usize, greedy: bool, body: &Info) -> Result<(), Error>
        requires { IsEasyNode body.now }
        ensures { LaysRepeat lo (bound_of hi) greedy body.now self.old self.new result }
    {
        match loop_form(lo, hi, body.min_size() == 0) {
            Some(form) => self.lay_loop(form, greedy, body),
            None => Ok(()),
        }
    }

    #[cycle(lay)]
    fn lay_loop(&mut self, form: LoopForm, greedy: bool, body: &Info) -> Result<(), Error>
        requires { IsEasyNode body.now }
        ensures { LaysOver (λ code. repeated greedy code (form_of (Some form))) body.now
            self.old self.new result }
    {
        match form {
            LoopForm::AtMostOnce => self.lay_at_most_once(greedy, body),
            LoopForm::Epsilon { lo } => self.lay_counted(
                Loop {
                    lo,
                    hi: usize::MAX,
                    greedy,
                    asks_moved: true,
                },
                body,
            ),
            LoopForm::Star => self.lay_star(greedy, body),
            LoopForm::Plus => self.lay_plus(greedy, body),
            LoopForm::Counted { lo, hi } => self.lay_counted(
                Loop {
                    lo,
                    hi,
                    greedy,
                    asks_moved: false,
                },
                body,
            ),
        }
    }

    #[cycle(lay)]
    fn lay_at_most_once(&mut self, greedy: bool, body: &Info) -> Result<(), Error>
        requires { IsEasyNode body.now }
        ensures { LaysOver (optional greedy) body.now self.old self.new result }
    {
        let here = self.states.len();
        self.push(NfaState::Jump(0))?;
        self.lay(body)?;
        let (first, second) = preferred(greedy, here + 1, self.states.len());
        self.patch(here, NfaState::Split(first, second));
        self.push(NfaState::Join)
    }

    #[cycle(lay)]
    fn lay_star(&mut self, greedy: bool, body: &Info) -> Result<(), Error>
        requires { IsEasyNode body.now }
        ensures { LaysOver (star greedy) body.now self.old self.new result }
    {
        let here = self.states.len();
        self.push(NfaState::Jump(0))?;
        self.lay(body)?;
        self.push(NfaState::Jump(here))?;
        let (first, second) = preferred(greedy, here + 1, self.states.len());
        self.patch(here, NfaState::LoopSplit(first, second));
        Ok(())
    }

    /// Past the head, into the body.
    #[cycle(lay)]
    fn lay_plus(&mut self, greedy: bool, body: &Info) -> Result<(), Error>
        requires { IsEasyNode body.now }
        ensures { LaysOver (plus greedy) body.now self.old self.new result }
    {
        let base = self.states.len();
        self.push(NfaState::Jump(base + 2))?;
        self.lay_star(greedy, body)
    }

    #[cycle(lay)]
    fn lay_counted(&mut self, bounds: Loop, body: &Info) -> Result<(), Error>
        requires { IsEasyNode body.now }
        ensures { LaysOver (counted (loop_of bounds)) body.now self.old self.new result }
    {
        self.push(NfaState::CounterBegin)?;
        let here = self.states.len();
        self.push(NfaState::Jump(0))?;
        self.lay(body)?;
        self.push(NfaState::Jump(here))?;
        let after = self.states.len();
        self.patch(here, NfaState::CounterLoop { bounds, after });
        self.push(NfaState::Join)
    }
}
