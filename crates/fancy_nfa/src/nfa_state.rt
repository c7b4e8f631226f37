//! The states of an NFA, and the test on one character.

ghost use Rattle.std.specs.Prelude.{◌≡◌, ◌≤◌, ◌<◌, [], length, slice_get, IfOk, IfSome};
ghost use Rattle.fancy_meaning.specs.Chars as chars;
ghost use Rattle.fancy_meaning.specs.Machine.{class_test};
ghost use Rattle.fancy_meaning.specs.Moves.{past_char};
ghost use Rattle.fancy_characters.specs.Classes.{class_of};
ghost use Rattle.fancy_nfa_laws.specs.NfaSearch as plain;
ghost use Rattle.fancy_nfa.specs.AsciiRuns.{AllPass};
ghost use Rattle.fancy_nfa.specs.Views.{IsReadBy, test_of};

use fancy_backtrack::loops::Loop;
use fancy_characters::classes::{CharClassMatcher, literal_takes};
use fancy_characters::places::{len_utf8, skip_any};
use fancy_expr::expr::Assertion;
use regex_nfa::char_at;
use std::alloc::{AllocError, Global};

/// A test on one character.
pub(crate) enum CharTest {
    /// Any character, LF and CR as in `Expr::Any`.
    Any { newline: bool, crlf: bool },
    /// This character, folded or not.
    One { c: char, casei: bool },
    /// One of a class.
    Class(Box<CharClassMatcher>),
}

// Not derived: whoever owns one calls this drop, and would prove a derived one again (docs/GATE.md).
impl Drop for CharTest {
    fn drop(self) {
        match self {
            CharTest::Any {
                newline: _,
                crlf: _,
            } => {}
            CharTest::One { c: _, casei: _ } => {}
            CharTest::Class(_) => {}
        }
    }
}

/// One state. Where nothing is said, the search goes on at the next one.
pub(crate) enum NfaState {
    /// The fragment's end.
    Match,
    Character(CharTest),
    Holds(Assertion),
    /// A group begins.
    Open,
    /// The group with this number ends.
    Close(usize),
    /// Before an alternation, or a body that may be left out: on at the first, and else at the second.
    Split(usize, usize),
    /// As `Split`, before a further branch.
    BranchSplit(usize, usize),
    /// As `Split`, at the head of a loop that does not count.
    LoopSplit(usize, usize),
    Jump(usize),
    /// Where several ways on meet.
    Join,
    /// A loop that counts begins.
    CounterBegin,
    /// Before each of its iterations, which begin at the next state; `after` is behind the loop.
    CounterLoop { bounds: Loop, after: usize },
}

// Not derived: whoever owns one calls this drop, and would prove a derived one again (docs/GATE.md).
impl Drop for NfaState {
    fn drop(self) {
        match self {
            NfaState::Match => {}
            NfaState::Character(_) => {}
            NfaState::Holds(_) => {}
            NfaState::Open => {}
            NfaState::Close(_) => {}
            NfaState::Split(_, _) => {}
            NfaState::BranchSplit(_, _) => {}
            NfaState::LoopSplit(_, _) => {}
            NfaState::Jump(_) => {}
            NfaState::Join => {}
            NfaState::CounterBegin => {}
            NfaState::CounterLoop {
                bounds: _,
                after: _,
            } => {}
        }
    }
}

impl CharTest {
    /// Whether this ASCII character passes.
    #[inline(always)]
    pub(crate) fn takes_ascii(&self, unicode: bool, c: u8) -> bool
        requires small { c < 128 }
        requires read { IsReadBy unicode self.now }
        ensures { result ≡ plain.passes [] unicode (test_of self.now) c }
    {
        match self {
            CharTest::Any { newline, crlf } => *newline || !(c == 10 || (*crlf && c == 13)),
            CharTest::One { c: one, casei } => {
                if *casei {
                    literal_takes(unicode, *one as u32, true, c as u32)
                } else {
                    *one as u32 == c as u32
                }
            }
            CharTest::Class(class) => class.takes_ascii(c),
        }
    }

    /// Past the character at `ix`, if it passes. `Memory` where an allocation failed.
    #[inline(always)]
    pub(crate) fn past(
        &self,
        alloc: Global,
        unicode: bool,
        text: &str,
        ix: usize,
    ) -> Result<Option<usize>, AllocError>
        requires { IsReadBy unicode self.now }
        ensures ok { IfOk result (λ to. to
            ≡ past_char text.now (plain.passes text.now unicode (test_of self.now)) ix) }
        ensures small { IfOk result (λ to. IfSome to (λ i. i ≤ length text.now)) }
    {
        let Some(byte) = byte_at(text.as_bytes(), ix) else {
            return Ok(None);
        };
        if byte >= 128 {
            return self.skip_other(alloc, unicode, text, ix);
        }
        if self.takes_ascii(unicode, byte) {
            Ok(Some(ix + 1))
        } else {
            Ok(None)
        }
    }

    /// Past the characters of ASCII from this place on that pass. It asks once which kind of test this is, not at each.
    #[inline(always)]
    pub(crate) fn skip_ascii(&self, unicode: bool, text: &[u8], from: usize) -> usize
        requires { IsReadBy unicode self.now }
        ensures pass { AllPass (plain.passes [] unicode (test_of self.now)) text.now from result }
        ensures further { from ≤ result }
    {
        let mut place = from;
        match self {
            CharTest::Any { newline: true, .. } => {
                'ascii: while place < text.len() && text[place] < 128 {
                    place += 1;
                }
            }
            CharTest::Class(class) => {
                'class: while place < text.len()
                    && text[place] < 128
                    && class.takes_ascii(text[place])
                {
                    place += 1;
                }
            }
            _ => {
                'run: while place < text.len()
                    && text[place] < 128
                    && self.takes_ascii(unicode, text[place])
                {
                    place += 1;
                }
            }
        }
        place
    }

    /// As `past`, whatever character stands there.
    #[inline(never)]
    fn skip_other(
        &self,
        alloc: Global,
        unicode: bool,
        text: &str,
        ix: usize,
    ) -> Result<Option<usize>, AllocError>
        requires { IsReadBy unicode self.now }
        ensures ok { IfOk result (λ to. to
            ≡ past_char text.now (plain.passes text.now unicode (test_of self.now)) ix) }
        ensures small { IfOk result (λ to. IfSome to (λ i. i ≤ length text.now)) }
    {
        match self {
            CharTest::Any { newline, crlf } => Ok(skip_any(text.as_bytes(), *newline, *crlf, ix)),
            CharTest::One { c, casei } => Ok(skip_one(text.as_bytes(), unicode, *c, *casei, ix)),
            CharTest::Class(class) => skip_class(alloc, class, text, ix),
        }
    }
}

/// The byte at the place.
pub(crate) fn byte_at(text: &[u8], ix: usize) -> Option<u8>
    ensures { result ≡ slice_get text.now ix }
{
    if ix < text.len() {
        Some(text[ix])
    } else {
        None
    }
}

/// Past this character.
fn skip_one(text: &[u8], unicode: bool, c: char, casei: bool, ix: usize) -> Option<usize>
    ensures { result ≡ past_char text.now (chars.literal_takes unicode c casei) ix }
{
    let d = char_at(text, ix)?;
    if literal_takes(unicode, c as u32, casei, d) {
        Some(ix + len_utf8(d))
    } else {
        None
    }
}

/// Past one character of the class. `Memory` where an allocation failed.
fn skip_class(
    alloc: Global,
    class: &CharClassMatcher,
    text: &str,
    ix: usize,
) -> Result<Option<usize>, AllocError>
    ensures ok { IfOk result
        (λ to. to ≡ past_char text.now (class_test (class_of class.now)) ix) }
{
    match class.match_len(alloc, text, ix) {
        Ok(Some(len)) => Ok(Some(ix + len)),
        Ok(None) => Ok(None),
        Err(_) => Err(AllocError),
    }
}
