//! Sets of bytes, and whether a text has one of them.

ghost use Rattle.std.specs.Prelude.{◌≡◌, ◌⊎◌, ℕ, true, IsTrue, MatchOption, length};
ghost use Rattle.memchr.specs.Find.{NoneBefore, Passes};
ghost use Rattle.fancy_literals.specs.ByteSets.{AreAmong, HasNone, is_in, is_one_of};

use memchr::{memchr, memchr2, memchr3};

/// A set of bytes.
#[derive(Drop)]
pub struct ByteSet {
    /// Whether each byte is in it.
    pub bytes: [bool; 256],
    /// Its bytes, if they are few.
    few: Few,
    ghost has: { AreAmong bytes few },
}

/// At most three bytes, or more than that.
#[derive(Clone, Copy)]
enum Few {
    Nothing,
    One(u8),
    Two(u8, u8),
    Three(u8, u8, u8),
    Many,
}

impl ByteSet {
    /// The set with these bytes: by whether each byte is in it.
    pub fn new(bytes: [bool; 256]) -> ByteSet
        ensures { result.bytes ≡ bytes }
    {
        let few = few_of(&bytes);
        ByteSet { bytes, few }
    }

    /// Whether it has at most three bytes, so that texts are searched for them by vectors.
    pub fn is_few(&self) -> bool {
        !matches!(self.few, Few::Many)
    }

    /// Whether it has no byte.
    pub fn is_empty(&self) -> bool {
        matches!(self.few, Few::Nothing)
    }

    /// The first place of the text before which none of its bytes is, if one may be in the text. It takes time in the length
    /// of the text.
    pub fn find(&self, text: &[u8]) -> Option<usize>
        ensures { MatchOption result
            (HasNone (is_in self.now.bytes) text.now)
            (λ at. NoneBefore (Passes (is_in self.now.bytes) text.now) 0 (length text.now) at) }
    {
        match self.few {
            Few::Nothing => None,
            Few::One(a) => memchr(a, text),
            Few::Two(a, b) => memchr2(a, b, text),
            Few::Three(a, b, c) => memchr3(a, b, c, text),
            Few::Many => if text.is_empty() { None } else { Some(0) },
        }
    }

    /// Whether the text has none of its bytes. It takes time in the length of the text.
    pub fn is_missing(&self, text: &[u8]) -> bool
        ensures { IsTrue result → HasNone (is_in self.now.bytes) text.now }
    {
        match self.few {
            Few::Nothing => true,
            Few::One(a) => memchr(a, text).is_none(),
            Few::Two(a, b) => memchr2(a, b, text).is_none(),
            Few::Three(a, b, c) => memchr3(a, b, c, text).is_none(),
            Few::Many => has_none(&self.bytes, text),
        }
    }
}

impl Few {
    /// These and another byte.
    fn with(self, byte: u8) -> Few
        ensures old { (other : ℕ) → is_one_of self other ≡ true → is_one_of result other ≡ true }
        ensures new { is_one_of result byte ≡ true }
    {
        match self {
            Few::Nothing => Few::One(byte),
            Few::One(a) => Few::Two(a, byte),
            Few::Two(a, b) => Few::Three(a, b, byte),
            _ => Few::Many,
        }
    }
}

/// The bytes of the set, if they are few.
fn few_of(bytes: &[bool; 256]) -> Few
    ensures { AreAmong bytes.now result }
{
    let mut few = Few::Nothing;
    'bytes: for byte in 0..256usize {
        if bytes[byte] {
            few = few.with(byte as u8);
        }
    }
    few
}

/// Whether the text has none of the bytes of the set, byte by byte.
fn has_none(bytes: &[bool; 256], text: &[u8]) -> bool
    ensures { IsTrue result → HasNone (is_in bytes.now) text.now }
{
    'text: for at in 0..text.len() {
        if bytes[text[at] as usize] {
            return false;
        }
    }
    true
}
