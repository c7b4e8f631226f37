//! What a replacement is written to.

ghost use Rattle.std.specs.Prelude.{◌≡◌, ◌<◌, ◌≤◌, ◌++◌, [], ℕ, IfNone, IfSome, IsUtf8, List, OnOk, length, min, string_bytes};
ghost use Rattle.fancy_meaning.specs.Numbers.{usize_max};

use std::alloc::{AllocError, Global};

/// What a text is written to, piece by piece: a `String`, or a [`BoundedText`].
pub trait Output {
    // With room for so many bytes it has this text: what was written, as far as there is room.
    ghost holds: { Self → ℕ → List ℕ → Type 0 };

    /// Appends a piece.
    ///
    /// # Errors
    ///
    /// `AllocError` if an allocation fails. A part of the piece may then be there.
    fn append(&mut self, piece: &str) -> Result<(), AllocError>
        ensures { OnOk result ((room : ℕ) (text : List ℕ)
            → holds self.old room text
            → holds self.new room (text ++ piece.now)) };
}

/// The whole text.
impl Output for String {
    ghost holds = { λ s room text. string_bytes s ≡ text };

    fn append(&mut self, piece: &str) -> Result<(), AllocError> {
        self.push_str(piece)
    }
}

/// The first bytes of a text, as far as there is room, with the length of the whole text.
#[derive(Drop)]
pub struct BoundedText {
    kept: Vec<u8>,
    room: usize,
    /// How many bytes the whole text has, or `usize::MAX` if it has more.
    count: usize,
    ghost below: { room < usize_max },
    ghost cut: { length kept.items ≡ min room count },
    ghost is_text: { count ≤ room → ∥ IsUtf8 kept.items ∥₁ },
}

impl BoundedText {
    ghost use Rattle.fancy_replace.specs.Outputs.{Holds, count_of, kept_of, room_of};

    /// An empty text with room for this many bytes; `usize::MAX` counts as one less. It allocates nothing.
    pub fn new(alloc: Global, room: usize) -> BoundedText
        ensures { Holds result room [] }
    {
        BoundedText {
            kept: Vec::new(alloc),
            room: room.min(usize::MAX - 1),
            count: 0,
        }
    }

    /// The bytes that are kept: the first ones of the text, as many as there is room for. A character may be cut.
    pub fn kept(&self) -> &[u8]
        ensures { result.now ≡ kept_of self.now }
    {
        &self.kept
    }

    /// How many bytes the whole text has, kept or not, or `usize::MAX` if it has more.
    pub fn count(&self) -> usize
        ensures { result ≡ count_of self.now }
    {
        self.count
    }

    /// The whole text, or `None` if it has more bytes than there is room for.
    pub fn into_text(self) -> Option<String>
        ensures text { IfSome
            result
            (λ s. (room : ℕ) (text : List ℕ) → Holds self room text → string_bytes s ≡ text) }
        ensures too_long { IfNone
            result
            ((room : ℕ) (text : List ℕ) → Holds self room text → room_of self < length text) }
    {
        if self.count > self.room {
            return None;
        }
        let BoundedText {
            kept,
            room: _,
            count: _,
        } = self;
        Some(unsafe { String::from_utf8_unchecked(kept) })
    }
}

/// As much of the text as there is room for.
impl Output for BoundedText {
    ghost use Rattle.fancy_replace.specs.Outputs.{Holds};

    ghost holds = { Holds };

    fn append(&mut self, piece: &str) -> Result<(), AllocError> {
        let room_left = self.room - self.kept.len();
        let kept = room_left.min(piece.len());
        self.kept.extend_from_slice(&piece.as_bytes()[..kept])?;
        self.count = self.count.saturating_add(piece.len());
        Ok(())
    }
}
