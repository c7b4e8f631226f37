//! Matchers of one character: a class or a newline (`CharClassMatcher`).

ghost use Rattle.std.specs.Prelude.{◌≡◌, ◌+◌, ◌≤◌, ◌<◌, Some, false, length, option_map, IfOk, IfErr, IfSome, IsTrue};
ghost use Rattle.regex_hir.specs.Text as spelled;
ghost use Rattle.fancy_meaning.specs.Chars as meant;
ghost use Rattle.fancy_meaning.specs.Instr as plain;
ghost use Rattle.fancy_meaning.specs.Machine.{class_test};
ghost use Rattle.fancy_meaning.specs.Moves.{past_char};
ghost use Rattle.fancy_expr.specs.declared.error.Error.TheVariants.{Memory};

pub use crate::compiled::{CompiledClass, class_ranges};
pub use crate::folding::{
    CaseiLiteral, ascii_folds, fold_equal, folds_to_others, literal_takes,
    matches_literal_casei_unicode,
};
pub use crate::pieces::past_piece;
use crate::spelling::len_utf8;
use fancy_expr::error::Error;
use regex_nfa::char_at;
use std::alloc::Global;

/// A set of characters that one is tested for.
pub enum CharClassMatcher {
    /// The characters that `regex` matches by the class text, which is the name (`CompiledClass::name`).
    Codepoint(CompiledClass),
    /// The characters that end a line.
    Newline { unicode: bool },
}

// Not derived: whoever owns one calls this drop, and would prove a derived one again (docs/GATE.md).
impl Drop for CharClassMatcher {
    fn drop(self) {
        match self {
            CharClassMatcher::Codepoint(_) => {}
            CharClassMatcher::Newline { unicode: _ } => {}
        }
    }
}

impl CharClassMatcher {
    ghost use Rattle.fancy_characters.specs.Classes.{class_of, class_name, IsClassRefusal};
    ghost use Rattle.fancy_characters.specs.Others.{LacksOthers};

    /// The class of this text, as `regex` reads it.
    pub fn codepoint(
        alloc: Global,
        name: &str,
        casei: bool,
        unicode: bool,
    ) -> Result<CharClassMatcher, Error>
        ensures class { IfOk result (λ m. class_of m ≡ plain.Codepoint name.now casei unicode) }
        ensures name { IfOk result (λ m. class_name m ≡ Some name.now) }
        ensures is_class { IfOk result (λ _. IsTrue (meant.is_class unicode name.now casei)) }
        ensures refused { IfErr result (IsClassRefusal unicode name.now casei) }
    {
        let class = CompiledClass::new(alloc, name, casei, unicode)?;
        Ok(CharClassMatcher::Codepoint(class))
    }

    /// How many bytes the character at `ix` takes, if it is in the class.
    pub fn match_len(&self, alloc: Global, text: &str, ix: usize) -> Result<Option<usize>, Error>
        ensures taken { IfOk result (λ len. option_map (λ n. ix + n) len
            ≡ past_char text.now (class_test (class_of self.now)) ix) }
        ensures within { IfOk result (λ len. IfSome len (λ n. ix + n ≤ length text.now)) }
        ensures refused { IfErr result (λ e. e ≡ Memory) }
    {
        let Some(c) = character_at(text.as_bytes(), ix) else {
            return Ok(None);
        };
        if self.takes(alloc, c)? {
            Ok(Some(len_utf8(c as u32)))
        } else {
            Ok(None)
        }
    }

    /// Whether this ASCII character is in the class.
    pub fn takes_ascii(&self, c: u8) -> bool
        requires { c < 128 }
        ensures { result ≡ class_test (class_of self.now) c }
    {
        match self {
            CharClassMatcher::Codepoint(class) => class.takes_ascii(c),
            CharClassMatcher::Newline { unicode } => is_newline(c as u32, *unicode),
        }
    }

    /// Whether a character beyond ASCII may be in the class. Where it returns false none is.
    pub fn takes_others(&self) -> bool
        ensures { result ≡ false → LacksOthers (class_test (class_of self.now)) }
    {
        match self {
            CharClassMatcher::Codepoint(class) => class.takes_others(),
            CharClassMatcher::Newline { unicode } => *unicode,
        }
    }

    fn takes(&self, alloc: Global, c: char) -> Result<bool, Error>
        ensures taken { IfOk result (λ yes. yes ≡ class_test (class_of self.now) c) }
        ensures refused { IfErr result (λ e. e ≡ Memory) }
    {
        match self {
            CharClassMatcher::Codepoint(class) => Ok(class.takes(alloc, c)?),
            CharClassMatcher::Newline { unicode } => Ok(is_newline(c as u32, *unicode)),
        }
    }
}

/// The character that begins at `ix`.
fn character_at(text: &[u8], ix: usize) -> Option<char>
    ensures { result ≡ spelled.char_at text.now ix }
{
    char::from_u32(char_at(text, ix)?)
}

fn is_newline(c: u32, unicode: bool) -> bool
    ensures { result ≡ meant.is_newline unicode c }
{
    ((10 <= c) & (c <= 13)) | (unicode & ((c == 0x85) | ((0x2028 <= c) & (c <= 0x2029))))
}
