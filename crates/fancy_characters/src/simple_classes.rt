//! The classes that are told by their texts: `\w`, `\d` and `\s` by Unicode, and one range of ASCII letters or digits in
//! brackets.

ghost use Rattle.std.specs.Prelude.{◌≡◌, ◌<◌, ◌≤◌, ℕ, IfSome, false, true, slice_index_or};
ghost use Rattle.fancy_characters.specs.SimpleClasses.{IsTold, is_in_simple, simple_text};

use ucd_category::GeneralCategory;
use ucd_perl::is_word_character;
use ucd_props::is_white_space;

/// A class that its text tells.
#[derive(Clone, Copy)]
pub(crate) enum SimpleClass {
    Word,
    Digit,
    Space,
    /// The ASCII characters from the first one to the last one.
    Range(u8, u8),
}

/// The range between brackets, if this text is one of ASCII letters or digits.
fn range_in(text: &[u8]) -> Option<SimpleClass>
    ensures { IfSome result (λ class. (text.now ≡ simple_text class) × IsTold false class) }
{
    match text {
        [b'[', first, b'-', last, b']'] => {
            if first.is_ascii_alphanumeric() && last.is_ascii_alphanumeric() && *first <= *last {
                Some(SimpleClass::Range(*first, *last))
            } else {
                None
            }
        }
        _ => None,
    }
}

impl SimpleClass {
    /// The class of this text, if it is a simple one and classes go by Unicode.
    pub(crate) fn of(name: &str, casei: bool, unicode: bool) -> Option<SimpleClass>
        ensures { IfSome result (λ class. (unicode ≡ true) × (name.now ≡ simple_text class)
            × IsTold casei class) }
    {
        if !unicode {
            return None;
        }
        match name {
            "\\w" => Some(SimpleClass::Word),
            "\\d" => Some(SimpleClass::Digit),
            "\\s" => Some(SimpleClass::Space),
            _ => {
                if casei {
                    return None;
                }
                range_in(name.as_bytes())
            }
        }
    }

    /// Whether the class holds the character.
    pub(crate) fn takes(self, c: char) -> bool
        ensures { result ≡ is_in_simple self c }
    {
        match self {
            SimpleClass::Word => is_word_character(c),
            SimpleClass::Digit => {
                GeneralCategory::for_char(c).number() == GeneralCategory::DecimalNumber.number()
            }
            SimpleClass::Space => is_white_space(c),
            SimpleClass::Range(first, last) => (first as u32) <= c as u32
                && c as u32 <= last as u32,
        }
    }

    /// Whether the class may hold a character beyond ASCII. Where it returns false it holds none.
    pub(crate) fn takes_others(self) -> bool
        ensures { result ≡ false → (c : ℕ) → 128 ≤ c → is_in_simple self c ≡ false }
    {
        match self {
            SimpleClass::Range(_, last) => last >= 128,
            _ => true,
        }
    }

    /// Whether the class holds the ASCII character.
    #[inline(always)]
    fn takes_ascii(self, c: u8) -> bool
        requires { c < 128 }
        ensures { result ≡ is_in_simple self c }
    {
        match self {
            SimpleClass::Word => c.is_ascii_alphanumeric() | (c == b'_'),
            SimpleClass::Digit => c.is_ascii_digit(),
            SimpleClass::Space => ((9 <= c) & (c <= 13)) | (c == 32),
            SimpleClass::Range(first, last) => (first <= c) & (c <= last),
        }
    }

    /// Which ASCII characters the class holds.
    pub(crate) fn ascii(self) -> [bool; 128]
        ensures { (c : ℕ) → c < 128 → slice_index_or result c false ≡ is_in_simple self c }
    {
        let mut answers = [false; 128];
        'ask: for c in 0..128u8 {
            answers[c as usize] = self.takes_ascii(c);
        }
        answers
    }
}
