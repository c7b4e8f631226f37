//! Simple case folding: characters and texts that fold to the same, and literals with folded characters.

ghost use Rattle.std.specs.Prelude.{◌≡◌, ◌+◌, ◌<◌, ◌≤◌, ◌⊎◌, ℕ, IsTrue, max, length, chars, option_map, true, false, IfSome};
ghost use Rattle.std.specs.Char.{to_ascii_lowercase};
ghost use Rattle.ucd_case.specs.CaseFolding as table;
ghost use Rattle.fancy_meaning.specs.Chars as meant;
ghost use Rattle.fancy_meaning.specs.Moves.{past_chars};
ghost use Rattle.fancy_characters.specs.Others.{LacksOthers};

use crate::spelling::{len_utf8, spelled_at};
use regex_nfa::char_at;
use ucd_case::simple_fold;

/// Whether the two characters have the same simple folding.
pub fn fold_equal(a: char, b: char) -> bool
    ensures { result ≡ meant.fold_equal a b }
{
    simple_fold(a) == simple_fold(b)
}

/// The simple folding, which is the number itself where it is no character.
fn fold_code(c: u32) -> u32
    ensures { result ≡ table.simple_fold c }
{
    if c < 128 {
        return ascii_lower(c);
    }
    match char::from_u32(c) {
        Some(c) => simple_fold(c) as u32,
        None => c,
    }
}

/// Whether the two texts have the same number of characters, and fold to the same ones in pairs.
pub fn matches_literal_casei_unicode(a: &str, b: &str) -> bool
    ensures { result ≡ meant.fold_equal_chars (chars a.now) (chars b.now) }
{
    spell_fold_equal(a.as_bytes(), b.as_bytes())
}

/// Whether the bytes spell as many characters, which fold to the same ones in pairs.
pub(crate) fn spell_fold_equal(a: &[u8], b: &[u8]) -> bool
    ensures { result ≡ meant.fold_equal_chars (chars a.now) (chars b.now) }
{
    let mut i = 0;
    let mut j = 0;
    'pairs: loop {
        let Some((c, after_c)) = spelled_at(a, i) else {
            return spelled_at(b, j).is_none();
        };
        let Some((d, after_d)) = spelled_at(b, j) else {
            return false;
        };
        if fold_code(c) != fold_code(d) {
            return false;
        }
        i = after_c;
        j = after_d;
    }
}

/// The lower case of an ASCII letter, and every other number itself.
fn ascii_lower(c: u32) -> u32
    ensures { result ≡ to_ascii_lowercase c }
{
    if 65 <= c && c <= 90 { c + 32 } else { c }
}

/// Whether the two fold to the same; without `unicode` only ASCII letters fold.
fn folds_to(unicode: bool, a: u32, b: u32) -> bool
    ensures { result ≡ meant.folds_to unicode a b }
{
    if a == b {
        return true;
    }
    if unicode {
        fold_code(a) == fold_code(b)
    } else {
        ascii_lower(a) == ascii_lower(b)
    }
}

/// The ASCII characters that a folded literal of the character `c` takes: both numbers, as far as they are of ASCII.
pub fn ascii_folds(unicode: bool, c: u32) -> (u32, u32)
    ensures { (d : ℕ) → d < 128 → IsTrue (meant.literal_takes unicode c true d)
        → (d ≡ result.0) ⊎ (d ≡ result.1) }
{
    let lower = lower_case(unicode, c);
    if 97 <= lower && lower <= 122 {
        return (lower, lower - 32);
    }
    (lower, lower)
}

/// The lower case of each ASCII character that a folded literal of the character `c` takes, if it takes one.
fn lower_case(unicode: bool, c: u32) -> u32
    ensures { (d : ℕ) → d < 128 → IsTrue (meant.literal_takes unicode c true d)
        → result ≡ to_ascii_lowercase d }
{
    if unicode {
        fold_code(c)
    } else {
        ascii_lower(c)
    }
}

/// Whether a folded literal of the character `c` may take a character beyond ASCII: of ASCII letters two fold to one, `k` to
/// the Kelvin sign and `s` to the long s. Where it returns false it takes none.
pub fn folds_to_others(unicode: bool, c: u32) -> bool
    ensures { result ≡ false → LacksOthers (meant.literal_takes unicode c true) }
{
    if c >= 128 {
        return true;
    }
    let lower = ascii_lower(c);
    unicode && (lower == 107 || lower == 115)
}

/// Characters in order, each folded or not.
pub struct CaseiLiteral {
    chars: Vec<(char, bool)>,
    unicode: bool,
}

// Not derived: whoever owns one calls this drop, and would prove a derived one again (docs/GATE.md).
impl Drop for CaseiLiteral {
    fn drop(self) {
        let CaseiLiteral {
            chars: _,
            unicode: _,
        } = self;
    }
}

impl CaseiLiteral {
    ghost use Rattle.fancy_characters.specs.Literals.{can_begin_with, literal_chars, literal_unicode, literal_tests};

    /// The literal of these characters, each with whether it is folded.
    pub fn new(chars: Vec<(char, bool)>, unicode: bool) -> CaseiLiteral
        ensures chars { literal_chars result ≡ chars.items }
        ensures unicode { literal_unicode result ≡ unicode }
    {
        CaseiLiteral { chars, unicode }
    }

    /// Its characters in order, each with whether it is folded.
    pub fn chars(&self) -> &[(char, bool)]
        ensures { result.now ≡ literal_chars self.now }
    {
        self.chars.as_slice()
    }

    /// Whether it can take what begins with this character. A literal of no characters can.
    pub fn can_begin_with(&self, c: u8) -> bool
        ensures { result ≡ can_begin_with (literal_tests self.now) c }
    {
        match self.chars.first() {
            None => true,
            Some((first, casei)) => literal_takes(self.unicode, *first as u32, *casei, c as u32),
        }
    }

    /// Whether it may take what begins with a character beyond ASCII. Where it returns false it takes none.
    pub fn can_begin_with_others(&self) -> bool
        ensures { result ≡ false → LacksOthers (can_begin_with (literal_tests self.now)) }
    {
        match self.chars.first() {
            None => true,
            Some((first, true)) => folds_to_others(self.unicode, *first as u32),
            Some((first, false)) => *first as u32 >= 128,
        }
    }

    /// How many bytes its characters take from `ix` on, if they take what stands there.
    pub fn match_len(&self, text: &str, ix: usize) -> Option<usize>
        ensures taken { option_map (λ n. ix + n) result
            ≡ past_chars text.now (literal_tests self.now) ix }
        ensures within { IfSome result (λ n. ix + n ≤ max ix (length text.now)) }
    {
        self.taken(text.as_bytes(), ix)
    }

    fn taken(&self, text: &[u8], ix: usize) -> Option<usize>
        ensures taken { option_map (λ n. ix + n) result
            ≡ past_chars text.now (literal_tests self.now) ix }
        ensures within { IfSome result (λ n. ix + n ≤ max ix (length text.now)) }
    {
        let mut at = ix;
        'take: for i in 0..self.chars.len() {
            let (c, casei) = self.chars[i];
            let d = char_at(text, at)?;
            if !literal_takes(self.unicode, c as u32, casei, d) {
                return None;
            }
            at += len_utf8(d);
        }
        Some(at - ix)
    }
}

/// Whether a literal of the character `c` takes `d`: folded another character too, and without `unicode` only ASCII
/// letters fold.
pub fn literal_takes(unicode: bool, c: u32, casei: bool, d: u32) -> bool
    ensures { result ≡ meant.literal_takes unicode c casei d }
{
    if casei {
        folds_to(unicode, c, d)
    } else {
        c == d
    }
}
