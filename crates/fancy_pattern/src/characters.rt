//! The characters of a pattern, read from the front.

ghost use Rattle.std.specs.Prelude.{◌≡◌, ◌+◌, ◌<◌, ◌≤◌, ◌^◌, length, option_map, take, drop, encode_utf8_all, IfSome};
ghost use Rattle.std.specs.List.{take_while, prefix_len};
ghost use Rattle.fancy_pattern.specs.Texts.{uncons, skip_word, skip_run, passes, comment_end, gap_at, blank_at};

use unicode::properties::is_alphabetic;

/// What the characters of a run have in common.
#[derive(Clone, Copy)]
pub enum Test {
    /// A decimal digit.
    Digit,
    /// A hexadecimal digit.
    HexDigit,
    /// What may stand in the name of a group.
    NameChar,
    /// Space, tab, LF or CR.
    Blank,
    /// What stands in a line.
    InLine,
    /// What stands in the braces of a property's name.
    InBraces,
}

impl Test {
    pub(crate) fn passes(self, c: char) -> bool
        ensures { result ≡ passes self c }
    {
        match self {
            Test::Digit => c.is_ascii_digit(),
            Test::HexDigit => c.is_ascii_hexdigit(),
            Test::NameChar => c == '_' || c.is_ascii_digit() || is_alphabetic(c),
            Test::Blank => c == ' ' || c == '\t' || c == '\n' || c == '\r',
            Test::InLine => c != '\n',
            Test::InBraces => c != '}',
        }
    }
}

/// The first character, and what follows it.
pub(crate) fn first(text: &[char]) -> Option<(char, &[char])>
    ensures value { option_map (λ p. (p.0, p.1.now)) result ≡ uncons text.now }
    ensures shorter { IfSome result (λ p. length p.1.now + 1 ≡ length text.now) }
{
    let (c, after) = text.split_first()?;
    Some((*c, after))
}

/// What follows this word of ASCII at the front.
pub(crate) fn skip_word<'a>(text: &'a [char], word: &str) -> Option<&'a [char]>
    ensures value { option_map (λ t. t.now) result ≡ skip_word word.now text.now }
    ensures shorter { IfSome result (λ t. length t.now + length word.now ≡ length text.now) }
{
    let mut rest = text;
    for byte in word.as_bytes() {
        let (c, after) = first(rest)?;
        if c as u32 != u32::from(*byte) {
            return None;
        }
        rest = after;
    }
    Some(rest)
}

/// How many characters at the front pass the test.
pub(crate) fn run_length(text: &[char], test: Test) -> usize
    ensures { result ≡ length (take_while (passes test) text.now) }
{
    text.iter().take_while(|c| test.passes(**c)).count()
}

/// The longest run at the front that passes the test, and what follows it.
pub(crate) fn split_run(text: &[char], test: Test) -> (&[char], &[char])
    ensures run { result.0.now ≡ take_while (passes test) text.now }
    ensures rest { result.1.now ≡ skip_run (passes test) text.now }
    ensures shorter { length result.0.now + length result.1.now ≡ length text.now }
{
    text.split_at(run_length(text, test))
}

/// What follows the run at the front that passes the test.
pub(crate) fn skip_run(text: &[char], test: Test) -> &[char]
    ensures value { result.now ≡ skip_run (passes test) text.now }
    ensures shorter { length result.now ≤ length text.now }
{
    let (_, rest) = split_run(text, test);
    rest
}

/// What follows the first `)` before which no backslash stands; `escaped` says whether one stands before the front.
fn skip_comment(text: &[char], escaped: bool) -> Option<&[char]>
    ensures value { option_map (λ t. t.now) result ≡ comment_end escaped text.now }
    ensures shorter { IfSome result (λ t. length t.now ≤ length text.now) }
{
    let mut rest = text;
    let mut escaped = escaped;
    while let Some((c, after)) = first(rest) {
        if c == ')' && !escaped {
            return Some(after);
        }
        escaped = c == '\\';
        rest = after;
    }
    None
}

/// What follows a comment, or under `x` a blank or the rest of a line; none where no such thing stands at the front.
pub(crate) fn skip_gap(text: &[char], ignore_whitespace: bool) -> Option<&[char]>
    ensures value { option_map (λ t. t.now) result ≡ gap_at ignore_whitespace text.now }
    ensures shorter { IfSome result (λ t. length t.now + 1 ≤ length text.now) }
{
    match skip_word(text, "(?#") {
        Some(after) => skip_comment(after, false),
        None => skip_blank(text, ignore_whitespace),
    }
}

fn skip_blank(text: &[char], ignore_whitespace: bool) -> Option<&[char]>
    ensures value { option_map (λ t. t.now) result
        ≡ blank_at ignore_whitespace text.now }
    ensures shorter { IfSome result (λ t. length t.now + 1 ≤ length text.now) }
{
    let (c, after) = first(text)?;
    if !ignore_whitespace {
        return None;
    }
    if Test::Blank.passes(c) {
        return Some(after);
    }
    if c == '#' {
        return Some(skip_run(after, Test::InLine));
    }
    None
}

/// How many bytes these characters have.
pub(crate) fn byte_count(text: &[char]) -> usize
    ensures { length (encode_utf8_all text.now) < 2 ^ 64
        → result ≡ length (encode_utf8_all text.now) }
{
    let mut count: usize = 0;
    for c in text {
        count = count.saturating_add(c.len_utf8());
    }
    count
}
