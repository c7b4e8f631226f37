//! How deep a text nests, told without its tokens.

ghost use Rattle.std.specs.Prelude.{◌≡◌, ◌+◌, ◌<◌, ◌≤◌};
ghost use Rattle.fancy_meaning.specs.Numbers.{usize_max};
ghost use Rattle.fancy_meaning.specs.Tree.{Tree};
ghost use Rattle.fancy_notation.specs.Depth as plain;
ghost use Rattle.fancy_notation.specs.Grammar.{IsSpelled};
ghost use Rattle.fancy_notation.specs.Lexing.{tokens_of};
ghost use Rattle.fancy_notation.specs.declared.lexer.Mode.TheVariants as mode;

use crate::lexer::Mode;

/// What the character after this one belongs to.
fn mode_past(mode: Mode, c: char) -> Mode
    ensures { result ≡ plain.mode_past mode c }
{
    match mode {
        Mode::Outside => outside_past(c),
        Mode::Inside => inside_past(c),
        Mode::Escaped => escaped_past(c),
        Mode::Coded => coded_past(c),
        Mode::Digits { count, code } => digit_past(count, code, c),
        Mode::Spoiled => Mode::Spoiled,
    }
}

fn outside_past(c: char) -> Mode
    ensures { result ≡ plain.mode_past mode.Outside c }
{
    if c == '"' {
        Mode::Inside
    } else {
        Mode::Outside
    }
}

fn inside_past(c: char) -> Mode
    ensures { result ≡ plain.mode_past mode.Inside c }
{
    match c {
        '"' => Mode::Outside,
        '\\' => Mode::Escaped,
        _ => Mode::Inside,
    }
}

fn escaped_past(c: char) -> Mode
    ensures { result ≡ plain.mode_past mode.Escaped c }
{
    match c {
        '"' => Mode::Inside,
        '\\' => Mode::Inside,
        'n' => Mode::Inside,
        'r' => Mode::Inside,
        'u' => Mode::Coded,
        _ => Mode::Spoiled,
    }
}

fn coded_past(c: char) -> Mode
    ensures { result ≡ plain.mode_past mode.Coded c }
{
    if c == '{' {
        Mode::Digits { count: 0, code: 0 }
    } else {
        Mode::Spoiled
    }
}

fn digit_past(count: usize, code: u32, c: char) -> Mode
    ensures { result ≡ plain.mode_past (mode.Digits count code) c }
{
    if c == '}' {
        return code_past(count, code);
    }
    if count >= 6 {
        return Mode::Spoiled;
    }
    if code >= 0x1_1000 {
        return Mode::Spoiled;
    }
    match c.to_digit(16) {
        Some(digit) => Mode::Digits {
            count: count + 1,
            code: code * 16 + digit,
        },
        None => Mode::Spoiled,
    }
}

fn code_past(count: usize, code: u32) -> Mode
    ensures { result ≡ plain.mode_past (mode.Digits count code) 125 }
{
    match char::from_u32(code) {
        Some(_) if count > 0 => Mode::Inside,
        _ => Mode::Spoiled,
    }
}

/// How many parentheses are open behind this character.
fn nesting_past(mode: Mode, nesting: usize, c: char) -> usize
    requires { nesting < usize_max }
    ensures { result ≡ plain.nesting_past mode nesting c }
{
    match mode {
        Mode::Outside => parentheses_past(nesting, c),
        _ => nesting,
    }
}

fn parentheses_past(nesting: usize, c: char) -> usize
    requires { nesting < usize_max }
    ensures { result ≡ plain.nesting_past mode.Outside nesting c }
{
    match c {
        '(' => nesting + 1,
        ')' => nesting.saturating_sub(1),
        _ => nesting,
    }
}

/// How deep a text nests: the most parentheses that are open at one place of it, outside of texts between quotes. What
/// follows a malformed text between quotes is not counted.
///
/// The text is read once, no memory is asked for, and nothing recurses: so it can be asked of any text before
/// `read_tree`, which recurses for each level.
pub fn depth(text: &str) -> usize
    ensures value { result ≡ plain.depth text.now }
    ensures bounds { (e : Tree)
        → IsSpelled (tokens_of text.now) e
        → plain.levels e ≤ result + 2 }
{
    let mut mode = Mode::Outside;
    let mut nesting = 0;
    let mut most = 0;
    for c in text.chars() {
        nesting = nesting_past(mode, nesting, c);
        mode = mode_past(mode, c);
        most = most.max(nesting);
    }
    most
}
