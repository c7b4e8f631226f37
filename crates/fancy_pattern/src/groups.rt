//! What follows an opening parenthesis.

ghost use Rattle.std.specs.Prelude.{◌≡◌, ◌+◌, ◌^◌, ◌<◌, ◌≤◌, length, IfOk, IfSome, option_map};
ghost use Rattle.fancy_meaning.specs.WellFormed.{most_groups};
ghost use Rattle.fancy_expr.specs.Views.{verb_of, look_of};
ghost use Rattle.fancy_pattern.specs.Texts.{seen, skip_common};
ghost use Rattle.fancy_tokens.specs.Tokens as tokens;
ghost use Rattle.fancy_pattern.specs.Groups as plain;
ghost use Rattle.fancy_pattern.specs.Groups.{plain_group, named_group_at, call_at, numbered_call_at, verb_word_at, past_verb_at, verb_at, absent_at, angle_at, python_at, condition_number_at, condition_at, condition_by_group_at, named_condition_at, group_condition_at, look_at, pattern_condition_at, flags_item_at, minus_at, enclosing_of, other_question_at, question_at, opening_at};
ghost use Rattle.fancy_tokens.specs.PatternViews.{item_of, reference_of, target_of, token_of};

use crate::characters::{Test, first, skip_word, split_run};
use crate::error::fault_at;
use crate::flags::flags_at;
use crate::names::{closed_at, delimited_at, level_at, name_at, named_at, reference_at};
use crate::numbers::number;
use fancy_expr::expr::{BacktrackingControlVerb, LookAround};
use fancy_tokens::error::{ErrorKind, Fault};
use fancy_tokens::flags::Flags;
use fancy_tokens::tokens::{
    Enclosing, Item, Leaf, Naming, Opening, Reference, Target, Token, Unboxed,
};

/// A plain `(`: a group, unless only groups with names capture.
fn plain_group<'a>(flags: Flags, opened: usize) -> Token<'a>
    requires { opened < 2 ^ 63 }
    ensures { token_of result ≡ tokens.Open (plain_group flags opened) }
{
    if flags.named_only {
        Token::Enclosing(Enclosing::Plain)
    } else {
        Token::Group(opened + 1)
    }
}

/// The name of a group, up to the character that closes it.
#[tactic(auto, unfolding(crate::specs::Groups::named_group_at))]
fn named_group_at(
    flags: Flags,
    opened: usize,
    close: char,
    text: &[char],
) -> Result<(Item<'_>, &[char]), Fault>
    requires { opened < 2 ^ 63 }
    ensures value { seen (λ p. (item_of p.0, p.1.now)) result
        ≡ named_group_at flags opened close text.now }
    ensures shorter { IfOk result (λ p. length p.1.now ≤ length text.now) }
{
    let (name, rest) = name_at(text)?;
    let rest = closed_at(close, rest)?;
    let group = Opening::Group {
        number: opened + 1,
        name: Some(name),
    };
    Ok((Item::new(flags, Unboxed::Open(group)), rest))
}

/// A reference by a name alone, up to the closing parenthesis.
#[tactic(auto, unfolding(crate::specs::Groups::call_at))]
fn call_at(flags: Flags, naming: Naming, text: &[char]) -> Result<(Item<'_>, &[char]), Fault>
    ensures value { seen (λ p. (item_of p.0, p.1.now)) result ≡ call_at flags naming text.now }
    ensures shorter { IfOk result (λ p. length p.1.now ≤ length text.now) }
{
    let (reference, rest) = named_at(naming, ')', text)?;
    Ok((Item::new(flags, Unboxed::Refer(reference)), rest))
}

/// A call by a number, up to the closing parenthesis.
#[tactic(auto, unfolding(crate::specs::Groups::numbered_call_at))]
fn numbered_call_at(
    flags: Flags,
    opened: usize,
    text: &[char],
) -> Result<(Item<'_>, &[char]), Fault>
    ensures value { seen (λ p. (item_of p.0, p.1.now)) result
        ≡ numbered_call_at flags opened text.now }
    ensures shorter { IfOk result (λ p. length p.1.now ≤ length text.now) }
{
    let (reference, rest) = reference_at(opened, Naming::Call, ')', text)?;
    Ok((Item::new(flags, Unboxed::Refer(reference)), rest))
}

/// The verb whose name and closing parenthesis stand at the front.
#[tactic(auto, unfolding(crate::specs::Groups::verb_word_at))]
fn verb_word_at(text: &[char]) -> Option<(BacktrackingControlVerb, &[char])>
    ensures value { option_map (λ p. (verb_of p.0, p.1.now)) result ≡ verb_word_at text.now }
    ensures shorter { IfSome result (λ p. length p.1.now ≤ length text.now) }
{
    if let Some(rest) = skip_word(text, "FAIL)") {
        return Some((BacktrackingControlVerb::Fail, rest));
    }
    if let Some(rest) = skip_word(text, "F)") {
        return Some((BacktrackingControlVerb::Fail, rest));
    }
    if let Some(rest) = skip_word(text, "ACCEPT)") {
        return Some((BacktrackingControlVerb::Accept, rest));
    }
    if let Some(rest) = skip_word(text, "COMMIT)") {
        return Some((BacktrackingControlVerb::Commit, rest));
    }
    if let Some(rest) = skip_word(text, "SKIP)") {
        return Some((BacktrackingControlVerb::Skip, rest));
    }
    if let Some(rest) = skip_word(text, "PRUNE)") {
        return Some((BacktrackingControlVerb::Prune, rest));
    }
    None
}

/// How many characters are left behind what the front has in common with this word of ASCII.
fn skip_common(text: &[char], word: &str) -> usize
    ensures { result ≡ skip_common word.now text.now }
{
    let mut rest = text;
    for byte in word.as_bytes() {
        let Some((c, after)) = first(rest) else {
            return 0;
        };
        if c as u32 != u32::from(*byte) {
            return rest.len();
        }
        rest = after;
    }
    rest.len()
}

/// How many characters are left from the first one on by which no verb goes on.
fn skip_verb(text: &[char]) -> usize
    ensures { result ≡ past_verb_at text.now }
{
    skip_common(text, "FAIL)")
        .min(skip_common(text, "F)"))
        .min(skip_common(text, "ACCEPT)"))
        .min(skip_common(text, "COMMIT)"))
        .min(skip_common(text, "SKIP)"))
        .min(skip_common(text, "PRUNE)"))
}

/// The verb behind `(*`.
#[tactic(auto, unfolding(crate::specs::Groups::verb_at))]
fn verb_at(flags: Flags, text: &[char]) -> Result<(Item<'_>, &[char]), Fault>
    ensures value { seen (λ p. (item_of p.0, p.1.now)) result ≡ verb_at flags text.now }
    ensures shorter { IfOk result (λ p. length p.1.now ≤ length text.now) }
{
    match verb_word_at(text) {
        Some((verb, rest)) => Ok((
            Item::new(flags, Unboxed::Token(Token::Leaf(Leaf::Verb(verb)))),
            rest,
        )),
        None => Err(Fault {
            left: skip_verb(text),
            kind: ErrorKind::GeneralParseError,
        }),
    }
}

/// What follows `(?~`.
#[tactic(auto, unfolding(crate::specs::Groups::absent_at))]
fn absent_at(flags: Flags, text: &[char]) -> (Item<'_>, &[char])
    ensures value { (item_of result.0, result.1.now) ≡ absent_at flags text.now }
    ensures shorter { length result.1.now ≤ length text.now }
{
    if let Some(rest) = skip_word(text, "|)") {
        return (
            Item::new(flags, Unboxed::Token(Token::Leaf(Leaf::AbsentClear))),
            rest,
        );
    }
    if let Some(rest) = skip_word(text, "|") {
        return (Item::new(flags, Unboxed::Open(Opening::AbsentBar)), rest);
    }
    (around(flags, Enclosing::AbsentRepeater), text)
}

fn around<'a>(flags: Flags, enclosing: Enclosing) -> Item<'a>
    ensures { item_of result ≡ plain.around flags enclosing }
{
    Item::new(flags, Unboxed::Token(Token::Enclosing(enclosing)))
}

/// What follows `(?<`: a look-behind, or the name of a group.
#[tactic(auto, unfolding(crate::specs::Groups::angle_at))]
fn angle_at(flags: Flags, opened: usize, text: &[char]) -> Result<(Item<'_>, &[char]), Fault>
    requires { opened < 2 ^ 63 }
    ensures value { seen (λ p. (item_of p.0, p.1.now)) result ≡ angle_at flags opened text.now }
    ensures shorter { IfOk result (λ p. length p.1.now ≤ length text.now) }
{
    match first(text) {
        Some(('=', rest)) => Ok((around(flags, Enclosing::Look(LookAround::LookBehind)), rest)),
        Some(('!', rest)) => Ok((
            around(flags, Enclosing::Look(LookAround::LookBehindNeg)),
            rest,
        )),
        _ => named_group_at(flags, opened, '>', text),
    }
}

/// What follows `(?P`: the name of a group, a back reference or a call.
#[tactic(auto, unfolding(crate::specs::Groups::python_at))]
fn python_at(flags: Flags, opened: usize, text: &[char]) -> Result<(Item<'_>, &[char]), Fault>
    requires { opened < 2 ^ 63 }
    ensures value { seen (λ p. (item_of p.0, p.1.now)) result ≡ python_at flags opened text.now }
    ensures shorter { IfOk result (λ p. length p.1.now ≤ length text.now) }
{
    match first(text) {
        Some(('<', rest)) => named_group_at(flags, opened, '>', rest),
        Some(('=', rest)) => call_at(flags, Naming::Backref { casei: flags.casei }, rest),
        Some(('>', rest)) => call_at(flags, Naming::Call, rest),
        Some(_) => Err(fault_at(ErrorKind::UnknownFlag, text)),
        None => Err(fault_at(ErrorKind::UnclosedOpenParen, text)),
    }
}

/// What follows `(?-`: a flags item, or a call of a group back from here; `minus` begins with the sign.
#[tactic(auto, unfolding(crate::specs::Groups::minus_at))]
fn minus_at<'a>(
    flags: Flags,
    opened: usize,
    minus: &'a [char],
    text: &'a [char],
) -> Result<(Item<'a>, &'a [char]), Fault>
    ensures value { seen (λ p. (item_of p.0, p.1.now)) result
        ≡ minus_at flags opened minus.now text.now }
    ensures shorter { IfOk result (λ p. length p.1.now ≤ length minus.now) }
{
    match first(text) {
        Some((c, _)) if c.is_ascii_digit() => numbered_call_at(flags, opened, minus),
        _ => flags_item_at(flags, minus),
    }
}

/// A flags item, from behind `(?` on.
#[tactic(auto, unfolding(crate::specs::Groups::flags_item_at))]
fn flags_item_at(flags: Flags, text: &[char]) -> Result<(Item<'_>, &[char]), Fault>
    ensures value { seen (λ p. (item_of p.0, p.1.now)) result ≡ flags_item_at flags text.now }
    ensures shorter { IfOk result (λ p. length p.1.now ≤ length text.now) }
{
    let (item, rest) = flags_at(flags, text)?;
    if item.is_group {
        Ok((around(item.flags, Enclosing::Plain), rest))
    } else {
        Ok((Item::new(item.flags, Unboxed::Token(Token::Flags)), rest))
    }
}

/// What stands around alternatives by one character behind `(?`.
fn enclosing_of(c: char) -> Option<Enclosing>
    ensures { result ≡ enclosing_of c }
{
    match c {
        ':' => Some(Enclosing::Plain),
        '>' => Some(Enclosing::Atomic),
        '=' => Some(Enclosing::Look(LookAround::LookAhead)),
        '!' => Some(Enclosing::Look(LookAround::LookAheadNeg)),
        _ => None,
    }
}

/// What follows `(?`.
#[tactic(auto, unfolding(crate::specs::Groups::question_at))]
fn question_at(flags: Flags, opened: usize, text: &[char]) -> Result<(Item<'_>, &[char]), Fault>
    requires { opened < 2 ^ 63 }
    ensures value { seen (λ p. (item_of p.0, p.1.now)) result
        ≡ question_at flags opened text.now }
    ensures shorter { IfOk result (λ p. length p.1.now ≤ length text.now) }
{
    let Some((c, after)) = first(text) else {
        return Err(fault_at(ErrorKind::UnclosedOpenParen, text));
    };
    match enclosing_of(c) {
        Some(enclosing) => Ok((around(flags, enclosing), after)),
        None => other_question_at(flags, opened, c, text, after),
    }
}

/// The others; `text` begins with the character, and `after` follows it.
#[tactic(auto, unfolding(crate::specs::Groups::other_question_at))]
fn other_question_at<'a>(
    flags: Flags,
    opened: usize,
    c: char,
    text: &'a [char],
    after: &'a [char],
) -> Result<(Item<'a>, &'a [char]), Fault>
    requires room { opened < 2 ^ 63 }
    requires shorter { length after.now ≤ length text.now }
    ensures value { seen (λ p. (item_of p.0, p.1.now)) result
        ≡ other_question_at flags opened c text.now after.now }
    ensures shorter { IfOk result (λ p. length p.1.now ≤ length text.now) }
{
    match c {
        '~' => Ok(absent_at(flags, after)),
        '<' => angle_at(flags, opened, after),
        '\'' => named_group_at(flags, opened, '\'', after),
        'P' => python_at(flags, opened, after),
        '&' => call_at(flags, Naming::Call, after),
        '(' => condition_at(flags, opened, after),
        '#' => Err(Fault {
            left: 0,
            kind: ErrorKind::UnclosedOpenParen,
        }),
        '-' => minus_at(flags, opened, text, after),
        '+' => numbered_call_at(flags, opened, text),
        '0'..='9' => numbered_call_at(flags, opened, text),
        _ => flags_item_at(flags, text),
    }
}

/// What follows an opening parenthesis.
#[tactic(auto, unfolding(crate::specs::Groups::opening_at))]
pub(crate) fn opening_at(
    flags: Flags,
    opened: usize,
    text: &[char],
) -> Result<(Item<'_>, &[char]), Fault>
    requires { opened < 2 ^ 63 }
    ensures value { seen (λ p. (item_of p.0, p.1.now)) result
        ≡ opening_at flags opened text.now }
    ensures shorter { IfOk result (λ p. length p.1.now ≤ length text.now) }
{
    match first(text) {
        Some(('?', after)) => question_at(flags, opened, after),
        Some(('*', after)) => verb_at(flags, after),
        _ => {
            let group = plain_group(flags, opened);
            Ok((Item::new(flags, Unboxed::Token(group)), text))
        }
    }
}

/// A number, maybe a level, and the closing parenthesis: the digits, the level, and what follows.
#[tactic(auto, unfolding(crate::specs::Groups::condition_number_at))]
fn condition_number_at(text: &[char]) -> Option<((&[char], Option<isize>), &[char])>
    ensures value { option_map (λ p. ((p.0.0.now, p.0.1), p.1.now)) result
        ≡ condition_number_at text.now }
    ensures shorter { IfSome result (λ p. length p.1.now ≤ length text.now) }
{
    let (digits, rest) = split_run(text, Test::Digit);
    if digits.is_empty() {
        return None;
    }
    let (level, rest) = level_at(rest).ok()?;
    let rest = skip_word(rest, ")")?;
    Some(((digits, level), rest))
}

/// The condition behind `(?(`.
#[tactic(auto, unfolding(crate::specs::Groups::condition_at))]
fn condition_at(flags: Flags, opened: usize, text: &[char]) -> Result<(Item<'_>, &[char]), Fault>
    ensures value { seen (λ p. (item_of p.0, p.1.now)) result
        ≡ condition_at flags opened text.now }
    ensures shorter { IfOk result (λ p. length p.1.now ≤ length text.now) }
{
    if let Some(rest) = skip_word(text, "DEFINE)") {
        return Ok((around(flags, Enclosing::Define), rest));
    }
    match condition_number_at(text) {
        Some(((digits, level), rest)) => condition_by_group_at(flags, digits, level, text, rest),
        None => group_condition_at(flags, opened, text),
    }
}

/// A condition by the number of a group.
#[tactic(auto, unfolding(crate::specs::Groups::condition_by_group_at))]
fn condition_by_group_at<'a>(
    flags: Flags,
    digits: &[char],
    level: Option<isize>,
    text: &'a [char],
    rest: &'a [char],
) -> Result<(Item<'a>, &'a [char]), Fault>
    requires { length rest.now ≤ length text.now }
    ensures value { seen (λ p. (item_of p.0, p.1.now)) result
        ≡ condition_by_group_at flags digits.now level text.now rest.now }
    ensures shorter { IfOk result (λ p. length p.1.now ≤ length text.now) }
{
    let Some(group) = number(digits, 10) else {
        return Err(fault_at(ErrorKind::InvalidBackref, text));
    };
    let reference = Reference {
        naming: Naming::Exists,
        target: Target::Number(group),
        level,
        left: text.len(),
    };
    Ok((
        Item::new(flags, Unboxed::Open(Opening::If(reference))),
        rest,
    ))
}

/// A condition by what names a group between `<` and `>` or quotes.
fn named_condition_at(
    flags: Flags,
    opened: usize,
    text: &[char],
) -> Result<(Item<'_>, &[char]), Fault>
    ensures value { seen (λ p. (item_of p.0, p.1.now)) result
        ≡ named_condition_at flags opened text.now }
    ensures shorter { IfOk result (λ p. length p.1.now ≤ length text.now) }
{
    let (reference, rest) = delimited_at(opened, Naming::Exists, text)?;
    let rest = closed_at(')', rest)?;
    Ok((
        Item::new(flags, Unboxed::Open(Opening::If(reference))),
        rest,
    ))
}

/// The same, or a condition that is a pattern.
#[tactic(auto, unfolding(crate::specs::Groups::group_condition_at))]
fn group_condition_at(
    flags: Flags,
    opened: usize,
    text: &[char],
) -> Result<(Item<'_>, &[char]), Fault>
    ensures value { seen (λ p. (item_of p.0, p.1.now)) result
        ≡ group_condition_at flags opened text.now }
    ensures shorter { IfOk result (λ p. length p.1.now ≤ length text.now) }
{
    match first(text) {
        Some(('<', _)) => named_condition_at(flags, opened, text),
        Some(('\'', _)) => named_condition_at(flags, opened, text),
        _ => Ok(pattern_condition_at(flags, text)),
    }
}

/// The look-around that begins behind an opening parenthesis.
#[tactic(auto, unfolding(crate::specs::Groups::look_at))]
fn look_at(text: &[char]) -> Option<(LookAround, &[char])>
    ensures value { option_map (λ p. (look_of p.0, p.1.now)) result
        ≡ look_at text.now }
    ensures shorter { IfSome result (λ p. length p.1.now ≤ length text.now) }
{
    if let Some(rest) = skip_word(text, "?=") {
        return Some((LookAround::LookAhead, rest));
    }
    if let Some(rest) = skip_word(text, "?!") {
        return Some((LookAround::LookAheadNeg, rest));
    }
    if let Some(rest) = skip_word(text, "?<=") {
        return Some((LookAround::LookBehind, rest));
    }
    if let Some(rest) = skip_word(text, "?<!") {
        return Some((LookAround::LookBehindNeg, rest));
    }
    None
}

/// A condition that is a look-around in the one pair of parentheses, or any other pattern.
#[tactic(auto, unfolding(crate::specs::Groups::pattern_condition_at))]
fn pattern_condition_at(flags: Flags, text: &[char]) -> (Item<'_>, &[char])
    ensures value { (item_of result.0, result.1.now) ≡ pattern_condition_at flags text.now }
    ensures shorter { length result.1.now ≤ length text.now }
{
    match look_at(text) {
        Some((look, rest)) => (Item::new(flags, Unboxed::Open(Opening::IfLook(look))), rest),
        None => (Item::new(flags, Unboxed::Open(Opening::IfPattern)), text),
    }
}
