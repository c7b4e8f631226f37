//! A class with its answers for ASCII, and its other characters: listed where its pattern is one set, else asked of `regex`.

ghost use Rattle.std.specs.Prelude.{◌≡◌, ℕ, ◌<◌, ◌≤◌, ◌++◌, ◌||◌, false, is_some, slice_index_or, length, encode_utf8, string_bytes, IfOk, IfErr, IfSome, IsTrue};
ghost use Rattle.regex.specs.Patterns.{find_str};
ghost use Rattle.regex.specs.Strings.{regex_pattern, matcher_pattern};
ghost use Rattle.regex_class.specs.Ranges.{in_range, in_ranges};
ghost use Rattle.fancy_characters.specs.Members.{AreMembersBy};
ghost use Rattle.fancy_meaning.specs.Chars as meant;

use crate::members::members;
use crate::simple_classes::SimpleClass;
use fancy_expr::error::{CompileError, Error};
use regex::{Matcher, Regex};
use regex_class::{Class, ClassRange};
use regex_syntax::ErrorKind;
use std::alloc::{AllocError, Global};
use std::marker::Model;

/// What tells whether a character beyond ASCII is in a class.
#[derive(Drop)]
pub(crate) enum Others {
    /// The class that its text tells.
    Simple(SimpleClass),
    /// All characters of the class.
    Listed(Class),
    /// The regex that finds them.
    Asked(Box<Regex>),
}

/// The text of a class, its answers for the ASCII characters, and what answers for the others.
pub struct CompiledClass {
    inner: String,
    casei: bool,
    unicode: bool,
    ascii: [bool; 128],
    others: Others,
}

// Not derived: whoever owns one calls this drop, and would prove a derived one again (docs/GATE.md).
impl Drop for CompiledClass {
    fn drop(self) {
        let CompiledClass {
            inner: _,
            casei: _,
            unicode: _,
            ascii: _,
            others: _,
        } = self;
    }
}

impl Model for CompiledClass {
    ghost use Rattle.std.specs.Prelude.{string_bytes};
    ghost use Rattle.fancy_characters.specs.ClassTexts.{ClassText, compiled_text, AreAnswersOf, AnswersOthers};

    ghost Value = { ClassText };

    ghost view = { λ c. compiled_text (string_bytes c.inner) c.casei c.unicode };

    ghost invariant = { λ c. AreAnswersOf
        (compiled_text (string_bytes c.inner) c.casei c.unicode) c.ascii
        × AnswersOthers (compiled_text (string_bytes c.inner) c.casei c.unicode) c.others };
}

impl CompiledClass {
    ghost use Rattle.fancy_characters.specs.Classes.{IsClassRefusal};
    ghost use Rattle.fancy_characters.specs.Others.{LacksOthers};

    pub(crate) fn new(
        alloc: Global,
        name: &str,
        casei: bool,
        unicode: bool,
    ) -> Result<CompiledClass, Error>
        ensures class { IfOk result
            (λ c. c ≡ record { inner = name.now; casei = casei; unicode = unicode }) }
        ensures is_class { IfOk result (λ _. IsTrue (meant.is_class unicode name.now casei)) }
        ensures refused { IfErr result (IsClassRefusal unicode name.now casei) }
    {
        let inner = String::from_str(alloc, name)?;
        if let Some(simple) = SimpleClass::of(name, casei, unicode) {
            return Ok(CompiledClass {
                inner,
                casei,
                unicode,
                ascii: simple.ascii(),
                others: Others::Simple(simple),
            });
        }
        let pattern = class_pattern(alloc, name, casei, unicode)?;
        let listed = match members(alloc, pattern.as_str()) {
            Ok(listed) => listed,
            Err(kind) => match kind {
                ErrorKind::OutOfMemory => return Err(Error::Memory),
                _ => return Err(Error::CompileError(CompileError::InnerError(inner))),
            },
        };
        if let Some(members) = listed {
            return Ok(CompiledClass {
                inner,
                casei,
                unicode,
                ascii: ascii_members(&members),
                others: Others::Listed(members),
            });
        }
        let regex = match Regex::new(alloc, pattern.as_str()) {
            Ok(regex) => regex,
            Err(error) => match error {
                regex::Error::OutOfMemory => return Err(Error::Memory),
                _ => return Err(Error::CompileError(CompileError::ClassTooBig(inner))),
            },
        };
        Ok(CompiledClass {
            inner,
            casei,
            unicode,
            ascii: ascii_answers(alloc, &regex)?,
            others: Others::Asked(Box::new(alloc, regex)?),
        })
    }

    /// The text of the class, as it was handed in.
    pub fn name(&self) -> &str
        ensures { result.now ≡ self.now.inner }
    {
        self.inner.as_str()
    }

    /// Whether the class holds this ASCII character.
    pub(crate) fn takes_ascii(&self, c: u8) -> bool
        requires { c < 128 }
        ensures { result
            ≡ meant.class_takes self.now.unicode self.now.inner self.now.casei c }
    {
        self.ascii[c as usize]
    }

    /// Whether the class may hold a character beyond ASCII. Where it returns false it holds none.
    pub(crate) fn takes_others(&self) -> bool
        ensures { result ≡ false → LacksOthers
            (meant.class_takes self.now.unicode self.now.inner self.now.casei) }
    {
        match &self.others {
            Others::Simple(simple) => simple.takes_others(),
            Others::Listed(members) => has_others(members),
            Others::Asked(_) => true,
        }
    }

    /// Whether the class holds the character.
    pub(crate) fn takes(&self, alloc: Global, c: char) -> Result<bool, AllocError>
        ensures { IfOk result
            (λ yes. yes ≡ meant.class_takes self.now.unicode self.now.inner self.now.casei c) }
    {
        if c.is_ascii() {
            return Ok(self.takes_ascii(c as u8));
        }
        match &self.others {
            Others::Simple(simple) => Ok(simple.takes(c)),
            Others::Listed(members) => Ok(members.contains(c as u32)),
            Others::Asked(regex) => Ok(ask(&mut regex.matcher(alloc)?, c)),
        }
    }
}

/// The characters of the class with this text as ranges, if its pattern is one set.
pub fn class_ranges(
    alloc: Global,
    name: &str,
    casei: bool,
    unicode: bool,
) -> Result<Option<Class>, AllocError>
    ensures { IfOk result (λ found. IfSome found
        (λ class. AreMembersBy (meant.class_takes unicode name.now casei) class.ranges.items)) }
{
    let pattern = class_pattern(alloc, name, casei, unicode)?;
    match members(alloc, pattern.as_str()) {
        Ok(found) => Ok(found),
        Err(kind) => match kind {
            ErrorKind::OutOfMemory => Err(AllocError),
            _ => Ok(None),
        },
    }
}

/// The pattern of the class with this text.
fn class_pattern(
    alloc: Global,
    name: &str,
    casei: bool,
    unicode: bool,
) -> Result<String, AllocError>
    ensures { IfOk result (λ p. string_bytes p ≡ meant.class_pattern unicode name.now casei) }
{
    let opening = opening(casei, unicode);
    // The text's start, and the parenthesis with the text's end, are five bytes.
    let mut pattern = String::with_capacity(alloc, opening.len() + name.len() + 5)?;
    pattern.push_str("\\A")?;
    pattern.push_str(opening)?;
    pattern.push_str(name)?;
    pattern.push_str(")\\z")?;
    Ok(pattern)
}

fn opening(casei: bool, unicode: bool) -> &'static str
    ensures opening { result.now ≡ meant.class_opening unicode casei }
    ensures short { length result.now ≤ 7 }
{
    if unicode {
        if casei { "(?i:" } else { "(?:" }
    } else {
        if casei { "(?i-u:" } else { "(?-u:" }
    }
}

/// Which ASCII characters are members.
fn ascii_members(members: &Class) -> [bool; 128]
    ensures { (c : ℕ) → c < 128 →
        slice_index_or result c false ≡ in_ranges members.now.ranges.items c }
{
    let mut answers = [false; 128];
    'list: for range in members.ranges.iter() {
        if range.0 >= 128 {
            break;
        }
        say_yes(&mut answers, *range);
    }
    answers
}

/// Whether a member is beyond ASCII.
fn has_others(members: &Class) -> bool
    ensures { result ≡ false → (c : ℕ) → 128 ≤ c → in_ranges members.now.ranges.items c ≡ false }
{
    'list: for range in members.ranges.iter() {
        if range.1 >= 128 {
            return true;
        }
    }
    false
}

/// Says yes to the ASCII characters of the range.
fn say_yes(answers: &mut [bool; 128], range: ClassRange)
    ensures { (c : ℕ) → c < 128 → slice_index_or answers.new c false
        ≡ (slice_index_or answers.old c false || in_range range c) }
{
    'fill: for c in range.0..range.1.min(127) + 1 {
        answers[c as usize] = true;
    }
}

/// What the regex answers for each ASCII character.
fn ascii_answers(alloc: Global, regex: &Regex) -> Result<[bool; 128], AllocError>
    ensures { IfOk result (λ answers. (c : ℕ) → c < 128 →
        slice_index_or answers c false
        ≡ is_some (find_str (regex_pattern regex.now) (encode_utf8 c) 0)) }
{
    let mut matcher = regex.matcher(alloc)?;
    let mut answers = [false; 128];
    'ask: for c in 0..128u8 {
        answers[c as usize] = ask(&mut matcher, c as char);
    }
    Ok(answers)
}

/// Whether the pattern matches the character.
fn ask(matcher: &mut Matcher<'_>, c: char) -> bool
    ensures found { result ≡ is_some (find_str (matcher_pattern matcher.old) (encode_utf8 c) 0) }
    ensures same { matcher_pattern matcher.new ≡ matcher_pattern matcher.old }
{
    let mut bytes = [0; 4];
    matcher.is_match(c.encode_utf8(&mut bytes))
}
