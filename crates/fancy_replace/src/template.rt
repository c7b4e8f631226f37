//! Replacements that are read from a text with references to groups.

ghost use Rattle.std.specs.Prelude.{◌≡◌, IfOk, IsTrue, OnOk, map};
ghost use Rattle.std.specs.Char.{is_ascii_digit};
ghost use Rattle.std.specs.List.{list_all};
ghost use Rattle.std.specs.Str.Parse.{digits_value};
ghost use Rattle.fancy_analysis.specs.Names.{names_of};
ghost use Rattle.fancy_matches.specs.Matchers.{captures_text, numbers_in};
ghost use Rattle.fancy_replace.specs.Outputs.{Grows};
ghost use Rattle.fancy_replace.specs.Reading as reading;
ghost use Rattle.fancy_replace.specs.Templates as templates;

use crate::output::Output;
use crate::replacer::Replacer;
use crate::tokens::{Token, Tokens};
use fancy_matches::found::Captures;
use std::alloc::{AllocError, Global};
use std::collections::BTreeMap;

/// A replacement that is read from a text with references to groups. The syntax is that of the crate `matcher`:
///
/// - `$$` writes a dollar.
/// - `$1` and `$name` write what a group matched; the name is the longest run of `[0-9A-Za-z_]`.
/// - `${1}` and `${name}` do too; the name is all that is before the first `}`.
/// - Any other `$` writes a dollar, also that of `${` if no `}` follows.
///
/// Digits alone are the number of a group, and 0 is the match. All else is a name, also `+1`, which `matcher` reads as a
/// number. If several groups have the name, the first that is set is meant. A group that is not there, or not set,
/// writes nothing.
#[derive(Debug)]
pub struct Template {
    segments: Vec<Segment>,
}

// Not derived: whoever owns one calls this drop, and would prove a derived one again (docs/GATE.md).
impl Drop for Template {
    fn drop(self) {
        let Template { segments: _ } = self;
    }
}

impl Template {
    ghost use Rattle.fancy_replace.specs.Reading.{HasNoDollar, expansion};
    ghost use Rattle.fancy_replace.specs.Templates.{template_text};

    /// Reads a text. `names` has the numbers of the groups of each name, in the order in which they are tried, as
    /// `named_groups` of an `ExprTree` has them. They are looked up here, so the template serves matches of that tree
    /// alone. The time is linear in the length of the text, but for the look-up of each name.
    ///
    /// # Errors
    ///
    /// `AllocError` if an allocation fails; there is no other, since every text is a template.
    ///
    /// # Examples
    ///
    /// ```
    /// let template = Template::new(alloc, "${year}-$2", &tree.named_groups)?;
    /// let text = replace_all(alloc, &mut matcher, "11/2026", &template)?;
    /// ```
    pub fn new(
        alloc: Global,
        text: &str,
        names: &BTreeMap<String, Vec<usize>>,
    ) -> Result<Template, AllocError>
        ensures ok { IfOk result (λ template. template_text template
            ≡ expansion (names_of names.now.entries) text.now) }
        ensures itself { HasNoDollar text.now
            → IfOk result (λ template. template_text template ≡ (λ _ _. text.now)) }
    {
        Ok(Template {
            segments: segments(alloc, text, names)?,
        })
    }
}

impl Replacer for Template {
    ghost use Rattle.fancy_replace.specs.Templates.{template_text};

    ghost replacement_text = { λ template. template_text template };

    fn replace_append<O: Output>(
        &self,
        captures: &Captures<'_>,
        out: &mut O,
    ) -> Result<(), AllocError> {
        for segment in &self.segments {
            segment.append(captures, out)?;
        }
        Ok(())
    }
}

/// A part of a template.
#[derive(Debug, Drop)]
pub(crate) enum Segment {
    /// This text.
    Literal(String),
    /// What the first of these groups matched that is set; nothing if none is.
    Groups(Vec<usize>),
}

impl Segment {
    ghost use Rattle.fancy_replace.specs.Reading.{segment_for};
    ghost use Rattle.fancy_replace.specs.Templates.{segment_of, segment_text};
    ghost use Rattle.fancy_replace.specs.Tokens.{token_of};

    /// What a token says, by the names of the groups.
    fn new(
        alloc: Global,
        token: Token<'_>,
        names: &BTreeMap<String, Vec<usize>>,
    ) -> Result<Segment, AllocError>
        ensures { IfOk result (λ segment. segment_of segment
            ≡ segment_for (names_of names.now.entries) (token_of token.entry)) }
    {
        match token {
            Token::Literal(text) => Ok(Segment::Literal(String::from_str(alloc, text)?)),
            Token::Reference(name) => Ok(Segment::Groups(groups_of(alloc, names, name)?)),
        }
    }

    /// Appends what it stands for.
    fn append<O: Output>(&self, captures: &Captures<'_>, out: &mut O) -> Result<(), AllocError>
        ensures { OnOk result (Grows
            O.holds out.old
            (segment_text (captures_text captures.now) (numbers_in captures.now) (segment_of self.now))
            out.new) }
    {
        match self {
            Segment::Literal(text) => out.append(text.as_str()),
            Segment::Groups(groups) => out.append(first_group_text(groups, captures)),
        }
    }
}

/// The segments of a template's text.
fn segments(
    alloc: Global,
    text: &str,
    names: &BTreeMap<String, Vec<usize>>,
) -> Result<Vec<Segment>, AllocError>
    ensures { IfOk result (λ segments. map templates.segment_of segments.items
        ≡ reading.reading (names_of names.now.entries) text.now) }
{
    let mut segments = Vec::new(alloc);
    for token in Tokens::new(text) {
        segments.push(Segment::new(alloc, token, names)?)?;
    }
    Ok(segments)
}

/// What the first of these groups matched that is set; nothing if none is.
fn first_group_text<'t>(groups: &[usize], captures: &Captures<'t>) -> &'t str
    ensures { result.now ≡ templates.first_group_text (captures_text captures.now)
        (numbers_in captures.now) groups.now }
{
    for group in groups {
        if let Some(found) = captures.get(*group) {
            return found.as_str();
        }
    }
    ""
}

/// The groups that a reference can mean, by their numbers.
fn groups_of(
    alloc: Global,
    names: &BTreeMap<String, Vec<usize>>,
    name: &str,
) -> Result<Vec<usize>, AllocError>
    ensures { IfOk result (λ groups. groups.items
        ≡ reading.groups_of (names_of names.now.entries) name.now) }
{
    if is_numeral(name) {
        return group_numbered(alloc, name);
    }
    match names.get(name) {
        Some(groups) => Vec::from_slice(alloc, groups),
        None => Ok(Vec::new(alloc)),
    }
}

/// One or more digits.
fn is_numeral(name: &str) -> bool
    ensures { result ≡ reading.is_numeral name.now }
{
    !name.is_empty() && has_digits_alone(name)
}

fn has_digits_alone(name: &str) -> bool
    ensures { result ≡ list_all is_ascii_digit name.now }
{
    name.bytes().all(|byte| byte.is_ascii_digit())
}

/// The group with the number that these digits write, or none if the number is too large.
fn group_numbered(alloc: Global, digits: &str) -> Result<Vec<usize>, AllocError>
    requires { IsTrue (reading.is_numeral digits.now) }
    ensures { IfOk result (λ groups. groups.items
        ≡ reading.group_numbered (digits_value 10 digits.now)) }
{
    match digits.parse::<usize>() {
        Ok(number) => Vec::from_slice(alloc, &[number]),
        Err(_) => Ok(Vec::new(alloc)),
    }
}
