//! The groups of a match, by their numbers and names.

ghost use Rattle.std.specs.Prelude.{◌≡◌, ◌++◌, ◌-◌, IfSome, OnOk, option_map, string_bytes};
ghost use Rattle.std.specs.Iterator.{at_most};
ghost use Rattle.fancy_matches.specs.Listing.{group_span};
ghost use Rattle.fancy_steps.specs.Outcomes.{first_pair};
ghost use Rattle.fancy_replace.specs.Reading.{expansion};
ghost use Rattle.fancy_regex.specs.Names.{group_count, names_in, numbers_named};
ghost use Rattle.fancy_matches.specs.Matchers.{span_of, text_of};
ghost use Rattle.fancy_regex.specs.Found.{NextGroup, captures_names, captures_text, first_span, numbers_in};

use crate::error::Error;
use crate::names::GroupNames;
use fancy_matches::found::{Captures as Groups, Match};
use fancy_replace::replacer::Replacer;
use fancy_replace::template::Template;
use std::sync::Arc;

/// A match with its groups, by their numbers and names. Group 0 is the match itself.
pub struct Captures<'t> {
    pub(crate) groups: Groups<'t>,
    pub(crate) names: Arc<GroupNames>,
}

// Not derived: whoever owns one calls this drop, and would prove a derived one again (docs/GATE.md).
impl Drop for Captures<'_> {
    fn drop(self) {
        let Captures {
            groups: _,
            names: _,
        } = self;
    }
}

impl<'t> Captures<'t> {
    /// The match itself, which is group 0.
    pub fn get_match(&self) -> Match<'t>
        ensures span { span_of result ≡ first_pair (numbers_in self.now) }
        ensures within { text_of result ≡ captures_text self.now }
    {
        self.groups.whole()
    }

    /// What the group with this number captured. `None` if the group is not set, or if there is no such group. Group 0 is
    /// the match.
    ///
    /// # Examples
    ///
    /// ```
    /// let mut bold = Regex::new(alloc, "(<)?b(>)?")?;
    /// if let Some(groups) = bold.captures("b>")? {
    ///     let open = groups.get(1);  // None
    ///     let close = groups.get(2); // Some, 1..2
    /// }
    /// ```
    pub fn get(&self, group: usize) -> Option<Match<'t>>
        ensures found { option_map span_of result ≡ group_span (numbers_in self.now) group }
        ensures within { IfSome result (λ m. text_of m ≡ captures_text self.now) }
    {
        self.groups.get(group)
    }

    /// What the group with this name captured; of several groups with the name, the first that is set. `None` if none of
    /// them is set, or if no group has the name.
    pub fn name(&self, name: &str) -> Option<Match<'t>>
        ensures found { option_map span_of result
            ≡ first_span (numbers_in self.now)
            (numbers_named (names_in (captures_names self.now)) name.now) }
        ensures within { IfSome result (λ m. text_of m ≡ captures_text self.now) }
    {
        first_set(self, self.names.named(name))
    }

    /// How many groups the pattern has, set or not, with group 0.
    pub fn len(&self) -> usize
        ensures { result ≡ group_count (captures_names self.now) }
    {
        self.names.count
    }

    /// What the groups captured, from group 0 on, as an iterator. An item is `None` if its group is not set.
    pub fn iter<'c>(&'c self) -> SubCaptureMatches<'c, 't>
        ensures captures { result.captures.now ≡ self.now }
        ensures first { result.next ≡ 0 }
    {
        SubCaptureMatches {
            captures: self,
            next: 0,
        }
    }

    /// Appends `text` to `out`, with each reference to a group replaced by what the group captured: `$1`, `${1}`, `$name`,
    /// `${name}`, and `$$` for a dollar sign, as `Template` reads them.
    ///
    /// # Errors
    ///
    /// `Memory` if an allocation fails; there is no other. After it `out` may have a part of the text.
    ///
    /// # Examples
    ///
    /// ```
    /// let mut date = Regex::new(alloc, "([0-9]+)-([0-9]+)")?;
    /// if let Some(groups) = date.captures("11-24")? {
    ///     groups.expand("$2/$1", &mut out)?; // out has "24/11" more
    /// }
    /// ```
    pub fn expand(&self, text: &str, out: &mut String) -> Result<(), Error>
        ensures { OnOk result (string_bytes out.new ≡ string_bytes out.old
            ++ expansion (names_in (captures_names self.now)) text.now
            (captures_text self.now) (numbers_in self.now)) }
    {
        let template = Template::new(self.names.alloc, text, &self.names.numbers)?;
        template.replace_append(&self.groups, out)?;
        Ok(())
    }
}

/// What the first of these groups captured that is set.
fn first_set<'t>(captures: &Captures<'t>, groups: &[usize]) -> Option<Match<'t>>
    ensures found { option_map span_of result
        ≡ first_span (numbers_in captures.now) groups.now }
    ensures within { IfSome result (λ m. text_of m ≡ captures_text captures.now) }
{
    for group in groups {
        if let Some(found) = captures.get(*group) {
            return Some(found);
        }
    }
    None
}

/// What the groups of a match captured, from group 0 on; [`Captures::iter`] makes it. An item is `None` if its group is
/// not set.
#[derive(Drop)]
pub struct SubCaptureMatches<'c, 't> {
    pub(crate) captures: &'c Captures<'t>,
    pub(crate) next: usize,
}

impl<'c, 't> Iterator for SubCaptureMatches<'c, 't> {
    type Item = Option<Match<'t>>;

    ghost next_gives = { NextGroup };

    ghost remaining = { λ s. at_most (group_count (captures_names s.captures.now) - s.next) };

    fn next(&mut self) -> Option<Option<Match<'t>>> {
        if self.next >= self.captures.len() {
            return None;
        }
        let found = self.captures.get(self.next);
        self.next += 1;
        Some(found)
    }
}
