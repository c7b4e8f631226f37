//! Replacements that are made of texts and groups.

ghost use Rattle.std.specs.Prelude.{◌≡◌, OnOk};
ghost use Rattle.fancy_matches.specs.Matchers.{captures_text, numbers_in};
ghost use Rattle.fancy_replace.specs.Outputs.{Grows};
ghost use Rattle.fancy_replace.specs.Parts as parts;

use crate::output::Output;
use crate::replacer::Replacer;
use fancy_matches::found::Captures;
use std::alloc::AllocError;

/// A part of a replacement.
#[derive(Clone, Copy, Debug)]
pub enum Part<'a> {
    /// This text.
    Text(&'a str),
    /// What the group with this number matched. It is empty if there is no such group or if it is not set. Group 0 is
    /// the match.
    Group(usize),
}

impl<'a> Part<'a> {
    ghost use Rattle.fancy_replace.specs.Parts.{part_text};

    /// Appends what it stands for.
    fn append<O: Output>(&self, captures: &Captures<'_>, out: &mut O) -> Result<(), AllocError>
        ensures { OnOk result (Grows
            O.holds out.old
            (part_text (captures_text captures.now) (numbers_in captures.now) self.now)
            out.new) }
    {
        match self {
            Part::Text(text) => out.append(text),
            Part::Group(group) => out.append(group_text(captures, *group)),
        }
    }
}

/// What a group matched, empty if it is not there or not set.
fn group_text<'t>(captures: &Captures<'t>, group: usize) -> &'t str
    ensures { result.now ≡ parts.group_text (captures_text captures.now) (numbers_in captures.now) group }
{
    match captures.get(group) {
        Some(found) => found.as_str(),
        None => "",
    }
}

/// A replacement by these parts, one after the other.
///
/// # Examples
///
/// ```
/// let swapped = Parts(&[Part::Group(2), Part::Text(", "), Part::Group(1)]);
/// ```
#[derive(Clone, Copy, Debug)]
pub struct Parts<'a>(pub &'a [Part<'a>]);

impl<'a> Replacer for Parts<'a> {
    ghost use Rattle.fancy_replace.specs.Parts.{parts_text};

    ghost replacement_text = { λ r text numbers. parts_text text numbers r.0.now };

    fn replace_append<O: Output>(
        &self,
        captures: &Captures<'_>,
        out: &mut O,
    ) -> Result<(), AllocError> {
        for part in self.0 {
            part.append(captures, out)?;
        }
        Ok(())
    }
}
