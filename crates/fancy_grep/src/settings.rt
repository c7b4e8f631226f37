//! What is asked of a search of texts.

ghost use Rattle.std.specs.Prelude.{◌≡◌};
ghost use Rattle.fancy_grep.specs.Reports.{has_lines, has_name, is_count, is_decided_by_line, is_matches};

use crate::context::Context;
use crate::matching::Choice;
use crate::patterns::PatternOptions;
use crate::rules::Rules;

/// What is written of a text.
#[derive(Clone, Copy)]
pub enum Report {
    /// Its selected lines, and those around them.
    Lines,
    /// The matches in its selected lines, each on a line of its own.
    Matches,
    /// How many lines are selected.
    Count,
    /// Its name, where a line is selected.
    Name,
    /// Its name, where no line is selected.
    NameWithout,
    /// Nothing. The first selected line ends the search of all texts.
    Nothing,
}

impl Report {
    /// Lines are written, or parts of them.
    pub(crate) fn has_lines(self) -> bool
        ensures { result ≡ has_lines self }
    {
        matches!(self, Report::Lines | Report::Matches)
    }

    /// The matches are written, and not the lines.
    pub(crate) fn is_matches(self) -> bool
        ensures { result ≡ is_matches self }
    {
        matches!(self, Report::Matches)
    }

    /// The number of the selected lines is written.
    pub(crate) fn is_count(self) -> bool
        ensures { result ≡ is_count self }
    {
        matches!(self, Report::Count)
    }

    /// The name of a text is written, by whether a line of it is selected.
    pub(crate) fn has_name(self, is_selected: bool) -> bool
        ensures { result ≡ has_name self is_selected }
    {
        match self {
            Report::Name => is_selected,
            Report::NameWithout => !is_selected,
            _ => false,
        }
    }

    /// A selected line decides all that is written of its text.
    pub(crate) fn is_decided_by_line(self) -> bool
        ensures { result ≡ is_decided_by_line self }
    {
        matches!(self, Report::Name | Report::NameWithout | Report::Nothing)
    }
}

/// What is asked of a search of texts.
#[derive(Clone, Copy)]
pub struct Settings<'a> {
    pub pattern: PatternOptions,
    /// Folders are searched with what is in them, but for hidden files and folders.
    pub is_recursive: bool,
    pub rules: Rules<'a>,
    pub report: Report,
    pub choice: Choice,
    /// At most so many lines of a text are selected.
    pub most: Option<usize>,
    /// Each line begins with its number.
    pub has_numbers: bool,
    /// Each selected line begins with the byte of its first match, from 1.
    pub has_columns: bool,
    /// Each line begins with the byte of its text, from 0, at which it or its match starts.
    pub has_offsets: bool,
    /// Each line begins with the name of its text; if not said, in folders.
    pub has_names: Option<bool>,
    /// A zero byte is after each name.
    pub has_zeros: bool,
    pub has_colours: bool,
    /// A text with a zero byte is written as any other.
    pub is_text: bool,
    /// What cannot be read is not reported.
    pub is_silent: bool,
    /// Each line is written at once.
    pub is_line_buffered: bool,
    /// How many lines around the selected ones are written too.
    pub context: Option<Context>,
    /// What is written for each match, with references to groups.
    pub template: Option<&'a str>,
}
