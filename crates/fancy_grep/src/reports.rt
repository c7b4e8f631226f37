//! What is written of a file.

ghost use Rattle.std.specs.Prelude.{◌≡◌, ◌+◌, ◌++◌, ℕ, IfNone, IfOk, IfSome, List, None, Ok, OnOk, Some, codes, false, length, map, nat_lt, take, true};
ghost use Rattle.std.specs.Bool.{then_some};
ghost use Rattle.fancy_grep.specs.Context.{AreRising, numbers_of};
ghost use Rattle.fancy_grep.specs.Lines.{line_of, lines_of};
ghost use Rattle.fancy_grep.specs.Matching.{IsRegexFor, selected};
ghost use Rattle.fancy_literals.specs.Required.{IsRequired, required_of};
ghost use Rattle.fancy_meaning.specs.Options as plain;
ghost use Rattle.fancy_meaning.specs.Premises.{Input};
ghost use Rattle.fancy_grep.specs.Outputs.{Writes};
ghost use Rattle.fancy_grep.specs.Printed.{has_gap};

use crate::around::{Around, skip_lines};
use crate::budget::Budget;
use crate::context::{Context, Shown, with_context};
use crate::lines::Line;
use crate::matching::{Cause, Failure, MatchingLines, matching_lines};
use crate::output::Output;
use crate::patterns::Matcher;
use crate::printing::{MATCH, NAME, Place, SEPARATOR, Style};
use crate::settings::Settings;
use fancy_input::pieces::bytes_read_as;
use fancy_regex::{Error, Regex};
use memchr::{memchr, memchr_iter};
use std::alloc::{AllocError, Global};
use std::io::Write;

/// Lines of a file that are searched together.
#[derive(Clone, Copy)]
pub struct Part<'t> {
    /// What they read as.
    pub text: &'t str,
    /// What is in the file, with the line ends.
    pub bytes: &'t [u8],
    /// Where they begin in the file.
    pub start: usize,
    /// They are one line, and its text is not what is in the file.
    pub is_broken: bool,
}

impl<'t> Part<'t> {
    ghost use Rattle.fancy_grep.specs.Printed.{bytes_of};

    /// What is in the file of one of these lines, without its line end.
    fn bytes_of(self, line: Line<'t>) -> &'t [u8]
        ensures { result.now ≡ bytes_of self.entry line.entry.text.now }
    {
        if !self.is_broken {
            return line.text.as_bytes();
        }
        self.bytes.strip_suffix(b"\n").unwrap_or(self.bytes)
    }

    /// How many lines these are.
    fn count(self) -> usize {
        let ends = memchr_iter(b'\n', self.bytes).count();
        match self.bytes.last() {
            None | Some(b'\n') => ends,
            Some(_) => ends.saturating_add(1),
        }
    }

    /// The first `count` of these lines, and the others.
    fn split(self, count: usize) -> (Part<'t>, Part<'t>) {
        if count == 0 {
            return (Part::of_text("", self.start), self);
        }
        let place = self
            .text
            .len()
            .saturating_sub(skip_lines(self.text.as_bytes(), count).len());
        let (first, rest) = match self.text.split_at_checked(place) {
            Some(both) if !self.is_broken => both,
            _ => return (self, Part::of_text("", self.start)),
        };
        let next = self.start.saturating_add(place);
        (Part::of_text(first, self.start), Part::of_text(rest, next))
    }

    /// Lines that are a text.
    pub fn of_text(text: &'t str, start: usize) -> Part<'t> {
        Part {
            text,
            bytes: text.as_bytes(),
            start,
            is_broken: false,
        }
    }
}

/// What is left of a line, as it reads and as it is in the file.
#[derive(Clone, Copy)]
struct Rest<'t> {
    text: &'t str,
    bytes: &'t [u8],
    is_broken: bool,
    /// Where it begins in the text of the line.
    start: usize,
    /// Where it begins in the line as it is in the file.
    passed: usize,
}

impl<'t> Rest<'t> {
    /// Takes what is before this byte of the text of the line.
    fn take_to(&mut self, end: usize) -> &'t [u8] {
        let Some((text, rest)) = self.text.split_at_checked(end.saturating_sub(self.start)) else {
            return &[];
        };
        let length = if self.is_broken {
            bytes_read_as(self.bytes, text)
        } else {
            text.len()
        };
        let (bytes, left) = match self.bytes.split_at_checked(length) {
            Some(both) => both,
            None => (self.bytes, self.bytes),
        };
        self.text = rest;
        self.bytes = left;
        self.start = self.start.saturating_add(text.len());
        self.passed = self.passed.saturating_add(bytes.len());
        bytes
    }
}

/// A file that is searched from its first line to its last.
#[derive(Drop)]
pub struct Search<'s> {
    alloc: Global,
    settings: Settings<'s>,
    name: &'s str,
    /// No line of a file before it was selected.
    is_first: bool,
    /// How many bytes of it were read.
    read: usize,
    /// How many lines were searched.
    passed: usize,
    /// How many of them are selected.
    selected: usize,
    around: Around,
    /// What the searches of its lines may still do together.
    budget: Budget,
    /// A zero byte was read.
    pub is_binary: bool,
    /// A line was selected since, and is not written.
    pub is_untold: bool,
}

impl<'s> Search<'s> {
    ghost use Rattle.fancy_grep.specs.Printed.{IsPlain, capped, left, printed_by, printed_count, printed_last, printed_name, style_of};

    pub fn new(alloc: Global, settings: Settings<'s>, name: &'s str, is_first: bool) -> Search<'s> {
        Search {
            alloc,
            settings,
            name,
            is_first,
            read: 0,
            passed: 0,
            selected: 0,
            around: Around::new(alloc),
            budget: Budget::new(),
            is_binary: false,
            is_untold: false,
        }
    }

    /// Whether a line is selected.
    pub fn is_selected(&self) -> bool
        ensures { result ≡ nat_lt 0 self.now.selected }
    {
        self.selected > 0
    }

    /// Whether nothing that follows can change what is written.
    pub fn is_done(&self) -> bool {
        let report = self.settings.report;
        (report.is_decided_by_line() && self.is_selected())
            || (report.has_lines() && self.is_untold)
            || (self.left() == 0 && self.around.owed == 0)
    }

    /// How many more lines may be selected.
    fn left(&self) -> usize
        ensures { result ≡ left self.now }
    {
        let most = self.settings.most.unwrap_or(usize::MAX);
        most.saturating_sub(self.selected)
    }

    /// Notes that these bytes of the file were read: its lines may take more, and with a zero it is a binary file, unless it
    /// is searched as a text.
    pub fn read(&mut self, bytes: &[u8]) {
        self.read = self.read.saturating_add(bytes.len());
        self.budget.allow(bytes.len());
        self.is_binary = self.is_binary || (!self.settings.is_text && memchr(0, bytes).is_some());
    }

    /// The number of the next line.
    pub fn next_number(&self) -> usize {
        self.passed.saturating_add(1)
    }

    /// Where the last `left` bytes that were read begin in the file.
    pub fn place(&self, left: &[u8]) -> usize {
        self.read.saturating_sub(left.len())
    }

    /// Passes over a line that does not fit the memory.
    pub fn skip_line(&mut self) {
        self.passed = self.passed.saturating_add(1);
        self.around.skip();
    }

    /// Whether what follows a line of an unknown length can be searched.
    pub fn can_skip(&self) -> bool {
        !self.settings.has_offsets
    }

    fn style(&self) -> Style<'s>
        ensures { result ≡ style_of self.now }
    {
        Style {
            name: self
                .settings
                .has_names
                .unwrap_or(false)
                .then_some(self.name),
            has_zeros: self.settings.has_zeros,
            has_colours: self.settings.has_colours,
        }
    }

    /// Searches lines of the file, and writes what is asked for of them. What is returned is left of them: nothing, or the
    /// lines after one that failed.
    pub fn search<'t, W: Write + Drop>(
        &mut self,
        out: &mut Output<W>,
        matcher: &mut Matcher,
        part: Part<'t>,
    ) -> Option<(Failure, Part<'t>)>
        ensures counts { IfNone result ((i : Input)
            → (o : List ℕ → plain.RunOptions)
            → IsRegexFor i o matcher.old.regex
            → IfSome matcher.old.required (λ r. IsRequired (required_of r) true i)
            → self.new.selected ≡ capped (self.old.selected + length (take (left self.old)
            (selected i o (self.old.settings).choice (lines_of part.entry.text.now))))) }
        ensures writes { IfNone result (IsPlain self.old.settings
            → (i : Input)
            → (o : List ℕ → plain.RunOptions)
            → IsRegexFor i o matcher.old.regex
            → IfSome matcher.old.required (λ r. IsRequired (required_of r) true i)
            → Writes W.contents out.old out.new (printed_by self.old part.entry
            (take (left self.old) (selected i o (self.old.settings).choice (lines_of part.entry.text.now))))) }
    {
        let MatchingLines { lines, failure } = matching_lines(
            self.alloc,
            &mut matcher.regex,
            matcher.required.as_ref(),
            part.text,
            self.settings.choice,
            self.left(),
            &mut self.budget,
        );
        let Some(failure) = failure else {
            return self.write(out, &mut matcher.regex, part, part, &lines);
        };
        let (first, rest) = part.split(failure.searched());
        let failed = self.failed(failure, rest);
        let earlier = self.write(out, &mut matcher.regex, part, first, &lines);
        Some(earlier.unwrap_or(failed))
    }

    /// Writes the first lines of a part, of which these are selected, and passes them. It ends at a line that fails, with what
    /// is left of the part after it.
    fn write<'t, W: Write + Drop>(
        &mut self,
        out: &mut Output<W>,
        regex: &mut Regex,
        part: Part<'t>,
        first: Part<'t>,
        lines: &[Line<'t>],
    ) -> Option<(Failure, Part<'t>)>
        requires { AreRising 1 (numbers_of lines.now) }
        ensures writes { IfNone result (IsPlain self.old.settings
            → Writes W.contents out.old out.new (printed_by self.old first.entry (map line_of lines.now))) }
        ensures counts { IfNone result (self.new.selected
            ≡ capped (self.old.selected + length (map line_of lines.now))) }
    {
        let Err(failure) = self.push(out, regex, first, lines) else {
            let failure = self.pass(first, lines).err()?;
            return Some(self.failed(failure, Part::of_text("", part.start)));
        };
        let number = failure.number;
        let (done, rest) = if number == 0 {
            (first, Part::of_text("", part.start))
        } else {
            part.split(number)
        };
        let failed = self.failed(failure, rest);
        let _kept = self.pass(done, lines_to(lines, number));
        Some(failed)
    }

    /// A failure, with the number of its line in the file.
    fn failed<'t>(&self, failure: Failure, rest: Part<'t>) -> (Failure, Part<'t>) {
        let number = match failure.number {
            0 => 0,
            number => self.passed.saturating_add(number),
        };
        let cause = failure.cause;
        (Failure { number, cause }, rest)
    }

    /// Writes what is asked for of these lines, of which these are selected.
    fn push<W: Write + Drop>(
        &mut self,
        out: &mut Output<W>,
        regex: &mut Regex,
        part: Part<'_>,
        lines: &[Line<'_>],
    ) -> Result<(), Failure>
        requires { AreRising 1 (numbers_of lines.now) }
        ensures writes { OnOk result (IsPlain self.old.settings
            → Writes W.contents out.old out.new (printed_by self.old part.entry (map line_of lines.now))) }
        ensures counts { self.new.selected ≡ self.old.selected }
    {
        if self.is_binary || !self.settings.report.has_lines() {
            return Ok(());
        }
        let page = Page {
            alloc: self.alloc,
            settings: self.settings,
            style: self.style(),
            is_first: self.is_first,
            part,
            passed: self.passed,
        };
        match self.settings.context {
            Some(context) => page.push_shown(out, regex, context, &mut self.around, lines),
            None => page.push_lines(out, regex, lines),
        }
    }

    /// Passes these lines, of which these are selected.
    fn pass(&mut self, part: Part<'_>, lines: &[Line<'_>]) -> Result<(), Failure>
        ensures { self.new.selected ≡ capped (self.old.selected + length (map line_of lines.now)) }
    {
        let count = part.count();
        self.passed = self.passed.saturating_add(count);
        self.selected = self.selected.saturating_add(lines.len());
        self.is_untold = self.is_untold || (self.is_binary && !lines.is_empty());
        match self.settings.context {
            Some(context) => {
                fail_for_memory(0, self.around.pass(context, lines, part.bytes, count))
            }
            None => Ok(()),
        }
    }

    /// Writes what is asked for of the whole file.
    pub fn finish<W: Write + Drop>(&self, out: &mut Output<W>) -> Result<(), AllocError>
        ensures { OnOk result (Writes W.contents out.old out.new (printed_last self.now)) }
    {
        let report = self.settings.report;
        if report.is_count() {
            return self.push_count(out);
        }
        if report.has_name(self.is_selected()) {
            return self.push_name(out);
        }
        Ok(())
    }

    #[tactic(auto, using(crate::proofs::OutputLaws::writes_then))]
    fn push_count<W: Write + Drop>(&self, out: &mut Output<W>) -> Result<(), AllocError>
        ensures { OnOk result (Writes
            W.contents out.old out.new (printed_count (style_of self.now) self.now.selected)) }
    {
        let count = self.selected.to_string(self.alloc)?;
        out.push_name(self.style(), ":")?;
        out.push(count.as_bytes())?;
        out.end_line()
    }

    #[tactic(auto, using(crate::proofs::OutputLaws::writes_then))]
    fn push_name<W: Write + Drop>(&self, out: &mut Output<W>) -> Result<(), AllocError>
        ensures { OnOk result (Writes
            W.contents out.old out.new (printed_name (style_of self.now) self.now.name.now)) }
    {
        out.push_painted(self.settings.has_colours, NAME, self.name.as_bytes())?;
        if self.settings.has_zeros {
            return out.push(b"\0");
        }
        out.end_line()
    }
}

/// Those of the lines whose number is at most this.
fn lines_to<'l, 't>(lines: &'l [Line<'t>], number: usize) -> &'l [Line<'t>] {
    let count = lines.iter().filter(|line| line.number <= number).count();
    lines.get(..count).unwrap_or(lines)
}

/// The error with the number of the line where it comes.
fn fail_at(number: usize, pushed: Result<(), Error>) -> Result<(), Failure>
    ensures { IfOk result (λ done. pushed ≡ Ok done) }
{
    match pushed {
        Ok(()) => Ok(()),
        Err(error) => Err(Failure {
            number,
            cause: Cause::Search(error),
        }),
    }
}

/// The same, if the only error is out of memory.
fn fail_for_memory(number: usize, pushed: Result<(), AllocError>) -> Result<(), Failure>
    ensures { IfOk result (λ done. pushed ≡ Ok done) }
{
    match pushed {
        Ok(()) => Ok(()),
        Err(_) => Err(Failure {
            number,
            cause: Cause::Search(Error::Memory),
        }),
    }
}

/// Whether lines are left out before the line with this number; `last` is that of the line written before, if there is
/// one in this file.
fn has_gap(last: Option<usize>, number: usize, is_first: bool) -> bool
    ensures { result ≡ has_gap last number is_first }
{
    match last {
        Some(last) => number.saturating_sub(last) > 1,
        None => !is_first,
    }
}

/// What is written of lines of a file.
#[derive(Clone, Copy)]
struct Page<'p> {
    alloc: Global,
    settings: Settings<'p>,
    style: Style<'p>,
    /// No line of a file before it was selected.
    is_first: bool,
    part: Part<'p>,
    /// How many lines are before these.
    passed: usize,
}

impl<'p> Page<'p> {
    ghost use Rattle.fancy_grep.specs.Printed.{gap, line_on, needs_matches, number_on, place_of, printed, printed_all, printed_lines, printed_near, selected_on, separator, shown_on};

    /// Writes selected lines.
    fn push_lines<W: Write + Drop>(
        &self,
        out: &mut Output<W>,
        regex: &mut Regex,
        lines: &[Line<'p>],
    ) -> Result<(), Failure>
        ensures { OnOk result (needs_matches self.now.settings ≡ false
            → Writes W.contents out.old out.new (printed_lines
            self.now.settings self.now.style self.now.passed self.now.part (map line_of lines.now))) }
    {
        for line in lines {
            let pushed = self.push_line(out, regex, *line);
            fail_at(line.number, pushed)?;
        }
        Ok(())
    }

    /// Writes selected lines and the lines around them.
    fn push_shown<W: Write + Drop>(
        &self,
        out: &mut Output<W>,
        regex: &mut Regex,
        context: Context,
        around: &mut Around,
        lines: &[Line<'p>],
    ) -> Result<(), Failure>
        requires { AreRising 1 (numbers_of lines.now) }
    {
        let Ok(shown) = with_context(self.alloc, self.part.text, lines, context, around.owed) else {
            return fail_for_memory(0, Err(AllocError));
        };
        if let Some(first) = lines.first() {
            fail_for_memory(0, self.push_before(out, context, around, first.number))?;
        }
        self.push_all(out, regex, around, &shown)
    }

    /// Writes lines that are shown, and what separates them.
    fn push_all<W: Write + Drop>(
        &self,
        out: &mut Output<W>,
        regex: &mut Regex,
        around: &mut Around,
        lines: &[Shown<'p>],
    ) -> Result<(), Failure>
        ensures { OnOk result (needs_matches self.now.settings ≡ false
            → Writes W.contents out.old out.new (printed_all self.now around.old.last lines.now)) }
    {
        for shown in lines {
            let pushed = self.push_next(out, regex, around, *shown);
            fail_at(shown.line.number, pushed)?;
        }
        Ok(())
    }

    /// Writes the lines before these that are near the first selected one.
    fn push_before<W: Write + Drop>(
        &self,
        out: &mut Output<W>,
        context: Context,
        around: &mut Around,
        first: usize,
    ) -> Result<(), AllocError> {
        let (start, bytes) = around.before(context, self.passed, first);
        let has_gap = has_gap(around.last, start, self.is_first);
        if start > self.passed {
            return Ok(());
        }
        if has_gap {
            self.push_separator(out)?;
        }
        self.push_tail(out, start, bytes)?;
        around.last = Some(self.passed);
        Ok(())
    }

    /// Writes whole lines that are not selected, from this number on.
    fn push_tail<W: Write + Drop>(
        &self,
        out: &mut Output<W>,
        start: usize,
        bytes: &[u8],
    ) -> Result<(), AllocError> {
        let mut rest = bytes;
        let mut number = start;
        'lines: for _ in 0..bytes.len() {
            let Some(at) = memchr(b'\n', rest) else { break };
            let offset = self.part.start.saturating_sub(rest.len());
            let place = self.place(number, None, offset);
            self.push_near(out, place, rest.get(..at).unwrap_or(&[]))?;
            rest = rest.get(at.saturating_add(1)..).unwrap_or(&[]);
            number = number.saturating_add(1);
        }
        Ok(())
    }

    /// Writes what separates lines, if lines are left out before the one with this number, which is written next.
    fn push_gap<W: Write + Drop>(
        &self,
        out: &mut Output<W>,
        around: &mut Around,
        number: usize,
    ) -> Result<(), AllocError>
        ensures writes { OnOk result (Writes W.contents out.old out.new
            (gap self.now around.old.last number)) }
        ensures last { around.new.last ≡ Some number }
    {
        let has_gap = has_gap(around.last, number, self.is_first);
        around.last = Some(number);
        if has_gap {
            return self.push_separator(out);
        }
        Ok(())
    }

    /// Writes what separates lines that do not follow each other.
    #[tactic(auto, using(crate::proofs::OutputLaws::writes_then))]
    fn push_separator<W: Write + Drop>(&self, out: &mut Output<W>) -> Result<(), AllocError>
        ensures { OnOk result (Writes W.contents out.old out.new (separator (self.now.style).has_colours)) }
    {
        out.push_painted(self.style.has_colours, SEPARATOR, b"--")?;
        out.end_line()
    }

    /// Writes a line that is shown, after what separates it from the one before.
    #[tactic(auto, using(crate::proofs::OutputLaws::writes_then))]
    fn push_next<W: Write + Drop>(
        &self,
        out: &mut Output<W>,
        regex: &mut Regex,
        around: &mut Around,
        shown: Shown<'p>,
    ) -> Result<(), Error>
        ensures writes { OnOk result (needs_matches self.now.settings ≡ false
            → Writes W.contents out.old out.new
            (gap self.now around.old.last (number_on self.now shown.entry) ++ shown_on self.now shown.entry)) }
        ensures last { OnOk result (around.new.last ≡ Some (number_on self.now shown.entry)) }
    {
        let number = self.passed.saturating_add(shown.line.number);
        self.push_gap(out, around, number)?;
        if shown.is_selected {
            return self.push_line(out, regex, shown.line);
        }
        self.push_near(
            out,
            self.place_of(shown.line),
            self.part.bytes_of(shown.line),
        )?;
        Ok(())
    }

    /// Where the line with this number of the file is, or what is this far from its start, as it is written.
    fn place(&self, number: usize, column: Option<usize>, offset: usize) -> Place
        ensures { result ≡ record {
          number = then_some (self.now.settings).has_numbers number;
          column = column;
          offset = then_some (self.now.settings).has_offsets offset;
        } }
    {
        Place {
            number: self.settings.has_numbers.then_some(number),
            column,
            offset: self.settings.has_offsets.then_some(offset),
        }
    }

    /// Where what is this far from the start of a line is, as it is written.
    fn place_in(&self, line: Line<'p>, at: usize) -> Place {
        let start = self.part.start.saturating_add(line.start);
        self.place(
            self.passed.saturating_add(line.number),
            self.settings.has_columns.then_some(at.saturating_add(1)),
            start.saturating_add(at),
        )
    }

    /// A line, from its first byte on.
    fn rest_of(&self, line: Line<'p>) -> Rest<'p> {
        Rest {
            text: self.settings.choice.searched(line).text,
            bytes: self.part.bytes_of(line),
            is_broken: self.part.is_broken,
            start: 0,
            passed: 0,
        }
    }

    /// Where a line is, as it is written.
    fn place_of(&self, line: Line<'p>) -> Place
        ensures { result ≡ place_of self.now.settings (line_on self.now line.entry) }
    {
        let number = self.passed.saturating_add(line.number);
        self.place(number, None, self.part.start.saturating_add(line.start))
    }

    /// The same of a selected line, with the place of its first match.
    fn place_of_first(&self, regex: &mut Regex, line: Line<'p>) -> Result<Place, Error>
        ensures { IfOk result (λ place. needs_matches self.now.settings ≡ false
            → place ≡ place_of self.now.settings (line_on self.now line.entry)) }
    {
        let place = self.place_of(line);
        if !self.settings.has_columns || self.settings.choice.inverted {
            return Ok(place);
        }
        let mut rest = self.rest_of(line);
        Ok(match regex.find(rest.text)? {
            Some(found) => {
                let before = rest.take_to(found.start());
                Place {
                    column: Some(before.len().saturating_add(1)),
                    ..place
                }
            }
            None => place,
        })
    }

    /// Writes a line that is not selected, unless matches alone are asked for.
    #[tactic(auto, using(crate::proofs::OutputLaws::writes_then))]
    fn push_near<W: Write + Drop>(
        &self,
        out: &mut Output<W>,
        place: Place,
        bytes: &[u8],
    ) -> Result<(), AllocError>
        ensures { OnOk result (Writes W.contents out.old out.new
            (printed_near self.now.settings self.now.style place bytes.now)) }
    {
        if self.settings.report.is_matches() {
            return Ok(());
        }
        out.push_prefix(self.style, place, "-")?;
        out.push(bytes)?;
        out.end_line()
    }

    /// Writes what is asked for of a selected line.
    fn push_line<W: Write + Drop>(
        &self,
        out: &mut Output<W>,
        regex: &mut Regex,
        line: Line<'p>,
    ) -> Result<(), Error>
        ensures { OnOk result (needs_matches self.now.settings ≡ false
            → Writes W.contents out.old out.new (selected_on self.now line.entry)) }
    {
        if !self.settings.report.is_matches() {
            return self.push_selected(out, regex, line);
        }
        if self.settings.choice.inverted {
            return Ok(());
        }
        match self.settings.template {
            Some(template) => self.push_expanded(out, regex, line, template),
            None => self.push_found(out, regex, line),
        }
    }

    #[tactic(auto, using(crate::proofs::OutputLaws::writes_then))]
    fn push_selected<W: Write + Drop>(
        &self,
        out: &mut Output<W>,
        regex: &mut Regex,
        line: Line<'p>,
    ) -> Result<(), Error>
        ensures { OnOk result (needs_matches self.now.settings ≡ false
            → Writes W.contents out.old out.new (printed (codes ":") self.now.style
            (place_of self.now.settings (line_on self.now line.entry)) (line_on self.now line.entry).text)) }
    {
        let place = self.place_of_first(regex, line)?;
        out.push_prefix(self.style, place, ":")?;
        self.push_text(out, regex, line)?;
        out.end_line()?;
        Ok(())
    }

    /// Writes what is in a selected line, or what it becomes.
    fn push_text<W: Write + Drop>(
        &self,
        out: &mut Output<W>,
        regex: &mut Regex,
        line: Line<'p>,
    ) -> Result<(), Error>
        ensures { OnOk result (needs_matches self.now.settings ≡ false
            → Writes W.contents out.old out.new (line_on self.now line.entry).text) }
    {
        if let Some(template) = self.settings.template {
            return self.push_replaced(out, regex, line, template);
        }
        if self.settings.has_colours && !self.settings.choice.inverted {
            return self.push_coloured(out, regex, line);
        }
        out.push(self.part.bytes_of(line))?;
        Ok(())
    }

    /// Writes the line, its matches in a colour.
    fn push_coloured<W: Write + Drop>(
        &self,
        out: &mut Output<W>,
        regex: &mut Regex,
        line: Line<'p>,
    ) -> Result<(), Error> {
        let mut rest = self.rest_of(line);
        for found in regex.find_iter(rest.text) {
            let found = found?;
            out.push(rest.take_to(found.start()))?;
            let bytes = rest.take_to(found.end());
            if !bytes.is_empty() {
                out.push_painted(true, MATCH, bytes)?;
            }
        }
        out.push(rest.bytes)?;
        Ok(())
    }

    /// Writes the line, its matches replaced.
    fn push_replaced<W: Write + Drop>(
        &self,
        out: &mut Output<W>,
        regex: &mut Regex,
        line: Line<'p>,
        template: &str,
    ) -> Result<(), Error> {
        let mut rest = self.rest_of(line);
        for captures in regex.captures_iter(rest.text) {
            let captures = captures?;
            let found = captures.get_match();
            out.push(rest.take_to(found.start()))?;
            let mut part = String::new(self.alloc);
            captures.expand(template, &mut part)?;
            out.push(part.as_bytes())?;
            rest.take_to(found.end());
        }
        out.push(rest.bytes)?;
        Ok(())
    }

    /// Writes each match of a line on a line of its own.
    fn push_found<W: Write + Drop>(
        &self,
        out: &mut Output<W>,
        regex: &mut Regex,
        line: Line<'p>,
    ) -> Result<(), Error> {
        let mut rest = self.rest_of(line);
        for found in regex.find_iter(rest.text) {
            let found = found?;
            rest.take_to(found.start());
            let place = self.place_in(line, rest.passed);
            self.push_part(out, place, rest.take_to(found.end()))?;
        }
        Ok(())
    }

    /// Writes what stands for each match of a line on a line of its own.
    fn push_expanded<W: Write + Drop>(
        &self,
        out: &mut Output<W>,
        regex: &mut Regex,
        line: Line<'p>,
        template: &str,
    ) -> Result<(), Error> {
        let mut rest = self.rest_of(line);
        for captures in regex.captures_iter(rest.text) {
            let captures = captures?;
            rest.take_to(captures.get_match().start());
            let mut part = String::new(self.alloc);
            captures.expand(template, &mut part)?;
            self.push_part(out, self.place_in(line, rest.passed), part.as_bytes())?;
        }
        Ok(())
    }

    /// Writes what is not empty on a line of its own, with what is before a line.
    fn push_part<W: Write + Drop>(
        &self,
        out: &mut Output<W>,
        place: Place,
        part: &[u8],
    ) -> Result<(), AllocError> {
        if part.is_empty() {
            return Ok(());
        }
        out.push_prefix(self.style, place, ":")?;
        out.push_painted(self.style.has_colours, MATCH, part)?;
        if self.settings.choice.has_returns {
            out.push(b"\r")?;
        }
        out.end_line()
    }
}
