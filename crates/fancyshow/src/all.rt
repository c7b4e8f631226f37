//! All matches of a text, marked in its lines.

use crate::excerpt::{columns, push_shown, push_times};
use crate::find::{Groups, Searcher, no_match, push_groups, push_part, searcher_of, span_of};
use crate::html::{Paint, group_class};
use crate::outcome::{Answer, Trouble, Written, search_trouble};
use crate::request::Request;
use crate::source::Span;
use fancy_expr::error::Error;
use fancy_matches::found::Captures;
use std::alloc::{AllocError, Global};

/// The mark under each byte of the text, and under its end: `^` where a part begins that is not empty, `~` further on in it,
/// `|` where an empty one is.
fn marks(alloc: Global, text: &str, parts: &[Span]) -> Result<Vec<char>, AllocError> {
    let mut marks = vec![in alloc; ' '; text.len().saturating_add(1)]?;
    for (start, end) in parts {
        for at in *start..*end {
            set_at(&mut marks, at, '~');
        }
        set_at(&mut marks, *start, if start == end { '|' } else { '^' });
    }
    Ok(marks)
}

/// Sets what belongs to this byte of a text, if it has the byte.
pub fn set_at<T: Copy>(of_bytes: &mut [T], at: usize, value: T) {
    if let Some(place) = of_bytes.get_mut(at) {
        *place = value;
    }
}

/// The marks under a line, in the columns of its characters. The last of these marks is under its end.
fn marks_of(alloc: Global, line: &str, marks: &[char]) -> Result<String, AllocError> {
    let mut shown = String::new(alloc);
    for (at, c) in line.char_indices() {
        let mark = marks.get(at).copied().unwrap_or(' ');
        shown.push(mark)?;
        let further = if matches!(mark, '^' | '~') { '~' } else { ' ' };
        push_times(&mut shown, further, columns(c).saturating_sub(1))?;
    }
    shown.push(marks.last().copied().unwrap_or(' '))?;
    Ok(shown)
}

/// What is before the marks of a line, after the line itself, and what ends them.
fn around_marks(colours: bool) -> (&'static str, &'static str) {
    if colours {
        ("\n      | \u{1b}[1;32m", "\u{1b}[0m\n")
    } else {
        ("\n      | ", "\n")
    }
}

/// Writes the line with its number and these marks, if there are some.
fn push_line(out: &mut String, number: usize, line: &str, marks: &str, colours: bool) -> Written {
    let marks = marks.trim_end();
    if marks.is_empty() {
        return Ok(());
    }
    let (before, behind) = around_marks(colours);
    write!(out, "{number:>5} | ")?;
    push_shown(out, line)?;
    write!(out, "{before}{marks}{behind}")
}

/// The lines of a text in which these parts of it are, with marks below them.
pub fn marked_lines(
    alloc: Global,
    text: &str,
    parts: &[Span],
    colours: bool,
) -> Result<String, AllocError> {
    let marks = marks(alloc, text, parts)?;
    let mut out = String::new(alloc);
    let mut start: usize = 0;
    for (i, line) in text.split('\n').enumerate() {
        let next = start.saturating_add(line.len()).saturating_add(1);
        let own = marks_of(alloc, line, marks.get(start..next).unwrap_or(&[]))?;
        push_line(&mut out, i.saturating_add(1), line, own.as_str(), colours)?;
        start = next;
    }
    Ok(out)
}

/// The matches of a text, with colours for each and its groups, and what is written of them.
#[derive(Drop)]
pub struct Found {
    pub spans: Vec<Span>,
    pub paints: Vec<Paint>,
    pub list: String,
}

impl Found {
    fn push(&mut self, text: &str, captures: &Captures<'_>, groups: &Groups) -> Written {
        let whole = span_of(captures.whole());
        self.spans.push(whole)?;
        let number = self.spans.len();
        let class = if number % 2 == 1 { "m1" } else { "m2" };
        self.paints.push(Paint { span: whole, class })?;
        for group in 1..=groups.count {
            if let Some(found) = captures.get(group) {
                let (span, class) = (span_of(found), group_class(group));
                self.paints.push(Paint { span, class })?;
            }
        }
        write!(self.list, "match {number}  ")?;
        push_part(&mut self.list, text, whole)?;
        push_groups(&mut self.list, text, captures, groups, 2)
    }

    fn push_all(&mut self, searcher: &mut Searcher, text: &str) -> Result<(), Error> {
        for captures in searcher.regex.captures_iter(text) {
            let captures = captures?;
            self.push(text, &captures, &searcher.groups)?;
        }
        Ok(())
    }
}

/// The matches of a text.
pub fn found_in(request: &Request, text: &str) -> Result<Found, Trouble> {
    let mut searcher = searcher_of(request)?;
    let mut found = Found {
        spans: Vec::new(request.alloc),
        paints: Vec::new(request.alloc),
        list: String::new(request.alloc),
    };
    match found.push_all(&mut searcher, text) {
        Ok(()) => Ok(found),
        Err(error) => Err(search_trouble(error, searcher.regex.passed())),
    }
}

/// All matches: the lines in which they are, and then each with its groups.
pub fn all(request: &Request, text: &str, colours: bool) -> Answer {
    let found = found_in(request, text)?;
    if found.spans.is_empty() {
        return no_match(request);
    }
    let mut out = marked_lines(request.alloc, text, &found.spans, colours)?;
    out.push_str(found.list.as_str())?;
    Ok(out)
}
