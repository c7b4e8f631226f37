//! A text as HTML, in which parts have colours.

use crate::all::set_at;
use crate::outcome::Written;
use crate::source::Span;
use std::alloc::{AllocError, Global};

/// What is before the tokens of a page.
pub const HEAD: &str = "<!DOCTYPE html>
<html>
<head>
<meta charset=\"utf-8\">
<title>fancyshow highlight</title>
<style>
pre { font-family: monospace; color: #24292f; background: #ffffff; }
.comment { color: #6e7781; font-style: italic; }
.string { color: #0a6b3d; }
.escape { color: #0b7285; font-weight: bold; }
.constant { color: #8250df; }
.operator { color: #57606a; }
.keyword { color: #0550ae; font-weight: bold; }
.function { color: #953800; }
.macro { color: #953800; font-weight: bold; }
.type { color: #116993; }
.lifetime { color: #a40e26; }
.property { color: #0550ae; }
.attribute { color: #6e7781; }
.invalid { background: #ffcecb; }
</style>
</head>
<body>
<pre>";

/// What follows them.
pub const FOOT: &str = "</pre>
</body>
</html>
";

/// Writes a part of the text as HTML has it.
pub fn push_escaped(out: &mut String, text: &str) -> Written {
    for c in text.chars() {
        match c {
            '<' => out.push_str("&lt;")?,
            '>' => out.push_str("&gt;")?,
            '&' => out.push_str("&amp;")?,
            _ => out.push(c)?,
        }
    }
    Ok(())
}

/// Writes a part of the text in the class, if there is one.
pub fn push_span(out: &mut String, part: &str, class: &str) -> Written {
    if class.is_empty() {
        return push_escaped(out, part);
    }
    write!(out, "<span class=\"{class}\">")?;
    push_escaped(out, part)?;
    out.push_str("</span>")
}

/// A part of a text, and its class in the style sheet.
#[derive(Clone, Copy)]
pub struct Paint {
    pub span: Span,
    pub class: &'static str,
}

static GROUPS: [&str; 6] = ["g1", "g2", "g3", "g4", "g5", "g6"];

/// The class of a group with this number, from 1 on. Seven groups do not all have different ones.
pub fn group_class(group: usize) -> &'static str {
    GROUPS[group.saturating_sub(1) % 6]
}

/// The class of each byte: that of the last part that it is in.
fn classes(alloc: Global, text: &str, paints: &[Paint]) -> Result<Vec<&'static str>, AllocError> {
    let mut classes = vec![in alloc; ""; text.len()]?;
    for Paint { span, class } in paints {
        for at in span.0..span.1 {
            set_at(&mut classes, at, *class);
        }
    }
    Ok(classes)
}

fn class_at(classes: &[&'static str], at: usize) -> &'static str {
    classes.get(at).copied().unwrap_or("")
}

/// Writes the text with its parts in their colours. Of two that overlap the later one is on top.
pub fn push_painted(out: &mut String, text: &str, paints: &[Paint]) -> Written {
    let classes = classes(*out.allocator(), text, paints)?;
    let mut start = 0;
    for (at, _) in text.char_indices() {
        let class = class_at(&classes, start);
        if class_at(&classes, at) != class {
            push_span(out, text.get(start..at).unwrap_or(""), class)?;
            start = at;
        }
    }
    let class = class_at(&classes, start);
    push_span(out, text.get(start..).unwrap_or(""), class)
}
