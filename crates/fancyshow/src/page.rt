//! A pattern with its explanation, its diagram, its matches and its program, as a page of HTML.

use crate::all::{Found, found_in};
use crate::explain::{Explained, explanation};
use crate::html::{Paint, push_escaped, push_painted};
use crate::list::list;
use crate::located::piece;
use crate::outcome::{Answer, Trouble, Written};
use crate::railroad::railroad;
use crate::request::Request;
use crate::why::why;
use std::alloc::{AllocError, Global};

const HEAD: &str = "<!DOCTYPE html>
<html lang=\"en\">
<head>
<meta charset=\"utf-8\">
<meta name=\"viewport\" content=\"width=device-width, initial-scale=1\">
<style>
:root { color-scheme: light; }
body { max-width: 60rem; margin: 0 auto; padding: 1rem; font: 16px/1.5 sans-serif; color: #24292f; background: #fff; }
h2 { font-size: 1rem; margin: 1.5rem 0 .5rem; }
pre, code { font: 14px/1.6 monospace; }
pre { margin: 0; padding: .75rem; border: 1px solid #d0d7de; border-radius: 6px; white-space: pre-wrap; overflow-wrap: anywhere; }
.diagram { overflow-x: auto; border: 1px solid #d0d7de; border-radius: 6px; }
.line { padding: .15rem 0; border-bottom: 1px solid #eaeef2; }
.line code { padding: .1rem .3rem; border-radius: 4px; overflow-wrap: anywhere; white-space: pre-wrap; }
code { background: #f0f3f6; }
.m1 { background: #fff3b0; } .m2 { background: #ffe08a; }
.g1 { background: #b6e3ff; } .g2 { background: #c6f0c2; } .g3 { background: #ffc9de; }
.g4 { background: #d9ccff; } .g5 { background: #ffd3b0; } .g6 { background: #b5ece6; }
summary { cursor: pointer; font-weight: bold; margin: 1.5rem 0 .5rem; }
</style>
<title>";

/// The groups that the explanation names, each in its colour.
fn group_paints(alloc: Global, explained: &[Explained]) -> Result<Vec<Paint>, AllocError> {
    let mut paints = Vec::new(alloc);
    for Explained { span, class, .. } in explained {
        if let (Some(span), false) = (*span, class.is_empty()) {
            let class = *class;
            paints.push(Paint { span, class })?;
        }
    }
    Ok(paints)
}

/// Writes a line of the explanation: the piece, in the colour of the group that it is, and what is said of it.
fn push_line(out: &mut String, pattern: &str, line: &Explained) -> Written {
    let (indent, class, piece) = (line.indent, line.class, piece(pattern, line.span));
    write!(
        out,
        "<div class=\"line\" style=\"margin-left: {indent}rem\">"
    )?;
    if !piece.is_empty() {
        write!(out, "<code class=\"{class}\">")?;
        push_escaped(out, piece)?;
        out.push_str("</code> ")?;
    }
    push_escaped(out, line.words.as_str())?;
    out.push_str("</div>\n")
}

/// Writes the pattern with its groups in colours, and what is said of its pieces.
fn push_explained(out: &mut String, pattern: &str, explained: &[Explained]) -> Written {
    let paints = group_paints(*out.allocator(), explained)?;
    out.push_str("<h2>Pattern</h2>\n<pre>")?;
    push_painted(out, pattern, &paints)?;
    out.push_str("</pre>\n<h2>In words</h2>\n")?;
    for line in explained {
        push_line(out, pattern, line)?;
    }
    Ok(())
}

/// The diagram of the pattern, or why it is not drawn.
fn diagram(request: &Request) -> Answer {
    match railroad(request) {
        Err(Trouble::Refusal(why)) => Ok(why),
        drawn => drawn,
    }
}

/// Writes a part of the page that is shown as it is, under this heading.
fn push_section(out: &mut String, heading: &str, part: &str) -> Written {
    write!(out, "<h2>{heading}</h2>\n<pre>")?;
    push_escaped(out, part)?;
    out.push_str("</pre>\n")
}

/// Writes the text with its matches in colours, and then each match.
fn push_found(out: &mut String, text: &str, found: &Found) -> Written {
    out.push_str("<h2>Text</h2>\n<pre>")?;
    push_painted(out, text, &found.paints)?;
    out.push_str("</pre>\n")?;
    push_section(out, "Matches", found.list.as_str())
}

/// Writes the matches in the text, or why there is none.
fn push_text(out: &mut String, request: &Request, text: &str) -> Result<(), Trouble> {
    let found = found_in(request, text)?;
    if found.spans.is_empty() {
        push_section(out, "Text", text)?;
        push_section(out, "Why there is no match", why(request, text)?.as_str())?;
    } else {
        push_found(out, text, &found)?;
    }
    Ok(())
}

fn push_page(out: &mut String, request: &Request, text: Option<&str>) -> Result<(), Trouble> {
    let pattern = request.source.as_str();
    out.push_str(HEAD)?;
    push_escaped(out, pattern)?;
    out.push_str("</title>\n</head>\n<body>\n")?;
    push_explained(out, pattern, &explanation(request)?)?;
    let drawn = diagram(request)?;
    write!(
        out,
        "<h2>As a diagram</h2>\n<div class=\"diagram\">\n{drawn}</div>\n"
    )?;
    if let Some(text) = text {
        push_text(out, request, text)?;
    }
    out.push_str("<details>\n<summary>The program</summary>\n<pre>")?;
    push_escaped(out, list(request)?.as_str())?;
    out.push_str("</pre>\n</details>\n</body>\n</html>\n")?;
    Ok(())
}

/// The page of a pattern, and of a text if there is one.
pub fn page(request: &Request, text: Option<&str>) -> Answer {
    let mut out = String::new(request.alloc);
    push_page(&mut out, request, text)?;
    Ok(out)
}
