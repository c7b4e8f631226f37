//! A program as a picture: a box for each instruction, one below the other; arrows further on are at the right, back
//! ones at the left, branches dashed; below, what the signs mean.

use crate::arrows::{Arrow, arrows};
use crate::excerpt::width;
use crate::list::label;
use crate::outcome::Written;
use fancy_railroad::xml::push_escaped;
use fancy_vm::vm::{Insn, Prog};
use std::alloc::{AllocError, Global};

/// How many instructions a program may have that is drawn.
pub const MOST_BOXES: usize = 1_000;

/// The height of a box, and from the top of one to the top of the next, in pixels.
const HEIGHT: usize = 24;

const STEP: usize = 36;
/// Around the picture.
const MARGIN: usize = 16;
/// The width of a character of the font.
const CHARACTER: usize = 8;

const STYLE: &str = "<style>text{font:13px monospace}rect{fill:#fff;stroke:#333}\
.delegate{fill:#fff2cc}.end{fill:#d5e8d4}path{fill:none;stroke:#333}.back{stroke:#b85450}\
.branch{stroke-dasharray:5 3}.ground{stroke:none}</style>\n\
<defs><marker id=\"head\" markerWidth=\"8\" markerHeight=\"8\" refX=\"7\" refY=\"4\" \
orient=\"auto\"><path d=\"M0,0L8,4L0,8z\" style=\"fill:#333;stroke:none\"/></marker></defs>\n";

const LEGEND_HEIGHT: usize = 100;

const LEGEND_WIDTH: usize = 320;

const LEGEND: &str =
    "\n<path d=\"M0,12H28\" marker-end=\"url(#head)\"/><text x=\"40\" y=\"16\">what is executed next</text>\n\
<path d=\"M0,32H28\" marker-end=\"url(#head)\" class=\"branch\"/><text x=\"40\" y=\"36\">what is tried after a failure</text>\n\
<path d=\"M0,52H28\" marker-end=\"url(#head)\" class=\"back\"/><text x=\"40\" y=\"56\">back</text>\n\
<rect y=\"65\" width=\"28\" height=\"14\" rx=\"7\" class=\"delegate\"/><text x=\"40\" y=\"76\">a fragment, searched by itself</text>\n";

/// How far an arrow goes away from the boxes: the further on it leads, the further, up to some distance.
fn reach(arrow: &Arrow) -> usize {
    arrow
        .distance()
        .min(50)
        .saturating_mul(6)
        .saturating_add(24)
}

/// The place that the arrows take that lead back, or of those that lead on.
fn place_beside(arrows: &[Arrow], are_back: bool) -> usize {
    let mut most = 0;
    for arrow in arrows {
        if !arrow.is_short() && arrow.is_back() == are_back {
            most = most.max(reach(arrow));
        }
    }
    most.saturating_add(MARGIN)
}

/// Where the boxes are: their left edge and their width.
#[derive(Clone, Copy)]
struct Column {
    left: usize,
    width: usize,
}

/// The top of the box of the instruction at this place of the program.
fn top(place: usize) -> usize {
    place.saturating_mul(STEP).saturating_add(MARGIN)
}

/// Writes the box of the instruction at this place, with its text.
fn push_box(
    out: &mut String,
    Column { left, width }: Column,
    place: usize,
    insn: &Insn,
    label: &str,
) -> Written {
    let class = match insn {
        Insn::Delegate(_) | Insn::AbsentRepeater(_) => " class=\"delegate\" rx=\"10\"",
        Insn::End => " class=\"end\"",
        _ => "",
    };
    let top = top(place);
    let (x, y) = (left.saturating_add(CHARACTER), top.saturating_add(16));
    write!(
        out,
        "<rect x=\"{left}\" y=\"{top}\" width=\"{width}\" height=\"{HEIGHT}\"{class}/>\n<text x=\"{x}\" y=\"{y}\">"
    )?;
    push_escaped(out, label)?;
    out.push_str("</text>\n")
}

/// Writes the path of an arrow: to the next box, or away from the boxes and back to them.
fn push_path(out: &mut String, Column { left, width }: Column, arrow: &Arrow) -> Written {
    let (from, to) = (top(arrow.from), top(arrow.to));
    if arrow.is_short() {
        let x = left.saturating_add(if arrow.is_branch { 36 } else { 24 });
        let bottom = from.saturating_add(HEIGHT);
        return write!(out, "M{x},{bottom}V{to}");
    }
    let right = left.saturating_add(width);
    let (edge, x) = if arrow.is_back() {
        (left, left.saturating_sub(reach(arrow)))
    } else {
        (right, right.saturating_add(reach(arrow)))
    };
    let (from, to) = (from.saturating_add(16), to.saturating_add(8));
    write!(out, "M{edge},{from}C{x},{from} {x},{to} {edge},{to}")
}

fn push_arrow(out: &mut String, column: Column, arrow: &Arrow) -> Written {
    let class = match (arrow.is_back(), arrow.is_branch) {
        (false, false) => "",
        (false, true) => " class=\"branch\"",
        (true, false) => " class=\"back\"",
        (true, true) => " class=\"back branch\"",
    };
    out.push_str("<path d=\"")?;
    push_path(out, column, arrow)?;
    writeln!(out, "\" marker-end=\"url(#head)\"{class}/>")
}

/// What is in the box of each instruction, and how many columns the longest takes.
fn labels(alloc: Global, prog: &Prog) -> Result<(Vec<String>, usize), AllocError> {
    let mut labels = Vec::new(alloc);
    let mut widest = 0;
    for (place, insn) in prog.body().iter().enumerate() {
        let label = label(alloc, place, insn)?;
        widest = width(label.as_str()).max(widest);
        labels.push(label)?;
    }
    Ok((labels, widest))
}

/// Begins the picture with its size and its title, and writes the legend.
fn push_head(out: &mut String, width: usize, bottom: usize, title: &str) -> Written {
    let height = bottom.saturating_add(LEGEND_HEIGHT);
    write!(
        out,
        "<svg xmlns=\"http://www.w3.org/2000/svg\" viewBox=\"0 0 {width} {height}\" width=\"{width}\" height=\"{height}\">\n<title>"
    )?;
    push_escaped(out, title)?;
    write!(
        out,
        "</title>\n{STYLE}<rect width=\"{width}\" height=\"{height}\" class=\"ground\"/>\n\
<g transform=\"translate({MARGIN},{bottom})\">{LEGEND}</g>\n"
    )
}

/// Writes the boxes and the arrows.
fn push_all(
    out: &mut String,
    prog: &Prog,
    column: Column,
    labels: &[String],
    arrows: &[Arrow],
) -> Written {
    for (place, (insn, label)) in prog.body().iter().zip(labels.iter()).enumerate() {
        push_box(out, column, place, insn, label.as_str())?;
    }
    for arrow in arrows {
        push_arrow(out, column, arrow)?;
    }
    out.push_str("</svg>\n")
}

/// The program as a picture in SVG, under this title. It has at most `MOST_BOXES` instructions.
pub fn svg(alloc: Global, prog: &Prog, title: &str) -> Result<String, AllocError> {
    let arrows = arrows(alloc, prog)?;
    let (labels, widest) = labels(alloc, prog)?;
    let column = Column {
        left: place_beside(&arrows, true),
        width: widest.saturating_add(2).saturating_mul(CHARACTER),
    };
    let right = column.left.saturating_add(column.width);
    let width = right.saturating_add(place_beside(&arrows, false));
    let mut out = String::new(alloc);
    push_head(&mut out, width.max(LEGEND_WIDTH), top(labels.len()), title)?;
    push_all(&mut out, prog, column, &labels, &arrows)?;
    Ok(out)
}
