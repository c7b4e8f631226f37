//! The figures of a picture, each behind those that stand in it, with the room that each takes.

use std::alloc::{AllocError, Global};
use unicode_width::UnicodeWidthChar;

/// From one figure of a sequence to the next, in pixels.
pub const GAP: usize = 16;
/// From one track to the next.
pub const TRACK_GAP: usize = 12;
/// Beside what stands in a choice or a loop.
pub const RAIL: usize = 24;
/// Around what stands in a frame.
pub const PADDING: usize = 12;
/// The height of a line of small text.
pub const NOTE: usize = 16;
/// From a loop's body to the line that leads back, or past it.
pub const TURN: usize = 10;

/// The width of a character of the font, and of small text.
const CHARACTER: usize = 8;

const NOTE_CHARACTER: usize = 7;
/// Half the height of a box, and of a track that holds nothing.
const HALF_BOX: usize = 14;

const HALF_LINE: usize = 8;

const LINE: usize = 16;

/// A box has at most so many columns of text.
pub const MOST_COLUMNS: usize = 60;

/// How a box or a frame looks: its class in the style sheet.
#[derive(Clone, Copy, PartialEq, Eq)]
pub enum Style {
    Literal,
    Class,
    Place,
    Reference,
    Control,
    Group,
    Look,
    Atomic,
}

/// What a figure is.
#[derive(Clone, Copy, PartialEq, Eq)]
pub enum Shape {
    /// A line: nothing is taken.
    Line,
    /// A rounded box with quoted characters.
    Text { is_folded: bool },
    Box(Style),
    /// A frame around one figure, with a label.
    Frame(Style),
    Sequence,
    /// Parallel tracks, the first one straight on.
    Choice,
    /// One figure with a label, and with a track past it or back.
    Loop { is_optional: bool, repeats: bool },
}

/// The room of a figure, in pixels: above and below the track, which enters it at its left and leaves it at its right.
#[derive(Clone, Copy)]
pub struct Size {
    pub width: usize,
    pub above: usize,
    pub below: usize,
}

impl Size {
    pub fn new(width: usize, above: usize, below: usize) -> Size {
        Size {
            width,
            above,
            below,
        }
    }
}

/// A figure with its label, its room, and how many figures it is made of, with itself.
#[derive(Drop)]
pub struct Figure {
    pub shape: Shape,
    pub label: String,
    pub size: Size,
    pub count: usize,
}

/// How many columns a terminal shows the text in.
pub fn columns(text: &str) -> usize {
    let mut columns: usize = 0;
    for c in text.chars() {
        columns = columns.saturating_add(c.width().unwrap_or(1));
    }
    columns
}

/// The width of a box with the text, and so many characters more.
pub fn box_width(text: &str, more: usize) -> usize {
    let columns = columns(text).saturating_add(more.saturating_add(2));
    columns.saturating_mul(CHARACTER)
}

/// What follows the quoted text of a box.
pub fn text_note(is_folded: bool) -> &'static str {
    if is_folded { " in any case" } else { "" }
}

/// What the figures of a row come to, from the last one on.
#[derive(Clone, Copy, Default)]
pub struct Extent {
    pub count: usize,
    /// Side by side.
    across: usize,
    widest: usize,
    above: usize,
    below: usize,
    /// One below the other.
    height: usize,
    first_above: usize,
}

impl Extent {
    /// With one figure more, before the others.
    fn with(self, size: Size) -> Extent {
        let (gap, track_gap) = match self.count {
            0 => (0, 0),
            _ => (GAP, TRACK_GAP),
        };
        let height = size.above.saturating_add(size.below);
        Extent {
            count: self.count.saturating_add(1),
            across: self.across.saturating_add(gap).saturating_add(size.width),
            widest: self.widest.max(size.width),
            above: self.above.max(size.above),
            below: self.below.max(size.below),
            height: self.height.saturating_add(track_gap).saturating_add(height),
            first_above: size.above,
        }
    }
}

/// Goes over the figures that stand in one, from the last one back.
#[derive(Clone, Copy)]
pub struct Roots<'f> {
    figures: &'f [Figure],
    begin: usize,
    end: usize,
}

impl<'f> Roots<'f> {
    /// Of those from `begin` up to `end`.
    pub fn new(figures: &'f [Figure], begin: usize, end: usize) -> Roots<'f> {
        Roots {
            figures,
            begin,
            end,
        }
    }

    /// The next one with its number, and what is left.
    pub fn split_last(self) -> Option<(usize, &'f Figure, Roots<'f>)> {
        let number = self.end.checked_sub(1)?;
        let figure = self.figures.get(number)?;
        if number < self.begin {
            return None;
        }
        let rest = Roots {
            end: self.end.saturating_sub(figure.count.max(1)),
            ..self
        };
        Some((number, figure, rest))
    }
}

/// What the figures from this one on come to.
pub fn measure(figures: &[Figure], begin: usize) -> Extent {
    let mut extent = Extent::default();
    let mut roots = Roots::new(figures, begin, figures.len());
    for _ in begin..figures.len() {
        let Some((_, figure, rest)) = roots.split_last() else {
            break;
        };
        extent = extent.with(figure.size);
        roots = rest;
    }
    extent
}

/// The room of a figure, where those that stand in it come to this.
pub fn size_of(shape: Shape, label: &str, extent: Extent) -> Size {
    let Extent { above, below, .. } = extent;
    let note_width = columns(label)
        .saturating_add(2)
        .saturating_mul(NOTE_CHARACTER);
    match shape {
        Shape::Line => Size::new(LINE, HALF_LINE, HALF_LINE),
        Shape::Text { is_folded } => {
            let more = text_note(is_folded).len().saturating_add(2);
            Size::new(box_width(label, more), HALF_BOX, HALF_BOX)
        }
        Shape::Box(_) => Size::new(box_width(label, 0), HALF_BOX, HALF_BOX),
        Shape::Frame(_) => Size::new(
            extent.widest.saturating_add(2 * PADDING).max(note_width),
            above.saturating_add(PADDING + NOTE),
            below.saturating_add(PADDING),
        ),
        Shape::Sequence => Size::new(extent.across, above, below),
        Shape::Choice => Size::new(
            extent.widest.saturating_add(2 * RAIL),
            extent.first_above,
            extent.height.saturating_sub(extent.first_above),
        ),
        Shape::Loop {
            is_optional,
            repeats,
        } => Size::new(
            extent.widest.saturating_add(2 * RAIL).max(note_width),
            above.saturating_add(if is_optional { TURN } else { 0 }),
            below
                .saturating_add(if repeats { TURN } else { 0 })
                .saturating_add(NOTE),
        ),
    }
}
