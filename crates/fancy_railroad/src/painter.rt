//! The figures of a picture, drawn in SVG from the outermost one in.

use crate::figures::{Figure, GAP, NOTE, RAIL, Roots, Shape, Size, Style, TRACK_GAP, TURN};
use crate::xml::push_escaped;
use std::alloc::AllocError;

/// Where a figure's track enters it, in pixels.
#[derive(Clone, Copy)]
pub struct Place {
    pub x: usize,
    pub y: usize,
}

impl Place {
    pub fn new(x: usize, y: usize) -> Place {
        Place { x, y }
    }
}

/// The picture so far, its figures, and the places of those that are known.
#[derive(Drop)]
pub struct Painter<'f> {
    pub out: String,
    pub figures: &'f [Figure],
    pub places: Vec<Place>,
}

/// What stands behind the characters of a literal.
fn closing(is_folded: bool) -> &'static str {
    if is_folded {
        "&quot; in any case"
    } else {
        "&quot;"
    }
}

fn class(style: Style) -> &'static str {
    match style {
        Style::Literal => "literal",
        Style::Class => "class",
        Style::Place => "place",
        Style::Reference => "reference",
        Style::Control => "control",
        Style::Group => "group",
        Style::Look => "look",
        Style::Atomic => "atomic",
    }
}

impl Painter<'_> {
    fn put(&mut self, number: usize, x: usize, y: usize) {
        if let Some(place) = self.places.get_mut(number) {
            *place = Place::new(x, y);
        }
    }

    /// A piece of track.
    fn push_line(&mut self, x: usize, y: usize, to: usize) -> Result<(), AllocError> {
        writeln!(self.out, "<path d=\"M{x},{y}H{to}\"/>")
    }

    /// A rectangle around the track of a figure.
    fn push_rectangle(
        &mut self,
        place: Place,
        size: Size,
        round: usize,
        style: Style,
    ) -> Result<(), AllocError> {
        let (x, y, width) = (place.x, place.y.saturating_sub(size.above), size.width);
        let (height, class) = (size.above.saturating_add(size.below), class(style));
        writeln!(
            self.out,
            "<rect x=\"{x}\" y=\"{y}\" width=\"{width}\" height=\"{height}\" rx=\"{round}\" class=\"{class}\"/>"
        )
    }

    /// A label that stands on this line, and what follows it, in which nothing means anything to XML.
    fn push_text(
        &mut self,
        (x, y): (usize, usize),
        before: &str,
        label: &str,
        after: &str,
    ) -> Result<(), AllocError> {
        write!(self.out, "<text x=\"{x}\" y=\"{y}\"{before}")?;
        push_escaped(&mut self.out, label)?;
        writeln!(self.out, "{after}</text>")
    }

    /// The text of a box, in quotes if something follows it.
    fn push_inside(
        &mut self,
        figure: &Figure,
        place: Place,
        after: &str,
    ) -> Result<(), AllocError> {
        let begin = (middle(place, figure.size), place.y.saturating_add(5));
        let before = if after.is_empty() { ">" } else { ">&quot;" };
        self.push_text(begin, before, figure.label.as_str(), after)
    }

    fn push_box(
        &mut self,
        figure: &Figure,
        place: Place,
        (round, style): (usize, Style),
        after: &str,
    ) -> Result<(), AllocError> {
        self.push_rectangle(place, figure.size, round, style)?;
        self.push_inside(figure, place, after)
    }

    /// Puts the one figure that stands in this one into its middle, and draws the track to it and from it. Returns where it
    /// begins, and its size.
    fn place_inside(
        &mut self,
        number: usize,
        figure: &Figure,
    ) -> Result<(Place, Size), AllocError> {
        let Place { x, y } = self.place(number);
        let Some((inner, body, _)) = roots(self.figures, number, figure).split_last() else {
            return Ok((Place { x, y }, figure.size));
        };
        let (size, own) = (body.size, figure.size.width);
        let begin = x.saturating_add(own.saturating_sub(size.width) / 2);
        self.put(inner, begin, y);
        self.push_line(x, y, begin)?;
        self.push_line(begin.saturating_add(size.width), y, x.saturating_add(own))?;
        Ok((Place::new(begin, y), size))
    }

    fn push_frame(
        &mut self,
        number: usize,
        figure: &Figure,
        style: Style,
    ) -> Result<(), AllocError> {
        let Place { x, y } = self.place(number);
        let top = y.saturating_sub(figure.size.above);
        let corner = (x.saturating_add(8), top.saturating_add(13));
        self.push_rectangle(Place { x, y }, figure.size, 6, style)?;
        self.push_text(corner, " class=\"label\">", figure.label.as_str(), "")?;
        self.place_inside(number, figure)?;
        Ok(())
    }

    /// The track past a loop's body, above it.
    fn push_past(&mut self, place: Place, size: Size, body: Size) -> Result<(), AllocError> {
        let Place { x, y } = place;
        let top = y.saturating_sub(body.above.saturating_add(TURN));
        let end = x.saturating_add(size.width).saturating_sub(16);
        let (low, high) = (y.saturating_sub(8), top.saturating_add(8));
        writeln!(
            self.out,
            "<path d=\"M{x},{y}q8,0 8,-8V{high}q0,-8 8,-8H{end}q8,0 8,8V{low}q0,8 8,8\"/>"
        )
    }

    /// The track back to the beginning of a loop's body, below it.
    fn push_back(&mut self, inside: Place, body: Size) -> Result<(), AllocError> {
        let Place { x, y } = inside;
        let end = x.saturating_add(body.width);
        let bottom = y.saturating_add(body.below).saturating_add(TURN);
        let (low, high) = (bottom.saturating_sub(8), y.saturating_add(8));
        let half = x.saturating_add(body.width / 2);
        writeln!(
            self.out,
            "<path d=\"M{end},{y}q8,0 8,8V{low}q0,8 -8,8H{x}q-8,0 -8,-8V{high}q0,-8 8,-8\"/>\n\
<path d=\"M{half},{bottom}l7,-4v8z\" class=\"head\"/>"
        )
    }

    fn push_loop(
        &mut self,
        number: usize,
        figure: &Figure,
        is_optional: bool,
        repeats: bool,
    ) -> Result<(), AllocError> {
        let (place, size) = (self.place(number), figure.size);
        let (inside, body) = self.place_inside(number, figure)?;
        if is_optional {
            self.push_past(place, size, body)?;
        }
        if repeats {
            self.push_back(inside, body)?;
        }
        let bottom = place.y.saturating_add(size.below);
        let below = (middle(place, size), bottom.saturating_sub(NOTE / 4));
        self.push_text(below, " class=\"note\">", figure.label.as_str(), "")
    }

    /// The figures of a sequence, from the last one on.
    fn push_sequence(&mut self, number: usize, figure: &Figure) -> Result<(), AllocError> {
        let place = self.place(number);
        let mut end = place.x.saturating_add(figure.size.width);
        let mut left = roots(self.figures, number, figure);
        for _ in 0..figure.count {
            let Some((inner, part, rest)) = left.split_last() else {
                break;
            };
            let x = end.saturating_sub(part.size.width);
            self.put(inner, x, place.y);
            end = x.saturating_sub(GAP);
            if x > place.x {
                self.push_line(end, place.y, x)?;
            }
            left = rest;
        }
        Ok(())
    }

    /// A track of a choice, from its begin up to its end, to the figure in this place and from where that ends.
    fn push_track(
        &mut self,
        Place { x, y }: Place,
        end: usize,
        Place { x: inner, y: own }: Place,
        behind: usize,
    ) -> Result<(), AllocError> {
        let (low, high) = (own.saturating_sub(8), y.saturating_add(8));
        let turn = end.saturating_sub(16);
        writeln!(
            self.out,
            "<path d=\"M{x},{y}q8,0 8,8V{low}q0,8 8,8H{inner}M{behind},{own}H{turn}q8,0 8,-8V{high}q0,-8 8,-8\"/>"
        )
    }

    /// The tracks of a choice, from the lowest one on.
    fn push_choice(&mut self, number: usize, figure: &Figure) -> Result<(), AllocError> {
        let place = self.place(number);
        let end = place.x.saturating_add(figure.size.width);
        let x = place.x.saturating_add(RAIL);
        let mut bottom = place.y.saturating_add(figure.size.below);
        let mut left = roots(self.figures, number, figure);
        for _ in 0..figure.count {
            let Some((inner, part, rest)) = left.split_last() else {
                break;
            };
            let y = bottom.saturating_sub(part.size.below);
            let behind = x.saturating_add(part.size.width);
            self.put(inner, x, y);
            if y > place.y {
                self.push_track(place, end, Place { x, y }, behind)?;
            } else {
                self.push_line(place.x, place.y, x)?;
                self.push_line(behind, y, end)?;
            }
            bottom = y.saturating_sub(part.size.above).saturating_sub(TRACK_GAP);
            left = rest;
        }
        Ok(())
    }

    fn place(&self, number: usize) -> Place {
        match self.places.get(number) {
            Some(place) => *place,
            None => Place::new(0, 0),
        }
    }

    /// Draws a figure, but for those that stand in it, and puts these in their places.
    fn push_figure(&mut self, number: usize, figure: &Figure) -> Result<(), AllocError> {
        let place = self.place(number);
        match figure.shape {
            Shape::Line => {
                self.push_line(place.x, place.y, place.x.saturating_add(figure.size.width))
            }
            Shape::Text { is_folded } => {
                let after = closing(is_folded);
                self.push_box(figure, place, (14, Style::Literal), after)
            }
            Shape::Box(style) => self.push_box(figure, place, (3, style), ""),
            Shape::Frame(style) => self.push_frame(number, figure, style),
            Shape::Sequence => self.push_sequence(number, figure),
            Shape::Choice => self.push_choice(number, figure),
            Shape::Loop {
                is_optional,
                repeats,
            } => self.push_loop(number, figure, is_optional, repeats),
        }
    }

    /// Draws all figures, the outermost one, which is the last, at this place.
    pub fn push_all(&mut self, place: Place) -> Result<(), AllocError> {
        let figures = self.figures;
        for _ in figures {
            self.places.push(place)?;
        }
        for (number, figure) in figures.iter().enumerate().rev() {
            self.push_figure(number, figure)?;
        }
        Ok(())
    }
}

/// The middle of a figure.
fn middle(place: Place, size: Size) -> usize {
    place.x.saturating_add(size.width / 2)
}

/// The figures that stand in this one.
fn roots<'f>(figures: &'f [Figure], number: usize, figure: &Figure) -> Roots<'f> {
    let begin = number.saturating_add(1).saturating_sub(figure.count);
    Roots::new(figures, begin, number)
}
