//! A tree as a railroad diagram.

ghost use Rattle.std.specs.Prelude.{◌≡◌, ◌≤◌, MatchResult};
ghost use Rattle.fancy_railroad.specs.Drawing.{IsRefusedFor, most_nodes, node_count};
ghost use Rattle.fancy_railroad.specs.declared.draw.DrawError.TheVariants.{Memory};

use crate::builder::{Builder, Parent};
use crate::count::count_nodes;
use crate::figures::{Figure, Size, box_width};
use crate::names::GroupNames;
use crate::painter::{Painter, Place};
use crate::xml::push_escaped;
use fancy_expr::expr::{Expr, ExprTree};
use std::alloc::{AllocError, Global};

/// How many nodes a tree may have that is drawn.
pub const MOST_NODES: usize = 2_000;

/// Why a tree is not drawn.
#[derive(Debug, Drop, PartialEq, Eq)]
pub enum DrawError {
    /// It has more than `MOST_NODES` nodes.
    TooLarge,
    Memory,
}

impl From<AllocError> for DrawError {
    ghost from_gives = { λ _ error. error ≡ Memory };

    fn from(_e: AllocError) -> DrawError {
        DrawError::Memory
    }
}

/// Around the picture.
const MARGIN: usize = 16;
/// Above the picture, for the pattern.
const HEAD: usize = 44;
/// From the margin to the figures, for the marks of start and end.
const MARK: usize = 20;

const STYLE: &str = "<style>text{font:13px monospace;fill:#222;text-anchor:middle}\
.note{font-size:11px;fill:#555}.label{font-size:11px;fill:#555;text-anchor:start}\
.head-line{text-anchor:start}path{fill:none;stroke:#555;stroke-width:1.5}\
path.head{fill:#555;stroke:none}circle{fill:#555}rect{stroke:#666}\
.ground{fill:#fff;stroke:none}.literal{fill:#d5e8d4}.class{fill:#dae8fc}.place{fill:#fff2cc}\
.reference{fill:#e1d5e7}.control{fill:#f8cecc}.group{fill:#f7f7f7}\
.look{fill:#fffaf0;stroke:#b8860b;stroke-dasharray:5 3}\
.atomic{fill:#fdf3f3;stroke:#b85450;stroke-dasharray:2 2}</style>\n";

/// Writes what stands before the figures: the size, the title, the ground, the pattern.
fn push_head(out: &mut String, size: Size, title: &str) -> Result<(), AllocError> {
    let (width, height) = (size.width, size.below);
    write!(
        out,
        "<svg xmlns=\"http://www.w3.org/2000/svg\" viewBox=\"0 0 {width} {height}\" width=\"{width}\" height=\"{height}\">\n<title>"
    )?;
    push_escaped(out, title)?;
    write!(
        out,
        "</title>\n{STYLE}<rect width=\"{width}\" height=\"{height}\" class=\"ground\"/>\n"
    )?;
    write!(out, "<text x=\"{MARGIN}\" y=\"24\" class=\"head-line\">")?;
    push_escaped(out, title)?;
    out.push_str("</text>\n")
}

/// Writes the marks of start and end, with the track to the figures and from them.
fn push_marks(out: &mut String, place: Place, size: Size) -> Result<(), AllocError> {
    let Place { x, y } = place;
    let (start, end) = (x.saturating_sub(MARK - 6), x.saturating_add(size.width));
    let last = end.saturating_add(MARK - 6);
    writeln!(
        out,
        "<path d=\"M{start},{y}H{x}M{end},{y}H{last}\"/>\n<circle cx=\"{start}\" cy=\"{y}\" r=\"5\"/>\n\
<circle cx=\"{last}\" cy=\"{y}\" r=\"5\"/>"
    )
}

/// The picture of these figures.
fn painted(alloc: Global, figures: &[Figure], title: &str) -> Result<String, AllocError> {
    let mut painter = Painter {
        out: String::new(alloc),
        figures,
        places: Vec::new(alloc),
    };
    let size = match figures.last() {
        Some(figure) => figure.size,
        None => Size::new(0, 0, 0),
    };
    let place = Place::new(MARGIN + MARK, size.above.saturating_add(HEAD));
    let width = size.width.saturating_add(2 * (MARGIN + MARK));
    let whole = Size::new(
        width.max(box_width(title, 0).saturating_add(MARGIN)),
        0,
        place.y.saturating_add(size.below).saturating_add(MARGIN),
    );
    push_head(&mut painter.out, whole, title)?;
    push_marks(&mut painter.out, place, size)?;
    painter.push_all(place)?;
    painter.out.push_str("</svg>\n")?;
    Ok(painter.out)
}

/// The figures of a tree, the outermost one last.
fn figures_of(alloc: Global, expr: &Expr, names: &GroupNames) -> Result<Vec<Figure>, AllocError> {
    let mut builder = Builder {
        alloc,
        figures: Vec::new(alloc),
        group: 1,
        names,
    };
    builder.add(expr, Parent::Nothing)?;
    Ok(builder.figures)
}

/// The tree as a railroad diagram: a document in SVG, with the title at its head. The diagram is as long as the tree.
///
/// `TooLarge` where the tree has more than `MOST_NODES` nodes, and `Memory` where an allocation failed.
pub fn draw(alloc: Global, tree: &ExprTree, title: &str) -> Result<String, DrawError>
    ensures { MatchResult
        result
        (λ _. node_count tree.now.expr ≤ most_nodes)
        (λ error. IsRefusedFor tree.now.expr error) }
{
    if count_nodes(&tree.expr) > MOST_NODES {
        return Err(DrawError::TooLarge);
    }
    let names = GroupNames::new(alloc, &tree.named_groups)?;
    let figures = figures_of(alloc, &tree.expr, &names)?;
    Ok(painted(alloc, &figures, title)?)
}
