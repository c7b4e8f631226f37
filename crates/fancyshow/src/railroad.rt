//! A pattern as a railroad diagram.

use crate::outcome::{Answer, Trouble, too_large};
use crate::request::Request;
use crate::source::read;
use fancy_expr::error::Error;
use fancy_railroad::draw::{DrawError, MOST_NODES, draw};

/// The pattern, or the tree, as a railroad diagram in SVG.
pub fn railroad(request: &Request) -> Answer {
    let drawn = {
        let tree = read(request)?;
        draw(request.alloc, &tree, request.source.as_str())
    };
    match drawn {
        Ok(picture) => Ok(picture),
        Err(DrawError::Memory) => Err(Trouble::Engine(Error::Memory)),
        Err(DrawError::TooLarge) => { Err(too_large(request.alloc, "tree", MOST_NODES, "nodes")?) }
    }
}
