//! What is written of a line.

ghost use Rattle.std.specs.Prelude.{◌≡◌, ◌++◌, OnOk};
ghost use Rattle.fancy_grep.specs.Printing.{in_colour, name_part, number_part, painted, prefix};

use std::alloc::AllocError;

/// What is written before each line of a text.
#[derive(Clone, Copy)]
pub struct Style<'a> {
    /// The name of the text, where lines begin with it.
    pub name: Option<&'a str>,
    /// A zero byte is after the name.
    pub has_zeros: bool,
    pub has_colours: bool,
}

/// Where a line or a match is, as far as it is written.
#[derive(Clone, Copy)]
pub struct Place {
    /// The number of the line, from 1.
    pub number: Option<usize>,
    /// The byte of the line, from 1.
    pub column: Option<usize>,
    /// The byte of the file, from 0.
    pub offset: Option<usize>,
}

/// The colours of grep: of a match, a name, a number and what separates them.
pub const MATCH: &str = "01;31";

pub const NAME: &str = "35";

pub const NUMBER: &str = "32";

pub const SEPARATOR: &str = "36";

/// Writes a text in a colour of the terminal.
fn push_in_colour(out: &mut Vec<u8>, colour: &str, text: &[u8]) -> Result<(), AllocError>
    ensures { OnOk result (out.new.items
        ≡ out.old.items ++ in_colour colour.now text.now) }
{
    out.extend_from_slice(b"\x1b[")?;
    out.extend_from_slice(colour.as_bytes())?;
    out.extend_from_slice(b"m\x1b[K")?;
    out.extend_from_slice(text)?;
    out.extend_from_slice(b"\x1b[m\x1b[K")
}

/// Writes a text, in a colour of the terminal where that is asked for.
pub fn push_painted(
    out: &mut Vec<u8>,
    has_colours: bool,
    colour: &str,
    text: &[u8],
) -> Result<(), AllocError>
    ensures { OnOk result (out.new.items
        ≡ out.old.items ++ painted has_colours colour.now text.now) }
{
    if has_colours {
        push_in_colour(out, colour, text)
    } else {
        out.extend_from_slice(text)
    }
}

/// Writes the name of a line's text and what separates it from the rest, where lines begin with it.
pub fn push_name(out: &mut Vec<u8>, style: Style<'_>, separator: &str) -> Result<(), AllocError>
    ensures { OnOk result (out.new.items
        ≡ out.old.items ++ name_part style.entry separator.now) }
{
    let Some(name) = style.name else {
        return Ok(());
    };
    push_painted(out, style.has_colours, NAME, name.as_bytes())?;
    if style.has_zeros {
        return out.extend_from_slice(b"\0");
    }
    push_painted(out, style.has_colours, SEPARATOR, separator.as_bytes())
}

/// Writes a number, if there is one, and what separates it from the rest.
fn push_number(
    out: &mut Vec<u8>,
    has_colours: bool,
    number: Option<usize>,
    separator: &str,
) -> Result<(), AllocError>
    ensures { OnOk result (out.new.items
        ≡ out.old.items ++ number_part has_colours number separator.now) }
{
    let Some(number) = number else {
        return Ok(());
    };
    let digits = number.to_string(*out.allocator())?;
    push_painted(out, has_colours, NUMBER, digits.as_bytes())?;
    push_painted(out, has_colours, SEPARATOR, separator.as_bytes())
}

/// Writes what stands before a line.
pub fn push_prefix(
    out: &mut Vec<u8>,
    style: Style<'_>,
    place: Place,
    separator: &str,
) -> Result<(), AllocError>
    ensures { OnOk result (out.new.items
        ≡ out.old.items ++ prefix style.entry place separator.now) }
{
    push_name(out, style, separator)?;
    push_number(out, style.has_colours, place.number, separator)?;
    push_number(out, style.has_colours, place.column, separator)?;
    push_number(out, style.has_colours, place.offset, separator)
}
