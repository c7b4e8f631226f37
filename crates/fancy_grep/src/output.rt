//! What is written, kept until there is enough of it.

ghost use Rattle.std.specs.Prelude.{◌≡◌, [], ◌∷◌, None, OnOk, option_copied};
ghost use Rattle.fancy_grep.specs.Outputs.{Sends, Writes};
ghost use Rattle.fancy_grep.specs.Printing.{name_part, painted, prefix};

use crate::printing::{self, Place, Style};
use std::alloc::{AllocError, Global};
use std::io::Write;
use std::{io, mem};

/// How many bytes are kept before they are written.
const MOST_KEPT: usize = 65_536;

/// Bytes that are written to a sink, by lines or by blocks.
#[derive(Drop)]
pub struct Output<W: Write + Drop> {
    sink: W,
    /// What is not written yet.
    kept: Vec<u8>,
    /// It is written by lines.
    by_lines: bool,
    /// The error of the first write that failed. Nothing is written after it.
    error: Option<io::Error>,
}

impl<W: Write + Drop> Output<W> {
    pub fn new(alloc: Global, sink: W, by_lines: bool) -> Output<W>
        ensures sink { result.sink ≡ sink }
        ensures kept { result.kept.items ≡ [] }
        ensures error { result.error ≡ None }
    {
        Output {
            sink,
            kept: Vec::new(alloc),
            by_lines,
            error: None,
        }
    }

    /// Adds bytes to what is written. Many of them are not kept.
    pub fn push(&mut self, bytes: &[u8]) -> Result<(), AllocError>
        ensures { OnOk result (Writes W.contents self.old self.new bytes.now) }
    {
        if bytes.len() < MOST_KEPT {
            return self.kept.extend_from_slice(bytes);
        }
        self.flush();
        self.write(bytes);
        Ok(())
    }

    /// Adds a text, in a colour of the terminal if that is asked for.
    pub fn push_painted(
        &mut self,
        has_colours: bool,
        colour: &str,
        text: &[u8],
    ) -> Result<(), AllocError>
        ensures { OnOk result (Writes
            W.contents self.old self.new (painted has_colours colour.now text.now)) }
    {
        printing::push_painted(&mut self.kept, has_colours, colour, text)
    }

    /// Adds the name of a line's text and what separates it from the rest, if lines begin with it.
    pub fn push_name(&mut self, style: Style<'_>, separator: &str) -> Result<(), AllocError>
        ensures { OnOk result (Writes
            W.contents self.old self.new (name_part style.entry separator.now)) }
    {
        printing::push_name(&mut self.kept, style, separator)
    }

    /// Adds what is before a line.
    pub fn push_prefix(
        &mut self,
        style: Style<'_>,
        place: Place,
        separator: &str,
    ) -> Result<(), AllocError>
        ensures { OnOk result (Writes
            W.contents self.old self.new (prefix style.entry place separator.now)) }
    {
        printing::push_prefix(&mut self.kept, style, place, separator)
    }

    /// Ends a line, and writes what is kept if that is enough.
    pub fn end_line(&mut self) -> Result<(), AllocError>
        ensures { OnOk result (Writes W.contents self.old self.new (10 ∷ [])) }
    {
        self.kept.push(b'\n')?;
        if self.by_lines || self.kept.len() >= MOST_KEPT {
            self.flush();
        }
        Ok(())
    }

    /// Writes what is kept.
    pub fn flush(&mut self)
        ensures writes { Writes W.contents self.old self.new [] }
        ensures kept { self.new.kept.items ≡ [] }
    {
        let mut kept = Vec::new(*self.kept.allocator());
        mem::swap(&mut kept, &mut self.kept);
        self.write(&kept);
        kept.clear();
        self.kept = kept;
    }

    fn write(&mut self, bytes: &[u8])
        ensures { Sends W.contents self.old self.new bytes.now }
    {
        if self.error.is_none() && !bytes.is_empty() {
            if let Err(error) = self.sink.write_all(bytes) {
                self.error = Some(error);
            }
        }
    }

    /// The error of the first write that failed, if one did.
    pub fn error(&self) -> Option<&io::Error>
        ensures { option_copied result ≡ self.now.error }
    {
        self.error.as_ref()
    }
}
