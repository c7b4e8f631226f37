//! From where on only newlines are left in a text.

ghost use Rattle.std.specs.Prelude.{◌≡◌, ◌==◌, ◌||◌, ◌&&◌, ℕ, List};
ghost use Rattle.fancy_meaning.specs.Assertions.{only_newlines_left};
ghost use Rattle.fancy_steps.specs.TrailingNewlines.{AreTrailingNewlines, StartsNewlines};

/// From where on only LFs are left in a text, and only LFs and CRs, each once it was asked for.
#[derive(Clone, Copy, Drop)]
pub(crate) struct TrailingNewlines {
    lf: Option<usize>,
    crlf: Option<usize>,
}

/// The byte is an LF, or with `crlf` a CR.
fn is_newline(byte: u8, crlf: bool) -> bool
    ensures { result ≡ (byte == 10 || (crlf && byte == 13)) }
{
    byte == b'\n' || (crlf && byte == b'\r')
}

/// From where on only LFs are left, and with `crlf` also CRs.
fn newlines_start(text: &[u8], crlf: bool) -> usize
    ensures { StartsNewlines text.now crlf result }
{
    let mut from = text.len();
    'newlines: while from > 0 {
        if !is_newline(text[from - 1], crlf) {
            return from;
        }
        from -= 1;
    }
    0
}

impl TrailingNewlines {
    /// Nothing was asked for yet.
    pub(crate) fn new() -> TrailingNewlines
        ensures { (text : List ℕ) → AreTrailingNewlines text result }
    {
        TrailingNewlines {
            lf: None,
            crlf: None,
        }
    }

    /// The rest from `ix` on is LFs, and with `crlf` also CRs.
    pub(crate) fn only_newlines_left(&mut self, text: &[u8], ix: usize, crlf: bool) -> bool
        requires { AreTrailingNewlines text.now self.old }
        ensures left { result ≡ only_newlines_left text.now ix crlf }
        ensures trailing_newlines { AreTrailingNewlines text.now self.new }
    {
        if crlf {
            let from = match self.crlf {
                Some(from) => from,
                None => newlines_start(text, true),
            };
            self.crlf = Some(from);
            from <= ix
        } else {
            let from = match self.lf {
                Some(from) => from,
                None => newlines_start(text, false),
            };
            self.lf = Some(from);
            from <= ix
        }
    }
}
