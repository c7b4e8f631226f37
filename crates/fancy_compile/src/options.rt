//! How a tree is compiled.

ghost use Rattle.std.specs.Prelude.{◌≡◌, None, false, true};
ghost use Rattle.fancy_compile.specs.declared.options.BytesMode.TheVariants as mode;

/// What a text is made of.
#[derive(Clone, Copy, Debug, PartialEq, Eq)]
pub enum BytesMode {
    Ascii,
    Unicode,
    UnicodeBytes,
}

#[derive(Clone, Copy, Debug, PartialEq, Eq)]
pub struct CompileOptions {
    /// The search tries the first start alone.
    pub anchored: bool,
    /// Changes nothing.
    pub contains_subroutines: bool,
    /// An empty match at the end of the text, after a newline, is refused.
    pub disallow_empty_match_at_eof_after_newline: bool,
    /// Any other than `Unicode` is refused.
    pub bytes_mode: BytesMode,
    pub unicode: bool,
    /// The most instructions; without it there is no bound.
    pub max_prog_size: Option<usize>,
    /// The most nodes that are written out in one another, calls with them: more are refused. Without it there is no bound but the stack.
    pub max_nesting: Option<usize>,
}

impl Default for CompileOptions {
    fn default() -> CompileOptions
        ensures { result
            ≡ record {
              anchored = false;
              contains_subroutines = false;
              disallow_empty_match_at_eof_after_newline = false;
              bytes_mode = mode.Unicode;
              unicode = true;
              max_prog_size = None;
              max_nesting = None;
            } }
    {
        CompileOptions {
            anchored: false,
            contains_subroutines: false,
            disallow_empty_match_at_eof_after_newline: false,
            bytes_mode: BytesMode::Unicode,
            unicode: true,
            max_prog_size: None,
            max_nesting: None,
        }
    }
}
