//! The options with which a pattern is read.

ghost use Rattle.std.specs.Prelude.{◌≡◌};
ghost use Rattle.fancy_pattern.specs.Options.{default_parsing};
ghost use Rattle.fancy_pattern.specs.Spelling.{flags_of};

use fancy_tokens::flags::Flags;

/// How a pattern is read. The first seven are the flags that hold where it begins; the pattern can change them but for
/// `unicode`, which it cannot clear. All but `unicode` are off by default.
#[derive(Clone, Copy, Debug, PartialEq, Eq)]
pub struct ParseOptions {
    /// `i`: literals, classes and references match without regard to case.
    pub case_insensitive: bool,
    /// `m`: `^` and `$` also match where a line begins and ends.
    pub multi_line: bool,
    /// `s`: `.` matches a newline too.
    pub dot_matches_new_line: bool,
    /// `x`: white space between tokens is ignored, and so is the rest of a line from a `#` on.
    pub ignore_whitespace: bool,
    /// `R`: a CR before an LF belongs to the end of its line.
    pub crlf: bool,
    /// `U`: quantifiers are lazy, and greedy with a `?`.
    pub swap_greed: bool,
    /// `u`: folding, classes and word characters are those of Unicode, and otherwise those of ASCII.
    pub unicode: bool,
    /// Under `m` a line begins where it does for Oniguruma. No letter of a pattern sets this.
    pub oniguruma: bool,
    /// If a group has a name, a plain `( )` captures nothing. No letter of a pattern sets this.
    pub ignore_numbered_groups_when_named_groups_exist: bool,
}

impl Default for ParseOptions {
    fn default() -> ParseOptions
        ensures { result ≡ default_parsing }
    {
        ParseOptions {
            case_insensitive: false,
            multi_line: false,
            dot_matches_new_line: false,
            ignore_whitespace: false,
            crlf: false,
            swap_greed: false,
            unicode: true,
            oniguruma: false,
            ignore_numbered_groups_when_named_groups_exist: false,
        }
    }
}

impl ParseOptions {
    /// The flags that hold where the pattern begins.
    pub(crate) fn flags(self, named_only: bool) -> Flags
        ensures { result ≡ flags_of self named_only }
    {
        Flags {
            casei: self.case_insensitive,
            multi_line: self.multi_line,
            dot_all: self.dot_matches_new_line,
            ignore_whitespace: self.ignore_whitespace,
            crlf: self.crlf,
            swap_greed: self.swap_greed,
            unicode: self.unicode,
            oniguruma: self.oniguruma,
            named_only,
        }
    }
}
