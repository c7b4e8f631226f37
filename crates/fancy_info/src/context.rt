//! The options of the analysis.

ghost use Rattle.std.specs.Prelude.{◌≡◌, false};

/// The options of an analysis.
#[derive(Clone, Copy, Debug, PartialEq, Eq)]
pub struct AnalyzeContext {
    /// The first group has number 0, and not 1.
    pub explicit_capture_group_0: bool,
    /// An empty match may be refused.
    pub find_not_empty: bool,
    /// An empty match at the end of the text, after a newline, may be refused.
    pub disallow_empty_match_at_eof_after_newline: bool,
    /// The longest match at the earliest start may be asked for, and not the first.
    pub leftmost_longest: bool,
}

impl Default for AnalyzeContext {
    /// No option is set.
    fn default() -> AnalyzeContext
        ensures { result ≡ record {
          explicit_capture_group_0 = false;
          find_not_empty = false;
          disallow_empty_match_at_eof_after_newline = false;
          leftmost_longest = false;
        } }
    {
        AnalyzeContext {
            explicit_capture_group_0: false,
            find_not_empty: false,
            disallow_empty_match_at_eof_after_newline: false,
            leftmost_longest: false,
        }
    }
}
