//! Regular expressions by the names of fancy-regex: a pattern goes in, and matches come out. See README.md.
#![tactic(auto)]

pub mod builder;
pub mod error;
pub mod found;
pub mod iterators;
pub mod names;
pub mod options;
pub mod regexes;
pub mod replacement;
pub mod scanner;
pub mod splits;

pub use builder::RegexBuilder;
pub use error::{CompileError, Error, ParseErrorKind, RuntimeError};
pub use fancy_matches::found::Match;
pub use fancy_pattern::escape::escape;
pub use fancy_replace::output::Output;
pub use fancy_replace::parts::{Part, Parts};
pub use fancy_replace::replacer::{NoExpand, Replacer};
pub use fancy_replace::template::Template;
pub use fancy_scanner::scan_limit::ScanLimit;
pub use fancy_scanner::scan_text::{ScanStep, TreeMatch as ScanMatch};
pub use fancy_scanner::scanner::Stopped;
pub use found::{Captures, SubCaptureMatches};
pub use iterators::{CaptureMatches, Matches};
pub use names::CaptureNames;
pub use regexes::Regex;
pub use replacement::Replacement;
pub use scanner::{ScanText, Scanner};
pub use splits::Split;
