//! The words after TREE and TEXT: a position, flags and limits, and the options that they make.

ghost use Rattle.std.specs.Prelude.{◌≡◌, ℕ, ◌+◌, ◌^◌, ◌<◌, false, None, Some, map, string_bytes};
ghost use Rattle.fancy_notation.specs.Words.{found};
ghost use Rattle.fancy_steps.specs.Tasks.{options_of as run_options_of};
ghost use Rattle.fancy_command.specs.Arguments as line;

use fancy_analysis::analyze::AnalyzeContext;
use fancy_compile::compile::CompileOptions;
use fancy_notation::numbers::number;
use fancy_search::request::Request;
use fancy_search::search::SearchOptions;
use fancy_vm::vm::RunOptions;

/// How many nodes may be written out in one another, calls with them: a group that calls itself is written out where it
/// calls, so calls nest deeper than the text does.
const MOST_NESTING: usize = 4_000;

/// An option that stands alone.
#[derive(Clone, Copy, Debug, PartialEq, Eq, Drop)]
pub enum Flag {
    CompileAnchored,
    Anchored,
    NotContinued,
    NotEmpty,
    EndText,
    Ascii,
    Longest,
}

/// An option that a number follows.
#[derive(Clone, Copy, Debug, PartialEq, Eq, Drop)]
pub enum Limit {
    Backtracks,
    Steps,
    MaxProg,
}

/// What the words after TREE and TEXT say.
#[derive(Clone, Copy, Debug, PartialEq, Eq, Drop)]
pub struct Arguments {
    /// Where the search begins, a byte of the text.
    pub pos: usize,
    pub compile_anchored: bool,
    pub anchored: bool,
    pub not_continued: bool,
    pub not_empty: bool,
    pub end_text: bool,
    pub ascii: bool,
    pub longest: bool,
    pub backtracks: Option<usize>,
    pub steps: Option<u64>,
    pub max_prog: Option<usize>,
}

/// The option of a word that stands alone.
fn flag_of(word: &str) -> Option<Flag>
    ensures { result ≡ found line.flags word.now }
{
    match word {
        "--compile-anchored" => Some(Flag::CompileAnchored),
        "--anchored" => Some(Flag::Anchored),
        "--not-continued" => Some(Flag::NotContinued),
        "--not-empty" => Some(Flag::NotEmpty),
        "--end-text" => Some(Flag::EndText),
        "--ascii" => Some(Flag::Ascii),
        "--longest" => Some(Flag::Longest),
        _ => None,
    }
}

/// The option of a word that a number follows.
fn limit_of(word: &str) -> Option<Limit>
    ensures { result ≡ found line.limits word.now }
{
    match word {
        "--backtracks" => Some(Limit::Backtracks),
        "--steps" => Some(Limit::Steps),
        "--max-prog" => Some(Limit::MaxProg),
        _ => None,
    }
}

impl Arguments {
    /// No option, and a search from this place on.
    fn with_pos(pos: usize) -> Arguments
        ensures { result ≡ line.with_pos pos }
    {
        Arguments {
            pos,
            compile_anchored: false,
            anchored: false,
            not_continued: false,
            not_empty: false,
            end_text: false,
            ascii: false,
            longest: false,
            backtracks: None,
            steps: None,
            max_prog: None,
        }
    }

    fn is_set(&self, flag: Flag) -> bool
        ensures { result ≡ line.is_set self.now flag }
    {
        match flag {
            Flag::CompileAnchored => self.compile_anchored,
            Flag::Anchored => self.anchored,
            Flag::NotContinued => self.not_continued,
            Flag::NotEmpty => self.not_empty,
            Flag::EndText => self.end_text,
            Flag::Ascii => self.ascii,
            Flag::Longest => self.longest,
        }
    }

    /// With one more option, which may not be there yet.
    fn with_flag(self, flag: Flag) -> Option<Arguments>
        ensures { result ≡ line.with_flag self flag }
    {
        if self.is_set(flag) {
            return None;
        }
        Some(match flag {
            Flag::CompileAnchored => Arguments {
                compile_anchored: true,
                ..self
            },
            Flag::Anchored => Arguments {
                anchored: true,
                ..self
            },
            Flag::NotContinued => Arguments {
                not_continued: true,
                ..self
            },
            Flag::NotEmpty => Arguments {
                not_empty: true,
                ..self
            },
            Flag::EndText => Arguments {
                end_text: true,
                ..self
            },
            Flag::Ascii => Arguments {
                ascii: true,
                ..self
            },
            Flag::Longest => Arguments {
                longest: true,
                ..self
            },
        })
    }

    fn is_limited(&self, limit: Limit) -> bool
        ensures { result ≡ line.is_limited self.now limit }
    {
        match limit {
            Limit::Backtracks => self.backtracks.is_some(),
            Limit::Steps => self.steps.is_some(),
            Limit::MaxProg => self.max_prog.is_some(),
        }
    }

    /// With one more limit, which may not be there yet.
    fn with_limit(self, limit: Limit, most: usize) -> Option<Arguments>
        ensures { result ≡ line.with_limit self limit most }
    {
        if self.is_limited(limit) {
            return None;
        }
        Some(match limit {
            Limit::Backtracks => Arguments {
                backtracks: Some(most),
                ..self
            },
            Limit::Steps => Arguments {
                steps: Some(most as u64),
                ..self
            },
            Limit::MaxProg => Arguments {
                max_prog: Some(most),
                ..self
            },
        })
    }

    /// With what the words of options say.
    fn with_options(self, words: &[String]) -> Option<Arguments>
        ensures { result ≡ line.with_options self (map string_bytes words.now) }
    {
        let mut arguments = self;
        let mut rest = words;
        while let Some((word, after)) = rest.split_first() {
            rest = after;
            match flag_of(word.as_str()) {
                Some(flag) => arguments = arguments.with_flag(flag)?,
                None => {
                    let limit = limit_of(word.as_str())?;
                    let (most, after) = rest.split_first()?;
                    arguments = arguments.with_limit(limit, number(most.as_str())?)?;
                    rest = after;
                }
            }
        }
        Some(arguments)
    }

    /// What they ask of a search.
    pub fn request(&self) -> Request
        ensures { result ≡ line.request self.now }
    {
        Request {
            pos: self.pos,
            compile_anchored: self.compile_anchored,
            anchored: self.anchored,
            not_continued: self.not_continued,
            not_empty: self.not_empty,
            end_text: self.end_text,
            ascii: self.ascii,
            longest: self.longest,
            max_prog_size: self.max_prog,
            max_nesting: Some(MOST_NESTING),
            backtrack_limit: self.backtracks.unwrap_or(1_000_000),
            step_limit: self.steps.unwrap_or(u64::MAX),
        }
    }

    /// How the tree is analysed.
    pub fn analysis(&self) -> AnalyzeContext
        ensures { result ≡ line.analysis self.now }
    {
        self.request().analysis()
    }

    /// How it is compiled.
    pub fn compilation(&self) -> CompileOptions
        ensures { result ≡ line.compilation self.now }
    {
        self.request().compilation()
    }

    /// How its program is run.
    pub fn running(&self) -> RunOptions
        ensures { run_options_of result ≡ line.running self.now }
    {
        self.request().running()
    }

    /// The options of the search.
    pub fn options(&self) -> SearchOptions
        ensures analysis { result.analysis ≡ line.analysis self.now }
        ensures compilation { result.compilation ≡ line.compilation self.now }
        ensures run { run_options_of result.run ≡ line.running self.now }
    {
        self.request().options()
    }
}

/// What the words after TREE and TEXT say: a place, where the first one is a number, and options, each at most once.
///
/// None where a word can't stand where it stands, or a number does not fit or is missing.
pub fn read_arguments(words: &[String]) -> Option<Arguments>
    ensures { result ≡ line.arguments_of (map string_bytes words.now) }
{
    let Some((first, rest)) = words.split_first() else {
        return Some(Arguments::with_pos(0));
    };
    match number(first.as_str()) {
        Some(pos) => Arguments::with_pos(pos).with_options(rest),
        None => Arguments::with_pos(0).with_options(words),
    }
}
