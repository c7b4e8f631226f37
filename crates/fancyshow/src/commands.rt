//! The parts of the program, with their arguments and options, for the library that reads command lines.

use clap::{Arg, ArgAction, Command, value_parser};
use std::alloc::{AllocError, Global};

const VERSION: &str = "0.4.0";

const ABOUT: &str = "Shows what a pattern matches in a text, and what the pattern is compiled to";

const AFTER: &str =
    "docs/PATTERNS.md has the syntax of patterns, and docs/MEANING.md that of trees (--tree). \
Exit status: 0 if there is a result, also if there is no match; 1 if the pattern or the search is refused; \
2 if the command line or a file is invalid; 3 if a write failed.";

const HIGHLIGHT: &str =
    "A text by the rules of a language, in the shape of a TextMate grammar, as text, colours, HTML or tokens";

const STEPS: &str =
    "At most N steps in a search [default: 100000000, and eight more for each start; trace: 1000]";

/// The parts that take a pattern; a pattern and a text; those of them in which a search has limits on its easy parts, and
/// a place where it begins; and those that take a text.
const PATTERN: &str = "find why all split replace trace list tree explain picture page";

const TEXT: &str = "find why all split replace trace page";

const SEARCH: &str = "find why all split replace page";

const PLACE: &str = "find why trace";

const TEXT_ALONE: &str = "find why all split replace trace page highlight";

/// What is written for an argument: itself, if no option is named.
#[derive(Clone, Copy)]
enum Kind {
    Word,
    Flag,
    Number,
    Bytes,
    File,
    /// A file that has to be named.
    RequiredFile,
    Replacement,
}

use Kind::{Bytes, File, Flag, Number, Replacement, RequiredFile, Word};

/// The rows of a table, each with its cells.
macro_rules! table {
    ($($($cell:expr),+;)*) => {
        [$(($($cell),+)),*]
    };
}

/// Each part: its name, and what it is for.
static PARTS: [(&str, &str); 13] = table! {
    "find", "The first match and its groups";
    "why", "Why there is no match: how much of the pattern matches, and what does not follow";
    "all", "All matches, each marked in the text";
    "split", "The pieces of the text between its matches";
    "replace", "The text with its matches replaced";
    "trace", "Each step of the search, at most 1000 steps without --steps";
    "list", "The program of the pattern, instruction by instruction";
    "tree", "The syntax tree of the pattern, with what is known of each node, or the node that is refused";
    "explain", "The pattern in words, piece by piece";
    "picture", "The program of the pattern as a picture, in SVG or for Graphviz, or the pattern as a railroad diagram";
    "page", "A page of HTML: the pattern in words and as a diagram, its matches, its program";
    "highlight", HIGHLIGHT;
    "batch", "Runs each line of a file as a command line, in which ' quotes";
};

/// Each argument: its name, the parts that take it, what is written, and what it says.
static ARGUMENTS: [(&str, &str, Kind, &str); 31] = table! {
    "PATTERN", PATTERN, Word, "The pattern";
    "tree", PATTERN, Flag, "PATTERN is a tree, as (cat \"a\" (grp any))";
    "pattern-file", PATTERN, File, "Read the pattern from a file";
    "tree-file", PATTERN, File, "Read the tree from a file, in which line ends count as spaces";
    "compile-anchored", PATTERN, Flag, "Compile for matches where the search begins only";
    "not-empty", PATTERN, Flag, "Find no empty match";
    "end-text", PATTERN, Flag, "Find no empty match at the end of a text after a newline";
    "ascii", PATTERN, Flag, "Use ASCII for case folding, word characters and classes";
    "longest", PATTERN, Flag, "Find the longest of the matches at the earliest start";
    "max-prog", PATTERN, Number, "At most N instructions in the program [default: 1000000]";
    "analysis-limit", PATTERN, Number, "At most N nodes that the analysis looks at [default: 5000000]";
    "TEXT", TEXT_ALONE, Word, "The text; standard input for - or if it is left out";
    "file", TEXT_ALONE, File, "Read the text from a file, or from standard input for -";
    "anchored", TEXT, Flag, "Match only where the search begins";
    "not-continued", TEXT, Flag, "No earlier match ended where the search begins";
    "backtracks", TEXT, Number, "At most N backtracks in a search [default: 20000000, and one more for each start]";
    "steps", TEXT, Number, STEPS;
    "visits", SEARCH, Number, "At most N visits of states of easy parts in a search [default: 20000000]";
    "memory", SEARCH, Bytes, "At most BYTES that a search keeps for easy parts [default: 268435456]";
    "pos", PLACE, Number, "Begin at this byte of the text";
    "with", "replace", Replacement, "The replacement of a match: $1 is group 1, $0 the whole match, $$ a dollar sign";
    "max-output", "replace", Bytes, "At most BYTES in the result [default: 268435456]";
    "dot", "picture", Flag, "Write DOT in place of SVG";
    "railroad", "picture", Flag, "Draw the pattern as a railroad diagram in place of the program";
    "rules", "highlight", RequiredFile, "The rules of the language, in JSON";
    "grammars", "highlight", File, "The folder of other grammars that the rules may include, each NAME.json";
    "edited", "highlight", File, "How many lines an editor asks for anew once the text is this file";
    "html", "highlight", Flag, "Write a page of HTML";
    "tokens", "highlight", Flag, "Write each token with the names of its scopes";
    "ansi", "highlight", Flag, "Write the colours of a terminal, whatever the output is";
    "FILE", "batch", Word, "The file; standard input for - or if it is left out";
};

fn argument<'a>(alloc: Global, name: &'a str, kind: Kind, help: &'a str) -> Arg<'a> {
    let word = Arg::new(alloc, name).help(help);
    match kind {
        Kind::Word => word,
        Kind::Flag => word.long(name).action(ArgAction::SetTrue),
        Kind::Number => word
            .long(name)
            .value_name("N")
            .value_parser(value_parser!(u64)),
        Kind::Bytes => word
            .long(name)
            .value_name("BYTES")
            .value_parser(value_parser!(u64)),
        Kind::File => word.long(name).value_name("FILE"),
        Kind::RequiredFile => word.long(name).value_name("FILE").required(true),
        Kind::Replacement => word
            .long(name)
            .value_name("TEMPLATE")
            .required(true)
            .allow_hyphen_values(true),
    }
}

/// The arguments of the part with this name.
fn arguments<'a>(alloc: Global, part: &str) -> Result<Vec<Arg<'a>>, AllocError> {
    let mut arguments = Vec::new(alloc);
    for (name, parts, kind, help) in &ARGUMENTS {
        for it in parts.split(' ') {
            if it == part {
                arguments.push(argument(alloc, name, *kind, help))?;
            }
        }
    }
    Ok(arguments)
}

/// The part with what it takes.
fn part<'a>(alloc: Global, name: &'a str, about: &'a str) -> Result<Command<'a>, AllocError> {
    let arguments = arguments(alloc, name)?;
    Command::new(alloc, name).about(about).args(arguments)
}

/// All parts.
fn parts<'a>(alloc: Global) -> Result<Vec<Command<'a>>, AllocError> {
    let mut parts = Vec::new(alloc);
    for (name, about) in &PARTS {
        parts.push(part(alloc, name, about)?)?;
    }
    Ok(parts)
}

/// The command without its parts.
fn bare_command<'a>(alloc: Global) -> Result<Command<'a>, AllocError> {
    Command::new(alloc, "fancyshow")
        .version(VERSION)
        .about(ABOUT)
        .after_help(AFTER)
        .no_binary_name(true)
        .subcommand_required(true)
        .arg_required_else_help(true)
        .bin_name("fancyshow")
}

/// The whole command.
pub fn command<'a>(alloc: Global) -> Result<Command<'a>, AllocError> {
    let parts = parts(alloc)?;
    bare_command(alloc)?.subcommands(parts)
}
