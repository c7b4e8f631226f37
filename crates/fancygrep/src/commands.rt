//! The options of the program, for the library that reads command lines.

use clap::{Arg, ArgAction, Command, value_parser};
use std::alloc::{AllocError, Global};

const ABOUT: &str = "Writes the lines of files in which a pattern has a match";

const AFTER: &str =
    "A pattern is written as docs/PATTERNS.md says, as a(b|bc)d. Without FILE standard input is searched, or under -r the \
working folder; - is standard input too. --batch FILE, alone, runs each line of a \
file as a command line, in which ' quotes. Status 0: a line is selected; 1: none is; 2: something failed.";

/// Each option: its name, with another one after `/`; its letter, or `-`; what is written after it, or `-`, or `+` if its uses
/// are counted; and what it says. An option whose word ends in `..` counts each time that it is given.
const OPTIONS: &str = "\
regexp e PATTERN.. Search for PATTERN; given several times, for any of them
file f FILE.. Search for each line of FILE too
fixed-strings F - PATTERN is a text, and no pattern; each of its lines is one
extended-regexp E - Read PATTERN as it is read without this option
basic-regexp G - Read PATTERN as it is read without this option
perl-regexp P - Read PATTERN as it is read without this option
ignore-case i - Letters match in either case
smart-case S - As -i, unless a pattern has a capital letter that is not after a backslash
word-regexp w - No word character is before or after a match
line-regexp x - A match is the whole line
crlf - - A carriage return at the end of a line is no part of it, so that $ matches before it
longest - - Find the longest match at the earliest start
invert-match v - Select the lines without a match
max-count m N Select at most N lines of a file
count c - Write how many lines are selected
files-with-matches l - Write the names of files with a selected line
files-without-match L - Write the names of files without a selected line
quiet/silent q - Write nothing, and end at the first selected line
no-messages s - Report no files that cannot be read
text a - Search binary files as texts
only-matching o - Write each match on a line of its own
line-number n - Write the numbers of lines
column - - Write at which byte of a line, from 1, its first match starts
byte-offset b - Write at which byte of the file, from 0, a line, or under -o a match, starts
with-filename H - Write the names of files before lines
no-filename h - Write no names of files before lines
null Z - Write a zero byte after the name of a file
after-context A N Write N lines after each
before-context B N Write N lines before each
context C N Write N lines before and after each
replace - TEMPLATE Write this for each match: $1 is its group 1, $0 all of it, $$ a dollar sign
color/colour - [WHEN] Write in colours: always, never or auto, which is if standard output is a terminal
line-buffered - - Write each line as soon as it is selected
recursive r - Search folders, but for hidden files and what .gitignore and .ignore leave out
hidden . - Under -r search hidden files and folders too
no-ignore - - Under -r search what ignore files leave out too
unrestricted u + As --no-ignore; given twice, as --hidden too
include - GLOB.. Search only files whose name GLOB matches
exclude - GLOB.. Search no file whose name GLOB matches
exclude-dir - GLOB.. Under -r search no folder whose name GLOB matches
glob g GLOB.. Under -r search only files whose path GLOB matches, or with ! before it no such file
backtracks - N Backtrack N times in a line at most [default: 20000000, and 1 for each byte]
steps - N Execute N instructions for a line at most [default: 100000000, and 8 for each byte]
visits - N Visit N states of easy parts of the pattern in a line at most [default: 20000000]
memory - BYTES Keep BYTES for a search at most [default: 268435456]
max-prog - N Compile PATTERN to N instructions at most [default: 1000000]
analysis-limit - N Look at N nodes in the analysis of PATTERN at most [default: 5000000]";

/// The option that does not count before this one: of those that are given twice, the last one counts.
fn rival(name: &str) -> &str {
    match name {
        "files-with-matches" => "files-without-match",
        "files-without-match" => "files-with-matches",
        "with-filename" => "no-filename",
        "no-filename" => "with-filename",
        _ => name,
    }
}

/// The option of a line of the table.
fn argument<'a>(alloc: Global, line: &'a str) -> Result<Arg<'a>, AllocError> {
    let mut words = line.splitn(4, ' ');
    let names = words.next().unwrap_or("");
    let letter = words.next().unwrap_or("");
    let value = words.next().unwrap_or("");
    let (name, other) = names.split_once('/').unwrap_or((names, names));
    let mut option = Arg::new(alloc, name)
        .long(name)
        .help(words.next().unwrap_or(""));
    if other.len() != names.len() {
        option = option.alias(other)?;
    }
    if letter != "-" {
        option = option.short(letter.chars().next().unwrap_or('-'));
    }
    if let Some(word) = value.strip_suffix("..") {
        let option = option.value_name(word).action(ArgAction::Append);
        return Ok(option.allow_hyphen_values(true));
    }
    let option = option.overrides_with(name)?.overrides_with(rival(name))?;
    Ok(match value {
        "-" => option.action(ArgAction::SetTrue),
        "+" => option.action(ArgAction::Count),
        "N" | "BYTES" => option.value_name(value).value_parser(value_parser!(u64)),
        "[WHEN]" => option
            .value_name("WHEN")
            .num_args(0..=1)
            .require_equals(true)
            .default_missing_value("auto"),
        _ => option.value_name(value).allow_hyphen_values(true),
    })
}

/// The whole command.
pub fn command<'a>(alloc: Global) -> Result<Command<'a>, AllocError> {
    let pattern = Arg::new(alloc, "PATTERN")
        .required_unless_present("regexp")?
        .required_unless_present("file")?
        .help("The pattern, unless -e or -f gives one: then a file");
    let files = Arg::new(alloc, "FILE")
        .num_args(0..)
        .action(ArgAction::Append)
        .help("The files");
    let help = Arg::new(alloc, "help")
        .long("help")
        .action(ArgAction::Help)
        .help("Print help");
    let mut command = Command::new(alloc, "fancygrep")
        .about(ABOUT)
        .version("0.4.0")
        .after_help(AFTER)
        .bin_name("fancygrep")?
        .no_binary_name(true)
        .disable_help_flag(true)
        .arg(pattern)?
        .arg(files)?;
    for line in OPTIONS.lines() {
        command = command.arg(argument(alloc, line)?)?;
    }
    command.arg(help)
}
