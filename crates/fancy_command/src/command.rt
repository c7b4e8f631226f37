//! `command`: from the words of a command line to a line on a stream and a status.

ghost use Rattle.std.specs.Prelude.{◌≡◌, IfSome, IsTrue, map, option_map, string_bytes};
ghost use Rattle.fancy_meaning.specs.Places.{is_place};
ghost use Rattle.fancy_command.specs.Arguments.{question_of};
ghost use Rattle.fancy_command.specs.Commands.{AnswersTo, Performs, WritesError, Shows, asked, status_after};

use crate::arguments::{Arguments, read_arguments};
use crate::printing::{answer_line, depth_line, error_line, memory_line, usage_line, write_line};
use fancy_expr::error::Error;
use fancy_notation::depth::depth;
use fancy_notation::notation::read_tree;
use fancy_search::scratch::Scratch;
use fancy_search::search::search;
use fancy_vm::vm::SearchLimits;
use std::alloc::Global;
use std::io::Write;

/// How deep a tree may nest. What reads, compiles and frees a tree recurses over it, so a deeper one could pass the end
/// of the native stack.
pub const MOST_DEPTH: usize = 1_000;

/// How many bytes a search may keep for easy parts: one that needs more is out of memory.
const MOST_BYTES: usize = 1_073_741_824;

/// What a command line asks.
#[derive(Clone, Copy, Drop)]
struct Question<'a> {
    tree: &'a str,
    text: &'a str,
    arguments: Arguments,
}

/// The question of a command line; none where the line is invalid, or the search is to begin inside a character.
fn ask(args: &[String]) -> Option<Question<'_>>
    ensures asks { option_map asked result ≡ question_of (map string_bytes args.now) }
    ensures begins { IfSome result (λ q. IsTrue (is_place q.text.now q.arguments.pos)) }
{
    let (tree, rest) = args.split_first()?;
    let (text, words) = rest.split_first()?;
    let arguments = read_arguments(words)?;
    let tree = tree.as_str();
    let text = text.as_str();
    if !text.is_char_boundary(arguments.pos) {
        return None;
    }
    Some(Question {
        tree,
        text,
        arguments,
    })
}

impl Question<'_> {
    /// The answer of the search.
    fn find(&self, alloc: Global) -> Result<Option<Vec<usize>>, Error>
        requires { IsTrue (is_place self.now.text.now self.now.arguments.pos) }
        ensures { AnswersTo (asked self.now) result }
    {
        let tree = read_tree(alloc, self.tree)?;
        let options = self.arguments.options();
        let mut scratch = Scratch::new(alloc);
        scratch.limit(SearchLimits {
            visits: None,
            bytes: Some(MOST_BYTES),
        });
        search(alloc, &tree, self.text, &options, &mut scratch)
    }

    /// The line of the answer.
    fn show(&self, alloc: Global) -> Result<String, Error>
        requires { IsTrue (is_place self.now.text.now self.now.arguments.pos) }
        ensures { Shows (asked self.now) result }
    {
        let answer = self.find(alloc)?;
        Ok(answer_line(alloc, &answer)?)
    }
}

/// The status once a line was to be written.
fn status(written: bool, wanted: u8) -> u8
    ensures { result ≡ status_after written wanted }
{
    if written { wanted } else { 3 }
}

/// Writes the line of an error: its name, or `Memory` if there is no memory for the name.
fn report<O: Write>(alloc: Global, error: &Error, out: &mut O) -> u8
    ensures { WritesError (O.contents out.old) (O.contents out.new) error.now result }
{
    match error_line(alloc, error) {
        Ok(line) => status(write_line(out, line.as_bytes()), 1),
        Err(_) => status(write_line(out, memory_line()), 1),
    }
}

/// Searches as the words after the program's own name ask: TREE in the notation, TEXT, and then a place, a byte of
/// TEXT, and options. Returns the status.
///
/// The answer is written on `out` with status 0: start and end of each group in bytes of TEXT, or `none`. A refusal
/// is written there by its name with status 1; a TREE that nests deeper than `MOST_DEPTH` is not read, and its refusal
/// is `RecursionExceeded`; one of which more than 4,000 nodes are written out in one another, as calls are where they
/// stand, is `NestLimitExceeded`. An invalid command line, or a place inside a character of TEXT, gives a line on `err` with
/// status 2, and TREE is not read. Where a write fails, the status is 3, and no more is written: what was
/// written before it is a part of the line from its start.
pub fn command<O: Write, E: Write>(alloc: Global, args: &[String], out: &mut O, err: &mut E) -> u8
    ensures { Performs
        (map string_bytes args.now)
        (O.contents out.old)
        (O.contents out.new)
        (E.contents err.old)
        (E.contents err.new)
        result }
{
    let Some(question) = ask(args) else {
        return status(write_line(err, usage_line()), 2);
    };
    if depth(question.tree) > MOST_DEPTH {
        return status(write_line(out, depth_line()), 1);
    }
    match question.show(alloc) {
        Ok(line) => status(write_line(out, line.as_bytes()), 0),
        Err(error) => report(alloc, &error, out),
    }
}
