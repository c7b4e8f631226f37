//! A text with matches replaced.

ghost use Rattle.std.specs.Prelude.{◌≡◌, ◌++◌, [], ℕ, IfOk, IsTrue, List, MatchResult, None, OnOk};
ghost use Rattle.fancy_meaning.specs.Fits.{run_fits};
ghost use Rattle.fancy_matches.specs.Matchers.{captures_text, numbers_in};
ghost use Rattle.fancy_replace.specs.Outputs.{Grows, Holds};
ghost use Rattle.fancy_replace.specs.Pieces.{as_limit};
ghost use Rattle.fancy_search.specs.Searches.{HasSource, program};
ghost use Rattle.fancy_steps.specs.SearchLimits.{StaysWithin};
ghost use Rattle.fancy_search.specs.Scratches.{Suits, limits_of, passed_of};
ghost use Rattle.fancy_steps.specs.Tasks.{options_of as run_options_of, task_of};
ghost use Rattle.fancy_host.specs.Rewritten.{FailsToRewrite, HoldsRewritten, WritesNew};
ghost use Rattle.fancy_host.specs.Rewritten as rewritten;

use crate::outcome::{FancyOutcome, NO_ROOM, OK};
use crate::writing::write_text;
use fancy_expr::error::Error;
use fancy_matches::cursor::Cursor;
use fancy_matches::found::Captures;
use fancy_matches::searches::next_found;
use fancy_replace::output::{BoundedText, Output};
use fancy_replace::replacer::Replacer;
use fancy_search::scratch::Scratch;
use fancy_search::search::Compiled;
use fancy_vm::vm::RunOptions;
use std::alloc::{AllocError, Global};

/// The text with its first `limit` matches replaced, all of them if that is 0, of which this many bytes are kept.
pub fn rewrite<R: Replacer>(
    alloc: Global,
    compiled: &Compiled,
    text: &str,
    options: &RunOptions,
    limit: usize,
    replacement: &R,
    room: usize,
    scratch: &mut Scratch,
) -> Result<BoundedText, Error>
    requires fits { IsTrue (run_fits (task_of (program compiled.now) [] options.now)) }
    requires source { HasSource compiled.now }
    requires passed { passed_of scratch.old ≡ None }
    requires suits { Suits compiled.now scratch.old }
    ensures rewrites { MatchResult
        result
        (HoldsRewritten
        compiled.now text.now (run_options_of options.now) (as_limit limit)
        (R.replacement_text replacement.now) room)
        (FailsToRewrite compiled.now text.now (run_options_of options.now) (as_limit limit)) }
    ensures limits { limits_of scratch.new ≡ limits_of scratch.old }
    ensures suits { Suits compiled.now scratch.new }
    ensures stays { StaysWithin result (passed_of scratch.new) }
{
    let most = most_of(limit);
    let mut cursor = Cursor::first();
    let mut out = BoundedText::new(alloc, room);
    let mut from = 0;
    for count in 0..most {
        match next_found::<Captures<'_>>(alloc, compiled, text, options, &mut cursor, scratch)? {
            None => return Ok(with_rest(out, &text[from..])?),
            Some(captures) => {
                let whole = captures.whole();
                append(&text[from..whole.start()], &captures, replacement, &mut out)?;
                from = whole.end();
            }
        }
    }
    Ok(with_rest(out, &text[from..])?)
}

/// How many matches are replaced at most; for 0 more than any text has.
fn most_of(limit: usize) -> usize
    ensures { result ≡ rewritten.most_of limit }
{
    if limit == 0 { usize::MAX } else { limit }
}

/// Appends the piece before a match, and what is written in the place of the match.
fn append<R: Replacer>(
    piece: &str,
    captures: &Captures<'_>,
    replacement: &R,
    out: &mut BoundedText,
) -> Result<(), AllocError>
    ensures { OnOk result (Grows
        Holds out.old
        (piece.now ++ R.replacement_text replacement.now (captures_text captures.now)
        (numbers_in captures.now))
        out.new) }
{
    out.append(piece)?;
    replacement.replace_append(captures, out)
}

/// What was written, and the rest of the text.
fn with_rest(out: BoundedText, rest: &str) -> Result<BoundedText, AllocError>
    ensures { IfOk result (Grows Holds out rest.now) }
{
    let mut out = out;
    out.append(rest)?;
    Ok(out)
}

/// For how many bytes of a text there is room with a zero at its end.
pub fn text_room(room: &[u8]) -> usize
    ensures { result ≡ rewritten.text_room room.now }
{
    room.len().saturating_sub(1)
}

/// Writes a text of which this many bytes are kept, with a zero at its end, and says how many bytes all of it has, and
/// whether there was room for them.
pub fn write_kept(text: &BoundedText, room: &mut [u8]) -> FancyOutcome
    ensures { (new : List ℕ) → Holds text.now (rewritten.text_room room.old) new
        → WritesNew new room.old room.new result }
{
    write_text(text.kept(), room);
    if text.count() < room.len() {
        FancyOutcome::coded(OK).with_count(text.count())
    } else {
        FancyOutcome::coded(NO_ROOM).with_count(text.count())
    }
}
