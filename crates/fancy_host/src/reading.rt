//! What a host gives: bytes that are a text, options of the right size, a program that holds something.

ghost use Rattle.std.specs.Prelude.{◌≡◌, IsTrue, IsUtf8, MatchResult, None, Some};
ghost use Rattle.fancy_host.specs.Hosted.{AnswersFor, Compiles, IsNoSearch, IsNoText, IsSearch, compiled, groups, has_size, tree_in, tree_of};
ghost use Rattle.fancy_host.specs.Hosted as hosted;

use crate::options::FancyOptions;
use crate::outcome::{FancyOutcome, NO_PROGRAM, TOO_DEEP, WRONG_SIZE};
use crate::program::FancyProgram;
use crate::searches::Searcher;
use fancy_notation::depth::depth;
use std::alloc::Global;
use std::str::{from_utf8, from_utf8_unchecked};

/// The text of these bytes, where the options have their size.
pub fn text_of<'t>(bytes: &'t [u8], options: &FancyOptions) -> Result<&'t str, FancyOutcome>
    ensures { MatchResult
        result
        (λ text. (text.now ≡ bytes.now) × IsTrue (has_size options.now) × IsUtf8 bytes.now)
        (λ outcome. IsNoText bytes.now options.now outcome) }
{
    if !options.has_size() {
        return Err(FancyOutcome::coded(WRONG_SIZE));
    }
    match from_utf8(bytes) {
        Ok(text) => Ok(text),
        Err(fault) => Err(FancyOutcome::not_utf8(fault.valid_up_to())),
    }
}

/// The text of a search, where the options have their size: these bytes as they are where the host answers for them.
pub fn searched_text<'t>(bytes: &'t [u8], options: &FancyOptions) -> Result<&'t str, FancyOutcome>
    requires { AnswersFor options.now bytes.now }
    ensures { MatchResult
        result
        (λ text. (text.now ≡ bytes.now) × IsTrue (has_size options.now) × IsUtf8 bytes.now)
        (λ outcome. IsNoText bytes.now options.now outcome) }
{
    if options.has_size() && options.text_is_utf8 {
        return Ok(unsafe { from_utf8_unchecked(bytes) });
    }
    text_of(bytes, options)
}

/// The text of a search, where one can be made.
pub fn searched<'t>(
    bytes: &'t [u8],
    options: &FancyOptions,
    program: &FancyProgram,
) -> Result<&'t str, FancyOutcome>
    requires { AnswersFor options.now bytes.now }
    ensures { MatchResult
        result
        (λ text. (text.now ≡ bytes.now)
        × IsSearch bytes.now options.now (tree_of program.now.handle.searcher))
        (λ outcome. IsNoSearch
        bytes.now options.now (tree_of program.now.handle.searcher) outcome) }
{
    let text = searched_text(bytes, options)?;
    if !program.is_set {
        return Err(FancyOutcome::coded(NO_PROGRAM));
    }
    Ok(text)
}

/// What the tree is compiled to that these bytes spell in the notation.
pub fn compile_notation(
    alloc: Global,
    tree: &[u8],
    options: &FancyOptions,
) -> Result<Box<Searcher>, FancyOutcome>
    ensures { MatchResult
        result
        (λ searcher. Compiles
        (hosted.notation tree.now) options.now (Some (tree_in searcher.value))
        (compiled (groups (tree_in searcher.value))))
        (λ outcome. Compiles (hosted.notation tree.now) options.now None outcome) }
{
    let text = text_of(tree, options)?;
    if depth(text) > options.max_depth {
        return Err(FancyOutcome::coded(TOO_DEEP));
    }
    Searcher::of_notation(alloc, text, options)
}

/// What the tree is compiled to that these bytes spell as a pattern.
pub fn compile_pattern(
    alloc: Global,
    pattern: &[u8],
    options: &FancyOptions,
) -> Result<Box<Searcher>, FancyOutcome>
    ensures { MatchResult
        result
        (λ searcher. Compiles
        (hosted.pattern pattern.now) options.now (Some (tree_in searcher.value))
        (compiled (groups (tree_in searcher.value))))
        (λ outcome. Compiles (hosted.pattern pattern.now) options.now None outcome) }
{
    let text = text_of(pattern, options)?;
    Searcher::of_pattern(alloc, text, options)
}
