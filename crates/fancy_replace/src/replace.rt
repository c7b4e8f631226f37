//! Replaces matches.

ghost use Rattle.std.specs.Prelude.{◌≡◌, ◌++◌, OnOk, Some, None};
ghost use Rattle.fancy_matches.specs.Matchers.{captures_text, numbers_in};
ghost use Rattle.fancy_replace.specs.Outputs.{Grows};
ghost use Rattle.fancy_replace.specs.Pieces.{as_limit};
ghost use Rattle.fancy_replace.specs.Replacements.{IsReplacedInto, IsReplacement};

use crate::cuts::{Cut, Cuts};
use crate::output::Output;
use crate::replacer::Replacer;
use fancy_expr::error::Error;
use fancy_matches::matcher::Matcher;
use std::alloc::{AllocError, Global};
use std::borrow::CowStr;

/// Returns the text with its first match replaced, or the text itself if it has no match.
///
/// # Errors
///
/// Those of a search; see `Matcher` of fancy_matches. `Memory` also if the new text cannot be allocated.
pub fn replace<'t, R: Replacer>(
    alloc: Global,
    matcher: &mut Matcher,
    text: &'t str,
    replacement: &R,
) -> Result<CowStr<'t, Global>, Error>
    ensures { IsReplacement
        matcher.old text.now (Some 1) (R.replacement_text replacement.now) result matcher.new }
{
    replacen(alloc, matcher, text, 1, replacement)
}

/// Returns the text with all its matches replaced, or the text itself if it has no match. The matches are those of
/// `find_iter`.
///
/// # Errors
///
/// Those of [`replace`].
///
/// # Examples
///
/// ```
/// let text = replace_all(alloc, &mut comma, "a, b,c", &NoExpand("; "))?; // "a; b; c", of the matcher `, *`
/// ```
pub fn replace_all<'t, R: Replacer>(
    alloc: Global,
    matcher: &mut Matcher,
    text: &'t str,
    replacement: &R,
) -> Result<CowStr<'t, Global>, Error>
    ensures { IsReplacement
        matcher.old text.now None (R.replacement_text replacement.now) result matcher.new }
{
    replacen(alloc, matcher, text, 0, replacement)
}

/// Returns the text with its first `limit` matches replaced, or all of them if `limit` is 0. It is the text itself if
/// it has no match.
///
/// # Errors
///
/// Those of [`replace`].
pub fn replacen<'t, R: Replacer>(
    alloc: Global,
    matcher: &mut Matcher,
    text: &'t str,
    limit: usize,
    replacement: &R,
) -> Result<CowStr<'t, Global>, Error>
    ensures { IsReplacement
        matcher.old text.now (as_limit limit) (R.replacement_text replacement.now) result matcher.new }
{
    let mut out = String::new(alloc);
    let is_replaced = replace_into(matcher, text, limit, replacement, &mut out)?;
    if !is_replaced {
        return Ok(CowStr::Borrowed(text));
    }
    Ok(CowStr::Owned(out))
}

/// Appends the text to `out`, with its first `limit` matches replaced, or all of them if `limit` is 0. If there is no
/// match it returns false and appends nothing.
///
/// # Errors
///
/// Those of [`replace`]. A part of the text may then have been appended.
pub fn replace_into<R: Replacer, O: Output>(
    matcher: &mut Matcher,
    text: &str,
    limit: usize,
    replacement: &R,
    out: &mut O,
) -> Result<bool, Error>
    ensures { IsReplacedInto
        O.holds
        matcher.old
        text.now
        (as_limit limit)
        (R.replacement_text replacement.now)
        out.old
        result
        matcher.new
        out.new }
{
    let mut cuts = Cuts::new(text, limit_of(limit));
    let mut is_replaced = false;
    'matches: while let Some(cut) = cuts.next(matcher)? {
        append(&cut, replacement, out)?;
        is_replaced = true;
    }
    if !is_replaced {
        return Ok(false);
    }
    out.append(cuts.rest())?;
    Ok(true)
}

/// No limit for 0.
fn limit_of(limit: usize) -> Option<usize>
    ensures { result ≡ as_limit limit }
{
    if limit == 0 { None } else { Some(limit) }
}

/// Appends the piece before a match, and what is written in the place of the match.
fn append<R: Replacer, O: Output>(
    cut: &Cut<'_>,
    replacement: &R,
    out: &mut O,
) -> Result<(), AllocError>
    ensures { OnOk result (Grows
        O.holds out.old
        (cut.now.piece.now ++ R.replacement_text replacement.now (captures_text cut.now.captures)
        (numbers_in cut.now.captures))
        out.new) }
{
    out.append(cut.piece)?;
    replacement.replace_append(&cut.captures, out)
}
