//! How many matches a text has.

ghost use Rattle.std.specs.Prelude.{IfErr};
ghost use Rattle.fancy_meaning.specs.Options as plain;
ghost use Rattle.fancy_meaning.specs.Premises.{Input};
ghost use Rattle.fancy_matches.specs.Matchers.{Counts, IsNoLimitWhereEasy, IsRegexOf, IsSame};

use crate::matcher::Matcher;
use fancy_expr::error::Error;

/// How many matches the text has, of the list that `Matcher::find_iter` gives.
///
/// # Errors
///
/// Those of `Matcher::find`.
pub fn count_matches(matcher: &mut Matcher, text: &str) -> Result<usize, Error>
    ensures count { (i : Input)
        → (o : plain.RunOptions)
        → IsRegexOf i text.now o matcher.old
        → Counts i text.now o result }
    ensures easy { IfErr result (IsNoLimitWhereEasy matcher.old text.now) }
    ensures same { IsSame matcher.old matcher.new }
{
    let mut count = 0;
    let mut matches = matcher.find_iter(text);
    'matches: while let Some(found) = matches.next() {
        found?;
        count += 1;
    }
    Ok(count)
}
