//! What the results of calls say of one another, and what `escape` finds: relations that a user would expect. Each theorem
//! is the contract of a function that does nothing.
#![tactic(auto)]

ghost use Rattle.fancy_relations.specs.Calls.{FindIsGroupZero, IsMatchIsFind};
ghost use Rattle.fancy_relations.specs.Escaped.{EscapeFindsTheText, SpelledTextIsFound};
ghost use Rattle.fancy_relations.specs.Folded.{FoldedIsNoLater};
ghost use Rattle.fancy_relations.specs.Limited.{LimitsChangeNoCaptures, LimitsChangeNoMatch};
ghost use Rattle.fancy_relations.specs.Lists.{ListIsFoundInTurn};
ghost use Rattle.fancy_relations.specs.Replaced.{LiteralIsWritten, ReplacedByItself, ReplacedByLiteral, SplitJoins};

/// `is_match` returns true if and only if `find` finds a match.
pub fn is_match_is_find()
    ensures { IsMatchIsFind }
{}

/// `find` returns group 0 of what `captures` returns.
pub fn find_is_group_zero()
    ensures { FindIsGroupZero }
{}

/// A pattern that spells a text finds the first place of the bytes of that text, unless case is folded.
pub fn spelled_text_is_found()
    ensures { SpelledTextIsFound }
{}

/// So does a search for what `escape` returns.
pub fn escape_finds_the_text()
    ensures { EscapeFindsTheText }
{}

/// Under `i` a text is found wherever it is found without, so its match does not begin later.
pub fn folded_is_no_later()
    ensures { FoldedIsNoLater }
{}

/// The pieces of `split` and the matches between them, in turn, are the text.
pub fn split_joins()
    ensures { SplitJoins }
{}

/// If each match is replaced by `$0`, the text stays as it is.
pub fn replaced_by_itself()
    ensures { ReplacedByItself }
{}

/// If each match is replaced by the same text, the result is the pieces with this text between them.
pub fn replaced_by_literal()
    ensures { ReplacedByLiteral }
{}

/// A replacement with no dollar is such a text.
pub fn literal_is_written()
    ensures { LiteralIsWritten }
{}

/// Without `\G` and `\K` the list of all matches has what `find` finds, and after each match what `find_from_pos` finds next.
pub fn list_is_found_in_turn()
    ensures { ListIsFoundInTurn }
{}

/// Regexes of one pattern find the same match whatever their limits, if neither returns an error.
pub fn limits_change_no_match()
    ensures { LimitsChangeNoMatch }
{}

/// And the same groups.
pub fn limits_change_no_captures()
    ensures { LimitsChangeNoCaptures }
{}
