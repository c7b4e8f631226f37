//! Where a match begins, where a search may begin, and the longest match beside the first. Each theorem is the contract
//! of a function that does nothing.
#![tactic(auto)]

ghost use Rattle.fancy_starts.specs.Starts.{AnswerIsOfMatch, AnswerBeginsAtItsStart, AnswerFromNext, AnswerOfOneStart, MatchOfAnswer, NoneFromLater, SameMatchFromLater, SameAnswerFromLater, LongestBesideFirst, LongestAnswerBesideFirst, LongestEndsNoEarlier};

/// The answer of a search is its match as numbers: the chosen way at the earliest start that has an admitted one.
pub fn answer_is_of_match()
    ensures { AnswerIsOfMatch }
{}

/// Without `\K` an answer's first two numbers are the start that was tried and the end of the way.
pub fn answer_begins_at_its_start()
    ensures { AnswerBeginsAtItsStart }
{}

/// Without `\K` there is a match where there is an answer, and it was tried from where the answer begins.
pub fn match_of_answer()
    ensures { MatchOfAnswer }
{}

/// Without `\G`, a search that has no answer has none from each later place.
pub fn none_from_later()
    ensures { NoneFromLater }
{}

/// Without `\G`, a match is the same from each later place up to the start that was tried.
pub fn same_match_from_later()
    ensures { SameMatchFromLater }
{}

/// Without `\G` and `\K`, an answer is the same from each later place up to where it begins.
pub fn same_answer_from_later()
    ensures { SameAnswerFromLater }
{}

/// Without `\G`, starts from which no way is admitted can be passed over.
pub fn answer_from_next()
    ensures { AnswerFromNext }
{}

/// Without `\G`, an attempt from one start alone tells what a search from there answers, or that no way from there is
/// admitted.
pub fn answer_of_one_start()
    ensures { AnswerOfOneStart }
{}

/// A search for the longest match has one exactly where a search for the first has, at the same tried start, and it is
/// at least as long.
pub fn longest_beside_first()
    ensures { LongestBesideFirst }
{}

/// The longest answer is there exactly where the first is, and its span of group 0 is at least as long.
pub fn longest_answer_beside_first()
    ensures { LongestAnswerBesideFirst }
{}

/// Without `\K` both answers begin at the same place, and the longest does not end before the first.
pub fn longest_ends_no_earlier()
    ensures { LongestEndsNoEarlier }
{}
