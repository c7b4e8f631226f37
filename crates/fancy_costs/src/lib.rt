//! What the searches for all matches of a text cost together. Each theorem is the contract of a function that does nothing.
#![tactic(auto)]

ghost use Rattle.fancy_costs.specs.Costs.{CountOfAllSearches, InstructionsOfAllSearches, InstructionsOfEasyTree, InstructionsOfOneSearch, MatchesOfAllSearches, StartsOfAllSearches, StartsWithoutKeepOut};

/// The matches of the list are what these searches find, in order, but for what the list does not count.
pub fn matches_of_all_searches()
    ensures { MatchesOfAllSearches }
{}

/// There are at most as many searches as places of the text.
pub fn count_of_all_searches()
    ensures { CountOfAllSearches }
{}

/// They begin at most one start for each place, and one more for each search after the first.
pub fn starts_of_all_searches()
    ensures { StartsOfAllSearches }
{}

/// For a tree without `\K` they begin at most one start for each place.
pub fn starts_without_keep_out()
    ensures { StartsWithoutKeepOut }
{}

/// Where the whole tree is easy, eight instructions are enough for each start that a search of the list begins, and one
/// more where the longest match is asked for.
pub fn instructions_of_one_search()
    ensures { InstructionsOfOneSearch }
{}

/// Together these are at most eight for each place of the text and for each search after the first, and where the longest
/// match is asked for one for each search.
pub fn instructions_of_all_searches()
    ensures { InstructionsOfAllSearches }
{}

/// For an easy tree they are at most eight for each place of the text, and where the longest match is asked for one for
/// each search.
pub fn instructions_of_easy_tree()
    ensures { InstructionsOfEasyTree }
{}
