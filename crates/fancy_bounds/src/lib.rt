//! What a run costs by the starts that it begins, where the whole tree is left to a plain search, and how many starts
//! searches begin one after the other. Each theorem is the contract of a function that does nothing.
#![tactic(auto)]

ghost use Rattle.fancy_bounds.specs.StartsBegun.{BacktracksByStartsBegun, InstructionsByStartsBegun};
ghost use Rattle.fancy_bounds.specs.Successive.{StartsOfSuccessiveSearches, StartsOfSearchesFurtherOn, SearchesFurtherOn};

/// One backtrack is enough for each start up to the one where the match was tried, or for all where there is none.
pub fn backtracks_by_starts_begun()
    ensures { BacktracksByStartsBegun }
{}

/// Eight instructions are enough for each start up to the one where the match was tried, or for all where there is
/// none, and one more where the longest match is asked for.
pub fn instructions_by_starts_begun()
    ensures { InstructionsByStartsBegun }
{}

/// Searches of which each begins at the start of the match before, or later, begin one start for each place and for
/// each match together, at most.
pub fn starts_of_successive_searches()
    ensures { StartsOfSuccessiveSearches }
{}

/// Searches of which each begins further on than the match before begin one start for each place, at most.
pub fn starts_of_searches_further_on()
    ensures { StartsOfSearchesFurtherOn }
{}

/// There are at most as many of those searches as places, and one more.
pub fn searches_further_on()
    ensures { SearchesFurtherOn }
{}
