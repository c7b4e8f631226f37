//! How often a tree is searched for in a scan of a text from left to right: theorems, each the contract of a function
//! that does nothing.

ghost use Rattle.fancy_scanner.specs.Searched.{NoSearchAfterNone, StartsOfScan};

/// If matches of a tree last, all searches for it in one scan try at most one start for each position of the text
/// together.
pub fn starts_of_scan()
    ensures { StartsOfScan }
{}

/// If it lasts that a tree has no match, the tree is not searched for again once it has none.
pub fn no_search_after_none()
    ensures { NoSearchAfterNone }
{}
