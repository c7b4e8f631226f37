//! The round trip of patterns: the pattern text of a tree is a pattern that spells this tree. Each theorem is the
//! contract of a function that does nothing.
#![tactic(auto)]

ghost use Rattle.fancy_round_trip.specs.RoundTrip.{TextSpellsItsTree, RoundTrip};

/// The pattern text of a tree that may return is a pattern that spells the tree, if its groups do not nest too deep and
/// are not too many.
pub fn text_spells_its_tree()
    ensures { TextSpellsItsTree }
{}

/// An easy tree that a pattern spells is spelled by its pattern text too. It holds no definition, no class of the
/// pattern has a `\b` or an `\e`, and the groups of the text do not nest too deep.
pub fn round_trip()
    ensures { RoundTrip }
{}
