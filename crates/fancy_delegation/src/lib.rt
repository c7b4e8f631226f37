//! Delegation is harmless: when two lists of states are equal up to a key, and what easy nodes cannot do. Each law is the
//! contract of a function that does nothing.
#![tactic(auto)]

ghost use Rattle.fancy_meaning.specs.Theorems.{BindingKeepsEquality, CoarserKeyKeepsEquality, EasyHasNoReadGroup, EasyWaysAgree, WaysRespectTheKey};

/// Two lists equal up to a key, each bound to parts whose lists are equal up to a coarser key, give
/// lists equal up to the coarser one, where the part bound to the second list respects the finer key.
pub fn binding_keeps_equality()
    ensures { BindingKeepsEquality }
{}

/// Lists equal up to a key are equal up to a coarser one.
pub fn coarser_key_keeps_equality()
    ensures { CoarserKeyKeepsEquality }
{}

/// From two states of one key, every node of the tree has as many ways, and each has the key of its counterpart.
pub fn ways_respect_the_key()
    ensures { WaysRespectTheKey }
{}

/// A node that is left to a plain search has no group whose span is read.
pub fn easy_has_no_read_group()
    ensures { EasyHasNoReadGroup }
{}

/// Where a match has to take something, all ways of a node that is left to a plain search agree on whether they moved.
pub fn easy_ways_agree()
    ensures { EasyWaysAgree }
{}
