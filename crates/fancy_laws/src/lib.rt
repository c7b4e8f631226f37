//! Laws and theorems over the definitions alone: each is the contract of a function that does nothing.
#![tactic(auto)]

ghost use Rattle.fancy_meaning.specs.Laws.{LoopLaw, RequiredLaw, CallLaw, RefusedCallLaw, AtomicHasOneWay, NegativeLookChangesNothing, AheadHasWaysOfBody, BehindHasWaysOfBody, BehindGoesByBranches, AnswersArePairs, AnchorLaw, SizeLaw, ContinueLaw, SettableGroupsLaw, SpanLaw, ReferenceLaw, SpanSizeLaw, MarkLaw};

/// With none required, an unbounded loop goes on by a way of its body, and by one that moves nothing it is left; or it
/// stops. Greedy it goes on first, lazy it stops first.
pub fn loop_law()
    ensures { LoopLaw }
{}

/// Where an iteration is required, a loop has the ways of its body, and then those of the loop with one less required.
pub fn required_law()
    ensures { RequiredLaw }
{}

/// A call has the ways of its target with one call more open, where it is not open nineteen times already.
pub fn call_law()
    ensures { CallLaw }
{}

/// A call has no way where its target is open nineteen times, or is not there.
pub fn refused_call_law()
    ensures { RefusedCallLaw }
{}

/// An atomic group has one way at most.
pub fn atomic_has_one_way()
    ensures { AtomicHasOneWay }
{}

/// A negative look-around has the unchanged state, or no way.
pub fn negative_look_changes_nothing()
    ensures { NegativeLookChangesNothing }
{}

/// A look-ahead has a way for each way of its body, with the place restored.
pub fn ahead_has_ways_of_body()
    ensures { AheadHasWaysOfBody }
{}

/// A lookbehind has a way for each way of its body that ends here, from the nearest place back.
pub fn behind_has_ways_of_body()
    ensures { BehindHasWaysOfBody }
{}

/// A lookbehind of an alternation has the same for each branch in turn.
pub fn behind_goes_by_branches()
    ensures { BehindGoesByBranches }
{}

/// Each pair of an answer's numbers is unset in both, or two places of the text in order.
pub fn answers_are_pairs()
    ensures { AnswersArePairs }
{}

/// Where every span lies between two places of the text, in order, each way keeps it so, and leads from place to place.
pub fn span_law()
    ensures { SpanLaw }
{}

/// There a back reference reads a span in order, and its way takes as many bytes as the span has.
pub fn reference_law()
    ensures { ReferenceLaw }
{}

/// Where a tree as it is handed in begins with the text's start, or where the match before ended, the tree that is
/// searched for, its groups numbered, has ways from there alone.
pub fn anchor_law()
    ensures { AnchorLaw }
{}

/// From a sound state each way of a part of an analysed tree takes as many characters as its size allows, and is sound.
pub fn size_law()
    ensures { SizeLaw }
{}

/// From a sound state whose spans all keep the sizes of their groups, read or not, each way leads to such a state.
pub fn span_size_law()
    ensures { SpanSizeLaw }
{}

/// The marked nodes of a part are the part, and where it passes its mark on those of its children.
pub fn mark_law()
    ensures { MarkLaw }
{}

/// Where a `\G` of a tree is marked, no other start has a way.
pub fn continue_law()
    ensures { ContinueLaw }
{}

/// A way of a fragment leaves the span of each group as it was, but for those that its nodes can set.
pub fn settable_groups_law()
    ensures { SettableGroupsLaw }
{}
