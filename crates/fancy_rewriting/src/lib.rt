//! A part of a tree may be replaced by one with equal ways, and rules by which trees are written shorter. Each theorem
//! is the contract of a function that does nothing.
#![tactic(auto)]

ghost use Rattle.fancy_rewriting.specs.Rewriting.{PartsMayBeReplaced, AnswersKeepUnderReplacement, RulesKeepWays, RulesKeepAnswers};
ghost use Rattle.fancy_rewriting.specs.Counterexamples.{CallsNeedTheirGroups, BranchesOfBehindGoInTurn};

/// Within one tree, and where the same calls are open, parts with equal ways may stand for each other.
pub fn parts_may_be_replaced()
    ensures { PartsMayBeReplaced }
{}

/// Parts that have equal ways whatever calls give, and the same groups, may be replaced in the whole tree: each search
/// has the same answer.
pub fn answers_keep_under_replacement()
    ensures { AnswersKeepUnderReplacement }
{}

/// A concatenation or an alternation of one part, and a part once, are the part; nested ones are flat.
pub fn rules_keep_ways()
    ensures { RulesKeepWays }
{}

/// By these rules each part of a tree may be written anew, and each search has the same answer. The body of a positive
/// look-behind stays an alternation, or none.
pub fn rules_keep_answers()
    ensures { RulesKeepAnswers }
{}

/// Equal ways within one tree are not enough to replace a part of the whole: a call put in its group's place has no
/// way.
pub fn calls_need_their_groups()
    ensures { CallsNeedTheirGroups }
{}

/// Equal ways are not enough for the body of a positive look-behind: it goes by the branches of an alternation in turn.
pub fn branches_of_behind_go_in_turn()
    ensures { BranchesOfBehindGoInTurn }
{}
