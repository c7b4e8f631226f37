//! The law by which the kit's engines answer for easy nodes. Each theorem is the contract of a function that does nothing.
#![tactic(auto)]

ghost use Rattle.fancy_agreement.specs.First.{LastByForm, LoopsMean};
ghost use Rattle.fancy_agreement.specs.Common.{CommonPart};
ghost use Rattle.fancy_agreement.specs.Captures.{AlternationsCapture, GroupsCapture, LoopsCapture, MatchIsAnswer, SequencesCapture};

/// Where a pattern takes the first ways of a plain search's tree, its leftmost match is the answer, with every span.
pub fn match_is_answer()
    ensures { MatchIsAnswer }
{}

/// A loop that is bounded, lazy, or of a body that leaves empty rounds for the last ends where its pattern does.
pub fn loops_mean()
    ensures { LoopsMean }
{}

/// Which patterns leave empty rounds for the last, by their form.
pub fn last_by_form()
    ensures { LastByForm }
{}

/// A loop that is bounded, or of a body that always reads, captures what its pattern does.
pub fn loops_capture()
    ensures { LoopsCapture }
{}

/// A group captures what that of the kit does.
pub fn groups_capture()
    ensures { GroupsCapture }
{}

/// Neighbours capture what their patterns do, one after the other.
pub fn sequences_capture()
    ensures { SequencesCapture }
{}

/// Branches capture what their patterns do.
pub fn alternations_capture()
    ensures { AlternationsCapture }
{}

/// Where the test gives a node a pattern, the pattern takes its first ways, with captures.
pub fn common_part()
    ensures { CommonPart }
{}
