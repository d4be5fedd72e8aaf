// What holds of votes and outcomes where any two sets that are learnt in one agreement are
// comparable: laws over the definitions, which no code runs.
ghost use Rattle.std.specs.Prelude.{◌≡◌};
ghost use Rattle.la_commit.specs.Laws.{OwnVotesAreVotes, VotesStay};
ghost use Rattle.la_commit.specs.Laws.{SoleValuesAgree, OutcomesAgree};
ghost use Rattle.la_commit.specs.Laws.{UnanimousCommit, OutcomesAreVoted};

use crate::MAX_COMMITS;

/// The most adopt-commit objects that a group may have, as a number.
pub fn limits()
    ensures { MAX_COMMITS ≡ 16 }
{}

/// The vote that a participant's first update casts is one of the set's votes.
pub fn own_votes_are_votes()
    ensures { OwnVotesAreVotes }
{}

/// Each vote of a set is a vote of each larger set.
pub fn votes_stay()
    ensures { VotesStay }
{}

/// Of two sets of the first agreement take a value that all votes of the one have, and a value that
/// all votes of the other have, each with a vote for it: they are one. So all sole votes of the
/// second agreement are for one value.
pub fn sole_values_agree()
    ensures { SoleValuesAgree }
{}

/// Where an outcome commits a value every outcome has it: of two sets of the second agreement, the
/// other with a vote, whose sole votes are all for one value.
pub fn outcomes_agree()
    ensures { OutcomesAgree }
{}

/// Where there is a vote, and all votes are sole and for one value, the outcome commits it.
pub fn unanimous_commit()
    ensures { UnanimousCommit }
{}

/// The value of an outcome is the participant's own, or that of a sole vote of the set.
pub fn outcome_is_voted()
    ensures { OutcomesAreVoted }
{}
