ghost use Rattle.std.specs.Prelude.{◌≡◌, ◌↔◌, IsOk, IfOk, IfErr};
ghost use Rattle.la_commit.specs.Votes.{first_vote_for, second_vote_for, second_vote, HoldsVote};
ghost use Rattle.la_commit.specs.Outcomes.{outcome, outcome_of, outcome_in};

use crate::learnt::{all_have, all_sole, first_sole, own_vote};
use crate::{NotMine, Outcome, Vote, is_second_instance};
use la_set::UpdateSet;
use std::marker::Model;

/// A participant that has proposed nothing yet.
#[derive(Clone, Copy)]
pub struct Fresh {
    participant: u8,
}

impl Model for Fresh {
    ghost use Rattle.std.specs.Prelude.{ℕ};

    ghost Value = { ℕ };

    ghost view = { λ s. s.participant };

    ghost inverse = { λ participant. record { participant = participant } };
}

/// A participant that has proposed, and learns a set of the first agreement next.
#[derive(Clone, Copy)]
pub struct First {
    participant: u8,
    value: u64,
}

impl Model for First {
    ghost use Rattle.la_commit.specs.Stages.{Proposed};

    ghost Value = { Proposed };

    ghost view = { λ s. record { participant = s.participant; value = s.value } };

    ghost inverse = { λ s. record { participant = s.participant; value = s.value } };
}

/// A participant that has learnt a set of the first agreement, and learns one of the second next.
#[derive(Clone, Copy)]
pub struct Second {
    participant: u8,
    vote: Vote,
}

impl Model for Second {
    ghost use Rattle.la_commit.specs.Stages.{Voted};

    ghost Value = { Voted };

    ghost view = { λ s. record { participant = s.participant; vote = s.vote } };

    ghost inverse = { λ s. record { participant = s.participant; vote = s.vote } };
}

/// A participant that has come to its outcome.
#[derive(Clone, Copy)]
pub struct Done {
    reached: Outcome,
}

impl Model for Done {
    ghost use Rattle.la_commit.specs.declared.outcome.Outcome.{Outcome};

    ghost Value = { Outcome };

    ghost view = { λ s. s.reached };

    ghost inverse = { λ reached. record { reached = reached } };
}

impl Fresh {
    /// A participant that has proposed nothing. Sets hold updates of replicas 0 to 7 alone, so that
    /// one of 8 or more is answered [`NotMine`] by every set.
    pub fn new(participant: u8) -> Fresh
        ensures { result ≡ participant }
    {
        Fresh { participant }
    }

    /// Proposes a value. The vote, which is not sole, is to be submitted in the first agreement as
    /// the participant's first update there.
    pub fn propose(self, value: u64) -> (First, Vote)
        ensures next { result.0 ≡ record { participant = self; value = value } }
        ensures vote { result.1 ≡ first_vote_for value }
    {
        let first = First {
            participant: self.participant,
            value,
        };
        (first, Vote { value, sole: false })
    }
}

impl First {
    /// A participant whose vote in the first agreement is known goes on. It has this value.
    pub fn resume(participant: u8, value: u64) -> First
        ensures { result ≡ record { participant = participant; value = value } }
    {
        First { participant, value }
    }

    /// Takes a set that was learnt in the first agreement. The vote, which is sole where every vote
    /// of the set has the participant's value, is to be submitted in the second agreement as the
    /// participant's first update there.
    ///
    /// It is refused exactly where the set lacks the participant's vote of the first agreement; the
    /// participant comes back as it was.
    pub fn first(self, learnt: &UpdateSet) -> Result<(Second, Vote), (First, NotMine)>
        ensures mine { IsOk result
            ↔ HoldsVote learnt.now self.participant (first_vote_for self.value) }
        ensures next { IfOk result (λ ok. ok.0 ≡ record {
          participant = self.participant;
          vote = second_vote_for learnt.now self.value;
        }) }
        ensures vote { IfOk result (λ ok. ok.1 ≡ second_vote_for learnt.now self.value) }
        ensures back { IfErr result (λ err. err.0 ≡ self) }
    {
        let First { participant, value } = self;
        if own_vote(learnt, participant) != Some(Vote { value, sole: false }) {
            return Err((self, NotMine));
        }
        let vote = Vote {
            value,
            sole: all_have(learnt, value),
        };
        Ok((Second { participant, vote }, vote))
    }
}

impl Second {
    /// A participant whose vote in the second agreement is known goes on: it has cast this vote.
    pub fn resume(participant: u8, vote: Vote) -> Second
        ensures { result ≡ record { participant = participant; vote = vote } }
    {
        Second { participant, vote }
    }

    /// Takes a set that was learnt in the second agreement. Where all its votes are sole the
    /// outcome commits, where only some are it adopts, both with the value of the sole vote of
    /// least id; where none is, it adopts the participant's own value.
    ///
    /// It is refused exactly where the set lacks the participant's vote of the second agreement, of
    /// this very value and sole or not as it was; the participant comes back as it was.
    pub fn second(self, learnt: &UpdateSet) -> Result<(Done, Outcome), (Second, NotMine)>
        ensures mine { IsOk result ↔ HoldsVote learnt.now self.participant self.vote }
        ensures next { IfOk result (λ ok. ok.0 ≡ outcome learnt.now self.vote.value) }
        ensures outcome { IfOk result (λ ok. ok.1 ≡ outcome learnt.now self.vote.value) }
        ensures back { IfErr result (λ err. err.0 ≡ self) }
    {
        let Second { participant, vote } = self;
        if own_vote(learnt, participant) != Some(vote) {
            return Err((self, NotMine));
        }
        let reached = match first_sole(learnt) {
            None => Outcome::Adopt(vote.value),
            Some(sole) if all_sole(learnt) => Outcome::Commit(sole.value),
            Some(sole) => Outcome::Adopt(sole.value),
        };
        Ok((Done { reached }, reached))
    }
}

impl Done {
    /// What the participant came to.
    pub fn outcome(&self) -> Outcome
        ensures { result ≡ self.now }
    {
        self.reached
    }
}

/// The vote to which a set of the first agreement leads, without a state that was kept: the
/// participant's own vote there tells its value. `None` where the set lacks that vote, or where it
/// is a sole one, which nobody casts there. The cost is linear in the set's length.
pub fn second_vote(participant: u8, learnt: &UpdateSet) -> Option<Vote>
    ensures { result ≡ second_vote learnt.now participant }
{
    let vote = own_vote(learnt, participant)?;
    if vote.sole {
        return None;
    }
    let (_, second) = First::resume(participant, vote.value).first(learnt).ok()?;
    Some(second)
}

/// The outcome to which a set of the second agreement leads, without a state that was kept: the
/// participant's own vote there tells its value. `None` where the set lacks that vote. The cost is
/// linear in the set's length.
pub fn outcome_of(participant: u8, learnt: &UpdateSet) -> Option<Outcome>
    ensures { result ≡ outcome_of learnt.now participant }
{
    let vote = own_vote(learnt, participant)?;
    let (_, outcome) = Second::resume(participant, vote).second(learnt).ok()?;
    Some(outcome)
}

/// The outcome to which a set leads that the participant learnt in this instance of a group: that of
/// [`outcome_of`] where it is the second instance of an object, and else `None`.
pub fn outcome_in(instance: u8, participant: u8, learnt: &UpdateSet) -> Option<Outcome>
    ensures { result ≡ outcome_in instance participant learnt.now }
{
    if is_second_instance(instance) {
        outcome_of(participant, learnt)
    } else {
        None
    }
}
