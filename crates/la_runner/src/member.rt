ghost use Rattle.std.specs.Prelude.{◌≡◌, ◌<◌, Some, length};
ghost use Rattle.std.specs.Option.{option_copied};
ghost use Rattle.la_runner.specs.Invariant.{IsMember};
ghost use Rattle.la_runner.specs.Members.{member_view, member_learnt, member_submitted};
ghost use Rattle.la_runner.specs.Participants.{member_outcome};

use crate::instance::Instance;
use la_commit::{MAX_COMMITS, Outcome, outcome_of, second_instance};
use la_proposer::Votes;
use la_set::UpdateSet;
use std::marker::Model;

/// One replica of a group: in each instance its proposer, what its passes know, and the set that it
/// learnt last; and the view that it answers questions from. It may go to another thread. Its calls
/// are [`crate::Group`]'s; [`crate::laws`] say what is true of every member.
#[derive(Drop)]
pub struct Member {
    pub(crate) votes: Votes,
    pub(crate) replica: u8,
    pub(crate) instances: Vec<Instance>,
}

impl Model for Member {
    ghost use Rattle.la_runner.specs.Members.{MemberState};
    ghost use Rattle.la_runner.specs.Fields.{stands_for, HoldsMemberInvariant};

    ghost Value = { MemberState };

    ghost view = { stands_for };

    ghost invariant = { HoldsMemberInvariant };
}

impl Member {
    /// Which replica of its group the member is. The contract also tells what is true of every
    /// member.
    pub fn replica(&self) -> u8
        ensures replica { result ≡ self.now.replica }
        ensures is { IsMember self.now }
    {
        self.replica
    }

    /// The view, from which the member answers questions: the largest of the sets of instance 0
    /// that it learnt or met; empty at first.
    pub fn view(&self) -> &UpdateSet
        ensures { result.now ≡ member_view self.now }
    {
        &self.instances[0].view
    }

    /// How many updates the member has submitted in instance 0.
    pub fn submitted(&self) -> u32
        ensures { result ≡ length (member_submitted self.now 0) }
    {
        self.instances[0].proposer.submitted()
    }

    /// The set that the member learnt last in an instance; `None` where it learnt none there, or
    /// there is no such instance.
    pub fn last_learnt(&self, instance: u8) -> Option<&UpdateSet>
        ensures { option_copied result ≡ member_learnt self.now instance }
    {
        self.instances.get(instance as usize)?.learnt.as_ref()
    }

    /// The outcome to which the member has come at an adopt-commit object; `None` before it has,
    /// and where the group has no such object. The cost is linear in the set's length, of one vote
    /// a replica.
    pub fn outcome(&self, commit: u8) -> Option<Outcome>
        ensures { result ≡ member_outcome self.now commit }
    {
        let own = self.replica;
        if commit >= MAX_COMMITS {
            return None;
        }
        let learnt = self.last_learnt(second_instance(commit))?;
        outcome_of(own, learnt)
    }
}
