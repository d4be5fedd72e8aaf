// A member as a participant of adopt-commit objects: it votes in the one instance of an object, and
// then in the other, as the set that it learnt in the first leads to.
ghost use Rattle.std.specs.Prelude.{◌≡◌, ◌<◌, Some, IfOk, IfErr, option_and_then};
ghost use Rattle.la_commit.specs.declared.instance.TheConstants.{MAX_COMMITS};
ghost use Rattle.la_commit.specs.Instances.{first_instance};
ghost use Rattle.la_commit.specs.Votes.{second_vote};
ghost use Rattle.la_runner.specs.InstanceCalls.{IsVoterInstanceOf, VotesIn};
ghost use Rattle.la_runner.specs.Instances.{state_of};
ghost use Rattle.la_runner.specs.Invariant.{IsMember};
ghost use Rattle.la_runner.specs.MemberCalls.{GoesOnAt, MayVoteIn, VotesAt};
ghost use Rattle.la_runner.specs.Members.{IsOfGroup, member_learnt};
ghost use Rattle.la_runner.specs.Participants.{HasCommit, HasOther, IsDecision, member_outcome};
ghost use Rattle.la_runner.specs.Refusals.{IsProposalRefusal, IsRefusedDecision};

use crate::instance::Instance;
use crate::{Group, Member, RunnerError};
use la_commit::{
    MAX_COMMITS, Outcome, Vote, first_instance, own_vote, second_instance, second_vote,
};
use la_set::Op;
use la_shared::{Gate, SharedAcceptor};
use std::sync::Wait;

impl Instance {
    // Casts a vote, unless it is cast, and then runs rounds until a set that holds it is learnt,
    // unless one is. How many rounds are left.
    fn vote<R: Wait, G: Gate>(
        &mut self,
        rt: &R,
        acceptors: &[SharedAcceptor],
        own: u8,
        instance: u8,
        commit: u8,
        vote: Vote,
        rounds: u32,
        gate: &G,
    ) -> Result<u32, RunnerError>
        requires { IsVoterInstanceOf acceptors.now own commit vote (state_of self.old) }
        ensures { VotesIn rounds commit vote result (state_of self.old) (state_of self.new) }
    {
        if self.learnt.is_some() {
            return Ok(rounds);
        }
        if self.proposer.submitted() == 0 {
            let op = Op::from(vote);
            let object = commit as u16;
            let (_, left) = self.update(rt, acceptors, own, instance, object, op, rounds, gate)?;
            return Ok(left);
        }
        let (_, left) = self.learn(rt, acceptors, own, instance, rounds, gate)?;
        Ok(left)
    }
}

impl Member {
    // Whether it may propose the value at an adopt-commit object, or go on with it there.
    fn may_propose(&self, commit: u8, value: u64) -> Result<(), RunnerError>
        ensures there { IfOk result (λ _. HasCommit self.now commit) }
        ensures few { IfOk result (λ _. commit < MAX_COMMITS) }
        ensures may { IfOk result (λ _. ¬ HasOther self.now commit value) }
        ensures is { IsMember self.now }
        ensures error { IfErr result (IsProposalRefusal commit value self.now) }
    {
        if commit >= MAX_COMMITS || second_instance(commit) as usize >= self.instances.len() {
            return Err(RunnerError::NoSuchCommit);
        }
        if self.instances[second_instance(commit) as usize]
            .learnt
            .is_some()
        {
            return Err(RunnerError::AlreadyProposed);
        }
        let first = &self.instances[first_instance(commit) as usize];
        match own_vote(first.proposer.updates(), self.replica) {
            Some(vote) if vote.value != value => Err(RunnerError::AlreadyProposed),
            _ => Ok(()),
        }
    }

    // The vote to which the set leads that it learnt in an object's first instance.
    fn second_vote(&self, commit: u8) -> Option<Vote>
        requires { commit < MAX_COMMITS }
        ensures vote { result ≡ option_and_then (λ s. second_vote s self.now.replica)
            (member_learnt self.now (first_instance commit)) }
        ensures is { IsMember self.now }
    {
        let own = self.replica;
        let learnt = self.last_learnt(first_instance(commit))?;
        second_vote(own, learnt)
    }
}

impl Group {
    // A member casts a vote in an instance of an adopt-commit object, and runs rounds until a set
    // that holds it is learnt. How many are left.
    fn vote<R: Wait, G: Gate>(
        &self,
        rt: &R,
        member: &mut Member,
        commit: u8,
        instance: u8,
        vote: Vote,
        rounds: u32,
        gate: &G,
    ) -> Result<u32, RunnerError>
        requires { MayVoteIn self.now commit vote instance member.old }
        ensures { VotesAt self.now rounds commit vote instance result member.old member.new }
    {
        let own = member.replica;
        let at = &mut member.instances[instance as usize];
        let acceptors = &self.rows[instance as usize].acceptors;
        match at.vote(rt, acceptors, own, instance, commit, vote, rounds, gate) {
            Ok(left) => return Ok(left),
            Err(refused) => return Err(refused),
        }
    }

    /// Proposes a value at an adopt-commit object, or goes on with it there, and runs at most so many
    /// rounds over the object's two instances, as [`Group::update`] does, until the member has come
    /// to an outcome. It votes for its value in the first instance, and in the second as the set
    /// leads to that it learnt in the first; the outcome is that of the set that it learnt in the
    /// second. Both sets were acknowledged to the member itself by a majority.
    ///
    /// In this order, with nothing changed: `NoSuchCommit` where the group has no such object;
    /// `AlreadyProposed` where the member has finished there, or another value is under way. Then,
    /// of the vote of either instance, `BallotsSpent` and `Memory`, after which that vote is not
    /// cast; and of the rounds what [`Group::update`] names, after which it is, and a ballot stays
    /// open, with what has counted, as there. After each the same call goes on where it stands.
    ///
    /// The cost is that of the offers, each with the wait for its turn.
    pub fn decide<R: Wait, G: Gate>(
        &self,
        rt: &R,
        member: &mut Member,
        commit: u8,
        value: u64,
        rounds: u32,
        gate: &G,
    ) -> Result<Outcome, RunnerError>
        requires { IsOfGroup self.now member.old }
        ensures goes_on { GoesOnAt self.now commit member.old member.new }
        ensures decided { IfOk result (IsDecision commit value member.new) }
        ensures outcome { IfOk result (λ reached. member_outcome member.new commit ≡ Some reached) }
        ensures error { IfErr result (IsRefusedDecision rounds commit value member.old member.new) }
    {
        member.may_propose(commit, value)?;
        let first = Vote { value, sole: false };
        let left = self.vote(
            rt,
            member,
            commit,
            first_instance(commit),
            first,
            rounds,
            gate,
        )?;
        let second = member.second_vote(commit).unwrap();
        self.vote(
            rt,
            member,
            commit,
            second_instance(commit),
            second,
            left,
            gate,
        )?;
        Ok(member.outcome(commit).unwrap())
    }
}
