ghost use Rattle.std.specs.Prelude.{◌≡◌, [], ◌++◌, None, ℕ, ◌+◌, length, IfOk, IfErr, IfSome};
ghost use Rattle.std.specs.Option.{option_to_list};
ghost use Rattle.la_proposer.specs.Majority.{votes_of};
ghost use Rattle.la_proposer.specs.ProposerState.{op_on};
ghost use Rattle.la_runner.specs.MemberCalls.{GoesOnIn, IsResumption};
ghost use Rattle.la_runner.specs.Members.{GroupState, IsOfGroup, IsUpdateOf, member_submitted};
ghost use Rattle.la_runner.specs.Refusals.{IsRefusedResume, IsRefusedUpdate};
ghost use Rattle.la_runner.specs.Starting.{IsRunnerConfig, IsAcceptorGroup, IsNewMember, AreMembersFrom, IsNewRefusal};

use crate::{Learned, Member, RunnerError, starting};
use la_commit::MAX_COMMITS;
use la_proposer::Votes;
use la_set::Op;
use la_shared::{Gate, SharedAcceptor};
use std::alloc::Global;
use std::marker::Model;
use std::sync::Wait;

/// The acceptors of one instance, one for each replica.
#[derive(Drop)]
pub(crate) struct Row {
    pub acceptors: Vec<SharedAcceptor>,
}

/// The acceptors of a group, which its members share: threads do so by reference. A contract sees
/// the group's votes, and which acceptors they are, by instance.
///
/// Whoever calls keeps that members and notes are of this group: each call requires it.
#[derive(Drop)]
pub struct Group {
    pub(crate) votes: Votes,
    pub(crate) rows: Vec<Row>,
}

impl Model for Group {
    ghost use Rattle.std.specs.Prelude.{map};
    ghost use Rattle.la_proposer.specs.Majority.{votes_of};
    ghost use Rattle.la_runner.specs.Members.{GroupState};

    ghost Value = { GroupState };

    ghost view = { λ group. record {
      votes = votes_of group.votes;
      acceptors = map (λ row. row.acceptors.items) group.rows.items;
    } };
}

impl Group {
    /// A group of so many replicas with these votes, and so many adopt-commit objects, in which
    /// nothing has happened: one shared acceptor for each replica in each instance, and the members.
    /// Each may submit as many updates as the cap in instance 0, and one in each other instance.
    ///
    /// `BadConfig` comes exactly where a value is out of its range (1 to 8 replicas, 0 to 16
    /// adopt-commit objects, a cap from 1 to 1,000,000) or the votes are not those of so many
    /// replicas; `Memory` where a growth was refused.
    ///
    /// The cost is that of replicas times replicas times instances passes.
    pub fn new(
        alloc: Global,
        replicas: u8,
        commits: u8,
        cap: u32,
        votes: Votes,
    ) -> Result<(Group, Members), RunnerError>
        ensures config { IfOk result (λ _. IsRunnerConfig replicas commits cap (votes_of votes)) }
        ensures group { IfOk result (λ made. IsAcceptorGroup replicas commits (votes_of votes) made.0) }
        ensures count { IfOk result (λ made. length made.1 ≡ replicas) }
        ensures members { IfOk result (λ made. AreMembersFrom made.0 cap 0 made.1) }
        ensures error { IfErr result (IsNewRefusal replicas commits cap (votes_of votes)) }
    {
        if commits > MAX_COMMITS || !votes.is_group_of(replicas, cap) {
            return Err(RunnerError::BadConfig);
        }
        let instances = 2 * commits as usize + 1;
        let (rows, mut firsts) = starting::rows(alloc, replicas, instances)?;
        let members = starting::members(alloc, &rows, &mut firsts, replicas, cap, votes)?;
        Ok((Group { votes, rows }, Members { members }))
    }

    /// Submits an update for an object, and runs at most so many rounds until a set that holds it is
    /// learnt. That set has all that the member submitted in instance 0, and contains each set that
    /// had a certificate in its passes at the call; a majority of acceptors, by votes, acknowledged
    /// it to the member itself; and it is the view then.
    ///
    /// A round goes through the acceptors from 0 on, passes over those that have counted in the open
    /// ballot and those that the gate refuses, and offers the ballot's set to each other one, whose
    /// reply the proposer hears. It ends with the last acceptor, or when the ballot ends; a ballot
    /// that opens then waits for the next round.
    ///
    /// In this order, and with nothing submitted: `Full` where the member has submitted the cap;
    /// `BallotsSpent` where a ballot would open with a number over 8,000,000; `Memory`. After these
    /// the update stays submitted and a ballot open, the same one, in which what had counted still
    /// counts, or a later one to which counted replies led, so that [`Group::resume`] goes on with it:
    /// `Clash` where an id has two different updates; `BallotsSpent`; `Memory`; and once the rounds
    /// are used up `NoMajority` where the last one left its ballot open, else `TryAgain`, as without
    /// rounds.
    ///
    /// The cost is that of the offers, each with the wait for its turn.
    pub fn update<R: Wait, G: Gate>(
        &self,
        rt: &R,
        member: &mut Member,
        object: u16,
        op: Op,
        rounds: u32,
        gate: &G,
    ) -> Result<Learned, RunnerError>
        requires { IsOfGroup self.now member.old }
        ensures goes_on { GoesOnIn self.now 0 member.old member.new }
        ensures updated { IfOk result (λ l. IsUpdateOf (op_on object op) member.old member.new l.updates) }
        ensures error { IfErr result (IsRefusedUpdate rounds (op_on object op) member.old member.new) }
    {
        let own = member.replica;
        let at = &mut member.instances[0];
        let acceptors = &self.rows[0].acceptors;
        match at.update(rt, acceptors, own, 0, object, op, rounds, gate) {
            Ok((learned, _)) => return Ok(learned),
            Err(refused) => return Err(refused),
        }
    }

    /// Goes on with what is under way in instance 0: runs at most so many rounds, as
    /// [`Group::update`] does, until a learning leaves nothing to offer, and gives that learning;
    /// `None` where nothing was under way. The set has all that the member submitted there, and
    /// contains each set that had an own certificate at the call: it need not contain one that was
    /// met while its ballot was open. The view is then the larger of the old view and that set.
    ///
    /// `Clash`, `BallotsSpent`, `Memory`, `NoMajority` and `TryAgain` come as in the rounds of an
    /// update, and leave what is under way and has counted as they do there.
    pub fn resume<R: Wait, G: Gate>(
        &self,
        rt: &R,
        member: &mut Member,
        rounds: u32,
        gate: &G,
    ) -> Result<Option<Learned>, RunnerError>
        requires { IsOfGroup self.now member.old }
        ensures goes_on { GoesOnIn self.now 0 member.old member.new }
        ensures submitted { member_submitted member.new 0 ≡ member_submitted member.old 0 }
        ensures resumed { IsResumption result member.old member.new }
        ensures error { IfErr result (IsRefusedResume rounds member.old member.new) }
    {
        let own = member.replica;
        let at = &mut member.instances[0];
        let end = at.resume(rt, &self.rows[0].acceptors, own, 0, rounds, gate)?;
        Ok(end)
    }
}

/// The members of a new group, in order of replica.
#[derive(Drop)]
pub struct Members {
    // the last one first
    members: Vec<Member>,
}

impl Model for Members {
    ghost use Rattle.std.specs.Prelude.{List, reverse};
    ghost use Rattle.la_runner.specs.Members.{MemberState};

    ghost Value = { List MemberState };

    ghost view = { λ members. reverse members.members.items };
}

impl Members {
    /// Takes the next member out; `None` once all are taken.
    pub fn take(&mut self) -> Option<Member>
        ensures next { self.old ≡ option_to_list result ++ self.new }
        ensures last { result ≡ None → self.old ≡ [] }
        ensures member { (group : GroupState) (cap replica : ℕ)
            → AreMembersFrom group cap replica self.old
            → IfSome result (λ member. IsNewMember group cap replica member
            × AreMembersFrom group cap (replica + 1) self.new) }
    {
        self.members.pop()
    }
}
