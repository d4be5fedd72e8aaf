// What a replica does as a participant of an adopt-commit object, by the sets that it learns. No
// state is kept of it: its own vote in a set tells how far it is.
ghost use Rattle.std.specs.Prelude.{◌≡◌, ◌<◌, ◌+◌, ◌++◌, option_and_then};
ghost use Rattle.std.specs.Prelude.{false, IsSome, IfOk, OnErr};
ghost use Rattle.std.specs.Option.{option_copied};
ghost use Rattle.la_commit.specs.declared.instance.TheConstants.{MAX_COMMITS};
ghost use Rattle.la_commit.specs.Instances.{commit_of, is_first_instance};
ghost use Rattle.la_commit.specs.Votes.{casts};
ghost use Rattle.la_commit.specs.Outcomes.{outcome_in};
ghost use Rattle.la_replica.specs.Whole.{whole_out};
ghost use Rattle.la_replica.specs.Bases.{AreToldThere};
ghost use Rattle.la_replica.specs.Steps.{learnt_in};
ghost use Rattle.la_replica.specs.Changes.{IsPreparedFrom, LeadsThere};
ghost use Rattle.la_node.specs.SecondVotes.{vote_in};
ghost use Rattle.la_node.specs.Nodes.{returned_by};
ghost use Rattle.la_node.specs.Preparing.{IsPreparedReceipt, TakesAs, VoteMayFollow};
ghost use Rattle.la_node.specs.Preparing.{PreparesVote, CommitsBoth};

use crate::done::{Done, Voted};
use la_commit::{
    Outcome, Vote, commit_of, is_first_instance, outcome_in, outcome_of, second_instance,
    second_vote,
};
use la_replica::{Change, Mail, Message, Out, Replica, ReplicaError, Said};
use la_set::{Counts, Op, UpdateSet};
use std::alloc::AllocError;

// The vote that a replica gives in an object's second instance, where it learns this set in the
// first one.
fn vote_in(instance: u8, own: u8, learnt: Option<&UpdateSet>) -> Option<Vote>
    ensures { result ≡ option_and_then (vote_in instance own) (option_copied learnt.entry) }
{
    match learnt {
        Some(learnt) if is_first_instance(instance) => second_vote(own, learnt),
        _ => None,
    }
}

/// What replica `own` returns, where it learns this set in this instance, if that is the second one of an
/// adopt-commit object.
pub fn outcome_by(instance: u8, own: u8, learnt: Option<&UpdateSet>) -> Option<Outcome>
    ensures { result ≡ option_and_then (outcome_in instance own) (option_copied learnt.entry) }
{
    match learnt {
        Some(learnt) => outcome_in(instance, own, learnt),
        None => None,
    }
}

// What a replica returned from an object, if it has.
pub fn returned(replica: &Replica, commit: u8) -> Option<Outcome>
    requires { commit < MAX_COMMITS }
    ensures { result ≡ returned_by commit replica.now }
{
    let second = replica.last_learnt(second_instance(commit))?;
    outcome_of(replica.own(), second)
}

// Commits what was prepared for a message; and where the replica learns a set by it that leads to a
// second vote, it casts this in the same step: both are prepared from what stands, and then both
// are committed. A copy of what is learnt is answered too. It is refused for want of memory alone,
// and only where a set would be learnt.
#[inline(always)]
pub fn take_prepared(
    receiver: &mut Replica,
    message: &Message,
    out: Out,
    change: Change,
) -> Result<(Done, Option<UpdateSet>), AllocError>
    requires { IsPreparedReceipt receiver.old message.now out change }
    ensures taken { IfOk result (λ taken. TakesAs receiver.old message.now taken.0 receiver.new) }
    ensures learnt { IfOk result (λ taken. taken.1 ≡ learnt_in taken.0.said) }
    ensures learning { OnErr result (IsSome (learnt_in out.said)) }
    ensures err { OnErr result (receiver.new ≡ receiver.old) }
{
    let learnt = learnt_copy(&out.said)?;
    match vote_in(message.instance, receiver.own(), learnt.as_ref()) {
        None => {
            receiver.commit(change);
            Ok((Done::without_vote(out), learnt))
        }
        Some(vote) => {
            let done = commit_both(receiver, message.instance, vote, out, change)?;
            Ok((done, learnt))
        }
    }
}

// The same without a copy of what is learnt. In instance 0, and where else no vote may follow, it takes no
// memory, and notes how far the replica's sets agree, where one of them grows by it.
pub fn take_noting(
    receiver: &mut Replica,
    message: &Message,
    out: Out,
    change: Change,
) -> Result<Done, AllocError>
    requires { IsPreparedReceipt receiver.old message.now out change }
    ensures taken { IfOk result (λ done. TakesAs receiver.old message.now done receiver.new) }
    ensures learning { OnErr result (IsSome (learnt_in out.said)) }
    ensures err { OnErr result (receiver.new ≡ receiver.old) }
{
    if is_first_instance(message.instance) {
        let (done, _) = take_prepared(receiver, message, out, change)?;
        return Ok(done);
    }
    Ok(take_plainly(receiver, message, out, change))
}

// Commits what was prepared for a message of no object's first instance, so that no vote follows.
#[inline(always)]
fn take_plainly(receiver: &mut Replica, _message: &Message, out: Out, change: Change) -> Done
    requires prepared { IsPreparedReceipt receiver.old _message.now out change }
    requires plain { is_first_instance _message.now.instance ≡ false }
    ensures { TakesAs receiver.old _message.now result receiver.new }
{
    let (accepts, views) = (change.accepted.is_some(), change.view.is_some());
    receiver.commit(change);
    note_growth(receiver, accepts, views);
    Done::without_vote(out)
}

// Notes how far a replica's sets agree, where what it has accepted grew, or its view.
fn note_growth(receiver: &mut Replica, accepts: bool, views: bool)
    ensures { receiver.new ≡ receiver.old }
{
    if accepts {
        receiver.note_agreement();
    } else if views {
        receiver.note_view();
    }
}

// Commits what a message in this instance led to, and the second vote to which that leads.
fn commit_both(
    receiver: &mut Replica,
    instance: u8,
    vote: Vote,
    out: Out,
    change: Change,
) -> Result<Done, AllocError>
    requires here { change.instance ≡ instance }
    requires prepared { IsPreparedFrom receiver.old change }
    requires vote { VoteMayFollow receiver.old instance }
    ensures both { IfOk result (λ done. CommitsBoth receiver.old instance vote out change done receiver.new) }
    ensures err { OnErr result (receiver.new ≡ receiver.old) }
{
    let Out { said, mail } = out;
    let (voted, mail, cast) = prepare_vote(receiver, instance, vote, mail)?;
    receiver.commit(change);
    receiver.commit(cast);
    Ok(Done {
        said,
        voted: Some(voted),
        mail,
    })
}

// A copy of the set that is learnt, if one is.
#[inline(always)]
fn learnt_copy(said: &Said) -> Result<Option<UpdateSet>, AllocError>
    ensures ok { IfOk result (λ learnt. learnt ≡ learnt_in said.now) }
    ensures err { OnErr result (IsSome (learnt_in said.now)) }
{
    match said.learnt() {
        Some(learnt) => Ok(Some(learnt.copy()?)),
        None => Ok(None),
    }
}

// Prepares the second vote to which a learning in this instance leads, and puts its mail last.
fn prepare_vote(
    replica: &Replica,
    instance: u8,
    vote: Vote,
    mail: Mail,
) -> Result<(Voted, Mail, Change), AllocError>
    requires { VoteMayFollow replica.now instance }
    ensures { IfOk result (λ prepared.
        PreparesVote replica.now instance vote mail prepared.0 prepared.1 prepared.2) }
{
    let (cast, change) = prepare_cast(replica, instance, vote)?;
    let (voted, sent) = put_last(instance + 1, mail, cast)?;
    Ok((voted, sent, change))
}

// Prepares the vote alone.
fn prepare_cast(replica: &Replica, instance: u8, vote: Vote) -> Result<(Out, Change), AllocError>
    requires { VoteMayFollow replica.now instance }
    ensures leads { IfOk result (λ prepared. LeadsThere replica.now (instance + 1)
        (casts (commit_of instance) vote) (whole_out prepared.0) prepared.1) }
    ensures told { IfOk result (λ prepared.
        AreToldThere replica.now (instance + 1) prepared.1 prepared.0.mail) }
    ensures change { IfOk result (λ prepared. prepared.1.instance ≡ instance + 1) }
{
    let (second, commit) = (instance + 1, commit_of(instance) as u16);
    match replica.prepare_submission(second, commit, Op::from(vote)) {
        Ok(prepared) => Ok(prepared),
        Err(refused) => Err(for_memory(refused)),
    }
}

// What was said of a vote in this instance, and its mail behind what is sent before.
fn put_last(instance: u8, before: Mail, cast: Out) -> Result<(Voted, Mail), AllocError>
    ensures mail { IfOk result (λ put. put.1 ≡ before ++ cast.mail) }
    ensures voted { IfOk result (λ put.
        put.0 ≡ record { instance = instance; said = cast.said }) }
{
    let Out { said, mail } = cast;
    let mut sent = before;
    sent.append(mail)?;
    Ok((Voted { instance, said }, sent))
}

// A refusal for want of memory.
pub fn for_memory(_refused: ReplicaError) -> AllocError
    requires { _refused ≡ ReplicaError.Memory }
{
    AllocError
}
