// A replica's state, read from its text.
ghost use Rattle.std.specs.Prelude.{◌≡◌, ◌∷◌, IfOk};
ghost use Rattle.la_proposer.specs.Majority.{votes_of};
ghost use Rattle.la_script.specs.Words.{bytes_of};
ghost use Rattle.la_wire.specs.Joined.{parted};
ghost use Rattle.la_wire.specs.Readings.{GivesOnLine};
ghost use Rattle.la_wire.specs.Updates.{made};
ghost use Rattle.la_wire.specs.States.{set_made, union_on, set_taken, ballot_taken, learnt_from, reply_on, tally_on};
ghost use Rattle.la_wire.specs.States.{proposer_made, instance_made, instance_on, section_on, instances_on};
ghost use Rattle.la_wire.specs.States.{said_group, replica_on, state_parted, said_state};

use super::heads::{BallotHead, GroupHead, InstanceHead, group_head, instance_head};
use crate::counts::counts_on;
use crate::updates::updates_in;
use crate::words::{at_end, number_at, parts_of};
use crate::{LineError, LineFault};
use la_acceptor::{Acceptor, Reply};
use la_proposer::{Ballot, Counted, INLINE_TALLY, Proposer, ProposerParts, Votes};
use la_replica::{Instance, Replica};
use la_script::words_of;
use la_set::{Counts, Delta, SetError, UpdateSet, Updates};
use smallvec::SmallVec;
use std::alloc::{AllocError, Global};

/// An instance, and the union of its sets.
#[derive(Drop)]
pub struct Section {
    pub union: UpdateSet,
    pub instance: Instance,
}

// The set that updates make.
fn set_made(alloc: Global, updates: Updates) -> Result<UpdateSet, LineError>
    ensures { GivesOnLine (λ set. set) (set_made updates) result }
{
    let delta = Delta::new(Counts::zero(), updates);
    match UpdateSet::new(alloc).with(&delta) {
        Ok(set) => Ok(set),
        Err(refused) => match refused {
            SetError::Memory => Err(LineError::Memory),
            _ => Err(LineError::Fault(LineFault::BadLine)),
        },
    }
}

// The union that parts say.
fn union_on(alloc: Global, parts: &[&[u8]]) -> Result<UpdateSet, LineError>
    ensures { GivesOnLine (λ set. set) (union_on (bytes_of parts.now)) result }
{
    set_made(alloc, updates_in(alloc, parts)?)
}

// Of a union the first so many updates of each replica.
fn set_taken(alloc: Global, union: &UpdateSet, counts: Counts) -> Result<UpdateSet, LineError>
    ensures { GivesOnLine (λ set. set) (set_taken union.now counts) result }
{
    let delta = Delta::new(counts, Updates::new(alloc));
    match union.with(&delta) {
        Ok(set) => Ok(set),
        Err(refused) => match refused {
            SetError::Memory => Err(LineError::Memory),
            _ => Err(LineError::Fault(LineFault::BadNumber)),
        },
    }
}

#[tactic(auto, unfolding(crate::specs::States::ballot_taken))]
fn ballot_taken(alloc: Global, union: &UpdateSet, head: BallotHead) -> Result<Ballot, LineError>
    ensures { GivesOnLine (λ ballot. ballot) (ballot_taken union.now head) result }
{
    Ok(Ballot {
        number: head.number,
        updates: set_taken(alloc, union, head.of)?,
    })
}

fn learnt_from(
    alloc: Global,
    union: &UpdateSet,
    head: Option<BallotHead>,
) -> Result<Option<Ballot>, LineError>
    ensures { GivesOnLine (λ learnt. learnt) (learnt_from union.now head) result }
{
    match head {
        Some(head) => Ok(Some(ballot_taken(alloc, union, head)?)),
        None => Ok(None),
    }
}

// The reply that a word says.
fn reply_on(alloc: Global, union: &UpdateSet, word: &[u8]) -> Result<Reply, LineError>
    ensures { GivesOnLine (λ reply. reply) (reply_on union.now word.now) result }
{
    if word == b"yes".as_slice() {
        return Ok(Reply::Yes);
    }
    let counts = counts_on(word)?;
    Ok(Reply::No(set_taken(alloc, union, counts)?))
}

// The replies that have counted: of each two words.
#[tactic(auto, using(crate::proofs::UpdateLists::goes_on))]
fn tally_on(
    alloc: Global,
    union: &UpdateSet,
    words: &[&[u8]],
) -> Result<SmallVec<Counted, INLINE_TALLY>, LineError>
    ensures { GivesOnLine (λ tally. tally.items) (tally_on union.now (bytes_of words.now)) result }
{
    let mut tally = SmallVec::new(alloc);
    let mut left = words;
    while let [from, says, rest @ ..] = left {
        let from = number_at(0, u64::from(u8::MAX), from)?;
        let reply = reply_on(alloc, union, says)?;
        tally.push(Counted {
            from: from as u8,
            reply,
        })?;
        left = rest;
    }
    at_end(left)?;
    Ok(tally)
}

// The proposer of an instance.
#[tactic(auto, unfolding(crate::specs::States::proposer_made))]
fn proposer_made(
    alloc: Global,
    votes: Votes,
    own: u8,
    union: &UpdateSet,
    head: &InstanceHead,
    tally: SmallVec<Counted, INLINE_TALLY>,
) -> Result<Proposer, LineError>
    ensures { GivesOnLine (λ proposer. proposer)
        (proposer_made (votes_of votes) own union.now head.now tally.items) result }
{
    let last = ballot_taken(alloc, union, head.last)?;
    let submissions = set_taken(alloc, union, head.submissions)?;
    let parts = ProposerParts {
        own,
        cap: head.cap,
        votes,
        last,
        is_asking: head.is_asking,
        tally,
        submissions,
        reported: head.reported,
    };
    match Proposer::resumed(parts) {
        Some(proposer) => Ok(proposer),
        None => Err(LineError::Fault(LineFault::BadLine)),
    }
}

#[tactic(auto, unfolding(crate::specs::States::instance_made))]
fn instance_made(
    alloc: Global,
    votes: Votes,
    own: u8,
    union: &UpdateSet,
    head: &InstanceHead,
    tally: SmallVec<Counted, INLINE_TALLY>,
) -> Result<Instance, LineError>
    ensures { GivesOnLine (λ instance. instance)
        (instance_made (votes_of votes) own union.now head.now tally.items) result }
{
    let accepted = set_taken(alloc, union, head.accepted)?;
    let proposer = proposer_made(alloc, votes, own, union, head, tally)?;
    let learnt = learnt_from(alloc, union, head.learnt)?;
    Ok(Instance {
        acceptor: Acceptor::resumed(accepted),
        proposer,
        learnt,
    })
}

// The instance that a head's words say.
#[tactic(auto, unfolding(crate::specs::States::instance_on))]
fn instance_on(
    alloc: Global,
    votes: Votes,
    own: u8,
    union: &UpdateSet,
    words: &[&[u8]],
) -> Result<Instance, LineError>
    ensures { GivesOnLine (λ instance. instance)
        (instance_on (votes_of votes) own union.now (bytes_of words.now)) result }
{
    let (head, words) = instance_head(words)?;
    let tally = tally_on(alloc, union, words)?;
    instance_made(alloc, votes, own, union, &head, tally)
}

// The instance that a section says.
#[tactic(auto, unfolding(crate::specs::States::section_on))]
fn section_on(alloc: Global, votes: Votes, own: u8, section: &[u8]) -> Result<Section, LineError>
    ensures { GivesOnLine (λ section. section) (section_on (votes_of votes) own section.now) result }
{
    let parts = parts_of(alloc, section)?;
    let [head, updates @ ..] = parts.as_slice() else {
        return Err(LineError::Fault(LineFault::BadLine));
    };
    let union = union_on(alloc, updates)?;
    let words = words_of(alloc, head)?;
    let instance = instance_on(alloc, votes, own, &union, &words)?;
    Ok(Section { union, instance })
}

// An instance, and behind it those that sections say.
#[tactic(auto, using(crate::proofs::UpdateLists::goes_on))]
fn instances_behind(
    alloc: Global,
    votes: Votes,
    own: u8,
    first: Instance,
    sections: &[&[u8]],
) -> Result<Vec<Instance>, LineError>
    ensures { GivesOnLine (λ instances. instances.items)
        (made (λ others. first ∷ others) (instances_on (votes_of votes) own (bytes_of sections.now))) result }
{
    let mut instances = Vec::new(alloc);
    instances.push(first)?;
    for section in sections {
        let section = section_on(alloc, votes, own, section)?;
        instances.push(section.instance)?;
    }
    Ok(instances)
}

// The replica that a head and sections say.
#[tactic(auto, unfolding(crate::specs::States::replica_on))]
fn replica_on(alloc: Global, head: &GroupHead, sections: &[&[u8]]) -> Result<Replica, LineError>
    ensures { GivesOnLine (λ replica. replica)
        (replica_on (said_group head.now) (bytes_of sections.now)) result }
{
    let [first, rest @ ..] = sections else {
        return Err(LineError::Fault(LineFault::BadLine));
    };
    let first = section_on(alloc, head.votes, head.own, first)?;
    let view = set_taken(alloc, &first.union, head.view)?;
    let instances = instances_behind(alloc, head.votes, head.own, first.instance, rest)?;
    match Replica::resumed(head.votes, head.own, instances, view) {
        Some(replica) => Ok(replica),
        None => Err(LineError::Fault(LineFault::BadLine)),
    }
}

// The sections of a text: a head, and what stands behind each `|`.
fn sections_of(alloc: Global, text: &[u8]) -> Result<Vec<&[u8]>, AllocError>
    ensures { IfOk result (λ sections. bytes_of sections.items ≡ parted 124 text.now) }
{
    text.split(|b| *b == b'|').collect(alloc)
}

// The state that a text says, or its first fault.
fn state_on(alloc: Global, text: &[u8]) -> Result<Replica, LineError>
    ensures { GivesOnLine (λ replica. replica) (state_parted (parted 124 text.now)) result }
{
    let sections = sections_of(alloc, text)?;
    let [head, instances @ ..] = sections.as_slice() else {
        return Err(LineError::Fault(LineFault::BadLine));
    };
    let words = words_of(alloc, head)?;
    let head = group_head(alloc, &words)?;
    replica_on(alloc, &head, instances)
}

/// The replica whose state a text says, at a cost linear in the text but for finding each update; `None` where it
/// says none, as where it is not written as [`put_state`](crate::put_state) writes one, where a set has more of a
/// replica than the union of its instance, or where no replica has these parts.
#[tactic(auto, unfolding(crate::specs::States::said_state))]
pub fn state_in(alloc: Global, text: &[u8]) -> Result<Option<Replica>, AllocError>
    ensures { IfOk result (λ replica. replica ≡ said_state text.now) }
{
    match state_on(alloc, text) {
        Ok(replica) => Ok(Some(replica)),
        Err(LineError::Fault(_)) => Ok(None),
        Err(LineError::Memory) => Err(AllocError),
    }
}
