// A replica's state, written as a text.
ghost use Rattle.std.specs.Prelude.{◌≡◌, ◌++◌, ◌∷◌, [], map, IfOk, OnOk};
ghost use Rattle.std.specs.Fmt.{decimal};
ghost use Rattle.la_proposer.specs.Majority.{votes_of};
ghost use Rattle.la_proposer.specs.Tally.{joined_with_refusals};
ghost use Rattle.la_wire.specs.Joined.{spaced, joined_by};
ghost use Rattle.la_wire.specs.MessageLines.{counts_text};
ghost use Rattle.la_wire.specs.States.{group_words, group_said_of, ballot_head, learnt_head, instance_head_of};
ghost use Rattle.la_wire.specs.States.{ballot_words, learnt_words, asking_words, told_words, reply_word, tally_words};
ghost use Rattle.la_wire.specs.States.{union_in, section_text, section_texts, state_text};

use super::heads::{BallotHead, InstanceHead, asking_word};
use crate::counts::put_counts_text;
use crate::writing::{put_delta, put_labelled, put_number, put_word};
use la_acceptor::Reply;
use la_proposer::{Ballot, Counted, Votes};
use la_replica::{Instance, Replica};
use la_set::{Counts, UpdateSet};
use std::alloc::AllocError;

fn ballot_head(ballot: &Ballot) -> BallotHead
    ensures { result ≡ ballot_head ballot.now }
{
    BallotHead {
        number: ballot.number,
        of: ballot.updates.counts(),
    }
}

fn learnt_head(learnt: &Option<Ballot>) -> Option<BallotHead>
    ensures { result ≡ learnt_head learnt.now }
{
    match learnt {
        Some(ballot) => Some(ballot_head(ballot)),
        None => None,
    }
}

fn instance_head_of(instance: &Instance) -> InstanceHead
    ensures { result ≡ instance_head_of instance.now }
{
    let proposer = &instance.proposer;
    InstanceHead {
        cap: proposer.cap(),
        accepted: instance.acceptor.accepted().counts(),
        last: ballot_head(proposer.last()),
        is_asking: proposer.is_asking(),
        submissions: proposer.submissions().counts(),
        reported: proposer.all_reported(),
        learnt: learnt_head(&instance.learnt),
    }
}

// Writes counts behind other words.
fn put_counts_word(out: &mut Vec<u8>, counts: Counts) -> Result<(), AllocError>
    ensures { OnOk result (out.new.items ≡ out.old.items ++ 32 ∷ counts_text counts) }
{
    out.push(b' ')?;
    put_counts_text(out, counts)
}

fn put_ballot(out: &mut Vec<u8>, ballot: BallotHead) -> Result<(), AllocError>
    ensures { OnOk result (out.new.items ≡ out.old.items ++ spaced 32 (ballot_words ballot)) }
{
    put_number(out, u64::from(ballot.number))?;
    put_counts_word(out, ballot.of)
}

fn put_learnt(out: &mut Vec<u8>, learnt: Option<BallotHead>) -> Result<(), AllocError>
    ensures { OnOk result (out.new.items ≡ out.old.items ++ spaced 32 (learnt_words learnt)) }
{
    match learnt {
        Some(ballot) => put_ballot(out, ballot),
        None => put_word(out, b"none"),
    }
}

fn put_all_counts(out: &mut Vec<u8>, all: &[Counts]) -> Result<(), AllocError>
    ensures { OnOk result (out.new.items ≡ out.old.items ++ spaced 32 (map counts_text all.now)) }
{
    for counts in all {
        put_counts_word(out, *counts)?;
    }
    Ok(())
}

// Writes what an instance has accepted, and what its proposer asks.
fn put_asking(out: &mut Vec<u8>, head: &InstanceHead) -> Result<(), AllocError>
    ensures { OnOk result (out.new.items ≡ out.old.items ++ joined_by 32 (asking_words head.now)) }
{
    out.extend_from_slice(b"cap")?;
    put_number(out, u64::from(head.cap))?;
    put_labelled(out, b"has", head.accepted)?;
    put_word(out, b"ballot")?;
    put_ballot(out, head.last)?;
    put_word(out, asking_word(head.is_asking))?;
    put_labelled(out, b"mine", head.submissions)
}

// Writes what was told in an instance, and what was learnt.
fn put_told(out: &mut Vec<u8>, head: &InstanceHead) -> Result<(), AllocError>
    ensures { OnOk result (out.new.items ≡ out.old.items ++ spaced 32 (told_words head.now)) }
{
    put_word(out, b"reported")?;
    put_all_counts(out, &head.reported)?;
    put_word(out, b"learnt")?;
    put_learnt(out, head.learnt)
}

fn put_reply(out: &mut Vec<u8>, reply: &Reply) -> Result<(), AllocError>
    ensures { OnOk result (out.new.items ≡ out.old.items ++ 32 ∷ reply_word reply.now) }
{
    match reply {
        Reply::Yes => put_word(out, b"yes"),
        Reply::No(refused) => put_counts_word(out, refused.counts()),
    }
}

fn put_tally(out: &mut Vec<u8>, tally: &[Counted]) -> Result<(), AllocError>
    ensures { OnOk result (out.new.items ≡ out.old.items ++ spaced 32 (tally_words tally.now)) }
{
    for counted in tally {
        put_number(out, u64::from(counted.from))?;
        put_reply(out, &counted.reply)?;
    }
    Ok(())
}

// Joins the sets of all refusals to a set.
fn join_refusals(set: &mut UpdateSet, tally: &[Counted]) -> Result<(), AllocError>
    ensures { OnOk result (set.new ≡ joined_with_refusals set.old tally.now) }
{
    for counted in tally {
        if let Reply::No(refused) = &counted.reply {
            set.join(refused)?;
        }
    }
    Ok(())
}

// The union of an instance's sets.
fn union_in(instance: &Instance) -> Result<UpdateSet, AllocError>
    ensures { IfOk result (λ union. union ≡ union_in instance.now) }
{
    let proposer = &instance.proposer;
    let mut union = instance.acceptor.accepted().copy()?;
    union.join(&proposer.last().updates)?;
    union.join(proposer.submissions())?;
    if let Some(learnt) = &instance.learnt {
        union.join(&learnt.updates)?;
    }
    join_refusals(&mut union, proposer.tally())?;
    Ok(union)
}

// Writes an instance as a section behind others, with the union of its sets.
fn put_section(out: &mut Vec<u8>, instance: &Instance, union: &UpdateSet) -> Result<(), AllocError>
    ensures { OnOk result (out.new.items ≡ out.old.items ++ 124 ∷ section_text instance.now union.now) }
{
    out.push(b'|')?;
    let head = instance_head_of(instance);
    put_asking(out, &head)?;
    put_told(out, &head)?;
    put_tally(out, instance.proposer.tally())?;
    let all = union.over(Counts::zero())?;
    put_delta(out, &all)
}

// Writes the instances behind the first.
fn put_others(out: &mut Vec<u8>, instances: &[Instance]) -> Result<(), AllocError>
    ensures { OnOk result (out.new.items
        ≡ out.old.items ++ spaced 124 (map (λ x. section_text x (union_in x)) instances.now)) }
{
    for instance in instances {
        let union = union_in(instance)?;
        put_section(out, instance, &union)?;
    }
    Ok(())
}

// Writes all instances, the first with the view.
fn put_sections(
    out: &mut Vec<u8>,
    instances: &[Instance],
    view: &UpdateSet,
) -> Result<(), AllocError>
    ensures { OnOk result (out.new.items
        ≡ out.old.items ++ spaced 124 (section_texts view.now instances.now)) }
{
    let [first, others @ ..] = instances else {
        return Ok(());
    };
    let mut union = union_in(first)?;
    union.join(view)?;
    put_section(out, first, &union)?;
    put_others(out, others)
}

// Writes the votes, each behind a space.
fn put_votes(out: &mut Vec<u8>, votes: &Votes) -> Result<(), AllocError>
    ensures { OnOk result (out.new.items ≡ out.old.items ++ spaced 32 (map decimal (votes_of votes.now))) }
{
    for replica in 0..votes.len() {
        let Some(count) = votes.of(replica as u8) else {
            unreachable!()
        };
        put_number(out, u64::from(count))?;
    }
    Ok(())
}

fn put_group_head(out: &mut Vec<u8>, replica: &Replica) -> Result<(), AllocError>
    ensures { OnOk result
        (out.new.items ≡ out.old.items ++ joined_by 32 (group_words (group_said_of replica.now))) }
{
    out.extend_from_slice(b"state")?;
    put_number(out, u64::from(replica.own()))?;
    put_labelled(out, b"view", replica.view().counts())?;
    put_word(out, b"votes")?;
    put_votes(out, &replica.votes())
}

/// Puts the text of a replica's state behind what is there, at a cost linear in it but for finding each update. After
/// a refusal a part of it may stand there. Where the replica's sets do not agree, which no group of honest replicas
/// leads to, another state or none is read from it: see [`same_state`](crate::same_state).
#[tactic(auto, unfolding(crate::specs::States::state_text))]
pub fn put_state(out: &mut Vec<u8>, replica: &Replica) -> Result<(), AllocError>
    ensures { OnOk result (out.new.items ≡ out.old.items ++ state_text replica.now) }
{
    put_group_head(out, replica)?;
    put_sections(out, replica.instances(), replica.view())
}
