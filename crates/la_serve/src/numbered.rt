// Submissions and proposals that are not done: of other objects, or done before.
ghost use Rattle.std.specs.Prelude.{◌≡◌, ◌↔◌, ℕ, List, IsTrue, option_map};
ghost use Rattle.std.specs.Option.{option_copied};
ghost use Rattle.la_set.specs.Histories.{object_op_number};
ghost use Rattle.la_set.specs.ObjectOps.{object_op_of, update_of};
ghost use Rattle.la_proposer.specs.Inputs.{all_submitted};
ghost use Rattle.la_proposer.specs.ProposerState.{op_on};
ghost use Rattle.la_object.specs.Shelves.{kind_at};
ghost use Rattle.la_durable.specs.Nodes.{kept_by};
ghost use Rattle.la_serve.specs.Asking.{heard_as};
ghost use Rattle.la_serve.specs.Numbered.{submission_under, is_next_number, proposal_by};
ghost use Rattle.la_serve.specs.Said.{unfit_here, unfit, query_for, is_vote_for, is_this_value};
ghost use Rattle.la_serve.specs.Said.{IsSaidNumbered, IsSaidUnder, IsSaidOfSubmission, IsSaidOfProposal};

use crate::asking::Asking;
use crate::said::{Said, Why};
use crate::texts::{proposed_text, submitted_text};
use la_durable::NodeMachine;
use la_object::{Answer, Query, Replicated, Shelf};
use la_own::own_bytes;
use la_proposer::{Proposer, laws};
use la_set::{Op, Update, UpdateId};
use std::alloc::Global;

// Whether a node's next submission has this number.
fn is_next_number(machine: &NodeMachine, number: u32) -> bool
    ensures { result ≡ is_next_number (kept_by machine.now) number }
{
    match machine.node.submitted(0) {
        Some(submitted) => number.checked_sub(1) == Some(submitted),
        None => number == 1,
    }
}

/// What a proposer has submitted under a number, at logarithmic cost.
pub fn submitted_under(proposer: &Proposer, number: u32) -> Option<&Update>
    ensures { option_copied result ≡ option_map (update_of proposer.now.own number)
        (object_op_number (all_submitted proposer.now) number) }
{
    // a hint to the prover: the proposer is one of eight
    laws::proposers_may_be_resumed();
    proposer.submissions().get(UpdateId {
        replica: proposer.own(),
        number,
    })
}

// Whether an update does this to this object.
fn does(update: &Update, object: u16, op: &Op) -> bool
    ensures { IsTrue result ↔ (object_op_of update.now ≡ op_on object op.now) }
{
    update.object == object && update.op.same(op)
}

// What is said of a submission under a number that is not the next.
fn said_numbered(
    alloc: Global,
    machine: &NodeMachine,
    number: u32,
    submission: (u16, &Op),
    name: &str,
) -> Said
    ensures { IsSaidNumbered machine.now.node.replica.own number name.now
        (op_on submission.entry.0 submission.entry.1.now) (submission_under (kept_by machine.now) number) result }
{
    let (object, op) = submission;
    let Some(first) = machine.node.replica().instances().first() else {
        return Said::Refused(Why::Gap);
    };
    match submitted_under(&first.proposer, number) {
        Some(update) if does(update, object, op) => {
            match submitted_text(alloc, machine.node.own(), number, name) {
                Ok(text) => Said::Lines(text),
                Err(_) => Said::Refused(Why::Memory),
            }
        }
        Some(_) => Said::Refused(Why::Stale),
        None => Said::Refused(Why::Gap),
    }
}

// What is said of a submission in place of doing it, to a request of this name: under a number that is not the next,
// by what the node has submitted under that, at logarithmic cost. `None` comes where it is to be done.
fn said_under(
    alloc: Global,
    machine: &NodeMachine,
    number: Option<u32>,
    submission: (u16, &Op),
    name: &str,
) -> Option<Said>
    ensures { IsSaidUnder (kept_by machine.now) name.now
        (op_on submission.entry.0 submission.entry.1.now) number result }
{
    let number = number?;
    if is_next_number(machine, number) {
        return None;
    }
    Some(said_numbered(alloc, machine, number, submission, name))
}

// By what an object of a kind that takes an operation can be asked, without memory.
fn query_for(op: &Op) -> Option<Query>
    ensures { result ≡ query_for op.now }
{
    match op {
        Op::Inc(_) | Op::Dec(_) => Some(Query::Total),
        Op::Raise(_) => Some(Query::Largest),
        Op::Put(_) | Op::Remove(_) => Some(Query::Size),
        Op::Mark | Op::Vote { .. } => None,
    }
}

// Why an operation is none of an object's on the shelf, by what the object answers.
fn unfit_here<B: Replicated>(shelf: &Shelf<B>, object: u16, op: &Op) -> Option<Why>
    ensures { result ≡ unfit_here (kind_at shelf.now.objects object) op.now }
{
    if !shelf.has(object) {
        return Some(Why::NoSuchObject);
    }
    match query_for(op) {
        Some(query) => match shelf.ask(object, &query) {
            Ok(Answer::Foreign) => Some(Why::Foreign),
            Ok(_) => None,
            Err(_) => unreachable!(),
        },
        None => match op {
            Op::Mark => None,
            _ => Some(Why::Foreign),
        },
    }
}

// Why an operation is none of an object's: one of one's own goes to a number under which the shelf has none.
fn unfit<B: Replicated>(shelf: &Shelf<B>, object: u16, op: &Op) -> Option<Why>
    ensures { result ≡ unfit (kind_at shelf.now.objects object) op.now }
{
    if own_bytes(op).is_none() {
        return unfit_here(shelf, object, op);
    }
    if shelf.has(object) {
        Some(Why::Foreign)
    } else {
        None
    }
}

/// What is said of a submission in place of doing it: that its object does not take it, or, under a number that is not
/// the next, what was submitted under that. `None` comes where it is to be done.
pub fn said_of_submission<B: Replicated>(
    alloc: Global,
    machine: &NodeMachine,
    shelf: &Shelf<B>,
    asking: Asking<'_>,
    submission: (u16, &Op),
) -> Option<Said>
    ensures { (line : List ℕ) → IsSaidOfSubmission shelf.now.objects (kept_by machine.now)
        (heard_as asking.entry line) (op_on submission.entry.0 submission.entry.1.now) result }
{
    let (object, op) = submission;
    match unfit(shelf, object, op) {
        Some(why) => Some(Said::Refused(why)),
        None => said_under(alloc, machine, asking.update, submission, asking.name),
    }
}

// Whether a node has proposed this value to an adopt-commit object.
fn has_proposed(machine: &NodeMachine, commit: u8, value: u64) -> bool
    ensures { result ≡ is_this_value value (proposal_by (kept_by machine.now) commit) }
{
    let place = 2 * usize::from(commit) + 1;
    let Some(instance) = machine.node.replica().instances().get(place) else {
        return false;
    };
    match submitted_under(&instance.proposer, 1) {
        Some(update) => is_vote_for(value, &update.op),
        None => false,
    }
}

// Whether an operation is a vote for a value.
fn is_vote_for(value: u64, op: &Op) -> bool
    ensures { result ≡ is_vote_for value op.now }
{
    match op {
        Op::Vote { value: voted, .. } => *voted == value,
        _ => false,
    }
}

/// What is said of a proposal in place of making it, to a request of this name: where the value is what was proposed, that
/// it is, and what came of it. `None` comes where it is to be made.
pub fn said_of_proposal(
    alloc: Global,
    machine: &NodeMachine,
    proposal: (u8, u64),
    name: &str,
) -> Option<Said>
    ensures { IsSaidOfProposal (kept_by machine.now) name.now proposal.0 proposal.1 result }
{
    let (commit, value) = proposal;
    if !has_proposed(machine, commit, value) {
        return None;
    }
    let outcome = machine.node.outcome(commit);
    match proposed_text(alloc, machine.node.own(), commit, outcome, name) {
        Ok(text) => Some(Said::Lines(text)),
        Err(_) => Some(Said::Refused(Why::Memory)),
    }
}
