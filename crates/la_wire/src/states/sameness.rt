// Whether two states are one.
ghost use Rattle.std.specs.Prelude.{◌≡◌, ◌↔◌, IsTrue};
ghost use Rattle.std.specs.Cmp.Lexicographic.{pointwise};
ghost use Rattle.la_wire.specs.SameStates.{is_same_set, is_same_ballot, is_same_learnt, is_same_reply, is_same_counted};
ghost use Rattle.la_wire.specs.SameStates.{are_same_counts, is_same_proposer, is_same_instance, is_same_state};

use la_acceptor::Reply;
use la_proposer::{Ballot, Counted, Proposer};
use la_replica::{Instance, Replica};
use la_set::{Counts, UpdateSet};

fn is_same_set(one: &UpdateSet, other: &UpdateSet) -> bool
    ensures { result ≡ is_same_set one.now other.now }
{
    one.contains_all(other) && other.contains_all(one)
}

fn is_same_ballot(one: &Ballot, other: &Ballot) -> bool
    ensures { result ≡ is_same_ballot one.now other.now }
{
    one.number == other.number && is_same_set(&one.updates, &other.updates)
}

fn is_same_learnt(one: &Option<Ballot>, other: &Option<Ballot>) -> bool
    ensures { result ≡ is_same_learnt one.now other.now }
{
    match (one, other) {
        (Some(one), Some(other)) => is_same_ballot(one, other),
        (None, None) => true,
        _ => false,
    }
}

fn is_same_reply(one: &Reply, other: &Reply) -> bool
    ensures { result ≡ is_same_reply one.now other.now }
{
    match (one, other) {
        (Reply::Yes, Reply::Yes) => true,
        (Reply::No(one), Reply::No(other)) => is_same_set(one, other),
        _ => false,
    }
}

fn is_same_counted(one: &Counted, other: &Counted) -> bool
    ensures { result ≡ is_same_counted one.now other.now }
{
    one.from == other.from && is_same_reply(&one.reply, &other.reply)
}

fn is_same_tally(one: &[Counted], other: &[Counted]) -> bool
    ensures { result ≡ pointwise is_same_counted one.now other.now }
{
    let mut left = other;
    for counted in one {
        match left {
            [beside, rest @ ..] if is_same_counted(counted, beside) => left = rest,
            _ => return false,
        }
    }
    left.is_empty()
}

fn are_all_same_counts(one: &[Counts; 8], other: &[Counts; 8]) -> bool
    ensures { result ≡ pointwise are_same_counts one.now other.now }
{
    *one == *other
}

fn is_same_proposer(one: &Proposer, other: &Proposer) -> bool
    ensures { result ≡ is_same_proposer one.now other.now }
{
    one.votes().same(&other.votes())
        && one.own() == other.own()
        && one.cap() == other.cap()
        && is_same_ballot(one.last(), other.last())
        && one.is_asking() == other.is_asking()
        && is_same_tally(one.tally(), other.tally())
        && is_same_set(one.submissions(), other.submissions())
        && are_all_same_counts(&one.all_reported(), &other.all_reported())
}

#[tactic(auto, unfolding(crate::specs::SameStates::is_same_instance))]
fn is_same_instance(one: &Instance, other: &Instance) -> bool
    ensures { result ≡ is_same_instance one.now other.now }
{
    is_same_set(one.acceptor.accepted(), other.acceptor.accepted())
        && is_same_proposer(&one.proposer, &other.proposer)
        && is_same_learnt(&one.learnt, &other.learnt)
}

fn are_same_instances(one: &[Instance], other: &[Instance]) -> bool
    ensures { result ≡ pointwise is_same_instance one.now other.now }
{
    let mut left = other;
    for instance in one {
        match left {
            [beside, rest @ ..] if is_same_instance(instance, beside) => left = rest,
            _ => return false,
        }
    }
    left.is_empty()
}

#[tactic(auto, unfolding(crate::specs::SameStates::is_same_state))]
fn is_same_state(one: &Replica, other: &Replica) -> bool
    ensures { result ≡ is_same_state one.now other.now }
{
    one.votes().same(&other.votes())
        && one.own() == other.own()
        && is_same_set(one.view(), other.view())
        && are_same_instances(one.instances(), other.instances())
}

/// Whether two replicas are in one state, at a cost linear in it.
pub fn same_state(one: &Replica, other: &Replica) -> bool
    ensures value { result ≡ is_same_state one.now other.now }
    ensures same { IsTrue result ↔ (one.now ≡ other.now) }
{
    // a hint to the prover: its contract tells what holds of every replica
    let _ = one.own();
    is_same_state(one, other)
}
