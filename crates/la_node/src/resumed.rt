// A node that is made of a replica that is taken up again.
ghost use Rattle.std.specs.Prelude.{◌≡◌, ◌*◌, ◌%◌, ◌<◌, ◌==◌, ◌&&◌, nat_le, length};
ghost use Rattle.std.specs.List.{list_all};
ghost use Rattle.la_commit.specs.declared.instance.TheConstants.{MAX_COMMITS};
ghost use Rattle.la_node.specs.Resuming.{instance_submits_once, are_participants};
ghost use Rattle.la_node.specs.Resuming.{second_follows, seconds_follow};

use la_commit::{MAX_COMMITS, first_instance, second_instance};
use la_replica::Instance;

// Whether a node's replica may have these instances.
pub fn are_participants(instances: &[Instance]) -> bool
    ensures { result ≡ are_participants instances.now }
{
    match instances.split_first() {
        None => false,
        Some((_, others)) => are_of_objects(others, instances),
    }
}

// Whether behind instance 0 there may be these others, two for each object.
fn are_of_objects(others: &[Instance], instances: &[Instance]) -> bool
    ensures { result ≡ ((length others.now % 2 == 0)
        && (nat_le (length others.now) (2 * MAX_COMMITS)
        && (list_all instance_submits_once others.now && seconds_follow instances.now MAX_COMMITS))) }
{
    others.len() % 2 == 0
        && others.len() <= 2 * MAX_COMMITS as usize
        && others_submit_once(others)
        && seconds_follow(instances)
}

fn others_submit_once(others: &[Instance]) -> bool
    ensures { result ≡ list_all instance_submits_once others.now }
{
    others.iter().all(|instance| submits_once(instance))
}

fn submits_once(instance: &Instance) -> bool
    ensures { result ≡ instance_submits_once instance.now }
{
    let proposer = &instance.proposer;
    let asks = proposer.is_asking();
    let has_submitted = proposer.submitted() >= 1;
    proposer.own() < 8
        && proposer.cap() == 1
        && proposer.buffered() == 0
        && (!asks || has_submitted)
        && (instance.learnt.is_none() || !asks && has_submitted)
        && (has_submitted || proposer.last().number == 0)
}

// Whether a second vote comes of each object only after a first learning.
fn seconds_follow(instances: &[Instance]) -> bool
    ensures { result ≡ seconds_follow instances.now MAX_COMMITS }
{
    for commit in 0..MAX_COMMITS {
        if !second_follows(instances, commit) {
            return false;
        }
    }
    true
}

fn second_follows(instances: &[Instance], commit: u8) -> bool
    requires { commit < MAX_COMMITS }
    ensures { result ≡ second_follows instances.now commit }
{
    let first = instances.get(first_instance(commit) as usize);
    let second = instances.get(second_instance(commit) as usize);
    match (first, second) {
        (Some(first), Some(second)) => {
            first.learnt.is_some() || second.proposer.submitted() == 0
        }
        _ => true,
    }
}
