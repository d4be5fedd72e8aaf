// A replica that is taken up again from its parts.
ghost use Rattle.std.specs.Prelude.{◌≡◌};
ghost use Rattle.std.specs.List.{list_all};
ghost use Rattle.la_set.specs.Histories.{Histories};
ghost use Rattle.la_proposer.specs.Majority.{votes_of};
ghost use Rattle.la_replica.specs.Resuming.{is_instance_of, may_resume_replica, replica_from};

use crate::instance::Instance;
use la_commit::MAX_COMMITS;
use la_proposer::Votes;

// Whether a replica may be taken up again from these parts, whatever its view is.
#[tactic(auto, unfolding(crate::specs::Resuming::may_resume_replica))]
pub fn may_resume(votes: &Votes, own: u8, instances: &[Instance]) -> bool
    ensures { (view : Histories)
        → result ≡ may_resume_replica (replica_from votes.now own instances.now view) }
{
    (own as usize) < votes.len()
        && votes.len() <= 8
        && instances.len() >= 1
        && instances.len() <= 2 * MAX_COMMITS as usize + 1
        && are_instances_of(votes, own, instances)
}

// Whether the proposer of each instance is this replica of the group.
fn are_instances_of(votes: &Votes, own: u8, instances: &[Instance]) -> bool
    ensures { result ≡ list_all (is_instance_of (votes_of votes.now) own) instances.now }
{
    instances
        .iter()
        .all(|instance| is_instance_of(votes, own, instance))
}

fn is_instance_of(votes: &Votes, own: u8, instance: &Instance) -> bool
    ensures { result ≡ is_instance_of (votes_of votes.now) own instance.now }
{
    let proposer = &instance.proposer;
    proposer.votes().same(votes) && proposer.own() == own
}
