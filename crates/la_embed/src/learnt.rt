// What of a view was handed on, by counts, and what comes next.
ghost use Rattle.std.specs.Prelude.{◌≡◌, if◌then◌else◌, ◌==◌};
ghost use Rattle.la_set.specs.Counts.{count_in};
ghost use Rattle.la_embed.specs.Learnt.{IsNextId, handed_with};

use la_set::{Counts, REPLICAS, UpdateId, UpdateSet};

/// The id of the update that comes next: of the first replica of which there are more, the first of these.
pub fn next_id(handed: Counts, view: &UpdateSet) -> Option<UpdateId>
    ensures { IsNextId handed view.now result }
{
    for replica in 0..REPLICAS {
        let number = handed.of(replica);
        if number < view.count_of(replica) {
            return Some(UpdateId {
                replica,
                number: number + 1,
            });
        }
    }
    None
}

// How many updates of a replica were handed on, once the one with this id was.
fn count_with(handed: Counts, id: UpdateId, replica: u8) -> u32
    ensures { result ≡ (if replica == id.replica then id.number else count_in handed replica) }
{
    if replica == id.replica {
        id.number
    } else {
        handed.of(replica)
    }
}

/// The counts once the update with this id was handed on too.
#[tactic(auto, unfolding(la_set::specs::Counts::from_counts))]
pub fn handed_with(handed: Counts, id: UpdateId) -> Counts
    ensures { result ≡ handed_with handed id }
{
    let of = |replica| count_with(handed, id, replica);
    Counts::from([of(0), of(1), of(2), of(3), of(4), of(5), of(6), of(7)])
}
