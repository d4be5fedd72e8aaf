// What a participant reads off a set that it has learnt.
ghost use Rattle.std.specs.Prelude.{◌≡◌, slice_get, option_and_then};
ghost use Rattle.la_set.specs.declared.update.Update.{Update};
ghost use Rattle.la_set.specs.Histories.{updates};
ghost use Rattle.la_commit.specs.Votes.{vote_of, own_vote, is_sole, sole_votes};
ghost use Rattle.la_commit.specs.Outcomes.{are_all_sole};

use crate::Vote;
use la_set::{UpdateId, UpdateSet};

/// A participant's own vote in a set: that of its first update, if there is one and it is a vote.
/// The cost is logarithmic. Of a participant of 8 or more no set has a vote.
pub fn own_vote(set: &UpdateSet, participant: u8) -> Option<Vote>
    ensures { result ≡ own_vote set.now participant }
{
    let id = UpdateId {
        replica: participant,
        number: 1,
    };
    match set.get(id) {
        Some(update) => Vote::of(&update.op),
        None => None,
    }
}

// The vote at a place of the set's updates, in the order of ids, if the update there is one.
fn vote_at(set: &UpdateSet, place: usize) -> Option<Vote>
    ensures { result
        ≡ option_and_then (λ (u : Update). vote_of u.op) (slice_get (updates set.now) place) }
{
    match set.at(place) {
        Some(update) => Vote::of(&update.op),
        None => None,
    }
}

// Whether every vote has this value.
pub(crate) fn all_have(set: &UpdateSet, value: u64) -> bool
    ensures { result ≡ is_sole set.now value }
{
    for place in 0..set.len() {
        if let Some(vote) = vote_at(set, place) {
            if vote.value != value {
                return false;
            }
        }
    }
    true
}

// Whether every vote is sole.
pub(crate) fn all_sole(set: &UpdateSet) -> bool
    ensures { result ≡ are_all_sole set.now }
{
    for place in 0..set.len() {
        if let Some(vote) = vote_at(set, place) {
            if !vote.sole {
                return false;
            }
        }
    }
    true
}

// The sole vote of least id, where there is one.
pub(crate) fn first_sole(set: &UpdateSet) -> Option<Vote>
    ensures { result ≡ slice_get (sole_votes set.now) 0 }
{
    for at in 0..set.len() {
        if let Some(vote) = vote_at(set, at) {
            if vote.sole {
                return Some(vote);
            }
        }
    }
    None
}
