// How far two sets agree.
ghost use Rattle.std.specs.Prelude.{◌≡◌, ◌<◌, min, Some};
ghost use Rattle.la_set.specs.Histories.{count};
ghost use Rattle.la_set.specs.Counts.{count_in};
ghost use Rattle.la_set.specs.AgreeWithin.{AgreeWithin, AgreeTo, IsAgreement};

use crate::delta::has_at;
use crate::history::{first_difference_from, item_at};
use crate::{Counts, REPLICAS, UpdateSet};

impl UpdateSet {
    /// How many updates of each replica the two sets have alike, from the first on: up to one that not
    /// both have, or that differs. They are known to have the same within these counts, and which are
    /// known changes no answer.
    ///
    /// The cost is that of comparing what both have beyond these counts; it is logarithmic where the
    /// first update beyond them differs, so that who goes on from an answer pays once.
    pub fn agreement(&self, other: &UpdateSet, known: Counts) -> Counts
        requires { AgreeWithin known self.now other.now }
        ensures { IsAgreement self.now other.now result }
    {
        let both = self.counts().min(other.counts());
        let mut of = [0; 8];
        for replica in 0..REPLICAS {
            of[replica as usize] = self.agree_to(other, known, both, replica);
        }
        Counts { of }
    }

    // The same of one replica, of which both have so many.
    fn agree_to(&self, other: &UpdateSet, known: Counts, both: Counts, replica: u8) -> u32
        requires replica { replica < REPLICAS }
        requires known { AgreeWithin known self.now other.now }
        requires both { count_in both replica ≡ min (count self.now replica) (count other.now replica) }
        ensures { AgreeTo self.now other.now replica result }
    {
        let known = known.of(replica);
        let both = both.of(replica);
        if both <= known {
            return known;
        }
        let mine = self.history_of(replica);
        let theirs = other.history_of(replica);
        let Some(update) = item_at(theirs, known as usize) else {
            return known;
        };
        if !has_at(mine, known as usize, update) {
            return known;
        }
        match first_difference_from(mine, theirs, known as usize + 1) {
            Some(place) => place as u32,
            None => both,
        }
    }
}
