ghost use Rattle.std.specs.Prelude.{◌≡◌, ◌<◌, ◌==◌, ◌++◌, ℕ, length, max, min, slice_index_or, if◌then◌else◌};
ghost use Rattle.la_set.specs.Counts.{count_in, from_counts, zero_counts};

use crate::REPLICAS;

/// How many updates of each replica there are, apart from the updates. They are made of a set, by
/// [`UpdateSet::counts`], or of eight numbers, as a transport has them.
///
/// [`UpdateSet::counts`]: crate::UpdateSet::counts
#[derive(Clone, Copy, PartialEq, Eq)]
pub struct Counts {
    pub(crate) of: [u32; 8],
}

impl Counts {
    /// The counts of the empty set: no update of any replica.
    pub fn zero() -> Counts
        ensures { result ≡ zero_counts }
    {
        Counts { of: [0; 8] }
    }

    /// How many updates of this replica there are: none of a replica of 8 or more.
    pub fn of(&self, replica: u8) -> u32
        ensures { result ≡ count_in self.now replica }
    {
        if replica >= REPLICAS {
            return 0;
        }
        self.of[replica as usize]
    }

    // Those of replicas 0 to 3, and those of replicas 4 to 7.
    pub(crate) fn of_fours(low: [u32; 4], high: [u32; 4]) -> Counts
        ensures { result.of ≡ low ++ high }
    {
        Counts {
            of: [
                low[0], low[1], low[2], low[3], high[0], high[1], high[2], high[3],
            ],
        }
    }

    // The eight numbers.
    pub(crate) fn numbers(&self) -> [u32; 8]
        ensures eight { length result ≡ REPLICAS }
        ensures each { (r : ℕ) → r < REPLICAS → slice_index_or result r 0 ≡ count_in self.now r }
    {
        self.of
    }

    // The same, but at most so many of a replica.
    pub(crate) fn capped(self, replica: u8, most: u32) -> Counts
        ensures { result ≡ from_counts (λ r.
            if r == replica then min (count_in self r) most else count_in self r) }
    {
        if replica >= REPLICAS {
            return self;
        }
        let mut of = self.of;
        let at = replica as usize;
        of[at] = of[at].min(most);
        Counts { of }
    }

    /// The counts that have of each replica the smaller of the two numbers.
    pub fn min(self, other: Counts) -> Counts
        ensures { result ≡ from_counts (λ r. min (count_in self r) (count_in other r)) }
    {
        Counts {
            of: [
                self.of(0).min(other.of(0)),
                self.of(1).min(other.of(1)),
                self.of(2).min(other.of(2)),
                self.of(3).min(other.of(3)),
                self.of(4).min(other.of(4)),
                self.of(5).min(other.of(5)),
                self.of(6).min(other.of(6)),
                self.of(7).min(other.of(7)),
            ],
        }
    }

    /// The counts that have of each replica the larger of the two numbers.
    pub fn max(self, other: Counts) -> Counts
        ensures { result ≡ from_counts (λ r. max (count_in self r) (count_in other r)) }
    {
        Counts {
            of: [
                self.of(0).max(other.of(0)),
                self.of(1).max(other.of(1)),
                self.of(2).max(other.of(2)),
                self.of(3).max(other.of(3)),
                self.of(4).max(other.of(4)),
                self.of(5).max(other.of(5)),
                self.of(6).max(other.of(6)),
                self.of(7).max(other.of(7)),
            ],
        }
    }
}

/// The counts with these numbers: that of a replica stands at the replica's place.
impl From<[u32; 8]> for Counts {
    ghost use Rattle.std.specs.Prelude.{slice_index_or};
    ghost use Rattle.la_set.specs.Counts.{from_counts};

    ghost from_gives = { λ numbers counts.
        counts ≡ from_counts (λ r. slice_index_or numbers r 0) };

    fn from(numbers: [u32; 8]) -> Counts {
        Counts { of: numbers }
    }
}
