// Counts in 24 bytes.
ghost use Rattle.std.specs.Prelude.{◌≡◌, ℕ, ◌+◌, ◌*◌, ◌^◌, ◌<◌, ◌≤◌};
ghost use Rattle.la_set.specs.Counts.{count_in, zero_counts};
ghost use Rattle.la_set.specs.Short.{low_part, high_part};

use crate::Counts;
use std::marker::Model;

// How many updates of each replica there are, where that is less than 2^24: the lower 16 bits of
// each number, and its upper 8.
#[derive(Drop)]
pub(crate) struct ShortCounts {
    low: [u16; 8],
    high: [u8; 8],
}

impl Model for ShortCounts {
    ghost use Rattle.la_set.specs.declared.counts.Counts.{Counts};
    ghost use Rattle.la_set.specs.Short.{counts_by};

    ghost Value = { Counts };

    ghost view = { λ c. counts_by c.low c.high };
}

impl ShortCounts {
    // None of any replica.
    pub(crate) fn zero() -> ShortCounts
        ensures { result ≡ zero_counts }
    {
        ShortCounts {
            low: [0; 8],
            high: [0; 8],
        }
    }

    // The counts, none of which has more than 24 bits.
    pub(crate) fn of(counts: Counts) -> ShortCounts
        requires { (r : ℕ) → count_in counts r < 2 ^ 24 }
        ensures { result ≡ counts }
    {
        ShortCounts {
            low: [
                low_of(counts.of(0)),
                low_of(counts.of(1)),
                low_of(counts.of(2)),
                low_of(counts.of(3)),
                low_of(counts.of(4)),
                low_of(counts.of(5)),
                low_of(counts.of(6)),
                low_of(counts.of(7)),
            ],
            high: [
                high_of(counts.of(0)),
                high_of(counts.of(1)),
                high_of(counts.of(2)),
                high_of(counts.of(3)),
                high_of(counts.of(4)),
                high_of(counts.of(5)),
                high_of(counts.of(6)),
                high_of(counts.of(7)),
            ],
        }
    }

    // The same in full.
    #[inline(always)]
    pub(crate) fn counts(&self) -> Counts
        ensures { result ≡ self.now }
    {
        let ShortCounts { low, high } = self;
        Counts {
            of: [
                joined(low[0], high[0]),
                joined(low[1], high[1]),
                joined(low[2], high[2]),
                joined(low[3], high[3]),
                joined(low[4], high[4]),
                joined(low[5], high[5]),
                joined(low[6], high[6]),
                joined(low[7], high[7]),
            ],
        }
    }
}

fn low_of(count: u32) -> u16
    ensures { result ≡ low_part count }
{
    (count % 65536) as u16
}

fn high_of(count: u32) -> u8
    requires { count < 2 ^ 24 }
    ensures { result ≡ high_part count }
{
    (count / 65536) as u8
}

fn joined(low: u16, high: u8) -> u32
    ensures { result ≡ low + 65536 * high }
{
    u32::from(low) + 65536 * u32::from(high)
}
