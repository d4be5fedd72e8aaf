ghost use Rattle.std.specs.Prelude.{◌≡◌};
ghost use Rattle.la_set.specs.Counts.{zero_counts};
ghost use Rattle.la_replica.specs.Progress.{larger, further_on};

use la_set::Counts;

/// How far a replica is in instance 0, by counts. While it keeps its state they only grow: so what it had some
/// time ago it still has.
#[derive(Clone, Copy)]
pub struct Progress {
    /// How many updates of each replica its acceptor has accepted.
    pub accepted: Counts,
    /// How many of each its view has.
    pub view: Counts,
}

impl Progress {
    /// That of a replica with no update at all, or of which nothing is known.
    pub fn none() -> Progress
        ensures { result ≡ record { accepted = zero_counts; view = zero_counts } }
    {
        Progress {
            accepted: Counts::zero(),
            view: Counts::zero(),
        }
    }

    /// Of each replica's updates the larger of the two numbers, accepted and in view: what is known of a
    /// replica by two of its messages, whichever was sent first.
    pub fn max(self, other: Progress) -> Progress
        ensures { result ≡ further_on self other }
    {
        Progress {
            accepted: self.accepted.max(other.accepted),
            view: self.view.max(other.view),
        }
    }
}
