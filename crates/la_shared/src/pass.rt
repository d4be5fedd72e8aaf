ghost use Rattle.la_shared.specs.Passes.{IsPass};

use crate::turns::Ticketed;
use la_set::Counts;
use std::marker::Model;

/// What one caller knows of a shared acceptor. A contract sees the acceptor, the pass's number, the
/// history as far as the pass has seen it, and the pass's own entries there. The number is the
/// ticket of its first offer, and stays.
///
/// A pass may go to another thread. It is dropped at no cost; what it has offered stays.
#[derive(Drop)]
pub struct Pass {
    pub(crate) seat: Ticketed,
    // A value of no bytes cannot lie in a row that is indexed.
    pub(crate) acceptor: u8,
    // How many updates its last answered offer had; none before the first.
    pub(crate) offered: Counts,
}

impl Model for Pass {
    ghost use Rattle.la_shared.specs.Bases.{IsOwnOffer};
    ghost use Rattle.la_shared.specs.Passes.{Known};
    ghost use Rattle.la_shared.specs.Seats.{IsAtRest, pass_of};

    ghost Value = { Known };

    ghost view = { λ pass. pass_of pass.seat };

    ghost invariant = { λ pass.
        IsAtRest pass.seat × IsOwnOffer pass.offered pass.seat.me.0.mine };
}

impl Pass {
    /// What is true of every pass: its history is legal, and its own entries are all that have its
    /// number there. A call that costs nothing, for a caller that needs this of a pass at hand.
    pub fn facts(&self)
        ensures { IsPass self.now }
    {
        let _ = &self.seat;
    }
}

/// What a pass had seen, on its way to another pass of the same acceptor.
#[derive(Drop)]
pub struct Note {
    pub(crate) seat: Ticketed,
    pub(crate) acceptor: u8,
}

impl Model for Note {
    ghost use Rattle.la_shared.specs.Passes.{ToldPass};
    ghost use Rattle.la_shared.specs.Seats.{IsAtRest, seat_told};

    ghost Value = { ToldPass };

    ghost view = { λ note. seat_told note.seat };

    ghost invariant = { λ note. IsAtRest note.seat };
}
