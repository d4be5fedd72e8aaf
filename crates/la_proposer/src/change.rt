ghost use Rattle.std.specs.Prelude.{◌≡◌};
ghost use Rattle.la_proposer.specs.ProposerState.{told_by};
ghost use Rattle.la_proposer.specs.Changes.{told_in};

use crate::Ballot;
use crate::tally::Counted;
use la_acceptor::Reply;
use la_set::{Counts, UpdateSet};

/// What a prepared step is to change in the proposer that it was prepared from.
#[derive(Drop)]
pub enum Change {
    /// The step changes nothing.
    Nothing,
    /// One more submission waits. The set has all of the proposer's own submissions now.
    Holds(UpdateSet),
    /// A submission opens this ballot. The set has all of the proposer's own submissions now.
    Submits(Ballot, UpdateSet),
    /// This reply counts, and the ballot stays open.
    Counts(Counted),
    /// A reply that tells this ends the open ballot, and this ballot opens in its place.
    Opens(Ballot, Told),
    /// A reply that tells this ends the open ballot, and none opens.
    Closes(Told),
}

/// What a reply tells of its acceptor.
#[derive(Clone, Copy)]
pub struct Told {
    pub from: u8,
    /// How many updates of each replica the acceptor has accepted: so many, or more.
    pub counts: Counts,
}

impl Change {
    // What the reply tells that is counted by it, to a ballot with these updates, if one is.
    pub(crate) fn told(&self, updates: &UpdateSet) -> Option<Told>
        ensures { result ≡ told_in updates.now self.now }
    {
        match self {
            Change::Counts(counted) => Some(Told::by(counted.from, updates, &counted.reply)),
            Change::Opens(_, told) | Change::Closes(told) => Some(*told),
            Change::Nothing | Change::Holds(_) | Change::Submits(..) => None,
        }
    }
}

impl Told {
    // What a reply of this acceptor tells, to a ballot with these updates.
    pub(crate) fn by(from: u8, updates: &UpdateSet, reply: &Reply) -> Told
        ensures { result ≡ record { from = from; counts = told_by updates.now reply.now } }
    {
        let set = match reply {
            Reply::Yes => updates,
            Reply::No(refused) => refused,
        };
        Told {
            from,
            counts: set.counts(),
        }
    }
}
