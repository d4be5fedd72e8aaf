ghost use Rattle.std.specs.Prelude.{◌≡◌, [], Ok, IsOk, OnOk};
ghost use Rattle.la_object.specs.declared.kind.Kind.TheVariants.{MaxRegister as RegisterKind};
ghost use Rattle.la_object.specs.declared.state.State.TheVariants.{Max};
ghost use Rattle.la_object.specs.Objects.{start, after, reply};

use crate::{Answer, Kind, ObserveError, Query, Replicated, State};
use la_set::{Op, Tags, Update};
use std::alloc::{AllocError, Global};

/// A max register: the largest value that it was raised to. No call takes memory, so each
/// succeeds; and each has constant cost.
#[derive(Drop)]
pub struct MaxRegister {
    alloc: Global,
    largest: u64,
}

impl MaxRegister {
    /// A max register that has absorbed nothing, which takes no memory.
    pub fn new(alloc: Global) -> MaxRegister
        ensures { Max result.largest ≡ start RegisterKind }
    {
        MaxRegister { alloc, largest: 0 }
    }
}

impl Replicated for MaxRegister {
    ghost use Rattle.la_object.specs.declared.state.State.TheVariants.{Max};

    ghost state = { λ r. Max r.largest };

    fn kind(&self) -> Kind {
        Kind::MaxRegister
    }

    fn fresh(&self) -> bool {
        self.largest == 0
    }

    fn has_room(&self) -> bool {
        true
    }

    fn absorb(&mut self, update: &Update) -> Result<(), AllocError>
        ensures room { IsOk result }
        ensures ok { OnOk result (Max self.new.largest ≡ after (Max self.old.largest) update.now) }
    {
        if let Op::Raise(to) = &update.op {
            self.largest = self.largest.max(*to);
        }
        Ok(())
    }

    fn ask(&self, query: &Query) -> Result<Answer, AllocError>
        ensures { result ≡ Ok (reply (Max self.now.largest) query.now) }
    {
        Ok(match query {
            Query::Largest => Answer::Largest(self.largest),
            _ => Answer::Foreign,
        })
    }

    fn observed(&self, _element: u64) -> Result<Tags, ObserveError>
        ensures { result ≡ Ok [] }
    {
        Ok(Tags::new(self.alloc))
    }

    fn state(&self) -> Result<State, AllocError>
        ensures { result ≡ Ok (Max self.now.largest) }
    {
        Ok(State::Max {
            largest: self.largest,
        })
    }
}
