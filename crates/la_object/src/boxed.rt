// A box of any object is an object: each call goes to the object inside.
ghost use Rattle.std.specs.Prelude.{◌≡◌};

use crate::{Answer, Kind, ObserveError, Query, Replicated, State};
use la_set::{Tags, Update};
use std::alloc::AllocError;

impl Replicated for Box<dyn Replicated + Send> {
    ghost state = { λ b. (Replicated-box b).state b.value };

    fn kind(&self) -> Kind {
        (**self).kind()
    }

    fn fresh(&self) -> bool {
        (**self).fresh()
    }

    fn has_room(&self) -> bool {
        (**self).has_room()
    }

    fn absorb(&mut self, update: &Update) -> Result<(), AllocError> {
        (**self).absorb(update)
    }

    fn ask(&self, query: &Query) -> Result<Answer, AllocError> {
        (**self).ask(query)
    }

    fn observed(&self, element: u64) -> Result<Tags, ObserveError> {
        (**self).observed(element)
    }

    fn state(&self) -> Result<State, AllocError> {
        (**self).state()
    }
}
