ghost use Rattle.std.specs.Prelude.{◌≡◌, IfErr, OnOk, OnErr};
ghost use Rattle.la_object.specs.Objects.{after, HasRoom};
ghost use Rattle.la_closed.specs.Refusals.{IsClosedRefusal};

use la_object::{Answer, Kind, Query, Replicated, State};
use la_set::Update;
use la_shelf::{Absorbs, Refusal};
use std::alloc::AllocError;

/// An object of one of the closed kinds, as one of one's own: it stands on a
/// [`Shelf`](la_shelf::Shelf), alone or, as one of an [`Either`](la_shelf::Either), beside objects
/// of other types.
///
/// It is asked and answers as it does on a [closed shelf](la_object::Shelf), by the same definition.
/// An update is refused as [`Full`](Refusal::Full) exactly where the object has no room: where one of
/// a counter's sums is above 2^62, which is more than the updates of a view come to. An open shelf
/// does not tell which tags an object observes, so that an observed-remove set from which elements
/// are removed belongs on a closed one.
#[derive(Drop)]
pub struct Closed<T: Replicated> {
    object: T,
}

impl<T: Replicated> Closed<T> {
    /// The object, as one of one's own. It takes no memory.
    pub fn new(object: T) -> Closed<T>
        ensures { result.object ≡ object }
    {
        Closed { object }
    }
}

impl<T: Replicated> Absorbs for Closed<T> {
    ghost use Rattle.la_object.specs.Objects.{meaning};
    ghost use Rattle.la_object.proofs.lemmas.Lawful.{lawful};

    type Kind = Kind;

    type State = State;

    type Query = Query;

    type Answer = Answer;

    ghost state = { λ c. T.state c.object };

    ghost meaning = { meaning };

    ghost full = { λ state _. ¬ HasRoom state };

    fn fresh(&self) -> bool {
        self.object.fresh()
    }

    fn absorb(&mut self, update: &Update) -> Result<(), Refusal>
        ensures ok { OnOk result (T.state self.new.object ≡ after (T.state self.old.object) update.now) }
        ensures room { OnOk result (HasRoom (T.state self.old.object)) }
        ensures error { IfErr result (IsClosedRefusal (T.state self.old.object)) }
        ensures err { OnErr result (T.state self.new.object ≡ T.state self.old.object) }
    {
        if !self.object.has_room() {
            return Err(Refusal::Full);
        }
        match self.object.absorb(update) {
            Ok(()) => Ok(()),
            Err(_) => Err(Refusal::Memory),
        }
    }

    fn ask(&self, query: &Query) -> Result<Answer, AllocError> {
        self.object.ask(query)
    }

    fn state(&self) -> Result<State, AllocError> {
        self.object.state()
    }

    ghost lawful = { lawful };
}
