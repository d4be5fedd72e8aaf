ghost use Rattle.std.specs.Prelude.{◌≡◌};

use crate::{Absorbs, Refusal};
use la_set::Update;
use std::alloc::AllocError;

/// One of two: of two types of objects, so that a shelf has both, and likewise of their kinds,
/// states, questions and answers.
///
/// An object of either type is asked in the type's own words. A question of the other type has no
/// answer, `None`, and takes no memory. An `Either` of an `Either` is one of three.
#[derive(Drop)]
pub enum Either<A, B> {
    /// Of the first type.
    First(A),
    /// Of the second type.
    Second(B),
}

impl<A: Absorbs, B: Absorbs> Absorbs for Either<A, B> {
    ghost use Rattle.la_shelf.specs.Eithers.{either_state, either_meaning, either_full};
    ghost use Rattle.la_shelf.specs.EitherLaws.{either_lawful};

    type Kind = Either<A::Kind, B::Kind>;

    type State = Either<A::State, B::State>;

    type Query = Either<A::Query, B::Query>;

    type Answer = Option<Either<A::Answer, B::Answer>>;

    ghost state = { either_state A.state B.state };

    ghost meaning = { either_meaning A.meaning B.meaning };

    ghost full = { either_full A.full B.full };

    fn fresh(&self) -> bool {
        match self {
            Either::First(object) => object.fresh(),
            Either::Second(object) => object.fresh(),
        }
    }

    fn absorb(&mut self, update: &Update) -> Result<(), Refusal> {
        match self {
            Either::First(object) => object.absorb(update),
            Either::Second(object) => object.absorb(update),
        }
    }

    fn ask(
        &self,
        query: &Either<A::Query, B::Query>,
    ) -> Result<Option<Either<A::Answer, B::Answer>>, AllocError> {
        match (self, query) {
            (Either::First(object), Either::First(query)) => {
                Ok(Some(Either::First(object.ask(query)?)))
            }
            (Either::Second(object), Either::Second(query)) => {
                Ok(Some(Either::Second(object.ask(query)?)))
            }
            _ => Ok(None),
        }
    }

    fn state(&self) -> Result<Either<A::State, B::State>, AllocError> {
        match self {
            Either::First(object) => Ok(Either::First(object.state()?)),
            Either::Second(object) => Ok(Either::Second(object.state()?)),
        }
    }

    ghost lawful = { either_lawful A.meaning B.meaning A.lawful B.lawful };
}
