ghost use Rattle.std.specs.Prelude.{◌≡◌};
ghost use Rattle.la_object.specs.declared.error.ShelfError.TheVariants.{Memory};
ghost use Rattle.la_object.specs.declared.error.ObserveError.TheVariants.{Memory as ObserveMemory};

use std::alloc::{AllocError, AllocFailed};
use thiserror::Error;

/// Why an object did not say which tags it observes.
#[derive(Clone, Copy, Debug, Error)]
pub enum ObserveError {
    /// The element has more live tags than a `Remove` may name.
    #[error("more than 64 live tags")]
    TooManyTags,

    /// A growth was refused.
    #[error("out of memory")]
    Memory,
}

/// Why a call on a shelf was refused. The shelf is then unchanged.
#[derive(Clone, Copy, Debug, PartialEq, Eq, Error)]
pub enum ShelfError {
    /// An object stands under this number.
    #[error("an object has this number")]
    Taken,

    /// The object is not in its kind's start state.
    #[error("the object is not fresh")]
    NotFresh,

    /// No object stands under this number.
    #[error("no object has this number")]
    NoSuchObject,

    /// The element has more live tags than a `Remove` may name.
    #[error("more than 64 live tags")]
    TooManyTags,

    /// A growth was refused.
    #[error("out of memory")]
    Memory,
}

/// Why a set was not absorbed.
#[derive(Clone, Copy, Debug, PartialEq, Eq, Error)]
pub enum AbsorbError {
    /// The set does not contain the shelf's view. The shelf is unchanged.
    #[error("the set does not contain the view")]
    Smaller,

    /// A growth was refused. The first so many of the new updates are absorbed, in the order of
    /// ids.
    #[error("out of memory after {done} updates")]
    Memory { done: u64 },
}

impl From<AllocError> for ObserveError {
    ghost from_gives = { λ _ e. e ≡ ObserveMemory };

    fn from(_refused: AllocError) -> ObserveError {
        ObserveError::Memory
    }
}

impl From<AllocError> for ShelfError {
    ghost from_gives = { λ _ e. e ≡ Memory };

    fn from(_refused: AllocError) -> ShelfError {
        ShelfError::Memory
    }
}

impl<T: Drop> From<AllocFailed<T>> for ShelfError {
    ghost from_gives = { λ _ e. e ≡ Memory };

    fn from(_refused: AllocFailed<T>) -> ShelfError {
        ShelfError::Memory
    }
}
