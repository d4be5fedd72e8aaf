ghost use Rattle.std.specs.Prelude.{◌≡◌};
ghost use Rattle.la_node.specs.declared.error.WorldError.TheVariants.{Memory};

use std::alloc::{AllocError, AllocFailed};
use thiserror::Error;

/// Why a call on a node, or on a world of them, was refused. What it stands for is then as before.
#[derive(Clone, Copy, Debug, PartialEq, Eq, Error)]
pub enum WorldError {
    /// The group has a value out of its range, or votes for another number of replicas; or there are
    /// not as many shelves as replicas, or one of them has absorbed something.
    #[error("not a group that can be played")]
    BadConfig,

    /// The group has no replica with this number.
    #[error("no such replica")]
    NoSuchReplica,

    /// The replica has submitted its cap.
    #[error("the cap is reached")]
    Full,

    /// No message with this number has been sent.
    #[error("no such message")]
    NoSuchMessage,

    /// The group has no adopt-commit object with this number.
    #[error("no such adopt-commit object")]
    NoSuchCommit,

    /// The replica has proposed to this adopt-commit object.
    #[error("already proposed")]
    AlreadyProposed,

    /// No object stands under this number on the replica's shelf.
    #[error("no object has this number")]
    NoSuchObject,

    /// The element has more live tags than a `Remove` may name.
    #[error("more than 64 live tags")]
    TooManyTags,

    /// A growth was refused.
    #[error("out of memory")]
    Memory,
}

impl From<AllocError> for WorldError {
    ghost from_gives = { λ _ e. e ≡ Memory };

    fn from(_refused: AllocError) -> WorldError {
        WorldError::Memory
    }
}

impl<T: Drop> From<AllocFailed<T>> for WorldError {
    ghost from_gives = { λ _ e. e ≡ Memory };

    fn from(_refused: AllocFailed<T>) -> WorldError {
        WorldError::Memory
    }
}
