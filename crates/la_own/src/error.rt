ghost use Rattle.std.specs.Prelude.{◌≡◌};
ghost use Rattle.la_own.specs.declared.error.OwnError.TheVariants.{Memory};

use std::alloc::AllocError;
use thiserror::Error;

/// Why an operation was not made.
#[derive(Clone, Copy, Debug, PartialEq, Eq, Error)]
pub enum OwnError {
    /// There are more than [`OWN_BYTES`](crate::OWN_BYTES) bytes.
    #[error("more than 248 bytes")]
    TooLong,

    /// A growth was refused.
    #[error("out of memory")]
    Memory,
}

impl From<AllocError> for OwnError {
    ghost from_gives = { λ _ e. e ≡ Memory };

    fn from(_refused: AllocError) -> OwnError {
        OwnError::Memory
    }
}
