ghost use Rattle.std.specs.Prelude.{◌≡◌};
ghost use Rattle.la_wire.specs.declared.error.LineError.TheVariants.{Fault, Memory};

use std::alloc::{AllocError, AllocFailed};
use thiserror::Error;

/// What is wrong with a line.
#[derive(Clone, Copy, Debug, PartialEq, Eq, Error)]
pub enum LineFault {
    /// It has more bytes than [`la_io::limit_of`] says.
    #[error("TooLong")]
    TooLong,

    /// It has no form: a word that is to be one of the known is none, or there is a word too few or too
    /// many, as where spaces do not part words one by one.
    #[error("BadLine")]
    BadLine,

    /// A number is not canonical or is out of its range, or an id is none.
    #[error("BadNumber")]
    BadNumber,
}

/// Why a line was not read.
#[derive(Clone, Copy, Debug, PartialEq, Eq, Error)]
pub enum LineError {
    /// The line has this fault.
    #[error("{0}")]
    Fault(LineFault),

    /// A growth was refused.
    #[error("out of memory")]
    Memory,
}

impl From<LineFault> for LineError {
    ghost from_gives = { λ fault e. e ≡ Fault fault };

    fn from(fault: LineFault) -> LineError {
        LineError::Fault(fault)
    }
}

impl From<AllocError> for LineError {
    ghost from_gives = { λ _ e. e ≡ Memory };

    fn from(_refused: AllocError) -> LineError {
        LineError::Memory
    }
}

impl<T: Drop> From<AllocFailed<T>> for LineError {
    ghost from_gives = { λ _ e. e ≡ Memory };

    fn from(_refused: AllocFailed<T>) -> LineError {
        LineError::Memory
    }
}
