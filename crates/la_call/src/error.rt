ghost use Rattle.std.specs.Prelude.{◌≡◌};
ghost use Rattle.la_call.specs.declared.error.CallFault.TheVariants.{WriteFault};
ghost use Rattle.la_call.specs.Faults.{of_source_fault};

use la_io::{SourceFault, WriteFailed};
use thiserror::Error;

/// Why a call ends without an answer. It is shown as the program tells it.
#[derive(Clone, Copy, Debug, Error)]
pub enum CallFault {
    /// A read failed, or was interrupted, or what is to be read was not opened.
    #[error("ReadFault")]
    ReadFault,

    /// A write failed, or took no byte, or what is to be written was not opened.
    #[error("WriteFault")]
    WriteFault,

    /// A growth was refused.
    #[error("Memory")]
    Memory,

    /// The words are no request, or the name is none.
    #[error("BadConfig")]
    BadConfig,

    /// The input ended, or the waiting did.
    #[error("NoAnswer")]
    NoAnswer,
}

impl From<SourceFault> for CallFault {
    ghost from_gives = { λ fault e. e ≡ of_source_fault fault };

    fn from(fault: SourceFault) -> CallFault {
        match fault {
            SourceFault::ReadFault => CallFault::ReadFault,
            SourceFault::Memory => CallFault::Memory,
        }
    }
}

impl From<WriteFailed> for CallFault {
    ghost from_gives = { λ _ e. e ≡ WriteFault };

    fn from(_failed: WriteFailed) -> CallFault {
        CallFault::WriteFault
    }
}
