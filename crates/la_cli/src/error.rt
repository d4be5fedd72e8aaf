ghost use Rattle.std.specs.Prelude.{◌≡◌, Some};
ghost use Rattle.la_cli.specs.Faults.{of_input, of_script};
ghost use Rattle.la_cli.specs.Texts.{fault_text};
ghost use Rattle.la_cli.specs.declared.error.PlayFault.TheVariants.{Memory};

use crate::telling::text_of;
use la_io::InputFault;
use la_script::{ReadError, ScriptFault};
use std::alloc::AllocError;
use std::fmt;
use thiserror::Error;

/// Why a script or drawn events were not played to a writer, or no logs were printed. It is shown as the program tells it.
#[derive(Clone, Copy, Debug, PartialEq, Eq, Error)]
pub enum PlayFault {
    /// The bytes are no script: the first faulty line, and what is wrong with it. Nothing was
    /// written.
    Script(ScriptFault),

    /// A read failed, or was interrupted. Nothing was written.
    ReadFault,

    /// There are more than 16,777,216 bytes. Nothing was written.
    TooLong,

    /// There are not eight shelves, or one of them has absorbed something. Nothing was read or
    /// written.
    BadConfig,

    /// A write or the flush failed, or a write took no byte. The first bytes of the report's text
    /// were written, perhaps none, perhaps all.
    WriteFault,

    /// A thread could not be started. Nothing was written.
    NoThread,

    /// A growth was refused. Nothing was written.
    Memory,
}

// By hand: of what a derive writes no contract says the text.
impl fmt::Display for PlayFault {
    ghost output = { λ fault. Some (fault_text fault) };

    fn fmt<W: fmt::Write>(&self, f: &mut fmt::Formatter<W>) -> fmt::Result {
        f.write_str(text_of(*self).as_str())
    }
}

impl From<InputFault> for PlayFault {
    ghost from_gives = { λ e f. f ≡ of_input e };

    fn from(fault: InputFault) -> PlayFault {
        match fault {
            InputFault::ReadFault => PlayFault::ReadFault,
            InputFault::TooLong => PlayFault::TooLong,
            InputFault::Memory => PlayFault::Memory,
        }
    }
}

impl From<ReadError> for PlayFault {
    ghost from_gives = { λ e f. f ≡ of_script e };

    fn from(error: ReadError) -> PlayFault {
        match error {
            ReadError::Fault(fault) => PlayFault::Script(fault),
            ReadError::Memory => PlayFault::Memory,
        }
    }
}

impl From<AllocError> for PlayFault {
    ghost from_gives = { λ _ f. f ≡ Memory };

    fn from(_refused: AllocError) -> PlayFault {
        PlayFault::Memory
    }
}
