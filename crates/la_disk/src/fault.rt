// Why a folder is not opened.
ghost use Rattle.std.specs.Prelude.{◌≡◌};
ghost use Rattle.la_disk.specs.Opening.{of_opening, of_reading, of_locking};
ghost use Rattle.la_disk.specs.declared.fault.OpenFault.TheVariants.{Memory};

use std::alloc::AllocError;
use std::fs::TryLockError;
use std::io::ErrorKind;
use thiserror::Error;

/// Why a folder was not taken, or its journal not opened or made. Whichever it is, this process has no lock of it,
/// and no byte that the journal had is gone; `lock` may have been made.
#[derive(Clone, Copy, Debug, PartialEq, Eq, Error)]
pub enum OpenFault {
    /// Another process has the folder.
    #[error("another process has the folder")]
    Locked,

    /// There is no journal in the folder, which is not to be started from nothing: whatever else is there, it may be that
    /// its disk is not mounted.
    #[error("there is no journal")]
    Missing,

    /// There is a journal in the folder already, which is as it was.
    #[error("there is a journal")]
    There,

    /// The folder, or a file in it, can't be opened, for what the system says: `NotFound` of a folder that
    /// is none, `InvalidInput` of one without a name. `IsADirectory`, `FilesystemLoop` and `Unsupported` come too where a folder, a link, or a
    /// pipe, a socket or a device stands under the name of a file.
    #[error("not opened: {0}")]
    Unopened(ErrorKind),

    /// A read of the journal failed.
    #[error("the journal can't be read")]
    Unread,

    /// A growth was refused.
    #[error("out of memory")]
    Memory,
}

impl From<AllocError> for OpenFault {
    ghost from_gives = { λ _ e. e ≡ Memory };

    fn from(_refused: AllocError) -> OpenFault {
        OpenFault::Memory
    }
}

impl OpenFault {
    // Where a name was looked at, or a file opened.
    pub(crate) fn of_opening(kind: ErrorKind) -> OpenFault
        ensures { result ≡ of_opening kind }
    {
        match kind {
            ErrorKind::OutOfMemory => OpenFault::Memory,
            _ => OpenFault::Unopened(kind),
        }
    }

    // Where the journal was read.
    pub(crate) fn of_reading(kind: ErrorKind) -> OpenFault
        ensures { result ≡ of_reading kind }
    {
        match kind {
            ErrorKind::OutOfMemory => OpenFault::Memory,
            _ => OpenFault::Unread,
        }
    }

    // Where the lock was asked for.
    pub(crate) fn of_locking(refusal: TryLockError) -> OpenFault
        ensures { result ≡ of_locking refusal }
    {
        match refusal {
            TryLockError::WouldBlock => OpenFault::Locked,
            TryLockError::Error(error) => OpenFault::of_opening(error.kind()),
        }
    }
}
