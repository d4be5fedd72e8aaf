ghost use Rattle.std.specs.Prelude.{◌≡◌};
ghost use Rattle.la_serve.specs.declared.error.NodeFault.TheVariants.{WriteFault};
ghost use Rattle.la_serve.specs.Faults.{of_source};

use la_io::{SourceFault, WriteFailed};
use thiserror::Error;

/// Why a node ended before its input did. It is shown as the program tells it.
#[derive(Clone, Copy, Debug, Error)]
pub enum NodeFault {
    /// A read failed, or was interrupted.
    #[error("ReadFault")]
    ReadFault,

    /// A write failed, or took no byte.
    #[error("WriteFault")]
    WriteFault,

    /// A growth was refused.
    #[error("Memory")]
    Memory,

    /// The options are not those of a node: its number or its votes do not fit the group. Of words,
    /// [`Unfit`](crate::Unfit) says which.
    #[error("BadConfig")]
    BadConfig,

    /// There is no journal in the folder: a node makes none.
    #[error("NoJournal")]
    NoJournal,

    /// There is one where one was to be made.
    #[error("JournalThere")]
    JournalThere,

    /// Another process has the journal's folder.
    #[error("Locked")]
    Locked,

    /// The journal can't be played from this line on, counted from 1, the head and records too.
    #[error("BadJournal: line {0}")]
    BadJournal(usize),

    /// The journal is that of a node with other options, of which this is the first.
    #[error("OtherOptions: {0}")]
    OtherOptions(NodeOption),

    /// The disk failed.
    #[error("DiskFault")]
    DiskFault,

    /// The disk failed at a start, which writes the journal anew and so needs this many bytes, at most.
    #[error("DiskFault: needs {0} bytes")]
    StartFault(usize),
}

/// What a journal's head says of a node, in its order.
#[derive(Clone, Copy, Debug, Error)]
pub enum NodeOption {
    /// The journal's form, and its version.
    #[error("version")]
    Version,

    /// Its number in the group.
    #[error("own")]
    Own,

    /// How many replicas the group has.
    #[error("replicas")]
    Replicas,

    /// Their votes.
    #[error("votes")]
    Votes,

    /// How many adopt-commit objects the group has.
    #[error("commits")]
    Commits,

    /// How many updates a replica may submit.
    #[error("cap")]
    Cap,
}

impl From<SourceFault> for NodeFault {
    ghost from_gives = { λ fault e. e ≡ of_source fault };

    fn from(fault: SourceFault) -> NodeFault {
        match fault {
            SourceFault::ReadFault => NodeFault::ReadFault,
            SourceFault::Memory => NodeFault::Memory,
        }
    }
}

impl From<WriteFailed> for NodeFault {
    ghost from_gives = { λ _ e. e ≡ WriteFault };

    fn from(_failed: WriteFailed) -> NodeFault {
        NodeFault::WriteFault
    }
}
