use crate::Member;
use crate::jobs::{Entries, Stopped};
use la_object::{Replicated, Shelf};
use la_set::Sequence;
use thiserror::Error;

/// What comes back of one member of a run. The member's view is the log's final view.
#[derive(Drop)]
pub struct Log<B: Replicated> {
    /// Which replica the member is.
    pub replica: u8,

    /// The member, as far as it has gone on.
    pub member: Member,

    /// How the member's first jobs were answered, in order.
    pub entries: Entries,

    /// Why the member's jobs ended before the last one, or its shelf has not the final view; `None`
    /// where all jobs are answered and the shelf's view is the final view.
    pub stopped: Option<Stopped>,

    /// How many peers there are of which the member took a note and whose final view its own
    /// contains.
    pub notes: u8,

    /// Of which replicas, by number, the member took a note.
    pub taken: [bool; 8],

    /// The member's shelf.
    pub shelf: Shelf<B>,
}

/// What comes back of a run, in the order of the members.
pub type Logs<B> = Sequence<Log<B>>;

/// Why nothing comes back of a run.
#[derive(Clone, Copy, Debug, Error)]
pub enum RunError {
    /// There are not as many members, shelves and jobs as the group has replicas, or a shelf has
    /// absorbed something.
    #[error("not a group that can run")]
    BadConfig,

    /// A thread could not be started.
    #[error("a thread could not be started")]
    NoThread,

    /// A growth was refused, outside the members' work.
    #[error("out of memory")]
    Memory,
}
