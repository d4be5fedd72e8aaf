// What can happen to a file.

/// What was done to a file.
#[derive(Drop)]
pub(crate) enum Happened {
    /// Bytes were put behind the others.
    Appended,

    /// The bytes that were there are on the disk.
    Synced,

    /// Other bytes stand there, all of them on the disk.
    Replaced,

    /// A process found bytes.
    Found,

    /// A call of the disk failed.
    Failed,
}
