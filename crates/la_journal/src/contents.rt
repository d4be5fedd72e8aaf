// The type alone: what its calls cite names it.
ghost use Rattle.std.specs.Prelude.{◌<◌, length};
ghost use Rattle.la_journal.specs.Note.{now_of};

use crate::record::Record;

/// The contents of a file that is written through one value, for whoever implements
/// [`Disk`](crate::Disk): its bytes, how many of them are on the disk, what a crash might have left at each
/// moment, and what was cut off and set aside. All of that is noted for clauses alone, and takes no memory.
#[derive(Drop)]
pub struct Contents {
    pub(crate) past: Record,
    pub(crate) failures: Record,
    pub(crate) cut: Record,
    // What the file has is noted, be it no byte.
    ghost there: { 0 < length (now_of past.events) },
}
