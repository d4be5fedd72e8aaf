// Where a node writes.
ghost use Rattle.std.specs.Prelude.{◌≡◌, [], OnOk, OnErr};
ghost use Rattle.la_io.specs.Streams.{Writes, WritesPrefix};
ghost use Rattle.la_serve.specs.Giving.{gives};

use la_io::{WriteFailed, write_lines};
use la_journal::{Disk, GivenOut};
use std::io::Write;

/// Where a node writes what its lines come to. It is shown the journal's disk at each text: what it was given stands in
/// `given`, with the disk's moment then, for clauses alone. It takes no memory.
#[derive(Drop)]
pub struct Output<W: Drop> {
    pub writer: W,
    pub given: GivenOut,
}

impl<W: Write + Drop> Output<W> {
    /// A writer that was given nothing yet.
    pub fn new(writer: W) -> Output<W>
        ensures writer { result.writer ≡ writer }
        ensures given { result.given.texts ≡ [] }
    {
        Output {
            writer,
            given: GivenOut::nothing(),
        }
    }

    /// Writes lines, as [`write_lines`] does. Where a write fails a front of them is written, and they count as given.
    pub(crate) fn give<D: Disk>(&mut self, disk: &D, text: &[u8]) -> Result<(), WriteFailed>
        ensures ok { OnOk result (Writes W.contents self.old.writer self.new.writer text.now) }
        ensures err { OnErr result (WritesPrefix W.contents self.old.writer self.new.writer text.now) }
        ensures given { self.new.given.texts ≡ gives D.moment disk.now text.now self.old.given.texts }
    {
        self.given = self.given.with(disk.past(), text);
        write_lines(&mut self.writer, text)
    }
}
