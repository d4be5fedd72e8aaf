// A journal that grew, with a state in its place.
ghost use Rattle.std.specs.Prelude.{◌≡◌, [], ◌+◌, ◌≤◌, length, vec_capacity, false, true, Some, is_some, IfSome, IfOk, IfErr, OnOk, OnErr};
ghost use Rattle.la_journal.specs.Disk.{LeavesOnly};
ghost use Rattle.la_journal.specs.Machine.{state_after, LeadsToSome, SaysState};
ghost use Rattle.la_journal.specs.Durable.{IsSettled, IsNotCompacted};
ghost use Rattle.la_journal.specs.Commits.{with_record};
ghost use Rattle.la_journal.specs.Records.{record_line};
ghost use Rattle.la_journal.specs.Snapshots.{IsSnapshot, IsCompacted, seals, seal_link};

use crate::records::{DIGITS, ROOM, digest, new_file, put_record};
use crate::{Disk, DiskFault, Durable, Snapshot};
use std::alloc::{AllocError, Global};
use thiserror::Error;

/// Why a journal was not compacted. The machine is as it was.
#[derive(Clone, Copy, Debug, PartialEq, Eq, Error)]
pub enum Uncompacted {
    /// A growth was refused. The journal is as it was.
    #[error("out of memory")]
    Memory,

    /// No text says the machine's state. Nothing has changed.
    #[error("no text of the state")]
    Unsaid,

    /// The disk failed. Nothing more is taken: the file is the one of before or the new one, and which is
    /// not known, so nothing may be put behind it. It has to be recovered anew: both lead to one state.
    #[error("the disk failed")]
    Disk,

    /// The disk failed earlier. Nothing has changed.
    #[error("the disk failed earlier")]
    Closed,
}

impl<M: Snapshot, D: Disk> Durable<M, D> {
    /// Puts one line that says the machine's state in the place of the whole journal, at once and on the
    /// disk; what is taken later stands behind it. Linear in that line; the next recovery reads it, and not
    /// what it stands for. Two records of no lines stand behind it, so that damage to it is told, and is not taken
    /// for what a crash left of a last group.
    pub fn compact(&mut self, alloc: Global) -> Result<(), Uncompacted>
        requires { self.old.closed ≡ false → IsSettled D.seen D.may_leave self.old.disk }
        ensures compacted { OnOk result ((self.new.closed ≡ false)
            × SaysState M.named_state (M.state self.old.machine) (D.seen self.new.disk)) }
        ensures written { OnOk result (M.writes self.old.machine ≡ true) }
        ensures machine { self.new.machine ≡ self.old.machine }
        ensures leads { self.new.closed ≡ false → (start : M.State)
            → state_after M.head M.named_state M.named M.step start (D.seen self.old.disk) ≡ Some (M.state self.old.machine)
            → state_after M.head M.named_state M.named M.step start (D.seen self.new.disk) ≡ Some (M.state self.new.machine) }

        // A crash at any moment leaves a file that leads to the same state.
        ensures any_moment { self.old.closed ≡ false → (start : M.State)
            → state_after M.head M.named_state M.named M.step start (D.seen self.old.disk) ≡ Some (M.state self.old.machine)
            → LeavesOnly D.moment D.left_since self.old.disk self.new.disk
            (LeadsToSome (state_after M.head M.named_state M.named M.step start) M.step [] (M.state self.old.machine)) }

        ensures open { self.new.closed ≡ false → IsSettled D.seen D.may_leave self.new.disk }
        ensures same { OnErr result (self.new.closed ≡ false → D.seen self.new.disk ≡ D.seen self.old.disk) }
        ensures cause { IfErr result (IsNotCompacted self.old.closed self.new.closed
            (D.faults self.old.disk) (D.faults self.new.disk) (M.writes self.old.machine)) }
        ensures later { D.faults self.old.disk ≤ D.faults self.new.disk }
        ensures still { self.old.closed ≡ true → self.new ≡ self.old }
    {
        if self.closed {
            return Err(Uncompacted::Closed);
        }
        let mut last = [b'0'; DIGITS];
        let Ok(made) = compacted(alloc, &self.head, &self.machine, &mut last) else {
            return Err(Uncompacted::Memory);
        };
        let Some(file) = made else {
            return Err(Uncompacted::Unsaid);
        };
        match self.disk.replace(&file) {
            Ok(()) => {
                self.last = last;
                Ok(())
            }
            Err(DiskFault) => {
                self.closed = true;
                Err(Uncompacted::Disk)
            }
        }
    }
}

/// A file with this head and a machine's state, where a text says it. The digest that it ends in is put into `last`.
fn compacted<M: Snapshot>(
    alloc: Global,
    head: &[u8],
    machine: &M,
    last: &mut [u8; DIGITS],
) -> Result<Option<Vec<u8>>, AllocError>
    ensures variant { IfOk result (λ some. is_some some ≡ M.writes machine.now) }
    ensures file { IfOk result (λ some. IfSome some (λ file.
        IsCompacted M.named_state (M.state machine.now) head.now file.items last.new)) }
{
    let Some(mut group) = snapshot(alloc, machine)? else {
        return Ok(None);
    };
    let mut file = new_file(alloc, head)?;
    *last = put_record(&mut group, &digest(&[], head));
    file.extend_from_slice(&group)?;
    file.extend_from_slice(&seals(alloc, last)?)?;
    Ok(Some(file))
}

/// Two records of no lines, behind what ends in this digest. The one that they end in is put into `last`.
fn seals(alloc: Global, last: &mut [u8; DIGITS]) -> Result<Vec<u8>, AllocError>
    ensures bytes { IfOk result (λ bytes. bytes.items ≡ seals last.old) }
    ensures last { OnOk result (last.new ≡ seal_link (seal_link last.old)) }
{
    let mut seals = seal(alloc, last)?;
    seals.extend_from_slice(&seal(alloc, last)?)?;
    Ok(seals)
}

fn seal(alloc: Global, last: &mut [u8; DIGITS]) -> Result<Vec<u8>, AllocError>
    ensures bytes { IfOk result (λ seal. seal.items ≡ with_record record_line last.old []) }
    ensures last { OnOk result (last.new ≡ seal_link last.old) }
{
    let mut seal = Vec::new(alloc);
    seal.reserve(ROOM)?;
    *last = put_record(&mut seal, last);
    Ok(seal)
}

/// The line of a machine's state, where a text says it, with its end, and room for a record behind it.
fn snapshot<M: Snapshot>(alloc: Global, machine: &M) -> Result<Option<Vec<u8>>, AllocError>
    ensures variant { IfOk result (λ some. is_some some ≡ M.writes machine.now) }
    ensures line { IfOk result (λ some. IfSome some (λ bytes.
        IsSnapshot M.named_state (M.state machine.now) bytes.items)) }
    ensures room { IfOk result (λ some. IfSome some (λ bytes. length bytes.items + 57 ≤ vec_capacity bytes)) }
{
    let Some(text) = machine.write_state(alloc)? else {
        return Ok(None);
    };
    let mut line = Vec::new(alloc);
    line.push(b'=')?;
    line.extend_from_slice(&text)?;
    line.push(b'\n')?;
    line.reserve(ROOM)?;
    Ok(Some(line))
}
