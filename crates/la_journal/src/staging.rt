// Calls that are taken one by one, and whose lines are put on the disk together.
ghost use Rattle.std.specs.Prelude.{◌≡◌, ◌++◌, ◌∷◌, [], ◌+◌, ◌<◌, ◌≤◌, ◌⊎◌, List, ℕ, length, map, vec_capacity, true, false, Some, IfOk, IfErr, OnOk, OnErr};
ghost use Rattle.la_journal.specs.Disk.{LeavesOnly, Elapses};
ghost use Rattle.la_journal.specs.Lines.{file_of};
ghost use Rattle.la_journal.specs.Journal.{lines};
ghost use Rattle.la_journal.specs.Records.{ended};
ghost use Rattle.la_journal.specs.Machine.{state_after, steps, LeadsToSome};
ghost use Rattle.la_journal.specs.Durable.{IsSettled};
ghost use Rattle.la_journal.specs.Staging.{IsStageRefusal, IsRefusedBy, IsNotCommitted, kept_unless, are_no_records, room_for, moments_for};

use crate::durable::encode;
use crate::records::ROOM;
use crate::{Disk, DiskFault, Durable, Machine};
use std::alloc::Global;
use std::mem;
use thiserror::Error;

/// Why staged lines are not on the disk. The machine is ahead of the file.
#[derive(Clone, Copy, Debug, PartialEq, Eq, Error)]
pub enum Uncommitted {
    /// The disk failed. Nothing more is taken: the file has all of the lines or none, and has to be recovered anew.
    #[error("the disk failed")]
    Disk,

    /// The disk failed earlier. Nothing has changed.
    #[error("the disk failed earlier")]
    Closed,
}

/// Why an input was not staged. The machine, the lines that were staged and the file are as they were.
#[derive(Debug, Drop)]
pub enum Unstaged<R> {
    /// The machine refuses it.
    Machine(R),

    /// A growth was refused.
    Memory,

    /// The disk failed earlier.
    Closed,
}

/// A machine that takes calls before their lines are on the disk: [`Staged::commit`] puts all of them there at
/// once. Until then no answer may be given out.
#[derive(Drop)]
pub struct Staged<M: Machine, D: Disk> {
    pub durable: Durable<M, D>,
    // The lines that the file has not, each with its end.
    pub text: Vec<u8>,
    /// What the last commit put behind the file: its lines and their record, or nothing where no line was staged.
    pub written: Vec<u8>,
    ghost whole: { text.items ≡ file_of (ended text.items) },
    ghost plain: { are_no_records (ended text.items) ≡ true },
    // And there is room for their record.
    ghost room: { room_for text.items ≤ vec_capacity text },
}

impl<M: Machine, D: Disk> Staged<M, D> {
    /// A durable machine with no line staged.
    pub fn new(alloc: Global, durable: Durable<M, D>) -> Staged<M, D>
        ensures durable { result.durable ≡ durable }
        ensures nothing { result.text.items ≡ [] }
        ensures none_written { result.written.items ≡ [] }
    {
        Staged {
            durable,
            text: Vec::new(alloc),
            written: Vec::new(alloc),
        }
    }

    /// Takes an input: its line is staged, and no byte of the file changes. A call that leaves the machine as it was,
    /// as [`Machine::is_still`] says of its answer, is answered and not staged. Linear in the line.
    pub fn stage(
        &mut self,
        alloc: Global,
        input: &M::Input,
    ) -> Result<M::Output, Unstaged<M::Refusal>>
        ensures staged { OnOk result ((ended self.new.text.items ≡ ended self.old.text.items
            ++ kept_unless (M.still (M.answers (M.state self.old.durable.machine) (M.call input.now)))
            (M.text (M.call input.now)))
            × (M.step (M.state self.old.durable.machine) (M.call input.now) ≡ Some (M.state self.new.durable.machine))) }
        ensures answer { IfOk result (λ output. M.answer output ≡ M.answers (M.state self.old.durable.machine) (M.call input.now)) }
        ensures err { OnErr result ((self.new.text.items ≡ self.old.text.items)
            × (M.state self.new.durable.machine ≡ M.state self.old.durable.machine)) }
        ensures cause { IfErr result (IsStageRefusal M.lacks_memory self.old.durable.closed
            (M.step (M.state self.old.durable.machine) (M.call input.now))) }
        ensures refused { IfErr result (IsRefusedBy (M.refuses (M.state self.old.durable.machine) input.now)) }
        ensures closed { self.new.durable.closed ≡ self.old.durable.closed }
        ensures disk { self.new.durable.disk ≡ self.old.durable.disk }
        ensures written { self.new.written.items ≡ self.old.written.items }
    {
        if self.durable.closed {
            return Err(Unstaged::Closed);
        }
        let Ok(line) = encode::<M>(alloc, input) else {
            return Err(Unstaged::Memory);
        };
        let Ok(()) = self.text.reserve(line.len().saturating_add(ROOM)) else {
            return Err(Unstaged::Memory);
        };
        match self.durable.machine.apply(input) {
            Ok(output) => {
                if !M::is_still(&output) {
                    let _there_is_room = self.text.extend_from_slice(&line);
                }
                Ok(output)
            }
            Err(refusal) => Err(Unstaged::Machine(refusal)),
        }
    }

    /// Puts all staged lines behind the file's, as one group with its record, and has them on the disk: one append and
    /// one sync, and neither where nothing is staged.
    pub fn commit(&mut self) -> Result<(), Uncommitted>
        requires { self.old.durable.closed ≡ false → IsSettled D.seen D.may_leave self.old.durable.disk }
        ensures ok { OnOk result ((self.new.durable.closed ≡ false)
            × (lines (D.seen self.new.durable.disk) ≡ lines (D.seen self.old.durable.disk) ++ ended self.old.text.items)
            × (self.new.text.items ≡ [])) }
        ensures written { OnOk result (D.seen self.new.durable.disk
            ≡ D.seen self.old.durable.disk ++ self.new.written.items) }
        ensures none { OnOk result (self.old.text.items ≡ [] → self.new.written.items ≡ []) }
        ensures once { OnOk result (D.moment self.new.durable.disk
            ≡ D.moment self.old.durable.disk + moments_for self.old.text.items) }
        ensures machine { self.new.durable.machine ≡ self.old.durable.machine }
        ensures open { self.new.durable.closed ≡ false → IsSettled D.seen D.may_leave self.new.durable.disk }
        ensures same { OnErr result ((self.new.text.items ≡ self.old.text.items)
            × (self.new.durable.closed ≡ false → D.seen self.new.durable.disk ≡ D.seen self.old.durable.disk)) }
        ensures cause { IfErr result (IsNotCommitted self.old.durable.closed self.new.durable.closed
            (D.faults self.old.durable.disk) (D.faults self.new.durable.disk)) }
        ensures later { D.faults self.old.durable.disk ≤ D.faults self.new.durable.disk }
        ensures still { self.old.durable.closed ≡ true → self.new ≡ self.old }

        // The journal leads on by the calls whose lines were staged.
        ensures leads { OnOk result ((start before : M.State) (calls : List M.Call)
            → state_after M.head M.named_state M.named M.step start (D.seen self.old.durable.disk) ≡ Some before
            → ended self.old.text.items ≡ map M.text calls
            → state_after M.head M.named_state M.named M.step start (D.seen self.new.durable.disk) ≡ steps M.step calls before) }

        // And a crash at any moment leaves a file that leads on by the first some of them.
        ensures any_moment { self.old.durable.closed ≡ false → (start before : M.State) (calls : List M.Call)
            → state_after M.head M.named_state M.named M.step start (D.seen self.old.durable.disk) ≡ Some before
            → ended self.old.text.items ≡ map M.text calls
            → LeavesOnly D.moment D.left_since self.old.durable.disk self.new.durable.disk
            (LeadsToSome (state_after M.head M.named_state M.named M.step start) M.step calls before) }
    {
        if self.durable.closed {
            return Err(Uncommitted::Closed);
        }
        if self.text.is_empty() {
            self.written.clear();
            return Ok(());
        }
        let staged = self.text.len();
        match self.durable.keep(&mut self.text) {
            Ok(()) => {
                mem::swap(&mut self.text, &mut self.written);
                self.text.clear();
                Ok(())
            }
            Err(DiskFault) => {
                self.text.truncate(staged);
                Err(Uncommitted::Disk)
            }
        }
    }
}
