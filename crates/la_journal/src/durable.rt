// A machine over its journal.
ghost use Rattle.std.specs.Prelude.{◌≡◌, ◌++◌, ◌∷◌, [], ◌<◌, ◌≤◌, ◌+◌, length, vec_capacity, true, false, Some, IfOk, IfErr, OnOk, OnErr};
ghost use Rattle.la_journal.specs.Disk.{LeavesOnly, Only, MayBeTorn};
ghost use Rattle.la_journal.specs.Commits.{with_record, AreWhole};
ghost use Rattle.la_journal.specs.Records.{parts, link, record_line};
ghost use Rattle.la_journal.specs.Journal.{lines, text_in, last_in};
ghost use Rattle.la_journal.specs.Machine.{state_after, LeadsToSome};
ghost use Rattle.la_journal.specs.Durable.{IsSettled, IsDurableRefusal, unless};

use crate::records::{DIGITS, ROOM, put_record};
use crate::{Disk, DiskFault, Machine};
use std::alloc::{AllocError, Global};

/// Why an input was not taken.
#[derive(Debug, Drop)]
pub enum Refused<R> {
    /// The machine refuses it. The machine and the journal are as they were.
    Machine(R),

    /// A growth was refused. The machine and the journal are as they were.
    Memory,

    /// The disk failed. Nothing more is taken: the journal has the input or has not, and has to be
    /// recovered anew.
    Disk,

    /// The disk failed at an earlier input. Nothing has changed.
    Closed,
}

/// A machine, and the disk with the lines of the calls that led to its state, in groups, each with its record behind
/// it.
///
/// After a failed append or sync it is closed, and takes nothing any more: no sync is tried again.
/// The machine may then be ahead of what is on the disk.
#[derive(Drop)]
pub struct Durable<M: Machine, D: Disk> {
    pub machine: M,
    pub disk: D,
    pub closed: bool,

    /// So many bytes behind the last whole group were cut when the journal was played: a crash left them of a group that
    /// was not answered.
    pub cut: usize,

    // What the file's head says, and the digest that its last record ends in.
    pub(crate) head: Vec<u8>,
    pub(crate) last: [u8; DIGITS],
    ghost headed: { unless closed head.items ≡ unless closed (text_in (parts (D.seen disk))) },
    ghost linked: { unless closed last ≡ unless closed (last_in (parts (D.seen disk))) },
}

impl<M: Machine, D: Disk> Durable<M, D> {
    /// Takes an input: its line is on the disk before the answer is given, as a group by itself. One append and one sync.
    pub fn handle(
        &mut self,
        alloc: Global,
        input: &M::Input,
    ) -> Result<M::Output, Refused<M::Refusal>>
        requires { self.old.closed ≡ false → IsSettled D.seen D.may_leave self.old.disk }

        ensures acknowledged { OnOk result ((self.new.closed ≡ false)
            × IsSettled D.seen D.may_leave self.new.disk
            × (lines (D.seen self.new.disk) ≡ lines (D.seen self.old.disk) ++ M.text (M.call input.now) ∷ [])
            × (M.step (M.state self.old.machine) (M.call input.now) ≡ Some (M.state self.new.machine))) }
        ensures answer { IfOk result (λ output. M.answer output ≡ M.answers (M.state self.old.machine) (M.call input.now)) }

        ensures once { OnOk result (D.moment self.new.disk ≡ D.moment self.old.disk + 2) }

        // Where the journal led to the machine's state it does so again.
        ensures leads { self.new.closed ≡ false → (start : M.State)
            → state_after M.head M.named_state M.named M.step start (D.seen self.old.disk) ≡ Some (M.state self.old.machine)
            → state_after M.head M.named_state M.named M.step start (D.seen self.new.disk) ≡ Some (M.state self.new.machine) }

        // And a crash at any moment of the call leaves a file that leads to the state from before it, or to
        // that after this one call.
        ensures any_moment { self.old.closed ≡ false → (start : M.State)
            → state_after M.head M.named_state M.named M.step start (D.seen self.old.disk) ≡ Some (M.state self.old.machine)
            → LeavesOnly D.moment D.left_since self.old.disk self.new.disk
            (LeadsToSome (state_after M.head M.named_state M.named M.step start) M.step (M.call input.now ∷ []) (M.state self.old.machine)) }

        ensures open { self.new.closed ≡ false → IsSettled D.seen D.may_leave self.new.disk }
        ensures same { OnErr result (self.new.closed ≡ false → (D.seen self.new.disk ≡ D.seen self.old.disk)
            × (M.state self.new.machine ≡ M.state self.old.machine)) }
        ensures cause { IfErr result (IsDurableRefusal M.lacks_memory self.old.closed self.new.closed
            (D.faults self.old.disk) (D.faults self.new.disk)
            (M.step (M.state self.old.machine) (M.call input.now))) }
        ensures later { D.faults self.old.disk ≤ D.faults self.new.disk }
        ensures still { self.old.closed ≡ true → self.new ≡ self.old }
    {
        if self.closed {
            return Err(Refused::Closed);
        }
        let Ok(mut group) = encode::<M>(alloc, input) else {
            return Err(Refused::Memory);
        };
        let output = match self.machine.apply(input) {
            Ok(output) => output,
            Err(refusal) => return Err(Refused::Machine(refusal)),
        };
        match self.keep(&mut group) {
            Ok(()) => Ok(output),
            Err(DiskFault) => Err(Refused::Disk),
        }
    }

    /// Puts a group and its record behind the file's bytes and has them on the disk. There is room for the record, which
    /// is then in the group. It is closed where the disk fails.
    pub(crate) fn keep(&mut self, group: &mut Vec<u8>) -> Result<(), DiskFault>
        requires open { self.old.closed ≡ false }
        requires settled { IsSettled D.seen D.may_leave self.old.disk }
        requires lines { AreWhole [] group.old.items }
        requires room { length group.old.items + 57 ≤ vec_capacity group.old }
        ensures group { (group.new.items ≡ with_record record_line self.old.last group.old.items) × (vec_capacity group.old ≤ vec_capacity group.new) }
        ensures machine { self.new.machine ≡ self.old.machine }
        ensures written { OnOk result (D.seen self.new.disk ≡ D.seen self.old.disk ++ with_record record_line self.old.last group.old.items) }
        ensures durable { OnOk result ((self.new.closed ≡ false) × Only (D.seen self.new.disk) (D.may_leave self.new.disk)) }
        ensures any_moment { LeavesOnly D.moment D.left_since self.old.disk self.new.disk (MayBeTorn (with_record record_line self.old.last group.old.items) (D.may_leave self.old.disk)) }
        ensures once { OnOk result (D.moment self.new.disk ≡ D.moment self.old.disk + 2) }
        ensures failed { OnErr result ((self.new.closed ≡ true) × (D.faults self.old.disk < D.faults self.new.disk)) × (D.faults self.old.disk ≤ D.faults self.new.disk) }
    {
        match put(&mut self.disk, &mut self.last, group) {
            Ok(()) => Ok(()),
            Err(fault) => {
                self.closed = true;
                Err(fault)
            }
        }
    }
}

/// An input's line, with its end, and room for a record behind it.
pub(crate) fn encode<M: Machine>(alloc: Global, input: &M::Input) -> Result<Vec<u8>, AllocError>
    ensures line { IfOk result (λ line. line.items ≡ M.text (M.call input.now) ++ 10 ∷ []) }
    ensures room { IfOk result (λ line. length line.items + 57 ≤ vec_capacity line) }
{
    let mut line = M::write(alloc, input)?;
    line.push(b'\n')?;
    line.reserve(ROOM)?;
    Ok(line)
}

/// Puts a group and its record behind the file's bytes and has them on the disk, where the file ends in this digest.
/// There is room for the record.
fn put<D: Disk>(disk: &mut D, last: &mut [u8; DIGITS], group: &mut Vec<u8>) -> Result<(), DiskFault>
    requires { length group.old.items + 57 ≤ vec_capacity group.old }
    ensures group { group.new.items ≡ with_record record_line last.old group.old.items }
    ensures room { vec_capacity group.old ≤ vec_capacity group.new }
    ensures last { last.new ≡ link (record_line last.old group.old.items) }
    ensures written { OnOk result (D.seen disk.new ≡ D.seen disk.old ++ with_record record_line last.old group.old.items) }
    ensures durable { OnOk result (Only (D.seen disk.new) (D.may_leave disk.new)) }
    ensures any_moment { LeavesOnly D.moment D.left_since disk.old disk.new
        (MayBeTorn (with_record record_line last.old group.old.items) (D.may_leave disk.old)) }
    ensures once { OnOk result (D.moment disk.new ≡ D.moment disk.old + 2) }
    ensures failed { OnErr result (D.faults disk.old < D.faults disk.new) }
    ensures later { D.faults disk.old ≤ D.faults disk.new }
{
    *last = put_record(group, last);
    disk.append(group)?;
    disk.sync()
}
