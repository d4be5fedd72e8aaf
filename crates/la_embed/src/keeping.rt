// What becomes of a host's node, by its keeper.
ghost use Rattle.std.specs.Prelude.{◌≡◌, ◌↔◌, ◌≢◌, [], None, Some, false, true, IsTrue, IfOk, IfErr, IfSome, OnErr, is_some};
ghost use Rattle.la_node.specs.Steps.{given_of};
ghost use Rattle.la_wire.specs.Calls.{called};
ghost use Rattle.la_wire.specs.CallLines.{named_call, may_stand, call_line_text};
ghost use Rattle.la_wire.specs.Writable.{IsCall};
ghost use Rattle.la_durable.specs.Nodes.{acts};
ghost use Rattle.la_durable.specs.Errors.{IsActRefusal};
ghost use Rattle.la_embed.specs.Journals.{AllIsKept, MakesRecord, IsJournaled, IsRefusedOver, JournalsCall, record_in, journal_synced};
ghost use Rattle.la_embed.specs.Keepers.{state_kept, journal_in, is_own_call};

use crate::keeper::Keeper;
use la_durable::NodeError;
use la_node::{Node, Received};
use la_object::Counter;
use la_wire::{Call, laws, named, write};
use std::alloc::{AllocError, Global};

impl Keeper {
    /// The node.
    pub fn node(&self) -> &Node<Counter>
        ensures { result.now.replica ≡ state_kept self.now }
    {
        match self {
            Keeper::Alone(machine) => &machine.node,
            Keeper::Over(journal) => &journal.machine().node,
        }
    }

    /// Whether it has a journal.
    pub fn has_journal(&self) -> bool
        ensures { result ≡ is_some (journal_in self.now) }
    {
        matches!(self, Keeper::Over(_))
    }

    /// Takes a call, by its line where there is a journal.
    pub fn act(&mut self, alloc: Global, call: Call, line: &[u8]) -> Result<Received, NodeError>
        requires { journal_in self.old ≢ None → named_call line.now ≡ Some (called call) }
        ensures acts { IfOk result (λ given.
            acts (state_kept self.old) (called call) ≡ Some (given_of given, state_kept self.new)) }
        ensures line { IfOk result (λ given. JournalsCall (state_kept self.old) (called call) (given_of given)
            (state_kept self.new) (journal_in self.old) (journal_in self.new)) }
        ensures refusal { IfErr result (IsRefusedOver (journal_in self.old) (may_stand line.now ≡ false)
            (IsActRefusal (state_kept self.old) call)) }
        ensures journaled { IsJournaled (journal_in self.new) (state_kept self.new) }
        ensures err { OnErr result ((state_kept self.new ≡ state_kept self.old) × (journal_in self.new ≡ journal_in self.old)) }
    {
        match self {
            Keeper::Alone(machine) => machine.act(&call),
            Keeper::Over(journal) => journal.take(alloc, line, call),
        }
    }

    /// Whether all that was taken is on the disk.
    pub fn is_kept(&self) -> bool
        ensures { IsTrue result ↔ AllIsKept (journal_in self.now) }
    {
        match self {
            Keeper::Alone(_) => true,
            Keeper::Over(journal) => journal.is_kept(),
        }
    }

    /// Makes the record of what was taken, unless there is one of which the program did not say that it is on the disk.
    pub fn make_record(&mut self)
        ensures record { MakesRecord (journal_in self.old) (journal_in self.new) }
        ensures journaled { IsJournaled (journal_in self.new) (state_kept self.new) }
        ensures kept { state_kept self.new ≡ state_kept self.old }
    {
        if let Keeper::Over(journal) = self {
            journal.make_record();
        }
    }

    /// What the program has to put behind what is on the disk.
    pub fn record(&self) -> &[u8]
        ensures { result.now ≡ record_in (journal_in self.now) }
    {
        match self {
            Keeper::Alone(_) => &[],
            Keeper::Over(journal) => journal.record(),
        }
    }

    /// Takes note that this is there.
    pub fn synced(&mut self)
        ensures journal { journal_in self.new ≡ journal_synced (journal_in self.old) }
        ensures journaled { IsJournaled (journal_in self.new) (state_kept self.new) }
        ensures kept { state_kept self.new ≡ state_kept self.old }
    {
        match self {
            Keeper::Alone(_) => {}
            Keeper::Over(journal) => journal.synced(),
        }
    }
}

/// The line of a program's own call; `None` where none says it.
pub fn line_of(alloc: Global, call: &Call) -> Result<Option<Vec<u8>>, AllocError>
    ensures says { IfOk result (λ some. IfSome some (λ line. named_call line.items ≡ Some (called call.now))) }
    ensures is { IfOk result (λ some. IfSome some (λ line. line.items ≡ call_line_text (called call.now))) }
    ensures none { IfOk result (λ some. some ≡ None → is_own_call (called call.now) ≡ true → IsCall (called call.now) → ⊥) }
{
    // a hint to the prover: of what is written
    laws::calls_are_read_back();
    let line = write(alloc, call)?;
    match named(alloc, &line)? {
        Some(read) if is_same(&read, call) => Ok(Some(line)),
        _ => Ok(None),
    }
}

// Whether a program's two calls of its node are the same.
fn is_same(one: &Call, other: &Call) -> bool
    ensures same { IsTrue result → called one.now ≡ called other.now }
    ensures differ { is_own_call (called other.now) ≡ true → called one.now ≡ called other.now → IsTrue result }
{
    match (one, other) {
        (
            Call::Submit {
                replica,
                object,
                op,
            },
            Call::Submit {
                replica: by,
                object: on,
                op: does,
            },
        ) => *replica == *by && *object == *on && op.same(does),
        (
            Call::Decide {
                replica,
                commit,
                value,
            },
            Call::Decide {
                replica: by,
                commit: of,
                value: proposed,
            },
        ) => *replica == *by && *commit == *of && *value == *proposed,
        _ => false,
    }
}
