// What becomes of a node over its journal: no call here does any input or output.
ghost use Rattle.std.specs.Prelude.{◌≡◌, ◌↔◌, false, Some, IfOk, IfErr, OnErr, IsTrue};
ghost use Rattle.la_journal.specs.Records.{ended};
ghost use Rattle.la_node.specs.Steps.{given_of};
ghost use Rattle.la_wire.specs.Calls.{called};
ghost use Rattle.la_wire.specs.CallLines.{named_call, may_stand};
ghost use Rattle.la_durable.specs.Nodes.{acts, kept_by, leaves_be};
ghost use Rattle.la_durable.specs.Errors.{IsActRefusal};
ghost use Rattle.la_embed.specs.Journals.{AllIsKept, LeadsTo, MakesRecord, journal_with, journal_synced};
ghost use Rattle.la_embed.specs.Journals.{IsRecovered, IsNotRecovered, IsRefusedOver, IsStagedBy};

use crate::Unrecovered;
use crate::journal::Journal;
use crate::program_file::ProgramFile;
use la_durable::{Input, NodeError, NodeMachine};
use la_journal::{Contents, Record, Staged, Unstaged, laws, recover};
use la_node::{Config, Received};
use la_wire::Call;
use std::alloc::Global;

impl Journal {
    /// Plays what was found in the program's file, and answers how many of its bytes the file is to keep.
    pub fn recover(
        alloc: Global,
        config: Config,
        own: u8,
        found: Vec<u8>,
    ) -> Result<(Journal, usize), Unrecovered>
        ensures ok { IfOk result (λ made. IsRecovered config own found.items made.1 made.0.kept made.0.journal) }
        ensures leads { IfOk result (λ made. LeadsTo made.0.journal made.0.kept) }
        ensures error { IfErr result (IsNotRecovered config own found.items) }
    {
        let machine = NodeMachine::new(alloc, config, own)?;
        let file = ProgramFile {
            contents: Contents::found(&found, Record::of_another()),
        };
        let length = found.len();
        match recover(alloc, machine, found, file) {
            Ok(durable) => {
                let keep = length.saturating_sub(durable.cut);
                let staged = Staged::new(alloc, durable);
                let journal = Journal {
                    staged,
                    config,
                    own,
                };
                Ok((journal, keep))
            }
            Err((why, _)) => Err(Unrecovered::Journal(why)),
        }
    }

    /// The node.
    pub fn machine(&self) -> &NodeMachine
        ensures { kept_by result.now ≡ self.now.kept }
    {
        &self.staged.durable.machine
    }

    /// Takes a call by its line, which is staged if it changed anything.
    pub fn take(&mut self, alloc: Global, line: &[u8], call: Call) -> Result<Received, NodeError>
        requires { named_call line.now ≡ Some (called call) }
        ensures acts { IfOk result (λ given.
            acts self.old.kept (called call) ≡ Some (given_of given, self.new.kept)) }
        ensures line { IfOk result (λ given. Some self.new.journal ≡ journal_with (Some self.old.journal)
            (leaves_be self.old.kept self.new.kept (called call) (given_of given)) line.now) }
        ensures refusal { IfErr result (IsRefusedOver (Some self.old.journal) (may_stand line.now ≡ false)
            (IsActRefusal self.old.kept call)) }
        ensures leads { LeadsTo self.new.journal self.new.kept }
        ensures err { OnErr result ((self.new.kept ≡ self.old.kept) × (self.new.journal ≡ self.old.journal)) }
    {
        // a hint to the prover: of what is staged
        laws::staged_calls_lead::<NodeMachine>();
        let _before = &self.staged;
        let Some(input) = Input::of(alloc, line, call)? else {
            return Err(NodeError::Unkept);
        };
        // a hint to the prover: what the input says
        let _call = input.call();
        let received = stage(&mut self.staged, alloc, &input)?;
        Ok(received)
    }

    /// Whether all that was taken is on the disk.
    pub fn is_kept(&self) -> bool
        ensures { IsTrue result ↔ AllIsKept (Some self.now.journal) }
    {
        self.staged.written.is_empty() && self.staged.text.is_empty()
    }

    /// Makes the record of what was taken, unless there is one of which the program did not say that it is on the disk.
    pub fn make_record(&mut self)
        ensures record { MakesRecord (Some self.old.journal) (Some self.new.journal) }
        ensures leads { LeadsTo self.new.journal self.new.kept }
        ensures kept { self.new.kept ≡ self.old.kept }
    {
        if self.staged.written.is_empty() {
            let Ok(()) = self.staged.commit() else {
                unreachable!()
            };
        }
    }

    /// What the program has to put behind what is on the disk.
    pub fn record(&self) -> &[u8]
        ensures { result.now ≡ self.now.journal.given }
    {
        &self.staged.written
    }

    /// Takes note that this is there.
    pub fn synced(&mut self)
        ensures journal { Some self.new.journal ≡ journal_synced (Some self.old.journal) }
        ensures leads { LeadsTo self.new.journal self.new.kept }
        ensures kept { self.new.kept ≡ self.old.kept }
    {
        self.staged.written.clear();
    }
}

// Takes a call and stages its line, if the call changed anything.
fn stage(
    node: &mut Staged<NodeMachine, ProgramFile>,
    alloc: Global,
    input: &Input,
) -> Result<Received, NodeError>
    requires { node.old.durable.closed ≡ false }
    ensures staged { IsStagedBy input.now (kept_by node.old.durable.machine) (ended node.old.text.items)
        (kept_by node.new.durable.machine) (ended node.new.text.items) result }
    ensures same { (node.new.durable.closed ≡ false) × (node.new.durable.disk ≡ node.old.durable.disk)
        × (node.new.written.items ≡ node.old.written.items) }
{
    // a hint to the prover: what the input says
    let _call = input.call();
    match node.stage(alloc, input) {
        Ok(answer) => Ok(answer.received),
        Err(Unstaged::Machine(refusal)) => Err(refusal),
        Err(Unstaged::Memory) => Err(NodeError::Memory),
        Err(Unstaged::Closed) => unreachable!(),
    }
}
