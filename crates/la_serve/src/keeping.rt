// A call, kept in the journal.
ghost use Rattle.std.specs.Prelude.{◌≡◌, false};
ghost use Rattle.la_set.specs.Inclusion.{IsSubset};
ghost use Rattle.la_journal.specs.Records.{ended};
ghost use Rattle.la_wire.specs.Calls.{called};
ghost use Rattle.la_durable.specs.Nodes.{kept_by};
ghost use Rattle.la_serve.specs.Turns.{IsOutcome};

use la_durable::{Input, NodeError, NodeMachine, laws};
use la_journal::{Disk, Staged, Unstaged};
use la_node::Received;
use std::alloc::Global;

/// What became of a call that is to be kept.
#[derive(Drop)]
pub enum Kept {
    /// It was taken, and its line is staged if it changed anything.
    Taken(Received),
    /// It was refused, and nothing has changed.
    Refused(NodeError),
}

/// Takes a call and stages its line, if the call changed anything.
pub fn keep<D: Disk>(alloc: Global, node: &mut Staged<NodeMachine, D>, input: &Input) -> Kept
    requires unclosed { node.old.durable.closed ≡ false }
    ensures outcome { IsOutcome (kept_by node.old.durable.machine) (kept_by node.new.durable.machine)
        (called input.now.call) input.now.line (ended node.old.text.items) (ended node.new.text.items) result }
    ensures unclosed { node.new.durable.closed ≡ false }
    ensures disk { node.new.durable.disk ≡ node.old.durable.disk }
    ensures grows { IsSubset node.old.durable.machine.node.replica.view node.new.durable.machine.node.replica.view }
{
    // hints to the prover: what the input says, and that views grow
    let _call = input.call();
    laws::views_grow();
    match node.stage(alloc, input) {
        Ok(answer) => Kept::Taken(answer.received),
        Err(Unstaged::Machine(refusal)) => Kept::Refused(refusal),
        Err(Unstaged::Memory) => Kept::Refused(NodeError::Memory),
        Err(Unstaged::Closed) => unreachable!(),
    }
}
