ghost use Rattle.std.specs.Prelude.{◌≡◌, ◌⊎◌, Some, None, IfOk, IfErr, OnOk, OnErr};
ghost use Rattle.la_wire.specs.Calls.{called, Submit, Decide, Receive};
ghost use Rattle.la_wire.specs.Messages.{letter_message};
ghost use Rattle.la_node.specs.Configs.{IsConfig};
ghost use Rattle.la_node.specs.Nodes.{node_at_start, IsStartRefusal};
ghost use Rattle.la_replica.specs.ReplicaState.{ReplicaState};
ghost use Rattle.la_node.specs.Steps.{given_of};
ghost use Rattle.la_durable.specs.Nodes.{empty_shelf, kept_by, acts, leaves_be};
ghost use Rattle.la_replica.specs.Still.{accepted_count};
ghost use Rattle.la_durable.specs.Errors.{IsForMemory, IsActRefusal};
ghost use Rattle.la_durable.specs.Errors.{RefusesSubmission, RefusesProposal, RefusesLetter};

use crate::head::head_of;
use crate::state::{node_in, text_of};
use crate::{Input, NodeError};
use la_journal::{Machine, Snapshot};
use la_node::{Config, Done, Node, Received, WorldError};
use la_object::{Counter, Shelf};
use la_replica::Out;
use la_set::Op;
use la_wire::{Call, Letter};
use std::alloc::{AllocError, Global};

/// The room behind a line for its end and the record of a group.
const ROOM: usize = 58;

/// A node without objects as a machine. Questions are for a shelf of the caller's, of whatever objects,
/// which absorbs the node's view: what it has absorbed is not kept, and is had anew.
#[derive(Drop)]
pub struct NodeMachine {
    pub node: Node<Counter>,
}

/// What a node answers to a call.
#[derive(Drop)]
pub struct NodeAnswer {
    /// What it gives out.
    pub received: Received,
    /// Whether the call left it as it was, as a message does that is ignored or repeats what is known: such a call
    /// need not be kept.
    pub still: bool,
}

impl NodeMachine {
    /// Replica `own` of a group, in which nothing has happened, with the errors of [`Node::new`].
    pub fn new(alloc: Global, config: Config, own: u8) -> Result<NodeMachine, WorldError>
        ensures start { IfOk result (λ machine.
            machine ≡ record { node = node_at_start config own empty_shelf }) }
        ensures group { OnOk result (IsConfig config) }
        ensures error { IfErr result (IsStartRefusal config own empty_shelf) }
    {
        Ok(NodeMachine {
            node: Node::new(alloc, config, own, Shelf::new(alloc))?,
        })
    }

    /// Takes a call, without any journal: a submission, a proposal or a message, at the cost of the node's.
    ///
    /// In this order: `Unkept`; `Elsewhere`; what the node refuses, `Memory` where nothing else fits; but a
    /// submission's operation and a letter's parcel are copied first, so that `Memory` may come before anything
    /// else is looked at.
    pub fn act(&mut self, call: &Call) -> Result<Received, NodeError>
        ensures ok { IfOk result (λ given.
            acts (kept_by self.old) (called call.now) ≡ Some (given_of given, kept_by self.new)) }
        ensures error { IfErr result (λ e. IsForMemory e ⊎ (acts (kept_by self.old) (called call.now) ≡ None)) }
        ensures refusal { IfErr result (IsActRefusal (kept_by self.old) call.now) }
        ensures err { OnErr result (self.new ≡ self.old) }
    {
        match call {
            Call::Submit {
                replica,
                object,
                op,
            } => self.submit(*replica, *object, op),
            Call::Decide {
                replica,
                commit,
                value,
            } => self.propose(*replica, *commit, *value),
            Call::Receive(letter) => self.receive(letter),
            Call::Ask {
                replica: _,
                object: _,
                query: _,
            } => Err(NodeError::Unkept),
            Call::Tick => Err(NodeError::Unkept),
            Call::Known(_) => Err(NodeError::Unkept),
        }
    }

    /// Takes a call as [`NodeMachine::act`] does, and says too whether it left the node as it was.
    pub fn answer(&mut self, call: &Call) -> Result<NodeAnswer, NodeError>
        ensures ok { IfOk result (λ answer.
            acts (kept_by self.old) (called call.now) ≡ Some (given_of answer.received, kept_by self.new)) }
        ensures still { IfOk result (λ answer. answer.still
            ≡ leaves_be (kept_by self.old) (kept_by self.new) (called call.now) (given_of answer.received)) }
        ensures error { IfErr result (λ e. IsForMemory e ⊎ (acts (kept_by self.old) (called call.now) ≡ None)) }
        ensures refusal { IfErr result (IsActRefusal (kept_by self.old) call.now) }
        ensures err { OnErr result (self.new ≡ self.old) }
    {
        match call {
            Call::Receive(letter) => {
                let instance = letter.parcel.instance;
                let before = self.accepted_count(instance);
                let received = self.act(call)?;
                let grew = before < self.accepted_count(instance);
                let still = received.done.said.is_still(grew);
                Ok(NodeAnswer { received, still })
            }
            Call::Submit { .. }
            | Call::Decide { .. }
            | Call::Ask { .. }
            | Call::Tick
            | Call::Known(_) => Ok(NodeAnswer {
                received: self.act(call)?,
                still: false,
            }),
        }
    }

    // How many updates it has accepted in an instance.
    fn accepted_count(&self, instance: u8) -> usize
        ensures { result ≡ accepted_count (kept_by self.now) instance }
    {
        match self.node.accepted(instance) {
            Some(accepted) => accepted.len(),
            None => 0,
        }
    }

    #[tactic(auto, using(crate::proofs::Acting::submission_elsewhere, crate::proofs::Acting::refusal_of_submission, crate::proofs::Naming::named_of_copied))]
    fn submit(&mut self, replica: u8, object: u16, op: &Op) -> Result<Received, NodeError>
        ensures ok { IfOk result (λ given.
            acts (kept_by self.old) (Submit replica object op.now)
            ≡ Some (given_of given, kept_by self.new)) }
        ensures error { IfErr result (λ e. IsForMemory e
            ⊎ (acts (kept_by self.old) (Submit replica object op.now) ≡ None)) }
        ensures refusal { IfErr result (RefusesSubmission self.old.node.replica replica) }
        ensures err { OnErr result (self.new ≡ self.old) }
    {
        if replica != self.node.own() {
            return Err(NodeError::Elsewhere);
        }
        match self.node.submit(object, op.copy()?) {
            Ok(out) => Ok(answered(out)),
            Err(refused) => Err(NodeError::from(refused)),
        }
    }

    #[tactic(auto, using(crate::proofs::Acting::proposal_elsewhere, crate::proofs::Acting::refusal_of_proposal, crate::proofs::Naming::named_by_proposal))]
    fn propose(&mut self, replica: u8, commit: u8, value: u64) -> Result<Received, NodeError>
        ensures ok { IfOk result (λ given.
            acts (kept_by self.old) (Decide replica commit value)
            ≡ Some (given_of given, kept_by self.new)) }
        ensures error { IfErr result (λ e. IsForMemory e
            ⊎ (acts (kept_by self.old) (Decide replica commit value) ≡ None)) }
        ensures refusal { IfErr result (RefusesProposal self.old.node.replica replica commit) }
        ensures err { OnErr result (self.new ≡ self.old) }
    {
        if replica != self.node.own() {
            return Err(NodeError::Elsewhere);
        }
        match self.node.propose(commit, value) {
            Ok(out) => Ok(answered(out)),
            Err(refused) => Err(NodeError::from(refused)),
        }
    }

    #[tactic(auto, using(crate::proofs::Acting::message_elsewhere, crate::proofs::Acting::refusal_of_message, crate::proofs::Naming::named_of_copied))]
    fn receive(&mut self, letter: &Letter) -> Result<Received, NodeError>
        ensures ok { IfOk result (λ given.
            acts (kept_by self.old) (Receive (letter_message letter.now))
            ≡ Some (given_of given, kept_by self.new)) }
        ensures error { IfErr result (λ e. IsForMemory e
            ⊎ (acts (kept_by self.old) (Receive (letter_message letter.now)) ≡ None)) }
        ensures refusal { IfErr result (RefusesLetter self.old.node.replica letter.now) }
        ensures err { OnErr result (self.new ≡ self.old) }
    {
        if letter.replicas != self.node.replicas() {
            return Err(NodeError::Elsewhere);
        }
        match self.node.receive_parcel(letter.parcel.copy()?) {
            Ok(received) => Ok(received),
            Err(refused) => Err(NodeError::from(refused)),
        }
    }
}

// What is given out for a submission or a proposal.
fn answered(out: Out) -> Received
    ensures { result ≡ record {
      done = record { said = out.said; voted = None; mail = out.mail };
      outcome = None;
    } }
{
    Received {
        done: Done {
            said: out.said,
            voted: None,
            mail: out.mail,
        },
        outcome: None,
    }
}

impl Machine for NodeMachine {
    ghost use Rattle.std.specs.Prelude.{Option};
    ghost use Rattle.la_durable.specs.CallLines.{CallLine, call_line, or_tick, call_round_trip, line_is_clean};
    ghost use Rattle.la_durable.specs.Heads.{node_head, head_is_clean};
    ghost use Rattle.la_durable.specs.NodeStates.{named_node};
    ghost use Rattle.la_durable.specs.Nodes.{step, NodeAnswered, node_answer_of, node_answers, says_still};
    ghost use Rattle.la_durable.specs.Still.{still_calls};

    type Input = Input;

    type Output = NodeAnswer;

    type Refusal = NodeError;

    ghost State = { ReplicaState };

    ghost state = { kept_by };

    ghost Call = { CallLine };

    ghost call = { λ i. or_tick (call_line i.line) };

    ghost step = { step };

    ghost Answer = { Option NodeAnswered };

    ghost answer = { λ answer. Some (node_answer_of answer) };

    ghost answers = { node_answers };

    ghost still = { says_still };

    ghost stays = { still_calls };

    ghost text = { λ c. c.line };

    ghost named = { call_line };

    ghost named_state = { named_node };

    ghost lacks_memory = { IsForMemory };

    ghost refuses = { λ r i. IsActRefusal r i.call };

    ghost head = { node_head };

    ghost round_trip = { call_round_trip };

    ghost clean = { line_is_clean };

    ghost clean_head = { head_is_clean };

    fn head(&self, alloc: Global) -> Result<Vec<u8>, AllocError> {
        head_of(alloc, &self.node)
    }

    fn apply(&mut self, input: &Input) -> Result<NodeAnswer, NodeError> {
        self.answer(input.call())
    }

    fn is_still(answer: &NodeAnswer) -> bool {
        answer.still
    }

    fn write(alloc: Global, input: &Input) -> Result<Vec<u8>, AllocError> {
        let mut line = Vec::with_capacity(alloc, input.line().len().saturating_add(ROOM))?;
        line.extend_from_slice(input.line())?;
        Ok(line)
    }

    fn read(alloc: Global, line: &[u8]) -> Result<Option<Input>, AllocError> {
        match la_wire::named(alloc, line)? {
            Some(call) => Input::of(alloc, line, call),
            None => Ok(None),
        }
    }

    fn read_state(&mut self, alloc: Global, bytes: &[u8]) -> Result<bool, AllocError> {
        match node_in(alloc, bytes)? {
            Some(node) => {
                self.node = node;
                Ok(true)
            }
            None => Ok(false),
        }
    }
}

impl Snapshot for NodeMachine {
    ghost use Rattle.la_durable.specs.NodeStates.{is_sayable, sayable_by_state};

    ghost writes = { λ m. is_sayable (kept_by m) };

    ghost by_state = { sayable_by_state };

    fn write_state(&self, alloc: Global) -> Result<Option<Vec<u8>>, AllocError> {
        text_of(alloc, &self.node)
    }
}
