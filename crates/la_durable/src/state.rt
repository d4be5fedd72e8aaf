// The state of a node as one text.
ghost use Rattle.std.specs.Prelude.{◌≡◌, true, Some, IfOk, IfSome, is_some, option_map};
ghost use Rattle.la_journal.specs.Lines.{IsClean};
ghost use Rattle.la_node.specs.Nodes.{NodeState};
ghost use Rattle.la_wire.specs.States.{said_state};
ghost use Rattle.la_durable.specs.NodeStates.{named_node, is_read_as, is_sayable};

use crate::input::is_clean;
use la_node::Node;
use la_object::{Counter, Shelf};
use la_replica::Replica;
use la_wire::{put_state, same_state, state_in};
use std::alloc::{AllocError, Global};

/// The node whose state a text says, without objects.
#[tactic(auto, unfolding(crate::specs::NodeStates::named_node))]
pub fn node_in(alloc: Global, text: &[u8]) -> Result<Option<Node<Counter>>, AllocError>
    ensures { IfOk result (λ node. option_map (λ (n : NodeState). n.replica) node ≡ named_node text.now) }
{
    match state_in(alloc, text)? {
        Some(replica) => Ok(Node::resumed(replica, Shelf::new(alloc))),
        None => Ok(None),
    }
}

// Whether a text is read as this replica's state.
fn is_read_as(alloc: Global, text: &[u8], replica: &Replica) -> Result<bool, AllocError>
    ensures value { IfOk result (λ is. is ≡ is_read_as (said_state text.now) replica.now) }
    ensures same { IfOk result (λ is. is ≡ true → said_state text.now ≡ Some replica.now) }
{
    match state_in(alloc, text)? {
        Some(read) => Ok(same_state(&read, replica)),
        None => Ok(false),
    }
}

/// The text of a node's state, where it may stand as a line and is read back as the same.
#[tactic(auto, unfolding(crate::specs::NodeStates::is_sayable))]
pub fn text_of(alloc: Global, node: &Node<Counter>) -> Result<Option<Vec<u8>>, AllocError>
    ensures variant { IfOk result (λ text. is_some text ≡ is_sayable node.now.replica) }
    ensures read_back { IfOk result (λ text. IfSome text (λ t. named_node t.items ≡ Some node.now.replica)) }
    ensures clean { IfOk result (λ text. IfSome text (λ t. IsClean t.items)) }
{
    let mut text = Vec::new(alloc);
    put_state(&mut text, node.replica())?;
    if is_clean(&text) && is_read_as(alloc, &text, node.replica())? {
        Ok(Some(text))
    } else {
        Ok(None)
    }
}
