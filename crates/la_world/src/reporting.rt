// What a report tells of a world's replicas and of what they learnt.
ghost use Rattle.std.specs.Prelude.{◌≡◌, ◌++◌, IfOk, OnOk};
ghost use Rattle.la_node.specs.Nodes.{replicas_of};
ghost use Rattle.la_world.specs.Calls.{views_of, decisions_at};

use crate::{Decision, Learnt};
use la_node::Node;
use la_object::Replicated;
use la_set::UpdateSet;
use std::alloc::AllocError;

// A copy of a list of learnt sets.
pub fn copy_learnings(learnt: &Vec<Learnt>) -> Result<Vec<Learnt>, AllocError>
    ensures { IfOk result (λ copy. copy.items ≡ learnt.now.items) }
{
    let mut copy = Vec::with_capacity(*learnt.allocator(), learnt.len())?;
    for learning in learnt {
        copy.push(learning.copy()?)?;
    }
    Ok(copy)
}

// A copy of every replica's view.
pub fn copy_views<B: Replicated>(nodes: &Vec<Node<B>>) -> Result<Vec<UpdateSet>, AllocError>
    ensures { IfOk result (λ views. views.items ≡ views_of (replicas_of nodes.now.items)) }
{
    let mut views = Vec::with_capacity(*nodes.allocator(), nodes.len())?;
    for node in nodes {
        views.push(node.view().copy()?)?;
    }
    Ok(views)
}

// Puts last what each replica returned from an object.
pub fn add_decisions<B: Replicated>(
    made: &mut Vec<Decision>,
    nodes: &Vec<Node<B>>,
    commit: u8,
) -> Result<(), AllocError>
    ensures { OnOk result
        (made.new.items ≡ made.old.items ++ decisions_at (replicas_of nodes.now.items) commit) }
{
    for node in nodes {
        if let Some(outcome) = node.outcome(commit) {
            made.push(Decision {
                commit,
                replica: node.own(),
                outcome,
            })?;
        }
    }
    Ok(())
}
