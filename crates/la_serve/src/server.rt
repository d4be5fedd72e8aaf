ghost use Rattle.std.specs.Prelude.{◌≡◌};

use crate::Arrivals;
use la_durable::NodeMachine;
use la_journal::{Disk, Durable, Staged};
use la_node::Links;
use la_object::{Replicated, Shelf};
use la_wire::Tally;

/// A node with its journal, a shelf of objects that answer by its view, and how far other replicas are, as far
/// as is known. What the shelf has absorbed, and what is known of others, and what came since a tick, is not kept.
#[derive(Drop)]
pub struct Server<D: Disk, B: Replicated> {
    pub node: Staged<NodeMachine, D>,
    pub shelf: Shelf<B>,
    pub links: Links,
    /// What this process counted.
    pub tally: Tally,
    /// What came since the last tick.
    pub arrivals: Arrivals,
}

impl<D: Disk, B: Replicated> Server<D, B> {
    /// The journal's disk, which outlives the node.
    pub fn into_disk(self) -> D
        ensures { result ≡ self.node.durable.disk }
    {
        let Server { node, .. } = self;
        let Staged { durable, .. } = node;
        let Durable { disk, .. } = durable;
        disk
    }
}
