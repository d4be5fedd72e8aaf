// What a node's folder is made with, and the journal that it begins with.
ghost use Rattle.std.specs.Prelude.{◌≡◌, ◌<◌, Some, [], IfOk};
ghost use Rattle.la_journal.specs.Durable.{EndsInGroups};
ghost use Rattle.la_journal.specs.Journal.{lines};
ghost use Rattle.la_node.specs.Configs.{IsConfig};
ghost use Rattle.la_durable.specs.Restarts.{leads_from};
ghost use Rattle.la_serve.specs.Crashes.{at_start};

use la_node::{Config, WorldError};
use std::alloc::{AllocError, Global};

/// What a node's folder is made with. The node is started with the same.
#[derive(Drop)]
pub struct Making {
    /// Its group.
    pub config: Config,
    /// Which replica of it, from 0 on.
    pub own: u8,
    /// The folder of its journal.
    pub folder: String,
    ghost is_group: { IsConfig config },
    ghost within: { own < config.replicas },
}

/// The bytes of the journal that a folder begins with: they lead a node of this replica to its start, and say no call.
/// An error comes of memory alone.
pub fn first_journal(alloc: Global, making: &Making) -> Result<Vec<u8>, AllocError>
    ensures leads { IfOk result (λ file. leads_from (at_start making.now.config making.now.own) file.items
        ≡ Some (at_start making.now.config making.now.own)) }
    ensures lines { IfOk result (λ file. lines file.items ≡ []) }
    ensures whole { IfOk result (λ file. EndsInGroups file.items) }
{
    match la_durable::first_journal(alloc, making.config, making.own) {
        Ok(file) => Ok(file),
        Err(WorldError::Memory) => Err(AllocError),
        // The group is one, and has the replica.
        Err(_) => unreachable!(),
    }
}
