// The journal that a node begins with.
ghost use Rattle.std.specs.Prelude.{◌≡◌, [], Some, IfOk, IfErr, OnOk};
ghost use Rattle.la_journal.specs.Durable.{EndsInGroups};
ghost use Rattle.la_journal.specs.Journal.{lines};
ghost use Rattle.la_node.specs.Configs.{IsConfig};
ghost use Rattle.la_node.specs.Nodes.{node_at_start, IsStartRefusal};
ghost use Rattle.la_durable.specs.Nodes.{empty_shelf};
ghost use Rattle.la_durable.specs.Restarts.{leads_from};

use crate::NodeMachine;
use la_journal::new_journal;
use la_node::{Config, WorldError};
use std::alloc::Global;

/// The bytes of the journal that replica `own` of a group begins with, before any call: its head alone, 76 bytes or some
/// more. They lead it to its start. They are for a place where no journal stands, once: a replica that had one and lost
/// it must not begin anew, since it would give numbers a second time that others know.
///
/// The errors are those of [`NodeMachine::new`].
pub fn first_journal(alloc: Global, config: Config, own: u8) -> Result<Vec<u8>, WorldError>
    ensures leads { IfOk result (λ file. leads_from (node_at_start config own empty_shelf).replica file.items
        ≡ Some (node_at_start config own empty_shelf).replica) }
    ensures lines { IfOk result (λ file. lines file.items ≡ []) }
    ensures whole { IfOk result (λ file. EndsInGroups file.items) }
    ensures group { OnOk result (IsConfig config) }
    ensures error { IfErr result (IsStartRefusal config own empty_shelf) }
{
    let machine = NodeMachine::new(alloc, config, own)?;
    Ok(new_journal(alloc, &machine)?)
}
