use crate::{AnyObject, Host, Unrecovered};
use la_node::{Config, WorldError};
use std::alloc::Global;

/// A host with objects of any kind, and a place for a line: what a program of another language holds.
#[derive(Drop)]
pub struct Embedded {
    /// The node.
    pub host: Host<AnyObject>,
    /// The line of what is to be sent, while it is handed over.
    pub line: Vec<u8>,
    /// Whether the record that is not yet on the disk was handed over.
    pub handed: bool,
    /// Where its memory comes from.
    pub alloc: Global,
}

impl Embedded {
    ghost use Rattle.std.specs.Prelude.{◌≡◌, Some, IfOk, IfErr, OnOk};
    ghost use Rattle.la_node.specs.Configs.{IsConfig};
    ghost use Rattle.la_node.specs.Nodes.{node_at_start, IsStartRefusal};
    ghost use Rattle.la_durable.specs.Nodes.{empty_shelf};
    ghost use Rattle.la_embed.specs.Hosts.{host_of, host_over};
    ghost use Rattle.la_embed.specs.Journals.{JournalState, IsRecovered, IsNotRecovered};

    /// Replica `own` of a group, as [`Host::new`] makes it, with its errors.
    pub fn new(alloc: Global, config: Config, own: u8) -> Result<Embedded, WorldError>
        ensures start { IfOk result (λ e. e.host ≡ host_of (node_at_start config own empty_shelf).replica) }
        ensures group { OnOk result (IsConfig config) }
        ensures error { IfErr result (IsStartRefusal config own empty_shelf) }
    {
        Ok(Embedded {
            host: Host::new(alloc, config, own)?,
            line: Vec::new(alloc),
            handed: false,
            alloc,
        })
    }

    /// The same replica of the same group as before, by what is found in its journal, as [`Host::recover`] plays it, and
    /// how many of these bytes the file is to keep; with its errors.
    pub fn recover(
        alloc: Global,
        config: Config,
        own: u8,
        found: Vec<u8>,
    ) -> Result<(Embedded, usize), Unrecovered>
        ensures ok { IfOk result (λ made. (j : JournalState)
            × IsRecovered config own found.items made.1 made.0.host.kept j
            × (made.0.host ≡ host_over (Some j) made.0.host.kept)) }
        ensures error { IfErr result (IsNotRecovered config own found.items) }
    {
        let (host, keep) = Host::recover(alloc, config, own, found)?;
        let node = Embedded {
            host,
            line: Vec::new(alloc),
            handed: false,
            alloc,
        };
        Ok((node, keep))
    }
}
