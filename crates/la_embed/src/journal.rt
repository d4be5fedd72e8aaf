// A node over a journal in a file of the program's: the type alone, since what its calls cite names it.
use crate::program_file::ProgramFile;
use la_durable::NodeMachine;
use la_journal::Staged;
use la_node::Config;
use std::marker::Model;

/// A node over its journal. What the last commit wrote is what the program is handed, until it says that it is on the
/// disk.
#[derive(Drop)]
pub struct Journal {
    pub staged: Staged<NodeMachine, ProgramFile>,
    pub config: Config,
    pub own: u8,
}

impl Model for Journal {
    ghost use Rattle.la_journal.specs.Held.{held_bytes};
    ghost use Rattle.la_durable.specs.Nodes.{kept_by};
    ghost use Rattle.la_embed.specs.Journals.{NodeOver, IsNoted, journal_state};

    ghost Value = { NodeOver };

    ghost view = { λ j. record {
      journal = journal_state j.config j.own (held_bytes j.staged.durable.disk.contents) j.staged.written.items
          j.staged.text.items;
      kept = kept_by j.staged.durable.machine;
    } };

    ghost invariant = { λ j. IsNoted (record {
      journal = journal_state j.config j.own (held_bytes j.staged.durable.disk.contents) j.staged.written.items
          j.staged.text.items;
      kept = kept_by j.staged.durable.machine;
    }) j.staged.durable.closed j.staged.durable.disk };
}
