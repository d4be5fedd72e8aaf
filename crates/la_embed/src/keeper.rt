// What keeps a host's node: the type alone, since what its calls cite names it.
use crate::journal::Journal;
use la_durable::NodeMachine;

/// What takes the calls: a node alone, or one over its journal.
#[derive(Drop)]
pub enum Keeper {
    /// It is gone once its process has ended.
    Alone(NodeMachine),
    /// It comes back.
    Over(Journal),
}
