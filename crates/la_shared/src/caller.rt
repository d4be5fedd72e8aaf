// What the rule says of a caller.
use crate::Entry;
use la_set::UpdateSet;
use std::collections::LinkedList;

/// Where a seat stands with its ticket. No value of it is made.
pub enum Stage {
    /// The seat has no ticket.
    Idle,
    /// The seat has drawn this ticket.
    Drawn(u64),
    /// The seat has the turn of this ticket, and this set is accepted.
    Holding(u64, UpdateSet),
}

/// What a seat knows. No value of it is made.
pub struct Caller {
    /// Where the seat stands with its ticket.
    pub stage: Stage,
    /// The seat's number, from its first ticket on.
    pub number: Option<u64>,
    /// The history, as far as the seat has seen it.
    pub seen: LinkedList<Entry>,
    /// The history, as far as a seat that was joined to this one had seen it.
    pub told: LinkedList<Entry>,
    /// The seat's own entries.
    pub mine: LinkedList<Entry>,
}
