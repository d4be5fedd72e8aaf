use crate::{Adds, Ids};

/// All that an object keeps of the updates that it absorbed.
#[derive(Drop)]
pub enum State {
    /// The state of a counter: the sum of its increments, and that of its decrements.
    Counter { up: u64, down: u64 },
    /// The state of a max register: the largest value so far.
    Max { largest: u64 },
    /// The state of an observed-remove set: the elements that were put, by the ids of their Puts,
    /// and the ids that Removes named.
    Set { adds: Adds, gone: Ids },
}
