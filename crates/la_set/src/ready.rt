// What a set needs to take another's updates as its own, a run of them at a time.
ghost use Rattle.std.specs.Prelude.{◌≡◌, ◌<◌, map, take, drop, IfOk};
ghost use Rattle.la_set.specs.Histories.{history, updates_of, with_history, truncate};

use crate::history::{History, first, len_of, step_back};
use crate::kept::{Cut, Kept};
use crate::{REPLICAS, Update, UpdateSet};
use std::alloc::{AllocError, Global};
use std::marker::Model;

/// A set that is held ready: it becomes a set of updates, one of its lists cut or whole, without
/// memory.
#[derive(Drop)]
pub struct Ready {
    alloc: Global,
    of: Kept,
}

impl Model for Ready {
    ghost use Rattle.la_set.specs.Histories.{Histories};

    ghost Value = { Histories };

    ghost use Rattle.la_set.specs.Representation.{represented, IsRepresentation};
    ghost use Rattle.la_set.specs.Kept.{lists_of};

    ghost view = { λ r. represented (lists_of r.of) };

    ghost invariant = { λ r. IsRepresentation (lists_of r.of) };
}

impl Ready {
    /// The set with only the first so many updates of a replica; with all of them, where there are
    /// no more. It takes no memory, at constant cost. Updates that are cut off stay in memory as
    /// long as the set and its copies.
    pub fn first(self, replica: u8, len: u32) -> UpdateSet
        ensures { result ≡ truncate self replica len }
    {
        UpdateSet::cut(self.alloc, self.of, Cut { replica, len })
    }
}

impl UpdateSet {
    /// This set with another's updates of a replica in the place of its own, which it shares, held
    /// ready: one block of memory is taken, at constant cost.
    pub fn with_updates_of(&self, replica: u8, other: &UpdateSet) -> Result<Ready, AllocError>
        requires { replica < REPLICAS }
        ensures { IfOk result (λ ready.
            ready ≡ with_history self.now replica (history other.now replica)) }
    {
        let alloc = self.allocator();
        let mut of = self.histories()?;
        of[replica as usize] = History::of(other.history_of(replica))?;
        Ok(Ready {
            alloc,
            of: Kept::keeping(alloc, of)?,
        })
    }

    /// A replica's updates behind its first so many, at most so many of them, lent in the order of
    /// their numbers. It takes memory for the references; the cost is that of going along these,
    /// and logarithmic in how many come after.
    pub fn run(&self, replica: u8, from: u32, most: u32) -> Result<Vec<&Update>, AllocError>
        requires { replica < REPLICAS }
        ensures { IfOk result (λ run. map (λ update. update.now) run.items
            ≡ take most (drop from (updates_of self.now replica))) }
    {
        let from = from as usize;
        let list = self.history_of(replica);
        let end = (from + most as usize).min(len_of(list));
        let mut run = Vec::with_capacity(self.allocator(), end.saturating_sub(from))?;
        let mut left = first(list, end);
        while len_of(left) > from {
            let step = step_back(left);
            run.push(step.item)?;
            left = step.prev;
        }
        run.reverse();
        Ok(run)
    }
}
