ghost use Rattle.std.specs.Prelude.{◌≡◌, ◌↔◌, IsTrue, IfOk, OnOk, OnErr};
ghost use Rattle.std.specs.FinSet as set;

use la_set::UpdateId;
use std::alloc::{AllocError, Global};
use std::collections::BTreeSet;
use std::marker::Model;

/// Ids of elements: a finite set, to clauses.
#[derive(Drop)]
pub struct Ids {
    of: BTreeSet<UpdateId>,
}

impl Model for Ids {
    ghost use Rattle.la_list.specs.Orders.{SetOfIds, ids_code};
    ghost use Rattle.std.specs.FinSet as set;

    ghost Value = { SetOfIds };

    ghost coded = { ids_code };

    ghost view = { λ s. set.from_list s.of.keys };
}

impl Ids {
    /// No ids. It takes no memory.
    pub(crate) fn new(alloc: Global) -> Ids
        ensures { result ≡ set.empty }
    {
        Ids {
            of: BTreeSet::new(alloc),
        }
    }

    /// Whether there is no id, at constant cost.
    pub fn is_empty(&self) -> bool
        ensures { IsTrue result ↔ (self.now ≡ set.empty) }
    {
        self.of.is_empty()
    }

    /// Whether an id is there, at logarithmic cost.
    pub fn has(&self, id: UpdateId) -> bool
        ensures { result ≡ set.contains self.now id }
    {
        self.of.contains(&id)
    }

    /// Puts an id in, at logarithmic cost. After a refusal nothing has changed.
    pub(crate) fn put(&mut self, id: UpdateId) -> Result<(), AllocError>
        ensures ok { OnOk result (self.new ≡ set.insert self.old id) }
        ensures err { OnErr result (self.new ≡ self.old) }
    {
        self.of.insert(id)?;
        Ok(())
    }

    /// A copy.
    pub(crate) fn copy(&self) -> Result<Ids, AllocError>
        ensures { IfOk result (λ copy. copy ≡ self.now) }
    {
        Ok(Ids {
            of: self.of.clone()?,
        })
    }
}
