ghost use Rattle.std.specs.Prelude.{◌≡◌, ◌↔◌, not, drop, IsTrue, IfOk, OnOk, OnErr};
ghost use Rattle.std.specs.FinSet as set;
ghost use Rattle.la_object.specs.OrSet.{with_ids};

use la_set::{Tags, UpdateId};
use std::alloc::{AllocError, Global};
use std::collections::BTreeSet;
use std::marker::Model;

/// A finite set of ids.
#[derive(Drop)]
pub struct Ids {
    ids: BTreeSet<UpdateId>,
}

impl Model for Ids {
    ghost use Rattle.la_object.specs.IdOrder.{IdSet, id_set_code};
    ghost use Rattle.std.specs.FinSet as set;

    ghost Value = { IdSet };

    ghost coded = { id_set_code };

    ghost view = { λ s. set.from_list s.ids.keys };
}

impl Ids {
    /// A set without ids, which takes no memory.
    pub fn new(alloc: Global) -> Ids
        ensures { result ≡ set.empty }
    {
        Ids {
            ids: BTreeSet::new(alloc),
        }
    }

    /// Whether no id is there, at constant cost.
    pub fn is_empty(&self) -> bool
        ensures { IsTrue result ↔ (self.now ≡ set.empty) }
    {
        self.ids.is_empty()
    }

    /// Whether the id is in the set, at logarithmic cost.
    pub fn has(&self, id: UpdateId) -> bool
        ensures { result ≡ set.contains self.now id }
    {
        self.ids.contains(&id)
    }

    /// Puts an id in, at logarithmic cost, and answers whether it is new. After a refusal nothing
    /// has changed.
    pub fn insert(&mut self, id: UpdateId) -> Result<bool, AllocError>
        ensures ok { OnOk result (self.new ≡ set.insert self.old id) }
        ensures new { IfOk result (λ new. new ≡ not (set.contains self.old id)) }
        ensures err { OnErr result (self.new ≡ self.old) }
    {
        Ok(self.ids.insert(id)?)
    }

    /// Takes an id out, at logarithmic cost and without memory.
    pub fn remove(&mut self, id: UpdateId)
        ensures { self.new ≡ set.remove self.old id }
    {
        self.ids.remove(&id);
    }

    /// Puts in all ids that a `Remove` names, at logarithmic cost each. After a refusal nothing has
    /// changed.
    pub fn insert_all(&mut self, ids: &Tags) -> Result<(), AllocError>
        ensures ok { OnOk result (self.new ≡ with_ids self.old ids.now) }
        ensures err { OnErr result (self.new ≡ self.old) }
    {
        self.insert_from(ids, 0)
    }

    // Puts the ids from a place on in. It calls itself once for each id, of which there are few.
    fn insert_from(&mut self, ids: &Tags, place: usize) -> Result<(), AllocError>
        ensures ok { OnOk result (self.new ≡ with_ids self.old (drop place ids.now)) }
        ensures err { OnErr result (self.new ≡ self.old) }
    {
        // a hint to the prover: there are at most so many ids that the place has a next one
        let _few = ids.len();
        let Some(id) = ids.at(place) else {
            return Ok(());
        };
        let new = self.insert(*id)?;
        if let Err(refused) = self.insert_from(ids, place + 1) {
            if new {
                self.remove(*id);
            }
            return Err(refused);
        }
        Ok(())
    }

    /// A copy, made one id after another.
    pub fn copy(&self, alloc: Global) -> Result<Ids, AllocError>
        ensures { IfOk result (λ copy. copy ≡ self.now) }
    {
        let mut copy = Ids::new(alloc);
        for id in self.ids.iter() {
            copy.insert(*id)?;
        }
        Ok(copy)
    }
}
