ghost use Rattle.std.specs.Prelude.{◌≡◌, ◌↔◌, not, Some, IsTrue, IfOk, OnOk, OnErr};
ghost use Rattle.std.specs.Option.{option_copied};
ghost use Rattle.std.specs.FinMap as map;
ghost use Rattle.la_object.specs.OrSet.{with_element};

use la_set::UpdateId;
use std::alloc::{AllocError, Global};
use std::collections::BTreeMap;
use std::marker::Model;

/// Elements by the ids of the updates that put them: a finite map.
#[derive(Drop)]
pub struct Adds {
    puts: BTreeMap<UpdateId, u64>,
}

impl Model for Adds {
    ghost use Rattle.la_object.specs.IdOrder.{Elements, elements_code};
    ghost use Rattle.std.specs.FinMap as map;

    ghost Value = { Elements };

    ghost coded = { elements_code };

    ghost view = { λ a. map.from_entries a.puts.entries };
}

impl Adds {
    /// A map without elements, which takes no memory.
    pub fn new(alloc: Global) -> Adds
        ensures { result ≡ map.empty }
    {
        Adds {
            puts: BTreeMap::new(alloc),
        }
    }

    /// Whether no element is there, at constant cost.
    pub fn is_empty(&self) -> bool
        ensures { IsTrue result ↔ (self.now ≡ map.empty) }
    {
        self.puts.is_empty()
    }

    /// Whether an element is there under an id, at logarithmic cost.
    pub fn has(&self, id: UpdateId) -> bool
        ensures { result ≡ map.contains_key self.now id }
    {
        self.puts.contains_key(&id)
    }

    /// The element under an id, at logarithmic cost.
    pub fn get(&self, id: UpdateId) -> Option<&u64>
        ensures { option_copied result ≡ map.get self.now id }
    {
        self.puts.get(&id)
    }

    /// Puts an element under an id, in the place of the one there, at logarithmic cost. After a
    /// refusal nothing has changed.
    pub fn insert(&mut self, id: UpdateId, element: u64) -> Result<(), AllocError>
        ensures ok { OnOk result (self.new ≡ map.insert self.old id element) }
        ensures err { OnErr result (self.new ≡ self.old) }
    {
        self.puts.insert(id, element)?;
        Ok(())
    }

    /// Puts an element under an id where there is none, at logarithmic cost, and answers whether
    /// there was none. After a refusal nothing has changed.
    pub fn insert_new(&mut self, id: UpdateId, element: u64) -> Result<bool, AllocError>
        ensures ok { OnOk result (self.new ≡ with_element self.old id (Some element)) }
        ensures new { IfOk result (λ new. new ≡ not (map.contains_key self.old id)) }
        ensures err { OnErr result (self.new ≡ self.old) }
    {
        match self.puts.insert(id, element)? {
            None => Ok(true),
            Some(was) => {
                // what was there is put back, which takes no memory
                self.puts.insert(id, was)?;
                Ok(false)
            }
        }
    }

    /// Takes the element under an id out, at logarithmic cost and without memory.
    pub fn remove(&mut self, id: UpdateId)
        ensures { self.new ≡ map.remove self.old id }
    {
        self.puts.remove(&id);
    }

    /// A copy, made one element after another.
    pub fn copy(&self, alloc: Global) -> Result<Adds, AllocError>
        ensures { IfOk result (λ copy. copy ≡ self.now) }
    {
        let mut copy = Adds::new(alloc);
        for (id, element) in self.puts.iter() {
            copy.insert(*id, *element)?;
        }
        Ok(copy)
    }
}
