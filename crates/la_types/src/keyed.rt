ghost use Rattle.std.specs.Prelude.{◌≡◌, ◌↔◌, Some, IsTrue, IfOk, OnOk, OnErr};
ghost use Rattle.std.specs.Option.{option_copied};
ghost use Rattle.std.specs.FinMap as map;
ghost use Rattle.la_types.specs.Keyed.{with_keyed};
ghost use Rattle.la_types.specs.Writes.{later};

use crate::{Bytes, Write};
use la_set::UpdateId;
use std::alloc::{AllocError, Global};
use std::collections::BTreeMap;
use std::marker::Model;

/// Of each key the last write: a finite map, to clauses.
#[derive(Drop)]
pub struct KeyedWrites {
    of: BTreeMap<Bytes, Write>,
}

impl Model for KeyedWrites {
    ghost use Rattle.la_types.specs.Keyed.{KeyedWrites as Keys, keyed_code};
    ghost use Rattle.std.specs.FinMap as map;

    ghost Value = { Keys };

    ghost coded = { keyed_code };

    ghost view = { λ w. map.from_entries w.of.entries };
}

impl KeyedWrites {
    /// No writes. It takes no memory.
    pub fn new(alloc: Global) -> KeyedWrites
        ensures { result ≡ map.empty }
    {
        KeyedWrites {
            of: BTreeMap::new(alloc),
        }
    }

    /// Whether no key has a write, at constant cost.
    pub fn is_empty(&self) -> bool
        ensures { IsTrue result ↔ (self.now ≡ map.empty) }
    {
        self.of.is_empty()
    }

    /// The last write under a key, at logarithmic cost.
    pub fn get(&self, key: &Bytes) -> Option<&Write>
        ensures { option_copied result ≡ map.get self.now key.now }
    {
        self.of.get(key)
    }

    // Puts a write under a key, in the place of the one there.
    fn insert(&mut self, key: Bytes, write: Write) -> Result<(), AllocError>
        ensures ok { OnOk result (self.new ≡ map.insert self.old key write) }
        ensures err { OnErr result (self.new ≡ self.old) }
    {
        self.of.insert(key, write)?;
        Ok(())
    }

    /// Takes a write under a key, where it is the last there, at logarithmic cost. After a refusal
    /// nothing has changed.
    pub fn take(&mut self, key: Bytes, write: Write) -> Result<(), AllocError>
        ensures ok { OnOk result (self.new ≡ with_keyed self.old (Some (key, write))) }
        ensures err { OnErr result (self.new ≡ self.old) }
    {
        if let Some(last) = self.of.get_mut(&key) {
            keep_later(last, write);
            return Ok(());
        }
        self.insert(key, write)
    }

    /// A copy, made one write after another.
    pub fn copy(&self, alloc: Global) -> Result<KeyedWrites, AllocError>
        ensures { IfOk result (λ copy. copy ≡ self.now) }
    {
        let mut copy = KeyedWrites::new(alloc);
        for (key, write) in self.of.iter() {
            copy.insert(key.copy()?, write.copy()?)?;
        }
        Ok(copy)
    }
}

// Puts a write in the place of another, where that comes before it.
fn keep_later(last: &mut Write, write: Write)
    ensures { last.new ≡ later last.old write }
{
    if last.is_before(write.stamp, write.id) {
        *last = write;
    }
}
