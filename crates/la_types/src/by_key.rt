ghost use Rattle.std.specs.Prelude.{◌≡◌, ◌↔◌, true, Some, IsTrue, IfOk, IfErr, OnOk, OnErr};
ghost use Rattle.std.specs.Option.{option_copied};
ghost use Rattle.std.specs.FinMap as map;
ghost use Rattle.la_types.specs.KeyMaps.{map_values};
ghost use Rattle.la_types.specs.KeyedObjects.{part_full, with_part};
ghost use Rattle.la_shelf.specs.Refusals.{IfFull};

use crate::Begins;
use la_set::Update;
use la_shelf::{Absorbs, Refusal};
use std::alloc::{AllocError, Global};
use std::collections::BTreeMap;
use std::marker::Model;

/// Values under keys, which are bytes: a finite map, to clauses, in the order of a dictionary.
#[derive(Drop)]
pub struct ByKey<V> {
    of: BTreeMap<Vec<u8>, V>,
}

impl<V> Model for ByKey<V> {
    ghost use Rattle.std.specs.Vec.{vec_items};
    ghost use Rattle.la_types.specs.KeyMaps.{KeyMap, key_map_code, with_keys};

    ghost Value = { KeyMap V };

    ghost coded = { key_map_code V.code };

    ghost view = { λ m. with_keys vec_items m.of.entries };
}

impl<V> ByKey<V> {
    /// No values. It takes no memory.
    pub fn new(alloc: Global) -> ByKey<V>
        ensures { result ≡ map.empty }
    {
        ByKey {
            of: BTreeMap::new(alloc),
        }
    }

    /// Whether no key has a value, at constant cost.
    pub fn is_empty(&self) -> bool
        ensures { IsTrue result ↔ (self.now ≡ map.empty) }
    {
        self.of.is_empty()
    }

    /// Whether a key has a value, at logarithmic cost.
    pub fn has(&self, key: &[u8]) -> bool
        ensures { result ≡ map.contains_key self.now key.now }
    {
        self.of.contains_key(key)
    }

    /// The value under a key, at logarithmic cost.
    pub fn get(&self, key: &[u8]) -> Option<&V>
        ensures { option_copied result ≡ map.get self.now key.now }
    {
        self.of.get(key)
    }
}

impl<V: Drop> ByKey<V> {
    // Puts a value under a key, in the place of the one there.
    pub(crate) fn insert(&mut self, key: Vec<u8>, value: V) -> Result<(), AllocError>
        ensures ok { OnOk result (self.new ≡ map.insert self.old key.items value) }
        ensures err { OnErr result (self.new ≡ self.old) }
    {
        self.of.insert(key, value)?;
        Ok(())
    }
}

impl<T: Begins> ByKey<T> {
    // Lets the object under a key absorb an update.
    pub(crate) fn absorb_at(&mut self, key: &[u8], update: &Update) -> Result<(), Refusal>
        requires { map.contains_key self.old key.now ≡ true }
        ensures ok { OnOk result (map_values T.state self.new
            ≡ with_part T.meaning (map_values T.state self.old) (Some (key.now, update.now))) }
        ensures err { OnErr result (map_values T.state self.new ≡ map_values T.state self.old) }
        ensures full { IfErr result (λ why. IfFull why
            (part_full T.meaning T.full (map_values T.state self.old) (Some (key.now, update.now)))) }
    {
        match self.of.get_mut(key) {
            Some(object) => object.absorb(update),
            None => unreachable!(),
        }
    }
}

impl<T: Absorbs> ByKey<T>
where
    T::State: Drop,
{
    // The state of each object, by its key.
    pub(crate) fn states(&self, alloc: Global) -> Result<ByKey<T::State>, AllocError>
        ensures { IfOk result (λ states. states ≡ map_values T.state self.now) }
    {
        let mut states = ByKey::new(alloc);
        for (key, object) in self.of.iter() {
            states.insert(Vec::from_slice(alloc, key.as_slice())?, object.state()?)?;
        }
        Ok(states)
    }
}
