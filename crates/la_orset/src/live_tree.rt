ghost use Rattle.std.specs.Prelude.{◌≡◌, false, IfOk, IfErr, OnOk, OnErr};
ghost use Rattle.std.specs.Ordering.{nat_cmp};
ghost use Rattle.std.specs.FinMap as map;
ghost use Rattle.la_object.specs.Refusals.{IsObserveRefusal};
ghost use Rattle.la_orset.specs.Index.{index_tags, IsWhole, HasTags};

use crate::live_table::LiveTable;
use crate::tag_set::TagSet;
use la_object::{Items, ObserveError};
use la_set::{Tags, UpdateId};
use std::alloc::{AllocError, Global};
use std::collections::{BTreeMap, HashMap};
use std::marker::Model;

/// Live tags by element, in a tree. An element stands here only while it has one.
#[derive(Drop)]
pub struct LiveTree {
    alloc: Global,
    by_element: BTreeMap<u64, TagSet>,
}

impl Model for LiveTree {
    ghost use Rattle.std.specs.FinMap as map;
    ghost use Rattle.la_orset.specs.Index.{Index, index_code, IsWhole};

    ghost Value = { Index };

    ghost coded = { index_code };

    ghost view = { λ s. map.from_entries s.by_element.entries };

    ghost invariant = { λ s. IsWhole (map.from_entries s.by_element.entries) };
}

impl LiveTree {
    /// A tree without tags, which takes no memory.
    pub fn new(alloc: Global) -> LiveTree
        ensures { result ≡ map.empty }
    {
        LiveTree {
            alloc,
            by_element: BTreeMap::new(alloc),
        }
    }

    /// Whether an element has a tag, at logarithmic cost.
    pub fn has(&self, element: u64) -> bool
        ensures answer { result ≡ map.contains_key self.now element }
        ensures whole { IsWhole self.now }
    {
        self.by_element.contains_key(&element)
    }

    /// How many elements have a tag, at constant cost.
    pub fn len(&self) -> usize
        ensures answer { result ≡ map.len self.now }
        ensures whole { IsWhole self.now }
    {
        self.by_element.len()
    }

    /// The elements that have a tag, in ascending order, in one pass over them.
    pub fn elements(&self) -> Result<Items, AllocError>
        ensures answer { IfOk result (λ elements. elements ≡ map.keys self.now) }
        ensures whole { IsWhole self.now }
    {
        let mut elements = Items::new(self.alloc);
        for element in self.by_element.keys() {
            elements.push(*element)?;
        }
        Ok(elements)
    }

    /// The tags of an element, in ascending order.
    pub fn tags(&self, element: u64) -> Result<Tags, ObserveError>
        ensures ok { IfOk result (λ tags. tags ≡ map.keys (index_tags self.now element)) }
        ensures error { IfErr result (IsObserveRefusal (map.keys (index_tags self.now element))) }
    {
        match self.by_element.get(&element) {
            Some(tags) => tags.tags(self.alloc),
            None => Ok(Tags::new(self.alloc)),
        }
    }

    /// Puts a tag of an element in, which it has not, and answers where the tag stands among the
    /// element's. After a refusal nothing has changed.
    pub fn insert(&mut self, element: u64, id: UpdateId) -> Result<usize, AllocError>
        requires { map.contains_key (index_tags self.old element) id ≡ false }
        ensures ok { OnOk result
            (HasTags self.old element (map.insert (index_tags self.old element) id tt) self.new) }
        ensures err { OnErr result (self.new ≡ self.old) }
    {
        if let Some(tags) = self.by_element.get_mut(&element) {
            let place = tags.len();
            tags.insert(id)?;
            return Ok(place);
        }
        let mut tags = TagSet::new(self.alloc);
        tags.insert(id)?;
        self.by_element.insert(element, tags)?;
        Ok(0)
    }

    /// Takes a tag of an element out, without memory, and answers which of the element's many tags
    /// stands at the hint now.
    pub fn remove(&mut self, element: u64, id: UpdateId, hint: usize) -> Option<UpdateId>
        ensures { HasTags self.old element (map.remove (index_tags self.old element) id) self.new }
    {
        let Some(tags) = self.by_element.get_mut(&element) else {
            return None;
        };
        let there = tags.remove(id, hint);
        if !tags.has_any() {
            self.by_element.remove(&element);
        }
        there
    }

    /// A table of the tree's tags, in which elements are found by hash, with a copy of each
    /// element's tags.
    pub fn table(&self) -> Result<LiveTable, AllocError>
        ensures { IfOk result (λ table. table ≡ self.now) }
    {
        let mut by_element = HashMap::new(self.alloc);
        for (element, tags) in self.by_element.iter() {
            put(&mut by_element, *element, tags.copy()?)?;
        }
        Ok(LiveTable::of(self.alloc, by_element))
    }
}

// Puts an element's tags in the place of those that are there.
fn put(by_element: &mut HashMap<u64, TagSet>, element: u64, tags: TagSet) -> Result<(), AllocError>
    ensures { OnOk result (map.from_entries by_element.new.entries
        ≡ map.insert (map.from_entries {R = nat_cmp} by_element.old.entries) element tags) }
{
    by_element.insert(element, tags)?;
    Ok(())
}
