ghost use Rattle.std.specs.Prelude.{◌≡◌, false, IfOk, IfErr, OnOk, OnErr};
ghost use Rattle.std.specs.Ordering.{nat_cmp};
ghost use Rattle.std.specs.FinMap as map;
ghost use Rattle.la_object.specs.Refusals.{IsObserveRefusal};
ghost use Rattle.la_orset.specs.Index.{index_tags, IsWhole, HasTags};

use crate::tag_set::TagSet;
use la_object::{Items, ObserveError};
use la_set::{Tags, UpdateId};
use std::alloc::{AllocError, Global};
use std::collections::HashMap;
use std::marker::Model;

/// Live tags by element, which is found by hash. An element stands here only while it has one.
#[derive(Drop)]
pub struct LiveTable {
    alloc: Global,
    by_element: HashMap<u64, TagSet>,
}

impl Model for LiveTable {
    ghost use Rattle.std.specs.FinMap as map;
    ghost use Rattle.la_orset.specs.Index.{Index, index_code, IsWhole};

    ghost Value = { Index };

    ghost coded = { index_code };

    ghost view = { λ s. map.from_entries s.by_element.entries };

    ghost invariant = { λ s. IsWhole (map.from_entries s.by_element.entries) };
}

impl LiveTable {
    /// A table without tags, which takes no memory.
    pub fn new(alloc: Global) -> LiveTable
        ensures { result ≡ map.empty }
    {
        LiveTable {
            alloc,
            by_element: HashMap::new(alloc),
        }
    }

    /// A table of the tags that a map has, in which each element has one.
    pub fn of(alloc: Global, by_element: HashMap<u64, TagSet>) -> LiveTable
        requires { IsWhole (map.from_entries by_element.entries) }
        ensures { result ≡ map.from_entries by_element.entries }
    {
        LiveTable { alloc, by_element }
    }

    /// Whether an element has a tag, at constant cost.
    pub fn has(&self, element: u64) -> bool
        ensures answer { result ≡ map.contains_key self.now element }
        ensures whole { IsWhole self.now }
    {
        self.by_element.contains_key(&element)
    }

    /// How many elements have a tag, at constant cost.
    pub fn len(&self) -> usize
        ensures answer { result ≡ map.len self.now }
        ensures whole { IsWhole self.now }
    {
        self.by_element.len()
    }

    /// The elements that have a tag, sorted into ascending order.
    pub fn elements(&self) -> Result<Items, AllocError>
        ensures answer { IfOk result (λ elements. elements ≡ map.keys self.now) }
        ensures whole { IsWhole self.now }
    {
        let mut elements = Vec::with_capacity(self.alloc, self.by_element.len())?;
        for element in self.by_element.keys() {
            elements.push(*element)?;
        }
        elements.sort_unstable();
        Ok(Items::from(elements))
    }

    /// The tags of an element, in ascending order.
    pub fn tags(&self, element: u64) -> Result<Tags, ObserveError>
        ensures ok { IfOk result (λ tags. tags ≡ map.keys (index_tags self.now element)) }
        ensures error { IfErr result (IsObserveRefusal (map.keys (index_tags self.now element))) }
    {
        match self.by_element.get(&element) {
            Some(tags) => tags.tags(self.alloc),
            None => Ok(Tags::new(self.alloc)),
        }
    }

    /// Puts a tag of an element in, which it has not, and answers where the tag stands among the
    /// element's. After a refusal nothing has changed.
    pub fn insert(&mut self, element: u64, id: UpdateId) -> Result<usize, AllocError>
        requires { map.contains_key (index_tags self.old element) id ≡ false }
        ensures ok { OnOk result
            (HasTags self.old element (map.insert (index_tags self.old element) id tt) self.new) }
        ensures err { OnErr result (self.new ≡ self.old) }
    {
        if let Some(tags) = self.by_element.get_mut(&element) {
            let place = tags.len();
            tags.insert(id)?;
            return Ok(place);
        }
        let mut tags = TagSet::new(self.alloc);
        tags.insert(id)?;
        self.by_element.insert(element, tags)?;
        trim(&mut self.by_element);
        Ok(0)
    }

    /// Takes a tag of an element out, needing no memory, and answers which of the element's many tags
    /// stands at the hint now.
    pub fn remove(&mut self, element: u64, id: UpdateId, hint: usize) -> Option<UpdateId>
        ensures { HasTags self.old element (map.remove (index_tags self.old element) id) self.new }
    {
        let Some(tags) = self.by_element.get_mut(&element) else {
            return None;
        };
        let there = tags.remove(id, hint);
        if !tags.has_any() {
            self.by_element.remove(&element);
            trim(&mut self.by_element);
        }
        there
    }
}

// Leaves room for a quarter more, where there is for more than half as many, if memory allows.
fn trim(by_element: &mut HashMap<u64, TagSet>)
    ensures { map.from_entries {R = nat_cmp} by_element.new.entries
        ≡ map.from_entries by_element.old.entries }
{
    let len = by_element.len();
    if by_element.capacity() / 3 > len / 2 {
        by_element.shrink_to(len + len / 4);
    }
}
