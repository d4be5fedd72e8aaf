ghost use Rattle.std.specs.Prelude.{◌≡◌, false, IfOk, IfErr, OnOk, OnErr};
ghost use Rattle.std.specs.FinMap as map;
ghost use Rattle.la_object.specs.Refusals.{IsObserveRefusal};
ghost use Rattle.la_orset.specs.Index.{index_tags, IsWhole, HasTags};

use crate::live_table::LiveTable;
use crate::live_tree::LiveTree;
use la_object::{Items, ObserveError};
use la_set::{Tags, UpdateId};
use std::alloc::{AllocError, Global};
use std::marker::Model;

/// Up to how many elements stand in a tree. More are found by hash, in a table that takes more
/// allocations.
const FEW_ELEMENTS: usize = 64;

/// The live tags, by element. An element stands here only while it has one.
#[derive(Drop)]
pub struct Live {
    tags: ByElement,
}

#[derive(Drop)]
enum ByElement {
    Few(LiveTree),
    Many(LiveTable),
}

impl Model for Live {
    ghost use Rattle.la_orset.specs.Index.{Index, index_code};
    ghost use Rattle.la_orset.specs.ByElement.{index_of};

    ghost Value = { Index };

    ghost coded = { index_code };

    ghost view = { λ s. index_of s.tags };
}

impl Live {
    /// No tag of any element, which takes no memory.
    pub fn new(alloc: Global) -> Live
        ensures { result ≡ map.empty }
    {
        Live {
            tags: ByElement::Few(LiveTree::new(alloc)),
        }
    }

    /// Whether an element has a tag, at constant cost.
    pub fn has(&self, element: u64) -> bool
        ensures answer { result ≡ map.contains_key self.now element }
        ensures whole { IsWhole self.now }
    {
        match &self.tags {
            ByElement::Few(tree) => tree.has(element),
            ByElement::Many(table) => table.has(element),
        }
    }

    /// How many elements have a tag, at constant cost.
    pub fn len(&self) -> usize
        ensures answer { result ≡ map.len self.now }
        ensures whole { IsWhole self.now }
    {
        match &self.tags {
            ByElement::Few(tree) => tree.len(),
            ByElement::Many(table) => table.len(),
        }
    }

    /// The elements that have a tag, in ascending order. Many are sorted.
    pub fn elements(&self) -> Result<Items, AllocError>
        ensures answer { IfOk result (λ elements. elements ≡ map.keys self.now) }
        ensures whole { IsWhole self.now }
    {
        match &self.tags {
            ByElement::Few(tree) => tree.elements(),
            ByElement::Many(table) => table.elements(),
        }
    }

    /// The tags of an element, in ascending order.
    pub fn tags(&self, element: u64) -> Result<Tags, ObserveError>
        ensures ok { IfOk result (λ tags. tags ≡ map.keys (index_tags self.now element)) }
        ensures error { IfErr result (IsObserveRefusal (map.keys (index_tags self.now element))) }
    {
        match &self.tags {
            ByElement::Few(tree) => tree.tags(element),
            ByElement::Many(table) => table.tags(element),
        }
    }

    /// Puts a tag of an element in, which it has not, and answers where the tag stands among the
    /// element's. After a refusal nothing has changed.
    pub fn insert(&mut self, element: u64, id: UpdateId) -> Result<usize, AllocError>
        requires { map.contains_key (index_tags self.old element) id ≡ false }
        ensures ok { OnOk result
            (HasTags self.old element (map.insert (index_tags self.old element) id tt) self.new) }
        ensures err { OnErr result (self.new ≡ self.old) }
    {
        if self.is_full() {
            self.grow()?;
        }
        match &mut self.tags {
            ByElement::Few(tree) => tree.insert(element, id),
            ByElement::Many(table) => table.insert(element, id),
        }
    }

    /// Takes a tag of an element out, needing no memory, and answers which of the element's many tags
    /// stands at the hint now.
    pub fn remove(&mut self, element: u64, id: UpdateId, hint: usize) -> Option<UpdateId>
        ensures { HasTags self.old element (map.remove (index_tags self.old element) id) self.new }
    {
        match &mut self.tags {
            ByElement::Few(tree) => tree.remove(element, id, hint),
            ByElement::Many(table) => table.remove(element, id, hint),
        }
    }

    // Whether a tree has as many elements as it may have.
    fn is_full(&self) -> bool {
        match &self.tags {
            ByElement::Few(tree) => tree.len() >= FEW_ELEMENTS,
            ByElement::Many(_) => false,
        }
    }

    // Moves the tags of a tree into a table.
    fn grow(&mut self) -> Result<(), AllocError>
        ensures { self.new ≡ self.old }
    {
        if let ByElement::Few(tree) = &self.tags {
            let table = tree.table()?;
            self.tags = ByElement::Many(table);
        }
        Ok(())
    }
}
