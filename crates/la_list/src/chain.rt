// The elements that stand, as a linked list by their ids, in a table of hashes.
ghost use Rattle.std.specs.Prelude.{◌≡◌, false, List, [], ◌∷◌, IfOk, OnOk};
ghost use Rattle.la_list.specs.declared.list.Element.{Element as Standing};
ghost use Rattle.la_list.specs.Lists.{stands, put_after, with_insert, but_deleted};
ghost use Rattle.la_list.specs.Chains.{IsChain};

use crate::{Element, Ids, Insertion};
use la_set::{Sequence, UpdateId};
use la_types::Bytes;
use std::alloc::{AllocError, Global};
use std::collections::HashMap;

// What stands at an id, and the id behind it.
#[derive(Clone, Copy)]
pub struct Link<'a> {
    value: &'a Bytes,
    next: Option<UpdateId>,
}

// The first id, and a link for each.
#[derive(Drop)]
pub struct Chain<'a> {
    first: Option<UpdateId>,
    links: HashMap<UpdateId, Link<'a>>,
}

impl<'a> Chain<'a> {
    // No elements, and room for so many.
    pub fn with_room(alloc: Global, room: usize) -> Result<Chain<'a>, AllocError>
        ensures { IfOk result (λ chain. IsChain chain []) }
    {
        Ok(Chain {
            first: None,
            links: HashMap::with_capacity(alloc, room)?,
        })
    }

    // Puts an element right behind another, where that stands, or at the head, unless its id
    // stands already.
    pub fn put(&mut self, id: UpdateId, insertion: &'a Insertion) -> Result<(), AllocError>
        ensures { (es : List Standing) → IsChain self.old es
            → OnOk result (IsChain self.new (with_insert es id insertion.now)) }
    {
        if self.links.contains_key(&id) {
            return Ok(());
        }
        match insertion.behind {
            None => self.put_first(id, &insertion.value),
            Some(before) => self.put_behind(before, id, &insertion.value),
        }
    }

    // Puts an element first, whose id stands nowhere.
    fn put_first(&mut self, id: UpdateId, value: &'a Bytes) -> Result<(), AllocError>
        ensures { (es : List Standing) → IsChain self.old es → stands es id ≡ false
            → OnOk result (IsChain self.new (record { id = id; value = value.now } ∷ es)) }
    {
        let next = self.first;
        self.links.insert(id, Link { value, next })?;
        self.first = Some(id);
        Ok(())
    }

    // Puts an element, whose id stands nowhere, right behind another, where that stands.
    fn put_behind(
        &mut self,
        before: UpdateId,
        id: UpdateId,
        value: &'a Bytes,
    ) -> Result<(), AllocError>
        ensures { (es : List Standing) → IsChain self.old es → stands es id ≡ false
            → OnOk result (IsChain self.new
            (put_after before (record { id = id; value = value.now }) es)) }
    {
        let Some(link) = self.links.get(&before) else {
            return Ok(());
        };
        let link = *link;
        let next = link.next;
        self.links.insert(id, Link { value, next })?;
        let next = Some(id);
        let value = link.value;
        self.links.insert(before, Link { value, next })?;
        Ok(())
    }

    // The elements in order, but those with some ids.
    pub fn shown(&self, alloc: Global, deleted: &Ids) -> Result<Sequence<Element>, AllocError>
        ensures { (es : List Standing) → IsChain self.now es
            → IfOk result (λ list. list ≡ but_deleted deleted.now es) }
    {
        let mut list = Vec::new(alloc);
        let mut at = self.first;
        for _ in 0..self.links.len() {
            let Some(id) = at else {
                break;
            };
            let Some(link) = self.links.get(&id) else {
                break;
            };
            if !deleted.has(id) {
                list.push(Element {
                    id,
                    value: link.value.copy()?,
                })?;
            }
            at = link.next;
        }
        Ok(Sequence::from(list))
    }
}
