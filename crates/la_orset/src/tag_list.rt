ghost use Rattle.std.specs.Prelude.{◌≡◌, ◌≤◌, Some, false, length, slice_get, IfSome, IfNone, IfOk, IfErr, OnOk, OnErr};
ghost use Rattle.std.specs.List.{list_any};
ghost use Rattle.std.specs.FinMap as map;
ghost use Rattle.la_object.specs.Refusals.{IsObserveRefusal};
ghost use Rattle.la_orset.specs.Index.{has_any, key_set, same_id};

use crate::vectors::{growth_of, insert_at};
use la_object::ObserveError;
use la_set::{MAX_TAGS, Tags, UpdateId};
use std::alloc::{AllocError, Global};
use std::marker::Model;

/// Live tags of one element. Up to [`MAX_TAGS`] are kept in ascending order, so that they are soon
/// told in it, unless there were more: of these the last takes the place of one that goes.
#[derive(Drop)]
pub struct TagList {
    ids: Vec<UpdateId>,
}

impl Model for TagList {
    ghost use Rattle.std.specs.List.{IsDistinct};
    ghost use Rattle.la_orset.specs.Index.{TagMap, tag_map_code, key_set, same_id};

    ghost Value = { TagMap };

    ghost coded = { tag_map_code };

    ghost view = { λ s. key_set s.ids.items };

    ghost invariant = { λ s. IsDistinct same_id s.ids.items };
}

impl TagList {
    /// A list without tags, which takes no memory.
    pub fn new(alloc: Global) -> TagList
        ensures { result ≡ map.empty }
    {
        TagList {
            ids: Vec::new(alloc),
        }
    }

    /// Whether there is a tag.
    pub fn has_any(&self) -> bool
        ensures { result ≡ has_any (map.keys self.now) }
    {
        self.ids.len() > 0
    }

    /// How many tags there are.
    pub fn len(&self) -> usize {
        self.ids.len()
    }

    /// Puts a tag in that is not there, at constant cost but for growth. After a refusal nothing has
    /// changed.
    pub fn insert(&mut self, id: UpdateId) -> Result<(), AllocError>
        requires { map.contains_key self.old id ≡ false }
        ensures ok { OnOk result (self.new ≡ map.insert self.old id tt) }
        ensures err { OnErr result (self.new ≡ self.old) }
    {
        make_room(&mut self.ids)?;
        let place = place_for(self.ids.as_slice(), id);
        insert_at(&mut self.ids, place, id)?;
        Ok(())
    }

    /// Takes a tag out, without memory, and answers which of many tags stands at the hint now. The
    /// cost is constant where the hint says where the tag stands, and else one pass up to it.
    pub fn remove(&mut self, id: UpdateId, hint: usize) -> Option<UpdateId>
        ensures { self.new ≡ map.remove self.old id }
    {
        let Some(place) = place_of(self.ids.as_slice(), id, hint) else {
            return None;
        };
        if self.ids.len() <= MAX_TAGS {
            self.ids.remove(place);
            return None;
        }
        self.ids.swap_remove(place);
        self.ids.as_slice().get(hint).copied()
    }

    /// A copy of the list, refused for want of memory alone.
    pub fn copy(&self, alloc: Global) -> Result<TagList, AllocError>
        ensures { IfOk result (λ copy. copy ≡ self.now) }
    {
        let ids = Vec::from_slice(alloc, self.ids.as_slice())?;
        Ok(TagList { ids })
    }

    /// The tags in ascending order. `TooManyTags` comes exactly where they are more than a `Remove`
    /// may name; up to [`INLINE_TAGS`](la_set::INLINE_TAGS) of them take no memory.
    pub fn tags(&self, alloc: Global) -> Result<Tags, ObserveError>
        ensures ok { IfOk result (λ tags. tags ≡ map.keys self.now) }
        ensures error { IfErr result (IsObserveRefusal (map.keys self.now)) }
    {
        if self.ids.len() > MAX_TAGS {
            return Err(ObserveError::TooManyTags);
        }
        let mut tags = Tags::with_capacity(alloc, self.ids.len())?;
        for id in self.ids.as_slice() {
            // a hint to the prover: tags are in ascending order
            let _ascending = tags.len();
            let Ok(_) = tags.push(*id) else {
                return Err(ObserveError::Memory);
            };
        }
        // a hint to the prover: tags are in ascending order
        let _ascending = tags.len();
        Ok(tags)
    }
}

// Room for one more: for four, or for a quarter of what is there, or half where that is much; for two
// at first.
fn make_room(ids: &mut Vec<UpdateId>) -> Result<(), AllocError>
    ensures { ids.new.items ≡ ids.old.items }
{
    let len = ids.len();
    if len < ids.capacity() {
        return Ok(());
    }
    let more = if len == 0 {
        2
    } else if len < 16 {
        4
    } else {
        growth_of(len)
    };
    ids.reserve_exact(more)
}

// Where an id goes: last, but among few before those above it.
fn place_for(ids: &[UpdateId], id: UpdateId) -> usize
    ensures { result ≤ length ids.now }
{
    let mut place = ids.len();
    if place >= MAX_TAGS {
        return place;
    }
    while place > 0 && id < ids[place - 1] {
        place -= 1;
    }
    place
}

// A place of an id: that which is guessed, or the first, by going through all.
fn place_of(ids: &[UpdateId], id: UpdateId, guess: usize) -> Option<usize>
    ensures found { IfSome result (λ place. slice_get ids.now place ≡ Some id) }
    ensures none { IfNone result (list_any (same_id id) ids.now ≡ false) }
{
    if guess < ids.len() && ids[guess] == id {
        return Some(guess);
    }
    for place in 0..ids.len() {
        if ids[place] == id {
            return Some(place);
        }
    }
    None
}
