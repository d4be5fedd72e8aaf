ghost use Rattle.std.specs.Prelude.{◌≡◌, false, IfOk, IfErr, OnOk, OnErr};
ghost use Rattle.std.specs.FinMap as map;
ghost use Rattle.la_object.specs.Refusals.{IsObserveRefusal};
ghost use Rattle.la_orset.specs.Index.{has_any};
ghost use Rattle.la_orset.specs.Few.{few_tags, only_tag};

use crate::tag_list::TagList;
use la_object::ObserveError;
use la_set::{Tags, UpdateId};
use std::alloc::{AllocError, Global};
use std::marker::Model;
use std::mem;

/// The live tags of one element. One alone needs no list.
#[derive(Drop)]
pub struct TagSet {
    alloc: Global,
    tags: Few,
}

#[derive(Drop)]
enum Few {
    One(UpdateId),
    List(TagList),
}

impl Model for TagSet {
    ghost use Rattle.la_orset.specs.Index.{TagMap, tag_map_code};
    ghost use Rattle.la_orset.specs.Few.{few_tags};

    ghost Value = { TagMap };

    ghost coded = { tag_map_code };

    ghost view = { λ s. few_tags s.tags };
}

impl TagSet {
    /// A set without tags, which takes no memory.
    pub fn new(alloc: Global) -> TagSet
        ensures { result ≡ map.empty }
    {
        TagSet {
            alloc,
            tags: Few::List(TagList::new(alloc)),
        }
    }

    /// Whether there is a tag.
    pub fn has_any(&self) -> bool
        ensures { result ≡ has_any (map.keys self.now) }
    {
        match &self.tags {
            Few::One(_) => true,
            Few::List(list) => list.has_any(),
        }
    }

    /// How many tags there are, and so where the next will stand.
    pub fn len(&self) -> usize {
        match &self.tags {
            Few::One(_) => 1,
            Few::List(list) => list.len(),
        }
    }

    /// Puts a tag that is not there last, at constant cost but for growth; the first takes no memory.
    /// After a refusal nothing has changed.
    pub fn insert(&mut self, id: UpdateId) -> Result<(), AllocError>
        requires { map.contains_key self.old id ≡ false }
        ensures ok { OnOk result (self.new ≡ map.insert self.old id tt) }
        ensures err { OnErr result (self.new ≡ self.old) }
    {
        let tags = mem::replace(&mut self.tags, Few::One(id));
        let (tags, result) = with_tag(self.alloc, tags, id);
        self.tags = tags;
        result
    }

    /// Takes a tag out, without memory, and answers which of many tags stands at the hint now. The
    /// cost is constant where the hint says where the tag stands.
    pub fn remove(&mut self, id: UpdateId, hint: usize) -> Option<UpdateId>
        ensures { self.new ≡ map.remove self.old id }
    {
        let tags = mem::replace(&mut self.tags, Few::One(id));
        let (tags, there) = without(self.alloc, tags, id, hint);
        self.tags = tags;
        there
    }

    /// A copy of the set, refused for want of memory alone.
    pub fn copy(&self) -> Result<TagSet, AllocError>
        ensures { IfOk result (λ copy. copy ≡ self.now) }
    {
        match &self.tags {
            Few::One(id) => Ok(TagSet {
                alloc: self.alloc,
                tags: Few::One(*id),
            }),
            Few::List(list) => Ok(TagSet {
                alloc: self.alloc,
                tags: Few::List(list.copy(self.alloc)?),
            }),
        }
    }

    /// The tags in ascending order. `TooManyTags` comes exactly where they are more than
    /// a `Remove` may name; up to [`INLINE_TAGS`](la_set::INLINE_TAGS) of them take no memory.
    pub fn tags(&self, alloc: Global) -> Result<Tags, ObserveError>
        ensures ok { IfOk result (λ tags. tags ≡ map.keys self.now) }
        ensures error { IfErr result (IsObserveRefusal (map.keys self.now)) }
    {
        match &self.tags {
            Few::One(id) => only(alloc, *id),
            Few::List(list) => list.tags(alloc),
        }
    }
}

// The tags with one more, or as they were where memory is refused.
fn with_tag(alloc: Global, tags: Few, id: UpdateId) -> (Few, Result<(), AllocError>)
    requires { map.contains_key (few_tags tags) id ≡ false }
    ensures ok { OnOk result.1 (few_tags result.0 ≡ map.insert (few_tags tags) id tt) }
    ensures err { OnErr result.1 (few_tags result.0 ≡ few_tags tags) }
{
    match tags {
        Few::One(there) => match pair(alloc, there, id) {
            Ok(list) => (Few::List(list), Ok(())),
            Err(refused) => (Few::One(there), Err(refused)),
        },
        Few::List(mut list) => {
            if !list.has_any() {
                return (Few::One(id), Ok(()));
            }
            let result = list.insert(id);
            (Few::List(list), result)
        }
    }
}

// A list of one tag and another.
fn pair(alloc: Global, one: UpdateId, other: UpdateId) -> Result<TagList, AllocError>
    requires { map.contains_key (only_tag one) other ≡ false }
    ensures { IfOk result (λ list. list ≡ map.insert (only_tag one) other tt) }
{
    let mut list = TagList::new(alloc);
    list.insert(one)?;
    list.insert(other)?;
    Ok(list)
}

// The tags without one, and which of them stands at the hint then.
fn without(alloc: Global, tags: Few, id: UpdateId, hint: usize) -> (Few, Option<UpdateId>)
    ensures { few_tags result.0 ≡ map.remove (few_tags tags) id }
{
    match tags {
        Few::One(there) => {
            if there == id {
                return (Few::List(TagList::new(alloc)), None);
            }
            (Few::One(there), None)
        }
        Few::List(mut list) => {
            let there = list.remove(id, hint);
            (Few::List(list), there)
        }
    }
}

// One tag as a list, which takes no memory.
fn only(alloc: Global, id: UpdateId) -> Result<Tags, ObserveError>
    ensures ok { IfOk result (λ tags. tags ≡ map.keys (only_tag id)) }
    ensures error { IfErr result (IsObserveRefusal (map.keys (only_tag id))) }
{
    let mut tags = Tags::new(alloc);
    match tags.push(id) {
        Ok(_) => Ok(tags),
        Err(_) => Err(ObserveError::Memory),
    }
}
