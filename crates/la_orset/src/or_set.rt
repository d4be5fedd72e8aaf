ghost use Rattle.std.specs.Prelude.{◌≡◌, drop, OnOk, OnErr, Some};
ghost use Rattle.std.specs.FinSet as set;
ghost use Rattle.la_object.specs.declared.kind.Kind.TheVariants.{OrSet as OrSetKind};
ghost use Rattle.la_object.specs.declared.state.State.TheVariants.{Set};
ghost use Rattle.la_object.specs.IdOrder.{IdSet};
ghost use Rattle.la_object.specs.OrSet.{with_element, with_ids};
ghost use Rattle.la_object.specs.Objects.{start, after};
ghost use Rattle.la_orset.specs.Index.{IsIndex};
ghost use Rattle.la_orset.specs.Puts.{adds_of, named_of, gone_of, with_named, KeepsEarly, NamesPut, AreGone};

use crate::live::Live;
use crate::puts::Puts;
use la_object::{Answer, Ids, Kind, ObserveError, Query, Replicated, State};
use la_set::{Op, Tags, Update, UpdateId};
use std::alloc::{AllocError, Global};

/// An observed-remove set: an element is there where some `Put` of it has an id that no `Remove`
/// named, whichever of them came first.
///
/// Elements are found by hash, up to 64 in a tree, and what was put by replica and number. A `Put`
/// whose id is above its replica's others costs the same, but for growth; one that comes late moves
/// those above it. For each id that it names, a `Remove` costs at most a binary search and a pass over
/// 64 tags, but for giving back room, and O(log n) where n ids were named before their Puts. `Has` and
/// `Size` are constant, `Items` sorts e elements in O(e log e), and `observed` goes through the
/// element's own tags. Elements that were chosen to share a hash take longer.
#[derive(Drop)]
pub struct OrSet {
    alloc: Global,
    puts: Puts,
    early: Ids,
    live: Live,
    ghost indexed: { IsIndex (adds_of puts) (gone_of early puts) live },
}

impl OrSet {
    /// A set that has absorbed nothing, which takes no memory.
    pub fn new(alloc: Global) -> OrSet
        ensures { Set (adds_of result.puts) (gone_of result.early result.puts) ≡ start OrSetKind }
    {
        OrSet {
            alloc,
            puts: Puts::new(alloc),
            early: Ids::new(alloc),
            live: Live::new(alloc),
        }
    }

    // A Put whose id is there changes nothing, and one whose id is gone adds no live tag.
    fn put(&mut self, id: UpdateId, element: u64) -> Result<(), AllocError>
        ensures puts { OnOk result
            (adds_of self.new.puts ≡ with_element (adds_of self.old.puts) id (Some element)) }
        ensures err { OnErr result (adds_of self.new.puts ≡ adds_of self.old.puts) }
        ensures gone { gone_of self.new.early self.new.puts ≡ gone_of self.old.early self.old.puts }
    {
        if self.puts.has(id) {
            return Ok(());
        }
        if self.early.has(id) {
            self.puts.insert(id, element, None)?;
            return Ok(());
        }
        let place = self.live.insert(element, id)?;
        if let Err(refused) = self.puts.insert(id, element, Some(hint_of(place))) {
            self.live.remove(element, id, place);
            return Err(refused);
        }
        Ok(())
    }

    // Names ids, some of which may be known already, and some not yet.
    fn remove(&mut self, ids: &Tags) -> Result<(), AllocError>
        ensures ok { OnOk result (gone_of self.new.early self.new.puts
            ≡ with_ids (gone_of self.old.early self.old.puts) ids.now) }
        ensures err { OnErr result
            (gone_of self.new.early self.new.puts ≡ gone_of self.old.early self.old.puts) }
        ensures puts { adds_of self.new.puts ≡ adds_of self.old.puts }
    {
        keep_early(&self.puts, &mut self.early, ids, 0)?;
        take_out(&mut self.puts, &mut self.live, ids, 0);
        Ok(())
    }
}

// Keeps the ids from a place on that nothing was put under yet. It calls itself once for each id,
// of which there are few.
fn keep_early(puts: &Puts, early: &mut Ids, ids: &Tags, place: usize) -> Result<(), AllocError>
    ensures ok { OnOk result (KeepsEarly early.old puts.now (drop place ids.now) early.new) }
    ensures err { OnErr result (early.new ≡ early.old) }
{
    // a hint to the prover: there are at most so many ids that the place has a next one
    let _few = ids.len();
    let Some(id) = ids.at(place) else {
        return Ok(());
    };
    if puts.has(*id) {
        return keep_early(puts, early, ids, place + 1);
    }
    let new = early.insert(*id)?;
    if let Err(refused) = keep_early(puts, early, ids, place + 1) {
        if new {
            early.remove(*id);
        }
        return Err(refused);
    }
    Ok(())
}

// Names what was put under the ids from a place on, and takes their tags out of the live ones.
fn take_out(puts: &mut Puts, live: &mut Live, ids: &Tags, place: usize)
    ensures adds { adds_of puts.new ≡ adds_of puts.old }
    ensures named { NamesPut puts.old (drop place ids.now) puts.new }
    ensures live { (gone : IdSet) → AreGone (named_of puts.old) gone
        → IsIndex (adds_of puts.old) gone live.old
        → IsIndex (adds_of puts.old) (with_ids gone (drop place ids.now)) live.new }
{
    // a hint to the prover: there are at most so many ids that the place has a next one
    let _few = ids.len();
    let Some(id) = ids.at(place) else {
        return;
    };
    take_one(puts, live, *id);
    take_out(puts, live, ids, place + 1);
}

// Names what was put under an id, and takes its tag out of the live ones.
fn take_one(puts: &mut Puts, live: &mut Live, id: UpdateId)
    ensures named { puts.new ≡ with_named puts.old id }
    ensures live { (gone : IdSet) → AreGone (named_of puts.old) gone
        → IsIndex (adds_of puts.old) gone live.old
        → IsIndex (adds_of puts.old) (set.insert gone id) live.new }
{
    let Some(named) = puts.name(id) else {
        return;
    };
    if let Some(there) = live.remove(named.element, id, named.place as usize) {
        puts.set_place(there, named.place);
    }
}

// The place of a tag as a hint, which is the first where it is too far to be noted.
fn hint_of(place: usize) -> u32 {
    u32::try_from(place).unwrap_or(0)
}

impl Replicated for OrSet {
    ghost use Rattle.la_object.specs.declared.state.State.TheVariants.{Set};
    ghost use Rattle.la_orset.specs.Puts.{adds_of, gone_of};

    ghost state = { λ s. Set (adds_of s.puts) (gone_of s.early s.puts) };

    fn kind(&self) -> Kind {
        Kind::OrSet
    }

    fn fresh(&self) -> bool {
        self.puts.is_empty() && self.early.is_empty()
    }

    fn has_room(&self) -> bool {
        true
    }

    fn absorb(&mut self, update: &Update) -> Result<(), AllocError>
        ensures ok { OnOk result
            (Set (adds_of self.new.puts) (gone_of self.new.early self.new.puts)
            ≡ after (Set (adds_of self.old.puts) (gone_of self.old.early self.old.puts)) update.now) }
        ensures err { OnErr result
            (Set (adds_of self.new.puts) (gone_of self.new.early self.new.puts)
            ≡ Set (adds_of self.old.puts) (gone_of self.old.early self.old.puts)) }
    {
        match &update.op {
            Op::Put(element) => self.put(update.id, *element),
            Op::Remove(ids) => self.remove(ids),
            _ => Ok(()),
        }
    }

    fn ask(&self, query: &Query) -> Result<Answer, AllocError> {
        Ok(match query {
            Query::Has(element) => Answer::Has(self.live.has(*element)),
            Query::Size => Answer::Size(self.live.len() as u64),
            Query::Items => Answer::Items(self.live.elements()?),
            _ => Answer::Foreign,
        })
    }

    fn observed(&self, element: u64) -> Result<Tags, ObserveError> {
        self.live.tags(element)
    }

    fn state(&self) -> Result<State, AllocError> {
        Ok(State::Set {
            adds: self.puts.adds()?,
            gone: self.puts.gone(&self.early)?,
        })
    }
}
