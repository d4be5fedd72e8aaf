// A set's front, and behind it what another set has: what a delta of that set stands for, list by list.
ghost use Rattle.std.specs.Prelude.{◌≡◌, ◌≤◌, ◌<◌, [], length, take, slice_index_or, IfOk, IfSome};
ghost use Rattle.la_set.specs.Links.{lent_items};
ghost use Rattle.la_set.specs.Histories.{updates_of};
ghost use Rattle.la_set.specs.Counts.{HasCounts, within};
ghost use Rattle.la_set.specs.AgreeWithin.{AgreeWithin};
ghost use Rattle.la_set.specs.Join.{join, joined};
ghost use Rattle.la_set.specs.Representation.{BeginAlike, Splices, spliced_at};
ghost use Rattle.la_set.specs.Agreement.{StartsWith};
ghost use Rattle.la_set.specs.declared.set.TheConstants.{MAX_NUMBER};

use crate::algebra::item;
use crate::delta::has_at;
use crate::history::{History, Lent, len_of};
use crate::lists::FourLists;
use crate::{Counts, REPLICAS, Update, UpdateSet};
use std::alloc::{AllocError, Global};

impl UpdateSet {
    // What is here within these counts, joined with another set, told, which has them too. The updates
    // beyond are shared with this set's own next ones, or with those of a third, which is known to have
    // the same as this one within `known`, as far as they are the same.
    #[inline(always)]
    pub(crate) fn spliced(
        &self,
        told: &UpdateSet,
        counts: Counts,
        other: &UpdateSet,
        known: Counts,
    ) -> Result<UpdateSet, AllocError>
        requires mine { HasCounts self.now counts }
        requires theirs { HasCounts told.now counts }
        requires known { AgreeWithin known self.now other.now }
        ensures { IfOk result (λ set. set ≡ join (within self.now counts) told.now) }
    {
        match self.spliced_few(told, counts, other, known)? {
            Some(few) => Ok(few),
            None => self.spliced_many(told, counts, other, known),
        }
    }

    // The same, where all three have updates of replicas 0 to 3 alone.
    #[inline(always)]
    fn spliced_few(
        &self,
        told: &UpdateSet,
        counts: Counts,
        other: &UpdateSet,
        known: Counts,
    ) -> Result<Option<UpdateSet>, AllocError>
        requires there { HasCounts self.now counts × HasCounts told.now counts }
        requires known { AgreeWithin known self.now other.now }
        ensures { IfOk result (λ few. IfSome few (λ set.
            set ≡ join (within self.now counts) told.now)) }
    {
        let Some(mine) = self.few() else {
            return Ok(None);
        };
        let Some(next) = told.few() else {
            return Ok(None);
        };
        let Some(beside) = other.few() else {
            return Ok(None);
        };
        let alloc = self.allocator();
        // a hint to the prover: no number is over the limit
        let _ = told.allocator();
        let of = [
            mine.spliced_at(alloc, next, beside, 0, counts.of(0), known.of(0))?,
            mine.spliced_at(alloc, next, beside, 1, counts.of(1), known.of(1))?,
            mine.spliced_at(alloc, next, beside, 2, counts.of(2), known.of(2))?,
            mine.spliced_at(alloc, next, beside, 3, counts.of(3), known.of(3))?,
        ];
        Ok(Some(UpdateSet::keeping_few(alloc, FourLists::of(of))?))
    }

    // The same of any sets.
    fn spliced_many(
        &self,
        told: &UpdateSet,
        counts: Counts,
        other: &UpdateSet,
        known: Counts,
    ) -> Result<UpdateSet, AllocError>
        requires mine { HasCounts self.now counts }
        requires theirs { HasCounts told.now counts }
        requires known { AgreeWithin known self.now other.now }
        ensures { IfOk result (λ set. set ≡ join (within self.now counts) told.now) }
    {
        // a hint to the prover: no number is over the limit
        let _ = self.allocator();
        let _ = told.allocator();
        let of = [
            self.spliced_list(told, counts, other, known, 0)?,
            self.spliced_list(told, counts, other, known, 1)?,
            self.spliced_list(told, counts, other, known, 2)?,
            self.spliced_list(told, counts, other, known, 3)?,
            self.spliced_list(told, counts, other, known, 4)?,
            self.spliced_list(told, counts, other, known, 5)?,
            self.spliced_list(told, counts, other, known, 6)?,
            self.spliced_list(told, counts, other, known, 7)?,
        ];
        UpdateSet::keeping(self.allocator(), of)
    }

    // A replica's updates in it.
    fn spliced_list(
        &self,
        told: &UpdateSet,
        counts: Counts,
        other: &UpdateSet,
        known: Counts,
        replica: u8,
    ) -> Result<History<Update>, AllocError>
        requires replica { replica < REPLICAS }
        requires there { HasCounts self.now counts × HasCounts told.now counts }
        requires known { AgreeWithin known self.now other.now }
        ensures { IfOk result (λ l. l ≡ updates_of (join (within self.now counts) told.now) replica) }
    {
        if told.count_of(replica) == 0 {
            return History::of(None);
        }
        let list = self.longer_list(other, known, counts, replica);
        let next = told.history_of(replica);
        continued(self.allocator(), list, counts.of(replica) as usize, next)
    }
}

impl FourLists {
    // The first so many updates of the list at a place, and then what another four's has beyond them,
    // shared with this list, or with a third four's, which is known to have the same so far, as far as it
    // goes on alike.
    #[inline(always)]
    fn spliced_at(
        &self,
        alloc: Global,
        next: &FourLists,
        other: &FourLists,
        place: u8,
        len: u32,
        known: u32,
    ) -> Result<History<Update>, AllocError>
        requires place { place < 4 }
        requires splices { Splices self.now next.now other.now place len known }
        ensures { IfOk result (λ list. list ≡ spliced_at self.now next.now place len) }
    {
        let list = self.longer_at(other, place, len, known);
        continued(alloc, list, len as usize, next.link(place))
    }

    // The list at a place, or another four's, which is known to have the same so far, where it is longer.
    #[inline(always)]
    fn longer_at<'a>(
        &'a self,
        other: &'a FourLists,
        place: u8,
        len: u32,
        known: u32,
    ) -> Lent<'a, Update>
        requires place { place < 4 }
        requires alike { BeginAlike self.now other.now place len known }
        ensures { StartsWith (lent_items result) (take len (slice_index_or self.now place [])) }
    {
        if len > known {
            return self.link(place);
        }
        if other.len_of(place) > self.len_of(place) {
            other.link(place)
        } else {
            self.link(place)
        }
    }
}

// A list's first so many updates, and then what another list has beyond them, which is shared with the
// first list as far as that goes on alike.
fn continued(
    alloc: Global,
    list: Lent<'_, Update>,
    len: usize,
    next: Lent<'_, Update>,
) -> Result<History<Update>, AllocError>
    requires list { len ≤ length (lent_items list) }
    requires next { len ≤ length (lent_items next) }
    requires limit { length (lent_items next) ≤ MAX_NUMBER }
    ensures { IfOk result (λ whole.
        whole ≡ joined (take len (lent_items list.entry)) (lent_items next.entry)) }
{
    let shared = alike_until(list, len, next);
    let mut whole = History::front_of(list, shared)?;
    for place in shared..len_of(next) {
        whole.push(alloc, item(next, place).copy()?)?;
    }
    Ok(whole)
}

// How far a list goes on as another does, from a place on.
fn alike_until(list: Lent<'_, Update>, len: usize, next: Lent<'_, Update>) -> usize
    requires list { len ≤ length (lent_items list) }
    requires next { len ≤ length (lent_items next) }
    ensures from { len ≤ result }
    ensures list { result ≤ length (lent_items list.entry) }
    ensures next { result ≤ length (lent_items next.entry) }
    ensures alike { take result (lent_items list.entry)
        ≡ joined (take len (lent_items list.entry)) (take result (lent_items next.entry)) }
{
    let all = len_of(next);
    for place in len..all {
        if !has_at(list, place, item(next, place)) {
            return place;
        }
    }
    all
}
