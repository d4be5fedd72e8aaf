ghost use Rattle.std.specs.Prelude.{◌≡◌, ◌+◌, ◌≤◌, ◌<◌, ◌++◌, [], ◌∷◌, length, slice_get, drop, reverse};
ghost use Rattle.std.specs.Prelude.{IsOk, IfOk, IfErr, IfSome, OnOk, OnErr, Some, None, IsSome, IsTrue, ◌↔◌, take};
ghost use Rattle.std.specs.Option.{option_copied};
ghost use Rattle.la_set.specs.Links.{lent_items};
ghost use Rattle.la_set.specs.Agreement.{StartsWith};
ghost use Rattle.la_set.specs.AgreeWithin.{AgreeWithin};
ghost use Rattle.la_set.specs.Histories.{history, updates_of, push, IsNext, IsWithinLimit};
ghost use Rattle.la_set.specs.Representation.{represented, IsRepresentation, IsFront, GrowsFrom, lent_lists, AllBegin};
ghost use Rattle.la_set.specs.Counts.{count_in, HasCounts, within};
ghost use Rattle.la_set.specs.Deltas.{over, delta_over, further, further_base, rebuilt, pushed, AreNext, AgreesWithin};
ghost use Rattle.la_set.specs.Deltas.{IsOver, IsRebuildRefusal};

use crate::algebra::append_reversed;
use crate::history::{History, Lent, item_at, len_of, step_back};
use crate::{Counts, MAX_NUMBER, REPLICAS, SetError, Update, UpdateId, UpdateSet, Updates};
use std::alloc::{AllocError, Global};
use std::marker::Model;

/// A set, told to one who has a part of it: what that one is known to have, and what comes beyond.
///
/// One that [`UpdateSet::over`] makes shares the set's updates. One that [`Delta::new`] makes has
/// its updates as a list, as they come from outside.
#[derive(Drop)]
pub struct Delta {
    base: Counts,
    more: More,
}

// What comes beyond the base.
#[derive(Drop)]
enum More {
    // What this set has over it.
    Whole(UpdateSet),
    // These updates.
    Listed(Updates),
}

impl Model for Delta {
    ghost use Rattle.la_set.specs.Deltas.{DeltaState};

    ghost Value = { DeltaState };

    ghost use Rattle.la_set.specs.Deltas.{stands_for, HoldsInvariant};

    ghost view = { stands_for };

    ghost invariant = { HoldsInvariant };
}

impl Delta {
    /// A delta with this base and these updates beyond it. It takes no memory.
    pub fn new(base: Counts, more: Updates) -> Delta
        ensures { result ≡ record { base = base; more = more; made_of = None } }
    {
        Delta {
            base,
            more: More::Listed(more),
        }
    }

    /// How many updates of each replica the receiver is known to have.
    pub fn base(&self) -> Counts
        ensures { result ≡ self.now.base }
    {
        self.base
    }

    /// How many updates come beyond the base, at constant cost.
    pub fn len(&self) -> usize
        ensures { result ≡ length self.now.more }
    {
        match &self.more {
            More::Whole(set) => set.len_over(self.base),
            More::Listed(updates) => updates.len(),
        }
    }

    /// The update at a place, from 0, of those that come beyond the base, at logarithmic cost.
    pub fn at(&self, place: usize) -> Option<&Update>
        ensures { option_copied result ≡ slice_get self.now.more place }
    {
        match &self.more {
            More::Whole(set) => set.at_over(self.base, place),
            More::Listed(updates) => updates.at(place),
        }
    }

    /// Copies of the updates that come beyond the base, in the delta's order, at linear cost. Where
    /// there is none it takes no memory.
    pub fn more(&self) -> Result<Updates, AllocError>
        ensures room { self.now.more ≡ [] → IsOk result }
        ensures ok { IfOk result (λ updates. updates ≡ self.now.more) }
    {
        match &self.more {
            More::Whole(set) => set.listed_over(self.base),
            More::Listed(updates) => copied(updates),
        }
    }

    /// A copy. One of a delta that was made of a set shares that set, at constant cost, and takes no
    /// memory; else the updates are copied.
    pub fn copy(&self) -> Result<Delta, AllocError>
        ensures { IfOk result (λ copy. copy ≡ self.now) }
    {
        let more = match &self.more {
            More::Whole(set) => More::Whole(set.copy()?),
            More::Listed(updates) => More::Listed(copied(updates)?),
        };
        Ok(Delta {
            base: self.base,
            more,
        })
    }

    /// The same set told further: over the larger, of each replica, of its base and of as much of these
    /// counts as the set has. A delta that was made from a list stays as it is. It takes no memory.
    pub fn further(self, counts: Counts) -> Delta
        ensures told { result ≡ further counts self }
        ensures has { IfSome result.made_of (λ s. HasCounts s result.base) }
        ensures limit { IfSome result.made_of IsWithinLimit }
    {
        let Delta { base, more } = self;
        match more {
            More::Whole(set) => Delta {
                base: set.further_base(base, counts),
                more: More::Whole(set),
            },
            More::Listed(updates) => Delta {
                base,
                more: More::Listed(updates),
            },
        }
    }

    /// Whether two deltas have one base and the same updates beyond it, whatever they were made of.
    /// The bases and the lengths are compared first, and then the updates, each at logarithmic cost.
    pub fn same(&self, other: &Delta) -> bool
        ensures { IsTrue result
            ↔ ((self.now.base ≡ other.now.base) × (self.now.more ≡ other.now.more)) }
    {
        self.base == other.base && self.len() == other.len() && self.begins_alike(other)
    }

    // Whether another delta has at each place of this one's updates the same update.
    fn begins_alike(&self, other: &Delta) -> bool
        requires { length self.now.more ≡ length other.now.more }
        ensures { IsTrue result ↔ (self.now.more ≡ other.now.more) }
    {
        for place in 0..self.len() {
            if !self.item(place).same(other.item(place)) {
                return false;
            }
        }
        true
    }
}

impl Delta {
    // The set that it was made of, lent.
    fn whole(&self) -> Option<&UpdateSet>
        ensures delta { IfSome (option_copied result) (λ s. self.now ≡ delta_over s self.now.base) }
        ensures base { IfSome (option_copied result) (λ s. HasCounts s self.now.base) }
        ensures limit { IfSome (option_copied result) IsWithinLimit }
    {
        match &self.more {
            More::Whole(set) => {
                // a hint to the prover: no number is over the limit
                let _ = set.allocator();
                Some(set)
            }
            More::Listed(_) => None,
        }
    }

    // The set that it was made of.
    pub(crate) fn into_set(self) -> UpdateSet
        requires { IsSome self.made_of }
        ensures set { self ≡ delta_over result self.base }
        ensures base { HasCounts result self.base }
        ensures limit { IsWithinLimit result }
    {
        match self.more {
            More::Whole(set) => {
                // a hint to the prover: no number is over the limit
                let _ = set.allocator();
                set
            }
            More::Listed(_) => unreachable!(),
        }
    }
}

impl UpdateSet {
    /// Whether this set has of each replica as many updates as these counts, or more.
    pub fn has_counts(&self, counts: Counts) -> bool
        ensures { IsTrue result ↔ HasCounts self.now counts }
    {
        let mine = self.counts();
        for replica in 0..REPLICAS {
            if counts.of(replica) > mine.of(replica) {
                return false;
            }
        }
        true
    }

    /// The set as a delta over this base, at constant cost: it shares the set, and takes no memory.
    #[inline(always)]
    pub fn over(&self, base: Counts) -> Result<Delta, AllocError>
        requires { HasCounts self.now base }
        ensures { IfOk result (λ delta. delta ≡ delta_over self.now base) }
    {
        Ok(Delta {
            base,
            more: More::Whole(self.copy()?),
        })
    }

    // The base over which a delta of this set is told further.
    fn further_base(&self, base: Counts, counts: Counts) -> Counts
        requires { HasCounts self.now base }
        ensures further { result ≡ further_base self.now base counts }
        ensures has { HasCounts self.now result }
        ensures limit { IsWithinLimit self.now }
    {
        // a hint to the prover: no number is over the limit
        let _ = self.allocator();
        base.max(counts.min(self.counts()))
    }

    /// What a delta stands for over this set: what is here within its base, and then what comes
    /// beyond it. In this order: `NoBase` where there is less of a replica here than in the base;
    /// `Gap` where an update beyond does not come next; `Memory`. This set is unchanged. What is
    /// here within the base is shared, without a look at it, and so are the updates beyond that are
    /// this set's own next ones: the cost is that of the updates beyond, each compared with one of
    /// this set, which is found at logarithmic cost.
    pub fn with(&self, delta: &Delta) -> Result<UpdateSet, SetError>
        ensures ok { IfOk result (λ set. set ≡ rebuilt self.now delta.now) }
        ensures stands { IfOk result (λ _. IsOver self.now delta.now) }
        ensures error { IfErr result (IsRebuildRefusal self.now delta.now) }
    {
        self.with_beside(delta, self, Counts::zero())
    }

    /// What a delta stands for over this set, as by [`UpdateSet::with`], with its errors and its cost,
    /// beside another set, which is known to have the same within these counts. Of each replica of
    /// which the base goes no further than they do, the updates beyond it are shared with the longer of
    /// the two, as far as that has the same. What is known changes no answer: only how much memory is
    /// shared.
    pub fn with_beside(
        &self,
        delta: &Delta,
        other: &UpdateSet,
        known: Counts,
    ) -> Result<UpdateSet, SetError>
        requires { AgreeWithin known self.now other.now }
        ensures ok { IfOk result (λ set. set ≡ rebuilt self.now delta.now) }
        ensures stands { IfOk result (λ _. IsOver self.now delta.now) }
        ensures error { IfErr result (IsRebuildRefusal self.now delta.now) }
    {
        let base = delta.base();
        if !self.has_counts(base) {
            return Err(SetError::NoBase);
        }
        if let Some(set) = delta.whole() {
            return Ok(self.spliced(set, base, other, known)?);
        }
        if !self.leads_on(delta) {
            return Err(SetError::Gap);
        }
        Ok(self.rebuilt(delta, &self.longer_lists(other, known, base))?)
    }

    /// What a delta stands for over this set, as by [`UpdateSet::with`], where it is known that
    /// this set has the base, that the updates beyond it come next, and that the set of which the
    /// delta was made has within the base what this one has: nothing is compared, and the result
    /// shares that set, at constant cost. Of a delta that was made from a list the result takes
    /// that list's updates in, at linear cost. It is refused for want of memory alone.
    pub fn with_agreeing(&self, delta: &Delta) -> Result<UpdateSet, AllocError>
        requires stands { IsOver self.now delta.now }
        requires agrees { AgreesWithin self.now delta.now }
        ensures { IfOk result (λ set. set ≡ rebuilt self.now delta.now) }
    {
        match self.lent_by(delta) {
            Some(set) => set.copy(),
            None => self.rebuilt(
                delta,
                &self.longer_lists(self, Counts::zero(), delta.base()),
            ),
        }
    }

    /// The set that a delta was made of, lent, where it is known to be what the delta stands for
    /// over this set, as for [`UpdateSet::with_agreeing`]. It takes no memory. `None` where the
    /// delta was made from a list.
    pub fn lent_by<'a>(&self, delta: &'a Delta) -> Option<&'a UpdateSet>
        requires stands { IsOver self.now delta.now }
        requires agrees { AgreesWithin self.now delta.now }
        ensures whose { option_copied result ≡ delta.now.made_of }
        ensures rebuilt { IfSome (option_copied result) (λ set. set ≡ rebuilt self.now delta.now) }
    {
        match &delta.more {
            More::Whole(set) => {
                // a hint to the prover: no number is over the limit
                let _ = set.allocator();
                Some(set)
            }
            More::Listed(_) => None,
        }
    }

    // Whether a delta's updates each come next behind its base: by their ids alone.
    fn leads_on(&self, delta: &Delta) -> bool
        requires { HasCounts self.now delta.now.base }
        ensures { IsTrue result ↔ AreNext (within self.now delta.now.base) delta.now.more }
    {
        // a hint to the prover: no number is over the limit
        let _ = self.allocator();
        let mut counts = delta.base().numbers();
        for place in 0..delta.len() {
            let UpdateId { replica, number } = delta.item(place).id;
            if replica >= REPLICAS || number > MAX_NUMBER {
                return false;
            }
            if number != counts[replica as usize] + 1 {
                return false;
            }
            counts[replica as usize] = number;
        }
        true
    }

    // Of each replica this set's updates, or those of another set that is known to have the same within
    // these counts, where the base lies within them and the other has more.
    fn longer_lists<'a>(
        &'a self,
        other: &'a UpdateSet,
        known: Counts,
        base: Counts,
    ) -> [Lent<'a, Update>; 8]
        requires there { HasCounts self.now base }
        requires known { AgreeWithin known self.now other.now }
        ensures { AllBegin (lent_lists result) self.now base }
    {
        [
            self.longer_list(other, known, base, 0),
            self.longer_list(other, known, base, 1),
            self.longer_list(other, known, base, 2),
            self.longer_list(other, known, base, 3),
            self.longer_list(other, known, base, 4),
            self.longer_list(other, known, base, 5),
            self.longer_list(other, known, base, 6),
            self.longer_list(other, known, base, 7),
        ]
    }

    pub(crate) fn longer_list<'a>(
        &'a self,
        other: &'a UpdateSet,
        known: Counts,
        base: Counts,
        replica: u8,
    ) -> Lent<'a, Update>
        requires replica { replica < REPLICAS }
        requires there { HasCounts self.now base }
        requires known { AgreeWithin known self.now other.now }
        ensures { StartsWith (lent_items result) (updates_of (within self.now base) replica) }
    {
        if base.of(replica) > known.of(replica) {
            return self.history_of(replica);
        }
        if other.count_of(replica) > self.count_of(replica) {
            other.history_of(replica)
        } else {
            self.history_of(replica)
        }
    }

    // What a delta stands for over this set, made anew in one block, out of lists that begin with what
    // is here within the base.
    fn rebuilt(&self, delta: &Delta, lists: &[Lent<'_, Update>; 8]) -> Result<UpdateSet, AllocError>
        requires over { IsOver self.now delta.now }
        requires lists { AllBegin (lent_lists lists.now) self.now delta.now.base }
        ensures { IfOk result (λ set. set ≡ rebuilt self.now delta.now) }
    {
        let alloc = self.allocator();
        let mut of = self.fronts(lists, delta.base())?;
        let mut own = [true; 8];
        for place in 0..delta.len() {
            add(alloc, &mut of, &mut own, lists, delta.item(place))?;
        }
        UpdateSet::keeping(alloc, of)
    }

    // The lists of what is here within these counts, which share these lists.
    fn fronts(
        &self,
        lists: &[Lent<'_, Update>; 8],
        counts: Counts,
    ) -> Result<[History<Update>; 8], AllocError>
        requires there { HasCounts self.now counts }
        requires lists { AllBegin (lent_lists lists.now) self.now counts }
        ensures keeps { IfOk result (λ of. IsRepresentation of) }
        ensures fronts { IfOk result (λ of. represented of ≡ within self.now counts) }
    {
        // a hint to the prover: no number is over the limit
        let _ = self.allocator();
        Ok([
            self.front(lists, 0, counts)?,
            self.front(lists, 1, counts)?,
            self.front(lists, 2, counts)?,
            self.front(lists, 3, counts)?,
            self.front(lists, 4, counts)?,
            self.front(lists, 5, counts)?,
            self.front(lists, 6, counts)?,
            self.front(lists, 7, counts)?,
        ])
    }

    // A replica's updates within these counts.
    fn front(
        &self,
        lists: &[Lent<'_, Update>; 8],
        replica: u8,
        counts: Counts,
    ) -> Result<History<Update>, AllocError>
        requires known { replica < REPLICAS }
        requires there { HasCounts self.now counts }
        requires lists { AllBegin (lent_lists lists.now) self.now counts }
        ensures { IfOk result (λ front. front ≡ updates_of (within self.now counts) replica) }
    {
        History::front_of(lists[replica as usize], counts.of(replica) as usize)
    }

    // Copies of the updates over this base, in order.
    fn listed_over(&self, base: Counts) -> Result<Updates, AllocError>
        requires { HasCounts self.now base }
        ensures room { over self.now base ≡ [] → IsOk result }
        ensures ok { IfOk result (λ updates. updates ≡ over self.now base) }
    {
        let alloc = self.allocator();
        let mut updates = Updates::new(alloc);
        for replica in 0..REPLICAS {
            let rest = rest_of(alloc, self.history_of(replica), base.of(replica) as usize)?;
            append_reversed(&mut updates, rest)?;
        }
        Ok(updates)
    }

    // How many updates there are over this base.
    fn len_over(&self, base: Counts) -> usize
        requires { HasCounts self.now base }
        ensures { result ≡ length (over self.now base) }
    {
        let counts = self.counts();
        let mut all = 0;
        for replica in 0..REPLICAS {
            all += (counts.of(replica) - base.of(replica)) as usize;
        }
        all
    }

    // The update at a place, from 0, of those over this base.
    fn at_over(&self, base: Counts, place: usize) -> Option<&Update>
        requires { HasCounts self.now base }
        ensures { option_copied result ≡ slice_get (over self.now base) place }
    {
        let counts = self.counts();
        let mut left = place;
        for replica in 0..REPLICAS {
            let skipped = base.of(replica) as usize;
            let count = counts.of(replica) as usize - skipped;
            if left < count {
                return item_at(self.history_of(replica), skipped + left);
            }
            left -= count;
        }
        None
    }
}

impl Delta {
    // The update at a place that there is.
    fn item(&self, place: usize) -> &Update
        requires { place < length self.now.more }
        ensures { slice_get self.now.more place ≡ Some result.now }
    {
        match self.at(place) {
            Some(update) => update,
            None => unreachable!(),
        }
    }
}

// Adds an update that comes next to the lists of a set that grows out of fronts of these. Which lists
// are such fronts still, the flags say.
fn add(
    alloc: Global,
    of: &mut [History<Update>; 8],
    own: &mut [bool; 8],
    lists: &[Lent<'_, Update>; 8],
    update: &Update,
) -> Result<(), AllocError>
    requires grows { GrowsFrom (lent_lists lists.now) of.old own.old }
    requires next { IsNext (represented of.old) update.now.id }
    ensures ok { OnOk result (represented of.new ≡ push (represented of.old) update.now) }
    ensures grows { OnOk result (GrowsFrom (lent_lists lists.now) of.new own.new) }
{
    let at = update.id.replica as usize;
    own[at] = lengthen(alloc, &mut of[at], own[at], lists[at], update)?;
    Ok(())
}

// Adds an update to a list, and answers whether the list still is a front of another: the update is
// shared where it is that one's next, and else copied.
fn lengthen(
    alloc: Global,
    list: &mut History<Update>,
    own: bool,
    of: Lent<'_, Update>,
    update: &Update,
) -> Result<bool, AllocError>
    requires room { length list.old < MAX_NUMBER }
    requires own { IsTrue own → IsFront list.old (lent_items of) }
    ensures ok { OnOk result (list.new ≡ list.old ++ update.now ∷ []) }
    ensures own { IfOk result (λ own. IsTrue own → IsFront list.new (lent_items of.entry)) }
{
    let len = list.len() as usize;
    if own && has_at(of, len, update) {
        *list = History::front_of(of, len + 1)?;
        return Ok(true);
    }
    list.push(alloc, update.copy()?)?;
    Ok(false)
}

// Copies of updates, in order.
fn copied(updates: &Updates) -> Result<Updates, AllocError>
    ensures room { updates.now ≡ [] → IsOk result }
    ensures ok { IfOk result (λ copy. copy ≡ updates.now) }
{
    let mut copy = Updates::new(updates.allocator());
    for update in updates.all() {
        copy.push(update.copy()?)?;
    }
    Ok(copy)
}

// Copies of a list's updates behind the first so many, the last first.
fn rest_of(alloc: Global, list: Lent<'_, Update>, len: usize) -> Result<Vec<Update>, AllocError>
    requires { len ≤ length (lent_items list) }
    ensures room { drop len (lent_items list.entry) ≡ [] → IsOk result }
    ensures ok { IfOk result (λ rest. rest.items ≡ reverse (drop len (lent_items list.entry))) }
{
    let mut rest = Vec::new(alloc);
    let mut left = list;
    while len_of(left) > len {
        let step = step_back(left);
        rest.push(step.item.copy()?)?;
        left = step.prev;
    }
    Ok(rest)
}

// Whether a list has this update at a place.
pub(crate) fn has_at(list: Lent<'_, Update>, place: usize, update: &Update) -> bool
    ensures { IsTrue result ↔ (slice_get (lent_items list.entry) place ≡ Some update.now) }
{
    match item_at(list, place) {
        Some(item) => item.same(update),
        None => false,
    }
}
