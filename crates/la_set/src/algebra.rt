// What sets say of one another, over what `set` offers.
ghost use Rattle.std.specs.Prelude.{◌≡◌, ◌+◌, ◌++◌, ◌<◌, ◌≤◌, ◌↔◌, []};
ghost use Rattle.std.specs.Prelude.{ℕ, min, length, List, take, reverse, slice_get, Some, IsOk, IsTrue};
ghost use Rattle.std.specs.Prelude.{IfOk, IfErr, IfSome, OnOk, OnErr, MatchOption};
ghost use Rattle.la_set.specs.Histories.{count, updates, updates_of};
ghost use Rattle.la_set.specs.Agreement.{Agree, IsFirstDifference};
ghost use Rattle.la_set.specs.Inclusion.{IsSubset, is_subset, IsOrderOf};
ghost use Rattle.la_set.specs.Inclusion.{AreComparable, is_larger, larger_of};
ghost use Rattle.la_set.specs.Join.{HasNoMore, IsCompatible, IsLeastClash, join, joined};
ghost use Rattle.la_set.specs.Difference.{beyond, unmatched};
ghost use Rattle.la_set.specs.Counts.{count_in, within};
ghost use Rattle.la_set.specs.Representation.{represented, IsRepresentation};
ghost use Rattle.la_set.specs.declared.set.TheConstants.{MAX_NUMBER};
ghost use Rattle.la_set.specs.Links.{lent_items};
ghost use Rattle.la_set.specs.Refusals.{IsUnionRefusal};

use crate::history::{
    History, Lent, begins_with, first, first_difference_from, item_at, len_of, step_back,
};
use crate::{Counts, REPLICAS, SetError, Update, UpdateId, UpdateSet, Updates};
use std::alloc::{AllocError, Global};
use std::cmp::Ordering;

impl UpdateSet {
    /// Whether each update of the other set is in this one. The counts are compared first, and then
    /// the updates: the cost is linear in the other set's length.
    pub fn contains_all(&self, other: &UpdateSet) -> bool
        ensures subset { IsTrue result ↔ IsSubset other.now self.now }
        ensures value { result ≡ is_subset other.now self.now }
    {
        self.contains_beyond(other, Counts::zero())
    }

    // The same where the two are known to have the same within these counts.
    fn contains_beyond(&self, other: &UpdateSet, base: Counts) -> bool
        requires { within self.now base ≡ within other.now base }
        ensures subset { IsTrue result ↔ IsSubset other.now self.now }
        ensures value { result ≡ is_subset other.now self.now }
    {
        other.has_no_more(self) && self.agrees_beyond(other, base)
    }

    /// Whether the two sets have the same updates, at the cost of [`UpdateSet::contains_all`].
    pub fn same(&self, other: &UpdateSet) -> bool
        ensures { IsTrue result ↔ (self.now ≡ other.now) }
    {
        self.has_no_more(other) && self.contains_all(other)
    }

    /// How this set stands to the other by inclusion: `None` where neither contains the other. The
    /// counts are compared first, and then the updates once.
    pub fn order(&self, other: &UpdateSet) -> Option<Ordering>
        ensures { IsOrderOf self.now other.now result }
    {
        if self.has_no_more(other) {
            if !self.agrees(other) {
                None
            } else if other.has_no_more(self) {
                Some(Ordering::Equal)
            } else {
                Some(Ordering::Less)
            }
        } else if self.contains_all(other) {
            Some(Ordering::Greater)
        } else {
            None
        }
    }

    /// Whether each update of the other set is in this one, where no id has two updates in the two:
    /// by the counts alone, at constant cost.
    pub fn contains_compatible(&self, other: &UpdateSet) -> bool
        requires { IsCompatible self.now other.now }
        ensures { result ≡ is_subset other.now self.now }
    {
        other.has_no_more(self)
    }

    /// Whether this set contains the other and has more: at constant cost where it has no more of any replica,
    /// and else at that of [`UpdateSet::contains_all`].
    pub fn is_larger(&self, other: &UpdateSet) -> bool
        ensures { result ≡ is_larger other.now self.now }
    {
        self.is_larger_beyond(other, Counts::zero())
    }

    /// Whether this set contains the other and has more, of two sets that are known to have the
    /// same within these counts. The counts of the two are looked at first: where this set has no
    /// more of any replica, the answer is no, at constant cost. Else what both have beyond these
    /// counts is compared, and the cost is that.
    pub fn is_larger_beyond(&self, other: &UpdateSet, base: Counts) -> bool
        requires { within self.now base ≡ within other.now base }
        ensures { result ≡ is_larger other.now self.now }
    {
        !self.has_no_more(other) && self.contains_beyond(other, base)
    }

    /// Whether this set contains the other and has more, of two sets in which no id has two
    /// updates: by the counts alone, at constant cost.
    pub fn is_larger_compatible(&self, other: &UpdateSet) -> bool
        requires { IsCompatible self.now other.now }
        ensures { result ≡ is_larger other.now self.now }
    {
        other.has_no_more(self) && !self.has_no_more(other)
    }

    /// Becomes the other set where that is larger, and else stays; of two of which one contains the
    /// other it then is the larger. It goes by the counts alone, takes no memory, and the set that
    /// is not kept is dropped: the cost is constant but for that.
    pub fn take_larger(&mut self, other: UpdateSet)
        requires { AreComparable self.old other }
        ensures larger { self.new ≡ larger_of self.old other }
        ensures grows { IsSubset self.old self.new }
        ensures has { IsSubset other self.new }
    {
        if !self.contains_compatible(&other) {
            *self = other;
        }
    }

    /// Adds what the other set has. `Clash` comes exactly where an id has two different updates,
    /// and names the least such id. After a refusal the set is unchanged. Where the other set lies
    /// in this one nothing changes, and no memory is taken. The cost is that of comparing the
    /// updates that both have; what is added is shared.
    pub fn union(&mut self, other: &UpdateSet) -> Result<(), SetError>
        ensures ok { OnOk result (self.new ≡ join self.old other.now) }
        ensures compatible { OnOk result (IsCompatible self.old other.now) }
        ensures error { IfErr result (IsUnionRefusal self.old other.now) }
        ensures err { OnErr result (self.new ≡ self.old) }
        ensures room { IsSubset other.now self.old → IsOk result }
        ensures nothing { IsSubset other.now self.old → self.new ≡ self.old }
    {
        if let Some(id) = self.first_clash(other) {
            return Err(SetError::Clash(id));
        }
        self.join_compatible(other)?;
        Ok(())
    }

    /// Copies of this set's updates that the other has not, in the order of ids: set difference by
    /// the update itself, also where an id has two. Where this set lies in the other no memory is
    /// taken. The cost is linear in this set's length.
    pub fn beyond(&self, other: &UpdateSet) -> Result<Updates, AllocError>
        ensures room { IsSubset self.now other.now → IsOk result }
        ensures ok { IfOk result (λ updates. updates ≡ beyond self.now other.now) }
    {
        let alloc = self.allocator();
        let mut updates = Updates::new(alloc);
        for replica in 0..REPLICAS {
            let lacking = lacking(alloc, self.history_of(replica), other.history_of(replica))?;
            append_reversed(&mut updates, lacking)?;
        }
        Ok(updates)
    }

    // Whether the other set has as many updates of each replica, or more.
    fn has_no_more(&self, other: &UpdateSet) -> bool
        ensures { IsTrue result ↔ HasNoMore self.now other.now }
    {
        if let Some(mine) = self.few() {
            if let Some(theirs) = other.few() {
                return mine.are_no_longer(theirs);
            }
        }
        let mine = self.counts();
        let theirs = other.counts();
        for replica in 0..REPLICAS {
            if mine.of(replica) > theirs.of(replica) {
                return false;
            }
        }
        true
    }

    // Whether no id has different updates in the two sets.
    fn agrees(&self, other: &UpdateSet) -> bool
        ensures { IsTrue result ↔ IsCompatible self.now other.now }
    {
        self.first_clash(other).is_none()
    }

    // The same where the two are known to have the same within these counts.
    fn agrees_beyond(&self, other: &UpdateSet, base: Counts) -> bool
        requires { within self.now base ≡ within other.now base }
        ensures { IsTrue result ↔ IsCompatible self.now other.now }
    {
        self.first_clash_beyond(other, base).is_none()
    }

    /// The least id that has different updates in the two sets, or `None` where no id has. The cost
    /// is that of comparing the updates that both have.
    pub fn first_clash(&self, other: &UpdateSet) -> Option<UpdateId>
        ensures { MatchOption result (IsCompatible self.now other.now)
            (λ id. IsLeastClash self.now other.now id) }
    {
        self.first_clash_beyond(other, Counts::zero())
    }

    /// The least id that has different updates in the two sets, or `None` where no id has, of two
    /// sets that are known to have the same within these counts: only what both have beyond them is
    /// compared, and the cost is that.
    pub fn first_clash_beyond(&self, other: &UpdateSet, base: Counts) -> Option<UpdateId>
        requires { within self.now base ≡ within other.now base }
        ensures { MatchOption result (IsCompatible self.now other.now)
            (λ id. IsLeastClash self.now other.now id) }
    {
        let both = self.counts().min(other.counts());
        for replica in 0..REPLICAS {
            if let Some(place) = self.differ_at(other, base, both, replica) {
                let number = place as u32 + 1;
                return Some(UpdateId { replica, number });
            }
        }
        None
    }

    // The first place at which both sets have an update of a replica and these differ, of two sets
    // that are known to have the same within these counts, and that both have so many of each
    // replica. Where these are no more, no list is gone along.
    fn differ_at(&self, other: &UpdateSet, base: Counts, both: Counts, replica: u8) -> Option<usize>
        requires known { replica < REPLICAS }
        requires same { within self.now base ≡ within other.now base }
        requires both { count_in both replica ≡ min (count self.now replica) (count other.now replica) }
        ensures first { MatchOption result
            (Agree (updates_of self.now replica) (updates_of other.now replica))
            (λ place. IsFirstDifference (updates_of self.now replica) (updates_of other.now replica)
            place) }
        ensures limit { IfSome result (λ place. place < MAX_NUMBER) }
    {
        let known = base.of(replica);
        if both.of(replica) <= known {
            return None;
        }
        let mine = self.history_of(replica);
        let theirs = other.history_of(replica);
        first_difference_from(mine, theirs, known as usize)
    }

    /// Adds what the other set has beyond this one's counts, without refusing clashes: the join,
    /// which is the union where no id has two updates, as where one set contains the other. After a
    /// refusal the set is unchanged. Where this set has of each replica as many updates or more
    /// nothing changes, and no memory is taken. The cost is that of comparing the updates of the
    /// replicas of which the other set has more: where these agree what is added is shared, and
    /// else it is copied.
    pub fn join(&mut self, other: &UpdateSet) -> Result<(), AllocError>
        ensures ok { OnOk result (self.new ≡ join self.old other.now) }
        ensures err { OnErr result (self.new ≡ self.old) }
        ensures room { HasNoMore other.now self.old → IsOk result }
        ensures nothing { HasNoMore other.now self.old → self.new ≡ self.old }
    {
        if other.has_no_more(self) {
            return Ok(());
        }
        let alloc = self.allocator();
        let mut of = self.histories()?;
        for replica in 0..REPLICAS {
            catch_up(alloc, &mut of[replica as usize], other.history_of(replica))?;
        }
        *self = UpdateSet::keeping(alloc, of)?;
        Ok(())
    }

    /// Adds what the other set has beyond this one's counts, where no id has two updates in the
    /// two: the union. Nothing is compared and all that is added is shared, at constant cost. After
    /// a refusal the set is unchanged. Where the other set lies in this one nothing changes, and no
    /// memory is taken.
    pub fn join_compatible(&mut self, other: &UpdateSet) -> Result<(), AllocError>
        requires { IsCompatible self.old other.now }
        ensures ok { OnOk result (self.new ≡ join self.old other.now) }
        ensures err { OnErr result (self.new ≡ self.old) }
        ensures room { HasNoMore other.now self.old → IsOk result }
        ensures nothing { HasNoMore other.now self.old → self.new ≡ self.old }
    {
        if other.has_no_more(self) {
            return Ok(());
        }
        if self.has_no_more(other) {
            *self = other.copy()?;
            return Ok(());
        }
        let of = self.longer_histories(other)?;
        *self = UpdateSet::keeping(self.allocator(), of)?;
        Ok(())
    }

    // Of each replica the longer of the two sets' lists, shared.
    fn longer_histories(&self, other: &UpdateSet) -> Result<[History<Update>; 8], AllocError>
        requires { IsCompatible self.now other.now }
        ensures keeps { IfOk result (λ of. IsRepresentation of) }
        ensures join { IfOk result (λ of. represented of ≡ join self.now other.now) }
    {
        // a hint to the prover: no number is over the limit
        let _ = self.allocator();
        let _ = other.allocator();
        Ok([
            self.longer_history(other, 0)?,
            self.longer_history(other, 1)?,
            self.longer_history(other, 2)?,
            self.longer_history(other, 3)?,
            self.longer_history(other, 4)?,
            self.longer_history(other, 5)?,
            self.longer_history(other, 6)?,
            self.longer_history(other, 7)?,
        ])
    }

    // The longer of the two sets' lists of a replica, shared: the lengths are compared, and of the
    // shorter nothing is looked at.
    fn longer_history(&self, other: &UpdateSet, replica: u8) -> Result<History<Update>, AllocError>
        requires known { replica < REPLICAS }
        requires compatible { IsCompatible self.now other.now }
        ensures { IfOk result (λ list. list ≡ updates_of (join self.now other.now) replica) }
    {
        if self.count_of(replica) < other.count_of(replica) {
            return History::of(other.history_of(replica));
        }
        History::of(self.history_of(replica))
    }
}

// Copies of the updates that a list has and another has not at their places, the last first: lists
// are gone along from their ends.
fn lacking(
    alloc: Global,
    list: Lent<'_, Update>,
    other: Lent<'_, Update>,
) -> Result<Vec<Update>, AllocError>
    ensures room { unmatched (lent_items list.entry) (lent_items other.entry) ≡ [] → IsOk result }
    ensures ok { IfOk result (λ lacking.
        lacking.items ≡ reverse (unmatched (lent_items list.entry) (lent_items other.entry))) }
{
    let mut lacking = Vec::new(alloc);
    let mut mine = list;
    let mut theirs = first(other, len_of(list).min(len_of(other)));
    while len_of(mine) > 0 {
        let step = step_back(mine);
        let beside = step_beside(theirs, len_of(mine), step.item);
        mine = step.prev;
        theirs = beside.prev;
        if !beside.has {
            lacking.push(step.item.copy()?)?;
        }
    }
    Ok(lacking)
}

// Whether a list has an update at the last of so many places, and what stands before that place.
#[derive(Clone, Copy)]
struct Beside<'a> {
    has: bool,
    prev: Lent<'a, Update>,
}

// Looks at the last of so many places, and goes back before it. The list has no item behind that
// place.
fn step_beside<'a>(list: Lent<'a, Update>, len: usize, update: &Update) -> Beside<'a>
    requires { 0 < len }
    ensures has { (all : List Update) (k : ℕ) → len ≡ k + 1 → lent_items list.entry ≡ take len all
        → (IsTrue result.has ↔ (slice_get all k ≡ Some update.now)) }
    ensures prev { (all : List Update) (k : ℕ) → len ≡ k + 1 → lent_items list.entry ≡ take len all
        → lent_items result.prev ≡ take k all }
{
    if len_of(list) != len {
        return Beside {
            has: false,
            prev: list,
        };
    }
    let step = step_back(list);
    Beside {
        has: step.item.same(update),
        prev: step.prev,
    }
}

// Puts updates last in a list, the last of them first.
pub(crate) fn append_reversed(
    updates: &mut Updates,
    reversed: Vec<Update>,
) -> Result<(), AllocError>
    ensures room { reversed.items ≡ [] → IsOk result }
    ensures ok { OnOk result (updates.new ≡ updates.old ++ reverse reversed.items) }
{
    let mut left = reversed;
    while let Some(update) = left.pop() {
        updates.push(update)?;
    }
    Ok(())
}

// Adds what a list has beyond another's length to that, shared if it can be.
fn catch_up(
    alloc: Global,
    mine: &mut History<Update>,
    theirs: Lent<'_, Update>,
) -> Result<(), AllocError>
    requires { length (lent_items theirs) ≤ MAX_NUMBER }
    ensures { OnOk result (mine.new ≡ joined mine.old (lent_items theirs.entry)) }
{
    if begins_with(theirs, mine.link()) {
        return mine.extend_from(theirs);
    }
    for place in len_of(mine.link())..len_of(theirs) {
        mine.push(alloc, item(theirs, place).copy()?)?;
    }
    Ok(())
}

// The update at a place that there is.
pub(crate) fn item(updates: Lent<'_, Update>, place: usize) -> &Update
    requires { place < length (lent_items updates) }
    ensures { slice_get (lent_items updates.entry) place ≡ Some result.now }
{
    match item_at(updates, place) {
        Some(update) => update,
        None => unreachable!(),
    }
}
