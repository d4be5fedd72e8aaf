ghost use Rattle.std.specs.Prelude.{◌≡◌, ◌<◌, ◌≤◌, ◌++◌, [], length, map, slice_get};
ghost use Rattle.std.specs.Prelude.{IsOk, IfOk, IfErr, IfSome, OnOk, OnErr};
ghost use Rattle.std.specs.Option.{option_copied};
ghost use Rattle.la_set.specs.ObjectOps.{object_op_of};
ghost use Rattle.la_set.specs.Histories.{empty, count, get, last_update, updates, updates_of};
ghost use Rattle.la_set.specs.Histories.{numbered, with_history, push, pop, truncate};
ghost use Rattle.la_set.specs.Histories.{IsNext, IsWithinLimit};
ghost use Rattle.la_set.specs.Counts.{counts_of};
ghost use Rattle.la_set.specs.Refusals.{IsPushRefusal};
ghost use Rattle.la_set.specs.Links.{lent_items};
ghost use Rattle.la_set.specs.Representation.{represented, four_of, AreListsOf, IsRepresentation};
ghost use Rattle.la_set.specs.Kept.{lists_of, cut_to};

use crate::history::{History, Lent, first, item_at};
use crate::kept::{Cut, Kept};
use crate::lists::FourLists;
use crate::{Counts, SetError, Update, UpdateId};
use std::alloc::{AllocError, Global};
use std::marker::Model;
use std::mem;

/// How many replicas a group may have: their numbers are 0 to 7.
pub const REPLICAS: u8 = 8;

/// The largest number that an update may have.
pub const MAX_NUMBER: u32 = 1_000_000;

/// A set of updates, one for each id, in which each replica's numbers run from 1 without a gap.
///
/// It keeps a list for each replica, in the order of the numbers. The lists and their lengths lie
/// behind one pointer, and copies share them: what is added to one copy, the others don't see.
pub struct UpdateSet {
    alloc: Global,
    of: Kept,
}

impl Model for UpdateSet {
    ghost use Rattle.la_set.specs.Histories.{Histories};

    ghost Value = { Histories };

    ghost use Rattle.la_set.specs.Representation.{IsRepresentation};
    ghost use Rattle.la_set.specs.Kept.{lists_of, stored};

    ghost view = { λ s. stored s.of };

    ghost invariant = { λ s. IsRepresentation (lists_of s.of) };
}

// A hint to the prover: a derived drop would be written out, with its branch, into who drops a set.
impl Drop for UpdateSet {
    fn drop(self) {
        let UpdateSet { alloc: _, of } = self;
        drop(of);
    }
}

impl UpdateSet {
    /// The empty set, which takes no memory.
    pub fn new(alloc: Global) -> UpdateSet
        ensures { result ≡ empty }
    {
        UpdateSet {
            alloc,
            of: Kept::Empty,
        }
    }

    /// How many updates of a replica there are, at most [`MAX_NUMBER`]: their numbers are 1 to
    /// this. A replica of 8 or more has none. The cost is constant.
    pub fn count_of(&self, replica: u8) -> u32
        ensures count { result ≡ count self.now replica }
        ensures limit { result ≤ MAX_NUMBER }
    {
        if replica >= REPLICAS {
            return 0;
        }
        self.of.cut().leaves(replica, self.of.len_of(replica))
    }

    /// How many updates of each replica there are, at most [`MAX_NUMBER`] each, at constant cost.
    pub fn counts(&self) -> Counts
        ensures counts { result ≡ counts_of self.now }
        ensures limit { IsWithinLimit self.now }
    {
        if let Some(low) = self.few() {
            return Counts::of_fours(low.lens(), [0; 4]);
        }
        let cut = self.of.cut();
        self.of.counts().capped(cut.replica, cut.len)
    }

    /// How many updates there are, at most 8,000,000. The cost is constant.
    pub fn len(&self) -> usize
        ensures len { result ≡ length (updates self.now) }
        ensures limit { result ≤ 8000000 }
    {
        let counts = self.counts();
        let mut all = 0;
        for replica in 0..REPLICAS {
            all += counts.of(replica) as usize;
        }
        all
    }

    /// The update with this id, at logarithmic cost.
    pub fn get(&self, id: UpdateId) -> Option<&Update>
        ensures { option_copied result ≡ get self.now id }
    {
        if id.number == 0 || id.replica >= REPLICAS {
            return None;
        }
        item_at(self.history_of(id.replica), (id.number - 1) as usize)
    }

    /// The update at a place, from 0, in the order of ids. The cost is logarithmic.
    pub fn at(&self, place: usize) -> Option<&Update>
        ensures { option_copied result ≡ slice_get (updates self.now) place }
    {
        let counts = self.counts();
        let mut left = place;
        for replica in 0..REPLICAS {
            let count = counts.of(replica) as usize;
            if left < count {
                return item_at(self.history_of(replica), left);
            }
            left -= count;
        }
        None
    }

    /// A copy, which shares all updates, at constant cost. It takes no memory.
    ///
    /// The refusal is that of a full count of owners, at 2^63: no memory holds so many copies, but
    /// no contract can say so. A call that is said to take no memory, and may yet be refused for
    /// want of it, is refused for this count alone.
    #[inline(always)]
    pub fn copy(&self) -> Result<UpdateSet, AllocError>
        ensures { IfOk result (λ copy. copy ≡ self.now) }
    {
        Ok(UpdateSet {
            alloc: self.alloc,
            of: self.of.copy()?,
        })
    }

    /// Adds an update that comes next of its replica, at constant cost: whatever shares this set's
    /// other updates goes on sharing them. `Gap` comes exactly where it does not come next: where
    /// its number is not one more than the replica's count, or is over [`MAX_NUMBER`], or where the
    /// replica is 8 or more. After a refusal the set is unchanged, and the update is dropped.
    pub fn push(&mut self, update: Update) -> Result<(), SetError>
        ensures ok { OnOk result (self.new ≡ push self.old update) }
        ensures next { OnOk result (IsNext self.old update.id) }
        ensures error { IfErr result (IsPushRefusal self.old update.id) }
        ensures err { OnErr result (self.new ≡ self.old) }
    {
        let UpdateId { replica, number } = update.id;
        if replica >= REPLICAS || number > MAX_NUMBER || number != self.count_of(replica) + 1 {
            return Err(SetError::Gap);
        }
        self.append(update)?;
        Ok(())
    }

    /// Takes a replica's last update out, and answers a copy of it, at the cost of
    /// [`UpdateSet::truncate`] and of [`Update::copy`], and with their memory. A replica of 8 or more,
    /// or one without updates, has none, and then it takes none. After a refusal the set is
    /// unchanged.
    pub fn pop(&mut self, replica: u8) -> Result<Option<Update>, AllocError>
        ensures last { IfOk result (λ last. last ≡ last_update self.old replica) }
        ensures rest { OnOk result (self.new ≡ pop self.old replica) }
        ensures room { count self.old replica ≡ 0 → IsOk result }
        ensures err { OnErr result (self.new ≡ self.old) }
    {
        let count = self.count_of(replica);
        let id = UpdateId {
            replica,
            number: count,
        };
        let last = match self.get(id) {
            Some(update) => Some(update.copy()?),
            None => return Ok(None),
        };
        self.truncate(replica, count - 1)?;
        Ok(last)
    }

    /// Keeps a replica's first so many updates; all of them, where there are no more. A replica of 8
    /// or more has none. After a refusal the set is unchanged.
    ///
    /// Where there are more, the set notes the cut: it takes no memory, at constant cost, and what is
    /// cut off stays in memory as long as the set and its copies. A set notes one cut, also of
    /// [`Ready::first`](crate::Ready::first), until updates are added: where that is another
    /// replica's, it takes a block, at logarithmic cost.
    pub fn truncate(&mut self, replica: u8, len: u32) -> Result<(), AllocError>
        ensures ok { OnOk result (self.new ≡ truncate self.old replica len) }
        ensures room { count self.old replica ≤ len → IsOk result }
        ensures err { OnErr result (self.new ≡ self.old) }
    {
        if self.count_of(replica) <= len {
            return Ok(());
        }
        if self.of.is_cut_elsewhere(replica) {
            let front = History::front_of(self.history_of(replica), len as usize)?;
            return self.put(replica, front);
        }
        let of = mem::replace(&mut self.of, Kept::Empty);
        *self = UpdateSet::cut(self.alloc, of, Cut { replica, len });
        Ok(())
    }

    // One replica's updates, in the order of their numbers.
    pub(crate) fn history_of(&self, replica: u8) -> Lent<'_, Update>
        requires { replica < REPLICAS }
        ensures updates { lent_items result ≡ updates_of self.now replica }
        ensures limit { length (lent_items result) ≤ MAX_NUMBER }
    {
        let list = self.of.list(replica);
        let cut = self.of.cut();
        if replica != cut.replica {
            return list;
        }
        if self.of.len_of(replica) <= cut.len {
            return list;
        }
        first(list, cut.len as usize)
    }

    // The lists of replicas 0 to 3, where the set has these alone.
    pub(crate) fn few(&self) -> Option<&FourLists>
        ensures keeps { IfSome (option_copied result) (λ low.
            IsRepresentation (four_of low ++ four_of [])) }
        ensures set { IfSome (option_copied result) (λ low.
            self.now ≡ represented (four_of low ++ four_of [])) }
    {
        self.of.few()
    }

    // What the set allocates with. The contract also tells that no number is over the limit.
    pub(crate) fn allocator(&self) -> Global
        ensures { IsWithinLimit self.now }
    {
        self.alloc
    }

    // All replicas' updates, each list shared.
    pub(crate) fn histories(&self) -> Result<[History<Update>; 8], AllocError>
        ensures eight { IfOk result (λ of. length of ≡ REPLICAS) }
        ensures each { IfOk result (λ of. AreListsOf of self.now) }
    {
        Ok([
            History::of(self.history_of(0))?,
            History::of(self.history_of(1))?,
            History::of(self.history_of(2))?,
            History::of(self.history_of(3))?,
            History::of(self.history_of(4))?,
            History::of(self.history_of(5))?,
            History::of(self.history_of(6))?,
            History::of(self.history_of(7))?,
        ])
    }

    // The set that keeps these lists.
    pub(crate) fn keeping(alloc: Global, of: [History<Update>; 8]) -> Result<UpdateSet, AllocError>
        requires { IsRepresentation of }
        ensures { IfOk result (λ set. set ≡ represented of) }
    {
        Ok(UpdateSet {
            alloc,
            of: Kept::keeping(alloc, of)?,
        })
    }

    // The set that keeps these lists of replicas 0 to 3.
    pub(crate) fn keeping_few(alloc: Global, low: FourLists) -> Result<UpdateSet, AllocError>
        requires { IsRepresentation (four_of low ++ four_of []) }
        ensures { IfOk result (λ set. set ≡ represented (four_of low ++ four_of [])) }
    {
        Ok(UpdateSet {
            alloc,
            of: Kept::keeping_few(alloc, low)?,
        })
    }

    // The set that keeps these lists, cut here, and nowhere else.
    pub(crate) fn cut(alloc: Global, of: Kept, cut: Cut) -> UpdateSet
        requires { IsRepresentation (lists_of of) }
        ensures { result ≡ cut_to cut (represented (lists_of of)) }
    {
        UpdateSet {
            alloc,
            of: of.cut_at(cut),
        }
    }

    // Puts a list in the place of a replica's.
    fn put(&mut self, replica: u8, list: History<Update>) -> Result<(), AllocError>
        requires known { replica < REPLICAS }
        requires numbered { list ≡ numbered replica 1 (map object_op_of list) }
        requires within { length list ≤ MAX_NUMBER }
        ensures ok { OnOk result
            (self.new ≡ with_history self.old replica (map object_op_of list)) }
        ensures err { OnErr result (self.new ≡ self.old) }
    {
        let mut of = self.histories()?;
        of[replica as usize] = list;
        *self = UpdateSet::keeping(self.allocator(), of)?;
        Ok(())
    }

    // Adds an update that comes next.
    pub(crate) fn append(&mut self, update: Update) -> Result<(), AllocError>
        requires { IsNext self.old update.id }
        ensures ok { OnOk result (self.new ≡ push self.old update) }
        ensures err { OnErr result (self.new ≡ self.old) }
    {
        let replica = update.id.replica;
        let mut list = History::of(self.history_of(replica))?;
        list.push(self.alloc, update)?;
        self.put(replica, list)
    }
}
