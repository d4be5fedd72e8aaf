ghost use Rattle.std.specs.Prelude.{◌≡◌, ◌≤◌, ◌↔◌, Some, IsTrue, IfOk, IfErr, OnOk, OnErr};
ghost use Rattle.la_types.specs.declared.counter_map.CounterOp.TheVariants.{Add, Reset};
ghost use Rattle.la_types.specs.Bytes.{plain};
ghost use Rattle.la_types.specs.CounterMaps.{counter_op, counter_of, counter_read, counter_start};
ghost use Rattle.la_types.specs.CounterMaps.{counter_step, amount_beyond, amount_of, with_seen};
ghost use Rattle.la_types.specs.CounterMaps.{key_seen, key_beyond};
ghost use Rattle.la_types.specs.Refusals.{IsCounterRefusal, IsKeepRefusal, IsCountingRefusal};

use crate::bytes::{Written, behind, count_at, counts_in, put_all, put_counts};
use crate::{Begins, Bytes};
use la_own::{OwnError, laws, own_bytes, own_op};
use la_set::{Counts, Op, REPLICAS, Update, UpdateId};
use la_shelf::{Absorbs, Refusal};
use std::alloc::{AllocError, Global};
use std::marker::Model;

/// How long a key may be that a [`CounterMap`] takes.
pub const COUNTER_KEY_BYTES: usize = 215;

/// What is done to a [`CounterMap`].
#[derive(Drop)]
pub enum CounterOp {
    /// Adds an amount to the counter under a key.
    Add { amount: u32, key: Bytes },
    /// Takes the counter under a key back as far as its maker had seen what was added: `seen` is
    /// `view.counts()` of the view that he acted by. That view has an add of his own only once this
    /// is learnt. One that it lacks stays in the sum: wait until the view has it.
    Reset { seen: Counts, key: Bytes },
}

/// The operation that adds an amount to the counter under a key.
///
/// `TooLong` comes exactly where the key is above [`COUNTER_KEY_BYTES`] bytes.
pub fn add_op(alloc: Global, amount: u32, key: &[u8]) -> Result<Op, OwnError>
    ensures ok { IfOk result (λ op. op ≡ counter_op (Add amount key.now)) }
    ensures comes_back { IfOk result (λ op. counter_of op ≡ Some (Add amount key.now)) }
    ensures error { IfErr result (IsCounterRefusal key.now) }
{
    if key.len() > COUNTER_KEY_BYTES {
        return Err(OwnError::TooLong);
    }
    laws::bytes_come_back();
    let mut bytes = Written::new();
    bytes.push(1);
    put_all(&mut bytes, &amount.to_le_bytes());
    put_all(&mut bytes, key);
    own_op(alloc, bytes.as_slice())
}

/// The operation that takes the counter under a key back as far as its maker had seen what was
/// added: `seen` is `view.counts()` of the view that he acted by. What he had not seen stays, also
/// an add of his own that the view lacks, since it is not learnt yet: wait until the view has it.
///
/// `TooLong` comes exactly where the key is above [`COUNTER_KEY_BYTES`] bytes.
pub fn reset_op(alloc: Global, seen: Counts, key: &[u8]) -> Result<Op, OwnError>
    ensures ok { IfOk result (λ op. op ≡ counter_op (Reset seen key.now)) }
    ensures comes_back { IfOk result (λ op. counter_of op ≡ Some (Reset (plain seen) key.now)) }
    ensures error { IfErr result (IsCounterRefusal key.now) }
{
    if key.len() > COUNTER_KEY_BYTES {
        return Err(OwnError::TooLong);
    }
    laws::bytes_come_back();
    let mut bytes = Written::new();
    bytes.push(2);
    put_counts(&mut bytes, seen);
    put_all(&mut bytes, key);
    own_op(alloc, bytes.as_slice())
}

impl CounterOp {
    /// What an operation does to a map of counters, and `None` exactly where it is none of theirs.
    /// It takes memory for the key.
    pub fn of_op(alloc: Global, op: &Op) -> Result<Option<CounterOp>, AllocError>
        ensures { IfOk result (λ does. does ≡ counter_of op.now) }
    {
        match own_bytes(op) {
            Some(own) => read(alloc, own.as_slice()),
            None => Ok(None),
        }
    }

    // A copy.
    fn copy(&self) -> Result<CounterOp, AllocError>
        ensures { IfOk result (λ copy. copy ≡ self.now) }
    {
        match self {
            CounterOp::Add { amount, key } => Ok(CounterOp::Add {
                amount: *amount,
                key: key.copy()?,
            }),
            CounterOp::Reset { seen, key } => Ok(CounterOp::Reset {
                seen: *seen,
                key: key.copy()?,
            }),
        }
    }
}

// What these bytes say.
fn read(alloc: Global, bytes: &[u8]) -> Result<Option<CounterOp>, AllocError>
    ensures { IfOk result (λ does. does ≡ counter_read bytes.now) }
{
    if bytes.len() >= 5 && bytes[0] == 1 {
        let amount = count_at(bytes, 1);
        let key = Bytes::of(alloc, behind(bytes, 5))?;
        return Ok(Some(CounterOp::Add { amount, key }));
    }
    if bytes.len() >= 33 && bytes[0] == 2 {
        let seen = counts_in(behind(bytes, 1));
        let key = Bytes::of(alloc, behind(bytes, 33))?;
        return Ok(Some(CounterOp::Reset { seen, key }));
    }
    Ok(None)
}

// What the update with an id did.
#[derive(Drop)]
struct KeptCount {
    id: UpdateId,
    does: CounterOp,
}

impl KeptCount {
    // How much it adds to a key, where it is beyond the counts.
    fn beyond(&self, key: &Bytes, counts: Counts) -> u32
        ensures value { result ≡ amount_beyond key.now counts self.now.id (Some self.now.does) }
        ensures bound { result ≤ amount_of self.now.does }
    {
        if counts.of(self.id.replica) >= self.id.number {
            return 0;
        }
        match &self.does {
            CounterOp::Add { amount, key: other } if *other == *key => *amount,
            _ => 0,
        }
    }

    // What was seen before, and what it had seen, where it is a reset of the key.
    fn with_seen(&self, key: &Bytes, before: Counts) -> Counts
        ensures { result ≡ with_seen key.now before self.now }
    {
        match &self.does {
            CounterOp::Reset { seen, key: other } if *other == *key => before.max(*seen),
            _ => before,
        }
    }

    // The amount, of whatever key.
    fn amount(&self) -> u32
        ensures { result ≡ amount_of self.now.does }
    {
        match &self.does {
            CounterOp::Add { amount, .. } => *amount,
            CounterOp::Reset { .. } => 0,
        }
    }

    fn copy(&self) -> Result<KeptCount, AllocError>
        ensures { IfOk result (λ copy. copy ≡ self.now) }
    {
        Ok(KeptCount {
            id: self.id,
            does: self.does.copy()?,
        })
    }
}

/// What a [`CounterMap`] keeps of its updates: to clauses, of each replica what it did to the
/// counters, in its order.
#[derive(Drop)]
pub struct CounterState {
    // In the order in which they came.
    kept: Vec<KeptCount>,
    // The sum of all amounts, of whatever key.
    total: u64,
}

impl Model for CounterState {
    ghost use Rattle.std.specs.Prelude.{◌≡◌, ◌<◌, ◌^◌, All};
    ghost use Rattle.la_set.specs.declared.set.TheConstants.{REPLICAS};
    ghost use Rattle.la_types.specs.CounterMaps.{KeptCounters, kept_by_replica, total_kept};

    ghost Value = { KeptCounters };

    ghost view = { λ s. kept_by_replica s.kept.items };

    ghost invariant = { λ s. (s.total ≡ total_kept s.kept.items)
        × (s.total < 2 ^ 64) × All (λ k. k.id.replica < REPLICAS) s.kept.items };
}

impl CounterState {
    /// Nothing was done. It takes no memory.
    pub fn new(alloc: Global) -> CounterState
        ensures { result ≡ counter_start }
    {
        CounterState {
            kept: Vec::new(alloc),
            total: 0,
        }
    }

    /// Whether nothing was done, at constant cost.
    pub fn is_empty(&self) -> bool
        ensures { IsTrue result ↔ (self.now ≡ counter_start) }
    {
        self.kept.as_slice().is_empty()
    }

    /// Of each replica how many of its updates some reset of the key had seen, at a cost in
    /// proportion to what is kept.
    pub fn seen(&self, key: &Bytes) -> Counts
        ensures { result ≡ key_seen self.now key.now }
    {
        let mut seen = Counts::zero();
        for kept in self.kept.iter() {
            seen = kept.with_seen(key, seen);
        }
        seen
    }

    /// How much was added to the key by updates beyond the counts, at a cost in proportion to what
    /// is kept.
    pub fn beyond(&self, key: &Bytes, counts: Counts) -> u64
        ensures { result ≡ key_beyond self.now key.now counts }
    {
        let mut sum: u64 = 0;
        for kept in self.kept.iter() {
            sum += kept.beyond(key, counts) as u64;
        }
        sum
    }

    // Keeps what an update did. `Full` comes where all amounts would be above a u64.
    fn keep(&mut self, id: UpdateId, does: CounterOp) -> Result<(), Refusal>
        ensures ok { OnOk result (self.new ≡ counter_step self.old id (Some does)) }
        ensures err { OnErr result (self.new ≡ self.old) }
        ensures error { IfErr result (IsKeepRefusal self.old does) }
    {
        let kept = KeptCount { id, does };
        let total = self.total.checked_add(kept.amount() as u64);
        if id.replica >= REPLICAS {
            return Ok(());
        }
        let Some(total) = total else {
            return Err(Refusal::Full);
        };
        self.kept.push(kept)?;
        self.total = total;
        Ok(())
    }

    /// A copy.
    pub fn copy(&self, alloc: Global) -> Result<CounterState, AllocError>
        ensures { IfOk result (λ copy. copy ≡ self.now) }
    {
        Ok(CounterState {
            kept: copy_all(alloc, self.kept.as_slice())?,
            total: self.total,
        })
    }
}

fn copy_all(alloc: Global, all: &[KeptCount]) -> Result<Vec<KeptCount>, AllocError>
    ensures { IfOk result (λ copy. copy.items ≡ all.now) }
{
    let mut copy = Vec::new(alloc);
    for kept in all {
        copy.push(kept.copy()?)?;
    }
    Ok(copy)
}

/// A map from keys, which are bytes, to counters. A counter is the sum of what was added under its
/// key that no reset of the key had seen: so an add wins over a reset that was made at the same
/// time. It also wins over one that its own replica made before its view had the add.
///
/// It has no kinds; it is asked by a key, in place, and answers the counter, or 0 where nothing
/// was added. It keeps every add and reset with its key, an answer costs in proportion to them,
/// and it is full once all amounts together, of whatever key, are above what a `u64` holds.
#[derive(Drop)]
pub struct CounterMap {
    state: CounterState,
    alloc: Global,
}

impl CounterMap {
    /// A map in which all counters are 0. It takes no memory.
    pub fn new(alloc: Global) -> CounterMap
        ensures { result.state ≡ counter_start }
    {
        CounterMap {
            state: CounterState::new(alloc),
            alloc,
        }
    }
}

impl Absorbs for CounterMap {
    ghost use Rattle.la_types.specs.CounterMaps.{counter_meaning, counter_full};
    ghost use Rattle.la_types.specs.CounterMapLaws.{counter_lawful};

    type Kind = ();

    type State = CounterState;

    type Query = Bytes;

    type Answer = u64;

    ghost state = { λ m. m.state };

    ghost meaning = { counter_meaning };

    ghost full = { counter_full };

    fn fresh(&self) -> bool {
        self.state.is_empty()
    }

    fn absorb(&mut self, update: &Update) -> Result<(), Refusal>
        ensures ok { OnOk result (self.new.state ≡ counter_meaning.after self.old.state update.now) }
        ensures error { IfErr result (IsCountingRefusal self.old.state (counter_of update.now.op)) }
        ensures err { OnErr result (self.new.state ≡ self.old.state) }
    {
        match CounterOp::of_op(self.alloc, &update.op)? {
            Some(does) => self.state.keep(update.id, does),
            None => Ok(()),
        }
    }

    fn ask(&self, key: &Bytes) -> Result<u64, AllocError> {
        Ok(self.state.beyond(key, self.state.seen(key)))
    }

    fn state(&self) -> Result<CounterState, AllocError> {
        self.state.copy(self.alloc)
    }

    ghost lawful = { counter_lawful };
}

impl Begins for CounterMap {
    fn begin(alloc: Global) -> CounterMap {
        CounterMap::new(alloc)
    }
}
