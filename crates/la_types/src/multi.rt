ghost use Rattle.std.specs.Prelude.{◌≡◌, ◌↔◌, ◌++◌, [], Some, None, set, replicate};
ghost use Rattle.std.specs.Prelude.{IsTrue, IfOk, IfErr, OnOk, OnErr};
ghost use Rattle.std.specs.Prelude.{slice_index_or};
ghost use Rattle.std.specs.List.{cons_option};
ghost use Rattle.std.specs.Option.{option_copied};
ghost use Rattle.la_types.specs.Bytes.{plain};
ghost use Rattle.la_types.specs.Multis.{multi_op, multi_of, multi_start, beyond_seen};
ghost use Rattle.la_types.specs.Refusals.{IsMultiRefusal};

use crate::bytes::{Written, behind, counts_in, put_all, put_counts};
use crate::{Begins, Bytes};
use la_own::{OwnError, laws, own_bytes, own_op};
use la_set::{Counts, Op, REPLICAS, Sequence, Update};
use la_shelf::{Absorbs, Refusal};
use std::alloc::{AllocError, Global};
use std::marker::Model;

/// How long a value may be that a [`MultiRegister`] takes.
pub const MULTI_BYTES: usize = 216;

/// The operation that writes a value into a [`MultiRegister`]. It takes the place of what its maker
/// had seen: `seen` is `view.counts()` of the view that he acted by.
///
/// `TooLong` comes exactly above [`MULTI_BYTES`] bytes.
pub fn multi_op(alloc: Global, seen: Counts, value: &[u8]) -> Result<Op, OwnError>
    ensures ok { IfOk result (λ op. op ≡ multi_op seen value.now) }
    ensures comes_back { IfOk result (λ op. multi_of op ≡ Some (plain seen, value.now)) }
    ensures error { IfErr result (IsMultiRefusal value.now) }
{
    if value.len() > MULTI_BYTES {
        return Err(OwnError::TooLong);
    }
    laws::bytes_come_back();
    let mut bytes = Written::new();
    put_counts(&mut bytes, seen);
    put_all(&mut bytes, value);
    own_op(alloc, bytes.as_slice())
}

/// What a replica wrote last.
#[derive(Drop, PartialEq)]
pub struct Entry {
    /// The number of the update.
    pub number: u32,
    pub value: Bytes,
}

/// Of each replica what it wrote last: a list of eight, to clauses.
#[derive(Drop)]
pub struct LastWrites {
    of: [Option<Entry>; 8],
}

impl Model for LastWrites {
    ghost use Rattle.std.specs.Prelude.{◌≡◌, List, Option, length};
    ghost use Rattle.la_types.specs.declared.multi.Entry.{Entry as Written};

    ghost Value = { List (Option Written) };

    ghost view = { λ l. l.of };

    ghost invariant = { λ l. length l.of ≡ 8 };
}

impl LastWrites {
    // No replica wrote anything.
    fn new() -> LastWrites
        ensures { result ≡ replicate 8 None }
    {
        LastWrites {
            of: [None, None, None, None, None, None, None, None],
        }
    }

    // Whether no replica wrote anything.
    fn is_empty(&self) -> bool
        ensures { IsTrue result ↔ (self.now ≡ replicate 8 None) }
    {
        self.of == [None, None, None, None, None, None, None, None]
    }

    /// What a replica wrote last: nothing, from replica 8 on.
    pub fn of(&self, replica: u8) -> Option<&Entry>
        ensures { option_copied result ≡ slice_index_or self.now replica None }
    {
        let of = &self.of;
        if replica >= REPLICAS {
            return None;
        }
        of[replica as usize].as_ref()
    }

    // Puts what a replica wrote in the place of what it wrote before.
    fn put(&mut self, replica: u8, entry: Entry)
        ensures { self.new ≡ set self.old replica (Some entry) }
    {
        if replica < REPLICAS {
            self.of[replica as usize] = Some(entry);
        }
    }

    // A copy.
    fn copy(&self) -> Result<LastWrites, AllocError>
        ensures { IfOk result (λ copy. copy ≡ self.now) }
    {
        Ok(LastWrites {
            of: [
                copy_of(&self.of[0])?,
                copy_of(&self.of[1])?,
                copy_of(&self.of[2])?,
                copy_of(&self.of[3])?,
                copy_of(&self.of[4])?,
                copy_of(&self.of[5])?,
                copy_of(&self.of[6])?,
                copy_of(&self.of[7])?,
            ],
        })
    }
}

/// What a [`MultiRegister`] keeps of its updates.
#[derive(Drop)]
pub struct MultiState {
    /// Of each replica what it wrote last.
    pub last: LastWrites,
    /// Of each replica how many of its updates some write had seen.
    pub seen: Counts,
}

/// A register of bytes that keeps what was written at the same time: a write takes the place of
/// what its maker had seen, and of what its own replica wrote before, and of nothing else.
///
/// It has no kinds, one question, `()`, and its answer is the values that no write had seen, at
/// most one of each replica, in the order of replicas. It keeps the last write of each replica.
#[derive(Drop)]
pub struct MultiRegister {
    state: MultiState,
    alloc: Global,
}

impl MultiRegister {
    /// A register in which nothing was written. It takes no memory.
    pub fn new(alloc: Global) -> MultiRegister
        ensures { result.state ≡ multi_start }
    {
        MultiRegister {
            state: MultiState {
                last: LastWrites::new(),
                seen: Counts::zero(),
            },
            alloc,
        }
    }
}

impl Absorbs for MultiRegister {
    ghost use Rattle.la_types.specs.Multis.{multi_meaning};
    ghost use Rattle.la_shelf.specs.declared.error.Refusal.TheVariants.{Memory};
    ghost use Rattle.la_types.specs.MultiLaws.{multi_lawful};

    type Kind = ();

    type State = MultiState;

    type Query = ();

    type Answer = Sequence<Bytes>;

    ghost state = { λ register. register.state };

    ghost meaning = { multi_meaning };

    ghost full = { λ _ _. ⊥ };

    fn fresh(&self) -> bool {
        self.state.last.is_empty() && self.state.seen == Counts::zero()
    }

    fn absorb(&mut self, update: &Update) -> Result<(), Refusal>
        ensures ok { OnOk result (self.new.state ≡ multi_meaning.after self.old.state update.now) }
        ensures error { IfErr result (λ e. e ≡ Memory) }
        ensures err { OnErr result (self.new.state ≡ self.old.state) }
    {
        let Some(own) = own_bytes(&update.op) else {
            return Ok(());
        };
        let bytes = own.as_slice();
        if bytes.len() < 32 {
            return Ok(());
        }
        let value = Bytes::of(self.alloc, behind(bytes, 32))?;
        let number = update.id.number;
        self.state
            .last
            .put(update.id.replica, Entry { number, value });
        self.state.seen = self.state.seen.max(counts_in(bytes));
        Ok(())
    }

    fn ask(&self, _question: &()) -> Result<Sequence<Bytes>, AllocError> {
        let mut values = Vec::new(self.alloc);
        for replica in 0..REPLICAS {
            put_unseen(&mut values, &self.state, replica)?;
        }
        Ok(Sequence::from(values))
    }

    fn state(&self) -> Result<MultiState, AllocError> {
        Ok(MultiState {
            last: self.state.last.copy()?,
            seen: self.state.seen,
        })
    }

    ghost lawful = { multi_lawful };
}

impl Begins for MultiRegister {
    fn begin(alloc: Global) -> MultiRegister {
        MultiRegister::new(alloc)
    }
}

fn copy_of(entry: &Option<Entry>) -> Result<Option<Entry>, AllocError>
    ensures { IfOk result (λ copy. copy ≡ entry.now) }
{
    match entry {
        Some(entry) => Ok(Some(Entry {
            number: entry.number,
            value: entry.value.copy()?,
        })),
        None => Ok(None),
    }
}

// Puts what a replica wrote last behind other values, unless a write had seen it.
fn put_unseen(values: &mut Vec<Bytes>, state: &MultiState, replica: u8) -> Result<(), AllocError>
    ensures { OnOk result (values.new.items ≡ values.old.items ++ cons_option
        (beyond_seen state.now.seen replica (slice_index_or state.now.last replica None)) []) }
{
    if let Some(entry) = state.last.of(replica) {
        if state.seen.of(replica) < entry.number {
            values.push(entry.value.copy()?)?;
        }
    }
    Ok(())
}
