ghost use Rattle.std.specs.Prelude.{◌≡◌, ◌↔◌, IsOk, IsTrue, IfOk};
ghost use Rattle.la_set.specs.ObjectOps.{CopiesInPlace};

use crate::history::Same;
use crate::{Sequence, Tags};
use std::alloc::AllocError;

/// Which update: the replica that made it, and the update's number among that replica's updates,
/// from 1. Ids are in the order of their replicas, and then of their numbers. The default, `0.0`,
/// is no update's id.
#[derive(Clone, Copy, Debug, Default, PartialEq, Eq, PartialOrd, Ord, Hash)]
pub struct UpdateId {
    pub replica: u8,
    pub number: u32,
}

/// What an update does to its object.
#[derive(Drop)]
pub enum Op {
    /// Adds to a counter.
    Inc(u32),
    /// Takes from a counter.
    Dec(u32),
    /// Raises a max register to at least this value.
    Raise(u64),
    /// Puts an element into an observed-remove set; the update's id is the tag of this add.
    Put(u64),
    /// Takes out of an observed-remove set the adds that these tags name.
    Remove(Tags),
    /// Changes no object: what is learnt with it tells what was learnt before it.
    Mark,
    /// A participant's vote in an adopt-commit object: the value, and whether the participant saw
    /// that value alone.
    Vote { value: u64, sole: bool },
}

impl Op {
    /// A copy, which takes memory only for a `Remove` of more than [`INLINE_TAGS`] tags.
    ///
    /// [`INLINE_TAGS`]: crate::INLINE_TAGS
    pub fn copy(&self) -> Result<Op, AllocError>
        ensures ok { IfOk result (λ op. op ≡ self.now) }
        ensures room { CopiesInPlace self.now → IsOk result }
    {
        Ok(match self {
            Op::Inc(by) => Op::Inc(*by),
            Op::Dec(by) => Op::Dec(*by),
            Op::Raise(to) => Op::Raise(*to),
            Op::Put(element) => Op::Put(*element),
            Op::Remove(tags) => Op::Remove(tags.copy()?),
            Op::Mark => Op::Mark,
            Op::Vote { value, sole } => Op::Vote {
                value: *value,
                sole: *sole,
            },
        })
    }

    /// Whether two operations are one.
    pub fn same(&self, other: &Op) -> bool
        ensures { IsTrue result ↔ (self.now ≡ other.now) }
    {
        match (self, other) {
            (Op::Inc(mine), Op::Inc(theirs)) => *mine == *theirs,
            (Op::Dec(mine), Op::Dec(theirs)) => *mine == *theirs,
            (Op::Raise(mine), Op::Raise(theirs)) => *mine == *theirs,
            (Op::Put(mine), Op::Put(theirs)) => *mine == *theirs,
            (Op::Remove(mine), Op::Remove(theirs)) => mine.same(theirs),
            (Op::Mark, Op::Mark) => true,
            (
                Op::Vote {
                    value: mine,
                    sole: mine_sole,
                },
                Op::Vote {
                    value: theirs,
                    sole: theirs_sole,
                },
            ) => *mine == *theirs && *mine_sole == *theirs_sole,
            _ => false,
        }
    }
}

/// One operation on one object, under an id that no other update has.
#[derive(Drop)]
pub struct Update {
    pub id: UpdateId,
    /// The number of the object that the operation is for.
    pub object: u16,
    pub op: Op,
}

/// Updates, one after another.
pub type Updates = Sequence<Update>;

impl Update {
    /// Whether two updates are one, in all their parts.
    pub fn same(&self, other: &Update) -> bool
        ensures { IsTrue result ↔ (self.now ≡ other.now) }
    {
        self.id == other.id && self.object == other.object && self.op.same(&other.op)
    }

    /// A copy, which takes memory only where [`Op::copy`] does.
    pub fn copy(&self) -> Result<Update, AllocError>
        ensures ok { IfOk result (λ update. update ≡ self.now) }
        ensures room { CopiesInPlace self.now.op → IsOk result }
    {
        Ok(Update {
            id: self.id,
            object: self.object,
            op: self.op.copy()?,
        })
    }
}

impl Same for Update {
    fn same(&self, other: &Update) -> bool {
        Update::same(self, other)
    }
}
