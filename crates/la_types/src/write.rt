// Writes of bytes: what is last of them, and how one is written as an operation.
ghost use Rattle.std.specs.Prelude.{◌≡◌, ◌+◌, ◌<◌, ◌≤◌, ℕ, length, Some, IfOk, IfErr, OnErr, OnOk};
ghost use Rattle.std.specs.Prelude.{if◌then◌else◌, ◌↔◌, IsTrue, IsOk};
ghost use Rattle.la_set.specs.declared.update.UpdateId.{UpdateId as Id};
ghost use Rattle.std.specs.Int.{w64, from_le_bytes};
ghost use Rattle.la_types.specs.Refusals.{IsWriteRefusal};
ghost use Rattle.la_types.specs.Writes.{is_before, with_write, write_op, write_of, write_read};

use crate::Bytes;
use crate::bytes::{Written, put_all};
use la_own::{OWN_BYTES, OwnError, laws, own_op};
use la_set::{Op, UpdateId};
use std::alloc::{AllocError, Global};

/// How long a value may be that a [`Register`](crate::Register) takes.
pub const REGISTER_BYTES: usize = 240;

/// A value that an update wrote, under a stamp of its maker's.
#[derive(Drop)]
pub struct Write {
    pub stamp: u64,
    /// The id of the update.
    pub id: UpdateId,
    pub value: Bytes,
}

impl Write {
    /// A copy, which takes memory.
    pub fn copy(&self) -> Result<Write, AllocError>
        ensures { IfOk result (λ copy. copy ≡ self.now) }
    {
        Ok(Write {
            stamp: self.stamp,
            id: self.id,
            value: self.value.copy()?,
        })
    }

    // Whether it comes before a write with this stamp and id.
    pub(crate) fn is_before(&self, stamp: u64, id: UpdateId) -> bool
        ensures { result ≡ is_before self.now.stamp self.now.id stamp id }
    {
        self.stamp < stamp || (self.stamp == stamp && self.id < id)
    }
}

// Takes a write, where it is the last.
pub fn take(
    last: &mut Option<Write>,
    alloc: Global,
    stamp: u64,
    id: UpdateId,
    value: &[u8],
) -> Result<(), AllocError>
    ensures ok { OnOk result (last.new ≡ with_write last.old
        (Some (record { stamp = stamp; id = id; value = value.now }))) }
    ensures err { OnErr result (last.new ≡ last.old) }
{
    if let Some(write) = last {
        if !write.is_before(stamp, id) {
            return Ok(());
        }
    }
    *last = Some(Write {
        stamp,
        id,
        value: Bytes::of(alloc, value)?,
    });
    Ok(())
}

// The stamp that bytes begin with.
pub fn stamp_in(bytes: &[u8]) -> u64
    requires { 8 ≤ length bytes.now }
    ensures { result ≡ from_le_bytes w64 bytes.now }
{
    u64::from_le_bytes([
        bytes[0], bytes[1], bytes[2], bytes[3], bytes[4], bytes[5], bytes[6], bytes[7],
    ])
}

/// The operation that writes a value into a [`Register`](crate::Register) under a stamp.
///
/// `TooLong` comes exactly above [`REGISTER_BYTES`] bytes.
pub fn write_op(alloc: Global, stamp: u64, value: &[u8]) -> Result<Op, OwnError>
    ensures ok { IfOk result (λ op. op ≡ write_op stamp value.now) }
    ensures comes_back { IfOk result (λ op. (id : Id) → write_of id op
        ≡ Some (record { stamp = stamp; id = id; value = value.now })) }
    ensures error { IfErr result (IsWriteRefusal value.now) }
{
    if value.len() > REGISTER_BYTES {
        return Err(OwnError::TooLong);
    }
    laws::bytes_come_back();
    let mut bytes = Written::new();
    put_all(&mut bytes, &stamp.to_le_bytes());
    put_all(&mut bytes, value);
    own_op(alloc, bytes.as_slice())
}
