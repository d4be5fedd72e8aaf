// What is done to a list, and how it is written as an operation.
ghost use Rattle.std.specs.Prelude.{◌≡◌, ◌+◌, ◌≤◌, ◌++◌, Some, IfSome, IfOk, IfErr};
ghost use Rattle.arrayvec.specs.ArrayVec.{array_vec_len};
ghost use Rattle.la_own.specs.declared.error.OwnError.TheVariants.{Memory};
ghost use Rattle.la_list.specs.declared.op.ListOp.TheVariants.{Insert, Delete};
ghost use Rattle.la_list.specs.ListBytes.{id_bytes, id_in, place_bytes, edit_op, edit_read, edit_of};
ghost use Rattle.la_list.specs.Refusals.{IsInsertRefusal};

use crate::bytes::{Written, behind, id_in, put_all, put_id, stamp_in};
use la_own::{OwnError, laws, own_bytes, own_op};
use la_set::{Op, UpdateId};
use la_types::Bytes;
use std::alloc::{AllocError, Global};

/// How long an element may be that an [`ElementList`](crate::ElementList) takes: 234 bytes.
pub const ELEMENT_BYTES: usize = 234;

/// What is done to an [`ElementList`](crate::ElementList).
#[derive(Drop)]
pub enum ListOp {
    /// Puts an element right behind the one with an id, or at the head. The new element's id is
    /// that of the update.
    Insert {
        behind: Option<UpdateId>,
        stamp: u64,
        value: Bytes,
    },
    /// Takes out the element with an id.
    Delete {
        element: UpdateId,
    },
}

/// The operation that puts an element right behind the one with an id, or at the head. The new
/// element's id is that of the update by which it is submitted.
///
/// A good `stamp` is how many updates the view has by which its maker acts, `view.len()`: so it is
/// above the stamps of all that he saw, and what he puts in stands right where he puts it, before
/// all that stood there. Of elements that are put in at one place at the same time, that
/// with the larger stamp, and then that with the larger id, stands first.
///
/// `TooLong` comes exactly above [`ELEMENT_BYTES`] bytes.
pub fn insert_op(
    alloc: Global,
    behind: Option<UpdateId>,
    stamp: u64,
    value: &[u8],
) -> Result<Op, OwnError>
    ensures ok { IfOk result (λ op. op ≡ edit_op (Insert behind stamp value.now)) }
    ensures comes_back { IfOk result (λ op. edit_of op ≡ Some (Insert behind stamp value.now)) }
    ensures error { IfErr result (IsInsertRefusal value.now) }
{
    if value.len() > ELEMENT_BYTES {
        return Err(OwnError::TooLong);
    }
    laws::bytes_come_back();
    let mut bytes = Written::new();
    put_place(&mut bytes, behind, stamp);
    put_all(&mut bytes, value);
    own_op(alloc, bytes.as_slice())
}

/// The operation that takes out the element with an id. It need not stand: what a delete names
/// never shows, whenever it is put in.
pub fn delete_op(alloc: Global, element: UpdateId) -> Result<Op, OwnError>
    ensures ok { IfOk result (λ op. op ≡ edit_op (Delete element)) }
    ensures comes_back { IfOk result (λ op. edit_of op ≡ Some (Delete element)) }
    ensures error { IfErr result (λ error. error ≡ Memory) }
{
    laws::bytes_come_back();
    let mut bytes = Written::new();
    bytes.push(3);
    put_id(&mut bytes, element);
    own_op(alloc, bytes.as_slice())
}

// Writes that something is put in, where, and under which stamp.
fn put_place(bytes: &mut Written, behind: Option<UpdateId>, stamp: u64)
    requires { array_vec_len bytes.old + 14 ≤ 248 }
    ensures items { bytes.new.items ≡ bytes.old.items ++ place_bytes behind stamp }
    ensures back { IfSome behind (λ id. id_in (id_bytes id) ≡ id) }
{
    match behind {
        None => {
            bytes.push(1);
            put_all(bytes, &stamp.to_le_bytes());
        }
        Some(id) => {
            bytes.push(2);
            put_all(bytes, &stamp.to_le_bytes());
            put_id(bytes, id);
        }
    }
}

impl ListOp {
    /// What an operation does to a list, and `None` exactly where it is none of theirs. It takes
    /// memory for the element alone.
    pub fn of_op(alloc: Global, op: &Op) -> Result<Option<ListOp>, AllocError>
        ensures { IfOk result (λ does. does ≡ edit_of op.now) }
    {
        match own_bytes(op) {
            Some(own) => read(alloc, own.as_slice()),
            None => Ok(None),
        }
    }
}

// What these bytes say.
fn read(alloc: Global, bytes: &[u8]) -> Result<Option<ListOp>, AllocError>
    ensures { IfOk result (λ does. does ≡ edit_read bytes.now) }
{
    if bytes.len() >= 9 && bytes[0] == 1 {
        return Ok(Some(ListOp::Insert {
            behind: None,
            stamp: stamp_in(behind(bytes, 1)),
            value: Bytes::of(alloc, behind(bytes, 9))?,
        }));
    }
    if bytes.len() >= 14 && bytes[0] == 2 {
        return Ok(Some(ListOp::Insert {
            behind: Some(id_in(behind(bytes, 9))),
            stamp: stamp_in(behind(bytes, 1)),
            value: Bytes::of(alloc, behind(bytes, 14))?,
        }));
    }
    if bytes.len() == 6 && bytes[0] == 3 {
        return Ok(Some(ListOp::Delete {
            element: id_in(behind(bytes, 1)),
        }));
    }
    Ok(None)
}
