// What a node has learnt.
ghost use Rattle.std.specs.Prelude.{◌≡◌};
ghost use Rattle.la_set.specs.Counts.{counts_of};
ghost use Rattle.la_own.specs.Own.{own_bytes_of};
ghost use Rattle.la_node.specs.Links.{known_of};
ghost use Rattle.la_embed.specs.Hosts.{submitted_by};
ghost use Rattle.lattice_c.specs.Learning.{kind_told, value_told, learnt_told, eight, IsTold, IsToldWhereKept, TellsLearnt};

use crate::handle::Handle;
use crate::status::{NONE, OK, SMALL, UNKEPT};
use la_own::own_bytes;
use la_set::{Counts, Op, Update};

/// An update, as it is handed to C.
#[repr(C)]
#[derive(Drop)]
pub struct Learnt {
    /// The largest amount or value of the operation: of kinds 1 to 4 and 7 its number, of kind 5 how many puts it takes
    /// out; else 0.
    pub value: u64,
    /// Its number among its replica's, from 1 on.
    pub number: u32,
    /// The number of its object.
    pub object: u16,
    /// The replica that submitted it.
    pub replica: u8,
    /// What it does: 1 inc, 2 dec, 3 raise, 4 put, 5 remove, 6 mark, 7 vote, 8 an operation of one's own.
    pub kind: u8,
}

// What an operation is that is none of one's own.
fn kind_of(op: &Op) -> (u8, u64)
    ensures { result ≡ (kind_told op.now, value_told op.now) }
{
    match op {
        Op::Inc(by) => (1, u64::from(*by)),
        Op::Dec(by) => (2, u64::from(*by)),
        Op::Raise(to) => (3, *to),
        Op::Put(element) => (4, *element),
        Op::Remove(tags) => (5, tags.len() as u64),
        Op::Mark => (6, 0),
        Op::Vote { value, .. } => (7, *value),
    }
}

fn told(update: &Update, kind: u8, value: u64) -> Learnt
    ensures { result ≡ learnt_told update.now kind value }
{
    Learnt {
        value,
        number: update.id.number,
        object: update.object,
        replica: update.id.replica,
        kind,
    }
}

// Puts an update where C wants it: how many bytes of one's own it has, or `None` where they find no room.
fn hand(update: &Update, out: &mut Learnt, buffer: &mut [u8], len: &mut usize) -> bool
    ensures { IsTold update.now (own_bytes_of update.now.op) buffer.old result out.new len.new buffer.new }
{
    let Some(own) = own_bytes(&update.op) else {
        let (kind, value) = kind_of(&update.op);
        *out = told(update, kind, value);
        *len = 0;
        return true;
    };
    let bytes = own.as_slice();
    let count = bytes.len();
    *len = count;
    if count > buffer.len() {
        return false;
    }
    buffer[..count].copy_from_slice(bytes);
    *out = told(update, 8, 0);
    true
}

/// The next update that was learnt and not yet handed over: each is handed over once, of each replica in the order of
/// numbers. Of an operation of one's own the bytes go into a buffer, and how many they are is told.
///
/// `NONE` comes where there is no further one; `SMALL` where the buffer has less room than there are bytes, and then the
/// update stays; `UNKEPT` where what the node took is not on the disk yet.
#[unsafe(no_mangle)]
pub extern "C" fn lattice_next_learnt(
    handle: &mut Handle,
    out: &mut Learnt,
    buffer: &mut [u8],
    len: &mut usize,
) -> u8
    ensures { TellsLearnt handle.old.host.host buffer.old result out.new len.new buffer.new handle.new.host.host }
{
    let inner = handle.inner();
    if !inner.host.is_kept() {
        return UNKEPT;
    }
    let Some(update) = inner.host.next_learnt() else {
        return NONE;
    };
    if !hand(update, out, buffer, len) {
        return SMALL;
    }
    let id = update.id;
    inner.host.handed_on(id);
    OK
}

// Eight numbers, one a replica.
fn eight(counts: Counts) -> [u32; 8]
    ensures { result ≡ eight counts }
{
    [
        counts.of(0),
        counts.of(1),
        counts.of(2),
        counts.of(3),
        counts.of(4),
        counts.of(5),
        counts.of(6),
        counts.of(7),
    ]
}

/// How many updates of each replica the view has. `UNKEPT` comes where what the node took is not on the disk yet.
#[unsafe(no_mangle)]
pub extern "C" fn lattice_view(handle: &mut Handle, counts: &mut [u32; 8]) -> u8
    ensures told { IsToldWhereKept handle.old.host.host (eight (counts_of handle.old.host.host.kept.view)) counts.old result
        counts.new }
    ensures same { handle.new.host.host ≡ handle.old.host.host }
{
    let host = &handle.inner().host;
    if !host.is_kept() {
        return UNKEPT;
    }
    *counts = eight(host.view().counts());
    OK
}

/// How many updates of each replica another node's view has at least, as far as was heard: none, of a replica of 8 or
/// more. `UNKEPT` comes where what the node took is not on the disk yet.
#[unsafe(no_mangle)]
pub extern "C" fn lattice_known(handle: &mut Handle, replica: u8, counts: &mut [u32; 8]) -> u8
    ensures told { IsToldWhereKept handle.old.host.host (eight (known_of handle.old.host.host.links replica).view)
        counts.old result counts.new }
    ensures same { handle.new.host.host ≡ handle.old.host.host }
{
    let host = &handle.inner().host;
    if !host.is_kept() {
        return UNKEPT;
    }
    *counts = eight(host.known(replica).view);
    OK
}

/// How many updates the node has submitted: the number of the last. `UNKEPT` comes where what the node took is not on the
/// disk yet.
#[unsafe(no_mangle)]
pub extern "C" fn lattice_submitted(handle: &mut Handle, number: &mut u32) -> u8
    ensures told { IsToldWhereKept handle.old.host.host (submitted_by handle.old.host.host) number.old result number.new }
    ensures same { handle.new.host.host ≡ handle.old.host.host }
{
    let host = &handle.inner().host;
    if !host.is_kept() {
        return UNKEPT;
    }
    *number = host.submitted();
    OK
}
