// What a program has to write of a node with a journal.
ghost use Rattle.std.specs.Prelude.{◌≡◌, false, true};
ghost use Rattle.lattice_c.specs.Calls.{HandsRecord, IsSynced};

use crate::handle::Handle;
use crate::mail::settle;
use crate::status::{NONE, OK, SMALL};

/// The bytes that the program has to put behind those of the node's journal next, into a buffer, and how many they are:
/// all that the node took since the last record. What it sends to itself is taken in before. They are the same again until
/// `lattice_synced`. A crash while they are put there may leave any part of them.
///
/// `NONE` comes where the node took nothing since, or has no journal; `SMALL` where the buffer has less room than there
/// are bytes, which are told.
#[unsafe(no_mangle)]
pub extern "C" fn lattice_next_record(handle: &mut Handle, buffer: &mut [u8], len: &mut usize) -> u8
    ensures record { HandsRecord handle.old.host.host buffer.old result len.new buffer.new handle.new.host.host }
    ensures handed { result ≡ 0 → handle.new.host.handed ≡ true }
{
    let inner = handle.inner();
    settle(inner);
    inner.host.make_record();
    let record = inner.host.record();
    let count = record.len();
    if count == 0 {
        return NONE;
    }
    *len = count;
    if count > buffer.len() {
        return SMALL;
    }
    buffer[..count].copy_from_slice(record);
    inner.handed = true;
    OK
}

/// Takes note that the bytes of the last record are behind those of the journal, and on the disk: then the node tells what
/// it took. Where that failed the node is to be freed, and made anew of what is found.
///
/// `NONE` comes where no record was handed over since the last call.
#[unsafe(no_mangle)]
pub extern "C" fn lattice_synced(handle: &mut Handle) -> u8
    ensures synced { IsSynced handle.old.host.host handle.old.host.handed result handle.new.host.host }
    ensures none { handle.new.host.handed ≡ false }
{
    let inner = handle.inner();
    if !inner.handed {
        return NONE;
    }
    inner.handed = false;
    inner.host.synced();
    OK
}
