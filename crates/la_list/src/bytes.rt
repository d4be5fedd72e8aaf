// How what operations carry is written as bytes, and read.
ghost use Rattle.std.specs.Prelude.{◌≡◌, ◌+◌, ◌≤◌, ◌++◌, length, drop};
ghost use Rattle.std.specs.Int.{w32, w64, from_le_bytes};
ghost use Rattle.arrayvec.specs.ArrayVec.{array_vec_len};
ghost use Rattle.la_list.specs.ListBytes.{id_bytes, id_in};

use arrayvec::ArrayVec;
use la_own::OWN_BYTES;
use la_set::UpdateId;

// The bytes of an operation while it is written.
pub type Written = ArrayVec<u8, OWN_BYTES>;

// Writes bytes for which there is room.
pub fn put_all(bytes: &mut Written, more: &[u8])
    requires { array_vec_len bytes.old + length more.now ≤ OWN_BYTES }
    ensures { bytes.new.items ≡ bytes.old.items ++ more.now }
{
    match bytes.try_extend_from_slice(more) {
        Ok(()) => {}
        Err(_) => unreachable!(),
    }
}

// Writes an id, for which there is room.
pub fn put_id(bytes: &mut Written, id: UpdateId)
    requires { array_vec_len bytes.old + 5 ≤ OWN_BYTES }
    ensures items { bytes.new.items ≡ bytes.old.items ++ id_bytes id }
    ensures back { id_in (id_bytes id) ≡ id }
{
    put_all(bytes, &[id.replica]);
    put_all(bytes, &id.number.to_le_bytes());
}

// The id that the bytes begin with.
pub fn id_in(bytes: &[u8]) -> UpdateId
    requires { 5 ≤ length bytes.now }
    ensures { result ≡ id_in bytes.now }
{
    UpdateId {
        replica: bytes[0],
        number: u32::from_le_bytes([bytes[1], bytes[2], bytes[3], bytes[4]]),
    }
}

// The stamp that bytes begin with.
pub fn stamp_in(bytes: &[u8]) -> u64
    requires { 8 ≤ length bytes.now }
    ensures { result ≡ from_le_bytes w64 bytes.now }
{
    u64::from_le_bytes([
        bytes[0], bytes[1], bytes[2], bytes[3], bytes[4], bytes[5], bytes[6], bytes[7],
    ])
}

// The bytes from a place on.
pub fn behind(bytes: &[u8], from: usize) -> &[u8]
    requires { from ≤ length bytes.now }
    ensures { result.now ≡ drop from bytes.now }
{
    &bytes[from..]
}
