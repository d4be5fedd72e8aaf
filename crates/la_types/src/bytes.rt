// How what operations carry is written as bytes, and read.
ghost use Rattle.std.specs.Prelude.{◌≡◌, ◌+◌, ◌*◌, ◌≤◌, ◌<◌, ◌++◌, length, drop};
ghost use Rattle.std.specs.Int.{w32, from_le_bytes};
ghost use Rattle.arrayvec.specs.ArrayVec.{array_vec_len};
ghost use Rattle.la_types.specs.Bytes.{counts_bytes, counts_in, plain};

use arrayvec::ArrayVec;
use la_own::OWN_BYTES;
use la_set::{Counts, REPLICAS};

// The bytes of an operation while it is written.
pub type Written = ArrayVec<u8, OWN_BYTES>;

// Writes bytes for which there is room.
pub fn put_all(bytes: &mut Written, more: &[u8])
    requires { array_vec_len bytes.old + length more.now ≤ OWN_BYTES }
    ensures { bytes.new.items ≡ bytes.old.items ++ more.now }
{
    match bytes.try_extend_from_slice(more) {
        Ok(()) => {}
        Err(_) => unreachable!(),
    }
}

// Writes eight counts, for which there is room.
pub fn put_counts(bytes: &mut Written, counts: Counts)
    requires { array_vec_len bytes.old + 32 ≤ OWN_BYTES }
    ensures items { bytes.new.items ≡ bytes.old.items ++ counts_bytes counts }
    ensures back { counts_in (counts_bytes counts) ≡ plain counts }
{
    for replica in 0..REPLICAS {
        put_all(bytes, &counts.of(replica).to_le_bytes());
    }
}

// The counts that the bytes begin with.
pub fn counts_in(bytes: &[u8]) -> Counts
    requires { 32 ≤ length bytes.now }
    ensures { result ≡ counts_in bytes.now }
{
    Counts::from([
        count_at(bytes, 0),
        count_at(bytes, 4),
        count_at(bytes, 8),
        count_at(bytes, 12),
        count_at(bytes, 16),
        count_at(bytes, 20),
        count_at(bytes, 24),
        count_at(bytes, 28),
    ])
}

// The four bytes from a place on, as a number.
pub fn count_at(bytes: &[u8], from: usize) -> u32
    requires { from + 4 ≤ length bytes.now }
    ensures { result ≡ from_le_bytes w32 (drop from bytes.now) }
{
    u32::from_le_bytes([
        bytes[from],
        bytes[from + 1],
        bytes[from + 2],
        bytes[from + 3],
    ])
}

// The bytes from a place on.
pub fn behind(bytes: &[u8], from: usize) -> &[u8]
    requires { from ≤ length bytes.now }
    ensures { result.now ≡ drop from bytes.now }
{
    &bytes[from..]
}
