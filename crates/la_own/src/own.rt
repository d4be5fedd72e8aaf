ghost use Rattle.std.specs.Prelude.{◌≡◌, ◌↔◌, ◌+◌, ◌/◌, ◌<◌, ◌≤◌, [], ◌∷◌, ◌++◌, length, map};
ghost use Rattle.std.specs.Prelude.{slice_index, slice_index_or, OnOk};
ghost use Rattle.std.specs.Prelude.{All, IsOk, IsTrue, IfOk, IfErr, OnErr, IfSome, IfNone};
ghost use Rattle.std.specs.List.{range_with_len};
ghost use Rattle.std.specs.Int.{w32, to_le_bytes};
ghost use Rattle.arrayvec.specs.ArrayVec.{array_vec_len};
ghost use Rattle.la_set.specs.declared.update.Op.TheVariants.{Remove};
ghost use Rattle.la_set.specs.Ids.{IsBelow};
ghost use Rattle.la_own.specs.Own.{AreOwnBytes, IsOwn, own, own_tags, word_count, word_at};
ghost use Rattle.la_own.specs.Own.{length_tag, word_tag, word_of, byte_at, own_bytes_of, no_tag, told_length};
ghost use Rattle.la_own.specs.Refusals.{IsOwnRefusal};
ghost use Rattle.la_own.specs.declared.error.OwnError.TheVariants.{Memory};

use crate::OwnError;
use arrayvec::ArrayVec;
use la_set::{INLINE_TAGS, MAX_TAGS, Op, Tags, UpdateId};
use std::alloc::Global;
use std::marker::Model;

/// How many bytes an operation of one's own may have: 62 words of four bytes.
pub const OWN_BYTES: usize = 248;

// The highest bit of a word.
const TOP: u32 = 1 << 31;

/// The bytes of an operation of one's own, at most [`OWN_BYTES`] of them, which lie in the value
/// itself: some 256 bytes, whatever the number of bytes.
#[derive(Drop)]
pub struct OwnBytes {
    bytes: ArrayVec<u8, OWN_BYTES>,
}

impl Model for OwnBytes {
    ghost use Rattle.std.specs.Prelude.{List, ℕ};

    ghost Value = { List ℕ };

    ghost view = { λ b. b.bytes.items };
}

impl OwnBytes {
    /// The bytes.
    pub fn as_slice(&self) -> &[u8]
        ensures bytes { result.now ≡ self.now }
        ensures few { length self.now ≤ OWN_BYTES }
    {
        self.bytes.as_slice()
    }

    /// How many bytes there are: at most [`OWN_BYTES`].
    pub fn len(&self) -> usize
        ensures len { result ≡ length self.now }
        ensures few { length self.now ≤ OWN_BYTES }
    {
        self.bytes.len()
    }
}

/// The operation that these bytes are. It is carried as a [`Op::Remove`] of one tag, and of one
/// more for every four bytes: eight bytes of memory each beside the update, but up to four bytes
/// lie in the operation itself.
///
/// `TooLong` comes exactly above [`OWN_BYTES`] bytes, and `Memory` only above four. The cost is in
/// proportion to the bytes.
pub fn own_op(alloc: Global, bytes: &[u8]) -> Result<Op, OwnError>
    ensures ok { IfOk result (λ op. op ≡ own bytes.now) }
    ensures fits { IsOk result → AreOwnBytes bytes.now }
    ensures error { IfErr result (IsOwnRefusal bytes.now) }
{
    if bytes.len() > OWN_BYTES {
        return Err(OwnError::TooLong);
    }
    let words = word_count(bytes);
    let mut tags = Tags::with_capacity(alloc, words + 1)?;
    put_last(&mut tags, length_tag(bytes))?;
    for place in 0..words {
        put_last(&mut tags, word_tag(bytes, place))?;
    }
    Ok(Op::Remove(tags))
}

/// The bytes of an operation of one's own, and `None` exactly of another operation. It takes no
/// memory, and its cost is in proportion to the bytes.
pub fn own_bytes(op: &Op) -> Option<OwnBytes>
    ensures value { result ≡ own_bytes_of op.now }
    ensures some { IfSome result (λ bytes. AreOwnBytes bytes × (op.now ≡ own bytes)) }
    ensures none { IfNone result (¬ IsOwn op.now) }
{
    match op {
        Op::Remove(tags) => read(tags),
        _ => None,
    }
}

// How many words the bytes fill.
fn word_count(bytes: &[u8]) -> usize
    requires { length bytes.now ≤ OWN_BYTES }
    ensures words { result ≡ word_count bytes.now }
    ensures few { result + 1 < MAX_TAGS }
{
    (bytes.len() + 3) / 4
}

// The tag that says how many bytes there are.
fn length_tag(bytes: &[u8]) -> UpdateId
    requires { length bytes.now ≤ OWN_BYTES }
    ensures { result ≡ length_tag bytes.now }
{
    UpdateId {
        replica: 8,
        number: bytes.len() as u32 + 1,
    }
}

// The tag of the word at a place.
fn word_tag(bytes: &[u8], place: usize) -> UpdateId
    requires { place < 62 }
    ensures { result ≡ word_tag bytes.now place }
{
    let word = word_at(bytes, place);
    UpdateId {
        replica: 10 + 2 * place as u8 + (word / TOP) as u8,
        number: word % TOP + 1,
    }
}

// The word at a place: four bytes, the lowest first, and zeros where there are no more.
fn word_at(bytes: &[u8], place: usize) -> u32
    requires { place < 62 }
    ensures { result ≡ word_at bytes.now place }
{
    let from = 4 * place;
    if from + 4 <= bytes.len() {
        return u32::from_le_bytes([
            bytes[from],
            bytes[from + 1],
            bytes[from + 2],
            bytes[from + 3],
        ]);
    }
    u32::from_le_bytes([
        byte_or_zero(bytes, from),
        byte_or_zero(bytes, from + 1),
        byte_or_zero(bytes, from + 2),
        byte_or_zero(bytes, from + 3),
    ])
}

fn byte_or_zero(bytes: &[u8], place: usize) -> u8
    ensures { result ≡ slice_index bytes.now place }
{
    match bytes.get(place) {
        Some(byte) => *byte,
        None => 0,
    }
}

// Puts a tag behind all others, of which there are fewer than a `Remove` may name.
fn put_last(tags: &mut Tags, tag: UpdateId) -> Result<(), OwnError>
    requires above { All (λ other. IsBelow other tag) tags.old }
    requires few { length tags.old < MAX_TAGS }
    ensures ok { OnOk result (tags.new ≡ tags.old ++ tag ∷ []) }
    ensures error { IfErr result (λ error. error ≡ Memory) }
    ensures room { length tags.old < INLINE_TAGS → IsOk result }
{
    match tags.push(tag) {
        Ok(_) => Ok(()),
        Err(_) => Err(OwnError::Memory),
    }
}

// The tag at a place, or the id of no update behind the last.
fn tag_at(tags: &Tags, place: usize) -> UpdateId
    ensures { result ≡ slice_index_or tags.now place no_tag }
{
    match tags.at(place) {
        Some(tag) => *tag,
        None => UpdateId {
            replica: 0,
            number: 0,
        },
    }
}

// The word that a tag carries.
fn word_of(tag: UpdateId) -> u32
    ensures { result ≡ word_of tag }
{
    tag.number.saturating_sub(1) % TOP + TOP * (tag.replica % 2) as u32
}

// Puts the four bytes of a word behind others, for which there is room.
fn put_word(bytes: &mut ArrayVec<u8, OWN_BYTES>, word: u32)
    requires { array_vec_len bytes.old + 4 ≤ OWN_BYTES }
    ensures { bytes.new.items ≡ bytes.old.items ++ to_le_bytes w32 word }
{
    match bytes.try_extend_from_slice(&word.to_le_bytes()) {
        Ok(()) => {}
        Err(_) => unreachable!(),
    }
}

// How many bytes the first tag says that there are.
fn told_length(tags: &Tags) -> usize
    ensures { result ≡ told_length tags.now }
{
    tag_at(tags, 0).number.saturating_sub(1) as usize
}

// The bytes of a `Remove` with these tags, where it is an operation of one's own.
fn read(tags: &Tags) -> Option<OwnBytes>
    ensures { result ≡ own_bytes_of (Remove tags.now) }
{
    let told = told_length(tags);
    if told > OWN_BYTES {
        return None;
    }
    let bytes = bytes_in(tags, told);
    if !are_tags_of(tags, bytes.as_slice()) {
        return None;
    }
    Some(bytes)
}

// The first so many bytes of what the tags behind the first carry.
fn bytes_in(tags: &Tags, told: usize) -> OwnBytes
    requires { told ≤ OWN_BYTES }
    ensures { result ≡ map (byte_at tags.now) (range_with_len 0 told) }
{
    let mut bytes = ArrayVec::new();
    for place in 0..(told + 3) / 4 {
        put_word(&mut bytes, word_of(tag_at(tags, place + 1)));
    }
    bytes.truncate(told);
    OwnBytes { bytes }
}

// Whether the tags are those of these bytes.
fn are_tags_of(tags: &Tags, bytes: &[u8]) -> bool
    requires { length bytes.now ≤ OWN_BYTES }
    ensures { IsTrue result ↔ (tags.now ≡ own_tags bytes.now) }
{
    let words = word_count(bytes);
    if tags.len() != words + 1 {
        return false;
    }
    if !is_at(tags, 0, length_tag(bytes)) {
        return false;
    }
    for place in 0..words {
        if !is_at(tags, place + 1, word_tag(bytes, place)) {
            return false;
        }
    }
    true
}

// Whether the tag at a place is this one.
fn is_at(tags: &Tags, place: usize, tag: UpdateId) -> bool
    ensures { IsTrue result ↔ (slice_index_or tags.now place no_tag ≡ tag) }
{
    tag_at(tags, place) == tag
}
