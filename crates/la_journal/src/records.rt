// Records, which stand behind the groups of a file, and heads.
ghost use Rattle.std.specs.Prelude.{◌≡◌, ◌++◌, ◌↔◌, ◌<◌, ◌/◌, ◌%◌, ◌∷◌, [], ◌≢◌, ◌≤◌, ◌+◌, ℕ, List, Some, false, length, vec_capacity, take, IfOk, IfSome, MatchOption, None, IsTrue, IsSome};
ghost use Rattle.std.specs.List.{list_all};
ghost use Rattle.std.specs.Char.{is_ascii_hexdigit};
ghost use Rattle.std.specs.Fmt.{decimal, digit_glyph};
ghost use Rattle.la_journal.specs.Commits.{with_record};
ghost use Rattle.la_journal.specs.Records.{hex, digest, link, end_count, record_of, record_line, head_line, text_of_head};

use itoa::Buffer;
use sha2::{Digest, Sha256};
use std::alloc::{AllocError, Global};

/// How many hex digits a digest has.
pub(crate) const DIGITS: usize = 16;

/// The record of a group of whole lines behind a line, a head or another record: `~`, how many lines they are, the
/// digest that the line before ends in, and the digest of this and of their bytes. Linear in the group; refused only
/// where a growth is.
pub fn record_line(alloc: Global, before: &[u8], group: &[u8]) -> Result<Vec<u8>, AllocError>
    ensures { IfOk result (λ line. line.items ≡ record_line before.now group.now) }
{
    let link = link(before);
    let mut line = Vec::new(alloc);
    line.push(b'~')?;
    line.push(b' ')?;
    line.extend_from_slice(Buffer::new().format(end_count(group)).as_bytes())?;
    line.push(b' ')?;
    line.extend_from_slice(link)?;
    line.push(b' ')?;
    line.extend_from_slice(&digest(link, group))?;
    Ok(line)
}

/// The room that a record takes with its end, at most.
pub(crate) const ROOM: usize = 57;

/// Puts behind a group its record and the end of that, where the last record before, or the head, ends in this digest;
/// gives the one that it ends in. There is room for it. Linear in the group.
pub(crate) fn put_record(group: &mut Vec<u8>, last: &[u8; DIGITS]) -> [u8; DIGITS]
    requires { length group.old.items + 57 ≤ vec_capacity group.old }
    ensures group { group.new.items ≡ with_record record_line last.now group.old.items }
    ensures last { result ≡ link (record_line last.now group.old.items) }
    ensures room { vec_capacity group.old ≤ vec_capacity group.new }
{
    let before = link(last);
    let own = digest(before, group);
    let mut count = Buffer::new();
    let count = count.format(end_count(group));
    put(group, b"~ ");
    put(group, count.as_bytes());
    put(group, b" ");
    put(group, before);
    put(group, b" ");
    put(group, &own);
    put(group, b"\n");
    own
}

/// Puts bytes behind, for which there is room.
fn put(text: &mut Vec<u8>, bytes: &[u8])
    requires { length text.old.items + length bytes.now ≤ vec_capacity text.old }
    ensures items { text.new.items ≡ text.old.items ++ bytes.now }
    ensures room { vec_capacity text.old ≤ vec_capacity text.new }
{
    let _there_is_room = text.extend_from_slice(bytes);
}

/// Whether a line is the record of so many lines behind what ends in this digest.
pub(crate) fn is_record_of(line: &[u8], count: usize, before: &[u8], group: &[u8]) -> bool
    ensures { IsTrue result ↔ (line.now ≡ record_of count before.now group.now) }
{
    match behind_before(line, count, before) {
        Some(end) => is_spaced(end, &digest(before, group)),
        None => false,
    }
}

/// What stands behind the digest before, where a line begins as a record of so many lines behind that.
fn behind_before<'a>(line: &'a [u8], count: usize, before: &[u8]) -> Option<&'a [u8]>
    ensures { MatchOption result
        ((end : List ℕ) → line.now ≢ 126 ∷ 32 ∷ (decimal count ++ 32 ∷ (before.now ++ end)))
        (λ end. line.now ≡ 126 ∷ 32 ∷ (decimal count ++ 32 ∷ (before.now ++ end.now))) }
{
    let rest = after(line, b"~ ")?;
    let rest = after(rest, Buffer::new().format(count).as_bytes())?;
    let rest = after(rest, b" ")?;
    after(rest, before)
}

/// What stands behind the front of some bytes, where they begin with it.
pub(crate) fn after<'a>(bytes: &'a [u8], front: &[u8]) -> Option<&'a [u8]>
    ensures { MatchOption result ((rest : List ℕ) → bytes.now ≢ front.now ++ rest)
        (λ rest. bytes.now ≡ front.now ++ rest.now) }
{
    bytes.strip_prefix(front)
}

/// Whether these bytes are a space and then those.
fn is_spaced(bytes: &[u8], own: &[u8]) -> bool
    ensures { IsTrue result ↔ (bytes.now ≡ 32 ∷ own.now) }
{
    match after(bytes, b" ") {
        Some(rest) => rest == own,
        None => false,
    }
}

/// The first line of a file with this text: it, and its digest. Linear in it; refused only where a growth is.
pub fn head_line(alloc: Global, text: &[u8]) -> Result<Vec<u8>, AllocError>
    ensures { IfOk result (λ line. line.items ≡ head_line text.now) }
{
    let mut line = Vec::new(alloc);
    line.extend_from_slice(text)?;
    line.push(b' ')?;
    line.extend_from_slice(&digest(&[], text))?;
    Ok(line)
}

/// The bytes of a new file with this head. Linear in it; refused only where a growth is.
pub(crate) fn new_file(alloc: Global, text: &[u8]) -> Result<Vec<u8>, AllocError>
    ensures { IfOk result (λ file. file.items ≡ head_line text.now ++ 10 ∷ []) }
{
    let mut file = head_line(alloc, text)?;
    file.push(b'\n')?;
    Ok(file)
}

/// The text of a line that is a head; `None` where it is none, as where a byte of it has changed. Linear in the line.
pub fn text_of_head(line: &[u8]) -> Option<&[u8]>
    ensures some { IfSome result (λ text. text_of_head line.now ≡ Some text.now) }
    ensures none { result ≡ None → text_of_head line.now ≡ None }
{
    let (text, end) = line.split_at(line.len().saturating_sub(DIGITS + 1));
    if is_spaced(end, &digest(&[], text)) {
        Some(text)
    } else {
        None
    }
}

/// The digest that a line ends in.
pub(crate) fn link(line: &[u8]) -> &[u8]
    ensures { result.now ≡ link line.now }
{
    let end = &line[line.len().saturating_sub(DIGITS)..];
    if are_digits(end) { end } else { &[] }
}

fn are_digits(bytes: &[u8]) -> bool
    ensures { result ≡ list_all is_ascii_hexdigit bytes.now }
{
    bytes.iter().all(|b| b.is_ascii_hexdigit())
}

/// How many lines these bytes have.
pub(crate) fn end_count(bytes: &[u8]) -> usize
    ensures { result ≡ end_count bytes.now }
{
    let mut count = 0;
    for b in bytes {
        if *b == b'\n' {
            count += 1;
        }
    }
    count
}

/// The first hex digits of the SHA-256 of two pieces, taken as one message.
pub(crate) fn digest(before: &[u8], group: &[u8]) -> [u8; DIGITS]
    ensures { result ≡ digest (before.now ++ group.now) }
{
    let mut hasher = Sha256::new();
    hasher.update(before);
    hasher.update(group);
    first_digits(&hasher.finalize())
}

fn first_digits(bytes: &[u8; 32]) -> [u8; DIGITS]
    ensures { result ≡ hex (take 8 bytes.now) }
{
    let mut digits = [b'0'; DIGITS];
    for i in 0..8 {
        digits[2 * i] = digit(bytes[i] / 16 % 16);
        digits[2 * i + 1] = digit(bytes[i] % 16);
    }
    digits
}

fn digit(n: u8) -> u8
    requires { n < 16 }
    ensures { result ≡ digit_glyph false n }
{
    if n < 10 { b'0' + n } else { b'a' + (n - 10) }
}
