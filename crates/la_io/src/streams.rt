// All of a reader's bytes, up to a limit, and all of a text to a writer.
ghost use Rattle.std.specs.Prelude.{
  ◌≡◌,
  ℕ,
  ◌+◌,
  ◌<◌,
  ◌≤◌,
  length,
  IfOk,
  IfErr,
  OnOk,
  OnErr,
  IsErrOf,
};
ghost use Rattle.std.specs.Io.KnownBytes.{Consumes, IsAtEnd, Keeps, WriteAppends};
ghost use Rattle.la_io.specs.declared.streams.InputFault.TheVariants.{Memory};
ghost use Rattle.la_io.specs.Streams.{ReadsLines, TakesBytes, TakesAtMost, Writes, WritesPrefix};

use std::alloc::{AllocError, Global};
use std::io::{Read, Write};
use thiserror::Error;

/// The most bytes that an input may have.
pub const LIMIT: usize = 16_777_216;

// The most bytes that a read asks for.
const CHUNK: usize = 8192;

/// Why not all of an input was read.
#[derive(Clone, Copy, Debug, Error)]
pub enum InputFault {
    /// A read failed.
    #[error("ReadFault")]
    ReadFault,

    /// There are more than [`LIMIT`] bytes.
    #[error("TooLong")]
    TooLong,

    /// A growth was refused.
    #[error("Memory")]
    Memory,
}

impl From<AllocError> for InputFault {
    ghost from_gives = { λ _ fault. fault ≡ Memory };

    fn from(_refused: AllocError) -> InputFault {
        InputFault::Memory
    }
}

/// The writer failed, or took no byte.
#[derive(Clone, Copy, Debug, Error)]
#[error("WriteFault")]
pub struct WriteFailed;

// One read, of so many bytes at most. None are given only at the end.
fn read_some<'a, R: Read>(
    reader: &mut R,
    chunk: &'a mut [u8],
    most: usize,
) -> Result<&'a [u8], InputFault>
    requires some { 0 < most }
    requires room { most ≤ length chunk.old }
    ensures read { IfOk result
        (λ bytes. Consumes (R.remaining reader.old) (R.remaining reader.new) bytes.now) }
    ensures end { IfOk result (λ bytes. length bytes.now ≡ 0 → IsAtEnd (R.remaining reader.new)) }
    ensures most { IfOk result (λ bytes. length bytes.now ≤ most) }
    ensures err { IfErr result (λ fault. (fault ≡ InputFault.ReadFault)
        × Keeps (R.remaining reader.old) (R.remaining reader.new)) }
{
    let part = &mut chunk[..most];
    match reader.read(part) {
        Ok(count) => Ok(&part[..count]),
        Err(_) => Err(InputFault::ReadFault),
    }
}

/// Reads all that the reader has left, at most [`LIMIT`] bytes, until a read finds the end.
///
/// No read asks for more than the bytes that are still allowed and one more, so that the answer is
/// the same however the reader parts its bytes, and at most one byte past the limit is taken. There
/// are at most `LIMIT + 1` reads, of at most 8,192 bytes each. The cost is linear in the bytes.
///
/// `ReadFault` comes at the first read that fails, also at one that was interrupted; `TooLong` once
/// one byte more than the limit was read; `Memory` where the bytes so far find no room. What was
/// read until then is lost, and the reader stands behind it.
#[tactic(auto, using(crate::proofs::Taken::reads))]
pub fn read_all<R: Read>(alloc: Global, reader: &mut R) -> Result<Vec<u8>, InputFault>
    ensures all { IfOk result
        (λ input. ReadsLines (R.remaining reader.old) (R.remaining reader.new) input.items) }
    ensures short { IfOk result (λ input. length input.items ≤ LIMIT) }
    ensures long { IsErrOf result InputFault.TooLong
        → TakesBytes (LIMIT + 1) (R.remaining reader.old) (R.remaining reader.new) }
    ensures failed { IsErrOf result InputFault.ReadFault
        → TakesAtMost LIMIT (R.remaining reader.old) (R.remaining reader.new) }
    ensures taken { TakesAtMost (LIMIT + 1) (R.remaining reader.old) (R.remaining reader.new) }
{
    let mut input = Vec::new(alloc);
    let mut chunk = [0u8; CHUNK];
    for _ in 0..LIMIT + 1 {
        let room = CHUNK.min(LIMIT + 1 - input.len());
        let bytes = read_some(reader, &mut chunk, room)?;
        if bytes.is_empty() {
            return Ok(input);
        }
        input.extend_from_slice(bytes)?;
        if input.len() > LIMIT {
            return Err(InputFault::TooLong);
        }
    }
    unreachable!()
}

/// One write, of the first of the bytes, at least of one: it answers how many were taken. It is
/// refused where the write fails or takes no byte.
#[tactic(auto, using(crate::proofs::lemmas::Written::kept_by_none))]
pub fn write_some<W: Write>(writer: &mut W, bytes: &[u8]) -> Result<usize, WriteFailed>
    ensures some { IfOk result (λ count. 0 < count) }
    ensures bound { IfOk result (λ count. count ≤ length bytes.now) }
    ensures bytes { WriteAppends (W.contents writer.old) (W.contents writer.new)
        result bytes.now }
{
    match writer.write(bytes) {
        Ok(0) | Err(_) => Err(WriteFailed),
        Ok(count) => Ok(count),
    }
}

/// Writes all of the bytes, in as many writes as it takes, and does not flush. Where one fails or takes no byte,
/// the writer has taken a front of them.
pub fn put_bytes<W: Write>(writer: &mut W, bytes: &[u8]) -> Result<(), WriteFailed>
    ensures ok { OnOk result (Writes W.contents writer.old writer.new bytes.now) }
    ensures err { OnErr result (WritesPrefix W.contents writer.old writer.new bytes.now) }
{
    let mut done = 0;
    while done < bytes.len() {
        let count = write_some(writer, &bytes[done..])?;
        done += count;
    }
    Ok(())
}

/// Flushes the writer.
pub fn flush<W: Write>(writer: &mut W) -> Result<(), WriteFailed>
    ensures { Keeps (W.contents writer.old) (W.contents writer.new) }
{
    match writer.flush() {
        Ok(()) => Ok(()),
        Err(_) => Err(WriteFailed),
    }
}

/// Writes all of the bytes, in as many writes as it takes, and then flushes the writer.
///
/// It is refused at the first write that fails or takes no byte, and where the flush fails. Then
/// the writer has taken a front of the bytes, all of them where it was the flush. The cost is that
/// of the writes, each of which takes a byte at least.
#[tactic(auto, using(crate::proofs::lemmas::Written::kept_all, crate::proofs::lemmas::Written::prefix_all))]
pub fn write_all<W: Write>(writer: &mut W, bytes: &[u8]) -> Result<(), WriteFailed>
    ensures ok { OnOk result (Writes W.contents writer.old writer.new bytes.now) }
    ensures err { OnErr result (WritesPrefix W.contents writer.old writer.new bytes.now) }
{
    put_bytes(writer, bytes)?;
    flush(writer)
}
