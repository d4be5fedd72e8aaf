// Words, read one by one from the left.
ghost use Rattle.std.specs.Prelude.{◌≡◌, ◌<◌, ◌≤◌, ◌^◌, Ok, IfOk};
ghost use Rattle.la_script.specs.Words.{bytes_of};
ghost use Rattle.la_wire.specs.Joined.{parted};
ghost use Rattle.la_wire.specs.Readings.{number_on, first_number, first_id, at_end, GivesFirst};

use crate::LineFault;
use la_script::{number, tag_of};
use la_set::UpdateId;
use std::alloc::{AllocError, Global};

/// The parts of a line: a head, and what stands behind each `;`.
pub fn parts_of(alloc: Global, line: &[u8]) -> Result<Vec<&[u8]>, AllocError>
    ensures { IfOk result (λ parts. bytes_of parts.items ≡ parted 59 line.now) }
{
    line.split(|b| *b == b';').collect(alloc)
}

/// A word that is a number from `low` to `high`, as a script writes it, or `BadNumber`.
pub fn number_at(low: u64, high: u64, word: &[u8]) -> Result<u64, LineFault>
    ensures exact { result ≡ number_on low high word.now }
    ensures high { IfOk result (λ n. n ≤ high) }
{
    match number(low, high, word) {
        Some(n) => Ok(n),
        None => Err(LineFault::BadNumber),
    }
}

/// The first word as such a number, and the words behind it; `BadLine` where there is none.
pub fn first_number<'a, 'b>(
    low: u64,
    high: u64,
    words: &'a [&'b [u8]],
) -> Result<(u64, &'a [&'b [u8]]), LineFault>
    ensures exact { GivesFirst (first_number low high (bytes_of words.now)) result }
    ensures high { IfOk result (λ r. r.0 ≤ high) }
{
    match words {
        [word, rest @ ..] => Ok((number_at(low, high, word)?, rest)),
        [] => Err(LineFault::BadLine),
    }
}

/// The first word as the id of an update, and the words behind it; `BadLine` where there is none.
pub fn first_id<'a, 'b>(words: &'a [&'b [u8]]) -> Result<(UpdateId, &'a [&'b [u8]]), LineFault>
    ensures { GivesFirst (first_id (bytes_of words.now)) result }
{
    let [word, rest @ ..] = words else {
        return Err(LineFault::BadLine);
    };
    match tag_of(word) {
        Some(id) => Ok((id, rest)),
        None => Err(LineFault::BadNumber),
    }
}

/// `BadLine` where there is something more.
pub fn at_end(words: &[&[u8]]) -> Result<(), LineFault>
    ensures { result ≡ at_end (bytes_of words.now) }
{
    if words.is_empty() {
        Ok(())
    } else {
        Err(LineFault::BadLine)
    }
}
