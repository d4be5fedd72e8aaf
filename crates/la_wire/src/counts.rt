// Counts as one word, written and read.
ghost use Rattle.std.specs.Prelude.{◌≡◌, ◌≤◌, ◌==◌, ◌++◌, ◌∷◌, OnOk, position, slice_index_or};
ghost use Rattle.std.specs.Fmt.{decimal};
ghost use Rattle.la_wire.specs.Joined.{parted};
ghost use Rattle.la_wire.specs.MessageLines.{used, counts_text, counts_with, counts_on, texts_left};
ghost use Rattle.la_wire.specs.Writable.{IsCounts};

use crate::LineFault;
use crate::words::number_at;
use crate::writing::put_decimal;
use arrayvec::ArrayVec;
use la_set::{Counts, REPLICAS};
use std::alloc::AllocError;

// How many numbers are written of counts: 1 to 8, up to the last that is not 0.
fn used(counts: Counts) -> u8
    ensures exact { result ≡ used counts }
    ensures some { 1 ≤ result }
    ensures few { result ≤ REPLICAS }
{
    let mut used = REPLICAS;
    while used > 1 && counts.of(used - 1) == 0 {
        used -= 1;
    }
    used
}

// Writes a number behind others of a word.
fn put_behind(out: &mut Vec<u8>, number: u32) -> Result<(), AllocError>
    ensures { OnOk result (out.new.items ≡ out.old.items ++ 44 ∷ decimal number) }
{
    out.push(b',')?;
    put_decimal(out, u64::from(number))
}

/// Writes counts as one word.
pub fn put_counts_text(out: &mut Vec<u8>, counts: Counts) -> Result<(), AllocError>
    ensures exact { OnOk result (out.new.items ≡ out.old.items ++ counts_text counts) }
    ensures typed { OnOk result (IsCounts counts) }
{
    put_decimal(out, u64::from(counts.of(0)))?;
    let many = used(counts);
    for replica in 1..many {
        put_behind(out, counts.of(replica))?;
    }
    Ok(())
}

// Where the first `,` stands.
fn comma_in(texts: &[u8]) -> Option<usize>
    ensures { result ≡ position (λ b. b == 44) texts.now }
{
    texts.iter().position(|b| *b == b',')
}

// The text before the first `,`, and what stands behind it, where there is one.
fn first_text(texts: &[u8]) -> (&[u8], Option<&[u8]>)
    ensures { parted 44 texts.now ≡ result.0.now ∷ texts_left result.1 }
{
    match comma_in(texts) {
        Some(end) => (&texts[..end], Some(&texts[end + 1..])),
        None => (texts, None),
    }
}

// The number of a replica, or 0 where there is none.
fn number_of(numbers: &[u32], replica: usize) -> u32
    ensures { result ≡ slice_index_or numbers.now replica 0 }
{
    match numbers.get(replica) {
        Some(number) => *number,
        None => 0,
    }
}

fn counts_with(numbers: &[u32]) -> Counts
    ensures { result ≡ counts_with numbers.now }
{
    Counts::from([
        number_of(numbers, 0),
        number_of(numbers, 1),
        number_of(numbers, 2),
        number_of(numbers, 3),
        number_of(numbers, 4),
        number_of(numbers, 5),
        number_of(numbers, 6),
        number_of(numbers, 7),
    ])
}

/// The counts that a word is: one to eight numbers, with `,` between them.
pub fn counts_on(word: &[u8]) -> Result<Counts, LineFault>
    ensures { result ≡ counts_on word.now }
{
    let mut numbers: ArrayVec<u32, 8> = ArrayVec::new();
    let mut rest = Some(word);
    while let Some(texts) = rest {
        let (text, behind) = first_text(texts);
        let number = number_at(0, u64::from(u32::MAX), text)?;
        if numbers.try_push(number as u32).is_err() {
            return Err(LineFault::BadNumber);
        }
        rest = behind;
    }
    Ok(counts_with(numbers.as_slice()))
}
