// Updates that a node tells, read back from its answers.
ghost use Rattle.std.specs.Prelude.{◌≡◌};
ghost use Rattle.la_script.specs.Words.{bytes_of};
ghost use Rattle.la_wire.specs.Readings.{GivesOnLine};
ghost use Rattle.la_wire.specs.Told.{is_noter, update_in_words, update_in_note};

use crate::questions::UPDATE;
use crate::requests::request_in;
use crate::updates::update_in;
use crate::{LineError, LineFault};
use la_script::{number, words_of};
use la_set::Update;
use std::alloc::Global;

// Whether a note's word says whose it is.
fn is_noter(word: &[u8]) -> bool
    ensures { result ≡ is_noter word.now }
{
    match word {
        [b'r', digits @ ..] => number(0, u64::from(u8::MAX), digits).is_some(),
        _ => false,
    }
}

fn update_in_words(alloc: Global, words: &[&[u8]]) -> Result<Update, LineError>
    ensures { GivesOnLine (λ update. update) (update_in_words (bytes_of words.now)) result }
{
    match words {
        [first, noter, word, rest @ ..]
            if *first == b"#".as_slice() && is_noter(noter) && *word == UPDATE => {
            update_in(alloc, rest)
        }
        _ => Err(LineError::Fault(LineFault::BadLine)),
    }
}

/// The update that a node's answer to `update R P.N` tells, as [`put_update_answer`](crate::put_update_answer) writes
/// it, without the line's end: `# rR update P.N O ..`, with R of 8 bits, and ` @` and a request's name behind it or not.
///
/// `BadLine` and `BadNumber` come as of an update in a letter, and `BadLine` of every other line; else `Memory`. The
/// cost is linear in the line.
#[tactic(auto, unfolding(crate::specs::Told::update_in_note))]
pub fn update_in_note(alloc: Global, line: &[u8]) -> Result<Update, LineError>
    ensures { GivesOnLine (λ update. update) (update_in_note line.now) result }
{
    let words = words_of(alloc, request_in(line).call)?;
    update_in_words(alloc, &words)
}
