// What faults are told to.
ghost use Rattle.std.specs.Prelude.{◌≡◌, ℕ, ◌<◌, ◌≤◌, List, [], length, IfOk, OnOk, OnErr};
ghost use Rattle.std.specs.Io.KnownBytes.{Keeps, WriteAppends};
ghost use Rattle.la_io.specs.Streams.{Writes, RefusesBytes};

use crate::streams::{WriteFailed, flush, write_some};
use std::io::{Sink, Stderr, Write};

/// A writer that faults are told to. Of any other writer nothing is stated after a refusal, so a
/// program that never called it could say that it refused. Of this one its refusals are stated, and
/// who is generic in it has them from its calls alone.
pub trait Listener: Write {
    // Handed these bytes in the first state it failed or took none, or its flush failed where there
    // are none; it was left in the second.
    ghost refuses: { Self → List ℕ → Self → Type 0 };

    /// One write, of the first of the bytes, at least of one. [`write_some`] of it.
    ///
    /// [`write_some`]: crate::write_some
    fn hear(&mut self, bytes: &[u8]) -> Result<usize, WriteFailed>
        ensures some { IfOk result (λ count. 0 < count) }
        ensures bound { IfOk result (λ count. count ≤ length bytes.now) }
        ensures bytes { WriteAppends (Self.contents self.old) (Self.contents self.new)
            result bytes.now }
        ensures refused { OnErr result (refuses self.old bytes.now self.new) };

    /// Its flush.
    fn settle(&mut self) -> Result<(), WriteFailed>
        ensures bytes { Keeps (Self.contents self.old) (Self.contents self.new) }
        ensures refused { OnErr result (refuses self.old [] self.new) };
}

/// Of the real standard error nothing is stated: it may always refuse.
impl Listener for Stderr {
    ghost refuses = { λ old bytes new. Unit {0} };

    fn hear(&mut self, bytes: &[u8]) -> Result<usize, WriteFailed> {
        write_some(self, bytes)
    }

    fn settle(&mut self) -> Result<(), WriteFailed> {
        flush(self)
    }
}

/// It takes all that it is handed.
impl Listener for Sink {
    ghost refuses = { λ old bytes new. length bytes ≡ 0 };

    fn hear(&mut self, bytes: &[u8]) -> Result<usize, WriteFailed> {
        match self.write(bytes) {
            Ok(0) | Err(_) => Err(WriteFailed),
            Ok(count) => Ok(count),
        }
    }

    fn settle(&mut self) -> Result<(), WriteFailed> {
        flush(self)
    }
}

/// Tells all of the bytes, in as many writes as it takes, and then flushes.
///
/// It is refused at the first write that fails or takes no byte, and where the flush fails. Then a
/// front of the bytes was taken, and the rest was refused.
pub fn tell_all<E: Listener>(errors: &mut E, bytes: &[u8]) -> Result<(), WriteFailed>
    ensures ok { OnOk result (Writes E.contents errors.old errors.new bytes.now) }
    ensures err { OnErr result (RefusesBytes E.contents E.refuses errors.old errors.new bytes.now) }
{
    let mut done = 0;
    while done < bytes.len() {
        let count = errors.hear(&bytes[done..])?;
        done += count;
    }
    errors.settle()
}
