// Bytes on their way to a writer.
ghost use Rattle.std.specs.Prelude.{◌≡◌, ◌↔◌, ◌+◌, ◌≤◌, ◌++◌, [], length, take, IsTrue, if◌then◌else◌};

use std::marker::Model;

// The most bytes that are held.
const ROOM: usize = 8192;

// The last bytes of a text, which are not written yet.
#[derive(Drop)]
pub(crate) struct Held {
    chunk: [u8; ROOM],
    len: usize,
}

impl Model for Held {
    ghost use Rattle.std.specs.Prelude.{ℕ, List, ◌≤◌, take};
    ghost use Rattle.la_cli.specs.declared.held.TheConstants.{ROOM};

    ghost Value = { List ℕ };

    ghost view = { λ h. take h.len h.chunk };

    ghost invariant = { λ h. h.len ≤ ROOM };
}

impl Held {
    // None yet.
    pub(crate) fn new() -> Held
        ensures { result ≡ [] }
    {
        Held {
            chunk: [0; ROOM],
            len: 0,
        }
    }

    // The bytes.
    pub(crate) fn all(&self) -> &[u8]
        ensures { result.now ≡ self.now }
    {
        &self.chunk[..self.len]
    }

    // Holds the bytes behind what is held, or none of them where they don't fit. Answers whether they
    // do.
    #[inline(always)]
    pub(crate) fn add(&mut self, bytes: &[u8]) -> bool
        ensures held { self.new ≡ (if result then self.old ++ bytes.now else self.old) }
        ensures fits { IsTrue result ↔ (length self.old + length bytes.now ≤ ROOM) }
    {
        if bytes.len() > ROOM - self.len {
            return false;
        }
        let end = self.len + bytes.len();
        self.chunk[self.len..end].copy_from_slice(bytes);
        self.len = end;
        true
    }

    // Holds none any more.
    pub(crate) fn clear(&mut self)
        ensures { self.new ≡ [] }
    {
        self.len = 0;
    }
}
