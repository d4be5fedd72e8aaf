// Bytes that came at once.
ghost use Rattle.std.specs.Prelude.{◌≡◌, ◌≤◌, ◌<◌, List, ℕ, [], length, vec_capacity, IfOk};
ghost use Rattle.la_tick.specs.declared.chunk.TheConstants.{CHUNK};

use std::alloc::{AllocError, Global};
use std::marker::Model;

// The most bytes that come at once.
pub(crate) const CHUNK: usize = 8192;

// So many bytes at most, in memory that is taken once.
#[derive(Drop)]
pub(crate) struct Chunk {
    bytes: Vec<u8>,
}

impl Model for Chunk {
    ghost Value = { List ℕ };

    ghost view = { λ c. c.bytes.items };

    ghost invariant = { λ c. CHUNK ≤ vec_capacity c.bytes };
}

impl Chunk {
    pub(crate) fn new(alloc: Global) -> Result<Chunk, AllocError>
        ensures { IfOk result (λ c. c ≡ []) }
    {
        let bytes = Vec::with_capacity(alloc, CHUNK)?;
        Ok(Chunk { bytes })
    }

    pub(crate) fn as_slice(&self) -> &[u8]
        ensures { result.now ≡ self.now }
    {
        self.bytes.as_slice()
    }

    // Has these bytes from now on, and no others.
    pub(crate) fn fill(&mut self, bytes: &[u8])
        requires { length bytes.now ≤ CHUNK }
        ensures { self.new ≡ bytes.now }
    {
        self.bytes.clear();
        let Ok(()) = self.bytes.extend_from_slice(bytes) else {
            unreachable!()
        };
    }
}
