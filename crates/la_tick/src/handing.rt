// What is handed on of an input, and when a tick is.
ghost use Rattle.std.specs.Prelude.{◌≡◌, ◌↔◌, ◌<◌, ◌++◌, ◌∷◌, List, ℕ, true, [], None, IsTrue};
ghost use Rattle.std.specs.Prelude.{length, take, min, max};
ghost use Rattle.la_tick.specs.Ticks.{Anew, Came, Passed, Hearing, Stands, ends_behind, in_hand, patience};

use crate::chunk::Chunk;
use crate::feed::{Ending, Feed, Filled};
use crate::pace::Pace;
use std::mem;

// Whether bytes end a line that stand behind such, or behind others.
fn ends_behind(ended: bool, bytes: &[u8]) -> bool
    ensures { result ≡ ends_behind ended bytes.now }
{
    match bytes.last() {
        Some(last) => *last == b'\n',
        None => ended,
    }
}

impl Feed {
    // Nothing came yet. The first interval is of so many milliseconds, at least of one.
    pub(crate) fn new(chunk: Chunk, first: u64) -> Feed
        requires { chunk ≡ [] }
        ensures stands { Stands result [] [] }
        ensures first { result.pace.first ≡ max first 1 }
        ensures open { result.ending ≡ None }
    {
        Feed {
            chunk,
            taken: 0,
            whole: true,
            pace: Pace::new(first),
            ending: None,
        }
    }

    // Whether all that came is handed on.
    pub(crate) fn is_done(&self) -> bool
        ensures { IsTrue result ↔ (in_hand self.now ≡ []) }
    {
        self.taken == self.chunk.as_slice().len()
    }

    // For how many milliseconds more is waited for, where there is a limit.
    pub(crate) fn patience(&self) -> Option<u64>
        ensures { result ≡ patience self.now }
    {
        if self.whole {
            Some(self.pace.now)
        } else {
            None
        }
    }

    // Bytes came. Answers the chunk that was handed on.
    pub(crate) fn hear_bytes(&mut self, filled: Filled) -> Chunk
        requires { in_hand self.old ≡ [] }
        ensures stands { (heard : Hearing) (handed : List ℕ) → Stands self.old heard handed
            → Stands self.new (Came filled.chunk ∷ heard) handed }
        ensures some { 0 < length (in_hand self.new) }
        ensures ending { self.new.ending ≡ self.old.ending }
        ensures first { self.new.pace.first ≡ self.old.pace.first }
    {
        self.whole = ends_behind(self.whole, filled.chunk.as_slice());
        self.taken = 0;
        mem::replace(&mut self.chunk, filled.chunk)
    }

    // The interval has passed.
    pub(crate) fn hear_nothing(&mut self)
        requires done { in_hand self.old ≡ [] }
        requires whole { self.old.whole ≡ true }
        ensures stands { (heard : Hearing) (handed : List ℕ) → Stands self.old heard handed
            → Stands self.new (Passed ∷ heard) handed }
        ensures some { 0 < length (in_hand self.new) }
        ensures ending { self.new.ending ≡ self.old.ending }
        ensures first { self.new.pace.first ≡ self.old.pace.first }
    {
        self.taken = 0;
        self.chunk.fill(b"tick\n");
        self.pace = self.pace.after_tick();
    }

    // The interval is the first again.
    pub(crate) fn begin_anew(&mut self)
        ensures stands { (heard : Hearing) (handed : List ℕ) → Stands self.old heard handed
            → Stands self.new (Anew ∷ heard) handed }
        ensures hand { in_hand self.new ≡ in_hand self.old }
        ensures ending { self.new.ending ≡ self.old.ending }
        ensures first { self.new.pace.first ≡ self.old.pace.first }
    {
        self.pace = self.pace.at_first();
    }

    // Hands on as many bytes as there is room for, of those that there are. Answers how many.
    pub(crate) fn hand(&mut self, buf: &mut [u8]) -> usize
        ensures stands { (heard : Hearing) (handed : List ℕ) → Stands self.old heard handed
            → Stands self.new heard (handed ++ take result buf.new) }
        ensures count { result ≡ min (length buf.old) (length (in_hand self.old)) }
        ensures ending { self.new.ending ≡ self.old.ending }
        ensures first { self.new.pace.first ≡ self.old.pace.first }
    {
        let chunk = self.chunk.as_slice();
        let ahead = &chunk[self.taken..];
        let count = buf.len().min(ahead.len());
        buf[..count].copy_from_slice(&ahead[..count]);
        self.taken += count;
        count
    }
}
