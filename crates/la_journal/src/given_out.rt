//! What was given out, and when.
ghost use Rattle.std.specs.Prelude.{◌≡◌, ◌∷◌, List, ℕ, [], length};
ghost use Rattle.std.specs.Borrow.{ftrue};
ghost use Rattle.la_journal.specs.Giving.{GivenAt};

use crate::record::Record;
use std::marker::{Model, PhantomData};

/// The texts that were given out so far, the newest first, each with the disk's moment then. Only clauses read it: it
/// takes no memory.
#[derive(Drop)]
pub struct GivenOut {
    marker: PhantomData<u8>,
    pub ghost texts: { List GivenAt },
}

impl Model for GivenOut {
    ghost also_owns = { λ _. ftrue };
}

impl GivenOut {
    /// Before anything was given out.
    pub fn nothing() -> GivenOut
        ensures { result.texts ≡ [] }
    {
        GivenOut {
            marker: PhantomData,
        }
    }

    /// The same, and this text, at the moment of a disk with this past ([`Disk::past`](crate::Disk::past)).
    pub fn with(&self, _past: &Record, _text: &[u8]) -> GivenOut
        ensures { result.texts
            ≡ record { moment = length _past.now.events; text = _text.now } ∷ self.now.texts }
    {
        GivenOut {
            marker: PhantomData,
        }
    }
}
