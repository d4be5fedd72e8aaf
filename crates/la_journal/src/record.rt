//! What is noted of a file's past.
ghost use Rattle.std.specs.Prelude.{◌≡◌, List, []};
ghost use Rattle.std.specs.Borrow.{ftrue};
ghost use Rattle.la_journal.specs.Note.{Moment};
ghost use Rattle.la_journal.specs.Note.{next_of};

use crate::happened::Happened;
use std::marker::{Model, PhantomData};

/// What a crash might have left of a file at each moment so far, as [`Contents`](crate::Contents) notes it. Only
/// clauses read it: it takes no memory.
#[derive(Drop)]
pub struct Record {
    marker: PhantomData<u8>,
    pub ghost events: { List Moment },
}

impl Model for Record {
    ghost also_owns = { λ _. ftrue };
}

impl Record {
    pub(crate) fn new() -> Record
        ensures { result.events ≡ [] }
    {
        Record {
            marker: PhantomData,
        }
    }

    /// The record of an earlier process, whose file is found and not its memory. No clause says what is in it: what
    /// that process may have left is a premise, `IsStart`, of whoever starts on the file.
    pub fn of_another() -> Record {
        Record::new()
    }

    /// A moment more, as `next_of` says it. Costs nothing.
    pub(crate) fn note(&mut self, _happened: &Happened, _bytes: &[u8])
        ensures { self.new.events ≡ next_of _happened.now _bytes.now self.old.events }
    {}
}
