// A file as the journal sees it: its bytes, and what a crash may leave of them.
ghost use Rattle.std.specs.Prelude.{◌≡◌, ◌⊎◌, ◌++◌, ◌+◌, ◌≤◌, ◌<◌, List, ℕ, length, OnOk, OnErr};
ghost use Rattle.la_journal.specs.Disk.{Only, CrashesFollow, Torn, Elapses};

use crate::Record;
use thiserror::Error;

/// The disk failed: it is full, broken or away.
#[derive(Clone, Copy, Debug, PartialEq, Eq, Error)]
#[error("the disk failed")]
pub struct DiskFault;

/// A file that bytes are put behind. Of those that no sync was for a crash may leave anything; what of that digests are
/// taken to see is said at `Torn` (`specs/Disk`).
pub trait Disk: Drop {
    /// The bytes of the file, as whoever opens it reads them.
    ghost seen: { Self → List ℕ };

    /// What a crash at this moment may leave.
    ghost may_leave: { Self → List ℕ → Type 0 };

    /// The moment, as a number that does not fall: each append, sync and replacement that is done is one more.
    ghost moment: { Self → ℕ };

    /// What a crash at some moment from that one on might have left, during a call or between two.
    ghost left_since: { Self → ℕ → List ℕ → Type 0 };

    /// How often the disk has failed.
    ghost faults: { Self → ℕ };

    /// The bytes that were last cut off the file and set aside.
    ghost aside: { Self → List ℕ };

    /// What is noted of the file's past, which takes no memory: as many moments as went by.
    fn past(&self) -> &Record
        ensures { length result.now.events ≡ moment self.now };

    /// Puts bytes behind the file. Until a sync, a crash may leave others in their place, or none.
    fn append(&mut self, bytes: &[u8]) -> Result<(), DiskFault>
        ensures written { OnOk result (seen self.new ≡ seen self.old ++ bytes.now) }
        ensures once { OnOk result (moment self.new ≡ moment self.old + 1) }
        ensures aside { aside self.new ≡ aside self.old }
        ensures crash { CrashesFollow (Torn bytes.now) (may_leave self.old) (may_leave self.new) }
        ensures time { Elapses (moment self.old) (moment self.new) (left_since self.old) (left_since self.new) (may_leave self.new) }
        ensures later { faults self.old ≤ faults self.new }
        ensures failed { OnErr result (faults self.old < faults self.new) };

    /// Brings all bytes of the file onto the disk: after it, a crash leaves all of them.
    fn sync(&mut self) -> Result<(), DiskFault>
        ensures durable { OnOk result (Only (seen self.old) (may_leave self.new)) }
        ensures once { OnOk result (moment self.new ≡ moment self.old + 1) }
        ensures seen { seen self.new ≡ seen self.old }
        ensures aside { aside self.new ≡ aside self.old }
        ensures crash { (c : List ℕ) → may_leave self.new c → may_leave self.old c }
        ensures time { Elapses (moment self.old) (moment self.new) (left_since self.old) (left_since self.new) (may_leave self.new) }
        ensures later { faults self.old ≤ faults self.new }
        ensures failed { OnErr result (faults self.old < faults self.new) };

    /// Puts other bytes in the file's place at once, on the disk: a crash leaves either.
    fn replace(&mut self, bytes: &[u8]) -> Result<(), DiskFault>
        ensures written { OnOk result (seen self.new ≡ bytes.now) }
        ensures once { OnOk result (moment self.new ≡ moment self.old + 1) }
        ensures aside { aside self.new ≡ aside self.old }
        ensures durable { OnOk result (Only bytes.now (may_leave self.new)) }
        ensures crash { (c : List ℕ) → may_leave self.new c → may_leave self.old c ⊎ (c ≡ bytes.now) }
        ensures time { Elapses (moment self.old) (moment self.new) (left_since self.old) (left_since self.new) (may_leave self.new) }
        ensures later { faults self.old ≤ faults self.new }
        ensures failed { OnErr result (faults self.old < faults self.new) };

    /// Keeps bytes that are about to be cut off the file elsewhere, for whoever looks for them. The file is as it was.
    fn set_aside(&mut self, torn: &[u8]) -> Result<(), DiskFault>
        ensures aside { OnOk result (aside self.new ≡ torn.now) }
        ensures seen { seen self.new ≡ seen self.old }
        ensures crash { (c : List ℕ) → may_leave self.new c → may_leave self.old c }
        ensures time { Elapses (moment self.old) (moment self.new) (left_since self.old) (left_since self.new) (may_leave self.new) }
        ensures later { faults self.old ≤ faults self.new }
        ensures failed { OnErr result (faults self.old < faults self.new) };

    /// This moment is one of those since an earlier one.
    ghost counts_now: { (file : Self) (t : ℕ) (c : List ℕ) → t ≤ moment file → may_leave file c → left_since file t c };

    /// A crash may leave the file as it is.
    ghost stays: { (file : Self) → may_leave file (seen file) };

    /// Since this moment there is no other.
    ghost only_now: { (file : Self) (c : List ℕ) → left_since file (moment file) c → may_leave file c };
}
