// What becomes of the contents of a file.
ghost use Rattle.std.specs.Prelude.{◌≡◌, ◌⊎◌, ◌++◌, ◌+◌, ◌≤◌, List, ℕ, length};
ghost use Rattle.la_journal.specs.Disk.{Only, CrashesFollow, Torn, Elapses};
ghost use Rattle.la_journal.specs.Note.{now_of};
ghost use Rattle.la_journal.specs.Outcomes.{LeftAt, LeftSince};
ghost use Rattle.la_journal.specs.Held.{held_bytes, synced_count, faults_of, aside_of, moment_of, may_leave_of, left_since_of, TimeGoesOn};

use crate::Contents;
use crate::happened::Happened;
use crate::record::Record;

impl Contents {
    /// A file that a process finds which starts behind another one: it holds these bytes. Until the first sync or
    /// replacement a crash leaves these bytes, or what the earlier process may have left.
    pub fn found(bytes: &[u8], left: Record) -> Contents
        ensures bytes { held_bytes result ≡ bytes.now }
        ensures kept { synced_count result ≡ length bytes.now }
        ensures crash { (c : List ℕ) → may_leave_of result c → (c ≡ bytes.now) ⊎ LeftAt (now_of left.events) c }
        ensures seen { may_leave_of result bytes.now }
        ensures moment { moment_of result ≡ length left.events + 1 }
        ensures time { Elapses (length left.events) (moment_of result)
            (LeftSince left.events) (left_since_of result) (may_leave_of result) }
    {
        let mut past = left;
        past.note(&Happened::Found, bytes);
        Contents {
            past,
            failures: Record::new(),
            cut: Record::of_another(),
        }
    }

    /// A file that holds these bytes, all of them on the disk.
    pub fn stored(bytes: &[u8]) -> Contents
        ensures bytes { held_bytes result ≡ bytes.now }
        ensures kept { synced_count result ≡ length bytes.now }
        ensures durable { Only bytes.now (may_leave_of result) }
        ensures seen { may_leave_of result bytes.now }
        ensures moment { moment_of result ≡ 1 }
    {
        let mut past = Record::new();
        past.note(&Happened::Replaced, bytes);
        Contents {
            past,
            failures: Record::new(),
            cut: Record::new(),
        }
    }

    /// What a crash may leave, at this moment and at the earlier ones, for whoever finds the file next.
    pub fn left(self) -> Record
        ensures { result.events ≡ self.past.events }
    {
        let Contents { past, .. } = self;
        past
    }

    /// What a crash may leave, at this moment and at the earlier ones.
    pub fn past(&self) -> &Record
        ensures { result.now.events ≡ self.now.past.events }
    {
        &self.past
    }

    /// Notes that bytes were put behind the others, or some of them were: none of them is on the
    /// disk for sure.
    pub fn append(&mut self, bytes: &[u8])
        ensures bytes { held_bytes self.new ≡ held_bytes self.old ++ bytes.now }
        ensures kept { synced_count self.new ≡ synced_count self.old }
        ensures crash { CrashesFollow (Torn bytes.now) (may_leave_of self.old) (may_leave_of self.new) }
        ensures time { TimeGoesOn self.old self.new }
        ensures moment { moment_of self.new ≡ moment_of self.old + 1 }
        ensures faults { faults_of self.new ≡ faults_of self.old }
        ensures aside { aside_of self.new ≡ aside_of self.old }
    {
        self.past.note(&Happened::Appended, bytes);
    }

    /// Notes that all the bytes are on the disk.
    pub fn sync(&mut self)
        ensures bytes { held_bytes self.new ≡ held_bytes self.old }
        ensures kept { synced_count self.new ≡ length (held_bytes self.old) }
        ensures durable { Only (held_bytes self.old) (may_leave_of self.new) }
        ensures crash { (c : List ℕ) → may_leave_of self.new c → may_leave_of self.old c }
        ensures time { TimeGoesOn self.old self.new }
        ensures moment { moment_of self.new ≡ moment_of self.old + 1 }
        ensures faults { faults_of self.new ≡ faults_of self.old }
        ensures aside { aside_of self.new ≡ aside_of self.old }
    {
        self.past.note(&Happened::Synced, &[]);
    }

    /// Notes that other bytes stand in the place of these, all of them on the disk.
    pub fn replace(&mut self, bytes: &[u8])
        ensures bytes { held_bytes self.new ≡ bytes.now }
        ensures kept { synced_count self.new ≡ length bytes.now }
        ensures durable { Only bytes.now (may_leave_of self.new) }
        ensures time { TimeGoesOn self.old self.new }
        ensures moment { moment_of self.new ≡ moment_of self.old + 1 }
        ensures faults { faults_of self.new ≡ faults_of self.old }
        ensures aside { aside_of self.new ≡ aside_of self.old }
    {
        self.past.note(&Happened::Replaced, bytes);
    }

    /// Notes that the disk failed once more.
    pub fn fail(&mut self)
        ensures bytes { held_bytes self.new ≡ held_bytes self.old }
        ensures kept { synced_count self.new ≡ synced_count self.old }
        ensures crash { (c : List ℕ) → may_leave_of self.new c → may_leave_of self.old c }
        ensures still { (c : List ℕ) → may_leave_of self.old c → may_leave_of self.new c }
        ensures time { TimeGoesOn self.old self.new }
        ensures moment { moment_of self.new ≡ moment_of self.old }
        ensures faults { faults_of self.new ≡ faults_of self.old + 1 }
        ensures aside { aside_of self.new ≡ aside_of self.old }
    {
        self.failures.note(&Happened::Failed, &[]);
    }

    /// Notes that these bytes are set aside, which are about to be cut off.
    pub fn set_aside(&mut self, torn: &[u8])
        ensures aside { aside_of self.new ≡ torn.now }
        ensures bytes { held_bytes self.new ≡ held_bytes self.old }
        ensures kept { synced_count self.new ≡ synced_count self.old }
        ensures crash { (c : List ℕ) → may_leave_of self.new c → may_leave_of self.old c }
        ensures still { (c : List ℕ) → may_leave_of self.old c → may_leave_of self.new c }
        ensures time { TimeGoesOn self.old self.new }
        ensures moment { moment_of self.new ≡ moment_of self.old }
        ensures faults { faults_of self.new ≡ faults_of self.old }
    {
        self.cut.note(&Happened::Replaced, torn);
    }
}
