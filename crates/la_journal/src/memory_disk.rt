// A file in memory that fails and crashes as a test wants.
ghost use Rattle.std.specs.Prelude.{◌≡◌, ◌≤◌, ◌++◌, ◌↔◌, List, ℕ, None, length, take, IfOk, IfSome, IsTrue};
ghost use Rattle.la_journal.specs.Disk.{Only, IsUnread};
ghost use Rattle.la_journal.specs.Records.{parts};
ghost use Rattle.la_journal.specs.Outcomes.{IsNoCrash};
ghost use Rattle.la_journal.specs.Held.{held_bytes, synced_count, leaving, faults_of, aside_of, moment_of};
ghost use Rattle.la_journal.specs.Held.{may_leave_of, left_since_of, TimeGoesOn, only_now_of, counts_now_of, stays_of};
ghost use Rattle.la_journal.specs.Starts.{IsStart};

use crate::damage::is_damage;
use crate::grouped::{head_of, next_group};
use crate::{Contents, Disk, DiskFault, Record};
use std::alloc::{AllocError, Global};

/// A disk in memory, for tests. It takes so many bytes and no more, and so many syncs and no more;
/// [`crash`](MemoryDisk::crash) gives what a crash leaves of it. It has a clock, which each append, sync and
/// replacement moves on by one; where that has come to its end, at 2^64 - 1, it fails. Where memory is refused, an
/// append or a replacement fails.
#[derive(Drop)]
pub struct MemoryDisk {
    alloc: Global,
    bytes: Vec<u8>,
    // So many of the bytes are on the disk.
    kept: usize,
    contents: Contents,
    most: usize,
    syncs: u32,
    clock: u64,
    ghost holds: { held_bytes contents ≡ bytes.items },
    ghost keeps: { synced_count contents ≡ kept },
    ghost on_time: { clock ≡ moment_of contents },
}

impl MemoryDisk {
    /// A disk whose file holds these bytes, all of them on the disk. It is not full and does not
    /// fail.
    pub fn new(alloc: Global, bytes: Vec<u8>) -> MemoryDisk
        ensures bytes { held_bytes result.contents ≡ bytes.items }
        ensures kept { synced_count result.contents ≡ length bytes.items }
        ensures stored { Only bytes.items (may_leave_of result.contents) }
    {
        let contents = Contents::stored(&bytes);
        let kept = bytes.len();
        MemoryDisk {
            alloc,
            bytes,
            kept,
            contents,
            most: usize::MAX,
            syncs: u32::MAX,
            clock: 1,
        }
    }

    /// Makes the disk full once its file has so many bytes: an append or a replacement that does not fit it refuses
    /// whole. It takes no part of an append, since of that a digest need not see that it is a part (`Torn` in
    /// `specs/Disk`).
    pub fn full_at(&mut self, most: usize)
        ensures { self.new.contents ≡ self.old.contents }
    {
        self.most = most;
    }

    /// Makes the disk fail at each sync after so many, of appends and of replacements.
    pub fn fail_after(&mut self, syncs: u32)
        ensures { self.new.contents ≡ self.old.contents }
    {
        self.syncs = syncs;
    }

    /// The bytes of the file.
    pub fn bytes(&self) -> &[u8]
        ensures { result.now ≡ held_bytes self.now.contents }
    {
        self.bytes.as_slice()
    }

    /// The moment by the disk's clock, which each append, sync and replacement moves on by one.
    pub fn moment(&self) -> u64
        ensures { result ≡ moment_of self.now.contents }
    {
        self.clock
    }

    /// What a crash leaves: what is on the disk, and behind it these bytes, which may be any, in the place of the rest. All
    /// of that is on the disk that comes back. `None` where no crash leaves it: there is no rest, or a digest would not
    /// tell the bytes from what was written (`IsUnread` in `specs/Disk`). Linear in the file.
    pub fn crash(&self, torn: &[u8]) -> Result<Option<MemoryDisk>, AllocError>
        ensures bytes { IfOk result (λ some. IfSome some (λ left. held_bytes left.contents
            ≡ leaving torn.now self.now.contents)) }
        ensures kept { IfOk result (λ some. IfSome some (λ left. synced_count left.contents ≡ length (held_bytes left.contents))) }
        ensures left { IfOk result (λ some. IfSome some (λ left. may_leave_of self.now.contents (held_bytes left.contents))) }
        ensures stored { IfOk result (λ some. IfSome some (λ left. Only (held_bytes left.contents) (may_leave_of left.contents))) }
        ensures none { IfOk result (λ some. some ≡ None → IsNoCrash (synced_count self.now.contents) (held_bytes self.now.contents) torn.now) }
    {
        match self.left_by(torn)? {
            Some(left) => Ok(Some(MemoryDisk::new(self.alloc, left))),
            None => Ok(None),
        }
    }

    /// What another process finds after a crash, as by [`crash`](MemoryDisk::crash), of a process that died with this
    /// disk. Until the other process has synced or replaced the file, a crash leaves what it found, or what this one may
    /// have left. It is not full and does not fail. Where memory is refused, or the clock has come to its end, or no crash
    /// leaves it, this disk is dropped.
    pub fn restart(self, torn: &[u8]) -> Result<Option<MemoryDisk>, AllocError>
        ensures bytes { IfOk result (λ some. IfSome some (λ found. held_bytes found.contents
            ≡ leaving torn.now self.contents)) }
        ensures start { IfOk result (λ some. IfSome some (λ found. (t : ℕ) → t ≤ moment_of self.contents
            → IsStart (λ d. held_bytes d.contents) (λ d c. may_leave_of d.contents c) (left_since_of self.contents t) found)) }
        ensures crash { IfOk result (λ some. IfSome some (λ found. (c : List ℕ) → may_leave_of found.contents c → may_leave_of self.contents c)) }
        ensures time { IfOk result (λ some. IfSome some (λ found. TimeGoesOn self.contents found.contents)) }
        ensures none { IfOk result (λ some. some ≡ None → IsNoCrash (synced_count self.contents) (held_bytes self.contents) torn.now) }
    {
        if self.clock == u64::MAX {
            return Err(AllocError);
        }
        let Some(bytes) = self.left_by(torn)? else {
            return Ok(None);
        };
        let kept = bytes.len();
        let clock = self.clock + 1;
        let alloc = self.alloc;
        let contents = Contents::found(&bytes, self.contents.left());
        Ok(Some(MemoryDisk {
            alloc,
            bytes,
            kept,
            contents,
            most: usize::MAX,
            syncs: u32::MAX,
            clock,
        }))
    }

    // The bytes that a crash leaves, with these in the place of those that are not on the disk.
    fn left_by(&self, torn: &[u8]) -> Result<Option<Vec<u8>>, AllocError>
        ensures bytes { IfOk result (λ some. IfSome some (λ left. left.items
            ≡ leaving torn.now self.now.contents)) }
        ensures left { IfOk result (λ some. IfSome some (λ left. may_leave_of self.now.contents left.items)) }
        ensures none { IfOk result (λ some. some ≡ None → IsNoCrash (synced_count self.now.contents) (held_bytes self.now.contents) torn.now) }
    {
        let (kept, rest) = self.bytes.split_at(self.kept);
        if rest != torn && (rest.is_empty() || !is_unread(kept, torn)) {
            return Ok(None);
        }
        let mut left = kept.to_vec(self.alloc)?;
        left.extend_from_slice(torn)?;
        Ok(Some(left))
    }
}

// Whether of these bytes behind a file no group is read, and they are no damage.
fn is_unread(file: &[u8], torn: &[u8]) -> bool
    ensures { IsTrue result ↔ IsUnread (parts file.now) torn.now }
{
    let Some(head) = head_of(file) else {
        return true;
    };
    let mut rest = head.rest;
    let mut before = head.line;
    while let Some(group) = next_group(rest, before) {
        rest = group.rest;
        before = group.record;
    }
    next_group(torn, before).is_none() && !is_damage(torn)
}

// Takes one of what is left, if there is one.
fn take_one(left: &mut u32) -> bool {
    if *left == 0 {
        return false;
    }
    *left -= 1;
    true
}

impl Disk for MemoryDisk {
    ghost seen = { λ d. held_bytes d.contents };

    ghost may_leave = { λ d c. may_leave_of d.contents c };

    ghost moment = { λ d. moment_of d.contents };

    ghost left_since = { λ d t c. left_since_of d.contents t c };

    ghost faults = { λ d. faults_of d.contents };

    ghost aside = { λ d. aside_of d.contents };

    ghost counts_now = { λ d t c le left. counts_now_of d.contents t c le left };

    ghost only_now = { λ d c left. only_now_of d.contents c left };

    ghost stays = { λ d. stays_of d.contents };

    fn past(&self) -> &Record {
        self.contents.past()
    }

    fn append(&mut self, bytes: &[u8]) -> Result<(), DiskFault> {
        let free = self.most.saturating_sub(self.bytes.len());
        let refuses = self.clock == u64::MAX || free < bytes.len();
        if refuses || self.bytes.extend_from_slice(bytes).is_err() {
            self.contents.fail();
            return Err(DiskFault);
        }
        self.clock += 1;
        self.contents.append(bytes);
        Ok(())
    }

    fn sync(&mut self) -> Result<(), DiskFault> {
        if self.clock == u64::MAX || !take_one(&mut self.syncs) {
            self.contents.fail();
            return Err(DiskFault);
        }
        self.clock += 1;
        self.kept = self.bytes.len();
        self.contents.sync();
        Ok(())
    }

    fn set_aside(&mut self, torn: &[u8]) -> Result<(), DiskFault> {
        self.contents.set_aside(torn);
        Ok(())
    }

    fn replace(&mut self, bytes: &[u8]) -> Result<(), DiskFault> {
        let Ok(copy) = bytes.to_vec(self.alloc) else {
            self.contents.fail();
            return Err(DiskFault);
        };
        if self.clock == u64::MAX || self.most < bytes.len() || !take_one(&mut self.syncs) {
            self.contents.fail();
            return Err(DiskFault);
        }
        self.clock += 1;
        self.kept = copy.len();
        self.bytes = copy;
        self.contents.replace(bytes);
        Ok(())
    }
}
