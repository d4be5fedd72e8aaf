// A real file as a disk.
ghost use Rattle.std.specs.Prelude.{◌≡◌, ◌≢◌, IfOk, IfErr};
ghost use Rattle.la_journal.specs.Held.{held_bytes, faults_of, aside_of, moment_of, may_leave_of, left_since_of, only_now_of, counts_now_of, stays_of};
ghost use Rattle.la_disk.specs.declared.fault.OpenFault.TheVariants.{Locked};

use crate::opening::{
    keep_access, make, open_file, path_of, refuse_journal, refuse_other, remove_leftover,
};
use crate::{FolderLock, OpenFault};
use la_journal::{Contents, Disk, DiskFault, Record};
use std::alloc::Global;
use std::fs::{self, OpenFile, OpenOptions};
use std::io::{self, Read, Write};
use std::rt::Files;

// Puts the bytes on the disk under one name, and then under the other one, where nothing stands.
fn put_first<R: Files>(
    rt: &R,
    folder: &str,
    path: &str,
    next: &str,
    bytes: &[u8],
) -> io::Result<()> {
    remove_leftover(rt, next)?;
    let mut file = make(rt, OpenOptions::new().write(true), next)?;
    file.write_all(bytes)?;
    file.sync_all()?;
    fs::rename(rt, next, path)?;
    fs::open(rt, folder)?.sync_all()
}

/// The journal of a folder. It holds none of the file in memory.
///
/// That the file does what this notes is trusted, and is nothing that a contract says.
#[derive(Drop)]
pub struct FileDisk<R: Files + Drop> {
    rt: R,
    file: R::File,
    contents: Contents,
    path: String,
    next: String,
    torn: String,
    lock: FolderLock,
}

impl<R: Files + Drop> FileDisk<R> {
    /// Opens the journal of a folder that this process has, which [`create`](FileDisk::create) made once. What it read of
    /// it comes beside it, for [`recover`](la_journal::recover): that need not be on the disk, where `recover` puts it.
    /// Linear in the journal, which is then in memory once.
    ///
    /// `Missing` comes where there is no `journal`, and none is made. `Unopened` comes where it can't be opened, or it,
    /// `journal.new` or `journal.torn` is no file, and `Unread` where a read fails. What an earlier process may have left is not known here, and no clause
    /// says it: that what was read is among that, and that until the first sync or replacement a crash
    /// leaves that or what was read, is the premise `IsStart` of whoever starts on it.
    pub fn open(rt: R, alloc: Global, lock: FolderLock) -> Result<(FileDisk<R>, Vec<u8>), OpenFault>
        ensures found { IfOk result (λ opened. ⟦<FileDisk<R> as Disk>⟧.seen opened.0 ≡ opened.1.items) }
        ensures free { IfErr result (λ e. e ≢ Locked) }
    {
        let path = path_of(alloc, lock.folder(), "/journal")?;
        let next = path_of(alloc, lock.folder(), "/journal.new")?;
        let torn = path_of(alloc, lock.folder(), "/journal.torn")?;
        refuse_other(&rt, next.as_str())?;
        refuse_other(&rt, torn.as_str())?;
        let mut options = OpenOptions::new();
        options.read(true).append(true);
        let mut file = open_file(&rt, &options, path.as_str())?;
        let mut found = Vec::new(alloc);
        if let Err(error) = file.read_to_end(&mut found) {
            return Err(OpenFault::of_reading(error.kind()));
        }
        let contents = Contents::found(&found, Record::of_another());
        let disk = FileDisk {
            rt,
            file,
            contents,
            path,
            next,
            torn,
            lock,
        };
        Ok((disk, found))
    }

    /// Makes the journal of a folder that this process has, once and for good: it has these bytes, as
    /// [`new_journal`](la_journal::new_journal) gives them. A crash leaves none or the whole, since they are written and
    /// synced under another name first. The folder is let go then.
    ///
    /// `There` comes where `journal` is, with whatever in it, which stays as it was; `Unopened` where what stands under
    /// its name or that of `journal.new` is no file, or where a write, a sync or the renaming fails.
    pub fn create(rt: R, alloc: Global, lock: FolderLock, bytes: &[u8]) -> Result<(), OpenFault>
        ensures free { IfErr result (λ e. e ≢ Locked) }
    {
        let path = path_of(alloc, lock.folder(), "/journal")?;
        let next = path_of(alloc, lock.folder(), "/journal.new")?;
        refuse_journal(&rt, path.as_str())?;
        refuse_other(&rt, next.as_str())?;
        match put_first(&rt, lock.folder(), path.as_str(), next.as_str(), bytes) {
            Ok(()) => Ok(()),
            Err(error) => Err(OpenFault::of_opening(error.kind())),
        }
    }

    // Writes bytes that are cut off the journal into a file of their own, in the place of what was cut off before.
    fn put_aside(&self, bytes: &[u8]) -> io::Result<()> {
        remove_leftover(&self.rt, self.torn.as_str())?;
        let mut file = make(&self.rt, OpenOptions::new().write(true), self.torn.as_str())?;
        keep_access(&self.rt, &self.file, &file, self.torn.as_str())?;
        file.write_all(bytes)?;
        file.sync_all()
    }

    // Writes the bytes into a new file, and puts that in the journal's place.
    fn put(&mut self, bytes: &[u8]) -> io::Result<()>
        ensures { self.new.contents ≡ self.old.contents }
    {
        remove_leftover(&self.rt, self.next.as_str())?;
        let mut file = make(&self.rt, OpenOptions::new().write(true), self.next.as_str())?;
        keep_access(&self.rt, &self.file, &file, self.next.as_str())?;
        file.write_all(bytes)?;
        file.sync_all()?;
        fs::rename(&self.rt, self.next.as_str(), self.path.as_str())?;
        self.file = file;
        fs::open(&self.rt, self.lock.folder())?.sync_all()
    }
}

impl<R: Files + Drop> Disk for FileDisk<R> {
    ghost seen = { λ d. held_bytes d.contents };

    ghost may_leave = { λ d c. may_leave_of d.contents c };

    ghost moment = { λ d. moment_of d.contents };

    ghost left_since = { λ d t c. left_since_of d.contents t c };

    ghost faults = { λ d. faults_of d.contents };

    ghost aside = { λ d. aside_of d.contents };

    ghost counts_now = { λ d t c le left. counts_now_of d.contents t c le left };

    ghost only_now = { λ d c left. only_now_of d.contents c left };

    ghost stays = { λ d. stays_of d.contents };

    fn past(&self) -> &Record {
        self.contents.past()
    }

    fn append(&mut self, bytes: &[u8]) -> Result<(), DiskFault> {
        self.contents.append(bytes);
        if self.file.write_all(bytes).is_err() {
            self.contents.fail();
            return Err(DiskFault);
        }
        Ok(())
    }

    fn sync(&mut self) -> Result<(), DiskFault> {
        if self.file.sync_data().is_err() {
            self.contents.fail();
            return Err(DiskFault);
        }
        self.contents.sync();
        Ok(())
    }

    fn set_aside(&mut self, torn: &[u8]) -> Result<(), DiskFault> {
        if self.put_aside(torn).is_err() {
            self.contents.fail();
            return Err(DiskFault);
        }
        self.contents.set_aside(torn);
        Ok(())
    }

    fn replace(&mut self, bytes: &[u8]) -> Result<(), DiskFault> {
        if self.put(bytes).is_err() {
            self.contents.fail();
            return Err(DiskFault);
        }
        self.contents.replace(bytes);
        Ok(())
    }
}
