// What is noted of a file that is the program's.
ghost use Rattle.std.specs.Prelude.{◌≡◌};
ghost use Rattle.la_journal.specs.Held.{held_bytes, aside_of, moment_of, may_leave_of, left_since_of};
ghost use Rattle.la_journal.specs.Held.{only_now_of, counts_now_of, stays_of};

use la_journal::{Contents, Disk, DiskFault, Record};

/// What is noted of the program's file, as it is once all is written that was handed out. It takes no memory, writes
/// nothing, and never fails.
#[derive(Drop)]
pub struct ProgramFile {
    pub contents: Contents,
}

impl Disk for ProgramFile {
    ghost seen = { λ f. held_bytes f.contents };

    ghost may_leave = { λ f c. may_leave_of f.contents c };

    ghost moment = { λ f. moment_of f.contents };

    ghost left_since = { λ f t c. left_since_of f.contents t c };

    ghost faults = { λ _. 0 };

    ghost aside = { λ f. aside_of f.contents };

    ghost counts_now = { λ f t c le left. counts_now_of f.contents t c le left };

    ghost only_now = { λ f c left. only_now_of f.contents c left };

    ghost stays = { λ f. stays_of f.contents };

    fn past(&self) -> &Record {
        self.contents.past()
    }

    fn append(&mut self, bytes: &[u8]) -> Result<(), DiskFault> {
        self.contents.append(bytes);
        Ok(())
    }

    fn sync(&mut self) -> Result<(), DiskFault> {
        self.contents.sync();
        Ok(())
    }

    fn set_aside(&mut self, torn: &[u8]) -> Result<(), DiskFault> {
        self.contents.set_aside(torn);
        Ok(())
    }

    fn replace(&mut self, bytes: &[u8]) -> Result<(), DiskFault> {
        self.contents.replace(bytes);
        Ok(())
    }
}
