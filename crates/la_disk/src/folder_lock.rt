ghost use Rattle.std.specs.Prelude.{◌≢◌, IfErr};
ghost use Rattle.la_disk.specs.declared.fault.OpenFault.TheVariants.{Unread};

use crate::OpenFault;
use crate::opening::{open_or_make, path_of};
use std::alloc::Global;
use std::fs::{File, OpenOptions};
use std::io::{self, ErrorKind};

/// A folder, for this process alone until this is released or dropped. The lock is a file of its own,
/// since a recovery and a compaction give the journal a new one.
#[derive(Drop)]
pub struct FolderLock {
    file: File,
    folder: String,
}

impl FolderLock {
    /// Takes a folder that exists. `Locked` comes where another process has it, and `Unopened` where
    /// there is no such folder or its name is empty, or `lock` in it can't be opened or made, or is no file.
    pub fn take(rt: &HostRuntime, alloc: Global, folder: String) -> Result<FolderLock, OpenFault>
        ensures unread { IfErr result (λ e. e ≢ Unread) }
    {
        if folder.is_empty() {
            return Err(OpenFault::Unopened(ErrorKind::InvalidInput));
        }
        let path = path_of(alloc, folder.as_str(), "/lock")?;
        let file = open_or_make(rt, OpenOptions::new().write(true), path.as_str())?;
        match file.try_lock() {
            Ok(()) => Ok(FolderLock { file, folder }),
            Err(refusal) => Err(OpenFault::of_locking(refusal)),
        }
    }

    /// The folder's path.
    pub fn folder(&self) -> &str {
        self.folder.as_str()
    }

    /// Lets another process have it.
    pub fn release(self) -> io::Result<()> {
        self.file.unlock()
    }
}
