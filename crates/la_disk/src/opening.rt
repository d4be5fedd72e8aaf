// How the files of a folder are opened: no link is followed, and nothing but a file is opened.
ghost use Rattle.std.specs.Prelude.{◌≢◌, IfErr};
ghost use Rattle.la_disk.specs.Opening.{IsObstacle};
ghost use Rattle.la_disk.specs.declared.fault.OpenFault.TheVariants.{Locked, Unread};

use crate::OpenFault;
use std::alloc::{AllocError, Global};
use std::fs::{self, FileType, OpenFile, OpenOptions};
use std::io::{self, ErrorKind};
use std::os::unix::fs::{MetadataExt, OpenOptionsExt, lchown};
use std::rt::Files;

// Its owner reads and writes it, and nobody else.
const PRIVATE: u32 = 0o600;

// The path of a file in a folder.
pub(crate) fn path_of(alloc: Global, folder: &str, name: &str) -> Result<String, AllocError> {
    let mut path = String::new(alloc);
    path.push_str(folder)?;
    path.push_str(name)?;
    Ok(path)
}

// Why what stands under a name is not opened.
fn obstacle(found: FileType) -> Option<ErrorKind>
    ensures { IsObstacle found result }
{
    if found.is_file() {
        None
    } else if found.is_dir() {
        Some(ErrorKind::IsADirectory)
    } else if found.is_symlink() {
        Some(ErrorKind::FilesystemLoop)
    } else {
        Some(ErrorKind::Unsupported)
    }
}

// Refuses a name under which something other than a file stands. There may be nothing.
pub(crate) fn refuse_other<R: Files>(rt: &R, path: &str) -> Result<(), OpenFault>
    ensures free { IfErr result (λ e. e ≢ Locked) }
    ensures unread { IfErr result (λ e. e ≢ Unread) }
{
    match fs::symlink_metadata(rt, path) {
        Ok(found) => match obstacle(found.file_type()) {
            None => Ok(()),
            Some(kind) => Err(OpenFault::Unopened(kind)),
        },
        Err(error) if error.kind() == ErrorKind::NotFound => Ok(()),
        Err(error) => Err(OpenFault::of_opening(error.kind())),
    }
}

// Refuses a name under which a file stands, or anything else.
pub(crate) fn refuse_journal<R: Files>(rt: &R, path: &str) -> Result<(), OpenFault>
    ensures free { IfErr result (λ e. e ≢ Locked) }
    ensures unread { IfErr result (λ e. e ≢ Unread) }
{
    match fs::symlink_metadata(rt, path) {
        Ok(found) => match obstacle(found.file_type()) {
            None => Err(OpenFault::There),
            Some(kind) => Err(OpenFault::Unopened(kind)),
        },
        Err(error) if error.kind() == ErrorKind::NotFound => Ok(()),
        Err(error) => Err(OpenFault::of_opening(error.kind())),
    }
}

// Opens a file that is there.
pub(crate) fn open_file<R: Files>(
    rt: &R,
    options: &OpenOptions,
    path: &str,
) -> Result<R::File, OpenFault>
    ensures free { IfErr result (λ e. e ≢ Locked) }
    ensures unread { IfErr result (λ e. e ≢ Unread) }
{
    refuse_other(rt, path)?;
    match options.open(rt, path) {
        Ok(file) => Ok(file),
        Err(error) if error.kind() == ErrorKind::NotFound => Err(OpenFault::Missing),
        Err(error) => Err(OpenFault::of_opening(error.kind())),
    }
}

// Makes a file where none is.
pub(crate) fn make<R: Files>(rt: &R, options: &mut OpenOptions, path: &str) -> io::Result<R::File> {
    options.create_new(true).mode(PRIVATE).open(rt, path)
}

// Opens a file, or makes it where there is nothing.
pub(crate) fn open_or_make<R: Files>(
    rt: &R,
    options: &mut OpenOptions,
    path: &str,
) -> Result<R::File, OpenFault>
    ensures free { IfErr result (λ e. e ≢ Locked) }
    ensures unread { IfErr result (λ e. e ≢ Unread) }
{
    match make(rt, options, path) {
        Ok(file) => return Ok(file),
        Err(error) if error.kind() == ErrorKind::AlreadyExists => {}
        Err(error) => return Err(OpenFault::of_opening(error.kind())),
    }
    refuse_other(rt, path)?;
    match options.create_new(false).open(rt, path) {
        Ok(file) => Ok(file),
        Err(error) => Err(OpenFault::of_opening(error.kind())),
    }
}

// Removes the file that a process left which ended while it wrote there.
pub(crate) fn remove_leftover<R: Files>(rt: &R, path: &str) -> io::Result<()> {
    match fs::remove_file(rt, path) {
        Err(error) if error.kind() != ErrorKind::NotFound => Err(error),
        _ => Ok(()),
    }
}

// Gives a new file the mode of another, and its group and owner where this process may.
pub(crate) fn keep_access<R: Files>(
    rt: &R,
    file: &R::File,
    new: &R::File,
    path: &str,
) -> io::Result<()> {
    let kept = file.metadata()?;
    // A process that is not root's may still give it a group of its own.
    unless_denied(lchown(rt, path, None, Some(kept.gid())))?;
    unless_denied(lchown(rt, path, Some(kept.uid()), None))?;
    new.set_permissions(kept.permissions())
}

fn unless_denied(changed: io::Result<()>) -> io::Result<()> {
    match changed {
        Err(error) if error.kind() != ErrorKind::PermissionDenied => Err(error),
        _ => Ok(()),
    }
}
