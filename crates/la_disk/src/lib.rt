//! A journal in a folder of the operating system, as a [`Disk`](la_journal::Disk).
//!
//! A folder has the file `journal`, whole lines of text; `journal.new`, which a recovery or a compaction
//! writes and puts in its place; and `lock`, which one process holds at a time. They are made for their
//! owner alone, and what stands under their names and is no file is refused.
#![tactic(auto)]

mod fault;
mod file_disk;
mod folder_lock;
mod opening;

pub use fault::OpenFault;
pub use file_disk::FileDisk;
pub use folder_lock::FolderLock;
