//! A machine that keeps its state over a crash: the line of each call is on the disk before the call
//! is answered.
//!
//! A [`Machine`] changes by calls alone, each of which is a line of text. [`Durable`] puts the line of
//! each call behind a [`Disk`]'s file, and [`recover`] plays these lines, from the first one on. One line
//! of a [`Snapshot`]'s state takes the place of all before it.
//!
//! `specs/` has the definitions: `Lines` and `Journal` (what a file says), `Machine` (where it leads),
//! `Disk` (what a crash may leave), `Durable` (when a machine stands on its journal, and why a call
//! is refused), `Note` and `Outcomes` (what is noted of a file's [`Contents`], and what a crash might have
//! left of it), `Starts`, `Served` (what a crash keeps of calls that were answered), `Lives` (processes one
//! after another), `Commits` (journals whose groups end in records), `Records` (these records, the head that a
//! file begins with, and what behind the groups is damage), `Staging` (what is staged of a call); [`laws`] has what
//! holds over a crash and a new start, [`record_laws`] what holds of groups with their records.
#![tactic(auto)]

mod compaction;
mod contents;
mod damage;
mod disk;
mod durable;
mod given_out;
mod grouped;
mod happened;
mod holding;
pub mod laws;
mod machine;
mod memory_disk;
mod record;
pub mod record_laws;
mod records;
mod recovery;
mod staging;

pub use compaction::Uncompacted;
pub use contents::Contents;
pub use damage::{has_record, is_damage};
pub use disk::{Disk, DiskFault};
pub use durable::{Durable, Refused};
pub use given_out::GivenOut;
pub use grouped::{Group, Head, head_of, next_group};
pub use machine::{Machine, Snapshot};
pub use memory_disk::MemoryDisk;
pub use record::Record;
pub use records::{head_line, record_line, text_of_head};
pub use recovery::{Unplayed, new_journal, recover};
pub use staging::{Staged, Uncommitted, Unstaged};
