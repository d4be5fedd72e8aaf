//! A node of a group as a library: for programs that hold it in their own process and send its mail by
//! whatever means they have.
//!
//! A [`Host`] is a node with a shelf of objects. Each call is one step of the node; what the step sends
//! waits in the host until it is pulled, a letter at a time, as the bytes of a line. What is learnt is
//! handed out update by update, each once. A host that [`Host::recover`] made has a journal, whose records
//! its program writes; it tells nothing that is not on the disk. `specs/Hosts.antt` says what a host is and does, and
//! [`laws`] that hosts stay together.
#![tactic(auto)]

mod embedded;
mod error;
mod host;
mod journal;
mod journaling;
mod keeper;
mod keeping;
pub mod laws;
mod learnt;
mod object;
mod outgoing;
mod program_file;

pub use embedded::Embedded;
pub use error::{HostError, NumberError, Unrecovered};
pub use host::Host;
pub use object::AnyObject;
pub use outgoing::Outgoing;
