//! The command `lattice node`, over any streams, any journal and any words: all of it but `main`.
//!
//! A node reads lines as they come, and for each call that it accepts it writes lines: but only once the
//! call's line is on the disk. What it sends are lines of `la_wire`; all others that it writes begin with
//! `#`, so that nodes that read them pass them over.
#![tactic(auto)]

mod answering;
mod arrivals;
mod asking;
mod compacting;
mod counting;
mod ended;
mod error;
mod first;
mod keeping;
mod label;
pub mod laws;
mod making;
mod names;
mod numbered;
mod objects;
mod options;
mod output;
mod questions;
mod said;
mod saying;
mod server;
mod serving;
mod shelf;
mod starting;
mod taking;
mod texts;
mod unfit;

pub use arrivals::Arrivals;
pub use ended::Ended;
pub use error::{NodeFault, NodeOption};
pub use first::{Making, first_journal};
pub use label::Labelled;
pub use making::init;
pub use objects::Objects;
pub use options::{Options, command};
pub use output::Output;
pub use server::Server;
pub use serving::serve;
pub use starting::{end_at, end_with, end_without_journal, run};
pub use unfit::{Unfit, UnfitObjects, end_unfit};
