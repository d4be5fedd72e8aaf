//! One replica of a group with all that it does: its steps with its part in adopt-commit objects, and a
//! shelf of objects that answer by its view.
//!
//! A [`Node`] is pure: it is handed submissions, proposals, messages and questions, and answers what is
//! to be sent, over any transport. `specs/` says what a replica makes of a message, and what a node is.
#![tactic(auto)]

// What is marked `inline(always)` hands on wide values, which would else be copied at each call.

mod config;
mod done;
mod error;
pub mod laws;
mod link;
mod node;
mod participant;
mod resumed;
mod track;

pub use config::Config;
pub use done::{Done, Voted};
pub use error::WorldError;
pub use link::{Letter, Link, Links, MOST_UNHEARD, Sending, Standing};
pub use node::{Node, Received};
pub use participant::outcome_by;
