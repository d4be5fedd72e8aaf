//! A node of a group as a machine whose journal has each call that it accepts as the very line that came:
//! over a crash it keeps its state.
//!
//! [`NodeMachine`] is the machine, [`Input`] a line that says a call. `specs/Accepting.antt` says which calls
//! are accepted, `specs/Given.antt` what is given out for one, `specs/Nodes.antt` what a line comes to.
#![tactic(auto)]

mod error;
mod first;
mod head;
mod input;
pub mod laws;
mod machine;
mod state;

pub use error::NodeError;
pub use first::first_journal;
pub use input::Input;
pub use machine::{NodeAnswer, NodeMachine};
