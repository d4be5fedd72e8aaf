//! A reader that hands on the bytes of another one, and a line `tick` between two lines where a while has passed.
//!
//! [`Ticked`] is it. `specs/Ticks.antt` has what is handed on and when a tick may come, `specs/Paces.antt` how long the
//! while is.
#![tactic(auto)]

mod chunk;
mod feed;
mod handing;
mod listening;
mod pace;
mod reading;
mod ticked;

pub use ticked::{TickFault, Ticked};
