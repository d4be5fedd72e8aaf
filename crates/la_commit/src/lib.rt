//! One participant of an adopt-commit object: the votes that it casts in two lattice agreements,
//! and the outcome that it comes to.
//!
//! Adopt-commit is Gafni's, "Round-by-round fault detectors", PODC 1998; it is built here from two
//! agreements in which any two learnt sets are comparable. A participant is [`Fresh`], [`First`],
//! [`Second`] and [`Done`], one after another; no call takes memory. `specs/` has the definitions
//! that the contracts cite, and [`laws`] say what they mean.
#![tactic(auto)]

mod error;
mod instance;
pub mod laws;
mod learnt;
mod outcome;
mod participant;
mod vote;

pub use error::NotMine;
pub use instance::{
    MAX_COMMITS, commit_of, first_instance, is_first_instance, is_second_instance, second_instance,
};
pub use learnt::own_vote;
pub use outcome::Outcome;
pub use participant::{Done, First, Fresh, Second, outcome_in, outcome_of, second_vote};
pub use vote::Vote;
