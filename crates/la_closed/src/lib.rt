//! Objects of the closed kinds on a shelf of objects of one's own.
//!
//! A counter, a max register or an observed-remove set is made for a closed shelf, that of
//! [`la_object`]. As a [`Closed`] it stands on an open one, that of [`la_shelf`], beside objects of
//! types of one's own. `specs/` says when it refuses an update.
#![tactic(auto)]

mod closed;

pub use closed::Closed;
