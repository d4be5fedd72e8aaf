//! A replicated list to take, an [`Absorbs`](la_shelf::Absorbs) of an open shelf, with its
//! operations as bytes of one's own.
//!
//! `specs/` has its meaning: what a question is answered, said of the list of updates.
#![tactic(auto)]

mod bytes;
mod chain;
mod ids;
mod inserts;
pub mod laws;
mod list;
mod op;

pub use ids::Ids;
pub use inserts::{Insertion, Inserts, Moment};
pub use list::{Element, ElementList, ListState};
pub use op::{ELEMENT_BYTES, ListOp, delete_op, insert_op};
