//! The observed-remove set, and a chain of boxed nodes.
//!
//! An [`OrSet`] is a [`la_object::Replicated`]: its contract is that of every object, and what it
//! takes and answers is defined in `la_object` (`specs/OrSet`). Contracts see of it the finite map
//! of what was put and the finite set of the ids that are gone; `specs/Puts` reads both from what it
//! keeps. Beside these it keeps the live tags by element, so that no question passes over all tags;
//! `specs/Index` says what they are.
#![tactic(auto)]

mod chain;
pub mod laws;
mod live;
mod live_table;
mod live_tree;
mod or_set;
mod packed_row;
mod puts;
mod rows;
mod tag_list;
mod tag_set;
mod vectors;

pub use chain::Chain;
pub use or_set::OrSet;
