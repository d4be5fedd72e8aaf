//! Objects that absorb what is learnt: counters, max registers, and shelves of objects under
//! numbers.
//!
//! An object ([`Replicated`]) changes by updates alone, each once, in whatever order they come.
//! What it answers then is what the queries' definitions say of its updates. A [`Shelf`] keeps
//! objects of any kind under numbers, and lets them absorb sets of updates that grow.
//!
//! `specs/` has the definitions: a file a kind (`Counter`, `MaxRegister`, `OrSet`), `Objects` for
//! all kinds, `Shelves`, and `Refusals`; [`laws`] has what they mean, in part by `Laws`. The
//! observed-remove set is defined here like the other kinds, and its type stands in a crate of its
//! own.
#![tactic(auto)]

mod adds;
mod boxed;
mod counter;
mod error;
mod ids;
mod kind;
pub mod laws;
mod max_register;
mod query;
mod replicated;
mod shelf;
mod state;
mod unused;

pub use adds::Adds;
pub use counter::{Counter, MAX_SUM};
pub use error::{AbsorbError, ObserveError, ShelfError};
pub use ids::Ids;
pub use kind::Kind;
pub use max_register::MaxRegister;
pub use query::{Answer, Items, Query};
pub use replicated::Replicated;
pub use shelf::Shelf;
pub use state::State;
pub use unused::are_unused;
