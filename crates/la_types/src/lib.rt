//! Replicated types to take, each an [`Absorbs`](la_shelf::Absorbs) of an open shelf, with its
//! operations as bytes of one's own.
//!
//! `specs/` has each type's meaning: what a question is answered, said of the list of updates.
#![tactic(auto)]

mod by_key;
mod bytes;
mod counter_map;
mod data;
mod elements;
mod flag;
mod grow_set;
mod keyed;
mod keyed_objects;
pub mod laws;
mod multi;
mod register;
mod two_phase_set;
mod write;
mod write_map;

pub use by_key::ByKey;
pub use counter_map::{COUNTER_KEY_BYTES, CounterMap, CounterOp, CounterState, add_op, reset_op};
pub use data::Bytes;
pub use elements::{
    ELEMENT_BYTES, Elements, SetAnswer, SetQuery, insert_element_op, remove_element_op,
};
pub use flag::{Flag, FlagOp, FlagState};
pub use grow_set::GrowSet;
pub use keyed::KeyedWrites;
pub use keyed_objects::{Begins, Keyed, UnderError, op_under};
pub use multi::{Entry, LastWrites, MULTI_BYTES, MultiRegister, MultiState, multi_op};
pub use register::Register;
pub use two_phase_set::{TwoPhaseSet, TwoPhaseState};
pub use write::{REGISTER_BYTES, Write, write_op};
pub use write_map::{KEYED_BYTES, WriteMap, keyed_op};
