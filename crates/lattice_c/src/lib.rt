//! A node for C, and for what calls C: one exported function a call, over a handle that owns the node.
//!
//! Each call answers a status, 0 or why it was refused, and after a refusal the node is as before.
//! `bindings/c/lattice.h` declares them.
#![tactic(auto)]

mod asking;
mod handle;
mod journal;
mod learning;
mod lending;
mod mail;
mod parts;
mod recording;
mod starting;
mod status;
mod submitting;

pub use asking::{
    lattice_at_least, lattice_has, lattice_items, lattice_largest, lattice_size, lattice_total,
};
pub use handle::{Handle, Place};
pub use journal::lattice_first_journal;
pub use learning::{Learnt, lattice_known, lattice_next_learnt, lattice_submitted, lattice_view};
pub use mail::{lattice_again, lattice_next_mail, lattice_receive};
pub use recording::{lattice_next_record, lattice_synced};
pub use starting::{
    lattice_add, lattice_node_free, lattice_node_new, lattice_node_recover, lattice_version,
};
pub use submitting::{
    lattice_dec, lattice_inc, lattice_mark, lattice_outcome, lattice_own, lattice_propose,
    lattice_put, lattice_raise, lattice_remove, lattice_submit_at,
};
