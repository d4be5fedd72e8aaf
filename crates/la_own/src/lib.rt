//! Operations of one's own: up to 248 bytes, which sets, messages and journals carry as a `Remove`
//! whose tags name no update.
#![tactic(auto)]

mod error;
pub mod laws;
mod own;

pub use error::OwnError;
pub use own::{OWN_BYTES, OwnBytes, own_bytes, own_op};
