//! The command `lattice call`, over any streams and any words: all of it but `main`.
//!
//! A call writes one request of a node's, under a name, and reads lines until one answers it. `specs/Words.antt` has
//! what answers, `specs/Calls.antt` what is written and read, `specs/Ends.antt` how it ends.
#![tactic(auto)]

mod asking;
mod calling;
mod ending;
mod error;
mod forming;
mod options;
mod reading;
mod waiting;
mod words;

pub use calling::call;
pub use ending::end_with;
pub use error::CallFault;
pub use options::CallOptions;
pub use reading::command;
pub use words::MAX_NAME;
