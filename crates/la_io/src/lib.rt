//! Bytes and lines of streams: each line is taken whole from a reader, and put on a writer whole.
//!
//! `specs/Streams.antt` has what is read and written, `specs/Sources.antt` what is read line by line.
#![tactic(auto)]

mod listener;
mod paced;
mod source;
mod streams;
mod taking;
mod writing;

pub use listener::{Listener, tell_all};
pub use paced::Paced;
pub use source::{MAX_LINE, MAX_SET_LINE, Next, Source, SourceFault, limit_of};
pub use streams::{
    InputFault, LIMIT, WriteFailed, flush, put_bytes, read_all, write_all, write_some,
};
pub use writing::write_lines;
