//! What the program `lattice` does, over any streams and any words: all of it but `main`.
//!
//! `lattice play` reads a script on standard input, plays its events on a group of replicas, and
//! prints the report on standard output; `lattice random` does the same of events that are drawn
//! from a seed. `lattice threads` runs replicas in threads of their own, and prints what each came to
//! and whether they agree. Each replica has a shelf with a counter under 1, a max register under 2 and an
//! observed-remove set under 3.
//!
//! A fault is told on standard error in one line, that of a script with the faulty line's number.
//! Then nothing was printed, but where writing failed in its midst. A mistake in the command line is
//! told there too. The exit status is 0 where the report, the help or the version was printed, or that
//! the replicas agree; 1 where the input is no script or too long, 2 where the command line is
//! mistaken, 3 for want of memory, and 4 where reading or writing failed, a thread could not be
//! started, or a replica stopped or differs.
//!
//! [`run_boxed`] is the whole program, and [`end_without_words`] its end where the words of the
//! command line can't be had; `run_words` and `carry_out` are the program with shelves of other
//! objects, and `play_stream`, `play_random`
//! and `play_threads` its tasks.
#![tactic(auto)]

// What is marked `inline(always)` is called for each event, and hands on wide values.

mod call;
mod error;
mod held;
pub mod laws;
mod objects;
mod pieces;
mod play;
mod program;
mod shelves;
mod telling;
mod threads;

pub use call::{ABOUT_NODE, Task, VERSION, command, with_number};
pub use error::PlayFault;
pub use objects::run_boxed;
pub use pieces::write_pieces;
pub use play::{answer_to, fit_any_group, play_random, play_stream};
pub use program::{Ended, carry_out, end_without_call, end_without_words, run_words, status_of};
pub use shelves::{Numbered, fill};
pub use telling::{tell, tell_no_text};
pub use threads::{agree, play_threads, text_of_logs};
