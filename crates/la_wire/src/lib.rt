//! Letters of a group as lines of text, each written and read back.
//!
//! A line is a head, and behind it an update in each part, with `;` before it. Words are parted by single
//! spaces.
//!
//! | Line | Numbers |
//! |---|---|
//! | `offer G F T I B has C view C base C;U;U..` | G 1 to 8, F, T and I 8 bits, B 32 bits |
//! | `yes G F T I B has C view C` | |
//! | `no G F T I B has C view C base C;U;U..` | |
//! | `tell G F T I B has C view C base C;U;U..` | |
//! | `known G F T has C view C offer C tell C` | |
//!
//! G is how many replicas the group has, F who sends it, T to whom, I its instance and B the ballot's
//! number. A C is counts as one word: up to eight numbers of 32 bits with `,` between them, how many updates of
//! replicas 0, 1 and so on, without the zeros at the end; behind `has` what F has accepted, behind `view` what
//! its view has, behind `base` what the updates go over; behind `offer` and `tell` of `known` what the letter went
//! over that it answers, `0` where that was of the other kind. An update U is `P.N O` and what it does, O of 16
//! bits: `inc X`, `dec X`, `raise X`, `put X`, `remove T ..` and `mark`, as in a script; `own H`, an operation of one's own,
//! H two hexadecimal digits for each of its bytes, or `-` for none; and of an adopt-commit object `vote X`, or `sole X` where
//! its voter saw that value alone, X of 64 bits.
//!
//! A replica's state is a text of one line, here with breaks:
//!
//! ```text
//! state R view C votes V ..
//! |cap N has C ballot B C open mine C reported C C C C C C C C learnt B C F yes .. F C ..;U;U..
//! |..
//! ```
//!
//! R is its number, V are the votes of its group, and behind each `|` stands an instance, from 0 on: its cap, what is
//! accepted, the last ballot, `open` or `shut`, all that was submitted, what each of eight acceptors reported, and the
//! ballot that was learnt last, or `none`; then of each reply that has counted its acceptor F and `yes`, or what was
//! refused. The updates are those of all these sets, and in instance 0 of the view: each C counts from their front.
//!
//! Beside the calls of a script a client may write these lines. A name ` @N` may stand behind each, and then stands behind
//! what answers it.
//!
//! | Line | What is answered |
//! |---|---|
//! | `ask R O tags X` | `# rR answered O tags P.N ..`: the updates by which object O has element X |
//! | `ask R O updates` | `# rR answered O updates N N N N N N N N`: how many updates of it the view has, of each replica |
//! | `ask .. at P.N` | that of the question without `at P.N`, once update P.N is there; until then `# rR waiting P.N` |
//! | `update R P.N` | `# rR update P.N O ..`: update P.N of the view, as U; or `# rR waiting P.N` |
//! | `status R` | `# rR status version V has C view C submitted N waiting N ballot B open ..`, or `shut`, and more |
//! | `submit R O own H` | as a submission: an operation of one's own |
//! | `submit R O take X` | as a submission: X is taken out of object O by the updates that put it |
//! | `submit R.K O take X` | the same, under a number |
//!
//! Behind `open` or `shut` stands ` peer P has C view C unheard N` for each other replica of the group: how far it said
//! that it is, and how many updates were sent to it, offered and told, that it did not say to have. Over 65,536 of these
//! nothing more is told to it until it is heard. Then stands what the process counted: ` in offer N yes N no N tell N
//! known N out offer N yes N no N tell N known N refused N written N syncs N`.
//!
//! `specs/Messages.antt` has what letters say, `specs/Updates.antt` and `specs/MessageLines.antt` the lines,
//! `specs/Questions.antt` and `specs/Notes.antt` what a client asks and is answered, `specs/Told.antt` how it reads an update
//! back, `specs/Status.antt` how a node stands, and `specs/States.antt` the texts of states.
#![tactic(auto)]

mod calls;
mod counts;
mod error;
pub mod laws;
mod messages;
mod notes;
mod questions;
mod requests;
mod states;
mod status;
mod telling;
mod told;
mod updates;
mod words;
mod writing;
mod wrongs;

pub use calls::{Call, named, read, read_bounded};
pub use error::{LineError, LineFault};
pub use la_node::{Letter, Standing};
pub use notes::{
    put_answered, put_known_line, put_learnt, put_letter_line, put_outcome, put_proposed,
    put_submitted, put_tags_answer, put_update_answer, put_updates_answer, put_view, put_waiting,
};
pub use questions::{Awaited, Question, Take, awaited_in, question_in, take_in};
pub use requests::{MAX_NAME, NumberedCall, Request, numbered_in, request_in};
pub use states::{put_state, same_state, state_in};
pub use status::{Kinds, NodeStatus, Tally, put_status};
pub use telling::{TOLD_BYTES, refuse, tell_fault};
pub use told::update_in_note;
pub use writing::{put_letter, write};
pub use wrongs::{Wanted, Wrong, wrong_part};
