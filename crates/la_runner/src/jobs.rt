ghost use Rattle.std.specs.Prelude.{◌≡◌};
ghost use Rattle.la_runner.specs.Stops.{IsJobError, stop_by};

use crate::{Learned, RunnerError};
use la_commit::Outcome;
use la_object::{Answer, Query};
use la_set::{Op, Sequence, UpdateId, UpdateSet};
use thiserror::Error;

/// What a member of a run is to do.
#[derive(Drop)]
pub enum Job {
    /// Submits an update for an object, and learns a set that holds it.
    Update { object: u16, op: Op },

    /// Proposes a value at an adopt-commit object, and comes to an outcome there.
    Decide { commit: u8, value: u64 },

    /// Lets the shelf absorb the view, and asks the object under a number.
    Ask { object: u16, query: Query },
}

/// A member's jobs, in the order in which they are done.
pub type Jobs = Sequence<Job>;

/// How a job was answered: an update by the set that was learnt, a decision by the sets that were
/// learnt in the object's two instances and the outcome, a question by the view and what the object
/// answers by it.
#[derive(Drop)]
pub enum Entry {
    /// The answer to [`Job::Update`]: the set that was learnt.
    Learned(Learned),

    /// The answer to [`Job::Decide`]: the sets that were learnt in the object's two instances, and
    /// the outcome.
    Decided {
        first: UpdateSet,
        second: UpdateSet,
        outcome: Outcome,
    },

    /// The answer to [`Job::Ask`]: the view, and what the object answers by it.
    Answer {
        view: UpdateSet,
        answer: Answer,
    },
}

/// How a member's first jobs were answered, in order.
pub type Entries = Sequence<Entry>;

/// Why a member's jobs ended before the last one, or why its shelf has not its view.
#[derive(Clone, Copy, Debug, PartialEq, Eq, Error)]
pub enum Stopped {
    /// The member has submitted its cap.
    #[error("the cap is reached")]
    Full,

    /// The shelf has no object under this number.
    #[error("no object has this number")]
    NoSuchObject,

    /// The group has no adopt-commit object under this number.
    #[error("no such adopt-commit object")]
    NoSuchCommit,

    /// The member has finished at this adopt-commit object, or proposed another value there.
    #[error("already proposed")]
    AlreadyProposed,

    /// Two different updates have this id.
    #[error("two updates under the id {}.{}", .0.replica, .0.number)]
    Clash(UpdateId),

    /// The new ballot would have a number over 8,000,000.
    #[error("no ballot is left")]
    BallotsSpent,

    /// The rounds are used up, and the last one left its ballot open.
    #[error("no majority answered")]
    NoMajority,

    /// The rounds are used up, and the last one ended its ballot, or there were no rounds. What was under
    /// way stays so.
    #[error("try again")]
    TryAgain,

    /// A growth was refused.
    #[error("out of memory")]
    Memory,
}

// As a job's refusal.
pub(crate) fn stop_of(error: RunnerError) -> Stopped
    requires { IsJobError error }
    ensures { result ≡ stop_by error }
{
    match error {
        RunnerError::BadConfig => unreachable!(),
        RunnerError::NoSuchCommit => Stopped::NoSuchCommit,
        RunnerError::AlreadyProposed => Stopped::AlreadyProposed,
        RunnerError::Clash(id) => Stopped::Clash(id),
        RunnerError::Full => Stopped::Full,
        RunnerError::BallotsSpent => Stopped::BallotsSpent,
        RunnerError::NoMajority => Stopped::NoMajority,
        RunnerError::TryAgain => Stopped::TryAgain,
        RunnerError::Memory => Stopped::Memory,
    }
}
