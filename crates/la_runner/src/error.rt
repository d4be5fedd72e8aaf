ghost use Rattle.std.specs.Prelude.{◌≡◌};
ghost use Rattle.la_runner.specs.Refusals.{of_offer, of_member_proposer};
ghost use Rattle.la_runner.specs.declared.error.RunnerError.TheVariants.{Memory};

use la_acceptor::AcceptorError;
use la_proposer::ProposerError;
use la_set::UpdateId;
use std::alloc::AllocError;
use thiserror::Error;

/// Why a call of a runner was refused.
#[derive(Clone, Copy, Debug, PartialEq, Eq, Error)]
pub enum RunnerError {
    /// A value of the group is out of its range, or there are votes for another number of replicas.
    #[error("not a group that can run")]
    BadConfig,

    /// The group has no adopt-commit object under this number.
    #[error("no such adopt-commit object")]
    NoSuchCommit,

    /// The member has finished at this adopt-commit object, or proposed another value there.
    #[error("already proposed")]
    AlreadyProposed,

    /// Two different updates have this id.
    #[error("two updates under the id {}.{}", .0.replica, .0.number)]
    Clash(UpdateId),

    /// The member has submitted its cap.
    #[error("the cap is reached")]
    Full,

    /// The new ballot would have a number over 8,000,000.
    #[error("no ballot is left")]
    BallotsSpent,

    /// The rounds are used up, and the last one left its ballot open.
    #[error("no majority answered")]
    NoMajority,

    /// The rounds are used up, and the last one ended its ballot, or there were no rounds. What was under
    /// way stays so.
    #[error("try again")]
    TryAgain,

    /// A growth was refused.
    #[error("out of memory")]
    Memory,
}

impl From<AcceptorError> for RunnerError {
    ghost from_gives = { λ a e. e ≡ of_offer a };

    fn from(refused: AcceptorError) -> RunnerError {
        match refused {
            AcceptorError::Clash(id) => RunnerError::Clash(id),
            AcceptorError::Memory => RunnerError::Memory,
        }
    }
}

impl From<ProposerError> for RunnerError {
    ghost from_gives = { λ a e. e ≡ of_member_proposer a };

    fn from(refused: ProposerError) -> RunnerError {
        match refused {
            ProposerError::Full => RunnerError::Full,
            ProposerError::Clash(id) => RunnerError::Clash(id),
            ProposerError::BallotsSpent => RunnerError::BallotsSpent,
            ProposerError::Memory => RunnerError::Memory,
            ProposerError::NoSuchReplica => RunnerError::BadConfig,
        }
    }
}

impl From<AllocError> for RunnerError {
    ghost from_gives = { λ _ e. e ≡ Memory };

    fn from(_refused: AllocError) -> RunnerError {
        RunnerError::Memory
    }
}
