ghost use Rattle.std.specs.Prelude.{◌≡◌};
ghost use Rattle.la_replica.specs.declared.error.ReplicaError.TheVariants.{Memory as ReplicaMemory};
ghost use Rattle.la_node.specs.declared.error.WorldError.TheVariants.{Memory as WorldMemory};
ghost use Rattle.la_durable.specs.Errors.{by_replica, by_proposal};

use la_node::WorldError;
use la_replica::ReplicaError;
use std::alloc::AllocError;
use thiserror::Error;

/// Why a node did not take a call. It is then as before.
#[derive(Clone, Copy, Debug, PartialEq, Eq, Error)]
pub enum NodeError {
    /// The call is another replica's, or the message is of a group of another size.
    #[error("for another node")]
    Elsewhere,

    /// The call is a question, the timer's, or tells how far another is: these change nothing, and are not kept.
    #[error("not a call that is kept")]
    Unkept,

    /// A submission or a message was refused, but not for want of memory.
    #[error("{0}")]
    Replica(ReplicaError),

    /// A proposal was refused, but not for want of memory.
    #[error("{0}")]
    Proposal(WorldError),

    /// A growth was refused.
    #[error("out of memory")]
    Memory,
}

impl From<ReplicaError> for NodeError {
    ghost from_gives = { λ refused e. e ≡ by_replica refused };

    fn from(refused: ReplicaError) -> NodeError {
        match refused {
            ReplicaError::Memory => NodeError::Memory,
            other => NodeError::Replica(other),
        }
    }
}

impl From<WorldError> for NodeError {
    ghost from_gives = { λ refused e. e ≡ by_proposal refused };

    fn from(refused: WorldError) -> NodeError {
        match refused {
            WorldError::Memory => NodeError::Memory,
            other => NodeError::Proposal(other),
        }
    }
}

impl From<AllocError> for NodeError {
    ghost use Rattle.la_durable.specs.declared.error.NodeError.TheVariants.{Memory};

    ghost from_gives = { λ _ e. e ≡ Memory };

    fn from(_refused: AllocError) -> NodeError {
        NodeError::Memory
    }
}
