ghost use Rattle.std.specs.Prelude.{◌≡◌};
ghost use Rattle.la_embed.specs.Refusals.{host_error_of_node, host_error_of_line};

use la_durable::NodeError;
use la_journal::Unplayed;
use la_node::WorldError;
use la_wire::{LineError, LineFault};
use std::alloc::AllocError;
use thiserror::Error;

/// Why a line from another replica was not taken. The node is then as before.
#[derive(Clone, Copy, Debug, PartialEq, Eq, Error)]
pub enum HostError {
    /// The line has this fault.
    #[error("{0}")]
    Line(LineFault),

    /// The line is no message, but something that a client asks of a node.
    #[error("not a message")]
    NoMessage,

    /// The node refused the message, as one for another replica or group, or one that fits no honest peer.
    #[error("{0}")]
    Node(NodeError),

    /// A growth was refused.
    #[error("out of memory")]
    Memory,
}

impl From<NodeError> for HostError {
    ghost from_gives = { λ refused e. e ≡ host_error_of_node refused };

    fn from(refused: NodeError) -> HostError {
        match refused {
            NodeError::Memory => HostError::Memory,
            other => HostError::Node(other),
        }
    }
}

impl From<LineError> for HostError {
    ghost from_gives = { λ refused e. e ≡ host_error_of_line refused };

    fn from(refused: LineError) -> HostError {
        match refused {
            LineError::Fault(fault) => HostError::Line(fault),
            LineError::Memory => HostError::Memory,
        }
    }
}

/// Why no host was made of a journal. The bytes are as they were.
#[derive(Debug, Drop)]
pub enum Unrecovered {
    /// The group or the replica is none.
    Group(WorldError),

    /// The journal is not played.
    Journal(Unplayed<NodeError>),

    /// A growth was refused.
    Memory,
}

impl From<WorldError> for Unrecovered {
    ghost use Rattle.la_embed.specs.declared.error.Unrecovered.TheVariants.{Group};

    ghost from_gives = { λ refused e. e ≡ Group refused };

    fn from(refused: WorldError) -> Unrecovered {
        Unrecovered::Group(refused)
    }
}

impl From<AllocError> for Unrecovered {
    ghost use Rattle.la_embed.specs.declared.error.Unrecovered.TheVariants.{Memory};

    ghost from_gives = { λ _ e. e ≡ Memory };

    fn from(_refused: AllocError) -> Unrecovered {
        Unrecovered::Memory
    }
}

/// Why a submission under a number was not done. The host is then as before.
#[derive(Clone, Copy, Debug, Error)]
pub enum NumberError {
    /// Another submission has this number.
    #[error("another submission has this number")]
    Stale,

    /// This number is not the next, and no submission has it.
    #[error("this number is not the next")]
    Gap,

    /// The node refused it.
    #[error("{0}")]
    Node(NodeError),
}

impl From<NodeError> for NumberError {
    ghost use Rattle.la_embed.specs.declared.error.NumberError.TheVariants.{Node};

    ghost from_gives = { λ refused e. e ≡ Node refused };

    fn from(refused: NodeError) -> NumberError {
        NumberError::Node(refused)
    }
}
