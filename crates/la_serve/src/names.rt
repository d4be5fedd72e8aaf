// What is told of refusals, by name.
ghost use Rattle.std.specs.Prelude.{◌≡◌, ◌≤◌, length};
ghost use Rattle.la_serve.specs.Names.{replica_name, proposal_name, refusal_name};
ghost use Rattle.la_serve.specs.Ending.{end_name, option_name, cause_name};

use crate::{NodeFault, NodeOption};
use la_durable::NodeError;
use la_node::WorldError;
use la_replica::ReplicaError;
use std::io::ErrorKind;

fn replica_name(refusal: ReplicaError) -> &'static str
    ensures text { result.now ≡ replica_name refusal }
    ensures short { length result.now ≤ 15 }
{
    match refusal {
        ReplicaError::NoSuchReplica => "NoSuchReplica",
        ReplicaError::NoSuchInstance => "NoSuchInstance",
        ReplicaError::Full => "Full",
        ReplicaError::NoBase => "NoBase",
        ReplicaError::Gap => "Gap",
        ReplicaError::Clash(_) => "Clash",
        ReplicaError::BallotsSpent => "BallotsSpent",
        ReplicaError::Memory => "Memory",
    }
}

fn proposal_name(refusal: WorldError) -> &'static str
    ensures text { result.now ≡ proposal_name refusal }
    ensures short { length result.now ≤ 15 }
{
    match refusal {
        WorldError::BadConfig => "BadConfig",
        WorldError::NoSuchReplica => "NoSuchReplica",
        WorldError::Full => "Full",
        WorldError::NoSuchMessage => "NoSuchMessage",
        WorldError::NoSuchCommit => "NoSuchCommit",
        WorldError::AlreadyProposed => "AlreadyProposed",
        WorldError::NoSuchObject => "NoSuchObject",
        WorldError::TooManyTags => "TooManyTags",
        WorldError::Memory => "Memory",
    }
}

/// A refusal of the node's.
pub fn refusal_name(refusal: NodeError) -> &'static str
    ensures text { result.now ≡ refusal_name refusal }
    ensures short { length result.now ≤ 15 }
{
    match refusal {
        NodeError::Elsewhere => "Elsewhere",
        NodeError::Unkept => "Unkept",
        NodeError::Replica(refusal) => replica_name(refusal),
        NodeError::Proposal(refusal) => proposal_name(refusal),
        NodeError::Memory => "Memory",
    }
}

/// Why a node ended.
pub fn end_name(fault: NodeFault) -> &'static str
    ensures text { result.now ≡ end_name fault }
    ensures short { length result.now ≤ 12 }
{
    match fault {
        NodeFault::ReadFault => "ReadFault",
        NodeFault::WriteFault => "WriteFault",
        NodeFault::Memory => "Memory",
        NodeFault::BadConfig => "BadConfig",
        NodeFault::NoJournal => "NoJournal",
        NodeFault::JournalThere => "JournalThere",
        NodeFault::Locked => "Locked",
        NodeFault::BadJournal(_) => "BadJournal",
        NodeFault::OtherOptions(_) => "OtherOptions",
        NodeFault::DiskFault | NodeFault::StartFault(_) => "DiskFault",
    }
}

/// An option of a node.
pub fn option_name(option: NodeOption) -> &'static str
    ensures text { result.now ≡ option_name option }
    ensures short { length result.now ≤ 8 }
{
    match option {
        NodeOption::Version => "version",
        NodeOption::Own => "own",
        NodeOption::Replicas => "replicas",
        NodeOption::Votes => "votes",
        NodeOption::Commits => "commits",
        NodeOption::Cap => "cap",
    }
}

/// Why a folder can't be opened.
pub fn cause_name(kind: ErrorKind) -> &'static str
    ensures text { result.now ≡ cause_name kind }
    ensures short { length result.now ≤ 22 }
{
    match kind {
        ErrorKind::NotFound => "not found",
        ErrorKind::PermissionDenied => "permission denied",
        ErrorKind::NotADirectory => "not a folder",
        ErrorKind::IsADirectory => "is a folder",
        ErrorKind::FilesystemLoop => "symbolic link",
        ErrorKind::ReadOnlyFilesystem => "read-only",
        ErrorKind::StorageFull | ErrorKind::QuotaExceeded => "no space",
        ErrorKind::InvalidInput | ErrorKind::InvalidFilename => "bad path",
        ErrorKind::Unsupported => "unsupported",
        ErrorKind::ResourceBusy => "another process has it",
        _ => "other error",
    }
}
