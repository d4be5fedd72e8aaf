// Statuses: one number for each way in which a call ends. `bindings/calls` has their names for other languages.
ghost use Rattle.std.specs.Prelude.{◌≡◌};
ghost use Rattle.lattice_c.specs.Statuses.{status_of_line, status_of_replica, status_of_world, status_of_node};
ghost use Rattle.lattice_c.specs.Statuses.{status_of_host, status_of_number, status_of_shelf, status_of_own};
ghost use Rattle.lattice_c.specs.Statuses.{status_of_line_refused, status_of_unplayed, status_of_unrecovered};
ghost use Rattle.lattice_c.specs.Statuses.{line_of_unrecovered};

use la_durable::NodeError;
use la_embed::{HostError, NumberError, Unrecovered};
use la_journal::Unplayed;
use la_node::WorldError;
use la_object::ShelfError;
use la_own::OwnError;
use la_replica::ReplicaError;
use la_wire::LineFault;

pub const OK: u8 = 0;

pub const MEMORY: u8 = 1;

pub const NONE: u8 = 2;

pub const SMALL: u8 = 3;

pub const FOREIGN: u8 = 4;

pub const NO_OBJECT: u8 = 5;

pub const TAKEN: u8 = 6;

pub const NOT_FRESH: u8 = 7;

pub const TOO_MANY_TAGS: u8 = 8;

pub const TOO_LARGE: u8 = 9;

pub const BAD_GROUP: u8 = 10;

pub const NO_REPLICA: u8 = 11;

pub const NO_INSTANCE: u8 = 12;

pub const FULL: u8 = 13;

pub const NO_BASE: u8 = 14;

pub const GAP: u8 = 15;

pub const CLASH: u8 = 16;

pub const BALLOTS_SPENT: u8 = 17;

pub const NO_COMMIT: u8 = 18;

pub const ALREADY_PROPOSED: u8 = 19;

pub const ELSEWHERE: u8 = 20;

pub const NO_MESSAGE: u8 = 21;

pub const TOO_LONG: u8 = 22;

pub const BAD_LINE: u8 = 23;

pub const BAD_NUMBER: u8 = 24;

pub const BAD_KIND: u8 = 25;

pub const STALE: u8 = 26;

pub const AHEAD: u8 = 27;

pub const UNKEPT: u8 = 28;

pub const NO_JOURNAL: u8 = 29;

pub const OTHER_JOURNAL: u8 = 30;

pub const DAMAGED: u8 = 31;

pub fn status_of_line(fault: LineFault) -> u8
    ensures { result ≡ status_of_line fault }
{
    match fault {
        LineFault::TooLong => TOO_LONG,
        LineFault::BadLine => BAD_LINE,
        LineFault::BadNumber => BAD_NUMBER,
    }
}

pub fn status_of_replica(refused: ReplicaError) -> u8
    ensures { result ≡ status_of_replica refused }
{
    match refused {
        ReplicaError::NoSuchReplica => NO_REPLICA,
        ReplicaError::NoSuchInstance => NO_INSTANCE,
        ReplicaError::Full => FULL,
        ReplicaError::NoBase => NO_BASE,
        ReplicaError::Gap => GAP,
        ReplicaError::Clash(_) => CLASH,
        ReplicaError::BallotsSpent => BALLOTS_SPENT,
        ReplicaError::Memory => MEMORY,
    }
}

pub fn status_of_world(refused: WorldError) -> u8
    ensures { result ≡ status_of_world refused }
{
    match refused {
        WorldError::BadConfig => BAD_GROUP,
        WorldError::NoSuchReplica => NO_REPLICA,
        WorldError::Full => FULL,
        WorldError::NoSuchMessage => NO_MESSAGE,
        WorldError::NoSuchCommit => NO_COMMIT,
        WorldError::AlreadyProposed => ALREADY_PROPOSED,
        WorldError::NoSuchObject => NO_OBJECT,
        WorldError::TooManyTags => TOO_MANY_TAGS,
        WorldError::Memory => MEMORY,
    }
}

pub fn status_of_node(refused: NodeError) -> u8
    ensures { result ≡ status_of_node refused }
{
    match refused {
        NodeError::Elsewhere => ELSEWHERE,
        NodeError::Unkept => NO_MESSAGE,
        NodeError::Replica(refused) => status_of_replica(refused),
        NodeError::Proposal(refused) => status_of_world(refused),
        NodeError::Memory => MEMORY,
    }
}

pub fn status_of_host(refused: HostError) -> u8
    ensures { result ≡ status_of_host refused }
{
    match refused {
        HostError::Line(fault) => status_of_line(fault),
        HostError::NoMessage => NO_MESSAGE,
        HostError::Node(refused) => status_of_node(refused),
        HostError::Memory => MEMORY,
    }
}

pub fn status_of_number(refused: NumberError) -> u8
    ensures { result ≡ status_of_number refused }
{
    match refused {
        NumberError::Stale => STALE,
        NumberError::Gap => AHEAD,
        NumberError::Node(refused) => status_of_node(refused),
    }
}

pub fn status_of_shelf(refused: ShelfError) -> u8
    ensures { result ≡ status_of_shelf refused }
{
    match refused {
        ShelfError::Taken => TAKEN,
        ShelfError::NotFresh => NOT_FRESH,
        ShelfError::NoSuchObject => NO_OBJECT,
        ShelfError::TooManyTags => TOO_MANY_TAGS,
        ShelfError::Memory => MEMORY,
    }
}

pub fn status_of_own(refused: OwnError) -> u8
    ensures { result ≡ status_of_own refused }
{
    match refused {
        OwnError::TooLong => TOO_LARGE,
        OwnError::Memory => MEMORY,
    }
}

// A journal's line is refused for want of memory, or it is damaged.
fn status_of_line_refused(refused: NodeError) -> u8
    ensures { result ≡ status_of_line_refused refused }
{
    match refused {
        NodeError::Memory => MEMORY,
        _ => DAMAGED,
    }
}

fn status_of_unplayed(why: &Unplayed<NodeError>) -> u8
    ensures { result ≡ status_of_unplayed why.now }
{
    match why {
        Unplayed::Memory | Unplayed::Disk => MEMORY,
        Unplayed::NoHead => NO_JOURNAL,
        Unplayed::OtherHead(_) => OTHER_JOURNAL,
        Unplayed::Refused(_, refused) => status_of_line_refused(*refused),
        Unplayed::NoState(_)
        | Unplayed::NoCall(_)
        | Unplayed::Misplaced(_)
        | Unplayed::Damaged(_) => DAMAGED,
    }
}

pub fn status_of_unrecovered(refused: &Unrecovered) -> u8
    ensures { result ≡ status_of_unrecovered refused.now }
{
    match refused {
        Unrecovered::Group(refused) => status_of_world(*refused),
        Unrecovered::Journal(why) => status_of_unplayed(why),
        Unrecovered::Memory => MEMORY,
    }
}

/// The line of a journal at which it is damaged, or what was told before.
pub fn line_of_unrecovered(refused: &Unrecovered, before: usize) -> usize
    ensures { result ≡ line_of_unrecovered refused.now before }
{
    match refused {
        Unrecovered::Journal(Unplayed::Refused(_, NodeError::Memory)) => before,
        Unrecovered::Journal(
            Unplayed::NoState(line)
            | Unplayed::NoCall(line)
            | Unplayed::Misplaced(line)
            | Unplayed::Refused(line, _)
            | Unplayed::Damaged(line),
        ) => *line,
        Unrecovered::Journal(
            Unplayed::Memory | Unplayed::Disk | Unplayed::NoHead | Unplayed::OtherHead(_),
        )
        | Unrecovered::Group(_)
        | Unrecovered::Memory => before,
    }
}
