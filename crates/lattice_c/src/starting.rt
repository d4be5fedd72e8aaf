// Nodes made and freed, and their objects.
ghost use Rattle.std.specs.Prelude.{◌≡◌};
ghost use Rattle.lattice_c.specs.Calls.{kind_numbered, AddsObject};
ghost use Rattle.lattice_c.specs.Starting.{AreGivenVotes, MakesNode, RecoversNode};

use crate::handle::{Handle, Place};
use crate::status::{
    BAD_GROUP, BAD_KIND, MEMORY, OK, line_of_unrecovered, status_of_shelf, status_of_unrecovered,
    status_of_world,
};
use la_embed::{AnyObject, Embedded};
use la_node::Config;
use la_object::Kind;
use la_proposer::Votes;
use std::alloc::Global;

/// The version of this interface: it grows where a call changes or goes.
#[unsafe(no_mangle)]
pub extern "C" fn lattice_version() -> u32
    ensures { result ≡ 3 }
{
    3
}

// The votes of a group: these, or one for each replica where there are none.
pub(crate) fn votes_of(replicas: u8, votes: &[u16]) -> Option<Votes>
    ensures { AreGivenVotes replicas votes.now result }
{
    if !votes.is_empty() {
        return Votes::new(votes).ok();
    }
    if replicas < 1 || replicas > 8 {
        return None;
    }
    Some(Votes::one_each(replicas))
}

/// Makes replica `own` of a group in which nothing has happened, and puts it into a place, which then is a handle.
/// The group has 1 to 8 replicas with so many votes each (one each where none are given), up to 16 adopt-commit
/// objects, and a cap of 1 to 1,000,000 updates a replica.
///
/// In this order: `BAD_GROUP` where one of these is out of its range; `NO_REPLICA`; `MEMORY`. Then the place is as
/// before.
#[unsafe(no_mangle)]
pub extern "C" fn lattice_node_new(
    alloc: Global,
    replicas: u8,
    own: u8,
    commits: u8,
    cap: u32,
    votes: &[u16],
    out: &mut Place,
) -> u8
    ensures { MakesNode replicas own commits cap votes.now result out.old out.new }
{
    let Some(votes) = votes_of(replicas, votes) else {
        return BAD_GROUP;
    };
    let config = Config {
        replicas,
        commits,
        cap,
        votes,
    };
    let node = match Embedded::new(alloc, config, own) {
        Ok(node) => node,
        Err(refused) => return status_of_world(refused),
    };
    match Box::new(alloc, node) {
        Ok(node) => {
            *out = Place::of(node);
            OK
        }
        Err(_) => MEMORY,
    }
}

/// Makes the same replica of the same group as before of what was found in its journal, and puts it into a place, which
/// then is a handle. No byte at all is no journal: the first bytes of a new one are `lattice_first_journal`'s. Told is
/// how many of the bytes the journal is to keep: behind them stands what a crash left of a record, which is to be cut
/// off, on the disk, before anything is put behind. Objects are added anew, and all updates are handed over anew.
///
/// What was found counts as kept, and the node may tell at once what it leads to. But what can be read from a file need
/// not be on the disk yet, if the process that wrote it was killed before its sync. So sync the file first, or put a
/// new one in its place, before the node is asked for anything but its next record.
///
/// In this order: as `lattice_node_new` ends, and `NO_JOURNAL`, `OTHER_JOURNAL` and `DAMAGED`, and then the line is told,
/// from 1. Then the place is as before.
#[unsafe(no_mangle)]
pub extern "C" fn lattice_node_recover(
    alloc: Global,
    replicas: u8,
    own: u8,
    commits: u8,
    cap: u32,
    votes: &[u16],
    found: &[u8],
    keep: &mut usize,
    line: &mut usize,
    out: &mut Place,
) -> u8
    ensures { RecoversNode replicas own commits cap votes.now found.now line.old result keep.new line.new out.old out.new }
{
    let Some(votes) = votes_of(replicas, votes) else {
        return BAD_GROUP;
    };
    let config = Config {
        replicas,
        commits,
        cap,
        votes,
    };
    let Ok(bytes) = found.to_vec(alloc) else {
        return MEMORY;
    };
    let (node, kept) = match Embedded::recover(alloc, config, own, bytes) {
        Ok(made) => made,
        Err(refused) => {
            *line = line_of_unrecovered(&refused, *line);
            return status_of_unrecovered(&refused);
        }
    };
    match Box::new(alloc, node) {
        Ok(node) => {
            *keep = kept;
            *out = Place::of(node);
            OK
        }
        Err(_) => MEMORY,
    }
}

/// Frees a node. The handle, and each copy of it, is then no handle.
#[unsafe(no_mangle)]
pub extern "C" fn lattice_node_free(handle: Handle) {
    drop(handle);
}

// The kind with a number: 0, 1 and 2 in their order.
fn kind_numbered(kind: u8) -> Option<Kind>
    ensures { result ≡ kind_numbered kind }
{
    match kind {
        0 => Some(Kind::Counter),
        1 => Some(Kind::MaxRegister),
        2 => Some(Kind::OrSet),
        _ => None,
    }
}

/// Adds an object under a number: of kind 0 a counter, of kind 1 a max register, of kind 2 an observed-remove set.
///
/// `BAD_KIND` comes for any other kind, `TAKEN` where the number has an object, and else `MEMORY`.
#[unsafe(no_mangle)]
pub extern "C" fn lattice_add(handle: &mut Handle, object: u16, kind: u8) -> u8
    ensures { AddsObject handle.old.host.host object (kind_numbered kind) result handle.new.host.host }
{
    let Some(kind) = kind_numbered(kind) else {
        return BAD_KIND;
    };
    let inner = handle.inner();
    let object_made = AnyObject::new(inner.alloc, kind);
    match inner.host.add(object, object_made) {
        Ok(()) => OK,
        Err(refused) => status_of_shelf(refused),
    }
}
