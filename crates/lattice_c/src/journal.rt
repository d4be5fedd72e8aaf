// The journal that a node begins with.
ghost use Rattle.lattice_c.specs.Journals.{MakesJournal};

use crate::starting::votes_of;
use crate::status::{BAD_GROUP, OK, SMALL, status_of_world};
use la_durable::first_journal;
use la_node::Config;
use std::alloc::Global;

/// The bytes of the journal that replica `own` of a group begins with, into a buffer, and how many they are: fewer than
/// 256. They go into a file where no journal stands, on the disk, and then `lattice_node_recover` plays them. They are for
/// a replica that never was: one that lost its journal must not begin anew. The numbers are as of `lattice_node_new`.
///
/// In this order: as `lattice_node_new` ends, and `SMALL` where the buffer has less room than there are bytes, which are
/// told.
#[unsafe(no_mangle)]
pub extern "C" fn lattice_first_journal(
    alloc: Global,
    replicas: u8,
    own: u8,
    commits: u8,
    cap: u32,
    votes: &[u16],
    buffer: &mut [u8],
    len: &mut usize,
) -> u8
    ensures { MakesJournal replicas own commits cap votes.now buffer.old result len.new buffer.new }
{
    let Some(votes) = votes_of(replicas, votes) else {
        return BAD_GROUP;
    };
    let config = Config {
        replicas,
        commits,
        cap,
        votes,
    };
    let file = match first_journal(alloc, config, own) {
        Ok(file) => file,
        Err(refused) => return status_of_world(refused),
    };
    let count = file.len();
    *len = count;
    if count > buffer.len() {
        return SMALL;
    }
    buffer[..count].copy_from_slice(&file);
    OK
}
