ghost use Rattle.std.specs.Prelude.{◌≡◌, ◌↔◌, ◌+◌, ◌<◌, ◌≤◌, ◌^◌, [], ◌∷◌, ◌++◌, length};
ghost use Rattle.std.specs.Prelude.{IsTrue, IfOk, IfErr, OnOk};
ghost use Rattle.la_node.specs.Configs.{IsConfig};
ghost use Rattle.la_world.specs.StandsFor.{StandsFor};
ghost use Rattle.la_cli.specs.declared.error.PlayFault.TheVariants.{WriteFault};
ghost use Rattle.la_io.specs.Streams.{TakesAtMost, Writes, WritesPrefix};
ghost use Rattle.la_cli.specs.Play.{FitAnyGroup, group_shelves, text_by, IsRandomGroup};
ghost use Rattle.la_cli.specs.Play.{AnswersScript, IsScriptRefusal, PlaysBytes, IsPlayedRefusal};
ghost use Rattle.la_cli.specs.Play.{PlaysDraw, IsDrawRefusal};

use crate::PlayFault;
use crate::pieces::write_pieces;
use la_io::{LIMIT, read_all};
use la_node::{Config, WorldError};
use la_object::{Replicated, Shelf};
use la_proposer::{MAX_CAP, Votes};
use la_script::{
    Events, Pieces, Version, put_ending, put_header, put_numbered, random_events, read,
};
use la_set::REPLICAS;
use la_world::{Event, Steps, World, are_unused};
use std::alloc::{AllocError, Global};
use std::io::{Read, Write};

/// Whether there are eight shelves, none of which has absorbed anything: then any group can be
/// played with the first of them.
pub fn fit_any_group<B: Replicated>(shelves: &[Shelf<B>]) -> bool
    ensures { IsTrue result ↔ FitAnyGroup shelves.now }
{
    shelves.len() == REPLICAS as usize && are_unused(shelves)
}

// A new world of a group that can be played, with as many of the shelves as it has replicas. The other
// shelves are dropped.
fn world_of<B: Replicated>(
    alloc: Global,
    config: Config,
    shelves: Vec<Shelf<B>>,
) -> Result<World<B>, AllocError>
    requires config { IsConfig config }
    requires shelves { FitAnyGroup shelves.items }
    ensures config { IfOk result (λ world. world.config ≡ config) }
    ensures shelves { IfOk result (λ world. world.shelves ≡ group_shelves config shelves.items) }
    ensures stands { IfOk result (λ world. StandsFor world []) }
{
    let mut used = shelves;
    used.truncate(config.replicas as usize);
    match World::new(alloc, config, used) {
        Ok(world) => Ok(world),
        Err(WorldError::Memory) => Err(AllocError),
        // The group can be played, and its shelves fit: then only memory is refused, by the clause
        // `error` of `World::new`.
        Err(_) => unreachable!(),
    }
}

// The text that the report of these events has in a version, played with the first of the shelves.
// Each line is put down as its event is played, and neither is kept.
fn text_of<B: Replicated>(
    alloc: Global,
    version: Version,
    config: Config,
    events: Events,
    shelves: Vec<Shelf<B>>,
) -> Result<Pieces, AllocError>
    requires config { IsConfig config }
    requires shelves { FitAnyGroup shelves.items }
    ensures { IfOk result (λ pieces. pieces ≡ text_by version config events shelves.items) }
{
    let mut world = world_of(alloc, config, shelves)?;
    let mut text = Pieces::new(alloc);
    put_header(&mut text, version, &config)?;
    let count = events.len();
    let mut left = Vec::from(events);
    left.reverse();
    for index in 0..count {
        let event = take_last(&mut left);
        let line = world.play_line(&event)?;
        put_numbered(&mut text, index + 1, &line)?;
    }
    let report = world.into_report(Steps::new(alloc))?;
    put_ending(&mut text, &report)?;
    Ok(text)
}

// Takes the last event out. Where the list has room for twice as many as are left, room is given back.
fn take_last(left: &mut Vec<Event>) -> Event
    requires { 0 < length left.old.items }
    ensures { left.old.items ≡ left.new.items ++ result ∷ [] }
{
    let Some(event) = left.pop() else {
        unreachable!()
    };
    if left.len() < left.capacity() / 2 {
        left.shrink_to_fit();
    }
    event
}

/// The text of the report of the script that the bytes are, in its version and in pieces, played
/// with the first of these shelves: there are to be eight, none of which has absorbed anything.
///
/// `Script` comes exactly where they are no script, and names the first fault; `Memory` may come at
/// any bytes; no other refusal comes. The cost is that of reading the bytes, of playing the events,
/// and of the report's lines.
///
/// The bytes are to be fewer than 2^32, so that each line has a number of 32 bits.
pub fn answer_to<B: Replicated>(
    alloc: Global,
    input: &[u8],
    shelves: Vec<Shelf<B>>,
) -> Result<Pieces, PlayFault>
    requires short { length input.now < 2 ^ 32 }
    requires shelves { FitAnyGroup shelves.items }
    ensures ok { IfOk result (λ pieces. AnswersScript shelves.items input.now pieces) }
    ensures error { IfErr result (IsScriptRefusal input.now) }
{
    let script = read(alloc, input)?;
    let pieces = text_of(alloc, script.version, script.config, script.events, shelves)?;
    Ok(pieces)
}

// The same of bytes that are let go once they are read.
fn answer_once<B: Replicated>(
    alloc: Global,
    input: Vec<u8>,
    shelves: Vec<Shelf<B>>,
) -> Result<Pieces, PlayFault>
    requires short { length input.items < 2 ^ 32 }
    requires shelves { FitAnyGroup shelves.items }
    ensures ok { IfOk result (λ pieces. AnswersScript shelves.items input.items pieces) }
    ensures error { IfErr result (IsScriptRefusal input.items) }
{
    let script = read(alloc, &input)?;
    drop(input);
    let pieces = text_of(alloc, script.version, script.config, script.events, shelves)?;
    Ok(pieces)
}

// Writes a text. Where it fails, the first bytes were written.
pub(crate) fn write_out<W: Write>(writer: &mut W, text: &Pieces) -> Result<(), PlayFault>
    ensures ok { OnOk result (Writes W.contents writer.old writer.new text.now) }
    ensures error { IfErr result (λ fault. (fault ≡ WriteFault)
        × WritesPrefix W.contents writer.old writer.new text.now) }
{
    match write_pieces(writer, text) {
        Ok(()) => Ok(()),
        Err(_) => Err(PlayFault::WriteFault),
    }
}

/// Reads a script, plays it with the first of these shelves, one for each replica, and writes the
/// text of its report in its version.
///
/// All that the reader has left is read, at most [`LIMIT`] bytes, then the pieces of the report's
/// text are made, with all memory that it takes, and only then anything is written. The faults come
/// in this order: `BadConfig` where there are not eight shelves or one of them has absorbed
/// something, before anything is read; `ReadFault` and `TooLong` while the bytes are read, `Script`
/// where they are no script, `WriteFault` while the text is written; `Memory` may come before
/// anything is written. After a `WriteFault` the first bytes of the text were written, after any
/// other refusal nothing. The reader then stands behind what was read, at most one byte past the
/// limit.
pub fn play_stream<R: Read, W: Write, B: Replicated>(
    alloc: Global,
    reader: &mut R,
    writer: &mut W,
    shelves: Vec<Shelf<B>>,
) -> Result<(), PlayFault>
    ensures ok { OnOk result (PlaysBytes shelves.items (R.remaining reader.old) (R.remaining reader.new)
        (W.contents writer.old) (W.contents writer.new)) }
    ensures error { IfErr result (IsPlayedRefusal shelves.items
        (R.remaining reader.old) (R.remaining reader.new)
        (W.contents writer.old) (W.contents writer.new)) }
    ensures taken { TakesAtMost (LIMIT + 1) (R.remaining reader.old) (R.remaining reader.new) }
{
    if !fit_any_group(&shelves) {
        return Err(PlayFault::BadConfig);
    }
    let input = read_all(alloc, reader)?;
    let text = answer_once(alloc, input, shelves)?;
    write_out(writer, &text)
}

// The group that drawn events are played in.
fn random_group(replicas: u8) -> Config
    requires some { 1 ≤ replicas }
    requires few { replicas ≤ 8 }
    ensures group { IsRandomGroup replicas result }
    ensures config { IsConfig result }
{
    Config {
        replicas,
        commits: 1,
        cap: MAX_CAP,
        votes: Votes::one_each(replicas),
    }
}

/// Draws so many events from a seed, plays them in a group of so many replicas, from 1 to 8, with
/// one adopt-commit object, a cap of 1,000,000 and the first of these shelves, and writes the text
/// of the report in version 1.
///
/// `BadConfig` comes exactly where there are not eight shelves or one of them has absorbed
/// something; `WriteFault` while the text is written, and then its first bytes were written;
/// `Memory` may come before anything is written. No other fault comes.
pub fn play_random<W: Write, B: Replicated>(
    alloc: Global,
    seed: u32,
    replicas: u8,
    count: u32,
    writer: &mut W,
    shelves: Vec<Shelf<B>>,
) -> Result<(), PlayFault>
    requires some { 1 ≤ replicas }
    requires few { replicas ≤ 8 }
    ensures ok { OnOk result (PlaysDraw shelves.items seed replicas count
        (W.contents writer.old) (W.contents writer.new)) }
    ensures error { IfErr result (IsDrawRefusal shelves.items seed replicas count
        (W.contents writer.old) (W.contents writer.new)) }
{
    if !fit_any_group(&shelves) {
        return Err(PlayFault::BadConfig);
    }
    let events = random_events(alloc, u64::from(seed), replicas, count)?;
    let text = text_of(alloc, Version::One, random_group(replicas), events, shelves)?;
    write_out(writer, &text)
}
