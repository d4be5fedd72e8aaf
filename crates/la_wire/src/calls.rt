// What a node is called for, read from lines.
ghost use Rattle.std.specs.Prelude.{◌≡◌, ◌==◌, Ok, Some, IfOk, option_map};
ghost use Rattle.std.specs.List.{before_first};
ghost use Rattle.la_script.specs.declared.script.Version.TheVariants.{Two};
ghost use Rattle.la_script.specs.Lines.{words_of, line_event};
ghost use Rattle.la_wire.specs.Readings.{GivesOnLine};
ghost use Rattle.la_wire.specs.Calls.{called};
ghost use Rattle.la_wire.specs.CallLines.{event_call, fault_of, script_call, first_kind, is_known, known_call};
ghost use Rattle.la_wire.specs.CallLines.{call_of, bounded_call_of, named_call};
ghost use Rattle.la_wire.specs.CallLines.{own_call, may_be_own, are_own, own_words_call, words_call};
ghost use Rattle.la_script.specs.Words.{bytes_of};

use crate::messages::{KNOWN, Kind, read_message, standing_in};
use crate::requests::SUBMIT;
use crate::updates::{Verb, own_on};
use crate::words::number_at;
use crate::{Letter, LineError, LineFault};
use la_io::limit_of;
use la_node::Standing;
use la_object::Query;
use la_script::{FaultName, ReadError, Version, event_at, split_once, words_of};
use la_set::Op;
use la_world::Event;
use std::alloc::{AllocError, Global};

/// The line that a timer is.
pub(crate) const TICK: &[u8] = b"tick";

/// What a node is called for.
#[derive(Drop)]
pub enum Call {
    /// A replica submits an operation on an object, in instance 0.
    Submit {
        /// The number of the replica, from 0.
        replica: u8,
        /// The number of the object.
        object: u16,
        /// What is done to it: no vote.
        op: Op,
    },
    /// A replica proposes a value to an adopt-commit object.
    Decide {
        /// The number of the replica, from 0.
        replica: u8,
        /// The number of the object, from 0.
        commit: u8,
        /// The value that it proposes.
        value: u64,
    },
    /// An object on a replica's shelf is asked.
    Ask {
        /// The number of the replica, from 0.
        replica: u8,
        /// The number of the object.
        object: u16,
        /// What it is asked.
        query: Query,
    },
    /// A timer has run out: what waits for an answer is sent once more.
    Tick,
    /// A letter has come.
    Receive(Letter),
    /// A replica has said how far it is.
    Known(Standing),
}

// The call that an event is: a delivery is none.
fn event_call(event: Event) -> Result<Call, LineError>
    ensures { GivesOnLine called (event_call event) result }
{
    match event {
        Event::Submit {
            replica,
            object,
            op,
        } => Ok(Call::Submit {
            replica,
            object,
            op,
        }),
        Event::Deliver(_) => Err(LineError::Fault(LineFault::BadLine)),
        Event::Decide {
            replica,
            commit,
            value,
        } => Ok(Call::Decide {
            replica,
            commit,
            value,
        }),
        Event::Ask {
            replica,
            object,
            query,
        } => Ok(Call::Ask {
            replica,
            object,
            query,
        }),
    }
}

fn fault_of(name: FaultName) -> LineFault
    ensures { result ≡ fault_of name }
{
    match name {
        FaultName::BadNumber => LineFault::BadNumber,
        _ => LineFault::BadLine,
    }
}

// The call that an event of a script is.
fn script_call(alloc: Global, line: &[u8]) -> Result<Call, LineError>
    ensures { GivesOnLine called (script_call (line_event Two line.now)) result }
{
    match event_at(alloc, Version::Two, 0, line) {
        Ok(event) => event_call(event),
        Err(ReadError::Fault(fault)) => Err(LineError::Fault(fault_of(fault.name))),
        Err(ReadError::Memory) => Err(LineError::Memory),
    }
}

// A submission of an operation of one's own, by the words of its replica, its object and its bytes.
fn own_call(alloc: Global, replica: &[u8], object: &[u8], text: &[u8]) -> Result<Call, LineError>
    ensures { GivesOnLine called (own_call replica.now object.now text.now) result }
{
    let replica = number_at(0, u64::from(u8::MAX), replica)? as u8;
    let object = number_at(0, u64::from(u16::MAX), object)? as u16;
    let op = own_on(alloc, text)?;
    Ok(Call::Submit {
        replica,
        object,
        op,
    })
}

// Whether a line's fourth word is `own`, and its first `submit`.
fn may_be_own(line: &[u8]) -> bool
    ensures { result ≡ may_be_own line.now }
{
    let (first, rest) = split_once(line, b' ');
    let (_, rest) = split_once(rest, b' ');
    let (_, rest) = split_once(rest, b' ');
    let (word, _) = split_once(rest, b' ');
    first == SUBMIT && word == Verb::Own.spelling()
}

// Whether words are a submission of an operation of one's own.
fn are_own(words: &[&[u8]]) -> bool
    ensures { result ≡ are_own (bytes_of words.now) }
{
    match words {
        [first, _, _, word, _] => *first == SUBMIT && *word == Verb::Own.spelling(),
        _ => false,
    }
}

fn own_words_call(alloc: Global, words: &[&[u8]]) -> Result<Call, LineError>
    ensures { GivesOnLine called (own_words_call (bytes_of words.now)) result }
{
    match words {
        [_, replica, object, _, text] => own_call(alloc, replica, object, text),
        _ => Err(LineError::Fault(LineFault::BadLine)),
    }
}

// The call that a line says of which no word is taken for a message's.
fn words_call(alloc: Global, line: &[u8]) -> Result<Call, LineError>
    ensures { GivesOnLine called (words_call (words_of line.now)) result }
{
    if !may_be_own(line) {
        return script_call(alloc, line);
    }
    let words = words_of(alloc, line)?;
    if are_own(&words) {
        own_words_call(alloc, &words)
    } else {
        script_call(alloc, line)
    }
}

// Whether a line's first word is `known`.
pub(crate) fn is_known(line: &[u8]) -> bool
    ensures { result ≡ is_known line.now }
{
    let (first, _) = split_once(line, b' ');
    first == KNOWN
}

// How far a replica is, by a line that begins with `known`.
fn read_known(alloc: Global, line: &[u8]) -> Result<Call, LineError>
    ensures { GivesOnLine called (known_call line.now) result }
{
    let words = words_of(alloc, line)?;
    match words.as_slice() {
        [_, rest @ ..] => Ok(Call::Known(standing_in(rest)?)),
        [] => Err(LineError::Fault(LineFault::BadLine)),
    }
}

// The kind of message that a line's first word is.
pub(crate) fn first_kind(line: &[u8]) -> Option<Kind>
    ensures { result ≡ first_kind line.now }
{
    let (first, _) = split_once(line, b' ');
    Kind::of(first)
}

/// The call that a line says, whatever its length, at a cost linear in it: for lines that are one's own, as
/// those of a journal.
///
/// `Fault` comes exactly where the line is no call, and names the first fault. Of a message it is, from left
/// to right and part by part: `BadLine` where a word is to be one of the known and is none, or where there is
/// a word or a part too few or too many; `BadNumber` where a number is not canonical or is out of its range,
/// or an id or a tag is none. Of any other line it is the fault of a script's event, and `BadLine` for
/// `deliver`. `Memory` may come at any line. Nothing stands after a refusal.
pub fn read(alloc: Global, line: &[u8]) -> Result<Call, LineError>
    ensures { GivesOnLine called (call_of line.now) result }
{
    if line == TICK {
        return Ok(Call::Tick);
    }
    match first_kind(line) {
        Some(_) => Ok(Call::Receive(read_message(alloc, line)?)),
        None if is_known(line) => read_known(alloc, line),
        None => words_call(alloc, line),
    }
}

/// The call that a line from outside is, as [`read`] says: `TooLong` comes first, where it has more bytes than
/// [`la_io::limit_of`] says, and then it is not looked at. So no line takes more memory than some such lines
/// have bytes.
pub fn read_bounded(alloc: Global, line: &[u8]) -> Result<Call, LineError>
    ensures exact { GivesOnLine called (bounded_call_of line.now) result }
    ensures ok { IfOk result (λ call. call_of line.now ≡ Ok (called call)) }
{
    if line.len() > limit_of(line) {
        return Err(LineError::Fault(LineFault::TooLong));
    }
    read(alloc, line)
}

/// The call that a line names, as [`read`] reads it; `None` where it has a fault.
pub fn named(alloc: Global, line: &[u8]) -> Result<Option<Call>, AllocError>
    ensures { IfOk result (λ call. named_call line.now ≡ option_map called call) }
{
    match read(alloc, line) {
        Ok(call) => Ok(Some(call)),
        Err(LineError::Fault(_)) => Ok(None),
        Err(LineError::Memory) => Err(AllocError),
    }
}
