// The whole program but for the real streams.
ghost use Rattle.std.specs.Prelude.{◌≡◌, ◌≢◌, ◌<◌, length, map, string_bytes, IfOk, IfErr};
ghost use Rattle.la_cli.specs.declared.error.PlayFault.TheVariants.{Memory};
ghost use Rattle.la_cli.specs.Calls.{IsInRange};
ghost use Rattle.la_cli.specs.Faults.{play_status};
ghost use Rattle.la_cli.specs.Program.{IsProgramEnd, IsExitStatus, EndsByError, ComesTo, IsTaskRefusal};
ghost use Rattle.la_cli.specs.Program.{TellsFault, TellsNoText, heard, streamed};

use crate::call::{Task, command};
use crate::telling::{tell, tell_no_text};
use crate::threads::play_threads;
use crate::{PlayFault, play_random, play_stream};
use clap::Error;
use la_io::{Listener, WriteFailed, tell_all, write_all};
use la_object::{Replicated, Shelf};
use std::alloc::Global;
use std::io::{ErrorKind, Read, Write};
use std::sync::Wait;
use std::thread::Threads;

// What is shown where `clap` has no text for an error: it states nothing of its texts.
const SEE_HELP: &str = "see --help\n";

/// How the program ended.
#[derive(Clone, Copy)]
pub struct Ended {
    /// The exit status.
    pub status: u8,
    /// Whether standard error took all that was to be told.
    pub told: Result<(), WriteFailed>,
}

/// The exit status of the program after a fault.
pub fn status_of(fault: PlayFault) -> u8
    ensures { result ≡ play_status fault }
{
    match fault {
        PlayFault::Script(_) | PlayFault::TooLong => 1,
        PlayFault::Memory => 3,
        PlayFault::ReadFault | PlayFault::BadConfig | PlayFault::WriteFault | PlayFault::NoThread =>
            4,
    }
}

// The end after a fault, which is told. Where it can't be written, the status alone tells it.
fn end_with<E: Listener>(fault: PlayFault, errors: &mut E) -> Ended
    ensures { TellsFault (heard E.contents E.refuses errors.old errors.new) fault result }
{
    Ended {
        status: status_of(fault),
        told: tell(errors, fault),
    }
}

// Does what was called for. Answers whether all is well: only a run of replicas that stopped or that
// differ is not.
fn perform<P: Threads + Wait + Sync, R: Read, W: Write, B: Replicated>(
    rt: &P,
    alloc: Global,
    task: Task,
    input: &mut R,
    output: &mut W,
    shelves: Vec<Shelf<B>>,
) -> Result<bool, PlayFault>
    requires { IsInRange task }
    ensures ok { IfOk result (λ well. ComesTo well task shelves.items
        (streamed R.remaining W.contents (input.old, output.old) (input.new, output.new))) }
    ensures error { IfErr result (IsTaskRefusal task shelves.items (streamed R.remaining W.contents (input.old, output.old) (input.new, output.new))) }
{
    match task {
        Task::Play => match play_stream(alloc, input, output, shelves) {
            Ok(()) => Ok(true),
            Err(fault) => Err(fault),
        },
        Task::Random {
            seed,
            replicas,
            events,
        } => match play_random(alloc, seed, replicas, events, output, shelves) {
            Ok(()) => Ok(true),
            Err(fault) => Err(fault),
        },
        Task::Threads { replicas, each } => {
            play_threads(rt, alloc, replicas, each, output, shelves)
        }
    }
}

// The bytes of a text, or of another where it is empty.
fn shown(text: &str) -> &[u8]
    ensures { 0 < length result.now }
{
    if text.is_empty() {
        SEE_HELP.as_bytes()
    } else {
        text.as_bytes()
    }
}

/// The end of a program whose words are no call, for what `clap` says of them: help and the version are
/// written, and a mistake is told. Where `clap` has no text for that, it is a line that names `--help`.
///
/// The status is 0 where a text that was asked for was written whole, 2 after a mistake, and else that
/// of `Memory` or `WriteFault`, which is told. Where `errors` does not take what is told, a front of it
/// was written, and the status is the same.
pub fn end_without_call<W: Write, E: Listener>(
    alloc: Global,
    error: &Error,
    output: &mut W,
    errors: &mut E,
) -> Ended
    ensures { EndsByError error.now (W.contents output.old) (W.contents output.new)
        (heard E.contents E.refuses errors.old errors.new) result }
{
    if error.kind() == clap::error::ErrorKind::OutOfMemory {
        return end_with(PlayFault::Memory, errors);
    }
    let Ok(text) = format!(in alloc; "{error}") else {
        return end_with(PlayFault::Memory, errors);
    };
    let bytes = shown(text.as_str());
    if error.use_stderr() {
        return Ended {
            status: 2,
            told: tell_all(errors, bytes),
        };
    }
    match write_all(output, bytes) {
        Ok(()) => Ended {
            status: 0,
            told: Ok(()),
        },
        Err(_) => end_with(PlayFault::WriteFault, errors),
    }
}

/// How the program ends over any streams, called by these words, its name first, with shelves for
/// the replicas.
///
/// What it does and tells, and the status, are those of the crate's documentation. Where `errors`
/// does not take what is told, a front of it was written, and the status is the same.
pub fn carry_out<P: Threads + Wait + Sync, R: Read, W: Write, E: Listener, B: Replicated>(
    rt: &P,
    alloc: Global,
    words: &[String],
    input: &mut R,
    output: &mut W,
    errors: &mut E,
    shelves: Vec<Shelf<B>>,
) -> Ended
    ensures { IsProgramEnd (map string_bytes words.now) shelves.items
        (streamed R.remaining W.contents (input.old, output.old) (input.new, output.new))
        (heard E.contents E.refuses errors.old errors.new) result }
{
    match command(alloc, words) {
        Ok(task) => match perform(rt, alloc, task, input, output, shelves) {
            Ok(well) => Ended {
                status: if well { 0 } else { 4 },
                told: Ok(()),
            },
            Err(fault) => end_with(fault, errors),
        },
        Err(error) => end_without_call(alloc, &error, output, errors),
    }
}

/// The program over any streams, called by these words, its name first: its exit status.
///
/// Where `errors` does not take what is told, a front of it was written, and the status is the same.
pub fn run_words<P: Threads + Wait + Sync, R: Read, W: Write, E: Listener, B: Replicated>(
    rt: &P,
    alloc: Global,
    words: &[String],
    input: &mut R,
    output: &mut W,
    errors: &mut E,
    shelves: Vec<Shelf<B>>,
) -> u8
    ensures { IsExitStatus (map string_bytes words.now) shelves.items
        (streamed R.remaining W.contents (input.old, output.old) (input.new, output.new))
        (heard E.contents E.refuses errors.old errors.new) result }
{
    carry_out(rt, alloc, words, input, output, errors, shelves).status
}

/// The end of a program whose words were not gathered, for an error of this kind.
///
/// Want of memory is told as any other, with its status; words that are no text are a wrong call.
pub fn end_without_words<E: Listener>(kind: ErrorKind, errors: &mut E) -> Ended
    ensures memory { kind ≡ ErrorKind.OutOfMemory
        → TellsFault (heard E.contents E.refuses errors.old errors.new) Memory result }
    ensures other { kind ≢ ErrorKind.OutOfMemory
        → TellsNoText (heard E.contents E.refuses errors.old errors.new) result }
{
    match kind {
        ErrorKind::OutOfMemory => end_with(PlayFault::Memory, errors),
        _ => Ended {
            status: 2,
            told: tell_no_text(errors),
        },
    }
}
