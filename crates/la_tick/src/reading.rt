// The thread that reads.
ghost use Rattle.std.specs.Prelude.{◌≡◌, ◌<◌, ◌≤◌, length};
ghost use Rattle.la_tick.specs.Notes.{IsRead};
ghost use Rattle.la_tick.specs.declared.chunk.TheConstants.{CHUNK};

use crate::chunk::{CHUNK, Chunk};
use crate::feed::{Ending, Filled};
use crossbeam_channel::{Receiver, Sender};
use std::io::{ErrorKind, Read};
use std::sync::Wait;

// What the thread tells.
#[derive(Drop)]
pub(crate) enum Note {
    Bytes(Filled),
    Last(Ending),
}

// What a read found.
pub(crate) enum Found {
    Bytes(usize),
    Last(Ending),
}

// One read, again where it was interrupted.
fn read_once<I: Read>(input: &mut I, buf: &mut [u8; CHUNK]) -> Found
    ensures { IsRead (I.remaining input.old) (I.remaining input.new) buf.new result }
{
    for _ in 0..u64::MAX {
        match input.read(buf) {
            Ok(0) => return Found::Last(Ending::Over),
            Ok(count) => return Found::Bytes(count),
            Err(error) => {
                if error.kind() != ErrorKind::Interrupted {
                    return Found::Last(Ending::Failed(error.kind()));
                }
            }
        }
    }
    Found::Last(Ending::Failed(ErrorKind::Interrupted))
}

// The chunk with the bytes that were read.
fn fill(mut chunk: Chunk, bytes: &[u8]) -> Filled
    requires some { 0 < length bytes.now }
    requires within { length bytes.now ≤ CHUNK }
    ensures { result.chunk ≡ bytes.now }
{
    chunk.fill(bytes);
    Filled { chunk }
}

// Reads until the input's end or a fault, and tells what it read, in the chunks that come back.
pub(crate) fn read_all<R: Wait, I: Read + Drop>(
    rt: &R,
    mut input: I,
    notes: Sender<Note>,
    spare: Receiver<Chunk>,
) {
    let mut buf = [0u8; CHUNK];
    for _ in rt.forever() {
        let Ok(chunk) = spare.recv(rt) else {
            return;
        };
        match read_once(&mut input, &mut buf) {
            Found::Bytes(count) => {
                let note = Note::Bytes(fill(chunk, &buf[..count]));
                if notes.send(rt, note).is_err() {
                    return;
                }
            }
            Found::Last(ending) => {
                let _ = notes.send(rt, Note::Last(ending));
                return;
            }
        }
    }
}
