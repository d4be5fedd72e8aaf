// Lines that are written.
ghost use Rattle.std.specs.Prelude.{◌<◌, ◌≤◌, length, OnOk, OnErr};
ghost use Rattle.la_io.specs.Streams.{Writes, WritesPrefix};

use crate::{WriteFailed, write_all};
use std::io::Write;

// Where a text's first line ends, behind its end.
fn line_end(text: &[u8]) -> usize
    requires { 0 < length text.now }
    ensures some { 0 < result }
    ensures within { result ≤ length text.now }
{
    match text.iter().position(|b| *b == b'\n') {
        Some(place) => place + 1,
        None => text.len(),
    }
}

// So many bytes a pipe takes by one write as a whole, so that lines of several writers do not mix in it.
const AS_A_WHOLE: usize = 4_096;

// Where a text's first piece ends, behind the end of a line: with as many lines as a pipe takes as a whole, or with the
// first alone, where that is longer.
fn piece_end(text: &[u8]) -> usize
    requires { 0 < length text.now }
    ensures some { 0 < result }
    ensures within { result ≤ length text.now }
{
    if text.len() <= AS_A_WHOLE {
        return text.len();
    }
    match text[..AS_A_WHOLE].iter().rposition(|b| *b == b'\n') {
        Some(place) => place + 1,
        None => line_end(text),
    }
}

/// Writes lines: as many by one write as a pipe takes as a whole, 4,096 bytes, and a longer line by one of its own. It is
/// refused at the first write that fails: a front of the text is written then.
pub fn write_lines<W: Write>(output: &mut W, text: &[u8]) -> Result<(), WriteFailed>
    ensures ok { OnOk result (Writes W.contents output.old output.new text.now) }
    ensures err { OnErr result (WritesPrefix W.contents output.old output.new text.now) }
{
    let mut done = 0;
    while done < text.len() {
        let end = done + piece_end(&text[done..]);
        write_all(output, &text[done..end])?;
        done = end;
    }
    Ok(())
}
