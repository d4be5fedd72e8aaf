// A text in pieces, to a writer.
ghost use Rattle.std.specs.Prelude.{◌≡◌, [], ◌++◌, OnOk, OnErr};
ghost use Rattle.la_io.specs.Streams.{Writes, WritesPrefix};
ghost use Rattle.la_cli.specs.Pieces.{WritesAllBut};

use crate::held::Held;
use la_io::{WriteFailed, flush, put_bytes};
use la_script::Pieces;
use std::io::Write;

// Writes what is held, and then nothing is. Where a write fails, the writer has taken a front of it.
fn put_held<W: Write>(writer: &mut W, held: &mut Held) -> Result<(), WriteFailed>
    ensures ok { OnOk result (Writes W.contents writer.old writer.new held.old) }
    ensures none { OnOk result (held.new ≡ []) }
    ensures err { OnErr result (WritesPrefix W.contents writer.old writer.new held.old) }
{
    put_bytes(writer, held.all())?;
    held.clear();
    Ok(())
}

// Holds the bytes behind what is held. Where they don't fit, this is written first; where they are
// more than can be held, they are written from where they lie.
#[inline(always)]
fn gather<W: Write>(writer: &mut W, held: &mut Held, bytes: &[u8]) -> Result<(), WriteFailed>
    ensures ok { OnOk result (WritesAllBut W.contents writer.old writer.new
        held.new (held.old ++ bytes.now)) }
    ensures err { OnErr result (WritesPrefix W.contents writer.old writer.new
        (held.old ++ bytes.now)) }
{
    if held.add(bytes) {
        return Ok(());
    }
    put_held(writer, held)?;
    if held.add(bytes) {
        return Ok(());
    }
    put_bytes(writer, bytes)
}

/// Writes the pieces of a text one after another, and then flushes the writer. Short pieces are
/// gathered, up to 8,192 bytes, and written at once; one that is longer than that is written from
/// where it lies. It takes no memory.
///
/// It is refused where [`la_io::write_all`] would be, and then the writer has taken a front of the text.
/// The cost is that of the writes, and of a copy of the short pieces. Where a write takes all that it
/// is given, any two writes that follow each other have more than 8,192 bytes together.
pub fn write_pieces<W: Write>(writer: &mut W, pieces: &Pieces) -> Result<(), WriteFailed>
    ensures ok { OnOk result (Writes W.contents writer.old writer.new pieces.now) }
    ensures err { OnErr result (WritesPrefix W.contents writer.old writer.new pieces.now) }
{
    let mut held = Held::new();
    let mut walk = pieces.walk();
    while let Some(piece) = walk.next() {
        gather(writer, &mut held, piece.bytes())?;
    }
    put_held(writer, &mut held)?;
    flush(writer)
}
