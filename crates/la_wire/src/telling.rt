// Lines that are told while a node serves. They take no memory.
ghost use Rattle.std.specs.Prelude.{◌≡◌, ◌+◌, ◌<◌, ◌≤◌, ◌++◌, length, map, take, codes, OnOk, OnErr, option_map};
ghost use Rattle.arrayvec.specs.ArrayString.{array_string_len};
ghost use Rattle.la_io.specs.Streams.{TellsLine, Writes, WritesPrefix};
ghost use Rattle.la_wire.specs.Joined.{spaced};
ghost use Rattle.la_wire.specs.Requests.{name_words};
ghost use Rattle.la_wire.specs.Notes.{refused_note, fault_name, line_fault_line};
ghost use Rattle.la_wire.specs.Wrongs.{wrong_view, shown, is_none_text, part_text};

use crate::{LineFault, MAX_NAME, Wanted, Wrong};
use arrayvec::ArrayString;
use itoa::Buffer;
use la_io::{Listener, WriteFailed, tell_all, write_lines};
use std::io::Write;

// A note with two numbers has at most 52 bytes, a fault 36 with its line's number, the part that is wrong 63, the name
// of a request 34 with what is before it.
type Line = ArrayString<160>;

/// How many bytes of a word are told.
pub const TOLD_BYTES: usize = 32;

// Puts the name of a request behind what answers it, where it has one.
fn push_name(line: &mut Line, name: &str)
    requires room { array_string_len line.old ≤ 110 }
    requires short { length name.now ≤ MAX_NAME }
    ensures bytes { line.new.bytes ≡ line.old.bytes ++ spaced 32 (name_words name.now) }
    ensures room { array_string_len line.new ≤ 144 }
{
    if !name.is_empty() {
        line.push_str(" @");
        line.push_str(name);
    }
}

// A note that a line was refused.
fn refusal_line(own: u8, number: u64, why: &'static str, name: &str) -> Line
    requires why { length why.now ≤ 15 }
    requires name { length name.now ≤ MAX_NAME }
    ensures { result.bytes ≡ refused_note own number why.now name.now }
{
    let mut line = Line::new();
    line.push_str("# r");
    line.push_str(Buffer::new().format(own));
    line.push_str(" refused ");
    line.push_str(Buffer::new().format(number));
    line.push_str(" ");
    line.push_str(why);
    push_name(&mut line, name);
    line.push_str("\n");
    line
}

/// Notes why a line was refused, in answer to a request of this name. It takes no memory. The refusal is that of
/// [`la_io::write_lines`].
pub fn refuse<W: Write>(
    output: &mut W,
    own: u8,
    number: u64,
    why: &'static str,
    name: &str,
) -> Result<(), WriteFailed>
    requires why { length why.now ≤ 15 }
    requires name { length name.now ≤ MAX_NAME }
    ensures ok { OnOk result (Writes W.contents output.old output.new (refused_note own number why.now name.now)) }
    ensures err { OnErr result (WritesPrefix W.contents output.old output.new (refused_note own number why.now name.now)) }
{
    let line = refusal_line(own, number, why, name);
    write_lines(output, line.as_str().as_bytes())
}

// A byte that can be printed, or `?`.
fn shown(byte: u8) -> u8
    ensures exact { result ≡ shown byte }
    ensures ascii { result < 128 }
{
    if (33..=126).contains(&byte) {
        byte
    } else {
        b'?'
    }
}

// Puts a word, of which each byte is shown.
fn push_shown(line: &mut Line, word: &[u8])
    requires room { array_string_len line.old + length word.now ≤ 110 }
    ensures bytes { line.new.bytes ≡ line.old.bytes ++ map shown word.now }
    ensures len { array_string_len line.new ≡ array_string_len line.old + length word.now }
{
    for byte in word {
        line.push(char::from(shown(*byte)));
    }
}

// As much of a word as is told.
fn told_front(word: &[u8]) -> &[u8]
    ensures front { result.now ≡ take TOLD_BYTES word.now }
    ensures few { length result.now ≤ TOLD_BYTES }
{
    if word.len() <= TOLD_BYTES {
        return word;
    }
    &word[..TOLD_BYTES]
}

// Puts the front of a word that is none of what is wanted.
fn push_wrong(line: &mut Line, wanted: Wanted, front: &[u8])
    requires room { array_string_len line.old ≤ 40 }
    requires few { length front.now ≤ TOLD_BYTES }
    ensures bytes { line.new.bytes
        ≡ line.old.bytes ++ codes ": '" ++ map shown front.now ++ codes "' " ++ is_none_text wanted }
    ensures room { array_string_len line.new ≤ 110 }
{
    line.push_str(": '");
    push_shown(line, front);
    line.push_str("' ");
    line.push_str(wanted.is_none_text());
}

// Puts the part of a line that is wrong, where there is one.
fn push_part(line: &mut Line, wrong: Option<Wrong<'_>>)
    requires room { array_string_len line.old ≤ 40 }
    ensures bytes { line.new.bytes ≡ line.old.bytes ++ part_text (option_map wrong_view wrong.entry) }
    ensures room { array_string_len line.new ≤ 110 }
{
    let Some(wrong) = wrong else {
        return;
    };
    match wrong.word {
        Some(word) => push_wrong(line, wrong.wanted, told_front(word)),
        None => line.push_str(": the line ends too early"),
    }
}

// A line's fault, as it is told.
fn line_of_fault(number: u64, fault: LineFault, wrong: Option<Wrong<'_>>, name: &str) -> Line
    requires { length name.now ≤ MAX_NAME }
    ensures { result.bytes ≡ line_fault_line number fault (option_map wrong_view wrong.entry) name.now }
{
    let mut line = Line::new();
    line.push_str("line ");
    line.push_str(Buffer::new().format(number));
    line.push_str(": ");
    line.push_str(fault_name(fault));
    push_part(&mut line, wrong);
    push_name(&mut line, name);
    line.push_str("\n");
    line
}

/// Tells the fault of a line, the part of it that is wrong, of a word its first [`TOLD_BYTES`] with `?` for each that can't
/// be printed, and the name of the request that it is. It takes no memory.
pub fn tell_fault<E: Listener>(
    errors: &mut E,
    number: u64,
    fault: LineFault,
    wrong: Option<Wrong<'_>>,
    name: &str,
)
    requires { length name.now ≤ MAX_NAME }
    ensures { TellsLine E.contents E.refuses errors.old errors.new
        (line_fault_line number fault (option_map wrong_view wrong.entry) name.now) }
{
    let line = line_of_fault(number, fault, wrong, name);
    let _told = tell_all(errors, line.as_str().as_bytes());
}

fn fault_name(fault: LineFault) -> &'static str
    ensures text { result.now ≡ fault_name fault }
    ensures short { length result.now ≤ 9 }
{
    match fault {
        LineFault::TooLong => "TooLong",
        LineFault::BadLine => "BadLine",
        LineFault::BadNumber => "BadNumber",
    }
}
