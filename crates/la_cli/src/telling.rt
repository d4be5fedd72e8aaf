// What is told on standard error. Telling takes no memory.
ghost use Rattle.std.specs.Prelude.{◌≡◌, ◌≤◌, OnOk, OnErr, length};
ghost use Rattle.la_io.specs.Streams.{Writes, RefusesBytes};
ghost use Rattle.la_cli.specs.Texts.{name_of, fault_text, fault_line, no_text_line};

use crate::PlayFault;
use arrayvec::ArrayString;
use itoa::Buffer;
use la_io::{Listener, WriteFailed, tell_all};
use la_script::FaultName;

// A line with a number of 32 bits has at most 27 bytes.
type FaultLine = ArrayString<27>;

const NO_TEXT: &str = "a word of the command line is no text: see lattice --help\n";

fn name_of(name: FaultName) -> &'static str
    ensures text { result.now ≡ name_of name }
    ensures short { length result.now ≤ 9 }
{
    match name {
        FaultName::BadHeader => "BadHeader",
        FaultName::BadLine => "BadLine",
        FaultName::BadNumber => "BadNumber",
    }
}

// A fault as it is told, but for LF.
pub(crate) fn text_of(fault: PlayFault) -> FaultLine
    ensures text { result.bytes ≡ fault_text fault }
    ensures short { length result.bytes ≤ 26 }
{
    let mut text = FaultLine::new();
    match fault {
        PlayFault::Script(fault) => {
            text.push_str("line ");
            text.push_str(Buffer::new().format(fault.line));
            text.push_str(": ");
            text.push_str(name_of(fault.name));
        }
        PlayFault::TooLong => text.push_str("TooLong"),
        PlayFault::Memory => text.push_str("Memory"),
        PlayFault::ReadFault => text.push_str("ReadFault"),
        PlayFault::BadConfig => text.push_str("BadConfig"),
        PlayFault::WriteFault => text.push_str("WriteFault"),
        PlayFault::NoThread => text.push_str("NoThread"),
    }
    text
}

/// Writes a fault as the program tells it, and LF. It takes no memory. The refusal is that of
/// [`tell_all`].
pub fn tell<E: Listener>(errors: &mut E, fault: PlayFault) -> Result<(), WriteFailed>
    ensures ok { OnOk result (Writes E.contents errors.old errors.new (fault_line fault)) }
    ensures err { OnErr result
        (RefusesBytes E.contents E.refuses errors.old errors.new (fault_line fault)) }
{
    let mut line = text_of(fault);
    line.push_str("\n");
    tell_all(errors, line.as_str().as_bytes())
}

/// Tells that a word of the command line is no text. The refusal is that of [`tell_all`].
pub fn tell_no_text<E: Listener>(errors: &mut E) -> Result<(), WriteFailed>
    ensures ok { OnOk result (Writes E.contents errors.old errors.new no_text_line) }
    ensures err { OnErr result (RefusesBytes E.contents E.refuses errors.old errors.new no_text_line) }
{
    tell_all(errors, NO_TEXT.as_bytes())
}
