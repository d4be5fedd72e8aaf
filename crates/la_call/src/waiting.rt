// Lines are read until one answers.
ghost use Rattle.std.specs.Prelude.{◌≡◌, ◌≤◌, true, false, IfOk, IfErr, OnOk};
ghost use Rattle.std.specs.Io.KnownBytes.{IsAtEnd};
ghost use Rattle.la_io.specs.Limits.{is_too_long};
ghost use Rattle.la_io.specs.Sources.{ahead};
ghost use Rattle.la_call.specs.Asking.{plan_in, placed, IsHeardAs, Steps, StepFails, WritesAgain, WritesNotAgain};
ghost use Rattle.la_call.specs.Calls.{IsAnswered, IsUnanswered};

use crate::CallFault;
use crate::asking::Asking;
use crate::words::{is_answer, is_waiting};
use la_io::{Next, Source, write_all};
use std::io::{Read, Write};

// What a line is for a request.
pub(crate) enum Heard {
    // It answers.
    Answer,
    // The interval has passed.
    Timeout,
    // It is another's, or it tells to wait.
    Other,
}

// What a line is that was taken.
fn hear(asking: &Asking, line: &[u8]) -> Heard
    requires { is_too_long line.now ≡ false }
    ensures { IsHeardAs (plan_in asking.now) line.now result }
{
    if is_answer(&asking.mark, line) && !is_waiting(line) {
        Heard::Answer
    } else if asking.waits && line == b"tick".as_slice() {
        Heard::Timeout
    } else {
        Heard::Other
    }
}

// Writes the request again, which was written so often. Answers how often it was by then.
fn write_again<W: Write>(asking: &Asking, tries: u16, output: &mut W) -> Result<u16, CallFault>
    requires { tries ≤ asking.now.most }
    ensures ok { IfOk result (WritesAgain (plan_in asking.now) (W.contents output.old) (W.contents output.new) tries) }
    ensures err { IfErr result (WritesNotAgain (plan_in asking.now) (W.contents output.old) (W.contents output.new) tries) }
{
    if tries == asking.most {
        return Err(CallFault::NoAnswer);
    }
    write_all(output, &asking.sent)?;
    Ok(tries + 1)
}

// Takes a line, where the request was written so often. Answers how often it was by then, or nothing where the line
// answers it.
fn step<R: Read, W: Write>(
    asking: &Asking,
    tries: u16,
    source: &mut Source,
    input: &mut R,
    output: &mut W,
) -> Result<Option<u16>, CallFault>
    requires few { tries ≤ asking.now.most }
    requires over { source.old.over ≡ true → IsAtEnd (ahead source.old (R.remaining input.old)) }
    ensures ok { IfOk result (Steps (plan_in asking.now) (placed R.remaining W.contents source.old input.old output.old) (placed R.remaining W.contents source.new input.new output.new) source.new.line.items tries) }
    ensures err { IfErr result (StepFails (plan_in asking.now) (placed R.remaining W.contents source.old input.old output.old) (placed R.remaining W.contents source.new input.new output.new) tries) }
    ensures over { source.new.over ≡ true → IsAtEnd (ahead source.new (R.remaining input.new)) }
{
    match source.next(input)? {
        Next::Line => match hear(asking, source.line.as_slice()) {
            Heard::Answer => Ok(None),
            Heard::Timeout => Ok(Some(write_again(asking, tries, output)?)),
            Heard::Other => Ok(Some(tries)),
        },
        Next::Long => Ok(Some(tries)),
        Next::Cut | Next::End => Err(CallFault::NoAnswer),
    }
}

// Writes the request, and reads lines until one answers it, which stays in the source.
pub(crate) fn await_answer<R: Read, W: Write>(
    asking: &Asking,
    source: &mut Source,
    input: &mut R,
    output: &mut W,
) -> Result<(), CallFault>
    requires over { source.old.over ≡ true → IsAtEnd (ahead source.old (R.remaining input.old)) }
    ensures ok { OnOk result (IsAnswered (plan_in asking.now) (placed R.remaining W.contents source.old input.old output.old) (placed R.remaining W.contents source.new input.new output.new) source.new.line.items) }
    ensures err { IfErr result (IsUnanswered (plan_in asking.now) (placed R.remaining W.contents source.old input.old output.old) (placed R.remaining W.contents source.new input.new output.new)) }
{
    write_all(output, &asking.sent)?;
    let mut tries = 1;
    for _ in 0..u64::MAX {
        match step(asking, tries, source, input, output)? {
            Some(now) => tries = now,
            None => return Ok(()),
        }
    }
    Err(CallFault::ReadFault)
}
