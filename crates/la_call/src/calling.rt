// A request is asked, and its answer printed.
ghost use Rattle.std.specs.Prelude.{◌≡◌, ◌++◌, ◌∷◌, [], IfOk, OnOk, OnErr};
ghost use Rattle.la_call.specs.Asking.{plan_in};
ghost use Rattle.la_call.specs.Calls.{plan_by};
ghost use Rattle.la_io.specs.Streams.{Writes, WritesPrefix};
ghost use Rattle.la_call.specs.Ends.{CallEnds, Prints, answer_status, handed};
ghost use Rattle.la_call.specs.Names.{name_by as name_for};

use crate::asking::Asking;
use crate::ending::{end_with, path_of};
use crate::forming::{ask, name_by};
use crate::waiting::await_answer;
use crate::words::is_refusal;
use crate::{CallFault, CallOptions};
use la_io::{Listener, Source, WriteFailed, put_bytes, write_all};
use std::alloc::{AllocError, Global};
use std::io::{Read, Write};

// The request with its name.
fn form(alloc: Global, options: &CallOptions, drawn: &[u8; 8]) -> Result<Asking, AllocError>
    ensures { IfOk result (λ a. plan_in a ≡ plan_by options.now (name_for options.now drawn.now)) }
{
    let name = name_by(alloc, options, drawn)?;
    ask(alloc, options, &name)
}

// Prints a line, and its end.
fn print<A: Write>(answers: &mut A, line: &[u8]) -> Result<(), WriteFailed>
    ensures ok { OnOk result (Writes A.contents answers.old answers.new (line.now ++ 10 ∷ [])) }
    ensures err { OnErr result (WritesPrefix A.contents answers.old answers.new (line.now ++ 10 ∷ [])) }
{
    put_bytes(answers, line)?;
    write_all(answers, b"\n")
}

fn status_behind(line: &[u8]) -> u8
    ensures { result ≡ answer_status line.now }
{
    if is_refusal(line) { 1 } else { 0 }
}

// Prints a line that answers. Answers the exit status.
fn finish<A: Write, E: Listener>(alloc: Global, line: &[u8], answers: &mut A, errors: &mut E) -> u8
    ensures { Prints E.contents E.refuses (A.contents answers.old) (A.contents answers.new) errors.old errors.new line.now result }
{
    match print(answers, line) {
        Ok(()) => status_behind(line),
        Err(WriteFailed) => end_with(alloc, CallFault::WriteFault, None, errors),
    }
}

/// Writes a request, and prints the first line of the input that answers it, whatever else is read before. The status is
/// 0, or 1 where the answer is a refusal.
///
/// The name is that of the options, or the hex digits of the bytes that were drawn. With a wait a line `tick` of the
/// input is a time-out: then the request is written again, where it may be and was written fewer times than the options
/// say, and else the call ends. What is read of the input behind the answer is lost.
///
/// Else a fault is told, behind its name the file that the options name: 6 and `NoAnswer` where the input or the waiting
/// ended; 4 and `ReadFault` at the first read that fails, and after 2^64-1 lines; 4 and `WriteFault` where not all of
/// the request or of the answer is written; 3 and `Memory` where a line finds no room.
pub fn call<R: Read, W: Write, A: Write, E: Listener>(
    alloc: Global,
    options: &CallOptions,
    drawn: &[u8; 8],
    input: &mut R,
    output: &mut W,
    answers: &mut A,
    errors: &mut E,
) -> u8
    ensures { CallEnds R.remaining W.contents A.contents E.contents E.refuses options.now drawn.now (handed input.old output.old answers.old errors.old) (handed input.new output.new answers.new errors.new) result }
{
    let Ok(asking) = form(alloc, options, drawn) else {
        return end_with(alloc, CallFault::Memory, None, errors);
    };
    let mut source = Source::new(alloc);
    match await_answer(&asking, &mut source, input, output) {
        Ok(()) => finish(alloc, source.line.as_slice(), answers, errors),
        Err(fault) => end_with(alloc, fault, path_of(options, fault), errors),
    }
}
