ghost use Rattle.std.specs.Prelude.{◌+◌, ◌<◌, ◌≤◌, ◌≡◌, [], length, true, false, IfOk, IfErr, OnOk, OnErr};
ghost use Rattle.std.specs.Io.KnownBytes.{IsAtEnd};
ghost use Rattle.la_journal.specs.Durable.{IsSettled};
ghost use Rattle.la_journal.specs.Staging.{moments_for};
ghost use Rattle.la_io.specs.Sources.{ahead, has_line};
ghost use Rattle.la_serve.specs.Io.{TakesLines, OnlyStages, step_at, at_flush, io};
ghost use Rattle.la_serve.specs.Faults.{IfDisk};
ghost use Rattle.la_serve.specs.declared.serving.TheConstants.{MOST_HELD};
ghost use Rattle.la_serve.specs.Serving.{StepsOn, StopsOn, of_step};
ghost use Rattle.la_serve.specs.Crashes.{CommitsSome, Flushes, FlushesOrNot, FlushesNot, ServesLines, Ceases};

use crate::answering::answer;
use crate::counting::count_sync;
use crate::{NodeFault, Output, Server};
use la_durable::NodeMachine;
use la_io::{Listener, Next, Paced, Source};
use la_journal::{Disk, Uncommitted, laws};
use la_object::Replicated;
use la_wire::{LineFault, tell_fault};
use std::alloc::Global;
use std::io::Write;

// From so many bytes on, what is held back goes out before the next line is taken, though more of them were read.
const MOST_HELD: usize = 4_194_304;

// Takes the next line, or answers that there is none. What it comes to is held back. It waits for a line only where
// nothing is.
fn step<R: Paced, E: Listener, D: Disk, B: Replicated>(
    alloc: Global,
    source: &mut Source,
    server: &mut Server<D, B>,
    number: u64,
    input: &mut R,
    held: &mut Vec<u8>,
    errors: &mut E,
) -> Result<bool, NodeFault>
    requires takes { TakesLines server.old }
    requires flushed { has_line source.old ≡ false → (held.old.items ≡ []) × (server.old.node.text.items ≡ []) }
    requires bound { length held.old.items < MOST_HELD }
    requires over { source.old.over ≡ true → IsAtEnd (ahead source.old (R.remaining input.old)) }
    ensures ok { IfOk result (StepsOn R.remaining E.contents E.refuses number (step_at source.old input.old held.old.items errors.old server.old) (step_at source.new input.new held.new.items errors.new server.new)) }
    ensures err { IfErr result (StopsOn R.remaining E.contents E.refuses number (step_at source.old input.old held.old.items errors.old server.old) (step_at source.new input.new held.new.items errors.new server.new)) }
    ensures over { source.new.over ≡ true → IsAtEnd (ahead source.new (R.remaining input.new)) }
    ensures stages { OnlyStages server.old server.new }
{
    match source.next(input)? {
        Next::Line => {
            answer(alloc, server, number, source.line.as_slice(), held, errors)?;
            if server.arrivals.take() {
                input.begin_anew();
            }
            Ok(true)
        }
        Next::Long => {
            tell_fault(errors, number, LineFault::TooLong, None, "");
            Ok(true)
        }
        Next::Cut => {
            tell_fault(errors, number, LineFault::BadLine, None, "");
            Ok(false)
        }
        Next::End => Ok(false),
    }
}

// Puts what was staged on the disk, and then writes what was held back.
fn flush<W: Write + Drop, D: Disk, B: Replicated>(
    server: &mut Server<D, B>,
    held: &mut Vec<u8>,
    output: &mut Output<W>,
) -> Result<(), NodeFault>
    requires settled { IsSettled D.seen D.may_leave server.old.node.durable.disk }
    requires unclosed { server.old.node.durable.closed ≡ false }
    ensures ok { OnOk result (Flushes D.seen D.may_leave D.moment D.left_since (at_flush W.contents output.old held.old.items server.old) (at_flush W.contents output.new held.new.items server.new)) }
    ensures err { IfErr result (FlushesNot D.seen D.may_leave D.moment (at_flush W.contents output.old held.old.items server.old) (at_flush W.contents output.new held.new.items server.new)) }
    ensures any_moment { CommitsSome D.seen D.moment D.left_since server.old.node.text.items server.old.node.durable.disk server.new.node.durable.disk }
    ensures settled { server.new.node.durable.closed ≡ false → IsSettled D.seen D.may_leave server.new.node.durable.disk }
    ensures unclosed { OnOk result (server.new.node.durable.closed ≡ false) }
    ensures same { (server.new.node.durable.machine ≡ server.old.node.durable.machine) × (server.new.shelf ≡ server.old.shelf) × (server.new.links ≡ server.old.links) }
    ensures later { D.faults server.old.node.durable.disk ≤ D.faults server.new.node.durable.disk }
    ensures failed { IfErr result (λ why. IfDisk why (D.faults server.old.node.durable.disk < D.faults server.new.node.durable.disk)) }
    ensures once { OnOk result (D.moment server.new.node.durable.disk ≡ D.moment server.old.node.durable.disk + moments_for server.old.node.text.items) }
{
    let bytes = server.node.text.len();
    match server.node.commit() {
        Ok(()) => {
            count_sync(&mut server.tally, bytes);
            output.give(&server.node.durable.disk, held)?;
            held.clear();
            Ok(())
        }
        Err(Uncommitted::Disk) | Err(Uncommitted::Closed) => Err(NodeFault::DiskFault),
    }
}

// The same, where the next line has still to be read, so that no answer waits for that, or where enough is held back.
fn prepare<W: Write + Drop, D: Disk, B: Replicated>(
    source: &Source,
    server: &mut Server<D, B>,
    held: &mut Vec<u8>,
    output: &mut Output<W>,
) -> Result<(), NodeFault>
    requires settled { IsSettled D.seen D.may_leave server.old.node.durable.disk }
    requires unclosed { server.old.node.durable.closed ≡ false }
    ensures ok { OnOk result (FlushesOrNot D.seen D.may_leave D.moment D.left_since (at_flush W.contents output.old held.old.items server.old) (at_flush W.contents output.new held.new.items server.new)) }
    ensures err { IfErr result (FlushesNot D.seen D.may_leave D.moment (at_flush W.contents output.old held.old.items server.old) (at_flush W.contents output.new held.new.items server.new)) }
    ensures any_moment { OnErr result (CommitsSome D.seen D.moment D.left_since server.old.node.text.items server.old.node.durable.disk server.new.node.durable.disk) }
    ensures settled { server.new.node.durable.closed ≡ false → IsSettled D.seen D.may_leave server.new.node.durable.disk }
    ensures unclosed { OnOk result (server.new.node.durable.closed ≡ false) }
    ensures flushed { OnOk result (has_line source.now ≡ false → (held.new.items ≡ []) × (server.new.node.text.items ≡ [])) }
    ensures bound { OnOk result (length held.new.items < MOST_HELD) }
    ensures same { (server.new.node.durable.machine ≡ server.old.node.durable.machine) × (server.new.shelf ≡ server.old.shelf) × (server.new.links ≡ server.old.links) }
    ensures later { D.faults server.old.node.durable.disk ≤ D.faults server.new.node.durable.disk }
    ensures failed { IfErr result (λ why. IfDisk why (D.faults server.old.node.durable.disk < D.faults server.new.node.durable.disk)) }
    ensures together { has_line source.now ≡ true → length held.old.items < MOST_HELD → server.new ≡ server.old }
{
    if source.has_line() && held.len() < MOST_HELD {
        return Ok(());
    }
    flush(server, held, output)
}

// What failed where a line found no room, or what is held back did.
fn of_step(fault: NodeFault) -> NodeFault
    ensures { result ≡ of_step fault }
{
    match fault {
        NodeFault::WriteFault => NodeFault::Memory,
        other => other,
    }
}

/// Takes the lines of an input as they come, until its end. What follows the last line's end is no line: it
/// is told as `BadLine`. What is written is exactly what they come to, and of a call that is kept
/// only once its line is on the disk: all calls that one read brought are put there together. Where a line is kept, or
/// comes from a replica that was silent, the input's ticks [begin anew](Paced::begin_anew). A crash at any moment
/// from when a text was given out leaves a journal that has all calls that were kept up to it. What faults are told may
/// find no taker, and then it goes on.
///
/// `ReadFault` comes at the first read that fails, and after 2^64-2 lines; `WriteFault` at a write that
/// fails, where a front of the text is out, and all lines are in the journal; `Memory`, with the same behind it, where
/// a line or what is written of it finds no room; `DiskFault` where the disk fails: nothing has gone out of the last
/// calls, and the journal is to be recovered.
pub fn serve<R: Paced, W: Write + Drop, E: Listener, D: Disk, B: Replicated>(
    alloc: Global,
    server: &mut Server<D, B>,
    input: &mut R,
    out: &mut Output<W>,
    errors: &mut E,
) -> Result<(), NodeFault>
    requires settled { IsSettled D.seen D.may_leave server.old.node.durable.disk }
    requires takes { TakesLines server.old }
    requires unstaged { server.old.node.text.items ≡ [] }
    ensures ok { OnOk result (ServesLines D.seen D.may_leave D.moment D.left_since R.remaining W.contents E.contents E.refuses (io input.old out.old errors.old) (io input.new out.new errors.new) server.old server.new) }
    ensures err { IfErr result (Ceases D.seen D.may_leave D.moment D.left_since R.remaining W.contents E.contents E.refuses (io input.old out.old errors.old) (io input.new out.new errors.new) server.old server.new) }
    ensures settled { server.new.node.durable.closed ≡ false → IsSettled D.seen D.may_leave server.new.node.durable.disk }
    ensures unclosed { OnOk result (server.new.node.durable.closed ≡ false) }
    ensures later { D.faults server.old.node.durable.disk ≤ D.faults server.new.node.durable.disk }
    ensures failed { IfErr result (λ why. IfDisk why (D.faults server.old.node.durable.disk < D.faults server.new.node.durable.disk)) }
{
    // a hint to the prover: what is left by one call after another
    laws::calls_follow_one_another::<NodeMachine, D>();
    let mut source = Source::new(alloc);
    let mut held = Vec::new(alloc);
    for number in 1..u64::MAX {
        prepare(&source, server, &mut held, out)?;
        match step(alloc, &mut source, server, number, input, &mut held, errors) {
            Ok(true) => {}
            Ok(false) => return flush(server, &mut held, out),
            Err(fault) => {
                flush(server, &mut held, out)?;
                return Err(of_step(fault));
            }
        }
    }
    flush(server, &mut held, out)?;
    Err(NodeFault::ReadFault)
}
