// What a node does with one line.
ghost use Rattle.std.specs.Prelude.{◌≡◌, ◌≤◌, true, false, None, length, IfOk, IfErr, OnOk, OnErr};
ghost use Rattle.la_set.specs.declared.update.Op.TheVariants as op;
ghost use Rattle.la_io.specs.Streams.{Writes, WritesPrefix, TellsAll};
ghost use Rattle.la_io.specs.Limits.{is_too_long};
ghost use Rattle.la_wire.specs.Calls.{called, Submit};
ghost use Rattle.la_wire.specs.CallLines.{call_line_text};
ghost use Rattle.la_durable.specs.Nodes.{kept_by};
ghost use Rattle.la_serve.specs.Asking.{IsAsking};
ghost use Rattle.la_serve.specs.Heard.{bare};
ghost use Rattle.la_serve.specs.Said.{said_text, may_be_taken};
ghost use Rattle.la_serve.specs.Turns.{known_after, is_note, is_elsewhere, IsKeptTurn, IsTurnOf, IsCallTurn, IsTurnHere};
ghost use Rattle.la_serve.specs.Turns.{IsKnownOf};
ghost use Rattle.la_serve.specs.Io.{io_of, TakesLines, OnlyStages};
ghost use Rattle.la_serve.specs.Serving.{OfLine, OfAsked, OfHeardAs, OfQuestion, OfRequested, OfTaking, IsStarvedLine};
ghost use Rattle.la_serve.specs.Serving.{TakesLine, Breaks, TellsNoLine};

use crate::asking::{Asking, Request, request_of, unawaited};
use crate::counting::{count_known, count_mail, count_received, count_refused};
use crate::keeping::{Kept, keep};
use crate::names::refusal_name;
use crate::questions::{is_own, said_to};
use crate::said::{Said, why_word};
use crate::saying::{said_again, said_here, said_to_call};
use crate::taking::taken_tags;
use crate::texts::text_of;
use crate::{Arrivals, NodeFault, Server};
use la_durable::{Input, NodeMachine};
use la_io::{Listener, WriteFailed, write_lines};
use la_journal::Disk;
use la_node::{Links, Sending};
use la_object::Replicated;
use la_set::{Op, Tags};
use la_wire::{
    Call, LineError, MAX_NAME, NumberedCall, Question, Take, Tally, refuse, request_in, tell_fault,
    write, wrong_part,
};
use std::alloc::{AllocError, Global};
use std::io::Write;

// Whether a line is passed over: it is empty, or a note.
fn is_note(line: &[u8]) -> bool
    ensures { result ≡ is_note line.now }
{
    match line.first() {
        Some(first) => *first == b'#',
        None => true,
    }
}

// Whether a call is for another node.
fn is_elsewhere(machine: &NodeMachine, call: &Call) -> bool
    ensures { result ≡ is_elsewhere (kept_by machine.now) (called call.now) }
{
    let own = machine.node.own();
    match call {
        Call::Submit { replica, .. } | Call::Decide { replica, .. } | Call::Ask { replica, .. } => {
            *replica != own
        }
        Call::Receive(letter) => {
            letter.replicas != machine.node.replicas() || letter.parcel.to != own
        }
        Call::Known(standing) => {
            standing.replicas != machine.node.replicas() || standing.to != own
        }
        Call::Tick => false,
    }
}

// Takes note of how far the replica of this group is that a call comes from.
fn hear(links: &mut Links, machine: &NodeMachine, call: &Call)
    ensures { links.new ≡ known_after (kept_by machine.now) links.old (called call.now) }
{
    let replicas = machine.node.replicas();
    match call {
        Call::Receive(letter) if letter.replicas == replicas => {
            links.hear(letter.parcel.from, letter.progress);
        }
        Call::Known(standing) if standing.replicas == replicas => {
            if standing.to == machine.node.own() {
                links.hear_answer(standing);
            } else {
                links.hear(standing.from, standing.progress);
            }
        }
        _ => {}
    }
}

// Takes note of whom the call comes from, if that is another replica of this group, or of a tick.
fn notice(arrivals: &mut Arrivals, machine: &NodeMachine, call: &Call) {
    let replicas = machine.node.replicas();
    let from = match call {
        Call::Tick => return arrivals.tick(),
        Call::Receive(letter) if letter.replicas == replicas => letter.parcel.from,
        Call::Known(standing) if standing.replicas == replicas => standing.from,
        _ => return,
    };
    if from != machine.node.own() {
        arrivals.hear(from);
    }
}

// A call that is kept: its line is staged.
fn take<W: Write, D: Disk, B: Replicated>(
    alloc: Global,
    server: &mut Server<D, B>,
    asking: Asking<'_>,
    input: &Input,
    output: &mut W,
) -> Result<(), NodeFault>
    requires takes { TakesLines server.old }
    requires short { length asking.name.now ≤ MAX_NAME }
    ensures ok { OnOk result (TakesLine (OfAsked asking.entry input.now (λ _. IsKeptTurn)) TellsNoLine (io_of (W.contents output.old) server.old) (io_of (W.contents output.new) server.new)) }
    ensures err { IfErr result (Breaks (OfAsked asking.entry input.now (λ _. IsKeptTurn)) TellsNoLine (io_of (W.contents output.old) server.old) (io_of (W.contents output.new) server.new)) }
    ensures stages { OnlyStages server.old server.new }
{
    let Server {
        node,
        links,
        tally,
        arrivals,
        ..
    } = server;
    let own = node.durable.machine.node.own();
    let before = node.durable.machine.node.view().len();
    match keep(alloc, node, input) {
        Kept::Taken(given) => {
            arrivals.keep();
            count_mail(&mut tally.sent, links, &given.done.mail, Sending::Call);
            match text_of(
                alloc,
                &node.durable.machine,
                links,
                before,
                input.call(),
                asking.name,
                &given,
            ) {
                Ok(text) => {
                    write_lines(output, &text)?;
                    Ok(())
                }
                Err(_) => Err(NodeFault::Memory),
            }
        }
        Kept::Refused(refusal) => {
            count_refused(tally);
            refuse(
                output,
                own,
                asking.number,
                refusal_name(refusal),
                asking.name,
            )?;
            Ok(())
        }
    }
}

// Writes it.
fn put<W: Write>(
    output: &mut W,
    tally: &mut Tally,
    own: u8,
    asking: Asking<'_>,
    said: &Said,
) -> Result<(), WriteFailed>
    requires { length asking.name.now ≤ MAX_NAME }
    ensures ok { OnOk result (Writes W.contents output.old output.new (said_text own asking.entry.number asking.entry.name.now said.now)) }
    ensures err { OnErr result (WritesPrefix W.contents output.old output.new (said_text own asking.entry.number asking.entry.name.now said.now)) }
{
    match said {
        Said::Lines(text) => write_lines(output, text),
        Said::Refused(why) => {
            count_refused(tally);
            refuse(output, own, asking.number, why_word(*why), asking.name)
        }
    }
}

// A call that may be taken: what is said of it instead, or it is taken.
fn take_or_say<W: Write, D: Disk, B: Replicated>(
    alloc: Global,
    server: &mut Server<D, B>,
    asking: Asking<'_>,
    input: &Input,
    output: &mut W,
) -> Result<(), NodeFault>
    requires takes { TakesLines server.old }
    requires asked { (length asking.name.now ≤ MAX_NAME) × (may_be_taken (called input.now.call) ≡ true) }
    ensures ok { OnOk result (TakesLine (OfAsked asking.entry input.now IsTurnHere) TellsNoLine (io_of (W.contents output.old) server.old) (io_of (W.contents output.new) server.new)) }
    ensures err { IfErr result (Breaks (OfAsked asking.entry input.now IsTurnHere) TellsNoLine (io_of (W.contents output.old) server.old) (io_of (W.contents output.new) server.new)) }
    ensures stages { OnlyStages server.old server.new }
{
    let Server {
        node,
        shelf,
        tally,
        ..
    } = &mut *server;
    let machine = &node.durable.machine;
    match said_here(alloc, machine, shelf, asking, input.call()) {
        Some(said) => {
            if let Call::Receive(_) = input.call() {
                count_known(&mut tally.sent);
            }
            put(output, tally, machine.node.own(), asking, &said)?;
            Ok(())
        }
        None => take(alloc, server, asking, input, output),
    }
}

// How far another replica is: where it lacks what a letter was told over, it is told that.
fn mend<W: Write, D: Disk, B: Replicated>(
    alloc: Global,
    server: &mut Server<D, B>,
    asking: Asking<'_>,
    input: &Input,
    replica: u8,
    output: &mut W,
) -> Result<(), NodeFault>
    requires { TakesLines server.old × (length asking.name.now ≤ MAX_NAME) × IsKnownOf replica (called input.now.call) }
    ensures ok { OnOk result (TakesLine (OfAsked asking.entry input.now IsTurnHere) TellsNoLine (io_of (W.contents output.old) server.old) (io_of (W.contents output.new) server.new)) }
    ensures err { IfErr result (Breaks (OfAsked asking.entry input.now IsTurnHere) TellsNoLine (io_of (W.contents output.old) server.old) (io_of (W.contents output.new) server.new)) }
    ensures stages { OnlyStages server.old server.new }
{
    let Server {
        node,
        links,
        tally,
        ..
    } = server;
    if !links.is_lacked(replica) {
        return Ok(());
    }
    let machine = &node.durable.machine;
    let over = *links;
    let said = said_again(
        alloc,
        machine,
        links,
        over,
        Sending::Lack(replica),
        &mut tally.sent,
    );
    put(output, tally, machine.node.own(), asking, &said)?;
    Ok(())
}

// A call that is not passed over.
fn call_here<W: Write, D: Disk, B: Replicated>(
    alloc: Global,
    server: &mut Server<D, B>,
    asking: Asking<'_>,
    input: &Input,
    output: &mut W,
) -> Result<(), NodeFault>
    requires takes { TakesLines server.old }
    requires short { length asking.name.now ≤ MAX_NAME }
    ensures ok { OnOk result (TakesLine (OfAsked asking.entry input.now IsTurnHere) TellsNoLine (io_of (W.contents output.old) server.old) (io_of (W.contents output.new) server.new)) }
    ensures err { IfErr result (Breaks (OfAsked asking.entry input.now IsTurnHere) TellsNoLine (io_of (W.contents output.old) server.old) (io_of (W.contents output.new) server.new)) }
    ensures stages { OnlyStages server.old server.new }
{
    match input.call() {
        Call::Ask { object, query, .. } => {
            let Server {
                node,
                shelf,
                tally,
                ..
            } = server;
            let machine = &node.durable.machine;
            let said = said_to_call(alloc, machine, shelf, asking, (*object, query));
            put(output, tally, machine.node.own(), asking, &said)?;
            Ok(())
        }
        Call::Tick => {
            let Server {
                node,
                links,
                tally,
                ..
            } = server;
            let machine = &node.durable.machine;
            let asked = links.asked(machine.node.progress());
            let said = said_again(
                alloc,
                machine,
                links,
                asked,
                Sending::Timer,
                &mut tally.sent,
            );
            put(output, tally, machine.node.own(), asking, &said)?;
            Ok(())
        }
        Call::Known(standing) => mend(alloc, server, asking, input, standing.from, output),
        Call::Submit { .. } => take_or_say(alloc, server, asking, input, output),
        Call::Decide { .. } => take_or_say(alloc, server, asking, input, output),
        Call::Receive(_) => take_or_say(alloc, server, asking, input, output),
    }
}

// A call of which it was heard how far its sender is.
fn call_heard<W: Write, D: Disk, B: Replicated>(
    alloc: Global,
    server: &mut Server<D, B>,
    asking: Asking<'_>,
    input: &Input,
    output: &mut W,
) -> Result<(), NodeFault>
    requires takes { TakesLines server.old }
    requires short { length asking.name.now ≤ MAX_NAME }
    ensures ok { OnOk result (TakesLine (OfAsked asking.entry input.now IsTurnOf) TellsNoLine (io_of (W.contents output.old) server.old) (io_of (W.contents output.new) server.new)) }
    ensures err { IfErr result (Breaks (OfAsked asking.entry input.now IsTurnOf) TellsNoLine (io_of (W.contents output.old) server.old) (io_of (W.contents output.new) server.new)) }
    ensures stages { OnlyStages server.old server.new }
{
    if is_elsewhere(&server.node.durable.machine, input.call()) {
        return Ok(());
    }
    call_here(alloc, server, asking, input, output)
}

// A line that says a call.
fn call<W: Write, D: Disk, B: Replicated>(
    alloc: Global,
    server: &mut Server<D, B>,
    asking: Asking<'_>,
    input: &Input,
    output: &mut W,
) -> Result<(), NodeFault>
    requires takes { TakesLines server.old }
    requires short { length asking.name.now ≤ MAX_NAME }
    ensures ok { OnOk result (TakesLine (OfAsked asking.entry input.now IsCallTurn) TellsNoLine (io_of (W.contents output.old) server.old) (io_of (W.contents output.new) server.new)) }
    ensures err { IfErr result (Breaks (OfAsked asking.entry input.now IsCallTurn) TellsNoLine (io_of (W.contents output.old) server.old) (io_of (W.contents output.new) server.new)) }
    ensures stages { OnlyStages server.old server.new }
{
    let Server {
        node,
        links,
        tally,
        arrivals,
        ..
    } = &mut *server;
    hear(links, &node.durable.machine, input.call());
    notice(arrivals, &node.durable.machine, input.call());
    count_received(&mut tally.received, input.call());
    call_heard(alloc, server, asking, input, output)
}

// Refuses a line for want of memory.
fn starve<W: Write, D: Disk, B: Replicated>(
    server: &Server<D, B>,
    asking: Asking<'_>,
    output: &mut W,
) -> Result<(), NodeFault>
    requires { IsAsking asking }
    ensures ok { OnOk result (TakesLine (IsStarvedLine asking.entry.line.now asking.entry.number) TellsNoLine (io_of (W.contents output.old) server.now) (io_of (W.contents output.new) server.now)) }
    ensures err { IfErr result (Breaks (IsStarvedLine asking.entry.line.now asking.entry.number) TellsNoLine (io_of (W.contents output.old) server.now) (io_of (W.contents output.new) server.now)) }
{
    let own = server.node.durable.machine.node.own();
    refuse(output, own, asking.number, "Memory", asking.name)?;
    Ok(())
}

// A line that was heard, by what it calls for.
fn heard<W: Write, E: Listener, D: Disk, B: Replicated>(
    alloc: Global,
    server: &mut Server<D, B>,
    asking: Asking<'_>,
    line: &[u8],
    output: &mut W,
    errors: &mut E,
) -> Result<(), NodeFault>
    requires { TakesLines server.old × IsAsking asking }
    ensures ok { OnOk result (TakesLine (OfHeardAs asking.entry line.now) (TellsAll E.contents E.refuses errors.old errors.new) (io_of (W.contents output.old) server.old) (io_of (W.contents output.new) server.new)) }
    ensures err { IfErr result (Breaks (OfHeardAs asking.entry line.now) (TellsAll E.contents E.refuses errors.old errors.new) (io_of (W.contents output.old) server.old) (io_of (W.contents output.new) server.new)) }
    ensures stages { OnlyStages server.old server.new }
{
    match Input::read(alloc, line) {
        Ok(input) => {
            // a hint to the prover: what the input says
            let _call = input.call();
            call(alloc, server, asking, &input, output)
        }
        Err(LineError::Fault(fault)) => match wrong_part(alloc, fault, line) {
            Ok(wrong) => {
                tell_fault(errors, asking.number, fault, wrong, asking.name);
                Ok(())
            }
            Err(_) => starve(server, asking, output),
        },
        Err(LineError::Memory) => starve(server, asking, output),
    }
}

// A question that no call says.
fn question<W: Write, D: Disk, B: Replicated>(
    alloc: Global,
    server: &mut Server<D, B>,
    asking: Asking<'_>,
    question: Question,
    output: &mut W,
) -> Result<(), NodeFault>
    requires takes { TakesLines server.old }
    requires asked { IsAsking asking }
    ensures ok { OnOk result (TakesLine (OfQuestion asking.entry.line.now question asking.entry.number) TellsNoLine (io_of (W.contents output.old) server.old) (io_of (W.contents output.new) server.new)) }
    ensures err { IfErr result (Breaks (OfQuestion asking.entry.line.now question asking.entry.number) TellsNoLine (io_of (W.contents output.old) server.old) (io_of (W.contents output.new) server.new)) }
    ensures stages { OnlyStages server.old server.new }
{
    let Server {
        node,
        shelf,
        links,
        tally,
        ..
    } = server;
    let machine = &node.durable.machine;
    let own = machine.node.own();
    if !is_own(machine, question) {
        return Ok(());
    }
    let said = said_to(alloc, machine, links, tally, shelf, asking, question);
    put(output, tally, own, asking, &said)?;
    Ok(())
}

// What takes an element out, as the remove that it is.
fn take_out<W: Write, E: Listener, D: Disk, B: Replicated>(
    alloc: Global,
    server: &mut Server<D, B>,
    asking: Asking<'_>,
    take: Take,
    output: &mut W,
    errors: &mut E,
) -> Result<(), NodeFault>
    requires { TakesLines server.old × IsAsking asking }
    ensures ok { OnOk result (TakesLine (OfTaking asking.entry take) (TellsAll E.contents E.refuses errors.old errors.new) (io_of (W.contents output.old) server.old) (io_of (W.contents output.new) server.new)) }
    ensures err { IfErr result (Breaks (OfTaking asking.entry take) (TellsAll E.contents E.refuses errors.old errors.new) (io_of (W.contents output.old) server.old) (io_of (W.contents output.new) server.new)) }
    ensures stages { OnlyStages server.old server.new }
{
    let Server {
        node,
        shelf,
        tally,
        ..
    } = &mut *server;
    let machine = &node.durable.machine;
    match taken_tags(alloc, machine, shelf, take) {
        Ok(tags) => {
            // a hint to the prover: they are no more than a remove may name
            let _few = tags.len();
            let Ok(line) = remove_line(alloc, take, tags) else {
                return starve(server, asking, output);
            };
            let update = take.number;
            heard(
                alloc,
                server,
                Asking { update, ..asking },
                &line,
                output,
                errors,
            )
        }
        Err(why) => {
            put(
                output,
                tally,
                machine.node.own(),
                asking,
                &Said::Refused(why),
            )?;
            Ok(())
        }
    }
}

// The remove that a take is.
fn remove_line(alloc: Global, take: Take, tags: Tags) -> Result<Vec<u8>, AllocError>
    ensures { IfOk result (λ line. line.items ≡ call_line_text (Submit take.replica take.object (op.Remove tags))) }
{
    let call = Call::Submit {
        replica: take.replica,
        object: take.object,
        op: Op::Remove(tags),
    };
    write(alloc, &call)
}

// A line without its name and without what it waits for.
fn respond<W: Write, E: Listener, D: Disk, B: Replicated>(
    alloc: Global,
    server: &mut Server<D, B>,
    asking: Asking<'_>,
    line: &[u8],
    output: &mut W,
    errors: &mut E,
) -> Result<(), NodeFault>
    requires { TakesLines server.old × IsAsking asking × (line.now ≡ bare asking.line.now) × (asking.update ≡ None) }
    ensures ok { OnOk result (TakesLine (OfRequested asking.entry) (TellsAll E.contents E.refuses errors.old errors.new) (io_of (W.contents output.old) server.old) (io_of (W.contents output.new) server.new)) }
    ensures err { IfErr result (Breaks (OfRequested asking.entry) (TellsAll E.contents E.refuses errors.old errors.new) (io_of (W.contents output.old) server.old) (io_of (W.contents output.new) server.new)) }
    ensures stages { OnlyStages server.old server.new }
{
    match request_of(alloc, line) {
        Ok(Request::Question(asked)) => question(alloc, server, asking, asked, output),
        Ok(Request::Take(take)) => take_out(alloc, server, asking, take, output, errors),
        Ok(Request::Numbered(NumberedCall { number, plain })) => {
            let update = Some(number);
            heard(
                alloc,
                server,
                Asking { update, ..asking },
                &plain,
                output,
                errors,
            )
        }
        Ok(Request::Plain) => heard(alloc, server, asking, line, output, errors),
        Err(_) => starve(server, asking, output),
    }
}

/// Takes line `number` of an input, which has no more bytes than [`la_io::limit_of`] says, without its end. Where it is
/// kept it is staged, as what it calls for alone: what is written of it may go out only once that is committed.
///
/// `WriteFault` comes where a write fails, and `Memory` where the lines find no room: then a front of
/// them is written, and the call is staged.
pub fn answer<W: Write, E: Listener, D: Disk, B: Replicated>(
    alloc: Global,
    server: &mut Server<D, B>,
    number: u64,
    line: &[u8],
    output: &mut W,
    errors: &mut E,
) -> Result<(), NodeFault>
    requires short { is_too_long line.now ≡ false }
    requires takes { TakesLines server.old }
    ensures ok { OnOk result (TakesLine (OfLine line.now number) (TellsAll E.contents E.refuses errors.old errors.new) (io_of (W.contents output.old) server.old) (io_of (W.contents output.new) server.new)) }
    ensures err { IfErr result (Breaks (OfLine line.now number) (TellsAll E.contents E.refuses errors.old errors.new) (io_of (W.contents output.old) server.old) (io_of (W.contents output.new) server.new)) }
    ensures stages { OnlyStages server.old server.new }
{
    if is_note(line) {
        return Ok(());
    }
    let request = request_in(line);
    let mut asking = Asking {
        number,
        line,
        name: request.name,
        update: None,
        after: None,
    };
    match unawaited(alloc, request.call) {
        Ok((bare, after)) => {
            asking.after = after;
            respond(alloc, server, asking, bare, output, errors)
        }
        Err(_) => {
            let own = server.node.durable.machine.node.own();
            refuse(output, own, number, "Memory", asking.name)?;
            Ok(())
        }
    }
}
