ghost use Rattle.std.specs.Prelude.{◌≡◌, ◌⊎◌, ◌≤◌, take, true, string_bytes, IfOk};
ghost use Rattle.la_set.specs.Histories.{empty};
ghost use Rattle.la_object.specs.Objects.{start};
ghost use Rattle.la_io.specs.Streams.{TellsLine, TellsAll};
ghost use Rattle.la_durable.specs.Nodes.{kept_by};
ghost use Rattle.la_node.specs.Links.{links_over};
ghost use Rattle.la_replica.specs.Progress.{progress_of};
ghost use Rattle.la_serve.specs.Faults.{of_journal, start_fault, space_count, option_at};
ghost use Rattle.la_serve.specs.Ending.{node_status, end_line, end_line_at, end_detail, is_of_folder};
ghost use Rattle.la_serve.specs.Ending.{no_journal_line, no_journal_short, ServerEnds};
ghost use Rattle.la_serve.specs.Io.{io};
ghost use Rattle.la_serve.specs.Starting.{Starts, torn_told, unsaid_told};

use crate::compacting::{compact_grown, is_grown};
use crate::names::{cause_name, end_name, option_name};
use crate::serving::serve;
use crate::shelf::shelf_of;
use crate::{Arrivals, Ended, NodeFault, NodeOption, Options, Output, Server};
use arrayvec::ArrayString;
use itoa::Buffer;
use la_durable::{NodeError, NodeMachine};
use la_io::{Listener, Paced, tell_all};
use la_journal::{Disk, Durable, Machine, Staged, Unplayed, recover};
use la_node::{Links, WorldError};
use la_object::{Counter, Kind, MaxRegister, Replicated, Shelf};
use la_orset::OrSet;
use la_wire::Tally;
use std::alloc::{AllocError, Global};
use std::io::{ErrorKind, Write};

// What is told where a folder has no journal.
const NOTHING_HERE: &str =
    ": nothing here: mount its disk; if it is lost, never run this replica again; a first start is 'lattice init'";

// The longest line is that of a folder without a journal.
type Line = ArrayString<128>;

// The exit status after a fault.
fn status_of(fault: NodeFault) -> u8
    ensures { result ≡ node_status fault }
{
    match fault {
        NodeFault::BadConfig => 2,
        NodeFault::Memory => 3,
        NodeFault::ReadFault | NodeFault::WriteFault => 4,
        NodeFault::NoJournal
        | NodeFault::JournalThere
        | NodeFault::Locked
        | NodeFault::BadJournal(_)
        | NodeFault::OtherOptions(_)
        | NodeFault::DiskFault
        | NodeFault::StartFault(_) => 5,
    }
}

/// The exit status after a fault, which is told.
pub fn end_with<E: Listener>(fault: NodeFault, errors: &mut E) -> u8
    ensures status { result ≡ node_status fault }
    ensures told { TellsLine E.contents E.refuses errors.old errors.new (end_line fault) }
{
    let line = end_line(fault);
    let _ = tell_all(errors, line.as_str().as_bytes());
    status_of(fault)
}

/// The exit status after a fault, which is told; a fault of the journal or its disk with the folder, where there is memory
/// for that.
pub fn end_at<E: Listener>(alloc: Global, fault: NodeFault, folder: &str, errors: &mut E) -> u8
    ensures status { result ≡ node_status fault }
    ensures told { TellsLine E.contents E.refuses errors.old errors.new (end_line_at folder.now fault)
        ⊎ TellsLine E.contents E.refuses errors.old errors.new (end_line fault) }
{
    if status_of(fault) != 5 {
        return end_with(fault, errors);
    }
    match folder_line(alloc, fault, folder) {
        Ok(line) => {
            let _ = tell_all(errors, &line);
            status_of(fault)
        }
        Err(_) => end_with(fault, errors),
    }
}

// The line that tells of a fault of this folder.
fn folder_line(alloc: Global, fault: NodeFault, folder: &str) -> Result<Vec<u8>, AllocError>
    requires { is_of_folder fault ≡ true }
    ensures { IfOk result (λ line. line.items ≡ end_line_at folder.now fault) }
{
    let mut line = Vec::new(alloc);
    line.extend_from_slice(end_name(fault).as_bytes())?;
    line.extend_from_slice(b": ")?;
    line.extend_from_slice(folder.as_bytes())?;
    line.extend_from_slice(end_detail(fault).as_str().as_bytes())?;
    line.push(b'\n')?;
    Ok(line)
}

// The line that tells of a fault.
fn end_line(fault: NodeFault) -> Line
    ensures { result.bytes ≡ end_line fault }
{
    let mut line = Line::new();
    line.push_str(end_name(fault));
    line.push_str(end_detail(fault).as_str());
    line.push_str("\n");
    line
}

// What is told behind a fault's name.
fn end_detail(fault: NodeFault) -> ArrayString<115>
    ensures { result.bytes ≡ end_detail fault }
{
    let mut detail = ArrayString::new();
    match fault {
        NodeFault::NoJournal => detail.push_str(NOTHING_HERE),
        NodeFault::BadJournal(line) => {
            detail.push_str(": line ");
            detail.push_str(Buffer::new().format(line));
        }
        NodeFault::OtherOptions(option) => {
            detail.push_str(": ");
            detail.push_str(option_name(option));
        }
        NodeFault::StartFault(bytes) => {
            detail.push_str(": needs ");
            detail.push_str(Buffer::new().format(bytes));
            detail.push_str(" bytes");
        }
        _ => {}
    }
    detail
}

// Tells how many bytes of a last group were cut, where a crash left some.
fn tell_cut<E: Listener>(cut: usize, errors: &mut E)
    ensures { TellsAll E.contents E.refuses errors.old errors.new (torn_told cut) }
{
    if cut > 0 {
        let mut line = Line::new();
        line.push_str("cut ");
        line.push_str(Buffer::new().format(cut));
        line.push_str("\n");
        let _ = tell_all(errors, line.as_str().as_bytes());
    }
}

// Tells that a journal was to be compacted, and that no text says its state.
fn tell_unsaid<E: Listener>(unsaid: bool, errors: &mut E)
    ensures { TellsAll E.contents E.refuses errors.old errors.new (unsaid_told unsaid) }
{
    if unsaid {
        let _ = tell_all(errors, b"uncompacted\n");
    }
}

// The line that tells why a folder can't be opened.
fn no_journal_line(alloc: Global, folder: &str, kind: ErrorKind) -> Result<Vec<u8>, AllocError>
    ensures { IfOk result (λ line. line.items ≡ no_journal_line folder.now kind) }
{
    let mut line = Vec::new(alloc);
    line.extend_from_slice(b"NoJournal: ")?;
    line.extend_from_slice(folder.as_bytes())?;
    line.extend_from_slice(b": ")?;
    line.extend_from_slice(cause_name(kind).as_bytes())?;
    line.push(b'\n')?;
    Ok(line)
}

/// The exit status where a node's folder can't be opened, for an error of this kind, which is told behind `NoJournal` and
/// the folder; without the folder, where there is no memory for the line. `ResourceBusy` is told of a folder that another
/// process has.
pub fn end_without_journal<E: Listener>(
    alloc: Global,
    folder: &str,
    kind: ErrorKind,
    errors: &mut E,
) -> u8
    ensures status { result ≡ 5 }
    ensures told { TellsLine E.contents E.refuses errors.old errors.new (no_journal_line folder.now kind)
        ⊎ TellsLine E.contents E.refuses errors.old errors.new (no_journal_short kind) }
{
    match no_journal_line(alloc, folder, kind) {
        Ok(line) => {
            let _ = tell_all(errors, &line);
        }
        Err(_) => {
            let mut line = Line::new();
            line.push_str("NoJournal: ");
            line.push_str(cause_name(kind));
            line.push_str("\n");
            let _ = tell_all(errors, line.as_str().as_bytes());
        }
    }
    5
}

// Why a node does not begin whose journal was not played, by the head of its own. A line that finds no room says
// nothing against the journal.
fn fault_of(why: Unplayed<NodeError>, head: &[u8], replicas: u8, found: usize) -> NodeFault
    ensures { result ≡ of_journal head.now replicas found why }
{
    match why {
        Unplayed::Memory | Unplayed::Refused(_, NodeError::Memory) => NodeFault::Memory,
        Unplayed::Disk => start_fault(found),
        Unplayed::NoHead => NodeFault::BadJournal(1),
        Unplayed::NoState(line)
        | Unplayed::NoCall(line)
        | Unplayed::Misplaced(line)
        | Unplayed::Refused(line, _)
        | Unplayed::Damaged(line) => NodeFault::BadJournal(line),
        Unplayed::OtherHead(place) => {
            let spaces = space_count(&head[..place.min(head.len())]);
            NodeFault::OtherOptions(option_at(spaces, usize::from(replicas)))
        }
    }
}

// The disk failed at a start on so many bytes.
fn start_fault(found: usize) -> NodeFault
    ensures { result ≡ start_fault found }
{
    if found == 0 {
        NodeFault::DiskFault
    } else {
        NodeFault::StartFault(found)
    }
}

// How many spaces there are.
fn space_count(bytes: &[u8]) -> usize
    ensures { result ≡ space_count bytes.now }
{
    let mut count = 0;
    for b in bytes {
        if *b == b' ' {
            count += 1;
        }
    }
    count
}

// The option that a head says behind so many spaces, of a group of so many replicas.
fn option_at(spaces: usize, replicas: usize) -> NodeOption
    requires { replicas ≤ 255 }
    ensures { result ≡ option_at spaces replicas }
{
    if spaces < 2 {
        NodeOption::Version
    } else if spaces < 4 {
        NodeOption::Own
    } else if spaces < 6 {
        NodeOption::Replicas
    } else if spaces < replicas + 7 {
        NodeOption::Votes
    } else if spaces < replicas + 9 {
        NodeOption::Commits
    } else {
        NodeOption::Cap
    }
}

// The disk of a journal that is let go.
fn disk_of<D: Disk>(durable: Durable<NodeMachine, D>) -> D
    ensures { result ≡ durable.disk }
{
    let Durable { disk, .. } = durable;
    disk
}

// The node, until its input ends, and the disk then.
fn start<R: Paced, W: Write + Drop, E: Listener, D: Disk, B: Replicated>(
    alloc: Global,
    options: &Options,
    shelf: Shelf<B>,
    found: Vec<u8>,
    disk: D,
    input: &mut R,
    out: &mut Output<W>,
    errors: &mut E,
) -> (Result<(), NodeFault>, D)
    requires { (shelf.view ≡ empty) × (D.seen disk ≡ found.items) }
    ensures { Starts D.seen D.may_leave D.moment D.left_since D.faults R.remaining W.contents E.contents E.refuses shelf options.now disk (io input.old out.old errors.old) (io input.new out.new errors.new) result.0 result.1 }
{
    let machine = match NodeMachine::new(alloc, options.config, options.own) {
        Ok(machine) => machine,
        Err(WorldError::Memory) => return (Err(NodeFault::Memory), disk),
        Err(_) => return (Err(NodeFault::BadConfig), disk),
    };
    let Ok(head) = machine.head(alloc) else {
        return (Err(NodeFault::Memory), disk);
    };
    let found_count = found.len();
    match recover(alloc, machine, found, disk) {
        Ok(mut durable) => {
            let cut = durable.cut;
            let grown = is_grown(options.compact, found_count);
            let unsaid = match compact_grown(alloc, grown, &mut durable) {
                Ok(unsaid) => unsaid,
                Err(fault) => return (Err(fault), disk_of(durable)),
            };
            tell_cut(cut, errors);
            tell_unsaid(unsaid, errors);
            let node = Staged::new(alloc, durable);
            let links = links_at_start(&node.durable.machine);
            let mut server = Server {
                node,
                shelf,
                links,
                tally: Tally::none(),
                arrivals: Arrivals::none(),
            };
            let served = serve(alloc, &mut server, input, out, errors);
            (served, server.into_disk())
        }
        Err((why, disk)) => {
            let fault = fault_of(why, &head, options.config.replicas, found_count);
            (Err(fault), disk)
        }
    }
}

// What a node that was started knows of others.
fn links_at_start(machine: &NodeMachine) -> Links
    ensures { result ≡ links_over (progress_of (kept_by machine.now)) }
{
    Links::over(machine.node.progress())
}

// An object in the start state of its kind.
fn new_of<B: Replicated>(kind: Kind, object: B) -> B
    requires { B.state object ≡ start kind }
    ensures { B.state result ≡ start kind }
{
    object
}

// The node with objects that are made for it, until its input ends.
fn run_with<
    R: Paced,
    W: Write + Drop,
    E: Listener,
    D: Disk,
    B: Replicated,
    F: Fn(Kind) -> Result<B, AllocError>,
>(
    alloc: Global,
    options: &Options,
    found: Vec<u8>,
    disk: D,
    input: &mut R,
    out: &mut Output<W>,
    errors: &mut E,
    make: F,
) -> Ended<D>
    requires found { D.seen disk ≡ found.items }
    requires callable { F.IsAlwaysCallable make }
    requires made { (kind made : _) → F.post make kind made → IfOk made (λ o. B.state o ≡ start kind) }
    ensures { ServerEnds D.seen D.may_leave D.moment D.left_since D.faults R.remaining W.contents E.contents E.refuses
        options.now disk (io input.old out.old errors.old) (io input.new out.new errors.new) result }
{
    let Ok(shelf) = shelf_of(alloc, &options.objects, make) else {
        return ended(alloc, options, NodeFault::Memory, disk, errors);
    };
    match start(alloc, options, shelf, found, disk, input, out, errors) {
        (Ok(()), disk) => Ended { status: 0, disk },
        (Err(fault), disk) => ended(alloc, options, fault, disk, errors),
    }
}

// The end by a fault, which is told.
fn ended<E: Listener, D: Drop>(
    alloc: Global,
    options: &Options,
    fault: NodeFault,
    disk: D,
    errors: &mut E,
) -> Ended<D>
    ensures status { result.status ≡ node_status fault }
    ensures disk { result.disk ≡ disk }
    ensures told { TellsLine E.contents E.refuses errors.old errors.new
        (end_line_at (string_bytes options.now.folder) fault)
        ⊎ TellsLine E.contents E.refuses errors.old errors.new (end_line fault) }
{
    Ended {
        status: end_at(alloc, fault, options.folder.as_str(), errors),
        disk,
    }
}

/// The command over any streams and any journal, of which the bytes were found: its exit status, and what became of the
/// disk. Its shelf has the objects of the options. A journal that has as many kibibytes as the options say is compacted
/// first.
///
/// A crash at any moment from when a text was given out leaves a journal that has all calls that were kept up to it
/// (`keeps` of `Leaves`, in `specs/Crashes`): whoever starts there goes on from what was written
/// ([`laws`](crate::laws)).
pub fn run<R: Paced, W: Write + Drop, E: Listener, D: Disk>(
    alloc: Global,
    options: &Options,
    found: Vec<u8>,
    disk: D,
    input: &mut R,
    out: &mut Output<W>,
    errors: &mut E,
) -> Ended<D>
    requires { D.seen disk ≡ found.items }
    ensures { ServerEnds D.seen D.may_leave D.moment D.left_since D.faults R.remaining W.contents E.contents E.refuses
        options.now disk (io input.old out.old errors.old) (io input.new out.new errors.new) result }
{
    let make = |kind: Kind| -> Result<Box<dyn Replicated + Send>, AllocError>
        ensures { IfOk result (λ o. state o ≡ start kind) }
    {
        match kind {
            Kind::Counter => {
                let counter: Box<dyn Replicated + Send> = Box::new(alloc, Counter::new(alloc))?;
                Ok(new_of(kind, counter))
            }
            Kind::MaxRegister => {
                let register: Box<dyn Replicated + Send> = Box::new(
                    alloc,
                    MaxRegister::new(alloc),
                )?;
                Ok(new_of(kind, register))
            }
            Kind::OrSet => {
                let set: Box<dyn Replicated + Send> = Box::new(alloc, OrSet::new(alloc))?;
                Ok(new_of(kind, set))
            }
        }
    };
    run_with(alloc, options, found, disk, input, out, errors, make)
}
