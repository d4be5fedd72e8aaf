// What is said to questions that no call says.
ghost use Rattle.std.specs.Prelude.{◌≡◌, ◌<◌, ◌==◌, Some, filter, length, IfOk, IfErr};
ghost use Rattle.la_set.specs.Histories.{history, get};
ghost use Rattle.la_set.specs.Inclusion.{IsSubset};
ghost use Rattle.la_set.specs.ObjectOps.{ObjectOp};
ghost use Rattle.la_object.specs.Shelves.{tags_at};
ghost use Rattle.la_wire.specs.Notes.{updates_note};
ghost use Rattle.la_durable.specs.Nodes.{kept_by};
ghost use Rattle.la_serve.specs.Asking.{IsAsking};
ghost use Rattle.la_serve.specs.Heard.{heard_name};
ghost use Rattle.la_serve.specs.Said.{asks_of, count_of, node_version, object_counts, shelf_by, told_status, update_told};
ghost use Rattle.la_serve.specs.Said.{IsSaidAfter, IsSaidStatus, IsSaidTags, IsSaidText, IsSaidToQuestion, IsUntagged};

use crate::asking::Asking;
use crate::said::{Said, Why};
use crate::saying::{said_waiting, still_awaited};
use crate::texts::{status_text, tags_text, update_text, updates_text};
use la_durable::NodeMachine;
use la_node::Links;
use la_object::{Query, Replicated, Shelf, ShelfError};
use la_proposer::Status;
use la_set::{Counts, Tags, UpdateId, UpdateSet};
use la_wire::{NodeStatus, Question, Tally};
use std::alloc::Global;

/// Whether a question is for this node.
pub fn is_own(machine: &NodeMachine, question: Question) -> bool
    ensures { result ≡ (asks_of question == machine.now.node.replica.own) }
{
    asks_of(question) == machine.node.own()
}

// Which replica a question is for.
fn asks_of(question: Question) -> u8
    ensures { result ≡ asks_of question }
{
    match question {
        Question::Tags { replica, .. }
        | Question::Updates { replica, .. }
        | Question::Update { replica, .. }
        | Question::Status { replica } => replica,
    }
}

/// The live tags of an element, by a node's view, which the shelf absorbs first.
pub fn live_tags<B: Replicated>(
    machine: &NodeMachine,
    shelf: &mut Shelf<B>,
    object: u16,
    element: u64,
) -> Result<Tags, ShelfError>
    requires { IsSubset shelf.old.view machine.now.node.replica.view }
    ensures ok { IfOk result (λ tags.
        tags_at (shelf_by shelf.old.objects (kept_by machine.now)) object element ≡ Some tags) }
    ensures error { IfErr result (IsUntagged (tags_at (shelf_by shelf.old.objects (kept_by machine.now)) object element)) }
    ensures objects { shelf.new.objects ≡ shelf.old.objects }
    ensures within { IsSubset shelf.new.view machine.now.node.replica.view }
{
    // what it answers is not looked at: the shelf has the view then
    let _absorbed = shelf.ask_by(machine.node.view(), object, &Query::Size)?;
    shelf.observed(object, element)
}

// What is said of an element's live tags, to a request of this name.
fn said_tags<B: Replicated>(
    alloc: Global,
    machine: &NodeMachine,
    shelf: &mut Shelf<B>,
    element: (u16, u64),
    name: &str,
) -> Said
    requires { IsSubset shelf.old.view machine.now.node.replica.view }
    ensures said { IsSaidTags machine.now.node.replica.own element.0 name.now
        (tags_at (shelf_by shelf.old.objects (kept_by machine.now)) element.0 element.1) result }
    ensures objects { shelf.new.objects ≡ shelf.old.objects }
    ensures within { IsSubset shelf.new.view machine.now.node.replica.view }
{
    let (object, element) = element;
    match live_tags(machine, shelf, object, element) {
        Ok(tags) => {
            // a hint to the prover: they are no more than a remove may name
            let _few = tags.len();
            match tags_text(alloc, machine.node.own(), object, &tags, name) {
                Ok(text) => Said::Lines(text),
                Err(_) => Said::Refused(Why::Memory),
            }
        }
        Err(ShelfError::NoSuchObject) => Said::Refused(Why::NoSuchObject),
        Err(ShelfError::TooManyTags) => Said::Refused(Why::TooManyTags),
        Err(_) => Said::Refused(Why::Memory),
    }
}

// How many of a replica's updates in a set are of an object, at a look at each.
fn count_of_object(set: &UpdateSet, object: u16, replica: u8) -> u32
    requires { replica < 8 }
    ensures { result ≡ count_of set.now object replica }
{
    let mut count = 0;
    for number in 0..set.count_of(replica) {
        let id = UpdateId {
            replica,
            number: number + 1,
        };
        let Some(update) = set.get(id) else {
            unreachable!()
        };
        if update.object == object {
            count += 1;
        }
    }
    count
}

// The same of each replica.
fn object_counts(set: &UpdateSet, object: u16) -> Counts
    ensures { result ≡ object_counts set.now object }
{
    Counts::from([
        count_of_object(set, object, 0),
        count_of_object(set, object, 1),
        count_of_object(set, object, 2),
        count_of_object(set, object, 3),
        count_of_object(set, object, 4),
        count_of_object(set, object, 5),
        count_of_object(set, object, 6),
        count_of_object(set, object, 7),
    ])
}

// What is said of an object's updates, to a request of this name.
fn said_updates(alloc: Global, machine: &NodeMachine, object: u16, name: &str) -> Said
    ensures { IsSaidText (λ text. text ≡ updates_note machine.now.node.replica.own object
        (object_counts machine.now.node.replica.view object) name.now) result }
{
    let counts = object_counts(machine.node.view(), object);
    match updates_text(alloc, machine.node.own(), object, counts, name) {
        Ok(text) => Said::Lines(text),
        Err(_) => Said::Refused(Why::Memory),
    }
}

// What is said of the update that an id has, to a request of this name: that it is waited for, where the view lacks it.
fn said_update(alloc: Global, machine: &NodeMachine, id: UpdateId, name: &str) -> Said
    ensures { IsSaidText (λ text. text ≡ update_told machine.now.node.replica.own id name.now
        (get machine.now.node.replica.view id)) result }
{
    let Some(update) = machine.node.view().get(id) else {
        return said_waiting(alloc, machine, id, name);
    };
    match update_text(alloc, machine.node.own(), update, name) {
        Ok(text) => Said::Lines(text),
        Err(_) => Said::Refused(Why::Memory),
    }
}

// How a node stands.
fn status_of(machine: &NodeMachine, known: Links, tally: Tally) -> NodeStatus
    ensures { result ≡ told_status (kept_by machine.now) known tally }
{
    let node = &machine.node;
    let mut status = NodeStatus {
        own: node.own(),
        replicas: node.replicas(),
        progress: node.progress(),
        submitted: 0,
        waiting: 0,
        ballot: 0,
        asking: false,
        known,
        tally,
    };
    if let Some(first) = node.replica().instances().first() {
        status.submitted = first.proposer.submitted();
        status.waiting = first.proposer.buffered();
        if let Status::Asking(ballot) = first.proposer.status() {
            status.ballot = ballot;
            status.asking = true;
        }
    }
    status
}

// What is said of that, to a request of this name.
fn said_status(alloc: Global, machine: &NodeMachine, known: Links, tally: Tally, name: &str) -> Said
    ensures { IsSaidStatus (kept_by machine.now) known name.now result }
{
    let status = status_of(machine, known, tally);
    match status_text(alloc, &status, node_version(), name) {
        Ok(text) => Said::Lines(text),
        Err(_) => Said::Refused(Why::Memory),
    }
}

// The version of the program.
fn node_version() -> &'static str
    ensures { result.now ≡ node_version }
{
    la_cli::VERSION
}

/// What is said to a question that no call says, once the shelf has absorbed a node's view.
pub fn said_to<B: Replicated>(
    alloc: Global,
    machine: &NodeMachine,
    links: &Links,
    tally: &Tally,
    shelf: &mut Shelf<B>,
    asking: Asking<'_>,
    question: Question,
) -> Said
    requires { IsSubset shelf.old.view machine.now.node.replica.view × IsAsking asking }
    ensures said { IsSaidToQuestion shelf.old.objects (kept_by machine.now) links.now (heard_name asking.entry.line.now) question result }
    ensures shelf { (shelf.new.objects ≡ shelf.old.objects) × IsSubset shelf.new.view machine.now.node.replica.view }
{
    let name = asking.name;
    match question {
        Question::Status { .. } => said_status(alloc, machine, *links, *tally, name),
        Question::Tags {
            object,
            element,
            ..
        } => match still_awaited(machine, asking.after) {
            Some(after) => said_waiting(alloc, machine, after, name),
            None => said_tags(alloc, machine, shelf, (object, element), name),
        },
        Question::Update { id, .. } => said_update(alloc, machine, id, name),
        Question::Updates { object, .. } => match still_awaited(machine, asking.after) {
            Some(after) => said_waiting(alloc, machine, after, name),
            None => said_updates(alloc, machine, object, name),
        },
    }
}
