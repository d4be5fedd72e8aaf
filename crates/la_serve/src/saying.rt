// What is said of a call in place of taking it.
ghost use Rattle.std.specs.Prelude.{◌≡◌, ℕ, List, true};
ghost use Rattle.la_set.specs.Inclusion.{IsSubset};
ghost use Rattle.la_object.specs.Shelves.{answer_at};
ghost use Rattle.la_wire.specs.Calls.{called};
ghost use Rattle.la_wire.specs.Messages.{letter_message};
ghost use Rattle.la_wire.specs.Notes.{waiting_note};
ghost use Rattle.la_durable.specs.Nodes.{kept_by};
ghost use Rattle.la_serve.specs.Asking.{heard_as};
ghost use Rattle.la_serve.specs.Said.{shelf_by, is_idle, may_be_taken, still_awaited};
ghost use Rattle.la_serve.specs.Said.{IsSaidAnswer, IsSaidAgain, IsSaidOfMessage, IsSaidText, IsSaidHere, IsSaidToAsk};

use crate::asking::Asking;
use crate::counting::count_mail;
use crate::numbered::{said_of_proposal, said_of_submission};
use crate::said::{Said, Why};
use crate::texts::{answer_text, mail_text, standing_text, waiting_text};
use la_durable::NodeMachine;
use la_node::{Letter, Links, Sending};
use la_object::{Query, Replicated, Shelf, ShelfError};
use la_set::UpdateId;
use la_wire::{Call, Kinds};
use std::alloc::Global;

// Whether a letter tells over more than a node has, or brings no news.
fn is_idle(machine: &NodeMachine, letter: &Letter) -> bool
    ensures { result ≡ is_idle (kept_by machine.now) (letter_message letter.now) }
{
    machine.node.wants_standing(&letter.parcel)
}

// What an object on a shelf answers by a node's view, which the shelf absorbs first, to a request of this name.
fn said_by_view<B: Replicated>(
    alloc: Global,
    machine: &NodeMachine,
    shelf: &mut Shelf<B>,
    question: (u16, &Query),
    name: &str,
) -> Said
    requires { IsSubset shelf.old.view machine.now.node.replica.view }
    ensures said { IsSaidAnswer machine.now.node.replica.own question.entry.0 name.now
        (answer_at (shelf_by shelf.old.objects (kept_by machine.now)) question.entry.0 question.entry.1.now) result }
    ensures objects { shelf.new.objects ≡ shelf.old.objects }
    ensures within { IsSubset shelf.new.view machine.now.node.replica.view }
{
    let (object, query) = question;
    match shelf.ask_by(machine.node.view(), object, query) {
        Ok(answer) => match answer_text(alloc, machine.node.own(), object, &answer, name) {
            Ok(text) => Said::Lines(text),
            Err(_) => Said::Refused(Why::Memory),
        },
        Err(ShelfError::NoSuchObject) => Said::Refused(Why::NoSuchObject),
        Err(_) => Said::Refused(Why::Memory),
    }
}

/// The update that a question waits for, where it is not in a node's view.
pub fn still_awaited(machine: &NodeMachine, after: Option<UpdateId>) -> Option<UpdateId>
    ensures { result ≡ still_awaited machine.now.node.replica.view after }
{
    let after = after?;
    if after.number <= machine.node.view().count_of(after.replica) {
        return None;
    }
    Some(after)
}

/// That a request of this name waits for an update.
pub fn said_waiting(alloc: Global, machine: &NodeMachine, after: UpdateId, name: &str) -> Said
    ensures { IsSaidText (λ text. text ≡ waiting_note machine.now.node.replica.own after name.now) result }
{
    match waiting_text(alloc, machine.node.own(), after, name) {
        Ok(text) => Said::Lines(text),
        Err(_) => Said::Refused(Why::Memory),
    }
}

/// Of what waits for an answer some, once more, as letters over these links, which note it, and it is counted.
pub fn said_again(
    alloc: Global,
    machine: &NodeMachine,
    links: &mut Links,
    over: Links,
    why: Sending,
    sent: &mut Kinds,
) -> Said
    ensures { IsSaidAgain over links.old (kept_by machine.now) why result links.new }
{
    let Ok(mail) = machine.node.again() else {
        return Said::Refused(Why::Memory);
    };
    let mut noted = over;
    match mail_text(alloc, &over, &mut noted, &machine.node, &mail, why) {
        Ok(text) => {
            count_mail(sent, &over, &mail, why);
            *links = noted;
            Said::Lines(text)
        }
        Err(_) => Said::Refused(Why::Memory),
    }
}

// How far a node is, for another whose letter told over more than the node has, or brought no news; nothing of any other.
fn said_back(alloc: Global, machine: &NodeMachine, letter: &Letter) -> Option<Said>
    ensures { IsSaidOfMessage (kept_by machine.now) (letter_message letter.now) result }
{
    if !is_idle(machine, letter) {
        return None;
    }
    match standing_text(alloc, &machine.node.standing(&letter.parcel)) {
        Ok(text) => Some(Said::Lines(text)),
        Err(_) => Some(Said::Refused(Why::Memory)),
    }
}

/// What is said to a question that is a call, once the shelf has absorbed a node's view.
pub fn said_to_call<B: Replicated>(
    alloc: Global,
    machine: &NodeMachine,
    shelf: &mut Shelf<B>,
    asking: Asking<'_>,
    question: (u16, &Query),
) -> Said
    requires { IsSubset shelf.old.view machine.now.node.replica.view }
    ensures said { IsSaidToAsk shelf.old.objects (kept_by machine.now) asking.entry.name.now asking.entry.after question.entry.0 question.entry.1.now result }
    ensures shelf { (shelf.new.objects ≡ shelf.old.objects) × IsSubset shelf.new.view machine.now.node.replica.view }
{
    match still_awaited(machine, asking.after) {
        Some(after) => said_waiting(alloc, machine, after, asking.name),
        None => said_by_view(alloc, machine, shelf, question, asking.name),
    }
}

/// What is said of a call in place of taking it; `None` where it is to be taken.
pub fn said_here<B: Replicated>(
    alloc: Global,
    machine: &NodeMachine,
    shelf: &Shelf<B>,
    asking: Asking<'_>,
    call: &Call,
) -> Option<Said>
    requires { may_be_taken (called call.now) ≡ true }
    ensures { (line : List ℕ) → IsSaidHere shelf.now.objects (kept_by machine.now) (heard_as asking.entry line)
        (called call.now) result }
{
    match call {
        Call::Submit { object, op, .. } => {
            said_of_submission(alloc, machine, shelf, asking, (*object, op))
        }
        Call::Decide { commit, value, .. } => {
            said_of_proposal(alloc, machine, (*commit, *value), asking.name)
        }
        Call::Receive(letter) => said_back(alloc, machine, letter),
        Call::Ask { .. } | Call::Tick | Call::Known(_) => unreachable!(),
    }
}
