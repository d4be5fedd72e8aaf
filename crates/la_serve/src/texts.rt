// What a node writes for one call.
ghost use Rattle.std.specs.Prelude.{◌≡◌, ◌++◌, IfOk, OnOk, OnErr};
ghost use Rattle.la_replica.specs.Steps.{learnt_in};
ghost use Rattle.la_wire.specs.Calls.{called};
ghost use Rattle.la_node.specs.Steps.{given_of};
ghost use Rattle.la_node.specs.declared.link.Sending.TheVariants as sending;
ghost use Rattle.la_node.specs.Links.{letter_of, letters_sent, noted_with, noted_all};
ghost use Rattle.la_wire.specs.Notes.{submitted_note, answered_note, message_line, letters_text, known_line};
ghost use Rattle.la_wire.specs.Notes.{proposed_note, waiting_note, tags_note, update_note, updates_note};
ghost use Rattle.la_wire.specs.Status.{status_note};
ghost use Rattle.la_serve.specs.Said.{returned_text};
ghost use Rattle.la_durable.specs.Nodes.{kept_by};
ghost use Rattle.la_serve.specs.Turns.{taken_text, learnt_line, growth_text, return_text};
ghost use Rattle.la_serve.specs.Turns.{receipt_text, call_text};

use la_commit::Outcome;
use la_durable::NodeMachine;
use la_node::{Links, Node, Received, Sending, Standing};
use la_object::{Answer, Counter};
use la_replica::{Mail, Message};
use la_set::{Counts, Tags, Update, UpdateId, UpdateSet};
use la_wire::{
    Call, Letter, NodeStatus, put_answered, put_known_line, put_learnt, put_letter_line,
    put_outcome, put_proposed, put_status, put_submitted, put_tags_answer, put_update_answer,
    put_updates_answer, put_view, put_waiting,
};
use std::alloc::{AllocError, Global};

// The room that most notes need, in bytes.
const LINE: usize = 64;

// Answers a submission or a proposal, by the name of its request.
fn put_taken(
    out: &mut Vec<u8>,
    call: &Call,
    name: &str,
    node: &Node<Counter>,
) -> Result<(), AllocError>
    ensures { OnOk result (out.new.items ≡ out.old.items ++ taken_text node.now.replica (called call.now) name.now) }
{
    match call {
        Call::Submit { .. } => match node.submitted(0) {
            Some(number) => put_submitted(out, node.own(), number, name),
            None => Ok(()),
        },
        Call::Decide { commit, .. } => put_proposed(out, node.own(), *commit, name),
        Call::Ask { .. } | Call::Tick | Call::Receive(_) | Call::Known(_) => Ok(()),
    }
}

// Notes what was learnt by a message.
fn put_learning(
    out: &mut Vec<u8>,
    own: u8,
    letter: &Letter,
    given: &Received,
) -> Result<(), AllocError>
    ensures { OnOk result (out.new.items ≡ out.old.items ++ learnt_line own letter.now.parcel.instance letter.now.parcel.ballot (learnt_in given.now.done.said)) }
{
    let parcel = &letter.parcel;
    match given.done.said.learnt() {
        Some(learnt) => put_learnt(out, own, parcel.instance, parcel.ballot, learnt.counts()),
        None => Ok(()),
    }
}

// Notes the view, where it has more updates than before.
fn put_growth(out: &mut Vec<u8>, own: u8, before: usize, view: &UpdateSet) -> Result<(), AllocError>
    ensures { OnOk result (out.new.items ≡ out.old.items ++ growth_text own before view.now) }
{
    if view.len() > before {
        put_view(out, own, view.counts())
    } else {
        Ok(())
    }
}

// Notes what is returned from an object after a message of its second instance.
fn put_return(
    out: &mut Vec<u8>,
    own: u8,
    letter: &Letter,
    given: &Received,
) -> Result<(), AllocError>
    ensures { OnOk result (out.new.items ≡ out.old.items ++ return_text own letter.now.parcel.instance given.now.outcome) }
{
    match given.outcome {
        Some(outcome) => {
            let commit = letter.parcel.instance.saturating_sub(1) / 2;
            put_outcome(out, own, commit, outcome)
        }
        None => Ok(()),
    }
}

// Notes what else a message came to.
fn put_receipt(
    out: &mut Vec<u8>,
    node: &Node<Counter>,
    before: usize,
    call: &Call,
    given: &Received,
) -> Result<(), AllocError>
    ensures { OnOk result (out.new.items ≡ out.old.items
        ++ receipt_text before node.now.replica (called call.now) (given_of given.now)) }
{
    match call {
        Call::Receive(letter) => {
            let own = node.own();
            put_learning(out, own, letter, given)?;
            put_growth(out, own, before, node.view())?;
            put_return(out, own, letter, given)
        }
        Call::Submit { .. }
        | Call::Decide { .. }
        | Call::Ask { .. }
        | Call::Tick
        | Call::Known(_) => Ok(()),
    }
}

// Writes a message as a letter over these links, and notes it.
fn put_message(
    out: &mut Vec<u8>,
    links: &Links,
    noted: &mut Links,
    node: &Node<Counter>,
    message: &Message,
) -> Result<(), AllocError>
    ensures text { OnOk result (out.new.items ≡ out.old.items ++ message_line (letter_of links.now node.now.replica message.now)) }
    ensures noted { OnOk result (noted.new ≡ noted_with noted.old (letter_of links.now node.now.replica message.now)) }
{
    let letter = links.letter(node, message.copy()?)?;
    put_letter_line(out, &letter)?;
    noted.note(&letter);
    Ok(())
}

// Writes so what of some mail is sent, in order.
fn put_mail(
    out: &mut Vec<u8>,
    links: &Links,
    noted: &mut Links,
    node: &Node<Counter>,
    mail: &Mail,
    why: Sending,
) -> Result<(), AllocError>
    ensures text { OnOk result (out.new.items ≡ out.old.items
        ++ letters_text (letters_sent links.now node.now.replica why mail.now)) }
    ensures noted { OnOk result (noted.new ≡ noted_all noted.old (letters_sent links.now node.now.replica why mail.now)) }
{
    for message in mail.all() {
        if links.is_chosen(why, message) {
            put_message(out, links, noted, node, message)?;
        }
    }
    Ok(())
}

/// What is written for a call that was accepted, of a request of this name, once the view had so many updates. Its
/// letters are noted.
pub fn text_of(
    alloc: Global,
    machine: &NodeMachine,
    links: &mut Links,
    before: usize,
    call: &Call,
    name: &str,
    given: &Received,
) -> Result<Vec<u8>, AllocError>
    ensures text { IfOk result (λ text. text.items ≡ call_text before links.old (kept_by machine.now) (called call.now) name.now (given_of given.now)) }
    ensures noted { OnOk result (links.new ≡ noted_all links.old (letters_sent links.old (kept_by machine.now) sending.Call (given_of given.now).mail)) }
    ensures err { OnErr result (links.new ≡ links.old) }
{
    let over = *links;
    let mut noted = over;
    let mut out = Vec::with_capacity(alloc, LINE)?;
    let node = &machine.node;
    put_taken(&mut out, call, name, node)?;
    put_receipt(&mut out, node, before, call, given)?;
    put_mail(
        &mut out,
        &over,
        &mut noted,
        node,
        &given.done.mail,
        Sending::Call,
    )?;
    *links = noted;
    Ok(out)
}

/// What is written for a submission that was done before, to a request of this name.
pub fn submitted_text(
    alloc: Global,
    own: u8,
    number: u32,
    name: &str,
) -> Result<Vec<u8>, AllocError>
    ensures { IfOk result (λ text. text.items ≡ submitted_note own number name.now) }
{
    let mut out = Vec::with_capacity(alloc, LINE)?;
    put_submitted(&mut out, own, number, name)?;
    Ok(out)
}

/// What is written for a proposal that was made before, to a request of this name.
pub fn proposed_text(
    alloc: Global,
    own: u8,
    commit: u8,
    outcome: Option<Outcome>,
    name: &str,
) -> Result<Vec<u8>, AllocError>
    ensures { IfOk result (λ text. text.items ≡ proposed_note own commit name.now ++ returned_text own commit outcome) }
{
    let mut out = Vec::with_capacity(alloc, LINE)?;
    put_proposed(&mut out, own, commit, name)?;
    if let Some(outcome) = outcome {
        put_outcome(&mut out, own, commit, outcome)?;
    }
    Ok(out)
}

/// What is written for a question that waits for an update, a request of this name.
pub fn waiting_text(
    alloc: Global,
    own: u8,
    after: UpdateId,
    name: &str,
) -> Result<Vec<u8>, AllocError>
    ensures { IfOk result (λ text. text.items ≡ waiting_note own after name.now) }
{
    let mut out = Vec::with_capacity(alloc, LINE)?;
    put_waiting(&mut out, own, after, name)?;
    Ok(out)
}

/// What is written of an element's live tags, to a request of this name.
pub fn tags_text(
    alloc: Global,
    own: u8,
    object: u16,
    tags: &Tags,
    name: &str,
) -> Result<Vec<u8>, AllocError>
    ensures { IfOk result (λ text. text.items ≡ tags_note own object tags.now name.now) }
{
    let mut out = Vec::new(alloc);
    put_tags_answer(&mut out, own, object, tags, name)?;
    Ok(out)
}

/// What is written of an update, to a request of this name.
pub fn update_text(
    alloc: Global,
    own: u8,
    update: &Update,
    name: &str,
) -> Result<Vec<u8>, AllocError>
    ensures { IfOk result (λ text. text.items ≡ update_note own update.now name.now) }
{
    let mut out = Vec::new(alloc);
    put_update_answer(&mut out, own, update, name)?;
    Ok(out)
}

/// What is written of an object's updates, to a request of this name.
pub fn updates_text(
    alloc: Global,
    own: u8,
    object: u16,
    counts: Counts,
    name: &str,
) -> Result<Vec<u8>, AllocError>
    ensures { IfOk result (λ text. text.items ≡ updates_note own object counts name.now) }
{
    let mut out = Vec::with_capacity(alloc, LINE)?;
    put_updates_answer(&mut out, own, object, counts, name)?;
    Ok(out)
}

/// What is written of how a node stands, to a request of this name.
pub fn status_text(
    alloc: Global,
    status: &NodeStatus,
    version: &str,
    name: &str,
) -> Result<Vec<u8>, AllocError>
    ensures { IfOk result (λ text. text.items ≡ status_note status.now version.now name.now) }
{
    let mut out = Vec::new(alloc);
    put_status(&mut out, status, version, name)?;
    Ok(out)
}

/// What is written for a question, a request of this name.
pub fn answer_text(
    alloc: Global,
    own: u8,
    object: u16,
    answer: &Answer,
    name: &str,
) -> Result<Vec<u8>, AllocError>
    ensures { IfOk result (λ text. text.items ≡ answered_note own object answer.now name.now) }
{
    let mut out = Vec::new(alloc);
    put_answered(alloc, &mut out, own, object, answer, name)?;
    Ok(out)
}

/// What is written of mail that is sent again, which is noted.
pub fn mail_text(
    alloc: Global,
    links: &Links,
    noted: &mut Links,
    node: &Node<Counter>,
    mail: &Mail,
    why: Sending,
) -> Result<Vec<u8>, AllocError>
    ensures text { IfOk result (λ text. text.items ≡ letters_text (letters_sent links.now node.now.replica why mail.now)) }
    ensures noted { OnOk result (noted.new ≡ noted_all noted.old (letters_sent links.now node.now.replica why mail.now)) }
{
    let mut out = Vec::new(alloc);
    put_mail(&mut out, links, noted, node, mail, why)?;
    Ok(out)
}

/// What is written to one whose letter brought no news.
pub fn standing_text(alloc: Global, standing: &Standing) -> Result<Vec<u8>, AllocError>
    ensures { IfOk result (λ text. text.items ≡ known_line standing.now) }
{
    let mut out = Vec::with_capacity(alloc, LINE)?;
    put_known_line(&mut out, standing)?;
    Ok(out)
}
