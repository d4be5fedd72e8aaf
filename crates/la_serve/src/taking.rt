// What a take names: a submission that takes an element out by what is seen.
ghost use Rattle.std.specs.Prelude.{◌≡◌, IfOk, IfErr};
ghost use Rattle.la_set.specs.Histories.{get};
ghost use Rattle.la_set.specs.Inclusion.{IsSubset};
ghost use Rattle.la_durable.specs.Nodes.{kept_by};
ghost use Rattle.la_serve.specs.Numbered.{submission_under};
ghost use Rattle.la_serve.specs.Takes.{all_put, by_number, is_put, live_now, puts_this, taken_before, taken_tags};
ghost use Rattle.la_serve.specs.Takes.{IsTakeRefusal};

use crate::numbered::submitted_under;
use crate::questions::live_tags;
use crate::said::Why;
use la_durable::NodeMachine;
use la_object::{Replicated, Shelf, ShelfError};
use la_set::{Op, Tags, UpdateId, UpdateSet};
use la_wire::Take;
use std::alloc::{AllocError, Global};

// Whether an operation puts this element.
fn puts_this(element: u64, op: &Op) -> bool
    ensures { result ≡ puts_this element op.now }
{
    match op {
        Op::Put(put) => *put == element,
        _ => false,
    }
}

// Whether an update of a view puts this element into this object.
fn is_put(view: &UpdateSet, object: u16, element: u64, id: UpdateId) -> bool
    ensures { result ≡ is_put object element (get view.now id) }
{
    match view.get(id) {
        Some(update) => update.object == object && puts_this(element, &update.op),
        None => false,
    }
}

// Whether each of these updates does.
fn all_put(view: &UpdateSet, object: u16, element: u64, tags: &Tags) -> bool
    ensures { result ≡ all_put view.now object element tags.now }
{
    let mut all = true;
    for place in 0..tags.len() {
        let Some(tag) = tags.at(place) else {
            unreachable!()
        };
        all = all && is_put(view, object, element, *tag);
    }
    all
}

// What a submission took out under this number, where it was such a take.
fn taken_before(machine: &NodeMachine, take: Take, number: u32) -> Result<Option<Tags>, AllocError>
    ensures { IfOk result (λ o. o ≡ taken_before machine.now.node.replica.view take
        (submission_under (kept_by machine.now) number)) }
{
    let Some(first) = machine.node.replica().instances().first() else {
        return Ok(None);
    };
    let Some(update) = submitted_under(&first.proposer, number) else {
        return Ok(None);
    };
    match &update.op {
        Op::Remove(tags)
            if update.object == take.object
                && all_put(machine.node.view(), take.object, take.element, tags) => {
            Ok(Some(tags.copy()?))
        }
        _ => Ok(None),
    }
}

// What is live, by the view; nothing, where there is no such object.
fn live_now<B: Replicated>(
    alloc: Global,
    machine: &NodeMachine,
    shelf: &mut Shelf<B>,
    take: Take,
) -> Result<Tags, Why>
    requires { IsSubset shelf.old.view machine.now.node.replica.view }
    ensures ok { IfOk result (λ tags. tags ≡ live_now shelf.old.objects (kept_by machine.now) take) }
    ensures error { IfErr result (IsTakeRefusal (live_now shelf.old.objects (kept_by machine.now) take)) }
    ensures objects { shelf.new.objects ≡ shelf.old.objects }
    ensures within { IsSubset shelf.new.view machine.now.node.replica.view }
{
    match live_tags(machine, shelf, take.object, take.element) {
        Ok(tags) => Ok(tags),
        Err(ShelfError::NoSuchObject) => Ok(Tags::new(alloc)),
        Err(ShelfError::TooManyTags) => Err(Why::TooManyTags),
        Err(_) => Err(Why::Memory),
    }
}

// What a take of this node's names.
fn tags_here<B: Replicated>(
    alloc: Global,
    machine: &NodeMachine,
    shelf: &mut Shelf<B>,
    take: Take,
) -> Result<Tags, Why>
    requires { IsSubset shelf.old.view machine.now.node.replica.view }
    ensures ok { IfOk result (λ tags. tags ≡ by_number shelf.old.objects (kept_by machine.now) take take.number) }
    ensures error { IfErr result (IsTakeRefusal (by_number shelf.old.objects (kept_by machine.now) take take.number)) }
    ensures objects { shelf.new.objects ≡ shelf.old.objects }
    ensures within { IsSubset shelf.new.view machine.now.node.replica.view }
{
    let Some(number) = take.number else {
        return live_now(alloc, machine, shelf, take);
    };
    match taken_before(machine, take, number) {
        Ok(Some(tags)) => Ok(tags),
        Ok(None) => live_now(alloc, machine, shelf, take),
        Err(_) => Err(Why::Memory),
    }
}

/// What a take names: under a number that was taken by such a take what that named, so that it counts once; else the
/// element's live tags, by the node's view, which the shelf absorbs first. One for another node names nothing.
///
/// `TooManyTags` comes exactly where that is more than a remove may name, and `Memory` where there is none.
pub fn taken_tags<B: Replicated>(
    alloc: Global,
    machine: &NodeMachine,
    shelf: &mut Shelf<B>,
    take: Take,
) -> Result<Tags, Why>
    requires { IsSubset shelf.old.view machine.now.node.replica.view }
    ensures ok { IfOk result (λ tags. tags ≡ taken_tags shelf.old.objects (kept_by machine.now) take) }
    ensures error { IfErr result (IsTakeRefusal (taken_tags shelf.old.objects (kept_by machine.now) take)) }
    ensures objects { shelf.new.objects ≡ shelf.old.objects }
    ensures within { IsSubset shelf.new.view machine.now.node.replica.view }
{
    if take.replica != machine.node.own() {
        return Ok(Tags::new(alloc));
    }
    tags_here(alloc, machine, shelf, take)
}
