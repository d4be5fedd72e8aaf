// What a node submits and proposes.
ghost use Rattle.std.specs.Prelude.{◌≡◌, ◌^◌, nat_lt, true, false, Some, IfOk, IfErr};
ghost use Rattle.lattice_c.specs.Numbered.{MakesOp, SubmitsAt};
ghost use Rattle.la_object.specs.Shelves.{tags_at};
ghost use Rattle.la_embed.specs.Hosts.{shelf_now, with_objects, IsUnseen};
ghost use Rattle.la_set.specs.declared.update.Op.TheVariants.{Inc, Dec, Raise, Put, Mark};
ghost use Rattle.la_own.specs.Own.{own};
ghost use Rattle.lattice_c.specs.Calls.{SubmitsFor, SubmitsOwn, Removes, Proposes, TellsOutcome};

use crate::handle::Handle;
use crate::status::{
    BAD_KIND, NONE, OK, TOO_LARGE, UNKEPT, status_of_node, status_of_number, status_of_own,
    status_of_shelf,
};
use la_object::ShelfError;
use la_own::own_op;
use la_set::{Op, Tags};
use std::alloc::Global;

// Submits an operation.
fn submit(handle: &mut Handle, object: u16, op: Op, number: &mut u32) -> u8
    ensures { SubmitsFor handle.old.host.host object op number.old result number.new handle.new.host.host }
{
    match handle.inner().host.submit(object, op) {
        Ok(update) => {
            *number = update;
            OK
        }
        Err(refused) => status_of_node(refused),
    }
}

/// Submits an addition to a counter, and answers the update's number. What is to be sent of it waits then. A node with a
/// journal may have lost it after a crash, until its record is on the disk; so it is of all that it takes.
///
/// `FULL` comes where the node has submitted its cap, and else `MEMORY` or `BALLOTS_SPENT`; so it is of each call that
/// submits.
#[unsafe(no_mangle)]
pub extern "C" fn lattice_inc(handle: &mut Handle, object: u16, by: u32, number: &mut u32) -> u8
    ensures { SubmitsFor handle.old.host.host object (Inc by) number.old result number.new handle.new.host.host }
{
    submit(handle, object, Op::Inc(by), number)
}

/// Submits a subtraction from a counter.
#[unsafe(no_mangle)]
pub extern "C" fn lattice_dec(handle: &mut Handle, object: u16, by: u32, number: &mut u32) -> u8
    ensures { SubmitsFor handle.old.host.host object (Dec by) number.old result number.new handle.new.host.host }
{
    submit(handle, object, Op::Dec(by), number)
}

/// Submits that a max register is at least this value.
#[unsafe(no_mangle)]
pub extern "C" fn lattice_raise(handle: &mut Handle, object: u16, to: u64, number: &mut u32) -> u8
    ensures { SubmitsFor handle.old.host.host object (Raise to) number.old result number.new handle.new.host.host }
{
    submit(handle, object, Op::Raise(to), number)
}

/// Submits that an element is put into an observed-remove set.
#[unsafe(no_mangle)]
pub extern "C" fn lattice_put(
    handle: &mut Handle,
    object: u16,
    element: u64,
    number: &mut u32,
) -> u8
    ensures { SubmitsFor handle.old.host.host object (Put element) number.old result number.new handle.new.host.host }
{
    submit(handle, object, Op::Put(element), number)
}

/// Submits a mark, which changes no object.
#[unsafe(no_mangle)]
pub extern "C" fn lattice_mark(handle: &mut Handle, object: u16, number: &mut u32) -> u8
    ensures { SubmitsFor handle.old.host.host object Mark number.old result number.new handle.new.host.host }
{
    submit(handle, object, Op::Mark, number)
}

/// Submits an operation of one's own: up to 248 bytes, which no object here takes. `TOO_LARGE` comes exactly above that.
#[unsafe(no_mangle)]
pub extern "C" fn lattice_own(
    handle: &mut Handle,
    object: u16,
    bytes: &[u8],
    number: &mut u32,
) -> u8
    ensures { SubmitsOwn handle.old.host.host object bytes.now number.old result number.new handle.new.host.host }
{
    let alloc = handle.inner().alloc;
    match own_op(alloc, bytes) {
        Ok(op) => submit(handle, object, op, number),
        Err(refused) => status_of_own(refused),
    }
}

// An operation whose amount has 32 bits.
fn amount(value: u64) -> Result<u32, u8>
    ensures ok { IfOk result (λ amount. (amount ≡ value) × (nat_lt value (2 ^ 32) ≡ true)) }
    ensures err { IfErr result (λ status. (status ≡ 9) × (nat_lt value (2 ^ 32) ≡ false)) }
{
    match u32::try_from(value) {
        Ok(amount) => Ok(amount),
        Err(_) => Err(TOO_LARGE),
    }
}

// The operation of a kind with a value, or with bytes of one's own.
fn op_told(alloc: Global, kind: u8, value: u64, bytes: &[u8]) -> Result<Op, u8>
    ensures { MakesOp kind value bytes.now result }
{
    match kind {
        1 => Ok(Op::Inc(amount(value)?)),
        2 => Ok(Op::Dec(amount(value)?)),
        3 => Ok(Op::Raise(value)),
        4 => Ok(Op::Put(value)),
        6 => Ok(Op::Mark),
        8 => match own_op(alloc, bytes) {
            Ok(op) => Ok(op),
            Err(refused) => Err(status_of_own(refused)),
        },
        _ => Err(BAD_KIND),
    }
}

/// Submits an operation as the node's update with this number, so that it counts once, however often it is asked for.
/// The operation is of a kind as `lattice_next_learnt` tells it, but of kinds 5 and 7: of kinds 1 to 4 with this value,
/// of kind 8 with these bytes of one's own.
///
/// `BAD_KIND` comes for any other kind; `TOO_LARGE` where an amount has more than 32 bits or there are over 248 bytes;
/// `STALE` where another submission has this number; `AHEAD` where it is neither the next nor submitted; else it is as
/// of each call that submits.
#[unsafe(no_mangle)]
pub extern "C" fn lattice_submit_at(
    handle: &mut Handle,
    number: u32,
    object: u16,
    kind: u8,
    value: u64,
    bytes: &[u8],
) -> u8
    ensures { SubmitsAt handle.old.host.host number object kind value bytes.now result handle.new.host.host }
{
    let alloc = handle.inner().alloc;
    let op = match op_told(alloc, kind, value, bytes) {
        Ok(op) => op,
        Err(status) => return status,
    };
    match handle.inner().host.submit_at(number, object, op) {
        Ok(()) => OK,
        Err(refused) => status_of_number(refused),
    }
}

// The live tags of an element, by the view.
fn observed(handle: &mut Handle, object: u16, element: u64) -> Result<Tags, ShelfError>
    ensures ok { IfOk result (λ tags. tags_at (shelf_now handle.old.host.host) object element ≡ Some tags) }
    ensures error { IfErr result (IsUnseen (tags_at (shelf_now handle.old.host.host) object element)) }
    ensures objects { handle.new.host.host.shelf.objects ≡ handle.old.host.host.shelf.objects }
    ensures same { handle.new.host.host ≡ with_objects handle.old.host.host handle.new.host.host.shelf }
{
    handle.inner().host.observed(object, element)
}

/// Submits that an element is taken out of an observed-remove set, as far as the view has it: what was put in at the
/// same time elsewhere stays, and so does a put of this node's own that the view lacks.
///
/// `NO_OBJECT` comes where there is no such object, `TOO_MANY_TAGS` where over 64 puts of the element are seen; else it
/// is as of each call that submits.
#[unsafe(no_mangle)]
pub extern "C" fn lattice_remove(
    handle: &mut Handle,
    object: u16,
    element: u64,
    number: &mut u32,
) -> u8
    ensures { Removes handle.old.host.host object element number.old result number.new handle.new.host.host }
{
    match observed(handle, object, element) {
        Ok(tags) => submit(handle, object, Op::Remove(tags), number),
        Err(refused) => status_of_shelf(refused),
    }
}

/// Proposes a value to an adopt-commit object. What is to be sent of it waits then.
///
/// `NO_COMMIT` comes where there is no such object, `ALREADY_PROPOSED` where the node has proposed to it, and else
/// `MEMORY`.
#[unsafe(no_mangle)]
pub extern "C" fn lattice_propose(handle: &mut Handle, commit: u8, value: u64) -> u8
    ensures { Proposes handle.old.host.host commit value result handle.new.host.host }
{
    match handle.inner().host.propose(commit, value) {
        Ok(()) => OK,
        Err(refused) => status_of_node(refused),
    }
}

/// What the node returned from an adopt-commit object: the value, and whether it is committed (1) or adopted (0).
///
/// `NONE` comes where it has returned nothing yet, or there is no such object; `UNKEPT` where what the node took is not on
/// the disk yet.
#[unsafe(no_mangle)]
pub extern "C" fn lattice_outcome(
    handle: &mut Handle,
    commit: u8,
    value: &mut u64,
    committed: &mut u8,
) -> u8
    ensures told { TellsOutcome handle.old.host.host commit result value.new committed.new }
    ensures same { handle.new.host.host ≡ handle.old.host.host }
{
    let host = &handle.inner().host;
    if !host.is_kept() {
        return UNKEPT;
    }
    match host.outcome(commit) {
        Some(outcome) => {
            *value = outcome.value();
            *committed = u8::from(outcome.is_commit());
            OK
        }
        None => NONE,
    }
}
