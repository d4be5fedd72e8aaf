// What objects are asked.
ghost use Rattle.std.specs.Prelude.{◌≡◌, ◌⊎◌, ◌<◌, length};
ghost use Rattle.la_object.specs.declared.query.Query.TheVariants.{Total, AtLeast, Largest, Has, Size, Items};
ghost use Rattle.lattice_c.specs.Calls.{IsAsked, total_in, reached_in, largest_in, has_in, size_in, AsksItems};

use crate::handle::Handle;
use crate::status::{FOREIGN, OK, SMALL, UNKEPT, status_of_shelf};
use la_object::{Answer, Query};

/// A counter's total: its increments less its decrements. `NO_OBJECT` comes where there is no such object, `FOREIGN`
/// where it is of another kind, `UNKEPT` where what the node took is not on the disk yet, and `MEMORY`; so it is of each
/// question.
#[unsafe(no_mangle)]
pub extern "C" fn lattice_total(handle: &mut Handle, object: u16, total: &mut i64) -> u8
    ensures { IsAsked total_in handle.old.host.host object Total result total.new handle.new.host.host }
{
    let host = &mut handle.inner().host;
    if !host.is_kept() {
        return UNKEPT;
    }
    match host.ask(object, &Query::Total) {
        Ok(Answer::Total(sum)) => {
            *total = sum;
            OK
        }
        Ok(_) => FOREIGN,
        Err(refused) => status_of_shelf(refused),
    }
}

/// Whether (1) or not (0) a counter's total is at least a number.
#[unsafe(no_mangle)]
pub extern "C" fn lattice_at_least(
    handle: &mut Handle,
    object: u16,
    bound: u64,
    reached: &mut u8,
) -> u8
    ensures { IsAsked reached_in handle.old.host.host object (AtLeast bound) result reached.new handle.new.host.host }
{
    let host = &mut handle.inner().host;
    if !host.is_kept() {
        return UNKEPT;
    }
    match host.ask(object, &Query::AtLeast(bound)) {
        Ok(Answer::Reached(yes)) => {
            *reached = u8::from(yes);
            OK
        }
        Ok(_) => FOREIGN,
        Err(refused) => status_of_shelf(refused),
    }
}

/// The largest value that a max register was raised to, or 0.
#[unsafe(no_mangle)]
pub extern "C" fn lattice_largest(handle: &mut Handle, object: u16, largest: &mut u64) -> u8
    ensures { IsAsked largest_in handle.old.host.host object Largest result largest.new handle.new.host.host }
{
    let host = &mut handle.inner().host;
    if !host.is_kept() {
        return UNKEPT;
    }
    match host.ask(object, &Query::Largest) {
        Ok(Answer::Largest(value)) => {
            *largest = value;
            OK
        }
        Ok(_) => FOREIGN,
        Err(refused) => status_of_shelf(refused),
    }
}

/// Whether (1) or not (0) an observed-remove set has an element.
#[unsafe(no_mangle)]
pub extern "C" fn lattice_has(handle: &mut Handle, object: u16, element: u64, has: &mut u8) -> u8
    ensures { IsAsked has_in handle.old.host.host object (Has element) result has.new handle.new.host.host }
{
    let host = &mut handle.inner().host;
    if !host.is_kept() {
        return UNKEPT;
    }
    match host.ask(object, &Query::Has(element)) {
        Ok(Answer::Has(yes)) => {
            *has = u8::from(yes);
            OK
        }
        Ok(_) => FOREIGN,
        Err(refused) => status_of_shelf(refused),
    }
}

/// How many elements an observed-remove set has.
#[unsafe(no_mangle)]
pub extern "C" fn lattice_size(handle: &mut Handle, object: u16, size: &mut u64) -> u8
    ensures { IsAsked size_in handle.old.host.host object Size result size.new handle.new.host.host }
{
    let host = &mut handle.inner().host;
    if !host.is_kept() {
        return UNKEPT;
    }
    match host.ask(object, &Query::Size) {
        Ok(Answer::Size(count)) => {
            *size = count;
            OK
        }
        Ok(_) => FOREIGN,
        Err(refused) => status_of_shelf(refused),
    }
}

/// An observed-remove set's elements in ascending order, into a buffer, and how many there are. `SMALL` comes where the
/// buffer has room for fewer: then they are only counted.
#[unsafe(no_mangle)]
pub extern "C" fn lattice_items(
    handle: &mut Handle,
    object: u16,
    buffer: &mut [u64],
    len: &mut usize,
) -> u8
    ensures { AsksItems handle.old.host.host object buffer.old result len.new buffer.new handle.new.host.host }
{
    let host = &mut handle.inner().host;
    if !host.is_kept() {
        return UNKEPT;
    }
    match host.ask(object, &Query::Items) {
        Ok(Answer::Items(items)) => {
            let items = items.all();
            let count = items.len();
            *len = count;
            if count > buffer.len() {
                return SMALL;
            }
            buffer[..count].copy_from_slice(items);
            OK
        }
        Ok(_) => FOREIGN,
        Err(refused) => status_of_shelf(refused),
    }
}
