ghost use Rattle.std.specs.Prelude.{◌≡◌, ◌≤◌, length, insert, OnOk, OnErr};

use std::alloc::AllocError;

/// From how many items on a vector is long.
const LONG: usize = 65_536;

/// How many items more a vector of this length is to have room for, when it grows: a quarter, or half
/// of a long one, which is dear to move.
pub fn growth_of(len: usize) -> usize {
    if len < LONG { len / 4 } else { len / 2 }
}

/// Puts an item at a place of a vector, and moves those from there on up; at the end it moves none.
/// After a refusal nothing has changed.
pub fn insert_at<T: Drop>(items: &mut Vec<T>, place: usize, item: T) -> Result<(), AllocError>
    requires { place ≤ length items.old.items }
    ensures ok { OnOk result (items.new.items ≡ insert items.old.items place item) }
    ensures err { OnErr result (items.new.items ≡ items.old.items) }
{
    if place == items.len() {
        items.push(item)?;
    } else {
        items.insert(place, item)?;
    }
    Ok(())
}
