// The shelves of a program that is handed objects.
ghost use Rattle.std.specs.Prelude.{◌≡◌, ◌⊎◌, map, All, IfOk, IfErr, OnOk};
ghost use Rattle.la_object.specs.declared.error.ShelfError.TheVariants.{Memory};
ghost use Rattle.la_cli.specs.Shelves.{states_of, all_states_of, new_shelf};
ghost use Rattle.la_cli.specs.Shelves.{CanStand, IsUnfit, IsFillRefusal};

use la_object::{Replicated, Shelf, ShelfError};
use std::alloc::Global;

/// Objects under their numbers, of one replica.
pub type Numbered<B> = Vec<(u16, B)>;

// The shelf of one replica's objects.
fn shelf_with<B: Replicated>(alloc: Global, objects: Numbered<B>) -> Result<Shelf<B>, ShelfError>
    ensures ok { IfOk result (λ shelf. shelf ≡ new_shelf (states_of B.state objects.items)) }
    ensures stand { OnOk result (CanStand (states_of B.state objects.items)) }
    ensures error { IfErr result (λ e. (e ≡ Memory)
        ⊎ IsUnfit (states_of B.state objects.items) e) }
{
    let mut shelf = Shelf::new(alloc);
    for (number, object) in objects {
        shelf.add(number, object)?;
    }
    Ok(shelf)
}

/// A shelf for each replica, with its objects in their order, which has absorbed nothing.
///
/// The objects are looked at one after another, those of the first replica first. `Taken` comes
/// exactly where one stands under the number of one before it, and `NotFresh` exactly where one is
/// not in its kind's start state, in both cases the first that is either; `Memory` may come before.
pub fn fill<B: Replicated>(
    alloc: Global,
    all: Vec<Numbered<B>>,
) -> Result<Vec<Shelf<B>>, ShelfError>
    ensures ok { IfOk result (λ shelves.
        shelves.items ≡ map new_shelf (all_states_of B.state all.items)) }
    ensures stand { OnOk result (All CanStand (all_states_of B.state all.items)) }
    ensures error { IfErr result (IsFillRefusal (all_states_of B.state all.items)) }
{
    let mut shelves = Vec::with_capacity(alloc, all.len())?;
    for objects in all {
        shelves.push(shelf_with(alloc, objects)?)?;
    }
    Ok(shelves)
}
