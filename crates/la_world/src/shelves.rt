// What a world needs of the shelves that are handed to it.
ghost use Rattle.std.specs.Prelude.{◌≡◌, IfOk, [], replicate};
ghost use Rattle.la_set.specs.Histories.{empty};

use la_object::{Replicated, Shelf};
use std::alloc::{AllocError, Global};

/// Shelves without objects, as many as are asked for: of a group that is asked nothing, or to add
/// objects to.
pub fn empty_shelves<B: Replicated>(
    alloc: Global,
    replicas: u8,
) -> Result<Vec<Shelf<B>>, AllocError>
    ensures { IfOk result (λ shelves. shelves.items
        ≡ replicate replicas (record { view = empty; objects = [] })) }
{
    let mut shelves = Vec::with_capacity(alloc, replicas as usize)?;
    for _ in 0..replicas {
        shelves.push(Shelf::new(alloc))?;
    }
    Ok(shelves)
}
