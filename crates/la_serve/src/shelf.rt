ghost use Rattle.std.specs.Prelude.{◌≡◌, IfOk};
ghost use Rattle.la_set.specs.Histories.{empty};
ghost use Rattle.la_object.specs.Objects.{start};

use crate::Objects;
use la_object::{Kind, Replicated, Shelf, ShelfError};
use std::alloc::{AllocError, Global};

/// A shelf with these objects, each as it is made of its kind.
pub fn shelf_of<B: Replicated, F: Fn(Kind) -> Result<B, AllocError>>(
    alloc: Global,
    objects: &Objects,
    make: F,
) -> Result<Shelf<B>, ShelfError>
    requires callable { F.IsAlwaysCallable make }
    requires made { (kind made : _) → F.post make kind made → IfOk made (λ o. B.state o ≡ start kind) }
    ensures { IfOk result (λ shelf. (shelf.view ≡ empty) × (shelf.objects ≡ objects.now)) }
{
    let mut shelf = Shelf::new(alloc);
    for (number, kind) in objects.as_slice() {
        shelf.add(*number, make(*kind)?)?;
    }
    Ok(shelf)
}
