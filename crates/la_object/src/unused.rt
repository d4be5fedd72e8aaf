// Shelves as they are before anything is absorbed.
ghost use Rattle.std.specs.Prelude.{◌≡◌, ◌↔◌, IsTrue, All};
ghost use Rattle.la_set.specs.Histories.{empty};
ghost use Rattle.la_object.specs.Shelves.{ShelfState};

use crate::{Replicated, Shelf};

/// Whether none of the shelves has absorbed anything, as a new group asks of them. The cost is a step for each.
pub fn are_unused<B: Replicated>(shelves: &[Shelf<B>]) -> bool
    ensures { IsTrue result ↔ All (λ (s : ShelfState). s.view ≡ empty) shelves.now }
{
    for shelf in shelves {
        if shelf.view().len() != 0 {
            return false;
        }
    }
    true
}
