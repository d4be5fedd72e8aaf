ghost use Rattle.std.specs.Prelude.{◌≡◌, IfOk, IsSome, Some};
ghost use Rattle.la_set.specs.Deltas.{delta_over};
ghost use Rattle.la_set.specs.Counts.{zero_counts};

use crate::short_counts::ShortCounts;
use crate::{Delta, UpdateSet};
use std::alloc::AllocError;
use std::marker::Model;

/// A [`Delta`] that was made of a set, as it is kept where there are many: in 40 bytes, where a
/// `Delta` takes 64. It shares the set.
#[derive(Drop)]
pub struct SharedDelta {
    base: ShortCounts,
    updates: UpdateSet,
}

impl Model for SharedDelta {
    ghost use Rattle.la_set.specs.Deltas.{DeltaState, delta_over};
    ghost use Rattle.la_set.specs.Counts.{HasCounts};

    ghost Value = { DeltaState };

    ghost view = { λ d. delta_over d.updates d.base };

    ghost invariant = { λ d. HasCounts d.updates d.base };
}

impl SharedDelta {
    /// A delta that was made of a set, at constant cost. It takes no memory.
    pub fn of(delta: Delta) -> SharedDelta
        requires { IsSome delta.made_of }
        ensures { result ≡ delta }
    {
        let base = delta.base();
        let updates = delta.into_set();
        SharedDelta {
            base: ShortCounts::of(base),
            updates,
        }
    }

    /// All of a set, as a delta over no counts. It takes no memory.
    pub fn all(updates: UpdateSet) -> SharedDelta
        ensures { result ≡ delta_over updates zero_counts }
    {
        SharedDelta {
            base: ShortCounts::zero(),
            updates,
        }
    }

    /// The set that the delta was made of.
    #[inline(always)]
    pub fn updates(&self) -> &UpdateSet
        ensures { self.now.made_of ≡ Some result.now }
    {
        &self.updates
    }

    /// The delta, at the cost of [`UpdateSet::over`].
    #[inline(always)]
    pub fn delta(&self) -> Result<Delta, AllocError>
        ensures { IfOk result (λ delta. delta ≡ self.now) }
    {
        self.updates.over(self.base.counts())
    }
}
