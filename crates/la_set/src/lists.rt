// The lists that a set keeps.
ghost use Rattle.std.specs.Prelude.{◌≡◌, ◌<◌, ◌≤◌, ◌↔◌, ℕ, [], ◌++◌, length, map, replicate};
ghost use Rattle.std.specs.Prelude.{slice_index_or, IsTrue};
ghost use Rattle.la_set.specs.Links.{lent_items};
ghost use Rattle.la_set.specs.Representation.{four_of};

use crate::Update;
use crate::history::{History, Lent};
use std::marker::Model;

// Four replicas' lists of updates.
#[derive(Drop)]
pub(crate) struct FourLists {
    lists: [History<Update>; 4],
}

impl Model for FourLists {
    ghost use Rattle.std.specs.Prelude.{List};
    ghost use Rattle.la_set.specs.declared.update.Update.{Update};

    ghost Value = { List (List Update) };

    ghost view = { λ l. l.lists };
}

// All replicas' lists: those of 0 to 3, and those of 4 to 7.
#[derive(Drop)]
pub(crate) struct EightLists {
    pub(crate) low: FourLists,
    pub(crate) high: FourLists,
}

impl FourLists {
    // These lists.
    pub(crate) fn of(lists: [History<Update>; 4]) -> FourLists
        ensures { result ≡ lists }
    {
        FourLists { lists }
    }

    // What leads to the list at a place.
    pub(crate) fn link(&self, place: u8) -> Lent<'_, Update>
        requires { place < 4 }
        ensures { lent_items result ≡ slice_index_or self.now place [] }
    {
        self.lists[place as usize].link()
    }

    // How long it is.
    pub(crate) fn len_of(&self, place: u8) -> u32
        requires { place < 4 }
        ensures { result ≡ length (slice_index_or self.now place []) }
    {
        self.lists[place as usize].len()
    }

    // How long each of them is.
    pub(crate) fn lens(&self) -> [u32; 4]
        ensures { result ≡ map length (four_of self.now) }
    {
        [
            self.lists[0].len(),
            self.lists[1].len(),
            self.lists[2].len(),
            self.lists[3].len(),
        ]
    }

    // Whether each of four others is as long, or longer.
    pub(crate) fn are_no_longer(&self, others: &FourLists) -> bool
        ensures { IsTrue result ↔ ((r : ℕ) → r < 4
            → length (slice_index_or self.now r []) ≤ length (slice_index_or others.now r [])) }
    {
        for place in 0..4u8 {
            if self.len_of(place) > others.len_of(place) {
                return false;
            }
        }
        true
    }

    // Whether none of them has an update.
    pub(crate) fn are_empty(&self) -> bool
        ensures { IsTrue result ↔ (four_of self.now ≡ replicate 4 []) }
    {
        self.lens() == [0; 4]
    }
}

// The first four of eight, and the others.
pub(crate) fn halves<T>(of: [T; 8]) -> ([T; 4], [T; 4])
    ensures all { result.0 ++ result.1 ≡ of }
    ensures low { length result.0 ≡ 4 }
    ensures high { length result.1 ≡ 4 }
{
    let [of_0, of_1, of_2, of_3, of_4, of_5, of_6, of_7] = of;
    ([of_0, of_1, of_2, of_3], [of_4, of_5, of_6, of_7])
}
