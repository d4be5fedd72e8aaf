// What a set keeps: its lists behind one pointer, and where one of them is cut.
ghost use Rattle.std.specs.Prelude.{◌≡◌, ◌≢◌, ◌≤◌, ◌<◌, ◌%◌, ◌⊎◌, ℕ, [], false, length, min};
ghost use Rattle.std.specs.Prelude.{slice_index_or, unwrap_or, ◌++◌, IfOk, IfSome};
ghost use Rattle.std.specs.Option.{option_copied};
ghost use Rattle.la_set.specs.Links.{lent_items};
ghost use Rattle.la_set.specs.Representation.{represented, lengths_of, four_of};
ghost use Rattle.la_set.specs.Kept.{lists_of, cut_of, cut_to, stored};

use crate::history::{History, Lent};
use crate::lists::{EightLists, FourLists, halves};
use crate::{Counts, REPLICAS, Update};
use std::alloc::{AllocError, Global};
use std::sync::Arc;

// A set's lists, and where one of them is cut, as `Cut` says. All takes two words: fields lie in the
// order in which they are written, so the pointer comes last.
#[derive(Drop)]
pub(crate) enum Kept {
    // No updates, and no memory.
    Empty,
    // Of replicas 0 to 3 alone, in half as much memory: no other has updates.
    Few {
        replica: u8,
        len: u32,
        of: Arc<FourLists>,
    },
    // Of all replicas.
    Many {
        replica: u8,
        len: u32,
        of: Arc<EightLists>,
    },
}

// Where one of a set's lists is cut: of this replica the set has only the first so many.
#[derive(Clone, Copy)]
pub(crate) struct Cut {
    pub(crate) replica: u8,
    pub(crate) len: u32,
}

// There is no such replica: no list is cut.
const UNCUT: Cut = Cut {
    replica: REPLICAS,
    len: 0,
};

impl Kept {
    // These lists, in one block, which is the small one where it can be.
    pub(crate) fn keeping(alloc: Global, of: [History<Update>; 8]) -> Result<Kept, AllocError>
        ensures lists { IfOk result (λ kept. lists_of kept ≡ of) }
        ensures uncut { IfOk result (λ kept. (cut_of kept).replica ≡ REPLICAS) }
    {
        let (low, high) = halves(of);
        let low = FourLists::of(low);
        let high = FourLists::of(high);
        let Cut { replica, len } = UNCUT;
        if high.are_empty() {
            let of = Arc::new(alloc, low)?;
            return Ok(Kept::Few { replica, len, of });
        }
        let of = Arc::new(alloc, EightLists { low, high })?;
        Ok(Kept::Many { replica, len, of })
    }

    // These lists of replicas 0 to 3, in one block.
    pub(crate) fn keeping_few(alloc: Global, low: FourLists) -> Result<Kept, AllocError>
        ensures lists { IfOk result (λ kept. lists_of kept ≡ four_of low ++ four_of []) }
        ensures uncut { IfOk result (λ kept. (cut_of kept).replica ≡ REPLICAS) }
    {
        let Cut { replica, len } = UNCUT;
        let of = Arc::new(alloc, low)?;
        Ok(Kept::Few { replica, len, of })
    }

    // The lists of replicas 0 to 3, where none of another may have updates, and none is cut.
    pub(crate) fn few(&self) -> Option<&FourLists>
        ensures uncut { IfSome (option_copied result) (λ _. (cut_of self.now).replica ≡ REPLICAS) }
        ensures lists { IfSome (option_copied result) (λ low.
            lists_of self.now ≡ four_of low ++ four_of []) }
    {
        match self {
            Kept::Few { replica, of, .. } if *replica == REPLICAS => Some(&**of),
            _ => None,
        }
    }

    // The four lists among which a replica's is, where any of these may have updates.
    fn four(&self, replica: u8) -> Option<&FourLists>
        requires { replica < REPLICAS }
        ensures { slice_index_or (lists_of self.now) replica []
            ≡ slice_index_or (unwrap_or (option_copied result) []) (replica % 4) [] }
    {
        match self {
            Kept::Empty => None,
            Kept::Few { of, .. } if replica < 4 => Some(&**of),
            Kept::Few { .. } => None,
            Kept::Many { of, .. } if replica < 4 => Some(&of.low),
            Kept::Many { of, .. } => Some(&of.high),
        }
    }

    // A replica's whole list.
    pub(crate) fn list(&self, replica: u8) -> Lent<'_, Update>
        requires { replica < REPLICAS }
        ensures { lent_items result ≡ slice_index_or (lists_of self.now) replica [] }
    {
        match self.four(replica) {
            Some(four) => four.link(replica % 4),
            None => None,
        }
    }

    // How long that list is, without a look at its items.
    pub(crate) fn len_of(&self, replica: u8) -> u32
        requires { replica < REPLICAS }
        ensures { result ≡ length (slice_index_or (lists_of self.now) replica []) }
    {
        match self.four(replica) {
            Some(four) => four.len_of(replica % 4),
            None => 0,
        }
    }

    // How long each whole list is.
    pub(crate) fn counts(&self) -> Counts
        ensures { result ≡ lengths_of (lists_of self.now) }
    {
        match self {
            Kept::Empty => Counts::zero(),
            Kept::Few { of, .. } => Counts::of_fours(of.lens(), [0; 4]),
            Kept::Many { of, .. } => Counts::of_fours(of.low.lens(), of.high.lens()),
        }
    }

    // Where a list is cut.
    pub(crate) fn cut(&self) -> Cut
        ensures { result ≡ cut_of self.now }
    {
        match self {
            Kept::Empty => UNCUT,
            Kept::Few { replica, len, .. } | Kept::Many { replica, len, .. } => Cut {
                replica: *replica,
                len: *len,
            },
        }
    }

    // Whether a list may be cut that is not this replica's.
    pub(crate) fn is_cut_elsewhere(&self, replica: u8) -> bool
        ensures { result ≡ false
            → ((cut_of self.now).replica ≡ REPLICAS) ⊎ ((cut_of self.now).replica ≡ replica) }
    {
        let cut = self.cut();
        cut.replica != REPLICAS && cut.replica != replica
    }

    // One more owner of the same.
    #[inline(always)]
    pub(crate) fn copy(&self) -> Result<Kept, AllocError>
        ensures lists { IfOk result (λ copy. lists_of copy ≡ lists_of self.now) }
        ensures cut { IfOk result (λ copy. cut_of copy ≡ cut_of self.now) }
    {
        match self {
            Kept::Empty => Ok(Kept::Empty),
            Kept::Few { replica, len, of } => Ok(Kept::Few {
                replica: *replica,
                len: *len,
                of: Arc::try_clone(of)?,
            }),
            Kept::Many { replica, len, of } => Ok(Kept::Many {
                replica: *replica,
                len: *len,
                of: Arc::try_clone(of)?,
            }),
        }
    }

    // The same lists, but cut here, and nowhere else.
    pub(crate) fn cut_at(self, cut: Cut) -> Kept
        ensures lists { lists_of result ≡ lists_of self }
        ensures set { stored result ≡ cut_to cut (represented (lists_of self)) }
    {
        let Cut { replica, len } = cut;
        match self {
            Kept::Empty => Kept::Empty,
            Kept::Few { of, .. } => Kept::Few { replica, len, of },
            Kept::Many { of, .. } => Kept::Many { replica, len, of },
        }
    }
}

impl Cut {
    // How many it leaves of a replica's so many updates.
    pub(crate) fn leaves(self, replica: u8, len: u32) -> u32
        ensures own { replica ≡ self.replica → result ≡ min len self.len }
        ensures other { replica ≢ self.replica → result ≡ len }
    {
        if replica == self.replica {
            len.min(self.len)
        } else {
            len
        }
    }
}
