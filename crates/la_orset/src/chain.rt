ghost use Rattle.std.specs.Prelude.{◌≡◌, [], ◌∷◌, length, slice_get, OnOk, OnErr};
ghost use Rattle.std.specs.Option.{option_copied};

use std::alloc::{AllocError, Global};
use std::marker::Model;
use std::mem;

/// A list of boxed nodes, the newest first. A value that is pushed takes one box, and nothing else
/// takes memory. Nodes are freed one after another, so that a chain of any length is dropped
/// without using the stack up.
#[cycle(chain)]
pub struct Chain<T> {
    len: usize,
    top: Link<T>,
}

#[cycle(chain)]
enum Link<T> {
    End,
    More(T, Box<Chain<T>>),
}

impl<T> Model for Chain<T> {
    ghost use Rattle.std.specs.Prelude.{List, length, ◌≡◌};

    ghost Value = { List T };

    ghost use Rattle.la_orset.specs.Items.{items};

    ghost view = { λ a. items a.top };

    ghost invariant = { λ a. a.len ≡ length (items a.top) };

    ghost size = { length };

    ghost use Rattle.std.proofs.Common.{arith, length-append};

    ghost size_decreases = { λ a h. Prim.grind (arith, length-append) };
}

impl<T: Drop> Drop for Chain<T> {
    fn drop(mut self) {
        loop {
            let Chain { len: _, top } = self;
            match top {
                Link::End => return,
                Link::More(_, rest) => self = Box::into_inner(rest),
            }
        }
    }
}

impl<T> Chain<T> {
    /// A chain without values, which takes no memory.
    pub fn new() -> Self
        ensures { result ≡ [] }
    {
        Chain {
            len: 0,
            top: Link::End,
        }
    }

    /// How many values there are, at constant cost.
    pub fn len(&self) -> usize
        ensures { result ≡ length self.now }
    {
        self.len
    }

    /// The newest value, at constant cost.
    pub fn first(&self) -> Option<&T>
        ensures { option_copied result ≡ slice_get self.now 0 }
    {
        match &self.top {
            Link::End => None,
            Link::More(value, _) => Some(value),
        }
    }

    /// The value at a place, from 0, newest first, by going through those before it.
    pub fn nth(&self, place: usize) -> Option<&T>
        ensures { option_copied result ≡ slice_get self.now place }
    {
        let mut here = self;
        let mut left = place;
        loop {
            match &here.top {
                Link::End => return None,
                Link::More(value, below) => {
                    if left == 0 {
                        return Some(value);
                    }
                    left -= 1;
                    here = below;
                }
            }
        }
    }

    /// Puts a value before all others, at constant cost. After a refusal nothing has changed.
    pub fn push_front(&mut self, alloc: Global, value: T) -> Result<(), AllocError>
    where
        T: Drop,
        ensures ok { OnOk result (self.new ≡ value ∷ self.old) }
        ensures err { OnErr result (self.new ≡ self.old) }
    {
        let Some(len) = self.len.checked_add(1) else {
            return Err(AllocError);
        };
        let below = mem::replace(self, Chain::new());
        match Box::new(alloc, below) {
            Ok(below) => {
                *self = Chain {
                    len,
                    top: Link::More(value, below),
                };
                Ok(())
            }
            Err(failed) => {
                *self = failed.value;
                Err(AllocError)
            }
        }
    }
}
