// The objects of a node's shelf.
ghost use Rattle.std.specs.Prelude.{◌≡◌, ◌≤◌, ◌++◌, [], ◌∷◌, true, false, length, slice_get, Some, None, IsTrue};
ghost use Rattle.std.specs.Prelude.{IfOk, IfErr, OnOk, OnErr};
ghost use Rattle.la_object.specs.Shelves.{kind_at};
ghost use Rattle.la_serve.specs.Objects.{are_for_a_shelf, have_own_numbers, kind_named, object_in, objects_in};
ghost use Rattle.la_serve.specs.Objects.{IsNoObject, IsUnfitObject, IsFirstUnfit};

use crate::UnfitObjects;
use la_object::Kind;
use la_script::{number, split_once};
use std::marker::Model;

// How many objects there are at most.
const ROOM: usize = 64;

/// Which objects a shelf has, in the order of their addition: a number and a kind for each, no two under one
/// number, and 64 at the most.
#[derive(Drop)]
pub struct Objects {
    rows: [(u16, Kind); ROOM],
    len: usize,
}

impl Model for Objects {
    ghost use Rattle.std.specs.Prelude.{ℕ, ◌≤◌, List, take, IsTrue};
    ghost use Rattle.la_object.specs.declared.kind.Kind.{Kind};
    ghost use Rattle.la_serve.specs.Objects.{have_own_numbers};

    ghost Value = { List (ℕ × Kind) };

    ghost view = { λ o. take o.len o.rows };

    ghost invariant = { λ o. (o.len ≤ 64) × IsTrue (have_own_numbers (take o.len o.rows)) };
}

impl Objects {
    // No objects.
    fn new() -> Objects
        ensures { result ≡ [] }
    {
        Objects {
            rows: [(0, Kind::Counter); ROOM],
            len: 0,
        }
    }

    /// The objects that a text says: parts with `,` between them, each of them a number, `=` and `counter`, `max`
    /// or `set`, as `1=counter,7=set`. Where it says none, the first part that is another one, or says a number again
    /// that stands before it, or is behind 64.
    pub fn read(text: &str) -> Result<Objects, UnfitObjects<'_>>
        ensures ok { IfOk result (λ objects. objects_in text.now ≡ Some objects) }
        ensures none { OnErr result (objects_in text.now ≡ None) }
        ensures unfit { IfErr result (IsFirstUnfit text.now) }
    {
        let mut objects = Objects::new();
        for part in text.as_bytes().split(|b| *b == b',') {
            let (number, kind) = object_in(part)?;
            objects.add(number, kind)?;
        }
        Ok(objects)
    }

    // Adds one at the end, where a shelf may have it beside the others.
    fn add<'a>(&mut self, number: u16, kind: Kind) -> Result<(), UnfitObjects<'a>>
        ensures added { OnOk result (self.new ≡ self.old ++ (number, kind) ∷ []) }
        ensures fits { OnOk result (are_for_a_shelf (self.old ++ (number, kind) ∷ []) ≡ true) }
        ensures not { OnErr result (are_for_a_shelf (self.old ++ (number, kind) ∷ []) ≡ false) }
        ensures unfit { IfErr result (IsUnfitObject self.old number) }
    {
        if self.len() == ROOM {
            return Err(UnfitObjects::TooMany);
        }
        if self.kind_of(number).is_some() {
            return Err(UnfitObjects::Twice(number));
        }
        self.rows[self.len] = (number, kind);
        self.len += 1;
        Ok(())
    }

    /// Each with its number, in their order.
    pub fn as_slice(&self) -> &[(u16, Kind)]
        ensures value { result.now ≡ self.now }
        ensures own { IsTrue (have_own_numbers self.now) }
        ensures few { length result.now ≤ 64 }
    {
        &self.rows[..self.len]
    }

    /// How many there are.
    pub fn len(&self) -> usize
        ensures len { result ≡ length self.now }
        ensures few { result ≤ 64 }
    {
        self.as_slice().len()
    }

    /// The number and the kind of the one at a place, from 0.
    pub fn at(&self, place: usize) -> Option<(u16, Kind)>
        ensures { result ≡ slice_get self.now place }
    {
        self.as_slice().get(place).copied()
    }

    /// The kind of the one under a number.
    pub fn kind_of(&self, number: u16) -> Option<Kind>
        ensures { result ≡ kind_at self.now number }
    {
        for (here, kind) in self.as_slice() {
            if *here == number {
                return Some(*kind);
            }
        }
        None
    }
}

// The kind that a word names.
fn kind_named(word: &[u8]) -> Option<Kind>
    ensures { result ≡ kind_named word.now }
{
    if word == b"counter".as_slice() {
        Some(Kind::Counter)
    } else if word == b"max".as_slice() {
        Some(Kind::MaxRegister)
    } else if word == b"set".as_slice() {
        Some(Kind::OrSet)
    } else {
        None
    }
}

// The number and the kind that a part says.
fn object_in(part: &[u8]) -> Result<(u16, Kind), UnfitObjects<'_>>
    ensures ok { IfOk result (λ object. object_in part.now ≡ Some object) }
    ensures none { OnErr result (object_in part.now ≡ None) }
    ensures unfit { IfErr result (IsNoObject part.now) }
{
    let (first, word) = split_once(part, b'=');
    let Some(number) = number(0, u64::from(u16::MAX), first) else {
        return Err(UnfitObjects::NoNumber(first));
    };
    let Some(kind) = kind_named(word) else {
        return Err(UnfitObjects::NoKind(word));
    };
    Ok((number as u16, kind))
}
