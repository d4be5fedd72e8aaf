ghost use Rattle.std.specs.Prelude.{◌≡◌, Some, IfOk, IfErr, IfSome, OnOk, OnErr};
ghost use Rattle.std.specs.FinMap as map;
ghost use Rattle.la_own.specs.Own.{own, own_bytes_of};
ghost use Rattle.la_types.specs.KeyMaps.{map_values};
ghost use Rattle.la_types.specs.KeyedObjects.{part_bytes, part_in, part_full, with_part};
ghost use Rattle.la_shelf.specs.Refusals.{IfFull};
ghost use Rattle.la_types.specs.Refusals.{IsUnderRefusal, passed_under};

use crate::Bytes;
use crate::by_key::ByKey;
use crate::bytes::{Written, behind, put_all};
use la_own::{OWN_BYTES, OwnError, laws, own_bytes, own_op};
use la_set::{Op, Update};
use la_shelf::{Absorbs, Refusal};
use std::alloc::{AllocError, Global};
use thiserror::Error;

/// Why an operation was not put under a key.
#[derive(Clone, Copy, Debug, Error)]
pub enum UnderError {
    /// It is no operation of one's own, so that it has no bytes.
    #[error("not an operation of one's own")]
    NotOwn,

    /// The key and the operation's bytes are more than 247 bytes together.
    #[error("more than 247 bytes")]
    TooLong,

    /// A growth was refused.
    #[error("out of memory")]
    Memory,
}

impl From<OwnError> for UnderError {
    ghost from_gives = { λ error under. under ≡ passed_under error };

    fn from(error: OwnError) -> UnderError {
        match error {
            OwnError::TooLong => UnderError::TooLong,
            OwnError::Memory => UnderError::Memory,
        }
    }
}

/// The operation that does under a key of a [`Keyed`] what an operation does to an object.
///
/// `NotOwn` comes exactly where the operation is none of one's own, and else `TooLong` exactly where
/// the key and the operation's bytes are together above 247 bytes.
pub fn op_under(alloc: Global, key: &[u8], op: &Op) -> Result<Op, UnderError>
    ensures ok { IfOk result (λ under. IfSome (own_bytes_of op.now)
        (λ bytes. under ≡ own (part_bytes key.now bytes))) }
    ensures comes_back { IfOk result (λ under. part_in under ≡ Some (key.now, op.now)) }
    ensures error { IfErr result (IsUnderRefusal key.now (own_bytes_of op.now)) }
{
    let Some(own) = own_bytes(op) else {
        return Err(UnderError::NotOwn);
    };
    let bytes = own.as_slice();
    if key.len() >= OWN_BYTES || bytes.len() > OWN_BYTES - 1 - key.len() {
        return Err(UnderError::TooLong);
    }
    laws::bytes_come_back();
    let mut written = Written::new();
    written.push(key.len() as u8);
    put_all(&mut written, key);
    put_all(&mut written, bytes);
    match own_op(alloc, written.as_slice()) {
        Ok(under) => Ok(under),
        Err(_) => Err(UnderError::Memory),
    }
}

/// A type whose objects begin alike everywhere, so that a [`Keyed`] begins them by itself.
pub trait Begins: Absorbs<Kind = ()> {
    /// An object in the start state. It takes no memory.
    fn begin(alloc: Global) -> Self
        ensures { Self.state result ≡ Self.meaning.start tt };
}

/// A map from keys, which are bytes, to objects of one type, which [begin](Begins) alike: under each
/// key it is an object of that type, with the updates under the key.
///
/// It has no kinds; it is asked by a key and a question of the type, and answers as the type does,
/// in place where the type does. It keeps an object for each key that has an update, and a look-up
/// is logarithmic.
#[derive(Drop)]
pub struct Keyed<T> {
    objects: ByKey<T>,
    alloc: Global,
}

impl<T: Begins> Keyed<T> {
    /// A map in which nothing was done. It takes no memory.
    pub fn new(alloc: Global) -> Keyed<T>
        ensures { result.objects ≡ map.empty }
    {
        Keyed {
            objects: ByKey::new(alloc),
            alloc,
        }
    }

    // Absorbs an update under a key.
    fn absorb_under(&mut self, key: &[u8], update: &Update) -> Result<(), Refusal>
        ensures ok { OnOk result (map_values T.state self.new.objects
            ≡ with_part T.meaning (map_values T.state self.old.objects) (Some (key.now, update.now))) }
        ensures err { OnErr result (map_values T.state self.new.objects ≡ map_values T.state self.old.objects) }
        ensures full { IfErr result (λ why. IfFull why
            (part_full T.meaning T.full (map_values T.state self.old.objects) (Some (key.now, update.now)))) }
    {
        if self.objects.has(key) {
            return self.objects.absorb_at(key, update);
        }
        let mut object = T::begin(self.alloc);
        object.absorb(update)?;
        self.objects
            .insert(Vec::from_slice(self.alloc, key)?, object)?;
        Ok(())
    }
}

impl<T: Begins> Absorbs for Keyed<T>
where
    T::State: Drop,
{
    ghost use Rattle.la_types.specs.KeyMaps.{map_values};
    ghost use Rattle.la_types.specs.KeyedObjects.{keyed_meaning, keyed_full};
    ghost use Rattle.la_types.specs.KeyedObjectLaws.{keyed_lawful};

    type Kind = ();

    type State = ByKey<T::State>;

    type Query = (Bytes, T::Query);

    type Answer = T::Answer;

    ghost state = { λ k. map_values T.state k.objects };

    ghost meaning = { keyed_meaning T.meaning };

    ghost full = { keyed_full T.meaning T.full };

    fn fresh(&self) -> bool {
        self.objects.is_empty()
    }

    fn absorb(&mut self, update: &Update) -> Result<(), Refusal> {
        let Some(own) = own_bytes(&update.op) else {
            return Ok(());
        };
        let bytes = own.as_slice();
        if bytes.len() < 1 {
            return Ok(());
        }
        let rest = behind(bytes, 1);
        let long = bytes[0] as usize;
        if rest.len() < long {
            return Ok(());
        }
        let (key, inner) = rest.split_at(long);
        let Ok(op) = own_op(self.alloc, inner) else {
            return Err(Refusal::Memory);
        };
        let part = Update {
            id: update.id,
            object: update.object,
            op,
        };
        self.absorb_under(key, &part)
    }

    fn ask(&self, query: &(Bytes, T::Query)) -> Result<T::Answer, AllocError> {
        match self.objects.get(query.0.as_slice()) {
            Some(object) => object.ask(&query.1),
            None => T::begin(self.alloc).ask(&query.1),
        }
    }

    fn state(&self) -> Result<ByKey<T::State>, AllocError> {
        self.objects.states(self.alloc)
    }

    ghost lawful = { keyed_lawful T.meaning T.lawful };
}

impl<T: Begins> Begins for Keyed<T>
where
    T::State: Drop,
{
    fn begin(alloc: Global) -> Keyed<T> {
        Keyed::new(alloc)
    }
}
