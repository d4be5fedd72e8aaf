ghost use Rattle.std.specs.Prelude.{◌≡◌, Some, IfOk, IfErr, OnOk, OnErr};
ghost use Rattle.std.specs.FinMap as map;
ghost use Rattle.la_set.specs.declared.update.UpdateId.{UpdateId as Id};
ghost use Rattle.la_types.specs.Keyed.{keyed_op, keyed_of};
ghost use Rattle.la_types.specs.Refusals.{IsKeyedRefusal};

use crate::bytes::{Written, behind, put_all};
use crate::write::stamp_in;
use crate::{Begins, Bytes, KeyedWrites, Write};
use la_own::{OwnError, laws, own_bytes, own_op};
use la_set::{Op, Update};
use la_shelf::{Absorbs, Refusal};
use std::alloc::{AllocError, Global};

/// How long a key and its value may be together that a [`WriteMap`] takes.
pub const KEYED_BYTES: usize = 239;

/// The operation that writes a value for a key into a [`WriteMap`], under a stamp.
///
/// `TooLong` comes exactly where key and value together are above [`KEYED_BYTES`] bytes.
pub fn keyed_op(alloc: Global, stamp: u64, key: &[u8], value: &[u8]) -> Result<Op, OwnError>
    ensures ok { IfOk result (λ op. op ≡ keyed_op stamp key.now value.now) }
    ensures comes_back { IfOk result (λ op. (id : Id) → keyed_of id op
        ≡ Some (key.now, record { stamp = stamp; id = id; value = value.now })) }
    ensures error { IfErr result (IsKeyedRefusal key.now value.now) }
{
    if key.len() > KEYED_BYTES || value.len() > KEYED_BYTES - key.len() {
        return Err(OwnError::TooLong);
    }
    laws::bytes_come_back();
    let mut bytes = Written::new();
    put_all(&mut bytes, &stamp.to_le_bytes());
    bytes.push(key.len() as u8);
    put_all(&mut bytes, key);
    put_all(&mut bytes, value);
    own_op(alloc, bytes.as_slice())
}

/// A map from keys to values, both of them bytes. Under each key the last write wins: that with the
/// largest stamp, and of several with one stamp that with the largest id.
///
/// It has no kinds; it is asked by a key, and answers the value last written there, or `None`
/// before a write. It keeps the last write under each key, and a look-up is logarithmic.
#[derive(Drop)]
pub struct WriteMap {
    last: KeyedWrites,
    alloc: Global,
}

impl WriteMap {
    /// A map in which nothing was written. It takes no memory.
    pub fn new(alloc: Global) -> WriteMap
        ensures { result.last ≡ map.empty }
    {
        WriteMap {
            last: KeyedWrites::new(alloc),
            alloc,
        }
    }
}

impl Absorbs for WriteMap {
    ghost use Rattle.la_types.specs.WriteMaps.{write_map_meaning};
    ghost use Rattle.la_shelf.specs.declared.error.Refusal.TheVariants.{Memory};
    ghost use Rattle.la_types.specs.WriteMapLaws.{write_map_lawful};

    type Kind = ();

    type State = KeyedWrites;

    type Query = Bytes;

    type Answer = Option<Bytes>;

    ghost state = { λ m. m.last };

    ghost meaning = { write_map_meaning };

    ghost full = { λ _ _. ⊥ };

    fn fresh(&self) -> bool {
        self.last.is_empty()
    }

    fn absorb(&mut self, update: &Update) -> Result<(), Refusal>
        ensures ok { OnOk result (self.new.last ≡ write_map_meaning.after self.old.last update.now) }
        ensures error { IfErr result (λ e. e ≡ Memory) }
        ensures err { OnErr result (self.new.last ≡ self.old.last) }
    {
        let Some(own) = own_bytes(&update.op) else {
            return Ok(());
        };
        let bytes = own.as_slice();
        if bytes.len() < 9 {
            return Ok(());
        }
        let rest = behind(bytes, 9);
        let long = bytes[8] as usize;
        if rest.len() < long {
            return Ok(());
        }
        let (key, value) = rest.split_at(long);
        let key = Bytes::of(self.alloc, key)?;
        let write = Write {
            stamp: stamp_in(bytes),
            id: update.id,
            value: Bytes::of(self.alloc, value)?,
        };
        self.last.take(key, write)?;
        Ok(())
    }

    fn ask(&self, key: &Bytes) -> Result<Option<Bytes>, AllocError> {
        match self.last.get(key) {
            Some(write) => Ok(Some(write.value.copy()?)),
            None => Ok(None),
        }
    }

    fn state(&self) -> Result<KeyedWrites, AllocError> {
        self.last.copy(self.alloc)
    }

    ghost lawful = { write_map_lawful };
}

impl Begins for WriteMap {
    fn begin(alloc: Global) -> WriteMap {
        WriteMap::new(alloc)
    }
}
