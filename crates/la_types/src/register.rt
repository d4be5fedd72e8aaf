ghost use Rattle.std.specs.Prelude.{◌≡◌, None, IfErr, OnOk, OnErr};

use crate::bytes::behind;
use crate::write::{stamp_in, take};
use crate::{Begins, Bytes, Write};
use la_own::own_bytes;
use la_set::Update;
use la_shelf::{Absorbs, Refusal};
use std::alloc::{AllocError, Global};

/// A register of bytes, in which the last write wins: that with the largest stamp, and of several
/// with one stamp that with the largest id. The stamp is of its maker's choice, as a clock's time.
///
/// It has no kinds, one question, `()`, and its answer is the value last written, or `None` before
/// a write. It keeps the last write alone.
#[derive(Drop)]
pub struct Register {
    last: Option<Write>,
    alloc: Global,
}

impl Register {
    /// A register in which nothing was written. It takes no memory.
    pub fn new(alloc: Global) -> Register
        ensures { result.last ≡ None }
    {
        Register { last: None, alloc }
    }
}

impl Absorbs for Register {
    ghost use Rattle.la_types.specs.Registers.{register_meaning};
    ghost use Rattle.la_shelf.specs.declared.error.Refusal.TheVariants.{Memory};
    ghost use Rattle.la_types.specs.RegisterLaws.{register_lawful};

    type Kind = ();

    type State = Option<Write>;

    type Query = ();

    type Answer = Option<Bytes>;

    ghost state = { λ register. register.last };

    ghost meaning = { register_meaning };

    ghost full = { λ _ _. ⊥ };

    fn fresh(&self) -> bool {
        self.last.is_none()
    }

    fn absorb(&mut self, update: &Update) -> Result<(), Refusal>
        ensures ok { OnOk result (self.new.last ≡ register_meaning.after self.old.last update.now) }
        ensures error { IfErr result (λ e. e ≡ Memory) }
        ensures err { OnErr result (self.new.last ≡ self.old.last) }
    {
        let Some(own) = own_bytes(&update.op) else {
            return Ok(());
        };
        let bytes = own.as_slice();
        if bytes.len() < 8 {
            return Ok(());
        }
        take(
            &mut self.last,
            self.alloc,
            stamp_in(bytes),
            update.id,
            behind(bytes, 8),
        )?;
        Ok(())
    }

    fn ask(&self, _question: &()) -> Result<Option<Bytes>, AllocError> {
        match &self.last {
            Some(write) => Ok(Some(write.value.copy()?)),
            None => Ok(None),
        }
    }

    fn state(&self) -> Result<Option<Write>, AllocError> {
        match &self.last {
            Some(write) => Ok(Some(write.copy()?)),
            None => Ok(None),
        }
    }

    ghost lawful = { register_lawful };
}

impl Begins for Register {
    fn begin(alloc: Global) -> Register {
        Register::new(alloc)
    }
}
