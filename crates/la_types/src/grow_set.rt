ghost use Rattle.std.specs.Prelude.{◌≡◌, IfErr, OnOk, OnErr};
ghost use Rattle.std.specs.FinMap as map;

use crate::bytes::behind;
use crate::elements::{INSERTS, begins_with};
use crate::{Begins, Elements, SetAnswer, SetQuery};
use la_own::own_bytes;
use la_set::Update;
use la_shelf::{Absorbs, Refusal};
use std::alloc::{AllocError, Global};

/// A set of elements, which are bytes, that grows alone: an element is in it once some update
/// inserted it.
///
/// It has no kinds, and three questions, [`SetQuery`]; only all of its elements are answered with
/// memory. A look-up is logarithmic, and it takes memory for each element once.
#[derive(Drop)]
pub struct GrowSet {
    elements: Elements,
    alloc: Global,
}

impl GrowSet {
    /// A set without elements. It takes no memory.
    pub fn new(alloc: Global) -> GrowSet
        ensures { result.elements ≡ map.empty }
    {
        GrowSet {
            elements: Elements::new(alloc),
            alloc,
        }
    }
}

impl Absorbs for GrowSet {
    ghost use Rattle.la_types.specs.GrowSets.{grow_set_meaning};
    ghost use Rattle.la_shelf.specs.declared.error.Refusal.TheVariants.{Memory};
    ghost use Rattle.la_types.specs.GrowSetLaws.{grow_set_lawful};

    type Kind = ();

    type State = Elements;

    type Query = SetQuery;

    type Answer = SetAnswer;

    ghost state = { λ s. s.elements };

    ghost meaning = { grow_set_meaning };

    ghost full = { λ _ _. ⊥ };

    fn fresh(&self) -> bool {
        self.elements.is_empty()
    }

    fn absorb(&mut self, update: &Update) -> Result<(), Refusal>
        ensures ok { OnOk result (self.new.elements ≡ grow_set_meaning.after self.old.elements update.now) }
        ensures error { IfErr result (λ e. e ≡ Memory) }
        ensures err { OnErr result (self.new.elements ≡ self.old.elements) }
    {
        let Some(own) = own_bytes(&update.op) else {
            return Ok(());
        };
        let bytes = own.as_slice();
        if !begins_with(bytes, INSERTS) {
            return Ok(());
        }
        self.elements.insert(self.alloc, behind(bytes, 1))?;
        Ok(())
    }

    fn ask(&self, query: &SetQuery) -> Result<SetAnswer, AllocError> {
        self.elements.answer(self.alloc, query)
    }

    fn state(&self) -> Result<Elements, AllocError> {
        self.elements.copy(self.alloc)
    }

    ghost lawful = { grow_set_lawful };
}

impl Begins for GrowSet {
    fn begin(alloc: Global) -> GrowSet {
        GrowSet::new(alloc)
    }
}
