ghost use Rattle.std.specs.Prelude.{◌≡◌, Some, IfOk, IfErr, OnOk, OnErr};
ghost use Rattle.la_types.specs.TwoPhaseSets.{two_phase_start, with_insertion, with_removal};

use crate::bytes::behind;
use crate::elements::{INSERTS, REMOVES, begins_with};
use crate::{Begins, Elements, SetAnswer, SetQuery};
use la_own::own_bytes;
use la_set::Update;
use la_shelf::{Absorbs, Refusal};
use std::alloc::{AllocError, Global};

/// What a [`TwoPhaseSet`] keeps of its updates.
#[derive(Drop)]
pub struct TwoPhaseState {
    /// The elements that were inserted and not removed.
    pub present: Elements,
    /// The elements that were removed, whether they had been inserted or not.
    pub removed: Elements,
}

impl TwoPhaseState {
    // Lets an element in, unless it was removed.
    fn let_in(&mut self, alloc: Global, element: &[u8]) -> Result<(), AllocError>
        ensures ok { OnOk result (self.new ≡ with_insertion self.old (Some element.now)) }
        ensures err { OnErr result (self.new ≡ self.old) }
    {
        if self.removed.has(element) {
            return Ok(());
        }
        self.present.insert(alloc, element)
    }

    // Takes an element out for good.
    fn take_out(&mut self, alloc: Global, element: &[u8]) -> Result<(), AllocError>
        ensures ok { OnOk result (self.new ≡ with_removal self.old (Some element.now)) }
        ensures err { OnErr result (self.new ≡ self.old) }
    {
        self.removed.insert(alloc, element)?;
        self.present.remove(element);
        Ok(())
    }

    fn copy(&self, alloc: Global) -> Result<TwoPhaseState, AllocError>
        ensures { IfOk result (λ copy. copy ≡ self.now) }
    {
        Ok(TwoPhaseState {
            present: self.present.copy(alloc)?,
            removed: self.removed.copy(alloc)?,
        })
    }
}

/// A set of elements, which are bytes, from which an element is removed for good: an element is in
/// it where some update inserted it and none removed it, whatever came first.
///
/// It has no kinds, and three questions, [`SetQuery`]; only all of its elements are answered with
/// memory. A look-up is logarithmic. It keeps each element that was removed, for ever.
#[derive(Drop)]
pub struct TwoPhaseSet {
    state: TwoPhaseState,
    alloc: Global,
}

impl TwoPhaseSet {
    /// A set without elements. It takes no memory.
    pub fn new(alloc: Global) -> TwoPhaseSet
        ensures { result.state ≡ two_phase_start }
    {
        TwoPhaseSet {
            state: TwoPhaseState {
                present: Elements::new(alloc),
                removed: Elements::new(alloc),
            },
            alloc,
        }
    }
}

impl Absorbs for TwoPhaseSet {
    ghost use Rattle.la_types.specs.TwoPhaseSets.{two_phase_meaning};
    ghost use Rattle.la_shelf.specs.declared.error.Refusal.TheVariants.{Memory};
    ghost use Rattle.la_types.specs.TwoPhaseSetLaws.{two_phase_lawful};

    type Kind = ();

    type State = TwoPhaseState;

    type Query = SetQuery;

    type Answer = SetAnswer;

    ghost state = { λ s. s.state };

    ghost meaning = { two_phase_meaning };

    ghost full = { λ _ _. ⊥ };

    fn fresh(&self) -> bool {
        self.state.present.is_empty() && self.state.removed.is_empty()
    }

    fn absorb(&mut self, update: &Update) -> Result<(), Refusal>
        ensures ok { OnOk result (self.new.state ≡ two_phase_meaning.after self.old.state update.now) }
        ensures error { IfErr result (λ e. e ≡ Memory) }
        ensures err { OnErr result (self.new.state ≡ self.old.state) }
    {
        let Some(own) = own_bytes(&update.op) else {
            return Ok(());
        };
        let bytes = own.as_slice();
        if begins_with(bytes, INSERTS) {
            self.state.let_in(self.alloc, behind(bytes, 1))?;
            return Ok(());
        }
        if begins_with(bytes, REMOVES) {
            self.state.take_out(self.alloc, behind(bytes, 1))?;
        }
        Ok(())
    }

    fn ask(&self, query: &SetQuery) -> Result<SetAnswer, AllocError> {
        self.state.present.answer(self.alloc, query)
    }

    fn state(&self) -> Result<TwoPhaseState, AllocError> {
        self.state.copy(self.alloc)
    }

    ghost lawful = { two_phase_lawful };
}

impl Begins for TwoPhaseSet {
    fn begin(alloc: Global) -> TwoPhaseSet {
        TwoPhaseSet::new(alloc)
    }
}
