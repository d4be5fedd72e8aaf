// An object of any kind, without a box.
ghost use Rattle.std.specs.Prelude.{◌≡◌, IfOk};
ghost use Rattle.la_object.specs.Objects.{start};
ghost use Rattle.la_embed.specs.Objects.{object_state};

use la_object::{Answer, Counter, Kind, MaxRegister, ObserveError, Query, Replicated, State};
use la_orset::OrSet;
use la_set::{Tags, Update};
use std::alloc::{AllocError, Global};

/// An object of one of the kinds.
#[derive(Drop)]
pub enum AnyObject {
    /// A counter.
    Counter(Counter),
    /// A max register.
    MaxRegister(MaxRegister),
    /// An observed-remove set.
    Set(OrSet),
}

impl AnyObject {
    /// An object of a kind that has absorbed nothing. It takes no memory.
    pub fn new(alloc: Global, kind: Kind) -> AnyObject
        ensures { object_state result ≡ start kind }
    {
        match kind {
            Kind::Counter => AnyObject::Counter(Counter::new(alloc)),
            Kind::MaxRegister => AnyObject::MaxRegister(MaxRegister::new(alloc)),
            Kind::OrSet => AnyObject::Set(OrSet::new(alloc)),
        }
    }
}

impl Replicated for AnyObject {
    ghost state = { object_state };

    fn kind(&self) -> Kind {
        match self {
            AnyObject::Counter(object) => object.kind(),
            AnyObject::MaxRegister(object) => object.kind(),
            AnyObject::Set(object) => object.kind(),
        }
    }

    fn fresh(&self) -> bool {
        match self {
            AnyObject::Counter(object) => object.fresh(),
            AnyObject::MaxRegister(object) => object.fresh(),
            AnyObject::Set(object) => object.fresh(),
        }
    }

    fn has_room(&self) -> bool {
        match self {
            AnyObject::Counter(object) => object.has_room(),
            AnyObject::MaxRegister(object) => object.has_room(),
            AnyObject::Set(object) => object.has_room(),
        }
    }

    fn absorb(&mut self, update: &Update) -> Result<(), AllocError> {
        match self {
            AnyObject::Counter(object) => object.absorb(update),
            AnyObject::MaxRegister(object) => object.absorb(update),
            AnyObject::Set(object) => object.absorb(update),
        }
    }

    fn ask(&self, query: &Query) -> Result<Answer, AllocError> {
        match self {
            AnyObject::Counter(object) => object.ask(query),
            AnyObject::MaxRegister(object) => object.ask(query),
            AnyObject::Set(object) => object.ask(query),
        }
    }

    fn observed(&self, element: u64) -> Result<Tags, ObserveError> {
        match self {
            AnyObject::Counter(object) => object.observed(element),
            AnyObject::MaxRegister(object) => object.observed(element),
            AnyObject::Set(object) => object.observed(element),
        }
    }

    fn state(&self) -> Result<State, AllocError> {
        match self {
            AnyObject::Counter(object) => object.state(),
            AnyObject::MaxRegister(object) => object.state(),
            AnyObject::Set(object) => object.state(),
        }
    }
}
