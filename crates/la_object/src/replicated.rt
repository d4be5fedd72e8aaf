ghost use Rattle.std.specs.Prelude.{◌≡◌, ◌↔◌, false, IsTrue, IsOk, IfOk, IfErr, OnOk, OnErr};

use crate::{Answer, Kind, ObserveError, Query, State};
use la_set::{Tags, Update};
use std::alloc::AllocError;

/// An object that changes by updates alone.
///
/// Its contract speaks of its state: each call is a step or a reading of it, the same for all
/// objects of a kind.
pub trait Replicated: Drop + Send {
    ghost use Rattle.la_object.specs.declared.state.State.{State};
    ghost use Rattle.la_object.specs.Objects.{after, reply, tags_of, kind_of, answers_a_list};
    ghost use Rattle.la_object.specs.Objects.{IsFresh, HasRoom};
    ghost use Rattle.la_object.specs.Refusals.{IsObserveRefusal};

    /// What the object keeps of the updates that it absorbed.
    ghost state: { Self → State };

    /// The object's kind, which never changes.
    fn kind(&self) -> Kind
        ensures { result ≡ kind_of (state self.now) };

    /// Whether the object is in its kind's start state, as where it has absorbed nothing.
    fn fresh(&self) -> bool
        ensures { IsTrue result ↔ IsFresh (state self.now) };

    /// Whether the object may absorb one more update: of a counter, whether both sums are at most
    /// [`MAX_SUM`]. The other kinds always have room.
    ///
    /// [`MAX_SUM`]: crate::MAX_SUM
    fn has_room(&self) -> bool
        ensures { IsTrue result ↔ HasRoom (state self.now) };

    /// Absorbs an update: one step of the state. An operation of another kind changes nothing, nor
    /// does a `Put` whose id is there. After a refusal the object is unchanged.
    fn absorb(&mut self, update: &Update) -> Result<(), AllocError>
        requires { HasRoom (state self.old) }
        ensures ok { OnOk result (state self.new ≡ after (state self.old) update.now) }
        ensures err { OnErr result (state self.new ≡ state self.old) };

    /// Answers a query by the state: [`Answer::Foreign`], where it is not one of the kind's. Only an
    /// answer that is a list takes memory.
    fn ask(&self, query: &Query) -> Result<Answer, AllocError>
        ensures ok { IfOk result (λ answer. answer ≡ reply (state self.now) query.now) }
        ensures room { answers_a_list (kind_of (state self.now)) query.now ≡ false → IsOk result };

    /// The live tags of an element: the ids of its Puts that no `Remove` names, which a `Remove` of
    /// it is to name. Other kinds than an observed-remove set have none. `TooManyTags` comes exactly
    /// where they are more than [`MAX_TAGS`]; up to [`INLINE_TAGS`] of them take no memory.
    ///
    /// [`MAX_TAGS`]: la_set::MAX_TAGS
    /// [`INLINE_TAGS`]: la_set::INLINE_TAGS
    fn observed(&self, element: u64) -> Result<Tags, ObserveError>
        ensures ok { IfOk result (λ tags. tags ≡ tags_of (state self.now) element) }
        ensures error { IfErr result (IsObserveRefusal (tags_of (state self.now) element)) };

    /// A copy of the object's state.
    fn state(&self) -> Result<State, AllocError>
        ensures { IfOk result (λ copy. copy ≡ state self.now) };
}
