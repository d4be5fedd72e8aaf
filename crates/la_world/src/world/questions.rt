// Questions to the objects on a replica's shelf, which absorbs the replica's view first.
ghost use Rattle.std.specs.Prelude.{◌≡◌, ◌+◌, ◌<◌, ◌^◌, Some, IfOk, IfErr, OnOk, OnErr};
ghost use Rattle.la_world.specs.Events.{Past, Ask};
ghost use Rattle.la_world.specs.Printable.{IsPrintable};
ghost use Rattle.la_world.specs.StandsFor.{StandsFor, group_in, trace_in};
ghost use Rattle.la_world.specs.Calls.{Keeps, may_absorb, IsSameUnless, world_tags, IsWorldTagsRefusal};
ghost use Rattle.la_world.specs.Calls.{HasObject, IsObjectRefusal, PlaysFrom, RefusesFrom};
ghost use Rattle.la_world.specs.Calls.{IsFollowing, LeftUntoldWorld};

use super::World;
use crate::Step;
use la_node::WorldError;
use la_object::{Query, Replicated, ShelfError};
use la_set::Tags;

impl<B: Replicated> World<B> {
    pub(super) fn ask(
        &mut self,
        replica: u8,
        object: u16,
        query: &Query,
    ) -> Result<Step, WorldError>
        requires { self.old.count + 1 < 2 ^ 64 }
        ensures step { PlaysFrom self.old (Ask replica object query.now) result self.new }
        ensures printable { IfOk result IsPrintable }
        ensures error { RefusesFrom self.old (Ask replica object query.now) result }
        ensures keeps { OnErr result (Keeps self.old self.new) }
        ensures err { IfErr result (λ e.
            IsSameUnless (may_absorb (Ask replica object query.now) e) self.old self.new) }
    {
        self.admit_question(replica, object)?;
        // There is such an object, so that only memory is left.
        let Ok(answer) = self.nodes[replica as usize].ask(object, query) else {
            return Err(WorldError::Memory);
        };
        Ok(self.journal.note_answer(answer))
    }

    /// The live tags of an element of an object on a replica's shelf, by the replica's view, which
    /// the shelf absorbs first: what a `Remove` of it submitted there is to name. It is no event.
    ///
    /// `NoSuchReplica` comes where the group has no such replica, else `NoSuchObject` where no object
    /// stands under the number on its shelf, else `TooManyTags` where the tags are more than a
    /// `Remove` may name, or `Memory`. The world stands for the same events as before, whatever is
    /// answered; it is the same after the first two, and after `TooManyTags` the shelf has absorbed the
    /// whole view. The cost is that of a question.
    pub fn observed(&mut self, replica: u8, object: u16, element: u64) -> Result<Tags, WorldError>
        ensures tags { (events : Past) → StandsFor self.old events → IfOk result (λ tags.
            world_tags (group_in self.old) (trace_in self.old events) replica object element
            ≡ Some tags) }
        ensures error { (events : Past) → StandsFor self.old events → IfErr result
            (IsWorldTagsRefusal (group_in self.old) (trace_in self.old events) replica object element) }
        ensures follows { OnOk result (IsFollowing self.new replica) }
        ensures err { IfErr result (λ e. LeftUntoldWorld e replica self.old self.new) }
        ensures keeps { Keeps self.old self.new }
    {
        self.admit_question(replica, object)?;
        match self.nodes[replica as usize].observed(object, element) {
            Ok(tags) => Ok(tags),
            Err(ShelfError::TooManyTags) => Err(WorldError::TooManyTags),
            Err(_) => Err(WorldError::Memory),
        }
    }

    // Whether a replica's shelf may be asked for an object: by the first refusal that fits.
    #[tactic(auto, using(crate::proofs::WorldNodes::shelf_at))]
    fn admit_question(&self, replica: u8, object: u16) -> Result<(), WorldError>
        ensures ok { OnOk result (HasObject self.now.shelves replica object) }
        ensures error { IfErr result (IsObjectRefusal self.now.shelves replica object) }
    {
        let Some(node) = self.nodes.get(replica as usize) else {
            return Err(WorldError::NoSuchReplica);
        };
        if !node.has(object) {
            return Err(WorldError::NoSuchObject);
        }
        Ok(())
    }
}
