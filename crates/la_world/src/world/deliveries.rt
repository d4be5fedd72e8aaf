// The delivery of a message that was sent.
ghost use Rattle.std.specs.Prelude.{◌≡◌, ◌+◌, ◌<◌, ◌^◌, length, IfOk, IfErr, OnErr};
ghost use Rattle.la_node.specs.declared.error.WorldError.TheVariants.{Memory};
ghost use Rattle.la_world.specs.Events.{Deliver};
ghost use Rattle.la_world.specs.Printable.{IsPrintable};
ghost use Rattle.la_world.specs.Calls.{PlaysFrom, RefusesFrom};

use super::World;
use crate::Step;
use crate::speaker::Speaker;
use la_node::{WorldError, outcome_by};
use la_object::Replicated;

impl<B: Replicated> World<B> {
    #[inline(always)]
    pub(super) fn deliver(&mut self, number: u64) -> Result<Step, WorldError>
        requires { self.old.count + 1 < 2 ^ 64 }
        ensures step { PlaysFrom self.old (Deliver number) result self.new }
        ensures printable { IfOk result IsPrintable }
        ensures error { RefusesFrom self.old (Deliver number) result }
        ensures err { OnErr result (self.new ≡ self.old) }
    {
        if number >= self.sent() {
            return Err(WorldError::NoSuchMessage);
        }
        self.take_delivery(number as usize)
    }

    // Delivers a message that was sent, which is refused for want of memory alone.
    #[inline(always)]
    fn take_delivery(&mut self, number: usize) -> Result<Step, WorldError>
        requires count { self.old.count + 1 < 2 ^ 64 }
        requires known { number < length self.old.messages }
        ensures step { PlaysFrom self.old (Deliver number) result self.new }
        ensures printable { IfOk result IsPrintable }
        ensures error { IfErr result (λ e. e ≡ Memory) }
        ensures err { OnErr result (self.new ≡ self.old) }
    {
        let message = self.journal.message(number)?;
        self.journal.reserve(self.config.replicas)?;
        let (instance, to) = (message.instance, message.to);
        // `laws::deliveries_fit`: what was sent fits its receiver, so that only memory is left.
        let Ok((done, learnt)) = self.nodes[to as usize].take(&message) else {
            return Err(WorldError::Memory);
        };
        let speaker = Speaker {
            replicas: self.config.replicas,
            replica: to,
            instance,
            ballot: message.ballot,
            outcome: outcome_by(instance, to, learnt.as_ref()),
        };
        Ok(self.journal.note(&speaker, done, learnt))
    }
}
