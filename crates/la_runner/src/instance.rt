ghost use Rattle.la_runner.specs.Asking.{IsAwaited, IsPassTo, StaysPass, OffersOnce};
ghost use Rattle.la_runner.specs.InstanceCalls.{HasAcceptors, GoesOnAsking, LeavesOffer, EndsRound};
ghost use Rattle.la_runner.specs.Instances.{state_of};

use crate::RunnerError;
use la_proposer::{Heard, Proposer, Status};
use la_set::UpdateSet;
use la_shared::{Gate, Pass, SharedAcceptor};
use std::sync::Wait;

/// What a member keeps of one instance.
#[derive(Drop)]
pub(crate) struct Instance {
    pub proposer: Proposer,
    /// The member's passes, one for each acceptor of the instance.
    pub passes: Vec<Pass>,
    /// The set that the member learnt last in the instance.
    pub learnt: Option<UpdateSet>,
    /// The largest of the sets that the member learnt here, or was told by others; empty at first.
    pub view: UpdateSet,
}

impl Instance {
    // Offers the open ballot's set to one acceptor, and hears its reply.
    pub fn ask<R: Wait, G: Gate>(
        &mut self,
        rt: &R,
        acceptors: &[SharedAcceptor],
        from: u8,
        gate: &G,
    ) -> Result<Heard, RunnerError>
        requires of { HasAcceptors acceptors.now (state_of self.old) }
        requires awaited { IsAwaited from self.old.proposer }
        ensures asks { GoesOnAsking result (state_of self.old) (state_of self.new) }
        ensures leaves { LeavesOffer result (state_of self.old) (state_of self.new) }
    {
        ask_one(
            rt,
            &mut self.proposer,
            &mut self.passes[from as usize],
            &acceptors[from as usize],
            from,
            gate,
        )
    }

    // One round: the open ballot's set is offered to each acceptor that has not counted and that the
    // gate lets through, one after the other, until the ballot ends. With a learnt set comes a copy.
    pub fn round<R: Wait, G: Gate>(
        &mut self,
        rt: &R,
        acceptors: &[SharedAcceptor],
        own: u8,
        instance: u8,
        gate: &G,
    ) -> Result<Option<Learning>, RunnerError>
        requires { HasAcceptors acceptors.now (state_of self.old) }
        ensures asks { GoesOnAsking result (state_of self.old) (state_of self.new) }
        ensures ends { EndsRound result (state_of self.old) (state_of self.new) }
    {
        let Status::Asking(number) = self.proposer.status() else {
            return Ok(None);
        };
        // had before a reply ends the ballot: then nothing can fail any more
        let last = self.proposer.updates().copy()?;
        let again = self.proposer.updates().copy()?;
        for from in 0..self.passes.len() as u8 {
            if self.proposer.has_counted(from) || !gate.lets(own, from, instance, number) {
                continue;
            }
            match self.ask(rt, acceptors, from, gate)? {
                Heard::Counted | Heard::Ignored => {}
                Heard::Refined(_) => return Ok(None),
                Heard::Learnt(updates, _) => {
                    self.learnt = Some(last);
                    return Ok(Some(Learning {
                        ballot: number,
                        updates,
                        again,
                    }));
                }
            }
        }
        Ok(None)
    }
}

/// What was learnt in a round, and a copy of it.
#[derive(Drop)]
pub(crate) struct Learning {
    pub ballot: u32,
    pub updates: UpdateSet,
    pub again: UpdateSet,
}

// Offers the open ballot's set to one acceptor, and hears its reply.
fn ask_one<R: Wait, G: Gate>(
    rt: &R,
    proposer: &mut Proposer,
    pass: &mut Pass,
    acceptor: &SharedAcceptor,
    from: u8,
    gate: &G,
) -> Result<Heard, RunnerError>
    requires pass { IsPassTo acceptor.now proposer.old pass.old }
    requires awaited { IsAwaited from proposer.old }
    ensures pass { StaysPass pass.old pass.new }
    ensures offers { OffersOnce result proposer.old from pass.old proposer.new pass.new }
{
    let Status::Asking(number) = proposer.status() else {
        return Ok(Heard::Ignored);
    };
    let reply = acceptor.offer_grown(rt, pass, proposer.updates(), gate)?;
    let heard = proposer.reply_grown(from, number, reply)?;
    // a hint to the prover: its contract tells what holds of every proposer
    let _state = proposer.status();
    Ok(heard)
}
