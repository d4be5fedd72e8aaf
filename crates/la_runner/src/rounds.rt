// What a member does in one instance: rounds of offers, until a set with all that it submitted is
// learnt.
ghost use Rattle.std.specs.Prelude.{IfOk};
ghost use Rattle.la_proposer.specs.ProposerState.{op_on};
ghost use Rattle.la_runner.specs.InstanceCalls.{IsInstanceOf, IsOwnInstanceOf, IsOpenInstanceOf};
ghost use Rattle.la_runner.specs.InstanceCalls.{GoesOnAsking, EndsInView, RunsRounds, LearnsIn, ResumesIn, UpdatesIn};
ghost use Rattle.la_runner.specs.Instances.{state_of, InstanceSteps};

use crate::instance::Instance;
use crate::{Learned, RunnerError};
use la_proposer::Status;
use la_set::Op;
use la_shared::{Gate, SharedAcceptor};
use std::sync::Wait;

impl Instance {
    // One round, and a learnt set becomes the view, where it is larger.
    fn round_and_view<R: Wait, G: Gate>(
        &mut self,
        rt: &R,
        acceptors: &[SharedAcceptor],
        own: u8,
        instance: u8,
        gate: &G,
    ) -> Result<Option<Learned>, RunnerError>
        requires { IsInstanceOf acceptors.now (state_of self.old) }
        ensures steps { InstanceSteps (state_of self.old) (state_of self.new) }
        ensures asks { GoesOnAsking result (state_of self.old) (state_of self.new) }
        ensures ends { EndsInView result (state_of self.old) (state_of self.new) }
    {
        match self.round(rt, acceptors, own, instance, gate)? {
            None => Ok(None),
            Some(learning) => {
                self.view.take_larger(learning.again);
                Ok(Some(Learned {
                    ballot: learning.ballot,
                    updates: learning.updates,
                }))
            }
        }
    }

    // At most so many rounds, until a set with all that was submitted is learnt, and how many are
    // left then.
    pub fn learn<R: Wait, G: Gate>(
        &mut self,
        rt: &R,
        acceptors: &[SharedAcceptor],
        own: u8,
        instance: u8,
        rounds: u32,
        gate: &G,
    ) -> Result<(Learned, u32), RunnerError>
        requires { IsOpenInstanceOf acceptors.now own (state_of self.old) }
        ensures runs { RunsRounds rounds result (state_of self.old) (state_of self.new) }
        ensures learns { IfOk result (LearnsIn rounds (state_of self.old) (state_of self.new)) }
    {
        let mine = self.proposer.submitted();
        let mut is_unended = false;
        for round in 0..rounds {
            let asked = self.proposer.status();
            if let Some(learned) = self.round_and_view(rt, acceptors, own, instance, gate)? {
                if learned.updates.count_of(own) >= mine {
                    return Ok((learned, rounds - round - 1));
                }
            }
            is_unended = self.proposer.status() == asked;
        }
        if is_unended {
            Err(RunnerError::NoMajority)
        } else {
            Err(RunnerError::TryAgain)
        }
    }

    // Submits an update, and then runs rounds until a set that holds it is learnt.
    pub fn update<R: Wait, G: Gate>(
        &mut self,
        rt: &R,
        acceptors: &[SharedAcceptor],
        own: u8,
        instance: u8,
        object: u16,
        op: Op,
        rounds: u32,
        gate: &G,
    ) -> Result<(Learned, u32), RunnerError>
        requires { IsOwnInstanceOf acceptors.now own (state_of self.old) }
        ensures { UpdatesIn rounds (op_on object op) result (state_of self.old) (state_of self.new) }
    {
        self.proposer.submit(object, op)?;
        // a hint to the prover: its contract tells what holds of every proposer
        let _state = self.proposer.status();
        self.learn(rt, acceptors, own, instance, rounds, gate)
    }

    // Runs rounds until a learning leaves nothing to offer; none, where nothing is offered.
    pub fn resume<R: Wait, G: Gate>(
        &mut self,
        rt: &R,
        acceptors: &[SharedAcceptor],
        own: u8,
        instance: u8,
        rounds: u32,
        gate: &G,
    ) -> Result<Option<Learned>, RunnerError>
        requires { IsOwnInstanceOf acceptors.now own (state_of self.old) }
        ensures runs { RunsRounds rounds result (state_of self.old) (state_of self.new) }
        ensures resumes { ResumesIn result (state_of self.old) (state_of self.new) }
    {
        if self.proposer.status() == Status::Idle {
            return Ok(None);
        }
        let (learned, _) = self.learn(rt, acceptors, own, instance, rounds, gate)?;
        Ok(Some(learned))
    }
}
