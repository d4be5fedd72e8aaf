ghost use Rattle.std.specs.Prelude.{◌≡◌, [], None, IfOk};
ghost use mathlib.Core.List.{IsPrefix};
ghost use Rattle.la_shared.specs.Bases.{AgreesWith, HasOffers};
ghost use Rattle.la_shared.specs.Passes.{IsNewcomer, IsOffered, IsPass};

use crate::table::Core;
use crate::{Gate, Note, Pass};
use la_acceptor::{AcceptorError, Reply};
use la_set::{Counts, UpdateSet};
use std::alloc::{AllocError, Global};
use std::marker::{Brand, Model};
use std::sync::Wait;

/// An acceptor that threads share, by reference. A contract sees which acceptor it is; what is
/// known of its history the passes know.
///
/// Whoever calls keeps that passes and notes are of this acceptor: each call requires it.
#[derive(Drop)]
pub struct SharedAcceptor {
    number: u8,
    core: Core,
}

impl Model for SharedAcceptor {
    ghost use Rattle.la_shared.specs.Passes.{AcceptorName, table_name};

    ghost Value = { AcceptorName };

    ghost view = { λ acceptor. table_name acceptor.core.table.shared.table_id };
}

impl SharedAcceptor {
    /// An acceptor that has accepted nothing, and a first pass, which has seen nothing. The number
    /// is what [`Gate::inside`] is told.
    pub fn new(alloc: Global, number: u8) -> Result<(SharedAcceptor, Pass), AllocError>
        ensures { IfOk result (λ new. IsNewcomer new.0 [] new.1) }
    {
        let (core, seat) = Core::new(alloc)?;
        let pass = Pass {
            seat,
            acceptor: number,
            offered: Counts::zero(),
        };
        Ok((SharedAcceptor { number, core }, pass))
    }

    /// A further pass of this acceptor, which has seen what the given pass has seen, and has made
    /// no offer. It takes no memory and waits for nothing.
    pub fn another(&self, pass: &mut Pass) -> Pass
        requires { pass.old.acceptor ≡ self.now }
        ensures same { pass.new ≡ pass.old }
        ensures new { IsNewcomer self.now pass.old.seen result }
        ensures pass { IsPass result }
    {
        let other = self.core.split(&mut pass.seat);
        Pass {
            seat: other,
            acceptor: self.number,
            offered: Counts::zero(),
        }
    }

    /// Offers a set in turn: it waits until no other offer has the turn, draws the ticket that is
    /// served, takes what is accepted, calls [`Gate::inside`], answers by the acceptor's rule, records
    /// the entry, puts back what is accepted now, and serves the next ticket.
    ///
    /// `Clash` comes exactly where an id has two different updates, in the offer and in what was
    /// accepted, and names the least such id; `Memory` where a growth was refused. After either
    /// nothing is recorded, what was accepted is as it was, and the turn has passed on.
    ///
    /// The cost is that of [`Acceptor::offer`](la_acceptor::Acceptor::offer), which compares all
    /// that both sets have, and of the wait for the turn, in which the thread yields the processor
    /// after each look. Whoever looks first has the next turn. No
    /// clause says that a turn ever comes: it does not where a caller in its turn never ends, and an
    /// offer that finds 2^62 tickets drawn waits for ever.
    pub fn offer<R: Wait, G: Gate>(
        &self,
        rt: &R,
        pass: &mut Pass,
        set: &UpdateSet,
        gate: &G,
    ) -> Result<Reply, AcceptorError>
        requires { pass.old.acceptor ≡ self.now }
        ensures { IsOffered self.now set.now pass.old pass.new result }
    {
        self.offer_beyond(rt, pass, set, Counts::zero(), gate)
    }

    /// [`SharedAcceptor::offer`], of a set that contains each set which this pass has offered: with its
    /// answers and refusals, and what stands after them. What the last answered one had was accepted
    /// then, and is so ever since; so only what the offer and the accepted set have beyond that is
    /// compared while the turn is held, and the cost is that. For a pass that has made no offer it is
    /// that of `offer`.
    pub fn offer_grown<R: Wait, G: Gate>(
        &self,
        rt: &R,
        pass: &mut Pass,
        set: &UpdateSet,
        gate: &G,
    ) -> Result<Reply, AcceptorError>
        requires acceptor { pass.old.acceptor ≡ self.now }
        requires grown { HasOffers pass.old.mine set.now }
        ensures { IsOffered self.now set.now pass.old pass.new result }
    {
        let base = pass.offered;
        self.offer_beyond(rt, pass, set, base, gate)
    }

    /// [`SharedAcceptor::offer`], of a set that is known to have within these counts what was accepted
    /// by all that the pass has seen: with its answers and refusals, and what stands after them. What
    /// is accepted only grows, and has them in the offer's turn too; so only what both have beyond them
    /// is compared while the turn is held, and the cost is that.
    pub fn offer_beyond<R: Wait, G: Gate>(
        &self,
        rt: &R,
        pass: &mut Pass,
        set: &UpdateSet,
        base: Counts,
        gate: &G,
    ) -> Result<Reply, AcceptorError>
        requires acceptor { pass.old.acceptor ≡ self.now }
        requires agrees { AgreesWith base pass.old.seen set.now }
        ensures { IsOffered self.now set.now pass.old pass.new result }
    {
        let mut acceptor = self.core.take(rt, &mut pass.seat);
        gate.inside(self.number);
        match acceptor.offer_beyond(set, base) {
            Ok(reply) => {
                self.core.record::<Brand>(&mut pass.seat, set, &reply);
                pass.offered = set.counts();
                self.core.put_back(&mut pass.seat, acceptor);
                Ok(reply)
            }
            Err(error) => {
                self.core.put_back(&mut pass.seat, acceptor);
                Err(error)
            }
        }
    }

    /// What a pass has seen, for another thread's pass. It takes no memory and waits for nothing.
    pub fn note(&self, pass: &mut Pass) -> Note
        requires { pass.old.acceptor ≡ self.now }
        ensures same { pass.new ≡ pass.old }
        ensures note { (result.acceptor ≡ self.now) × (result.seen ≡ pass.old.seen) }
    {
        Note {
            seat: self.core.split(&mut pass.seat),
            acceptor: self.number,
        }
    }

    /// Lets a pass see what the note's giver had seen: it has then seen that, and perhaps more. It
    /// takes no memory and waits for nothing.
    pub fn meet(&self, pass: &mut Pass, note: Note)
        requires pass { pass.old.acceptor ≡ self.now }
        requires note { note.acceptor ≡ self.now }
        ensures acceptor { pass.new.acceptor ≡ self.now }
        ensures number { pass.new.number ≡ pass.old.number }
        ensures mine { pass.new.mine ≡ pass.old.mine }
        ensures before { IsPrefix pass.old.seen pass.new.seen }
        ensures told { IsPrefix note.seen pass.new.seen }
        ensures pass { IsPass pass.new }
    {
        let Note { seat, acceptor: _ } = note;
        self.core.meet(&mut pass.seat, seat);
    }
}
