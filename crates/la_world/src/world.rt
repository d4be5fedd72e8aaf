ghost use Rattle.std.specs.Prelude.{◌≡◌, ◌+◌, ◌<◌, ◌^◌, [], ◌∷◌, length, slice_get, IfOk, IfErr};
ghost use Rattle.std.specs.Prelude.{OnOk, OnErr};
ghost use Rattle.std.specs.Option.{option_copied};
ghost use Rattle.la_world.specs.Events.{Past, event_of};
ghost use Rattle.la_world.specs.Printable.{IsPrintable};
ghost use Rattle.la_world.specs.StandsFor.{StandsFor, group_in, trace_in, sent_in, world_told};
ghost use Rattle.la_node.specs.Nodes.{replicas_of, shelves_of};
ghost use Rattle.la_world.specs.Calls.{IsWorldGroup, IsMakingRefusal, replica_states_at_start, Keeps};
ghost use Rattle.la_world.specs.Calls.{may_absorb, IsSameUnless, PlaysFrom, RefusesFrom, StandsForMessage};
ghost use Rattle.la_world.specs.Calls.{view_at, view_in, known_view, decisions_in};
ghost use Rattle.la_world.specs.Calls.{returned_in, returned_of, report_with, report_after};
ghost use Rattle.la_world.specs.Headline.{IsAdoptCommit};
ghost use Rattle.la_world.specs.Promises.{GroupKeepsAll, WorldKeepsAll};
ghost use Rattle.la_world.specs.Returning.{AnswersAreListed, PlayShows};

mod deliveries;
mod questions;
mod submissions;

use crate::journal::Journal;
use crate::reporting::{add_decisions, copy_learnings, copy_views};
use crate::{Decisions, Event, Learnings, Report, Step, Steps, Views};
use la_commit::Outcome;
use la_node::{Config, Node, WorldError};
use la_object::{Replicated, Shelf, are_unused};
use la_replica::StoredMessage;
use la_set::UpdateSet;
use std::alloc::{AllocError, Global};
use std::marker::Model;

/// A group of nodes and all that was ever sent between them. Any message that was sent may be
/// delivered at any later time, again and in any order.
///
/// It keeps every message and every learnt set, so its memory grows by what is sent and learnt: by
/// an entry for each, since sets share their updates.
///
/// Each replica has a shelf of objects, which its view is absorbed by when they are asked.
#[derive(Drop)]
pub struct World<B: Replicated> {
    config: Config,
    nodes: Vec<Node<B>>,
    journal: Journal,
}

impl<B: Replicated> Model for World<B> {
    ghost use Rattle.la_world.specs.StandsFor.{World, world_of};
    ghost use Rattle.la_world.specs.Calls.{HoldsWorldInvariant};
    ghost use Rattle.la_node.specs.Nodes.{replicas_of, shelves_of};

    ghost Value = { World };

    ghost view = { λ w.
        world_of w.config (replicas_of w.nodes.items) (shelves_of w.nodes.items) w.journal };

    ghost invariant = { λ w. HoldsWorldInvariant
        (world_of w.config (replicas_of w.nodes.items) (shelves_of w.nodes.items) w.journal) };
}

impl<B: Replicated> World<B> {
    /// A group in which nothing has happened, with a shelf for each replica, from 0 on.
    ///
    /// `BadConfig` comes exactly where a value is out of its range, there are votes for another
    /// number of replicas, there are not as many shelves as replicas, or one of them has absorbed
    /// something; else `Memory`. After a refusal the shelves are dropped.
    pub fn new(
        alloc: Global,
        config: Config,
        shelves: Vec<Shelf<B>>,
    ) -> Result<World<B>, WorldError>
        ensures config { IfOk result (λ world. world.config ≡ config) }
        ensures shelves { IfOk result (λ world. world.shelves ≡ shelves.items) }
        ensures stands { IfOk result (λ world. StandsFor world []) }
        ensures group { OnOk result (IsWorldGroup config shelves.items) }
        ensures error { IfErr result (IsMakingRefusal config shelves.items) }
    {
        let shelves_fit = shelves.len() == config.replicas as usize && are_unused(&shelves);
        if !config.is_group() || !shelves_fit {
            return Err(WorldError::BadConfig);
        }
        Ok(World {
            config,
            nodes: nodes_of(alloc, config, shelves)?,
            journal: Journal::new(alloc),
        })
    }

    /// Plays an event: a replica submits, a message that was sent is delivered, a replica proposes a
    /// value to an adopt-commit object, or an object on a replica's shelf is asked.
    ///
    /// A submission is refused with `NoSuchReplica` where the group has no such replica, and else
    /// with `Full` where it has submitted its cap; a delivery with `NoSuchMessage` where fewer
    /// messages were sent; a proposal with `NoSuchReplica`, else with `NoSuchCommit` where the
    /// group has no such object, else with `AlreadyProposed` where this replica has proposed to it.
    /// A question is refused with `NoSuchReplica`, else with `NoSuchObject` where no object stands
    /// under the number on the replica's shelf. `Memory` comes where none of these fits. After each
    /// the world is as before; but after `Memory` at a question the shelf may have absorbed some of
    /// its replica's view, by which no later answer differs. Fewer than 2^64 - 1 events may be
    /// accepted.
    ///
    /// A replica that learns a set in the first instance of an adopt-commit object casts its second
    /// vote in the same step; by the set that it learns in the second one it returns its outcome, which
    /// the step shows, and which stays whatever is played later.
    ///
    /// At a question the shelf absorbs the replica's view, and the answer is the query's value over
    /// that. It is an event as any other: it takes a place.
    ///
    /// The cost is that of the replica's step, in which no updates are compared: what was sent fits
    /// all that its receiver knows. Sets that are sent, said, learnt and kept share their updates,
    /// so that an event takes memory for what it adds: one update for a submission or a vote, its
    /// mail, and a learning's entry. A question costs what the view has gained since the last one to
    /// this replica, and the answer.
    #[inline(always)]
    pub fn play(&mut self, event: &Event) -> Result<Step, WorldError>
        requires { self.old.count + 1 < 2 ^ 64 }
        ensures step { PlaysFrom self.old (event_of event.now) result self.new }
        ensures keeps_all { (events : Past) → StandsFor self.old events →
            OnOk result (WorldKeepsAll self.new (event_of event.now ∷ events)) }
        ensures shows { (events : Past) → StandsFor self.old events → PlayShows self.old result self.new }
        ensures printable { IfOk result IsPrintable }
        ensures error { RefusesFrom self.old (event_of event.now) result }
        ensures keeps { OnErr result (Keeps self.old self.new) }
        ensures err { IfErr result (λ e.
            IsSameUnless (may_absorb (event_of event.now) e) self.old self.new) }
    {
        self.take_event(event)
    }

    // The same, by what kind of event it is.
    #[inline(always)]
    fn take_event(&mut self, event: &Event) -> Result<Step, WorldError>
        requires { self.old.count + 1 < 2 ^ 64 }
        ensures step { PlaysFrom self.old (event_of event.now) result self.new }
        ensures printable { IfOk result IsPrintable }
        ensures error { RefusesFrom self.old (event_of event.now) result }
        ensures keeps { OnErr result (Keeps self.old self.new) }
        ensures err { IfErr result (λ e.
            IsSameUnless (may_absorb (event_of event.now) e) self.old self.new) }
    {
        match event {
            Event::Submit {
                replica,
                object,
                op,
            } => self.submit(*replica, *object, op),
            Event::Deliver(number) => self.deliver(*number),
            Event::Decide {
                replica,
                commit,
                value,
            } => self.decide(*replica, *commit, *value),
            Event::Ask {
                replica,
                object,
                query,
            } => self.ask(*replica, *object, query),
        }
    }

    /// How many events were accepted.
    pub fn events(&self) -> u64
        ensures value { result ≡ self.now.count }
        ensures stands { (events : Past) → StandsFor self.now events → result ≡ length events }
    {
        self.journal.count
    }

    /// How many messages were sent.
    #[tactic(auto, using(crate::proofs::Worlds::sent_is))]
    pub fn sent(&self) -> u64
        ensures value { result ≡ length self.now.messages }
        ensures stands { (events : Past) → StandsFor self.now events →
            result ≡ length (sent_in self.now events) }
    {
        self.journal.messages.len() as u64
    }

    /// The message with a number, from 0 in the order in which they were sent; `None` where fewer
    /// were sent.
    #[tactic(auto, using(crate::proofs::Worlds::message_found, crate::proofs::Worlds::message_told))]
    pub fn message(&self, number: u64) -> Option<&StoredMessage>
        ensures value { option_copied result ≡ slice_get self.now.messages number }
        ensures stands { (events : Past) → StandsFor self.now events →
            StandsForMessage (option_copied result) (slice_get (sent_in self.now events) number) }
        ensures told { (events : Past) → StandsFor self.now events →
            option_copied result ≡ slice_get (world_told self.now events) number }
    {
        self.stored_message(number)
    }

    fn stored_message(&self, number: u64) -> Option<&StoredMessage>
        ensures { option_copied result ≡ slice_get self.now.messages number }
    {
        self.journal.messages.get(number as usize)
    }

    /// The view of a replica; `None` where the group has no such replica.
    #[tactic(auto, using(crate::proofs::Worlds::view_is))]
    pub fn view(&self, replica: u8) -> Option<&UpdateSet>
        ensures value { option_copied result ≡ view_in self.now replica }
        ensures stands { (events : Past) → StandsFor self.now events → option_copied result
            ≡ known_view (group_in self.now) (trace_in self.now events) replica }
    {
        view_among(&self.nodes, replica)
    }

    /// What a replica returned from an adopt-commit object; `None` where it has not, or the group
    /// has no such replica, or no such object. Where one answer is a commit, each one of its object has
    /// its value, also from another moment. The cost is that of a pass over the votes, of which there is
    /// one a replica.
    #[tactic(auto, using(crate::proofs::Returned::returned_found))]
    pub fn outcome(&self, commit: u8, replica: u8) -> Option<Outcome>
        ensures value { result ≡ returned_in self.now commit replica }
        ensures stands { (events : Past) → StandsFor self.now events → result
            ≡ returned_of (group_in self.now) (trace_in self.now events) commit replica }
        ensures listed { (events : Past) → StandsFor self.now events → AnswersAreListed self.now }
        ensures safe { (events : Past) → StandsFor self.now events →
            IsAdoptCommit events (decisions_in self.now) }
    {
        self.returned_from(commit, replica)
    }

    #[tactic(auto, using(crate::proofs::WorldNodes::replica_at))]
    fn returned_from(&self, commit: u8, replica: u8) -> Option<Outcome>
        ensures { result ≡ returned_in self.now commit replica }
    {
        if commit >= self.config.commits {
            return None;
        }
        match self.nodes.get(replica as usize) {
            Some(node) => node.outcome(commit),
            None => None,
        }
    }

    // What was returned, by object, and then by replica.
    fn decisions(&self) -> Result<Decisions, AllocError>
        ensures { IfOk result (λ made. made ≡ decisions_in self.now) }
    {
        let mut made = Vec::new(*self.nodes.allocator());
        for commit in 0..self.config.commits {
            add_decisions(&mut made, &self.nodes, commit)?;
        }
        Ok(Decisions::from(made))
    }

    /// A report of these lines, of what was learnt, of the views and of what was returned, at the
    /// cost of an entry for each; their updates are shared. It refuses with want of memory alone.
    #[tactic(auto, using(crate::proofs::Worlds::views_are, crate::proofs::Returned::decisions_are, crate::proofs::Promised::world_keeps))]
    pub fn report(&self, steps: Steps) -> Result<Report, AllocError>
        ensures value { IfOk result (λ report. report ≡ report_with self.now steps) }
        ensures stands { (events : Past) → StandsFor self.now events →
            IfOk result (λ report. report ≡ report_after self.now events steps) }
        ensures keeps_all { (events : Past) → StandsFor self.now events → IfOk result (λ report.
            GroupKeepsAll (group_in self.now) events report.learnt report.views report.outcomes) }
    {
        Ok(Report {
            config: self.config,
            steps,
            learnt: Learnings::from(copy_learnings(&self.journal.learnt)?),
            views: Views::from(copy_views(&self.nodes)?),
            outcomes: self.decisions()?,
        })
    }

    /// The report that [`World::report`] would make, of a world that goes: what was learnt is
    /// handed out, and the views are copied. It refuses with want of memory alone, and then the
    /// world is lost.
    #[tactic(auto, using(crate::proofs::Worlds::views_are, crate::proofs::Returned::decisions_are, crate::proofs::Promised::world_keeps))]
    pub fn into_report(self, steps: Steps) -> Result<Report, AllocError>
        ensures value { IfOk result (λ report. report ≡ report_with self steps) }
        ensures stands { (events : Past) → StandsFor self events →
            IfOk result (λ report. report ≡ report_after self events steps) }
        ensures keeps_all { (events : Past) → StandsFor self events → IfOk result (λ report.
            GroupKeepsAll (group_in self) events report.learnt report.views report.outcomes) }
    {
        let views = copy_views(&self.nodes)?;
        let outcomes = self.decisions()?;
        let config = self.config;
        let journal = self.journal;
        Ok(Report {
            config,
            steps,
            learnt: Learnings::from(journal.learnt),
            views: Views::from(views),
            outcomes,
        })
    }
}

// The view of a node's replica, if there is one with this number.
#[tactic(auto, using(crate::proofs::WorldNodes::replica_at))]
fn view_among<B: Replicated>(nodes: &[Node<B>], replica: u8) -> Option<&UpdateSet>
    ensures { option_copied result ≡ view_at (replicas_of nodes.now) replica }
{
    match nodes.get(replica as usize) {
        Some(node) => Some(node.view()),
        None => None,
    }
}

// The nodes of a group in which nothing has happened, each with its shelf.
fn nodes_of<B: Replicated>(
    alloc: Global,
    config: Config,
    shelves: Vec<Shelf<B>>,
) -> Result<Vec<Node<B>>, AllocError>
    requires { IsWorldGroup config shelves.items }
    ensures replicas { IfOk result (λ nodes.
        replicas_of nodes.items ≡ replica_states_at_start config) }
    ensures shelves { IfOk result (λ nodes. shelves_of nodes.items ≡ shelves.items) }
{
    let mut nodes = Vec::with_capacity(alloc, shelves.len())?;
    let mut own: u8 = 0;
    for shelf in shelves {
        // Every value is in its range, so that only memory is left.
        let Ok(node) = Node::new(alloc, config, own, shelf) else {
            return Err(AllocError);
        };
        nodes.push(node)?;
        own += 1;
    }
    Ok(nodes)
}
