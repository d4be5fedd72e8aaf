ghost use Rattle.std.specs.Prelude.{◌≡◌, ◌↔◌, ◌++◌, [], ◌∷◌, length, Some, None, nat_eq};
ghost use Rattle.std.specs.Prelude.{IsTrue, IsOk, IfOk, IfErr, OnOk, OnErr};
ghost use Rattle.std.specs.Map.{remove_entry};
ghost use Rattle.std.specs.Option.{option_copied, is_some};
ghost use Rattle.la_set.specs.Inclusion.{IsSubset};
ghost use Rattle.la_proposer.specs.Majority.{votes_of};
ghost use Rattle.la_proposer.specs.ProposerState.{op_on};
ghost use Rattle.la_commit.specs.Instances.{first_instance};
ghost use Rattle.la_object.specs.Objects.{kind_of};
ghost use Rattle.la_object.specs.Shelves.{kind_at, answer_at, tags_at, state_at};
ghost use Rattle.la_object.specs.Refusals.{IsAddRefusal, IsAskRefusal};
ghost use Rattle.la_replica.specs.Whole.{whole_mail};
ghost use Rattle.la_replica.specs.Received.{IsSeenWithin};
ghost use Rattle.la_replica.specs.Parcels.{unwrapped_in, UnwrapsIn, IsParcelRefusal};
ghost use Rattle.la_replica.specs.Bases.{AreToldIn};
ghost use Rattle.la_replica.specs.ReplicaState.{last_learnt, accepted_in, submitted_in};
ghost use Rattle.la_replica.specs.ReplicaState.{update_cap, commits_of};
ghost use Rattle.la_replica.specs.Refusals.{IsSubmitRefusal, IsReceiptRefusal};
ghost use Rattle.la_replica.specs.Steps.{learnt_in};
ghost use Rattle.la_replica.specs.Refusals.{HasRoom, SubmittingSpares};
ghost use Rattle.la_replica.specs.Again.{again};
ghost use Rattle.la_replica.specs.Progress.{progress_of};
ghost use Rattle.la_node.specs.Nodes.{returned_by};
ghost use Rattle.la_node.specs.Links.{standing_of, wants_standing};
ghost use Rattle.la_node.specs.Preparing.{FitsHere};
ghost use Rattle.la_node.specs.Calls as call;
ghost use Rattle.la_node.specs.Steps.{node_step, given_out, given_of, given_due};
ghost use Rattle.la_node.specs.Resuming.{are_participants, may_resume_node, resumed_node};
ghost use Rattle.la_node.specs.Nodes.{followed, with_shelf, MayStart, node_at_start};
ghost use Rattle.la_node.specs.Nodes.{IsStartRefusal, IsProposeRefusal, IsObservedRefusal};
ghost use Rattle.la_node.specs.Nodes.{outcome_due, OutcomesStayIn, ReturnsIn, LeftUntoldNode};

use crate::link::{bases_of, tells_nothing};
use crate::participant::{for_memory, outcome_by, returned, take_noting, take_prepared};
use crate::resumed::are_participants;
use crate::{Config, Done, Standing, WorldError};
use la_commit::{Fresh, MAX_COMMITS, Outcome, first_instance};
use la_object::{Answer, Query, Replicated, Shelf, ShelfError, State};
use la_proposer::Votes;
use la_replica::{Mail, Message, Out, Parcel, Progress, Replica, ReplicaError};
use la_set::{Counts, Op, Tags, UpdateSet};
use std::alloc::{AllocError, Global};
use std::marker::Model;

/// What a node did with a message.
#[derive(Drop)]
pub struct Received {
    /// What its replica did, with the second vote, and what it sends.
    pub done: Done,
    /// What it returns from an adopt-commit object, where it learnt a set in the second instance: from
    /// then on [`Node::outcome`] answers this.
    pub outcome: Option<Outcome>,
}

/// One replica of a group with all that it does: its part in adopt-commit objects, and a shelf of
/// objects that answer by its view. What it answers to send is for a transport of the caller's.
#[derive(Drop)]
pub struct Node<B: Replicated> {
    replica: Replica,
    shelf: Shelf<B>,
}

impl<B: Replicated> Model for Node<B> {
    ghost use Rattle.la_node.specs.Nodes.{NodeState, IsNode};

    ghost Value = { NodeState };

    ghost view = { λ n. record { replica = n.replica; shelf = n.shelf } };

    ghost invariant = { λ n. IsNode (record { replica = n.replica; shelf = n.shelf }) };
}

impl<B: Replicated> Node<B> {
    /// Replica `own` of a group, in which nothing has happened, with a shelf that has absorbed
    /// nothing.
    ///
    /// In this order: `BadConfig` where a value of the group is out of its range, there are votes for
    /// another number of replicas, or the shelf has absorbed something; `NoSuchReplica`; `Memory`.
    /// After each the shelf is dropped.
    pub fn new(
        alloc: Global,
        config: Config,
        own: u8,
        shelf: Shelf<B>,
    ) -> Result<Node<B>, WorldError>
        ensures start { IfOk result (λ node. node ≡ node_at_start config own shelf) }
        ensures group { OnOk result (MayStart config shelf) }
        ensures error { IfErr result (IsStartRefusal config own shelf) }
    {
        if !may_start(&config, &shelf) {
            return Err(WorldError::BadConfig);
        }
        if own >= config.replicas {
            return Err(WorldError::NoSuchReplica);
        }
        let replica = Replica::new(
            alloc,
            config.replicas,
            own,
            config.cap,
            config.commits,
            config.votes,
        )?;
        Ok(Node { replica, shelf })
    }

    /// The node of a replica that is taken up again, with a shelf. `None` comes exactly where no node has
    /// them: where the shelf has absorbed what the replica's view has not, or the replica's instances
    /// are not those of a participant of adopt-commit objects, which votes once in each. Then both are
    /// dropped. It takes no memory. The cost is that of comparing the shelf's view with the replica's,
    /// and of a look at each instance.
    pub fn resumed(replica: Replica, shelf: Shelf<B>) -> Option<Node<B>>
        ensures { result ≡ resumed_node (record { replica = replica; shelf = shelf }) }
    {
        if !may_resume(&replica, &shelf) {
            return None;
        }
        Some(Node { replica, shelf })
    }

    /// Its replica, at constant cost. Its contract also tells that a node may be made of it again,
    /// with any shelf that has absorbed no more than its view.
    pub fn replica(&self) -> &Replica
        ensures replica { result.now ≡ self.now.replica }
        ensures resumable { IsTrue (are_participants self.now.replica.instances) }
    {
        &self.replica
    }

    /// Which replica of its group it is, from 0 on.
    pub fn own(&self) -> u8
        ensures { result ≡ self.now.replica.own }
    {
        self.replica.own()
    }

    /// How many replicas its group has: at most 8.
    pub fn replicas(&self) -> u8
        ensures { result ≡ length self.now.replica.votes }
    {
        self.replica.replicas()
    }

    /// The votes of its group.
    pub fn votes(&self) -> Votes
        ensures { votes_of result ≡ self.now.replica.votes }
    {
        self.replica.votes()
    }

    /// How many updates it may submit in instance 0.
    pub fn cap(&self) -> u32
        ensures { result ≡ update_cap self.now.replica }
    {
        self.replica.cap()
    }

    /// How many adopt-commit objects its group has: at most 16.
    pub fn commits(&self) -> u8
        ensures { result ≡ commits_of self.now.replica }
    {
        self.replica.commits()
    }

    /// How far it is in instance 0.
    pub fn progress(&self) -> Progress
        ensures { result ≡ progress_of self.now.replica }
    {
        self.replica.progress()
    }

    /// How far it is, for the sender of a parcel: the answer to one that told nothing new, or over more than is here.
    pub fn standing(&self, parcel: &Parcel) -> Standing
        ensures { result ≡ standing_of self.now.replica parcel.now }
    {
        Standing {
            replicas: self.replicas(),
            from: self.own(),
            to: parcel.from,
            progress: self.progress(),
            over: bases_of(&parcel.content),
        }
    }

    /// Whether a parcel is to be answered by [how far this node is](Node::standing), and not received: one of
    /// instance 0 that would be refused with `NoBase`, by the base of its offer or told set, or tells a set of
    /// which the view has all, by counts. Then its sender tells what is lacking, or tells no more. The cost is
    /// that of a look at each update of a told set.
    pub fn wants_standing(&self, parcel: &Parcel) -> bool
        ensures { result ≡ wants_standing self.now.replica parcel.now }
    {
        parcel.instance == 0 && tells_nothing(self.progress(), &parcel.content)
    }

    /// What it answers questions from.
    pub fn view(&self) -> &UpdateSet
        ensures { result.now ≡ self.now.replica.view }
    {
        self.replica.view()
    }

    /// The set that it learnt last in an instance; `None` where it learnt none there, or there is no
    /// such instance.
    pub fn last_learnt(&self, instance: u8) -> Option<&UpdateSet>
        ensures { option_copied result ≡ last_learnt self.now.replica instance }
    {
        self.replica.last_learnt(instance)
    }

    /// What it has accepted in an instance; `None` where there is no such instance.
    pub fn accepted(&self, instance: u8) -> Option<&UpdateSet>
        ensures { option_copied result ≡ accepted_in self.now.replica instance }
    {
        self.replica.accepted(instance)
    }

    /// How much it has submitted in an instance; `None` where there is no such instance.
    pub fn submitted(&self, instance: u8) -> Option<u32>
        ensures { result ≡ submitted_in self.now.replica instance }
    {
        self.replica.submitted(instance)
    }

    /// Whether an object stands under the number on its shelf.
    pub fn has(&self, object: u16) -> bool
        ensures { result ≡ is_some (kind_at self.now.shelf.objects object) }
    {
        self.shelf.has(object)
    }

    /// What it returned from an adopt-commit object; `None` where it has not, or there is no such
    /// object. Once there, it is the same after every call. The cost is that of a pass over the votes.
    pub fn outcome(&self, commit: u8) -> Option<Outcome>
        ensures { result ≡ returned_by commit self.now.replica }
    {
        let replica = &self.replica;
        if commit >= MAX_COMMITS {
            return None;
        }
        returned(replica, commit)
    }

    /// What a timer should send once more where answers stay away, as [`Replica::again`] has it.
    pub fn again(&self) -> Result<Mail, AllocError>
        ensures mail { IfOk result (λ mail. whole_mail mail ≡ again self.now.replica) }
        ensures told { (offered : Counts)
            → IfOk result (AreToldIn self.now.replica offered) }
        ensures nothing { again self.now.replica ≡ [] → IsOk result }
    {
        self.replica.again()
    }

    /// Submits an update for an object, in instance 0, with the errors and the cost of
    /// [`Replica::submit`].
    pub fn submit(&mut self, object: u16, op: Op) -> Result<Out, ReplicaError>
        ensures step { IfOk result (λ out.
            node_step self.old.replica (call.Submitted (op_on object op)) ≡ Some (given_out out, self.new.replica)) }
        ensures shelf { self.new.shelf ≡ self.old.shelf }
        ensures grows { IsSubset self.old.replica.view self.new.replica.view }
        ensures stays { OutcomesStayIn self.old.replica self.new.replica }
        ensures error { IfErr result (IsSubmitRefusal self.old.replica 0) }
        ensures err { OnErr result (self.new ≡ self.old) }
    {
        let out = self.replica.submit(0, object, op)?;
        Ok(out)
    }

    /// Proposes a value to an adopt-commit object, in its first instance. The cost is that of
    /// [`Replica::submit`].
    ///
    /// In this order: `NoSuchCommit`; `AlreadyProposed`; `Memory`. After each the node is as before.
    pub fn propose(&mut self, commit: u8, value: u64) -> Result<Out, WorldError>
        ensures step { IfOk result (λ out.
            node_step self.old.replica (call.Proposed commit value) ≡ Some (given_out out, self.new.replica)) }
        ensures shelf { self.new.shelf ≡ self.old.shelf }
        ensures grows { IsSubset self.old.replica.view self.new.replica.view }
        ensures stays { OutcomesStayIn self.old.replica self.new.replica }
        ensures error { IfErr result (IsProposeRefusal self.old.replica commit) }
        ensures err { OnErr result (self.new ≡ self.old) }
    {
        let first = self.admit_proposal(commit)?;
        let (_, vote) = Fresh::new(self.replica.own()).propose(value);
        match self.replica.submit(first, commit as u16, Op::from(vote)) {
            Ok(out) => Ok(out),
            Err(refused) => Err(WorldError::from(for_memory(refused))),
        }
    }

    // Whether it may propose to an object, whatever it proposes: in this instance, or by the first
    // refusal that fits.
    fn admit_proposal(&self, commit: u8) -> Result<u8, WorldError>
        ensures instance { IfOk result (λ i. i ≡ first_instance commit) }
        ensures first { OnOk result
            (submitted_in self.now.replica (first_instance commit) ≡ Some 0) }
        ensures room { OnOk result (HasRoom self.now.replica (first_instance commit)) }
        ensures spares { OnOk result
            (SubmittingSpares self.now.replica (first_instance commit)) }
        ensures error { IfErr result (IsProposeRefusal self.now.replica commit) }
    {
        let replica = &self.replica;
        if commit >= MAX_COMMITS {
            return Err(WorldError::NoSuchCommit);
        }
        let first = first_instance(commit);
        match replica.submitted(first) {
            None => Err(WorldError::NoSuchCommit),
            Some(0) => Ok(first),
            Some(_) => Err(WorldError::AlreadyProposed),
        }
    }

    /// Receives a message, honest or not, with the errors of [`Replica::receive`]. Where the replica
    /// learns a set by it in the first instance of an adopt-commit object, it casts its second vote
    /// in the same step; both happen, or neither, and the vote is refused for want of memory alone.
    /// The cost is that of [`Replica::receive`], and of the vote's submission.
    pub fn receive(&mut self, message: &Message) -> Result<Received, ReplicaError>
        ensures step { IfOk result (λ received.
            node_step self.old.replica (call.Received message.now) ≡ Some (given_of received, self.new.replica)) }
        ensures returns { IfOk result (λ received.
            ReturnsIn message.now.instance received.outcome self.new.replica) }
        ensures shelf { self.new.shelf ≡ self.old.shelf }
        ensures grows { IsSubset self.old.replica.view self.new.replica.view }
        ensures stays { OutcomesStayIn self.old.replica self.new.replica }
        ensures error { IfErr result (IsReceiptRefusal self.old.replica message.now) }
        ensures err { OnErr result (self.new ≡ self.old) }
    {
        self.receive_beyond(message, Counts::zero())
    }

    /// Receives a parcel, honest or not, with the errors of [`Replica::receive_parcel`]: as
    /// [`Node::receive`] does the message that it is here, with the second vote that is due. After each
    /// the node is as before, and the parcel is dropped. The cost is that of
    /// [`Replica::receive_parcel`], and of the vote's submission.
    pub fn receive_parcel(&mut self, parcel: Parcel) -> Result<Received, ReplicaError>
        ensures step { IfOk result (λ received.
            node_step self.old.replica (call.Received (unwrapped_in self.old.replica parcel))
            ≡ Some (given_of received, self.new.replica)) }
        ensures returns { IfOk result (λ received.
            ReturnsIn parcel.instance received.outcome self.new.replica) }
        ensures unwraps { OnOk result (UnwrapsIn self.old.replica parcel) }
        ensures shelf { self.new.shelf ≡ self.old.shelf }
        ensures grows { IsSubset self.old.replica.view self.new.replica.view }
        ensures stays { OutcomesStayIn self.old.replica self.new.replica }
        ensures error { IfErr result (IsParcelRefusal self.old.replica parcel) }
        ensures err { OnErr result (self.new ≡ self.old) }
    {
        let known = parcel.base_of_told();
        let message = self.replica.unwrapped(parcel)?;
        self.receive_beyond(&message, known)
    }

    // Receives a message, where it is known within which counts a told set of instance 0 has what the
    // view has.
    fn receive_beyond(&mut self, message: &Message, known: Counts) -> Result<Received, ReplicaError>
        requires seen { IsSeenWithin self.old.replica known message.now }
        ensures step { IfOk result (λ received.
            node_step self.old.replica (call.Received message.now) ≡ Some (given_of received, self.new.replica)) }
        ensures returns { IfOk result (λ received.
            ReturnsIn message.now.instance received.outcome self.new.replica) }
        ensures shelf { self.new.shelf ≡ self.old.shelf }
        ensures grows { IsSubset self.old.replica.view self.new.replica.view }
        ensures stays { OutcomesStayIn self.old.replica self.new.replica }
        ensures error { IfErr result (IsReceiptRefusal self.old.replica message.now) }
        ensures err { OnErr result (self.new ≡ self.old) }
    {
        let own = self.replica.own();
        let (out, change) = self.replica.prepare_beyond(message, known)?;
        let done = take_noting(&mut self.replica, message, out, change)?;
        let outcome = outcome_by(message.instance, own, done.said.learnt());
        Ok(Received { done, outcome })
    }

    /// Receives a message that is known to fit, as what was sent in a group does (`deliveries_fit` of
    /// `la_world`): no updates are compared. It is refused for want of memory alone, and then the node is
    /// as before.
    pub fn receive_fitting(&mut self, message: &Message) -> Result<Received, AllocError>
        requires { FitsHere self.old.replica message.now }
        ensures step { IfOk result (λ received.
            node_step self.old.replica (call.Received message.now) ≡ Some (given_of received, self.new.replica)) }
        ensures returns { IfOk result (λ received.
            ReturnsIn message.now.instance received.outcome self.new.replica) }
        ensures shelf { self.new.shelf ≡ self.old.shelf }
        ensures grows { IsSubset self.old.replica.view self.new.replica.view }
        ensures stays { OutcomesStayIn self.old.replica self.new.replica }
        ensures err { OnErr result (self.new ≡ self.old) }
    {
        let own = self.replica.own();
        let (done, learnt) = self.take(message)?;
        let outcome = outcome_by(message.instance, own, learnt.as_ref());
        Ok(Received { done, outcome })
    }

    /// Receives a message that is known to fit, as [`Node::receive_fitting`] does, and answers a copy of
    /// the set that the replica learns by it, if it learns one.
    #[inline(always)]
    pub fn take(&mut self, message: &Message) -> Result<(Done, Option<UpdateSet>), AllocError>
        requires { FitsHere self.old.replica message.now }
        ensures step { IfOk result (λ taken.
            node_step self.old.replica (call.Received message.now)
            ≡ Some (given_due self.old.replica message.now taken.0, self.new.replica)) }
        ensures learnt { IfOk result (λ taken. taken.1 ≡ learnt_in taken.0.said) }
        ensures returns { IfOk result (λ taken. ReturnsIn message.now.instance
            (outcome_due message.now.instance self.old.replica.own taken.0.said)
            self.new.replica) }
        ensures shelf { self.new.shelf ≡ self.old.shelf }
        ensures grows { IsSubset self.old.replica.view self.new.replica.view }
        ensures stays { OutcomesStayIn self.old.replica self.new.replica }
        ensures err { OnErr result (self.new ≡ self.old) }
    {
        // The results are wide, and a `?` would copy each once more.
        let Ok((out, change)) = self.replica.prepare_fitting(message) else {
            return Err(AllocError);
        };
        let Ok(taken) = take_prepared(&mut self.replica, message, out, change) else {
            return Err(AllocError);
        };
        Ok(taken)
    }

    /// Adds an object, as [`Shelf::add`] does.
    pub fn add(&mut self, number: u16, object: B) -> Result<(), ShelfError>
        ensures ok { OnOk result (self.new ≡ with_shelf self.old (record self.old.shelf {
          objects = self.old.shelf.objects ++ (number, kind_of (B.state object)) ∷ [];
        })) }
        ensures error { IfErr result
            (IsAddRefusal (kind_at self.old.shelf.objects number) (B.state object)) }
        ensures err { OnErr result (self.new ≡ self.old) }
    {
        self.shelf.add(number, object)
    }

    // Lets the shelf absorb the view, by counts alone.
    fn follow(&mut self) -> Result<(), AllocError>
        ensures ok { OnOk result (self.new ≡ with_shelf self.old (followed self.old)) }
        ensures replica { self.new.replica ≡ self.old.replica }
        ensures objects { self.new.shelf.objects ≡ self.old.shelf.objects }
        ensures within { IsSubset self.new.shelf.view self.new.replica.view }
    {
        // The view has all that the shelf has absorbed, so that only memory is left.
        match self.shelf.absorb_compatible(self.replica.view()) {
            Ok(_) => Ok(()),
            Err(_) => Err(AllocError),
        }
    }

    /// Asks an object on the shelf, which first absorbs what the view gained since the last
    /// question: the cost is that of the gain, and of the answer.
    ///
    /// `NoSuchObject` comes where there is none under the number, and leaves the node as it was;
    /// else `Memory`, after which the shelf may have absorbed some of the view, by which no later
    /// answer differs.
    pub fn ask(&mut self, object: u16, query: &Query) -> Result<Answer, ShelfError>
        ensures ok { IfOk result (λ answer.
            answer_at (followed self.old) object query.now ≡ Some answer) }
        ensures follows { OnOk result (self.new ≡ with_shelf self.old (followed self.old)) }
        ensures error { IfErr result (IsAskRefusal (kind_at self.old.shelf.objects object)) }
        ensures replica { self.new.replica ≡ self.old.replica }
        ensures objects { self.new.shelf.objects ≡ self.old.shelf.objects }
        ensures within { IsSubset self.new.shelf.view self.new.replica.view }
        ensures absent { kind_at self.old.shelf.objects object ≡ None → self.new ≡ self.old }
    {
        self.shelf.ask_by(self.replica.view(), object, query)
    }

    /// The live tags of an element of an object on the shelf, by the view, which the shelf absorbs
    /// first: what a `Remove` of it submitted here is to name. The cost is that of a question.
    ///
    /// `NoSuchObject` comes where there is none under the number, and leaves the node as it was; else
    /// `TooManyTags` (over 64), once the view is absorbed, or `Memory`, after which the shelf may have
    /// absorbed some of it, by which no later answer differs.
    #[tactic(auto, using(crate::proofs::Nodes::observed_refused))]
    pub fn observed(&mut self, object: u16, element: u64) -> Result<Tags, ShelfError>
        ensures ok { IfOk result (λ tags.
            tags_at (followed self.old) object element ≡ Some tags) }
        ensures follows { OnOk result (self.new ≡ with_shelf self.old (followed self.old)) }
        ensures error { IfErr result
            (IsObservedRefusal (tags_at (followed self.old) object element)) }
        ensures err { IfErr result (λ e. LeftUntoldNode e self.old self.new) }
        ensures replica { self.new.replica ≡ self.old.replica }
        ensures objects { self.new.shelf.objects ≡ self.old.shelf.objects }
        ensures within { IsSubset self.new.shelf.view self.new.replica.view }
    {
        if !self.shelf.has(object) {
            return Err(ShelfError::NoSuchObject);
        }
        let Ok(()) = self.follow() else {
            return Err(ShelfError::Memory);
        };
        self.shelf.observed(object, element)
    }

    /// Takes an object off the shelf, with the errors of [`Shelf::retire`], and answers its state by
    /// the view, which the shelf absorbs first.
    pub fn retire(&mut self, number: u16) -> Result<State, ShelfError>
        ensures ok { IfOk result (λ state. state_at (followed self.old) number ≡ Some state) }
        ensures rest { OnOk result (self.new.shelf ≡ record (followed self.old) {
          objects = remove_entry (nat_eq number) self.old.shelf.objects;
        }) }
        ensures error { IfErr result (IsAskRefusal (kind_at self.old.shelf.objects number)) }
        ensures replica { self.new.replica ≡ self.old.replica }
        ensures err { OnErr result (self.new.shelf.objects ≡ self.old.shelf.objects) }
    {
        if !self.shelf.has(number) {
            return Err(ShelfError::NoSuchObject);
        }
        let Ok(()) = self.follow() else {
            return Err(ShelfError::Memory);
        };
        self.shelf.retire(number)
    }
}

// Whether a node may be made of these.
fn may_start<B: Replicated>(config: &Config, shelf: &Shelf<B>) -> bool
    ensures { IsTrue result ↔ MayStart config.now shelf.now }
{
    config.is_group() && shelf.view().len() == 0
}

// Whether a node may be made of these, a replica that is taken up again among them.
fn may_resume<B: Replicated>(replica: &Replica, shelf: &Shelf<B>) -> bool
    ensures { result ≡ may_resume_node (record { replica = replica.now; shelf = shelf.now }) }
{
    replica.view().contains_all(shelf.view()) && are_participants(replica.instances())
}
