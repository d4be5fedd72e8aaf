ghost use Rattle.std.specs.Prelude.{◌≡◌, ◌≢◌, ◌+◌, ◌*◌, ◌<◌, ◌≤◌, length, slice_get, ℕ};
ghost use Rattle.std.specs.Prelude.{[], true, Some, None, IsOk, IfOk, IfErr, IfSome, IsTrue, OnOk, OnErr};
ghost use Rattle.std.specs.Option.{option_copied};
ghost use Rattle.la_set.specs.Histories.{empty};
ghost use Rattle.la_set.specs.Counts.{within};
ghost use Rattle.la_set.specs.AgreeWithin.{AgreeWithin};
ghost use Rattle.la_set.specs.Inclusion.{IsSubset};
ghost use Rattle.la_proposer.specs.declared.proposer.TheConstants.{MAX_CAP};
ghost use Rattle.la_proposer.specs.Majority.{votes_of};
ghost use Rattle.la_proposer.specs.ProposerState.{op_on};
ghost use Rattle.la_replica.specs.Whole.{lent_message, lent_body, whole_out, whole_mail};
ghost use Rattle.la_replica.specs.Received.{received_in, rebuilt_in, StandsIn, AgreesIn};
ghost use Rattle.la_replica.specs.Received.{made_at, IsLentIn, IsNotToldIn, IsKnownIn};
ghost use Rattle.la_replica.specs.Received.{IsToldWithin, IsSeenWithin};
ghost use Rattle.la_replica.specs.Bases.{offered_by, AreToldIn, AreToldFrom};
ghost use Rattle.la_replica.specs.ReplicaState.{ReplicaState, start, submits, receives, sender_of};
ghost use Rattle.la_replica.specs.ReplicaState.{last_learnt, accepted_in, submitted_in, InInstance};
ghost use Rattle.la_replica.specs.ReplicaState.{update_cap, commits_of};
ghost use Rattle.la_replica.specs.Invariant.{IsReplicaState};
ghost use Rattle.la_replica.specs.Refusals.{IsSubmitRefusal, IsReceiveRefusal, IsReceiptRefusal};
ghost use Rattle.la_replica.specs.Refusals.{IsFor, MayReceive, TakesMessage};
ghost use Rattle.la_replica.specs.Refusals.{HasRoom, SubmittingSpares};
ghost use Rattle.la_replica.specs.Fitting.{FitsReceiver};
ghost use Rattle.la_replica.specs.Memory.{IsFree};
ghost use Rattle.la_replica.specs.Changes.{IsPreparedFrom, after_commit, AreSameIn};
ghost use Rattle.la_replica.specs.Changes.{IsVerdictIn, IsDecidedIn, candidate};
ghost use Rattle.la_replica.specs.Prepared.{PreparesReceiptIn, PreparesSubmissionIn};
ghost use Rattle.la_replica.specs.Again.{again};
ghost use Rattle.la_replica.specs.Progress.{progress_of};
ghost use Rattle.la_replica.specs.Resuming.{may_resume_replica, replica_from, resumed_replica};
ghost use Rattle.la_replica.specs.Parcels.{view_of, unwrapped_in, UnwrapsIn, base_of_told, TellsNothing};
ghost use Rattle.la_replica.specs.Parcels.{IsUnwrapRefusal, IsParcelRefusal};

use crate::change::agreed_next;
use crate::instance::Instance;
use crate::resumed::may_resume;
use crate::sender::Sender;
use crate::view::{is_taken, is_taken_fitting};
use crate::whole::{Whole, WholeBody};
use crate::{Change, Mail, Message, Out, Parcel, Progress, ReplicaError};
use la_commit::MAX_COMMITS;
use la_proposer::{Verdict, Votes};
use la_set::{Counts, Op, UpdateSet};
use std::alloc::{AllocError, Global};
use std::marker::Model;

/// One replica of a group: in each instance an acceptor, a proposer and what it learnt last; and
/// the view. Instance 0 carries the objects' updates, and adopt-commit object k, from 0, uses the
/// instances 2k+1 and 2k+2.
#[derive(Drop)]
pub struct Replica {
    votes: Votes,
    own: u8,
    instances: Vec<Instance>,
    view: UpdateSet,
    // within which counts the view and the set of instance 0's ballot are known to have the same
    agreed: Counts,
    // the same of the view and what is accepted in instance 0
    agreed_view: Counts,
    // and of that and the ballot's set
    agreed_ballot: Counts,
}

impl Model for Replica {
    ghost use Rattle.la_replica.specs.ReplicaState.{ReplicaState};

    ghost Value = { ReplicaState };

    ghost use Rattle.la_replica.specs.Fields.{stands_for, HoldsInvariant};

    ghost view = { stands_for };

    ghost invariant = { HoldsInvariant };
}

impl Replica {
    /// Replica `own` of a group with these votes and this many adopt-commit objects, in which
    /// nothing has happened. Instance 0 has the cap, every other instance a cap of 1.
    pub fn new(
        alloc: Global,
        replicas: u8,
        own: u8,
        cap: u32,
        commits: u8,
        votes: Votes,
    ) -> Result<Replica, AllocError>
        requires group { replicas ≡ length (votes_of votes) }
        requires known { own < replicas }
        requires some { 1 ≤ cap }
        requires few { cap ≤ MAX_CAP }
        requires commits { commits ≤ MAX_COMMITS }
        ensures { IfOk result (λ replica. replica ≡ start (votes_of votes) own cap commits) }
    {
        let others = 2 * commits as usize;
        let mut instances = Vec::with_capacity(alloc, others + 1)?;
        instances.push(Instance::new(alloc, own, cap, votes))?;
        for _ in 0..others {
            instances.push(Instance::new(alloc, own, 1, votes))?;
        }
        Ok(Replica {
            votes,
            own,
            instances,
            view: UpdateSet::new(alloc),
            agreed: Counts::zero(),
            agreed_view: Counts::zero(),
            agreed_ballot: Counts::zero(),
        })
    }

    /// The replica with these parts, one that goes on where another stopped: of each instance, from 0
    /// on, what it keeps there, and the view. `None` comes exactly where no replica has them: where `own`
    /// is out of the group, there is no instance, or more than 33, or the proposer of one is not this
    /// replica of this group. Then the parts are dropped. It takes no memory, and the cost is that of a
    /// look at each instance, and of [`Replica::note_agreement`].
    pub fn resumed(
        votes: Votes,
        own: u8,
        instances: Vec<Instance>,
        view: UpdateSet,
    ) -> Option<Replica>
        ensures { result ≡ resumed_replica (replica_from votes own instances.items view) }
    {
        if !may_resume(&votes, own, &instances) {
            return None;
        }
        let mut replica = Replica {
            votes,
            own,
            instances,
            view,
            agreed: Counts::zero(),
            agreed_view: Counts::zero(),
            agreed_ballot: Counts::zero(),
        };
        replica.note_agreement();
        Some(replica)
    }

    /// What it keeps of each instance, from 0 on, at constant cost. Its contract also tells that
    /// the replica may be taken up again from its parts.
    pub fn instances(&self) -> &[Instance]
        ensures instances { result.now ≡ self.now.instances }
        ensures resumable { IsTrue (may_resume_replica self.now) }
    {
        &self.instances
    }

    /// A copy. It is refused for want of memory alone. The cost is that of copying every set that it
    /// holds, whose updates are shared.
    pub fn copy(&self) -> Result<Replica, AllocError>
        ensures { IfOk result (λ copy. copy ≡ self.now) }
    {
        Ok(Replica {
            votes: self.votes,
            own: self.own,
            instances: copy_instances(&self.instances)?,
            view: self.view.copy()?,
            agreed: self.agreed,
            agreed_view: self.agreed_view,
            agreed_ballot: self.agreed_ballot,
        })
    }

    /// Which replica of its group it is. The group has at most 8, and the proposers of all its
    /// instances are this replica of that group.
    pub fn own(&self) -> u8
        ensures own { result ≡ self.now.own }
        ensures of_group { IsReplicaState self.now }
    {
        self.own
    }

    /// How many replicas its group has: at most 8.
    pub fn replicas(&self) -> u8
        ensures { result ≡ length self.now.votes }
    {
        self.votes.len() as u8
    }

    /// The votes of its group.
    pub fn votes(&self) -> Votes
        ensures { votes_of result ≡ self.now.votes }
    {
        self.votes
    }

    /// How many updates it may submit in instance 0.
    pub fn cap(&self) -> u32
        ensures { result ≡ update_cap self.now }
    {
        self.instances[0].proposer.cap()
    }

    /// How many adopt-commit objects its group has: at most 16.
    pub fn commits(&self) -> u8
        ensures { result ≡ commits_of self.now }
    {
        (self.instances.len() / 2) as u8
    }

    /// What the replica answers questions from: of the sets of instance 0 that it learnt or was
    /// told, one after the other, each that was strictly larger than what it had; empty at first.
    pub fn view(&self) -> &UpdateSet
        ensures { result.now ≡ self.now.view }
    {
        &self.view
    }

    /// How far it is in instance 0.
    pub fn progress(&self) -> Progress
        ensures { result ≡ progress_of self.now }
    {
        Progress {
            accepted: self.instances[0].acceptor.accepted().counts(),
            view: self.view.counts(),
        }
    }

    /// The set that it learnt last in an instance; `None` where it learnt none there, or there is
    /// no such instance.
    pub fn last_learnt(&self, instance: u8) -> Option<&UpdateSet>
        ensures { option_copied result ≡ last_learnt self.now instance }
    {
        let learnt = self.instances.get(instance as usize)?.learnt.as_ref()?;
        Some(&learnt.updates)
    }

    /// What it has accepted in an instance; `None` where there is no such instance.
    pub fn accepted(&self, instance: u8) -> Option<&UpdateSet>
        ensures { option_copied result ≡ accepted_in self.now instance }
    {
        let at = self.instances.get(instance as usize)?;
        Some(at.acceptor.accepted())
    }

    /// How many updates it has submitted in an instance; `None` where there is no such instance.
    pub fn submitted(&self, instance: u8) -> Option<u32>
        ensures { result ≡ submitted_in self.now instance }
    {
        let at = self.instances.get(instance as usize)?;
        Some(at.proposer.submitted())
    }

    /// Submits an update for an object in an instance, under the replica's next number there. A
    /// ballot opens, and is offered to every replica; or the update waits while one is open.
    ///
    /// In this order: `NoSuchInstance`; `Full` where the replica has submitted the instance's cap;
    /// `BallotsSpent` where a ballot would open with a number over 8,000,000; `Memory`. After each
    /// the replica is as before. It is [`Replica::prepare_submission`] and then [`Replica::commit`].
    ///
    /// The cost is that of the proposer's step, and of a copy of the ballot's set for each replica,
    /// which share it.
    pub fn submit(&mut self, instance: u8, object: u16, op: Op) -> Result<Out, ReplicaError>
        ensures step { IfOk result (λ out.
            submits self.old instance (op_on object op) ≡ Some (whole_out out, self.new)) }
        ensures told { (offered : Counts)
            → IfOk result (λ out. AreToldFrom self.new instance offered out.mail) }
        ensures room { IfOk result (λ _. HasRoom self.old instance) }
        ensures spares { IfOk result (λ _. SubmittingSpares self.old instance) }
        ensures error { IfErr result (IsSubmitRefusal self.old instance) }
        ensures err { OnErr result (self.new ≡ self.old) }
    {
        let (out, change) = self.prepare_submission(instance, object, op)?;
        self.commit(change);
        Ok(out)
    }

    /// Prepares a submission, with the errors of [`Replica::submit`] in its order: what is said and
    /// sent, and the change. It may be committed for as long as nothing else changes in its instance,
    /// and is the same step then.
    pub fn prepare_submission(
        &self,
        instance: u8,
        object: u16,
        op: Op,
    ) -> Result<(Out, Change), ReplicaError>
        ensures ok { IfOk result (PreparesSubmissionIn self.now instance (op_on object op)) }
        ensures room { IfOk result (λ _. HasRoom self.now instance) }
        ensures spares { IfOk result (λ _. SubmittingSpares self.now instance) }
        ensures error { IfErr result (IsSubmitRefusal self.now instance) }
    {
        let alloc = *self.instances.allocator();
        let sender = self.sender(instance);
        match self.instances.get(instance as usize) {
            Some(at) => at.prepare_submission(alloc, &sender, object, op),
            None => Err(ReplicaError::NoSuchInstance),
        }
    }

    /// Receives a message, honest or not. Of an offer and a refusal that counts the set is rebuilt
    /// over what is known here ([`UpdateSet::with`]). An offer is answered, and the reply goes back. A
    /// reply is heard by the proposer: a ballot that is refined or learnt is followed by tells of what
    /// was learnt, in instance 0 alone, and then by the offers of the ballot that opens. A told set of
    /// instance 0 is taken as the view where it is strictly larger; so is a newly learnt one. The
    /// view only grows.
    ///
    /// In this order: `NoSuchReplica` where the message is from out of the group, or to another
    /// replica; `NoSuchInstance`; `NoBase` where what is accepted, or of a counting refusal the open
    /// ballot's set, has less than its delta stands on; `Gap` where an update of that delta does not
    /// come next; `Memory`, for the set that it stands for; `Clash` for an offer that clashes with the
    /// accepted set, and for a counting reply that does not fit what the proposer knows, with the
    /// least id; `BallotsSpent` where a reply would open a ballot with a number over 8,000,000;
    /// `Memory`. After each the replica is as before. A reply that does not count is answered
    /// `Ignored` before its delta is looked at. No memory is taken by a reply that does not count, by
    /// an acknowledgement that only counts, and by a told set that is not taken as the view: these
    /// succeed.
    ///
    /// It is [`Replica::prepare`] and then [`Replica::commit`]. The cost is that of what the message
    /// carries: an offer and a refusal are compared with what is here beyond their base, and a told
    /// set with the view, unless by its counts it has no more. A set that is learnt is compared with
    /// the view beyond the last learnt one that was taken.
    pub fn receive(&mut self, message: &Message) -> Result<Out, ReplicaError>
        ensures step { IfOk result (λ out. receives self.old (received_in self.old message.now)
            ≡ Some (whole_out out, self.new)) }
        ensures takes { IfOk result (λ _. TakesMessage self.old message.now) }
        ensures told { IfOk result (λ out. AreToldFrom self.new message.now.instance
            (offered_by (received_in self.old message.now)) out.mail) }
        ensures free { IsNotToldIn self.old message.now
            → IsFree self.old (received_in self.old message.now) → IsOk result }
        ensures error { IfErr result (IsReceiptRefusal self.old message.now) }
        ensures err { OnErr result (self.new ≡ self.old) }
        ensures grows { IsSubset self.old.view self.new.view }
    {
        let (out, change) = self.prepare(message)?;
        self.commit(change);
        self.note_agreement();
        Ok(out)
    }

    /// Prepares to receive a message, with the errors of [`Replica::receive`] in its order: what is
    /// said and sent, and the change. A caller reads what is said, and may prepare a submission in
    /// another instance beside it, before either is committed.
    pub fn prepare(&self, message: &Message) -> Result<(Out, Change), ReplicaError>
        ensures ok { IfOk result (PreparesReceiptIn self.now (received_in self.now message.now)) }
        ensures takes { IfOk result (λ _. TakesMessage self.now message.now) }
        ensures free { IsNotToldIn self.now message.now
            → IsFree self.now (received_in self.now message.now) → IsOk result }
        ensures error { IfErr result (IsReceiptRefusal self.now message.now) }
    {
        self.prepare_beyond(message, Counts::zero())
    }

    /// Prepares to receive a message as [`Replica::prepare`] does, with its errors, where it is
    /// known within which counts a told set of instance 0 has what the view has: it is compared
    /// with the view beyond these alone, and where it has no more than the view by its counts, not
    /// at all. Which counts are known changes no answer.
    pub fn prepare_beyond(
        &self,
        message: &Message,
        known: Counts,
    ) -> Result<(Out, Change), ReplicaError>
        requires { IsSeenWithin self.now known message.now }
        ensures ok { IfOk result (PreparesReceiptIn self.now (received_in self.now message.now)) }
        ensures takes { IfOk result (λ _. TakesMessage self.now message.now) }
        ensures free { IsNotToldIn self.now message.now
            → IsFree self.now (received_in self.now message.now) → IsOk result }
        ensures error { IfErr result (IsReceiptRefusal self.now message.now) }
    {
        let set = self.rebuilt(message)?;
        let whole = Whole::of(message, set.as_ref());
        let verdict = self.admit_message(whole, message.body.base())?;
        let known = self.known(verdict, whole, known);
        let taken = is_taken(&self.view, self.candidate(verdict, whole), known);
        Ok(self.prepare_as(whole, verdict, taken)?)
    }

    /// Prepares to receive a message whose delta is known to stand for something here, and which
    /// fits all that the replica knows. It is refused for want of memory alone. The same messages as
    /// for [`Replica::receive`] take none, nor does an offer of exactly what is accepted, where its
    /// delta was made of a set.
    ///
    /// No updates are compared: the counts of sets that fit tell which contains which. The cost is
    /// that of the acceptor's or the proposer's step, and of a copy of each set that is said, sent
    /// or kept, which share it; and of a delta that was made from a list, that of the list.
    #[inline(always)]
    pub fn prepare_fitting(&self, message: &Message) -> Result<(Out, Change), AllocError>
        requires fits { FitsReceiver self.now (received_in self.now message.now) }
        requires stands { StandsIn self.now message.now }
        requires agrees { AgreesIn self.now message.now }
        ensures ok { IfOk result (PreparesReceiptIn self.now (received_in self.now message.now)) }
        ensures free { IsLentIn self.now message.now
            → IsFree self.now (received_in self.now message.now) → IsOk result }
    {
        let made = self.instances[message.instance as usize].made(message)?;
        self.prepare_whole(self.whole(message, made.as_ref()))
    }

    /// Does what was prepared from this very replica, at constant cost. It takes no memory. What was
    /// prepared in another instance stays prepared. A change that is dropped is a step that did not
    /// happen.
    #[inline(always)]
    pub fn commit(&mut self, change: Change)
        requires { IsPreparedFrom self.old change }
        ensures done { after_commit self.old change ≡ Some self.new }
        ensures beside { (i : ℕ) → i ≢ change.instance → AreSameIn i self.old self.new }
    {
        let Change {
            instance,
            accepted,
            proposer,
            learnt,
            view,
            agreed,
        } = change;
        let at = &mut self.instances[instance as usize];
        at.commit(accepted, proposer, learnt);
        self.agreed = agreed_next(self.agreed, instance, agreed);
        if let Some(view) = view {
            self.view = view;
        }
    }

    /// Notes how far what is accepted in instance 0 agrees with the view and with its ballot's set: what
    /// is received next shares the memory of its updates with them, as far as is noted. No answer
    /// changes by it. Who commits what it prepared itself may call it afterwards;
    /// [`Replica::receive`] and [`Replica::receive_parcel`] do so.
    ///
    /// It takes no memory. The cost is that of comparing what these have gained since the last note.
    pub fn note_agreement(&mut self)
        ensures { self.new ≡ self.old }
    {
        let first = &self.instances[0];
        let accepted = first.acceptor.accepted();
        let ballot = accepted.agreement(first.proposer.updates(), self.agreed_ballot);
        self.agreed_ballot = ballot;
        self.note_view();
    }

    /// Notes how far what is accepted in instance 0 agrees with the view, which is enough where the view
    /// alone has changed since the last [`Replica::note_agreement`]. No answer changes by it.
    ///
    /// It takes no memory. The cost is that of comparing what the two have gained since the last note.
    pub fn note_view(&mut self)
        ensures { self.new ≡ self.old }
    {
        let accepted = self.instances[0].acceptor.accepted();
        let view = self.view.agreement(accepted, self.agreed_view);
        self.agreed_view = view;
    }

    /// What a timer should send once more where answers stay away. Of each instance, in order: while
    /// a ballot is open, its offer to each replica of the group, itself among them, of which no reply
    /// has counted there; then, in instance 0, the tells of the set that was learnt last. Nothing
    /// changes. Each message is one that was sent.
    ///
    /// It is refused for want of memory alone, and takes none where there is nothing to send. The
    /// cost is that of a message for each, whose sets are shared.
    pub fn again(&self) -> Result<Mail, AllocError>
        ensures mail { IfOk result (λ mail. whole_mail mail ≡ again self.now) }
        ensures told { (offered : Counts) → IfOk result (AreToldIn self.now offered) }
        ensures nothing { again self.now ≡ [] → IsOk result }
    {
        let mut mail = Mail::new(*self.instances.allocator());
        for instance in 0..self.instances.len() as u8 {
            let sender = self.sender(instance);
            self.instances[instance as usize].again(&mut mail, &sender)?;
        }
        Ok(mail)
    }

    /// A parcel as a message to this replica: a told set of instance 0 is rebuilt over the view, one of
    /// another instance over nothing. Within its base a told set then has what the view has.
    ///
    /// In this order: `NoSuchReplica` where the parcel is from out of the group, or to another replica;
    /// `NoSuchInstance`; and of a told set as [`Parcel::over`] has it, at its cost. After each the
    /// parcel is dropped. What tells nothing takes no memory.
    pub fn unwrapped(&self, parcel: Parcel) -> Result<Message, ReplicaError>
        ensures ok { IfOk result (λ message. message ≡ unwrapped_in self.now parcel) }
        ensures stands { IfOk result (λ _. UnwrapsIn self.now parcel) }
        ensures seen { IfOk result (IsSeenWithin self.now (base_of_told parcel.content)) }
        ensures error { IfErr result (IsUnwrapRefusal self.now parcel) }
    {
        if parcel.from as usize >= self.votes.len() || parcel.to != self.own {
            return Err(ReplicaError::NoSuchReplica);
        }
        if parcel.instance as usize >= self.instances.len() {
            return Err(ReplicaError::NoSuchInstance);
        }
        let nothing = UpdateSet::new(*self.instances.allocator());
        let seen = self.view_of(parcel.instance, &nothing);
        let (beside, known) = self.beside_view(parcel.instance, seen);
        match parcel.over_beside(seen, beside, known) {
            Ok(message) => Ok(message),
            Err(refused) => Err(ReplicaError::from(refused)),
        }
    }

    // What the view has of an instance: nothing, where that is not 0.
    fn view_of<'a>(&'a self, instance: u8, nothing: &'a UpdateSet) -> &'a UpdateSet
        requires { nothing.now ≡ empty }
        ensures { result.now ≡ view_of self.now instance }
    {
        if instance == 0 { &self.view } else { nothing }
    }

    // A set that is known to have, within these counts, what the view has of an instance: what is
    // accepted in it, where it is 0.
    fn beside_view<'a>(&'a self, instance: u8, seen: &'a UpdateSet) -> (&'a UpdateSet, Counts)
        requires { seen.now ≡ view_of self.now instance }
        ensures { AgreeWithin result.1 seen.now result.0.now }
    {
        if instance == 0 {
            (self.instances[0].acceptor.accepted(), self.agreed_view)
        } else {
            (seen, Counts::zero())
        }
    }

    /// Receives a parcel, honest or not: as [`Replica::receive`] does the message that it is here
    /// ([`Replica::unwrapped`]). What its sender believed of the view changes no answer, but that
    /// a told set over a base that the view has not is refused with `NoBase`.
    ///
    /// In the order of [`Replica::unwrapped`], and then of [`Replica::receive`]. After each the replica
    /// is as before, and the parcel is dropped. Where nothing is told, no memory is taken by the same
    /// messages as there.
    ///
    /// The cost is that of what the parcel carries: a told set is compared with the view beyond its base
    /// alone, and one that has no more than the view not at all.
    pub fn receive_parcel(&mut self, parcel: Parcel) -> Result<Out, ReplicaError>
        ensures step { IfOk result (λ out. receives self.old
            (received_in self.old (unwrapped_in self.old parcel)) ≡ Some (whole_out out, self.new)) }
        ensures unwraps { IfOk result (λ _. UnwrapsIn self.old parcel) }
        ensures takes { IfOk result (λ _. TakesMessage self.old (unwrapped_in self.old parcel)) }
        ensures told { IfOk result (λ out. AreToldFrom self.new parcel.instance
            (offered_by (received_in self.old (unwrapped_in self.old parcel))) out.mail) }
        ensures free { TellsNothing parcel.content → IsNotToldIn self.old (unwrapped_in self.old parcel)
            → IsFree self.old (received_in self.old (unwrapped_in self.old parcel)) → IsOk result }
        ensures error { IfErr result (IsParcelRefusal self.old parcel) }
        ensures err { OnErr result (self.new ≡ self.old) }
        ensures grows { IsSubset self.old.view self.new.view }
    {
        let (out, change) = self.prepare_parcel(parcel)?;
        self.commit(change);
        self.note_agreement();
        Ok(out)
    }

    /// Prepares to receive a parcel, with the errors of [`Replica::receive_parcel`] in its order, as
    /// [`Replica::prepare`] does a message.
    #[tactic(auto, using(crate::proofs::lemmas::Parcelling::unwraps_free))]
    pub fn prepare_parcel(&self, parcel: Parcel) -> Result<(Out, Change), ReplicaError>
        ensures ok { IfOk result
            (PreparesReceiptIn self.now (received_in self.now (unwrapped_in self.now parcel))) }
        ensures unwraps { IfOk result (λ _. UnwrapsIn self.now parcel) }
        ensures takes { IfOk result (λ _. TakesMessage self.now (unwrapped_in self.now parcel)) }
        ensures free { TellsNothing parcel.content → IsNotToldIn self.now (unwrapped_in self.now parcel)
            → IsFree self.now (received_in self.now (unwrapped_in self.now parcel)) → IsOk result }
        ensures error { IfErr result (IsParcelRefusal self.now parcel) }
    {
        let known = parcel.base_of_told();
        let message = self.unwrapped(parcel)?;
        self.prepare_beyond(&message, known)
    }

    // What the delta of a message to this replica stands for, where it is looked at.
    fn rebuilt(&self, message: &Message) -> Result<Option<UpdateSet>, ReplicaError>
        ensures ok { IfOk result (λ set. set ≡ rebuilt_in self.now message.now) }
        ensures addressed { IfOk result (λ _. IsFor self.now (received_in self.now message.now)) }
        ensures there { IfOk result (λ _.
            message.now.instance < length self.now.instances) }
        ensures stands { IfOk result (λ _. StandsIn self.now message.now) }
        ensures free { IsNotToldIn self.now message.now
            → IsFor self.now (received_in self.now message.now) → IsOk result }
        ensures error { IfErr result (IsReceiptRefusal self.now message.now) }
    {
        if message.from as usize >= self.votes.len() || message.to != self.own {
            return Err(ReplicaError::NoSuchReplica);
        }
        let known = self.agreed_in(message.instance);
        match self.instances.get(message.instance as usize) {
            Some(at) => Ok(at.rebuilt(message, known)?),
            None => Err(ReplicaError::NoSuchInstance),
        }
    }

    // Within which counts what is accepted in an instance and its ballot's set are known to have the same.
    fn agreed_in(&self, instance: u8) -> Counts
        ensures { IfSome (slice_get self.now.instances instance)
            (λ x. AgreeWithin result x.acceptor x.proposer.updates) }
    {
        if instance == 0 {
            self.agreed_ballot
        } else {
            Counts::zero()
        }
    }

    // A message that stands and agrees here, with its whole set: what its delta lends, or this, which
    // was made.
    fn whole<'a>(&'a self, message: &'a Message, made: Option<&'a UpdateSet>) -> Whole<'a>
        requires stands { StandsIn self.now message.now }
        requires agrees { AgreesIn self.now message.now }
        requires made { InInstance self.now message.now.instance
            (λ x. option_copied made ≡ made_at x message.now) }
        ensures { lent_message result ≡ received_in self.now message.now }
    {
        self.instances[message.instance as usize].whole(message, made)
    }

    // Whether a message to this replica would be received, memory apart, and the verdict on it, where
    // it is a reply. Its set is known to have within these counts what is here.
    fn admit_message(
        &self,
        message: Whole<'_>,
        known: Counts,
    ) -> Result<Option<Verdict>, ReplicaError>
        requires addressed { IsFor self.now (lent_message message) }
        requires there { message.instance < length self.now.instances }
        requires known { IsKnownIn self.now message.instance known (lent_body message.body) }
        ensures verdict { IfOk result (IsVerdictIn self.now (lent_message message.entry)) }
        ensures received { IfOk result (λ _. MayReceive self.now (lent_message message.entry)) }
        ensures error { IfErr result (IsReceiveRefusal self.now (lent_message message.entry)) }
        ensures memory { result ≢ Err ReplicaError.Memory }
    {
        self.instances[message.instance as usize].admit_message(message, known)
    }

    // Prepares to receive a message that fits all that the replica knows.
    #[inline(always)]
    fn prepare_whole(&self, message: Whole<'_>) -> Result<(Out, Change), AllocError>
        requires { FitsReceiver self.now (lent_message message) }
        ensures ok { IfOk result (PreparesReceiptIn self.now (lent_message message.entry)) }
        ensures free { IsFree self.now (lent_message message.entry) → IsOk result }
    {
        let verdict = self.verdict(message);
        let taken = is_taken_fitting(&self.view, self.candidate(verdict, message));
        self.prepare_as(message, verdict, taken)
    }

    // The verdict on a message, where it is a reply.
    fn verdict(&self, message: Whole<'_>) -> Option<Verdict>
        requires { message.instance < length self.now.instances }
        ensures { IsVerdictIn self.now (lent_message message.entry) result }
    {
        self.instances[message.instance as usize].verdict(message)
    }

    // In instance 0, the set that may become the view by a message with this verdict.
    fn candidate<'a>(
        &'a self,
        verdict: Option<Verdict>,
        message: Whole<'a>,
    ) -> Option<&'a UpdateSet>
        requires { message.instance < length self.now.instances }
        ensures { InInstance self.now message.entry.instance (λ x.
            option_copied result ≡ candidate x verdict (lent_message message.entry)) }
    {
        self.instances[message.instance as usize].candidate(verdict, message)
    }

    // Within which counts the view is known to have what the candidate has: a set that is learnt is
    // that of the ballot.
    fn known(&self, verdict: Option<Verdict>, message: Whole<'_>, told: Counts) -> Counts
        requires there { message.instance < length self.now.instances }
        requires told { message.instance ≡ 0
            → IsToldWithin self.now.view told (lent_body message.body) }
        ensures { InInstance self.now message.entry.instance (λ x.
            IfSome (candidate x verdict (lent_message message.entry)) (λ s.
            within self.now.view result ≡ within s result)) }
    {
        match (message.body, verdict) {
            (WholeBody::Yes | WholeBody::No(_), Some(Verdict::Learns)) => self.agreed,
            (WholeBody::Tell(_), _) => told,
            _ => Counts::zero(),
        }
    }

    // Prepares what an admitted message asks for, with this verdict, and by which the view is taken
    // or not.
    #[inline(always)]
    fn prepare_as(
        &self,
        message: Whole<'_>,
        verdict: Option<Verdict>,
        taken: bool,
    ) -> Result<(Out, Change), AllocError>
        requires received { MayReceive self.now (lent_message message) }
        requires verdict { IsVerdictIn self.now (lent_message message) verdict }
        requires taken { IsDecidedIn self.now (lent_message message) verdict taken }
        ensures ok { IfOk result (PreparesReceiptIn self.now (lent_message message.entry)) }
        ensures free { IsFree self.now (lent_message message.entry) → IsOk result }
    {
        let alloc = *self.instances.allocator();
        let sender = self.sender(message.instance);
        let at = &self.instances[message.instance as usize];
        at.prepare(alloc, &sender, message, verdict, taken)
    }

    // Where the replica's messages of an instance come from.
    fn sender(&self, instance: u8) -> Sender
        ensures { result ≡ sender_of self.now instance }
    {
        Sender {
            replicas: self.votes.len() as u8,
            from: self.own,
            instance,
        }
    }
}

// A copy of a list of instances.
fn copy_instances(instances: &Vec<Instance>) -> Result<Vec<Instance>, AllocError>
    ensures { IfOk result (λ copy. copy.items ≡ instances.now.items) }
{
    let mut copy = Vec::with_capacity(*instances.allocator(), instances.len())?;
    for instance in instances {
        copy.push(instance.copy()?)?;
    }
    Ok(copy)
}
