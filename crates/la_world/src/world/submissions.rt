// Events by which a replica submits: updates of its objects, and proposals to adopt-commit objects.
ghost use Rattle.std.specs.Prelude.{◌≡◌, ℕ, ◌+◌, ◌*◌, ◌<◌, ◌≤◌, ◌^◌, [], ◌++◌, length, Some, None};
ghost use Rattle.std.specs.Prelude.{All, IfOk, IfErr, OnOk, OnErr};
ghost use Rattle.la_set.specs.ObjectOps.{ObjectOp};
ghost use Rattle.la_proposer.specs.ProposerState.{op_on};
ghost use Rattle.la_commit.specs.declared.instance.TheConstants.{MAX_COMMITS};
ghost use Rattle.la_replica.specs.Stored.{IsMade};
ghost use Rattle.la_node.specs.Nodes.{replicas_of};
ghost use Rattle.la_world.specs.Events.{Past, Submit, Decide, submission_of};
ghost use Rattle.la_world.specs.Printable.{IsPrintable};
ghost use Rattle.la_world.specs.StandsFor.{StandsFor, refused_in};
ghost use Rattle.la_world.specs.Calls.{PlaysFrom, IsAllowed, RefusesFrom, RefusesEvent, submitted_at};
ghost use Rattle.la_world.specs.Shown.{HasRoomToSend, HasRoomToLearn, shown_step, submitter};
ghost use Rattle.la_world.specs.Shown.{submitted_so};

use super::World;
use crate::Step;
use crate::journal::Journal;
use crate::speaker::Speaker;
use la_commit::first_instance;
use la_node::{Done, Node, WorldError};
use la_object::Replicated;
use la_replica::Out;
use la_set::Op;
use std::alloc::AllocError;

impl<B: Replicated> World<B> {
    pub(super) fn submit(&mut self, replica: u8, object: u16, op: &Op) -> Result<Step, WorldError>
        requires { self.old.count + 1 < 2 ^ 64 }
        ensures step { PlaysFrom self.old (submission_of replica object op.now) result self.new }
        ensures printable { IfOk result IsPrintable }
        ensures error { RefusesFrom self.old (submission_of replica object op.now) result }
        ensures err { OnErr result (self.new ≡ self.old) }
    {
        self.admit_submission(replica)?;
        let op = op.copy()?;
        Ok(self.take_update(replica, object, op)?)
    }

    // Whether a replica may submit, whatever it submits: by the first refusal that fits.
    #[tactic(auto, using(crate::proofs::Worlds::submitter_known))]
    fn admit_submission(&self, replica: u8) -> Result<(), WorldError>
        ensures known { OnOk result (replica < length self.now.replica_states) }
        ensures allowed { (events : Past) → StandsFor self.now events →
            OnOk result ((object_op : ObjectOp) →
            refused_in self.now events (Submit replica object_op) ≡ None) }
        ensures error { (events : Past) → StandsFor self.now events →
            IfErr result (λ e. (object_op : ObjectOp) →
            RefusesEvent self.now events (Submit replica object_op) e) }
    {
        match submitted_among(&self.nodes, 0, replica) {
            None => Err(WorldError::NoSuchReplica),
            Some(count) if count >= self.config.cap => Err(WorldError::Full),
            Some(_) => Ok(()),
        }
    }

    pub(super) fn decide(&mut self, replica: u8, commit: u8, value: u64) -> Result<Step, WorldError>
        requires { self.old.count + 1 < 2 ^ 64 }
        ensures step { PlaysFrom self.old (Decide replica commit value) result self.new }
        ensures printable { IfOk result IsPrintable }
        ensures error { RefusesFrom self.old (Decide replica commit value) result }
        ensures err { OnErr result (self.new ≡ self.old) }
    {
        self.admit_proposal(replica, commit)?;
        Ok(self.take_proposal(replica, commit, value)?)
    }

    // Whether a replica may propose to an object, whatever it proposes: by the first refusal that
    // fits.
    fn admit_proposal(&self, replica: u8, commit: u8) -> Result<(), WorldError>
        ensures known { OnOk result (replica < length self.now.replica_states) }
        ensures object { OnOk result (commit < MAX_COMMITS) }
        ensures allowed { (events : Past) → StandsFor self.now events →
            OnOk result ((value : ℕ) →
            refused_in self.now events (Decide replica commit value) ≡ None) }
        ensures error { (events : Past) → StandsFor self.now events →
            IfErr result (λ e. (value : ℕ) →
            RefusesEvent self.now events (Decide replica commit value) e) }
    {
        if replica >= self.config.replicas {
            return Err(WorldError::NoSuchReplica);
        }
        if commit >= self.config.commits {
            return Err(WorldError::NoSuchCommit);
        }
        if submitted_among(&self.nodes, first_instance(commit), replica) != Some(0) {
            return Err(WorldError::AlreadyProposed);
        }
        Ok(())
    }

    // Plays the submission of an update, which is not refused but for want of memory.
    fn take_update(&mut self, replica: u8, object: u16, op: Op) -> Result<Step, AllocError>
        requires count { self.old.count + 1 < 2 ^ 64 }
        requires known { replica < length self.old.replica_states }
        requires allowed { IsAllowed self.old (Submit replica (op_on object op)) }
        ensures step { PlaysFrom self.old (Submit replica (op_on object op)) result self.new }
        ensures printable { IfOk result IsPrintable }
        ensures err { OnErr result (self.new ≡ self.old) }
    {
        self.journal.reserve(self.config.replicas)?;
        // `laws::submissions_fit`: of what the world does not refuse, only memory is left.
        let Ok(out) = self.nodes[replica as usize].submit(object, op) else {
            return Err(AllocError);
        };
        Ok(note_submission(&mut self.journal, self.config.replicas, 0, replica, out))
    }

    // The same of a proposal.
    fn take_proposal(&mut self, replica: u8, commit: u8, value: u64) -> Result<Step, AllocError>
        requires count { self.old.count + 1 < 2 ^ 64 }
        requires known { replica < length self.old.replica_states }
        requires object { commit < MAX_COMMITS }
        requires allowed { IsAllowed self.old (Decide replica commit value) }
        ensures step { PlaysFrom self.old (Decide replica commit value) result self.new }
        ensures printable { IfOk result IsPrintable }
        ensures err { OnErr result (self.new ≡ self.old) }
    {
        self.journal.reserve(self.config.replicas)?;
        let Ok(out) = self.nodes[replica as usize].propose(commit, value) else {
            return Err(AllocError);
        };
        Ok(note_submission(
            &mut self.journal,
            self.config.replicas,
            first_instance(commit),
            replica,
            out,
        ))
    }
}

// Notes what a replica of a group of so many submitted in an instance. There is room.
fn note_submission(journal: &mut Journal, replicas: u8, instance: u8, replica: u8, out: Out) -> Step
    requires known { replica < replicas }
    requires few { length out.mail ≤ 2 * replicas }
    requires made { All IsMade out.mail }
    requires count { journal.old.count + 1 < 2 ^ 64 }
    requires messages_room { HasRoomToSend journal.old replicas }
    requires learnt_room { HasRoomToLearn journal.old }
    ensures step { result
        ≡ shown_step (submitter replicas instance replica) journal.old (submitted_so out) }
    ensures messages { journal.new.messages.items ≡ journal.old.messages.items ++ out.mail }
    ensures learnt { journal.new.learnt.items ≡ journal.old.learnt.items ++ [] }
    ensures count { journal.new.count ≡ journal.old.count + 1 }
    ensures numbers { length journal.old.messages.items + length out.mail < 2 ^ 64 }
{
    let speaker = Speaker {
        replicas,
        replica,
        instance,
        ballot: 0,
        outcome: None,
    };
    let done = Done {
        said: out.said,
        voted: None,
        mail: out.mail,
    };
    journal.note(&speaker, done, None)
}

// How much a replica has submitted in an instance, if there is one with this number.
#[tactic(auto, using(crate::proofs::WorldNodes::replica_at))]
fn submitted_among<B: Replicated>(nodes: &[Node<B>], instance: u8, replica: u8) -> Option<u32>
    ensures { result ≡ submitted_at (replicas_of nodes.now) instance replica }
{
    match nodes.get(replica as usize) {
        Some(node) => node.submitted(instance),
        None => None,
    }
}
