ghost use Rattle.std.specs.Prelude.{◌≡◌, ◌<◌, ℕ, Some, map, length, slice_get, IfOk, IfErr};
ghost use Rattle.la_runner.specs.declared.error.RunnerError.TheVariants.{Memory};
ghost use Rattle.la_runner.specs.Following.{acceptors_of};
ghost use Rattle.la_runner.specs.Instances.{InstanceState, state_of};
ghost use Rattle.la_runner.specs.Members.{IsOfGroup, MemberGoesOn};
ghost use Rattle.la_runner.specs.Notes.{pass_told, told_names, Meets, AllMeet, IsNote, IsNoteOf, TellsNote, HasMetNote};
ghost use Rattle.la_runner.specs.Sound.{IsSound};

use crate::group::Row;
use crate::instance::Instance;
use crate::{Group, Member, RunnerError};
use la_proposer::Votes;
use la_set::UpdateSet;
use la_shared::{Note, SharedAcceptor};
use std::alloc::{AllocError, Global};
use std::marker::Model;

/// What a member's passes had seen, and its view, on the way to another member of its group. It may
/// go to another thread. A contract sees all of it, and that its view is empty or was acknowledged by
/// a majority in what it tells.
#[derive(Drop)]
pub struct MemberNote {
    pub(crate) votes: Votes,
    pub(crate) giver: u8,
    pub(crate) told: Vec<InstanceNote>,
    pub(crate) view: UpdateSet,
}

impl Model for MemberNote {
    ghost use Rattle.la_runner.specs.Notes.{NoteState};
    ghost use Rattle.la_runner.specs.Fields.{note_stands_for, NoteInvariant};

    ghost Value = { NoteState };

    ghost view = { note_stands_for };

    ghost invariant = { NoteInvariant };
}

impl MemberNote {
    /// Which replica gave the note. The contract also tells what is true of every note.
    pub fn giver(&self) -> u8
        ensures giver { result ≡ self.now.giver }
        ensures is { IsNote self.now }
    {
        self.giver
    }
}

/// What a member tells another one of an instance.
#[derive(Drop)]
pub(crate) struct InstanceNote {
    pub notes: Vec<Note>,
}

impl Instance {
    // What each pass has seen. The passes are as before.
    fn note(
        &mut self,
        alloc: Global,
        acceptors: &[SharedAcceptor],
    ) -> Result<InstanceNote, AllocError>
        requires { acceptors_of self.old.passes.items ≡ acceptors.now }
        ensures same { state_of self.new ≡ state_of self.old }
        ensures notes { IfOk result (λ told.
            told.notes.items ≡ map pass_told self.old.passes.items) }
    {
        let mut notes = Vec::with_capacity(alloc, acceptors.len())?;
        for at in 0..acceptors.len() {
            let acceptor = &acceptors[at];
            let note = acceptor.note(&mut self.passes[at]);
            notes.push(note)?;
        }
        Ok(InstanceNote { notes })
    }

    // Each pass has then seen what is told of its acceptor too.
    fn meet(&mut self, acceptors: &[SharedAcceptor], told: InstanceNote)
        requires sound { IsSound self.old.proposer self.old.passes.items }
        requires acceptors { acceptors_of self.old.passes.items ≡ acceptors.now }
        requires told { told_names told.notes.items ≡ acceptors.now }
        ensures { Meets told.notes.items (state_of self.old) (state_of self.new) }
    {
        let mut notes = told.notes;
        while let Some(note) = notes.pop() {
            let at = notes.len();
            let acceptor = &acceptors[at];
            acceptor.meet(&mut self.passes[at], note);
        }
    }
}

// What the passes of each instance have seen.
fn tell_all(
    alloc: Global,
    rows: &[Row],
    instances: &mut Vec<Instance>,
) -> Result<Vec<InstanceNote>, AllocError>
    requires { map (λ x. acceptors_of x.passes.items) instances.old.items
        ≡ map (λ r. r.acceptors.items) rows.now }
    ensures same { map state_of instances.new.items ≡ map state_of instances.old.items }
    ensures told { IfOk result (λ told. map (λ n. n.notes.items) told.items
        ≡ map (λ x. map pass_told x.passes.items) instances.old.items) }
{
    let mut told = Vec::with_capacity(alloc, rows.len())?;
    for at in 0..rows.len() {
        let note = instances[at].note(alloc, &rows[at].acceptors)?;
        told.push(note)?;
    }
    Ok(told)
}

// Each pass of each instance has then seen what is told of its acceptor.
fn meet_all(rows: &[Row], instances: &mut Vec<Instance>, told: Vec<InstanceNote>)
    requires sound { (i : ℕ) (x : InstanceState)
        → slice_get (map state_of instances.old.items) i ≡ Some x → IsSound x.proposer x.passes }
    requires acceptors { map (λ x. acceptors_of x.passes.items) instances.old.items
        ≡ map (λ r. r.acceptors.items) rows.now }
    requires told { map (λ n. told_names n.notes.items) told.items
        ≡ map (λ r. r.acceptors.items) rows.now }
    ensures { AllMeet (map (λ n. n.notes.items) told.items)
        (map state_of instances.old.items) (map state_of instances.new.items) }
{
    let mut left = told;
    while let Some(note) = left.pop() {
        let at = left.len();
        instances[at].meet(&rows[at].acceptors, note);
    }
}

impl Group {
    /// What a member's passes have seen, and its view, for another member of the group. The member is
    /// as it was. `Memory` where a growth was refused. It waits for nothing.
    ///
    /// The cost is that of a pass for each acceptor; the view is shared.
    pub fn note(&self, alloc: Global, member: &mut Member) -> Result<MemberNote, RunnerError>
        requires { IsOfGroup self.now member.old }
        ensures same { member.new ≡ member.old }
        ensures of { IfOk result (IsNoteOf self.now) }
        ensures note { IfOk result (TellsNote member.old) }
        ensures error { IfErr result (λ e. e ≡ Memory) }
    {
        let view = member.view().copy()?;
        let told = tell_all(alloc, &self.rows, &mut member.instances)?;
        Ok(MemberNote {
            votes: member.votes,
            giver: member.replica,
            told,
            view,
        })
    }

    /// Gives a member what a note's giver had seen: each of its passes has then seen what the
    /// giver's pass of the same acceptor had, and its view is the larger of the two. What it made,
    /// submitted and learnt is as before. It takes no memory and waits for nothing.
    ///
    /// The cost is that of a pass for each acceptor.
    pub fn meet(&self, member: &mut Member, note: MemberNote)
        requires of { IsOfGroup self.now member.old }
        requires note { IsNoteOf self.now note }
        ensures of { IsOfGroup self.now member.new }
        ensures goes_on { MemberGoesOn member.old member.new }
        ensures met { HasMetNote note member.old member.new }
    {
        let MemberNote {
            votes: _,
            giver: _,
            told,
            view,
        } = note;
        meet_all(&self.rows, &mut member.instances, told);
        member.instances[0].view.take_larger(view);
    }
}
