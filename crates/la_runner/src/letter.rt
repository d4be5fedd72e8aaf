// Notes on their way between the threads of one run.
ghost use Rattle.std.specs.Prelude.{◌≡◌, []};
ghost use Rattle.la_runner.specs.Members.{GroupState, IsOfGroup, MemberGoesOn};
ghost use Rattle.la_runner.specs.Notes.{IsNoteOf, doings};

use crate::{Group, Member, MemberNote};
use crossbeam_channel::{Receiver, SendError, Sender};
use std::alloc::Global;
use std::marker::{Brand, PhantomData};
use std::sync::Wait;

// Which group it is. Each run picks it.
pub(crate) trait Naming: Send + Sync {
    ghost group: { GroupState };
}

impl Naming for Brand {
    ghost group = { record { votes = []; acceptors = [] } };
}

// A note of a member of this group.
#[derive(Drop)]
pub(crate) struct Letter<J: Naming> {
    note: MemberNote,
    of: PhantomData<J>,
    ghost of_group: { IsNoteOf J.group note },
}

fn sealed<J: Naming>(note: MemberNote) -> Letter<J>
    requires { IsNoteOf J.group note }
{
    Letter {
        note,
        of: PhantomData,
    }
}

fn opened<J: Naming>(letter: Letter<J>) -> MemberNote
    ensures { IsNoteOf J.group result }
{
    letter.note
}

// Sends one note, and drops its end. Whether there was memory; a peer that has ended takes none.
fn send_one<J: Naming, R: Wait>(
    rt: &R,
    alloc: Global,
    group: &Group,
    member: &mut Member,
    outbox: Sender<Letter<J>>,
) -> bool
    requires of { IsOfGroup group.now member.old }
    requires named { group.now ≡ J.group }
    ensures { member.new ≡ member.old }
{
    let Ok(note) = group.note(alloc, member) else {
        return false;
    };
    match outbox.send(rt, sealed::<J>(note)) {
        Ok(()) => true,
        Err(SendError::Disconnected(_)) => true,
        Err(SendError::OutOfMemory(_)) => false,
    }
}

// Sends a note to each peer. Whether there was memory for all.
pub(crate) fn send_all<J: Naming, R: Wait>(
    rt: &R,
    alloc: Global,
    group: &Group,
    member: &mut Member,
    outboxes: Vec<Sender<Letter<J>>>,
) -> bool
    requires of { IsOfGroup group.now member.old }
    requires named { group.now ≡ J.group }
    ensures { member.new ≡ member.old }
{
    let mut all = true;
    for outbox in outboxes {
        if !send_one(rt, alloc, group, member, outbox) {
            all = false;
        }
    }
    all
}

// Takes a note, unless it is of the member itself or of a peer that has given one.
fn take_one(group: &Group, member: &mut Member, note: MemberNote, taken: &mut [bool; 8])
    requires of { IsOfGroup group.now member.old }
    requires note { IsNoteOf group.now note }
    ensures goes_on { MemberGoesOn member.old member.new }
    ensures same { doings member.new ≡ doings member.old }
{
    let from = note.giver() as usize;
    if from >= 8 || note.giver() == member.replica() || taken[from] {
        return;
    }
    taken[from] = true;
    group.meet(member, note);
}

// Takes at most one note a peer, until the channel closes. Of which replicas it took one.
pub(crate) fn take_all<J: Naming, R: Wait>(
    rt: &R,
    group: &Group,
    member: &mut Member,
    inbox: Receiver<Letter<J>>,
) -> [bool; 8]
    requires of { IsOfGroup group.now member.old }
    requires named { group.now ≡ J.group }
    ensures goes_on { MemberGoesOn member.old member.new }
    ensures same { doings member.new ≡ doings member.old }
{
    let mut taken = [false; 8];
    for _ in 1..group.votes.len() {
        let Ok(letter) = inbox.recv(rt) else {
            break;
        };
        take_one(group, member, opened::<J>(letter), &mut taken);
    }
    taken
}
