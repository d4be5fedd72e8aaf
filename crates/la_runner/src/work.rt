// What a thread of a run works on, does and hands back.
ghost use Rattle.std.specs.Prelude.{◌≡◌, ◌⊎◌, true, None, Some, IfSome};
ghost use Rattle.la_runner.specs.declared.jobs.Stopped.TheVariants.{Memory};
ghost use Rattle.la_runner.specs.Members.{member_view};
ghost use Rattle.la_runner.specs.Runs.{IsReadyMember, IsLogOf};

use crate::jobs::{Entries, Job, Stopped};
use crate::letter::{Letter, Naming, send_all, take_all};
use crate::worker::do_all;
use crate::{Group, Log, Member};
use crossbeam_channel::{Receiver, Sender};
use la_object::{AbsorbError, Replicated, Shelf};
use la_shared::Gate;
use std::alloc::Global;
use std::sync::Wait;

#[derive(Drop)]
pub(crate) struct Work<J: Naming, B: Replicated> {
    pub(crate) member: Member,
    pub(crate) shelf: Shelf<B>,
    pub(crate) jobs: Vec<Job>,
    pub(crate) inbox: Receiver<Letter<J>>,
    pub(crate) outboxes: Vec<Sender<Letter<J>>>,
}

// Lets the shelf absorb the member's view. Whether there was memory.
fn absorb_view<B: Replicated>(member: &Member, shelf: &mut Shelf<B>) -> bool
    ensures objects { shelf.new.objects ≡ shelf.old.objects }
    ensures view { result ≡ true → shelf.new.view ≡ member_view member.now }
{
    match shelf.absorb(member.view()) {
        Ok(_) => true,
        Err(AbsorbError::Smaller) => false,
        Err(AbsorbError::Memory { done: _ }) => false,
    }
}

// Why a worker stopped, where it had memory for its notes and its shelf, or had not.
fn stopped_after(stopped: Option<Stopped>, is_sent: bool, is_absorbed: bool) -> Option<Stopped>
    ensures none { result ≡ None → (stopped ≡ None) × (is_absorbed ≡ true) }
    ensures some { IfSome result (λ why. (why ≡ Memory) ⊎ (stopped ≡ Some why)) }
{
    match stopped {
        Some(why) => Some(why),
        None => {
            if is_sent && is_absorbed {
                None
            } else {
                Some(Stopped::Memory)
            }
        }
    }
}

// The whole of one worker: its jobs, its notes, the notes of its peers, and the last absorption.
pub(crate) fn work_on<J: Naming, R: Wait, G: Gate, B: Replicated>(
    rt: &R,
    alloc: Global,
    group: &Group,
    work: Work<J, B>,
    rounds: u32,
    gate: &G,
) -> Log<B>
    requires named { group.now ≡ J.group }
    requires ready { IsReadyMember group.now work.member work.shelf }
    ensures { IsLogOf work result }
{
    let Work {
        mut member,
        mut shelf,
        jobs,
        inbox,
        outboxes,
    } = work;
    let mut entries = Vec::new(alloc);
    let ended = do_all(
        rt,
        group,
        &mut member,
        &mut shelf,
        jobs,
        rounds,
        gate,
        &mut entries,
    );
    let is_sent = send_all(rt, alloc, group, &mut member, outboxes);
    let taken = take_all(rt, group, &mut member, inbox);
    let is_absorbed = absorb_view(&member, &mut shelf);
    let replica = member.replica();
    let stopped = stopped_after(ended, is_sent, is_absorbed);
    Log {
        replica,
        notes: 0,
        member,
        shelf,
        entries: Entries::from(entries),
        stopped,
        taken,
    }
}
