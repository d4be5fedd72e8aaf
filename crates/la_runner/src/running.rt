// One thread a member: channels, starting, joining.
ghost use Rattle.std.specs.Prelude.{◌≡◌, [], All, map, IfOk, IfSome, OnOk};
ghost use Rattle.std.specs.List.{AllZip};
ghost use Rattle.la_runner.specs.Runs.{IsReadyMember, IsWorked, IsWorkOf, IsLogOf};

use crate::jobs::Job;
use crate::letter::{Letter, Naming};
use crate::work::{Work, work_on};
use crate::{Group, Log, Member, RunError};
use crossbeam_channel::{Sender, unbounded};
use la_object::{Replicated, Shelf};
use la_shared::Gate;
use std::alloc::{AllocError, Global};
use std::snapshot::Snapshot;
use std::sync::Wait;
use std::thread;
use std::thread::{Promise, PromisedHandle, Scope, Threads};

// That what a worker hands back is what a worker makes of its work.
#[derive(Drop)]
pub(crate) struct WorkedOf<J: Naming, B: Replicated>(Snapshot<Work<J, B>>);

impl<J: Naming, B: Replicated> Promise<Log<B>> for WorkedOf<J, B> {
    ghost kept_by = { λ p r. IsLogOf p.0.value r };
}

// Starts a worker in a thread.
fn start_one<'s, E, J: Naming + 's, R: Threads + Wait + Sync, G: Gate, B: Replicated + 's>(
    scope: &Scope<'s, E>,
    rt: &'s R,
    alloc: Global,
    group: &'s Group,
    work: Work<J, B>,
    rounds: u32,
    gate: &'s G,
) -> Option<PromisedHandle<Log<B>, WorkedOf<J, B>>>
    requires named { group.now ≡ J.group }
    requires ready { IsReadyMember group.now work.member work.shelf }
    ensures { IfSome result (λ h. h.promise.0.value ≡ work) }
{
    let promise = WorkedOf(Snapshot::of(&work));
    scope
        .spawn_with(
            promise,
            move ||
                requires { (group.now ≡ J.group) × IsReadyMember group.now work.member work.shelf }
            { work_on(rt, alloc, group, work, rounds, gate) },
        )
        .ok()
}

// Starts a thread for each, until one can't be started.
fn start_all<'s, E, J: Naming + 's, R: Threads + Wait + Sync, G: Gate, B: Replicated + 's>(
    scope: &Scope<'s, E>,
    rt: &'s R,
    alloc: Global,
    group: &'s Group,
    works: Vec<Work<J, B>>,
    rounds: u32,
    gate: &'s G,
    handles: &mut Vec<PromisedHandle<Log<B>, WorkedOf<J, B>>>,
) -> Result<(), RunError>
    requires named { group.now ≡ J.group }
    requires ready { All (λ w. IsReadyMember group.now w.member w.shelf) works.items }
    requires none { handles.old.items ≡ [] }
    ensures { OnOk result (map (λ h. h.promise.0.value) handles.new.items ≡ works.items) }
{
    for work in works {
        if handles.reserve(1).is_err() {
            return Err(RunError::Memory);
        }
        let Some(handle) = start_one(scope, rt, alloc, group, work, rounds, gate) else {
            return Err(RunError::NoThread);
        };
        handles.push_reserved(handle);
    }
    Ok(())
}

// Joins each thread, also where there is no memory for what they hand back.
fn join_all<J: Naming, R: Threads, B: Replicated>(
    rt: &R,
    handles: Vec<PromisedHandle<Log<B>, WorkedOf<J, B>>>,
) -> Option<Vec<Log<B>>>
    ensures { IfSome result (λ done. AllZip (λ h l. IsLogOf h.promise.0.value l) handles.items done.items) }
{
    match thread::join_promised(rt, handles) {
        Ok(done) => Some(done),
        Err(failed) => {
            for handle in failed.value {
                drop(handle.join(rt));
            }
            None
        }
    }
}

// Starts a thread for each, and joins all that were started, also where one could not be.
fn start_and_join<'s, E, J: Naming + 's, R: Threads + Wait + Sync, G: Gate, B: Replicated + 's>(
    scope: &Scope<'s, E>,
    rt: &'s R,
    alloc: Global,
    group: &'s Group,
    works: Vec<Work<J, B>>,
    rounds: u32,
    gate: &'s G,
) -> Result<Vec<Log<B>>, RunError>
    requires named { group.now ≡ J.group }
    requires ready { All (λ w. IsReadyMember group.now w.member w.shelf) works.items }
    ensures { IfOk result (λ done. AllZip IsLogOf works.items done.items) }
{
    let mut handles = Vec::new(alloc);
    let started = start_all(scope, rt, alloc, group, works, rounds, gate, &mut handles);
    let joined = join_all(rt, handles);
    match started {
        Err(why) => Err(why),
        Ok(()) => match joined {
            None => Err(RunError::Memory),
            Some(done) => Ok(done),
        },
    }
}

// A thread for each, and what each hands back, in the works' order.
fn run_all<J: Naming, R: Threads + Wait + Sync, G: Gate, B: Replicated>(
    rt: &R,
    alloc: Global,
    group: &Group,
    works: Vec<Work<J, B>>,
    rounds: u32,
    gate: &G,
) -> Result<Vec<Log<B>>, RunError>
    requires named { group.now ≡ J.group }
    requires ready { All (λ w. IsReadyMember group.now w.member w.shelf) works.items }
    ensures { IfOk result (λ done. AllZip IsLogOf works.items done.items) }
{
    thread::scope(
        thread::scope_env(),
        rt,
        |scope| -> Result<Vec<Log<B>>, RunError>
            requires { (group.now ≡ J.group)
                × All (λ w. IsReadyMember group.now w.member w.shelf) works.items }
            ensures { IfOk result (λ done. AllZip IsLogOf works.items done.items) }
        { start_and_join(scope, rt, alloc, group, works, rounds, gate) },
    )
}

// What a worker begins with.
#[derive(Drop)]
pub(crate) struct Start<B: Replicated> {
    pub(crate) member: Member,
    pub(crate) shelf: Shelf<B>,
    pub(crate) jobs: Vec<Job>,
}

// An end of each channel but one's own.
fn others<J: Naming>(
    alloc: Global,
    ends: &Vec<Sender<Letter<J>>>,
    own: usize,
) -> Result<Vec<Sender<Letter<J>>>, AllocError> {
    let mut outboxes = Vec::with_capacity(alloc, ends.len())?;
    for k in 0..ends.len() {
        if k != own {
            outboxes.push(ends[k].clone()?)?;
        }
    }
    Ok(outboxes)
}

// The works, with a channel to each. The first end of each channel is dropped here.
fn prepare<J: Naming, B: Replicated>(
    alloc: Global,
    starts: Vec<Start<B>>,
) -> Result<Vec<Work<J, B>>, AllocError>
    ensures { IfOk result (λ works. AllZip (λ s w. IsWorkOf
        s.member s.shelf s.jobs.items w.member w.shelf w.jobs.items) starts.items works.items) }
{
    let mut ends = Vec::with_capacity(alloc, starts.len())?;
    let mut inboxes = Vec::with_capacity(alloc, starts.len())?;
    for _ in 0..starts.len() {
        let (to, from) = unbounded(alloc)?;
        ends.push(to)?;
        inboxes.push(from)?;
    }
    let mut works = Vec::with_capacity(alloc, starts.len())?;
    for start in starts {
        let Some(inbox) = inboxes.pop() else {
            unreachable!()
        };
        let outboxes = others::<J>(alloc, &ends, inboxes.len())?;
        let Start {
            member,
            shelf,
            jobs,
        } = start;
        works.push(Work {
            member,
            shelf,
            jobs,
            inbox,
            outboxes,
        })?;
    }
    Ok(works)
}

// A run of the group that J names.
pub(crate) fn run_in<J: Naming, R: Threads + Wait + Sync, G: Gate, B: Replicated>(
    rt: &R,
    alloc: Global,
    group: &Group,
    starts: Vec<Start<B>>,
    rounds: u32,
    gate: &G,
) -> Result<Vec<Log<B>>, RunError>
    requires named { group.now ≡ J.group }
    requires ready { All (λ s. IsReadyMember group.now s.member s.shelf) starts.items }
    ensures { IfOk result (λ done. AllZip (λ s b. IsWorked s.member s.shelf s.jobs.items
        b.replica b.member b.shelf b.entries b.stopped) starts.items done.items) }
{
    let Ok(works) = prepare::<J, B>(alloc, starts) else {
        return Err(RunError::Memory);
    };
    run_all::<J, R, G, B>(rt, alloc, group, works, rounds, gate)
}
