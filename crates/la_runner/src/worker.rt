// What a member does of its jobs.
ghost use Rattle.std.specs.Prelude.{◌≡◌, ℕ, [], Some, IsSome, IfOk, IfErr, vec_len};
ghost use Rattle.la_set.specs.Inclusion.{IsSubset};
ghost use Rattle.la_runner.specs.declared.jobs.Stopped.TheVariants.{Memory};
ghost use Rattle.la_runner.specs.Entries.{AnswersDecide, AnswersAsk, DoesUpdate, DoesJob, EndsJobs, entry_set};
ghost use Rattle.la_runner.specs.Invariant.{IsMember};
ghost use Rattle.la_runner.specs.Members.{IsOfGroup, MemberGoesOn, member_learnt, member_view};
ghost use Rattle.la_runner.specs.Participants.{IsDecision, IsOnlyAt};
ghost use Rattle.la_runner.specs.Runs.{IsReadyMember, GoesOnBeside, HasWorked};
ghost use Rattle.la_runner.specs.Stops.{StopsUpdate, StopsDecide, StopsAsk, StopFits};

use crate::jobs::{Entry, Job, Stopped, stop_of};
use crate::{Group, Member};
use la_commit::{Outcome, first_instance, second_instance};
use la_object::{AbsorbError, Query, Replicated, Shelf, ShelfError};
use la_set::{Op, UpdateSet};
use la_shared::Gate;
use std::sync::Wait;

// Submits an update, and learns a set that holds it.
fn submit<R: Wait, G: Gate>(
    rt: &R,
    group: &Group,
    member: &mut Member,
    object: u16,
    op: Op,
    rounds: u32,
    gate: &G,
) -> Result<Entry, Stopped>
    requires { IsOfGroup group.now member.old }
    ensures goes_on { MemberGoesOn member.old member.new }
    ensures done { IfOk result (DoesUpdate member.old member.new object op) }
    ensures error { IfErr result (StopsUpdate member.new) }
{
    match group.update(rt, member, object, op, rounds, gate) {
        Ok(learned) => Ok(Entry::Learned(learned)),
        Err(error) => Err(stop_of(error)),
    }
}

// A copy of the set that a member learnt last in an instance.
fn learnt(member: &Member, instance: u8) -> Result<UpdateSet, Stopped>
    requires { IsSome (member_learnt member.now instance) }
    ensures ok { IfOk result (λ s. member_learnt member.now instance ≡ Some s) }
    ensures error { IfErr result (λ e. e ≡ Memory) }
{
    match member.last_learnt(instance) {
        None => unreachable!(),
        Some(set) => match set.copy() {
            Ok(copy) => Ok(copy),
            Err(_) => Err(Stopped::Memory),
        },
    }
}

// The entry of a decision: the sets that the member learnt last in the object's two instances.
fn decided(member: &Member, commit: u8, outcome: Outcome) -> Result<Entry, Stopped>
    requires { (value : ℕ) × IsDecision commit value member.now outcome }
    ensures ok { (value : ℕ) → IsDecision commit value member.now outcome
        → IfOk result (AnswersDecide member.now commit value) }
    ensures error { IfErr result (λ e. e ≡ Memory) }
{
    // a hint to the prover: its contract tells what holds of every member
    let _own = member.replica();
    let first = learnt(member, first_instance(commit))?;
    let second = learnt(member, second_instance(commit))?;
    Ok(Entry::Decided {
        first,
        second,
        outcome,
    })
}

// Proposes a value at an adopt-commit object, and comes to an outcome there.
fn decide<R: Wait, G: Gate>(
    rt: &R,
    group: &Group,
    member: &mut Member,
    commit: u8,
    value: u64,
    rounds: u32,
    gate: &G,
) -> Result<Entry, Stopped>
    requires { IsOfGroup group.now member.old }
    ensures goes_on { MemberGoesOn member.old member.new }
    ensures only { IsOnlyAt commit member.old member.new }
    ensures answers { IfOk result (AnswersDecide member.new commit value) }
    ensures error { IfErr result (StopsDecide member.new commit value) }
{
    match group.decide(rt, member, commit, value, rounds, gate) {
        Ok(outcome) => decided(member, commit, outcome),
        Err(error) => Err(stop_of(error)),
    }
}

// Lets the shelf absorb the view, by counts alone, and asks it.
fn ask<B: Replicated>(
    member: &Member,
    shelf: &mut Shelf<B>,
    object: u16,
    query: &Query,
) -> Result<Entry, Stopped>
    requires { IsSubset shelf.old.view (member_view member.now) }
    ensures objects { shelf.new.objects ≡ shelf.old.objects }
    ensures within { IsSubset shelf.new.view (member_view member.now) }
    ensures answers { IfOk result (AnswersAsk member.now shelf.old.objects object query.now) }
    ensures names { IfOk result (λ e. entry_set e ≡ Some (member_view member.now)) }
    ensures error { IfErr result (StopsAsk shelf.old.objects object) }
{
    // a hint to the prover: its contract tells what holds of every member
    let _own = member.replica();
    let Ok(view) = member.view().copy() else {
        return Err(Stopped::Memory);
    };
    match shelf.absorb_compatible(member.view()) {
        Ok(_) => {}
        Err(AbsorbError::Smaller) => unreachable!(),
        Err(AbsorbError::Memory { done: _ }) => return Err(Stopped::Memory),
    }
    match shelf.ask(object, query) {
        Ok(answer) => Ok(Entry::Answer { view, answer }),
        Err(ShelfError::NoSuchObject) => Err(Stopped::NoSuchObject),
        Err(_) => Err(Stopped::Memory),
    }
}

// Does one job.
fn do_job<R: Wait, G: Gate, B: Replicated>(
    rt: &R,
    group: &Group,
    member: &mut Member,
    shelf: &mut Shelf<B>,
    job: Job,
    rounds: u32,
    gate: &G,
) -> Result<Entry, Stopped>
    requires { IsReadyMember group.now member.old shelf.old }
    ensures goes_on { GoesOnBeside member.old shelf.old member.new shelf.new }
    ensures done { IfOk result (DoesJob member.old shelf.old.objects job member.new) }
    ensures error { IfErr result (StopFits shelf.old.objects member.new job) }
{
    match job {
        Job::Update { object, op } => submit(rt, group, member, object, op, rounds, gate),
        Job::Decide { commit, value } => decide(rt, group, member, commit, value, rounds, gate),
        Job::Ask { object, query } => ask(member, shelf, object, &query),
    }
}

// Does the jobs in order, up to the first that is refused, and answers why it was.
pub(crate) fn do_all<R: Wait, G: Gate, B: Replicated>(
    rt: &R,
    group: &Group,
    member: &mut Member,
    shelf: &mut Shelf<B>,
    jobs: Vec<Job>,
    rounds: u32,
    gate: &G,
    entries: &mut Vec<Entry>,
) -> Option<Stopped>
    requires ready { IsReadyMember group.now member.old shelf.old }
    requires none { entries.old.items ≡ [] }
    ensures worked { HasWorked member.old shelf.old jobs.items entries.new.items member.new shelf.new }
    ensures ends { EndsJobs result shelf.old.objects member.new jobs.items (vec_len entries.new) }
{
    for job in jobs {
        if entries.reserve(1).is_err() {
            return Some(Stopped::Memory);
        }
        match do_job(rt, group, member, shelf, job, rounds, gate) {
            Ok(entry) => entries.push_reserved(entry),
            Err(why) => return Some(why),
        }
    }
    None
}
