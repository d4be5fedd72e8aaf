// A whole run of a group in threads, and the text of what comes back.
ghost use Rattle.std.specs.Prelude.{◌≡◌, ◌⊎◌, ◌↔◌, ◌≤◌, map, replicate, None, IsTrue, IfOk, IfErr, OnOk, length};
ghost use Rattle.la_runner.specs.Members.{member_view};
ghost use Rattle.la_runner.specs.Runs.{back_of};
ghost use Rattle.la_runner.specs.Starting.{AreMembersFrom, IsAcceptorGroup};
ghost use Rattle.la_script.specs.Pieces.{AddsText};
ghost use Rattle.la_cli.specs.declared.error.PlayFault.TheVariants.{Memory, NoThread};
ghost use Rattle.la_cli.specs.Calls.{AreSizes};
ghost use Rattle.la_cli.specs.Play.{FitAnyGroup};
ghost use Rattle.la_cli.specs.Threads.{AreLogs, LogsAgree, RunsThreads, IsThreadsRefusal, increments};
ghost use Rattle.la_cli.specs.Threads.{stop_name, total_text, log_text, logs_text, head_text, verdict_text, threads_text};

use crate::PlayFault;
use crate::play::{fit_any_group, write_out};
use la_object::{Query, Replicated, Shelf, ShelfError};
use la_proposer::Votes;
use la_runner::{Group, Job, Jobs, Log, Logs, Member, Members, RunError, Stopped, run};
use la_script::{Pieces, put_answer};
use la_set::Op;
use la_shared::FreeGate;
use std::alloc::{AllocError, Global};
use std::io::Write;
use std::sync::Wait;
use std::thread::Threads;

// In how many rounds an update is to be learnt.
const ROUNDS: u32 = 1_000_000;

// So many updates that add 1 to object 1.
fn increments(alloc: Global, count: u32) -> Result<Jobs, AllocError>
    ensures { IfOk result (λ jobs. jobs ≡ increments count) }
{
    let mut jobs = Vec::with_capacity(alloc, count as usize)?;
    for _ in 0..count {
        jobs.push(Job::Update {
            object: 1,
            op: Op::Inc(1),
        })?;
    }
    Ok(Jobs::from(jobs))
}

// The same for each replica.
fn jobs_of_all(alloc: Global, replicas: u8, each: u32) -> Result<Vec<Jobs>, AllocError>
    ensures { IfOk result (λ all. all.items ≡ replicate replicas (increments each)) }
{
    let mut all = Vec::with_capacity(alloc, replicas as usize)?;
    for _ in 0..replicas {
        all.push(increments(alloc, each)?)?;
    }
    Ok(all)
}

fn all_of(alloc: Global, members: Members) -> Result<Vec<Member>, AllocError>
    ensures { IfOk result (λ all. all.items ≡ members) }
{
    let mut left = members;
    let mut all = Vec::new(alloc);
    while let Some(member) = left.take() {
        all.push(member)?;
    }
    Ok(all)
}

// A group of so many replicas with one vote each, in which each may make so many updates.
fn group_of(alloc: Global, replicas: u8, each: u32) -> Result<(Group, Vec<Member>), AllocError>
    requires some { 1 ≤ replicas }
    requires few { replicas ≤ 8 }
    requires some_each { 1 ≤ each }
    requires few_each { each ≤ 1000 }
    ensures group { IfOk result (λ made. IsAcceptorGroup replicas 0 (replicate replicas 1) made.0) }
    ensures count { IfOk result (λ made. length made.1.items ≡ replicas) }
    ensures members { IfOk result (λ made. AreMembersFrom made.0 each 0 made.1.items) }
{
    match Group::new(alloc, replicas, 0, each, Votes::one_each(replicas)) {
        Ok((group, members)) => Ok((group, all_of(alloc, members)?)),
        // The values are in their ranges: then only memory is refused, by the clause `error`.
        Err(_) => Err(AllocError),
    }
}

// Runs so many replicas with so many updates each, with as many of the shelves. The others are
// dropped.
fn logs_of<P: Threads + Wait + Sync, B: Replicated>(
    rt: &P,
    alloc: Global,
    replicas: u8,
    each: u32,
    shelves: Vec<Shelf<B>>,
) -> Result<Logs<B>, PlayFault>
    requires sizes { AreSizes replicas each }
    requires shelves { FitAnyGroup shelves.items }
    ensures ok { IfOk result (λ logs. AreLogs shelves.items replicas each
        (map (λ l. back_of l.replica l.member l.shelf l.entries l.stopped) logs)) }
    ensures error { IfErr result (λ fault. (fault ≡ NoThread) ⊎ (fault ≡ Memory)) }
{
    let (group, members) = group_of(alloc, replicas, each)?;
    let jobs = jobs_of_all(alloc, replicas, each)?;
    let mut used = shelves;
    used.truncate(replicas as usize);
    match run(rt, alloc, &group, members, used, jobs, ROUNDS, &FreeGate) {
        Ok(logs) => Ok(logs),
        Err(RunError::NoThread) => Err(PlayFault::NoThread),
        Err(RunError::Memory) => Err(PlayFault::Memory),
        // There are as many of each as replicas, and the shelves are unused.
        Err(RunError::BadConfig) => unreachable!(),
    }
}

// Whether a log was not stopped, and its final view is the other's.
fn agrees_with<B: Replicated>(log: &Log<B>, other: &Log<B>) -> bool
    ensures { IsTrue result ↔ ((log.now.stopped ≡ None)
        × (member_view log.now.member ≡ member_view other.now.member)) }
{
    log.stopped.is_none() && log.member.view().same(other.member.view())
}

// Whether no log was stopped and all final views are the same.
fn all_agree<B: Replicated>(logs: &[Log<B>]) -> bool
    ensures { IsTrue result ↔ LogsAgree
        (map (λ l. back_of l.replica l.member l.shelf l.entries l.stopped) logs.now) }
{
    for at in 0..logs.len() {
        if !agrees_with(&logs[at], &logs[0]) {
            return false;
        }
    }
    true
}

/// Whether no log was stopped and all final views are the same. It takes no memory.
pub fn agree<B: Replicated>(logs: &Logs<B>) -> bool
    ensures { IsTrue result ↔ LogsAgree
        (map (λ l. back_of l.replica l.member l.shelf l.entries l.stopped) logs.now) }
{
    all_agree(logs.all())
}

fn stop_name(why: Stopped) -> &'static str
    ensures { result.now ≡ stop_name why }
{
    match why {
        Stopped::Full => "Full",
        Stopped::NoSuchObject => "NoSuchObject",
        Stopped::NoSuchCommit => "NoSuchCommit",
        Stopped::AlreadyProposed => "AlreadyProposed",
        Stopped::Clash(_) => "Clash",
        Stopped::BallotsSpent => "BallotsSpent",
        Stopped::NoMajority => "NoMajority",
        Stopped::TryAgain => "TryAgain",
        Stopped::Memory => "Memory",
    }
}

// Adds what a shelf answers to a question for the total of object 1.
fn put_total<B: Replicated>(out: &mut Pieces, shelf: &Shelf<B>) -> Result<(), AllocError>
    ensures { OnOk result (AddsText out.old out.new (total_text shelf.now)) }
{
    match shelf.ask(1, &Query::Total) {
        Ok(answer) => put_answer(out, &answer),
        Err(ShelfError::NoSuchObject) => out.push_str("refused NoSuchObject"),
        Err(_) => Err(AllocError),
    }
}

fn put_log<B: Replicated>(out: &mut Pieces, replica: usize, log: &Log<B>) -> Result<(), AllocError>
    ensures { OnOk result (AddsText out.old out.new (log_text replica
        (back_of log.now.replica log.now.member log.now.shelf log.now.entries log.now.stopped))) }
{
    out.push_str("replica ")?;
    out.push_number(replica as u64)?;
    match log.stopped {
        Some(why) => {
            out.push_str(" stopped ")?;
            out.push_str(stop_name(why))?;
        }
        None => {
            out.push_str(" updates ")?;
            out.push_number(log.member.view().len() as u64)?;
            out.push_str(" ")?;
            put_total(out, &log.shelf)?;
        }
    }
    out.push_str("\n")
}

fn put_logs<B: Replicated>(out: &mut Pieces, logs: &[Log<B>]) -> Result<(), AllocError>
    ensures { OnOk result (AddsText out.old out.new (logs_text 0
        (map (λ l. back_of l.replica l.member l.shelf l.entries l.stopped) logs.now))) }
{
    for (replica, log) in logs.iter().enumerate() {
        put_log(out, replica, log)?;
    }
    Ok(())
}

fn put_head(out: &mut Pieces, replicas: u8, each: u32) -> Result<(), AllocError>
    ensures { OnOk result (AddsText out.old out.new (head_text replicas each)) }
{
    out.push_str("threads ")?;
    out.push_number(u64::from(replicas))?;
    out.push_str(" each ")?;
    out.push_number(u64::from(each))?;
    out.push_str("\n")
}

fn put_verdict(out: &mut Pieces, agreed: bool) -> Result<(), AllocError>
    ensures { OnOk result (AddsText out.old out.new (verdict_text agreed)) }
{
    out.push_str(if agreed { "agree\n" } else { "differ\n" })
}

/// The text that is printed of logs, of a run of so many replicas with so many updates each, in
/// pieces. The refusal is for want of memory.
pub fn text_of_logs<B: Replicated>(
    alloc: Global,
    replicas: u8,
    each: u32,
    logs: &Logs<B>,
    agreed: bool,
) -> Result<Pieces, AllocError>
    ensures { IfOk result (λ pieces. pieces ≡ threads_text replicas each
        (map (λ l. back_of l.replica l.member l.shelf l.entries l.stopped) logs.now) agreed) }
{
    let mut out = Pieces::new(alloc);
    put_head(&mut out, replicas, each)?;
    put_logs(&mut out, logs.all())?;
    put_verdict(&mut out, agreed)?;
    Ok(out)
}

/// Runs a group of so many replicas, from 1 to 8, with a thread and one vote each, of which each
/// adds 1 to object 1 so often, from 1 to 1,000 times, with the first of these shelves; and writes
/// the text of what comes back. Answers whether no log was stopped and all final views are the same.
///
/// `BadConfig` comes exactly where there are not eight shelves or one of them has absorbed
/// something; `NoThread` where a thread could not be started; `WriteFault` while the text is
/// written, and then its first bytes were written; `Memory` may come before anything is written. No
/// other fault comes.
pub fn play_threads<P: Threads + Wait + Sync, W: Write, B: Replicated>(
    rt: &P,
    alloc: Global,
    replicas: u8,
    each: u32,
    writer: &mut W,
    shelves: Vec<Shelf<B>>,
) -> Result<bool, PlayFault>
    requires { AreSizes replicas each }
    ensures ok { IfOk result (λ agreed. RunsThreads shelves.items replicas each agreed
        (W.contents writer.old) (W.contents writer.new)) }
    ensures error { IfErr result (IsThreadsRefusal shelves.items replicas each (W.contents writer.old) (W.contents writer.new)) }
{
    if !fit_any_group(&shelves) {
        return Err(PlayFault::BadConfig);
    }
    let logs = logs_of(rt, alloc, replicas, each, shelves)?;
    let agreed = agree(&logs);
    let text = text_of_logs(alloc, replicas, each, &logs, agreed)?;
    write_out(writer, &text)?;
    Ok(agreed)
}
