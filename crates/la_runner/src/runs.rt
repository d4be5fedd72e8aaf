// A whole run: its workers in threads, and what is counted once they are joined.
ghost use Rattle.std.specs.Prelude.{◌≡◌, ◌<◌, ◌≤◌, ◌+◌, ◌↔◌, true, false, All, map, length, slice_index_or, vec_len, IfOk, IfErr, IsTrue};
ghost use Rattle.std.specs.List.{AllZip};
ghost use Rattle.la_set.specs.Inclusion.{IsSubset};
ghost use Rattle.la_proposer.specs.Majority.{how_many};
ghost use Rattle.la_runner.specs.Counted.{log_taker, has_met, counts_peer, NotesCount};
ghost use Rattle.la_runner.specs.Invariant.{IsMember};
ghost use Rattle.la_runner.specs.Members.{IsOfGroup, member_view};
ghost use Rattle.la_runner.specs.Runs.{log_back, places, place_of, ViewsHold, ContainsAll, IsRunOf, IsRunRefusal};
ghost use Rattle.la_runner.specs.Together.{IsSameLog, AreSeen, KeepsRun};

use crate::jobs::Jobs;
use crate::running::{Start, run_in};
use crate::showing::show_all;
use crate::{Group, Log, Logs, Member, RunError};
use la_object::{Replicated, Shelf, are_unused};
use la_shared::Gate;
use std::alloc::{AllocError, Global};
use std::marker::Brand;
use std::sync::Wait;
use std::thread::Threads;

// Whether a run may begin: as many of each as the group has replicas, and no shelf was used.
fn is_run<B: Replicated>(
    group: &Group,
    members: &Vec<Member>,
    shelves: &Vec<Shelf<B>>,
    jobs: &Vec<Jobs>,
) -> bool
    ensures config { IsTrue result ↔ IsRunOf group.now members.now.items shelves.now.items jobs.now.items }
    ensures few { length group.now.votes ≤ 8 }
{
    let replicas = group.votes.len();
    if members.len() != replicas {
        return false;
    }
    if jobs.len() != replicas {
        return false;
    }
    if shelves.len() != replicas {
        return false;
    }
    are_unused(shelves)
}

// What each worker begins with: member, shelf and jobs of one place.
fn starts<B: Replicated>(
    alloc: Global,
    members: Vec<Member>,
    shelves: Vec<Shelf<B>>,
    jobs: Vec<Jobs>,
) -> Result<Vec<Start<B>>, AllocError>
    requires shelves { vec_len shelves ≡ vec_len members }
    requires jobs { vec_len jobs ≡ vec_len members }
    ensures { IfOk result (λ starts. map (λ s. place_of s.member s.shelf s.jobs.items) starts.items
        ≡ places members.items shelves.items jobs.items) }
{
    let mut starts = Vec::with_capacity(alloc, members.len())?;
    let mut shelves = shelves.into_iter();
    let mut jobs = jobs.into_iter();
    for member in members {
        let Some(shelf) = shelves.next() else {
            unreachable!()
        };
        let Some(of_member) = jobs.next() else {
            unreachable!()
        };
        starts.push(Start {
            member,
            shelf,
            jobs: Vec::from(of_member),
        })?;
    }
    Ok(starts)
}

// Whether a note of this replica was taken.
fn took(taken: &[bool; 8], replica: u8) -> bool
    ensures { result ≡ slice_index_or taken.now replica false }
{
    replica < 8 && taken[replica as usize]
}

// Whether a log took the other's note and contains its view.
fn has_met<B: Replicated>(log: &Log<B>, other: &Log<B>) -> bool
    ensures value { result ≡ has_met (log_taker log.now) (log_taker other.now) }
    ensures contains { result ≡ true → IsSubset (member_view other.now.member) (member_view log.now.member) }
{
    took(&log.taken, other.replica) && log.member.view().contains_all(other.member.view())
}

// Of how many peers the log at a place has a note and contains the view.
fn count_notes<B: Replicated>(logs: &Vec<Log<B>>, at: usize) -> u8
    requires there { at < vec_len logs.now }
    requires few { vec_len logs.now < 256 }
    ensures counted { result ≡ how_many (length logs.now.items) (counts_peer (map log_taker logs.now.items) at) }
    ensures all { result + 1 ≡ length logs.now.items
        → ContainsAll (map (λ l. member_view l.member) logs.now.items) at }
{
    let mut count = 0;
    for other in 0..logs.len() {
        if other != at && has_met(&logs[at], &logs[other]) {
            count += 1;
        }
    }
    count
}

// Counts each log's notes.
fn note_all<B: Replicated>(logs: &mut Vec<Log<B>>)
    requires few { vec_len logs.old < 256 }
    ensures same { map log_back logs.new.items ≡ map log_back logs.old.items }
    ensures counted { NotesCount (map (λ l. l.notes) logs.new.items) (map log_taker logs.new.items) }
    ensures all { ViewsHold (map (λ l. l.notes) logs.new.items)
        (map (λ l. member_view l.member) logs.new.items) }
{
    for at in 0..logs.len() {
        let notes = count_notes(logs, at);
        logs[at].notes = notes;
    }
}

// What is known and counted once all threads are joined. It takes no memory.
fn finish<B: Replicated>(group: &Group, done: Vec<Log<B>>) -> Logs<B>
    requires of { All (λ l. IsOfGroup group.now l.member × IsMember l.member) done.items }
    requires few { vec_len done < 256 }
    ensures same { AllZip IsSameLog (map log_back done.items) (map log_back result) }
    ensures seen { AreSeen (map log_back result) }
    ensures counted { NotesCount (map (λ l. l.notes) result) (map log_taker result) }
    ensures notes { ViewsHold (map (λ l. l.notes) result) (map (λ l. member_view l.member) result) }
{
    let mut logs = done;
    show_all(group, &mut logs);
    note_all(&mut logs);
    Logs::from(logs)
}

/// Runs each member's jobs in a thread of its own, over the group's acceptors. Member, shelf and jobs
/// of one place belong together.
///
/// A worker does its jobs in order; the first that is refused ends them. An update runs at most so
/// many rounds, as [`Group::update`] does, and a decision as [`Group::decide`]; before a question the
/// shelf absorbs the view. Then the worker sends each peer a note of what its member has seen, meets
/// those of its peers, one of each, until all have ended, and its shelf absorbs the view. Memory that
/// is refused in a note, in a send or in that absorption makes `stopped` `Memory` where it was
/// `None`; the rest is still tried. Once all threads are joined the last member sees what all
/// have seen, and keeps its view, and each log counts the peers whose note it took and whose final
/// view it contains. That takes no memory.
///
/// `BadConfig` comes exactly where there are not as many members, shelves and jobs as the group has
/// replicas, or a shelf has absorbed something; then `NoThread` where a thread could not be started,
/// and `Memory` where a growth was refused outside the workers. Then all threads that were started
/// are joined, and the members are gone.
///
/// Those that decided at an adopt-commit object agree, whoever else stopped there, where each sole vote
/// in their second sets was submitted by a member of the run. That nobody else cast one no clause
/// says.
///
/// The cost is that of the members' calls, side by side, and of a note for each two members.
pub fn run<R: Threads + Wait + Sync, G: Gate, B: Replicated>(
    rt: &R,
    alloc: Global,
    group: &Group,
    members: Vec<Member>,
    shelves: Vec<Shelf<B>>,
    jobs: Vec<Jobs>,
    rounds: u32,
    gate: &G,
) -> Result<Logs<B>, RunError>
    requires { All (IsOfGroup group.now) members.items }
    ensures config { IfOk result (λ _. IsRunOf group.now members.items shelves.items jobs.items) }
    ensures keeps { IfOk result (KeepsRun (places members.items shelves.items jobs.items)) }
    ensures error { IfErr result (IsRunRefusal (IsRunOf group.now members.items shelves.items jobs.items)) }
{
    if !is_run(group, &members, &shelves, &jobs) {
        return Err(RunError::BadConfig);
    }
    let Ok(begun) = starts(alloc, members, shelves, jobs) else {
        return Err(RunError::Memory);
    };
    match run_in::<Brand, R, G, B>(rt, alloc, group, begun, rounds, gate) {
        Ok(done) => Ok(finish(group, done)),
        Err(RunError::NoThread) => Err(RunError::NoThread),
        Err(_) => Err(RunError::Memory),
    }
}
