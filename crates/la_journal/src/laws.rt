// What holds over a crash and a new start, and of staged lines: laws over all disks and files, which no code runs.
ghost use Rattle.std.specs.Prelude.{◌≡◌, ◌++◌, ℕ, List, Some, take};
ghost use Rattle.la_journal.specs.Disk.{LeavesOnly};
ghost use Rattle.la_journal.specs.Machine.{state_after, steps, LeadsToSome};
ghost use Rattle.la_journal.specs.Durable.{IsSameOr, UnreadBytesChangeNothing};
ghost use Rattle.la_journal.specs.Staging.{StagedCallsLead};
ghost use Rattle.la_journal.specs.Starts.{IsStart};
ghost use Rattle.la_journal.specs.Lives.{LivesAreOneRun};
ghost use Rattle.la_journal.specs.Commits.{ReadingGivesGroups, TornGroupsAreNotRead};

use crate::{Disk, Machine};

/// A run of calls of one life, a `compact` among them or not: what a crash leaves at any moment of the
/// first ones, and then of those that follow, is what it leaves at any moment of all. Of the first ones the
/// calls `taken` led to the next state.
pub fn calls_follow_one_another<M: Machine, D: Disk>()
    ensures { (old mid new : D) (start first next : M.State) (taken later : List M.Call)
        → LeavesOnly D.moment D.left_since old mid (LeadsToSome (state_after M.head M.named_state M.named M.step start) M.step taken first)
        → steps M.step taken first ≡ Some next
        → LeavesOnly D.moment D.left_since mid new (LeadsToSome (state_after M.head M.named_state M.named M.step start) M.step later next)
        → LeavesOnly D.moment D.left_since old new (LeadsToSome (state_after M.head M.named_state M.named M.step start) M.step (taken ++ later) first) }
{}

/// A process died at some moment from `t` on, of which it is known that a crash left a file that leads from
/// the state `first`, to which all led that was answered before `t`, by some of the calls behind that.
/// Another one starts on what it left (`IsStart`, the one premise). Then this comes to such a state, and so
/// does whoever starts after a crash at any moment of its recovery, whose clause `any_moment` is the premise
/// on `recovered`.
pub fn a_start_has_what_was_answered<M: Machine, D: Disk>()
    ensures { (dead found recovered : D) (t : ℕ) (start first : M.State) (calls : List M.Call)
        → ((c : List ℕ) → D.left_since dead t c → LeadsToSome (state_after M.head M.named_state M.named M.step start) M.step calls first c)
        → IsStart D.seen D.may_leave (D.left_since dead t) found
        → LeavesOnly D.moment D.left_since found recovered (IsSameOr (D.may_leave found) (state_after M.head M.named_state M.named M.step start) (D.seen found))
        → LeadsToSome (state_after M.head M.named_state M.named M.step start) M.step calls first (D.seen found)
        × ((c : List ℕ) → D.left_since recovered (D.moment found) c
        → LeadsToSome (state_after M.head M.named_state M.named M.step start) M.step calls first c) }
{}

/// What was answered before one crash is there after the next: where a file leads from the state `first` by
/// the first some of these calls, and a later file from there by the first some of the later ones, this leads
/// from `first` by the ones and then the others.
pub fn lives_follow_one_another<M: Machine>()
    ensures { (start first next : M.State) (calls later : List M.Call) (c d : List ℕ)
        → LeadsToSome (state_after M.head M.named_state M.named M.step start) M.step calls first c
        → state_after M.head M.named_state M.named M.step start c ≡ Some next
        → LeadsToSome (state_after M.head M.named_state M.named M.step start) M.step later next d
        → (n : ℕ) × (m : ℕ) × (state_after M.head M.named_state M.named M.step start d ≡ steps M.step (take n calls ++ take m later) first) }
{}

/// Over any number of processes, one after another: where each left a file that has at least what it had answered,
/// and the next one started there, the last file leads to where one list of calls leads, made of the first some of
/// each one's, with all that any of them answered.
pub fn lives_are_one_run<M: Machine>()
    ensures { (start : M.State) → LivesAreOneRun (state_after M.head M.named_state M.named M.step start) M.step }
{}

/// Staged lines are of calls that lead to the machine's state. With what is kept of one call more, if anything, they
/// are again, for a call of which nothing is kept has left that state as it was.
pub fn staged_calls_lead<M: Machine>()
    ensures { StagedCallsLead M.step M.answers M.still M.text }
{}

/// What a crash left behind the groups of a journal, not all of a group and of which no group is read, changes nothing:
/// the file leads where its groups lead.
pub fn unread_bytes_change_nothing<M: Machine>()
    ensures { UnreadBytesChangeNothing M.head M.named_state M.named M.step }
{}

/// A journal whose groups each end in a record that repeats them: of groups that were put there and synced, and
/// whatever a crash left of the next one, reading gives those, or those and the whole next one. The premise is that
/// what is left of that is the whole group, or has no record that matches what stands before it.
#[tactic(auto, using(crate::proofs::Recorded::reading_gives_groups))]
pub fn reading_gives_groups()
    ensures { ReadingGivesGroups }
{}

/// What a crash leaves of a group whose record repeats it is the whole group, or has no record that
/// matches what stands before it, as [`reading_gives_groups`] asks: where a crash keeps the first
/// some of the bytes, each as it was written or as 0, and no such group but the one that was
/// written has its record.
#[tactic(auto, using(crate::proofs::TornRecords::torn_groups_are_not_read))]
pub fn torn_groups_are_not_read()
    ensures { TornGroupsAreNotRead }
{}
