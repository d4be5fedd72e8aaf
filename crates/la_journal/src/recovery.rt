// A journal played from its first line on.
ghost use Rattle.std.specs.Prelude.{◌≡◌, ◌++◌, ◌∷◌, ◌+◌, ◌<◌, ◌≤◌, ◌^◌, ◌||◌, [], false, Some, None, length, IfOk, IfErr, OnOk, IfSome};
ghost use Rattle.la_journal.specs.Commits.{groups, last_record};
ghost use Rattle.la_journal.specs.Disk.{LeavesOnly, MayBeOr, Only};
ghost use Rattle.la_journal.specs.Records.{parts, ended, end_count, head_line, link, record_line, behind};
ghost use Rattle.la_journal.specs.Journal.{lines, journal, state_in, in_a_row};
ghost use Rattle.la_journal.specs.Machine.{state_after, lines_lead};
ghost use Rattle.la_journal.specs.Durable.{IsSettled, IsSameOr, IsUntouched, EndsInGroups, alike};
ghost use Rattle.la_journal.specs.Playing.{leads_more, are_some, rest_in, StopsAt, StopsFrom, StopsAmong, IsNotPlayed, IsPlayed, HasNothingBehind, recovered_file, aside_after, IsSetAsideFirst};
ghost use Rattle.la_journal.specs.declared.recovery.Unplayed.TheVariants.{Disk as Failed};

use crate::damage::is_damage;
use crate::grouped::{Head, head_of, line_end, next_group};
use crate::records::{DIGITS, end_count, link, new_file};
use crate::{Disk, DiskFault, Durable, Machine};
use std::alloc::{AllocError, Global};

/// Why a journal was not played. The file is as it was, or after `Disk` maybe a file of the same groups. Lines are
/// counted from 1, the head and records too.
#[derive(Debug, Drop)]
pub enum Unplayed<R> {
    /// A growth was refused.
    Memory,

    /// The disk failed.
    Disk,

    /// The first line is no head: it is damaged, or this is no journal, or one of another version.
    NoHead,

    /// The head says something else than the machine's, from this byte of the machine's on.
    OtherHead(usize),

    /// This line, the first that is no head and no record, is a state's, and the machine reads none from it.
    NoState(usize),

    /// This line is no call.
    NoCall(usize),

    /// This line is a state's, and is not the first.
    Misplaced(usize),

    /// The machine refused this line.
    Refused(usize, R),

    /// The journal is damaged: from this line on it is no group with its record, and a group or a record with
    /// something behind it is there.
    Damaged(usize),
}

/// Plays what was found on a disk, a journal that a crash may have left, on a machine as it was before the first
/// call of all, and cuts what it left of a last group, which is set aside. No byte at all is no journal, `NoHead`: a new
/// one is made by [`new_journal`]. Where the
/// first line behind the head is a state's, the machine takes that. It may crash too. It writes the groups anew, so that
/// what was played is on the disk: linear in the journal, whose bytes are let go. After a refusal the disk comes back.
pub fn recover<M: Machine, D: Disk>(
    alloc: Global,
    start: M,
    found: Vec<u8>,
    disk: D,
) -> Result<Durable<M, D>, (Unplayed<M::Refusal>, D)>
    requires { D.seen disk ≡ found.items }
    ensures state { IfOk result (λ durable.
        state_after M.head M.named_state M.named M.step (M.state start) (D.seen disk)
        ≡ Some (M.state durable.machine)) }
    ensures leads { IfOk result (λ durable.
        state_after M.head M.named_state M.named M.step (M.state start) (D.seen durable.disk)
        ≡ Some (M.state durable.machine)) }
    ensures settled { IfOk result (λ durable. (durable.closed ≡ false) × IsSettled D.seen D.may_leave durable.disk) }
    ensures same { IfOk result (λ durable. lines (D.seen durable.disk) ≡ lines (D.seen disk)) }
    ensures cut { IfOk result (λ durable. durable.cut ≡ length (rest_in (parts (D.seen disk)))) }
    ensures written { IfOk result (λ durable. D.seen durable.disk
        ≡ recovered_file (D.seen disk)) }
    ensures aside { IfOk result (λ durable. D.aside durable.disk
        ≡ aside_after (rest_in (parts (D.seen disk))) (D.aside disk)) }
    ensures aside_first { IfErr result (λ e. IsSetAsideFirst (D.seen disk) (D.seen e.1)
        (aside_after (rest_in (parts (D.seen disk))) (D.aside disk)) (D.aside e.1)) }
    ensures later { IfOk result (λ durable. D.faults disk ≤ D.faults durable.disk) }

    // A crash at any moment leaves what might have been left before, or a file that leads to the same.
    ensures any_moment { IfOk result (λ durable. LeavesOnly D.moment D.left_since disk durable.disk
        (IsSameOr (D.may_leave disk) (state_after M.head M.named_state M.named M.step (M.state start)) (D.seen disk))) }
    ensures any_moment_err { IfErr result (λ e. LeavesOnly D.moment D.left_since disk e.1
        (IsSameOr (D.may_leave disk) (state_after M.head M.named_state M.named M.step (M.state start)) (D.seen disk))) }

    ensures untouched { IfErr result (λ e. IsUntouched disk e.1 e.0) }
    ensures cause { IfErr result (λ e. IsNotPlayed M.lacks_memory M.head M.named_state M.named M.step (M.state start)
        (D.faults disk) (D.faults e.1) (D.seen disk) e.0) }
{
    let mut machine = start;
    let Ok(head) = machine.head(alloc) else {
        return Err((Unplayed::Memory, disk));
    };
    match play(alloc, &mut machine, &head, &found) {
        Ok(played) => {
            let (file, torn) = found.split_at(played.end);
            let last = played.last;
            settle(machine, disk, head, file, torn, last)
        }
        Err(why) => Err((why, disk)),
    }
}

/// The bytes of a new journal of a machine: its head alone, which [`recover`] plays as a journal of no call. They are to
/// be put where no journal stands: a machine that was there before has one.
pub fn new_journal<M: Machine>(alloc: Global, machine: &M) -> Result<Vec<u8>, AllocError>
    ensures head { IfOk result (λ file. file.items ≡ head_line (M.head (M.state machine.now)) ++ 10 ∷ []) }
    ensures leads { IfOk result (λ file. state_after M.head M.named_state M.named M.step (M.state machine.now) file.items
        ≡ Some (M.state machine.now)) }
    ensures lines { IfOk result (λ file. lines file.items ≡ []) }
    ensures whole { IfOk result (λ file. EndsInGroups file.items) }
{
    new_file(alloc, &machine.head(alloc)?)
}

/// Puts the bytes of a head and groups on the disk, and these aside that stand behind them.
fn settle<M: Machine, D: Disk>(
    machine: M,
    disk: D,
    head: Vec<u8>,
    file: &[u8],
    torn: &[u8],
    last: [u8; DIGITS],
) -> Result<Durable<M, D>, (Unplayed<M::Refusal>, D)>
    requires { HasNothingBehind head.items last file.now }
    ensures made { IfOk result (λ durable. (durable.machine ≡ machine) × (durable.closed ≡ false)
        × (durable.cut ≡ length torn.now)) }
    ensures written { IfOk result (λ durable. D.seen durable.disk ≡ file.now) }
    ensures aside { IfOk result (λ durable. D.aside durable.disk ≡ aside_after torn.now (D.aside disk)) }
    ensures aside_first { IfErr result (λ e. IsSetAsideFirst (D.seen disk) (D.seen e.1)
        (aside_after torn.now (D.aside disk)) (D.aside e.1)) }
    ensures stored { IfOk result (λ durable. Only file.now (D.may_leave durable.disk)) }
    ensures any_moment { IfOk result (λ durable. LeavesOnly D.moment D.left_since disk durable.disk
        (MayBeOr (D.may_leave disk) file.now)) }
    ensures any_moment_err { IfErr result (λ e. LeavesOnly D.moment D.left_since disk e.1
        (MayBeOr (D.may_leave disk) file.now)) }
    ensures later { IfOk result (λ durable. D.faults disk ≤ D.faults durable.disk) }
    ensures cause { IfErr result (λ e. (e.0 ≡ Failed) × (D.faults disk < D.faults e.1)) }
{
    let mut disk = disk;
    if !torn.is_empty() && disk.set_aside(torn).is_err() {
        return Err((Unplayed::Disk, disk));
    }
    match disk.replace(file) {
        Ok(()) => Ok(Durable {
            machine,
            disk,
            closed: false,
            cut: torn.len(),
            head,
            last,
        }),
        Err(DiskFault) => Err((Unplayed::Disk, disk)),
    }
}

/// What was played: so many bytes, and the digest that they end in.
#[derive(Drop)]
struct Played {
    end: usize,
    last: [u8; DIGITS],
}

/// Plays the groups of a file, under a machine's head.
fn play<M: Machine>(
    alloc: Global,
    machine: &mut M,
    head: &[u8],
    file: &[u8],
) -> Result<Played, Unplayed<M::Refusal>>
    requires head { head.now ≡ M.head (M.state machine.old) }
    ensures state { OnOk result (state_after M.head M.named_state M.named M.step (M.state machine.old) file.now
        ≡ Some (M.state machine.new)) }
    ensures played { IfOk result (λ played. IsPlayed head.now file.now played.end played.last) }
    ensures cause { IfErr result (IsNotPlayed M.lacks_memory M.head M.named_state M.named M.step (M.state machine.old) 0 0 file.now) }
{
    let Some(first) = head_of(file) else {
        return Err(Unplayed::NoHead);
    };
    if first.text != head {
        return Err(Unplayed::OtherHead(alike(head, first.text)));
    }
    let played = play_groups(alloc, machine, file, &first)?;
    let (front, rest) = file.split_at(played.end);
    if is_damage(rest) {
        return Err(Unplayed::Damaged(end_count(front) + 1));
    }
    Ok(played)
}

/// Plays the groups behind a head, in their order.
fn play_groups<M: Machine>(
    alloc: Global,
    machine: &mut M,
    file: &[u8],
    head: &Head<'_>,
) -> Result<Played, Unplayed<M::Refusal>>
    requires bytes { file.now ≡ head.now.line.now ++ 10 ∷ head.now.rest.now }
    requires linked { length (link head.now.line.now) ≡ 16 }
    ensures state { OnOk result (lines_lead M.named_state M.named M.step (M.state machine.old)
        (journal (ended (in_a_row (groups record_line head.now.line.now head.now.rest.now))))
        ≡ Some (M.state machine.new)) }
    ensures end { IfOk result (λ played. played.end + length (behind head.now.line.now head.now.rest.now)
        ≡ length file.now) }
    ensures last { IfOk result (λ played. played.last
        ≡ link (last_record record_line head.now.line.now (groups record_line head.now.line.now head.now.rest.now))) }
    ensures stops { IfErr result (StopsAmong M.lacks_memory M.named_state M.named M.step false (M.state machine.old) 2
        (groups record_line head.now.line.now head.now.rest.now)) }
{
    let length = file.len();
    let mut rest = head.rest;
    let mut before = head.line;
    let mut begun = false;
    let mut number: usize = 2;
    while let Some(group) = next_group(rest, before) {
        begun = play_group(alloc, machine, group.lines, begun, number)?;
        number += end_count(group.lines) + 1;
        rest = group.rest;
        before = group.record;
    }
    Ok(Played {
        end: length - rest.len(),
        last: last_digits(before),
    })
}

/// Plays the lines of a group, of which the first has this number in the file, and answers whether any line was played
/// so far.
fn play_group<M: Machine>(
    alloc: Global,
    machine: &mut M,
    lines: &[u8],
    begun: bool,
    number: usize,
) -> Result<bool, Unplayed<M::Refusal>>
    requires { number + end_count lines.now < 2 ^ 64 }
    ensures state { OnOk result (leads_more M.named_state M.named M.step begun (M.state machine.old) (ended lines.now)
        ≡ Some (M.state machine.new)) }
    ensures begun { IfOk result (λ now. now ≡ (begun || are_some (ended lines.now))) }
    ensures stops { IfErr result (StopsFrom M.lacks_memory M.named_state M.named M.step begun (M.state machine.old) number (ended lines.now)) }
{
    let mut rest = lines;
    let mut begun = begun;
    let mut number = number;
    while let Some(n) = line_end(rest) {
        play_line(alloc, machine, &rest[..n], begun, number)?;
        begun = true;
        number += 1;
        rest = &rest[n + 1..];
    }
    Ok(begun)
}

/// Plays a line with this number in the file: where none was played before, it may say a state.
fn play_line<M: Machine>(
    alloc: Global,
    machine: &mut M,
    line: &[u8],
    begun: bool,
    number: usize,
) -> Result<(), Unplayed<M::Refusal>>
    ensures state { OnOk result (leads_more M.named_state M.named M.step begun (M.state machine.old) (line.now ∷ [])
        ≡ Some (M.state machine.new)) }
    ensures stops { IfErr result (StopsAt M.lacks_memory M.named_state M.named M.step begun (M.state machine.old) number line.now) }
{
    if let Some(text) = state_in(line) {
        if begun {
            return Err(Unplayed::Misplaced(number));
        }
        return match machine.read_state(alloc, text) {
            Ok(true) => Ok(()),
            Ok(false) => Err(Unplayed::NoState(number)),
            Err(_) => Err(Unplayed::Memory),
        };
    }
    let Ok(read) = M::read(alloc, line) else {
        return Err(Unplayed::Memory);
    };
    let Some(input) = read else {
        return Err(Unplayed::NoCall(number));
    };
    match machine.apply(&input) {
        Ok(_) => Ok(()),
        Err(refusal) => Err(Unplayed::Refused(number, refusal)),
    }
}

/// The digest that a line ends in.
fn last_digits(line: &[u8]) -> [u8; DIGITS]
    requires { length (link line.now) ≡ 16 }
    ensures { result ≡ link line.now }
{
    let mut digits = [b'0'; DIGITS];
    digits.copy_from_slice(link(line));
    digits
}

/// How many bytes two texts begin with alike.
fn alike(one: &[u8], other: &[u8]) -> usize
    ensures { result ≡ alike one.now other.now }
{
    let mut count = 0;
    for (a, b) in one.iter().zip(other) {
        if *a != *b {
            return count;
        }
        count += 1;
    }
    count
}

/// The text of the state that a line says, where it is no call's.
fn state_in(line: &[u8]) -> Option<&[u8]>
    ensures some { IfSome result (λ text. state_in line.now ≡ Some text.now) }
    ensures none { result ≡ None → state_in line.now ≡ None }
{
    match line.split_first() {
        Some((first, text)) if *first == b'=' => Some(text),
        _ => None,
    }
}
