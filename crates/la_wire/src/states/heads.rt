// The heads of a state's text, read from their words.
ghost use Rattle.std.specs.Prelude.{◌≡◌, ◌≤◌, IfOk};
ghost use Rattle.la_proposer.specs.Majority.{votes_of};
ghost use Rattle.la_script.specs.Words.{bytes_of};
ghost use Rattle.la_wire.specs.Readings.{GivesFirst, GivesOnLine};
ghost use Rattle.la_wire.specs.States.{number_behind, asking_word, asking_of, first_asking, first_ballot, ballot_behind};
ghost use Rattle.la_wire.specs.States.{first_learnt, learnt_behind, eight_counts, eight_behind, instance_head};
ghost use Rattle.la_wire.specs.States.{vote_numbers, group_with, votes_behind, group_head, said_group};

use crate::messages::{counts_behind, first_counts};
use crate::words::{first_number, number_at};
use crate::{LineError, LineFault};
use la_proposer::Votes;
use la_set::Counts;
use std::alloc::Global;

/// A ballot's number, and the counts of its set.
#[derive(Clone, Copy)]
pub struct BallotHead {
    pub number: u32,
    pub of: Counts,
}

/// What an instance's head says, but for the replies that have counted: each set by its counts.
#[derive(Clone, Copy)]
pub struct InstanceHead {
    pub cap: u32,
    pub accepted: Counts,
    pub last: BallotHead,
    pub is_asking: bool,
    pub submissions: Counts,
    pub reported: [Counts; 8],
    pub learnt: Option<BallotHead>,
}

/// What a state's head says.
#[derive(Clone, Copy)]
pub struct GroupHead {
    pub own: u8,
    pub view: Counts,
    pub votes: Votes,
}

// The first of the words behind this one, as a number, and the words behind it.
fn number_behind<'a, 'b>(
    label: &[u8],
    high: u64,
    words: &'a [&'b [u8]],
) -> Result<(u64, &'a [&'b [u8]]), LineFault>
    ensures exact { GivesFirst (number_behind label.now high (bytes_of words.now)) result }
    ensures high { IfOk result (λ r. r.0 ≤ high) }
{
    match words {
        [word, rest @ ..] if *word == label => first_number(0, high, rest),
        _ => Err(LineFault::BadLine),
    }
}

// The words of an open ballot, and of one that is not.
pub fn asking_word(is_asking: bool) -> &'static [u8]
    ensures { result.now ≡ asking_word is_asking }
{
    if is_asking { b"open" } else { b"shut" }
}

fn asking_of(word: &[u8]) -> Option<bool>
    ensures { result ≡ asking_of word.now }
{
    if word == asking_word(true) {
        Some(true)
    } else if word == asking_word(false) {
        Some(false)
    } else {
        None
    }
}

// Whether a ballot is open, by the first word, and the words behind it.
fn first_asking<'a, 'b>(words: &'a [&'b [u8]]) -> Result<(bool, &'a [&'b [u8]]), LineFault>
    ensures { GivesFirst (first_asking (bytes_of words.now)) result }
{
    let [word, rest @ ..] = words else {
        return Err(LineFault::BadLine);
    };
    match asking_of(word) {
        Some(is_asking) => Ok((is_asking, rest)),
        None => Err(LineFault::BadLine),
    }
}

// A ballot's number and counts, and the words behind them.
#[tactic(auto, unfolding(crate::specs::States::first_ballot))]
fn first_ballot<'a, 'b>(words: &'a [&'b [u8]]) -> Result<(BallotHead, &'a [&'b [u8]]), LineFault>
    ensures { GivesFirst (first_ballot (bytes_of words.now)) result }
{
    let (number, words) = first_number(0, u64::from(u32::MAX), words)?;
    let (of, words) = first_counts(words)?;
    let ballot = BallotHead {
        number: number as u32,
        of,
    };
    Ok((ballot, words))
}

// The same, behind this word.
fn ballot_behind<'a, 'b>(
    label: &[u8],
    words: &'a [&'b [u8]],
) -> Result<(BallotHead, &'a [&'b [u8]]), LineFault>
    ensures { GivesFirst (ballot_behind label.now (bytes_of words.now)) result }
{
    match words {
        [word, rest @ ..] if *word == label => first_ballot(rest),
        _ => Err(LineFault::BadLine),
    }
}

// The same, or `none`.
fn first_learnt<'a, 'b>(
    words: &'a [&'b [u8]],
) -> Result<(Option<BallotHead>, &'a [&'b [u8]]), LineFault>
    ensures { GivesFirst (first_learnt (bytes_of words.now)) result }
{
    match words {
        [word, rest @ ..] if *word == b"none".as_slice() => Ok((None, rest)),
        [_, ..] => {
            let (ballot, rest) = first_ballot(words)?;
            Ok((Some(ballot), rest))
        }
        [] => Err(LineFault::BadLine),
    }
}

// The same, behind this word.
fn learnt_behind<'a, 'b>(
    label: &[u8],
    words: &'a [&'b [u8]],
) -> Result<(Option<BallotHead>, &'a [&'b [u8]]), LineFault>
    ensures { GivesFirst (learnt_behind label.now (bytes_of words.now)) result }
{
    match words {
        [word, rest @ ..] if *word == label => first_learnt(rest),
        _ => Err(LineFault::BadLine),
    }
}

// Counts of eight replicas, and the words behind them.
#[tactic(auto, unfolding(crate::specs::States::eight_counts))]
fn eight_counts<'a, 'b>(words: &'a [&'b [u8]]) -> Result<([Counts; 8], &'a [&'b [u8]]), LineFault>
    ensures { GivesFirst (eight_counts (bytes_of words.now)) result }
{
    let (a, words) = first_counts(words)?;
    let (b, words) = first_counts(words)?;
    let (c, words) = first_counts(words)?;
    let (d, words) = first_counts(words)?;
    let (e, words) = first_counts(words)?;
    let (f, words) = first_counts(words)?;
    let (g, words) = first_counts(words)?;
    let (h, words) = first_counts(words)?;
    Ok(([a, b, c, d, e, f, g, h], words))
}

// The same, behind this word.
fn eight_behind<'a, 'b>(
    label: &[u8],
    words: &'a [&'b [u8]],
) -> Result<([Counts; 8], &'a [&'b [u8]]), LineFault>
    ensures { GivesFirst (eight_behind label.now (bytes_of words.now)) result }
{
    match words {
        [word, rest @ ..] if *word == label => eight_counts(rest),
        _ => Err(LineFault::BadLine),
    }
}

/// An instance's head, and the words behind it.
#[tactic(auto, unfolding(crate::specs::States::instance_head))]
pub fn instance_head<'a, 'b>(
    words: &'a [&'b [u8]],
) -> Result<(InstanceHead, &'a [&'b [u8]]), LineFault>
    ensures { GivesFirst (instance_head (bytes_of words.now)) result }
{
    let (cap, words) = number_behind(b"cap", u64::from(u32::MAX), words)?;
    let (accepted, words) = counts_behind(b"has", words)?;
    let (last, words) = ballot_behind(b"ballot", words)?;
    let (is_asking, words) = first_asking(words)?;
    let (submissions, words) = counts_behind(b"mine", words)?;
    let (reported, words) = eight_behind(b"reported", words)?;
    let (learnt, words) = learnt_behind(b"learnt", words)?;
    let head = InstanceHead {
        cap: cap as u32,
        accepted,
        last,
        is_asking,
        submissions,
        reported,
        learnt,
    };
    Ok((head, words))
}

// The numbers that these words are.
#[tactic(auto, using(crate::proofs::UpdateLists::goes_on))]
fn vote_numbers(alloc: Global, words: &[&[u8]]) -> Result<Vec<u16>, LineError>
    ensures { GivesOnLine (λ numbers. numbers.items) (vote_numbers (bytes_of words.now)) result }
{
    let mut numbers = Vec::new(alloc);
    for word in words {
        let number = number_at(0, u64::from(u16::MAX), word)?;
        numbers.push(number as u16)?;
    }
    Ok(numbers)
}

// The votes with these numbers.
fn group_with(numbers: &[u16]) -> Result<Votes, LineError>
    ensures { GivesOnLine (λ votes. votes_of votes) (group_with numbers.now) result }
{
    match Votes::new(numbers) {
        Ok(votes) => Ok(votes),
        Err(_) => Err(LineError::Fault(LineFault::BadNumber)),
    }
}

// The votes that the words behind this one say.
fn votes_behind(alloc: Global, label: &[u8], words: &[&[u8]]) -> Result<Votes, LineError>
    ensures { GivesOnLine (λ votes. votes_of votes) (votes_behind label.now (bytes_of words.now)) result }
{
    match words {
        [word, rest @ ..] if *word == label => {
            let numbers = vote_numbers(alloc, rest)?;
            group_with(&numbers)
        }
        _ => Err(LineError::Fault(LineFault::BadLine)),
    }
}

/// What a state's head says.
#[tactic(auto, unfolding(crate::specs::States::group_head))]
pub fn group_head(alloc: Global, words: &[&[u8]]) -> Result<GroupHead, LineError>
    ensures { GivesOnLine said_group (group_head (bytes_of words.now)) result }
{
    let (own, words) = number_behind(b"state", u64::from(u8::MAX), words)?;
    let (view, words) = counts_behind(b"view", words)?;
    let votes = votes_behind(alloc, b"votes", words)?;
    Ok(GroupHead {
        own: own as u8,
        view,
        votes,
    })
}
