// Letters, read from lines.
ghost use Rattle.std.specs.Prelude.{◌≡◌, IfOk};
ghost use Rattle.la_script.specs.Words.{bytes_of};
ghost use Rattle.la_wire.specs.Readings.{GivesOnLine, GivesFirst};
ghost use Rattle.la_wire.specs.Messages.{said_delta, said_content, letter_message};
ghost use Rattle.la_wire.specs.MessageLines.{kind_text, kind_word, message_header, first_counts, counts_behind};
ghost use Rattle.la_wire.specs.MessageLines.{progress_in, over_in, standing_in, base_on, delta_in, body_in, message_at, message_in, line_message};

use crate::counts::counts_on;
use crate::updates::updates_in;
use crate::words::{at_end, first_number, parts_of};
use crate::{Letter, LineError, LineFault};
use la_node::Standing;
use la_replica::{Content, Parcel, Progress};
use la_script::words_of;
use la_set::{Counts, Delta};
use std::alloc::Global;

/// The word before how far a replica is.
pub const KNOWN: &[u8] = b"known";

/// What a message is, as a word.
#[derive(Clone, Copy)]
pub enum Kind {
    Offer,
    Yes,
    No,
    Tell,
}

impl Kind {
    /// The word, as bytes.
    pub fn spelling(self) -> &'static [u8]
        ensures { result.now ≡ kind_text self }
    {
        match self {
            Kind::Offer => b"offer",
            Kind::Yes => b"yes",
            Kind::No => b"no",
            Kind::Tell => b"tell",
        }
    }

    /// The kind that a word is.
    pub fn of(word: &[u8]) -> Option<Kind>
        ensures { result ≡ kind_word word.now }
    {
        if word == Kind::Offer.spelling() {
            Some(Kind::Offer)
        } else if word == Kind::Yes.spelling() {
            Some(Kind::Yes)
        } else if word == Kind::No.spelling() {
            Some(Kind::No)
        } else if word == Kind::Tell.spelling() {
            Some(Kind::Tell)
        } else {
            None
        }
    }
}

/// The numbers that a head begins with.
#[derive(Clone, Copy)]
pub struct Header {
    pub replicas: u8,
    pub from: u8,
    pub to: u8,
    pub instance: u8,
    pub ballot: u32,
}

// The header, and the words behind it.
fn header_in<'a, 'b>(words: &'a [&'b [u8]]) -> Result<(Header, &'a [&'b [u8]]), LineFault>
    ensures { GivesFirst (message_header (bytes_of words.now)) result }
{
    let byte = u64::from(u8::MAX);
    let (replicas, words) = first_number(1, 8, words)?;
    let (from, words) = first_number(0, byte, words)?;
    let (to, words) = first_number(0, byte, words)?;
    let (instance, words) = first_number(0, byte, words)?;
    let (ballot, words) = first_number(0, u64::from(u32::MAX), words)?;
    let header = Header {
        replicas: replicas as u8,
        from: from as u8,
        to: to as u8,
        instance: instance as u8,
        ballot: ballot as u32,
    };
    Ok((header, words))
}

// The first word as counts, and the words behind it.
pub(crate) fn first_counts<'a, 'b>(
    words: &'a [&'b [u8]],
) -> Result<(Counts, &'a [&'b [u8]]), LineFault>
    ensures { GivesFirst (first_counts (bytes_of words.now)) result }
{
    match words {
        [word, rest @ ..] => Ok((counts_on(word)?, rest)),
        [] => Err(LineFault::BadLine),
    }
}

// The same, behind this word.
pub(crate) fn counts_behind<'a, 'b>(
    label: &[u8],
    words: &'a [&'b [u8]],
) -> Result<(Counts, &'a [&'b [u8]]), LineFault>
    ensures { GivesFirst (counts_behind label.now (bytes_of words.now)) result }
{
    match words {
        [word, rest @ ..] if *word == label => first_counts(rest),
        _ => Err(LineFault::BadLine),
    }
}

// How far the sender is, and the words behind it.
#[tactic(auto, unfolding(crate::specs::MessageLines::progress_in))]
fn progress_in<'a, 'b>(words: &'a [&'b [u8]]) -> Result<(Progress, &'a [&'b [u8]]), LineFault>
    ensures { GivesFirst (progress_in (bytes_of words.now)) result }
{
    let (accepted, words) = counts_behind(b"has", words)?;
    let (view, words) = counts_behind(b"view", words)?;
    Ok((Progress { accepted, view }, words))
}

// Over what the letter was told that is answered, and the words behind it.
#[tactic(auto, unfolding(crate::specs::MessageLines::over_in))]
fn over_in<'a, 'b>(words: &'a [&'b [u8]]) -> Result<(Progress, &'a [&'b [u8]]), LineFault>
    ensures { GivesFirst (over_in (bytes_of words.now)) result }
{
    let (accepted, words) = counts_behind(Kind::Offer.spelling(), words)?;
    let (view, words) = counts_behind(Kind::Tell.spelling(), words)?;
    Ok((Progress { accepted, view }, words))
}

/// How far a replica is, what it answers, and nothing behind it, by the words behind `known`.
#[tactic(auto, unfolding(crate::specs::MessageLines::standing_in))]
pub fn standing_in(words: &[&[u8]]) -> Result<Standing, LineFault>
    ensures { result ≡ standing_in (bytes_of words.now) }
{
    let byte = u64::from(u8::MAX);
    let (replicas, words) = first_number(1, 8, words)?;
    let (from, words) = first_number(0, byte, words)?;
    let (to, words) = first_number(0, byte, words)?;
    let (progress, words) = progress_in(words)?;
    let (over, words) = over_in(words)?;
    at_end(words)?;
    Ok(Standing {
        replicas: replicas as u8,
        from: from as u8,
        to: to as u8,
        progress,
        over,
    })
}

#[tactic(auto, unfolding(crate::specs::MessageLines::base_on))]
fn base_on(words: &[&[u8]]) -> Result<Counts, LineFault>
    ensures { result ≡ base_on (bytes_of words.now) }
{
    let (base, words) = counts_behind(b"base", words)?;
    at_end(words)?;
    Ok(base)
}

// A base, and the updates over it.
fn delta_in(alloc: Global, words: &[&[u8]], parts: &[&[u8]]) -> Result<Delta, LineError>
    ensures { GivesOnLine said_delta (delta_in (bytes_of words.now) (bytes_of parts.now)) result }
{
    let base = base_on(words)?;
    Ok(Delta::new(base, updates_in(alloc, parts)?))
}

// What stands behind the progress, and in the parts behind the head.
#[tactic(auto, unfolding(crate::specs::MessageLines::body_in))]
fn content_in(
    alloc: Global,
    kind: Kind,
    words: &[&[u8]],
    parts: &[&[u8]],
) -> Result<Content, LineError>
    ensures { GivesOnLine said_content (body_in kind (bytes_of words.now) (bytes_of parts.now)) result }
{
    match kind {
        Kind::Offer => Ok(Content::Offer(delta_in(alloc, words, parts)?)),
        Kind::Yes => {
            at_end(words)?;
            at_end(parts)?;
            Ok(Content::Yes)
        }
        Kind::No => Ok(Content::No(delta_in(alloc, words, parts)?)),
        Kind::Tell => Ok(Content::Tell(delta_in(alloc, words, parts)?)),
    }
}

// A letter of a kind, by the words behind it.
#[tactic(auto, unfolding(crate::specs::MessageLines::message_at))]
fn message_at(
    alloc: Global,
    kind: Kind,
    words: &[&[u8]],
    parts: &[&[u8]],
) -> Result<Letter, LineError>
    ensures { GivesOnLine letter_message (message_at kind (bytes_of words.now) (bytes_of parts.now)) result }
{
    let (header, words) = header_in(words)?;
    let (progress, words) = progress_in(words)?;
    let content = content_in(alloc, kind, words, parts)?;
    let parcel = Parcel {
        instance: header.instance,
        from: header.from,
        to: header.to,
        ballot: header.ballot,
        content,
    };
    Ok(Letter {
        replicas: header.replicas,
        progress,
        parcel,
    })
}

fn message_in(alloc: Global, words: &[&[u8]], parts: &[&[u8]]) -> Result<Letter, LineError>
    ensures { GivesOnLine letter_message (message_in (bytes_of words.now) (bytes_of parts.now)) result }
{
    let [word, rest @ ..] = words else {
        return Err(LineError::Fault(LineFault::BadLine));
    };
    match Kind::of(word) {
        Some(kind) => message_at(alloc, kind, rest, parts),
        None => Err(LineError::Fault(LineFault::BadLine)),
    }
}

/// The letter that a line says, at a cost linear in its bytes.
pub fn read_message(alloc: Global, line: &[u8]) -> Result<Letter, LineError>
    ensures { GivesOnLine letter_message (line_message line.now) result }
{
    let parts = parts_of(alloc, line)?;
    let [head, updates @ ..] = parts.as_slice() else {
        return Err(LineError::Fault(LineFault::BadLine));
    };
    let words = words_of(alloc, head)?;
    message_in(alloc, &words, updates)
}
