// Updates, each read from a part of a line.
ghost use Rattle.std.specs.Prelude.{◌≡◌, ◌≤◌, IfOk};
ghost use Rattle.la_script.specs.Words.{bytes_of};
ghost use Rattle.la_wire.specs.Readings.{GivesOnLine};
ghost use Rattle.la_wire.specs.Updates.{verb_spelling, vote_verb, verb_of, only_number, line_tags};
ghost use Rattle.la_wire.specs.Updates.{own_made, own_on, only_own, op_at, op_in, update_in, updates_in};

use crate::words::{at_end, first_id, first_number, number_at};
use crate::{LineError, LineFault};
use hex::FromHexError;
use la_own::{OwnError, own_op};
use la_script::{tags_of, words_of};
use la_set::{MAX_TAGS, Op, Tags, Update, Updates};
use std::alloc::Global;

/// What an update does, as a word.
#[derive(Clone, Copy)]
pub enum Verb {
    Inc,
    Dec,
    Raise,
    Put,
    Remove,
    Own,
    Mark,
    Vote,
    Sole,
}

/// How many hexadecimal digits say an operation of one's own at most.
pub(crate) const MAX_OWN_DIGITS: usize = 496;

impl Verb {
    /// The word, as bytes.
    pub fn spelling(self) -> &'static [u8]
        ensures { result.now ≡ verb_spelling self }
    {
        match self {
            Verb::Inc => b"inc",
            Verb::Dec => b"dec",
            Verb::Raise => b"raise",
            Verb::Put => b"put",
            Verb::Remove => b"remove",
            Verb::Own => b"own",
            Verb::Mark => b"mark",
            Verb::Vote => b"vote",
            Verb::Sole => b"sole",
        }
    }

    /// The verb of a vote.
    pub fn of_vote(sole: bool) -> Verb
        ensures { result ≡ vote_verb sole }
    {
        if sole { Verb::Sole } else { Verb::Vote }
    }

    /// The verb that a word is.
    pub(crate) fn of(word: &[u8]) -> Option<Verb>
        ensures { result ≡ verb_of word.now }
    {
        if word == Verb::Inc.spelling() {
            Some(Verb::Inc)
        } else if word == Verb::Dec.spelling() {
            Some(Verb::Dec)
        } else if word == Verb::Raise.spelling() {
            Some(Verb::Raise)
        } else if word == Verb::Put.spelling() {
            Some(Verb::Put)
        } else if word == Verb::Remove.spelling() {
            Some(Verb::Remove)
        } else if word == Verb::Own.spelling() {
            Some(Verb::Own)
        } else if word == Verb::Mark.spelling() {
            Some(Verb::Mark)
        } else if word == Verb::Vote.spelling() {
            Some(Verb::Vote)
        } else if word == Verb::Sole.spelling() {
            Some(Verb::Sole)
        } else {
            None
        }
    }
}

// One number up to the highest, and nothing behind it.
fn only_number(high: u64, words: &[&[u8]]) -> Result<u64, LineFault>
    ensures exact { result ≡ only_number high (bytes_of words.now) }
    ensures high { IfOk result (λ n. n ≤ high) }
{
    match words {
        [word] => number_at(0, high, word),
        _ => Err(LineFault::BadLine),
    }
}

fn tags_at(alloc: Global, words: &[&[u8]]) -> Result<Tags, LineError>
    ensures { GivesOnLine (λ tags. tags) (line_tags (bytes_of words.now)) result }
{
    if words.len() > MAX_TAGS {
        return Err(LineError::Fault(LineFault::BadLine));
    }
    match tags_of(alloc, words)? {
        Some(tags) => Ok(tags),
        None => Err(LineError::Fault(LineFault::BadNumber)),
    }
}

// The operation of one's own of these bytes.
fn own_made(alloc: Global, bytes: &[u8]) -> Result<Op, LineError>
    ensures { GivesOnLine (λ op. op) (own_made bytes.now) result }
{
    match own_op(alloc, bytes) {
        Ok(op) => Ok(op),
        Err(OwnError::TooLong) => Err(LineError::Fault(LineFault::BadNumber)),
        Err(OwnError::Memory) => Err(LineError::Memory),
    }
}

/// The operation of one's own that a word says: `-`, or two hexadecimal digits for each of its bytes.
pub(crate) fn own_on(alloc: Global, word: &[u8]) -> Result<Op, LineError>
    ensures { GivesOnLine (λ op. op) (own_on word.now) result }
{
    if word == b"-".as_slice() {
        return own_made(alloc, &[]);
    }
    if word.is_empty() {
        return Err(LineError::Fault(LineFault::BadNumber));
    }
    match hex::decode(alloc, word) {
        Ok(bytes) => own_made(alloc, &bytes),
        Err(FromHexError::OutOfMemory) => Err(LineError::Memory),
        Err(_) => Err(LineError::Fault(LineFault::BadNumber)),
    }
}

// One word that says it, and nothing behind it.
fn only_own(alloc: Global, words: &[&[u8]]) -> Result<Op, LineError>
    ensures { GivesOnLine (λ op. op) (only_own (bytes_of words.now)) result }
{
    match words {
        [word] => own_on(alloc, word),
        _ => Err(LineError::Fault(LineFault::BadLine)),
    }
}

// What the words behind a verb say.
fn op_at(alloc: Global, verb: Verb, words: &[&[u8]]) -> Result<Op, LineError>
    ensures { GivesOnLine (λ op. op) (op_at verb (bytes_of words.now)) result }
{
    let small = u64::from(u32::MAX);
    match verb {
        Verb::Inc => Ok(Op::Inc(only_number(small, words)? as u32)),
        Verb::Dec => Ok(Op::Dec(only_number(small, words)? as u32)),
        Verb::Raise => Ok(Op::Raise(only_number(u64::MAX, words)?)),
        Verb::Put => Ok(Op::Put(only_number(u64::MAX, words)?)),
        Verb::Remove => Ok(Op::Remove(tags_at(alloc, words)?)),
        Verb::Own => only_own(alloc, words),
        Verb::Mark => {
            at_end(words)?;
            Ok(Op::Mark)
        }
        Verb::Vote => Ok(Op::Vote {
            value: only_number(u64::MAX, words)?,
            sole: false,
        }),
        Verb::Sole => Ok(Op::Vote {
            value: only_number(u64::MAX, words)?,
            sole: true,
        }),
    }
}

fn op_in(alloc: Global, words: &[&[u8]]) -> Result<Op, LineError>
    ensures { GivesOnLine (λ op. op) (op_in (bytes_of words.now)) result }
{
    let [word, rest @ ..] = words else {
        return Err(LineError::Fault(LineFault::BadLine));
    };
    match Verb::of(word) {
        Some(verb) => op_at(alloc, verb, rest),
        None => Err(LineError::Fault(LineFault::BadLine)),
    }
}

/// The update that words say.
pub(crate) fn update_in(alloc: Global, words: &[&[u8]]) -> Result<Update, LineError>
    ensures { GivesOnLine (λ update. update) (update_in (bytes_of words.now)) result }
{
    let (id, words) = first_id(words)?;
    let (object, words) = first_number(0, u64::from(u16::MAX), words)?;
    let op = op_in(alloc, words)?;
    Ok(Update {
        id,
        object: object as u16,
        op,
    })
}

/// The updates that parts of a line say, at a cost linear in their bytes.
#[tactic(auto, using(crate::proofs::UpdateLists::goes_on))]
pub fn updates_in(alloc: Global, parts: &[&[u8]]) -> Result<Updates, LineError>
    ensures { GivesOnLine (λ updates. updates) (updates_in (bytes_of parts.now)) result }
{
    let mut updates = Updates::new(alloc);
    for part in parts {
        let words = words_of(alloc, part)?;
        updates.push(update_in(alloc, &words)?)?;
    }
    Ok(updates)
}
