// What a client asks of a node that no call says, and what it takes out of a set by what is seen.
ghost use Rattle.std.specs.Prelude.{◌≡◌, IfOk, option_map};
ghost use Rattle.la_script.specs.Words.{bytes_of};
ghost use Rattle.la_script.specs.Numbers.{u8_max, u16_max, u64_max, number};
ghost use Rattle.la_wire.specs.Questions.{tags_question, updates_question, question_asked, status_asked, update_asked};
ghost use Rattle.la_wire.specs.Questions.{question_by, question_in, taker_of, taken_by, take_by, take_in};
ghost use Rattle.la_wire.specs.Questions.{awaited_line, awaited_by, awaited_in};
ghost use Rattle.la_wire.specs.Joined.{front_word};
ghost use Rattle.std.specs.Str.{bytes_eq};

use crate::requests::SUBMIT;
use la_script::{number, split_once, tag_of, words_of};
use la_set::UpdateId;
use std::alloc::{AllocError, Global};

pub(crate) const ASK: &[u8] = b"ask";

pub(crate) const STATUS: &[u8] = b"status";

pub(crate) const UPDATE: &[u8] = b"update";

pub(crate) const TAGS: &[u8] = b"tags";

pub(crate) const UPDATES: &[u8] = b"updates";

pub(crate) const TAKE: &[u8] = b"take";

const AT: &[u8] = b"at";

/// What a client asks of a node that no call says.
#[derive(Clone, Copy, PartialEq, Eq)]
pub enum Question {
    /// Which updates put this element that an object still has: `ask R O tags X`.
    Tags {
        /// The number of the replica, from 0.
        replica: u8,
        /// The number of the object.
        object: u16,
        /// The element.
        element: u64,
    },
    /// How many updates of an object the view has, of each replica: `ask R O updates`.
    Updates {
        /// The number of the replica, from 0.
        replica: u8,
        /// The number of the object.
        object: u16,
    },
    /// Which update has this id: `update R P.N`.
    Update {
        /// The number of the replica that is asked, from 0.
        replica: u8,
        /// The id.
        id: UpdateId,
    },
    /// How the node stands: `status R`.
    Status {
        /// The number of the replica, from 0.
        replica: u8,
    },
}

/// A submission that takes an element out by what is seen: `submit R O take X`, or `submit R.K O take X`.
#[derive(Clone, Copy, PartialEq, Eq)]
pub struct Take {
    /// The number of the replica, from 0.
    pub replica: u8,
    /// Which of its replica's updates it is to be, from 1, where it says so.
    pub number: Option<u32>,
    /// The number of the object.
    pub object: u16,
    /// The element that is taken out.
    pub element: u64,
}

/// A question that waits for an update, apart: `ask .. at R.K`.
#[derive(Clone, Copy)]
pub struct Awaited<'a> {
    /// The update that it waits for.
    pub after: UpdateId,
    /// The line without `at` and the id, and without the spaces before them.
    pub plain: &'a [u8],
}

// Whether a line's first word is this one.
fn begins_with(line: &[u8], word: &[u8]) -> bool
    ensures { result ≡ bytes_eq (front_word line.now) word.now }
{
    let (first, _) = split_once(line, b' ');
    first == word
}

// A number of 8 bits, as a replica has.
fn replica_in(word: &[u8]) -> Option<u8>
    ensures { result ≡ number 0 u8_max word.now }
{
    Some(number(0, u64::from(u8::MAX), word)? as u8)
}

// A number of 16 bits, as an object has.
fn object_in(word: &[u8]) -> Option<u16>
    ensures { result ≡ number 0 u16_max word.now }
{
    Some(number(0, u64::from(u16::MAX), word)? as u16)
}

fn tags_question(replica: &[u8], object: &[u8], element: &[u8]) -> Option<Question>
    ensures { result ≡ tags_question (number 0 u8_max replica.now) (number 0 u16_max object.now)
        (number 0 u64_max element.now) }
{
    Some(Question::Tags {
        replica: replica_in(replica)?,
        object: object_in(object)?,
        element: number(0, u64::MAX, element)?,
    })
}

fn updates_question(replica: &[u8], object: &[u8]) -> Option<Question>
    ensures { result ≡ updates_question (number 0 u8_max replica.now) (number 0 u16_max object.now) }
{
    Some(Question::Updates {
        replica: replica_in(replica)?,
        object: object_in(object)?,
    })
}

// The question that the words behind `ask` are.
fn question_asked(words: &[&[u8]]) -> Option<Question>
    ensures { result ≡ question_asked (bytes_of words.now) }
{
    match words {
        [replica, object, word] if *word == UPDATES => updates_question(replica, object),
        [replica, object, word, element] if *word == TAGS => {
            tags_question(replica, object, element)
        }
        _ => None,
    }
}

// The question that the words behind `status` are.
fn status_asked(words: &[&[u8]]) -> Option<Question>
    ensures { result ≡ status_asked (bytes_of words.now) }
{
    match words {
        [word] => Some(Question::Status {
            replica: replica_in(word)?,
        }),
        _ => None,
    }
}

// The question that the words behind `update` are.
fn update_asked(words: &[&[u8]]) -> Option<Question>
    ensures { result ≡ update_asked (bytes_of words.now) }
{
    match words {
        [replica, id] => Some(Question::Update {
            replica: replica_in(replica)?,
            id: tag_of(id)?,
        }),
        _ => None,
    }
}

fn question_by(words: &[&[u8]]) -> Option<Question>
    ensures { result ≡ question_by (bytes_of words.now) }
{
    match words {
        [word, rest @ ..] if *word == STATUS => status_asked(rest),
        [word, rest @ ..] if *word == UPDATE => update_asked(rest),
        [word, rest @ ..] if *word == ASK => question_asked(rest),
        _ => None,
    }
}

/// The question that a line is, by its words: `ask R O tags X`, `ask R O updates`, `update R P.N` or `status R`, with R
/// of 8 bits, O of 16, X of 64 and P.N an id. Any other line is none, nor is one with a number there that is not canonical or is out of its range,
/// of which the fault is found where the call is read. It takes memory for the words, at a cost linear in the line.
pub fn question_in(alloc: Global, line: &[u8]) -> Result<Option<Question>, AllocError>
    ensures { IfOk result (λ q. q ≡ question_in line.now) }
{
    if !begins_with(line, STATUS) && !begins_with(line, UPDATE) && !begins_with(line, ASK) {
        return Ok(None);
    }
    question_by_words(alloc, line)
}

#[tactic(auto, unfolding(crate::specs::Questions::question_in))]
fn question_by_words(alloc: Global, line: &[u8]) -> Result<Option<Question>, AllocError>
    ensures { IfOk result (λ q. q ≡ question_in line.now) }
{
    let words = words_of(alloc, line)?;
    Ok(question_by(&words))
}

// Who takes, and under which number, by an id or by a replica's number.
fn taker_of(word: &[u8]) -> Option<(u8, Option<u32>)>
    ensures { result ≡ taker_of word.now }
{
    match tag_of(word) {
        Some(id) => Some((id.replica, Some(id.number))),
        None => Some((replica_in(word)?, None)),
    }
}

fn taken_by(taker: &[u8], object: &[u8], element: &[u8]) -> Option<Take>
    ensures { result ≡ taken_by (taker_of taker.now) (number 0 u16_max object.now) (number 0 u64_max element.now) }
{
    let (replica, under) = taker_of(taker)?;
    Some(Take {
        replica,
        number: under,
        object: object_in(object)?,
        element: number(0, u64::MAX, element)?,
    })
}

fn take_by(words: &[&[u8]]) -> Option<Take>
    ensures { result ≡ take_by (bytes_of words.now) }
{
    match words {
        [first, taker, object, word, element] if *first == SUBMIT && *word == TAKE => {
            taken_by(taker, object, element)
        }
        _ => None,
    }
}

/// The take that a line is, by its words: `submit R O take X` or `submit R.K O take X`, with R of 8 bits, K of 32 from
/// 1, O of 16 and X of 64. Any other line is none, nor is one with a number there that is not canonical or is out of its
/// range, of which the fault is found where the call is read. It takes memory for the words, at a cost linear in the
/// line.
pub fn take_in(alloc: Global, line: &[u8]) -> Result<Option<Take>, AllocError>
    ensures { IfOk result (λ t. t ≡ take_in line.now) }
{
    if !begins_with(line, SUBMIT) {
        return Ok(None);
    }
    take_by_words(alloc, line)
}

#[tactic(auto, unfolding(crate::specs::Questions::take_in))]
fn take_by_words(alloc: Global, line: &[u8]) -> Result<Option<Take>, AllocError>
    ensures { IfOk result (λ t. t ≡ take_in line.now) }
{
    let words = words_of(alloc, line)?;
    Ok(take_by(&words))
}

// Apart, where this word at the line's end is an id. The line is as long as what is taken off, at least, where it ends so.
fn awaited_by<'a>(line: &'a [u8], word: &[u8]) -> Option<Awaited<'a>>
    ensures { option_map awaited_line result ≡ awaited_by line.now word.now }
{
    let after = tag_of(word)?;
    let end = line.len().saturating_sub(word.len() + 4);
    Some(Awaited {
        after,
        plain: &line[..end],
    })
}

/// A question that waits apart, by its words: a line that begins with `ask` and ends with `at` and an id. Any other line
/// is none. It takes memory for the words, at a cost linear in the line.
pub fn awaited_in<'a>(alloc: Global, line: &'a [u8]) -> Result<Option<Awaited<'a>>, AllocError>
    ensures { IfOk result (λ a. option_map awaited_line a ≡ awaited_in line.now) }
{
    if !begins_with(line, ASK) {
        return Ok(None);
    }
    awaited_by_words(alloc, line)
}

#[tactic(auto, unfolding(crate::specs::Questions::awaited_in))]
fn awaited_by_words<'a>(alloc: Global, line: &'a [u8]) -> Result<Option<Awaited<'a>>, AllocError>
    ensures { IfOk result (λ a. option_map awaited_line a ≡ awaited_in line.now) }
{
    let words = words_of(alloc, line)?;
    match words.as_slice() {
        [first, .., at, word] if *first == ASK && *at == AT => Ok(awaited_by(line, word)),
        _ => Ok(None),
    }
}
