// Which part of a client's line is wrong.
ghost use Rattle.std.specs.Prelude.{◌≡◌, ◌≤◌, length, IfOk, option_map};
ghost use Rattle.std.specs.List.{list_all};
ghost use Rattle.std.specs.Option.{is_some};
ghost use Rattle.std.specs.Char.{is_ascii_hexdigit};
ghost use Rattle.la_script.specs.Words.{bytes_of};
ghost use Rattle.la_script.specs.Numbers.{u8_max, u16_max, number};
ghost use Rattle.la_wire.specs.Wrongs.{follows, behind_call, behind_verb, behind_operation, behind_question};
ghost use Rattle.la_wire.specs.Wrongs.{wanted_behind, is_own_text, may_end};
ghost use Rattle.la_wire.specs.Wrongs.{wrong_view, wrong_in, wrong_part, wrong_of, is_none_text};

use crate::LineFault;
use crate::calls::TICK;
use crate::questions::{ASK, STATUS, TAGS, TAKE, UPDATE, UPDATES};
use crate::requests::{SUBMIT, is_of_peer};
use crate::updates::{MAX_OWN_DIGITS, Verb};
use la_script::{number, tag_of, words_of};
use std::alloc::{AllocError, Global};

/// What is to stand at a place of a line that a client writes.
#[derive(Clone, Copy)]
pub enum Wanted {
    /// What the line calls for: its first word.
    Call,
    /// The number of the replica that submits.
    Submitter,
    /// The number of the object that is changed.
    Changed,
    /// What is done to it.
    Operation,
    /// The number of the replica that is asked.
    Asked,
    /// The number of the object that is looked at.
    Looked,
    /// What it is asked.
    Question,
    /// The number of the replica that proposes.
    Decider,
    /// The number of the adopt-commit object.
    Decided,
    /// The number of the replica that is asked for an update.
    Holder,
    /// The id of that update.
    Held,
    /// The number of the replica that tells how it stands.
    Stands,
    /// A number of 32 bits.
    Amount,
    /// A number of 64 bits.
    Value,
    /// The id of an update, or the end.
    Tag,
    /// The bytes of an operation of one's own.
    Own,
    /// The end.
    End,
}

/// The first part of a line that is wrong.
#[derive(Clone, Copy)]
pub struct Wrong<'a> {
    /// What was to stand there.
    pub wanted: Wanted,
    /// The word that stands there; none where the line ends.
    pub word: Option<&'a [u8]>,
}

// What follows, where it does.
fn follows(stands: bool, next: Wanted) -> Option<Wanted>
    ensures { result ≡ follows stands next }
{
    if stands { Some(next) } else { None }
}

fn behind_call(word: &[u8]) -> Option<Wanted>
    ensures { result ≡ behind_call word.now }
{
    if word == SUBMIT {
        Some(Wanted::Submitter)
    } else if word == ASK {
        Some(Wanted::Asked)
    } else if word == b"decide".as_slice() {
        Some(Wanted::Decider)
    } else if word == UPDATE {
        Some(Wanted::Holder)
    } else if word == STATUS {
        Some(Wanted::Stands)
    } else if word == TICK {
        Some(Wanted::End)
    } else {
        None
    }
}

fn behind_verb(verb: Verb) -> Option<Wanted>
    ensures { result ≡ behind_verb verb }
{
    match verb {
        Verb::Inc | Verb::Dec => Some(Wanted::Amount),
        Verb::Raise | Verb::Put => Some(Wanted::Value),
        Verb::Remove => Some(Wanted::Tag),
        Verb::Own => Some(Wanted::Own),
        Verb::Mark => Some(Wanted::End),
        Verb::Vote | Verb::Sole => None,
    }
}

fn behind_operation(word: &[u8]) -> Option<Wanted>
    ensures { result ≡ behind_operation word.now }
{
    if word == TAKE {
        return Some(Wanted::Value);
    }
    behind_verb(Verb::of(word)?)
}

fn behind_question(word: &[u8]) -> Option<Wanted>
    ensures { result ≡ behind_question word.now }
{
    if word == b"total".as_slice() {
        Some(Wanted::End)
    } else if word == b"atleast".as_slice() {
        Some(Wanted::Value)
    } else if word == b"largest".as_slice() {
        Some(Wanted::End)
    } else if word == b"has".as_slice() {
        Some(Wanted::Value)
    } else if word == b"size".as_slice() || word == b"items".as_slice() {
        Some(Wanted::End)
    } else if word == TAGS {
        Some(Wanted::Value)
    } else if word == UPDATES {
        Some(Wanted::End)
    } else {
        None
    }
}

// Whether a word is a number up to the highest.
fn is_number(high: u64, word: &[u8]) -> bool
    ensures { result ≡ is_some (number 0 high word.now) }
{
    number(0, high, word).is_some()
}

fn is_byte(word: &[u8]) -> bool
    ensures { result ≡ is_some (number 0 u8_max word.now) }
{
    is_number(u64::from(u8::MAX), word)
}

fn is_object(word: &[u8]) -> bool
    ensures { result ≡ is_some (number 0 u16_max word.now) }
{
    is_number(u64::from(u16::MAX), word)
}

fn are_digits(word: &[u8]) -> bool
    ensures { result ≡ list_all is_ascii_hexdigit word.now }
{
    word.iter().all(|b| b.is_ascii_hexdigit())
}

// Whether a word says the bytes of an operation of one's own.
fn is_own_text(word: &[u8]) -> bool
    ensures { result ≡ is_own_text word.now }
{
    if word == b"-".as_slice() {
        return true;
    }
    let len = word.len();
    if len < 1 || len > MAX_OWN_DIGITS || len % 2 != 0 {
        return false;
    }
    are_digits(word)
}

impl Wanted {
    // What may stand behind a word, where it may stand here.
    fn behind(self, word: &[u8]) -> Option<Wanted>
        ensures { result ≡ wanted_behind self word.now }
    {
        match self {
            Wanted::Call => behind_call(word),
            Wanted::Submitter => follows(is_byte(word), Wanted::Changed),
            Wanted::Changed => follows(is_object(word), Wanted::Operation),
            Wanted::Operation => behind_operation(word),
            Wanted::Asked => follows(is_byte(word), Wanted::Looked),
            Wanted::Looked => follows(is_object(word), Wanted::Question),
            Wanted::Question => behind_question(word),
            Wanted::Decider => follows(is_byte(word), Wanted::Decided),
            Wanted::Decided => follows(is_byte(word), Wanted::Value),
            Wanted::Holder => follows(is_byte(word), Wanted::Held),
            Wanted::Held => follows(tag_of(word).is_some(), Wanted::End),
            Wanted::Stands => follows(is_byte(word), Wanted::End),
            Wanted::Amount => follows(is_number(u64::from(u32::MAX), word), Wanted::End),
            Wanted::Value => follows(is_number(u64::MAX, word), Wanted::End),
            Wanted::Tag => follows(tag_of(word).is_some(), Wanted::Tag),
            Wanted::Own => follows(is_own_text(word), Wanted::End),
            Wanted::End => None,
        }
    }

    // Whether a line may end here.
    fn may_end(self) -> bool
        ensures { result ≡ may_end self }
    {
        matches!(self, Wanted::Tag | Wanted::End)
    }

    /// What a word is told to be that does not stand for this: `is no operation`, and so on.
    pub(crate) fn is_none_text(self) -> &'static str
        ensures text { result.now ≡ is_none_text self }
        ensures short { length result.now ≤ 26 }
    {
        match self {
            Wanted::Call => "is no call",
            Wanted::Submitter | Wanted::Asked | Wanted::Decider => "is no replica",
            Wanted::Holder | Wanted::Stands => "is no replica",
            Wanted::Changed | Wanted::Looked => "is no object",
            Wanted::Operation => "is no operation",
            Wanted::Question => "is no question",
            Wanted::Decided => "is no adopt-commit object",
            Wanted::Amount => "is no number of 32 bits",
            Wanted::Value => "is no number of 64 bits",
            Wanted::Tag | Wanted::Held => "is no id of an update",
            Wanted::Own => "is no hexadecimal text",
            Wanted::End => "is a word too many",
        }
    }
}

// The first of the words that may not stand where it stands, or their end.
fn wrong_in<'a>(words: &[&'a [u8]]) -> Option<Wrong<'a>>
    ensures { option_map wrong_view result ≡ wrong_in Wanted.Call (bytes_of words.now) }
{
    let mut wanted = Wanted::Call;
    for word in words {
        match wanted.behind(word) {
            Some(next) => wanted = next,
            None => {
                return Some(Wrong {
                    wanted,
                    word: Some(*word),
                });
            }
        }
    }
    if wanted.may_end() {
        return None;
    }
    Some(Wrong { wanted, word: None })
}

/// The part of a client's line that is wrong, which has this fault, the first from the left: a word that may not stand
/// where it stands, of those that a client may write without a name, a number or what it waits for; or the line's end,
/// where something is missing. There is none of a line that is too long, of one of another replica's, or where each word
/// may stand, as in a remove of too many tags. It takes memory for the words, at a cost linear in the line.
pub fn wrong_part<'a>(
    alloc: Global,
    fault: LineFault,
    line: &'a [u8],
) -> Result<Option<Wrong<'a>>, AllocError>
    ensures { IfOk result (λ w. option_map wrong_view w ≡ wrong_of fault line.now) }
{
    match fault {
        LineFault::TooLong => Ok(None),
        LineFault::BadLine | LineFault::BadNumber => wrong_by_words(alloc, line),
    }
}

#[tactic(auto, unfolding(crate::specs::Wrongs::wrong_part))]
fn wrong_by_words<'a>(alloc: Global, line: &'a [u8]) -> Result<Option<Wrong<'a>>, AllocError>
    ensures { IfOk result (λ w. option_map wrong_view w ≡ wrong_part line.now) }
{
    if is_of_peer(line) {
        return Ok(None);
    }
    let words = words_of(alloc, line)?;
    Ok(wrong_in(&words))
}
