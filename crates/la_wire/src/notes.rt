// Lines that a node writes: letters, and notes, which begin with `#`.
ghost use Rattle.std.specs.Prelude.{◌≡◌, ◌++◌, ◌∷◌, [], codes, OnOk};
ghost use Rattle.std.specs.Fmt.{decimal};
ghost use Rattle.la_wire.specs.Messages.{letter_message};
ghost use Rattle.la_wire.specs.Writable.{IsTypedMessage};
ghost use Rattle.la_wire.specs.Notes.{outcome_word, message_line, known_line};
ghost use Rattle.la_wire.specs.Notes.{submitted_note, proposed_note, learnt_note, view_note};
ghost use Rattle.la_wire.specs.Notes.{outcome_note, answered_note, begun_note, tags_note, updates_note, waiting_note};
ghost use Rattle.la_wire.specs.Notes.{update_note};
ghost use Rattle.la_wire.specs.Joined.{spaced};
ghost use Rattle.la_wire.specs.Requests.{name_words};

use crate::writing::{
    put_counts, put_decimal, put_letter, put_number, put_standing, put_tag, put_tags,
    put_update_words, put_word,
};
use crate::{Letter, Standing};
use la_commit::Outcome;
use la_object::Answer;
use la_script::{Pieces, put_answer};
use la_set::{Counts, Tags, Update, UpdateId};
use std::alloc::{AllocError, Global};

/// Begins a note of a replica's with a word.
pub(crate) fn put_front(out: &mut Vec<u8>, own: u8, word: &[u8]) -> Result<(), AllocError>
    ensures { OnOk result (out.new.items ≡ out.old.items ++ codes "# r" ++ decimal own ++ 32 ∷ word.now) }
{
    out.extend_from_slice(b"# r")?;
    put_decimal(out, u64::from(own))?;
    put_word(out, word)
}

/// Ends a note.
pub(crate) fn put_end(out: &mut Vec<u8>) -> Result<(), AllocError>
    ensures { OnOk result (out.new.items ≡ out.old.items ++ 10 ∷ []) }
{
    out.push(b'\n')?;
    Ok(())
}

/// Writes the name of a request behind what answers it, where it has one.
pub(crate) fn put_name(out: &mut Vec<u8>, name: &str) -> Result<(), AllocError>
    ensures { OnOk result (out.new.items ≡ out.old.items ++ spaced 32 (name_words name.now)) }
{
    if name.is_empty() {
        return Ok(());
    }
    out.extend_from_slice(b" @")?;
    out.extend_from_slice(name.as_bytes())
}

/// Notes that an update was submitted, by its number, in answer to a request of this name. After a refusal a part of
/// the note may stand there.
pub fn put_submitted(out: &mut Vec<u8>, own: u8, number: u32, name: &str) -> Result<(), AllocError>
    ensures { OnOk result (out.new.items ≡ out.old.items ++ submitted_note own number name.now) }
{
    put_front(out, own, b"submitted")?;
    put_tag(
        out,
        UpdateId {
            replica: own,
            number,
        },
    )?;
    put_name(out, name)?;
    put_end(out)
}

/// Notes that a value was proposed to an object, in answer to a request of this name. After a refusal a part of the
/// note may stand there.
pub fn put_proposed(out: &mut Vec<u8>, own: u8, commit: u8, name: &str) -> Result<(), AllocError>
    ensures { OnOk result (out.new.items ≡ out.old.items ++ proposed_note own commit name.now) }
{
    put_front(out, own, b"proposed")?;
    put_number(out, u64::from(commit))?;
    put_name(out, name)?;
    put_end(out)
}

/// Notes that a ballot's set was learnt. After a refusal a part of the note may stand there.
pub fn put_learnt(
    out: &mut Vec<u8>,
    own: u8,
    instance: u8,
    ballot: u32,
    counts: Counts,
) -> Result<(), AllocError>
    ensures { OnOk result (out.new.items ≡ out.old.items ++ learnt_note own instance ballot counts) }
{
    put_front(out, own, b"learnt")?;
    put_number(out, u64::from(instance))?;
    put_number(out, u64::from(ballot))?;
    put_counts(out, counts)?;
    put_end(out)
}

/// Notes that the view has grown to these counts. After a refusal a part of the note may stand there.
pub fn put_view(out: &mut Vec<u8>, own: u8, counts: Counts) -> Result<(), AllocError>
    ensures { OnOk result (out.new.items ≡ out.old.items ++ view_note own counts) }
{
    put_front(out, own, b"view")?;
    put_counts(out, counts)?;
    put_end(out)
}

fn outcome_word(outcome: Outcome) -> &'static [u8]
    ensures { result.now ≡ outcome_word outcome }
{
    match outcome {
        Outcome::Commit(_) => b"commit",
        Outcome::Adopt(_) => b"adopt",
    }
}

/// Notes what was returned from an object. After a refusal a part of the note may stand there.
pub fn put_outcome(
    out: &mut Vec<u8>,
    own: u8,
    commit: u8,
    outcome: Outcome,
) -> Result<(), AllocError>
    ensures { OnOk result (out.new.items ≡ out.old.items ++ outcome_note own commit outcome) }
{
    put_front(out, own, b"outcome")?;
    put_number(out, u64::from(commit))?;
    put_word(out, outcome_word(outcome))?;
    put_number(out, outcome.value())?;
    put_end(out)
}

// Writes the pieces of a text.
fn put_pieces(out: &mut Vec<u8>, pieces: &Pieces) -> Result<(), AllocError>
    ensures { OnOk result (out.new.items ≡ out.old.items ++ pieces.now) }
{
    let mut walk = pieces.walk();
    while let Some(piece) = walk.next() {
        out.extend_from_slice(piece.bytes())?;
    }
    Ok(())
}

/// Notes what an object answered, to a request of this name. After a refusal a part of the note may stand there.
pub fn put_answered(
    alloc: Global,
    out: &mut Vec<u8>,
    own: u8,
    object: u16,
    answer: &Answer,
    name: &str,
) -> Result<(), AllocError>
    ensures { OnOk result (out.new.items ≡ out.old.items ++ answered_note own object answer.now name.now) }
{
    let mut pieces = Pieces::new(alloc);
    put_answer(&mut pieces, answer)?;
    put_front(out, own, b"answered")?;
    put_number(out, u64::from(object))?;
    out.push(b' ')?;
    put_pieces(out, &pieces)?;
    put_name(out, name)?;
    put_end(out)
}

// Begins an answer of an object with a word.
fn put_answering(out: &mut Vec<u8>, own: u8, object: u16, word: &[u8]) -> Result<(), AllocError>
    ensures { OnOk result (out.new.items
        ≡ out.old.items ++ begun_note own (codes "answered" ∷ decimal object ∷ word.now ∷ [])) }
{
    put_front(out, own, b"answered")?;
    put_number(out, u64::from(object))?;
    put_word(out, word)
}

/// Notes by which updates an object still has an element, to a request of this name. After a refusal a part of the note
/// may stand there.
pub fn put_tags_answer(
    out: &mut Vec<u8>,
    own: u8,
    object: u16,
    tags: &Tags,
    name: &str,
) -> Result<(), AllocError>
    ensures { OnOk result (out.new.items ≡ out.old.items ++ tags_note own object tags.now name.now) }
{
    put_answering(out, own, object, b"tags")?;
    put_tags(out, tags)?;
    put_name(out, name)?;
    put_end(out)
}

/// Notes how many updates of an object there are, of each replica, to a request of this name. After a refusal a part of
/// the note may stand there.
pub fn put_updates_answer(
    out: &mut Vec<u8>,
    own: u8,
    object: u16,
    counts: Counts,
    name: &str,
) -> Result<(), AllocError>
    ensures { OnOk result (out.new.items ≡ out.old.items ++ updates_note own object counts name.now) }
{
    put_answering(out, own, object, b"updates")?;
    put_counts(out, counts)?;
    put_name(out, name)?;
    put_end(out)
}

/// Puts an update of the view, in answer to a request of this name.
pub fn put_update_answer(
    out: &mut Vec<u8>,
    own: u8,
    update: &Update,
    name: &str,
) -> Result<(), AllocError>
    ensures { OnOk result (out.new.items ≡ out.old.items ++ update_note own update.now name.now) }
{
    put_front(out, own, b"update")?;
    put_update_words(out, update)?;
    put_name(out, name)?;
    put_end(out)
}

/// Notes that a request of this name waits for an update. After a refusal a part of the note may stand there.
pub fn put_waiting(
    out: &mut Vec<u8>,
    own: u8,
    after: UpdateId,
    name: &str,
) -> Result<(), AllocError>
    ensures { OnOk result (out.new.items ≡ out.old.items ++ waiting_note own after name.now) }
{
    put_front(out, own, b"waiting")?;
    put_tag(out, after)?;
    put_name(out, name)?;
    put_end(out)
}

/// Writes a letter as a line, with the line's end. After a refusal a part of it may stand there. A letter that was
/// written is in the ranges of its types.
pub fn put_letter_line(out: &mut Vec<u8>, letter: &Letter) -> Result<(), AllocError>
    ensures exact { OnOk result (out.new.items ≡ out.old.items ++ message_line letter.now) }
    ensures typed { OnOk result (IsTypedMessage (letter_message letter.now)) }
{
    put_letter(out, letter)?;
    put_end(out)
}

/// Writes how far a replica is as a line, with the line's end. After a refusal a part of it may stand there.
pub fn put_known_line(out: &mut Vec<u8>, standing: &Standing) -> Result<(), AllocError>
    ensures { OnOk result (out.new.items ≡ out.old.items ++ known_line standing.now) }
{
    put_standing(out, standing)?;
    put_end(out)
}
