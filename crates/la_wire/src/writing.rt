// Letters, written as lines.
ghost use Rattle.std.specs.Prelude.{◌≡◌, ◌≤◌, ◌++◌, ◌∷◌, [], length, map, All, IfOk, OnOk};
ghost use Rattle.std.specs.Fmt.{decimal};
ghost use Rattle.la_set.specs.declared.update.Op.TheVariants.{Remove};
ghost use Rattle.la_set.specs.Tags.{IsTags};
ghost use Rattle.la_script.specs.Numbers.{u8_max, u32_max};
ghost use Rattle.la_script.specs.Text.{id_text};
ghost use Rattle.la_wire.specs.Joined.{spaced, joined_by};
ghost use Rattle.la_wire.specs.Updates.{op_words, update_words, update_text};
ghost use Rattle.la_wire.specs.Messages.{letter_message, said_content};
ghost use Rattle.la_wire.specs.MessageLines.{count_words, counts_text, base_words, base_word, carried};
ghost use Rattle.la_wire.specs.MessageLines.{kind_text, kind_in, progress_words, over_words, header_words, message_text, standing_text};
ghost use Rattle.la_wire.specs.Updates.{verb_spelling, own_text};
ghost use Rattle.la_wire.specs.declared.updates.Verb.TheVariants.{Own};
ghost use Rattle.la_wire.specs.Calls.{called};
ghost use Rattle.la_wire.specs.CallLines.{query_words, call_line_text};
ghost use Rattle.la_wire.specs.Writable.{IsIdFrom, IsOpFrom, IsUpdateFrom, IsBodyFrom, IsCounts, IsTypedMessage};

use crate::counts::put_counts_text;
use crate::messages::{KNOWN, Kind};
use crate::updates::{MAX_OWN_DIGITS, Verb};
use crate::{Call, Letter};
use itoa::Buffer;
use la_node::Standing;
use la_object::Query;
use la_own::{OWN_BYTES, own_bytes};
use la_replica::{Content, Parcel, Progress};
use la_set::{Counts, Delta, Op, REPLICAS, Tags, Update, UpdateId};
use std::alloc::{AllocError, Global};

pub(crate) fn put_decimal(out: &mut Vec<u8>, number: u64) -> Result<(), AllocError>
    ensures { OnOk result (out.new.items ≡ out.old.items ++ decimal number) }
{
    out.extend_from_slice(Buffer::new().format(number).as_bytes())
}

// Writes a word behind others.
pub(crate) fn put_word(out: &mut Vec<u8>, word: &[u8]) -> Result<(), AllocError>
    ensures { OnOk result (out.new.items ≡ out.old.items ++ 32 ∷ word.now) }
{
    out.push(b' ')?;
    out.extend_from_slice(word)
}

// Writes a number behind other words.
pub(crate) fn put_number(out: &mut Vec<u8>, number: u64) -> Result<(), AllocError>
    ensures { OnOk result (out.new.items ≡ out.old.items ++ 32 ∷ decimal number) }
{
    out.push(b' ')?;
    put_decimal(out, number)
}

fn put_id(out: &mut Vec<u8>, id: UpdateId) -> Result<(), AllocError>
    ensures exact { OnOk result (out.new.items ≡ out.old.items ++ id_text id) }
    ensures typed { OnOk result (IsIdFrom 0 id) }
{
    put_decimal(out, u64::from(id.replica))?;
    out.push(b'.')?;
    put_decimal(out, u64::from(id.number))
}

// Writes an id behind other words.
pub(crate) fn put_tag(out: &mut Vec<u8>, tag: UpdateId) -> Result<(), AllocError>
    ensures exact { OnOk result (out.new.items ≡ out.old.items ++ 32 ∷ id_text tag) }
    ensures typed { OnOk result (IsIdFrom 0 tag) }
{
    out.push(b' ')?;
    put_id(out, tag)
}

// Writes ids behind other words.
pub(crate) fn put_tags(out: &mut Vec<u8>, tags: &Tags) -> Result<(), AllocError>
    ensures exact { OnOk result (out.new.items ≡ out.old.items ++ spaced 32 (map id_text tags.now)) }
    ensures typed { OnOk result (IsTags tags.now × All (IsIdFrom 0) tags.now) }
{
    for place in 0..tags.len() {
        let Some(tag) = tags.at(place) else {
            unreachable!()
        };
        put_tag(out, *tag)?;
    }
    Ok(())
}

// Writes a verb and its number.
fn put_verb(out: &mut Vec<u8>, verb: Verb, number: u64) -> Result<(), AllocError>
    ensures { OnOk result
        (out.new.items ≡ out.old.items ++ spaced 32 (verb_spelling verb ∷ decimal number ∷ [])) }
{
    put_word(out, verb.spelling())?;
    put_number(out, number)
}

// Writes an operation of one's own.
fn put_own(out: &mut Vec<u8>, bytes: &[u8]) -> Result<(), AllocError>
    requires { length bytes.now ≤ OWN_BYTES }
    ensures { OnOk result
        (out.new.items ≡ out.old.items ++ spaced 32 (verb_spelling Own ∷ own_text bytes.now ∷ [])) }
{
    put_word(out, Verb::Own.spelling())?;
    if bytes.is_empty() {
        return put_word(out, b"-");
    }
    let mut room = [0; MAX_OWN_DIGITS];
    let digits = &mut room[..2 * bytes.len()];
    match hex::encode_to_slice(bytes, digits) {
        Ok(()) => put_word(out, digits),
        Err(_) => unreachable!(),
    }
}

// Writes a remove, which has these tags.
fn put_remove(out: &mut Vec<u8>, op: &Op, tags: &Tags) -> Result<(), AllocError>
    requires { op.now ≡ Remove tags.now }
    ensures exact { OnOk result (out.new.items ≡ out.old.items ++ spaced 32 (op_words op.now)) }
    ensures typed { OnOk result (IsOpFrom 0 op.now) }
{
    // a hint to the prover: tags are a set
    let _few = tags.len();
    match own_bytes(op) {
        Some(bytes) => put_own(out, bytes.as_slice()),
        None => {
            put_word(out, Verb::Remove.spelling())?;
            put_tags(out, tags)
        }
    }
}

fn put_op(out: &mut Vec<u8>, op: &Op) -> Result<(), AllocError>
    ensures exact { OnOk result (out.new.items ≡ out.old.items ++ spaced 32 (op_words op.now)) }
    ensures typed { OnOk result (IsOpFrom 0 op.now) }
{
    match op {
        Op::Inc(by) => put_verb(out, Verb::Inc, u64::from(*by)),
        Op::Dec(by) => put_verb(out, Verb::Dec, u64::from(*by)),
        Op::Raise(to) => put_verb(out, Verb::Raise, *to),
        Op::Put(element) => put_verb(out, Verb::Put, *element),
        Op::Remove(tags) => put_remove(out, op, tags),
        Op::Mark => put_word(out, Verb::Mark.spelling()),
        Op::Vote { value, sole } => put_verb(out, Verb::of_vote(*sole), *value),
    }
}

// Writes an update behind other words.
pub(crate) fn put_update_words(out: &mut Vec<u8>, update: &Update) -> Result<(), AllocError>
    ensures { OnOk result (out.new.items ≡ out.old.items ++ spaced 32 (update_words update.now)) }
{
    put_tag(out, update.id)?;
    put_number(out, u64::from(update.object))?;
    put_op(out, &update.op)
}

// Writes an update as a part behind others.
fn put_update(out: &mut Vec<u8>, update: &Update) -> Result<(), AllocError>
    ensures exact { OnOk result (out.new.items ≡ out.old.items ++ 59 ∷ update_text update.now) }
    ensures typed { OnOk result (IsUpdateFrom 0 update.now) }
{
    out.push(b';')?;
    put_id(out, update.id)?;
    put_number(out, u64::from(update.object))?;
    put_op(out, &update.op)
}

pub(crate) fn put_delta(out: &mut Vec<u8>, delta: &Delta) -> Result<(), AllocError>
    ensures exact { OnOk result
        (out.new.items ≡ out.old.items ++ spaced 59 (map update_text delta.now.more)) }
    ensures typed { OnOk result (All (IsUpdateFrom 0) delta.now.more) }
{
    for place in 0..delta.len() {
        let Some(update) = delta.at(place) else {
            unreachable!()
        };
        put_update(out, update)?;
    }
    Ok(())
}

#[tactic(auto, using(crate::proofs::UpdateLists::next_count))]
pub(crate) fn put_counts(out: &mut Vec<u8>, counts: Counts) -> Result<(), AllocError>
    ensures { OnOk result (out.new.items ≡ out.old.items ++ spaced 32 (count_words counts)) }
{
    for replica in 0..REPLICAS {
        put_number(out, u64::from(counts.of(replica)))?;
    }
    Ok(())
}

// Writes counts as one word, behind this one.
pub(crate) fn put_labelled(
    out: &mut Vec<u8>,
    label: &[u8],
    counts: Counts,
) -> Result<(), AllocError>
    ensures exact { OnOk result
        (out.new.items ≡ out.old.items ++ spaced 32 (label.now ∷ counts_text counts ∷ [])) }
    ensures typed { OnOk result (IsCounts counts) }
{
    put_word(out, label)?;
    out.push(b' ')?;
    put_counts_text(out, counts)
}

// Writes the base, and then the updates.
fn put_over(out: &mut Vec<u8>, delta: &Delta) -> Result<(), AllocError>
    ensures exact { OnOk result (out.new.items ≡ out.old.items
        ++ spaced 32 (base_word ∷ counts_text delta.now.base ∷ [])
        ++ spaced 59 (map update_text delta.now.more)) }
    ensures typed { OnOk result (IsCounts delta.now.base × All (IsUpdateFrom 0) delta.now.more) }
{
    put_labelled(out, b"base", delta.base())?;
    put_delta(out, delta)
}

// Writes the base and the updates, where there are any.
fn put_content(out: &mut Vec<u8>, content: &Content) -> Result<(), AllocError>
    ensures exact { OnOk result (out.new.items ≡ out.old.items
        ++ spaced 32 (base_words (said_content content.now))
        ++ spaced 59 (map update_text (carried (said_content content.now)))) }
    ensures typed { OnOk result (IsBodyFrom 0 (said_content content.now)) }
{
    match content {
        Content::Offer(delta) | Content::No(delta) | Content::Tell(delta) => put_over(out, delta),
        Content::Yes => Ok(()),
    }
}

fn kind_of(content: &Content) -> Kind
    ensures { result ≡ kind_in (said_content content.now) }
{
    match content {
        Content::Offer(_) => Kind::Offer,
        Content::Yes => Kind::Yes,
        Content::No(_) => Kind::No,
        Content::Tell(_) => Kind::Tell,
    }
}

// Writes the kind and the numbers behind it.
fn put_header(out: &mut Vec<u8>, letter: &Letter) -> Result<(), AllocError>
    ensures exact { OnOk result (out.new.items ≡ out.old.items ++ joined_by 32 (header_words (letter_message letter.now))) }
    ensures typed { OnOk result ((letter.now.replicas ≤ u8_max)
        × (letter.now.parcel.from ≤ u8_max) × (letter.now.parcel.to ≤ u8_max)
        × (letter.now.parcel.instance ≤ u8_max) × (letter.now.parcel.ballot ≤ u32_max)) }
{
    let parcel = &letter.parcel;
    out.extend_from_slice(kind_of(&parcel.content).spelling())?;
    put_number(out, u64::from(letter.replicas))?;
    put_number(out, u64::from(parcel.from))?;
    put_number(out, u64::from(parcel.to))?;
    put_number(out, u64::from(parcel.instance))?;
    put_number(out, u64::from(parcel.ballot))
}

// Writes how far a replica is behind other words.
pub(crate) fn put_progress(out: &mut Vec<u8>, progress: Progress) -> Result<(), AllocError>
    ensures exact { OnOk result (out.new.items ≡ out.old.items ++ spaced 32 (progress_words progress)) }
    ensures typed { OnOk result (IsCounts progress.accepted × IsCounts progress.view) }
{
    put_labelled(out, b"has", progress.accepted)?;
    put_labelled(out, b"view", progress.view)
}

/// Puts the line of a letter behind what is there, without the line's end, at a cost linear in it but for
/// finding each update. After a refusal a part of it may stand there. A letter that was written is in the ranges
/// of its types.
pub fn put_letter(out: &mut Vec<u8>, letter: &Letter) -> Result<(), AllocError>
    ensures exact { OnOk result (out.new.items ≡ out.old.items ++ message_text (letter_message letter.now)) }
    ensures typed { OnOk result (IsTypedMessage (letter_message letter.now)) }
{
    put_header(out, letter)?;
    put_progress(out, letter.progress)?;
    put_content(out, &letter.parcel.content)
}

// Writes over what the letter was told that is answered.
fn put_bases(out: &mut Vec<u8>, over: Progress) -> Result<(), AllocError>
    ensures { OnOk result (out.new.items ≡ out.old.items ++ spaced 32 (over_words over)) }
{
    put_labelled(out, Kind::Offer.spelling(), over.accepted)?;
    put_labelled(out, Kind::Tell.spelling(), over.view)
}

/// Puts how far a replica is behind what is there, without the line's end. After a refusal a part of it may stand
/// there.
pub(crate) fn put_standing(out: &mut Vec<u8>, standing: &Standing) -> Result<(), AllocError>
    ensures { OnOk result (out.new.items ≡ out.old.items ++ standing_text standing.now) }
{
    out.extend_from_slice(KNOWN)?;
    put_number(out, u64::from(standing.replicas))?;
    put_number(out, u64::from(standing.from))?;
    put_number(out, u64::from(standing.to))?;
    put_progress(out, standing.progress)?;
    put_bases(out, standing.over)
}

// Writes a question's words.
fn put_query(out: &mut Vec<u8>, query: Query) -> Result<(), AllocError>
    ensures { OnOk result (out.new.items ≡ out.old.items ++ spaced 32 (query_words query)) }
{
    match query {
        Query::Total => put_word(out, b"total"),
        Query::AtLeast(bound) => {
            put_word(out, b"atleast")?;
            put_number(out, bound)
        }
        Query::Largest => put_word(out, b"largest"),
        Query::Has(element) => {
            put_word(out, b"has")?;
            put_number(out, element)
        }
        Query::Size => put_word(out, b"size"),
        Query::Items => put_word(out, b"items"),
    }
}

// Writes a call's first word, and the numbers of a replica and of an object.
fn put_front(out: &mut Vec<u8>, word: &[u8], replica: u8, object: u16) -> Result<(), AllocError>
    ensures { OnOk result (out.new.items
        ≡ out.old.items ++ joined_by 32 (word.now ∷ decimal replica ∷ decimal object ∷ [])) }
{
    out.extend_from_slice(word)?;
    put_number(out, u64::from(replica))?;
    put_number(out, u64::from(object))
}

// Writes a call's line behind what is there.
fn put_call(out: &mut Vec<u8>, call: &Call) -> Result<(), AllocError>
    ensures { OnOk result (out.new.items ≡ out.old.items ++ call_line_text (called call.now)) }
{
    match call {
        Call::Submit {
            replica,
            object,
            op,
        } => {
            put_front(out, b"submit", *replica, *object)?;
            put_op(out, op)
        }
        Call::Decide {
            replica,
            commit,
            value,
        } => {
            put_front(out, b"decide", *replica, u16::from(*commit))?;
            put_number(out, *value)
        }
        Call::Ask {
            replica,
            object,
            query,
        } => {
            put_front(out, b"ask", *replica, *object)?;
            put_query(out, *query)
        }
        Call::Tick => out.extend_from_slice(b"tick"),
        Call::Receive(letter) => put_letter(out, letter),
        Call::Known(standing) => put_standing(out, standing),
    }
}

/// The line of a call, without the line's end, at the cost of [`put_letter`]. A call that can be had, with a vote
/// in no submission and with ids from 1, is read back from it ([`laws`](crate::laws)).
pub fn write(alloc: Global, call: &Call) -> Result<Vec<u8>, AllocError>
    ensures { IfOk result (λ line. line.items ≡ call_line_text (called call.now)) }
{
    let mut line = Vec::new(alloc);
    put_call(&mut line, call)?;
    Ok(line)
}
