// What a process counts of messages, refusals and syncs, for whoever asks how it stands: no contract says what.
use la_node::{Links, Sending};
use la_replica::{Body, Content, Mail};
use la_wire::{Call, Kinds, Tally};

fn count(number: &mut u64) {
    *number = number.saturating_add(1);
}

/// A call came.
pub fn count_received(kinds: &mut Kinds, call: &Call) {
    match call {
        Call::Receive(letter) => match &letter.parcel.content {
            Content::Offer(_) => count(&mut kinds.offers),
            Content::Yes => count(&mut kinds.yes),
            Content::No(_) => count(&mut kinds.no),
            Content::Tell(_) => count(&mut kinds.tells),
        },
        Call::Known(_) => count(&mut kinds.known),
        _ => {}
    }
}

fn count_body(kinds: &mut Kinds, body: &Body) {
    match body {
        Body::Offer(_) => count(&mut kinds.offers),
        Body::Yes => count(&mut kinds.yes),
        Body::No(_) => count(&mut kinds.no),
        Body::Tell(_) => count(&mut kinds.tells),
    }
}

/// Of some mail that was sent which these links choose for this.
pub fn count_mail(kinds: &mut Kinds, links: &Links, mail: &Mail, why: Sending) {
    for message in mail.all() {
        if links.is_chosen(why, message) {
            count_body(kinds, &message.body);
        }
    }
}

/// A standing was sent.
pub fn count_known(kinds: &mut Kinds) {
    count(&mut kinds.known);
}

/// A line was refused.
pub fn count_refused(tally: &mut Tally) {
    count(&mut tally.refused);
}

/// So many bytes were put into the journal, by one sync, if any were.
pub fn count_sync(tally: &mut Tally, bytes: usize) {
    if bytes == 0 {
        return;
    }
    tally.written = tally.written.saturating_add(bytes as u64);
    count(&mut tally.syncs);
}
