// Lines of few words.
ghost use Rattle.std.specs.Prelude.{◌≡◌, IfSome};
ghost use Rattle.la_script.specs.Text.{did_text, line_text};
ghost use Rattle.la_script.specs.Plain.{plain_text, plain_did, plain_in};

use crate::marks::Plain;
use la_acceptor::Reply;
use la_world::{Did, Line};

// The acknowledgement that is sent alone, where its number has 32 bits.
fn yes_of(first: u64, sent: u32) -> Option<Plain>
    ensures exact { result ≡ plain_did (Did.Answered Reply.Yes) first sent }
    ensures text { IfSome result (λ plain.
        plain_text plain ≡ did_text (Did.Answered Reply.Yes) first sent) }
{
    if sent == 1 && first <= u64::from(u32::MAX) {
        return Some(Plain::Yes(first as u32));
    }
    None
}

// The same of what an event did.
fn plain_did(did: &Did, first: u64, sent: u32) -> Option<Plain>
    ensures exact { result ≡ plain_did did.now first sent }
    ensures text { IfSome result (λ plain. plain_text plain ≡ did_text did.now first sent) }
{
    match did {
        Did::Counted => Some(Plain::Counted),
        Did::Ignored => Some(Plain::Ignored),
        Did::Kept => Some(Plain::Kept),
        Did::Answered(Reply::Yes) => yes_of(first, sent),
        _ => None,
    }
}

/// A line of few words as what it says, where it is one.
pub fn plain_of(line: &Line) -> Option<Plain>
    ensures exact { result ≡ plain_in line.now }
    ensures text { IfSome result (λ plain. plain_text plain ≡ line_text line.now) }
{
    match line {
        Line::Done(step) => plain_did(&step.did, step.first, step.sent),
        Line::Refused(_) => None,
    }
}
