ghost use Rattle.std.specs.Prelude.{◌≡◌, ◌≢◌, None, IsOk, IfOk};
ghost use Rattle.std.specs.Option.{option_copied};
ghost use Rattle.la_set.specs.Counts.{HasCounts, counts_of};
ghost use Rattle.la_set.specs.Histories.{Histories};
ghost use Rattle.la_acceptor.specs.declared.reply.Reply.TheVariants.{No};
ghost use Rattle.la_proposer.specs.Tally.{reply_carrying};
ghost use Rattle.la_replica.specs.Whole.{lent_message, lent_body, whole_of};
ghost use Rattle.la_replica.specs.Received.{message_with};
ghost use Rattle.la_replica.specs.Messages.{reply_in, reply_to};
ghost use Rattle.la_replica.specs.Bases.{IsToldBody};

use crate::{Body, Message};
use la_acceptor::Reply;
use la_set::{Counts, Delta, UpdateSet};
use std::alloc::AllocError;

/// A message as an instance that receives it has it: its set is whole, and lent.
#[derive(Clone, Copy)]
pub struct Whole<'a> {
    pub instance: u8,
    pub from: u8,
    pub to: u8,
    pub ballot: u32,
    pub body: WholeBody<'a>,
}

/// What a message says, with its set whole.
#[derive(Clone, Copy)]
pub enum WholeBody<'a> {
    Offer(&'a UpdateSet),
    Yes,
    No(&'a UpdateSet),
    Tell(&'a UpdateSet),
}

/// A delta that a message tells, the set over which it is, and one that has much of the same.
#[derive(Clone, Copy)]
pub struct Told<'a> {
    pub over: &'a UpdateSet,
    pub beside: &'a UpdateSet,
    pub delta: &'a Delta,
}

impl<'a> Whole<'a> {
    // A message, with this set in the place of its delta; without one nothing of a delta is looked
    // at.
    pub fn of(message: &'a Message, set: Option<&'a UpdateSet>) -> Whole<'a>
        ensures { lent_message result ≡ message_with (option_copied set.entry) message.now }
    {
        let body = match (&message.body, set) {
            (Body::Offer(_), Some(offered)) => WholeBody::Offer(offered),
            (Body::No(_), Some(accepted)) => WholeBody::No(accepted),
            (Body::Offer(_) | Body::No(_), None) | (Body::Yes, _) => WholeBody::Yes,
            (Body::Tell(told), _) => WholeBody::Tell(told),
        };
        Whole {
            instance: message.instance,
            from: message.from,
            to: message.to,
            ballot: message.ballot,
            body,
        }
    }

    // The refused set that the message carries, where it is a No.
    pub fn refusal(self) -> Option<&'a UpdateSet>
        ensures reply { reply_carrying result ≡ reply_in (lent_body self.entry.body) }
        ensures yes { reply_in (lent_body self.entry.body) ≡ Reply.Yes → result ≡ None }
    {
        match self.body {
            WholeBody::No(accepted) => Some(accepted),
            _ => None,
        }
    }

    // The reply that the message carries. The copy of an acknowledgement takes no memory.
    pub fn reply(self) -> Result<Reply, AllocError>
        ensures reply { IfOk result (λ reply. reply ≡ reply_in (lent_body self.entry.body)) }
        ensures yes { reply_in (lent_body self.entry.body) ≡ Reply.Yes → IsOk result }
    {
        match self.refusal() {
            Some(accepted) => Ok(Reply::No(accepted.copy()?)),
            None => Ok(Reply::Yes),
        }
    }

    // The message that takes a reply to this offer back, over what was offered.
    pub fn answered(self, offered: Counts, reply: &Reply) -> Result<Message, AllocError>
        requires { (accepted : Histories) → reply.now ≡ No accepted → HasCounts accepted offered }
        ensures ok { IfOk result (λ message.
            whole_of message ≡ reply_to (lent_message self.entry) reply.now) }
        ensures told { (reported : Counts)
            → IfOk result (λ message. IsToldBody reported offered message.body) }
        ensures free { reply.now ≡ Reply.Yes → IsOk result }
    {
        let body = match reply {
            Reply::Yes => Body::Yes,
            Reply::No(accepted) => Body::No(accepted.over(offered)?),
        };
        Ok(Message {
            instance: self.instance,
            from: self.to,
            to: self.from,
            ballot: self.ballot,
            body,
        })
    }
}
