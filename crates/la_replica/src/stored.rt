ghost use Rattle.std.specs.Prelude.{◌≡◌, IsOk, IfOk};
ghost use Rattle.la_replica.specs.declared.message.Body.TheVariants.{Yes};
ghost use Rattle.la_replica.specs.Stored.{IsMade, IsMadeBody, kind_of, told_by};

use crate::{Body, Message};
use la_set::{SharedDelta, UpdateSet};
use std::alloc::{AllocError, Global};
use std::marker::Model;

/// A message as it is kept where there are many: in 48 bytes, where a [`Message`] takes 80. What it
/// says of a set was made of that set, which it shares.
#[derive(Drop)]
pub struct StoredMessage {
    instance: u8,
    from: u8,
    to: u8,
    kind: Kind,
    ballot: u32,
    // What it says of a set; of the empty one, where it says nothing of any.
    told: SharedDelta,
}

// Which body a message has.
#[derive(Clone, Copy, Drop)]
enum Kind {
    Offer,
    Yes,
    No,
    Tell,
}

impl Model for StoredMessage {
    ghost use Rattle.la_replica.specs.declared.message.Message.{Message};
    ghost use Rattle.la_replica.specs.Stored.{message_of};

    ghost Value = { Message };

    ghost view = { message_of };
}

impl StoredMessage {
    /// The message, which a replica's step sent: then what it says of a set was made of that. It takes
    /// no memory.
    pub fn of(alloc: Global, message: Message) -> StoredMessage
        requires { IsMade message }
        ensures { result ≡ message }
    {
        let Message {
            instance,
            from,
            to,
            ballot,
            body,
        } = message;
        let kind = kind_of(&body);
        StoredMessage {
            instance,
            from,
            to,
            kind,
            ballot,
            told: told_by(alloc, body),
        }
    }

    /// The instance that the message belongs to, from 0.
    pub fn instance(&self) -> u8
        ensures { result ≡ self.now.instance }
    {
        self.instance
    }

    /// The replica that the message goes to.
    pub fn to(&self) -> u8
        ensures { result ≡ self.now.to }
    {
        self.to
    }

    /// The message, at the cost of a copy of it: where it is an acknowledgement that takes no memory.
    #[inline(always)]
    pub fn message(&self) -> Result<Message, AllocError>
        ensures ok { IfOk result (λ message. message ≡ self.now) }
        ensures yes { self.now.body ≡ Yes → IsOk result }
    {
        Ok(Message {
            instance: self.instance,
            from: self.from,
            to: self.to,
            ballot: self.ballot,
            body: self.body()?,
        })
    }

    #[inline(always)]
    fn body(&self) -> Result<Body, AllocError>
        ensures ok { IfOk result (λ body. body ≡ self.now.body) }
        ensures yes { self.now.body ≡ Yes → IsOk result }
    {
        Ok(match self.kind {
            Kind::Offer => Body::Offer(self.told.delta()?),
            Kind::Yes => Body::Yes,
            Kind::No => Body::No(self.told.delta()?),
            Kind::Tell => Body::Tell(self.told.updates().copy()?),
        })
    }
}

fn kind_of(body: &Body) -> Kind
    ensures { result ≡ kind_of body.now }
{
    match body {
        Body::Offer(_) => Kind::Offer,
        Body::Yes => Kind::Yes,
        Body::No(_) => Kind::No,
        Body::Tell(_) => Kind::Tell,
    }
}

// What a body says of a set.
fn told_by(alloc: Global, body: Body) -> SharedDelta
    requires { IsMadeBody body }
    ensures { result ≡ told_by body }
{
    match body {
        Body::Offer(delta) | Body::No(delta) => SharedDelta::of(delta),
        Body::Yes => SharedDelta::all(UpdateSet::new(alloc)),
        Body::Tell(told) => SharedDelta::all(told),
    }
}
